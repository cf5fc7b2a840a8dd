//! Laws of stored tokens, for the proofs of crates above. Calling a law does nothing: its contract
//! is the statement.
ghost use Rattle.std.specs.Prelude.{◌≡◌, ◌↔◌, ℕ, ◌*◌, ◌≤◌, List, [], ◌++◌, length};
ghost use Rattle.token_bytes.specs.Packing.{records, table_after, tokens_in};
ghost use Rattle.tt_data.specs.declared.tree.TokenTree.{TokenTree};

/// Records and their table give the tokens back, whatever follows both. Records of two lists, one
/// after the other, follow each other, and the table goes on. A record has at most 31 bytes. Two
/// lists are equal exactly where their bytes and their tables are.
pub fn stored_tokens()
    ensures back { (table others : List (List ℕ)) (ts : List TokenTree) (more : List ℕ) →
        tokens_in (length ts) (table_after table ts ++ others) (records table ts ++ more) ≡ ts }
    ensures appended { (table : List (List ℕ)) (a b : List TokenTree) →
        records table (a ++ b) ≡ records table a ++ records (table_after table a) b }
    ensures table_appended { (table : List (List ℕ)) (a b : List TokenTree) →
        table_after table (a ++ b) ≡ table_after (table_after table a) b }
    ensures table_begins { (table : List (List ℕ)) (ts : List TokenTree) →
        (more : List (List ℕ)) × (table_after table ts ≡ table ++ more) }
    ensures size { (table : List (List ℕ)) (ts : List TokenTree) → length (records table ts)
        ≤ 31 * length ts }
    ensures same { (a b : List TokenTree) →
        ((records [] a ≡ records [] b) × (table_after [] a ≡ table_after [] b)) ↔ (a ≡ b) }
{}
