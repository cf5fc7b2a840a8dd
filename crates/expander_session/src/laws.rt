//! Laws on how many definitions a text has. Calling a law does nothing: its contract is the
//! statement.
ghost use Rattle.std.specs.Prelude.{ℕ, ◌≤◌, ◌<◌, ◌^◌, List, [], length, IsUtf8};
ghost use Rattle.expander_session.specs.Layered.{layers};
ghost use Rattle.expander_model.specs.Definitions.{Definition};
ghost use Rattle.expander_model.specs.Meaning.{meaning, meaning_in};
ghost use Rattle.expander_session.specs.Replies.{NeedsNumbers, definitions_in};
ghost use Rattle.mbe.specs.Grammar.{Grammar};
ghost use Rattle.expander_model.specs.declared.dialect.Dialect.{Dialect};
ghost use Rattle.tt_data.specs.declared.edition.Edition.{Edition};

/// A text has at most as many definitions as bytes, after whatever definitions of other texts:
/// `counted`. So if no definition had an id
/// before and the text has fewer than 2^32 bytes, there are ids for them all: `numbered`.
pub fn definitions_are_no_more_than_bytes()
    ensures counted { (grammar : Grammar) (edition : Edition) (dialect : Dialect) (depth : ℕ)
        (initial : List Definition) (text : List ℕ) →
        IsUtf8 text → length (definitions_in
        (meaning_in (layers grammar edition dialect) depth initial text)) ≤ length text }
    ensures numbered { (grammar : Grammar) (edition : Edition) (dialect : Dialect) (depth : ℕ)
        (text : List ℕ) →
        IsUtf8 text → length text < 2 ^ 32 →
        NeedsNumbers 0 [] (meaning (layers grammar edition dialect) depth text) → ⊥ }
{
    bridge::laws::reading_is_a_relation();
    rustc_lexer::laws::token_lengths();
}
