//! Laws of the tokens, for proofs about loops over them. Calling a law does nothing: its contract
//! is the statement.
//!
//! A loop `for token in tokenize(text, ..)` that keeps in `at` the offset where the next token
//! begins has the invariant `AreTokensFrom text at left`, where `left` are the tokens that the
//! iterator has left: [`tokens_begin`] gives it at 0, [`next_token`] keeps it over `at +=
//! token.len` and says that the token's text may be cut out, and [`tokens_end`] says that `at`
//! ends as the text's length. For a loop that enters a list of tokens at some index,
//! [`token_lengths`] gives it there.
//!
//! A text that consists of whole tokens with spaces and line feeds between them has exactly these
//! tokens: [`whole_token`], [`blank_token`], [`one_character`] and [`quoted_name`] give them one
//! by one, and [`token_shapes`] says what each begins and ends with.
ghost use Rattle.std.specs.Prelude.{◌≡◌, ◌≤◌, ◌+◌, ◌++◌, ◌↔◌, ℕ, List, [], ◌∷◌, Some, true, false};
ghost use Rattle.std.specs.Prelude.{length, chars, IsUtf8, All, sum_by, take, drop, IsCharBoundary};
ghost use Rattle.std.specs.List.{list_all, slice_range};
ghost use Rattle.std.specs.Ordering.{nat_cmp};
ghost use Rattle.rustc_lexer.specs.Character.{is_digit, is_ident, utf8_len};
ghost use Rattle.rustc_lexer.specs.Cursors.{suffix_of};
ghost use Rattle.rustc_lexer.specs.Lexeme.{lexeme, one_char_kind};
ghost use Rattle.rustc_lexer.specs.Lexing.{look_ahead, place, reach, run_on, token_of, tokens_of};
ghost use Rattle.rustc_lexer.specs.Literals.{stands_for_itself, with_escapes};
ghost use Rattle.rustc_lexer.specs.Orders.{base_number, error_ranks, guarded_ranks, in_order};
ghost use Rattle.rustc_lexer.specs.Orders.{kind_ranks};
ghost use Rattle.rustc_lexer.specs.Seams.{begins_longer, begins_white, ends_here, is_blank};
ghost use Rattle.rustc_lexer.specs.Seams.{is_sign, is_whole, stands_alone};
ghost use Rattle.rustc_lexer.specs.Shapes.{HasByteShape, HasShape, is_ended};
ghost use Rattle.rustc_lexer.specs.TokensAt.{AreTokensFrom, IsTokenAt};
ghost use Rattle.rustc_lexer.specs.declared.character.TheConstants.{UNICODE_VERSION};
ghost use Rattle.rustc_lexer.specs.declared.raw_str.RawStrError.{RawStrError};
ghost use Rattle.rustc_lexer.specs.declared.relex.Kept.{Kept};
ghost use Rattle.rustc_lexer.specs.declared.token.Base.{Base};
ghost use Rattle.rustc_lexer.specs.declared.token.Base.TheVariants.{Decimal};
ghost use Rattle.rustc_lexer.specs.declared.token.GuardedStr.{GuardedStr};
ghost use Rattle.rustc_lexer.specs.declared.token.LiteralKind.{LiteralKind};
ghost use Rattle.rustc_lexer.specs.declared.token.LiteralKind.TheVariants.{Int, Str};
ghost use Rattle.rustc_lexer.specs.declared.token.Token.{Token};
ghost use Rattle.rustc_lexer.specs.declared.token.TokenKind.{TokenKind};
ghost use Rattle.rustc_lexer.specs.declared.token.TokenKind.TheVariants.{Eof, Ident, Lifetime};
ghost use Rattle.rustc_lexer.specs.declared.token.TokenKind.TheVariants.{Literal, Whitespace};
ghost use Rattle.ucd_table.specs.declared.version.TheConstants.{UNICODE_VERSION as tables_version};

use crate::raw_str::RawStrError;
use crate::relex::Kept;
use crate::token::{Base, GuardedStr, LiteralKind, Token, TokenKind};

/// The tokens of a text begin at its first byte.
pub fn tokens_begin()
    ensures { (text : List ℕ) → IsUtf8 text → AreTokensFrom text 0 (tokens_of (chars text)) }
{}

/// If tokens remain, the first one is at the offset where they begin, and the others begin right
/// after it.
pub fn next_token()
    ensures here { (text : List ℕ) (at : ℕ) (left : List Token) (t : Token) (ts : List Token) →
        IsUtf8 text → AreTokensFrom text at left → left ≡ t ∷ ts → IsTokenAt text at t }
    ensures others { (text : List ℕ) (at : ℕ) (left : List Token) (t : Token) (ts : List Token) →
        IsUtf8 text → AreTokensFrom text at left → left ≡ t ∷ ts →
        AreTokensFrom text (at + t.len) ts }
{}

/// If no token remains, the offset is the end of the text.
pub fn tokens_end()
    ensures { (text : List ℕ) (at : ℕ) (left : List Token) →
        IsUtf8 text → AreTokensFrom text at left → left ≡ [] → at ≡ length text }
{}

/// Each length is at least 1. The first k lengths sum to the offset of the next token, a character
/// boundary; all of them sum to the length of the text.
pub fn token_lengths()
    ensures positive { (text : List ℕ) → IsUtf8 text →
        All (λ t. 1 ≤ t.len) (tokens_of (chars text)) }
    ensures boundaries { (text : List ℕ) (k : ℕ) →
        IsUtf8 text → IsCharBoundary text (sum_by (λ t. t.len) (take k (tokens_of (chars text)))) }
    ensures places { (text : List ℕ) (k : ℕ) → IsUtf8 text →
        AreTokensFrom text (sum_by (λ t. t.len) (take k (tokens_of (chars text))))
        (drop k (tokens_of (chars text))) }
    ensures whole { (text : List ℕ) → IsUtf8 text →
        sum_by (λ t. t.len) (tokens_of (chars text)) ≡ length text }
{}

/// No token of a text is `Eof`.
pub fn no_token_is_eof()
    ensures { (text : List ℕ) → IsUtf8 text → All (λ t. ¬ (t.kind ≡ Eof)) (tokens_of (chars text)) }
{}

/// The first k lexemes of a text take `place k` characters. The text after these has the other
/// tokens, and the lengths of the first k tokens sum to the bytes of these characters.
pub fn rest_of_tokens()
    ensures rest { (k : ℕ) (cs : List ℕ) →
        tokens_of (drop (place k cs) cs) ≡ drop k (tokens_of cs) }
    ensures bytes { (k : ℕ) (cs : List ℕ) →
        sum_by (λ t. t.len) (take k (tokens_of cs)) ≡ utf8_len (take (place k cs) cs) }
{}

/// The tokens of a text that is not empty are its first lexeme and the tokens of what follows the
/// lexeme.
pub fn first_of_tokens()
    ensures { (c : ℕ) (cs : List ℕ) → tokens_of (c ∷ cs)
        ≡ token_of (lexeme (c ∷ cs)) (c ∷ cs) ∷ tokens_of (drop (lexeme (c ∷ cs)).size (c ∷ cs)) }
{}

/// The first k tokens depend on the characters that `reach` counts, and on no others: their own,
/// the hashes that go on with a run at their end, and two more. A text with the same characters up
/// to there, or that ends where the first one does, has the same first k tokens at the same
/// offsets. In bytes: so it is for a text that begins with the same bytes of these tokens, followed
/// by the same characters that are looked ahead at, or as many of them. (A hash is one byte, and no
/// other character has that byte.) These are two where no run of hashes goes on: where the tokens
/// do not end in `#`, or no `#` follows.
pub fn first_tokens()
    ensures tokens { (k : ℕ) (cs ds : List ℕ) →
        take (reach k cs) cs ≡ take (reach k cs) ds →
        take k (tokens_of ds) ≡ take k (tokens_of cs) }
    ensures places { (k : ℕ) (cs ds : List ℕ) →
        take (reach k cs) cs ≡ take (reach k cs) ds → place k ds ≡ place k cs }
    ensures bytes { (k n : ℕ) (text other : List ℕ) → IsUtf8 text →
        sum_by (λ t. t.len) (take k (tokens_of (chars text))) ≡ n → take n text ≡ take n other →
        take (look_ahead (take n text) (drop n text)) (chars (drop n text))
        ≡ take (look_ahead (take n text) (drop n text)) (chars (drop n other)) →
        take k (tokens_of (chars other)) ≡ take k (tokens_of (chars text)) }
    ensures two { (k n : ℕ) (text other : List ℕ) → IsUtf8 text →
        sum_by (λ t. t.len) (take k (tokens_of (chars text))) ≡ n → take n text ≡ take n other →
        run_on (take n text) (drop n text) ≡ 0 →
        take 2 (chars (drop n text)) ≡ take 2 (chars (drop n other)) →
        take k (tokens_of (chars other)) ≡ take k (tokens_of (chars text)) }
{}

/// The suffix of a literal begins inside its token or right after it, at a character boundary.
pub fn suffix_starts()
    ensures within { (text : List ℕ) (at : ℕ) (t : Token) → IsTokenAt text at t →
        suffix_of t.kind ≤ t.len }
    ensures boundary { (text : List ℕ) (at : ℕ) (t : Token) → IsUtf8 text → IsTokenAt text at t →
        IsCharBoundary text (at + suffix_of t.kind) }
{}

/// A text that is one whole token is still that token before a space, a line feed or the end.
pub fn whole_token()
    ensures { (cs ds : List ℕ) (t : Token) → tokens_of cs ≡ t ∷ [] → is_whole t.kind ≡ true →
        ends_here ds ≡ true →
        tokens_of (cs ++ ds) ≡ t ∷ tokens_of ds }
{}

/// The characters of a token that stands alone are that token by themselves, whatever follows them
/// in the text: all whole tokens but raw lifetimes and unknown prefixes.
pub fn token_alone()
    ensures chars { (cs : List ℕ) (t : Token) (ts : List Token) → tokens_of cs ≡ t ∷ ts →
        stands_alone t.kind ≡ true →
        tokens_of (take (lexeme cs).size cs) ≡ t ∷ [] }
    ensures bytes { (text : List ℕ) (at : ℕ) (t : Token) → IsTokenAt text at t →
        stands_alone t.kind ≡ true →
        tokens_of (chars (slice_range text at (at + t.len))) ≡ t ∷ [] }
{}

/// A text whose first token is whole does not begin with white space.
pub fn whole_token_begins()
    ensures { (cs : List ℕ) (t : Token) (ts : List Token) →
        tokens_of cs ≡ t ∷ ts → is_whole t.kind ≡ true → begins_white cs ≡ false }
{}

/// A space or a line feed is a token by itself where no white space follows.
pub fn blank_token()
    ensures { (b : ℕ) (ds : List ℕ) → is_blank b ≡ true → begins_white ds ≡ false →
        tokens_of (b ∷ ds) ≡ record { kind = Whitespace; len = 1 } ∷ tokens_of ds }
{}

/// A character that can be a token by itself is one where no comment and no guarded string begins.
pub fn one_character()
    ensures { (c : ℕ) (ds : List ℕ) → is_sign c ≡ true → begins_longer (c ∷ ds) ≡ false →
        tokens_of (c ∷ ds) ≡ record { kind = one_char_kind c; len = 1 } ∷ tokens_of ds }
{}

/// `'` and a text that is one identifier are a lifetime.
pub fn quoted_name()
    ensures { (cs : List ℕ) (t : Token) → tokens_of cs ≡ t ∷ [] → t.kind ≡ Ident →
        tokens_of (39 ∷ cs) ≡ record { kind = Lifetime false; len = t.len + 1 } ∷ [] }
{}

/// The quote of a lifetime is followed by an identifier.
pub fn name_of_a_lifetime()
    ensures { (text : List ℕ) (at : ℕ) (t : Token) → IsTokenAt text at t → t.kind ≡ Lifetime false →
        is_ident (drop 1 (chars (slice_range text at (at + t.len)))) ≡ true }
{}

/// A text that is an identifier is one token.
pub fn one_identifier()
    ensures { (cs : List ℕ) → is_ident cs ≡ true →
        tokens_of cs ≡ record { kind = Ident; len = utf8_len cs } ∷ [] }
{}

/// A text of digits is one whole number in base ten.
pub fn one_number()
    ensures { (c : ℕ) (cs : List ℕ) → list_all is_digit (c ∷ cs) ≡ true →
        tokens_of (c ∷ cs) ≡ record {
          kind = Literal (Int Decimal false) (utf8_len (c ∷ cs));
          len =
              utf8_len (c ∷ cs);
        } ∷ [] }
{}

/// Characters in quotes, of which none is a quote or a `\`, are one whole string.
pub fn one_string()
    ensures { (cs : List ℕ) → list_all stands_for_itself cs ≡ true →
        tokens_of (34 ∷ cs ++ 34 ∷ []) ≡ record {
          kind = Literal (Str true) (utf8_len (34 ∷ cs ++ 34 ∷ []));
          len = utf8_len
              (34 ∷ cs ++ 34 ∷ []);
        } ∷ [] }
{}

/// Characters in quotes, each `"` and each `\` of them with a `\` before it, are one whole string.
pub fn one_escaped_string()
    ensures { (cs : List ℕ) →
        tokens_of (34 ∷ with_escapes cs ++ 34 ∷ [])
        ≡ record {
          kind = Literal (Str true) (utf8_len (34 ∷ with_escapes cs ++ 34 ∷ []));
          len =
              utf8_len (34 ∷ with_escapes cs ++ 34 ∷ []);
        } ∷ [] }
{}

/// A terminated token begins and ends as its kind does. The suffix of a literal follows its
/// ending; `suffix_start` is the length of all before it.
pub fn token_shapes()
    ensures chars { (text : List ℕ) (at : ℕ) (t : Token) → IsTokenAt text at t →
        is_ended t.kind ≡ true →
        HasShape t.kind (chars (slice_range text at (at + t.len))) }
    ensures bytes { (text : List ℕ) (at : ℕ) (t : Token) → IsTokenAt text at t →
        is_ended t.kind ≡ true →
        HasByteShape t.kind (slice_range text at (at + t.len)) }
{}

/// Two values are equal by `==` exactly where they are the same.
pub fn equal_tokens()
    ensures kinds { (a b : TokenKind) → (⟦<TokenKind as PartialEq>⟧.eq a b ≡ true) ↔ (a ≡ b) }
    ensures literals { (a b : LiteralKind) →
        (⟦<LiteralKind as PartialEq>⟧.eq a b ≡ true) ↔ (a ≡ b) }
    ensures tokens { (a b : Token) → (⟦<Token as PartialEq>⟧.eq a b ≡ true) ↔ (a ≡ b) }
    ensures guarded { (a b : GuardedStr) → (⟦<GuardedStr as PartialEq>⟧.eq a b ≡ true) ↔ (a ≡ b) }
    ensures kept { (a b : Kept) → (⟦<Kept as PartialEq>⟧.eq a b ≡ true) ↔ (a ≡ b) }
{}

/// Bases are in the order of their numbers. Kinds of literals, strings between hashes and errors of
/// raw strings are in the order of their variants, and then of their fields, as they are declared.
pub fn orders()
    ensures bases { (a b : Base) → ⟦<Base as Ord>⟧.cmp a b
        ≡ nat_cmp (base_number a) (base_number b) }
    ensures literals { (a b : LiteralKind) →
        ⟦<LiteralKind as Ord>⟧.cmp a b ≡ in_order (kind_ranks a) (kind_ranks b) }
    ensures guarded { (a b : GuardedStr) →
        ⟦<GuardedStr as Ord>⟧.cmp a b ≡ in_order (guarded_ranks a) (guarded_ranks b) }
    ensures errors { (a b : RawStrError) →
        ⟦<RawStrError as Ord>⟧.cmp a b ≡ in_order (error_ranks a) (error_ranks b) }
    ensures partial_bases { (a b : Base) →
        ⟦<Base as PartialOrd>⟧.partial_cmp a b ≡ Some (nat_cmp (base_number a) (base_number b)) }
    ensures partial_literals { (a b : LiteralKind) →
        ⟦<LiteralKind as PartialOrd>⟧.partial_cmp a b
        ≡ Some (in_order (kind_ranks a) (kind_ranks b)) }
    ensures partial_guarded { (a b : GuardedStr) →
        ⟦<GuardedStr as PartialOrd>⟧.partial_cmp a b
        ≡ Some (in_order (guarded_ranks a) (guarded_ranks b)) }
    ensures partial_errors { (a b : RawStrError) →
        ⟦<RawStrError as PartialOrd>⟧.partial_cmp a b
        ≡ Some (in_order (error_ranks a) (error_ranks b)) }
{}

/// The number of a base, which is `base as u32`: 2, 8, 10 or 16.
pub fn base_number(base: Base) -> u32
    ensures { result ≡ base_number base }
{
    base as u32
}

/// The version of Unicode is 18.0.0, that of the tables of letters.
pub fn unicode_version()
    ensures number { UNICODE_VERSION ≡ (18, 0, 0) }
    ensures tables { UNICODE_VERSION ≡ tables_version }
{}

/// A clone is the same value.
pub fn clones()
    ensures tokens { (a b : Token) → ⟦<Token as Clone>⟧.is_clone a b → b ≡ a }
    ensures guarded { (a b : GuardedStr) → ⟦<GuardedStr as Clone>⟧.is_clone a b → b ≡ a }
    ensures kept { (a b : Kept) → ⟦<Kept as Clone>⟧.is_clone a b → b ≡ a }
{}
