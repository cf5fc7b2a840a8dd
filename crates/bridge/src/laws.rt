//! Laws of reading and printing. Calling a law does nothing: its contract is the statement.
ghost use Rattle.std.specs.Prelude.{◌≡◌, ◌↔◌, ◌<◌, ◌^◌, ◌+◌, ◌++◌, chars, take, drop, length};
ghost use Rattle.std.specs.Prelude.{sum_by, ℕ, IsUtf8, List, [], ◌∷◌, map, true, false, IsSome, Ok};
ghost use Rattle.std.specs.Prelude.{Err};
ghost use Rattle.bridge.specs.Lengths.{AreShort, IsShort};
ghost use Rattle.bridge.specs.Order.{AreWritten, FollowOneAnother};
ghost use Rattle.bridge.specs.Parts.{begins_with_mark, part_steps, placed_on, starts_with_mark};
ghost use Rattle.bridge.specs.Parts.{steps_before};
ghost use Rattle.bridge.specs.Pieces.{StandsBehindFirst, first_start, relative, separated};
ghost use Rattle.bridge.specs.PrintedChunks.{IsChunkOf, ChunkState};
ghost use Rattle.bridge.specs.PrintedRanges.{AreSpelledAt, printed_ranges, read_ranges};
ghost use Rattle.bridge.specs.Printing.{PrintedToken, begins_with_punct, gap, is_punct_but_quote};
ghost use Rattle.bridge.specs.Printing.{is_quote, print_of, printed, step_span, text_from, visible};
ghost use Rattle.bridge.specs.Reading.{IsFault, IsReading, PlacedToken, TextStep, placed_from};
ghost use Rattle.bridge.specs.Reading.{reading, step, with_front};
ghost use Rattle.bridge.specs.ReadsBack.{PrintsAgain, ReadsBack, is_nothing};
ghost use Rattle.bridge.specs.declared.reading.outcome.ReadFault.{ReadFault};
ghost use Rattle.bridge.specs.declared.reading.outcome.ReadFaultKind.{ReadFaultKind};
ghost use Rattle.tt_data.specs.Forest.{Forest, joined, map_spans};
ghost use Rattle.bridge.specs.Spelling.{leaf_spelling, spelling};
ghost use Rattle.bridge.specs.Text.{is_visible};
ghost use Rattle.bridge.specs.TokenSteps.{escaped, name_leaf, class_of, steps_of, steps_of_class};
ghost use Rattle.bridge.specs.TokenSteps.{text_steps};
ghost use Rattle.bridge.specs.declared.reading.classify.TokenClass.TheVariants.{QuotedName};
ghost use Rattle.tt_data.specs.declared.leaf.IdentIsRaw.TheVariants.{No};
ghost use Rattle.rustc_lexer.specs.Lexeme.{begins_guarded};
ghost use Rattle.rustc_lexer.specs.TokensAt.{IsTokenAt};
ghost use Rattle.rustc_lexer.specs.declared.token.Token.{Token};
ghost use Rattle.std.specs.List.{slice_range};
ghost use Rattle.tt_data.specs.Walk.{Step, at_leaf, opens, closes, step_with, walk};
ghost use Rattle.tt_data.specs.declared.leaf.Leaf.{Leaf};
ghost use Rattle.tt_data.specs.declared.delimiter.DelimiterKind.{DelimiterKind};
ghost use Rattle.tt_data.specs.declared.span.Span.{Span};

use crate::reading::outcome::{ReadFault, ReadFaultKind};

/// The reading that is computed is the one that is defined: the forest whose walk the events are,
/// or the first fault. So no events have two forests, two first faults, or one of each.
pub fn reading_is_a_relation()
    ensures walk { (steps : List TextStep) (f : Forest) → reading steps ≡ Ok f → IsReading steps f }
    ensures read { (steps : List TextStep) (f : Forest) → IsReading steps f → reading steps ≡ Ok f }
    ensures fault { (steps : List TextStep) (fault : ReadFault) → reading steps ≡ Err fault →
        IsFault steps fault }
    ensures told { (steps : List TextStep) (fault : ReadFault) → IsFault steps fault →
        reading steps ≡ Err fault }
{}

/// What follows whole trees is read as if it stood alone, faults included.
pub fn reading_behind()
    ensures { (f : Forest) (more : List TextStep) →
        reading (map step (walk f) ++ more) ≡ with_front f (reading more) }
{}

/// Tokens are read as the first of them are read, before the others, and then as the others are.
pub fn parts_of_a_text()
    ensures tokens { (a b : List PlacedToken) → steps_of (a ++ b) ≡ steps_before a b ++ steps_of b }
    ensures text { (at count : ℕ) (text : List ℕ) (tokens : List Token) →
        steps_of (placed_from at text tokens)
        ≡ part_steps at count text tokens
        ++ steps_of (placed_from (at + sum_by (λ t. t.len) (take count tokens))
        (drop (sum_by (λ t. t.len) (take count tokens)) text) (drop count tokens)) }
{}

/// A part that is read by itself, with spans counted from its first byte, is read in the text as
/// the same trees with shifted spans. Counted from their first token the spans are the same.
pub fn parts_at_other_places()
    ensures steps { (at count : ℕ) (text : List ℕ) (tokens : List Token) (f : Forest) →
        IsReading (part_steps 0 count text tokens) f →
        IsReading (part_steps at count text tokens) (map_spans (placed_on at) f) }
    ensures relative { (at : ℕ) (f : Forest) → relative (map_spans (placed_on at) f) ≡ relative f }
    ensures first { (f : Forest) → first_start f ≡ 0 → relative f ≡ f }
{}

/// What a part is read as depends on its own bytes and tokens, and on whether a punct follows it.
pub fn equal_parts()
    ensures steps { (at : ℕ) (text s rest : List ℕ) (tokens ts more : List Token)
        (after : List PlacedToken) →
        text ≡ s ++ rest → tokens ≡ ts ++ more → sum_by (λ t. t.len) ts ≡ length s →
        starts_with_mark after ≡ begins_with_mark more →
        part_steps at (length ts) text tokens ≡ steps_before (placed_from at s ts) after }
    ensures parts { (at : ℕ) (s rest other : List ℕ) (ts more others : List Token) →
        sum_by (λ t. t.len) ts ≡ length s → begins_with_mark more ≡ begins_with_mark others →
        part_steps at (length ts) (s ++ rest) (ts ++ more)
        ≡ part_steps at (length ts) (s ++ other) (ts ++ others) }
{}

/// The tokens of a text follow one another: none starts or ends before an earlier one starts. So
/// do those of any part of the trees, which may therefore be cut out as a piece.
pub fn tokens_follow_one_another()
    ensures text { (text : List ℕ) (f : Forest) → IsUtf8 text → IsReading (text_steps text) f →
        FollowOneAnother (walk f) }
    ensures part { (before p after : Forest) →
        FollowOneAnother (walk (joined before (joined p after))) → FollowOneAnother (walk p) }
    ensures piece { (p : Forest) → FollowOneAnother (walk p) → StandsBehindFirst p }
{
    rustc_lexer::laws::token_lengths();
}

/// What is read of a text has spans of the text itself: anchor 0, and written, not synthesized.
pub fn tokens_are_written()
    ensures { (text : List ℕ) (f : Forest) → IsReading (text_steps text) f → AreWritten (walk f) }
{}

/// A spelling depends on no span. That of a quote depends on the next visible token, and every
/// other on its own token alone. Visible delimiters always have one.
pub fn spelling_depends_on_shapes_alone()
    ensures places { (h : Span → Span) (s : Step) (more : List Step) →
        spelling (step_with h s) (map (step_with h) more) ≡ spelling s more }
    ensures next { (s t : Step) (more : List Step) → spelling s (t ∷ more) ≡ spelling s (t ∷ []) }
    ensures other { (s : Step) (more : List Step) → is_quote s ≡ false →
        spelling s more ≡ spelling s [] }
    ensures opening { (kind : DelimiterKind) (span : Span) (more : List Step) →
        is_visible kind ≡ true → IsSome (spelling (opens kind span) more) }
    ensures closing { (kind : DelimiterKind) (span : Span) (more : List Step) →
        is_visible kind ≡ true → IsSome (spelling (closes kind span) more) }
{}

/// In a text of fewer than 2^32 bytes, a token that is read as one leaf has a spelling, and so has
/// the name after the quote of a lifetime. So it is in any text if the leaf or the name is short:
/// `short_leaves`, `short_names`.
pub fn read_leaves_have_spellings()
    ensures leaves { (text : List ℕ) (at : ℕ) (t : Token) (more : List PlacedToken) (l : Leaf) →
        IsUtf8 text → length text < 2 ^ 32 → IsTokenAt text at t →
        steps_of_class (class_of t.kind) (record
        { kind = t.kind; start = at; text = slice_range text at (at + t.len) }) more
        ≡ step (at_leaf l) ∷ [] →
        IsSome (leaf_spelling l) }
    ensures names { (text : List ℕ) (at : ℕ) (t : Token) (span : Span) →
        IsUtf8 text → length text < 2 ^ 32 → IsTokenAt text at t → class_of t.kind ≡ QuotedName →
        IsSome (leaf_spelling (name_leaf (drop 1 (slice_range text at (at + t.len))) No span)) }
    ensures short_leaves { (text : List ℕ) (at : ℕ) (t : Token) (more : List PlacedToken)
        (l : Leaf) →
        IsUtf8 text → IsShort l → IsTokenAt text at t →
        steps_of_class (class_of t.kind) (record
        { kind = t.kind; start = at; text = slice_range text at (at + t.len) }) more
        ≡ step (at_leaf l) ∷ [] →
        IsSome (leaf_spelling l) }
    ensures short_names { (text : List ℕ) (at : ℕ) (t : Token) (span : Span) →
        IsUtf8 text → length (drop 1 (slice_range text at (at + t.len))) < 2 ^ 32 →
        IsTokenAt text at t → class_of t.kind ≡ QuotedName →
        IsSome (leaf_spelling (name_leaf (drop 1 (slice_range text at (at + t.len))) No span)) }
{
    rustc_lexer::laws::name_of_a_lifetime();
    rustc_lexer::laws::one_identifier();
    rustc_lexer::laws::token_alone();
    rustc_lexer::laws::token_lengths();
    rustc_lexer::laws::token_shapes();
    rustc_lexer::laws::suffix_starts();
}

/// In a text of fewer than 2^31 bytes that is read, each token has a spelling: nothing is omitted
/// from what is printed of it, nor if each `;` of its top list is made `Alone`. So it is in a text
/// of fewer than 2^32 bytes once each `"` and `\` is escaped, as doc comments are: `escaped_text`,
/// `escaped_pieces`.
pub fn read_texts_are_printed_whole()
    ensures text { (text : List ℕ) (f : Forest) →
        IsUtf8 text → length text < 2 ^ 31 → IsReading (text_steps text) f →
        (print_of (walk f)).left_out ≡ [] }
    ensures pieces { (text : List ℕ) (f : Forest) →
        IsUtf8 text → length text < 2 ^ 31 → IsReading (text_steps text) f →
        (print_of (walk (separated f))).left_out ≡ [] }
    ensures escaped_text { (text : List ℕ) (f : Forest) →
        IsUtf8 text → length (escaped text) < 2 ^ 32 → IsReading (text_steps text) f →
        (print_of (walk f)).left_out ≡ [] }
    ensures escaped_pieces { (text : List ℕ) (f : Forest) →
        IsUtf8 text → length (escaped text) < 2 ^ 32 → IsReading (text_steps text) f →
        (print_of (walk (separated f))).left_out ≡ [] }
{
    read_leaves_have_spellings();
    rustc_lexer::laws::next_token();
    rustc_lexer::laws::one_escaped_string();
    rustc_lexer::laws::suffix_starts();
    rustc_lexer::laws::token_lengths();
    rustc_lexer::laws::token_shapes();
    rustc_lexer::laws::tokens_begin();
}

/// In a text that is read, of any length, each token has a spelling exactly if each name and
/// literal is displayed in fewer than 2^32 bytes: `text`. So it is if each `;` of the top list is
/// made `Alone`: `pieces`. (A longer one is in no text, so it cannot be printed.)
pub fn short_leaves_are_printed()
    ensures text { (text : List ℕ) (f : Forest) → IsUtf8 text → IsReading (text_steps text) f →
        ((print_of (walk f)).left_out ≡ []) ↔ AreShort (walk f) }
    ensures pieces { (text : List ℕ) (f : Forest) → IsUtf8 text → IsReading (text_steps text) f →
        ((print_of (walk (separated f))).left_out ≡ []) ↔ AreShort (walk f) }
{
    read_leaves_have_spellings();
    rustc_lexer::laws::next_token();
    rustc_lexer::laws::one_escaped_string();
    rustc_lexer::laws::suffix_starts();
    rustc_lexer::laws::token_lengths();
    rustc_lexer::laws::token_shapes();
    rustc_lexer::laws::tokens_begin();
}

/// The printed text of any trees has no reading fault, and is read as just the printed tokens, in
/// order. Printed again it is the same text, and nothing is omitted.
pub fn printed_text_reads_back()
    ensures back { (f : Forest) → ReadsBack (visible (walk f)) }
    ensures again { (f : Forest) → PrintsAgain (visible (walk f)) }
{
    rustc_lexer::laws::whole_token();
    rustc_lexer::laws::whole_token_begins();
    rustc_lexer::laws::blank_token();
    rustc_lexer::laws::one_character();
    rustc_lexer::laws::quoted_name();
    rustc_lexer::laws::token_lengths();
}

/// The tokens of a printed text are read where they were printed: as many ranges as printed tokens,
/// in order and disjoint, and each token is spelled at its range. A text that is read as trees has
/// the ranges of their tokens.
pub fn tokens_are_where_they_are_printed()
    ensures printed { (steps : List Step) →
        read_ranges (print_of steps).text ≡ printed_ranges (printed (visible steps)) }
    ensures count { (steps : List Step) →
        length (read_ranges (print_of steps).text) ≡ length (print_of steps).tokens }
    ensures spelled { (steps : List Step) →
        AreSpelledAt (print_of steps).text 0 (printed (visible steps))
        (printed_ranges (printed (visible steps))) }
    ensures read { (text : List ℕ) (f : Forest) → IsReading (text_steps text) f →
        read_ranges text ≡ map (λ s. (step_span s).range) (walk f) }
{
    rustc_lexer::laws::whole_token();
    rustc_lexer::laws::whole_token_begins();
    rustc_lexer::laws::blank_token();
    rustc_lexer::laws::one_character();
    rustc_lexer::laws::quoted_name();
    rustc_lexer::laws::token_lengths();
}

/// Printed hashes guard no string. Between two printed tokens is a gap, unless the first is a quote
/// or the second a punct. So where a punct is printed no `"` stands right behind the hashes, and no
/// guarded string begins, however many hashes are side by side.
pub fn printed_hashes_guard_no_string()
    ensures gap { (depth : ℕ) (a b : PrintedToken) → is_quote a.step ≡ false →
        is_punct_but_quote b.step ≡ false → is_nothing (gap depth a b) ≡ false }
    ensures text { (depth : ℕ) (steps : List Step) →
        begins_with_punct (printed steps) ≡ true →
        begins_guarded (chars (text_from depth (printed steps))) ≡ false }
{
    rustc_lexer::laws::whole_token();
    rustc_lexer::laws::whole_token_begins();
    rustc_lexer::laws::blank_token();
    rustc_lexer::laws::one_character();
    rustc_lexer::laws::quoted_name();
    rustc_lexer::laws::token_lengths();
}

/// What is printed does not depend on spans.
pub fn spans_do_not_print()
    ensures text { (h : Span → Span) (f : Forest) →
        (print_of (walk (map_spans h f))).text ≡ (print_of (walk f)).text }
    ensures left_out { (h : Span → Span) (f : Forest) →
        (print_of (walk (map_spans h f))).left_out ≡ (print_of (walk f)).left_out }
{}

/// A chunk has the spans of all visible tokens of its events, in order: none is omitted.
pub fn chunks_are_printed_whole()
    ensures { (part : ChunkState) (steps : List Step) → IsChunkOf part steps →
        part.tokens ≡ map step_span (visible steps) }
{}

/// Two faults are equal by `==` exactly if they are the same, ranges included.
pub fn equal_faults()
    ensures kinds { (a b : ReadFaultKind) →
        (⟦<ReadFaultKind as PartialEq>⟧.eq a b ≡ true) ↔ (a ≡ b) }
    ensures faults { (a b : ReadFault) → (⟦<ReadFault as PartialEq>⟧.eq a b ≡ true) ↔ (a ≡ b) }
{}

/// A clone of a fault is the same fault.
pub fn cloned_faults()
    ensures kinds { (a b : ReadFaultKind) → ⟦<ReadFaultKind as Clone>⟧.is_clone a b → b ≡ a }
    ensures faults { (a b : ReadFault) → ⟦<ReadFault as Clone>⟧.is_clone a b → b ≡ a }
{}
