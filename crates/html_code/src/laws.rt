//! Laws of pages. Calling a law does nothing: its contract is the statement.
ghost use Rattle.std.specs.Prelude.{◌≡◌, ℕ, All, List, Option, IsUtf8};
ghost use Rattle.std.specs.Str.{NoCharPasses};
ghost use Rattle.html_code.specs.Escaping.{escaped, is_unsafe};
ghost use Rattle.html_code.specs.ExpansionParts.{expansion_parts, words_of};
ghost use Rattle.html_code.specs.Parts.{text_of};
ghost use Rattle.html_code.specs.SourceParts.{source_parts};
ghost use Rattle.html_code.specs.Tokens.{IsIsolated};
ghost use Rattle.html_code.specs.declared.layout.Gap.{Gap};
ghost use Rattle.html_code.specs.declared.origin.Origin.{Origin};
ghost use Rattle.html_code.specs.declared.source.Mark.{Mark};

/// An escaped text can neither open nor close a tag, nor end an attribute's value. It has no
/// control but tab and line feed, no separator of lines, no interlinear annotation, and no
/// character of Unicode's `Default_Ignorable_Code_Point`, to which those belong that set the
/// direction.
pub fn escaped_texts_are_safe()
    ensures { (text : List ℕ) → NoCharPasses is_unsafe (escaped text) }
{}

/// Escaping loses nothing: two texts that are escaped alike are equal.
pub fn escaping_loses_nothing()
    ensures { (a b : List ℕ) → IsUtf8 a → IsUtf8 b → escaped a ≡ escaped b → a ≡ b }
{}

/// Outside of the elements that isolate their direction, the parts of a text and of an expansion
/// show only ASCII without controls, in which nothing is written from right to left.
pub fn other_texts_are_isolated()
    ensures text { (cuts : List (Option ℕ)) (faults : List Mark) (text : List ℕ) →
        All IsIsolated (source_parts cuts faults text) }
    ensures printed { (fold : List ℕ) (names : List (List ℕ)) (gaps : List Gap) (numbers : List ℕ)
        (origins : List Origin) (printed : List ℕ) →
        All IsIsolated (expansion_parts fold names gaps numbers origins printed) }
{}

/// The parts of a text show just the text: nothing is left out, added or moved, whatever the faults.
pub fn sources_are_whole()
    ensures { (cuts : List (Option ℕ)) (faults : List Mark) (text : List ℕ) → IsUtf8 text →
        text_of (source_parts cuts faults text) ≡ text }
{
    rustc_lexer::laws::token_lengths();
}

/// The parts of an expansion show the tokens of the printed text in order, whatever is between them
/// and wherever they come from.
pub fn expansions_show_their_tokens()
    ensures { (fold : List ℕ) (names : List (List ℕ)) (gaps : List Gap) (numbers : List ℕ)
        (origins : List Origin) (printed : List ℕ) →
        text_of (expansion_parts fold names gaps numbers origins printed) ≡ words_of printed }
{}
