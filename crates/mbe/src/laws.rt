//! Laws for the proofs of crates above. Calling a law does nothing: its contract is the
//! statement.
ghost use Rattle.std.specs.Prelude.{◌≡◌, ◌↔◌, ◌⊎◌, ℕ, Bool, true, false, List, Option, Some, None};
ghost use Rattle.std.specs.Prelude.{option_map, map};
ghost use Rattle.tt_data.specs.Forest.{Forest, map_spans};
ghost use Rattle.tt_data.specs.declared.edition.Edition.{Edition};
ghost use Rattle.tt_data.specs.declared.span.Span.{Span};
ghost use Rattle.tt_data.specs.declared.span.SyntaxContext.{SyntaxContext};
ghost use Rattle.mbe_rules.specs.Items.{Rule, Items, has_empty_round};
ghost use Rattle.mbe_rules.specs.Parsing.{macro_rules_of, macro_of};
ghost use Rattle.mbe_rules.specs.Relabelling.{rule_with};
ghost use Rattle.mbe_rules.specs.declared.macro_call_style.MacroCallStyle.{MacroCallStyle};
ghost use Rattle.mbe.specs.Bursts.{bursts};
ghost use Rattle.mbe.specs.Fit.{fit, fit_with};
ghost use Rattle.mbe.specs.PutOut as tokens;
ghost use Rattle.mbe.specs.NoReading.{HasClashing, HasTwo, UsesUp};
ghost use Rattle.mbe_transcriber.specs.mbe_matcher.Grammar.{Grammar};
ghost use Rattle.mbe_transcriber.specs.mbe_matcher.Paths.{IsPath, has_clash};
ghost use Rattle.mbe_transcriber.specs.mbe_matcher.Readings.{Move, State, start, next, has_used_up, takings};
ghost use Rattle.mbe_transcriber.specs.mbe_matcher.Readings.{the_reading};

use mbe_rules::MacroCallStyle;
use tt_data::{Edition, Span, SyntaxContext};

/// Under a span map that commutes with the marker, the same rule fits, and its result is mapped.
/// So it is of definitions, if the map keeps each span's edition.
pub fn fit_at_other_places()
    ensures rules { (f : Span → Span) (is_identifier : List ℕ → Bool) (grammar : Grammar)
        (mark : Span → Span) →
        ((s : Span) → f (mark s) ≡ mark (f s)) → (list : List Rule) (style : MacroCallStyle)
        (argument : Forest) →
        fit is_identifier grammar mark (map (rule_with f) list) style (map_spans f argument)
        ≡ fit_with f (fit is_identifier grammar mark list style argument) }
    ensures macro_rules { (f : Span → Span) (is_identifier : List ℕ → Bool) (grammar : Grammar)
        (mark : Span → Span) →
        ((s : Span) → f (mark s) ≡ mark (f s)) → (edition : SyntaxContext → Edition) →
        ((s : Span) → edition (f s).ctx ≡ edition s.ctx) →
        (body : Forest) (style : MacroCallStyle) (argument : Forest) →
        fit is_identifier grammar mark (macro_rules_of edition (map_spans f body)).list style
        (map_spans f argument)
        ≡ fit_with f (fit is_identifier grammar mark (macro_rules_of edition body).list style
        argument) }
    ensures macros { (f : Span → Span) (is_identifier : List ℕ → Bool) (grammar : Grammar)
        (mark : Span → Span) →
        ((s : Span) → f (mark s) ≡ mark (f s)) → (edition : SyntaxContext → Edition) →
        ((s : Span) → edition (f s).ctx ≡ edition s.ctx) →
        (arguments : Option Forest) (body : Forest) (style : MacroCallStyle) (argument : Forest) →
        fit is_identifier grammar mark (macro_of edition (option_map (map_spans f) arguments)
        (map_spans f body)).list style (map_spans f argument)
        ≡ fit_with f (fit is_identifier grammar mark (macro_of edition arguments body).list style
        argument) }
{}

/// Nor does it depend on spans whether a rule that is tried puts out more tokens than a tree may
/// have.
pub fn bursts_at_other_places()
    ensures rules { (f : Span → Span) (is_identifier : List ℕ → Bool) (grammar : Grammar)
        (mark : Span → Span) →
        ((s : Span) → f (mark s) ≡ mark (f s)) → (list : List Rule) (style : MacroCallStyle)
        (argument : Forest) →
        bursts is_identifier grammar mark (map (rule_with f) list) style (map_spans f argument)
        ≡ bursts is_identifier grammar mark list style argument }
    ensures macro_rules { (f : Span → Span) (is_identifier : List ℕ → Bool) (grammar : Grammar)
        (mark : Span → Span) →
        ((s : Span) → f (mark s) ≡ mark (f s)) → (edition : SyntaxContext → Edition) →
        ((s : Span) → edition (f s).ctx ≡ edition s.ctx) →
        (body : Forest) (style : MacroCallStyle) (argument : Forest) →
        bursts is_identifier grammar mark (macro_rules_of edition (map_spans f body)).list style
        (map_spans f argument)
        ≡ bursts is_identifier grammar mark (macro_rules_of edition body).list style argument }
    ensures macros { (f : Span → Span) (is_identifier : List ℕ → Bool) (grammar : Grammar)
        (mark : Span → Span) →
        ((s : Span) → f (mark s) ≡ mark (f s)) → (edition : SyntaxContext → Edition) →
        ((s : Span) → edition (f s).ctx ≡ edition s.ctx) →
        (arguments : Option Forest) (body : Forest) (style : MacroCallStyle) (argument : Forest) →
        bursts is_identifier grammar mark (macro_of edition (option_map (map_spans f) arguments)
        (map_spans f body)).list style (map_spans f argument)
        ≡ bursts is_identifier grammar mark (macro_of edition arguments body).list style argument }
    ensures put_out { (f : Span → Span) (is_identifier : List ℕ → Bool) (grammar : Grammar)
        (mark : Span → Span) →
        ((s : Span) → f (mark s) ≡ mark (f s)) → (list : List Rule) (style : MacroCallStyle)
        (argument : Forest) →
        tokens.put_out is_identifier grammar mark (map (rule_with f) list) style
        (map_spans f argument)
        ≡ tokens.put_out is_identifier grammar mark list style argument }
{}

/// The reading by a matcher is a list of valid moves that uses up the argument, and no other list
/// of moves does. Nowhere on the ways that begin so is a fragment consumed on one and something
/// else on another.
pub fn only_reading()
    ensures { (grammar : Grammar) (pattern : Items) (argument : Forest) (moves : List Move) →
        has_empty_round pattern ≡ false → the_reading grammar pattern argument ≡ Some moves →
        (has_clash (takings grammar pattern argument) ≡ false)
        × ((last : State) × IsPath (next grammar) (start pattern argument) moves last
        × (has_used_up last ≡ true))
        × ((others : List Move) (last : State) → IsPath (next grammar) (start pattern argument)
        others last → has_used_up last ≡ true → others ≡ moves) }
{}

/// A matcher has no reading of an argument for one of three reasons, and only so: no list of valid
/// moves uses up the argument, or two different ones do, or two partial readings clash: `none`.
/// They clash where both consume something at one position, and one of them a fragment. Its
/// reading is the only list of moves that uses up the argument, where nothing clashes: `one`.
pub fn when_there_is_no_reading()
    ensures none { (grammar : Grammar) (pattern : Items) (argument : Forest) →
        has_empty_round pattern ≡ false →
        (the_reading grammar pattern argument ≡ None)
        ↔ (((moves : List Move) → UsesUp grammar pattern argument moves → ⊥) ⊎
        (HasTwo grammar pattern argument ⊎ HasClashing grammar pattern argument)) }
    ensures one { (grammar : Grammar) (pattern : Items) (argument : Forest) (moves : List Move) →
        has_empty_round pattern ≡ false →
        (the_reading grammar pattern argument ≡ Some moves)
        ↔ (UsesUp grammar pattern argument moves
        × ((others : List Move) → UsesUp grammar pattern argument others → others ≡ moves)
        × (HasClashing grammar pattern argument → ⊥)) }
{}
