//! Laws of steps. Calling a law does nothing: its contract is the statement.
ghost use Rattle.std.specs.Prelude.{◌≡◌, ℕ, [], List, Option, flat_map, map, None};
ghost use Rattle.mbe.specs.Grammar.{Grammar};
ghost use Rattle.tt_data.specs.Forest.{Forest};
ghost use Rattle.tt_data.specs.Walk.{walk};
ghost use Rattle.tt_data.specs.declared.edition.Edition.{Edition};
ghost use Rattle.tt_data.specs.declared.span.Span.{Span};
ghost use Rattle.expander_model.specs.Definitions.{Definition};
ghost use Rattle.expander_model.specs.Dialects.{top_level};
ghost use Rattle.expander_model.specs.Expansion.{World, expansion};
ghost use Rattle.expander_model.specs.Limits.{expanded};
ghost use Rattle.expander_model.specs.World.{world};
ghost use Rattle.expander_model.specs.declared.dialect.Dialect.{Dialect};
ghost use Rattle.expander_trace.specs.Laws.{DoAs, events_of, faults_of, find_of, substitute_steps};
ghost use Rattle.expander_trace.specs.Steps.{Rewrites, rewrites, steps_of};

/// Where definitions do what they mean in a world, the look-ups of the steps of trees are those of
/// their expansion, in order: `finds`. So are the faults for which calls stay: `faults`. With the
/// result of each step in the place of its call, level by level, the trees are those that the
/// expansion prints, and no step is left: `trees`.
pub fn steps_are_those_of_the_expansion()
    ensures finds { (by : Rewrites Definition) (world : World Definition)
        (scope : List ℕ → Option Definition) (depth level : ℕ) (outer : Option Span)
        (f : Forest) → DoAs by world →
        map find_of (steps_of by scope depth level None f)
        ≡ (expansion world scope depth outer f).finds }
    ensures faults { (by : Rewrites Definition) (world : World Definition)
        (scope : List ℕ → Option Definition) (depth level : ℕ) (outer : Option Span)
        (f : Forest) → DoAs by world →
        flat_map (λ s. faults_of s.attempt) (steps_of by scope depth level None f)
        ≡ map (λ t. t.0) (expansion world scope depth outer f).faults }
    ensures trees { (by : Rewrites Definition) (world : World Definition)
        (scope : List ℕ → Option Definition) (depth level : ℕ) (outer : Option Span)
        (f : Forest) → DoAs by world → (g : Forest)
        × ((substitute_steps depth f (steps_of by scope depth level None f) ≡ (g, []))
        × (walk g ≡ events_of (expansion world scope depth outer f))) }
{}

/// The definitions of a text do what they mean there: `means`. Where names find the top level
/// alone, no option is set and nothing limits a call, this expansion is that of the text:
/// `top_level`.
pub fn definitions_do_what_they_mean()
    ensures means { (grammar : Grammar) (edition : Edition) (dialect : Dialect) →
        DoAs (rewrites grammar edition) (world grammar edition dialect) }
    ensures top_level { (grammar : Grammar) (edition : Edition)
        (scope : List ℕ → Option Definition) (depth : ℕ) (f : Forest) →
        expanded (world grammar edition top_level) (λ d. d) scope depth f
        ≡ expansion (world grammar edition top_level) scope depth None f }
{
    expander_scope::textual_scope::laws::top_level_scope_is_as_before();
}
