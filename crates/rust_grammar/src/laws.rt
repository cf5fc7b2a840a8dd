//! Laws of the grammar of Rust, for the proofs of crates above.
//!
//! Calling a law does nothing: its contract is the statement, which the caller then has in its
//! own proof.
ghost use Rattle.std.specs.Prelude.{◌≡◌, ◌≢◌, ◌≤◌, false};
ghost use Rattle.tt_data.specs.Forest.{Forest, map_spans, shape};
ghost use Rattle.tt_data.specs.declared.edition.Edition.{Edition};
ghost use Rattle.tt_data.specs.declared.span.Span.{Span};
ghost use Rattle.fragment_grammar.specs.Steps.{steps};
ghost use Rattle.fragment_grammar.specs.declared.fragment.PrefixEntryPoint.{PrefixEntryPoint};
ghost use Rattle.fragment_grammar.specs.declared.fragment.PrefixEntryPoint.TheVariants.{Vis};
ghost use Rattle.rust_grammar.specs.Answer.{answer, comes_of, entry_rule, most_levels};
ghost use Rattle.rust_grammar.specs.Expressions.{rule};
ghost use Rattle.rust_grammar.specs.Outcomes.{Comes};
ghost use Rattle.rust_grammar.specs.declared.outcome.Outcome.{Outcome};

/// By the rules of parsing expressions each entry point has exactly one outcome at each list, and
/// that is what the grammar answers.
pub fn one_outcome()
    ensures comes { (ed : Edition) (entry : PrefixEntryPoint) (f : Forest) →
        Comes ed most_levels (rule (entry_rule entry)) f (comes_of ed entry f) }
    ensures once { (ed : Edition) (entry : PrefixEntryPoint) (f : Forest) (o : Outcome) →
        Comes ed most_levels (rule (entry_rule entry)) f o → comes_of ed entry f ≡ o }
{}

/// The laws of a grammar: the same answer for other spans, never more steps than there are, and
/// without a fault at least one, except for a visibility.
pub fn lawful_answers()
    ensures moved { (m : Span → Span) (ed : Edition) (entry : PrefixEntryPoint) (f : Forest) →
        answer ed entry (map_spans m f) ≡ answer ed entry f }
    ensures same_shape { (ed : Edition) (entry : PrefixEntryPoint) (f g : Forest) → shape f
        ≡ shape g → answer ed entry f ≡ answer ed entry g }
    ensures within { (ed : Edition) (entry : PrefixEntryPoint) (f : Forest) →
        (answer ed entry f).tokens ≤ steps f }
    ensures takes { (ed : Edition) (entry : PrefixEntryPoint) (f : Forest) → entry ≢ Vis →
        (answer ed entry f).fault ≡ false → 1 ≤ (answer ed entry f).tokens }
{}
