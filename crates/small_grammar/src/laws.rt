//! Laws of the small grammar, for the proofs of crates above.
//!
//! Calling a law does nothing: its contract is the statement, which the caller then has in its
//! own proof.
ghost use Rattle.std.specs.Prelude.{◌≡◌, ◌≢◌, ◌≤◌, false, Option};
ghost use Rattle.tt_data.specs.Forest.{Forest, map_spans};
ghost use Rattle.tt_data.specs.declared.span.Span.{Span};
ghost use Rattle.small_grammar.specs.Answer.{answer, entry_rule};
ghost use Rattle.small_grammar.specs.Outcomes.{Comes};
ghost use Rattle.small_grammar.specs.SmallGrammar.{takes};
ghost use Rattle.fragment_grammar.specs.Steps.{steps};
ghost use Rattle.fragment_grammar.specs.declared.fragment.PrefixEntryPoint.{PrefixEntryPoint};
ghost use Rattle.fragment_grammar.specs.declared.fragment.PrefixEntryPoint.TheVariants.{Vis};

/// By the rules of parsing expressions each entry point has exactly one outcome at each list, and
/// that is what the grammar answers.
pub fn one_outcome()
    ensures comes { (entry : PrefixEntryPoint) (f : Forest) →
        Comes (entry_rule entry) f (takes (entry_rule entry) f) }
    ensures once { (entry : PrefixEntryPoint) (f : Forest) (o : Option Forest) →
        Comes (entry_rule entry) f o → takes (entry_rule entry) f ≡ o }
{}

/// The laws of a grammar: the same answer for other spans, never more steps than there are, and
/// without a fault at least one, except for a visibility.
pub fn lawful_answers()
    ensures moved { (m : Span → Span) (entry : PrefixEntryPoint) (f : Forest) →
        answer entry (map_spans m f) ≡ answer entry f }
    ensures within { (entry : PrefixEntryPoint) (f : Forest) → (answer entry f).tokens ≤ steps f }
    ensures takes { (entry : PrefixEntryPoint) (f : Forest) → entry ≢ Vis →
        (answer entry f).fault ≡ false → 1 ≤ (answer entry f).tokens }
{}
