//! Parses a definition, and gives its rules, its fault, copies and equality.
ghost use Rattle.std.specs.Prelude.{◌≡◌, ◌<◌, ◌^◌, IfOk, IsOkUnless, None, Some, false, length};
ghost use Rattle.std.specs.Prelude.{map, option_map};
ghost use Rattle.std.specs.List.{list_any};
ghost use Rattle.tt_data.specs.declared.edition.Edition.{Edition};
ghost use Rattle.tt_data.specs.declared.span.SyntaxContext.{SyntaxContext};
ghost use Rattle.symbols.specs.declared.fault.TtFault.TheVariants as fault;
ghost use Rattle.mbe_rules.specs.Editions.{IsAnsweredBy};
ghost use Rattle.mbe_rules.specs.Items.{has_empty_round};
ghost use Rattle.mbe_rules.specs.Ops as ops;
ghost use Rattle.mbe_rules.specs.Parsing.{macro_of, macro_rules_of, no_rules};
ghost use Rattle.mbe_rules.specs.Styles.{bits_of};
ghost use Rattle.std.specs.Option.{option_eq};
ghost use Rattle.mbe.specs.Kept.{kept_list};
ghost use Rattle.mbe.specs.Keys.{keys_of};
ghost use Rattle.mbe.specs.Macros.{edition_of, rules_of, styles_in, styles_of};

use crate::declarative_macro::{DeclarativeMacro, Definition};
use crate::rule_index::keys_of;
use mbe_rules::{MacroCallStyles, ParseError, Rule};
use std::alloc::Global;
use tt::{Edition, SyntaxContext, TopSubtree, TtFault};

// A copy of a fault.
fn copied(err: &ParseError) -> ParseError
    ensures { result ≡ err.now }
{
    match err.clone() {
        Ok(copy) => copy,
        Err(_) => unreachable!(),
    }
}

impl DeclarativeMacro {
    /// A macro without rules that is invalid with this fault. It takes no memory.
    pub fn from_err(err: ParseError) -> DeclarativeMacro
        ensures { rules_of result ≡ no_rules (Some err) }
    {
        DeclarativeMacro {
            kept: Definition::Broken(err),
        }
    }

    /// Parses `macro_rules! name { .. }`, whose delimiters are those of `tt`, as
    /// [`mbe_rules::parse_macro_rules`] does.
    ///
    /// `ctx_edition` answers the edition of the tokens of each of the two contexts.
    ///
    /// # Errors
    ///
    /// `Memory`, the only error.
    pub fn parse_macro_rules<F: Fn(SyntaxContext) -> Edition>(
        alloc: Global,
        tt: &TopSubtree,
        ctx_edition: F,
    ) -> Result<DeclarativeMacro, TtFault>
        requires { F.IsAlwaysCallable ctx_edition }
        ensures ok { (edition : SyntaxContext → Edition) → IsAnsweredBy (F.post ctx_edition)
            edition →
            IfOk result (λ m. rules_of m ≡ macro_rules_of edition tt.now.inner) }
        ensures memory { IsOkUnless result fault.Memory }
    {
        let written = ctx_edition(SyntaxContext::Written);
        let made = ctx_edition(SyntaxContext::Made);
        let _head = tt.top_subtree();
        let rules = mbe_rules::parse_macro_rules(
            alloc,
            tt,
            move |context|
                ensures { result ≡ edition_of written made context }
            {
                match context {
                    SyntaxContext::Written => written,
                    SyntaxContext::Made => made,
                }
            },
        )?;
        let keys = keys_of(alloc, &rules.list)?;
        Ok(DeclarativeMacro {
            kept: Definition::Read(rules, keys),
        })
    }

    /// Parses `macro name { .. }`, whose delimiters are those of `body`, or with `args` the one
    /// rule of `macro name(..) { .. }`, as [`mbe_rules::parse_macro2`] does.
    ///
    /// `ctx_edition` answers the edition of the tokens of each of the two contexts.
    ///
    /// # Errors
    ///
    /// `Memory`, the only error.
    pub fn parse_macro2<F: Fn(SyntaxContext) -> Edition>(
        alloc: Global,
        args: Option<&TopSubtree>,
        body: &TopSubtree,
        ctx_edition: F,
    ) -> Result<DeclarativeMacro, TtFault>
        requires { F.IsAlwaysCallable ctx_edition }
        ensures ok { (edition : SyntaxContext → Edition) → IsAnsweredBy (F.post ctx_edition)
            edition →
            IfOk result (λ m. rules_of m
            ≡ macro_of edition (option_map (λ t. t.now.inner) args.entry) body.now.inner) }
        ensures memory { IsOkUnless result fault.Memory }
    {
        let written = ctx_edition(SyntaxContext::Written);
        let made = ctx_edition(SyntaxContext::Made);
        let _head = body.top_subtree();
        let rules = mbe_rules::parse_macro2(
            alloc,
            args,
            body,
            move |word|
                ensures { result ≡ edition_of written made word }
            {
                match word {
                    SyntaxContext::Written => written,
                    SyntaxContext::Made => made,
                }
            },
        )?;
        let keys = keys_of(alloc, &rules.list)?;
        Ok(DeclarativeMacro {
            kept: Definition::Read(rules, keys),
        })
    }

    /// The first fault of the definition, which makes the macro invalid, if there is one.
    pub fn err(&self) -> Option<&ParseError>
        ensures { option_map (λ e. e.now) result ≡ (rules_of self.now).err }
    {
        match &self.kept {
            Definition::Read(rules, _) => rules.err.as_ref(),
            Definition::Broken(err) => Some(err),
        }
    }

    /// The rules, in order: each with its style, its matcher and its transcriber.
    ///
    /// If the definition has no fault, no repetition of their matchers can iterate without end.
    pub fn rules(&self) -> &[Rule]
        ensures rules { map ops.rule_of result.now ≡ (rules_of self.now).list }
        ensures ends { (rules_of self.now).err ≡ None →
            list_any (λ r. has_empty_round r.pattern) (rules_of self.now).list ≡ false }
    {
        self.list()
    }

    // The rules.
    pub(crate) fn list(&self) -> &[Rule]
        ensures kept { result.now ≡ kept_list self.now.kept }
        ensures rules { map ops.rule_of result.now ≡ (rules_of self.now).list }
    {
        match &self.kept {
            Definition::Read(rules, _) => &rules.list,
            Definition::Broken(_) => &[],
        }
    }

    // The keys of the identifiers that the rules' matchers begin with.
    pub(crate) fn keys(&self) -> &[Option<u32>]
        ensures { result.now ≡ keys_of (rules_of self.now).list }
    {
        match &self.kept {
            Definition::Read(_, keys) => keys,
            Definition::Broken(_) => &[],
        }
    }

    /// The number of rules.
    pub fn num_rules(&self) -> usize
        ensures { result ≡ length (rules_of self.now).list }
    {
        self.list().len()
    }

    /// The styles of the rules; without a rule, that of calls by name and `!`.
    pub fn rule_styles(&self) -> MacroCallStyles
        ensures { bits_of result ≡ styles_of (rules_of self.now).list }
    {
        styles(self.list())
    }

    /// An equal macro, separators the same in every part.
    ///
    /// # Errors
    ///
    /// `Memory`, the only error.
    pub fn try_clone(&self, alloc: Global) -> Result<DeclarativeMacro, TtFault>
        ensures same { IfOk result (λ m. rules_of m ≡ rules_of self.now) }
        ensures memory { IsOkUnless result fault.Memory }
    {
        match &self.kept {
            Definition::Read(rules, _) => {
                let rules = rules.try_clone(alloc)?;
                let keys = keys_of(alloc, &rules.list)?;
                Ok(DeclarativeMacro {
                    kept: Definition::Read(rules, keys),
                })
            }
            Definition::Broken(err) => Ok(DeclarativeMacro::from_err(copied(err))),
        }
    }
}

// The styles of some rules.
fn styles(list: &[Rule]) -> MacroCallStyles
    ensures { bits_of result ≡ styles_of (map ops.rule_of list.now) }
{
    let Some((first, more)) = list.split_first() else {
        return MacroCallStyles::FN_LIKE;
    };
    let mut styles = MacroCallStyles::from(first.style);
    for rule in more {
        styles = styles.union(MacroCallStyles::from(rule.style));
    }
    styles
}

// Whether two faults are the same.
fn same_fault(first: Option<&ParseError>, second: Option<&ParseError>) -> bool
    ensures { result ≡ option_eq ⟦<ParseError as PartialEq>⟧.eq
        (option_map (λ e. e.now) first.entry) (option_map (λ e. e.now) second.entry) }
{
    match (first, second) {
        (Some(first), Some(second)) => first == second,
        (None, None) => true,
        _ => false,
    }
}

/// Macros are equal if their faults are, and their rules one by one, spans included; separators
/// are equal by their texts.
impl PartialEq for DeclarativeMacro {
    ghost use Rattle.std.specs.Cmp.{partial_equiv_from_equiv};
    ghost use Rattle.mbe.specs.MacroEquality.{same_macro, same_macro_equiv};

    ghost eq = { same_macro };

    ghost laws = { partial_equiv_from_equiv same_macro_equiv };

    fn eq(&self, other: &DeclarativeMacro) -> bool {
        same_fault(self.err(), other.err()) && self.list() == other.list()
    }
}

impl Eq for DeclarativeMacro {
    ghost use Rattle.mbe.specs.MacroEquality.{same_macro_equiv};

    ghost laws = { same_macro_equiv };
}
