//! Expands a call of a macro.
ghost use Rattle.std.specs.Prelude.{◌≡◌, None, Some, Err, true, IfErr, IfOk, IfSome, IsOkUnless};
ghost use Rattle.std.specs.Prelude.{MatchOption, option_map};
ghost use Rattle.tt.specs.Views.{forest};
ghost use Rattle.mbe.specs.Answers.{within, no_brackets};
ghost use Rattle.mbe.specs.Fit as spec;
ghost use Rattle.mbe.specs.Macros.{rules_of};
ghost use Rattle.mbe_transcriber.specs.Markers.{IsMarkedBy, is_name};
ghost use Rattle.mbe.specs.Bursts.{bursts};
ghost use Rattle.mbe.specs.PutOut.{left_of, put_out};
ghost use Rattle.mbe_transcriber.specs.Room.{IsWantOfRoom};
ghost use Rattle.mbe.specs.Unfit.{IsUnfit};
ghost use Rattle.tt_data.specs.declared.span.Span.{Span};
ghost use Rattle.tt_data.specs.fault.TtFault.TheVariants.{Memory, Tokens};

use crate::declarative_macro::DeclarativeMacro;
use crate::recovery::failure;
use crate::select_rule::{Bounds, Tried, first_fit};
use mbe_rules::{ExpandResult, MacroCallStyle, MatchedArmIndex, ValueResult};
use mbe_transcriber::mbe_matcher::fragment_grammar::FragmentGrammar;
use std::alloc::Global;
use tt::{Delimiter, Span, TokenTreesView, TopSubtree, TtFault};

impl DeclarativeMacro {
    /// The first rule that fits a call with this argument, by its index among all rules, and what
    /// it gives inside the delimiters `top`. `None` if no rule fits. Of the argument only what the
    /// rule transcribes is copied. (The Rust Reference, "Macros By Example".)
    ///
    /// The macro has no fault: `err()` is `None`. `marker` gives the span of a transcriber's
    /// token in the result, and may be called on every span.
    ///
    /// # Errors
    ///
    /// `Memory`; or `Tokens` if a rule that is tried puts out more than `u32::MAX` tokens, be it
    /// before a fault.
    pub fn fit<G: FragmentGrammar, M: Fn(Span) -> Span>(
        &self,
        alloc: Global,
        grammar: &G,
        argument: TokenTreesView<'_>,
        marker: &M,
        call_style: MacroCallStyle,
        top: Delimiter,
    ) -> Result<Option<(u32, TopSubtree)>, TtFault>
        requires whole { (rules_of self.now).err ≡ None }
        requires marker { M.IsAlwaysCallable marker.now }
        ensures fit { (mark : Span → Span) → IsMarkedBy (M.post marker.now) mark →
            IfOk result (λ o. o
            ≡ option_map (λ r. (r.0, within top r.1)) (spec.fit is_name (G.answer grammar.now) mark
            (rules_of self.now).list call_style (forest argument.entry))) }
        ensures faults { IfErr result IsWantOfRoom }
        ensures tokens { (mark : Span → Span) → IsMarkedBy (M.post marker.now) mark → result
            ≡ Err Tokens →
            bursts is_name (G.answer grammar.now) mark (rules_of self.now).list call_style
            (forest argument.entry) ≡ true }
    {
        let bounds = Bounds { top, most: None };
        match self.fit_within(alloc, grammar, argument, marker, call_style, bounds)? {
            Some(tried) => Ok(tried.given),
            // No limit is passed where there is none.
            None => Ok(None),
        }
    }

    /// The same within a limit: what the call gives, and what is left of the tokens that may be
    /// put out for it. `None` exactly where the rules up to the first that fits put out more, be
    /// it before a fault. Transcribing ends soon after the limit is passed.
    ///
    /// # Errors
    ///
    /// As `fit`.
    pub fn fit_within<G: FragmentGrammar, M: Fn(Span) -> Span>(
        &self,
        alloc: Global,
        grammar: &G,
        argument: TokenTreesView<'_>,
        marker: &M,
        call_style: MacroCallStyle,
        bounds: Bounds,
    ) -> Result<Option<Tried<(u32, TopSubtree)>>, TtFault>
        requires whole { (rules_of self.now).err ≡ None }
        requires marker { M.IsAlwaysCallable marker.now }
        ensures fit { (mark : Span → Span) → IsMarkedBy (M.post marker.now) mark →
            IfOk result (λ o. IfSome o (λ t. t.given
            ≡ option_map (λ r. (r.0, within bounds.top r.1)) (spec.fit is_name
            (G.answer grammar.now) mark (rules_of self.now).list call_style
            (forest argument.entry)))) }
        ensures left { (mark : Span → Span) → IsMarkedBy (M.post marker.now) mark →
            IfOk result (λ o. option_map (λ t. t.left) o ≡ left_of bounds.most (put_out is_name
            (G.answer grammar.now) mark (rules_of self.now).list call_style
            (forest argument.entry))) }
        ensures faults { IfErr result IsWantOfRoom }
        ensures tokens { (mark : Span → Span) → IsMarkedBy (M.post marker.now) mark → result
            ≡ Err Tokens →
            bursts is_name (G.answer grammar.now) mark (rules_of self.now).list call_style
            (forest argument.entry) ≡ true }
    {
        let (list, keys) = (self.list(), self.keys());
        let tried = first_fit(
            alloc, grammar, list, keys, call_style, argument, marker, bounds,
        )?;
        let Some(Tried { given, left }) = tried else {
            return Ok(None);
        };
        let given = match given {
            Some((number, tree)) => Some((number as u32, tree)),
            None => None,
        };
        Ok(Some(Tried { given, left }))
    }

    /// Expands a call. (The Rust Reference, "Macros By Example".)
    ///
    /// If a rule fits, the value is what the first such rule gives, inside invisible delimiters at
    /// `call_site`, with the rule's index among all rules, and there is no error.
    ///
    /// Else there is an error, the index of a rule of this style, and a tree inside such
    /// delimiters. If no rule has the style, there is no index, the tree is empty, and the error
    /// is `NoMatchingRule` at `call_site`.
    ///
    /// The macro has no fault: `err()` is `None`. `marker` gives the span of a transcriber's
    /// token in the result, and may be called on every span.
    ///
    /// # Errors
    ///
    /// `Memory`; or `Tokens` if a rule that is tried puts out more than `u32::MAX` tokens, be it
    /// before a fault.
    pub fn expand<G: FragmentGrammar, M: Fn(Span) -> Span>(
        &self,
        alloc: Global,
        grammar: &G,
        tt: &TopSubtree,
        marker: &M,
        call_style: MacroCallStyle,
        call_site: Span,
    ) -> Result<ExpandResult<(TopSubtree, MatchedArmIndex)>, TtFault>
        requires whole { (rules_of self.now).err ≡ None }
        requires marker { M.IsAlwaysCallable marker.now }
        ensures answer { (mark : Span → Span) → IsMarkedBy (M.post marker.now) mark →
            IfOk result (λ r.
            MatchOption (spec.fit is_name (G.answer grammar.now) mark (rules_of self.now).list
            call_style tt.now.inner)
            (IsUnfit call_style (rules_of self.now).list call_site r.value.1 r.value.0 r.err)
            (λ f. r ≡ record {
              value = (within (no_brackets call_site) f.1, Some f.0);
              err = None;
            })) }
        ensures faults { IfErr result IsWantOfRoom }
        ensures tokens { (mark : Span → Span) → IsMarkedBy (M.post marker.now) mark → result
            ≡ Err Tokens →
            bursts is_name (G.answer grammar.now) mark (rules_of self.now).list call_style
            tt.now.inner ≡ true }
    {
        let top = Delimiter::invisible_spanned(call_site);
        match self.fit(alloc, grammar, tt.token_trees(), marker, call_style, top)? {
            Some((number, tree)) => Ok(ValueResult::ok((tree, Some(number)))),
            None => {
                let (tree, number, err) = failure(
                    alloc,
                    grammar,
                    self.list(),
                    call_style,
                    tt,
                    marker,
                    call_site,
                )?;
                Ok(ValueResult::new((tree, number), err))
            }
        }
    }
}
