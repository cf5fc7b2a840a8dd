//! Trees with their anchors replaced.
ghost use Rattle.std.specs.Prelude.{◌≡◌, ℕ, List, IfOk, IsOkUnless, OnOk, OnErr, nat_eq};
ghost use Rattle.std.specs.List.{FoldsTo, list_any};
ghost use Rattle.tt_data.specs.fault.TtFault.TheVariants as fault;
ghost use Rattle.tt.specs.Anchors.{StandForThemselves};
ghost use Rattle.token_bytes.specs.Anchors.{answer_in};
ghost use Rattle.token_bytes.specs.Items.{items};
ghost use Rattle.tt.specs.Relabelling.{Answers, AnswersBy, anchors_in, anchors_of, anchors_of_brackets, asked_about, by_first_use, met_after, relabelled, renamed, with_anchor};

use crate::top_subtree::TopSubtree;
use std::alloc::{AllocError, Global};
use std::collections::HashMap;
use token_bytes::{Renaming, Tokens};
use tt_data::{Delimiter, TtFault};

impl TopSubtree {
    /// Replaces every anchor of the tree by what `f` answers for it. `f` is asked about each
    /// anchor once, in the order of first use below the top, a group's delimiters before its
    /// contents. Anchors that the top's own delimiters alone have come last.
    ///
    /// `Memory` is the only error: then `f` was not asked, and the tree is as it was.
    pub fn change_every_ast_id<F: FnMut(u32) -> u32>(
        &mut self,
        alloc: Global,
        f: F,
    ) -> Result<(), TtFault>
        requires { F.IsAlwaysCallable f }
        ensures ok { OnOk result ((entries : List (ℕ × ℕ)) × (last : F) × FoldsTo (Answers F.FnMut) f entries last
            × (asked_about entries ≡ by_first_use (anchors_of self.old)) × (self.new ≡ relabelled (renamed entries) self.old)) }
        ensures by_rule { OnOk result ((h : ℕ → ℕ) → AnswersBy F.FnMut h f → self.new ≡ relabelled h self.old) }
        ensures err { OnErr result (self.new ≡ self.old) }
        ensures memory { IsOkUnless result fault.Memory }
    {
        let anchors = met_in(alloc, self)?;
        let common = self.top_subtree().delimiter.open_span.anchor;
        let renaming = Renaming::new(answered(anchors, f), common);
        self.tokens.relabel(&renaming);
        Ok(())
    }
}

// The anchors of a tree, in the order of their first occurrence, and what replaces each.
#[derive(Drop)]
struct Anchors {
    met: Vec<u32>,
    answers: HashMap<u32, u32>,
}

// Whether the anchor occurred.
fn is_met(anchors: &Anchors, anchor: u32) -> bool
    requires { StandForThemselves anchors.now }
    ensures { result ≡ list_any (nat_eq anchor) anchors.now.met.items }
{
    anchors.met.last().copied() == Some(anchor) || anchors.answers.contains_key(&anchor)
}

// Adds an anchor, unless it occurred.
fn meet(anchors: &mut Anchors, anchor: u32) -> Result<(), AllocError>
    requires { StandForThemselves anchors.old }
    ensures stand { OnOk result (StandForThemselves anchors.new) }
    ensures met { OnOk result (anchors.new.met.items ≡ with_anchor anchors.old.met.items anchor) }
{
    if is_met(anchors, anchor) {
        return Ok(());
    }
    anchors.met.push(anchor)?;
    let _ = anchors.answers.insert(anchor, anchor)?;
    Ok(())
}

// Adds the anchors of a group's two brackets.
fn meet_brackets(anchors: &mut Anchors, delimiter: Delimiter) -> Result<(), AllocError>
    requires { StandForThemselves anchors.old }
    ensures stand { OnOk result (StandForThemselves anchors.new) }
    ensures met { OnOk result (anchors.new.met.items ≡ met_after anchors.old.met.items (anchors_of_brackets delimiter)) }
{
    meet(anchors, delimiter.open_span.anchor)?;
    meet(anchors, delimiter.close_span.anchor)
}

// Adds the anchors of tokens that follow one another.
fn meet_all(anchors: &mut Anchors, tokens: Tokens<'_>) -> Result<(), AllocError>
    requires { StandForThemselves anchors.old }
    ensures stand { OnOk result (StandForThemselves anchors.new) }
    ensures met { OnOk result (anchors.new.met.items ≡ met_after anchors.old.met.items (anchors_in (items tokens.entry))) }
{
    let mut rest = tokens;
    'tokens: loop {
        if let Some((leaf, more)) = rest.lent_leaf() {
            meet(anchors, leaf.span().anchor)?;
            rest = more;
        } else if let Some((head, more)) = rest.split_head() {
            meet_brackets(anchors, head.delimiter)?;
            rest = more;
        } else {
            return Ok(());
        }
    }
}

// The anchors of a tree.
fn met_in(alloc: Global, tree: &TopSubtree) -> Result<Anchors, AllocError>
    ensures stand { IfOk result StandForThemselves }
    ensures met { IfOk result (λ anchors. anchors.met.items ≡ by_first_use (anchors_of tree.now)) }
{
    let mut anchors = Anchors {
        met: Vec::new(alloc),
        answers: HashMap::new(alloc),
    };
    let view = tree.view();
    meet_all(&mut anchors, view.token_trees().tokens)?;
    meet_brackets(&mut anchors, view.top_subtree().delimiter)?;
    Ok(anchors)
}

// Asks about each anchor, and stores the answers.
fn answered<F: FnMut(u32) -> u32>(anchors: Anchors, f: F) -> HashMap<u32, u32>
    requires callable { F.IsAlwaysCallable f }
    requires stand { StandForThemselves anchors }
    ensures { (entries : List (ℕ × ℕ)) × (last : F) × FoldsTo (Answers F.FnMut) f entries last
        × (asked_about entries ≡ anchors.met.items) × ((a : ℕ) → answer_in result a ≡ renamed entries a) }
{
    let Anchors { met, mut answers } = anchors;
    let mut f = f;
    let mut rest = met.as_slice();
    while let Some((anchor, more)) = rest.split_first() {
        let answer = f(*anchor);
        let Ok(_) = answers.insert(*anchor, answer) else {
            unreachable!()
        };
        rest = more;
    }
    answers
}
