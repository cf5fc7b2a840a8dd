//! Fragments for callers: what a grammar consumes at the front of a list, and the error if no
//! fragment is there.
ghost use Rattle.std.specs.Prelude.{◌≡◌, IfOk, IsOkUnless, OnErr, OnOk};
ghost use Rattle.symbols.specs.declared.fault.TtFault.TheVariants as fault;
ghost use Rattle.tt.specs.Views.{forest};
ghost use Rattle.tt_data.specs.Forest.{shape};
ghost use Rattle.mbe_rules.specs.Trees.{before, past};
ghost use Rattle.mbe_matcher.specs.Grammar.{reach, is_no_fragment};
ghost use Rattle.mbe_matcher.specs.Missing.{missing, missing_at, missing_text};

use crate::fragments::reached;
use crate::position::{before, past};
use fragment_grammar::{FragmentGrammar, PrefixEntryPoint};
use mbe_rules::{ExpandError, ExpandErrorKind, ExpandResult, ValueResult};
use std::alloc::Global;
use symbols::Symbol;
use tt::{DelimSpan, Span, TokenTreesView, TtFault, TtIter};

/// The trees that were taken for a fragment.
#[derive(Clone, Copy, Debug)]
pub struct PassedFragment<'a> {
    pub trees: TokenTreesView<'a>,
    /// Whether they are no fragment: the grammar answered a fault, or stopped inside the last of
    /// them.
    pub is_faulty: bool,
}

/// Takes as many trees as the grammar answers for a fragment of a kind. If the answer ends inside
/// a group, the outermost such group is taken whole. With a fault the trees are taken too.
pub fn pass_fragment<'a, G: FragmentGrammar>(
    grammar: &G,
    trees: &mut TtIter<'a>,
    entry: PrefixEntryPoint,
) -> PassedFragment<'a>
    ensures trees { let prefix = G.answer grammar.now entry (shape trees.old) in
        forest result.trees ≡ before (reach trees.old prefix.tokens).0 trees.old }
    ensures rest { let prefix = G.answer grammar.now entry (shape trees.old) in
        trees.new ≡ past (reach trees.old prefix.tokens).0 trees.old }
    ensures fault { result.is_faulty ≡ is_no_fragment trees.old (G.answer grammar.now entry
        (shape trees.old)) }
{
    let prefix = grammar.prefix(entry, trees.remaining());
    let (count, is_inside) = reached(trees, prefix.tokens);
    let passed = before(trees, count);
    *trees = past(trees, count);
    PassedFragment {
        trees: passed,
        is_faulty: prefix.fault || is_inside,
    }
}

// The text of the error where a fragment of this kind is missing.
fn missing_text(entry: PrefixEntryPoint) -> &'static str
    ensures { result.now ≡ missing_text entry }
{
    match entry {
        PrefixEntryPoint::Vis => "expected Vis",
        PrefixEntryPoint::Block => "expected Block",
        PrefixEntryPoint::Stmt => "expected Stmt",
        PrefixEntryPoint::Pat => "expected Pat",
        PrefixEntryPoint::PatTop => "expected PatTop",
        PrefixEntryPoint::Ty => "expected Ty",
        PrefixEntryPoint::Expr => "expected Expr",
        PrefixEntryPoint::Path => "expected Path",
        PrefixEntryPoint::Item => "expected Item",
        PrefixEntryPoint::MetaItem => "expected MetaItem",
    }
}

// The error that a fragment of this kind is missing at the front of a list. `end` is the list's
// end.
fn missing(
    alloc: Global,
    trees: &TtIter<'_>,
    entry: PrefixEntryPoint,
    end: Span,
) -> Result<ExpandError, TtFault>
    ensures error { IfOk result (λ e. e ≡ missing entry trees.now end) }
    ensures memory { IsOkUnless result fault.Memory }
{
    let place = match trees.next_span() {
        Some(place) => place,
        None => end,
    };
    let text = Symbol::new(alloc, missing_text(entry))?;
    ExpandError::new(alloc, place, ExpandErrorKind::BindingError(text))
}

/// Takes as many trees as the grammar answers for a fragment of a kind. If the answer ends inside
/// a group, the outermost such group is taken whole.
///
/// There is an error exactly where that happens or the grammar answers a fault. It is at the first
/// tree that was left, or, if there was none, at the closing end of `delim_span`, and names the
/// kind.
///
/// # Errors
///
/// `Memory`, the only error; then no tree is taken.
pub fn expect_fragment<'a, G: FragmentGrammar>(
    alloc: Global,
    grammar: &G,
    trees: &mut TtIter<'a>,
    entry: PrefixEntryPoint,
    delim_span: DelimSpan,
) -> Result<ExpandResult<TokenTreesView<'a>>, TtFault>
    ensures trees { let prefix = G.answer grammar.now entry (shape trees.old) in
        IfOk result (λ r. forest r.value ≡ before (reach trees.old prefix.tokens).0 trees.old) }
    ensures rest { let prefix = G.answer grammar.now entry (shape trees.old) in
        OnOk result (trees.new ≡ past (reach trees.old prefix.tokens).0 trees.old) }
    ensures err { IfOk result (λ r. r.err ≡ missing_at entry trees.old delim_span.close_span
        (G.answer grammar.now entry (shape trees.old))) }
    ensures unmoved { OnErr result (trees.new ≡ trees.old) }
    ensures memory { IsOkUnless result fault.Memory }
{
    let mut rest = trees.remaining().iter();
    let passed = pass_fragment(grammar, &mut rest, entry);
    if !passed.is_faulty {
        *trees = rest;
        return Ok(ValueResult::ok(passed.trees));
    }
    let err = missing(alloc, trees, entry, delim_span.close_span)?;
    *trees = rest;
    Ok(ValueResult::new(passed.trees, err))
}
