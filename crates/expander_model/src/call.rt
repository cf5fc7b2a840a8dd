//! Finds the call that a list of trees begins with: a name, `!` and a visible group, side by side.
ghost use Rattle.std.specs.Prelude.{◌≡◌, ◌++◌, Option, IfOk, IsOkUnless, codes, option_map};
ghost use Rattle.expander_model.specs.Calls.{is_colons, is_foreign, is_root, key_behind};
ghost use Rattle.expander_model.specs.CallSteps.{bare_call, call_after, call_at};
ghost use Rattle.expander_model.specs.CallSteps.{call_behind_colons, foreign_root, group_call};
ghost use Rattle.expander_model.specs.CallSteps.{key_at};
ghost use Rattle.expander_model.specs.Beginnings.{IsBeginning};
ghost use Rattle.tt_data.specs.Forest.{leaf as leaf_tree};
ghost use Rattle.tt_data.specs.Lent.{ident_lent, leaf_lent};
ghost use Rattle.tt_data.specs.fault.TtFault.TheVariants.{Memory};

use std::alloc::Global;
use tt::TtIter;
use tt_data::{DelimiterKind, Ident, IdentRef, LeafRef, Punct, Spacing, Symbol, TtFault};

/// A call at the beginning of a list of trees.
#[derive(Drop)]
pub struct Call<'a> {
    pub name: Ident,
    /// The trees from its group on.
    pub from_group: TtIter<'a>,
    pub argument: TtIter<'a>,
    /// The trees after it.
    pub rest: TtIter<'a>,
}

/// What a list of trees begins with, as a search for calls sees it.
#[derive(Drop)]
pub enum Beginning<'a> {
    /// A call.
    Call(Call<'a>),
    /// What would be a call but for the `::` before it.
    BehindColons(Call<'a>),
    /// A leaf that begins neither, and the trees after it.
    Leaf(LeafRef<'a>, TtIter<'a>),
    /// A group, or nothing.
    Other,
}

// Whether two puncts are a `::`.
pub(crate) fn is_colons(first: Punct, second: Punct) -> bool
    ensures { result ≡ is_colons first second }
{
    first.char == ':' && second.char == ':' && first.spacing != Spacing::Alone
}

// A visible group, after a name and its `!`.
fn group_call<'a>(name: IdentRef<'a>, after_bang: TtIter<'a>) -> Option<Call<'a>>
    ensures { result ≡ group_call (ident_lent name.entry) after_bang.entry }
{
    let (brackets, argument, rest) = after_bang.first_group()?;
    if brackets.kind == DelimiterKind::Invisible {
        return None;
    }
    Some(Call {
        name: name.to_ident(),
        from_group: after_bang,
        argument,
        rest,
    })
}

// A name, `!` and a visible group.
pub(crate) fn bare_call<'a>(trees: &TtIter<'a>) -> Option<Call<'a>>
    ensures { result ≡ bare_call trees.now }
{
    let (name, after_name) = trees.lent_ident()?;
    let (bang, after_bang) = after_name.first_punct()?;
    if bang.char != '!' {
        return None;
    }
    group_call(name, after_bang)
}

/// What would be a call but for the `::` with which the trees begin.
#[inline(always)]
pub fn call_behind_colons<'a>(trees: &TtIter<'a>) -> Option<Call<'a>>
    ensures { result ≡ call_behind_colons trees.now }
{
    let (first, after_first) = trees.first_punct()?;
    let (second, after_colons) = after_first.first_punct()?;
    if is_colons(first, second) {
        bare_call(&after_colons)
    } else {
        None
    }
}

// Whether the identifier stands for the root of another crate.
fn is_foreign(name: IdentRef<'_>) -> bool
    ensures { result ≡ is_foreign (ident_lent name.entry) }
{
    name.sym.as_str().starts_with("$crate:")
}

// Whether the identifier stands for the root of a crate.
fn is_root(name: IdentRef<'_>) -> bool
    ensures { result ≡ is_root (ident_lent name.entry) }
{
    name.sym.as_str() == "$crate" || is_foreign(name)
}

// The call with this name, before the trees: of a name alone by its `!`, of a root by its `::`.
#[inline(always)]
fn call_after<'a>(name: IdentRef<'a>, trees: &TtIter<'a>) -> Option<Call<'a>>
    ensures { result ≡ call_after (ident_lent name.entry) trees.now }
{
    let (mark, after_mark) = trees.first_punct()?;
    if mark.char == '!' {
        return group_call(name, after_mark);
    }
    if mark.char == ':' && is_root(name) {
        return call_behind_colons(trees);
    }
    None
}

/// The call that the trees begin with, if they do. (The Rust Reference, "Macros": invocation.)
#[inline(always)]
pub fn call_at<'a>(trees: &TtIter<'a>) -> Option<Call<'a>>
    ensures { result ≡ call_at trees.now }
{
    let (name, after_name) = trees.lent_ident()?;
    call_after(name, &after_name)
}

// The root of another crate, before the `::` of the call that the trees begin with.
fn foreign_root<'a>(trees: &TtIter<'a>) -> Option<IdentRef<'a>>
    ensures { option_map (λ r. ident_lent r) result ≡ foreign_root trees.now }
{
    let (root, after_root) = trees.lent_ident()?;
    if !is_foreign(root) {
        return None;
    }
    let _call = call_behind_colons(&after_root)?;
    Some(root)
}

/// What a name is looked up by behind the root of another crate: the text of the root's identifier,
/// `::` and the name. Out of memory is its only error.
pub fn key_behind(alloc: Global, root: &str, name: &str) -> Result<Symbol, TtFault>
    ensures key { IfOk result (λ key. key ≡ key_behind root.now name.now) }
    ensures memory { IsOkUnless result Memory }
{
    let mut key = String::from_str(alloc, root)?;
    key.push_str("::")?;
    key.push_str(name)?;
    Symbol::new(alloc, key.as_str())
}

/// What this call, with which the trees begin, is looked up by: its name, or behind the root of
/// another crate that root, `::` and its name. Out of memory is its only error.
pub fn key_at(alloc: Global, trees: &TtIter<'_>, call: &Call<'_>) -> Result<Symbol, TtFault>
    ensures key { IfOk result (λ key. key ≡ key_at trees.now call.now) }
    ensures memory { IsOkUnless result Memory }
{
    let name = &call.name.sym;
    match foreign_root(trees) {
        Some(root) => key_behind(alloc, root.sym.as_str(), name.as_str()),
        None => Ok(name.clone()?),
    }
}

// What the trees begin with that have this leaf first, and these trees after it.
#[inline(always)]
fn beginning_with<'a>(trees: &TtIter<'a>, leaf: LeafRef<'a>, rest: TtIter<'a>) -> Beginning<'a>
    requires { trees.now ≡ leaf_tree (leaf_lent leaf) rest }
    ensures { IsBeginning trees.now result }
{
    if let LeafRef::Ident(name) = leaf {
        return match call_after(name, &rest) {
            Some(call) => Beginning::Call(call),
            None => Beginning::Leaf(leaf, rest),
        };
    }
    match call_behind_colons(trees) {
        Some(call) => Beginning::BehindColons(call),
        None => Beginning::Leaf(leaf, rest),
    }
}

/// What the trees begin with.
#[inline(always)]
pub fn beginning_of<'a>(trees: &TtIter<'a>) -> Beginning<'a>
    ensures { IsBeginning trees.now result }
{
    match trees.lent_leaf() {
        Some((leaf, rest)) => beginning_with(trees, leaf, rest),
        None => Beginning::Other,
    }
}
