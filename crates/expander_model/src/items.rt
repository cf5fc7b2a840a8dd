//! Whole items: pieces that are one item and no more.
ghost use Rattle.std.specs.Prelude.{◌≡◌, ◌<◌, ◌||◌, ◌∷◌, [], ◌^◌, false};
ghost use Rattle.tt_data.specs.Forest.{empty, leaf};
ghost use Rattle.tt_data.specs.Lent.{ident_lent, leaf_lent};
ghost use Rattle.tt_data.specs.declared.leaf.Leaf.TheVariants as as_leaf;
ghost use Rattle.expander_model.specs.WholeItems.{after_call, after_path, after_qualifiers};
ghost use Rattle.expander_model.specs.WholeItems.{begins_with, behind_colons, ends_in_body};
ghost use Rattle.expander_model.specs.WholeItems.{ends_in_semicolon, is_bodied, is_end};
ghost use Rattle.expander_model.specs.WholeItems.{is_extern_block, is_path_call, is_short};
ghost use Rattle.expander_model.specs.WholeItems.{is_whole_call, is_whole_item, opened_after};
ghost use Rattle.expander_model.specs.ItemSteps.{behind_name, is_char_of, is_item};

use crate::call::{bare_call, is_colons};
use crate::definition::{after_attributes, after_pub, after_word, is_semicolon};
use cfg_options::small_grammar::names::has_text;
use tt::TtIter;
use tt_data::{DelimiterKind, IdentRef, LeafRef};

// Whether a leaf is this punct.
fn is_punct(leaf: LeafRef<'_>, char: char) -> bool
    ensures { result ≡ is_char_of char (leaf_lent leaf.entry) }
{
    match leaf {
        LeafRef::Punct(punct) => punct.char == char,
        _ => false,
    }
}

// How many `<` are open after a leaf, where `arrow` says that a `-` is right before it.
fn opened_after(depth: usize, arrow: bool, leaf: LeafRef<'_>) -> usize
    requires { depth < 2 ^ 63 }
    ensures { result ≡ opened_after depth arrow (leaf_lent leaf.entry) }
{
    if is_punct(leaf, '<') {
        depth + 1
    } else if is_punct(leaf, '>') && !arrow {
        depth.saturating_sub(1)
    } else {
        depth
    }
}

// Whether a brace group ends the trees, and no `<` is open before it.
fn ends_in_body(trees: &TtIter<'_>) -> bool
    ensures { result ≡ ends_in_body 0 false trees.now }
{
    let _count = trees.remaining().len();
    let mut rest = trees.copied();
    let mut depth: usize = 0;
    let mut arrow = false;
    loop {
        if let Some((leaf, after)) = rest.lent_leaf() {
            depth = opened_after(depth, arrow, leaf);
            arrow = is_punct(leaf, '-');
            rest = after;
            continue;
        }
        let Some((brackets, _, after)) = rest.first_group() else {
            return false;
        };
        if after.is_empty() {
            return depth == 0 && brackets.kind == DelimiterKind::Brace;
        }
        arrow = false;
        rest = after;
    }
}

// Whether `;` is the last tree.
fn ends_in_semicolon(trees: &TtIter<'_>) -> bool
    ensures { result ≡ ends_in_semicolon trees.now }
{
    let mut rest = trees.copied();
    loop {
        if let Some((leaf, after)) = rest.lent_leaf() {
            if after.is_empty() {
                return is_punct(leaf, ';');
            }
            rest = after;
            continue;
        }
        let Some((_, _, after)) = rest.first_group() else {
            return false;
        };
        rest = after;
    }
}

// Whether one of the words that may be before `fn`, `trait`, `impl` or `mod` is this.
fn is_qualifier(name: IdentRef<'_>) -> bool
    ensures { result ≡ begins_with
        ("const" ∷ "async" ∷ "unsafe" ∷ "safe" ∷ "auto" ∷ "extern" ∷ [])
        (leaf (as_leaf.Ident (ident_lent name.entry)) empty) }
{
    has_text(name, "const")
        || has_text(name, "async")
        || has_text(name, "unsafe")
        || has_text(name, "safe")
        || has_text(name, "auto")
        || has_text(name, "extern")
}

// What follows those words, and an ABI.
fn after_qualifiers<'a>(trees: &TtIter<'a>) -> TtIter<'a>
    ensures { result ≡ after_qualifiers trees.now }
{
    let mut rest = trees.copied();
    while let Some((leaf, after)) = rest.lent_leaf() {
        let passes = match leaf {
            LeafRef::Ident(name) => is_qualifier(name),
            LeafRef::Literal(_) => true,
            LeafRef::Punct(_) => false,
        };
        if !passes {
            break;
        }
        rest = after;
    }
    rest
}

// Whether the trees begin with a word that begins an item with a body.
fn begins_bodied(trees: &TtIter<'_>) -> bool
    ensures { result ≡ begins_with
        ("fn" ∷ "struct" ∷ "enum" ∷ "union" ∷ "trait" ∷ "impl" ∷ "mod" ∷ []) trees.now }
{
    let Some((name, _)) = trees.lent_ident() else {
        return false;
    };
    has_text(name, "fn")
        || has_text(name, "struct")
        || has_text(name, "enum")
        || has_text(name, "union")
        || has_text(name, "trait")
        || has_text(name, "impl")
        || has_text(name, "mod")
}

// Whether the trees begin with a word that begins an item that `;` ends.
fn begins_short(trees: &TtIter<'_>) -> bool
    ensures { result ≡ begins_with
        ("use" ∷ "static" ∷ "type" ∷ "const" ∷ "extern" ∷ []) trees.now }
{
    let Some((name, _)) = trees.lent_ident() else {
        return false;
    };
    has_text(name, "use")
        || has_text(name, "static")
        || has_text(name, "type")
        || has_text(name, "const")
        || has_text(name, "extern")
}

// An item with a body, or without one and with `;`.
fn is_bodied(trees: &TtIter<'_>) -> bool
    ensures { result ≡ is_bodied trees.now }
{
    begins_bodied(&after_qualifiers(trees)) && (ends_in_body(trees) || ends_in_semicolon(trees))
}

// Whether the trees begin with `extern`.
fn begins_extern(trees: &TtIter<'_>) -> bool
    ensures { result ≡ begins_with ("extern" ∷ []) trees.now }
{
    match trees.lent_ident() {
        Some((name, _)) => has_text(name, "extern"),
        None => false,
    }
}

// Whether the trees are `extern { .. }`, perhaps with `unsafe` and an ABI.
fn is_extern_block(trees: &TtIter<'_>) -> bool
    ensures { result ≡ is_extern_block trees.now }
{
    let is_extern = match after_word(trees, "unsafe") {
        Some(after) => begins_extern(&after),
        None => begins_extern(trees),
    };
    let body = after_qualifiers(trees);
    is_extern && ends_in_body(&body) && body.first_group().is_some()
}

// An item that `;` ends.
fn is_short(trees: &TtIter<'_>) -> bool
    ensures { result ≡ is_short trees.now }
{
    begins_short(trees) && ends_in_semicolon(trees)
}

// What follows a `::` at the beginning, if one does.
fn behind_colons<'a>(trees: &TtIter<'a>) -> Option<TtIter<'a>>
    ensures { result ≡ behind_colons trees.now }
{
    let (first, after_first) = trees.first_punct()?;
    let (second, rest) = after_first.first_punct()?;
    if is_colons(first, second) {
        Some(rest)
    } else {
        None
    }
}

// What follows a name at the beginning that has a `::` after it.
fn behind_name<'a>(trees: &TtIter<'a>) -> Option<TtIter<'a>>
    ensures { result ≡ behind_name trees.now }
{
    let (_, after) = trees.lent_ident()?;
    behind_colons(&after)
}

// What follows the names at the beginning that have a `::` after them.
fn after_path<'a>(trees: &TtIter<'a>) -> TtIter<'a>
    ensures { result ≡ after_path trees.now }
{
    let mut rest = trees.copied();
    while let Some(after) = behind_name(&rest) {
        rest = after;
    }
    rest
}

// What follows a call with which the trees begin: a name, `!` and a visible group.
fn after_call<'a>(trees: &TtIter<'a>) -> Option<TtIter<'a>>
    ensures { result ≡ after_call trees.now }
{
    Some(bare_call(trees)?.rest)
}

// Whether there is nothing, or `;`.
fn is_end(trees: &TtIter<'_>) -> bool
    ensures { result ≡ is_end trees.now }
{
    trees.is_empty() || is_semicolon(trees)
}

// A call behind the names of a path, and nothing else, or `;`.
fn is_path_call(trees: &TtIter<'_>) -> bool
    ensures { result ≡ is_path_call trees.now }
{
    match after_call(&after_path(trees)) {
        Some(rest) => is_end(&rest),
        None => false,
    }
}

// Such a call, or one with a `::` before it.
fn is_whole_call(trees: &TtIter<'_>) -> bool
    ensures { result ≡ is_whole_call trees.now }
{
    match behind_colons(trees) {
        Some(after) => is_path_call(&after),
        None => is_path_call(trees),
    }
}

// Whether the trees, behind attributes and visibility, are one item.
fn is_item(trees: &TtIter<'_>) -> bool
    ensures { result ≡ is_item trees.now }
{
    is_bodied(trees) || is_extern_block(trees) || is_short(trees) || is_whole_call(trees)
}

/// Whether the piece is one item and no more. (The Rust Reference, "Items".)
pub fn is_whole_item(piece: &TtIter<'_>) -> bool
    ensures { result ≡ is_whole_item piece.now }
{
    let rest = after_attributes(piece);
    match after_pub(&rest) {
        Some(after) => is_item(&after),
        None => is_item(&rest),
    }
}
