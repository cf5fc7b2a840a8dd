//! Writes trees as text.
ghost use Rattle.std.specs.Prelude.{◌≡◌, ◌++◌, [], Some, IfOk, IsOkUnless, OnOk, string_bytes};
ghost use Rattle.std.specs.Fmt.{WritesOnOk};
ghost use Rattle.tt_data.specs.fault.TtFault.TheVariants as fault;
ghost use Rattle.tt_data.specs.Displayed.{displayed_leaf};
ghost use Rattle.tt_data.specs.Walk.{walk};
ghost use Rattle.tt.specs.Building.{is_invisible};
ghost use Rattle.tt.specs.Styles.{touches_in, space_if, opening_after, space_behind_opening, space_behind_closing};
ghost use Rattle.tt.specs.Texts.{opening_text, closing_text, space_after, text_after, pretty_text};
ghost use Rattle.tt.specs.Views.{forest};

use crate::top_subtree::TopSubtree;
use crate::view::{SubtreeView, TokenTreesView};
use std::alloc::Global;
use std::fmt::{self, Display};
use tt_data::{DelimiterKind, Leaf, Spacing, TokenTree, TtFault};

// Which puncts touch what follows.
#[derive(Clone, Copy)]
enum Style {
    // Those that aren't `Alone`.
    Displayed,
    // Those that are `Joint`.
    Pretty,
}

impl fmt::Display for TokenTreesView<'_> {
    ghost use Rattle.tt.specs.Texts.{displayed_text};

    ghost output = { λ trees. Some (displayed_text (forest trees)) };

    fn fmt<W: fmt::Write>(&self, f: &mut fmt::Formatter<W>) -> fmt::Result {
        write_all(*self, Style::Displayed, f)
    }
}

impl fmt::Display for SubtreeView<'_> {
    ghost use Rattle.tt.specs.Texts.{displayed_text};
    ghost use Rattle.tt.specs.Tops.{forest_of_top};
    ghost use Rattle.tt.specs.Views.{top_of};

    ghost output = { λ group. Some (displayed_text (forest_of_top (top_of group))) };

    fn fmt<W: fmt::Write>(&self, f: &mut fmt::Formatter<W>) -> fmt::Result {
        self.as_token_trees().fmt(f)
    }
}

impl fmt::Display for TopSubtree {
    ghost use Rattle.tt.specs.Texts.{displayed_text};
    ghost use Rattle.tt.specs.Tops.{forest_of_top};

    ghost output = { λ tree. Some (displayed_text (forest_of_top tree)) };

    fn fmt<W: fmt::Write>(&self, f: &mut fmt::Formatter<W>) -> fmt::Result {
        self.as_token_trees().fmt(f)
    }
}

// Trees to be written in the pretty style.
#[derive(Clone, Copy)]
struct Prettily<'a> {
    trees: TokenTreesView<'a>,
}

impl fmt::Display for Prettily<'_> {
    ghost output = { λ pretty. Some (pretty_text (forest pretty.trees)) };

    fn fmt<W: fmt::Write>(&self, f: &mut fmt::Formatter<W>) -> fmt::Result {
        write_all(self.trees, Style::Pretty, f)
    }
}

/// The text of these trees: their tokens with a space between two of them, but none right inside
/// delimiters and none after a `Joint` punct. Invisible delimiters are no tokens.
///
/// `Memory` is its only error.
pub fn pretty(alloc: Global, tkns: TokenTreesView<'_>) -> Result<String, TtFault>
    ensures ok { IfOk result (λ text. string_bytes text ≡ pretty_text (forest tkns.entry)) }
    ensures memory { IsOkUnless result fault.Memory }
{
    let text = Prettily { trees: tkns }.to_string(alloc)?;
    Ok(text)
}

// Writes the text of these trees, by a cursor: nesting takes no call stack.
fn write_all<W: fmt::Write>(
    trees: TokenTreesView<'_>,
    style: Style,
    f: &mut fmt::Formatter<W>,
) -> fmt::Result
    ensures { WritesOnOk W.write_str_gives f.old result (text_after (touches_in style) [] (walk (forest trees.entry))) f.new }
{
    let mut spaced = false;
    let mut cursor = trees.cursor();
    while !cursor.eof() {
        match cursor.token_tree() {
            Some(TokenTree::Leaf(leaf)) => {
                write_leaf(leaf, style, &mut spaced, f)?;
                cursor.bump();
            }
            Some(TokenTree::Subtree(head)) => {
                write_opening(head.delimiter.kind, &mut spaced, f)?;
                cursor.bump();
            }
            None => {
                let group = cursor.end();
                write_closing(group.delimiter.kind, &mut spaced, f)?;
            }
        }
    }
    Ok(())
}

// Writes the bracket that opens a group, after a space if `spaced` says so. Afterwards `spaced`
// says whether a space comes before the next token.
fn write_opening<W: fmt::Write>(
    kind: DelimiterKind,
    spaced: &mut bool,
    f: &mut fmt::Formatter<W>,
) -> fmt::Result
    ensures text { WritesOnOk W.write_str_gives f.old result (opening_after (space_if spaced.old) kind) f.new }
    ensures behind { OnOk result (space_if spaced.new ≡ space_behind_opening (space_if spaced.old) kind) }
{
    if !is_bare(kind) {
        f.write_str(space_if(*spaced))?;
        f.write_str(opening(kind))?;
        *spaced = false;
    }
    Ok(())
}

// Writes the bracket that closes a group.
fn write_closing<W: fmt::Write>(
    kind: DelimiterKind,
    spaced: &mut bool,
    f: &mut fmt::Formatter<W>,
) -> fmt::Result
    ensures text { WritesOnOk W.write_str_gives f.old result (closing_text kind) f.new }
    ensures behind { OnOk result (space_if spaced.new ≡ space_behind_closing (space_if spaced.old) kind) }
{
    if !is_bare(kind) {
        f.write_str(closing(kind))?;
        *spaced = true;
    }
    Ok(())
}

// Writes one leaf, after a space if `spaced` says so.
fn write_leaf<W: fmt::Write>(
    leaf: Leaf,
    style: Style,
    spaced: &mut bool,
    f: &mut fmt::Formatter<W>,
) -> fmt::Result
    ensures text { WritesOnOk W.write_str_gives f.old result (space_if spaced.old ++ displayed_leaf leaf) f.new }
    ensures behind { OnOk result (space_if spaced.new ≡ space_after (touches_in style) leaf) }
{
    f.write_str(space_if(*spaced))?;
    leaf.fmt(f)?;
    *spaced = is_spaced(&leaf, style);
    Ok(())
}

// Whether brackets of this kind have no text.
fn is_bare(kind: DelimiterKind) -> bool
    ensures { result ≡ is_invisible kind }
{
    matches!(kind, DelimiterKind::Invisible)
}

// A space, or nothing.
fn space_if(spaced: bool) -> &'static str
    ensures { result.now ≡ space_if spaced }
{
    if spaced { " " } else { "" }
}

// Whether a space comes between a leaf and the token after it.
fn is_spaced(leaf: &Leaf, style: Style) -> bool
    ensures { space_if result ≡ space_after (touches_in style) leaf.now }
{
    match leaf {
        Leaf::Punct(punct) => match punct.spacing {
            Spacing::Alone => true,
            Spacing::Joint => false,
            Spacing::JointHidden => matches!(style, Style::Pretty),
        },
        _ => true,
    }
}

// The bracket that opens a group.
fn opening(kind: DelimiterKind) -> &'static str
    ensures { result.now ≡ opening_text kind }
{
    match kind {
        DelimiterKind::Parenthesis => "(",
        DelimiterKind::Brace => "{",
        DelimiterKind::Bracket => "[",
        DelimiterKind::Invisible => "",
    }
}

// The bracket that closes a group.
fn closing(kind: DelimiterKind) -> &'static str
    ensures { result.now ≡ closing_text kind }
{
    match kind {
        DelimiterKind::Parenthesis => ")",
        DelimiterKind::Brace => "}",
        DelimiterKind::Bracket => "]",
        DelimiterKind::Invisible => "",
    }
}
