//! The parts of a list between commas, and what a list begins with.
ghost use Rattle.std.specs.Prelude.{◌≡◌};
ghost use Rattle.cfg_options.specs.Lists.{after_tree, begins_with_comma};
ghost use Rattle.cfg_options.specs.Conditions.{after_part, first_part};
ghost use Rattle.cfg_options.specs.Conditions.{after_name, list_behind, parenthesized};

use bridge::tt::TtIter;
use tt_data::DelimiterKind;

// Whether the trees begin with a comma.
fn begins_with_comma(trees: &TtIter<'_>) -> bool
    ensures { result ≡ begins_with_comma trees.now }
{
    match trees.first_punct() {
        Some((punct, _)) => punct.char == ',',
        None => false,
    }
}

// What follows the first tree.
fn after_tree<'a>(trees: &TtIter<'a>) -> Option<TtIter<'a>>
    ensures { result ≡ after_tree trees.now }
{
    if let Some((_, rest)) = trees.lent_leaf() {
        return Some(rest);
    }
    let (_, _, rest) = trees.first_group()?;
    Some(rest)
}

/// The trees before the first comma, and those after it. Commas in groups do not count.
pub fn split_part<'a>(list: &TtIter<'a>) -> (TtIter<'a>, TtIter<'a>)
    ensures part { result.0 ≡ first_part list.now }
    ensures rest { result.1 ≡ after_part list.now }
{
    let whole = list.remaining();
    let mut rest = list.copied();
    while let Some(after) = after_tree(&rest) {
        if begins_with_comma(&rest) {
            return (rest.passed_since(whole).iter(), after);
        }
        rest = after;
    }
    (rest.passed_since(whole).iter(), rest)
}

// What follows the name with this text, raw or not, at the beginning.
fn after_name<'a>(trees: &TtIter<'a>, word: &str) -> Option<TtIter<'a>>
    ensures { result ≡ after_name word.now trees.now }
{
    let (name, rest) = trees.lent_ident()?;
    if name.sym.as_str() == word {
        Some(rest)
    } else {
        None
    }
}

// What is in parentheses that are all of the trees.
fn parenthesized<'a>(trees: &TtIter<'a>) -> Option<TtIter<'a>>
    ensures { result ≡ parenthesized trees.now }
{
    let (brackets, inner, rest) = trees.first_group()?;
    if brackets.kind == DelimiterKind::Parenthesis && rest.is_empty() {
        Some(inner)
    } else {
        None
    }
}

/// The trees in the parentheses after this word, raw or not, if nothing else is there.
pub(crate) fn list_behind<'a>(trees: &TtIter<'a>, word: &str) -> Option<TtIter<'a>>
    ensures { result ≡ list_behind word.now trees.now }
{
    let after = after_name(trees, word)?;
    parenthesized(&after)
}
