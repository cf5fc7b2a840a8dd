//! Parses metavariable expressions: what is in `${..}`.
ghost use Rattle.std.specs.Prelude.{◌≡◌, ◌≢◌, ◌≤◌, ◌<◌, ◌∷◌, None, if◌then◌else◌, IfOk, IsOkUnless};
ghost use Rattle.std.specs.Prelude.{option_map};
ghost use Rattle.tt_data.specs.Forest.{empty, size};
ghost use Rattle.symbols.specs.declared.fault.TtFault.TheVariants as fault;
ghost use Rattle.mbe_rules.specs.Expressions.{number_in, depth_in, depth_after, variable_in};
ghost use Rattle.mbe_rules.specs.Expressions.{count_in, ignore_in, concat_in, parts_in, part_then};
ghost use Rattle.mbe_rules.specs.Expressions.{function_of, expression_in};
ghost use Rattle.mbe_rules.specs.Items.{Part, index_of, len_of};
ghost use Rattle.mbe_rules.specs.Steps.{variable_read, function_called, meaning, standing_at};
ghost use Rattle.mbe_rules.specs.Steps.{parts_of, parts_behind, comma_behind, parts_after};
ghost use Rattle.mbe_rules.specs.Text.{is_nil};
ghost use Rattle.mbe_rules.specs.Trees.{punct, signs};

use crate::parser::{ConcatElement, Op};
use std::alloc::Global;
use symbols::{Symbol, TtFault};
use tt::{TtElement, TtIter};
use tt_data::{DelimiterKind, Leaf, Literal, Punct, Span};

// The number that a text spells, as std parses it.
fn number(text: &str) -> Option<usize>
    ensures { result ≡ number_in text.now }
{
    text.parse::<usize>().ok()
}

// The number that a literal without suffix spells.
fn literal_number(literal: &Literal) -> Option<usize>
    ensures { result ≡ if is_nil literal.now.suffix then number_in literal.now.text else None }
{
    let (text, suffix) = literal.text_and_suffix();
    if suffix.is_empty() {
        number(text)
    } else {
        None
    }
}

// A depth: a number without suffix, or nothing, which means 0.
fn depth(trees: TtIter<'_>) -> Option<usize>
    ensures { result ≡ depth_in (signs trees.entry) }
{
    let mut rest = trees;
    match rest.next() {
        None => Some(0),
        Some(TtElement::Leaf(Leaf::Literal(literal))) => match rest.next() {
            None => literal_number(&literal),
            Some(_) => None,
        },
        Some(_) => None,
    }
}

// A depth after a comma, or nothing, which means 0.
fn depth_after(trees: TtIter<'_>) -> Option<usize>
    ensures { result ≡ depth_after (signs trees.entry) }
{
    let mut rest = trees;
    let Some(first) = rest.next() else {
        return Some(0);
    };
    match first {
        TtElement::Leaf(Leaf::Punct(comma)) if comma.char == ',' => depth(rest),
        _ => None,
    }
}

// The name in `$name`, and the trees after it.
fn variable<'a>(trees: TtIter<'a>) -> Option<(Symbol, TtIter<'a>)>
    ensures { variable_read result ≡ variable_in (signs trees.entry) }
{
    let mut rest = trees;
    let TtElement::Leaf(Leaf::Punct(sign)) = rest.next()? else {
        return None;
    };
    let TtElement::Leaf(Leaf::Ident(name)) = rest.next()? else {
        return None;
    };
    if sign.char == '$' && name.sym.as_str() != "_" {
        Some((name.sym, rest))
    } else {
        None
    }
}

// `count($name, depth)`
fn count(arguments: TtIter<'_>, id: Span) -> Option<Op>
    ensures { meaning result ≡ standing_at id (count_in (signs arguments.entry)) }
{
    let (name, rest) = variable(arguments)?;
    let depth = depth_after(rest)?;
    Some(Op::Count { name, depth, id })
}

// `ignore($name)`
fn ignore(arguments: TtIter<'_>, id: Span) -> Option<Op>
    ensures { meaning result ≡ standing_at id (ignore_in (signs arguments.entry)) }
{
    let (name, mut rest) = variable(arguments)?;
    match rest.next() {
        None => Some(Op::Ignore { name, id }),
        Some(_) => None,
    }
}

// `index(depth)`
fn index(arguments: TtIter<'_>, id: Span) -> Option<Op>
    ensures { meaning result
        ≡ standing_at id (option_map index_of (depth_in (signs arguments.entry))) }
{
    let depth = depth(arguments)?;
    Some(Op::Index { depth, id })
}

// `len(depth)`
fn len(arguments: TtIter<'_>, id: Span) -> Option<Op>
    ensures { meaning result
        ≡ standing_at id (option_map len_of (depth_in (signs arguments.entry))) }
{
    let depth = depth(arguments)?;
    Some(Op::Len { depth, id })
}

// The part that a punct begins: a `$` and the name after it, which is consumed.
fn value(sign: Punct, rest: &mut TtIter<'_>) -> Option<ConcatElement>
    ensures part { parts_in (punct sign.char ∷ signs rest.old)
        ≡ parts_behind result (signs rest.new) }
    ensures shorter { size rest.new ≤ size rest.old }
{
    match rest.next() {
        Some(TtElement::Leaf(Leaf::Ident(name))) if sign.char == '$' => {
            Some(ConcatElement::Var(name.sym))
        }
        _ => None,
    }
}

// The part at the front of a list, which is consumed: a literal, an identifier, or `$name`.
fn part(alloc: Global, rest: &mut TtIter<'_>) -> Result<Option<ConcatElement>, TtFault>
    requires { rest.now ≢ empty }
    ensures part { IfOk result (λ r. parts_in (signs rest.old) ≡ parts_behind r (signs rest.new)) }
    ensures shorter { size rest.new < size rest.old }
    ensures memory { IsOkUnless result fault.Memory }
{
    match rest.next() {
        Some(TtElement::Leaf(Leaf::Literal(literal))) => {
            let text = Symbol::new(alloc, literal.text())?;
            Ok(Some(ConcatElement::Text(text)))
        }
        Some(TtElement::Leaf(Leaf::Ident(name))) => Ok(Some(ConcatElement::Text(name.sym))),
        Some(TtElement::Leaf(Leaf::Punct(sign))) => Ok(value(sign, rest)),
        _ => Ok(None),
    }
}

// Whether a comma or nothing comes after a part. The comma is consumed.
fn comma(rest: &mut TtIter<'_>) -> bool
    ensures comma { (p : Part) → part_then p (signs rest.old)
        ≡ comma_behind result p (signs rest.new) }
    ensures shorter { size rest.new ≤ size rest.old }
{
    match rest.next() {
        None => true,
        Some(TtElement::Leaf(Leaf::Punct(comma))) => comma.char == ',',
        Some(_) => false,
    }
}

// The part at the front of a list, which is consumed with the comma after it.
fn next_part(alloc: Global, rest: &mut TtIter<'_>) -> Result<Option<ConcatElement>, TtFault>
    requires { rest.now ≢ empty }
    ensures part { IfOk result (λ r. parts_in (signs rest.old) ≡ parts_after r (signs rest.new)) }
    ensures shorter { size rest.new < size rest.old }
    ensures memory { IsOkUnless result fault.Memory }
{
    let Some(part) = part(alloc, rest)? else {
        return Ok(None);
    };
    if comma(rest) {
        Ok(Some(part))
    } else {
        Ok(None)
    }
}

// Parts with commas between them, and perhaps one after the last.
fn parts(alloc: Global, trees: TtIter<'_>) -> Result<Option<Vec<ConcatElement>>, TtFault>
    ensures parts { IfOk result (λ r. parts_of r ≡ parts_in (signs trees.entry)) }
    ensures memory { IsOkUnless result fault.Memory }
{
    let mut rest = trees;
    let mut parts = Vec::new(alloc);
    while !rest.is_empty() {
        let Some(part) = next_part(alloc, &mut rest)? else {
            return Ok(None);
        };
        let Ok(()) = parts.push(part) else {
            return Err(TtFault::Memory);
        };
    }
    Ok(Some(parts))
}

// `concat(part, part, ..)`
fn concat(alloc: Global, arguments: TtIter<'_>, id: Span) -> Result<Option<Op>, TtFault>
    ensures concat { IfOk result (λ r. meaning r
        ≡ standing_at id (concat_in (parts_in (signs arguments.entry)))) }
    ensures memory { IsOkUnless result fault.Memory }
{
    let Some(elements) = parts(alloc, arguments)? else {
        return Ok(None);
    };
    if elements.len() < 2 {
        return Ok(None);
    }
    Ok(Some(Op::Concat { elements, id }))
}

// The function with this name, with these arguments.
fn function(
    alloc: Global,
    called: &str,
    arguments: TtIter<'_>,
    id: Span,
) -> Result<Option<Op>, TtFault>
    ensures function { IfOk result (λ r. meaning r
        ≡ standing_at id (function_of called.now (signs arguments.entry))) }
    ensures memory { IsOkUnless result fault.Memory }
{
    match called {
        "count" => Ok(count(arguments, id)),
        "ignore" => Ok(ignore(arguments, id)),
        "index" => Ok(index(arguments, id)),
        "len" => Ok(len(arguments, id)),
        "concat" => concat(alloc, arguments, id),
        _ => Ok(None),
    }
}

// The name of the function that is called, and its arguments, which are in parentheses.
fn call<'a>(trees: TtIter<'a>) -> Option<(Symbol, TtIter<'a>)>
    ensures { expression_in trees.entry ≡ function_called result }
{
    let mut rest = trees;
    let TtElement::Leaf(Leaf::Ident(called)) = rest.next()? else {
        return None;
    };
    let TtElement::Subtree(subtree, arguments) = rest.next()? else {
        return None;
    };
    match subtree.delimiter.kind {
        DelimiterKind::Parenthesis => Some((called.sym, arguments)),
        _ => None,
    }
}

/// The op that `${..}` is, where `trees` are inside its braces and `span` is that of its `$`.
/// `None` if they are no call of a function of metavariables. Its only error is `Memory`. (Rust's
/// unstable book, `macro_metavar_expr` and `macro_metavar_expr_concat`.)
pub(crate) fn expression(
    alloc: Global,
    trees: TtIter<'_>,
    span: Span,
) -> Result<Option<Op>, TtFault>
    ensures expression { IfOk result (λ r. meaning r
        ≡ standing_at span (expression_in trees.entry)) }
    ensures memory { IsOkUnless result fault.Memory }
{
    match call(trees) {
        Some((called, arguments)) => function(alloc, called.as_str(), arguments, span),
        None => Ok(None),
    }
}
