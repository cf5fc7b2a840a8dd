//! The attributes of a piece: whether they keep it, and which of them is not read. Without
//! recursion: the lists of a `cfg_attr` are in memory.
ghost use Rattle.std.specs.Prelude.{◌≡◌, ◌+◌, ◌≤◌, Option, codes, IfOk, IfSome};
ghost use Rattle.tt_data.specs.Forest.{empty, size};
ghost use Rattle.cfg_options.specs.Attributes.{IsLater, and_also, first_value, found_at};
ghost use Rattle.cfg_options.specs.Attributes.{found_before, found_inside, found_next};
ghost use Rattle.cfg_options.specs.Attributes.{found_of_cfg, found_of_cfg_attr, found_of_other};
ghost use Rattle.cfg_options.specs.Attributes.{found_waiting, only_value, tokens_waiting};
ghost use Rattle.cfg_options.specs.Conditions.{first_attribute};
ghost use Rattle.cfg_options.specs.Misread.{begins_with_colon, span_of_name};
ghost use Rattle.cfg_options.specs.Conditions.{after_part};
ghost use Rattle.cfg_options.specs.declared.options.CfgOptions.{CfgOptions};

use crate::options::CfgOptions;
use crate::parts::{list_behind, split_part};
use bridge::tt::TtIter;
use std::alloc::AllocError;
use tt_data::{DelimiterKind, Span};

/// What is found out about attributes.
#[derive(Clone, Copy)]
pub(crate) struct Finding {
    /// Whether they keep the piece.
    pub(crate) keeps: bool,
    /// The first that is not read.
    pub(crate) misread: Option<Span>,
}

/// Lists of attributes that wait: the innermost, and those around it.
#[derive(Drop)]
pub(crate) struct Waiting<'a> {
    pub(crate) list: TtIter<'a>,
    pub(crate) around: Vec<TtIter<'a>>,
}

// One attribute after another.
fn and_also(first: Finding, second: Finding) -> Finding
    ensures { result ≡ and_also first second }
{
    let misread = match first.misread {
        Some(span) => Some(span),
        None => second.misread,
    };
    Finding {
        keeps: first.keeps && second.keeps,
        misread,
    }
}

// Whether the trees begin with a colon.
fn begins_with_colon(trees: &TtIter<'_>) -> bool
    ensures { result ≡ begins_with_colon trees.now }
{
    match trees.first_punct() {
        Some((punct, _)) => punct.char == ':',
        None => false,
    }
}

// The span of the name at the beginning, if it is this word and no `::` is behind it.
fn span_of_name(trees: &TtIter<'_>, word: &str) -> Option<Span>
    ensures { result ≡ span_of_name word.now trees.now }
{
    let (name, rest) = trees.lent_ident()?;
    if name.sym.as_str() == word && !begins_with_colon(&rest) {
        Some(name.span)
    } else {
        None
    }
}

// The value of the first predicate of a list, and the trees after it.
fn first_value<'a>(
    options: &CfgOptions,
    list: &TtIter<'a>,
) -> Result<(Option<bool>, TtIter<'a>), AllocError>
    ensures { IfOk result (λ r. r ≡ (first_value options.now list.now, after_part list.now)) }
{
    if list.is_empty() {
        return Ok((None, list.copied()));
    }
    let (part, rest) = split_part(list);
    let value = options.predicate_value(&part)?;
    Ok((value, rest))
}

// The value of the only predicate of a list.
fn only_value(options: &CfgOptions, list: &TtIter<'_>) -> Result<Option<bool>, AllocError>
    ensures { IfOk result (λ v. v ≡ only_value options.now list.now) }
{
    let (value, rest) = first_value(options, list)?;
    if rest.is_empty() { Ok(value) } else { Ok(None) }
}

// What is found out about a `cfg` with this value of its predicate, whose name is at `span`.
fn found_of_cfg(value: Option<bool>, span: Option<Span>) -> Finding
    ensures { result ≡ found_of_cfg value span }
{
    match value {
        Some(keeps) => Finding {
            keeps,
            misread: None,
        },
        None => Finding {
            keeps: true,
            misread: span,
        },
    }
}

// What is found out about a `cfg` with this list.
fn read_cfg(
    options: &CfgOptions,
    attribute: &TtIter<'_>,
    list: &TtIter<'_>,
) -> Result<Finding, AllocError>
    ensures { IfOk result (λ f. f ≡ found_of_cfg (only_value options.now list.now)
        (span_of_name (codes "cfg") attribute.now)) }
{
    let value = only_value(options, list)?;
    Ok(found_of_cfg(value, span_of_name(attribute, "cfg")))
}

// What is found out about a `cfg_attr` with this value of its predicate, whose name is at `span`,
// and the attributes that it stands for, of `rest`.
fn found_of_cfg_attr<'a>(
    value: Option<bool>,
    span: Option<Span>,
    rest: TtIter<'a>,
) -> (Finding, Option<TtIter<'a>>)
    ensures { result ≡ found_of_cfg_attr value span rest.entry }
{
    let found = Finding {
        keeps: true,
        misread: None,
    };
    match value {
        Some(true) => (found, Some(rest)),
        Some(false) => (found, None),
        None => (
            Finding {
                keeps: true,
                misread: span,
            },
            None,
        ),
    }
}

// What is found out about a `cfg_attr` with this list, and the list of the attributes that it
// stands for.
fn read_cfg_attr<'a>(
    options: &CfgOptions,
    attribute: &TtIter<'_>,
    list: &TtIter<'a>,
) -> Result<(Finding, Option<TtIter<'a>>), AllocError>
    ensures { IfOk result (λ r. r ≡ found_of_cfg_attr (first_value options.now list.now)
        (span_of_name (codes "cfg_attr") attribute.now) (after_part list.now)) }
{
    let (value, rest) = first_value(options, list)?;
    Ok(found_of_cfg_attr(value, span_of_name(attribute, "cfg_attr"), rest))
}

// What is found out about an attribute that has no list.
fn read_other(attribute: &TtIter<'_>) -> Finding
    ensures { result ≡ found_of_other attribute.now }
{
    let misread = match span_of_name(attribute, "cfg") {
        Some(span) => Some(span),
        None => span_of_name(attribute, "cfg_attr"),
    };
    Finding {
        keeps: true,
        misread,
    }
}

// What is found out about an attribute, and the list of those it stands for.
fn read<'a>(
    options: &CfgOptions,
    attribute: &TtIter<'a>,
) -> Result<(Finding, Option<TtIter<'a>>), AllocError>
    ensures found { IfOk result (λ r. and_also r.0 (found_inside options.now r.1)
        ≡ found_at options.now attribute.now) }
    ensures less { IfOk result (λ r. IfSome r.1 (λ l. size l + 2 ≤ size attribute.now)) }
{
    if let Some(list) = list_behind(attribute, "cfg") {
        let found = read_cfg(options, attribute, &list)?;
        return Ok((found, None));
    }
    if let Some(list) = list_behind(attribute, "cfg_attr") {
        return read_cfg_attr(options, attribute, &list);
    }
    Ok((read_other(attribute), None))
}

/// What a step leads to: what was found so far, and lists that wait, or all that is found.
#[derive(Drop)]
pub(crate) enum Next<'a> {
    More(Finding, Waiting<'a>),
    Last(Finding),
}

// The innermost list ends.
fn end_list<'a>(found: Finding, waiting: Waiting<'a>) -> Next<'a>
    requires { waiting.list ≡ empty }
    ensures found { (options : CfgOptions) → found_next options result
        ≡ and_also found (found_waiting options waiting.entry) }
    ensures less { IsLater (tokens_waiting waiting.entry) result }
{
    let mut around = waiting.around;
    match around.pop() {
        Some(list) => Next::More(found, Waiting { list, around }),
        None => Next::Last(found),
    }
}

// Reads the next attribute of the innermost list, or ends it.
fn read_next<'a>(
    options: &CfgOptions,
    found: Finding,
    waiting: Waiting<'a>,
) -> Result<Next<'a>, AllocError>
    ensures found { IfOk result (λ n. found_next options.now n
        ≡ and_also found (found_waiting options.now waiting.entry)) }
    ensures less { IfOk result (IsLater (tokens_waiting waiting.entry)) }
{
    if waiting.list.is_empty() {
        return Ok(end_list(found, waiting));
    }
    let (part, rest) = split_part(&waiting.list);
    let mut around = waiting.around;
    let (here, inside) = read(options, &part)?;
    let found = and_also(found, here);
    match inside {
        None => Ok(Next::More(found, Waiting { list: rest, around })),
        Some(list) => {
            around.push(rest)?;
            Ok(Next::More(found, Waiting { list, around }))
        }
    }
}

// What is found out about an attribute and those it stands for.
fn found_at(options: &CfgOptions, attribute: &TtIter<'_>) -> Result<Finding, AllocError>
    ensures { IfOk result (λ f. f ≡ found_at options.now attribute.now) }
{
    let (first, inside) = read(options, attribute)?;
    let Some(list) = inside else {
        return Ok(first);
    };
    let mut found = first;
    let mut waiting = Waiting {
        list,
        around: Vec::new(options.alloc),
    };
    loop {
        match read_next(options, found, waiting)? {
            Next::More(so_far, more) => {
                found = so_far;
                waiting = more;
            }
            Next::Last(all) => return Ok(all),
        }
    }
}

/// What is in the brackets of an outer attribute at the beginning, and what follows it. (The Rust
/// Reference, "Attributes".)
pub fn first_attribute<'a>(trees: &TtIter<'a>) -> Option<(TtIter<'a>, TtIter<'a>)>
    ensures { result ≡ first_attribute trees.now }
{
    let (pound, after_pound) = trees.first_punct()?;
    if pound.char != '#' {
        return None;
    }
    let (brackets, inner, rest) = after_pound.first_group()?;
    if brackets.kind == DelimiterKind::Bracket {
        Some((inner, rest))
    } else {
        None
    }
}

/// What is found out about the outer attributes of a piece.
pub(crate) fn found_before(options: &CfgOptions, piece: &TtIter<'_>) -> Result<Finding, AllocError>
    ensures { IfOk result (λ f. f ≡ found_before options.now piece.now) }
{
    let mut found = Finding {
        keeps: true,
        misread: None,
    };
    let mut rest = piece.copied();
    while let Some((inner, after)) = first_attribute(&rest) {
        let here = found_at(options, &inner)?;
        found = and_also(found, here);
        rest = after;
    }
    Ok(found)
}
