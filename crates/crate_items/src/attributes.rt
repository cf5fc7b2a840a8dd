//! Attributes. (The Rust Reference, "Attributes".)
ghost use Rattle.std.specs.Prelude.{◌≡◌, IfOk, option_map, string_bytes};
ghost use Rattle.cfg_options.specs.Conditions.{cut_at_commas};
ghost use Rattle.cfg_options.specs.Options.{options_of};
ghost use Rattle.tt_data.specs.Forest.{empty};
ghost use Rattle.tt_data.specs.Lent.{literal_lent};
ghost use Rattle.crate_items.specs.Attributes.{after_bang, attribute_of, bracketed, conditional};
ghost use Rattle.crate_items.specs.Attributes.{first_found, found_behind};
ghost use Rattle.crate_items.specs.Attributes.{found_in, has_text, inner_attribute, is_inner};
ghost use Rattle.crate_items.specs.Attributes.{named, only_literal};
ghost use Rattle.crate_items.specs.Attributes.{path_literal, path_of, text_of};

use cfg_options::{CfgOptions, first_attribute, split_part, string_text};
use expander_model::definition::after_word;
use std::alloc::{AllocError, Global};
use tt::TtIter;
use tt_data::{DelimiterKind, LeafRef, LiteralRef};

// How many `cfg_attr` may be in one another.
const MOST_LEVELS: u8 = 64;

// The literal that is all of the trees.
fn only_literal<'a>(trees: &TtIter<'a>) -> Option<LiteralRef<'a>>
    ensures { option_map (λ l. literal_lent l) result ≡ only_literal trees.now }
{
    match trees.lent_leaf()? {
        (LeafRef::Literal(literal), rest) => { if rest.is_empty() { Some(literal) } else { None } }
        _ => None,
    }
}

// The literal of an attribute `path = ".."`.
fn path_literal<'a>(attribute: &TtIter<'a>) -> Option<LiteralRef<'a>>
    ensures { option_map (λ l. literal_lent l) result ≡ path_literal attribute.now }
{
    let after = after_word(attribute, "path")?;
    let (punct, behind) = after.first_punct()?;
    if punct.char == '=' {
        only_literal(&behind)
    } else {
        None
    }
}

// What a string literal stands for.
fn text_of(alloc: Global, literal: LiteralRef<'_>) -> Result<Option<String>, AllocError>
    ensures { IfOk result (λ t. option_map string_bytes t ≡ text_of (literal_lent literal.entry)) }
{
    match string_text(alloc, literal)? {
        Some(bytes) => Ok(Some(String::from_utf8_lossy(alloc, bytes.as_slice())?)),
        None => Ok(None),
    }
}

// What an attribute that begins with `path` says.
fn text_in(alloc: Global, attribute: &TtIter<'_>) -> Result<Option<String>, AllocError>
    ensures { IfOk result (λ t. option_map string_bytes t ≡ has_text attribute.now) }
{
    match path_literal(attribute) {
        Some(literal) => text_of(alloc, literal),
        None => Ok(None),
    }
}

// What is in the parentheses of `cfg_attr`.
fn conditional<'a>(attribute: &TtIter<'a>) -> Option<TtIter<'a>>
    ensures { result ≡ conditional attribute.now }
{
    let (brackets, inner, rest) = after_word(attribute, "cfg_attr")?.first_group()?;
    if brackets.kind == DelimiterKind::Parenthesis && rest.is_empty() {
        Some(inner)
    } else {
        None
    }
}

// The attribute, if it begins with this word.
fn named<'a>(attribute: &TtIter<'a>, word: &str) -> Option<TtIter<'a>>
    ensures { result ≡ named word.now attribute.now }
{
    match after_word(attribute, word) {
        Some(_) => Some(attribute.copied()),
        None => None,
    }
}

// The first attribute that begins with this word among those that an attribute stands for, so many
// levels deep.
#[cycle(attributes)]
fn found_in<'a>(
    options: &CfgOptions,
    levels: u8,
    attribute: &TtIter<'a>,
    word: &str,
) -> Result<Option<TtIter<'a>>, AllocError>
    ensures { IfOk result (λ a. a
        ≡ found_in (options_of options.now) word.now levels attribute.now) }
{
    if levels == 0 {
        return Ok(None);
    }
    match conditional(attribute) {
        Some(list) => found_behind(options, levels - 1, &list, word),
        None => Ok(named(attribute, word)),
    }
}

// The first one among those that are listed behind a predicate, if that is true.
#[cycle(attributes)]
fn found_behind<'a>(
    options: &CfgOptions,
    levels: u8,
    list: &TtIter<'a>,
    word: &str,
) -> Result<Option<TtIter<'a>>, AllocError>
    ensures { IfOk result (λ a. a
        ≡ found_behind (options_of options.now) word.now
        (found_in (options_of options.now) word.now levels) (cut_at_commas list.now empty)) }
{
    if list.is_empty() {
        return Ok(None);
    }
    let (predicate, attributes) = split_part(list);
    if options.predicate_value(&predicate)?.unwrap_or(false) {
        found_among(options, levels, &attributes, word)
    } else {
        Ok(None)
    }
}

// The first one among those that are listed.
#[cycle(attributes)]
fn found_among<'a>(
    options: &CfgOptions,
    levels: u8,
    list: &TtIter<'a>,
    word: &str,
) -> Result<Option<TtIter<'a>>, AllocError>
    ensures { IfOk result (λ a. a
        ≡ first_found (found_in (options_of options.now) word.now levels)
        (cut_at_commas list.now empty)) }
{
    let mut rest = list.copied();
    while !rest.is_empty() {
        let (part, after) = split_part(&rest);
        if let Some(found) = found_in(options, levels, &part, word)? {
            return Ok(Some(found));
        }
        rest = after;
    }
    Ok(None)
}

/// The first attribute that begins with this word, of those that stand at a piece: `cfg_attr`
/// stands for its attributes if its predicate is true.
pub(crate) fn attribute_of<'a>(
    options: &CfgOptions,
    piece: &TtIter<'a>,
    word: &str,
) -> Result<Option<TtIter<'a>>, AllocError>
    ensures { IfOk result (λ a. a
        ≡ attribute_of (options_of options.now) word.now piece.now) }
{
    let mut rest = piece.copied();
    while let Some((inner, after)) = first_attribute(&rest) {
        if let Some(found) = found_in(options, MOST_LEVELS, &inner, word)? {
            return Ok(Some(found));
        }
        rest = after;
    }
    Ok(None)
}

/// What the first outer attribute `path` of a piece says.
pub(crate) fn path_of(
    alloc: Global,
    options: &CfgOptions,
    piece: &TtIter<'_>,
) -> Result<Option<String>, AllocError>
    ensures { IfOk result (λ t. option_map string_bytes t
        ≡ path_of (options_of options.now) piece.now) }
{
    match attribute_of(options, piece, "path")? {
        Some(attribute) => text_in(alloc, &attribute),
        None => Ok(None),
    }
}

// What follows `#!` at the beginning.
fn after_bang<'a>(trees: &TtIter<'a>) -> Option<TtIter<'a>>
    ensures { result ≡ after_bang trees.now }
{
    let (first, after) = trees.first_punct()?;
    if first.char != '#' {
        return None;
    }
    let (second, behind) = after.first_punct()?;
    if second.char == '!' {
        Some(behind)
    } else {
        None
    }
}

// What is in brackets that are all of the trees.
fn bracketed<'a>(trees: &TtIter<'a>) -> Option<TtIter<'a>>
    ensures { result ≡ bracketed trees.now }
{
    let (brackets, inner, rest) = trees.first_group()?;
    if brackets.kind == DelimiterKind::Bracket && rest.is_empty() {
        Some(inner)
    } else {
        None
    }
}

// What is in the brackets of an inner attribute that is all of a piece.
fn inner_attribute<'a>(piece: &TtIter<'a>) -> Option<TtIter<'a>>
    ensures { result ≡ inner_attribute piece.now }
{
    bracketed(&after_bang(piece)?)
}

/// Whether a piece is an inner attribute that begins with this word, or a `cfg_attr` that stands
/// for one.
pub(crate) fn is_inner(
    options: &CfgOptions,
    piece: &TtIter<'_>,
    word: &str,
) -> Result<bool, AllocError>
    ensures { IfOk result (λ is. is ≡ is_inner (options_of options.now) word.now piece.now) }
{
    match inner_attribute(piece) {
        Some(inner) => Ok(found_in(options, MOST_LEVELS, &inner, word)?.is_some()),
        None => Ok(false),
    }
}
