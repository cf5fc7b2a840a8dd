//! Options as they are written: in a predicate, and in a word of a command line.
ghost use Rattle.std.specs.Prelude.{◌≡◌, IfOk, option_map};
ghost use Rattle.tt_data.specs.Lent.{ident_lent, literal_lent};
ghost use Rattle.cfg_options.specs.Conditions.{constant, is_option_name, later_reserved};
ghost use Rattle.cfg_options.specs.Conditions.{option_in, option_value};
ghost use Rattle.small_grammar.specs.Tokens.{is_among};
ghost use Rattle.cfg_options.specs.Lists.{value_in};
ghost use Rattle.cfg_options.specs.Options.{options_of, written};
ghost use Rattle.cfg_options.specs.Strings.{string_text};

use crate::options::{CfgOption, CfgOptions};
use crate::strings::string_text;
use bridge::tt::TtIter;
use small_grammar::names::{has_text, is_path_word, is_raw_name, is_reserved};
use std::alloc::{AllocError, Global};
use tt_data::{IdentRef, LeafRef, LiteralRef};

// Whether later editions reserved this word.
fn is_later_reserved(text: &str) -> bool
    ensures { result ≡ is_among later_reserved text.now }
{
    text == "async" || text == "await" || text == "dyn" || text == "try" || text == "gen"
}

// Whether an option can have this name.
fn is_option_name(name: IdentRef<'_>) -> bool
    ensures { result ≡ is_option_name (ident_lent name.entry) }
{
    let text = name.sym.as_str();
    if text == "_" {
        return false;
    }
    if is_raw_name(name) {
        return !is_path_word(text);
    }
    !is_reserved(text) || is_later_reserved(text)
}

// The literal that is all of the trees, behind a `=`.
fn value_of<'a>(trees: &TtIter<'a>) -> Option<LiteralRef<'a>>
    ensures { option_map (λ l. literal_lent l) result ≡ value_in trees.now }
{
    let (punct, after) = trees.first_punct()?;
    if punct.char != '=' {
        return None;
    }
    match after.lent_leaf()? {
        (LeafRef::Literal(literal), rest) => { if rest.is_empty() { Some(literal) } else { None } }
        _ => None,
    }
}

// The option that the trees are: a name, or a name, `=` and a string.
pub(crate) fn option_in(alloc: Global, trees: &TtIter<'_>) -> Result<Option<CfgOption>, AllocError>
    ensures { IfOk result (λ o. option_map written o ≡ option_in string_text trees.now) }
{
    let Some((name, rest)) = trees.lent_ident() else {
        return Ok(None);
    };
    if !is_option_name(name) {
        return Ok(None);
    }
    if rest.is_empty() {
        let name = name.to_ident().sym;
        return Ok(Some(CfgOption { name, value: None }));
    }
    let Some(literal) = value_of(&rest) else {
        return Ok(None);
    };
    let Some(value) = string_text(alloc, literal)? else {
        return Ok(None);
    };
    let name = name.to_ident().sym;
    let value = Some(value);
    Ok(Some(CfgOption { name, value }))
}

// The constant that the trees are.
fn constant(trees: &TtIter<'_>) -> Option<bool>
    ensures { result ≡ constant trees.now }
{
    let (name, rest) = trees.lent_ident()?;
    if !rest.is_empty() {
        return None;
    }
    if has_text(name, "true") {
        Some(true)
    } else if has_text(name, "false") {
        Some(false)
    } else {
        None
    }
}

impl CfgOptions {
    // The value of a constant or an option.
    pub(crate) fn option_value(&self, trees: &TtIter<'_>) -> Result<Option<bool>, AllocError>
        ensures { IfOk result (λ v. v ≡ option_value (options_of self.now) string_text trees.now) }
    {
        if let Some(value) = constant(trees) {
            return Ok(Some(value));
        }
        match option_in(self.alloc, trees)? {
            Some(option) => Ok(Some(self.has(&option))),
            None => Ok(None),
        }
    }
}
