//! Sources: texts that were read for their definitions.
ghost use Rattle.std.specs.Prelude.{◌≡◌, ◌<◌, ◌≤◌, ◌^◌, All, Err, IfOk, IsOkUnless, Some, []};
ghost use Rattle.std.specs.Prelude.{chars, flat_map, length, map};
ghost use Rattle.bridge.specs.ReadText.{HasTooMany};
ghost use Rattle.bridge.specs.TokenSteps.{text_steps};
ghost use Rattle.rustc_lexer.specs.Lexing.{tokens_of};
ghost use Rattle.tt_data.specs.Forest.{map_spans};
ghost use Rattle.tt_data.specs.fault.TtFault.TheVariants as fault;
ghost use Rattle.expander_reparse.specs.RelativePieces.{piece_at};
ghost use Rattle.expander_reparse.specs.Segments.{AreSegments};
ghost use Rattle.expander_sources.specs.SourceItems.{IsSourcePiece};
ghost use Rattle.expander_sources.specs.SourceReads.{IsSourceOf};
ghost use Rattle.expander_sources.specs.Sources.{items_of, most_modules, of_text};

use crate::home::Home;
use crate::inline_module::is_public;
use crate::items::{SourceItem, push_own};
use bridge::ReadFault;
use expander_model::definition::has_attribute;
use expander_reparse::parse::{Parsed, read_pieces};
use expander_reparse::piece::Piece;
use expander_reparse::segment::Segments;
use rustc_lexer::{FrontmatterAllowed, Token, tokenize};
use std::alloc::Global;
use std::marker::Model;
use tt_data::{Symbol, TextRange, TtFault};

/// A text that was read for its definitions, those of its inline modules too. It never changes: an
/// edited text is a new source.
#[derive(Drop)]
pub struct Source {
    number: u32,
    home: Option<Home>,
    items: Vec<SourceItem>,
}

impl Model for Source {
    ghost use Rattle.expander_sources.specs.Sources.{Source, source_code};

    ghost Value = { Source };

    ghost coded = { source_code };

    ghost view = { λ s. record { number = s.number; home = s.home; items = s.items.items } };
}

/// What a text is read as.
#[derive(Drop)]
pub enum SourceRead {
    /// The source.
    Read(Source),
    /// The first fault of the text.
    Unread(ReadFault),
}

/// The source that the text with these tokens is, read over what is cached of another text. Its
/// spans have its number, from 1 on: 0 is that of the text that is expanded. Without a home its
/// definitions are of the crate of that text.
///
/// # Errors
///
/// `Memory`. `Tokens`, only if what is read of the text has more than `u32::MAX` tokens, which doc
/// comments alone can bring about.
pub fn read_source(
    alloc: Global,
    text: &str,
    tokens: &[Token],
    cached: &Segments,
    number: u32,
    home: Option<Home>,
) -> Result<SourceRead, TtFault>
    requires small { length text.now < 2 ^ 32 }
    requires tokens { tokens.now ≡ tokens_of (chars text.now) }
    requires right { AreSegments cached.now }
    requires number { 1 ≤ number }
    ensures read { IfOk result (IsSourceOf number home text.now) }
    ensures many { result ≡ Err TtFault.Tokens → HasTooMany (text_steps text.now) }
{
    bridge::laws::reading_is_a_relation();
    bridge::laws::tokens_follow_one_another();
    bridge::laws::tokens_are_written();
    match read_pieces(alloc, text, tokens, cached)? {
        Parsed::Fault(fault) => Ok(SourceRead::Unread(fault)),
        Parsed::Pieces(pieces, _) => {
            let source = source_of_pieces(alloc, pieces.as_slice(), number, home)?;
            Ok(SourceRead::Read(source))
        }
    }
}

// The definitions that the pieces of the text of this number have.
fn items_of_pieces(alloc: Global, pieces: &[Piece], number: u32) -> Result<Vec<SourceItem>, TtFault>
    requires { All IsSourcePiece pieces.now }
    ensures items { IfOk result (λ items. items.items ≡ flat_map (items_of most_modules [])
        (map (map_spans (of_text number)) (map piece_at pieces.now))) }
    ensures memory { IsOkUnless result fault.Memory }
{
    let mut items = Vec::new(alloc);
    for piece in pieces {
        push_own(alloc, number, piece, &mut items)?;
    }
    Ok(items)
}

// The source with these pieces, of this number.
fn source_of_pieces(
    alloc: Global,
    pieces: &[Piece],
    number: u32,
    home: Option<Home>,
) -> Result<Source, TtFault>
    requires { All IsSourcePiece pieces.now }
    ensures source { IfOk result (λ s. s ≡ record {
      number = number;
      home = home;
      items = flat_map (items_of most_modules [])
          (map (map_spans (of_text number)) (map piece_at pieces.now));
    }) }
    ensures memory { IsOkUnless result fault.Memory }
{
    let items = items_of_pieces(alloc, pieces, number)?;
    Ok(Source {
        number,
        home,
        items,
    })
}

impl Source {
    ghost use Rattle.std.specs.Prelude.{Some, option_map};
    ghost use Rattle.expander_sources.specs.Sources.{is_public, item_at, name_of};
    ghost use Rattle.expander_model.specs.Definitions.{has_attribute};
    ghost use Rattle.expander_sources.specs.Sources.{name_range_of, range_of};

    /// The source that a text is. Its spans have this number, from 1 on: 0 is that of the text that
    /// is expanded. Without a home its definitions are of the crate of that text.
    ///
    /// # Errors
    ///
    /// `Memory`. `Tokens`, only if what is read of the text has more than `u32::MAX` tokens, which
    /// doc comments alone can bring about.
    pub fn new(
        alloc: Global,
        text: &str,
        number: u32,
        home: Option<Home>,
    ) -> Result<SourceRead, TtFault>
        requires length { length text.now < 2 ^ 32 }
        requires number { 1 ≤ number }
        ensures read { IfOk result (IsSourceOf number home text.now) }
        ensures many { result ≡ Err TtFault.Tokens → HasTooMany (text_steps text.now) }
    {
        let tokens: Vec<Token> = tokenize(text, FrontmatterAllowed::No).collect(alloc)?;
        let none = Segments::new(alloc);
        read_source(alloc, text, tokens.as_slice(), &none, number, home)
    }

    /// Its number.
    pub fn number(&self) -> u32
        ensures { result ≡ self.now.number }
    {
        self.number
    }

    /// The crate that it belongs to. `None` for the crate of the text that is expanded.
    pub fn home(&self) -> Option<&Home>
        ensures { option_map (λ h. h.now) result ≡ self.now.home }
    {
        self.home.as_ref()
    }

    /// How many definitions it has.
    pub fn len(&self) -> usize
        ensures { result ≡ length self.now.items }
    {
        self.items.len()
    }

    /// The definition of this index.
    pub(crate) fn item(&self, i: usize) -> &SourceItem
        requires { i < length self.now.items }
        ensures { result.now ≡ item_at self.now.items i }
    {
        &self.items[i]
    }

    /// All its definitions.
    pub(crate) fn items(&self) -> &[SourceItem]
        ensures { result.now ≡ self.now.items }
    {
        self.items.as_slice()
    }

    /// The name of a definition, without `r#`.
    pub fn name(&self, i: usize) -> &str
        requires { i < length self.now.items }
        ensures { name_of (item_at self.now.items i).piece ≡ Some result.now }
    {
        self.item(i).name.as_str()
    }

    /// Where its name is in the text.
    pub fn name_range(&self, i: usize) -> TextRange
        requires { i < length self.now.items }
        ensures { name_range_of (item_at self.now.items i).piece ≡ Some result }
    {
        self.item(i).name_range
    }

    /// Where all of it is, from the start of its first token to the end of its last.
    pub fn range(&self, i: usize) -> TextRange
        requires { i < length self.now.items }
        ensures { range_of (item_at self.now.items i).piece ≡ result }
    {
        self.item(i).range
    }

    /// The names of the modules around it, outermost first, without `r#`.
    pub fn modules(&self, i: usize) -> &[Symbol]
        requires { i < length self.now.items }
        ensures { result.now ≡ (item_at self.now.items i).modules }
    {
        self.item(i).modules.as_slice()
    }

    /// Whether one of its outer attributes begins with this word.
    pub fn has_attribute(&self, i: usize, word: &str) -> bool
        requires { i < length self.now.items }
        ensures { result ≡ has_attribute word.now (item_at self.now.items i).piece }
    {
        has_attribute(&self.item(i).import.tree.as_ref().tree().iter(), word)
    }

    /// Whether it begins with `pub` behind its attributes.
    pub fn is_public(&self, i: usize) -> bool
        requires { i < length self.now.items }
        ensures { result ≡ is_public (item_at self.now.items i).piece }
    {
        is_public(&self.item(i).import.tree.as_ref().tree().iter())
    }
}
