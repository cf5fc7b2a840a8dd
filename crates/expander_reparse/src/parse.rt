//! Reads a text as its pieces: incrementally, or whole where that is not possible.
ghost use Rattle.std.specs.Prelude.{◌≡◌, ◌<◌, ◌^◌, Err, IfOk, chars, length};
ghost use Rattle.bridge.specs.ReadText.{HasTooMany};
ghost use Rattle.bridge.specs.TokenSteps.{text_steps};
ghost use Rattle.rustc_lexer.specs.Lexing.{tokens_of};
ghost use Rattle.expander_reparse.specs.ParsedTexts.{HaveMet, HaveTheirs, IsReadApart};
ghost use Rattle.expander_reparse.specs.ParsedTexts.{IsReadInPieces};
ghost use Rattle.expander_reparse.specs.Segments.{AreSegments};

use crate::incremental::read_by_pieces;
use crate::piece::{Piece, own_pieces};
use crate::segment::Segments;
use bridge::{Read, ReadFault};
use expander_model::split::set_apart;
use rustc_lexer::Token;
use std::alloc::Global;
use tt_data::TtFault;

/// What a text is read as.
#[derive(Drop)]
pub enum Parsed {
    /// The first fault of the text.
    Fault(ReadFault),
    /// Its pieces in order, and what can be cached of them.
    Pieces(Vec<Piece>, Segments),
}

// The trees of the text with these tokens, each `;` between pieces with the spacing `Alone`, or
// its reading fault.
fn read_apart(alloc: Global, text: &str, tokens: &[Token]) -> Result<Read, TtFault>
    requires small { length text.now < 2 ^ 32 }
    requires tokens { tokens.now ≡ tokens_of (chars text.now) }
    ensures read { IfOk result (IsReadApart text.now) }
    ensures many { result ≡ Err TtFault.Tokens → HasTooMany (text_steps text.now) }
{
    bridge::laws::reading_is_a_relation();
    match bridge::read(alloc, text, tokens)? {
        Read::Fault(fault) => Ok(Read::Fault(fault)),
        Read::Tree(mut tree) => {
            set_apart(alloc, &mut tree)?;
            Ok(Read::Tree(tree))
        }
    }
}

/// The pieces of the text with these tokens, over what is cached of another text.
pub fn read_pieces(
    alloc: Global,
    text: &str,
    tokens: &[Token],
    held: &Segments,
) -> Result<Parsed, TtFault>
    requires small { length text.now < 2 ^ 32 }
    requires tokens { tokens.now ≡ tokens_of (chars text.now) }
    requires right { AreSegments held.now }
    ensures read { IfOk result (IsReadInPieces text.now) }
    ensures met { IfOk result (HaveMet held.now) }
    ensures theirs { IfOk result HaveTheirs }
    ensures many { result ≡ Err TtFault.Tokens → HasTooMany (text_steps text.now) }
{
    if let Some((own, sources)) = read_by_pieces(alloc, text, tokens, held)? {
        return Ok(Parsed::Pieces(own, sources));
    }
    match read_apart(alloc, text, tokens)? {
        Read::Fault(fault) => Ok(Parsed::Fault(fault)),
        Read::Tree(tree) => {
            let trees = tree.token_trees().iter();
            let own = own_pieces(alloc, &trees)?;
            Ok(Parsed::Pieces(own, Segments::new(alloc)))
        }
    }
}
