//! Reads a text as trees, piece by piece.
ghost use Rattle.std.specs.Prelude.{◌≡◌, ◌<◌, ◌^◌, Err, IfOk, length};
ghost use Rattle.tt_data.specs.fault.TtFault.TheVariants as fault;
ghost use Rattle.bridge.specs.ReadText.{HasTooMany};
ghost use Rattle.bridge.specs.TokenSteps.{text_steps};
ghost use Rattle.expander_reparse.specs.ParsedTexts.{IsReadApart};

use bridge::Read;
use expander_model::split::set_apart;
use rustc_lexer::{FrontmatterAllowed, Token, tokenize};
use std::alloc::Global;
use tt_data::TtFault;

/// The trees of a text, or its first reading fault. Each `;` between pieces has the spacing
/// `Alone`, so that the trees are cut into pieces.
///
/// # Errors
///
/// `Memory`. `Tokens`, only if what is read of the text has more than `u32::MAX` tokens, which doc
/// comments alone can bring about.
pub fn read_text(alloc: Global, text: &str) -> Result<Read, TtFault>
    requires { length text.now < 2 ^ 32 }
    ensures read { IfOk result (IsReadApart text.now) }
    ensures tokens { result ≡ Err fault.Tokens → HasTooMany (text_steps text.now) }
{
    bridge::laws::reading_is_a_relation();
    let tokens: Vec<Token> = tokenize(text, FrontmatterAllowed::No).collect(alloc)?;
    let mut tree = match bridge::read(alloc, text, tokens.as_slice())? {
        Read::Fault(fault) => return Ok(Read::Fault(fault)),
        Read::Tree(tree) => tree,
    };
    set_apart(alloc, &mut tree)?;
    Ok(Read::Tree(tree))
}
