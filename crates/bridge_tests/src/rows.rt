//! The trees of texts. Each call that takes memory is made once more if it is refused.
ghost use Rattle.std.specs.Prelude.{◌≡◌, ◌<◌, ◌^◌, IfOk, length};

use bridge::{Read, read};
use rustc_lexer::LexedText;
use std::alloc::{AllocError, Global};
use std::test::Fail;
use tt::{TopSubtree, TtFault};

// The trees of a text, or its reading fault.
fn answer(alloc: Global, held: &LexedText) -> Result<Read, TtFault>
    requires { length held.now < 2 ^ 32 }
{
    match read(alloc, held.text(), held.tokens()) {
        Err(TtFault::Memory) => read(alloc, held.text(), held.tokens()),
        answer => answer,
    }
}

/// A text with its tokens. It is not made if the text is long.
pub(crate) fn lexed(alloc: Global, text: &str) -> Result<LexedText, AllocError>
    requires { length text.now < 2 ^ 32 }
    ensures { IfOk result (λ t. t ≡ text.now) }
{
    match LexedText::new(alloc, text) {
        Ok(held) => Ok(held),
        Err(_) => LexedText::new(alloc, text),
    }
}

/// The trees of a text that is short and has no reading fault.
pub(crate) fn tree(alloc: Global, text: &str) -> Result<TopSubtree, Fail> {
    if text.len() >= 1000 {
        return Err(Fail::new("a text is long"));
    }
    match answer(alloc, &lexed(alloc, text)?)? {
        Read::Tree(tree) => Ok(tree),
        Read::Fault(_fault) => Err(Fail::new("a text is not read")),
    }
}
