//! Words of a command line, as `rustc --cfg` takes them, and what they set.
ghost use Rattle.std.specs.Prelude.{◌≡◌, ◌<◌, ◌^◌, IfErr, IfOk, OnErr, OnOk, length, option_map};
ghost use Rattle.bridge.specs.ReadText.{IsRead, IsReadRefusal};
ghost use Rattle.bridge.specs.TokenSteps.{text_steps};
ghost use Rattle.cfg_options.specs.Options.{SameOptions, options_of, written};
ghost use Rattle.cfg_options.specs.Words.{IsRefusal, Sets, option_of};

use crate::fault::CfgFault;
use crate::options::{CfgOption, CfgOptions};
use crate::words::option_in;
use bridge::Read;
use bridge::rustc_lexer::LexedText;
use std::alloc::Global;
use tt_data::TtFault;

// A word as trees, or its reading fault.
fn read(alloc: Global, word: &str) -> Result<Read, TtFault>
    requires { length word.now < 2 ^ 32 }
    ensures read { IfOk result (IsRead (text_steps word.now)) }
    ensures refused { IfErr result (IsReadRefusal (text_steps word.now)) }
{
    let held = LexedText::new(alloc, word)?;
    bridge::read(alloc, held.text(), held.tokens())
}

// The option that a word is.
fn option_of(alloc: Global, word: &str) -> Result<Option<CfgOption>, CfgFault>
    requires { length word.now < 2 ^ 32 }
    ensures option { IfOk result (λ o. option_map written o ≡ option_of word.now) }
    ensures fault { IfErr result (IsRefusal word.now) }
{
    bridge::laws::reading_is_a_relation();
    match read(alloc, word) {
        Ok(Read::Tree(tree)) => Ok(option_in(alloc, &tree.token_trees().iter())?),
        Ok(Read::Fault(_fault)) => Ok(None),
        Err(TtFault::Memory) => Err(CfgFault::Memory),
        Err(_) => Err(CfgFault::TooLong),
    }
}

impl CfgOptions {
    /// Sets the option that a word is: `NAME` or `NAME="VALUE"`, as `rustc --cfg` takes it without
    /// an edition. An error changes nothing.
    ///
    /// # Errors
    ///
    /// `NoOption` if the word is no option, `TooLong` if it has more than `u32::MAX` bytes or
    /// would be read as more tokens, and `Memory`.
    pub fn push(&mut self, word: &str) -> Result<(), CfgFault>
        ensures sets { OnOk result (Sets (option_of word.now) (options_of self.old)
            (options_of self.new)) }
        ensures same { OnErr result (SameOptions self.old self.new) }
        ensures fault { IfErr result (IsRefusal word.now) }
    {
        if word.len() > u32::MAX as usize {
            return Err(CfgFault::TooLong);
        }
        match option_of(self.alloc, word)? {
            Some(option) => {
                self.add(option)?;
                Ok(())
            }
            None => Err(CfgFault::NoOption),
        }
    }
}
