//! The options for conditional compilation that words of C's name.
ghost use Rattle.std.specs.Prelude.{IfErr, IfOk, OnOk};
ghost use Rattle.cfg_options.specs.Options.{options_of};
ghost use Rattle.cfg_options.specs.Words.{Sets, option_of};
ghost use Rattle.filgordd_c.specs.Conditions.{IsSetOf, NoSet, NoWord, texts};

use crate::code::Code;
use crate::live::text_in;
use cfg_options::{CfgFault, CfgOptions};
use std::alloc::Global;

/// A word of a list, as `rustc --cfg` takes one: `NAME` or `NAME="VALUE"`.
#[repr(C)]
#[derive(Clone, Copy)]
pub struct Word<'a> {
    pub bytes: &'a [u8],
}

// Sets the option that a word names.
fn push_word(set: &mut CfgOptions, word: &[u8]) -> Result<(), Code>
    ensures sets { OnOk result (Sets (option_of word.now) (options_of set.old)
        (options_of set.new)) }
    ensures why { IfErr result (NoWord word.now) }
{
    let word = text_in(word)?;
    match set.push(word) {
        Ok(()) => Ok(()),
        Err(CfgFault::NoOption) => Err(Code::Cfg),
        Err(CfgFault::TooLong) => Err(Code::Tokens),
        Err(CfgFault::Memory) => Err(Code::Memory),
    }
}

/// The set of exactly the options that these words name. Without a word it is empty.
pub(crate) fn set_of(alloc: Global, words: &[Word<'_>]) -> Result<CfgOptions, Code>
    ensures set { IfOk result (IsSetOf (texts words.now)) }
    ensures why { IfErr result (NoSet (texts words.now)) }
{
    let mut set = CfgOptions::new(alloc);
    for word in words {
        push_word(&mut set, word.bytes)?;
    }
    Ok(set)
}
