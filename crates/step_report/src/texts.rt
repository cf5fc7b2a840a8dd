//! The texts that steps name: the one that is traced, and others by their names.
ghost use Rattle.std.specs.Prelude.{◌<◌, ◌^◌, IfOk, length};
ghost use Rattle.call_json.specs.Spots as utf_16;
ghost use Rattle.step_report.specs.Spots as characters;

use crate::positions::Spots;
use std::alloc::{AllocError, Global};

/// The text that is traced, and the names of the texts that definitions come from.
#[derive(Drop)]
pub struct Texts<'a> {
    /// The name of the file of the text that is traced.
    pub(crate) file: &'a str,
    /// That text.
    pub(crate) text: &'a str,
    /// The names of the other texts, in order of their numbers, from 1.
    pub(crate) others: &'a [String],
    /// Bytes of the text with their positions in characters.
    pub(crate) spots: Spots,
    /// Bytes of the text with their positions in UTF-16 code units.
    pub(crate) near: call_json::Spots,
    ghost short: { length text.now < 2 ^ 32 },
    ghost nearby: { utf_16.AreOf text.now near },
    ghost right: { characters.AreOf text.now spots },
}

impl<'a> Texts<'a> {
    ghost use Rattle.std.specs.Prelude.{◌≡◌, map, string_bytes};
    ghost use Rattle.step_report.specs.Texts.{texts_in};

    /// The text of at most `u32::MAX` bytes that is traced, with the name of its file, and the
    /// names of the other texts that definitions come from, in order of their numbers, from 1.
    ///
    /// # Errors
    ///
    /// `AllocError` if memory is refused.
    pub fn of(
        alloc: Global,
        file: &'a str,
        text: &'a str,
        others: &'a [String],
    ) -> Result<Self, AllocError>
        requires { length text.now < 2 ^ 32 }
        ensures { IfOk result (λ t. texts_in t ≡ record {
          file = file.now;
          text = text.now;
          others = map string_bytes others.now;
        }) }
    {
        Ok(Texts {
            file,
            text,
            others,
            spots: Spots::of(alloc, text)?,
            near: call_json::Spots::of(alloc, text)?,
        })
    }
}
