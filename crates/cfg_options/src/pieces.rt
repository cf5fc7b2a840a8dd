//! Which pieces are kept.
ghost use Rattle.std.specs.Prelude.{◌≡◌, IfOk};
ghost use Rattle.cfg_options.specs.Conditions.{is_kept};
ghost use Rattle.cfg_options.specs.Misread.{misread};
ghost use Rattle.cfg_options.specs.Options.{options_of};
ghost use Rattle.cfg_options.specs.Strings.{string_text};

use crate::attributes::found_before;
use crate::options::CfgOptions;
use bridge::tt::TtIter;
use std::alloc::AllocError;
use tt_data::Span;

impl CfgOptions {
    /// Whether each outer attribute at the beginning of the piece keeps it. Out of memory is its
    /// only error.
    pub fn is_kept(&self, piece: &TtIter<'_>) -> Result<bool, AllocError>
        ensures { IfOk result (λ kept. kept ≡ is_kept (options_of self.now) string_text piece.now) }
    {
        let found = found_before(self, piece)?;
        Ok(found.keeps)
    }

    /// The span of the first `cfg` or `cfg_attr` among the outer attributes of the piece that has
    /// no predicate. Such a one leaves the piece in. Out of memory is its only error.
    pub fn misread(&self, piece: &TtIter<'_>) -> Result<Option<Span>, AllocError>
        ensures { IfOk result (λ span. span ≡ misread (options_of self.now) string_text piece.now) }
    {
        let found = found_before(self, piece)?;
        Ok(found.misread)
    }
}
