//! The editions that the identifiers of a definition are read by.
ghost use Rattle.tt_data.specs.declared.span.SyntaxContext.TheVariants.{Written, Made};

use tt_data::{Edition, SyntaxContext};

/// The editions of written identifiers, and of synthesized ones.
#[derive(Clone, Copy)]
pub(crate) struct Editions {
    written: Edition,
    made: Edition,
}

impl Editions {
    ghost use Rattle.std.specs.Prelude.{◌≡◌};
    ghost use Rattle.mbe_rules.specs.Reading.{edition_in};

    // The answers of `ctx_edition` for the two contexts.
    pub(crate) fn of<F: Fn(SyntaxContext) -> Edition>(ctx_edition: F) -> Editions
        requires { F.IsAlwaysCallable ctx_edition }
        ensures written { F.post ctx_edition Written result.written }
        ensures made { F.post ctx_edition Made result.made }
    {
        Editions {
            written: ctx_edition(SyntaxContext::Written),
            made: ctx_edition(SyntaxContext::Made),
        }
    }

    // The edition of an identifier with this context.
    pub(crate) fn at(self, context: SyntaxContext) -> Edition
        ensures { result ≡ edition_in self context }
    {
        match context {
            SyntaxContext::Written => self.written,
            SyntaxContext::Made => self.made,
        }
    }
}
