//! Why a call cannot be expanded, and where.
ghost use Rattle.std.specs.Prelude.{◌≡◌, IfOk, IsOkUnless, ⊤};
ghost use Rattle.std.specs.Cmp.Rules.{hashing};
ghost use Rattle.std.proofs.Common.{rules};
ghost use Rattle.symbols.specs.declared.fault.TtFault.TheVariants as fault;

use crate::errors::ExpandErrorKind;
use std::alloc::{AllocError, Global};
use std::fmt;
use std::hash::{Hash, Hasher};
use std::marker::Model;
use symbols::TtFault;
use symbols::rc::Rc;
use tt_data::Span;

/// Why a call cannot be expanded, and at which span. Clones share one block of memory.
///
/// A clone takes no memory and is never refused. The last of them frees the block.
#[derive(Debug, Drop)]
pub struct ExpandError {
    /// The span and the kind.
    pub inner: Rc<(Span, ExpandErrorKind)>,
}

impl Model for ExpandError {
    ghost use Rattle.mbe_rules.specs.declared.errors.ExpandErrorKind.{ExpandErrorKind};
    ghost use Rattle.tt_data.specs.declared.span.Span.{Span};

    ghost Value = { Span × ExpandErrorKind };

    ghost view = { λ e. e.inner };
}

impl ExpandError {
    /// The error of this kind at this span. It takes one block of memory.
    ///
    /// # Errors
    ///
    /// `Memory` if `alloc` has no room for it. It is the only error.
    pub fn new(alloc: Global, span: Span, kind: ExpandErrorKind) -> Result<ExpandError, TtFault>
        ensures error { IfOk result (λ e. e ≡ (span, kind)) }
        ensures memory { IsOkUnless result fault.Memory }
    {
        let inner = Rc::new(alloc, (span, kind))?;
        Ok(ExpandError { inner })
    }

    /// The span at which the error shows.
    pub fn span(&self) -> Span
        ensures { result ≡ self.now.0 }
    {
        self.inner.as_ref().0
    }

    /// The kind of the error.
    pub fn kind(&self) -> &ExpandErrorKind
        ensures { result.now ≡ self.now.1 }
    {
        &self.inner.as_ref().1
    }
}

impl Clone for ExpandError {
    ghost is_clone = { λ e copy. copy ≡ e };

    ghost is_infallible = { λ _. ⊤ };

    /// One more owner of the same error. It takes no memory, and is never an `Err`.
    fn clone(&self) -> Result<ExpandError, AllocError> {
        let inner = self.inner.clone()?;
        Ok(ExpandError { inner })
    }
}

impl PartialEq for ExpandError {
    ghost use Rattle.std.specs.Cmp.{partial_equiv_from_equiv};
    ghost use Rattle.mbe_rules.specs.PlacedErrors.{same_error, same_error_equiv};

    ghost eq = { same_error };

    ghost laws = { partial_equiv_from_equiv same_error_equiv };

    /// Whether spans and kinds are the same.
    fn eq(&self, other: &ExpandError) -> bool {
        self.inner == other.inner
    }
}

impl Eq for ExpandError {
    ghost use Rattle.mbe_rules.specs.PlacedErrors.{same_error_equiv};

    ghost laws = { same_error_equiv };
}

impl Hash for ExpandError {
    ghost hash_input = { ⟦<(Span, ExpandErrorKind) as Hash>⟧.hash_input };

    ghost respects_eq = { Prim.search (hashing, rules) };

    /// Feeds the span and the kind.
    fn hash<H: Hasher>(&self, state: &mut H) {
        self.inner.hash(state);
    }
}

impl fmt::Display for ExpandError {
    ghost use Rattle.std.specs.Prelude.{Some};
    ghost use Rattle.mbe_rules.specs.Messages.{expand_message};

    ghost output = { λ error. Some (expand_message error.1) };

    /// Writes the text of the kind.
    fn fmt<W: fmt::Write>(&self, f: &mut fmt::Formatter<W>) -> fmt::Result {
        self.kind().fmt(f)
    }
}
