//! Shared text. The clauses see a `Symbol` as the list of its text's bytes.
ghost use Rattle.std.specs.Fmt.{debug_str};
ghost use Rattle.std.specs.Prelude.{◌≡◌, ℕ, List, IfOk, IsOkUnless, ⊤, nat_eq};
ghost use Rattle.std.specs.Hash as fed;
ghost use Rattle.std.specs.Cmp.Lexicographic.{pointwise, nat_list_eq_equiv};
ghost use Rattle.std.specs.Cmp.{partial_equiv_from_equiv};
ghost use Rattle.std.specs.Cmp.Rules.{hashing};
ghost use Rattle.std.proofs.Common.{rules};
ghost use Rattle.std.specs.String.{string_bytes};
ghost use Rattle.symbols.specs.declared.fault.TtFault.TheVariants as fault;

use crate::fault::TtFault;
use crate::rc::Rc;
use std::alloc::{AllocError, Global};
use std::fmt;
use std::hash::{Hash, Hasher};
use std::marker::Model;

/// Shared text.
///
/// A clone takes no memory and is never refused. The last owner frees the text; a text that once
/// has 2^64 - 1 owners is never freed.
pub struct Symbol {
    text: Rc<String>,
}

impl Model for Symbol {
    ghost Value = { List ℕ };

    ghost view = { λ s. string_bytes s.text };
}

impl Symbol {
    /// A symbol with a copy of this text. It takes two blocks of memory: the copy, and the count
    /// of its owners.
    ///
    /// # Errors
    ///
    /// `Memory` if `alloc` has no room for one of them. It is the only error.
    pub fn new(alloc: Global, text: &str) -> Result<Symbol, TtFault>
        ensures text { IfOk result (λ s. s ≡ text.now) }
        ensures memory { IsOkUnless result fault.Memory }
    {
        let text = Rc::new(alloc, String::from_str(alloc, text)?)?;
        Ok(Symbol { text })
    }

    /// The text.
    pub fn as_str(&self) -> &str
        ensures { result.now ≡ self.now }
    {
        self.text.as_ref().as_str()
    }
}

impl Clone for Symbol {
    ghost is_clone = { λ s copy. copy ≡ s };

    ghost is_infallible = { λ _. ⊤ };

    /// One more owner of the same text. It takes no memory, and is never an `Err`.
    fn clone(&self) -> Result<Symbol, AllocError> {
        let text = self.text.clone()?;
        Ok(Symbol { text })
    }
}

impl Drop for Symbol {
    /// One owner fewer. The last one frees the text.
    fn drop(self) {
        let Symbol { text } = self;
        drop(text);
    }
}

impl PartialEq for Symbol {
    ghost eq = { pointwise nat_eq };

    ghost laws = { partial_equiv_from_equiv nat_list_eq_equiv };

    /// Whether the texts are the same, byte by byte.
    fn eq(&self, other: &Symbol) -> bool {
        self.as_str() == other.as_str()
    }
}

impl Eq for Symbol {
    ghost laws = { nat_list_eq_equiv };
}

impl Hash for Symbol {
    ghost hash_input = { fed.str };

    ghost respects_eq = { Prim.search (hashing, rules) };

    /// Feeds the text, as `str` does.
    fn hash<H: Hasher>(&self, state: &mut H) {
        self.as_str().hash(state);
    }
}

impl fmt::Debug for Symbol {
    ghost debug_output = { debug_str };

    /// Writes the text as `str` does, in quotes.
    fn fmt<W: fmt::Write>(&self, f: &mut fmt::Formatter<W>) -> fmt::Result {
        fmt::Debug::fmt(self.as_str(), f)
    }
}
