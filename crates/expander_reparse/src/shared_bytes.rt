//! The bytes that cached pieces were read from: ranges of one copy of a text, or copies of their
//! own.
ghost use Rattle.std.specs.Prelude.{◌≡◌, IfOk, List, length, ℕ};
ghost use Rattle.expander_reparse.specs.ByteStores.{HasWord, HoldsText};

use std::alloc::{AllocError, Global};
use std::marker::Model;
use std::rc::Rc;

/// A range of shared bytes.
#[derive(Drop)]
pub struct SharedBytes {
    all: Rc<Vec<u8>>,
    at: usize,
    len: usize,
}

impl Model for SharedBytes {
    ghost use Rattle.std.specs.Prelude.{◌+◌, ◌≤◌, List, drop, length, take, ℕ};
    ghost use Rattle.std.specs.Rc.{rc_value};

    ghost Value = { List ℕ };

    ghost view = { λ w. take w.len (drop w.at (rc_value w.all).items) };

    ghost invariant = { λ w. w.at + w.len ≤ length (rc_value w.all).items };
}

impl SharedBytes {
    /// The bytes.
    pub fn as_slice(&self) -> &[u8]
        ensures { result.now ≡ self.now }
    {
        let (_, behind) = self.all.as_ref().as_slice().split_at(self.at);
        let (word, _) = behind.split_at(self.len);
        word
    }

    /// How many there are.
    pub fn len(&self) -> usize
        ensures { result ≡ length self.now }
    {
        self.as_slice().len()
    }
}

// A shared copy of these bytes.
fn copied(alloc: Global, bytes: &[u8]) -> Result<Rc<Vec<u8>>, AllocError>
    ensures { IfOk result (λ all. all.value.items ≡ bytes.now) }
{
    let copy = Vec::from_slice(alloc, bytes)?;
    match Rc::new(alloc, copy) {
        Ok(all) => Ok(all),
        Err(e) => Err(AllocError::from(e)),
    }
}

/// How the bytes of a text are stored: all in one copy of the text, or each run by itself.
#[derive(Drop)]
pub(crate) struct ByteStore {
    all: Option<Rc<Vec<u8>>>,
}

impl ByteStore {
    /// One copy of the whole text.
    pub(crate) fn together(alloc: Global, text: &str) -> Result<Self, AllocError>
        ensures { IfOk result (λ words. HoldsText words text.now) }
    {
        let all = copied(alloc, text.as_bytes())?;
        Ok(ByteStore { all: Some(all) })
    }

    /// A copy for each run of bytes.
    pub(crate) fn apart() -> Self
        ensures { (text : List ℕ) → HoldsText result text }
    {
        ByteStore { all: None }
    }

    /// The bytes of the text at offset `at`, as shared bytes.
    pub(crate) fn word(
        &self,
        alloc: Global,
        at: usize,
        bytes: &[u8],
    ) -> Result<SharedBytes, AllocError>
        requires { HasWord self.now at bytes.now }
        ensures { IfOk result (λ word. word ≡ bytes.now) }
    {
        let len = bytes.len();
        match &self.all {
            Some(all) => {
                let all = all.clone()?;
                Ok(SharedBytes { all, at, len })
            }
            None => {
                let all = copied(alloc, bytes)?;
                Ok(SharedBytes { all, at: 0, len })
            }
        }
    }
}
