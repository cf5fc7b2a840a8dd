//! Numbers of texts, found by chains of texts of one class.
ghost use Rattle.std.specs.Prelude.{◌≡◌, ◌-◌, ◌%◌, ◌<◌, ◌≤◌, ◌∷◌, ◌++◌, [], length, take};
ghost use Rattle.std.specs.Prelude.{IfOk, OnErr, OnOk};
ghost use Rattle.token_bytes.specs.Packing.{number_of};
ghost use Rattle.token_bytes.specs.Numbers.{AreDistinct, AreLinked, mix_of};

use std::alloc::{AllocError, Global};
use std::hash::{FoldHasher, Hasher};
use tt_data::Symbol;

/// Chains of the texts of a table. A place in a chain is told by how many texts there are up to it.
#[derive(Drop)]
pub(crate) struct TextChains {
    // For each class, the last text of it; 0 if there is none.
    pub last: Vec<usize>,
    // For each text, the one before it of its class; 0 if there is none.
    pub before: Vec<usize>,
}

/// A number of a text, by which its class is told.
#[inline(always)]
pub(crate) fn mix_of(text: &Symbol) -> u64
    ensures { result ≡ mix_of text.now }
{
    let mut state = FoldHasher::default();
    state.write(text.as_str().as_bytes());
    state.finish()
}

// The class of a text, of `size` classes.
#[inline(always)]
fn class_of(mix: u64, size: usize) -> usize
    requires { 0 < size }
    ensures class { result ≡ mix % size }
    ensures within { result < size }
{
    mix as usize % size
}

impl TextChains {
    /// No chains. They take no memory.
    pub fn none(alloc: Global) -> TextChains
        ensures { result.last.items ≡ [] }
    {
        TextChains {
            last: Vec::new(alloc),
            before: Vec::new(alloc),
        }
    }

    /// The number of classes.
    #[inline(always)]
    pub fn size(&self) -> usize
        ensures { result ≡ length self.now.last.items }
    {
        self.last.len()
    }

    /// The number of a text; that of the next one if it is not in the table.
    pub fn find(&self, texts: &[Symbol], text: &Symbol, mix: u64) -> usize
        requires some { 0 < length self.now.last.items }
        requires linked { AreLinked self.now texts.now }
        requires distinct { AreDistinct texts.now }
        requires mix { mix ≡ mix_of text.now }
        ensures { result ≡ number_of text.now texts.now }
    {
        let mut count = self.last[class_of(mix, self.last.len())];
        while count > 0 {
            let at = count - 1;
            if *text == texts[at] {
                return at;
            }
            count = self.before[at];
        }
        texts.len()
    }

    /// Links the text that comes next. `_texts` are those before it. A refused call links nothing.
    #[inline(always)]
    pub fn push(&mut self, _texts: &[Symbol], text: &Symbol, mix: u64) -> Result<(), AllocError>
        requires some { 0 < length self.old.last.items }
        requires linked { AreLinked self.old _texts.now }
        requires mix { mix ≡ mix_of text.now }
        ensures ok { OnOk result (AreLinked self.new (_texts.now ++ text.now ∷ [])) }
        ensures err { OnErr result (AreLinked self.new _texts.now) }
        ensures size { length self.new.last.items ≡ length self.old.last.items }
    {
        let class = class_of(mix, self.last.len());
        self.before.push(self.last[class])?;
        self.last[class] = self.before.len();
        Ok(())
    }

    /// Takes the last text of a table out.
    pub fn pop(&mut self, _texts: &[Symbol], text: &Symbol)
        requires some { 0 < length self.old.last.items }
        requires linked { AreLinked self.old (_texts.now ++ text.now ∷ []) }
        ensures linked { AreLinked self.new _texts.now }
        ensures size { length self.new.last.items ≡ length self.old.last.items }
    {
        let Some(before) = self.before.pop() else {
            return;
        };
        let class = class_of(mix_of(text), self.last.len());
        self.last[class] = before;
    }

    /// Chains of the texts of a table, of `size` classes.
    #[inline(never)]
    pub fn of(alloc: Global, texts: &[Symbol], size: usize) -> Result<TextChains, AllocError>
        requires some { 0 < size }
        ensures linked { IfOk result (λ c. AreLinked c texts.now) }
        ensures size { IfOk result (λ c. length c.last.items ≡ size) }
    {
        let mut chains = TextChains {
            last: vec![in alloc; 0; size]?,
            before: Vec::with_capacity(alloc, size)?,
        };
        for at in 0..texts.len() {
            let text = &texts[at];
            chains.push(&texts[..at], text, mix_of(text))?;
        }
        Ok(chains)
    }
}
