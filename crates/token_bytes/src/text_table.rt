//! A table of texts, numbered by first use.
ghost use Rattle.std.specs.Prelude.{◌≡◌, ◌%◌, ◌-◌, ◌<◌, ◌≤◌, ◌^◌, ◌∷◌, ◌++◌, []};
ghost use Rattle.std.specs.Prelude.{get_or, length, take};
ghost use Rattle.std.specs.Prelude.{IfOk, OnOk, OnErr};
ghost use Rattle.token_bytes.specs.Packing.{number_of, with_text};
ghost use Rattle.token_bytes.specs.Numbers.{AreLinkedIn, IsNumbered, mix_of};

use crate::text_chains::{TextChains, mix_of};
use std::alloc::{AllocError, Global};
use tt_data::Symbol;

// A table of fewer texts than this gets no chains: they are searched one by one.
const FEW: usize = 16;

/// A table of texts, and what finds their numbers.
#[derive(Drop)]
pub(crate) struct TextTable {
    pub texts: Vec<Symbol>,
    // For each class of texts, how many texts there were up to one of them; 0 if there was none.
    recent: [u8; 64],
    // Those of the texts, once they are many.
    chains: TextChains,
    alloc: Global,
}

// The number of the first text that is equal; their count if there is none.
fn place_among(texts: &[Symbol], text: &Symbol) -> usize
    ensures { result ≡ number_of text.now texts.now }
{
    let mut at = 0;
    while at < texts.len() {
        if *text == texts[at] {
            return at;
        }
        at += 1;
    }
    at
}

// The class of a text, of those of `recent`.
#[inline(always)]
fn recent_class(mix: u64) -> usize
    ensures class { result ≡ mix % 64 }
    ensures within { result < 64 }
{
    (mix % 64) as usize
}

// Chains the last text of a table, if the table has chains or comes to be long. A refused call
// leaves it out.
#[inline(always)]
fn chain_last(
    chains: &mut TextChains,
    alloc: Global,
    texts: &[Symbol],
    mix: u64,
) -> Result<(), AllocError>
    requires some { 0 < length texts.now }
    requires mix { mix ≡ mix_of (get_or texts.now (length texts.now - 1) []) }
    requires linked { AreLinkedIn chains.old (take (length texts.now - 1) texts.now) }
    ensures ok { OnOk result (AreLinkedIn chains.new texts.now) }
    ensures err { OnErr result (AreLinkedIn chains.new (take (length texts.now - 1) texts.now)) }
{
    let number = texts.len() - 1;
    if chains.size() == 0 && number < FEW {
        return Ok(());
    }
    if chains.size() <= number {
        *chains = TextChains::of(alloc, texts, texts.len().saturating_mul(4))?;
        return Ok(());
    }
    chains.push(&texts[..number], &texts[number], mix)
}

// How many texts there are, as far as a byte tells it.
#[inline(always)]
fn shortened(count: usize) -> u8
    requires { 0 < count }
    ensures { 0 < result }
{
    if count < 256 { count as u8 } else { 255 }
}

impl TextTable {
    /// An empty table. It takes no memory.
    pub fn new(alloc: Global) -> TextTable
        ensures empty { result.texts.items ≡ [] }
        ensures numbered { IsNumbered result }
    {
        TextTable {
            texts: Vec::new(alloc),
            recent: [0; 64],
            chains: TextChains::none(alloc),
            alloc,
        }
    }

    // The number of a text; the one that it would get if it is not in the table.
    #[inline(always)]
    fn number_of(&self, text: &Symbol, mix: u64) -> usize
        requires numbered { IsNumbered self.now }
        requires mix { mix ≡ mix_of text.now }
        ensures { result ≡ number_of text.now self.now.texts.items }
    {
        let texts = self.texts.as_slice();
        let count = self.recent[recent_class(mix)] as usize;
        if count == 0 {
            return texts.len();
        }
        if count <= texts.len() && *text == texts[count - 1] {
            return count - 1;
        }
        self.look_up(text, mix)
    }

    // The same, by the chains or one by one.
    #[inline(never)]
    fn look_up(&self, text: &Symbol, mix: u64) -> usize
        requires numbered { IsNumbered self.now }
        requires mix { mix ≡ mix_of text.now }
        ensures { result ≡ number_of text.now self.now.texts.items }
    {
        if self.chains.size() == 0 {
            place_among(self.texts.as_slice(), text)
        } else {
            self.chains.find(self.texts.as_slice(), text, mix)
        }
    }

    // Appends a text that is not in the table. A refused call changes nothing. That it is never
    // inlined decides speed alone.
    #[inline(never)]
    fn append(&mut self, text: Symbol, mix: u64) -> Result<(), AllocError>
        requires numbered { IsNumbered self.old }
        requires absent { number_of text self.old.texts.items ≡ length self.old.texts.items }
        requires mix { mix ≡ mix_of text }
        ensures table { OnOk result (self.new.texts.items ≡ self.old.texts.items ++ text ∷ []) }
        ensures err { OnErr result (self.new.texts.items ≡ self.old.texts.items) }
        ensures numbered { IsNumbered self.new }
    {
        self.texts.push(text)?;
        match chain_last(&mut self.chains, self.alloc, self.texts.as_slice(), mix) {
            Ok(()) => {
                self.recent[recent_class(mix)] = shortened(self.texts.len());
                Ok(())
            }
            Err(error) => {
                let _ = self.texts.pop();
                Err(error)
            }
        }
    }

    /// The number of a text, which joins the table if it is not there. A refused call changes
    /// nothing.
    pub fn number(&mut self, text: &Symbol) -> Result<u32, AllocError>
        requires numbered { IsNumbered self.old }
        requires room { length self.old.texts.items < 2 ^ 32 }
        ensures number { IfOk result (λ n. n ≡ number_of text.now self.old.texts.items) }
        ensures table { OnOk result (self.new.texts.items
            ≡ with_text text.now self.old.texts.items) }
        ensures err { OnErr result (self.new.texts.items ≡ self.old.texts.items) }
        ensures numbered { IsNumbered self.new }
    {
        let mix = mix_of(text);
        let number = self.number_of(text, mix);
        if number == self.texts.len() {
            self.append(text.clone()?, mix)?;
        }
        Ok(number as u32)
    }

    /// Keeps the first `len` texts alone, or all if there are fewer. It takes no memory.
    pub fn cut_back(&mut self, len: usize)
        requires { IsNumbered self.old }
        ensures table { self.new.texts.items ≡ take len self.old.texts.items }
        ensures numbered { IsNumbered self.new }
    {
        while self.texts.len() > len {
            self.forget_last();
        }
    }

    // Takes the last text out.
    fn forget_last(&mut self)
        requires numbered { IsNumbered self.old }
        requires some { 0 < length self.old.texts.items }
        ensures table { self.new.texts.items ≡ take (length self.old.texts.items - 1)
            self.old.texts.items }
        ensures numbered { IsNumbered self.new }
    {
        let Some(text) = self.texts.pop() else {
            return;
        };
        if self.chains.size() != 0 {
            self.chains.pop(self.texts.as_slice(), &text);
        }
    }
}
