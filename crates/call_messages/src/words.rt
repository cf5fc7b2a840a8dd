//! What a rule wants, in words.
use mbe_explain::Wanted;
use std::alloc::{AllocError, Global};

// How many things that are wanted are named at most.
const MOST: usize = 8;

/// What a rule wants at a place: what is written in its matcher, each once, and whether it may end
/// there.
#[derive(Drop)]
pub(crate) struct Wants {
    words: Vec<String>,
    // Whether there is more than is named.
    more: bool,
    close: bool,
    end: bool,
}

// Whether a text is among these.
fn has(words: &[String], word: &str) -> bool {
    for other in words {
        if other.as_str() == word {
            return true;
        }
    }
    false
}

impl Wants {
    // Names one more, unless it is named.
    fn name(&mut self, word: String) -> Result<(), AllocError> {
        if has(&self.words, word.as_str()) {
            return Ok(());
        }
        if self.words.len() >= MOST {
            self.more = true;
            return Ok(());
        }
        self.words.push(word)?;
        Ok(())
    }

    /// What these are, in words.
    pub(crate) fn of(alloc: Global, wanted: &[Wanted<'_>]) -> Result<Wants, AllocError> {
        let mut wants = Wants {
            words: Vec::new(alloc),
            more: false,
            close: false,
            end: false,
        };
        for want in wanted {
            match want {
                Wanted::Close => wants.close = true,
                Wanted::End => wants.end = true,
                _ => wants.name(format!(in alloc; "{want}")?)?,
            }
        }
        Ok(wants)
    }

    // What may end there.
    fn ending(&self) -> Option<&'static str> {
        if self.end {
            return Some("the end of the argument");
        }
        if self.close {
            Some("the end of the group")
        } else {
            None
        }
    }

    // Adds what is written in the matcher: `a`, `b` or `c`.
    fn push_words(&self, out: &mut String) -> Result<(), AllocError> {
        let mut left = self.words.len();
        for word in &self.words {
            out.push_str(word.as_str())?;
            left = left.saturating_sub(1);
            if left > 1 || (left == 1 && self.more) {
                out.push_str(", ")?;
            } else if left == 1 {
                out.push_str(" or ")?;
            }
        }
        if self.more {
            out.push_str(" or another")?;
        }
        Ok(())
    }

    /// Adds what is wanted, and after it where: `a` or `b` here, or the end of the argument.
    pub(crate) fn push(&self, out: &mut String, place: &str) -> Result<(), AllocError> {
        self.push_words(out)?;
        let Some(ending) = self.ending() else {
            return out.push_str(place);
        };
        if self.words.is_empty() {
            out.push_str(ending)?;
            return out.push_str(place);
        }
        out.push_str(place)?;
        out.push_str(", or ")?;
        out.push_str(ending)
    }
}
