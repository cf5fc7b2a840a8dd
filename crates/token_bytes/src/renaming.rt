//! What replaces each anchor of a tree.
ghost use Rattle.std.specs.Prelude.{◌≡◌};
ghost use Rattle.token_bytes.specs.Anchors.{IsAtHand, answer_in, answer_of};

use std::collections::HashMap;

/// What replaces each anchor. The replacement of one anchor, `common`, is stored beside the table
/// for speed.
#[derive(Drop)]
pub struct Renaming {
    answers: HashMap<u32, u32>,
    common: u32,
    answer: u32,
}

// What replaces an anchor.
fn looked_up(answers: &HashMap<u32, u32>, anchor: u32) -> u32
    ensures { result ≡ answer_in answers.now anchor }
{
    answers.get(&anchor).copied().unwrap_or(anchor)
}

impl Renaming {
    /// The replacements of this table, with that of `common` stored beside it.
    pub fn new(answers: HashMap<u32, u32>, common: u32) -> Renaming
        ensures hand { IsAtHand result }
        ensures table { result.answers ≡ answers }
    {
        let answer = looked_up(&answers, common);
        Renaming {
            answers,
            common,
            answer,
        }
    }

    /// What replaces an anchor.
    pub fn anchor(&self, anchor: u32) -> u32
        requires { IsAtHand self.now }
        ensures { result ≡ answer_of self.now anchor }
    {
        if anchor == self.common {
            return self.answer;
        }
        looked_up(&self.answers, anchor)
    }
}
