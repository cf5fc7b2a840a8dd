//! Marks and places: ends of first tokens, at which a buffer is changed or cut back later, and a
//! run is read.
ghost use Rattle.std.specs.Prelude.{◌≡◌, ◌⊎◌, ◌≤◌, [], min};
ghost use Rattle.token_bytes.specs.Marks.{mark_of, place_of, without_head};

/// Where the first tokens of a run end: how many they are, and how many bytes they take.
#[derive(Clone, Copy, Debug, Default)]
pub struct Place {
    pub(super) count: usize,
    pub(super) bytes: usize,
}

impl Place {
    /// The place before all tokens.
    pub fn start() -> Place
        ensures { result ≡ place_of [] }
    {
        Place { count: 0, bytes: 0 }
    }

    /// The number of tokens before it.
    #[inline]
    pub fn count(self) -> usize
        ensures { result ≡ self.count }
    {
        self.count
    }
}

/// Where the first tokens of a buffer end: how many they are, and how many bytes and texts they
/// take.
#[derive(Clone, Copy, Debug)]
pub struct Mark {
    pub(super) count: usize,
    pub(super) bytes: usize,
    pub(super) texts: usize,
}

impl Mark {
    /// The mark before all tokens.
    pub fn start() -> Mark
        ensures { result ≡ mark_of [] }
    {
        Mark {
            count: 0,
            bytes: 0,
            texts: 0,
        }
    }

    /// The number of tokens before it.
    #[inline]
    pub fn count(self) -> usize
        ensures { result ≡ self.count }
    {
        self.count
    }

    /// The one of two marks before which fewer tokens come.
    pub fn earlier(self, other: Mark) -> Mark
        ensures one { (result ≡ self) ⊎ (result ≡ other) }
        ensures count { result.count ≡ min self.count other.count }
    {
        if self.count <= other.count {
            self
        } else {
            other
        }
    }

    /// `later`, if at most `most` tokens come before it and no fewer than before this one; else
    /// this one.
    pub fn or_later(self, later: Mark, most: usize) -> Mark
        ensures { (result ≡ self) ⊎ ((result ≡ later) × (self.count ≤ later.count)
            × (later.count ≤ most)) }
    {
        if self.count <= later.count && later.count <= most {
            later
        } else {
            self
        }
    }

    /// The mark, once the head at `removed` is taken out.
    pub fn without_head(self, removed: Mark) -> Mark
        ensures { result ≡ without_head removed.count self }
    {
        if removed.count < self.count {
            Mark {
                count: self.count - 1,
                bytes: self.bytes.saturating_sub(31),
                texts: self.texts,
            }
        } else {
            self
        }
    }
}
