//! How much is traced.

/// At most so much is traced.
#[derive(Clone, Copy, Debug, PartialEq, Eq)]
pub struct Limits {
    /// How many calls.
    pub steps: usize,
    /// How many tokens rules put out for them: for each call that is tried, those of the rules up
    /// to the first that fits, before a fault too. A group counts as one.
    pub tokens: u32,
}

/// Why steps end before their end.
#[derive(Clone, Copy, Debug, PartialEq, Eq)]
pub enum Cut {
    /// There are more than the limit says.
    Steps,
    /// For the next call rules put out more tokens than the limit says.
    Tokens,
    /// The next trees may have definitions of their own: they have the word `macro_rules` or
    /// `macro`, and names find definitions of lists too. Such trees are not traced.
    Definitions,
}

/// What is left of the limits, and why no more is traced, if no more is.
#[derive(Clone, Copy, Debug, PartialEq, Eq)]
pub struct Room {
    pub left: Limits,
    pub cut: Option<Cut>,
}

impl Room {
    ghost use Rattle.std.specs.Prelude.{◌≡◌, None};

    /// All that these limits leave.
    pub fn new(left: Limits) -> Self
        ensures { result ≡ record { left = left; cut = None } }
    {
        Room { left, cut: None }
    }
}
