//! How much one outermost call may make.

/// At most so much for one outermost call.
#[derive(Clone, Copy, Debug, PartialEq, Eq)]
pub struct Limits {
    /// How many calls are replaced for it, itself among them.
    pub calls: usize,
    /// How many tokens rules put out for it: for each call that is tried, those of the rules up to
    /// the first that fits, before a fault too. A group counts as one.
    pub tokens: usize,
}
