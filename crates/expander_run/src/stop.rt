//! Why a run stops without an answer.

use expander_session::expander_scope::refusal::Refusal;

/// Why a run stops without an answer.
#[derive(Clone, Copy)]
pub(crate) enum Stop {
    /// The input is no UTF-8.
    NotUtf8,
    /// The input has more than `u32::MAX` bytes.
    TooLong,
    /// The reader failed.
    ReadFailed,
    /// The writer failed.
    WriteFailed,
    /// There was no memory left, or there are too many tokens or definitions.
    Refused(Refusal),
}
