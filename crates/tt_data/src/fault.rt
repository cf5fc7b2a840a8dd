//! Why a call on trees is refused.
pub use symbols::TtFault;
