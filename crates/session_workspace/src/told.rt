//! What a client was told of a text.
ghost use Rattle.std.specs.Prelude.{◌≡◌, IfOk, MatchBool};
ghost use Rattle.session_workspace.specs.OpenTexts.{IsToldOf};

use bridge::ReadFault;
use expander_model::fault::Fault;
use expander_scope::refusal::Refusal;
use expander_session::session::Reply;
use std::alloc::{AllocError, Global};

/// What the diagnostics are of that a client was told of a text.
#[derive(Drop)]
pub(crate) enum Told {
    /// The faults of its expansion.
    Faults(Vec<Fault>),
    /// The fault for which it could not be read.
    Unread(ReadFault),
    /// Why its session gave no reply.
    Refused(Refusal),
}

/// What is told where a session gives this.
pub(crate) fn told_of(alloc: Global, given: &Result<Reply, Refusal>) -> Result<Told, AllocError>
    ensures { IfOk result (λ told. IsToldOf told given.now) }
{
    match given {
        Ok(Reply::Read(expansion)) => {
            let faults = Vec::from_slice(alloc, expansion.faults())?;
            Ok(Told::Faults(faults))
        }
        Ok(Reply::Unread(fault)) => Ok(Told::Unread(*fault)),
        Err(refusal) => Ok(Told::Refused(*refusal)),
    }
}

// Whether faults are the same, in order.
fn same_faults(a: &[Fault], b: &[Fault]) -> bool
    ensures { MatchBool result (a.now ≡ b.now) (a.now ≡ b.now → ⊥) }
{
    if a.len() != b.len() {
        return false;
    }
    for i in 0..a.len() {
        let is_same = a[i] == b[i];
        if !is_same {
            return false;
        }
    }
    true
}

/// Whether this is told where a session gives that.
pub(crate) fn is_told_of(told: &Told, given: &Result<Reply, Refusal>) -> bool
    ensures { MatchBool result (IsToldOf told.now given.now)
        (IsToldOf told.now given.now → ⊥) }
{
    match (told, given) {
        (Told::Faults(faults), Ok(Reply::Read(expansion))) => {
            same_faults(faults.as_slice(), expansion.faults())
        }
        (Told::Unread(fault), Ok(Reply::Unread(given))) => fault == given,
        (Told::Refused(refusal), Err(given)) => refusal == given,
        _ => false,
    }
}
