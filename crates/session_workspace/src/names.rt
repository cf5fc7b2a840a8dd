//! What is wrong with a text, in one word.
ghost use Rattle.std.specs.Prelude.{◌≡◌};
ghost use Rattle.session_workspace.specs.Names.{kind_name, read_kind_name, refusal_name};

use bridge::ReadFaultKind;
use expander_model::fault::FaultKind;
use expander_scope::refusal::Refusal;

/// The name of a kind of fault.
pub(crate) fn kind_name(kind: FaultKind) -> &'static str
    ensures { result.now ≡ kind_name kind }
{
    match kind {
        FaultKind::CannotExpand => "CannotExpand",
        FaultKind::BrokenDefinition => "BrokenDefinition",
        FaultKind::RecursionLimit => "RecursionLimit",
        FaultKind::NestedDefinition => "NestedDefinition",
        FaultKind::Unspellable => "Unspellable",
        FaultKind::TooLarge => "TooLarge",
    }
}

/// The name of a kind of reading fault.
pub(crate) fn read_kind_name(kind: ReadFaultKind) -> &'static str
    ensures { result.now ≡ read_kind_name kind }
{
    match kind {
        ReadFaultKind::BadToken => "BadToken",
        ReadFaultKind::CloserDoesNotFit => "CloserDoesNotFit",
        ReadFaultKind::GroupLeftOpen => "GroupLeftOpen",
    }
}

/// The name of a refusal.
pub(crate) fn refusal_name(refusal: Refusal) -> &'static str
    ensures { result.now ≡ refusal_name refusal }
{
    match refusal {
        Refusal::Memory => "Memory",
        Refusal::Tokens => "Tokens",
        Refusal::Numbers => "Numbers",
    }
}
