//! The methods that the server knows.
ghost use Rattle.std.specs.Prelude.{◌≡◌};
ghost use Rattle.lsp_server.specs.Protocol.{method_named};

/// A method that the server knows.
#[derive(Clone, Copy, Debug, PartialEq, Eq)]
pub enum Method {
    Initialize,
    DidOpen,
    DidChange,
    DidClose,
    Hover,
    Definition,
    DocumentSymbol,
    ExpandMacro,
    CodeAction,
    Trace,
    Shutdown,
    Exit,
}

/// The method of a name, if the server knows it.
pub(crate) fn method_named(name: &str) -> Option<Method>
    ensures { result ≡ method_named name.now }
{
    match name {
        "initialize" => Some(Method::Initialize),
        "textDocument/didOpen" => Some(Method::DidOpen),
        "textDocument/didChange" => Some(Method::DidChange),
        "textDocument/didClose" => Some(Method::DidClose),
        "textDocument/hover" => Some(Method::Hover),
        "textDocument/definition" => Some(Method::Definition),
        "textDocument/documentSymbol" => Some(Method::DocumentSymbol),
        "rust-analyzer/expandMacro" => Some(Method::ExpandMacro),
        "textDocument/codeAction" => Some(Method::CodeAction),
        "filgordd/trace" => Some(Method::Trace),
        "shutdown" => Some(Method::Shutdown),
        "exit" => Some(Method::Exit),
        _ => None,
    }
}
