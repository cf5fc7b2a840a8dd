//! What the server says that it can.

use serde_json::{Value, json};
use std::alloc::{AllocError, Global};

/// What the server answers when it is initialized: that columns are counted in UTF-16, changes come
/// in ranges, and which questions it answers.
pub(crate) fn capabilities(alloc: Global) -> Result<Value, AllocError> {
    json!(in alloc; {
        "serverInfo": {"name": "filgordd", "version": "0.1.0"},
        "capabilities": {
            "positionEncoding": "utf-16",
            "textDocumentSync": {"openClose": true, "change": 2},
            "hoverProvider": true,
            "definitionProvider": true,
            "documentSymbolProvider": true,
            "codeActionProvider": {"codeActionKinds": ["refactor.inline"]}
        }
    })
}
