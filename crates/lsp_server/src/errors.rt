//! Answers that tell of errors.
ghost use Rattle.std.specs.Prelude.{◌≡◌, IfOk};
ghost use Rattle.serde_json.specs.View.{view};
ghost use Rattle.lsp_server.specs.Steps.{error, number_of, words_of};

use crate::phase::ErrorCode;
use rpc_messages::failure;
use serde_json::Value;
use std::alloc::{AllocError, Global};

fn number_of(code: ErrorCode) -> i64
    ensures { result ≡ number_of code }
{
    match code {
        ErrorCode::NoJson => -32700,
        ErrorCode::InvalidRequest => -32600,
        ErrorCode::NotInitialized => -32002,
        ErrorCode::UnknownMethod => -32601,
        ErrorCode::InvalidParams => -32602,
        ErrorCode::Failed => -32803,
    }
}

fn words_of(code: ErrorCode) -> &'static str
    ensures { result.now ≡ words_of code }
{
    match code {
        ErrorCode::NoJson => "no JSON",
        ErrorCode::InvalidRequest => "no request, or not wanted now",
        ErrorCode::NotInitialized => "not initialized",
        ErrorCode::UnknownMethod => "unknown method",
        ErrorCode::InvalidParams => "parameters of another form, or no such document",
        ErrorCode::Failed => "out of memory",
    }
}

/// The answer with this id that tells of an error.
pub(crate) fn error(alloc: Global, id: &Value, code: ErrorCode) -> Result<Value, AllocError>
    ensures { IfOk result (λ v. view v ≡ error code (view id.now)) }
{
    failure(alloc, id, number_of(code), words_of(code))
}
