//! Answers and notifications.
ghost use Rattle.std.specs.Prelude.{◌≡◌, IfOk};
ghost use Rattle.serde_json.specs.Find.{of_integer};
ghost use Rattle.serde_json.specs.View.{view};
ghost use Rattle.rpc_messages.specs.Messages.{failure, notification, response};

use serde_json::{Value, json};
use std::alloc::{AllocError, Global};

/// The answer with this id and this result.
pub fn response(alloc: Global, id: &Value, answer: Value) -> Result<Value, AllocError>
    ensures { IfOk result (λ v. view v ≡ response (view id.now) (view answer)) }
{
    json!(in alloc; {"jsonrpc": "2.0", "id": id, "result": answer})
}

/// The answer with this id that tells of an error.
pub fn failure(alloc: Global, id: &Value, code: i64, message: &str) -> Result<Value, AllocError>
    ensures { IfOk result (λ v. view v
        ≡ failure (view id.now) (of_integer code) message.now) }
{
    json!(in alloc; {"jsonrpc": "2.0", "id": id, "error": {"code": code, "message": message}})
}

/// A notification.
pub fn notification(alloc: Global, method: &str, params: Value) -> Result<Value, AllocError>
    ensures { IfOk result (λ v. view v ≡ notification method.now (view params)) }
{
    json!(in alloc; {"jsonrpc": "2.0", "method": method, "params": params})
}
