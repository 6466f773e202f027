//! What is sent to a client.

ghost use Rattle.std.specs.Prelude.{◌≡◌, IfOk};
ghost use Rattle.serde_json.specs.View.{view};
ghost use Rattle.wgsl_server_protocol.specs.Replies as plain;

use crate::error::ErrorCode;
use serde_json::{Value, json};
use std::alloc::{AllocError, Global};

/// What a request comes to.
#[derive(Drop)]
pub enum Outcome {
    /// Its result.
    Done(Value),
    /// An error with its message.
    Failed(ErrorCode, String),
    /// There is no such method.
    Unknown,
}

/// Returns the reply to a request.
pub fn reply_of(alloc: Global, id: &Value, outcome: &Outcome) -> Result<Value, AllocError>
    ensures { IfOk result (λ reply. view reply ≡ plain.reply_of (view id.now) (plain.outcome_view outcome.now)) }
{
    match outcome {
        Outcome::Done(content) => success(alloc, id, content),
        Outcome::Failed(code, text) => failure(alloc, id, *code, text.as_str()),
        Outcome::Unknown => failure(alloc, id, ErrorCode::MethodNotFound, "unknown method"),
    }
}

/// Returns the reply to a request with its result.
pub fn success(alloc: Global, id: &Value, content: &Value) -> Result<Value, AllocError>
    ensures { IfOk result (λ reply. view reply ≡ plain.success (view id.now) (view content.now)) }
{
    json!(in alloc; {"jsonrpc": "2.0", "id": id, "result": content})
}

/// Returns the reply to a request with an error.
pub fn failure(alloc: Global, id: &Value, code: ErrorCode, text: &str) -> Result<Value, AllocError>
    ensures { IfOk result (λ reply. view reply ≡ plain.failure (view id.now) code text.now) }
{
    let number = code.number();
    json!(in alloc; {"jsonrpc": "2.0", "id": id, "error": {"code": number, "message": text}})
}

/// Returns a notification of the server.
pub fn notification(alloc: Global, method: &str, params: &Value) -> Result<Value, AllocError>
    ensures { IfOk result (λ message. view message ≡ plain.notification method.now (view params.now)) }
{
    json!(in alloc; {"jsonrpc": "2.0", "method": method, "params": params})
}
