//! What a message is.

ghost use Rattle.std.specs.Prelude.{◌≡◌, codes};
ghost use Rattle.serde_json.specs.View.{view};
ghost use Rattle.serde_json.specs.Find.{get};
ghost use Rattle.wgsl_server_protocol.specs.Messages as plain;

use serde_json::Value;

/// A message of a client.
#[derive(Clone, Copy)]
pub enum Message<'a> {
    /// It gets a reply, with this id.
    Request(&'a Value, &'a str),
    /// It gets none.
    Notification(&'a str),
    /// The reply to a request of the server.
    Response,
    /// It is none of these.
    Invalid,
}

impl<'a> Message<'a> {
    /// Returns what a value is as a message.
    pub fn of(value: &'a Value) -> Message<'a>
        ensures { plain.message_view result ≡ plain.kind_of (view value.now) }
    {
        match value.get("method").and_then(Value::as_str) {
            Some(method) => match value.get("id") {
                Some(id) => Message::Request(id, method),
                None => Message::Notification(method),
            },
            None if is_response(value) => Message::Response,
            None => Message::Invalid,
        }
    }
}

/// Returns whether a value has an id, and a result or an error.
fn is_response(value: &Value) -> bool
    ensures { result ≡ plain.is_response (view value.now) }
{
    value.get("id").is_some() && (value.get("result").is_some() || value.get("error").is_some())
}
