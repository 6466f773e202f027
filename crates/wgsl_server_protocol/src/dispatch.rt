//! Messages, each passed on by what it is, and their replies.

ghost use Rattle.std.specs.Prelude.{IfOk};
ghost use Rattle.std.specs.Option.{option_map};
ghost use Rattle.serde_json.specs.View.{view};
ghost use Rattle.wgsl_server_protocol.specs.Dispatch.{IsReply, IsReplyTo};
ghost use Rattle.wgsl_server_protocol.specs.Messages.{kind_of};

use crate::error::ErrorCode;
use crate::message::Message;
use crate::phase::{Phase, Step};
use crate::reply::{Outcome, failure, reply_of};
use serde_json::Value;
use std::alloc::{AllocError, Global};

/// What handles the methods of a server.
pub trait Service {
    /// Handles a request.
    fn request(
        &mut self,
        alloc: Global,
        method: &str,
        params: Option<&Value>,
    ) -> Result<Outcome, AllocError>;

    /// Handles a notification.
    fn notify(
        &mut self,
        alloc: Global,
        method: &str,
        params: Option<&Value>,
    ) -> Result<(), AllocError>;
}

/// The life of a server: what came so far, and whether `exit` came.
#[derive(Clone, Copy, Debug, PartialEq, Eq)]
pub struct Life {
    pub phase: Phase,
    /// With `exit`: whether the server was shut down before.
    pub ended: Option<bool>,
}

impl Life {
    /// Passes a message on to a service, and returns the reply to it, which only a request and what
    /// is no message get.
    pub fn receive<S: Service>(
        &mut self,
        alloc: Global,
        service: &mut S,
        value: &Value,
    ) -> Result<Option<Value>, AllocError>
        ensures { IfOk result (λ reply. IsReplyTo (kind_of (view value.now)) (option_map view reply)) }
    {
        let params = value.get("params");
        match Message::of(value) {
            Message::Request(id, method) => {
                let reply = self.request(alloc, service, id, method, params)?;
                Ok(Some(reply))
            }
            Message::Notification(method) => {
                self.notify(alloc, service, method, params)?;
                Ok(None)
            }
            Message::Response => Ok(None),
            Message::Invalid => {
                let code = ErrorCode::InvalidRequest;
                let reply = failure(alloc, &Value::Null, code, "no message")?;
                Ok(Some(reply))
            }
        }
    }

    /// Returns the reply to a request.
    fn request<S: Service>(
        &mut self,
        alloc: Global,
        service: &mut S,
        id: &Value,
        method: &str,
        params: Option<&Value>,
    ) -> Result<Value, AllocError>
        ensures { IfOk result (λ reply. IsReply (view id.now) (view reply)) }
    {
        let outcome = self.outcome_of(alloc, service, method, params)?;
        reply_of(alloc, id, &outcome)
    }

    /// Returns what a request comes to. One that is refused is not passed on.
    fn outcome_of<S: Service>(
        &mut self,
        alloc: Global,
        service: &mut S,
        method: &str,
        params: Option<&Value>,
    ) -> Result<Outcome, AllocError> {
        if let Some(code) = self.phase.refusal(method) {
            let text = String::from_str(alloc, "not now")?;
            return Ok(Outcome::Failed(code, text));
        }
        let outcome = service.request(alloc, method, params)?;
        self.phase = self.phase.after_request(method);
        Ok(outcome)
    }

    /// Passes a notification on, or ends the life of the server.
    fn notify<S: Service>(
        &mut self,
        alloc: Global,
        service: &mut S,
        method: &str,
        params: Option<&Value>,
    ) -> Result<(), AllocError> {
        match self.phase.notification_step(method) {
            Step::Handle => service.notify(alloc, method, params),
            Step::Ignore => Ok(()),
            Step::Exit(stopped) => {
                self.ended = Some(stopped);
                Ok(())
            }
        }
    }
}
