//! The life of a server.

ghost use Rattle.std.specs.Prelude.{◌≡◌};
ghost use Rattle.wgsl_server_protocol.specs.Phases as plain;

use crate::error::ErrorCode;

/// What came so far.
#[derive(Clone, Copy, Debug, PartialEq, Eq)]
pub enum Phase {
    /// No `initialize`.
    Starting,
    /// `initialize`, and no `shutdown`.
    Running,
    /// `shutdown`.
    Stopped,
}

/// What a server does with a notification.
#[derive(Clone, Copy, Debug, PartialEq, Eq)]
pub enum Step {
    Handle,
    Ignore,
    /// The server ends. Its status is a success if it was shut down.
    Exit(bool),
}

impl Phase {
    /// Returns the error of a request that is not handled.
    pub fn refusal(self, method: &str) -> Option<ErrorCode>
        ensures { result ≡ plain.refusal self method.now }
    {
        match self {
            Phase::Starting if method == "initialize" => None,
            Phase::Starting => Some(ErrorCode::ServerNotInitialized),
            Phase::Running if method == "initialize" => Some(ErrorCode::InvalidRequest),
            Phase::Running => None,
            Phase::Stopped => Some(ErrorCode::InvalidRequest),
        }
    }

    /// Returns what a server does with a notification.
    pub fn notification_step(self, method: &str) -> Step
        ensures { result ≡ plain.notification_step self method.now }
    {
        if method == "exit" {
            return Step::Exit(matches!(self, Phase::Stopped));
        }
        match self {
            Phase::Running => Step::Handle,
            Phase::Starting | Phase::Stopped => Step::Ignore,
        }
    }

    /// Returns the phase after a request.
    pub fn after_request(self, method: &str) -> Phase
        ensures { result ≡ plain.after_request self method.now }
    {
        match self {
            Phase::Starting if method == "initialize" => Phase::Running,
            Phase::Running if method == "shutdown" => Phase::Stopped,
            _ => self,
        }
    }
}
