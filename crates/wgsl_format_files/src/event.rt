//! What comes of a text, and what is reported of it.

ghost use Rattle.std.specs.Prelude.{◌≡◌};
ghost use Rattle.std.specs.Option.{option_copied};
ghost use Rattle.wgsl_format_files.specs.Events.{status_of, is_changed, is_failed};
ghost use Rattle.wgsl_format_files.specs.Events.{shown_by, message_of, pair_copied};

use wgsl_files::{Refusal, Status};

/// The outcome of the text of a file, or of the standard input.
#[derive(Debug, Drop)]
pub enum Event {
    /// Its text is the formatted one.
    Unchanged,
    /// The file has the formatted text now.
    Formatted,
    /// The formatted text, which is for the output.
    Printed(Vec<u8>),
    /// It would change, and this shows it.
    WouldChange(Vec<u8>),
    /// The text is refused; the message is what follows the name of its file.
    Refused(Refusal),
    /// Why it could not be read or written.
    Failed(String),
    OutOfMemory,
}

impl Event {
    /// Returns the status that it calls for.
    pub fn status(&self) -> Status
        ensures { result ≡ status_of self.now }
    {
        match self {
            Event::Unchanged | Event::Formatted | Event::Printed(_) => Status::Success,
            Event::WouldChange(_) => Status::WouldChange,
            Event::Refused(refusal) => refusal.status,
            Event::Failed(_) => Status::Failed,
            Event::OutOfMemory => Status::OutOfMemory,
        }
    }

    /// Returns whether the text changes, or would.
    pub fn is_changed(&self) -> bool
        ensures { result ≡ is_changed self.now }
    {
        matches!(
            self,
            Event::Formatted | Event::Printed(_) | Event::WouldChange(_)
        )
    }

    /// Returns whether it is an error.
    pub fn is_failed(&self) -> bool
        ensures { result ≡ is_failed self.now }
    {
        matches!(
            self,
            Event::Refused(_) | Event::Failed(_) | Event::OutOfMemory
        )
    }

    /// Returns what the output is to have of it.
    pub fn shown(&self) -> &[u8]
        ensures { result.now ≡ shown_by self.now }
    {
        match self {
            Event::Printed(text) | Event::WouldChange(text) => text.as_slice(),
            _ => b"",
        }
    }

    /// Returns what follows the name of its file in the message, in two parts.
    pub fn message(&self) -> Option<(&str, &str)>
        ensures { pair_copied result ≡ message_of self.now }
    {
        match self {
            Event::Refused(refusal) => Some(("", refusal.message.as_str())),
            Event::Failed(reason) => Some((": error: ", reason.as_str())),
            Event::OutOfMemory => Some((": error: ", "out of memory")),
            _ => None,
        }
    }
}
