//! The statuses of a run over files.

ghost use Rattle.std.specs.Prelude.{◌≡◌, max};
ghost use Rattle.wgsl_files.specs.Statuses.{code_of};

/// The status with which a run ends. Of two that are called for the later one here holds.
#[derive(Clone, Copy, Debug, PartialEq, Eq)]
pub enum Status {
    Success,
    /// A file would change.
    WouldChange,
    /// The arguments are no command.
    Usage,
    /// A text is refused.
    Refused,
    /// A file could not be read or written.
    Failed,
    /// An allocation failed, or a text nests too deep.
    OutOfMemory,
}

impl Status {
    /// Returns the number that a process ends with.
    pub fn code(self) -> u8
        ensures { result ≡ code_of self }
    {
        match self {
            Status::Success => 0,
            Status::WouldChange => 1,
            Status::Usage => 2,
            Status::Refused => 3,
            Status::Failed => 4,
            Status::OutOfMemory => 5,
        }
    }

    /// Returns the higher of two.
    pub fn or(self, other: Status) -> Status
        ensures { code_of result ≡ max (code_of self) (code_of other) }
    {
        if self.code() < other.code() {
            other
        } else {
            self
        }
    }
}
