//! Files rewritten where they are: each has the text that its own becomes, or is unchanged.
#![tactic(auto)]

mod error;
mod file;
mod folder;
mod format;
mod host;
mod memory;
mod status;
mod store;
mod walk;

pub use error::FileError;
pub use file::{Mode, Rewritten, rewrite};
pub use format::{Format, FormatError, Refusal};
pub use host::HostStore;
pub use memory::MemoryStore;
pub use status::Status;
pub use store::{Store, StoreError};
