//! The base of the Language Server Protocol: frames, messages, replies and the life of a server.
#![tactic(auto)]

mod dispatch;
mod error;
mod frame;
mod front;
mod head;
mod message;
mod phase;
mod reader;
mod reply;

pub use dispatch::{Life, Service};
pub use error::ErrorCode;
pub use frame::{framed, send};
pub use front::Front;
pub use message::Message;
pub use phase::{Phase, Step};
pub use reader::{Frame, FrameReader};
pub use reply::{Outcome, failure, notification, reply_of, success};
