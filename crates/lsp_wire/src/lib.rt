//! The wire of the Language Server Protocol: frames with a `Content-Length`, and messages of JSON-RPC 2.0 in them.
#![tactic(auto)]

mod framing;
mod json_text;
mod message;
mod reply;

pub use framing::{Frame, Inbox, MAX_BODY_BYTES, MAX_HEADER_BYTES, framed};
pub use json_text::{put_number, put_string};
pub use message::{Call, Id, Message, read_message};
pub use reply::{Outcome, RpcError, error_reply, notification, result_reply};
