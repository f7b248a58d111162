//! The loop of the server: bytes from standard input, messages to standard output.

use crate::console::Console;
use cli_io::{say, say_memory, say_unwritten, unread};
use lsp_server::Server;
use lsp_wire::{Frame, Inbox, framed};
use srcset::write_text;
use std::alloc::AllocError;
use std::io::{Read, Write};

/// How many bytes are read at once.
const PIECE: usize = 16_384;

/// Why a session ends early.
#[derive(Clone, Copy, Debug, PartialEq, Eq)]
enum Stop {
    Memory,
    /// Standard output takes nothing more.
    Unwritten,
}

impl From<AllocError> for Stop {
    fn from(_error: AllocError) -> Stop {
        Stop::Memory
    }
}

/// Runs a session until the client ends it, or its input ends; returns the exit status: that of `exit`, and 1 where none came.
pub fn serve(rt: &HostRuntime) -> u8 {
    let mut server = Server::new(rt.alloc(), Console { rt });
    let mut inbox = Inbox::new(rt.alloc());
    let mut piece = [0u8; PIECE];
    for _ in 0..u64::MAX {
        let count = match rt.stdin().read(&mut piece) {
            Ok(count) => count,
            Err(error) => return say(rt, &unread(rt.alloc(), "", &error)),
        };
        if count == 0 {
            return 1;
        }
        match feed(
            rt,
            &mut server,
            &mut inbox,
            piece.get(..count).unwrap_or_default(),
        ) {
            Ok(None) => {}
            Ok(Some(status)) => return status,
            Err(Stop::Memory) => return say_memory(rt),
            Err(Stop::Unwritten) => return say_unwritten(rt, ""),
        }
    }
    1
}

/// Takes bytes of the client; returns the exit status, where the session ends. Changes are examined when no whole message is left.
fn feed(
    rt: &HostRuntime,
    server: &mut Server<Console<'_>>,
    inbox: &mut Inbox,
    bytes: &[u8],
) -> Result<Option<u8>, Stop> {
    inbox.put(bytes)?;
    // Each frame takes bytes of the inbox, so that there are no more frames than bytes.
    for _ in 0..u64::MAX {
        let Some(frame) = inbox.take()? else {
            put_messages(rt, server.settle()?.as_slice())?;
            return Ok(None);
        };
        let messages = match frame {
            Frame::Body(body) => server.take(body.as_slice())?,
            Frame::WrongHeader => server.wrong_frame("the header has no Content-Length")?,
            Frame::TooLong => server.wrong_frame("the message is too long")?,
        };
        put_messages(rt, messages.as_slice())?;
        if let Some(status) = server.status() {
            return Ok(Some(status));
        }
    }
    Ok(None)
}

/// Writes messages, each in a frame.
fn put_messages(rt: &HostRuntime, messages: &[String]) -> Result<(), Stop> {
    for message in messages {
        let frame = framed(rt.alloc(), message.as_str())?;
        if !write_text(&mut rt.stdout(), frame.as_bytes()) {
            return Err(Stop::Unwritten);
        }
    }
    if rt.stdout().flush().is_err() {
        return Err(Stop::Unwritten);
    }
    Ok(())
}
