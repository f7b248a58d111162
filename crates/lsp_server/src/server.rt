//! The state of a session.

use lsp_problems::Problem;
use lsp_program::{Host, OpenDocument, Options, View};
use lsp_wire::{Id, Message, RpcError, error_reply, read_message};
use std::alloc::{AllocError, Global};

/// How far a session has come.
#[derive(Clone, Copy, Debug, PartialEq, Eq)]
pub(crate) enum Phase {
    /// Before `initialize`.
    Fresh,
    Running,
    /// After `shutdown`.
    ShutDown,
    /// After `exit`, with this status of the process.
    Ended(u8),
}

/// A session with a client.
#[derive(Drop)]
pub struct Server<H> {
    pub(crate) alloc: Global,
    pub(crate) host: H,
    pub(crate) phase: Phase,
    pub(crate) options: Options,
    pub(crate) documents: Vec<OpenDocument>,
    /// The problems of the programs that are examined.
    pub(crate) problems: Vec<Problem>,
    /// The URIs of files for which the client has diagnostics.
    pub(crate) shown: Vec<String>,
    /// The program that was examined last, while nothing changes.
    pub(crate) view: Option<View>,
    /// The changes since programs were examined.
    pub(crate) changes: Vec<Change>,
    /// The messages that are to be sent.
    pub(crate) outbox: Vec<String>,
}

/// That a file changed, or is to be verified: its programs are examined before the response to the next request.
#[derive(Drop)]
pub(crate) struct Change {
    pub(crate) path: String,
    /// Whether they are verified.
    pub(crate) verifies: bool,
}

impl<H: Host + Drop> Server<H> {
    /// Begins a session.
    pub fn new(alloc: Global, host: H) -> Server<H> {
        Server {
            alloc,
            host,
            phase: Phase::Fresh,
            options: Options::usual(alloc),
            documents: Vec::new(alloc),
            problems: Vec::new(alloc),
            shown: Vec::new(alloc),
            view: None,
            changes: Vec::new(alloc),
            outbox: Vec::new(alloc),
        }
    }

    /// Takes the body of a message; returns the bodies of the messages that are to be sent. Whatever the client sends is answered as the
    /// protocol says. Fails where memory runs out.
    pub fn take(&mut self, body: &[u8]) -> Result<Vec<String>, AllocError> {
        match read_message(self.alloc, body)? {
            Message::Request(id, call) => self.request(&id, &call)?,
            Message::Notification(call) => self.notice(&call)?,
            Message::Reply => {}
            Message::Wrong(id, error) => self.refuse(&id, error, error.text())?,
        }
        Ok(self.sent())
    }

    /// Looks at the programs that changed; returns the bodies of the messages that are to be sent. It is called where no message waits, so that of
    /// several changes in a row only the last is examined.
    pub fn settle(&mut self) -> Result<Vec<String>, AllocError> {
        self.look_at_changes()?;
        Ok(self.sent())
    }

    /// Returns the message that says that a frame was wrong.
    pub fn wrong_frame(&mut self, text: &str) -> Result<Vec<String>, AllocError> {
        self.refuse(&Id::Null, RpcError::ParseError, text)?;
        Ok(self.sent())
    }

    /// The exit status of the process, where the client wants it to end.
    pub fn status(&self) -> Option<u8> {
        match self.phase {
            Phase::Ended(status) => Some(status),
            Phase::Fresh => None,
            Phase::Running => None,
            Phase::ShutDown => None,
        }
    }

    fn sent(&mut self) -> Vec<String> {
        std::mem::replace(&mut self.outbox, Vec::new(self.alloc))
    }

    pub(crate) fn send(&mut self, message: String) -> Result<(), AllocError> {
        self.outbox.push(message)?;
        Ok(())
    }

    pub(crate) fn refuse(
        &mut self,
        id: &Id,
        error: RpcError,
        text: &str,
    ) -> Result<(), AllocError> {
        let message = error_reply(self.alloc, id, error, text)?;
        self.send(message)
    }
}
