//! Commands (`workspace/executeCommand`).

use crate::server::Server;
use lsp_program::{Host, path_of, text_at};
use lsp_wire::{Outcome, RpcError};
use serde_json::Value;
use std::alloc::AllocError;

/// Has the programs with a file verified, with their texts in the editor; its argument is the URI of the file.
pub(crate) const VERIFY: &str = "zikorape.verify";

impl<H: Host + Drop> Server<H> {
    /// Notes that the programs with the file of a command are to be verified when changes are examined.
    pub(crate) fn note_command(&mut self, params: &Value) -> Result<(), AllocError> {
        let Some(uri) = verified_file(params) else {
            return Ok(());
        };
        let path = path_of(self.alloc, uri)?;
        self.note_change(path.as_str(), true)
    }

    /// Responds to a command, after changes were examined.
    pub(crate) fn command(&self, params: &Value) -> Result<Outcome, AllocError> {
        if verified_file(params).is_none() {
            return Ok(Outcome::Refused(RpcError::InvalidParams, RpcError::InvalidParams.text()));
        }
        Ok(Outcome::Answer(String::from_str(self.alloc, "null")?))
    }
}

/// The URI of the file that is to be verified; `None` where this is no such command.
fn verified_file(params: &Value) -> Option<&str> {
    if text_at(params, "/command")? != VERIFY {
        return None;
    }
    text_at(params, "/arguments/0")
}
