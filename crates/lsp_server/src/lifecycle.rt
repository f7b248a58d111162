//! The beginning and the end of a session.

use crate::commands::VERIFY;
use crate::server::{Phase, Server};
use lsp_navigation::put_legend;
use lsp_program::{Host, Options, put_text_member};
use lsp_wire::{Outcome, RpcError, notification};
use serde_json::Value;
use std::alloc::AllocError;

impl<H: Host + Drop> Server<H> {
    /// `initialize`.
    pub(crate) fn initialize(&mut self, params: &Value) -> Result<Outcome, AllocError> {
        if self.phase != Phase::Fresh {
            return Ok(Outcome::Refused(
                RpcError::InvalidRequest,
                "the server is initialized already",
            ));
        }
        self.options = Options::of(self.alloc, params)?;
        self.phase = Phase::Running;
        self.tell_wrong_options()?;
        let mut out = String::from_str(self.alloc, "{\"capabilities\":{\"positionEncoding\":\"")?;
        out.push_str(self.options.encoding.name())?;
        out.push_str(
            "\",\"textDocumentSync\":{\"openClose\":true,\"change\":2,\"save\":true},\
             \"codeActionProvider\":{\"codeActionKinds\":[\"quickfix\"]},\"documentSymbolProvider\":true,\
             \"definitionProvider\":true,\"referencesProvider\":true,\"documentHighlightProvider\":true,\
             \"renameProvider\":{\"prepareProvider\":true},\"hoverProvider\":true,\"foldingRangeProvider\":true,\
             \"completionProvider\":{\"triggerCharacters\":[\"#\",\"\\\"\",\"<\",\"/\"]},\
             \"signatureHelpProvider\":{\"triggerCharacters\":[\"(\",\",\"]},\"inlayHintProvider\":true,\
             \"executeCommandProvider\":{\"commands\":[\"",
        )?;
        out.push_str(VERIFY)?;
        out.push_str("\"]},\"semanticTokensProvider\":{\"legend\":")?;
        put_legend(&mut out)?;
        out.push_str(",\"full\":true}},\"serverInfo\":{\"name\":\"zkc\"}}")?;
        Ok(Outcome::Answer(out))
    }

    /// Says which of the options `define` and `undefine` are no macros.
    fn tell_wrong_options(&mut self) -> Result<(), AllocError> {
        let wrong = std::mem::replace(&mut self.options.wrong, Vec::new(self.alloc));
        for text in wrong {
            let text = text.as_str();
            let said = format!(in self.alloc; "zkc: no macro, and left out: {text}")?;
            let mut params = String::from_str(self.alloc, "{\"type\":2")?;
            put_text_member(self.alloc, "message", said.as_str(), &mut params)?;
            params.push_str("}")?;
            let message = notification(self.alloc, "window/showMessage", params.as_str())?;
            self.send(message)?;
        }
        Ok(())
    }

    /// `shutdown`.
    pub(crate) fn shut_down(&mut self) -> Result<Outcome, AllocError> {
        self.phase = Phase::ShutDown;
        Ok(Outcome::Answer(String::from_str(self.alloc, "null")?))
    }

    /// `exit`: the status is 0 after `shutdown`, and else 1.
    pub(crate) fn exit(&mut self) {
        self.phase = match self.phase {
            Phase::ShutDown => Phase::Ended(0),
            Phase::Fresh => Phase::Ended(1),
            Phase::Running => Phase::Ended(1),
            Phase::Ended(status) => Phase::Ended(status),
        };
    }
}
