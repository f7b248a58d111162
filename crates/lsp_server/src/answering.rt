//! The handlers of requests and notifications.

use crate::server::{Phase, Server};
use lsp_help::{Inquiry, Interval, completion, hover};
use lsp_navigation::{
    definition, document_symbols, folding_ranges, highlights, inlay_hints, prepare_rename,
    references, rename, semantic_tokens, signature_help,
};
use lsp_problems::code_actions;
use lsp_program::{Host, Spot, View, is_part, path_of, place_of, text_at};
use lsp_text::{Position, Span};
use lsp_wire::{Call, Id, Outcome, RpcError, result_reply};
use serde_json::Value;
use std::alloc::{AllocError, Global};

/// The request for a command.
const COMMAND: &str = "workspace/executeCommand";

impl<H: Host + Drop> Server<H> {
    /// Responds to a request.
    pub(crate) fn request(&mut self, id: &Id, call: &Call) -> Result<(), AllocError> {
        if self.phase == Phase::Running && call.method.as_str() == COMMAND {
            self.note_command(&call.params)?;
        }
        self.look_at_changes()?;
        let outcome = match self.phase {
            Phase::Fresh if call.method.as_str() != "initialize" => {
                Outcome::Refused(RpcError::NotInitialized, RpcError::NotInitialized.text())
            }
            Phase::Fresh | Phase::Running => self.outcome(call)?,
            Phase::ShutDown | Phase::Ended(_) => {
                Outcome::Refused(RpcError::InvalidRequest, "the server is shut down")
            }
        };
        match outcome {
            Outcome::Answer(answer) => {
                let message = result_reply(self.alloc, id, answer.as_str())?;
                self.send(message)
            }
            Outcome::Refused(error, text) => self.refuse(id, error, text),
        }
    }

    /// Takes a notification; one that is not known is passed over.
    pub(crate) fn notice(&mut self, call: &Call) -> Result<(), AllocError> {
        let method = call.method.as_str();
        if method == "exit" {
            self.exit();
            return Ok(());
        }
        if self.phase != Phase::Running {
            return Ok(());
        }
        match method {
            "textDocument/didOpen" => self.open(&call.params),
            "textDocument/didChange" => self.change(&call.params),
            "textDocument/didClose" => self.close(&call.params),
            "textDocument/didSave" => self.save(&call.params),
            _ => Ok(()),
        }
    }

    fn save(&mut self, params: &Value) -> Result<(), AllocError> {
        let Some(uri) = text_at(params, "/textDocument/uri") else {
            return Ok(());
        };
        let path = path_of(self.alloc, uri)?;
        self.note_change(path.as_str(), self.options.verifies)
    }

    /// The response to a request.
    fn outcome(&mut self, call: &Call) -> Result<Outcome, AllocError> {
        match call.method.as_str() {
            "initialize" => self.initialize(&call.params),
            "shutdown" => self.shut_down(),
            "textDocument/codeAction" => code_actions(
                self.alloc,
                self.problems.as_slice(),
                &call.params,
            ),
            COMMAND => self.command(&call.params),
            method => self.about_names(method, &call.params),
        }
    }

    /// Requests about the names of a program.
    fn about_names(&mut self, method: &str, params: &Value) -> Result<Outcome, AllocError> {
        if !is_about_names(method) {
            return Ok(Outcome::Refused(RpcError::MethodNotFound, RpcError::MethodNotFound.text()));
        }
        let Some(uri) = text_at(params, "/textDocument/uri") else {
            return Ok(invalid());
        };
        let path = path_of(self.alloc, uri)?;
        self.look_for_names(path.as_str())?;
        let Some(view) = &self.view else {
            return Ok(invalid());
        };
        let Some(file) = view.number(path.as_str()) else {
            return Ok(invalid());
        };
        if is_about_a_file(method) {
            return about_file(self.alloc, view, method, params, file);
        }
        let Some((_, position)) = place_of(params) else {
            return Ok(invalid());
        };
        let spot = spot_at(view, file, position);
        if is_for_help(method) {
            return self.help(view, method, spot);
        }
        about_spot(self.alloc, view, method, params, spot)
    }

    /// Requests for texts or completions at a place.
    fn help<'a>(&'a self, view: &'a View, method: &str, spot: Spot) -> Result<Outcome, AllocError> {
        let inquiry = Inquiry {
            alloc: self.alloc,
            host: &self.host,
            options: &self.options,
            view,
        };
        if method == "textDocument/hover" {
            return hover(&inquiry, spot, self.interval_at(view, spot));
        }
        completion(&inquiry, spot)
    }

    /// The result of the analysis for a place.
    fn interval_at(&self, view: &View, spot: Spot) -> Option<Interval<'_>> {
        let uri = view.uri(spot.file)?;
        let problem = self.problems.iter().find(|problem| !problem.interval.is_empty()
            && problem.uri.as_str() == uri
            && is_at(view, problem.span, spot))?;
        Some(Interval {
            span: problem.span,
            title: problem.title(),
            numbers: problem.interval.as_str(),
        })
    }

    /// Looks at the program that has the file at a path: one of those with a main file, or else that of the file alone.
    fn look_for_names(&mut self, path: &str) -> Result<(), AllocError> {
        if let Some(view) = &self.view {
            if view.number(path).is_some() {
                return Ok(());
            }
        }
        self.view = None;
        let encoding = self.options.encoding;
        let programs = self.programs()?;
        for (number, program) in programs.iter().enumerate() {
            if program.has_path(path) && !is_part(programs.as_slice(), number) {
                let files = self.files_of(program.root())?;
                self.view = Some(View::of(self.alloc, files, encoding)?);
                return Ok(());
            }
        }
        let files = self.files_of(path)?;
        self.view = Some(View::of(self.alloc, files, encoding)?);
        Ok(())
    }
}

/// Requests about a whole file.
fn about_file(
    alloc: Global,
    view: &View,
    method: &str,
    params: &Value,
    file: usize,
) -> Result<Outcome, AllocError> {
    match method {
        "textDocument/documentSymbol" => document_symbols(alloc, view, file),
        "textDocument/foldingRange" => folding_ranges(alloc, view, file),
        "textDocument/semanticTokens/full" => semantic_tokens(alloc, view, file),
        _ => inlay_hints(alloc, view, file, params),
    }
}

/// Requests about the token at a place.
fn about_spot(
    alloc: Global,
    view: &View,
    method: &str,
    params: &Value,
    spot: Spot,
) -> Result<Outcome, AllocError> {
    match method {
        "textDocument/definition" => definition(alloc, view, spot),
        "textDocument/references" => references(alloc, view, spot, params),
        "textDocument/documentHighlight" => highlights(alloc, view, spot),
        "textDocument/prepareRename" => prepare_rename(alloc, view, spot),
        "textDocument/rename" => rename(alloc, view, spot, params),
        _ => signature_help(alloc, view, spot),
    }
}

/// Whether a place is in a range, or directly after it.
fn is_at(view: &View, span: Span, spot: Spot) -> bool {
    view.offset(spot.file, span.start) <= spot.offset
        && spot.offset <= view.offset(spot.file, span.end)
}

fn invalid() -> Outcome {
    Outcome::Refused(RpcError::InvalidParams, RpcError::InvalidParams.text())
}

fn spot_at(view: &View, file: usize, position: Position) -> Spot {
    Spot {
        file,
        offset: view.offset(file, position),
    }
}

fn is_about_a_file(method: &str) -> bool {
    matches!(
        method,
        "textDocument/documentSymbol"
            | "textDocument/foldingRange"
            | "textDocument/semanticTokens/full"
            | "textDocument/inlayHint"
    )
}

fn is_for_help(method: &str) -> bool {
    matches!(method, "textDocument/hover" | "textDocument/completion")
}

fn is_about_names(method: &str) -> bool {
    is_about_a_file(method)
        || is_for_help(method)
        || matches!(
            method,
            "textDocument/definition"
                | "textDocument/references"
                | "textDocument/documentHighlight"
                | "textDocument/prepareRename"
                | "textDocument/rename"
                | "textDocument/signatureHelp"
        )
}
