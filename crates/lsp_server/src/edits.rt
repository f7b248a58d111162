//! Documents that the client opens, changes and closes.

use crate::server::Server;
use lsp_program::{Host, OpenDocument, path_of, span_of, text_at};
use lsp_text::{Document, Encoding};
use serde_json::Value;
use std::alloc::{AllocError, Global};

impl<H: Host + Drop> Server<H> {
    /// `textDocument/didOpen`. A document that is open already gets the new text.
    pub(crate) fn open(&mut self, params: &Value) -> Result<(), AllocError> {
        let (Some(uri), Some(text)) = (
            text_at(params, "/textDocument/uri"),
            text_at(params, "/textDocument/text"),
        ) else {
            return Ok(());
        };
        let document = Document::new(self.alloc, text.as_bytes())?;
        let uri = String::from_str(self.alloc, uri)?;
        let path = path_of(self.alloc, uri.as_str())?;
        self.remove(uri.as_str());
        let alloc = self.alloc;
        let changed = String::from_str(alloc, path.as_str())?;
        self.documents.push(OpenDocument {
            uri,
            path,
            document,
        })?;
        self.note_change(changed.as_str(), false)
    }

    /// `textDocument/didChange`: changes of ranges, or of the whole text, in their order.
    pub(crate) fn change(&mut self, params: &Value) -> Result<(), AllocError> {
        let Some(uri) = text_at(params, "/textDocument/uri") else {
            return Ok(());
        };
        let Some(number) = self.number_of(uri) else {
            return Ok(());
        };
        let Some(changes) = params.pointer("/contentChanges").and_then(Value::as_array) else {
            return Ok(());
        };
        if changes.is_empty() {
            return Ok(());
        }
        let alloc = self.alloc;
        let encoding = self.options.encoding;
        if let Some(open) = self.documents.get_mut(number) {
            for change in changes {
                change_document(alloc, encoding, &mut open.document, change)?;
            }
        }
        let path = path_of(alloc, uri)?;
        self.note_change(path.as_str(), false)
    }

    /// `textDocument/didClose`: the file on the disk counts.
    pub(crate) fn close(&mut self, params: &Value) -> Result<(), AllocError> {
        let Some(uri) = text_at(params, "/textDocument/uri") else {
            return Ok(());
        };
        self.remove(uri);
        let path = path_of(self.alloc, uri)?;
        self.note_change(path.as_str(), false)
    }

    /// The number of an open document.
    pub(crate) fn number_of(&self, uri: &str) -> Option<usize> {
        self.documents
            .iter()
            .position(|open| open.uri.as_str() == uri)
    }

    fn remove(&mut self, uri: &str) {
        if let Some(number) = self.number_of(uri) {
            if number < self.documents.len() {
                let _closed = self.documents.swap_remove(number);
            }
        }
    }
}

/// Makes one change in a document; one without a text is none.
fn change_document(
    alloc: Global,
    encoding: Encoding,
    document: &mut Document,
    change: &Value,
) -> Result<(), AllocError> {
    let Some(text) = text_at(change, "/text") else {
        return Ok(());
    };
    match change.pointer("/range").and_then(span_of) {
        Some(span) => document.replace(span, encoding, text.as_bytes()),
        None => {
            *document = Document::new(alloc, text.as_bytes())?;
            Ok(())
        }
    }
}
