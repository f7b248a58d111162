//! Documents that the client has open.

use lsp_text::Document;

/// A document that the client has open.
#[derive(Drop)]
pub struct OpenDocument {
    pub uri: String,
    pub path: String,
    pub document: Document,
}
