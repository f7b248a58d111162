//! The data that responses are made from.

use lsp_program::{Options, View};
use std::alloc::Global;

/// A program that a client's request is about, and the host, which knows of it.
#[derive(Drop)]
pub struct Inquiry<'a, H> {
    pub alloc: Global,
    pub host: &'a H,
    pub options: &'a Options,
    pub view: &'a View,
}
