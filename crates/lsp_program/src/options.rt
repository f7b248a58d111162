//! The settings of the client and of the program, which a client sends when a session begins.

use crate::definitions::{is_definition, is_macro_name};
use crate::params::{flag_at, number_at, text_at};
use crate::paths::{joined, path_of};
use lsp_text::Encoding;
use serde_json::Value;
use std::alloc::{AllocError, Global};

/// The stack of a program where no other is named, in bytes.
const USUAL_STACK: u32 = 1_048_576;

/// The options of a session.
#[derive(Drop)]
pub struct Options {
    pub encoding: Encoding,
    /// The folders that are searched for includes.
    pub folders: Vec<String>,
    /// The path of the main file; empty where each open file that no other includes is one.
    pub main: String,
    /// The macros that are defined, as `NAME`, `NAME=VALUE` or `NAME(PARAMETERS)=VALUE`, and those that are left out.
    pub defined: Vec<String>,
    pub undefined: Vec<String>,
    /// The entries of the options that are no macros.
    pub wrong: Vec<String>,
    /// The bytes of the stack.
    pub stack: u32,
    /// Whether a file that is saved is verified.
    pub verifies: bool,
}

impl Options {
    /// The options of a client that sends none.
    pub fn usual(alloc: Global) -> Options {
        Options {
            encoding: Encoding::Utf16,
            folders: Vec::new(alloc),
            main: String::new(alloc),
            defined: Vec::new(alloc),
            undefined: Vec::new(alloc),
            wrong: Vec::new(alloc),
            stack: USUAL_STACK,
            verifies: true,
        }
    }

    /// The options in the parameters of `initialize`.
    pub fn of(alloc: Global, params: &Value) -> Result<Options, AllocError> {
        let root = root_of(alloc, params)?;
        let mut options = Options::usual(alloc);
        options.encoding = encoding_of(params);
        options.folders = folders_of(alloc, root.as_str(), params)?;
        if let Some(main) = text_at(params, "/initializationOptions/main") {
            options.main = joined(alloc, root.as_str(), main)?;
        }
        options.put_macros(alloc, params)?;
        options.stack = number_at(params, "/initializationOptions/stack").unwrap_or(USUAL_STACK);
        options.verifies = flag_at(params, "/initializationOptions/verify").unwrap_or(true);
        Ok(options)
    }

    /// Whether there are macros.
    pub fn has_macros(&self) -> bool {
        !self.defined.is_empty() || !self.undefined.is_empty()
    }

    /// Reads the options `define` and `undefine`.
    fn put_macros(&mut self, alloc: Global, params: &Value) -> Result<(), AllocError> {
        for text in texts_at(alloc, params, "/initializationOptions/define")? {
            if is_definition(text.as_str()) {
                self.defined.push(text)?;
            } else {
                self.wrong.push(text)?;
            }
        }
        for text in texts_at(alloc, params, "/initializationOptions/undefine")? {
            if is_macro_name(text.as_str()) {
                self.undefined.push(text)?;
            } else {
                self.wrong.push(text)?;
            }
        }
        Ok(())
    }
}

/// The folder of the workspace; empty where the client names none.
fn root_of(alloc: Global, params: &Value) -> Result<String, AllocError> {
    if let Some(uri) = text_at(params, "/workspaceFolders/0/uri") {
        return path_of(alloc, uri);
    }
    if let Some(uri) = text_at(params, "/rootUri") {
        return path_of(alloc, uri);
    }
    String::from_str(alloc, text_at(params, "/rootPath").unwrap_or_default())
}

/// The units of positions: UTF-8 where the client has it, and else UTF-16.
fn encoding_of(params: &Value) -> Encoding {
    let offered = params
        .pointer("/capabilities/general/positionEncodings")
        .and_then(Value::as_array);
    let Some(offered) = offered else {
        return Encoding::Utf16;
    };
    for encoding in offered {
        if encoding.as_str() == Some("utf-8") {
            return Encoding::Utf8;
        }
    }
    Encoding::Utf16
}

/// The folders of the option `include`.
fn folders_of(alloc: Global, root: &str, params: &Value) -> Result<Vec<String>, AllocError> {
    let mut folders = Vec::new(alloc);
    for folder in texts_at(alloc, params, "/initializationOptions/include")? {
        folders.push(joined(alloc, root, folder.as_str())?)?;
    }
    Ok(folders)
}

/// The texts in the array at a pointer; other values are skipped.
fn texts_at(alloc: Global, params: &Value, pointer: &str) -> Result<Vec<String>, AllocError> {
    let mut texts = Vec::new(alloc);
    let Some(listed) = params.pointer(pointer).and_then(Value::as_array) else {
        return Ok(texts);
    };
    for text in listed {
        if let Some(text) = text.as_str() {
            texts.push(String::from_str(alloc, text)?)?;
        }
    }
    Ok(texts)
}
