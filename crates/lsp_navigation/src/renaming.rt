//! Renaming.

use lsp_names::{Mention, is_name};
use lsp_program::{Host, Spot, View, put_comma, put_edit, put_span, put_text_member, text_at};
use lsp_wire::{Outcome, RpcError, put_string};
use serde_json::Value;
use std::alloc::{AllocError, Global};

/// `textDocument/prepareRename`: the name at a place, or null.
pub fn prepare_rename(alloc: Global, view: &View, spot: Spot) -> Result<Outcome, AllocError> {
    let Some(mention) = view.index.mention_at(spot.file, spot.offset) else {
        return Ok(Outcome::Answer(String::from_str(alloc, "null")?));
    };
    let mut out = String::from_str(alloc, "{\"range\":")?;
    put_span(alloc, view.span(mention.place), &mut out)?;
    put_text_member(
        alloc,
        "placeholder",
        view.index.name(mention.symbol),
        &mut out,
    )?;
    out.push_str("}")?;
    Ok(Outcome::Answer(out))
}

/// `textDocument/rename`. It is refused where the new name is no identifier or already occurs in one of the files, where the name is that of a built-in header,
/// and where the body of a macro may mean it.
pub fn rename(
    alloc: Global,
    view: &View,
    spot: Spot,
    params: &Value,
) -> Result<Outcome, AllocError> {
    let Some(name) = text_at(params, "/newName") else {
        return Ok(Outcome::Refused(RpcError::InvalidParams, RpcError::InvalidParams.text()));
    };
    let Some(mention) = view.index.mention_at(spot.file, spot.offset) else {
        return Ok(refused("there is no name here that is known"));
    };
    if let Some(why) = why_not(view, mention, name) {
        return Ok(refused(why));
    }
    Ok(Outcome::Answer(edits(alloc, view, mention.symbol, name)?))
}

fn refused(why: &'static str) -> Outcome {
    Outcome::Refused(RpcError::RequestFailed, why)
}

/// Why a symbol does not get a new name.
fn why_not(view: &View, mention: Mention, name: &str) -> Option<&'static str> {
    let symbol = view.index.symbols.get(mention.symbol)?;
    if !is_name(name) {
        return Some("the new name is no identifier");
    }
    if view.index.has_spelling(name) {
        return Some("the new name stands in the program already");
    }
    if view.uri(symbol.at.file).is_none() {
        return Some("the name is that of a built-in header");
    }
    if view.index.is_in_macros(symbol) {
        return Some("the body of a macro may mean the name");
    }
    None
}

/// A `WorkspaceEdit` that renames a symbol in all files.
fn edits(alloc: Global, view: &View, symbol: usize, name: &str) -> Result<String, AllocError> {
    let mut out = String::from_str(alloc, "{\"changes\":{")?;
    let begin = out.len();
    for number in 0..view.files.len() {
        if let Some(uri) = view.uri(number) {
            let list = edits_of(alloc, view, symbol, number, name)?;
            if !list.is_empty() {
                put_comma(begin, &mut out)?;
                put_string(alloc, uri, &mut out)?;
                out.push_str(":[")?;
                out.push_str(list.as_str())?;
                out.push_str("]")?;
            }
        }
    }
    out.push_str("}}")?;
    Ok(out)
}

/// The edits in a file, with commas between.
fn edits_of(
    alloc: Global,
    view: &View,
    symbol: usize,
    file: usize,
    name: &str,
) -> Result<String, AllocError> {
    let mut out = String::new(alloc);
    for mention in &view.index.mentions {
        if mention.symbol == symbol && mention.place.file == file {
            put_comma(0, &mut out)?;
            put_edit(alloc, view.span(mention.place), name, &mut out)?;
        }
    }
    Ok(out)
}
