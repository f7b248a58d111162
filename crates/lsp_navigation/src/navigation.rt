//! Where names are declared and used.

use lsp_names::{Mention, Place, Role};
use lsp_program::{Host, Spot, View, flag_at, put_comma, put_location, put_span};
use lsp_wire::Outcome;
use serde_json::Value;
use std::alloc::{AllocError, Global};

/// `textDocument/definition`: the definition of a name, or else its first declaration; the file of an `#include`.
pub fn definition(alloc: Global, view: &View, spot: Spot) -> Result<Outcome, AllocError> {
    let mut out = String::from_str(alloc, "[")?;
    if let Some(place) = target(view, spot) {
        put_place(alloc, view, place, 1, &mut out)?;
    }
    out.push_str("]")?;
    Ok(Outcome::Answer(out))
}

/// `textDocument/references`.
pub fn references(
    alloc: Global,
    view: &View,
    spot: Spot,
    params: &Value,
) -> Result<Outcome, AllocError> {
    let with_declarations = flag_at(params, "/context/includeDeclaration").unwrap_or(true);
    let mut out = String::from_str(alloc, "[")?;
    if let Some(found) = view.index.mention_at(spot.file, spot.offset) {
        for mention in &view.index.mentions {
            let is_wanted = with_declarations || mention.role == Role::Uses;
            if mention.symbol == found.symbol && is_wanted {
                put_place(alloc, view, mention.place, 1, &mut out)?;
            }
        }
    }
    out.push_str("]")?;
    Ok(Outcome::Answer(out))
}

/// `textDocument/documentHighlight`.
pub fn highlights(alloc: Global, view: &View, spot: Spot) -> Result<Outcome, AllocError> {
    let mut out = String::from_str(alloc, "[")?;
    if let Some(found) = view.index.mention_at(spot.file, spot.offset) {
        for mention in &view.index.mentions {
            if mention.symbol == found.symbol && mention.place.file == spot.file {
                put_highlight(alloc, view, *mention, &mut out)?;
            }
        }
    }
    out.push_str("]")?;
    Ok(Outcome::Answer(out))
}

/// Where a name is defined, or the beginning of an included file.
fn target(view: &View, spot: Spot) -> Option<Place> {
    if let Some(mention) = view.index.mention_at(spot.file, spot.offset) {
        let symbol = view.index.symbols.get(mention.symbol)?;
        return Some(symbol.at);
    }
    let (_, file) = view.index.included_at(spot.file, spot.offset)?;
    Some(Place {
        file,
        start: 0,
        end: 0,
    })
}

/// Prints the location of a place as an item of a list that begins after `begin` bytes; none of a built-in header.
fn put_place(
    alloc: Global,
    view: &View,
    place: Place,
    begin: usize,
    out: &mut String,
) -> Result<(), AllocError> {
    match view.uri(place.file) {
        Some(uri) => {
            put_comma(begin, out)?;
            put_location(alloc, uri, view.span(place), out)
        }
        None => Ok(()),
    }
}

/// Prints a `DocumentHighlight`: of kind 3 (write) for a declaration, and 2 (read) for a use.
fn put_highlight(
    alloc: Global,
    view: &View,
    mention: Mention,
    out: &mut String,
) -> Result<(), AllocError> {
    put_comma(1, out)?;
    out.push_str("{\"range\":")?;
    put_span(alloc, view.span(mention.place), out)?;
    out.push_str(match mention.role {
        Role::Declares => ",\"kind\":3}",
        Role::Uses => ",\"kind\":2}",
    })
}
