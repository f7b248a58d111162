//! Inlay hints: the names of parameters before the arguments of calls.

use crate::signature::called;
use lsp_names::{CallSite, Class, Place, Symbol, SymbolKind, Word};
use lsp_program::{View, put_comma, put_position, put_text_member, span_of};
use lsp_text::Span;
use lsp_wire::{Outcome, RpcError};
use serde_json::Value;
use std::alloc::{AllocError, Global};

/// How many arguments of a call are examined, and how many tokens after its parenthesis, so that calls within calls take no more time than others.
const MAX_ARGUMENTS: usize = 64;

const MAX_TOKENS: usize = 4_096;

/// `textDocument/inlayHint`: of calls in the range whose functions have named parameters.
pub fn inlay_hints(
    alloc: Global,
    view: &View,
    file: usize,
    params: &Value,
) -> Result<Outcome, AllocError> {
    let Some(span) = params.pointer("/range").and_then(span_of) else {
        return Ok(Outcome::Refused(RpcError::InvalidParams, RpcError::InvalidParams.text()));
    };
    let mut out = String::from_str(alloc, "[")?;
    let words = view.index.words(file);
    for (number, word) in words.iter().enumerate() {
        if is_call(words, number) && is_in(view, file, *word, span) {
            put_hints(alloc, view, file, number, &mut out)?;
        }
    }
    out.push_str("]")?;
    Ok(Outcome::Answer(out))
}

/// Whether a name followed by `(` has this number.
fn is_call(words: &[Word], number: usize) -> bool {
    match (words.get(number), words.get(number.saturating_add(1))) {
        (Some(word), Some(next)) => {
            word.class == Class::Identifier && next.class == Class::OpenRound && !word.in_directive
        }
        (Some(_), None) => false,
        (None, Some(_)) => false,
        (None, None) => false,
    }
}

/// Whether a token is on the lines of a range.
fn is_in(view: &View, file: usize, word: Word, span: Span) -> bool {
    let at = view.span(Place {
        file,
        start: word.start,
        end: word.end,
    });
    span.start.line <= at.start.line && at.start.line <= span.end.line
}

/// Prints the hints of the call whose name has this number; none of a declaration.
fn put_hints(
    alloc: Global,
    view: &View,
    file: usize,
    number: usize,
    out: &mut String,
) -> Result<(), AllocError> {
    let site = CallSite {
        called: number,
        argument: 0,
    };
    let Some(symbol) = called(view, file, site) else {
        return Ok(());
    };
    if symbol.kind != SymbolKind::Function || is_declared_at(view, file, number) {
        return Ok(());
    }
    let rest = view
        .index
        .words(file)
        .get(number.saturating_add(2)..)
        .unwrap_or_default();
    put_arguments(alloc, view, symbol, file, rest, out)
}

fn is_declared_at(view: &View, file: usize, number: usize) -> bool {
    let Some(word) = view.index.words(file).get(number) else {
        return false;
    };
    match view.index.mention_at(file, word.start) {
        Some(mention) => mention.role == lsp_names::Role::Declares,
        None => false,
    }
}

/// Prints a hint before each argument, of which these tokens are the first.
fn put_arguments(
    alloc: Global,
    view: &View,
    symbol: &Symbol,
    file: usize,
    words: &[Word],
    out: &mut String,
) -> Result<(), AllocError> {
    let mut rest = words.get(..MAX_TOKENS).unwrap_or(words);
    for parameter in view.index.parameters(symbol).iter().take(MAX_ARGUMENTS) {
        let Some(first) = rest.first() else {
            break;
        };
        if let Some(name) = parameter.name {
            let at = Place {
                file,
                start: first.start,
                end: first.start,
            };
            put_hint(alloc, view, at, view.index.spelling(name), out)?;
        }
        match behind_comma(rest) {
            Some(next) => rest = next,
            None => break,
        }
    }
    Ok(())
}

/// The tokens after the comma that ends an argument; `None` where it is the last one.
fn behind_comma(words: &[Word]) -> Option<&[Word]> {
    let mut depth: usize = 0;
    for (number, word) in words.iter().enumerate() {
        match word.class {
            Class::OpenRound | Class::OpenSquare => depth = depth.saturating_add(1),
            Class::CloseRound if depth == 0 => return None,
            Class::CloseRound | Class::CloseSquare => depth = depth.saturating_sub(1),
            Class::Comma if depth == 0 => return words.get(number.saturating_add(1)..),
            Class::Semicolon | Class::OpenBrace | Class::CloseBrace => return None,
            _ => {}
        }
    }
    None
}

/// An `InlayHint` of the kind parameter.
fn put_hint(
    alloc: Global,
    view: &View,
    at: Place,
    name: &str,
    out: &mut String,
) -> Result<(), AllocError> {
    let label = format!(in alloc; "{name}:")?;
    put_comma(1, out)?;
    out.push_str("{\"position\":")?;
    put_position(alloc, view.span(at).start, out)?;
    put_text_member(alloc, "label", label.as_str(), out)?;
    out.push_str(",\"kind\":2,\"paddingRight\":true}")
}
