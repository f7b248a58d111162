//! Completion: the names in scope and the keywords, the directives, the macros, or the names of headers, by the beginning of the line.

use crate::headers::bracketed_names;
use crate::hovering::declaration;
use crate::inquiry::Inquiry;
use crate::line_start::{LineStart, line_start};
use lsp_names::{OFFERED_KEYWORDS, Place, Symbol, SymbolKind};
use lsp_program::{Host, Spot, View, put_edit, put_text_member};
use lsp_text::Span;
use lsp_wire::{Outcome, put_number};
use std::alloc::{AllocError, Global};

/// How many names are offered at most.
const MAX_ITEMS: usize = 2_000;

/// `CompletionItemKind` of a keyword, a file and a folder.
const KEYWORD: i64 = 14;

const FILE: i64 = 17;

const FOLDER: i64 = 19;

/// The directives of the profile (ISO/IEC 9899:2011 6.10).
const DIRECTIVES: [&str; 12] = [
    "define", "elif", "else", "endif", "error", "if", "ifdef", "ifndef", "include", "line",
    "pragma", "undef",
];

/// `textDocument/completion`. The client selects those that continue the text written.
pub fn completion<H: Host>(inquiry: &Inquiry<'_, H>, spot: Spot) -> Result<Outcome, AllocError> {
    let alloc = inquiry.alloc;
    let view = inquiry.view;
    let mut out = String::from_str(alloc, "{\"isIncomplete\":false,\"items\":[")?;
    match line_start(view.line_before(spot.file, spot.offset)) {
        LineStart::Directive => put_words(alloc, DIRECTIVES.as_slice(), &mut out)?,
        LineStart::Bracketed(written) => {
            let names = bracketed_names(alloc)?;
            put_headers(alloc, view, spot, written, names.as_slice(), &mut out)?;
        }
        LineStart::Quoted(written) => {
            let names = inquiry.quoted_names(view.path(spot.file), written)?;
            put_headers(alloc, view, spot, written, names.as_slice(), &mut out)?;
        }
        LineStart::MacroName => put_symbols(alloc, view, spot, true, &mut out)?,
        LineStart::Code => {
            put_symbols(alloc, view, spot, false, &mut out)?;
            put_words(alloc, OFFERED_KEYWORDS.as_slice(), &mut out)?;
        }
    }
    out.push_str("]}")?;
    Ok(Outcome::Answer(out))
}

/// Puts a comma before an item that is not the first.
fn put_item_comma(out: &mut String) -> Result<(), AllocError> {
    let is_first = out.ends_with("[");
    out.push_str(if is_first { "" } else { "," })
}

/// Puts the symbols in scope, or the macros alone.
fn put_symbols(
    alloc: Global,
    view: &View,
    spot: Spot,
    are_macros: bool,
    out: &mut String,
) -> Result<(), AllocError> {
    let here = view.lookup(spot);
    let mut left = MAX_ITEMS;
    for symbol in &view.index.symbols {
        let is_wanted = !are_macros || symbol.kind == SymbolKind::Macro;
        if is_wanted && left > 0 && view.index.is_visible(symbol, here) {
            left = left.saturating_sub(1);
            put_item_comma(out)?;
            put_symbol(alloc, view, symbol, out)?;
        }
    }
    Ok(())
}

/// A `CompletionItem` of a symbol.
fn put_symbol(
    alloc: Global,
    view: &View,
    symbol: &Symbol,
    out: &mut String,
) -> Result<(), AllocError> {
    out.push_str("{\"kind\":")?;
    put_number(alloc, item_kind(symbol.kind), out)?;
    put_text_member(alloc, "label", view.index.spelling(symbol.name), out)?;
    put_text_member(
        alloc,
        "detail",
        declaration(alloc, view, symbol)?.as_str(),
        out,
    )?;
    out.push_str("}")
}

/// Puts words of the language.
fn put_words(alloc: Global, words: &[&str], out: &mut String) -> Result<(), AllocError> {
    for word in words {
        put_item_comma(out)?;
        out.push_str("{\"kind\":")?;
        put_number(alloc, KEYWORD, out)?;
        put_text_member(alloc, "label", word, out)?;
        out.push_str("}")?;
    }
    Ok(())
}

/// Puts names of headers. Each replaces the text after the last `/`, up to the cursor.
fn put_headers(
    alloc: Global,
    view: &View,
    spot: Spot,
    written: &str,
    names: &[String],
    out: &mut String,
) -> Result<(), AllocError> {
    let last = match written.rfind('/') {
        Some(slash) => written.len().saturating_sub(slash).saturating_sub(1),
        None => written.len(),
    };
    let span = view.span(Place {
        file: spot.file,
        start: spot.offset.saturating_sub(last),
        end: spot.offset,
    });
    for name in names {
        put_item_comma(out)?;
        put_header(alloc, name.as_str(), span, out)?;
    }
    Ok(())
}

/// A `CompletionItem` of a header or a folder.
fn put_header(alloc: Global, name: &str, span: Span, out: &mut String) -> Result<(), AllocError> {
    out.push_str("{\"kind\":")?;
    put_number(alloc, if name.ends_with("/") { FOLDER } else { FILE }, out)?;
    put_text_member(alloc, "label", name, out)?;
    out.push_str(",\"textEdit\":")?;
    put_edit(alloc, span, name, out)?;
    out.push_str("}")
}

/// The number of a kind (`CompletionItemKind`).
fn item_kind(kind: SymbolKind) -> i64 {
    match kind {
        SymbolKind::Function => 3,
        SymbolKind::Object => 6,
        SymbolKind::Parameter => 6,
        SymbolKind::Enumerator => 20,
        SymbolKind::Tag => 13,
        SymbolKind::Macro => 21,
        SymbolKind::MacroParameter => 6,
    }
}
