//! The contents of a file: its symbols, and the parts that an editor may hide.

use lsp_names::{Fold, Mention, Symbol, SymbolKind};
use lsp_program::{View, put_comma, put_span, put_text_member};
use lsp_wire::{Outcome, put_number};
use std::alloc::{AllocError, Global};

/// `textDocument/documentSymbol`: the symbols that a file has for the whole unit, in the order of the places.
pub fn document_symbols(alloc: Global, view: &View, file: usize) -> Result<Outcome, AllocError> {
    let mut out = String::from_str(alloc, "[")?;
    for mention in &view.index.mentions {
        if let Some(symbol) = symbol_at(view, mention, file) {
            put_symbol(alloc, view, symbol, &mut out)?;
        }
    }
    out.push_str("]")?;
    Ok(Outcome::Answer(out))
}

/// `textDocument/foldingRange`.
pub fn folding_ranges(alloc: Global, view: &View, file: usize) -> Result<Outcome, AllocError> {
    let mut out = String::from_str(alloc, "[")?;
    for fold in view.index.folds(alloc, file)? {
        put_fold(alloc, fold, &mut out)?;
    }
    out.push_str("]")?;
    Ok(Outcome::Answer(out))
}

/// The symbol of the whole unit whose shown declaration has this mention, in this file.
fn symbol_at<'v>(view: &'v View, mention: &Mention, file: usize) -> Option<&'v Symbol> {
    let symbol = view.index.symbols.get(mention.symbol)?;
    if symbol.is_global && symbol.at == mention.place && symbol.at.file == file {
        Some(symbol)
    } else {
        None
    }
}

/// A `DocumentSymbol`.
fn put_symbol(
    alloc: Global,
    view: &View,
    symbol: &Symbol,
    out: &mut String,
) -> Result<(), AllocError> {
    put_comma(1, out)?;
    out.push_str("{\"kind\":")?;
    put_number(alloc, kind_number(symbol.kind), out)?;
    put_text_member(alloc, "name", view.index.spelling(symbol.name), out)?;
    out.push_str(",\"range\":")?;
    put_span(alloc, view.span(symbol.whole), out)?;
    out.push_str(",\"selectionRange\":")?;
    put_span(alloc, view.span(symbol.at), out)?;
    out.push_str("}")
}

/// The number of a kind (`SymbolKind`).
fn kind_number(kind: SymbolKind) -> i64 {
    match kind {
        SymbolKind::Function => 12,
        SymbolKind::Object => 13,
        SymbolKind::Parameter => 13,
        SymbolKind::Enumerator => 22,
        SymbolKind::Tag => 10,
        SymbolKind::Macro => 14,
        SymbolKind::MacroParameter => 26,
    }
}

/// A `FoldingRange`, whose lines are counted from 0.
fn put_fold(alloc: Global, fold: Fold, out: &mut String) -> Result<(), AllocError> {
    let first = fold.first.saturating_sub(1);
    let last = fold.last.saturating_sub(1);
    put_comma(1, out)?;
    out.push_str(format!(in alloc; "{{\"startLine\":{first},\"endLine\":{last}}}")?.as_str())
}
