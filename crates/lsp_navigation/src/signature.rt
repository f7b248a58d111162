//! Signature help: the parameters of the function or macro that is called around a place.

use lsp_names::{CallSite, Symbol, SymbolKind, call_at};
use lsp_program::{Host, Spot, View, put_comma, put_text_member};
use lsp_wire::{Outcome, put_number, put_string};
use std::alloc::{AllocError, Global};

/// `textDocument/signatureHelp`; null where there is no call of a known name.
pub fn signature_help(alloc: Global, view: &View, spot: Spot) -> Result<Outcome, AllocError> {
    let found = call_at(view.index.words(spot.file), spot.offset);
    let Some(call) = found else {
        return Ok(Outcome::Answer(String::from_str(alloc, "null")?));
    };
    let Some(symbol) = called(view, spot.file, call) else {
        return Ok(Outcome::Answer(String::from_str(alloc, "null")?));
    };
    let mut out = String::from_str(alloc, "{\"signatures\":[{\"parameters\":[")?;
    put_parameters(alloc, view, symbol, &mut out)?;
    out.push_str("]")?;
    put_text_member(
        alloc,
        "label",
        label(alloc, view, symbol)?.as_str(),
        &mut out,
    )?;
    out.push_str("}],\"activeSignature\":0,\"activeParameter\":")?;
    put_number(alloc, i64::try_from(call.argument).unwrap_or(0), &mut out)?;
    out.push_str("}")?;
    Ok(Outcome::Answer(out))
}

/// The function or macro that is called.
pub(crate) fn called(view: &View, file: usize, call: CallSite) -> Option<&Symbol> {
    let word = view.index.words(file).get(call.called)?;
    let mention = view.index.mention_at(file, word.start)?;
    let symbol = view.index.symbols.get(mention.symbol)?;
    if matches!(symbol.kind, SymbolKind::Function | SymbolKind::Macro) {
        Some(symbol)
    } else {
        None
    }
}

/// The parameters, as `ParameterInformation`.
fn put_parameters(
    alloc: Global,
    view: &View,
    symbol: &Symbol,
    out: &mut String,
) -> Result<(), AllocError> {
    let begin = out.len();
    for parameter in view.index.parameters(symbol) {
        put_comma(begin, out)?;
        let text = String::from_utf8_lossy(alloc, view.bytes(parameter.whole))?;
        out.push_str("{\"label\":")?;
        put_string(alloc, text.as_str(), out)?;
        out.push_str("}")?;
    }
    Ok(())
}

/// The signature: the name with the parameters as they are written.
fn label(alloc: Global, view: &View, symbol: &Symbol) -> Result<String, AllocError> {
    let mut text = String::from_str(alloc, view.index.spelling(symbol.name))?;
    text.push_str("(")?;
    let begin = text.len();
    for parameter in view.index.parameters(symbol) {
        if text.len() > begin {
            text.push_str(", ")?;
        }
        let written = String::from_utf8_lossy(alloc, view.bytes(parameter.whole))?;
        text.push_str(written.as_str())?;
    }
    text.push_str(")")?;
    Ok(text)
}
