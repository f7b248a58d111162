//! The text shown for a name: its declaration as it is written, and the compiler's facts about it.

use crate::inquiry::Inquiry;
use lsp_names::{Symbol, SymbolKind};
use lsp_program::{Host, Spot, View, put_span, put_text_member};
use lsp_text::Span;
use lsp_wire::Outcome;
use std::alloc::{AllocError, Global};

/// How many bytes of a declaration are shown with an initialiser.
const MAX_WHOLE: usize = 160;

/// How many bytes are shown at most.
const MAX_SHOWN: usize = 2_000;

/// The analysis result for a place: where it is, and which numbers are possible there.
#[derive(Clone, Copy)]
pub struct Interval<'a> {
    pub span: Span,
    pub title: &'a str,
    pub numbers: &'a str,
}

/// `textDocument/hover`, with the interval at that place; null where neither that is known nor a name.
pub fn hover<H: Host>(
    inquiry: &Inquiry<'_, H>,
    spot: Spot,
    interval: Option<Interval<'_>>,
) -> Result<Outcome, AllocError> {
    let alloc = inquiry.alloc;
    let view = inquiry.view;
    let mut text = String::new(alloc);
    let mut range = None;
    if let Some(mention) = view.index.mention_at(spot.file, spot.offset) {
        put_symbol(alloc, view, mention.symbol, &mut text)?;
        text.push_str(inquiry.facts(spot, mention)?.as_str())?;
        range = Some(view.span(mention.place));
    }
    if let Some(interval) = interval {
        put_interval(interval, &mut text)?;
        range = range.or(Some(interval.span));
    }
    let Some(range) = range else {
        return Ok(Outcome::Answer(String::from_str(alloc, "null")?));
    };
    let mut out = String::from_str(alloc, "{\"contents\":{\"kind\":\"markdown\"")?;
    put_text_member(alloc, "value", text.as_str(), &mut out)?;
    out.push_str("},\"range\":")?;
    put_span(alloc, range, &mut out)?;
    out.push_str("}")?;
    Ok(Outcome::Answer(out))
}

/// Puts the analysis result for a place.
fn put_interval(interval: Interval<'_>, text: &mut String) -> Result<(), AllocError> {
    text.push_str(if text.is_empty() { "" } else { "\n\n" })?;
    text.push_str(interval.title)?;
    text.push_str(": `")?;
    text.push_str(interval.numbers)?;
    text.push_str("`")
}

/// Puts the declaration of a symbol in a block of Markdown, and the kind of the symbol.
fn put_symbol(
    alloc: Global,
    view: &View,
    number: usize,
    text: &mut String,
) -> Result<(), AllocError> {
    let Some(symbol) = view.index.symbols.get(number) else {
        return Ok(());
    };
    text.push_str("```c\n")?;
    text.push_str(declaration(alloc, view, symbol)?.as_str())?;
    text.push_str("\n```\n")?;
    text.push_str(kind_text(symbol.kind))
}

/// The declaration of a symbol: with an initialiser where that is short.
pub(crate) fn declaration(
    alloc: Global,
    view: &View,
    symbol: &Symbol,
) -> Result<String, AllocError> {
    let whole = view.bytes(symbol.whole);
    let bytes = if symbol.kind != SymbolKind::Function && whole.len() <= MAX_WHOLE {
        whole
    } else {
        view.bytes(symbol.head)
    };
    let shown = bytes.get(..MAX_SHOWN).unwrap_or(bytes);
    let text = String::from_utf8_lossy(alloc, shown)?;
    String::from_str(alloc, text.as_str())
}

fn kind_text(kind: SymbolKind) -> &'static str {
    match kind {
        SymbolKind::Function => "function",
        SymbolKind::Object => "object",
        SymbolKind::Parameter => "parameter",
        SymbolKind::Enumerator => "enumerator, an int",
        SymbolKind::Tag => "enumeration",
        SymbolKind::Macro => "macro",
        SymbolKind::MacroParameter => "parameter of a macro",
    }
}
