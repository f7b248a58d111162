//! Semantic tokens.

use lsp_names::{Class, Place, SymbolKind, Word};
use lsp_program::{View, put_comma};
use lsp_text::Position;
use lsp_wire::Outcome;
use std::alloc::{AllocError, Global};

/// The kinds of tokens, in the order of their numbers.
const KINDS: [&str; 9] = [
    "keyword",
    "number",
    "string",
    "function",
    "variable",
    "parameter",
    "enumMember",
    "enum",
    "macro",
];

/// The legend of the capabilities.
pub fn put_legend(out: &mut String) -> Result<(), AllocError> {
    out.push_str("{\"tokenTypes\":[")?;
    let begin = out.len();
    for kind in KINDS.as_slice() {
        put_comma(begin, out)?;
        out.push_str("\"")?;
        out.push_str(kind)?;
        out.push_str("\"")?;
    }
    out.push_str("],\"tokenModifiers\":[]}")
}

/// The tokens of a file that were printed so far.
#[derive(Drop)]
struct Data {
    alloc: Global,
    out: String,
    begin: usize,
    /// Where the last token begins.
    last: Position,
}

/// `textDocument/semanticTokens/full`. A token over several lines is left out.
pub fn semantic_tokens(alloc: Global, view: &View, file: usize) -> Result<Outcome, AllocError> {
    let out = String::from_str(alloc, "{\"data\":[")?;
    let mut data = Data {
        alloc: alloc,
        begin: out.len(),
        out,
        last: Position {
            line: 0,
            character: 0,
        },
    };
    put_words(view, file, &mut data)?;
    data.out.push_str("]}")?;
    let Data { out, .. } = data;
    Ok(Outcome::Answer(out))
}

/// Prints the tokens of a file.
fn put_words(view: &View, file: usize, data: &mut Data) -> Result<(), AllocError> {
    for word in view.index.words(file) {
        let place = Place {
            file,
            start: word.start,
            end: word.end,
        };
        if let Some(kind) = token_kind(*word, kind_at(view, place)) {
            data.put(view, place, kind)?;
        }
    }
    Ok(())
}

/// The kind of the name at a place. The mentions are in the order of their places.
fn kind_at(view: &View, place: Place) -> Option<SymbolKind> {
    let mentions = view.index.mentions.as_slice();
    let next = mentions.partition_point(|mention| {
        mention.place.file < place.file
            || mention.place.file == place.file && mention.place.start < place.start
    });
    let mention = mentions.get(next)?;
    if mention.place != place {
        return None;
    }
    let symbol = view.index.symbols.get(mention.symbol)?;
    Some(symbol.kind)
}

impl Data {
    /// Prints the five numbers of a token.
    fn put(&mut self, view: &View, place: Place, kind: u32) -> Result<(), AllocError> {
        let span = view.span(place);
        if span.start.line != span.end.line {
            return Ok(());
        }
        let lines = span.start.line.saturating_sub(self.last.line);
        let characters = if lines == 0 {
            span.start.character.saturating_sub(self.last.character)
        } else {
            span.start.character
        };
        let length = span.end.character.saturating_sub(span.start.character);
        put_comma(self.begin, &mut self.out)?;
        let numbers = format!(in self.alloc; "{lines},{characters},{length},{kind},0")?;
        self.out.push_str(numbers.as_str())?;
        self.last = span.start;
        Ok(())
    }
}

/// The number of a token's kind; `None` for one that gets no colour.
fn token_kind(word: Word, meant: Option<SymbolKind>) -> Option<u32> {
    match meant {
        Some(kind) => Some(symbol_kind(kind)),
        None => class_kind(word.class),
    }
}

fn symbol_kind(kind: SymbolKind) -> u32 {
    match kind {
        SymbolKind::Function => 3,
        SymbolKind::Object => 4,
        SymbolKind::Parameter => 5,
        SymbolKind::Enumerator => 6,
        SymbolKind::Tag => 7,
        SymbolKind::Macro => 8,
        SymbolKind::MacroParameter => 5,
    }
}

fn class_kind(class: Class) -> Option<u32> {
    match class {
        Class::TypeWord | Class::Enum | Class::For | Class::Else | Class::Keyword => Some(0),
        Class::Number => Some(1),
        Class::Text | Class::HeaderName => Some(2),
        _ => None,
    }
}
