//! The compiler's facts about a name, in words.

use crate::inquiry::Inquiry;
use lsp_names::{Class, Mention, Place, Role, Symbol, SymbolKind, Word};
use lsp_program::{Declared, Enumerated, Host, Part, Spot, Unit, View, names_of, set_of, unit_of};
use std::alloc::AllocError;

impl<'a, H: Host> Inquiry<'a, H> {
    /// The facts known of the symbol of a mention, in Markdown; empty where nothing is certain.
    pub(crate) fn facts(&self, spot: Spot, mention: Mention) -> Result<String, AllocError> {
        let mut out = String::new(self.alloc);
        let view = self.view;
        let Some(symbol) = view.index.symbols.get(mention.symbol) else {
            return Ok(out);
        };
        if !view.is_within_budget() {
            return Ok(out);
        }
        let set = set_of(self.alloc, view.files.as_slice())?;
        let names = names_of(self.alloc, view.files.as_slice())?;
        let stack = self.options.stack;
        let Some(unit) = unit_of(view.files.as_slice(), &set, names.as_slice(), stack) else {
            return Ok(out);
        };
        match symbol.kind {
            SymbolKind::Function => self.put_function(unit, symbol, &mut out)?,
            SymbolKind::Object => self.put_object(unit, symbol, None, &mut out)?,
            SymbolKind::Parameter => self.put_parameter(unit, symbol, &mut out)?,
            SymbolKind::Enumerator => self.put_enumerator(unit, symbol, &mut out)?,
            SymbolKind::Macro => self.put_macro(unit, spot, mention, &mut out)?,
            SymbolKind::Tag => {}
            SymbolKind::MacroParameter => {}
        }
        Ok(out)
    }

    fn put_function(
        &self,
        unit: Unit<'_>,
        symbol: &Symbol,
        out: &mut String,
    ) -> Result<(), AllocError> {
        let name = self.view.index.spelling(symbol.name);
        let Some(fact) = self.host.function(self.alloc, unit, name)? else {
            return Ok(());
        };
        put_line("type", fact.type_text.as_str(), out)?;
        let (frame, weight) = (fact.frame, fact.weight);
        let text = format!(in self.alloc; "\n\nframe {frame} bytes, weight {weight} bytes")?;
        out.push_str(text.as_str())
    }

    fn put_object(
        &self,
        unit: Unit<'_>,
        symbol: &Symbol,
        parameter: Option<(&str, usize)>,
        out: &mut String,
    ) -> Result<(), AllocError> {
        let declared = Declared {
            name: self.view.index.spelling(symbol.name),
            at: part_of(self.view, symbol.at),
            end: symbol.whole.end,
            is_global: symbol.is_global,
            parameter,
        };
        let Some(fact) = self.host.object(self.alloc, unit, declared)? else {
            return Ok(());
        };
        put_line("type", fact.type_text.as_str(), out)?;
        self.put_value(fact.value, out)
    }

    fn put_parameter(
        &self,
        unit: Unit<'_>,
        symbol: &Symbol,
        out: &mut String,
    ) -> Result<(), AllocError> {
        match self.view.index.function_with(symbol.at) {
            Some((function, number)) if function.is_defined => {
                let name = self.view.index.spelling(function.name);
                self.put_object(unit, symbol, Some((name, number)), out)
            }
            Some(_) => Ok(()),
            None => Ok(()),
        }
    }

    /// An enumerator of the whole unit has its value after the program too, and one of a block at the end of the block, unless a macro has its name.
    fn put_enumerator(
        &self,
        unit: Unit<'_>,
        symbol: &Symbol,
        out: &mut String,
    ) -> Result<(), AllocError> {
        if is_macro_name(self.view, symbol.name) {
            return Ok(());
        }
        let name = self.view.index.spelling(symbol.name);
        let value = if symbol.is_global {
            self.host.value(self.alloc, unit, name)?
        } else {
            self.host
                .enumerator(self.alloc, unit, enumerated(self.view, symbol))?
        };
        self.put_value(value, out)
    }

    /// A macro where it is called: its expansion there; where it is defined, its value, if that is the same everywhere.
    fn put_macro(
        &self,
        unit: Unit<'_>,
        spot: Spot,
        mention: Mention,
        out: &mut String,
    ) -> Result<(), AllocError> {
        let view = self.view;
        let words = view.index.words(spot.file);
        let Some((number, word)) = word_at(words, mention.place) else {
            return Ok(());
        };
        if word.in_directive {
            return self.put_fixed_value(unit, mention, out);
        }
        let place = Place {
            file: spot.file,
            start: word.start,
            end: call_end(view, mention, words, number).unwrap_or(word.end),
        };
        let found = self.host.expansion(self.alloc, unit, part_of(view, place))?;
        let Some(text) = found else {
            return Ok(());
        };
        let name = view.index.name(mention.symbol);
        if text.is_empty() || text.as_str() == name {
            return Ok(());
        }
        put_code("expands to", text.as_str(), out)?;
        if has_local_name(view, spot, text.as_str()) {
            return Ok(());
        }
        let value = self.host.value(self.alloc, unit, text.as_str())?;
        self.put_value(value, out)
    }

    /// The value of a macro without parameters in a program whose macros are the same everywhere.
    fn put_fixed_value(
        &self,
        unit: Unit<'_>,
        mention: Mention,
        out: &mut String,
    ) -> Result<(), AllocError> {
        let view = self.view;
        let Some(symbol) = view.index.symbols.get(mention.symbol) else {
            return Ok(());
        };
        if !view.index.are_macros_fixed() || mention.role != Role::Declares {
            return Ok(());
        }
        let name = view.index.spelling(symbol.name);
        let value = self.host.macro_value(self.alloc, unit, name)?;
        self.put_value(value, out)
    }

    fn put_value(&self, value: Option<i64>, out: &mut String) -> Result<(), AllocError> {
        match value {
            Some(value) => {
                let text = format!(in self.alloc; "{value}")?;
                put_line("value", text.as_str(), out)
            }
            None => Ok(()),
        }
    }
}

/// A part of a file for the host.
fn part_of<'v>(view: &'v View, place: Place) -> Part<'v> {
    Part {
        file: view.file_name(place.file),
        start: place.start,
        end: place.end,
    }
}

/// An enumerator of a block for the host.
fn enumerated<'v>(view: &'v View, symbol: &Symbol) -> Enumerated<'v> {
    Enumerated {
        name: view.index.spelling(symbol.name),
        whole: part_of(view, symbol.whole),
        scope_end: symbol.scope_end,
    }
}

/// The token at a place, and its number.
fn word_at(words: &[Word], place: Place) -> Option<(usize, Word)> {
    let number = words.partition_point(|word| word.start < place.start);
    let word = words.get(number).copied()?;
    if word.start == place.start {
        Some((number, word))
    } else {
        None
    }
}

/// Where the call of a macro with parameters ends whose name is the token of this number; `None` where it has none, or is not called.
fn call_end(view: &View, mention: Mention, words: &[Word], number: usize) -> Option<usize> {
    let symbol = view.index.symbols.get(mention.symbol)?;
    if !view.has_parameters(symbol) {
        return None;
    }
    let rest = words.get(number.saturating_add(1)..)?;
    if rest.first()?.class != Class::OpenRound {
        return None;
    }
    let mut depth: usize = 0;
    for word in rest {
        match word.class {
            Class::OpenRound => depth = depth.saturating_add(1),
            Class::CloseRound => {
                depth = depth.saturating_sub(1);
                if depth == 0 {
                    return Some(word.end);
                }
            }
            _ => {}
        }
    }
    None
}

/// Whether a macro has the name of this number.
fn is_macro_name(view: &View, name: usize) -> bool {
    view.index.symbols.iter().any(|symbol| symbol.kind == SymbolKind::Macro && symbol.name == name)
}

/// Whether a token of a text is the name of a symbol in scope that is not the whole unit's.
fn has_local_name(view: &View, spot: Spot, text: &str) -> bool {
    let here = view.lookup(spot);
    for symbol in &view.index.symbols {
        if !symbol.is_global && view.index.is_visible(symbol, here) {
            let name = view.index.spelling(symbol.name);
            if has_token(text, name) {
                return true;
            }
        }
    }
    false
}

/// Whether a text has a token, with spaces between them.
fn has_token(text: &str, token: &str) -> bool {
    for each in text.split(' ') {
        if each == token {
            return true;
        }
    }
    false
}

/// Puts a line of its own: a word, and its text as code.
fn put_line(word: &str, text: &str, out: &mut String) -> Result<(), AllocError> {
    out.push_str("\n\n")?;
    out.push_str(word)?;
    out.push_str(" `")?;
    out.push_str(text)?;
    out.push_str("`")
}

/// Puts a word, and a block of code.
fn put_code(word: &str, text: &str, out: &mut String) -> Result<(), AllocError> {
    out.push_str("\n\n")?;
    out.push_str(word)?;
    out.push_str("\n```c\n")?;
    out.push_str(text)?;
    out.push_str("\n```")
}
