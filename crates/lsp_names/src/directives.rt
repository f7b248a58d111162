//! Names in directives (ISO/IEC 9899:2011 6.10).

use crate::symbols::{Parameter, Place, Role, SymbolKind};
use crate::table::{Declared, Table, place_of};
use crate::words::{Class, Word};
use srcset::Names;
use std::alloc::AllocError;

/// The kind of a directive.
#[derive(Clone, Copy, PartialEq, Eq)]
enum DirectiveKind {
    Define,
    Include,
    /// Any other: its names are uses of macros.
    Other,
}

/// The consequence of a directive for the walk.
#[derive(Clone, Copy)]
pub(crate) enum Step {
    /// Nothing.
    Pass,
    /// The file that this name in quotes or angle brackets denotes is included.
    Include(Word),
}

/// Takes the tokens of a directive, its `#` first.
pub(crate) fn directive(
    table: &mut Table,
    names: &Names,
    file: usize,
    line: &[Word],
) -> Result<Step, AllocError> {
    let Some(kind) = line.get(1).copied() else {
        return Ok(Step::Pass);
    };
    match directive_of(names, kind) {
        DirectiveKind::Define => define(table, file, line)?,
        DirectiveKind::Include => return Ok(included(line)),
        DirectiveKind::Other => use_names(table, file, line.get(2..).unwrap_or_default())?,
    }
    Ok(Step::Pass)
}

fn directive_of(names: &Names, word: Word) -> DirectiveKind {
    match names.shown_text(word.name) {
        "define" => DirectiveKind::Define,
        "include" => DirectiveKind::Include,
        _ => DirectiveKind::Other,
    }
}

fn included(line: &[Word]) -> Step {
    match line.get(2) {
        Some(word) if word.class == Class::HeaderName => Step::Include(*word),
        _ => Step::Pass,
    }
}

/// The names in a condition, or after `#ifdef` and `#undef`.
fn use_names(table: &mut Table, file: usize, words: &[Word]) -> Result<(), AllocError> {
    for word in words {
        if word.class == Class::Identifier {
            table.use_name(file, *word, false)?;
        }
    }
    Ok(())
}

/// The definition of a macro.
fn define(table: &mut Table, file: usize, line: &[Word]) -> Result<(), AllocError> {
    let (Some(hash), Some(name), Some(last)) = (line.first(), line.get(2), line.last()) else {
        return Ok(());
    };
    let at = place_of(file, *name);
    let number = table.declare(Declared {
        kind: SymbolKind::Macro,
        name: name.name,
        at,
        begin: hash.start,
        is_global: true,
    })?;
    table.end_head(number, at, last.end);
    let mark = table.mark();
    let rest = line.get(3..).unwrap_or_default();
    let count = parameters(table, number, *name, file, rest)?;
    let body = rest.get(count..).unwrap_or_default();
    note_type(table, *name, body);
    body_names(table, file, body)?;
    table.unbind(mark, last.end);
    Ok(())
}

/// The parameters of a macro, where `(` directly follows its name; returns how many tokens they take.
fn parameters(
    table: &mut Table,
    number: usize,
    name: Word,
    file: usize,
    rest: &[Word],
) -> Result<usize, AllocError> {
    let has_parameters = match rest.first() {
        Some(open) => open.class == Class::OpenRound && open.start == name.end,
        None => false,
    };
    if !has_parameters {
        return Ok(0);
    }
    table.begin_parameters(number);
    for (count, word) in rest.iter().enumerate() {
        if word.class == Class::CloseRound {
            return Ok(count.saturating_add(1));
        }
        if word.class == Class::Identifier {
            parameter(table, file, *word)?;
        }
    }
    Ok(rest.len())
}

fn parameter(table: &mut Table, file: usize, word: Word) -> Result<(), AllocError> {
    let at = place_of(file, word);
    table.declare(Declared {
        kind: SymbolKind::MacroParameter,
        name: word.name,
        at,
        begin: word.start,
        is_global: false,
    })?;
    table.add_parameter(Parameter {
        whole: at,
        name: Some(word.name),
    })
}

/// Notes a macro that denotes a type: its body begins with a word of one.
fn note_type(table: &mut Table, name: Word, body: &[Word]) {
    let is_type = match body.first() {
        Some(word) => matches!(word.class, Class::TypeWord | Class::Enum)
            || table.is_type(word.name),
        None => false,
    };
    if is_type {
        table.note_type(name.name);
    }
}

/// The names in the body of a macro: its parameters, and the names that the unit has in the end.
fn body_names(table: &mut Table, file: usize, body: &[Word]) -> Result<(), AllocError> {
    for word in body {
        if word.class == Class::Identifier {
            body_name(table, place_of(file, *word), *word)?;
        }
    }
    Ok(())
}

fn body_name(table: &mut Table, place: Place, word: Word) -> Result<(), AllocError> {
    match table.meant(word.name, false) {
        Some(number) if table.is_macro_parameter(number) => {
            table.mention(place, number, Role::Uses)
        }
        _ => table.leave(place, word),
    }
}
