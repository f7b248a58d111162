//! The values of integer constant expressions (ISO/IEC 9899:2011 6.6), which the compiler computes as initialisers after the program.

use crate::checking::{Checked, check_program};
use crate::insertions::{Insertion, is_added, set_with};
use crate::sources::stack_of;
use lsp_program::{Enumerated, Unit};
use srcset::FileSet;
use std::alloc::{AllocError, Global};

/// The name of the file that has the initialisers, that of the object, and that of an enumerator like the one of a block.
const FILE: &str = "values of constants";

const OBJECT: &str = "zkc_value_of_constant";

const ENUMERATOR: &str = "zkc_like_enumerator";

/// How many bytes an expression may have.
const MAX_EXPRESSION: usize = 2_000;

/// The values of a type of 32 bits.
const WRAP: i64 = 0x1_0000_0000;

/// The value of an expression, whose tokens have spaces between, after the whole program. No name in it is a macro, unless `are_replaced`. `None` where the
/// compiler does not accept it as an integer constant expression.
pub fn value_of(
    alloc: Global,
    unit: Unit<'_>,
    expression: &str,
    are_replaced: bool,
) -> Result<Option<i64>, AllocError> {
    if expression.is_empty() || expression.len() > MAX_EXPRESSION || !is_closed(expression) {
        return Ok(None);
    }
    let Some(set) = with_probe(alloc, unit, expression, are_replaced)? else {
        return Ok(None);
    };
    match check_program(alloc, &set, FILE, stack_of(unit))? {
        Some(whole) => Ok(value_in(&whole)),
        None => Ok(None),
    }
}

/// The value of an enumerator of a block. Another one of the same value is declared directly after it, so that it has a value nowhere but where the enumerator
/// has one; it is the initialiser of an object at the end of the block. `None` where the compiler rejects that.
pub fn enumerator_value(
    alloc: Global,
    unit: Unit<'_>,
    declared: Enumerated<'_>,
) -> Result<Option<i64>, AllocError> {
    let file = declared.whole.file;
    if !is_block_end(unit.set.get(file).unwrap_or_default(), declared.scope_end) {
        return Ok(None);
    }
    let name = declared.name;
    let like = format!(in alloc; ", {ENUMERATOR} = {name}")?;
    let object = object_text(alloc, ENUMERATOR)?;
    let mut insertions = Vec::new(alloc);
    insertions.push(Insertion {
        at: declared.whole.end,
        bytes: like.into_bytes(),
    })?;
    insertions.push(Insertion {
        at: declared.scope_end,
        bytes: object.into_bytes(),
    })?;
    let Some(set) = set_with(alloc, unit, file, insertions.as_slice())? else {
        return Ok(None);
    };
    match check_program(alloc, &set, unit.main, stack_of(unit))? {
        Some(whole) => Ok(value_in(&whole)),
        None => Ok(None),
    }
}

/// Whether there is a brace that ends a block at an offset, however it is spelled (ISO/IEC 9899:2011 5.2.1.1, 6.4.6).
fn is_block_end(bytes: &[u8], at: usize) -> bool {
    let rest = bytes.get(at..).unwrap_or_default();
    rest.starts_with(b"}".as_slice())
        || rest.starts_with(b"%>".as_slice())
        || rest.starts_with(b"??>".as_slice())
}

/// Whether each `)` of a text closes a `(` of it, so that it stays one expression in parentheses.
fn is_closed(text: &str) -> bool {
    let mut depth: usize = 0;
    for byte in text.as_bytes() {
        if *byte == b'(' {
            depth = depth.saturating_add(1);
        } else if *byte == b')' {
            if depth == 0 {
                return false;
            }
            depth = depth.saturating_sub(1);
        }
    }
    depth == 0
}

/// The files of the program, with one that includes it and has the expression; `None` where a set does not take one of them.
fn with_probe(
    alloc: Global,
    unit: Unit<'_>,
    expression: &str,
    are_replaced: bool,
) -> Result<Option<FileSet>, AllocError> {
    let mut set = FileSet::new(alloc);
    for name in unit.names {
        let bytes = Vec::from_slice(alloc, unit.set.get(name).unwrap_or_default())?;
        if !is_added(set.add(name, bytes))? {
            return Ok(None);
        }
    }
    let text = probe_text(alloc, unit.main, expression, are_replaced)?;
    if is_added(set.add(FILE, text.into_bytes()))? {
        Ok(Some(set))
    } else {
        Ok(None)
    }
}

/// The text of that file.
fn probe_text(
    alloc: Global,
    main: &str,
    expression: &str,
    are_replaced: bool,
) -> Result<String, AllocError> {
    let mut text = format!(in alloc; "#include \"{main}\"\n")?;
    for name in expression.split(' ') {
        if !are_replaced && is_name(name) {
            text.push_str(format!(in alloc; "#undef {name}\n")?.as_str())?;
        }
    }
    text.push_str(object_text(alloc, expression)?.as_str())?;
    Ok(text)
}

/// The object that has the value of an expression: two elements, whether it is negative and its bits.
fn object_text(alloc: Global, expression: &str) -> Result<String, AllocError> {
    format!(in alloc;
        " static const unsigned long {OBJECT}[2] = {{ ({expression}) < 0, ({expression}) }};\n"
    )
}

/// Whether a token begins as an identifier does.
fn is_name(token: &str) -> bool {
    match token.chars().next() {
        Some(first) => first.is_ascii_alphabetic() || first == '_',
        None => false,
    }
}

/// The value that the object holds.
fn value_in(whole: &Checked) -> Option<i64> {
    let object = whole.only_static(OBJECT)?;
    // Elements after the last that is written are zero.
    let is_negative = object.values.first().copied().unwrap_or(0) != 0;
    let bits = object.values.get(1).copied().unwrap_or(0);
    if is_negative {
        bits.checked_sub(WRAP)
    } else {
        Some(bits)
    }
}
