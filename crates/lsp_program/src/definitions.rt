//! The macros of the options, as `-D` and `-U` of the command line give them.

use crate::options::Options;
use std::alloc::{AllocError, Global};

/// The name of the file that defines them and includes the main file.
pub(crate) const MADE_FILE: &str = "options";

/// Whether a text is a name, with parameters or without, and a value after `=` or none, on one line. A backslash at its end, as `??/` means one, would join the
/// next line to it.
pub(crate) fn is_definition(text: &str) -> bool {
    let name = macro_name(text);
    let behind = text.get(name.len()..).unwrap_or_default();
    is_macro_name(name)
        && (behind.is_empty() || behind.starts_with("=") || behind.starts_with("("))
        && !text.contains('\n')
        && !text.contains('\r')
        && !text.ends_with("\\")
        && !text.ends_with("??/")
}

/// Whether a text is the name of a macro.
pub(crate) fn is_macro_name(text: &str) -> bool {
    let begins = match text.chars().next() {
        Some(first) => !first.is_ascii_digit(),
        None => false,
    };
    begins && macro_name(text).len() == text.len()
}

/// The name at the beginning of a definition.
fn macro_name(text: &str) -> &str {
    match text.find(|c: char| !(c.is_ascii_alphanumeric() || c == '_')) {
        Some(end) => text.get(..end).unwrap_or_default(),
        None => text,
    }
}

/// The text of the file: a macro that is both defined and left out is left out. Its first line is empty, so that a fault there is one of the whole unit.
pub(crate) fn made_text(
    alloc: Global,
    options: &Options,
    main: &str,
) -> Result<String, AllocError> {
    let mut text = String::from_str(alloc, "\n")?;
    for definition in &options.defined {
        put_definition(alloc, definition.as_str(), &mut text)?;
    }
    for name in &options.undefined {
        let name = name.as_str();
        text.push_str(format!(in alloc; "#line 1 \"undefine {name}\"\n#undef {name}\n")?.as_str())?;
    }
    text.push_str(format!(in alloc; "#include \"{main}\"\n")?.as_str())?;
    Ok(text)
}

/// Appends the definition of a macro; faults in it name the option.
fn put_definition(alloc: Global, definition: &str, text: &mut String) -> Result<(), AllocError> {
    let (defined, value) = match definition.split_once('=') {
        Some(parts) => parts,
        None => (definition, "1"),
    };
    let name = macro_name(definition);
    text.push_str(format!(in alloc;
        "#line 1 \"define {name}\"\n#define {defined} {value}\n"
    )?.as_str())
}
