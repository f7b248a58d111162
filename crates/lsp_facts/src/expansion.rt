//! The result of the preprocessor for a call of a macro at a place.

use crate::checking::none_of;
use crate::sources::files_of;
use lint_report::Files;
use lsp_program::{Part, Unit};
use phases::PpToken;
use pp::preprocess;
use srcset::Names;
use std::alloc::{AllocError, Global};

/// How many bytes of an expansion are shown at most.
const MAX_SHOWN: usize = 2_000;

/// The text after an expansion that is cut.
const CUT: &str = " ...";

/// The tokens that result from those in a part of a file, with one space between; the first time where the file is included several times. It is empty
/// where there are none, as in a group that is skipped. `None` where the preprocessor rejects the program, or where a file depends on its lines, so that it cannot be laid out with a token a line.
pub fn expansion_of(
    alloc: Global,
    unit: Unit<'_>,
    part: Part<'_>,
) -> Result<Option<String>, AllocError> {
    let files = files_of(alloc, unit)?;
    if !files.is_laid {
        return Ok(None);
    }
    let Some(set) = files.laid_set(alloc)? else {
        return Ok(None);
    };
    let mut names = Names::new(alloc);
    match preprocess(alloc, &set, &mut names, unit.main) {
        Ok(tokens) => Ok(Some(text_of(alloc, &files, &names, tokens.as_slice(), part)?)),
        Err(fault) => none_of(&fault),
    }
}

/// The first tokens in a row that result from the part.
fn text_of(
    alloc: Global,
    files: &Files<'_>,
    names: &Names,
    tokens: &[PpToken<'_>],
    part: Part<'_>,
) -> Result<String, AllocError> {
    let mut text = String::new(alloc);
    let first = tokens
        .iter()
        .position(|token| comes_of(files, names, token, part));
    let Some(first) = first else {
        return Ok(text);
    };
    for token in tokens.get(first..).unwrap_or_default() {
        if !comes_of(files, names, token, part) {
            break;
        }
        if text.len() > MAX_SHOWN {
            text.push_str(CUT)?;
            break;
        }
        put_token(alloc, token, &mut text)?;
    }
    Ok(text)
}

/// Whether a token is in a part of a file, or resulted from the name of a macro there.
fn comes_of(files: &Files<'_>, names: &Names, token: &PpToken<'_>, part: Part<'_>) -> bool {
    let pos = token.pos();
    let name = names.file_name(pos.file);
    if name != part.file {
        return false;
    }
    let place = files.place(name, pos.line);
    place.end != 0 && part.start <= place.start && place.end <= part.end
}

fn put_token(alloc: Global, token: &PpToken<'_>, text: &mut String) -> Result<(), AllocError> {
    if !text.is_empty() {
        text.push(' ')?;
    }
    let spelling = String::from_utf8_lossy(alloc, token.spelling())?;
    text.push_str(spelling.as_str())
}
