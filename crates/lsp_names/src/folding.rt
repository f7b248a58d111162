//! Parts of a file that an editor may hide: the text in braces, and groups of conditional inclusion.

use crate::words::{Class, Word};
use srcset::Names;
use std::alloc::{AllocError, Global};

/// Lines from one to another, both counted from 1.
#[derive(Clone, Copy, Debug, PartialEq, Eq)]
pub struct Fold {
    pub first: u32,
    pub last: u32,
}

/// Finds the parts of a file that take several lines.
pub(crate) fn folds(alloc: Global, names: &Names, words: &[Word]) -> Result<Vec<Fold>, AllocError> {
    let mut found = Vec::new(alloc);
    let mut braces = Vec::new(alloc);
    let mut groups = Vec::new(alloc);
    for (number, word) in words.iter().enumerate() {
        if word.in_directive {
            if word.is_first {
                let kind = words.get(number.saturating_add(1)).copied();
                group(names, *word, kind, &mut groups, &mut found)?;
            }
        } else if word.class == Class::OpenBrace {
            braces.push(word.line)?;
        } else if word.class == Class::CloseBrace {
            close(&mut braces, word.line, &mut found)?;
        }
    }
    Ok(found)
}

/// A directive that begins, divides or ends a group.
fn group(
    names: &Names,
    hash: Word,
    kind: Option<Word>,
    groups: &mut Vec<u32>,
    found: &mut Vec<Fold>,
) -> Result<(), AllocError> {
    let text = match kind {
        Some(word) => names.shown_text(word.name),
        None => "",
    };
    match text {
        "if" | "ifdef" | "ifndef" => groups.push(hash.line)?,
        "else" | "elif" => {
            close(groups, hash.line.saturating_sub(1), found)?;
            groups.push(hash.line)?;
        }
        "endif" => close(groups, hash.line, found)?,
        _ => {}
    }
    Ok(())
}

/// Ends the part that was begun last.
fn close(open: &mut Vec<u32>, last: u32, found: &mut Vec<Fold>) -> Result<(), AllocError> {
    if let Some(first) = open.pop() {
        if first < last {
            found.push(Fold { first, last })?;
        }
    }
    Ok(())
}
