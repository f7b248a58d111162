//! Whether phase 4 and the C tokens give the same result, whole and as streams.

use crate::pulling::{MAIN, ends_in, ends_so, pull_list};
use crate::same::is_same_reading;
use lexer::{Lexer, Token, tokens};
use phases::PpToken;
use pp::{Pp, preprocess};
use srcset::{Fault, FileSet, Names};
use std::alloc::Global;
use test_rows::{Answer, Fields};

/// `stream SOURCE`: the result of both, or where they differ.
pub fn stream(row: &Fields, answer: &mut Answer) {
    let alloc = answer.alloc();
    let mut set = FileSet::new(alloc);
    let Ok(source) = row.field(1).to_vec(alloc) else {
        answer.fail();
        return;
    };
    if set.add(MAIN, source).is_err() {
        answer.fail();
    }
    let mut names = Names::new(alloc);
    match preprocess(alloc, &set, &mut names, MAIN) {
        Ok(list) => show_list(&set, list.as_slice(), names, answer),
        Err(fault) => {
            if ends_in(alloc, &set, &fault) {
                answer.write(b"same");
                show_fault(&fault, answer);
            } else {
                answer.write(b"DIFFERS: the fault of phase 4");
            }
        }
    }
}

/// The lexer that has read the stream of a set, where that gives these tokens, whose names have these numbers, and then ends.
fn streamed(
    alloc: Global,
    set: &FileSet,
    list: &[PpToken],
    names: &Names,
    own: &mut Names,
) -> Option<Lexer> {
    let mut pp = Pp::new(alloc, set, own, MAIN).ok()?;
    let mut lexer = Lexer::new(alloc);
    let is_same = pull_list(alloc, &mut pp, own, &mut lexer, list, names)
        && ends_so(alloc, &mut pp, own, None);
    if is_same { Some(lexer) } else { None }
}

/// The same for a set that has these tokens, whose names have these numbers.
fn show_list(set: &FileSet, list: &[PpToken], mut names: Names, answer: &mut Answer) {
    let alloc = answer.alloc();
    let mut own = Names::new(alloc);
    let Some(lexer) = streamed(alloc, set, list, &names, &mut own) else {
        answer.write(b"DIFFERS: the tokens, or the end");
        return;
    };
    let whole = tokens(alloc, list, &mut names);
    if is_same_reading(&whole, &names, &lexer.end(&mut own), &own) {
        show_same(list.len(), &whole, answer);
    } else {
        answer.write(b"DIFFERS: the C tokens");
    }
}

/// Writes the result of both.
fn show_same(count: usize, whole: &Result<Vec<Token>, Fault>, answer: &mut Answer) {
    answer.write(b"same, ");
    answer.show(&count);
    answer.write(b" tokens");
    match whole {
        Ok(tokens) => {
            answer.write(b", ");
            answer.show(&tokens.len());
            answer.write(b" C tokens");
        }
        Err(fault) => show_fault(fault, answer),
    }
}

fn show_fault(fault: &Fault, answer: &mut Answer) {
    answer.write(b", fault ");
    answer.show(&fault.code);
    answer.write(b" at ");
    answer.show(&fault.line);
}
