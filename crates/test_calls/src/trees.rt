//! The syntax trees of sources.

use crate::piece::show_unit;
use crate::scanned::show_line;
use phases::scan;
use srcset::{Code, Fault, MAX_FILE_BYTES, Names};
use std::alloc::Global;
use test_rows::{Answer, Fields};
use tree::Unit;

fn syntax_tree(alloc: Global, source: &[u8], names: &mut Names) -> Result<Unit, Fault> {
    if source.len() > MAX_FILE_BYTES {
        return Err(Fault::at(alloc, Code::FileSizeLimit, "row.c", 0));
    }
    let file = names.intern(b"row.c").unwrap_or(0);
    let tokens = match scan(alloc, source, file, names) {
        Ok(lines) => lexer::tokens(alloc, lines.tokens(), names),
        Err(fault) => Err(fault),
    };
    match tokens {
        Ok(tokens) => parser::parse(alloc, tokens.as_slice(), names),
        Err(fault) => Err(fault),
    }
}

/// `tree SOURCE`: its tree, or the line of its fault.
pub fn tree_of(row: &Fields, answer: &mut Answer) {
    let mut names = Names::new(answer.alloc());
    match syntax_tree(answer.alloc(), row.field(1), &mut names) {
        Ok(unit) => show_unit(&unit, &names, answer),
        Err(fault) => show_line(&fault, answer),
    }
}

/// `counts SOURCE`: how many nodes its tree has, and how deep it is.
pub fn counts_of(row: &Fields, answer: &mut Answer) {
    let mut names = Names::new(answer.alloc());
    match syntax_tree(answer.alloc(), row.field(1), &mut names) {
        Ok(unit) => {
            answer.show(&unit.nodes());
            answer.write(b" nodes, depth ");
            answer.show(&unit.depth());
        }
        Err(fault) => show_line(&fault, answer),
    }
}
