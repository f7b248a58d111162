//! Calls around a place.

use crate::words::{Class, Word};

/// A call that is open at a place.
#[derive(Clone, Copy, Debug, PartialEq, Eq)]
pub struct CallSite {
    /// The number of the token that is called.
    pub called: usize,
    /// The number of the argument, from 0.
    pub argument: usize,
}

/// Returns the innermost call whose parentheses enclose an offset in these tokens. It looks no further back than the statement.
pub fn call_at(words: &[Word], offset: usize) -> Option<CallSite> {
    let count = words.partition_point(|word| word.end <= offset);
    let before = words.get(..count).unwrap_or_default();
    let mut depth: usize = 0;
    let mut argument: usize = 0;
    for (number, word) in before.iter().enumerate().rev() {
        match word.class {
            Class::CloseRound | Class::CloseSquare => depth = depth.saturating_add(1),
            Class::Semicolon | Class::OpenBrace | Class::CloseBrace => return None,
            Class::Comma if depth == 0 => argument = argument.saturating_add(1),
            Class::OpenRound if depth == 0 => match called(before, number) {
                Some(called) => return Some(CallSite { called, argument }),
                None => argument = 0,
            },
            Class::OpenRound | Class::OpenSquare => depth = depth.saturating_sub(1),
            _ => {}
        }
    }
    None
}

/// The token of the name before the parenthesis with this number.
fn called(words: &[Word], open: usize) -> Option<usize> {
    let number = open.checked_sub(1)?;
    let word = words.get(number)?;
    if word.class == Class::Identifier {
        Some(number)
    } else {
        None
    }
}
