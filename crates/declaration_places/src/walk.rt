//! The declarations of a file, passed in order.

use crate::declared::Declared;
use crate::forms::{close_behind, is_identifier, is_type_word, separator_from};
use source_words::Words;
use std::alloc::{AllocError, Global};

/// A `for` whose head declares something.
#[derive(Clone, Copy, Debug, PartialEq, Eq)]
struct Loop {
    /// The first token after the statement.
    past: usize,
    /// How many declarations are visible before it.
    count: usize,
}

/// The state of the walk: the tokens passed so far.
#[derive(Drop)]
struct Walk {
    found: Vec<Declared>,
    // For each block that is open, how many declarations are visible before it.
    blocks: Vec<usize>,
    loops: Vec<Loop>,
    // The first token of the declaration that is open.
    front: Option<usize>,
    // How many declarations are visible before the parameters of the function whose body comes next.
    parameters: Option<usize>,
}

/// The declarations that are visible at the token with this number, in their order. The file is taken as it is written: the results of macros
/// are not seen.
pub fn visible(
    alloc: Global,
    words: &Words<'_>,
    number: usize,
) -> Result<Vec<Declared>, AllocError> {
    let mut walk = Walk {
        found: Vec::new(alloc),
        blocks: Vec::new(alloc),
        loops: Vec::new(alloc),
        front: None,
        parameters: None,
    };
    let mut next = 0;
    for _ in 0..number {
        if next >= number {
            break;
        }
        next = walk.pass(words, next)?;
    }
    walk.end_loops(number);
    Ok(walk.found)
}

impl Walk {
    /// Passes the token with this number; returns the next one to be passed.
    fn pass(&mut self, words: &Words<'_>, number: usize) -> Result<usize, AllocError> {
        self.end_loops(number);
        let next = number.saturating_add(1);
        match words.at(number) {
            b"{" => self.open(words, number),
            b"}" => {
                self.close();
                Ok(next)
            }
            b";" => {
                self.front = None;
                Ok(next)
            }
            b"=" | b"[" if self.front.is_some() => Ok(past_value(words, number)),
            b"for" => self.pass_for(words, number),
            token if self.begins(words, number) => {
                if self.front.is_none() {
                    self.front = Some(number);
                }
                Ok(past_type(words, number, token))
            }
            token if is_identifier(token) => self.pass_name(words, number),
            _ => Ok(next),
        }
    }

    /// Forgets the loops that end before this token.
    fn end_loops(&mut self, number: usize) {
        for _ in 0..self.loops.len() {
            let Some(last) = self.loops.last().copied() else {
                break;
            };
            if last.past > number {
                break;
            }
            self.found.truncate(last.count);
            let _ended = self.loops.pop();
        }
    }

    /// Whether the token with this number is of a type: a keyword, or a name that a declared name follows.
    fn begins(&self, words: &Words<'_>, number: usize) -> bool {
        let token = words.at(number);
        let is_front = self.front.is_some()
            || matches!(words.before(number), b"" | b";" | b"{" | b"}");
        if is_type_word(token) {
            return is_front;
        }
        let next = words.at(number.saturating_add(1));
        self.front.is_none() && is_front && is_identifier(token) && is_identifier(next)
    }

    /// Passes a `{`: of enumerators, or of a block.
    fn open(&mut self, words: &Words<'_>, number: usize) -> Result<usize, AllocError> {
        let next = number.saturating_add(1);
        let count = match self.parameters.take() {
            Some(count) => count,
            None => self.found.len(),
        };
        if is_enum_list(words, number) {
            return self.pass_enumerators(words, number);
        }
        self.blocks.push(count)?;
        self.front = None;
        Ok(next)
    }

    fn close(&mut self) {
        if let Some(count) = self.blocks.pop() {
            self.found.truncate(count);
        }
        self.front = None;
    }

    /// Passes enumerators up to their `}`.
    fn pass_enumerators(&mut self, words: &Words<'_>, open: usize) -> Result<usize, AllocError> {
        let Some(close) = close_behind(words, open) else {
            return Ok(words.list.len());
        };
        let depth = self.blocks.len();
        for number in open..close {
            let is_first = matches!(words.before(number), b"{" | b",");
            if is_first && is_identifier(words.at(number)) {
                self.declare(number, number, depth, false)?;
            }
        }
        Ok(close.saturating_add(1))
    }

    /// Passes `for`, and records where its statement ends.
    fn pass_for(&mut self, words: &Words<'_>, number: usize) -> Result<usize, AllocError> {
        let open = number.saturating_add(1);
        let first = open.saturating_add(1);
        if !is_type_word(words.at(first)) {
            return Ok(open);
        }
        if let Some(close) = close_behind(words, open) {
            self.loops.push(Loop {
                past: statement_end(words, close.saturating_add(1)),
                count: self.found.len(),
            })?;
        }
        self.front = Some(first);
        Ok(first)
    }

    /// Passes a name, which may be one that is declared.
    fn pass_name(&mut self, words: &Words<'_>, number: usize) -> Result<usize, AllocError> {
        let next = number.saturating_add(1);
        let Some(front) = self.front else {
            return Ok(next);
        };
        if matches!(words.before(number), b"enum") {
            return Ok(next);
        }
        let is_function = matches!(words.at(next), b"(");
        let depth = self.blocks.len();
        self.declare(number, front, depth, is_function)?;
        if is_function {
            return self.pass_parameters(words, next);
        }
        Ok(next)
    }

    /// Passes parameters, which are visible where a body follows.
    fn pass_parameters(&mut self, words: &Words<'_>, open: usize) -> Result<usize, AllocError> {
        let Some(close) = close_behind(words, open) else {
            return Ok(words.list.len());
        };
        let behind = close.saturating_add(1);
        if !matches!(words.at(behind), b"{") {
            return Ok(behind);
        }
        self.parameters = Some(self.found.len());
        let depth = self.blocks.len().saturating_add(1);
        for number in open..close {
            if is_parameter(words, number) {
                self.declare(number, open.saturating_add(1), depth, false)?;
            }
        }
        Ok(behind)
    }

    fn declare(
        &mut self,
        name: usize,
        front: usize,
        depth: usize,
        is_function: bool,
    ) -> Result<(), AllocError> {
        self.found.push(Declared {
            name,
            front,
            depth,
            is_function,
        })?;
        Ok(())
    }
}

/// Whether the `{` with this number opens a list of enumerators.
fn is_enum_list(words: &Words<'_>, open: usize) -> bool {
    let Some(before) = open.checked_sub(1) else {
        return false;
    };
    matches!(words.at(before), b"enum") || matches!(words.before(before), b"enum")
}

/// Whether the token with this number is the name of a parameter.
fn is_parameter(words: &Words<'_>, number: usize) -> bool {
    is_identifier(words.at(number))
        && !matches!(words.before(number), b"(" | b"," | b"[" | b"enum")
        && matches!(words.at(number.saturating_add(1)), b"," | b")" | b"[")
}

/// The token after an initialiser, or after the size of an array.
fn past_value(words: &Words<'_>, number: usize) -> usize {
    let next = number.saturating_add(1);
    if matches!(words.at(number), b"[") {
        return match close_behind(words, number) {
            Some(close) => close.saturating_add(1),
            None => words.list.len(),
        };
    }
    separator_from(words, next)
}

/// The token after a type's word, or after the tag of an enumeration.
fn past_type(words: &Words<'_>, number: usize, token: &[u8]) -> usize {
    let next = number.saturating_add(1);
    if matches!(token, b"enum") && is_identifier(words.at(next)) {
        return next.saturating_add(1);
    }
    next
}

/// The first token after the statement that begins with this one, where that is a block or a simple statement.
fn statement_end(words: &Words<'_>, first: usize) -> usize {
    let mut number = first;
    for _ in first..words.list.len() {
        number = match words.at(number) {
            b"{" => {
                return match close_behind(words, number) {
                    Some(close) => close.saturating_add(1),
                    None => words.list.len(),
                };
            }
            b";" => return number.saturating_add(1),
            b"(" | b"[" => match close_behind(words, number) {
                Some(close) => close.saturating_add(1),
                None => return words.list.len(),
            },
            _ => number.saturating_add(1),
        };
    }
    words.list.len()
}
