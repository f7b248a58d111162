//! Macros whose operands may be torn apart by the tokens around them (ISO/IEC 9899:2011 6.10.3).

use crate::words::{
    ends_operand, is_assignment, is_of_statement, is_operator, is_sign, is_type_word,
};
use explain_places::Tokens;
use phases::{Kind, PpToken};
use std::alloc::{AllocError, Global};

/// The most parameters that are examined, which is the most that a macro may have.
const MAX_PARAMETERS: usize = 127;

/// The part of a macro that lacks parentheses around it.
#[derive(Clone, Copy, Debug, PartialEq, Eq)]
pub struct MacroFault {
    /// The number of the token: a parameter in the body, or the macro's name where the whole body lacks them.
    pub token: usize,
    pub is_whole: bool,
}

/// The first fault of each macro that a file defines.
pub fn macro_faults(alloc: Global, tokens: &Tokens<'_>) -> Result<Vec<MacroFault>, AllocError> {
    let mut faults = Vec::new(alloc);
    let mut past = 0;
    for number in 0..tokens.spots.len() {
        if number >= past && is_define(tokens, number) {
            past = directive_end(tokens, number);
            if let Some(fault) = fault_of(tokens.all(), number.saturating_add(2), past) {
                faults.push(fault)?;
            }
        }
    }
    Ok(faults)
}

/// Whether a `#define` begins at this token.
fn is_define(tokens: &Tokens<'_>, number: usize) -> bool {
    let Some(spot) = tokens.spot(number) else {
        return false;
    };
    let next = tokens.spelling(number.saturating_add(1));
    spot.is_first && spot.in_directive && matches!(next, b"define")
}

/// The number of the first token after the directive that begins here.
fn directive_end(tokens: &Tokens<'_>, start: usize) -> usize {
    let first = start.saturating_add(1);
    for number in first..tokens.spots.len() {
        match tokens.spot(number) {
            Some(spot) if !spot.is_first => {}
            _ => return number,
        }
    }
    tokens.spots.len()
}

/// The fault of the macro whose name has this number.
fn fault_of(all: &[PpToken<'_>], name: usize, past: usize) -> Option<MacroFault> {
    let list = list_end(all, name, past);
    let behind = name.saturating_add(1);
    let first = match list {
        Some(end) => end.saturating_add(1),
        None => behind,
    };
    let body = all.get(first..past)?;
    if let Some(end) = list {
        let parameters = all.get(behind..end).unwrap_or_default();
        if let Some(number) = bare_parameter(parameters, body) {
            return Some(MacroFault {
                token: first.saturating_add(number),
                is_whole: false,
            });
        }
    }
    if is_bare(body) {
        Some(MacroFault {
            token: name,
            is_whole: true,
        })
    } else {
        None
    }
}

/// The number of the `)` that ends a macro's parameters, where it has a list of them.
fn list_end(all: &[PpToken<'_>], name: usize, past: usize) -> Option<usize> {
    let behind = name.saturating_add(1);
    let open = all.get(behind)?;
    if behind >= past || open.space_before() || !matches!(open.spelling(), b"(") {
        return None;
    }
    let rest = all.get(behind..past)?;
    let count = rest
        .iter()
        .position(|token| matches!(token.spelling(), b")"))?;
    Some(behind.saturating_add(count))
}

/// The number in a body of the first use of a parameter next to an operator.
fn bare_parameter(parameters: &[PpToken<'_>], body: &[PpToken<'_>]) -> Option<usize> {
    for parameter in parameters.iter().take(MAX_PARAMETERS) {
        if parameter.kind() == Kind::Identifier {
            if let Some(number) = bare_use(body, parameter.spelling()) {
                return Some(number);
            }
        }
    }
    None
}

/// The number of the first use of a parameter next to an operator; `None` where a use shows that it must be a name.
fn bare_use(body: &[PpToken<'_>], name: &[u8]) -> Option<usize> {
    let mut found = None;
    for (number, token) in body.iter().enumerate() {
        if token.spelling() == name {
            if must_be_name(body, number) {
                return None;
            }
            if found.is_none() && is_beside_operator(body, number) {
                found = Some(number);
            }
        }
    }
    found
}

/// The spelling of the token `count` places before another; empty where there is none.
fn before<'t>(body: &'t [PpToken<'_>], number: usize, count: usize) -> &'t [u8] {
    match number.checked_sub(count) {
        Some(at) => spelling_at(body, at),
        None => &[],
    }
}

fn spelling_at<'t>(body: &'t [PpToken<'_>], number: usize) -> &'t [u8] {
    match body.get(number) {
        Some(token) => token.spelling(),
        None => &[],
    }
}

/// Whether the argument of a parameter must be a name there: it is joined, spelled, assigned, stepped, declared, called, or has a subscript.
fn must_be_name(body: &[PpToken<'_>], number: usize) -> bool {
    let last = before(body, number, 1);
    let next = spelling_at(body, number.saturating_add(1));
    is_pasted(last)
        || is_pasted(next)
        || matches!(last, b"++" | b"--")
        || matches!(next, b"++" | b"--" | b"(" | b"[")
        || is_type_word(last)
        || is_assignment(next)
}

fn is_pasted(spelling: &[u8]) -> bool {
    matches!(spelling, b"#" | b"##" | b"%:" | b"%:%:")
}

/// Whether an operator, or a cast, is next to a token.
fn is_beside_operator(body: &[PpToken<'_>], number: usize) -> bool {
    let last = before(body, number, 1);
    let next = spelling_at(body, number.saturating_add(1));
    let is_cast = matches!(last, b")") && is_type_word(before(body, number, 2));
    let follows = is_operator(last) && !matches!(last, b"?");
    follows || is_sign(last) || is_operator(next) || is_cast
}

/// Whether a body is an expression with an operator outside of all parentheses.
fn is_bare(body: &[PpToken<'_>]) -> bool {
    let mut depth: usize = 0;
    let mut found = false;
    for (number, token) in body.iter().enumerate() {
        let spelling = token.spelling();
        if matches!(spelling, b"(" | b"[") {
            depth = depth.saturating_add(1);
        } else if matches!(spelling, b")" | b"]") {
            depth = depth.saturating_sub(1);
        } else if depth == 0 && is_of_statement(spelling) {
            return false;
        } else if depth == 0 && is_operator(spelling) && is_between(body, number) {
            found = true;
        }
    }
    found
}

/// Whether an operator is between two operands, and not after a cast.
fn is_between(body: &[PpToken<'_>], number: usize) -> bool {
    let Some(last) = number.checked_sub(1) else {
        return false;
    };
    let Some(token) = body.get(last) else {
        return false;
    };
    let is_cast = matches!(token.spelling(), b")") && is_type_word(before(body, last, 1));
    ends_operand(token) && !is_cast && number.saturating_add(1) < body.len()
}
