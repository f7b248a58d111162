//! The bodies of the functions that a source file defines.

use crate::spots::Tokens;
use std::alloc::{AllocError, Global};

/// The body of a function: the tokens between its outermost braces, by their numbers in the file.
#[derive(Clone, Copy)]
pub struct Body {
    /// The token after `{`.
    pub first: usize,
    /// The `}`.
    pub past: usize,
}

/// The state of a walk over a file's tokens.
#[derive(Clone, Copy)]
struct Passed {
    depth: usize,
    // Where the body began that is open.
    open: Option<usize>,
    closes_list: bool,
}

/// The bodies in a file: at no other brace's inside, `{` directly after `)`, through the `}` that closes it. A body that is
/// not closed is none. Directives are passed over.
pub fn bodies(alloc: Global, tokens: &Tokens<'_>) -> Result<Vec<Body>, AllocError> {
    let mut found = Vec::new(alloc);
    let mut passed = Passed {
        depth: 0,
        open: None,
        closes_list: false,
    };
    for (number, spot) in tokens.spots.iter().enumerate() {
        if !spot.in_directive {
            if let Some(body) = pass(&mut passed, number, tokens.spelling(number)) {
                found.push(body)?;
            }
        }
    }
    Ok(found)
}

/// Passes a token; returns the body that it closes.
fn pass(passed: &mut Passed, number: usize, spelling: &[u8]) -> Option<Body> {
    let closes_list = passed.closes_list;
    passed.closes_list = matches!(spelling, b")");
    if matches!(spelling, b"{" | b"<%") {
        if passed.depth == 0 && closes_list {
            passed.open = Some(number.saturating_add(1));
        }
        passed.depth = passed.depth.saturating_add(1);
    } else if matches!(spelling, b"}" | b"%>") {
        passed.depth = passed.depth.saturating_sub(1);
        if passed.depth == 0 {
            let first = passed.open.take()?;
            return Some(Body {
                first,
                past: number,
            });
        }
    }
    None
}
