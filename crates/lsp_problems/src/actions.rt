//! Code actions: the changes that mend faults.

use crate::problems::{Fix, Problem, put_problem};
use lsp_program::{put_comma, put_edit, put_text_member, span_of, text_at};
use lsp_text::{Position, Span};
use lsp_wire::{Outcome, RpcError, put_string};
use serde_json::Value;
use std::alloc::{AllocError, Global};

/// `textDocument/codeAction`: a quick fix for each problem that has one, where the problem or its fix is in the range.
pub fn code_actions(
    alloc: Global,
    problems: &[Problem],
    params: &Value,
) -> Result<Outcome, AllocError> {
    let uri = text_at(params, "/textDocument/uri");
    let span = params.pointer("/range").and_then(span_of);
    let (Some(uri), Some(span)) = (uri, span) else {
        return Ok(Outcome::Refused(RpcError::InvalidParams, RpcError::InvalidParams.text()));
    };
    let mut out = String::from_str(alloc, "[")?;
    for problem in problems {
        if let Some(fix) = &problem.fix {
            let is_wanted = meet(problem.span, span) || meet(fix.span, span);
            if problem.uri.as_str() == uri && is_wanted {
                put_action(alloc, problem, fix, &mut out)?;
            }
        }
    }
    out.push_str("]")?;
    Ok(Outcome::Answer(out))
}

/// Whether two ranges have a place in common, their ends among them; whole lines count.
fn meet(one: Span, other: Span) -> bool {
    is_before(one.start, other.end) && is_before(other.start, one.end)
}

fn is_before(one: Position, other: Position) -> bool {
    one.line <= other.line
}

/// A `CodeAction`.
fn put_action(
    alloc: Global,
    problem: &Problem,
    fix: &Fix,
    out: &mut String,
) -> Result<(), AllocError> {
    put_comma(1, out)?;
    out.push_str("{\"kind\":\"quickfix\",\"isPreferred\":true")?;
    put_text_member(alloc, "title", title(alloc, fix)?.as_str(), out)?;
    out.push_str(",\"diagnostics\":[")?;
    put_problem(alloc, problem, out)?;
    out.push_str("],\"edit\":{\"changes\":{")?;
    put_string(alloc, problem.uri.as_str(), out)?;
    out.push_str(":[")?;
    put_edit(alloc, fix.span, fix.text.as_str(), out)?;
    out.push_str("]}}}")
}

/// The title of an action.
fn title(alloc: Global, fix: &Fix) -> Result<String, AllocError> {
    let text = fix.text.as_str();
    if text.is_empty() {
        return String::from_str(alloc, "remove this");
    }
    if fix.span.start == fix.span.end {
        return format!(in alloc; "insert '{text}'");
    }
    format!(in alloc; "replace this by '{text}'")
}
