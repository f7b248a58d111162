//! Statements, with a pair of brackets around each that has a statement in it.

use crate::piece::{Piece, Pieces};
use tree::{BlockItem, Expr, ForStart, Stmt};

pub fn statement<'t>(parts: &mut Pieces<'t>, stmt: &'t Stmt) {
    match stmt {
        Stmt::Block(_, items) => block(parts, items.as_slice()),
        Stmt::Empty(_) => parts.add(Piece::Text(b";")),
        Stmt::Expression(_, value) => {
            parts.add(Piece::Expression(value));
            parts.add(Piece::Text(b";"))
        }
        Stmt::Break(_) => parts.add(Piece::Text(b"break;")),
        Stmt::Continue(_) => parts.add(Piece::Text(b"continue;")),
        Stmt::Return(_, value) => {
            parts.add(Piece::Text(b"return "));
            optional(parts, value, b";")
        }
        _ => with_body(parts, stmt),
    }
}

/// A statement that has a statement in it.
fn with_body<'t>(parts: &mut Pieces<'t>, stmt: &'t Stmt) {
    match stmt {
        Stmt::If(_, condition, yes) => headed(parts, b"[if ", condition, yes, b"]"),
        Stmt::IfElse(_, condition, yes, no) => {
            headed(parts, b"[if ", condition, yes, b" else ");
            parts.add(Piece::Statement(&**no));
            parts.add(Piece::Text(b"]"))
        }
        Stmt::Switch(_, value, body) => headed(parts, b"[switch ", value, body, b"]"),
        Stmt::Case(_, value, body) => headed(parts, b"[case ", value, body, b"]"),
        Stmt::While(_, condition, body) => headed(parts, b"[while ", condition, body, b"]"),
        _ => with_other_body(parts, stmt),
    }
}

fn with_other_body<'t>(parts: &mut Pieces<'t>, stmt: &'t Stmt) {
    match stmt {
        Stmt::Default(_, body) => {
            parts.add(Piece::Text(b"[default "));
            parts.add(Piece::Statement(&**body));
            parts.add(Piece::Text(b"]"))
        }
        Stmt::DoWhile(_, body, condition) => {
            parts.add(Piece::Text(b"[do "));
            parts.add(Piece::Statement(&**body));
            parts.add(Piece::Text(b" while "));
            parts.add(Piece::Expression(condition));
            parts.add(Piece::Text(b"]"))
        }
        Stmt::For(_, head, body) => {
            for_start(parts, &head.start);
            optional(parts, &head.test, b"; ");
            optional(parts, &head.step, b" ");
            parts.add(Piece::Statement(&**body));
            parts.add(Piece::Text(b"]"))
        }
        _ => {}
    }
}

/// A word, an expression and a statement, and a text.
fn headed<'t>(
    parts: &mut Pieces<'t>,
    word: &'static [u8],
    value: &'t Expr,
    body: &'t Stmt,
    behind: &'static [u8],
) {
    parts.add(Piece::Text(word));
    parts.add(Piece::Expression(value));
    parts.add(Piece::Text(b" "));
    parts.add(Piece::Statement(body));
    parts.add(Piece::Text(behind));
}

/// An expression, where there is one, and a text.
fn optional<'t>(parts: &mut Pieces<'t>, value: &'t Option<Expr>, text: &'static [u8]) {
    if let Some(value) = value {
        parts.add(Piece::Expression(value));
    }
    parts.add(Piece::Text(text))
}

fn for_start<'t>(parts: &mut Pieces<'t>, start: &'t ForStart) {
    parts.add(Piece::Text(b"[for "));
    match start {
        ForStart::Expression(value) => optional(parts, value, b"; "),
        ForStart::Declaration(declaration) => {
            parts.add(Piece::Declaration(declaration));
            parts.add(Piece::Text(b" "))
        }
    }
}

fn block<'t>(parts: &mut Pieces<'t>, items: &'t [BlockItem]) {
    parts.add(Piece::Text(b"{ "));
    for item in items {
        parts.add(Piece::Item(item));
        parts.add(Piece::Text(b" "));
    }
    parts.add(Piece::Text(b"}"))
}

pub fn item<'t>(parts: &mut Pieces<'t>, item: &'t BlockItem) {
    match item {
        BlockItem::Declaration(declaration) => parts.add(Piece::Declaration(declaration)),
        BlockItem::Statement(stmt) => parts.add(Piece::Statement(stmt)),
    }
}
