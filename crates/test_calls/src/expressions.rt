//! Expressions and type names, with a pair of parentheses around each that has operands.

use crate::piece::{Piece, Pieces};
use crate::words::{assign_text, binary_text, prefix_text, step_text, word_text};
use tree::{Expr, TypeName, TypeSpecifier};

/// The pieces of an expression. Parentheses of the source are left out: the grouping shows in the others.
pub fn expression<'t>(parts: &mut Pieces<'t>, expr: &'t Expr) {
    match expr {
        Expr::Name(_, name) => parts.add(Piece::Name(*name)),
        Expr::Constant(_, ty, value) => parts.add(Piece::Constant(*ty, *value)),
        Expr::StringLiteral(_, name) => quoted(parts, *name),
        Expr::Paren(inner) => parts.add(Piece::Expression(&**inner)),
        Expr::Call(_, name, arguments) => call(parts, *name, arguments.as_slice()),
        _ => operation(parts, expr),
    }
}

fn quoted<'t>(parts: &mut Pieces<'t>, name: usize) {
    parts.add(Piece::Text(b"\""));
    parts.add(Piece::Name(name));
    parts.add(Piece::Text(b"\""));
}

/// The pieces of an expression with one operand.
fn operation<'t>(parts: &mut Pieces<'t>, expr: &'t Expr) {
    match expr {
        Expr::After(_, op, operand) => {
            parts.add(Piece::Text(b"("));
            before(parts, b"", operand, step_text(*op))
        }
        Expr::Before(_, op, operand) => {
            parts.add(Piece::Text(b"("));
            before(parts, step_text(*op), operand, b"")
        }
        Expr::Prefix(_, op, operand) => before(parts, prefix_text(*op), operand, b""),
        Expr::SizeofExpr(_, operand) => before(parts, b"(sizeof ", operand, b""),
        Expr::SizeofType(_, name) => {
            parts.add(Piece::Text(b"(sizeof("));
            type_name(parts, name);
            parts.add(Piece::Text(b"))"))
        }
        Expr::Cast(_, name, operand) => {
            parts.add(Piece::Text(b"(("));
            type_name(parts, name);
            before(parts, b")", operand, b"")
        }
        _ => combination(parts, expr),
    }
}

/// The pieces of an expression with more operands.
fn combination<'t>(parts: &mut Pieces<'t>, expr: &'t Expr) {
    match expr {
        Expr::Subscript(_, array, index) => between(parts, array, b"[", index, b"])"),
        Expr::Binary(_, op, left, right) => between(parts, left, binary_text(*op), right, b")"),
        Expr::Assign(_, op, left, right) => between(parts, left, assign_text(*op), right, b")"),
        Expr::Conditional(_, condition, yes, no) => {
            between(parts, condition, b" ? ", yes, b" : ");
            before(parts, b"", no, b"")
        }
        _ => {}
    }
}

/// One operand between two texts, and a closing parenthesis.
fn before<'t>(
    parts: &mut Pieces<'t>,
    text: &'static [u8],
    operand: &'t Expr,
    behind: &'static [u8],
) {
    parts.add(Piece::Text(text));
    parts.add(Piece::Expression(operand));
    parts.add(Piece::Text(behind));
    parts.add(Piece::Text(b")"));
}

/// Two operands after an opening parenthesis, with a text between and after them.
fn between<'t>(
    parts: &mut Pieces<'t>,
    left: &'t Expr,
    sign: &'static [u8],
    right: &'t Expr,
    close: &'static [u8],
) {
    parts.add(Piece::Text(b"("));
    parts.add(Piece::Expression(left));
    parts.add(Piece::Text(sign));
    parts.add(Piece::Expression(right));
    parts.add(Piece::Text(close));
}

fn call<'t>(parts: &mut Pieces<'t>, name: usize, arguments: &'t [Expr]) {
    parts.add(Piece::Name(name));
    let mut sign = b"(".as_slice();
    for argument in arguments {
        parts.add(Piece::Text(sign));
        parts.add(Piece::Expression(argument));
        sign = b", ";
    }
    parts.add(Piece::Text(if arguments.is_empty() { b"()" } else { b")" }))
}

fn type_name<'t>(parts: &mut Pieces<'t>, name: &'t TypeName) {
    let mut space = b"".as_slice();
    for specifier in &name.specifiers.list {
        parts.add(Piece::Text(space));
        type_specifier(parts, *specifier);
        space = b" ";
    }
    for size in &name.sizes {
        parts.add(Piece::Text(b"["));
        parts.add(Piece::Expression(size));
        parts.add(Piece::Text(b"]"));
    }
}

pub fn type_specifier<'t>(parts: &mut Pieces<'t>, specifier: TypeSpecifier) {
    match specifier {
        TypeSpecifier::Const => parts.add(Piece::Text(b"const")),
        TypeSpecifier::Word(word) => parts.add(Piece::Text(word_text(word))),
        TypeSpecifier::Enum(tag) => {
            parts.add(Piece::Text(b"enum "));
            parts.add(Piece::Name(tag))
        }
    }
}
