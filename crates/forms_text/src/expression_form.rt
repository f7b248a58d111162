//! Expressions of the syntax tree (ISO/IEC 9899:2011 6.5).

use crate::words::{assign_word, binary_word, prefix_word, step_word, type_word};
use crate::writer::Writer;
use srcset::Pos;
use std::alloc::AllocError;
use tree::{Expr, TypeName, TypeSpecifier, Word};

pub(crate) fn word_of(word: Word) -> &'static str {
    match word {
        Word::Void => "void",
        Word::Char => "char",
        Word::Short => "short",
        Word::Int => "int",
        Word::Long => "long",
        Word::Signed => "signed",
        Word::Unsigned => "unsigned",
        Word::Bool => "_Bool",
    }
}

pub(crate) fn put_specifier(
    out: &mut Writer<'_>,
    specifier: TypeSpecifier,
) -> Result<(), AllocError> {
    match specifier {
        TypeSpecifier::Const => out.word("specifier", "const"),
        TypeSpecifier::Word(word) => out.word("specifier", word_of(word)),
        TypeSpecifier::Enum(tag) => out.name("enum", tag),
    }
}

/// Specifiers, each a node.
pub(crate) fn put_specifiers(
    out: &mut Writer<'_>,
    specifiers: &[TypeSpecifier],
) -> Result<(), AllocError> {
    for specifier in specifiers {
        out.begin("specifier")?;
        put_specifier(out, *specifier)?;
        out.end()?;
    }
    Ok(())
}

/// Opens the node of a type name; its array sizes follow.
fn begin_type(out: &mut Writer<'_>, name: &TypeName) -> Result<(), AllocError> {
    out.begin_at("type", name.specifiers.pos)?;
    put_specifiers(out, name.specifiers.list.as_slice())
}

/// Opens a node with an operator.
fn begin_operator(out: &mut Writer<'_>, node: &str, op: &str, at: Pos) -> Result<(), AllocError> {
    out.begin(node)?;
    out.word("op", op)?;
    out.place(at)
}

/// Opens the node of an identifier, a constant or a string literal.
fn begin_primary(out: &mut Writer<'_>, e: &Expr) -> Result<(), AllocError> {
    match e {
        Expr::Name(at, name) => {
            out.begin("name")?;
            out.name("name", *name)?;
            out.place(*at)
        }
        Expr::Constant(at, ty, value) => {
            out.begin("constant")?;
            out.word("type", type_word(*ty))?;
            out.number("value", value_in(ty.is_signed(), *value))?;
            out.place(*at)
        }
        Expr::StringLiteral(at, text) => {
            out.begin("string")?;
            out.count("number", *text)?;
            out.place(*at)
        }
        _ => out.begin("parentheses"),
    }
}

/// A word as a value of a type.
fn value_in(is_signed: bool, word: u32) -> i64 {
    let value = i64::from(word);
    if is_signed && value >= 0x8000_0000 {
        value - 0x1_0000_0000
    } else {
        value
    }
}

/// Opens the node of an expression: all that it has before its parts.
fn begin_expression(out: &mut Writer<'_>, e: &Expr) -> Result<(), AllocError> {
    match e {
        Expr::Call(at, name, _) => {
            out.begin("call")?;
            out.name("name", *name)?;
            out.place(*at)
        }
        Expr::Subscript(at, _, _) => begin_operator(out, "subscript", "[]", *at),
        Expr::After(at, op, _) => begin_operator(out, "postfix", step_word(*op), *at),
        Expr::Before(at, op, _) => begin_operator(out, "prefix", step_word(*op), *at),
        Expr::Prefix(at, op, _) => begin_operator(out, "unary", prefix_word(*op), *at),
        Expr::SizeofExpr(at, _) | Expr::SizeofType(at, _) => out.begin_at("sizeof", *at),
        Expr::Cast(at, _, _) => out.begin_at("cast", *at),
        Expr::Binary(at, op, _, _) => begin_operator(out, "binary", binary_word(*op), *at),
        Expr::Conditional(at, _, _, _) => out.begin_at("conditional", *at),
        Expr::Assign(at, op, _, _) => begin_operator(out, "assignment", assign_word(*op), *at),
        _ => begin_primary(out, e),
    }
}

#[cycle(expression_forms)]
pub(crate) fn put_expression(out: &mut Writer<'_>, e: &Expr) -> Result<(), AllocError> {
    begin_expression(out, e)?;
    match e {
        Expr::Name(_, _) | Expr::Constant(_, _, _) | Expr::StringLiteral(_, _) => {}
        Expr::Paren(a)
        | Expr::After(_, _, a)
        | Expr::Before(_, _, a)
        | Expr::Prefix(_, _, a)
        | Expr::SizeofExpr(_, a) => put_expression(out, a)?,
        Expr::Call(_, _, arguments) => put_all(out, arguments.as_slice())?,
        Expr::SizeofType(_, name) => {
            begin_type(out, name)?;
            put_all(out, name.sizes.as_slice())?;
            out.end()?;
        }
        Expr::Cast(_, name, a) => {
            begin_type(out, name)?;
            put_all(out, name.sizes.as_slice())?;
            out.end()?;
            put_expression(out, a)?;
        }
        Expr::Subscript(_, a, b) | Expr::Binary(_, _, a, b) | Expr::Assign(_, _, a, b) => {
            put_expression(out, a)?;
            put_expression(out, b)?;
        }
        Expr::Conditional(_, c, a, b) => {
            put_expression(out, c)?;
            put_expression(out, a)?;
            put_expression(out, b)?;
        }
    }
    out.end()
}

#[cycle(expression_forms)]
pub(crate) fn put_all(out: &mut Writer<'_>, all: &[Expr]) -> Result<(), AllocError> {
    for e in all {
        put_expression(out, e)?;
    }
    Ok(())
}
