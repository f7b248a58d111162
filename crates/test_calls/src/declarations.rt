//! Declarations.

use crate::expressions::type_specifier;
use crate::piece::{Piece, Pieces};
use tree::{
    Declaration, Enumerator, Expr, External, Function, FunctionDeclarator, Initialiser, Item,
    ObjectDeclarator, Parameter, Specifier, Specifiers,
};

pub fn external<'t>(parts: &mut Pieces<'t>, part: &'t External) {
    match part {
        External::Function(definition) => function(parts, definition),
        External::Declaration(part) => {
            parts.add(Piece::Declaration(part));
            parts.add(Piece::Text(b"\n"))
        }
    }
}

fn function<'t>(parts: &mut Pieces<'t>, part: &'t Function) {
    specifiers(parts, &part.specifiers);
    function_declarator(parts, &part.declarator);
    parts.add(Piece::Text(b" {\n"));
    for item in &part.body {
        parts.add(Piece::Item(item));
        parts.add(Piece::Text(b"\n"));
    }
    parts.add(Piece::Text(b"}\n"))
}

pub fn declaration<'t>(parts: &mut Pieces<'t>, part: &'t Declaration) {
    match part {
        Declaration::Declared(list, items) => declared(parts, list, items.as_slice()),
        Declaration::Assertion(_, condition, text) => assertion(parts, condition, *text),
    }
}

fn declared<'t>(parts: &mut Pieces<'t>, list: &'t Specifiers, items: &'t [Item]) {
    specifiers(parts, list);
    let mut comma = b"".as_slice();
    for part in items {
        parts.add(Piece::Text(comma));
        item(parts, part);
        comma = b", ";
    }
    parts.add(Piece::Text(b";"));
}

fn assertion<'t>(parts: &mut Pieces<'t>, condition: &'t Expr, text: usize) {
    parts.add(Piece::Text(b"_Static_assert("));
    parts.add(Piece::Expression(condition));
    parts.add(Piece::Text(b", \""));
    parts.add(Piece::Name(text));
    parts.add(Piece::Text(b"\");"));
}

/// The specifiers, each with a space after it.
fn specifiers<'t>(parts: &mut Pieces<'t>, part: &'t Specifiers) {
    for one in &part.list {
        specifier(parts, one);
        parts.add(Piece::Text(b" "));
    }
}

fn specifier<'t>(parts: &mut Pieces<'t>, part: &'t Specifier) {
    match part {
        Specifier::Extern => parts.add(Piece::Text(b"extern")),
        Specifier::Static => parts.add(Piece::Text(b"static")),
        Specifier::Plain(plain) => type_specifier(parts, *plain),
        Specifier::Enumerators(tag, list) => enumerators(parts, tag, list.as_slice()),
    }
}

fn enumerators<'t>(parts: &mut Pieces<'t>, tag: &Option<usize>, list: &'t [Enumerator]) {
    parts.add(Piece::Text(b"enum "));
    if let Some(tag) = tag {
        parts.add(Piece::Name(*tag));
    }
    let mut sign = b"{".as_slice();
    for enumerator in list {
        parts.add(Piece::Text(sign));
        parts.add(Piece::Name(enumerator.name));
        if let Some(value) = &enumerator.value {
            parts.add(Piece::Text(b" = "));
            parts.add(Piece::Expression(value));
        }
        sign = b", ";
    }
    parts.add(Piece::Text(b"}"))
}

fn item<'t>(parts: &mut Pieces<'t>, part: &'t Item) {
    match part {
        Item::Object(object) => object_declarator(parts, object),
        Item::Function(function) => function_declarator(parts, function),
    }
}

fn object_declarator<'t>(parts: &mut Pieces<'t>, part: &'t ObjectDeclarator) {
    parts.add(Piece::Name(part.name));
    parts.add(Piece::Sizes(part.sizes.as_slice()));
    if let Some(initialiser) = &part.initialiser {
        parts.add(Piece::Text(b" = "));
        parts.add(Piece::Initialiser(initialiser));
    }
}

pub fn sizes<'t>(parts: &mut Pieces<'t>, list: &'t [Option<Expr>]) {
    for size in list {
        parts.add(Piece::Text(b"["));
        if let Some(size) = size {
            parts.add(Piece::Expression(size));
        }
        parts.add(Piece::Text(b"]"));
    }
}

pub fn initialiser<'t>(parts: &mut Pieces<'t>, part: &'t Initialiser) {
    match part {
        Initialiser::One(value) => parts.add(Piece::Expression(value)),
        Initialiser::List(_, list) => {
            let mut sign = b"{".as_slice();
            for part in list {
                parts.add(Piece::Text(sign));
                parts.add(Piece::Initialiser(part));
                sign = b", ";
            }
            parts.add(Piece::Text(b"}"))
        }
    }
}

fn function_declarator<'t>(parts: &mut Pieces<'t>, part: &'t FunctionDeclarator) {
    parts.add(Piece::Name(part.name));
    let mut sign = b"(".as_slice();
    for parameter in &part.parameters {
        parts.add(Piece::Text(sign));
        parts.add(Piece::Parameter(parameter));
        sign = b", ";
    }
    parts.add(Piece::Text(if part.parameters.is_empty() {
        b"(void)"
    } else {
        b")"
    }))
}

/// A parameter, its specifiers with a space after each.
pub fn parameter<'t>(parts: &mut Pieces<'t>, part: &'t Parameter) {
    for specifier in &part.specifiers.list {
        type_specifier(parts, *specifier);
        parts.add(Piece::Text(b" "));
    }
    if let Some(name) = part.name {
        parts.add(Piece::Name(name));
    }
    parts.add(Piece::Sizes(part.sizes.as_slice()))
}
