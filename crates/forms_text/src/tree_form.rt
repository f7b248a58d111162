//! The syntax tree of a translation unit (ISO/IEC 9899:2011 6.7 to 6.9).

use crate::expression_form::{put_expression, put_specifier, put_specifiers};
use crate::writer::Writer;
use srcset::Pos;
use std::alloc::AllocError;
use tree::{
    BlockItem, Declaration, Enumerator, Expr, External, ForHead, ForStart, Function,
    FunctionDeclarator, Initialiser, Item, ObjectDeclarator, Parameter, Specifier, Specifiers,
    Stmt, Unit,
};

fn put_option(out: &mut Writer<'_>, e: &Option<Expr>) -> Result<(), AllocError> {
    match e {
        Some(e) => put_expression(out, e),
        None => out.leaf("none"),
    }
}

fn put_sizes(out: &mut Writer<'_>, sizes: &[Option<Expr>]) -> Result<(), AllocError> {
    for size in sizes {
        out.begin("size")?;
        put_option(out, size)?;
        out.end()?;
    }
    Ok(())
}

fn put_enumerator(out: &mut Writer<'_>, one: &Enumerator) -> Result<(), AllocError> {
    out.begin("enumerator")?;
    out.name("name", one.name)?;
    out.place(one.pos)?;
    if let Some(value) = &one.value {
        put_expression(out, value)?;
    }
    out.end()
}

fn put_enumerators(
    out: &mut Writer<'_>,
    tag: Option<usize>,
    list: &[Enumerator],
) -> Result<(), AllocError> {
    out.begin("enum")?;
    if let Some(tag) = tag {
        out.name("name", tag)?;
    }
    for one in list {
        put_enumerator(out, one)?;
    }
    out.end()
}

fn put_storage(out: &mut Writer<'_>, word: &str) -> Result<(), AllocError> {
    out.begin("specifier")?;
    out.word("specifier", word)?;
    out.end()
}

fn put_declaration_specifiers(
    out: &mut Writer<'_>,
    specifiers: &Specifiers,
) -> Result<(), AllocError> {
    for specifier in &specifiers.list {
        match specifier {
            Specifier::Extern => put_storage(out, "extern")?,
            Specifier::Static => put_storage(out, "static")?,
            Specifier::Plain(plain) => {
                out.begin("specifier")?;
                put_specifier(out, *plain)?;
                out.end()?;
            }
            Specifier::Enumerators(tag, list) => put_enumerators(out, *tag, list.as_slice())?,
        }
    }
    Ok(())
}

#[cycle(initialiser_forms)]
fn put_initialisers(out: &mut Writer<'_>, all: &[Initialiser]) -> Result<(), AllocError> {
    for one in all {
        put_initialiser(out, one)?;
    }
    Ok(())
}

#[cycle(initialiser_forms)]
fn put_initialiser(out: &mut Writer<'_>, i: &Initialiser) -> Result<(), AllocError> {
    match i {
        Initialiser::One(e) => put_expression(out, e),
        Initialiser::List(at, all) => {
            out.begin_at("list", *at)?;
            put_initialisers(out, all.as_slice())?;
            out.end()
        }
    }
}

fn put_object(out: &mut Writer<'_>, object: &ObjectDeclarator) -> Result<(), AllocError> {
    out.begin("object")?;
    out.name("name", object.name)?;
    out.place(object.pos)?;
    put_sizes(out, object.sizes.as_slice())?;
    if let Some(i) = &object.initialiser {
        put_initialiser(out, i)?;
    }
    out.end()
}

fn put_parameter(out: &mut Writer<'_>, parameter: &Parameter) -> Result<(), AllocError> {
    out.begin("parameter")?;
    if let Some(name) = parameter.name {
        out.name("name", name)?;
    }
    out.place(parameter.pos)?;
    put_specifiers(out, parameter.specifiers.list.as_slice())?;
    put_sizes(out, parameter.sizes.as_slice())?;
    out.end()
}

fn put_parameters(out: &mut Writer<'_>, all: &[Parameter]) -> Result<(), AllocError> {
    for parameter in all {
        put_parameter(out, parameter)?;
    }
    Ok(())
}

fn put_function_declarator(
    out: &mut Writer<'_>,
    function: &FunctionDeclarator,
) -> Result<(), AllocError> {
    out.begin("function")?;
    out.name("name", function.name)?;
    out.place(function.pos)?;
    put_parameters(out, function.parameters.as_slice())?;
    out.end()
}

fn put_items(out: &mut Writer<'_>, items: &[Item]) -> Result<(), AllocError> {
    for item in items {
        match item {
            Item::Object(object) => put_object(out, object)?,
            Item::Function(function) => put_function_declarator(out, function)?,
        }
    }
    Ok(())
}

fn put_declaration(out: &mut Writer<'_>, declaration: &Declaration) -> Result<(), AllocError> {
    match declaration {
        Declaration::Declared(specifiers, items) => {
            out.begin_at("declaration", specifiers.pos)?;
            put_declaration_specifiers(out, specifiers)?;
            put_items(out, items.as_slice())?;
            out.end()
        }
        Declaration::Assertion(at, e, _) => {
            out.begin_at("static_assertion", *at)?;
            put_expression(out, e)?;
            out.end()
        }
    }
}

fn put_start(out: &mut Writer<'_>, start: &ForStart) -> Result<(), AllocError> {
    match start {
        ForStart::Expression(e) => put_option(out, e),
        ForStart::Declaration(declaration) => put_declaration(out, declaration),
    }
}

fn put_head(out: &mut Writer<'_>, head: &ForHead) -> Result<(), AllocError> {
    put_start(out, &head.start)?;
    put_option(out, &head.test)?;
    put_option(out, &head.step)
}

/// Opens the node of a statement.
fn begin_statement(out: &mut Writer<'_>, s: &Stmt) -> Result<(), AllocError> {
    match s {
        Stmt::Empty(at) => out.begin_at("empty", *at),
        Stmt::Expression(at, _) => out.begin_at("expression", *at),
        Stmt::Block(at, _) => out.begin_at("block", *at),
        Stmt::If(at, _, _) | Stmt::IfElse(at, _, _, _) => out.begin_at("if", *at),
        Stmt::Switch(at, _, _) => out.begin_at("switch", *at),
        Stmt::Case(at, _, _) => out.begin_at("case", *at),
        Stmt::Default(at, _) => out.begin_at("default", *at),
        Stmt::While(at, _, _) => out.begin_at("while", *at),
        Stmt::DoWhile(at, _, _) => out.begin_at("do", *at),
        Stmt::For(at, _, _) => out.begin_at("for", *at),
        Stmt::Break(at) => out.begin_at("break", *at),
        Stmt::Continue(at) => out.begin_at("continue", *at),
        Stmt::Return(at, _) => out.begin_at("return", *at),
    }
}

#[cycle(statement_forms)]
fn put_statement(out: &mut Writer<'_>, s: &Stmt) -> Result<(), AllocError> {
    begin_statement(out, s)?;
    match s {
        Stmt::Empty(_) | Stmt::Break(_) | Stmt::Continue(_) | Stmt::Return(_, None) => {}
        Stmt::Expression(_, e) | Stmt::Return(_, Some(e)) => put_expression(out, e)?,
        Stmt::Block(_, items) => put_pieces(out, items.as_slice())?,
        Stmt::Default(_, a) => put_statement(out, a)?,
        Stmt::If(_, e, a) | Stmt::Switch(_, e, a) | Stmt::Case(_, e, a) | Stmt::While(_, e, a) => {
            put_expression(out, e)?;
            put_statement(out, a)?;
        }
        Stmt::IfElse(_, e, a, b) => {
            put_expression(out, e)?;
            put_statement(out, a)?;
            put_statement(out, b)?;
        }
        Stmt::DoWhile(_, a, e) => {
            put_statement(out, a)?;
            put_expression(out, e)?;
        }
        Stmt::For(_, head, a) => {
            put_head(out, head)?;
            put_statement(out, a)?;
        }
    }
    out.end()
}

#[cycle(statement_forms)]
fn put_pieces(out: &mut Writer<'_>, items: &[BlockItem]) -> Result<(), AllocError> {
    for item in items {
        match item {
            BlockItem::Declaration(declaration) => put_declaration(out, declaration)?,
            BlockItem::Statement(a) => put_statement(out, a)?,
        }
    }
    Ok(())
}

fn put_function(out: &mut Writer<'_>, function: &Function) -> Result<(), AllocError> {
    out.begin("definition")?;
    out.name("name", function.declarator.name)?;
    out.place(function.declarator.pos)?;
    put_declaration_specifiers(out, &function.specifiers)?;
    put_parameters(out, function.declarator.parameters.as_slice())?;
    out.begin_at("block", function.body_pos)?;
    put_pieces(out, function.body.as_slice())?;
    out.end()?;
    out.end()
}

pub(crate) fn put_unit(out: &mut Writer<'_>, unit: &Unit) -> Result<(), AllocError> {
    out.begin("unit")?;
    for external in &unit.externals {
        match external {
            External::Function(function) => put_function(out, function)?,
            External::Declaration(declaration) => put_declaration(out, declaration)?,
        }
    }
    out.end()
}
