//! The typed program (ISO/IEC 9899:2011 6.7.9, 6.8, 6.9).

use crate::value_form::put_value;
use crate::words::{result_word, type_word};
use crate::writer::Writer;
use std::alloc::AllocError;
use typed_ast::{
    ForControl, Function, Initialiser, ObjectType, ParameterType, Program, Statement, Static, Value,
};

/// The type of an object: that of its elements, and the length of each array, from the outermost.
fn put_object_type(out: &mut Writer<'_>, ty: &ObjectType) -> Result<(), AllocError> {
    let mut text = String::from_str(out.alloc, type_word(ty.element))?;
    for length in &ty.lengths {
        text.push_str(format!(in out.alloc; "[{length}]")?.as_str())?;
    }
    out.word("type", text.as_str())
}

#[cycle(typed_initialisers)]
fn put_initialisers(
    out: &mut Writer<'_>,
    program: &Program,
    all: &[Initialiser],
) -> Result<(), AllocError> {
    for one in all {
        put_initialiser(out, program, one)?;
    }
    Ok(())
}

#[cycle(typed_initialisers)]
fn put_initialiser(
    out: &mut Writer<'_>,
    program: &Program,
    i: &Initialiser,
) -> Result<(), AllocError> {
    match i {
        Initialiser::One(ty, value) => {
            out.begin("converted")?;
            out.word("type", type_word(*ty))?;
            put_value(out, program, value)?;
            out.end()
        }
        Initialiser::Text(number) => {
            out.begin("string")?;
            out.count("literal", *number)?;
            out.end()
        }
        Initialiser::InBraces(one) => {
            out.begin("braces")?;
            put_initialiser(out, program, one)?;
            out.end()
        }
        Initialiser::List(all) => {
            out.begin("list")?;
            put_initialisers(out, program, all.as_slice())?;
            out.end()
        }
    }
}

fn put_option(
    out: &mut Writer<'_>,
    program: &Program,
    e: &Option<Value>,
) -> Result<(), AllocError> {
    match e {
        Some(e) => put_value(out, program, e),
        None => out.leaf("none"),
    }
}

#[cycle(typed_statements)]
fn put_statements(
    out: &mut Writer<'_>,
    program: &Program,
    all: &[Statement],
) -> Result<(), AllocError> {
    for statement in all {
        put_statement(out, program, statement)?;
    }
    Ok(())
}

fn put_control(
    out: &mut Writer<'_>,
    program: &Program,
    control: &ForControl,
) -> Result<(), AllocError> {
    put_option(out, program, &control.start)?;
    put_option(out, program, &control.test)?;
    put_option(out, program, &control.step)
}

/// The name of the kind of a statement.
fn node_of(s: &Statement) -> &'static str {
    match s {
        Statement::Empty(_) => "empty",
        Statement::Evaluate(_, _) => "expression",
        Statement::Declare(_, _) => "declare",
        Statement::Define(_, _, _) => "define",
        Statement::Block(_, _, _, _) => "block",
        Statement::If(_, _, _) | Statement::IfElse(_, _, _, _) => "if",
        Statement::Switch(_, _, _, _, _, _) => "switch",
        Statement::Case(_, _) => "case",
        Statement::Default(_) => "default",
        Statement::While(_, _, _) => "while",
        Statement::DoWhile(_, _, _) => "do",
        Statement::For(_, _, _, _) => "for",
        Statement::Break(_) => "break",
        Statement::Continue(_) => "continue",
        Statement::ReturnNothing(_) | Statement::ReturnValue(_, _, _) => "return",
    }
}

/// The parts of a statement with no other in it.
fn put_simple(out: &mut Writer<'_>, program: &Program, s: &Statement) -> Result<(), AllocError> {
    match s {
        Statement::Evaluate(_, e) => put_value(out, program, e),
        Statement::Declare(_, object) => out.count("automatic", *object),
        Statement::Define(_, object, i) => {
            out.count("automatic", *object)?;
            put_initialiser(out, program, i)
        }
        Statement::Case(_, value) => out.number("value", *value),
        Statement::ReturnValue(_, ty, e) => {
            out.word("type", type_word(*ty))?;
            put_value(out, program, e)
        }
        _ => Ok(()),
    }
}

#[cycle(typed_statements)]
fn put_statement(out: &mut Writer<'_>, program: &Program, s: &Statement) -> Result<(), AllocError> {
    out.begin_at(node_of(s), s.place())?;
    match s {
        Statement::Block(_, _, _, all) => put_statements(out, program, all.as_slice())?,
        Statement::If(_, e, a) | Statement::While(_, e, a) => {
            put_value(out, program, e)?;
            put_statement(out, program, a)?;
        }
        Statement::IfElse(_, e, a, b) => {
            put_value(out, program, e)?;
            put_statement(out, program, a)?;
            put_statement(out, program, b)?;
        }
        Statement::Switch(_, ty, e, _, _, all) => {
            out.word("type", type_word(*ty))?;
            put_value(out, program, e)?;
            put_statements(out, program, all.as_slice())?;
        }
        Statement::DoWhile(_, a, e) => {
            put_statement(out, program, a)?;
            put_value(out, program, e)?;
        }
        Statement::For(_, declared, control, a) => {
            put_statements(out, program, declared.as_slice())?;
            put_control(out, program, control)?;
            put_statement(out, program, a)?;
        }
        _ => put_simple(out, program, s)?,
    }
    out.end()
}

fn put_parameters(out: &mut Writer<'_>, all: &[ParameterType]) -> Result<(), AllocError> {
    for parameter in all {
        out.begin("parameter")?;
        match parameter {
            ParameterType::Number(ty) => out.word("type", type_word(*ty))?,
            ParameterType::Elements(ty) => {
                out.word("kind", "array")?;
                put_object_type(out, ty)?;
            }
        }
        out.end()?;
    }
    Ok(())
}

fn put_objects(out: &mut Writer<'_>, objects: &[ObjectType]) -> Result<(), AllocError> {
    for (number, object) in objects.iter().enumerate() {
        out.begin("automatic")?;
        out.count("number", number)?;
        put_object_type(out, object)?;
        out.end()?;
    }
    Ok(())
}

fn put_function(
    out: &mut Writer<'_>,
    program: &Program,
    function: &Function,
) -> Result<(), AllocError> {
    out.begin("function")?;
    out.name("name", function.name)?;
    out.word("type", result_word(function.function_type.result))?;
    put_parameters(out, function.function_type.parameters.as_slice())?;
    put_objects(out, function.objects.as_slice())?;
    put_statement(out, program, &function.body)?;
    out.end()
}

fn put_static(out: &mut Writer<'_>, object: &Static) -> Result<(), AllocError> {
    out.begin("static")?;
    out.name("name", object.name)?;
    put_object_type(out, &object.object_type)?;
    for value in &object.values {
        out.begin("value")?;
        out.number("value", *value)?;
        out.end()?;
    }
    out.end()
}

fn put_literal(out: &mut Writer<'_>, number: usize, text: &[u8]) -> Result<(), AllocError> {
    out.begin("literal")?;
    out.count("number", number)?;
    out.bytes("text", text)?;
    out.end()
}

pub(crate) fn put_program(out: &mut Writer<'_>, program: &Program) -> Result<(), AllocError> {
    out.begin("program")?;
    for (number, text) in program.literals.iter().enumerate() {
        put_literal(out, number, text.as_slice())?;
    }
    for object in &program.statics {
        put_static(out, object)?;
    }
    for function in &program.functions {
        put_function(out, program, function)?;
    }
    out.end()
}
