//! Expressions of the typed program (ISO/IEC 9899:2011 6.5), in which every conversion is written.

use crate::words::{operation_word, prefix_word, result_word, step_word, type_word};
use crate::writer::Writer;
use ctypes::IntType;
use srcset::Pos;
use std::alloc::AllocError;
use typed_ast::{Argument, Callee, Moment, Place, Program, Storage, Value};

/// The object that a storage number designates.
fn put_storage(
    out: &mut Writer<'_>,
    program: &Program,
    storage: Storage,
) -> Result<(), AllocError> {
    match storage {
        Storage::Literal(number) => out.count("literal", number),
        Storage::Static(number) => match program.statics.get(number) {
            Some(object) => out.name("static", object.name),
            None => Ok(()),
        },
        Storage::Automatic(number) => out.count("automatic", number),
        Storage::Parameter(number) => out.count("parameter", number),
    }
}

fn put_callee(out: &mut Writer<'_>, program: &Program, callee: Callee) -> Result<(), AllocError> {
    match callee {
        Callee::Function(number) => match program.functions.get(number) {
            Some(function) => out.name("function", function.name),
            None => Ok(()),
        },
        Callee::GetByte => out.word("function", "rv_getbyte"),
        Callee::PutByte => out.word("function", "rv_putbyte"),
        Callee::Exit => out.word("function", "rv_exit"),
        Callee::Missing(name) => out.name("function", name),
    }
}

/// Opens a node with a type.
fn begin_typed(out: &mut Writer<'_>, node: &str, ty: Option<IntType>) -> Result<(), AllocError> {
    out.begin(node)?;
    out.word("type", result_word(ty))
}

/// Opens a node with an operator and a type.
fn begin_operator(
    out: &mut Writer<'_>,
    node: &str,
    op: &str,
    ty: IntType,
) -> Result<(), AllocError> {
    out.begin(node)?;
    out.word("op", op)?;
    out.word("type", type_word(ty))
}

/// Opens the node of an operation or of an assignment.
fn begin_operation(out: &mut Writer<'_>, e: &Value) -> Result<(), AllocError> {
    match e {
        Value::Unary(at, op, ty, _) => {
            begin_operator(out, "unary", prefix_word(*op), *ty)?;
            out.place(*at)
        }
        Value::Binary(at, op, ty, _, _) => {
            begin_operator(out, "binary", operation_word(*op), *ty)?;
            out.place(*at)
        }
        Value::Assigned(at, ty, _, _) => {
            begin_typed(out, "assignment", Some(*ty))?;
            out.place(*at)
        }
        Value::Compound(at, op, ty, of, _, _) => {
            begin_operator(out, "compound", operation_word(*op), *ty)?;
            out.word("in", type_word(*of))?;
            out.place(*at)
        }
        Value::Stepped(at, moment, op, ty, of, _) => {
            begin_operator(out, moment_word(*moment), step_word(*op), *ty)?;
            out.word("in", type_word(*of))?;
            out.place(*at)
        }
        _ => out.begin("value"),
    }
}

fn moment_word(moment: Moment) -> &'static str {
    match moment {
        Moment::After => "postfix",
        Moment::Before => "prefix",
    }
}

/// Opens the node of a value: all that it has before its parts.
fn begin_value(out: &mut Writer<'_>, program: &Program, e: &Value) -> Result<(), AllocError> {
    match e {
        Value::Constant(ty, value) => {
            begin_typed(out, "constant", Some(*ty))?;
            out.number("value", *value)
        }
        Value::Read(ty, _) => begin_typed(out, "read", Some(*ty)),
        Value::BothTrue(_, _) => out.begin("and"),
        Value::OneTrue(_, _) => out.begin("or"),
        Value::Sequence(_, _) => out.begin("comma"),
        Value::Chosen(ty, _, _, _) => begin_typed(out, "conditional", *ty),
        Value::Cast(ty, _) => begin_typed(out, "cast", Some(*ty)),
        Value::Discarded(_) => begin_typed(out, "cast", None),
        Value::Call(at, callee, ty, _, _) => {
            out.begin("call")?;
            put_callee(out, program, *callee)?;
            out.word("type", result_word(*ty))?;
            out.place(*at)
        }
        _ => begin_operation(out, e),
    }
}

/// Opens the node of a place.
fn begin_place(out: &mut Writer<'_>, program: &Program, place: &Place) -> Result<(), AllocError> {
    match place {
        Place::Named(at, storage) => {
            out.begin("object")?;
            put_storage(out, program, *storage)?;
            out.place(*at)
        }
        Place::Element(at, _, _) => out.begin_at("element", *at),
    }
}

#[cycle(value_forms)]
fn put_place(out: &mut Writer<'_>, program: &Program, place: &Place) -> Result<(), AllocError> {
    begin_place(out, program, place)?;
    match place {
        Place::Named(_, _) => {}
        Place::Element(_, array, index) => {
            put_place(out, program, array)?;
            put_value(out, program, index)?;
        }
    }
    out.end()
}

#[cycle(value_forms)]
fn put_arguments(
    out: &mut Writer<'_>,
    program: &Program,
    arguments: &[Argument],
) -> Result<(), AllocError> {
    for argument in arguments {
        match argument {
            Argument::Number(ty, value) => {
                begin_typed(out, "converted", Some(*ty))?;
                put_value(out, program, value)?;
            }
            Argument::Array(place) => {
                out.begin("reference")?;
                put_place(out, program, place)?;
            }
        }
        out.end()?;
    }
    Ok(())
}

#[cycle(value_forms)]
pub(crate) fn put_value(
    out: &mut Writer<'_>,
    program: &Program,
    e: &Value,
) -> Result<(), AllocError> {
    begin_value(out, program, e)?;
    match e {
        Value::Constant(_, _) => {}
        Value::Read(_, place) | Value::Stepped(_, _, _, _, _, place) => {
            put_place(out, program, place)?;
        }
        Value::Assigned(_, _, place, a) | Value::Compound(_, _, _, _, place, a) => {
            put_place(out, program, place)?;
            put_value(out, program, a)?;
        }
        Value::Unary(_, _, _, a) | Value::Cast(_, a) | Value::Discarded(a) => {
            put_value(out, program, a)?;
        }
        Value::BothTrue(a, b)
        | Value::OneTrue(a, b)
        | Value::Sequence(a, b)
        | Value::Binary(_, _, _, a, b) => {
            put_value(out, program, a)?;
            put_value(out, program, b)?;
        }
        Value::Chosen(_, c, a, b) => {
            put_value(out, program, c)?;
            put_value(out, program, a)?;
            put_value(out, program, b)?;
        }
        Value::Call(_, _, _, _, arguments) => {
            put_arguments(out, program, arguments.as_slice())?;
        }
    }
    out.end()
}
