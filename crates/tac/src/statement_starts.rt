//! Where the code of each statement of a function begins, and that of each block ends, for listings and debuggers.

use crate::block_sizes::{effects_size, repeats_size, statement_size, tests_size};
use lower_exprs::operands::waits_for_objects;
use lower_exprs::sizes::value_size;
use lower_ops::form_sizes::plus;
use lower_ops::modes::{Shape, shape_for};
use srcset::Pos;
use std::alloc::{AllocError, Global};
use typed_ast::{ForControl, Function, Place, Program, Statement, Value};

/// A place in the source, and the number of the instruction of its function with which the code of the construct there begins.
#[derive(Clone, Copy, Debug)]
pub struct CodeStart {
    pub place: Pos,
    pub number: usize,
}

/// The instructions of a scope (6.2.1p4): a block, or a `for` with its declarations. It has `count` objects from number `first` on; those of a scope within it
/// are among them.
#[derive(Clone, Copy, Debug)]
pub struct CodeScope {
    pub first: usize,
    pub count: usize,
    /// The number of its first instruction, and that after its last.
    pub start: usize,
    pub end: usize,
}

/// The program and the function whose code is counted.
#[derive(Clone, Copy)]
struct Source<'p> {
    program: &'p Program,
    function: &'p Function,
}

/// The starts and scopes found in a function. A scope comes before those within it.
#[derive(Drop)]
struct Found {
    starts: Vec<CodeStart>,
    scopes: Vec<CodeScope>,
}

fn put_start(found: &mut Found, place: Pos, number: usize) -> Result<(), AllocError> {
    found.starts.push(CodeStart { place, number })?;
    Ok(())
}

/// Adds a scope that begins at an instruction. Returns its number.
fn open_scope(
    found: &mut Found,
    first: usize,
    count: usize,
    start: usize,
) -> Result<usize, AllocError> {
    let number = found.scopes.len();
    found.scopes.push(CodeScope {
        first,
        count,
        start,
        end: start,
    })?;
    Ok(number)
}

/// The scope with this number ends before an instruction.
fn close_scope(found: &mut Found, number: usize, end: usize) {
    if let Some(scope) = found.scopes.get_mut(number) {
        scope.end = end;
    }
}

/// The number of the object that a declaration declares.
fn declared_object(declared: &[Statement]) -> usize {
    match declared.first() {
        Some(Statement::Declare(_, object)) | Some(Statement::Define(_, object, _)) => *object,
        _ => 0,
    }
}

/// The place of an expression's operator or name, if it has one.
fn place_of(value: &Value) -> Option<Pos> {
    match value {
        Value::Read(_, place) => Some(place_of_object(place)),
        Value::Assigned(at, _, _, _) | Value::Unary(at, _, _, _) => Some(*at),
        Value::Compound(at, _, _, _, _, _) | Value::Stepped(at, _, _, _, _, _) => Some(*at),
        Value::Binary(at, _, _, _, _) | Value::Call(at, _, _, _, _) => Some(*at),
        _ => None,
    }
}

fn place_of_object(place: &Place) -> Pos {
    match place {
        Place::Named(at, _) | Place::Element(at, _, _) => *at,
    }
}

/// A `for` (6.8.5.3), from after its first instruction on.
#[cycle(code_starts)]
fn put_for(
    source: &Source<'_>,
    found: &mut Found,
    place: Pos,
    declared: &[Statement],
    control: &ForControl,
    body: &Statement,
    at: usize,
) -> Result<usize, AllocError> {
    let number = open_scope(found, declared_object(declared), declared.len(), at)?;
    let start = put_statements(source, found, declared, at)?;
    let jump = plus(start, effects_size(&control.start));
    let step = put_statement(source, found, body, plus(jump, 1))?;
    put_start(found, place, step)?;
    let test = plus(step, effects_size(&control.step));
    let behind = plus(test, repeats_size(&control.test));
    close_scope(found, number, behind);
    Ok(behind)
}

/// A body followed by its test (6.8.5.1, 6.8.5.2).
#[cycle(code_starts)]
fn put_loop(
    source: &Source<'_>,
    found: &mut Found,
    place: Pos,
    test: &Value,
    body: &Statement,
    at: usize,
) -> Result<usize, AllocError> {
    let behind = put_statement(source, found, body, at)?;
    put_start(found, place, behind)?;
    Ok(plus(behind, value_size(test, Shape::Jump)))
}

/// Consecutive statements, from the instruction `at` on. Returns the number of the instruction after them.
#[cycle(code_starts)]
fn put_statements(
    source: &Source<'_>,
    found: &mut Found,
    all: &[Statement],
    at: usize,
) -> Result<usize, AllocError> {
    match all.split_first() {
        None => Ok(at),
        Some((statement, more)) => {
            let behind = put_statement(source, found, statement, at)?;
            put_statements(source, found, more, behind)
        }
    }
}

/// The statements of a block, from the instruction `at` on; its objects are `count` from `first` on, and its code begins at `start`.
#[cycle(code_starts)]
fn put_block(
    source: &Source<'_>,
    found: &mut Found,
    block: (usize, usize, usize),
    all: &[Statement],
    at: usize,
) -> Result<usize, AllocError> {
    let (first, count, start) = block;
    let number = open_scope(found, first, count, start)?;
    let behind = put_statements(source, found, all, at)?;
    close_scope(found, number, behind);
    Ok(behind)
}

/// A statement whose code begins at the instruction `at`. Returns the number of the instruction after it.
#[cycle(code_starts)]
fn put_statement(
    source: &Source<'_>,
    found: &mut Found,
    statement: &Statement,
    at: usize,
) -> Result<usize, AllocError> {
    let place = statement.place();
    put_start(found, place, at)?;
    let next = plus(at, 1);
    match statement {
        Statement::Block(_, first, count, all) => {
            put_block(source, found, (*first, *count, at), all, next)
        }
        Statement::If(_, e, a) => {
            put_statement(source, found, a, plus(next, value_size(e, Shape::Jump)))
        }
        Statement::IfElse(_, e, a, b) => {
            let test = plus(next, value_size(e, Shape::Jump));
            let behind = put_statement(source, found, a, test)?;
            put_statement(source, found, b, plus(behind, 1))
        }
        Statement::Switch(_, _, e, first, count, all) => {
            let value = value_size(e, shape_for(waits_for_objects(e, *first, *count)));
            let tests = plus(plus(next, value), 1);
            let inside = plus(tests, tests_size(all));
            put_block(source, found, (*first, *count, inside), all, inside)
        }
        Statement::While(_, e, a) => put_loop(source, found, place, e, a, next),
        Statement::DoWhile(_, a, e) => {
            let test = place_of(e).unwrap_or(place);
            put_loop(source, found, test, e, a, next)
        }
        Statement::For(_, declared, control, a) => {
            put_for(source, found, place, declared, control, a, next)
        }
        _ => Ok(plus(
            at,
            statement_size(source.program, source.function, statement),
        )),
    }
}

fn found_in(alloc: Global, program: &Program, function: &Function) -> Result<Found, AllocError> {
    let source = Source { program, function };
    let mut found = Found {
        starts: Vec::new(alloc),
        scopes: Vec::new(alloc),
    };
    let idles = plus(1, function.function_type.parameters.len());
    put_statement(&source, &mut found, &function.body, idles)?;
    Ok(found)
}

/// Where the code of each statement of a function begins, in the order of their code: the numbers of instructions of the code that `lower_function` makes. That
/// of a loop's test or step, which follows the loop's body, is included.
///
/// Fails only where there is no memory. Takes time by the statements and the depth to which they are nested.
pub fn code_starts(
    alloc: Global,
    program: &Program,
    function: &Function,
) -> Result<Vec<CodeStart>, AllocError> {
    let found = found_in(alloc, program, function)?;
    Ok(found.starts)
}

/// The scopes of a function, each before those within it, with the instructions that `lower_function` makes of them. It fails and takes
/// time as `code_starts`.
pub fn code_scopes(
    alloc: Global,
    program: &Program,
    function: &Function,
) -> Result<Vec<CodeScope>, AllocError> {
    let found = found_in(alloc, program, function)?;
    Ok(found.scopes)
}
