//! Which functions a body calls (6.5.2.2).

ghost use Rattle.std.specs.Prelude.{◌≡◌, ◌++◌, map, IfOk};
ghost use Rattle.typing_spec.specs.Program.{Arguments};
ghost use Rattle.typed_ast.specs.View.{and_given, argument_of, arguments_of, callee_of, function_of, initialiser_of, initialisers_of, option_value, place_of, statement_of, statements_of, value_of};
ghost use Rattle.verify_stack.specs.Calls.{argument_calls, callee_calls, initialiser_calls, initialisers_calls, option_calls, place_calls, statement_calls, statements_calls, value_calls};

use std::alloc::{AllocError, Global};
use typed_ast::{Argument, Callee, ForControl, Function, Initialiser, Place, Statement, Value};

fn add_call(callee: Callee, calls: &mut Vec<usize>) -> Result<(), AllocError>
    ensures { IfOk result (λ u. calls.new.items ≡ calls.old.items ++ callee_calls (callee_of callee)) }
{
    match callee {
        Callee::Function(f) => match calls.push(f) {
            Ok(()) => Ok(()),
            Err(_) => Err(AllocError),
        },
        Callee::GetByte => Ok(()),
        Callee::PutByte => Ok(()),
        Callee::Exit => Ok(()),
        Callee::Missing(_) => Ok(()),
    }
}

#[cycle(values)]
fn add_place(place: &Place, calls: &mut Vec<usize>) -> Result<(), AllocError>
    ensures { IfOk result (λ u. calls.new.items ≡ calls.old.items ++ place_calls (place_of place.now)) }
{
    match place {
        Place::Named(_, _) => Ok(()),
        Place::Element(_, array, index) => add_place_and_value(array, index, calls),
    }
}

#[cycle(values)]
fn add_place_and_value(place: &Place, e: &Value, calls: &mut Vec<usize>) -> Result<(), AllocError>
    ensures { IfOk result (λ u. calls.new.items ≡ calls.old.items ++ (place_calls (place_of place.now) ++ value_calls (value_of e.now))) }
{
    add_place(place, calls)?;
    add_value(e, calls)
}

#[cycle(values)]
fn add_values(a: &Value, b: &Value, calls: &mut Vec<usize>) -> Result<(), AllocError>
    ensures { IfOk result (λ u. calls.new.items ≡ calls.old.items ++ (value_calls (value_of a.now) ++ value_calls (value_of b.now))) }
{
    add_value(a, calls)?;
    add_value(b, calls)
}

#[cycle(values)]
fn add_chosen(c: &Value, a: &Value, b: &Value, calls: &mut Vec<usize>) -> Result<(), AllocError>
    ensures { IfOk result (λ u. calls.new.items ≡ calls.old.items ++ (value_calls (value_of c.now) ++ (value_calls (value_of a.now) ++ value_calls (value_of b.now)))) }
{
    add_value(c, calls)?;
    add_values(a, b, calls)
}

#[cycle(values)]
fn add_value(e: &Value, calls: &mut Vec<usize>) -> Result<(), AllocError>
    ensures { IfOk result (λ u. calls.new.items ≡ calls.old.items ++ value_calls (value_of e.now)) }
{
    match e {
        Value::Constant(_, _) => Ok(()),
        Value::Read(_, place) => add_place(place, calls),
        Value::Assigned(_, _, place, e) => add_place_and_value(place, e, calls),
        Value::Compound(_, _, _, _, place, e) => add_place_and_value(place, e, calls),
        Value::Stepped(_, _, _, _, _, place) => add_place(place, calls),
        Value::Unary(_, _, _, e) => add_value(e, calls),
        Value::Binary(_, _, _, a, b) => add_values(a, b, calls),
        Value::BothTrue(a, b) => add_values(a, b, calls),
        Value::OneTrue(a, b) => add_values(a, b, calls),
        Value::Chosen(_, c, a, b) => add_chosen(c, a, b, calls),
        Value::Sequence(a, b) => add_values(a, b, calls),
        Value::Cast(_, e) => add_value(e, calls),
        Value::Discarded(e) => add_value(e, calls),
        Value::Call(_, callee, _, _, arguments) => add_called(*callee, arguments, calls),
    }
}

#[cycle(values)]
fn add_called(
    callee: Callee,
    arguments: &[Argument],
    calls: &mut Vec<usize>,
) -> Result<(), AllocError>
    ensures { IfOk result (λ u. calls.new.items ≡ calls.old.items ++ (argument_calls (arguments_of (map argument_of arguments.now)) ++ callee_calls (callee_of callee))) }
{
    add_arguments(arguments, calls)?;
    add_call(callee, calls)
}

#[cycle(values)]
fn add_argument(a: &Argument, calls: &mut Vec<usize>) -> Result<(), AllocError>
    ensures { IfOk result (λ u. (more : Arguments) → calls.new.items ++ argument_calls more ≡ calls.old.items ++ argument_calls (and_given (argument_of a.now) more)) }
{
    match a {
        Argument::Number(_, e) => add_value(e, calls),
        Argument::Array(place) => add_place(place, calls),
    }
}

#[cycle(values)]
fn add_arguments(arguments: &[Argument], calls: &mut Vec<usize>) -> Result<(), AllocError>
    ensures { IfOk result (λ u. calls.new.items ≡ calls.old.items ++ argument_calls (arguments_of (map argument_of arguments.now))) }
{
    let mut rest = arguments;
    while let Some((a, more)) = rest.split_first() {
        add_argument(a, calls)?;
        rest = more;
    }
    Ok(())
}

fn add_option(e: &Option<Value>, calls: &mut Vec<usize>) -> Result<(), AllocError>
    ensures { IfOk result (λ u. calls.new.items ≡ calls.old.items ++ option_calls (option_value e.now)) }
{
    match e {
        None => Ok(()),
        Some(e) => add_value(e, calls),
    }
}

#[cycle(initialisers)]
fn add_initialiser(i: &Initialiser, calls: &mut Vec<usize>) -> Result<(), AllocError>
    ensures { IfOk result (λ u. calls.new.items ≡ calls.old.items ++ initialiser_calls (initialiser_of i.now)) }
{
    match i {
        Initialiser::One(_, e) => add_value(e, calls),
        Initialiser::Text(_) => Ok(()),
        Initialiser::InBraces(i) => add_initialiser(i, calls),
        Initialiser::List(all) => add_initialisers(all, calls),
    }
}

#[cycle(initialisers)]
fn add_initialisers(all: &[Initialiser], calls: &mut Vec<usize>) -> Result<(), AllocError>
    ensures { IfOk result (λ u. calls.new.items ≡ calls.old.items ++ initialisers_calls (initialisers_of (map initialiser_of all.now))) }
{
    let mut rest = all;
    while let Some((i, more)) = rest.split_first() {
        add_initialiser(i, calls)?;
        rest = more;
    }
    Ok(())
}

#[cycle(statements)]
fn add_statement(a: &Statement, calls: &mut Vec<usize>) -> Result<(), AllocError>
    ensures { IfOk result (λ u. calls.new.items ≡ calls.old.items ++ statement_calls (statement_of a.now)) }
{
    match a {
        Statement::Empty(_) => Ok(()),
        Statement::Evaluate(_, e) => add_value(e, calls),
        Statement::Declare(_, _) => Ok(()),
        Statement::Define(_, _, i) => add_initialiser(i, calls),
        Statement::Block(_, _, _, all) => add_statements(all, calls),
        Statement::If(_, e, a) => add_guarded(e, a, calls),
        Statement::IfElse(_, e, a, b) => add_branches(e, a, b, calls),
        Statement::Switch(_, _, e, _, _, all) => add_switch(e, all, calls),
        Statement::Case(_, _) => Ok(()),
        Statement::Default(_) => Ok(()),
        Statement::While(_, e, a) => add_guarded(e, a, calls),
        Statement::DoWhile(_, a, e) => add_do_while(a, e, calls),
        Statement::For(_, declared, control, a) => add_for(declared, control, a, calls),
        Statement::Break(_) => Ok(()),
        Statement::Continue(_) => Ok(()),
        Statement::ReturnNothing(_) => Ok(()),
        Statement::ReturnValue(_, _, e) => add_value(e, calls),
    }
}

/// Adds those of a condition and of the statement under it.
#[cycle(statements)]
fn add_guarded(e: &Value, a: &Statement, calls: &mut Vec<usize>) -> Result<(), AllocError>
    ensures { IfOk result (λ u. calls.new.items ≡ calls.old.items ++ (value_calls (value_of e.now) ++ statement_calls (statement_of a.now))) }
{
    add_value(e, calls)?;
    add_statement(a, calls)
}

#[cycle(statements)]
fn add_branches(
    e: &Value,
    a: &Statement,
    b: &Statement,
    calls: &mut Vec<usize>,
) -> Result<(), AllocError>
    ensures { IfOk result (λ u. calls.new.items ≡ calls.old.items ++ (value_calls (value_of e.now) ++ (statement_calls (statement_of a.now) ++ statement_calls (statement_of b.now)))) }
{
    add_value(e, calls)?;
    add_statement(a, calls)?;
    add_statement(b, calls)
}

#[cycle(statements)]
fn add_switch(e: &Value, all: &[Statement], calls: &mut Vec<usize>) -> Result<(), AllocError>
    ensures { IfOk result (λ u. calls.new.items ≡ calls.old.items ++ (value_calls (value_of e.now) ++ statements_calls (statements_of (map statement_of all.now)))) }
{
    add_value(e, calls)?;
    add_statements(all, calls)
}

#[cycle(statements)]
fn add_do_while(a: &Statement, e: &Value, calls: &mut Vec<usize>) -> Result<(), AllocError>
    ensures { IfOk result (λ u. calls.new.items ≡ calls.old.items ++ (statement_calls (statement_of a.now) ++ value_calls (value_of e.now))) }
{
    add_statement(a, calls)?;
    add_value(e, calls)
}

/// Adds those of the expressions in the parentheses of a `for`.
fn add_control(control: &ForControl, calls: &mut Vec<usize>) -> Result<(), AllocError>
    ensures { IfOk result (λ u. calls.new.items ≡ calls.old.items ++ (option_calls (option_value control.now.start) ++ (option_calls (option_value control.now.test) ++ option_calls (option_value control.now.step)))) }
{
    add_option(&control.start, calls)?;
    add_option(&control.test, calls)?;
    add_option(&control.step, calls)
}

#[cycle(statements)]
fn add_for(
    declared: &[Statement],
    control: &ForControl,
    a: &Statement,
    calls: &mut Vec<usize>,
) -> Result<(), AllocError>
    ensures { IfOk result (λ u. calls.new.items ≡ calls.old.items ++ (statements_calls (statements_of (map statement_of declared.now)) ++ (option_calls (option_value control.now.start) ++ (option_calls (option_value control.now.test) ++ (option_calls (option_value control.now.step) ++ statement_calls (statement_of a.now)))))) }
{
    add_statements(declared, calls)?;
    add_control(control, calls)?;
    add_statement(a, calls)
}

#[cycle(statements)]
fn add_statements(all: &[Statement], calls: &mut Vec<usize>) -> Result<(), AllocError>
    ensures { IfOk result (λ u. calls.new.items ≡ calls.old.items ++ statements_calls (statements_of (map statement_of all.now))) }
{
    let mut rest = all;
    while let Some((a, more)) = rest.split_first() {
        add_statement(a, calls)?;
        rest = more;
    }
    Ok(())
}

/// The functions that a function's body calls, in the order of the source.
///
/// Errors: memory ran out.
pub fn body_calls(alloc: Global, function: &Function) -> Result<Vec<usize>, AllocError>
    ensures { IfOk result (λ r. r.items ≡ statement_calls (function_of function.now).body) }
{
    let mut calls = Vec::new(alloc);
    add_statement(&function.body, &mut calls)?;
    Ok(calls)
}
