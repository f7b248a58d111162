//! How many instructions the code of a statement has.

ghost use Rattle.std.specs.Prelude.{◌≡◌, map};
ghost use Rattle.csem.specs.Statements.{labels_of};
ghost use Rattle.typed_ast.specs.View.{program_of, function_of, value_of, option_value, statement_of, statements_of};
ghost use Rattle.typing_spec.specs.Program as typed;
ghost use Rattle.ctypes.specs.declared.types.IntType.{IntType};
ghost use Rattle.tac.specs.inside.Sizes as size;

use crate::first_sizes::initialises_size;
use lower_exprs::operands::waits_for_objects;
use lower_exprs::sizes::{converted_size, value_size};
use lower_ops::form_sizes::plus;
use lower_ops::modes::{Shape, shape_for};
use typed_ast::{Function, Program, Statement, Value};

pub(crate) fn effects_size(e: &Option<Value>) -> usize
    ensures { result ≡ size.effects_size (option_value e.now) }
{
    match e {
        None => 0,
        Some(e) => value_size(e, Shape::Nowhere),
    }
}

pub(crate) fn repeats_size(e: &Option<Value>) -> usize
    ensures { result ≡ size.repeats_size (option_value e.now) }
{
    match e {
        None => 1,
        Some(e) => value_size(e, Shape::Jump),
    }
}

/// The tests of the labels of a `switch`.
pub(crate) fn tests_size(all: &[Statement]) -> usize
    ensures { result ≡ size.tests_size (labels_of (statements_of (map statement_of all.now))) }
{
    match all.split_first() {
        None => 1,
        Some((Statement::Case(_, _), more)) => plus(1, tests_size(more)),
        Some((_, more)) => tests_size(more),
    }
}

#[cycle(statement_sizes)]
fn switch_size(
    program: &Program,
    function: &Function,
    e: &Value,
    first: usize,
    count: usize,
    all: &[Statement],
) -> usize
    ensures { (u : IntType) → result ≡ size.statement_size (program_of program.now) (function_of function.now) (typed.switch u (value_of e.now) first count (statements_of (map statement_of all.now))) }
{
    let tests = tests_size(all);
    plus(
        1,
        plus(
            value_size(e, shape_for(waits_for_objects(e, first, count))),
            plus(1, plus(tests, statements_size(program, function, all))),
        ),
    )
}

#[cycle(statement_sizes)]
fn for_size(
    program: &Program,
    function: &Function,
    declared: &[Statement],
    start: &Option<Value>,
    test: &Option<Value>,
    step: &Option<Value>,
    a: &Statement,
) -> usize
    ensures { result ≡ size.statement_size (program_of program.now) (function_of function.now) (typed.for (statements_of (map statement_of declared.now)) (option_value start.now) (option_value test.now) (option_value step.now) (statement_of a.now)) }
{
    let around = plus(
        statement_size(program, function, a),
        plus(effects_size(step), repeats_size(test)),
    );
    plus(
        1,
        plus(
            statements_size(program, function, declared),
            plus(effects_size(start), plus(1, around)),
        ),
    )
}

#[cycle(statement_sizes)]
pub(crate) fn statements_size(program: &Program, function: &Function, all: &[Statement]) -> usize
    ensures { result ≡ size.statements_size (program_of program.now) (function_of function.now) (statements_of (map statement_of all.now)) }
{
    match all.split_first() {
        None => 0,
        Some((statement, more)) => plus(
            statement_size(program, function, statement),
            statements_size(program, function, more),
        ),
    }
}

/// The instructions of a statement.
#[cycle(statement_sizes)]
pub(crate) fn statement_size(program: &Program, function: &Function, statement: &Statement) -> usize
    ensures { result ≡ size.statement_size (program_of program.now) (function_of function.now) (statement_of statement.now) }
{
    match statement {
        Statement::Empty(_) => 1,
        Statement::Evaluate(_, e) => plus(1, value_size(e, Shape::Nowhere)),
        Statement::Declare(_, _) => 1,
        Statement::Define(_, object, initialiser) => {
            plus(1, initialises_size(program, function, *object, initialiser))
        }
        Statement::Block(_, _, _, all) => plus(1, statements_size(program, function, all)),
        Statement::If(_, e, a) => plus(
            1,
            plus(
                value_size(e, Shape::Jump),
                statement_size(program, function, a),
            ),
        ),
        Statement::IfElse(_, e, a, b) => plus(
            1,
            plus(
                value_size(e, Shape::Jump),
                plus(
                    statement_size(program, function, a),
                    plus(1, statement_size(program, function, b)),
                ),
            ),
        ),
        Statement::Switch(_, _, e, first, count, all) => switch_size(
            program, function, e, *first, *count, all,
        ),
        Statement::Case(_, _) => 1,
        Statement::Default(_) => 1,
        Statement::While(_, e, a) => plus(
            1,
            plus(
                statement_size(program, function, a),
                value_size(e, Shape::Jump),
            ),
        ),
        Statement::DoWhile(_, a, e) => plus(
            1,
            plus(
                statement_size(program, function, a),
                value_size(e, Shape::Jump),
            ),
        ),
        Statement::For(_, declared, control, a) => for_size(
            program,
            function,
            declared,
            &control.start,
            &control.test,
            &control.step,
            a,
        ),
        Statement::Break(_) => 1,
        Statement::Continue(_) => 1,
        Statement::ReturnNothing(_) => plus(1, 1),
        Statement::ReturnValue(_, ty, e) => plus(1, plus(converted_size(*ty, e, Shape::Local), 1)),
    }
}
