//! The code of statements.

ghost use Rattle.std.specs.Prelude.{◌≡◌, map, ℕ, OnOk};
ghost use Rattle.ctypes.specs.declared.types.IntType.{IntType};
ghost use Rattle.typing_spec.specs.Program as typed;
ghost use Rattle.typed_ast.specs.View.{value_of, option_value, statement_of, statements_of};
ghost use Rattle.lower_correct.specs.Bodies as relation;
ghost use Rattle.lower_ops.specs.layer.Parts as parts;
ghost use Rattle.tac.specs.inside.Scopes.{program_in, function_in};
ghost use Rattle.tac.specs.inside.Sizes as size;
ghost use Rattle.tac.specs.inside.Written.{WroteStatement, WrotePlaced};

use crate::block_sizes::{effects_size, repeats_size, statement_size, statements_size, tests_size};
use crate::initialisers::all_free;
use crate::leaves::{
    put_defined, put_effects, put_evaluated, put_repeats, put_return, put_returned,
};
use crate::switches::put_tests;
use lower_exprs::operands::waits_for_objects;
use lower_exprs::sizes::value_size;
use lower_exprs::values::put_value;
use lower_ops::form_sizes::plus;
use lower_ops::modes::{Mode, Shape, mode_of, shape_for};
use lower_ops::scopes::Scope;
use lower_ops::writing::{Code, ahead, put};
use std::alloc::AllocError;
use tac_code::Instruction;
use typed_ast::{Statement, Value};

#[cycle(statement_code)]
fn put_block(
    scope: &Scope<'_>,
    code: &mut Code,
    first: usize,
    count: usize,
    all: &[Statement],
    out: usize,
    again: usize,
    back: usize,
) -> Result<(), AllocError>
    ensures { OnOk result (WroteStatement (program_in scope.now) (function_in scope.now) (typed.block first count (statements_of (map statement_of all.now))) out again back code.old.list.items code.new.list.items) }
{
    put(code, Instruction::Forget { first, count })?;
    put_statements(scope, code, all, out, again, back)?;
    Ok(())
}

#[cycle(statement_code)]
fn put_if(
    scope: &Scope<'_>,
    code: &mut Code,
    e: &Value,
    a: &Statement,
    out: usize,
    again: usize,
    back: usize,
) -> Result<(), AllocError>
    ensures { OnOk result (WroteStatement (program_in scope.now) (function_in scope.now) (typed.branch (value_of e.now) (statement_of a.now)) out again back code.old.list.items code.new.list.items) }
{
    let test = value_size(e, Shape::Jump);
    let end = ahead(
        code,
        plus(
            1,
            plus(test, statement_size(scope.program, scope.function, a)),
        ),
    );
    put(code, Instruction::Nothing)?;
    put_value(scope, code, e, Mode::If(false, end), all_free())?;
    put_statement(scope, code, a, out, again, back)?;
    Ok(())
}

#[cycle(statement_code)]
fn put_if_else(
    scope: &Scope<'_>,
    code: &mut Code,
    e: &Value,
    a: &Statement,
    b: &Statement,
    out: usize,
    again: usize,
    back: usize,
) -> Result<(), AllocError>
    ensures { OnOk result (WroteStatement (program_in scope.now) (function_in scope.now) (typed.branches (value_of e.now) (statement_of a.now) (statement_of b.now)) out again back code.old.list.items code.new.list.items) }
{
    let test = value_size(e, Shape::Jump);
    let first = statement_size(scope.program, scope.function, a);
    let second = statement_size(scope.program, scope.function, b);
    let other = ahead(code, plus(1, plus(test, plus(first, 1))));
    let end = ahead(code, plus(1, plus(test, plus(first, plus(1, second)))));
    put(code, Instruction::Nothing)?;
    put_value(scope, code, e, Mode::If(false, other), all_free())?;
    put_statement(scope, code, a, out, again, back)?;
    put(code, Instruction::Jump(end))?;
    put_statement(scope, code, b, out, again, back)?;
    Ok(())
}

#[cycle(statement_code)]
fn put_while(
    scope: &Scope<'_>,
    code: &mut Code,
    e: &Value,
    a: &Statement,
    back: usize,
) -> Result<(), AllocError>
    ensures { OnOk result ((out again : ℕ) → WroteStatement (program_in scope.now) (function_in scope.now) (typed.while (value_of e.now) (statement_of a.now)) out again back code.old.list.items code.new.list.items) }
{
    let body = statement_size(scope.program, scope.function, a);
    let test = value_size(e, Shape::Jump);
    let top = ahead(code, 1);
    let at = ahead(code, plus(1, body));
    let end = ahead(code, plus(1, plus(body, test)));
    put(code, Instruction::Jump(at))?;
    put_statement(scope, code, a, end, at, back)?;
    put_value(scope, code, e, Mode::If(true, top), all_free())?;
    Ok(())
}

#[cycle(statement_code)]
fn put_do_while(
    scope: &Scope<'_>,
    code: &mut Code,
    a: &Statement,
    e: &Value,
    back: usize,
) -> Result<(), AllocError>
    ensures { OnOk result ((out again : ℕ) → WroteStatement (program_in scope.now) (function_in scope.now) (typed.do_while (statement_of a.now) (value_of e.now)) out again back code.old.list.items code.new.list.items) }
{
    let body = statement_size(scope.program, scope.function, a);
    let test = value_size(e, Shape::Jump);
    let top = ahead(code, 1);
    let at = ahead(code, plus(1, body));
    let end = ahead(code, plus(1, plus(body, test)));
    put(code, Instruction::Nothing)?;
    put_statement(scope, code, a, end, at, back)?;
    put_value(scope, code, e, Mode::If(true, top), all_free())?;
    Ok(())
}

/// A `for`, whose test follows its body.
#[cycle(statement_code)]
fn put_for(
    scope: &Scope<'_>,
    code: &mut Code,
    declared: &[Statement],
    start: &Option<Value>,
    test: &Option<Value>,
    step: &Option<Value>,
    a: &Statement,
    back: usize,
) -> Result<(), AllocError>
    ensures { OnOk result ((out again : ℕ) → WroteStatement (program_in scope.now) (function_in scope.now) (typed.for (statements_of (map statement_of declared.now)) (option_value start.now) (option_value test.now) (option_value step.now) (statement_of a.now)) out again back code.old.list.items code.new.list.items) }
{
    let top = ahead(code, before_body(scope, declared, start, 1));
    let body = plus(1, statement_size(scope.program, scope.function, a));
    let next = ahead(code, before_body(scope, declared, start, body));
    let behind = plus(
        1,
        plus(
            statement_size(scope.program, scope.function, a),
            effects_size(step),
        ),
    );
    let at = ahead(code, before_body(scope, declared, start, behind));
    let rest = plus(effects_size(step), repeats_size(test));
    let all = plus(
        1,
        plus(statement_size(scope.program, scope.function, a), rest),
    );
    let end = ahead(code, before_body(scope, declared, start, all));
    put(code, Instruction::Nothing)?;
    put_statements(scope, code, declared, end, end, back)?;
    put_effects(scope, code, start)?;
    put(code, Instruction::Jump(at))?;
    put_statement(scope, code, a, end, next, back)?;
    put_effects(scope, code, step)?;
    put_repeats(scope, code, test, top)?;
    Ok(())
}

/// The instructions of a `for` as far as its body's jump, and `more` further ones.
fn before_body(
    scope: &Scope<'_>,
    declared: &[Statement],
    start: &Option<Value>,
    more: usize,
) -> usize
    ensures { result ≡ parts.plus 1 (parts.plus (size.statements_size (program_in scope.now) (function_in scope.now) (statements_of (map statement_of declared.now))) (parts.plus (size.effects_size (option_value start.now)) more)) }
{
    plus(
        1,
        plus(
            statements_size(scope.program, scope.function, declared),
            plus(effects_size(start), more),
        ),
    )
}

/// What makes the objects of a `switch` indeterminate, if it has any.
fn forgets(first: usize, count: usize) -> Instruction
    ensures { result ≡ relation.forgets first count }
{
    if count > 0 {
        return Instruction::Forget { first, count };
    }
    Instruction::Nothing
}

/// Its objects are forgotten after its value, which waits in none of them.
#[cycle(statement_code)]
fn put_switch(
    scope: &Scope<'_>,
    code: &mut Code,
    e: &Value,
    first: usize,
    count: usize,
    all: &[Statement],
    again: usize,
    back: usize,
) -> Result<(), AllocError>
    ensures { OnOk result ((u : IntType) → (out : ℕ) → WroteStatement (program_in scope.now) (function_in scope.now) (typed.switch u (value_of e.now) first count (statements_of (map statement_of all.now))) out again back code.old.list.items code.new.list.items) }
{
    let operand = waits_for_objects(e, first, count);
    let value = value_size(e, shape_for(operand));
    let tests = tests_size(all);
    let body = ahead(code, plus(1, plus(value, plus(1, tests))));
    let behind = plus(
        1,
        plus(tests, statements_size(scope.program, scope.function, all)),
    );
    let end = ahead(code, plus(1, plus(value, behind)));
    put(code, Instruction::Nothing)?;
    put_value(scope, code, e, mode_of(operand), all_free())?;
    put(code, forgets(first, count))?;
    put_tests(scope, code, &operand, all, body, end)?;
    put_statements(scope, code, all, end, again, back)?;
    Ok(())
}

/// The code of consecutive statements.
#[cycle(statement_code)]
fn put_statements(
    scope: &Scope<'_>,
    code: &mut Code,
    all: &[Statement],
    out: usize,
    again: usize,
    back: usize,
) -> Result<(), AllocError>
    ensures { OnOk result (WrotePlaced (program_in scope.now) (function_in scope.now) (statements_of (map statement_of all.now)) out again back code.old.list.items code.new.list.items) }
{
    match all.split_first() {
        None => Ok(()),
        Some((statement, more)) => {
            put_statement(scope, code, statement, out, again, back)?;
            put_statements(scope, code, more, out, again, back)?;
            Ok(())
        }
    }
}

/// The code of a statement, `break`, `continue` and the returns going to these positions.
#[cycle(statement_code)]
pub(crate) fn put_statement(
    scope: &Scope<'_>,
    code: &mut Code,
    statement: &Statement,
    out: usize,
    again: usize,
    back: usize,
) -> Result<(), AllocError>
    ensures { OnOk result (WroteStatement (program_in scope.now) (function_in scope.now) (statement_of statement.now) out again back code.old.list.items code.new.list.items) }
{
    match statement {
        Statement::Empty(_) => {
            put(code, Instruction::Nothing)?;
            Ok(())
        }
        Statement::Evaluate(_, e) => {
            put_evaluated(scope, code, e)?;
            Ok(())
        }
        Statement::Declare(_, object) => {
            put(
                code,
                Instruction::Forget {
                    first: *object,
                    count: 1,
                },
            )?;
            Ok(())
        }
        Statement::Define(_, object, initialiser) => {
            put_defined(scope, code, *object, initialiser)?;
            Ok(())
        }
        Statement::Block(_, first, count, all) => {
            put_block(scope, code, *first, *count, all, out, again, back)?;
            Ok(())
        }
        Statement::If(_, e, a) => {
            put_if(scope, code, e, a, out, again, back)?;
            Ok(())
        }
        Statement::IfElse(_, e, a, b) => {
            put_if_else(scope, code, e, a, b, out, again, back)?;
            Ok(())
        }
        Statement::Switch(_, _, e, first, count, all) => {
            put_switch(scope, code, e, *first, *count, all, again, back)?;
            Ok(())
        }
        Statement::Case(_, _) => {
            put(code, Instruction::Nothing)?;
            Ok(())
        }
        Statement::Default(_) => {
            put(code, Instruction::Nothing)?;
            Ok(())
        }
        Statement::While(_, e, a) => {
            put_while(scope, code, e, a, back)?;
            Ok(())
        }
        Statement::DoWhile(_, a, e) => {
            put_do_while(scope, code, a, e, back)?;
            Ok(())
        }
        Statement::For(_, declared, control, a) => {
            put_for(
                scope,
                code,
                declared,
                &control.start,
                &control.test,
                &control.step,
                a,
                back,
            )?;
            Ok(())
        }
        Statement::Break(_) => {
            put(code, Instruction::Jump(out))?;
            Ok(())
        }
        Statement::Continue(_) => {
            put(code, Instruction::Jump(again))?;
            Ok(())
        }
        Statement::ReturnNothing(_) => {
            put_return(scope, code, back)?;
            Ok(())
        }
        Statement::ReturnValue(_, ty, e) => {
            put_returned(scope, code, *ty, e, back)?;
            Ok(())
        }
    }
}
