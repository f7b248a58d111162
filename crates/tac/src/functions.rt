//! The code of functions.

ghost use Rattle.std.specs.Prelude.{ℕ, suc, ◌≡◌, true, [], map, length, Some, slice_get, OnOk, IfOk};
ghost use Rattle.std.specs.List.{list_all};
ghost use Rattle.lower_wf.specs.Asked.{is_sized, types_are_sized};
ghost use Rattle.typed_ast.specs.View.{parameter_type_of, function_of, program_of};
ghost use Rattle.tac_code.specs.Lowered.{kind_of};
ghost use Rattle.tac_code.specs.Code as three_address;
ghost use Rattle.lower_correct.specs.Bodies as relation;
ghost use Rattle.lower_ops.specs.layer.Parts.{Wrote};
ghost use Rattle.lower_ops.specs.layer.Small.{RowsAreSmall};
ghost use Rattle.tac.specs.layer.Functions.{IsBodyOf, IsFunctionWith};
ghost use Rattle.tac.specs.inside.Few.{AreFew};

use crate::block_sizes::statement_size;
use crate::copies::copied_objects;
use crate::counts::{most_slots, most_temporaries};
use crate::statements::put_statement;
use lower_ops::form_sizes::plus;
use lower_ops::scopes::Scope;
use lower_ops::writing::{Code, ahead, put};
use std::alloc::{AllocError, Global};
use tac_code::{Instruction, Operand, Parameter, Target};
use typed_ast::{Function, ParameterType, Program};

/// The definition and each parameter take a tick.
fn put_idles(code: &mut Code, parameters: &[ParameterType]) -> Result<(), AllocError>
    ensures { OnOk result (Wrote (λ w p q. relation.Idles w (suc (length parameters.now)) p q) (suc (length parameters.now)) code.old.list.items code.new.list.items) }
{
    put(code, Instruction::Nothing)?;
    for _ in parameters {
        put(code, Instruction::Nothing)?;
    }
    Ok(())
}

/// The end of the body of `main` returns 0 (5.1.2.2.3p1), that of another function nothing (6.9.1p12).
fn put_closing(code: &mut Code, is_main: bool) -> Result<(), AllocError>
    ensures { OnOk result (Wrote (λ w p q. relation.Closes w is_main p q) 1 code.old.list.items code.new.list.items) }
{
    if is_main {
        put(
            code,
            Instruction::Move {
                target: Target::Temporary(0),
                source: Operand::Constant(0),
            },
        )?;
        return Ok(());
    }
    put(code, Instruction::Forget { first: 0, count: 0 })?;
    Ok(())
}

fn put_body(scope: &Scope<'_>, code: &mut Code, is_main: bool) -> Result<(), AllocError>
    requires { code.old.list.items ≡ [] }
    ensures { OnOk result (IsBodyOf (program_of scope.now.program.now) is_main (function_of scope.now.function.now) code.new.list.items) }
{
    put_idles(code, &scope.function.function_type.parameters)?;
    let end = ahead(
        code,
        statement_size(scope.program, scope.function, &scope.function.body),
    );
    let back = plus(end, 1);
    put_statement(scope, code, &scope.function.body, end, end, back)?;
    put_closing(code, is_main)?;
    put(code, Instruction::Return)?;
    Ok(())
}

/// How many instructions a function's code has.
fn room_for(scope: &Scope<'_>) -> usize {
    let parameters = scope.function.function_type.parameters.len();
    plus(
        parameters,
        plus(
            3,
            statement_size(scope.program, scope.function, &scope.function.body),
        ),
    )
}

fn body_of(
    alloc: Global,
    program: &Program,
    function: &Function,
    is_main: bool,
) -> Result<Vec<Instruction>, AllocError>
    requires rows { RowsAreSmall (program_of program.now) (function_of function.now) }
    requires objects { list_all is_sized (function_of function.now).objects ≡ true }
    ensures body { IfOk result (λ code. IsBodyOf (program_of program.now) is_main (function_of function.now) code.items) }
    ensures few { IfOk result (λ code. AreFew code.items) }
{
    let scope = Scope { program, function };
    let mut code = Code {
        list: Vec::with_capacity(alloc, room_for(&scope))?,
    };
    put_body(&scope, &mut code, is_main)?;
    Ok(code.list)
}

fn kind(parameter: &ParameterType) -> Parameter
    ensures { result ≡ kind_of (parameter_type_of parameter.now) }
{
    match parameter {
        ParameterType::Number(_) => Parameter::Number,
        ParameterType::Elements(_) => Parameter::Array,
    }
}

fn kinds(alloc: Global, parameters: &[ParameterType]) -> Result<Vec<Parameter>, AllocError>
    ensures { IfOk result (λ kinds. kinds.items ≡ map kind_of (map parameter_type_of parameters.now)) }
{
    let mut list = Vec::new(alloc);
    for parameter in parameters {
        list.push(kind(parameter))?;
    }
    Ok(list)
}

/// The three-address code of a function of a program, whose objects have elements, and not more bytes than an object may have.
pub fn lower_function(
    alloc: Global,
    program: &Program,
    function: &Function,
    is_main: bool,
) -> Result<tac_code::Function, AllocError>
    requires sized { types_are_sized (program_of program.now) ≡ true }
    requires own { (k : ℕ) × (slice_get (program_of program.now).functions k ≡ Some (function_of function.now)) }
    ensures { IfOk result (λ g. IsFunctionWith (program_of program.now) is_main (function_of function.now) (three_address.function_of g)) }
{
    let code = body_of(alloc, program, function, is_main)?;
    let temporaries = most_temporaries(&program.functions, &code);
    let kept = most_slots(&code);
    Ok(tac_code::Function {
        code,
        parameters: kinds(alloc, &function.function_type.parameters)?,
        objects: copied_objects(alloc, &function.objects)?,
        result: function.function_type.result,
        temporaries,
        kept,
    })
}
