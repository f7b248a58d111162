//! The code of programs.

ghost use Rattle.std.specs.Prelude.{◌≡◌, true, map, length, IfOk};
ghost use Rattle.lower_wf.specs.Asked.{types_are_sized};
ghost use Rattle.typed_ast.specs.View as view;
ghost use Rattle.tac_code.specs.Code as three_address;
ghost use Rattle.lower_correct.specs.Bodies.{IsCodeFor};
ghost use Rattle.tac.specs.inside.Functions.{AreFunctionsOf};

use crate::copies::{copied_literals, copied_statics};
use crate::functions::lower_function;
use std::alloc::{AllocError, Global};
use tac_code::TacProgram;
use typed_ast::Program;

fn lowered_functions(
    alloc: Global,
    program: &Program,
) -> Result<Vec<tac_code::Function>, AllocError>
    requires { types_are_sized (view.program_of program.now) ≡ true }
    ensures { IfOk result (λ gs. AreFunctionsOf (view.program_of program.now) (length program.now.functions.items) (map three_address.function_of gs.items)) }
{
    let mut list = Vec::with_capacity(alloc, program.functions.len())?;
    let mut number = 0;
    for function in &program.functions {
        let is_main = number == program.main;
        list.push(lower_function(alloc, program, function, is_main)?)?;
        number += 1;
    }
    Ok(list)
}

/// The three-address code of a program, whose objects have elements, and not more bytes than an object may have.
pub fn lower(alloc: Global, program: &Program) -> Result<TacProgram, AllocError>
    requires { types_are_sized (view.program_of program.now) ≡ true }
    ensures code { IfOk result (λ q. IsCodeFor (view.program_of program.now) (three_address.program_of q)) }
{
    let functions = lowered_functions(alloc, program)?;
    let literals = copied_literals(alloc, &program.literals)?;
    let statics = copied_statics(alloc, &program.statics)?;
    Ok(TacProgram {
        functions,
        literals,
        statics,
        main: program.main,
    })
}
