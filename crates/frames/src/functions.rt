//! Functions and programs.

ghost use Rattle.std.specs.Prelude.{ℕ, ◌≡◌, ◌≤◌, ◌<◌, ◌+◌, ◌^◌, ◌++◌, map, length, slice_get, Some, OnOk, IfOk, IfErr};
ghost use Rattle.srcset.specs.Fault.{IsMemoryFault};
ghost use Rattle.tac_code.specs.Code as three_address;
ghost use Rattle.tac_code.specs.Sound.{IsSoundProgram, FunctionFits};
ghost use Rattle.tac_code.specs.declared.code.Instruction as instruction;
ghost use Rattle.frames_code.specs.Code as flat;
ghost use Rattle.frames_code.specs.Sound as flat_sound;
ghost use Rattle.frames.specs.Flattened.{IsCodeOf};
ghost use Rattle.frames.specs.Translated.{translated, argument, moves_from, flat_function, flat_program};
ghost use Rattle.frames.specs.Layout.{layout_of};
ghost use Rattle.frames.specs.layer.Alone.{starts_in};
ghost use Rattle.frames.specs.inside.Held.{layout_in, InstructionIsNear};

use crate::instructions::translate;
use crate::layout::{Home, Layout};
use crate::starts::Starts;
use crate::statics::data;
use frames_code::{FlatProgram, Operand, Target};
use srcset::Fault;
use std::alloc::{AllocError, Global};
use tac_code::{Parameter, TacProgram};

/// Where a function finds an argument as it begins.
fn argument_source(number: usize) -> Operand
    ensures { result ≡ argument number }
{
    if number < 8 {
        Operand::Temporary(number)
    } else {
        Operand::Argument(number)
    }
}

/// The moves of the parameters into their places.
fn put_moves(
    code: &mut Vec<frames_code::Instruction>,
    layout: &Layout,
    parameters: &[Parameter],
) -> Result<(), AllocError>
    ensures { OnOk result (code.new.items ≡ code.old.items ++ moves_from (layout_in layout.now) 0 0 0 parameters.now) }
{
    let mut number = 0;
    let mut object = 0;
    let mut reference = 0;
    for parameter in parameters {
        let cell = match parameter {
            Parameter::Number => {
                object += 1;
                layout.cell(object - 1)
            }
            Parameter::Array => {
                reference += 1;
                layout.references + (reference - 1)
            }
        };
        code.push(frames_code::Instruction::Move {
            target: Target::Cell(cell),
            source: argument_source(number),
        })?;
        number += 1;
    }
    Ok(())
}

fn put_code(
    code: &mut Vec<frames_code::Instruction>,
    starts: &Starts,
    layout: &Layout,
    instructions: &[tac_code::Instruction],
) -> Result<(), AllocError>
    requires near { (k : ℕ) (x : instruction.Instruction) → slice_get instructions.now k ≡ Some x → InstructionIsNear (layout_in layout.now) x }
    ensures { OnOk result (code.new.items ≡ code.old.items ++ map (translated (starts_in starts.now) (layout_in layout.now)) instructions.now) }
{
    for instruction in instructions {
        code.push(translate(starts, layout, *instruction))?;
    }
    Ok(())
}

/// The flat code of one function, where literals and static objects begin at `starts`.
pub fn flatten_function(
    alloc: Global,
    starts: &Starts,
    function: &tac_code::Function,
) -> Result<frames_code::Function, AllocError>
    requires fits { (p : three_address.Program) × FunctionFits p (three_address.function_of function.now) }
    requires code { length function.now.code.items < 2 ^ 32 }
    ensures { IfOk result (λ f. flat.function_of f ≡ flat_function (starts_in starts.now) (three_address.function_of function.now)) }
{
    let layout = Layout::new(alloc, function)?;
    let room = function
        .code
        .len()
        .saturating_add(function.parameters.len());
    let mut code = Vec::with_capacity(alloc, room)?;
    put_moves(&mut code, &layout, &function.parameters)?;
    put_code(&mut code, starts, &layout, &function.code)?;
    Ok(frames_code::Function {
        code,
        cells: layout.cells,
        resident: layout.cells.min(12),
        area: layout.area,
        outgoing: function.temporaries.saturating_sub(8),
        gives: function.result.is_some(),
    })
}

/// Where the objects of a function lie: in words of its frame, or among its arrays. It is the layout of `flatten_function`, for debuggers.
pub fn object_homes(alloc: Global, function: &tac_code::Function) -> Result<Vec<Home>, AllocError>
    requires fits { (p : three_address.Program) × FunctionFits p (three_address.function_of function.now) }
    ensures { IfOk result (λ homes. homes.items ≡ (layout_of (three_address.function_of function.now)).homes) }
{
    let layout = Layout::new(alloc, function)?;
    Ok(layout.homes)
}

fn put_functions(
    list: &mut Vec<frames_code::Function>,
    alloc: Global,
    starts: &Starts,
    functions: &[tac_code::Function],
) -> Result<(), AllocError>
    requires fit { (p : three_address.Program) × ((k : ℕ) (f : three_address.Function) → slice_get (map three_address.function_of functions.now) k ≡ Some f → FunctionFits p f × (length f.code < 2 ^ 32)) }
    ensures { OnOk result (map flat.function_of list.new.items ≡ map flat.function_of list.old.items ++ map (flat_function (starts_in starts.now)) (map three_address.function_of functions.now)) }
{
    for function in functions {
        list.push(flatten_function(alloc, starts, function)?)?;
    }
    Ok(())
}

fn flat_code_of(alloc: Global, program: &TacProgram) -> Result<FlatProgram, AllocError>
    requires { IsSoundProgram (three_address.program_of program.now) }
    ensures { IfOk result (λ f. flat.program_of f ≡ flat_program (three_address.program_of program.now)) }
{
    let starts = Starts::new(alloc, &program.literals, &program.statics)?;
    let mut functions = Vec::with_capacity(alloc, program.functions.len())?;
    put_functions(&mut functions, alloc, &starts, &program.functions)?;
    let statics = data(alloc, program)?;
    Ok(FlatProgram {
        functions,
        statics,
        main: program.main,
    })
}

/// The flat code of a program: objects that are no arrays, references and slots in words of the frame, arrays in its bytes.
///
/// Fails only with 801, where memory runs out.
pub fn flatten(alloc: Global, program: &TacProgram) -> Result<FlatProgram, Fault>
    requires sound { IsSoundProgram (three_address.program_of program.now) }
    ensures code { IfOk result (λ f. flat.program_of f ≡ flat_program (three_address.program_of program.now)) }

    // The result satisfies the precondition of the next step, and is no larger than the bounds.
    ensures sound { IfOk result (λ f. flat_sound.IsSoundProgram (flat.program_of f)) }
    ensures each { IfOk result (λ f. (k : ℕ) (g : three_address.Function) (h : flat.Function) → slice_get (three_address.program_of program.now).functions k ≡ Some g
        → slice_get (flat.program_of f).functions k ≡ Some h → IsCodeOf g h) }
    ensures refused { IfErr result IsMemoryFault }
{
    let Ok(code) = flat_code_of(alloc, program) else {
        return Err(Fault::memory(alloc));
    };
    Ok(code)
}
