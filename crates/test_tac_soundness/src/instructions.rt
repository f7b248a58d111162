//! Whether all parts that an instruction names exist.

ghost use Rattle.std.specs.Prelude.{◌≡◌, ◌↔◌, ◌≤◌, ◌<◌, ◌+◌, length, slice_get, IsTrue};
ghost use Rattle.tac_code.specs.Code.{function_of, program_of};
ghost use Rattle.tac_code.specs.Costs.{array_parameters};
ghost use Rattle.tac_code.specs.Sound.{IsScalar, IsArray, HasElement, IsDefined, OperandFits, TargetFits, PlaceFits, CallFits, InstructionFits};
ghost use Rattle.test_tac_soundness.specs.inside.Parts.{IsOneElement, IsElement, defined_in};

use crate::objects::has_element_in;
use ctypes::IntType;
use tac_code::{Function, Instruction, Operand, Parameter, Place, TacProgram, Target};

/// Whether an object is there, and is its only element.
fn is_one_element(function: &Function, number: usize) -> bool
    ensures { IsTrue result ↔ IsOneElement (slice_get (function_of function.now).objects number) }
{
    match function.objects.get(number) {
        Some(object) => object.lengths.is_empty(),
        None => false,
    }
}

/// Whether an object is there, and no array.
pub fn is_scalar(function: &Function, number: usize) -> bool
    ensures { IsTrue result ↔ IsScalar (function_of function.now) number }
{
    is_one_element(function, number)
}

fn is_array(function: &Function, number: usize) -> bool
    ensures { IsTrue result ↔ IsArray (function_of function.now) number }
{
    match function.objects.get(number) {
        Some(object) => !object.lengths.is_empty(),
        None => false,
    }
}

/// Whether an object is there, an array of this type, and has an element of this number.
fn is_element(function: &Function, array: usize, number: usize, element: IntType) -> bool
    ensures { IsTrue result ↔ IsElement (slice_get (function_of function.now).objects array) number element }
{
    match function.objects.get(array) {
        Some(object) => {
            !object.lengths.is_empty()
                && has_element_in(&object.lengths, number)
                && element == object.element
        }
        None => false,
    }
}

fn has_element(function: &Function, array: usize, number: usize, element: IntType) -> bool
    ensures { IsTrue result ↔ HasElement (function_of function.now) array number element }
{
    is_element(function, array, number, element)
}

/// Whether an object with static storage is there, and has bytes.
fn has_bytes(program: &TacProgram, number: usize) -> bool
    ensures { result ≡ defined_in (slice_get (program_of program.now).statics number) }
{
    match program.statics.get(number) {
        Some(object) => object.defined,
        None => false,
    }
}

fn is_defined(program: &TacProgram, number: usize) -> bool
    ensures { IsTrue result ↔ IsDefined (program_of program.now) number }
{
    has_bytes(program, number)
}

/// How many parameters are arrays.
pub fn count_arrays(parameters: &[Parameter]) -> usize
    ensures is { result ≡ array_parameters parameters.now }
    ensures few { result ≤ length parameters.now }
{
    let mut count = 0;
    for parameter in parameters {
        match parameter {
            Parameter::Number => {}
            Parameter::Array => count += 1,
        }
    }
    count
}

fn has_operand(function: &Function, operand: Operand) -> bool
    ensures { IsTrue result ↔ OperandFits (function_of function.now) operand }
{
    match operand {
        Operand::Temporary(number) => number < function.temporaries,
        Operand::Kept(number) => number < function.kept,
        Operand::Object(number) => is_scalar(function, number),
        Operand::Parameter(number) => number < count_arrays(&function.parameters),
        Operand::Constant(_) => true,
    }
}

fn has_target(function: &Function, target: Target) -> bool
    ensures { IsTrue result ↔ TargetFits (function_of function.now) target }
{
    match target {
        Target::Temporary(number) => number < function.temporaries,
        Target::Kept(number) => number < function.kept,
        Target::Object(number) => is_scalar(function, number),
    }
}

fn has_literal(program: &TacProgram, number: usize) -> bool
    ensures { IsTrue result ↔ (number < length (program_of program.now).literals) }
{
    number < program.literals.len()
}

fn has_place(program: &TacProgram, function: &Function, place: Place) -> bool
    ensures { IsTrue result ↔ PlaceFits (program_of program.now) (function_of function.now) place }
{
    match place {
        Place::Literal(number) => has_literal(program, number),
        Place::Static(number) => is_defined(program, number),
        Place::Array(number) => is_array(function, number),
        Place::Element {
            array,
            number,
            element,
        } => has_element(function, array, number, element),
        Place::At(operand) => has_operand(function, operand),
    }
}

/// Whether a function may call that of this number.
fn may_call(program: &TacProgram, function: &Function, number: usize) -> bool
    ensures { IsTrue result ↔ CallFits (program_of program.now) (function_of function.now) number }
{
    match program.functions.get(number) {
        Some(callee) => {
            callee.parameters.len() <= function.temporaries && 0 < function.temporaries
        }
        None => false,
    }
}

/// Whether the function has `count` objects from `first` on.
fn has_objects(function: &Function, first: usize, count: usize) -> bool
    ensures { IsTrue result ↔ (first + count ≤ length (function_of function.now).objects) }
{
    match first.checked_add(count) {
        Some(end) => end <= function.objects.len(),
        None => false,
    }
}

fn has_instruction(function: &Function, number: usize) -> bool
    ensures { IsTrue result ↔ (number < length (function_of function.now).code) }
{
    number < function.code.len()
}

/// Whether all parts that an instruction of this function names exist.
pub fn has_all(program: &TacProgram, function: &Function, instruction: Instruction) -> bool
    ensures { IsTrue result ↔ InstructionFits (program_of program.now) (function_of function.now) instruction }
{
    match instruction {
        Instruction::Nothing => true,
        Instruction::Move { target, source } => has_target(function, target)
            && has_operand(function, source),
        Instruction::Compute {
            target,
            left,
            right,
            ..
        } => has_target(function, target)
            && has_operand(function, left)
            && has_operand(function, right),
        Instruction::Convert { target, source, .. } => has_target(function, target)
            && has_operand(function, source),
        Instruction::Load { target, from, .. } => has_target(function, target)
            && has_place(program, function, from),
        Instruction::Store { source, to, .. } => has_operand(function, source)
            && has_place(program, function, to),
        Instruction::Address { target, of } => has_target(function, target)
            && has_place(program, function, of),
        Instruction::Part {
            target,
            array,
            index,
            size,
        } => has_target(function, target)
            && has_operand(function, array)
            && has_operand(function, index)
            && size < 0x1_0000_0000,
        Instruction::Element {
            target,
            from,
            count,
            ..
        } => has_target(function, target)
            && has_operand(function, from)
            && has_operand(function, count),
        Instruction::Forget { first, count } => has_objects(function, first, count),
        Instruction::Jump(to) => has_instruction(function, to),
        Instruction::Branch {
            left,
            right,
            to,
            ..
        } => has_operand(function, left)
            && has_operand(function, right)
            && has_instruction(function, to),
        Instruction::Call(number) => may_call(program, function, number),
        Instruction::PutByte => 0 < function.temporaries,
        Instruction::GetByte => 0 < function.temporaries,
        Instruction::Exit => 0 < function.temporaries,
        Instruction::Return => 0 < function.temporaries,
    }
}
