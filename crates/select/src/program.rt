//! The items of a flat program.

ghost use Rattle.std.specs.Prelude.{ℕ, ◌≡◌, ◌≤◌, ◌<◌, ◌+◌, ◌^◌, ◌++◌, ◌∷◌, [], map, length, slice_get, Some, OnOk, IfOk, IfErr};
ghost use Rattle.srcset.specs.Fault.{IsMemoryFault};
ghost use Rattle.frames_code.specs.Code.{function_of, program_of};
ghost use Rattle.frames_code.specs.Code as flat;
ghost use Rattle.frames_code.specs.Sound.{OperandFits, InstructionFits, FunctionFits, IsSoundProgram, places_of, most_bytes};
ghost use Rattle.select.specs.Selected as selected;
ghost use Rattle.select.specs.Program.{code_items, function_items, functions_items, start_items, program_items, labels_of};

use crate::calls::{has_call, put_entry, put_exit, put_get_byte, put_leave, put_put_byte};
use crate::elements::{put_element, put_load, put_reference, put_store};
use crate::near::shorten_calls;
use crate::operations::{put_compute, put_convert, put_move};
use crate::places::{home_of, source_of};
use crate::shortening::shortened;
use crate::words::{GP_OFFSET, fetch, global_pointer, put, put_one, register_of, stack_pointer};
use asm::{Item, Items, Label};
use frames_code::{FlatProgram, Function, Instruction, Operand};
use memory_map::STACK_END;
use rv32::{Five, Test};
use srcset::Fault;
use std::alloc::{AllocError, Global};

/// A comparison with a jump.
fn put_branch(
    items: &mut Vec<Item>,
    function: &Function,
    test: Test,
    left: Operand,
    right: Operand,
    to: usize,
) -> Result<(), AllocError>
    requires small { flat.frame_bytes (function_of function.now) ≤ most_bytes }
    requires few { function.now.resident ≤ 12 }
    requires fits_left { OperandFits (function_of function.now) left }
    requires fits_right { OperandFits (function_of function.now) right }
    ensures { OnOk result (items.new.items ≡ items.old.items ++ selected.branch test (selected.source_of (function_of function.now) left) (selected.source_of (function_of function.now) right) to) }
{
    let first = Five::new(5);
    let second = Five::new(6);
    let left = source_of(function, left);
    let right = source_of(function, right);
    let jump = Item::Branch {
        test,
        left: register_of(first, &left),
        right: register_of(second, &right),
        to: Label::new(to),
    };
    fetch(items, first, &left)?;
    fetch(items, second, &right)?;
    put_one(items, jump)
}

/// The items of an instruction, in a function whose instructions have the labels from `first` on.
fn put_instruction(
    items: &mut Vec<Item>,
    function: &Function,
    calls: bool,
    first: usize,
    instruction: Instruction,
) -> Result<(), AllocError>
    requires small { flat.frame_bytes (function_of function.now) ≤ most_bytes }
    requires few { function.now.resident ≤ 12 }
    requires all { function.now.resident ≤ function.now.cells }
    requires known { calls ≡ selected.calls function.now.code.items }
    requires labels { first + length function.now.code.items < 2 ^ 32 }
    requires fits { (n : ℕ) × InstructionFits n (function_of function.now) instruction }
    ensures { OnOk result (items.new.items ≡ items.old.items ++ selected.items_of (function_of function.now) first instruction) }
{
    match instruction {
        Instruction::Nothing => Ok(()),
        Instruction::Move { target, source } => {
            let home = home_of(function, target);
            let source = source_of(function, source);
            put_move(items, &home, &source)
        }
        Instruction::Compute {
            operation,
            target,
            left,
            right,
        } => {
            let home = home_of(function, target);
            let left = source_of(function, left);
            let right = source_of(function, right);
            put_compute(items, operation, &home, &left, &right)
        }
        Instruction::Convert {
            conversion,
            target,
            source,
        } => {
            let home = home_of(function, target);
            let source = source_of(function, source);
            put_convert(items, conversion, &home, &source)
        }
        Instruction::Load {
            width,
            target,
            from,
        } => {
            let home = home_of(function, target);
            put_load(items, function, width, &home, &from)
        }
        Instruction::Store { width, source, to } => {
            let source = source_of(function, source);
            put_store(items, function, width, &source, &to)
        }
        Instruction::Address { target, of } => {
            let home = home_of(function, target);
            put_reference(items, function, &home, &of)
        }
        Instruction::Element {
            target,
            array,
            index,
            size,
        } => {
            let home = home_of(function, target);
            let array = source_of(function, array);
            let index = source_of(function, index);
            put_element(items, &home, &array, &index, size)
        }
        Instruction::Jump(to) => {
            let to = Label::new(first + to);
            put_one(items, Item::Jump { to })
        }
        Instruction::Branch {
            test,
            left,
            right,
            to,
        } => put_branch(items, function, test, left, right, first + to),
        Instruction::Call(number) => {
            let to = Label::new(number);
            put_one(items, Item::Call { to })
        }
        Instruction::PutByte => put_put_byte(items, function),
        Instruction::GetByte => put_get_byte(items, function),
        Instruction::Exit => put_exit(items),
        Instruction::Return => put_leave(items, function, calls),
    }
}

/// The items of a function's instructions, each after its mark, and the mark of its end.
fn put_code(
    items: &mut Vec<Item>,
    function: &Function,
    calls: bool,
    first: usize,
) -> Result<(), AllocError>
    requires fits { (n : ℕ) × FunctionFits n (function_of function.now) }
    requires known { calls ≡ selected.calls function.now.code.items }
    requires labels { first + length function.now.code.items < 2 ^ 32 }
    ensures { OnOk result (items.new.items ≡ items.old.items ++ code_items (function_of function.now) first 0 function.now.code.items) }
{
    let mut number = 0;
    for instruction in &function.code {
        put_one(items, Item::Mark(Label::new(first + number)))?;
        put_instruction(
            items,
            function,
            calls,
            first,
            shortened(&function.code, number, *instruction),
        )?;
        number += 1;
    }
    put_one(items, Item::Mark(Label::new(first + number)))
}

fn put_function(
    items: &mut Vec<Item>,
    function: &Function,
    number: usize,
    first: usize,
) -> Result<(), AllocError>
    requires fits { (n : ℕ) × FunctionFits n (function_of function.now) }
    requires labels { first + length function.now.code.items < 2 ^ 32 }
    ensures { OnOk result (items.new.items ≡ items.old.items ++ function_items number first (function_of function.now)) }
{
    let calls = has_call(&function.code);
    put_one(items, Item::Mark(Label::new(number)))?;
    put_entry(items, function, calls)?;
    put_code(items, function, calls, first)
}

/// Sets the stack pointer and the global pointer, calls main, and ends the program with its result.
fn put_start(items: &mut Vec<Item>, main: usize) -> Result<(), AllocError>
    ensures { OnOk result (items.new.items ≡ items.old.items ++ start_items main) }
{
    put(
        items,
        &[
            Item::Constant {
                rd: stack_pointer(),
                value: STACK_END,
            },
            Item::DataAddress {
                rd: global_pointer(),
                offset: GP_OFFSET,
            },
            Item::Call {
                to: Label::new(main),
            },
        ],
    )?;
    put_exit(items)
}

/// The items of all functions, and the number of labels.
fn put_functions(items: &mut Vec<Item>, functions: &[Function]) -> Result<usize, AllocError>
    requires countable { length functions.now + places_of (map function_of functions.now) < 2 ^ 32 }
    requires fit { (k : ℕ) (f : flat.Function) → slice_get (map function_of functions.now) k ≡ Some f → FunctionFits (length functions.now) f }
    ensures { IfOk result (λ labels. (items.new.items ≡ items.old.items ++ functions_items 0 (length functions.now) (map function_of functions.now))
        × (labels ≡ length functions.now + places_of (map function_of functions.now))) }
{
    let mut number = 0;
    let mut label = functions.len();
    for function in functions {
        put_function(items, function, number, label)?;
        number += 1;
        label += function.code.len() + 1;
    }
    Ok(label)
}

/// About how many items the functions have. Where it is too little there is more room made as they are put, which copies them.
fn room_for(functions: &[Function]) -> usize {
    let mut room: usize = 64;
    for function in functions {
        let items = function.code.len().saturating_mul(4);
        room = room.saturating_add(items.saturating_add(32));
    }
    room
}

fn program_code(alloc: Global, program: &FlatProgram) -> Result<Items, AllocError>
    requires { IsSoundProgram (program_of program.now) }
    ensures { IfOk result (λ items. items ≡ program_items (program_of program.now)) }
{
    let mut list = Vec::with_capacity(alloc, room_for(&program.functions))?;
    put_start(&mut list, program.main)?;
    let begun = list.len();
    let labels = put_functions(&mut list, &program.functions)?;
    shorten_calls(&mut list, begun);
    let Some(items) = Items::new(alloc, list, labels)? else {
        unreachable!()
    };
    Ok(items)
}

/// The items of a flat program, which begin with its entry: temporaries 0 to 7 in a0 to a7, resident words of the frame in s0 to
/// s11, the others in the frame.
///
/// Refuses only with 801, where there is no memory.
pub fn select(alloc: Global, program: &FlatProgram) -> Result<Items, Fault>
    requires sound { IsSoundProgram (program_of program.now) }
    ensures items { IfOk result (λ items. items ≡ program_items (program_of program.now)) }
    ensures refused { IfErr result IsMemoryFault }
{
    let Ok(items) = program_code(alloc, program) else {
        return Err(Fault::memory(alloc));
    };
    Ok(items)
}
