//! Where functions begin and end, and environment calls.

ghost use Rattle.std.specs.Prelude.{◌≡◌, ◌≤◌, ◌<◌, ◌-◌, ◌^◌, ◌++◌, OnOk};
ghost use Rattle.frames_code.specs.Code as flat;
ghost use Rattle.frames_code.specs.Code.{function_of};
ghost use Rattle.frames_code.specs.Sound.{most_bytes};
ghost use Rattle.asm.specs.declared.item.Item.TheVariants as item;
ghost use Rattle.rv32.specs.declared.instr.Instr.TheVariants as instr;
ghost use Rattle.rv32.specs.declared.instr.ImmediateOp.TheVariants as immediate_op;
ghost use Rattle.rv32.specs.declared.instr.Test.TheVariants as test;
ghost use Rattle.select.specs.Selected as selected;

use crate::places::kept;
use crate::words::{
    add_to, address_of, load_constant, load_word, operate_on, put, stack_pointer, store_word, zero,
};
use asm::Item;
use frames_code::{Function, Instruction};
use rv32::{BranchOffset, Five, ImmediateOp, Instr, LoadKind, RegisterOp, Short, StoreKind, Test};
use std::alloc::AllocError;

/// x1, the return address (RISC-V ELF psABI, "Integer Register Convention").
fn return_address() -> Five
    ensures { result ≡ 1 }
{
    Five::new(1)
}

/// a0 to a7.
fn argument(number: u8) -> Five
    requires { number < 8 }
    ensures { result ≡ selected.argument number }
{
    Five::new(10 + number)
}

/// A small number, put into an argument's register.
fn set_argument(number: u8, value: u32) -> Item
    requires register { number < 8 }
    requires short { value < 0x800 }
    ensures { result ≡ selected.add_to (selected.argument number) 0 value }
{
    add_to(argument(number), zero(), Short::new(value))
}

/// Adds to the stack pointer, modulo 2^32.
fn change_sp(items: &mut Vec<Item>, by: u32) -> Result<(), AllocError>
    ensures { OnOk result (items.new.items ≡ items.old.items ++ selected.change_sp by) }
{
    if by.wrapping_add(0x800) < 0x1000 {
        put(
            items,
            &[add_to(stack_pointer(), stack_pointer(), Short::new(by))],
        )
    } else {
        let free = Five::new(7);
        put(
            items,
            &[
                load_constant(free, by),
                operate_on(RegisterOp::Add, stack_pointer(), stack_pointer(), free),
            ],
        )
    }
}

fn put_saves(items: &mut Vec<Item>, function: &Function) -> Result<(), AllocError>
    requires small { flat.frame_bytes (function_of function.now) ≤ most_bytes }
    requires few { function.now.resident ≤ 12 }
    requires all { function.now.resident ≤ function.now.cells }
    ensures { OnOk result (items.new.items ≡ items.old.items ++ selected.saves (function_of function.now) function.now.resident) }
{
    for number in 0..function.resident {
        store_word(items, kept(number), function.cell_home(number))?;
    }
    Ok(())
}

fn put_restores(items: &mut Vec<Item>, function: &Function) -> Result<(), AllocError>
    requires small { flat.frame_bytes (function_of function.now) ≤ most_bytes }
    requires few { function.now.resident ≤ 12 }
    requires all { function.now.resident ≤ function.now.cells }
    ensures { OnOk result (items.new.items ≡ items.old.items ++ selected.restores (function_of function.now) function.now.resident) }
{
    for number in 0..function.resident {
        load_word(items, kept(number), function.cell_home(number))?;
    }
    Ok(())
}

fn is_call(instruction: &Instruction) -> bool
    ensures { result ≡ selected.is_call instruction.now }
{
    match instruction {
        Instruction::Nothing => false,
        Instruction::Move { .. } => false,
        Instruction::Compute { .. } => false,
        Instruction::Convert { .. } => false,
        Instruction::Load { .. } => false,
        Instruction::Store { .. } => false,
        Instruction::Address { .. } => false,
        Instruction::Element { .. } => false,
        Instruction::Jump(_) => false,
        Instruction::Branch { .. } => false,
        Instruction::Call(_) => true,
        Instruction::PutByte => false,
        Instruction::GetByte => false,
        Instruction::Exit => false,
        Instruction::Return => false,
    }
}

/// Whether a call is among the instructions.
pub fn has_call(code: &[Instruction]) -> bool
    ensures { result ≡ selected.calls code.now }
{
    code.iter().any(is_call)
}

/// A function that calls has the address to return to in its frame.
fn keep_return(items: &mut Vec<Item>, function: &Function, calls: bool) -> Result<(), AllocError>
    requires small { flat.frame_bytes (function_of function.now) ≤ most_bytes }
    requires known { calls ≡ selected.calls function.now.code.items }
    ensures { OnOk result (items.new.items ≡ items.old.items ++ selected.keep_return (function_of function.now)) }
{
    if calls {
        store_word(items, return_address(), function.frame_bytes() - 4)
    } else {
        Ok(())
    }
}

fn take_return(items: &mut Vec<Item>, function: &Function, calls: bool) -> Result<(), AllocError>
    requires small { flat.frame_bytes (function_of function.now) ≤ most_bytes }
    requires known { calls ≡ selected.calls function.now.code.items }
    ensures { OnOk result (items.new.items ≡ items.old.items ++ selected.take_return (function_of function.now)) }
{
    if calls {
        load_word(items, return_address(), function.frame_bytes() - 4)
    } else {
        Ok(())
    }
}

/// The prologue of a function: its frame, the address to return to, and the caller's registers.
pub fn put_entry(items: &mut Vec<Item>, function: &Function, calls: bool) -> Result<(), AllocError>
    requires small { flat.frame_bytes (function_of function.now) ≤ most_bytes }
    requires few { function.now.resident ≤ 12 }
    requires all { function.now.resident ≤ function.now.cells }
    requires known { calls ≡ selected.calls function.now.code.items }
    ensures { OnOk result (items.new.items ≡ items.old.items ++ selected.entry (function_of function.now)) }
{
    change_sp(items, 0u32.wrapping_sub(function.frame_bytes()))?;
    keep_return(items, function, calls)?;
    put_saves(items, function)
}

/// A return from it.
pub fn put_leave(items: &mut Vec<Item>, function: &Function, calls: bool) -> Result<(), AllocError>
    requires small { flat.frame_bytes (function_of function.now) ≤ most_bytes }
    requires few { function.now.resident ≤ 12 }
    requires all { function.now.resident ≤ function.now.cells }
    requires known { calls ≡ selected.calls function.now.code.items }
    ensures { OnOk result (items.new.items ≡ items.old.items ++ selected.leave (function_of function.now)) }
{
    put_restores(items, function)?;
    take_return(items, function, calls)?;
    change_sp(items, function.frame_bytes())?;
    put(
        items,
        &[Item::Plain(Instr::Jalr {
            rd: zero(),
            base: return_address(),
            offset: Short::new(0),
        })],
    )
}

/// The word of the frame for a byte that is put or got.
fn byte_home(function: &Function) -> u32
    requires { flat.frame_bytes (function_of function.now) ≤ most_bytes }
    ensures is { result ≡ selected.byte_home (function_of function.now) }
    ensures small { result < 2 ^ 24 }
{
    (4 * function.outgoing) as u32
}

/// Environment call 64, which writes the low byte of a0. Where it returns that it did not write exactly one byte, the program ends with the status 126.
pub fn put_put_byte(items: &mut Vec<Item>, function: &Function) -> Result<(), AllocError>
    requires { flat.frame_bytes (function_of function.now) ≤ most_bytes }
    ensures { OnOk result (items.new.items ≡ items.old.items ++ selected.put_byte (function_of function.now)) }
{
    address_of(items, argument(1), byte_home(function))?;
    put(
        items,
        &[
            Item::Plain(Instr::Store {
                kind: StoreKind::Byte,
                source: argument(0),
                base: argument(1),
                offset: Short::new(0),
            }),
            set_argument(0, 1),
            set_argument(2, 1),
            set_argument(7, 64),
            Item::Plain(Instr::Ecall),
            add_to(argument(0), argument(0), Short::new(u32::MAX)),
            over_three(),
            set_argument(0, 126),
            set_argument(7, 93),
            Item::Plain(Instr::Ecall),
        ],
    )
}

/// Skips the next three instructions where a0 is 0.
fn over_three() -> Item
    ensures { result ≡ item.Plain (instr.Branch test.Equal 10 0 16) }
{
    Item::Plain(Instr::Branch {
        test: Test::Equal,
        left: argument(0),
        right: zero(),
        offset: BranchOffset::new(16),
    })
}

/// A register of an argument is 1 where it was 0, and else 0.
fn is_zero(number: u8) -> Item
    requires { number < 8 }
    ensures { result ≡ item.Plain (instr.Immediate immediate_op.LessUnsigned (selected.argument number) (selected.argument number) 1) }
{
    Item::Plain(Instr::Immediate {
        op: ImmediateOp::LessUnsigned,
        rd: argument(number),
        left: argument(number),
        right: Short::new(1),
    })
}

/// Environment call 63, which reads a byte; -1 at the end of the input, and where it returns that it did not read exactly one byte.
pub fn put_get_byte(items: &mut Vec<Item>, function: &Function) -> Result<(), AllocError>
    requires { flat.frame_bytes (function_of function.now) ≤ most_bytes }
    ensures { OnOk result (items.new.items ≡ items.old.items ++ selected.get_byte (function_of function.now)) }
{
    address_of(items, argument(1), byte_home(function))?;
    put(
        items,
        &[
            set_argument(0, 0),
            set_argument(2, 1),
            set_argument(7, 63),
            Item::Plain(Instr::Ecall),
            Item::Plain(Instr::Load {
                kind: LoadKind::ByteUnsigned,
                rd: argument(1),
                base: argument(1),
                offset: Short::new(0),
            }),
            add_to(argument(0), argument(0), Short::new(u32::MAX)),
            is_zero(0),
            add_to(argument(0), argument(0), Short::new(u32::MAX)),
            operate_on(RegisterOp::Or, argument(0), argument(0), argument(1)),
        ],
    )
}

/// Environment call 93, which ends the program with the low byte of a0.
pub fn put_exit(items: &mut Vec<Item>) -> Result<(), AllocError>
    ensures { OnOk result (items.new.items ≡ items.old.items ++ selected.exit) }
{
    put(items, &[set_argument(7, 93), Item::Plain(Instr::Ecall)])
}
