//! The code of elements of arrays that become zero or characters (6.7.9p14, p21): a turn of a loop for each.

ghost use Rattle.std.specs.Prelude.{◌≡◌, ◌<◌, ◌≤◌, ◌^◌, OnOk};
ghost use Rattle.lower_correct.specs.Initialisers as relation;
ghost use Rattle.lower_ops.specs.layer.Parts.{Wrote};
ghost use Rattle.tac.specs.inside.FirstSizes as size;
ghost use Rattle.tac.specs.inside.Starts.{element_at, WroteBegins, WroteClears};

use ctypes::IntType;
use lower_ops::instructions::{branch, compute};
use lower_ops::writing::{Code, ahead, put};
use std::alloc::AllocError;
use tac_code::{Comparison, Instruction, Operand, Operation, Place, Reading, Target};

/// The element of an array that something begins at, and its type.
#[derive(Clone, Copy)]
pub(crate) struct Start {
    pub element: IntType,
    pub array: usize,
    pub number: usize,
}

pub(crate) fn element_at(start: Start) -> Place
    ensures { result ≡ element_at start }
{
    Place::Element {
        array: start.array,
        number: start.number,
        element: start.element,
    }
}

// ---- loops

/// The next turn, while the count is below a limit.
fn put_goes_on(code: &mut Code, limit: u32, top: usize) -> Result<(), AllocError>
    ensures { OnOk result (Wrote (λ w p q. relation.GoesOn w limit top p q) size.goes_on_size code.old.list.items code.new.list.items) }
{
    let counted = Operand::Temporary(0);
    put(
        code,
        compute(
            Operation::Add,
            Reading::Unsigned,
            Target::Temporary(0),
            counted,
            Operand::Constant(1),
        ),
    )?;
    put(
        code,
        branch(
            Comparison::Less,
            Reading::Unsigned,
            counted,
            Operand::Constant(limit),
            top,
        ),
    )?;
    Ok(())
}

fn put_clears_to(code: &mut Code, element: IntType, limit: u32) -> Result<(), AllocError>
    ensures { OnOk result (Wrote (λ w p q. relation.ClearsTo w element limit p q) size.clears_to_size code.old.list.items code.new.list.items) }
{
    let top = ahead(code, 0);
    put(
        code,
        Instruction::Element {
            element,
            target: Target::Temporary(2),
            from: Operand::Temporary(1),
            count: Operand::Temporary(0),
        },
    )?;
    put(
        code,
        Instruction::Store {
            element,
            source: Operand::Constant(0),
            to: Place::At(Operand::Temporary(2)),
        },
    )?;
    put_goes_on(code, limit, top)?;
    Ok(())
}

fn put_copies_to(code: &mut Code, element: IntType, limit: u32) -> Result<(), AllocError>
    ensures { OnOk result (Wrote (λ w p q. relation.CopiesTo w element limit p q) size.copies_to_size code.old.list.items code.new.list.items) }
{
    let top = ahead(code, 0);
    put(
        code,
        Instruction::Element {
            element: IntType::Char,
            target: Target::Temporary(3),
            from: Operand::Temporary(2),
            count: Operand::Temporary(0),
        },
    )?;
    put(
        code,
        Instruction::Load {
            element: IntType::Char,
            target: Target::Temporary(3),
            from: Place::At(Operand::Temporary(3)),
        },
    )?;
    put(
        code,
        Instruction::Element {
            element,
            target: Target::Temporary(4),
            from: Operand::Temporary(1),
            count: Operand::Temporary(0),
        },
    )?;
    put(
        code,
        Instruction::Store {
            element,
            source: Operand::Temporary(3),
            to: Place::At(Operand::Temporary(4)),
        },
    )?;
    put_goes_on(code, limit, top)?;
    Ok(())
}

/// The first elements become characters, if there are any.
fn put_copies_first(code: &mut Code, element: IntType, limit: u32) -> Result<(), AllocError>
    ensures { OnOk result (Wrote (λ w p q. relation.CopiesFirst w element limit p q) (size.copies_first_size limit) code.old.list.items code.new.list.items) }
{
    if limit == 0 {
        return Ok(());
    }
    put_copies_to(code, element, limit)?;
    Ok(())
}

// ---- stretches of elements

/// The count begins at zero, and a temporary refers to the first element.
fn put_begins(code: &mut Code, start: Start) -> Result<(), AllocError>
    ensures { OnOk result (WroteBegins start code.old.list.items code.new.list.items) }
{
    put(
        code,
        Instruction::Move {
            target: Target::Temporary(0),
            source: Operand::Constant(0),
        },
    )?;
    put(
        code,
        Instruction::Address {
            target: Target::Temporary(1),
            of: element_at(start),
        },
    )?;
    Ok(())
}

fn put_clears_by_loop(code: &mut Code, start: Start, count: usize) -> Result<(), AllocError>
    requires more { 2 ≤ count }
    requires small { count < 2 ^ 32 }
    ensures { OnOk result (WroteClears count start code.old.list.items code.new.list.items) }
{
    put_begins(code, start)?;
    put_clears_to(code, start.element, count as u32)?;
    Ok(())
}

/// `count` elements become zero (6.7.9p21).
pub(crate) fn put_clears(code: &mut Code, start: Start, count: usize) -> Result<(), AllocError>
    requires { count < 2 ^ 32 }
    ensures { OnOk result (WroteClears count start code.old.list.items code.new.list.items) }
{
    if count == 0 {
        return Ok(());
    }
    if count == 1 {
        put(
            code,
            Instruction::Store {
                element: start.element,
                source: Operand::Constant(0),
                to: element_at(start),
            },
        )?;
        return Ok(());
    }
    put_clears_by_loop(code, start, count)
}

fn put_clears_rest(
    code: &mut Code,
    less: bool,
    element: IntType,
    limit: u32,
) -> Result<(), AllocError>
    ensures { OnOk result (Wrote (λ w p q. relation.ClearsRest w less element limit p q) (size.clears_rest_size less) code.old.list.items code.new.list.items) }
{
    if less {
        put_clears_to(code, element, limit)?;
    }
    Ok(())
}

/// `count` elements become a literal, which has `characters` characters with its zero (6.7.9p14).
pub(crate) fn put_copies(
    code: &mut Code,
    start: Start,
    literal: usize,
    count: u32,
    characters: usize,
) -> Result<(), AllocError>
    ensures { OnOk result (Wrote (λ w p q. relation.Copies w start.element start.array start.number literal count characters p q) (size.copies_size count characters) code.old.list.items code.new.list.items) }
{
    let copied = (count as usize).min(characters) as u32;
    put(code, Instruction::Nothing)?;
    put_begins(code, start)?;
    put(
        code,
        Instruction::Address {
            target: Target::Temporary(2),
            of: Place::Literal(literal),
        },
    )?;
    put_copies_first(code, start.element, copied)?;
    put_clears_rest(code, characters < count as usize, start.element, count)?;
    Ok(())
}
