//! Moves, operations and conversions.

ghost use Rattle.std.specs.Prelude.{◌≡◌, ◌<◌, ◌++◌, ◌∷◌, [], OnOk};
ghost use Rattle.select.specs.Selected as selected;
ghost use Rattle.select.specs.inside.Ranges.{SourceIsNear, HomeIsNear};

use crate::combining::put_combination;
use crate::places::{Home, Source};
use crate::words::{
    fetch, keep, made_in, operate_on, put, put_into, put_one, register_of, shifted, store_word,
    zero,
};
use asm::Item;
use frames_code::{Conversion, Operation};
use rv32::{Five, ImmediateOp, Instr, RegisterOp, ShiftOp, Short};
use std::alloc::AllocError;

/// Moves a source to its home.
pub fn put_move(items: &mut Vec<Item>, home: &Home, source: &Source) -> Result<(), AllocError>
    requires near { SourceIsNear source.now }
    requires home_near { HomeIsNear home.now }
    ensures { OnOk result (items.new.items ≡ items.old.items ++ selected.move home.now source.now) }
{
    match home {
        Home::Register(register) => put_into(items, *register, source),
        Home::Frame(offset) => {
            let free = Five::new(5);
            let register = register_of(free, source);
            fetch(items, free, source)?;
            store_word(items, register, *offset)
        }
    }
}

/// Moves the result of an operation of two sources to its home.
pub fn put_compute(
    items: &mut Vec<Item>,
    operation: Operation,
    home: &Home,
    left: &Source,
    right: &Source,
) -> Result<(), AllocError>
    requires left_near { SourceIsNear left.now }
    requires right_near { SourceIsNear right.now }
    requires home_near { HomeIsNear home.now }
    ensures { OnOk result (items.new.items ≡ items.old.items ++ selected.compute operation home.now left.now right.now) }
{
    let free = Five::new(5);
    let rd = made_in(home);
    let register = register_of(free, left);
    fetch(items, free, left)?;
    put_combination(items, operation, rd, register, right)?;
    keep(items, home)
}

/// Two shifts, which leave the low bits with their sign or with zeros above them.
fn put_shifts(
    items: &mut Vec<Item>,
    back: ShiftOp,
    rd: Five,
    source: Five,
    amount: u8,
) -> Result<(), AllocError>
    requires { amount < 32 }
    ensures { OnOk result (items.new.items ≡ items.old.items ++ selected.shifted ShiftOp.Left rd source amount ∷ selected.shifted back rd rd amount ∷ []) }
{
    put(
        items,
        &[
            shifted(ShiftOp::Left, rd, source, amount),
            shifted(back, rd, rd, amount),
        ],
    )
}

fn put_narrow(
    items: &mut Vec<Item>,
    conversion: Conversion,
    rd: Five,
    source: Five,
) -> Result<(), AllocError>
    ensures { OnOk result (items.new.items ≡ items.old.items ++ selected.narrow conversion rd source) }
{
    match conversion {
        Conversion::ToByte => put_one(
            items,
            Item::Plain(Instr::Immediate {
                op: ImmediateOp::And,
                rd,
                left: source,
                right: Short::new(255),
            }),
        ),
        Conversion::ToSignedByte => put_shifts(items, ShiftOp::RightArithmetic, rd, source, 24),
        Conversion::ToHalf => put_shifts(items, ShiftOp::Right, rd, source, 16),
        Conversion::ToSignedHalf => put_shifts(items, ShiftOp::RightArithmetic, rd, source, 16),
        Conversion::ToTruth => put_one(
            items,
            operate_on(RegisterOp::LessUnsigned, rd, zero(), source),
        ),
    }
}

/// Moves a source to its home, converted (6.3.1).
pub fn put_convert(
    items: &mut Vec<Item>,
    conversion: Conversion,
    home: &Home,
    source: &Source,
) -> Result<(), AllocError>
    requires near { SourceIsNear source.now }
    requires home_near { HomeIsNear home.now }
    ensures { OnOk result (items.new.items ≡ items.old.items ++ selected.convert conversion home.now source.now) }
{
    let free = Five::new(5);
    let rd = made_in(home);
    let register = register_of(free, source);
    fetch(items, free, source)?;
    put_narrow(items, conversion, rd, register)?;
    keep(items, home)
}
