//! Single instructions, words of the frame, constants.

ghost use Rattle.std.specs.Prelude.{◌≡◌, ◌≤◌, ◌<◌, ◌+◌, ◌%◌, ◌^◌, ◌++◌, ◌∷◌, [], OnOk};
ghost use Rattle.select.specs.Selected as selected;
ghost use Rattle.select.specs.inside.Ranges.{SourceIsNear, HomeIsNear, most_offset};

use crate::places::{Home, Source};
use asm::Item;
use rv32::{Five, ImmediateOp, Instr, LoadKind, RegisterOp, ShiftOp, Short, StoreKind, Upper};
use std::alloc::AllocError;

/// Appends items.
pub fn put(items: &mut Vec<Item>, more: &[Item]) -> Result<(), AllocError>
    ensures { OnOk result (items.new.items ≡ items.old.items ++ more.now) }
{
    items.extend_from_slice(more)
}

/// Appends an item, which costs less than a list of one. The match is there because it names `Instr`, which the borrow checker does not see otherwise.
pub fn put_one(items: &mut Vec<Item>, item: Item) -> Result<(), AllocError>
    ensures { OnOk result (items.new.items ≡ items.old.items ++ item ∷ []) }
{
    let item = match item {
        Item::Plain(instr) => Item::Plain(instr),
        _ => item,
    };
    match items.push(item) {
        Ok(()) => Ok(()),
        Err(_) => Err(AllocError),
    }
}

/// x0, which is always 0.
pub fn zero() -> Five
    ensures { result ≡ 0 }
{
    Five::new(0)
}

/// x2, the stack pointer (RISC-V ELF psABI, "Integer Register Convention").
pub fn stack_pointer() -> Five
    ensures { result ≡ 2 }
{
    Five::new(2)
}

/// x3, the global pointer (RISC-V ELF psABI, "Integer Register Convention"). From the program's start on it points `GP_OFFSET` bytes past the
/// begin of the statics.
pub fn global_pointer() -> Five
    ensures { result ≡ 3 }
{
    Five::new(3)
}

/// In bytes. With 12 bits with a sign, an access then reaches the first 4096 bytes of the statics from gp.
pub const GP_OFFSET: u32 = 0x800;

/// Whether a static, by its offset in bytes, is within that reach.
pub fn is_near_gp(offset: usize) -> bool
    ensures { result ≡ selected.is_near_gp offset }
{
    offset < 0x1000
}

/// How far it is then from gp, -2048 to 2047 bytes.
pub fn from_gp(offset: usize) -> Short
    requires { offset < 0x1000 }
    ensures { result ≡ selected.from_gp offset }
{
    Short::new((offset as u32).wrapping_sub(GP_OFFSET))
}

/// `rd` becomes the address of a static.
pub fn static_address(rd: Five, offset: usize) -> Item
    requires { offset < 0x10000000 }
    ensures { result ≡ selected.static_address rd offset }
{
    if is_near_gp(offset) {
        add_to(rd, global_pointer(), from_gp(offset))
    } else {
        Item::DataAddress {
            rd,
            offset: offset as u32,
        }
    }
}

/// `rd` becomes the sum of `left` and a value.
pub fn add_to(rd: Five, left: Five, value: Short) -> Item
    ensures { result ≡ selected.add_to rd left value }
{
    Item::Plain(Instr::Immediate {
        op: ImmediateOp::Add,
        rd,
        left,
        right: value,
    })
}

/// An operation of two registers.
pub fn operate_on(op: RegisterOp, rd: Five, left: Five, right: Five) -> Item
    ensures { result ≡ selected.operate_on op rd left right }
{
    Item::Plain(Instr::Op {
        op,
        rd,
        left,
        right,
    })
}

/// A shift by a fixed number of bits, less than 32.
pub fn shifted(op: ShiftOp, rd: Five, left: Five, amount: u8) -> Item
    requires { amount < 32 }
    ensures { result ≡ selected.shifted op rd left amount }
{
    Item::Plain(Instr::Shift {
        op,
        rd,
        left,
        amount: Five::new(amount),
    })
}

/// `rd` becomes a constant of more than 12 bits.
pub fn load_constant(rd: Five, value: u32) -> Item
    ensures { result ≡ selected.load_constant rd value }
{
    if value % 0x1000 == 0 {
        Item::Plain(Instr::Lui {
            rd,
            upper: Upper::new(value),
        })
    } else {
        Item::Constant { rd, value }
    }
}

/// The part of an offset that is a multiple of 4096.
fn upper_of(offset: u32) -> Upper
    requires { offset < most_offset }
    ensures { result ≡ selected.upper_of offset }
{
    Upper::new((offset + 0x800) / 0x1000 * 0x1000)
}

/// The remainder of it, -2048 to 2047.
pub fn lower_of(offset: u32) -> Short
    requires { offset < most_offset }
    ensures { result ≡ selected.lower_of offset }
{
    Short::new(offset.wrapping_sub((offset + 0x800) / 0x1000 * 0x1000))
}

/// The items before an access to a place past the reach of 12 bits.
pub fn put_far(items: &mut Vec<Item>, free: Five, offset: u32) -> Result<(), AllocError>
    requires { offset < most_offset }
    ensures { OnOk result (items.new.items ≡ items.old.items ++ selected.far free offset) }
{
    if offset < 0x800 {
        return Ok(());
    }
    put(
        items,
        &[
            Item::Plain(Instr::Lui {
                rd: free,
                upper: upper_of(offset),
            }),
            operate_on(RegisterOp::Add, free, free, stack_pointer()),
        ],
    )
}

/// The register that the access counts from.
pub fn base_of(free: Five, offset: u32) -> Five
    ensures { result ≡ selected.base_of free offset }
{
    if offset < 0x800 {
        stack_pointer()
    } else {
        free
    }
}

/// Loads the word at this offset from the stack pointer.
pub fn load_word(items: &mut Vec<Item>, rd: Five, offset: u32) -> Result<(), AllocError>
    requires { offset < most_offset }
    ensures { OnOk result (items.new.items ≡ items.old.items ++ selected.load_word rd offset) }
{
    put_far(items, rd, offset)?;
    let load = Instr::Load {
        kind: LoadKind::Word,
        rd,
        base: base_of(rd, offset),
        offset: lower_of(offset),
    };
    put_one(items, Item::Plain(load))
}

/// Stores a register at this offset from the stack pointer; register 7 is free for the address.
pub fn store_word(items: &mut Vec<Item>, source: Five, offset: u32) -> Result<(), AllocError>
    requires { offset < most_offset }
    ensures { OnOk result (items.new.items ≡ items.old.items ++ selected.store_word source offset) }
{
    let free = Five::new(7);
    put_far(items, free, offset)?;
    let store = Instr::Store {
        kind: StoreKind::Word,
        source,
        base: base_of(free, offset),
        offset: lower_of(offset),
    };
    put_one(items, Item::Plain(store))
}

/// The address of a place of the frame.
pub fn address_of(items: &mut Vec<Item>, rd: Five, offset: u32) -> Result<(), AllocError>
    requires { offset < most_offset }
    ensures { OnOk result (items.new.items ≡ items.old.items ++ selected.address_of rd offset) }
{
    if offset < 0x800 {
        put_one(items, add_to(rd, stack_pointer(), Short::new(offset)))
    } else {
        put(
            items,
            &[
                load_constant(rd, offset),
                operate_on(RegisterOp::Add, rd, rd, stack_pointer()),
            ],
        )
    }
}

/// `rd` becomes a constant.
pub fn set_to(rd: Five, value: u32) -> Item
    ensures { result ≡ selected.set_to rd value }
{
    if value.wrapping_add(0x800) < 0x1000 {
        add_to(rd, zero(), Short::new(value))
    } else {
        load_constant(rd, value)
    }
}

/// Makes a value be in the register that it is then read from.
pub fn fetch(items: &mut Vec<Item>, free: Five, source: &Source) -> Result<(), AllocError>
    requires { SourceIsNear source.now }
    ensures { OnOk result (items.new.items ≡ items.old.items ++ selected.fetch free source.now) }
{
    match source {
        Source::Register(_) => Ok(()),
        Source::Frame(offset) => load_word(items, free, *offset),
        Source::Constant(value) => put_one(items, set_to(free, *value)),
    }
}

/// The register that a value is then read from.
pub fn register_of(free: Five, source: &Source) -> Five
    ensures { result ≡ selected.register_of free source.now }
{
    match source {
        Source::Register(register) => *register,
        Source::Frame(_) => free,
        Source::Constant(_) => free,
    }
}

/// Loads a value into a register.
pub fn put_into(items: &mut Vec<Item>, rd: Five, source: &Source) -> Result<(), AllocError>
    requires { SourceIsNear source.now }
    ensures { OnOk result (items.new.items ≡ items.old.items ++ selected.into rd source.now) }
{
    match source {
        Source::Register(register) => put_one(items, add_to(rd, *register, Short::new(0))),
        Source::Frame(offset) => load_word(items, rd, *offset),
        Source::Constant(value) => put_one(items, set_to(rd, *value)),
    }
}

/// The register that a result is made in.
pub fn made_in(home: &Home) -> Five
    ensures { result ≡ selected.made_in home.now }
{
    match home {
        Home::Register(register) => *register,
        Home::Frame(_) => Five::new(5),
    }
}

/// Moves a result to its destination.
pub fn keep(items: &mut Vec<Item>, home: &Home) -> Result<(), AllocError>
    requires { HomeIsNear home.now }
    ensures { OnOk result (items.new.items ≡ items.old.items ++ selected.keep home.now) }
{
    match home {
        Home::Register(_) => Ok(()),
        Home::Frame(offset) => store_word(items, Five::new(5), *offset),
    }
}
