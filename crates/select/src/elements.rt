//! Elements of arrays: loads, stores, references.

ghost use Rattle.std.specs.Prelude.{◌≡◌, ◌≤◌, ◌<◌, ◌^◌, ◌++◌, OnOk};
ghost use Rattle.frames_code.specs.Code as flat;
ghost use Rattle.frames_code.specs.Code.{function_of};
ghost use Rattle.frames_code.specs.Sound.{BaseFits, LocationFits, most_bytes};
ghost use Rattle.select.specs.Selected as selected;
ghost use Rattle.select.specs.inside.Ranges.{SourceIsNear, HomeIsNear};

use crate::operations::{put_compute, put_move};
use crate::places::{Home, Source, source_of};
use crate::words::{
    add_to, address_of, base_of, fetch, from_gp, global_pointer, is_near_gp, keep, lower_of,
    made_in, operate_on, put, put_far, put_one, register_of, set_to, stack_pointer, static_address,
};
use asm::Item;
use frames_code::{Base, Function, Location, Operation, Width};
use rv32::{Five, Instr, LoadKind, RegisterOp, ShiftOp, Short, StoreKind};
use std::alloc::AllocError;

fn load_kind(width: Width) -> LoadKind
    ensures { result ≡ selected.load_of width }
{
    match width {
        Width::Byte => LoadKind::ByteUnsigned,
        Width::SignedByte => LoadKind::Byte,
        Width::Half => LoadKind::HalfUnsigned,
        Width::SignedHalf => LoadKind::Half,
        Width::Word => LoadKind::Word,
    }
}

fn store_kind(width: Width) -> StoreKind
    ensures { result ≡ selected.store_of width }
{
    match width {
        Width::Byte => StoreKind::Byte,
        Width::SignedByte => StoreKind::Byte,
        Width::Half => StoreKind::Half,
        Width::SignedHalf => StoreKind::Half,
        Width::Word => StoreKind::Word,
    }
}

/// The register that a base counts from.
fn base_register(base: Base) -> Five
    ensures { result ≡ selected.base_register base }
{
    match base {
        Base::Statics(_) => global_pointer(),
        Base::Frame(_) => stack_pointer(),
    }
}

/// How far from there it begins.
fn base_offset(function: &Function, base: Base) -> Short
    requires small { flat.frame_bytes (function_of function.now) ≤ most_bytes }
    requires fits { BaseFits (function_of function.now) base }
    ensures { result ≡ selected.base_offset (function_of function.now) base }
{
    match base {
        Base::Statics(offset) => from_gp(offset),
        Base::Frame(offset) => lower_of(function.area_home() + offset as u32),
    }
}

/// Register 6 becomes the sum of that register and an index in bytes.
fn put_indexed(
    items: &mut Vec<Item>,
    base: Base,
    index: &Source,
    size: usize,
) -> Result<(), AllocError>
    requires near { SourceIsNear index.now }
    requires small { size < 2 ^ 32 }
    ensures { OnOk result (items.new.items ≡ items.old.items ++ selected.indexed base index.now size) }
{
    let free = Five::new(6);
    let counted = register_of(free, index);
    let bytes = scaled_in(counted, size);
    let sum = operate_on(RegisterOp::Add, free, base_register(base), bytes);
    fetch(items, free, index)?;
    put_scale(items, counted, size)?;
    put_one(items, sum)
}

/// The items before an access to an element.
fn put_reach(
    items: &mut Vec<Item>,
    function: &Function,
    location: &Location,
) -> Result<(), AllocError>
    requires small { flat.frame_bytes (function_of function.now) ≤ most_bytes }
    requires few { function.now.resident ≤ 12 }
    requires fits { LocationFits (function_of function.now) location.now }
    ensures { OnOk result (items.new.items ≡ items.old.items ++ selected.reach (function_of function.now) location.now) }
{
    let free = Five::new(6);
    match location {
        Location::Statics(offset) => {
            if is_near_gp(*offset) {
                Ok(())
            } else {
                put_one(
                    items,
                    Item::DataAddress {
                        rd: free,
                        offset: *offset as u32,
                    },
                )
            }
        }
        Location::Frame(offset) => put_far(items, free, function.area_home() + *offset as u32),
        Location::At(operand) => fetch(items, free, &source_of(function, *operand)),
        Location::Indexed { base, index, size } => {
            put_indexed(items, *base, &source_of(function, *index), *size)
        }
    }
}

/// The register that an access to an element counts from.
fn reach_base(function: &Function, location: &Location) -> Five
    requires small { flat.frame_bytes (function_of function.now) ≤ most_bytes }
    requires few { function.now.resident ≤ 12 }
    requires fits { LocationFits (function_of function.now) location.now }
    ensures { result ≡ selected.reach_base (function_of function.now) location.now }
{
    let free = Five::new(6);
    match location {
        Location::Statics(offset) => {
            if is_near_gp(*offset) {
                global_pointer()
            } else {
                free
            }
        }
        Location::Frame(offset) => base_of(free, function.area_home() + *offset as u32),
        Location::At(operand) => register_of(free, &source_of(function, *operand)),
        Location::Indexed { .. } => free,
    }
}

/// By how many bytes.
fn reach_offset(function: &Function, location: &Location) -> Short
    requires small { flat.frame_bytes (function_of function.now) ≤ most_bytes }
    requires fits { LocationFits (function_of function.now) location.now }
    ensures { result ≡ selected.reach_offset (function_of function.now) location.now }
{
    match location {
        Location::Statics(offset) => {
            if is_near_gp(*offset) {
                from_gp(*offset)
            } else {
                Short::new(0)
            }
        }
        Location::Frame(offset) => lower_of(function.area_home() + *offset as u32),
        Location::At(_) => Short::new(0),
        Location::Indexed { base, .. } => base_offset(function, *base),
    }
}

/// Loads the value at a location, with the width that it has there, and moves it to its home.
pub fn put_load(
    items: &mut Vec<Item>,
    function: &Function,
    width: Width,
    home: &Home,
    location: &Location,
) -> Result<(), AllocError>
    requires small { flat.frame_bytes (function_of function.now) ≤ most_bytes }
    requires few { function.now.resident ≤ 12 }
    requires fits { LocationFits (function_of function.now) location.now }
    requires home_near { HomeIsNear home.now }
    ensures { OnOk result (items.new.items ≡ items.old.items ++ selected.load (function_of function.now) width home.now location.now) }
{
    let load = Instr::Load {
        kind: load_kind(width),
        rd: made_in(home),
        base: reach_base(function, location),
        offset: reach_offset(function, location),
    };
    put_reach(items, function, location)?;
    put_one(items, Item::Plain(load))?;
    keep(items, home)
}

/// Stores a source at a location, as much of it as the width has.
pub fn put_store(
    items: &mut Vec<Item>,
    function: &Function,
    width: Width,
    source: &Source,
    location: &Location,
) -> Result<(), AllocError>
    requires small { flat.frame_bytes (function_of function.now) ≤ most_bytes }
    requires few { function.now.resident ≤ 12 }
    requires fits { LocationFits (function_of function.now) location.now }
    requires near { SourceIsNear source.now }
    ensures { OnOk result (items.new.items ≡ items.old.items ++ selected.store (function_of function.now) width source.now location.now) }
{
    let free = Five::new(5);
    let store = Instr::Store {
        kind: store_kind(width),
        source: register_of(free, source),
        base: reach_base(function, location),
        offset: reach_offset(function, location),
    };
    fetch(items, free, source)?;
    put_reach(items, function, location)?;
    put_one(items, Item::Plain(store))
}

/// A reference to a location.
pub fn put_reference(
    items: &mut Vec<Item>,
    function: &Function,
    home: &Home,
    location: &Location,
) -> Result<(), AllocError>
    requires small { flat.frame_bytes (function_of function.now) ≤ most_bytes }
    requires few { function.now.resident ≤ 12 }
    requires fits { LocationFits (function_of function.now) location.now }
    requires home_near { HomeIsNear home.now }
    ensures { OnOk result (items.new.items ≡ items.old.items ++ selected.reference (function_of function.now) home.now location.now) }
{
    match location {
        Location::Statics(offset) => {
            put_one(items, static_address(made_in(home), *offset))?;
            keep(items, home)
        }
        Location::Frame(offset) => {
            let rd = made_in(home);
            address_of(items, rd, function.area_home() + *offset as u32)?;
            keep(items, home)
        }
        Location::At(operand) => {
            let source = source_of(function, *operand);
            put_move(items, home, &source)
        }
        Location::Indexed { base, index, size } => {
            let sum = add_to(made_in(home), Five::new(6), base_offset(function, *base));
            put_indexed(items, *base, &source_of(function, *index), *size)?;
            put_one(items, sum)?;
            keep(items, home)
        }
    }
}

/// By how many bits a shift multiplies by a size, where it is a power of two.
fn log2_of(size: u32) -> Option<Five>
    ensures { result ≡ selected.log2_of size }
{
    let power = size.trailing_zeros();
    if power < 32 && 1u32 << power == size {
        Some(Five::new(power as u8))
    } else {
        None
    }
}

/// A register times a size that is not 1.
fn put_product(items: &mut Vec<Item>, register: Five, size: u32) -> Result<(), AllocError>
    ensures { OnOk result (items.new.items ≡ items.old.items ++ selected.shift_or_multiply (selected.log2_of size) register size) }
{
    let rd = Five::new(6);
    match log2_of(size) {
        Some(amount) => put_one(
            items,
            Item::Plain(Instr::Shift {
                op: ShiftOp::Left,
                rd,
                left: register,
                amount,
            }),
        ),
        None => {
            let free = Five::new(7);
            put(
                items,
                &[
                    set_to(free, size),
                    operate_on(RegisterOp::Mul, rd, register, free),
                ],
            )
        }
    }
}

/// A register times the size of an element.
fn put_scale(items: &mut Vec<Item>, register: Five, size: usize) -> Result<(), AllocError>
    requires { size < 2 ^ 32 }
    ensures { OnOk result (items.new.items ≡ items.old.items ++ selected.scale register size) }
{
    if size == 1 {
        Ok(())
    } else {
        put_product(items, register, size as u32)
    }
}

fn scaled_in(register: Five, size: usize) -> Five
    ensures { result ≡ selected.scaled_in register size }
{
    if size == 1 { register } else { Five::new(6) }
}

/// The reference advanced by a number of elements that is in a register or in the frame.
fn put_counted(
    items: &mut Vec<Item>,
    home: &Home,
    array: &Source,
    index: &Source,
    size: usize,
) -> Result<(), AllocError>
    requires array_near { SourceIsNear array.now }
    requires index_near { SourceIsNear index.now }
    requires home_near { HomeIsNear home.now }
    requires small { size < 2 ^ 32 }
    ensures { OnOk result (items.new.items ≡ items.old.items ++ selected.counted home.now array.now index.now size) }
{
    let first = Five::new(5);
    let second = Five::new(6);
    let counted = register_of(second, index);
    let bytes = scaled_in(counted, size);
    let sum = operate_on(
        RegisterOp::Add,
        made_in(home),
        register_of(first, array),
        bytes,
    );
    fetch(items, first, array)?;
    fetch(items, second, index)?;
    put_scale(items, counted, size)?;
    put_one(items, sum)?;
    keep(items, home)
}

/// The reference advanced by a number of elements: a constant number of them is a constant number of bytes.
pub fn put_element(
    items: &mut Vec<Item>,
    home: &Home,
    array: &Source,
    index: &Source,
    size: usize,
) -> Result<(), AllocError>
    requires array_near { SourceIsNear array.now }
    requires index_near { SourceIsNear index.now }
    requires home_near { HomeIsNear home.now }
    requires small { size < 2 ^ 32 }
    ensures { OnOk result (items.new.items ≡ items.old.items ++ selected.element home.now array.now index.now size) }
{
    match index {
        Source::Register(register) => {
            if register.get() == 0 {
                put_move(items, home, array)
            } else {
                put_counted(items, home, array, index, size)
            }
        }
        Source::Frame(_) => put_counted(items, home, array, index, size),
        Source::Constant(number) => {
            let bytes = Source::Constant(number.wrapping_mul(size as u32));
            let add = Operation::Machine(RegisterOp::Add);
            put_compute(items, add, home, array, &bytes)
        }
    }
}
