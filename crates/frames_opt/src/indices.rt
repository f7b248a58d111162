//! Elements that an index leads to, which a load or a store names itself.

ghost use Rattle.std.specs.Prelude.{◌≡◌, ◌+◌, ◌*◌, nat_lt};
ghost use Rattle.frames_code.specs.Sound as sound;
ghost use Rattle.frames_opt.specs.inside.Facts as facts_in;

use crate::facts::Known;
use crate::room::Room;
use frames_code::{Base, Operand};

fn is_index(operand: Operand) -> bool
    ensures { result ≡ facts_in.is_index operand }
{
    match operand {
        Operand::Temporary(_) => true,
        Operand::Cell(_) => true,
        Operand::Constant(_) => false,
        Operand::Argument(_) => false,
    }
}

fn is_power_of_two(size: usize) -> bool
    ensures { result ≡ sound.is_power_of_two size }
{
    if size > 0xFFFF_FFFF {
        return false;
    }
    let power = (size as u32).trailing_zeros();
    power < 32 && 1u32 << power == size as u32
}

/// Whether an access by this index costs no more than one by a reference.
pub fn is_cheap(room: Room, index: Operand, size: usize) -> bool
    ensures { result ≡ facts_in.is_cheap room index size }
{
    is_index(index) && is_power_of_two(size) && room.home <= 0x800
}

/// Whether a place of the frame's arrays is within the reach of 12 bits.
fn is_reached(home: usize, offset: usize) -> bool
    ensures { result ≡ nat_lt (home + offset) 0x800 }
{
    match home.checked_add(offset) {
        Some(sum) => sum < 0x800,
        None => false,
    }
}

/// Whether an access may name an element from this base.
pub fn is_near(room: Room, base: Base) -> bool
    ensures { result ≡ facts_in.is_near room base }
{
    match base {
        Base::Statics(offset) => offset < 0x1000,
        Base::Frame(offset) => offset < room.area && is_reached(room.home, offset),
    }
}

fn indexed_if(right: bool, base: Base, index: Operand, size: usize) -> Known
    ensures { result ≡ facts_in.indexed_if right base index size }
{
    if right {
        Known::Indexed { base, index, size }
    } else {
        Known::Unknown
    }
}

fn from_base(room: Room, base: Base, index: Operand, size: usize) -> Known
    ensures { result ≡ facts_in.from_base room base index size }
{
    let right = is_near(room, base) && is_cheap(room, index, size);
    indexed_if(right, base, index, size)
}

/// The element by this index from a base that is a number of bytes further on.
fn from_moved(room: Room, base: Base, bytes: usize, index: Operand, width: usize) -> Known
    ensures { result ≡ facts_in.indexed_if (facts_in.is_near room (facts_in.moved base bytes)) (facts_in.moved base bytes) index width }
{
    match base {
        Base::Statics(offset) => match offset.checked_add(bytes) {
            Some(sum) => {
                let moved = Base::Statics(sum);
                indexed_if(is_near(room, moved), moved, index, width)
            }
            None => Known::Unknown,
        },
        Base::Frame(offset) => match offset.checked_add(bytes) {
            Some(sum) => {
                let moved = Base::Frame(sum);
                indexed_if(is_near(room, moved), moved, index, width)
            }
            None => Known::Unknown,
        },
    }
}

/// The element, a constant number of elements of `size` bytes further on.
pub fn further(
    room: Room,
    base: Base,
    index: Operand,
    width: usize,
    number: Operand,
    size: usize,
) -> Known
    ensures { result ≡ facts_in.further room base index width number size }
{
    match number {
        Operand::Temporary(_) => Known::Unknown,
        Operand::Cell(_) => Known::Unknown,
        Operand::Constant(word) => match (word as usize).checked_mul(size) {
            Some(bytes) => from_moved(room, base, bytes, index, width),
            None => Known::Unknown,
        },
        Operand::Argument(_) => Known::Unknown,
    }
}

/// The element that an index leads to from a reference.
pub fn indexed_from(room: Room, known: Known, index: Operand, size: usize) -> Known
    ensures { result ≡ facts_in.indexed_from room known index size }
{
    match known {
        Known::Unknown => Known::Unknown,
        Known::Word(_) => Known::Unknown,
        Known::Statics(offset) => from_base(room, Base::Statics(offset), index, size),
        Known::Frame(offset) => from_base(room, Base::Frame(offset), index, size),
        Known::Indexed {
            base,
            index: first,
            size: width,
        } => further(room, base, first, width, index, size),
    }
}
