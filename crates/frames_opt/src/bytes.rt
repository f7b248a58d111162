//! How many bytes code has at most.

ghost use Rattle.std.specs.Prelude.{◌≡◌, ◌≤◌, IfSome, sum_by};
ghost use Rattle.std.specs.Bool.{OnTrue};
ghost use Rattle.frames.specs.Costs as bytes;
ghost use Rattle.frames.specs.Costs.{code_bytes as bytes_of_code};

use frames_code::{Instruction, Location, Operand, Target};

fn temporary_bytes(number: usize) -> u64
    ensures value { result ≡ bytes.temporary_bytes number }
    ensures few { result ≤ 12 }
{
    if number < 8 { 0 } else { 12 }
}

fn fetch_bytes(operand: Operand) -> u64
    ensures value { result ≡ bytes.fetch_bytes operand }
    ensures few { result ≤ 12 }
{
    match operand {
        Operand::Temporary(number) => temporary_bytes(number),
        Operand::Cell(_) => 12,
        Operand::Constant(_) => 8,
        Operand::Argument(_) => 12,
    }
}

fn keep_bytes(target: Target) -> u64
    ensures value { result ≡ bytes.keep_bytes target }
    ensures few { result ≤ 12 }
{
    match target {
        Target::Temporary(number) => temporary_bytes(number),
        Target::Cell(_) => 12,
    }
}

fn move_bytes(target: Target, source: Operand) -> u64
    ensures value { result ≡ bytes.move_bytes target source }
    ensures few { result ≤ 24 }
{
    4_u64.max(fetch_bytes(source) + keep_bytes(target))
}

fn scale_bytes(size: usize) -> u64
    ensures value { result ≡ bytes.scale_bytes size }
    ensures few { result ≤ 16 }
{
    if size == 1 {
        4
    } else if size == 2 {
        8
    } else if size == 4 {
        8
    } else {
        16
    }
}

fn reach_bytes(location: Location) -> u64
    ensures value { result ≡ bytes.reach_bytes location }
    ensures few { result ≤ 28 }
{
    match location {
        Location::Statics(_) => 8,
        Location::Frame(_) => 8,
        Location::At(operand) => fetch_bytes(operand),
        Location::Indexed { index, size, .. } => fetch_bytes(index) + scale_bytes(size),
    }
}

fn reference_bytes(target: Target, location: Location) -> u64
    ensures { result ≡ bytes.reference_bytes target location }
{
    match location {
        Location::Statics(_) => 8 + keep_bytes(target),
        Location::Frame(_) => 12 + keep_bytes(target),
        Location::At(operand) => move_bytes(target, operand),
        Location::Indexed { index, size, .. } => {
            fetch_bytes(index) + (scale_bytes(size) + (4 + keep_bytes(target)))
        }
    }
}

/// The most bytes of an instruction's code.
fn code_bytes(instruction: Instruction) -> u64
    ensures { result ≡ bytes.code_bytes instruction }
{
    match instruction {
        Instruction::Nothing => 0,
        Instruction::Move { target, source } => move_bytes(target, source),
        Instruction::Compute {
            target,
            left,
            right,
            ..
        } => fetch_bytes(left) + (fetch_bytes(right) + (8 + keep_bytes(target))),
        Instruction::Convert { target, source, .. } => {
            fetch_bytes(source) + (8 + keep_bytes(target))
        }
        Instruction::Load { target, from, .. } => reach_bytes(from) + (4 + keep_bytes(target)),
        Instruction::Store { source, to, .. } => fetch_bytes(source) + (reach_bytes(to) + 4),
        Instruction::Address { target, of } => reference_bytes(target, of),
        Instruction::Element {
            target,
            array,
            index,
            size,
        } => fetch_bytes(array) + (fetch_bytes(index) + (scale_bytes(size) + keep_bytes(target))),
        Instruction::Jump(_) => 4,
        Instruction::Branch { left, right, .. } => fetch_bytes(left) + (fetch_bytes(right) + 8),
        Instruction::Call(_) => 8,
        Instruction::PutByte => 52,
        Instruction::GetByte => 48,
        Instruction::Exit => 8,
        Instruction::Return => 172,
    }
}

/// The most bytes of code; `None` where the sum is too large a number.
pub fn size_of(code: &[Instruction]) -> Option<u64>
    ensures { IfSome result (λ n. n ≡ sum_by bytes_of_code code.now) }
{
    let mut total: u64 = 0;
    for instruction in code {
        let Some(sum) = total.checked_add(code_bytes(*instruction)) else {
            return None;
        };
        total = sum;
    }
    Some(total)
}

/// Whether code is known to have no more bytes than other code.
pub fn is_no_longer(new: &[Instruction], old: &[Instruction]) -> bool
    ensures { OnTrue result (sum_by bytes_of_code new.now ≤ sum_by bytes_of_code old.now) }
{
    let Some(first) = size_of(new) else {
        return false;
    };
    let Some(second) = size_of(old) else {
        return false;
    };
    first <= second
}
