//! Whether an instruction names only what its function has.

ghost use Rattle.std.specs.Prelude.{◌≡◌, ◌↔◌, ◌≤◌, ◌<◌, ◌+◌, IsTrue};
ghost use Rattle.frames_code.specs.Code.{function_of, area_home};
ghost use Rattle.frames_code.specs.Sound as sound;
ghost use Rattle.frames_code.specs.Sound.{OperandFits, TargetFits, BaseFits, IndexFits, LocationFits, InstructionFits};

use frames_code::{Base, Function, Instruction, Location, Operand, Target};

/// The most bytes of a frame, and of arguments from the ninth on.
pub const MOST_BYTES: usize = 0x100_0000;

fn has_operand(function: &Function, operand: Operand) -> bool
    requires { function.now.outgoing ≤ 16777216 }
    ensures { IsTrue result ↔ OperandFits (function_of function.now) operand }
{
    match operand {
        Operand::Temporary(number) => number < 8 + function.outgoing,
        Operand::Cell(number) => number < function.cells,
        Operand::Constant(_) => true,
        Operand::Argument(number) => 8 <= number && number - 8 < MOST_BYTES / 4,
    }
}

fn has_target(function: &Function, target: Target) -> bool
    requires { function.now.outgoing ≤ 16777216 }
    ensures { IsTrue result ↔ TargetFits (function_of function.now) target }
{
    match target {
        Target::Temporary(number) => number < 8 + function.outgoing,
        Target::Cell(number) => number < function.cells,
    }
}

fn is_power_of_two(size: usize) -> bool
    ensures { result ≡ sound.is_power_of_two size }
{
    if size >= 0x1_0000_0000 {
        return false;
    }
    let word = size as u32;
    let power = word.trailing_zeros();
    power < 32 && 1u32 << power == word
}

/// Whether this byte of the arrays lies at most so many bytes above the frame's start.
fn is_within(function: &Function, offset: usize, most: u16) -> bool
    ensures { IsTrue result ↔ (area_home (function_of function.now) + offset ≤ most) }
{
    let most = usize::from(most);
    function.outgoing <= most
        && function.cells <= most
        && offset <= most
        && 4 * function.outgoing + 4 + 4 * function.cells + offset <= most
}

fn has_base(function: &Function, base: Base) -> bool
    ensures { IsTrue result ↔ BaseFits (function_of function.now) base }
{
    match base {
        Base::Statics(offset) => offset < 0x1000,
        Base::Frame(offset) => offset < function.area && is_within(function, offset, 0x7FF),
    }
}

fn has_index(function: &Function, index: Operand) -> bool
    requires { function.now.outgoing ≤ 16777216 }
    ensures { IsTrue result ↔ IndexFits (function_of function.now) index }
{
    match index {
        Operand::Temporary(number) => number < 8 + function.outgoing,
        Operand::Cell(number) => number < function.cells,
        Operand::Constant(_) => false,
        Operand::Argument(_) => false,
    }
}

fn has_location(function: &Function, location: Location) -> bool
    requires { function.now.outgoing ≤ 16777216 }
    ensures { IsTrue result ↔ LocationFits (function_of function.now) location }
{
    match location {
        Location::Statics(offset) => offset < 0x1000_0000,
        Location::Frame(offset) => offset < function.area,
        Location::At(operand) => has_operand(function, operand),
        Location::Indexed { base, index, size } => has_base(function, base)
            && has_index(function, index)
            && is_power_of_two(size)
            && is_within(function, 0, 0x800),
    }
}

/// Whether an instruction of this function, in a program of `count` functions, names only existing things.
pub fn has_all(count: usize, function: &Function, instruction: Instruction) -> bool
    requires { function.now.outgoing ≤ 16777216 }
    ensures { IsTrue result ↔ InstructionFits count (function_of function.now) instruction }
{
    match instruction {
        Instruction::Nothing => true,
        Instruction::Move { target, source } => has_target(function, target)
            && has_operand(function, source),
        Instruction::Compute {
            target,
            left,
            right,
            ..
        } => has_target(function, target)
            && has_operand(function, left)
            && has_operand(function, right),
        Instruction::Convert { target, source, .. } => has_target(function, target)
            && has_operand(function, source),
        Instruction::Load { target, from, .. } => has_target(function, target)
            && has_location(function, from),
        Instruction::Store { source, to, .. } => has_operand(function, source)
            && has_location(function, to),
        Instruction::Address { target, of } => has_target(function, target)
            && has_location(function, of),
        Instruction::Element {
            target,
            array,
            index,
            size,
        } => has_target(function, target)
            && has_operand(function, array)
            && has_operand(function, index)
            && size < 0x1_0000_0000,
        Instruction::Jump(to) => to < function.code.len(),
        Instruction::Branch {
            left,
            right,
            to,
            ..
        } => has_operand(function, left)
            && has_operand(function, right)
            && to < function.code.len(),
        Instruction::Call(number) => number < count,
        Instruction::PutByte => true,
        Instruction::GetByte => true,
        Instruction::Exit => true,
        Instruction::Return => true,
    }
}
