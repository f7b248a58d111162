//! Where operands and results are: in registers, in the frame.

ghost use Rattle.std.specs.Prelude.{◌≡◌, ◌≤◌, ◌<◌};
ghost use Rattle.frames_code.specs.Code as flat;
ghost use Rattle.frames_code.specs.Code.{function_of};
ghost use Rattle.frames_code.specs.Sound.{OperandFits, TargetFits, most_bytes};
ghost use Rattle.select.specs.Selected as selected;
ghost use Rattle.select.specs.inside.Ranges.{SourceIsNear, HomeIsNear};

use frames_code::{Function, Operand, Target};
use rv32::Five;

/// Where an operand's value is.
#[derive(Clone, Copy, Debug, PartialEq, Eq)]
pub enum Source {
    Register(Five),
    /// Its offset in bytes above the stack pointer.
    Frame(u32),
    Constant(u32),
}

/// Where a result goes.
#[derive(Clone, Copy, Debug, PartialEq, Eq)]
pub enum Home {
    Register(Five),
    /// Its offset in bytes above the stack pointer.
    Frame(u32),
}

/// s0 to s11, which are x8, x9, and x18 to x27 (RISC-V ELF psABI, "Integer Register Convention").
pub fn kept(number: usize) -> Five
    requires { number < 12 }
    ensures { result ≡ selected.kept number }
{
    if number < 2 {
        Five::new(8 + number as u8)
    } else {
        Five::new(16 + number as u8)
    }
}

/// a0 to a7, which are x10 to x17.
fn argument(number: usize) -> Five
    requires { number < 8 }
    ensures { result ≡ selected.argument number }
{
    Five::new(10 + number as u8)
}

/// Where an operand's value is.
pub fn source_of(function: &Function, operand: Operand) -> Source
    requires small { flat.frame_bytes (function_of function.now) ≤ most_bytes }
    requires few { function.now.resident ≤ 12 }
    requires fits { OperandFits (function_of function.now) operand }
    ensures is { result ≡ selected.source_of (function_of function.now) operand }
    ensures near { SourceIsNear result }
{
    match operand {
        Operand::Temporary(number) => {
            if number < 8 {
                Source::Register(argument(number))
            } else {
                Source::Frame((4 * (number - 8)) as u32)
            }
        }
        Operand::Cell(number) => {
            if number < function.resident {
                Source::Register(kept(number))
            } else {
                Source::Frame(function.cell_home(number))
            }
        }
        Operand::Constant(value) => {
            if value == 0 {
                Source::Register(Five::new(0))
            } else {
                Source::Constant(value)
            }
        }
        Operand::Argument(number) => {
            Source::Frame(function.frame_bytes() + (4 * (number - 8)) as u32)
        }
    }
}

/// Where a result goes.
pub fn home_of(function: &Function, target: Target) -> Home
    requires small { flat.frame_bytes (function_of function.now) ≤ most_bytes }
    requires few { function.now.resident ≤ 12 }
    requires fits { TargetFits (function_of function.now) target }
    ensures is { result ≡ selected.home_of (function_of function.now) target }
    ensures near { HomeIsNear result }
{
    match target {
        Target::Temporary(number) => {
            if number < 8 {
                Home::Register(argument(number))
            } else {
                Home::Frame((4 * (number - 8)) as u32)
            }
        }
        Target::Cell(number) => {
            if number < function.resident {
                Home::Register(kept(number))
            } else {
                Home::Frame(function.cell_home(number))
            }
        }
    }
}
