//! The mode of a value: how its value is used.

ghost use Rattle.std.specs.Prelude.{◌≡◌};
ghost use Rattle.lower_correct.specs.Values as lowered;
ghost use Rattle.lower_ops.specs.layer.Parts.{meant, shape_of};

use tac_code::{Operand, Target};

/// Nothing; it goes to a target; where its truth is as given, the code jumps, and continues otherwise.
#[derive(Clone, Copy, Debug)]
pub enum Mode {
    Nowhere,
    To(Target),
    If(bool, usize),
}

/// The part of a mode that decides the number of instructions: nothing; it goes to a temporary or a slot; to an object; a jump.
#[derive(Clone, Copy, Debug)]
pub enum Shape {
    Nowhere,
    Local,
    Object,
    Jump,
}

/// The mode that puts the value in this operand.
pub fn mode_of(operand: Operand) -> Mode
    ensures { meant result ≡ lowered.mode_of operand }
{
    match operand {
        Operand::Temporary(number) => Mode::To(Target::Temporary(number)),
        Operand::Kept(number) => Mode::To(Target::Kept(number)),
        Operand::Object(_) => Mode::Nowhere,
        Operand::Parameter(_) => Mode::Nowhere,
        Operand::Constant(_) => Mode::Nowhere,
    }
}

/// The shape of `mode_of`.
pub fn shape_for(operand: Operand) -> Shape
    ensures { result ≡ shape_of (lowered.mode_of operand) }
{
    match operand {
        Operand::Temporary(_) => Shape::Local,
        Operand::Kept(_) => Shape::Local,
        Operand::Object(_) => Shape::Nowhere,
        Operand::Parameter(_) => Shape::Nowhere,
        Operand::Constant(_) => Shape::Nowhere,
    }
}

/// Where the value is put first.
pub fn target_of(mode: Mode, temporary: usize) -> Target
    ensures { result ≡ lowered.target_of (meant mode) temporary }
{
    match mode {
        Mode::Nowhere => Target::Temporary(temporary),
        Mode::To(target) => target,
        Mode::If(_, _) => Target::Temporary(temporary),
    }
}

/// The shape of a mode: which kind of place it names, and not which one.
pub fn shape_in(mode: Mode) -> Shape
    ensures { result ≡ shape_of (meant mode) }
{
    match mode {
        Mode::Nowhere => Shape::Nowhere,
        Mode::To(Target::Temporary(_)) => Shape::Local,
        Mode::To(Target::Kept(_)) => Shape::Local,
        Mode::To(Target::Object(_)) => Shape::Object,
        Mode::If(_, _) => Shape::Jump,
    }
}
