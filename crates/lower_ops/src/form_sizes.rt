//! How many instructions the code of a form has.

ghost use Rattle.std.specs.Prelude.{◌≡◌};
ghost use Rattle.csem.specs.Expressions as meaning;
ghost use Rattle.typed_ast.specs.View.{callee_of, moment_of};
ghost use Rattle.lower_ops.specs.layer.Parts as parts;
ghost use Rattle.lower_ops.specs.layer.FormSizes as size;

use crate::bools::either;
use crate::modes::Shape;
use crate::spots::cuts_for;
use crate::words::is_wide;
use ctypes::{BinOp, IntType};
use tac_code::{Operand, Place as Spot};
use tree::StepOp;
use typed_ast::{Callee, Moment};

/// The sum, saturating at 2^64 - 1.
pub fn plus(a: usize, b: usize) -> usize
    ensures { result ≡ parts.plus a b }
{
    a.saturating_add(b)
}

/// Of putting a value where it is wanted, once it is in an operand.
pub fn ends_size(shape: Shape) -> usize
    ensures { result ≡ size.ends_size shape }
{
    match shape {
        Shape::Nowhere => 0,
        Shape::Local => 1,
        Shape::Object => 1,
        Shape::Jump => 1,
    }
}

/// Of the code after an instruction that has put its value: the jump, where the value is to decide one.
pub fn follows_size(shape: Shape) -> usize
    ensures { result ≡ size.follows_size shape }
{
    match shape {
        Shape::Nowhere => 0,
        Shape::Local => 0,
        Shape::Object => 0,
        Shape::Jump => 1,
    }
}

/// Of an operation.
pub fn computes_size(op: BinOp) -> usize
    ensures { result ≡ size.computes_size op }
{
    match op {
        BinOp::LessEqual => plus(1, 1),
        BinOp::GreaterEqual => plus(1, 1),
        BinOp::Mul => 1,
        BinOp::Div => 1,
        BinOp::Rem => 1,
        BinOp::Add => 1,
        BinOp::Sub => 1,
        BinOp::Shl => 1,
        BinOp::Shr => 1,
        BinOp::Less => 1,
        BinOp::Greater => 1,
        BinOp::Equal => 1,
        BinOp::NotEqual => 1,
        BinOp::BitAnd => 1,
        BinOp::BitXor => 1,
        BinOp::BitOr => 1,
    }
}

/// Of an operation and the code that uses its value.
pub fn then_size(op: BinOp, shape: Shape) -> usize
    ensures { result ≡ size.then_size op shape }
{
    plus(computes_size(op), follows_size(shape))
}

/// Of an operation whose value decides a jump.
pub fn compares_size(op: BinOp) -> usize
    ensures { result ≡ size.compares_size op }
{
    match op {
        BinOp::Less => 1,
        BinOp::Greater => 1,
        BinOp::LessEqual => 1,
        BinOp::GreaterEqual => 1,
        BinOp::Equal => 1,
        BinOp::NotEqual => 1,
        BinOp::Mul => then_size(op, Shape::Jump),
        BinOp::Div => then_size(op, Shape::Jump),
        BinOp::Rem => then_size(op, Shape::Jump),
        BinOp::Add => then_size(op, Shape::Jump),
        BinOp::Sub => then_size(op, Shape::Jump),
        BinOp::Shl => then_size(op, Shape::Jump),
        BinOp::Shr => then_size(op, Shape::Jump),
        BinOp::BitAnd => then_size(op, Shape::Jump),
        BinOp::BitXor => then_size(op, Shape::Jump),
        BinOp::BitOr => then_size(op, Shape::Jump),
    }
}

/// Of an operation whose value is wanted so.
pub fn operates_size(op: BinOp, shape: Shape) -> usize
    ensures { result ≡ size.operates_size op shape }
{
    match shape {
        Shape::Nowhere => then_size(op, Shape::Nowhere),
        Shape::Local => then_size(op, Shape::Local),
        Shape::Object => then_size(op, Shape::Object),
        Shape::Jump => compares_size(op),
    }
}

/// Of an operation and the conversion of its value to a type, which a wide one does not need.
pub fn changes_size(wide: bool, op: BinOp) -> usize
    ensures { result ≡ size.changes_size wide op }
{
    if wide {
        computes_size(op)
    } else {
        plus(computes_size(op), 1)
    }
}

/// Of one more or less.
pub fn step_operation(op: StepOp) -> BinOp
    ensures { result ≡ meaning.step_operation op }
{
    match op {
        StepOp::Increment => BinOp::Add,
        StepOp::Decrement => BinOp::Sub,
    }
}

/// Of `x++` of a local object whose old value is kept aside and then put where it is wanted.
pub fn steps_aside_size(wide: bool, op: BinOp, shape: Shape) -> usize
    ensures { result ≡ size.steps_aside_size wide op shape }
{
    plus(1, plus(changes_size(wide, op), ends_size(shape)))
}

/// Of `x++` of a local object (6.5.2.4).
pub fn steps_after_size(wide: bool, op: BinOp, shape: Shape) -> usize
    ensures { result ≡ size.steps_after_size wide op shape }
{
    match shape {
        Shape::Nowhere => changes_size(wide, op),
        Shape::Local => plus(1, changes_size(wide, op)),
        Shape::Object => steps_aside_size(wide, op, Shape::Object),
        Shape::Jump => steps_aside_size(wide, op, Shape::Jump),
    }
}

/// Of `++` and `--` of a local object.
pub fn steps_by_size(moment: Moment, wide: bool, op: BinOp, shape: Shape) -> usize
    ensures { result ≡ size.steps_by_size (moment_of moment) wide op shape }
{
    match moment {
        Moment::Before => plus(changes_size(wide, op), ends_size(shape)),
        Moment::After => steps_after_size(wide, op, shape),
    }
}

/// Of having an operand in a temporary: none for one that is in a temporary and is kept as it is.
pub fn loads_size(kept: bool, operand: Operand) -> usize
    ensures { result ≡ size.loads_size kept operand }
{
    if !kept {
        return 1;
    }
    match operand {
        Operand::Temporary(_) => 0,
        Operand::Kept(_) => 1,
        Operand::Object(_) => 1,
        Operand::Parameter(_) => 1,
        Operand::Constant(_) => 1,
    }
}

/// Of a call after its arguments.
pub fn calls_size(callee: Callee, shape: Shape) -> usize
    ensures { result ≡ size.calls_size (callee_of callee) shape }
{
    match callee {
        Callee::Function(_) => plus(1, ends_size(shape)),
        Callee::GetByte => plus(1, ends_size(shape)),
        Callee::PutByte => plus(1, ends_size(shape)),
        Callee::Exit => 1,
        Callee::Missing(_) => ends_size(shape),
    }
}

// ---- parts of memory

/// Of the reference to an element of an array.
pub fn parts_size(spot: Spot) -> usize
    ensures { result ≡ size.parts_size spot }
{
    match spot {
        Spot::Literal(_) => plus(1, 1),
        Spot::Static(_) => plus(1, 1),
        Spot::Array(_) => plus(1, 1),
        Spot::Element {
            array: _,
            number: _,
            element: _,
        } => plus(1, 1),
        Spot::At(_) => 1,
    }
}

/// Of reading an element.
pub fn gets_size(shape: Shape) -> usize
    ensures { result ≡ size.gets_size shape }
{
    plus(1, follows_size(shape))
}

/// Of storing an element whose value may be kept as it is, or is converted first.
pub fn puts_size(kept: bool, shape: Shape) -> usize
    ensures { result ≡ size.puts_size kept shape }
{
    if kept {
        plus(1, ends_size(shape))
    } else {
        plus(1, plus(1, ends_size(shape)))
    }
}

/// Of a compound assignment to an element, after its operands.
pub fn alters_size(op: BinOp, ty: IntType, shape: Shape) -> usize
    ensures { result ≡ size.alters_size op ty shape }
{
    let kept = either(cuts_for(ty, shape), is_wide(ty));
    plus(computes_size(op), puts_size(kept, shape))
}

fn alters_aside_size(op: BinOp, ty: IntType, shape: Shape) -> usize
    ensures { result ≡ size.alters_aside_size op ty shape }
{
    let kept = either(cuts_for(ty, Shape::Nowhere), is_wide(ty));
    let stored = puts_size(kept, Shape::Nowhere);
    plus(computes_size(op), plus(stored, ends_size(shape)))
}

fn alters_after_size(op: BinOp, ty: IntType, shape: Shape) -> usize
    ensures { result ≡ size.alters_after_size op ty shape }
{
    match shape {
        Shape::Nowhere => alters_size(op, ty, Shape::Nowhere),
        Shape::Local => alters_aside_size(op, ty, Shape::Local),
        Shape::Object => alters_aside_size(op, ty, Shape::Object),
        Shape::Jump => alters_aside_size(op, ty, Shape::Jump),
    }
}

/// Of `++` and `--` of an element.
pub fn alters_by_size(moment: Moment, op: BinOp, ty: IntType, shape: Shape) -> usize
    ensures { result ≡ size.alters_by_size (moment_of moment) op ty shape }
{
    match moment {
        Moment::Before => alters_size(op, ty, shape),
        Moment::After => alters_after_size(op, ty, shape),
    }
}

/// Of passing an array.
pub fn hands_over_size(spot: Spot) -> usize
    ensures { result ≡ size.hands_over_size spot }
{
    match spot {
        Spot::Literal(_) => 1,
        Spot::Static(_) => 1,
        Spot::Array(_) => 1,
        Spot::Element {
            array: _,
            number: _,
            element: _,
        } => 1,
        Spot::At(operand) => loads_size(true, operand),
    }
}
