//! Where a value is while others are evaluated, and which temporaries and slots are free next to it.

ghost use Rattle.std.specs.Prelude.{◌≡◌, ◌<◌, ℕ, Bool};
ghost use Rattle.lower_correct.specs.Values as values;
ghost use Rattle.lower_ops.specs.layer.Parts.{is_written};

use crate::words::word_of;
use tac_code::Operand;

/// A slot where the value has to survive a call, else a temporary.
pub fn pending(has_calls: bool, temporary: usize, slot: usize) -> Operand
    ensures { result ≡ values.pending has_calls temporary slot }
{
    if has_calls {
        Operand::Kept(slot)
    } else {
        Operand::Temporary(temporary)
    }
}

/// The object itself, or, where it may be written meanwhile, the operand that keeps its value.
pub fn unless_written(written: bool, object: usize, operand: Operand) -> Operand
    ensures { result ≡ values.unless_written written object operand }
{
    if written {
        operand
    } else {
        Operand::Object(object)
    }
}

/// The same, of a value that is that of an object or of none.
pub fn at_rest(object: Option<usize>, written: bool, operand: Operand) -> Operand
    ensures { (w : ℕ → Bool) → written ≡ is_written object w → result ≡ values.at_rest object w operand }
{
    match object {
        None => operand,
        Some(number) => unless_written(written, number, operand),
    }
}

/// The constant, if the value is one, or else the operand.
pub fn constant_or(constant: Option<i64>, operand: Operand) -> Operand
    ensures { result ≡ values.constant_or constant operand }
{
    match constant {
        None => operand,
        Some(value) => Operand::Constant(word_of(value)),
    }
}

/// The first free temporary after that of an operand.
pub fn free_temporary(operand: Operand, temporary: usize) -> usize
    requires { temporary < 4611686018427387904 }
    ensures { result ≡ values.free_temporary operand temporary }
{
    match operand {
        Operand::Temporary(_) => temporary + 1,
        Operand::Kept(_) => temporary,
        Operand::Object(_) => temporary,
        Operand::Parameter(_) => temporary,
        Operand::Constant(_) => temporary,
    }
}

/// The first free slot after that of an operand.
pub fn free_slot(operand: Operand, slot: usize) -> usize
    requires { slot < 4611686018427387904 }
    ensures { result ≡ values.free_kept operand slot }
{
    match operand {
        Operand::Kept(_) => slot + 1,
        Operand::Temporary(_) => slot,
        Operand::Object(_) => slot,
        Operand::Parameter(_) => slot,
        Operand::Constant(_) => slot,
    }
}
