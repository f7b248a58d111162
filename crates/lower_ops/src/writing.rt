//! Code that grows.

ghost use Rattle.std.specs.Prelude.{◌≡◌, ◌<◌, OnOk, length};
ghost use Rattle.lower_correct.specs.Code.{One};
ghost use Rattle.lower_ops.specs.layer.Parts as parts;
ghost use Rattle.lower_ops.specs.layer.Parts.{Wrote};

use crate::form_sizes::plus;
use std::alloc::AllocError;
use tac_code::Instruction;

/// The code of a function, of fewer than 2^62 instructions.
#[derive(Drop)]
pub struct Code {
    pub list: Vec<Instruction>,
    ghost short: { length list.items < 4611686018427387904 },
}

/// One more instruction. A list in memory has fewer than 2^63 bytes, and so room for it in the count.
pub fn put(code: &mut Code, instruction: Instruction) -> Result<(), AllocError>
    ensures { OnOk result (Wrote (λ w p q. One w instruction p q) 1 code.old.list.items code.new.list.items) }
{
    let length = code.list.as_slice().len();
    prove!(length < 0x3fff_ffff_ffff_fffe);
    code.list.push(instruction)?;
    Ok(())
}

/// The position `size` instructions ahead.
pub fn ahead(code: &Code, size: usize) -> usize
    ensures { result ≡ parts.plus (length code.now.list.items) size }
{
    plus(code.list.len(), size)
}
