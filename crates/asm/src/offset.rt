//! Numbers of 32 bits in the fields of instructions.

ghost use Rattle.std.specs.Prelude.{◌≡◌, ◌≤◌, ◌<◌, ◌+◌, ◌*◌, ◌-◌, ◌/◌, ◌%◌, ◌^◌};
ghost use Rattle.asm.specs.inside.Code.{upper, lower, offset_from};
ghost use Rattle.asm.specs.Layout.{Near, Reach};
ghost use Rattle.asm.specs.Placed.{sum32};

use rv32::{BranchOffset, JumpOffset, Short, Upper};

/// For LUI or AUIPC and then a signed immediate of 12 bits, which make the value modulo 2^32.
pub fn split(value: u32) -> (Upper, Short)
    ensures upper { result.0 ≡ upper value }
    ensures lower { result.1 ≡ lower value }
    ensures whole { sum32 result.0 result.1 ≡ value }
{
    let upper = value.wrapping_add(0x800) / 0x1000 * 0x1000;
    (Upper::new(upper), Short::new(value.wrapping_sub(upper)))
}

/// From `from` to `to`, for a branch.
pub fn branch_offset(from: u32, to: u32) -> BranchOffset
    requires near { Near from to }
    requires even { (from % 2 ≡ 0) × (to % 2 ≡ 0) }
    ensures value { result ≡ offset_from from to }
    ensures arrives { sum32 from result ≡ to }
{
    BranchOffset::new(to.wrapping_sub(from))
}

/// From `from` to `to`, for a jump.
pub fn jump_offset(from: u32, to: u32) -> JumpOffset
    requires near { Reach from to }
    requires even { (from % 2 ≡ 0) × (to % 2 ≡ 0) }
    ensures value { result ≡ offset_from from to }
    ensures arrives { sum32 from result ≡ to }
{
    JumpOffset::new(to.wrapping_sub(from))
}
