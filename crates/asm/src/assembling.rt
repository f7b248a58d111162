//! Machine code of items.

ghost use Rattle.std.specs.Prelude.{◌≡◌, ◌%◌, length, IfOk, IfErr};
ghost use Rattle.srcset.specs.Fault.{IsMemoryFault};
ghost use Rattle.asm.specs.Layout.{IsLow, IsSized, SomeMisses, AllReach};
ghost use Rattle.asm.specs.inside.Choice.{IsTable};
ghost use Rattle.asm.specs.Placed.{Assembles, IsFewest};
ghost use Rattle.asm.specs.Refusals.{IsRefused};
ghost use Rattle.asm.specs.inside.Refusing.{IfFar};

use crate::emit::resolve;
use crate::item::Item;
use crate::items::Items;
use crate::refusal::{Refusal, told};
use srcset::Fault;
use std::alloc::Global;

fn assemble_parts(
    alloc: Global,
    items: &[Item],
    homes: &[usize],
    base: u32,
) -> Result<Vec<u8>, Refusal>
    requires table { IsTable homes.now items.now }
    requires aligned { base % 4 ≡ 0 }
    requires low { IsLow base items.now }
    ensures ok { IfOk result (λ bytes. IsFewest items.now base bytes.items) }
    ensures err { IfErr result (IfFar (SomeMisses base items.now)) }
{
    resolve(alloc, items, homes, base)
}

/// The machine code of the items at the address `base`, each word with its lowest byte first, and
/// as many branches short as can be (RISC-V unprivileged ISA manual, "RV32I Base Integer Instruction
/// Set": a branch reaches -4096 to 4094 bytes, a jump -1048576 to 1048574).
///
/// Fails with 716 only where a jump does not reach though all branches are long, and with 801
/// where there is no memory.
pub fn assemble(alloc: Global, items: &Items, base: u32) -> Result<Vec<u8>, Fault>
    requires aligned { base % 4 ≡ 0 }
    requires low { IsLow base items.now }
    ensures placed { IfOk result (λ bytes. Assembles items.now base bytes.items) }
    ensures fewest { IfOk result (λ bytes. IsFewest items.now base bytes.items) }
    ensures size { IfOk result (λ bytes. IsSized base items.now (length bytes.items)) }
    ensures refused { IfErr result (IsRefused base items.now) }
    ensures reaches { AllReach base items.now → IfErr result IsMemoryFault }
{
    told(
        alloc,
        assemble_parts(alloc, items.as_slice(), items.homes(), base),
    )
}
