//! The addresses of items.

ghost use Rattle.std.specs.Prelude.{IfOk};
ghost use Rattle.asm.specs.Layout.{IsLow};
ghost use Rattle.asm.specs.Addresses.{AreAddresses};

use crate::items::Items;
use crate::layout::{Layout, choose};
use std::alloc::{AllocError, Global};

/// The address of each item in the code that `assemble` makes of the items at the address `base`, and that of its end.
///
/// Fails only where there is no memory.
pub fn item_addresses(alloc: Global, items: &Items, base: u32) -> Result<Vec<u32>, AllocError>
    requires low { IsLow base items.now }
    ensures { IfOk result (λ addresses. AreAddresses items.now base addresses.items) }
{
    let Layout { long: _, places } = choose(alloc, items.as_slice(), items.homes(), base)?;
    Ok(places)
}
