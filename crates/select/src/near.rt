//! Calls that are near.

ghost use Rattle.std.specs.Prelude.{◌≡◌, ◌≤◌, ◌++◌, length, take, drop, map};
ghost use Rattle.asm.specs.Layout.{nearer};
ghost use Rattle.select.specs.Program as spec;

use asm::Item;

/// The reach of JAL forward, in bytes; backward it is two bytes more.
const REACH: u32 = 1_048_574;

/// Whether no two of the items are further from each other than JAL reaches, whichever branches are long.
fn are_near(items: &[Item]) -> bool
    ensures { result ≡ spec.are_near items.now }
{
    let mut bytes: u32 = 0;
    for item in items {
        bytes += item.most_bytes();
        if bytes > REACH {
            return false;
        }
    }
    true
}

/// Makes each call a near one.
fn make_near(items: &mut [Item])
    ensures { items.new ≡ map nearer items.old }
{
    for number in 0..items.len() {
        items[number] = items[number].nearer();
    }
}

/// Makes each call from item `from` on a near one, if all items are near.
pub fn shorten_calls(items: &mut Vec<Item>, from: usize)
    requires { from ≤ length items.old.items }
    ensures { items.new.items ≡ take from items.old.items ++ spec.shorten_calls (spec.are_near items.old.items) (drop from items.old.items) }
{
    if are_near(items) {
        let (_, behind) = items.split_at_mut(from);
        make_near(behind);
    }
}
