//! Tests of items against their table of labels.

ghost use Rattle.std.specs.Prelude.{◌≡◌, ◌↔◌, ◌≤◌, ◌<◌, ◌+◌, ◌*◌, ℕ, length, slice_index, slice_set, IsTrue};
ghost use Rattle.std.specs.Bool.{OnTrue, OnFalse};
ghost use Rattle.asm.specs.Layout.{IsLow, IsSound, Refers};
ghost use Rattle.asm.specs.inside.Choice.{IsTable, IsNoted, IsUnfit, AllAre, AllInside, Noting};

use crate::item::Item;
use crate::layout::size;

/// Stores for each label the end, which is the number of no item.
fn clear(homes: &mut [usize], end: usize)
    ensures { AllAre homes.new end (length homes.new) }
{
    for l in 0..homes.len() {
        homes[l] = end;
    }
}

/// Stores the number of the item that marks the label, whose entry must be the end; returns whether it was.
fn mark_home(homes: &mut [usize], end: usize, number: usize, label: usize) -> bool
    ensures marked { OnTrue result ((label < length homes.old) × (slice_index homes.old label ≡ end)
        × (homes.new ≡ slice_set homes.old label number)) }
    ensures failed { OnFalse result (label < length homes.old → slice_index homes.old label ≡ end → ⊥) }
{
    if label < homes.len() && homes[label] == end {
        homes[label] = number;
        true
    } else {
        false
    }
}

/// Whether the item names only labels of the table.
fn names_known(homes: &[usize], item: Item) -> bool
    ensures { IsTrue result ↔ Refers (length homes.now) item }
{
    match item {
        Item::Plain(_) | Item::Constant { .. } => true,
        Item::Mark(to)
        | Item::Branch { to, .. }
        | Item::Jump { to }
        | Item::Call { to }
        | Item::NearCall { to }
        | Item::LabelAddress { of: to, .. } => to.number() < homes.len(),
        Item::DataAddress { offset, .. } => offset < 0x1000_0000,
    }
}

/// Whether the item names only labels of the table, and marks none that is marked already; stores its number for a label that it marks.
/// Most items are marks and instructions, which two tests recognise.
fn note(homes: &mut [usize], end: usize, number: usize, item: Item) -> bool
    ensures noted { OnTrue result (IsNoted homes.old homes.new end number item) }
    ensures unfit { OnFalse result (IsUnfit homes.old end item) }
{
    if let Item::Mark(label) = item {
        mark_home(homes, end, number, label.number())
    } else if let Item::Plain(_) = item {
        true
    } else {
        names_known(homes, item)
    }
}

/// Stores for each label that is marked the number of the item that marks it; returns whether no item violates the table's conditions.
fn note_items(items: &[Item], homes: &mut [usize]) -> bool
    requires clear { AllAre homes.old (length items.now) (length homes.old) }
    ensures noted { OnTrue result (Noting homes.new items.now (length items.now)) }
    ensures unsound { OnFalse result (IsSound (length homes.old) items.now → ⊥) }
{
    for (i, item) in items.iter().enumerate() {
        if !note(homes, items.len(), i, *item) {
            return false;
        }
    }
    true
}

/// Whether each label has an item.
fn is_full(homes: &[usize], end: usize) -> bool
    ensures { IsTrue result ↔ AllInside homes.now end (length homes.now) }
{
    for home in homes {
        if *home >= end {
            return false;
        }
    }
    true
}

/// Whether each label of the table is marked exactly once and no other is named; the table then has
/// for each label the item that marks it.
pub fn fill_table(items: &[Item], homes: &mut [usize]) -> bool
    ensures sound { IsTrue result ↔ IsSound (length homes.old) items.now }
    ensures table { OnTrue result (IsTable homes.new items.now) }
{
    clear(homes, items.len());
    if note_items(items, homes) {
        is_full(homes, items.len())
    } else {
        false
    }
}

/// Whether `count` items end below 0x70000000 whatever they are: an item has at most 8 bytes.
fn are_few(count: usize, base: u32) -> bool
    ensures { OnTrue result (base + 8 * count < 0x70000000) }
{
    base < 0x7000_0000 && count < ((0x7000_0000 - base) / 8) as usize
}

/// Whether the items end below 0x70000000 with all branches long.
pub fn ends_low(items: &[Item], base: u32) -> bool
    ensures { IsTrue result ↔ IsLow base items.now }
{
    if are_few(items.len(), base) {
        return true;
    }
    let mut at = base;
    if at >= 0x7000_0000 {
        return false;
    }
    for i in 0..items.len() {
        at += size(true, items[i]);
        if at >= 0x7000_0000 {
            return false;
        }
    }
    true
}
