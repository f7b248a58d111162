//! The addresses of the items, and the choice of long branches.

ghost use Rattle.std.specs.Prelude.{◌≡◌, ◌≤◌, ◌<◌, ◌+◌, ◌*◌, ◌-◌, ◌/◌, ◌%◌, ◌^◌, ℕ, true, false, Bool, length, not, replicate, slice_index, slice_index_or, sum_by, slice_set, vec_len, IfOk};
ghost use Rattle.std.specs.Bool.{OnTrue, OnFalse};
ghost use Rattle.asm.specs.Layout as spec;
ghost use Rattle.asm.specs.Layout.{place, all_short, Refers, Fits, Near, IsBelowAll, IsLow};
ghost use Rattle.asm.specs.inside.Choice.{longs, shorts, IsTable, IsMeasured, MeasuredTo, IsClose, AllClose, Widens, IsChosen, Counted};

use crate::item::Item;
use std::alloc::{AllocError, Global};

impl Item {
    /// The bytes of the item where branches are long.
    pub fn most_bytes(self) -> u32
        ensures { result ≡ spec.size true self }
    {
        match self {
            Item::Mark(_) => 0,
            Item::Plain(_) | Item::Jump { .. } | Item::NearCall { .. } => 4,
            Item::Branch { .. }
            | Item::Call { .. }
            | Item::Constant { .. }
            | Item::LabelAddress { .. }
            | Item::DataAddress { .. } => 8,
        }
    }

    /// A call as a near one, any other item as it is.
    pub fn nearer(self) -> Item
        ensures { result ≡ spec.nearer self }
    {
        match self {
            Item::Call { to } => Item::NearCall { to },
            Item::Mark(_)
            | Item::Plain(_)
            | Item::Branch { .. }
            | Item::Jump { .. }
            | Item::NearCall { .. }
            | Item::Constant { .. }
            | Item::LabelAddress { .. }
            | Item::DataAddress { .. } => self,
        }
    }
}

/// The bytes of an item where branches are short.
fn least(item: Item) -> u32
    ensures value { result ≡ spec.size false item }
    ensures small { result ≤ spec.size true item }
{
    match item {
        Item::Mark(_) => 0,
        Item::Plain(_) | Item::Jump { .. } | Item::NearCall { .. } | Item::Branch { .. } => 4,
        Item::Call { .. }
        | Item::Constant { .. }
        | Item::LabelAddress { .. }
        | Item::DataAddress { .. } => 8,
    }
}

/// The bytes of an item, which may be a long branch; from two tables, since the processor cannot predict the kinds of items.
pub fn size(long: bool, item: Item) -> u32
    ensures value { result ≡ spec.size long item }
    ensures small { result ≤ spec.size true item }
{
    if long { item.most_bytes() } else { least(item) }
}

/// Stores at each number the address of that item, and at last the end.
pub fn measure(items: &[Item], long: &[bool], base: u32, places: &mut [u32])
    requires room { length places.old ≡ length items.now + 1 }
    requires longs { length long.now ≡ length items.now }
    requires low { IsLow base items.now }
    ensures { IsMeasured places.new (longs long.now) base items.now }
{
    let mut at = base;
    for (i, item) in items.iter().enumerate() {
        places[i] = at;
        at += size(long[i], *item);
    }
    places[items.len()] = at;
}

/// Whether a branch at `from` reaches `to`.
fn is_near(from: u32, to: u32) -> bool
    ensures near { OnTrue result (Near from to) }
    ensures far { OnFalse result (Near from to → ⊥) }
{
    u64::from(from) <= u64::from(to) + 4096 && u64::from(to) <= u64::from(from) + 4094
}

/// How many items with at most 8 bytes each are certainly within a branch's reach.
const CLOSE: usize = 500;

/// Whether the item is no branch, or one whose label is so few items away that it is near whichever branches are long.
fn is_close(homes: &[usize], number: usize, item: Item) -> bool
    requires refers { Refers (length homes.now) item }
    ensures { OnTrue result (IsClose homes.now number item) }
{
    if let Item::Branch { to, .. } = item {
        let home = homes[to.number()];
        number.saturating_sub(home) <= CLOSE && home.saturating_sub(number) <= CLOSE
    } else {
        true
    }
}

/// Stores at each number from `low` up to `high` the address of that item where all branches are short, from that of `low` on; returns that
/// of `high`. It does nothing else, so that the loop has no other branch.
fn measure_block(
    items: &[Item],
    base: u32,
    low: usize,
    high: usize,
    start: u32,
    places: &mut [u32],
) -> u32
    requires part { (low ≤ high) × (high ≤ length items.now) }
    requires room { length places.old ≡ length items.now + 1 }
    requires low { IsLow base items.now }
    requires start { start ≡ place all_short base items.now low }
    requires before { MeasuredTo places.old base items.now low }
    ensures end { result ≡ place all_short base items.now high }
    ensures measured { MeasuredTo places.new base items.now high }
{
    let mut at = start;
    for i in low..high {
        places[i] = at;
        at += least(items[i]);
    }
    at
}

/// Whether the branches from `low` up to `high` are close to their labels.
fn are_close(items: &[Item], homes: &[usize], low: usize, high: usize) -> bool
    requires part { (low ≤ high) × (high ≤ length items.now) }
    requires table { IsTable homes.now items.now }
    requires before { AllClose homes.now items.now low }
    ensures { OnTrue result (AllClose homes.now items.now high) }
{
    for i in low..high {
        if !is_close(homes, i, items[i]) {
            return false;
        }
    }
    true
}

/// How many items two loops process one after the other, while the items are in the cache.
const BLOCK: usize = 512;

/// Stores the addresses as `measure` does where all branches are short; returns whether all are close to their labels, as in most code.
/// Where they are not, some addresses are missing.
fn measure_close(items: &[Item], homes: &[usize], base: u32, places: &mut [u32]) -> bool
    requires table { IsTable homes.now items.now }
    requires room { length places.old ≡ length items.now + 1 }
    requires low { IsLow base items.now }
    ensures measured { OnTrue result (IsMeasured places.new all_short base items.now) }
    ensures close { OnTrue result (AllClose homes.now items.now (length items.now)) }
{
    let mut at = base;
    let mut low = 0;
    while low < items.len() {
        let high = low.saturating_add(BLOCK).min(items.len());
        at = measure_block(items, base, low, high, at, places);
        if !are_close(items, homes, low, high) {
            return false;
        }
        low = high;
    }
    places[items.len()] = at;
    true
}

/// Makes long each short branch that is too far from its label; returns whether there was one.
fn widen(items: &[Item], homes: &[usize], base: u32, places: &[u32], long: &mut [bool]) -> bool
    requires table { IsTable homes.now items.now }
    requires room { length places.now ≡ length items.now + 1 }
    requires longs { length long.old ≡ length items.now }
    requires low { IsLow base items.now }
    requires measured { IsMeasured places.now (longs long.old) base items.now }
    ensures widens { Widens base items.now (longs long.old) (longs long.new) }
    ensures fewer { OnTrue result (shorts long.new < shorts long.old) }
    ensures same { OnFalse result (long.new ≡ long.old) }
    ensures settled { OnFalse result (Fits (longs long.old) base items.now) }
{
    let mut changed = false;
    for i in 0..items.len() {
        if let Item::Branch { to, .. } = items[i] {
            let home = homes[to.number()];
            if !long[i] && !is_near(places[i], places[home]) {
                long[i] = true;
                changed = true;
            }
        }
    }
    changed
}

/// Stores at each number from `low` up to `high` the address of that item, counted from `low`.
fn count(items: &[Item], long: &[bool], base: u32, low: usize, high: usize, places: &mut [u32])
    requires part { (low ≤ high) × (high ≤ length items.now) }
    requires room { length places.old ≡ length items.now + 1 }
    requires longs { length long.now ≡ length items.now }
    requires low { IsLow base items.now }
    ensures { Counted places.new (longs long.now) base items.now low high }
{
    let mut at = 0;
    for i in low..high {
        places[i] = at;
        at += size(long[i], items[i]);
    }
}

/// As `widen`, for the branches between `low` and `high` whose labels lie there too.
fn widen_part(
    items: &[Item],
    homes: &[usize],
    base: u32,
    low: usize,
    high: usize,
    places: &mut [u32],
    long: &mut [bool],
) -> bool
    requires part { (low ≤ high) × (high ≤ length items.now) }
    requires table { IsTable homes.now items.now }
    requires room { length places.old ≡ length items.now + 1 }
    requires longs { length long.old ≡ length items.now }
    requires low { IsLow base items.now }
    ensures { Widens base items.now (longs long.old) (longs long.new) }
{
    count(items, long, base, low, high, places);
    let mut changed = false;
    for i in low..high {
        if let Item::Branch { to, .. } = items[i] {
            let home = homes[to.number()];
            if !long[i] && low <= home && home < high && !is_near(places[i], places[home]) {
                long[i] = true;
                changed = true;
            }
        }
    }
    changed
}

/// The size of a part in bytes: the reach of a branch.
const PART: u32 = 4096;

/// The number of the first item that is `bytes` or more after the item `low`, or the end.
fn item_after(items: &[Item], long: &[bool], low: usize, bytes: u32) -> usize
    requires longs { length long.now ≡ length items.now }
    requires inside { low ≤ length items.now }
    ensures { (low ≤ result) × (result ≤ length items.now) }
{
    let mut at: u32 = 0;
    for i in low..items.len() {
        if at >= bytes {
            return i;
        }
        at = at.saturating_add(size(long[i], items[i]));
    }
    items.len()
}

/// The number of the last item that is `bytes` or more before the item `high`, or the begin.
fn item_before(items: &[Item], long: &[bool], high: usize, bytes: u32) -> usize
    requires longs { length long.now ≡ length items.now }
    requires inside { high ≤ length items.now }
    ensures { result ≤ high }
{
    let mut at: u32 = 0;
    for back in 0..high {
        let i = high - 1 - back;
        at = at.saturating_add(size(long[i], items[i]));
        if at >= bytes {
            return i;
        }
    }
    0
}

/// Walks over the parts, three at a time, and back where a branch became long, so that a chain of
/// branches that lengthen one another costs little.
fn widen_parts(items: &[Item], homes: &[usize], base: u32, places: &mut [u32], long: &mut [bool])
    requires table { IsTable homes.now items.now }
    requires room { length places.old ≡ length items.now + 1 }
    requires longs { length long.old ≡ length items.now }
    requires low { IsLow base items.now }
    ensures { Widens base items.now (longs long.old) (longs long.new) }
{
    let mut low = 0;
    for _turn in 0..items.len().saturating_mul(8) {
        if low >= items.len() {
            return;
        }
        let middle = item_after(items, long, low, PART);
        let high = item_after(items, long, middle, 2 * PART);
        low = if widen_part(items, homes, base, low, high, places, long) {
            item_before(items, long, low, PART)
        } else {
            middle
        };
    }
}

/// The branches that are long, and the addresses of the items and of the end.
#[derive(Drop)]
pub struct Layout {
    pub long: Vec<bool>,
    pub places: Vec<u32>,
}

/// The number of rounds over all items before the rounds over parts.
const ROUNDS: usize = 4;

/// Some rounds over all items, which are enough where few branches are long; returns whether none is too far.
fn settle(items: &[Item], homes: &[usize], base: u32, places: &mut [u32], long: &mut [bool]) -> bool
    requires table { IsTable homes.now items.now }
    requires room { length places.old ≡ length items.now + 1 }
    requires longs { length long.old ≡ length items.now }
    requires measured { IsMeasured places.old (longs long.old) base items.now }
    requires least { IsBelowAll (longs long.old) base items.now }
    requires low { IsLow base items.now }
    ensures least { IsBelowAll (longs long.new) base items.now }
    ensures settled { OnTrue result (IsChosen base items.now long.new places.new) }
{
    for _turn in 0..ROUNDS {
        if !widen(items, homes, base, places, long) {
            return true;
        }
        measure(items, long, base, places);
    }
    false
}

/// Makes long each branch that needs it, and measures.
fn relax(items: &[Item], homes: &[usize], base: u32, places: &mut [u32], long: &mut [bool])
    requires table { IsTable homes.now items.now }
    requires room { length places.old ≡ length items.now + 1 }
    requires longs { length long.old ≡ length items.now }
    requires none { long.old ≡ replicate (length items.now) false }
    requires low { IsLow base items.now }
    ensures { IsChosen base items.now long.new places.new }
{
    if measure_close(items, homes, base, places) {
        return;
    }
    measure(items, long, base, places);
    if settle(items, homes, base, places, long) {
        return;
    }
    widen_parts(items, homes, base, places, long);
    measure(items, long, base, places);
    while widen(items, homes, base, places, long) {
        measure(items, long, base, places);
    }
}

/// The fewest long branches with which all short ones reach.
pub fn choose(
    alloc: Global,
    items: &[Item],
    homes: &[usize],
    base: u32,
) -> Result<Layout, AllocError>
    requires table { IsTable homes.now items.now }
    requires low { IsLow base items.now }
    ensures { IfOk result (λ y. IsChosen base items.now y.long.items y.places.items) }
{
    let mut long = vec![in alloc; false; items.len()]?;
    let mut places = vec![in alloc; 0u32; items.len() + 1]?;
    relax(items, homes, base, &mut places, &mut long);
    Ok(Layout { long, places })
}
