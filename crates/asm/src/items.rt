//! Items that can be assembled, and how they are made.

ghost use Rattle.std.specs.Prelude.{◌≡◌, ◌↔◌, ◌<◌, ◌+◌, ℕ, [], ◌∷◌, ◌++◌, length, IsTrue, OnOk, OnErr, IfOk, MatchOption};
ghost use Rattle.asm.specs.Layout.{IsSound, IsLow};
ghost use Rattle.asm.specs.inside.Choice.{IsTable};

use crate::check::{ends_low, fill_table};
use crate::item::{Item, Label};
use std::alloc::{AllocError, Global};
use std::marker::Model;

/// Items of which each label is marked exactly once, and that name no other label.
///
/// Contracts see the list of the items.
#[derive(Drop)]
pub struct Items {
    list: Vec<Item>,
    homes: Vec<usize>,
}

impl Model for Items {
    ghost use Rattle.std.specs.Prelude.{List};
    ghost use Rattle.asm.specs.declared.item.Item.{Item};
    ghost use Rattle.asm.specs.inside.Choice.{IsTable};

    ghost Value = { List Item };

    ghost view = { λ s. s.list.items };

    ghost invariant = { λ s. IsTable s.homes.items s.list.items };
}

impl Items {
    /// The items, where the labels 0 to `labels - 1` are each marked exactly once, no other label
    /// is named, and each offset in the data is below 0x10000000; none where they are not so. Fails
    /// only where there is no memory for the table of the labels.
    pub fn new(alloc: Global, list: Vec<Item>, labels: usize) -> Result<Option<Self>, AllocError>
        ensures { IfOk result (λ made. MatchOption made (IsSound labels list.items → ⊥)
            (λ items. (items ≡ list.items) × IsSound labels list.items)) }
    {
        let homes = vec![in alloc; 0; labels]?;
        Ok(Items::checked(list, homes))
    }

    fn checked(list: Vec<Item>, mut homes: Vec<usize>) -> Option<Self>
        ensures { MatchOption result (IsSound (length homes.items) list.items → ⊥)
            (λ items. (items ≡ list.items) × IsSound (length homes.items) list.items) }
    {
        if fill_table(&list, &mut homes) {
            Some(Items { list, homes })
        } else {
            None
        }
    }

    /// The items, in order.
    pub fn as_slice(&self) -> &[Item]
        ensures items { result.now ≡ self.now }
        ensures sound { (labels : ℕ) × IsSound labels self.now }
    {
        &self.list
    }

    /// For each label the number of the item that marks it.
    pub(crate) fn homes(&self) -> &[usize]
        ensures { IsTable result.now self.now }
    {
        &self.homes
    }

    /// Whether the items, from the address `base` on, end below 0x70000000 with all branches long.
    pub fn is_low(&self, base: u32) -> bool
        ensures { IsTrue result ↔ IsLow base self.now }
    {
        ends_low(self.as_slice(), base)
    }
}

/// Items under construction, and the labels that were allocated for them.
///
/// A call that fails ran out of memory, and leaves the builder as it was.
#[derive(Drop)]
pub struct ItemsBuilder {
    list: Vec<Item>,
    homes: Vec<usize>,
}

impl Model for ItemsBuilder {
    ghost use Rattle.std.specs.Prelude.{length};
    ghost use Rattle.asm.specs.Draft.{Draft};

    ghost Value = { Draft };

    ghost view = { λ b. record { items = b.list.items; labels = length b.homes.items } };
}

impl ItemsBuilder {
    /// No items and no labels.
    pub fn new(alloc: Global) -> Self
        ensures items { result.items ≡ [] }
        ensures labels { result.labels ≡ 0 }
    {
        ItemsBuilder {
            list: Vec::new(alloc),
            homes: Vec::new(alloc),
        }
    }

    /// The next label: labels are numbered from 0 in the order of their allocation.
    pub fn label(&mut self) -> Result<Label, AllocError>
        ensures ok { IfOk result (λ label. (label ≡ self.old.labels)
            × (self.new ≡ record self.old { labels = self.old.labels + 1 })) }
        ensures err { OnErr result (self.new ≡ self.old) }
    {
        let number = self.homes.len();
        self.homes.push(0)?;
        Ok(Label::new(number))
    }

    /// Appends the item.
    pub fn push(&mut self, item: Item) -> Result<(), AllocError>
        ensures ok { OnOk result (self.new ≡ record self.old { items = self.old.items ++ item ∷ [] }) }
        ensures err { OnErr result (self.new ≡ self.old) }
    {
        self.list.extend_from_slice(&[item])
    }

    /// Marks the label at the end of the present items.
    pub fn mark(&mut self, label: Label) -> Result<(), AllocError>
        ensures ok { OnOk result (self.new ≡ record self.old { items = self.old.items ++ Item.Mark label ∷ [] }) }
        ensures err { OnErr result (self.new ≡ self.old) }
    {
        self.push(Item::Mark(label))
    }

    /// The items, where each allocated label is marked exactly once, no other label is
    /// named, and each offset in the data is below 0x10000000; none where they are not so.
    pub fn finish(self) -> Option<Items>
        ensures { MatchOption result (IsSound self.labels self.items → ⊥)
            (λ items. (items ≡ self.items) × IsSound self.labels self.items) }
    {
        let ItemsBuilder { list, homes } = self;
        Items::checked(list, homes)
    }
}
