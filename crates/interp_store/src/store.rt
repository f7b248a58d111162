//! The objects that live.

ghost use Rattle.std.specs.Prelude.{◌≡◌, ◌<◌, ◌≤◌, ◌++◌, ◌∷◌, [], IfNone, IfSome, OnOk, take, length};
ghost use Rattle.csem.specs.Store.{tree_at, value_at, length_of, put, set_value, set_zeros, whole};
ghost use Rattle.interp_store.specs.View.{tree_of, store_of, reference_of};

use crate::element_tree::Tree;
use crate::reference::Reference;
use std::alloc::{AllocError, Global};
use std::mem;

/// The objects that live, by number in the order of their creation (6.2.4).
#[derive(Drop)]
pub struct Store {
    pub objects: Vec<Tree>,
}

impl Store {
    /// A store without objects.
    pub fn new(alloc: Global) -> Store
        ensures { store_of result ≡ [] }
    {
        Store {
            objects: Vec::new(alloc),
        }
    }

    /// How many objects live.
    pub fn len(&self) -> usize
        ensures { result ≡ length (store_of self.now) }
    {
        self.objects.len()
    }

    /// The number of the object at a reference, if that lives.
    #[inline(always)]
    fn place(&self, r: &Reference) -> Option<usize>
        ensures is { IfSome result (λ n. n ≡ (reference_of r.now).object) }
        ensures lives { IfSome result (λ n. n < length self.now.objects.items) }
        ensures none { IfNone result (length self.now.objects.items ≤ (reference_of r.now).object) }
    {
        match r.object() {
            None => None,
            Some(n) => {
                if n < self.objects.len() {
                    Some(n)
                } else {
                    None
                }
            }
        }
    }

    /// The value of the element at a reference, none where it is indeterminate.
    #[inline(always)]
    pub fn value(&self, r: &Reference) -> Option<i64>
        ensures { result ≡ value_at (store_of self.now) (reference_of r.now) }
    {
        match self.place(r) {
            None => None,
            Some(n) => self.objects[n].value(r.path.subscripts()),
        }
    }

    /// How many elements or rows the array at a reference has.
    pub fn length(&self, r: &Reference) -> usize
        ensures { result ≡ length_of (tree_at (store_of self.now) (reference_of r.now)) }
    {
        match self.place(r) {
            None => 0,
            Some(n) => self.objects[n].len(r.path.subscripts()),
        }
    }

    /// The element at a reference, if there is one, becomes `v`.
    ///
    /// Errors: memory ran out.
    #[inline(always)]
    pub fn set(&mut self, r: &Reference, v: i64) -> Result<(), AllocError>
        ensures { OnOk result (store_of self.new ≡ set_value (store_of self.old) (reference_of r.now) v) }
    {
        let Some(n) = self.place(r) else {
            return Ok(());
        };
        if r.path.is_whole() {
            return self.objects[n].set_whole(v);
        }
        self.objects[n].set(r.path.subscripts(), v)
    }

    /// Each element of the part at a reference, if there is one, becomes zero.
    ///
    /// Errors: memory ran out.
    pub fn zero(&mut self, r: &Reference) -> Result<(), AllocError>
        ensures { OnOk result (store_of self.new ≡ set_zeros (store_of self.old) (reference_of r.now)) }
    {
        let Some(n) = self.place(r) else {
            return Ok(());
        };
        self.objects[n].zero(r.path.subscripts())
    }

    /// Another object takes the place of number `n`, if that lives.
    pub fn put(&mut self, n: usize, new: Tree)
        ensures { store_of self.new ≡ put (store_of self.old) (whole n) (tree_of new) }
    {
        if n >= self.objects.len() {
            return;
        }
        let _old = mem::replace(&mut self.objects[n], new);
    }

    /// A new object, with the next number.
    ///
    /// Errors: memory ran out.
    pub fn push(&mut self, object: Tree) -> Result<(), AllocError>
        ensures { OnOk result (store_of self.new ≡ store_of self.old ++ tree_of object ∷ []) }
    {
        self.objects.push(object)?;
        Ok(())
    }

    /// The first `count` objects stay alive (6.2.4p6).
    pub fn truncate(&mut self, count: usize)
        ensures { store_of self.new ≡ take count (store_of self.old) }
    {
        self.objects.truncate(count);
    }
}
