//! Arrays as the values of their elements, in order.

ghost use Rattle.std.specs.Prelude.{◌≡◌, ◌≢◌, ◌+◌, ◌-◌, ◌*◌, ◌^◌, ◌≤◌, ◌<◌, ◌⊎◌, ℕ, ℤ, [], Some, None, Option, false, IfNone, IfSome, OnOk, option_map, length, min, pos, slice_get, slice_index_or};
ghost use Rattle.typing_spec.specs.Types.{elements_in};
ghost use Rattle.csem.specs.Store as machine;
ghost use Rattle.interp_store.specs.Cells as cells;
ghost use Rattle.interp_store.specs.View.{grid_of};

use std::alloc::{AllocError, Global};

/// An array: its lengths, from the outermost, and a cell for each element up to the last that has had a value. An element is
/// indeterminate (3.19.2) where `unset` has true at its number, and behind the last cell, so that an array begins, and begins
/// again, in a time that does not depend on its length. Of an array that is written in order `unset` stays empty.
#[derive(Drop)]
pub struct Grid {
    pub lengths: Vec<usize>,
    pub cells: Vec<i64>,
    pub unset: Vec<bool>,
}

/// The lengths of the part at these subscripts, if there is one.
#[inline(always)]
fn behind<'l>(lengths: &'l [usize], path: &[usize]) -> Option<&'l [usize]>
    ensures { option_map (λ rest. rest.now) result ≡ cells.behind path.now lengths.now }
{
    let mut rest = lengths;
    for i in path {
        match rest.split_first() {
            None => return None,
            Some((n, inner)) => {
                if *i >= *n {
                    return None;
                }
                rest = inner;
            }
        }
    }
    Some(rest)
}

/// The number of parts of its lengths that precede the one at these subscripts, or the greatest number that memory has where
/// they are more.
#[inline(always)]
fn number(lengths: &[usize], path: &[usize]) -> usize
    ensures { result ≡ min (cells.number path.now lengths.now 0) (2 ^ 64 - 1) }
{
    let mut rest = lengths;
    let mut k: usize = 0;
    for i in path {
        let Some((n, inner)) = rest.split_first() else {
            return k;
        };
        k = k.saturating_mul(*n).saturating_add(*i);
        rest = inner;
    }
    k
}

/// How many elements an array of these lengths has, or the greatest number that memory has where they are more.
fn element_count(lengths: &[usize]) -> usize
    ensures { result ≡ min (elements_in lengths.now) (2 ^ 64 - 1) }
{
    let mut product: usize = 1;
    for n in lengths {
        product = product.saturating_mul(*n);
    }
    product
}

/// `count` numbers, from `first` on, become zero.
fn clear_numbers(numbers: &mut Vec<i64>, first: usize, count: usize)
    requires { first + count ≤ length numbers.old.items }
    ensures inside { (j : ℕ) → j < count → slice_get numbers.new.items (first + j) ≡ Some (pos 0) }
    ensures outside { (j : ℕ) → (j < first) ⊎ (first + count ≤ j) → slice_get numbers.new.items j ≡ slice_get numbers.old.items j }
    ensures size { length numbers.new.items ≡ length numbers.old.items }
{
    for j in 0..count {
        numbers[first + j] = 0;
    }
}

/// Whether mark `k` is true.
#[inline(always)]
fn is_marked(marks: &[bool], k: usize) -> bool
    ensures { result ≡ slice_index_or marks.now k false }
{
    match marks.get(k) {
        None => false,
        Some(mark) => *mark,
    }
}

/// Mark `k`, if there is one, becomes false.
#[inline(always)]
fn clear_mark(marks: &mut Vec<bool>, k: usize)
    ensures here { slice_index_or marks.new.items k false ≡ false }
    ensures others { (j : ℕ) → (j < k) ⊎ (k < j) → slice_index_or marks.new.items j false ≡ slice_index_or marks.old.items j false }
{
    if k < marks.len() {
        marks[k] = false;
    }
}

/// `count` marks, from `first` on, become false, as far as there are any.
fn clear_marks(marks: &mut Vec<bool>, first: usize, count: usize)
    ensures inside { (j : ℕ) → first ≤ j → j < first + count → slice_index_or marks.new.items j false ≡ false }
    ensures outside { (j : ℕ) → (j < first) ⊎ (first + count ≤ j) → slice_index_or marks.new.items j false ≡ slice_index_or marks.old.items j false }
{
    let end = marks.len().min(first.saturating_add(count));
    for j in first..end {
        marks[j] = false;
    }
}

impl Grid {
    /// The value of element `k` of all, none where it has none.
    #[inline(always)]
    fn cell(&self, k: usize) -> Option<i64>
        ensures { result ≡ cells.cell self.now.cells.items self.now.unset.items k }
    {
        match self.cells.get(k) {
            None => None,
            Some(v) => {
                if is_marked(self.unset.as_slice(), k) {
                    None
                } else {
                    Some(*v)
                }
            }
        }
    }

    /// The value of the element at these subscripts, if they name one.
    #[inline(always)]
    fn element(&self, path: &[usize]) -> Option<i64>
        ensures { result ≡ cells.cell self.now.cells.items self.now.unset.items (cells.number path.now self.now.lengths.items 0) }
    {
        self.cell(number(self.lengths.as_slice(), path))
    }

    /// The value of the element at these subscripts, none where it is indeterminate or there is no element.
    #[inline(always)]
    pub fn value(&self, path: &[usize]) -> Option<i64>
        ensures { result ≡ machine.value_of (machine.at_path (Some (grid_of self.now)) path.now) }
    {
        match behind(self.lengths.as_slice(), path) {
            None => None,
            Some(rest) => {
                if rest.is_empty() {
                    self.element(path)
                } else {
                    None
                }
            }
        }
    }

    /// The number of elements or rows at these subscripts, 0 where there is no array.
    pub fn count(&self, path: &[usize]) -> usize
        ensures { result ≡ machine.length_of (machine.at_path (Some (grid_of self.now)) path.now) }
    {
        match behind(self.lengths.as_slice(), path) {
            None => 0,
            Some(rest) => match rest.first() {
                None => 0,
                Some(n) => *n,
            },
        }
    }

    /// Gives each element before number `end` of all a cell.
    ///
    /// Errors: memory ran out.
    fn reach(&mut self, end: usize) -> Result<(), AllocError>
        ensures lengths { self.new.lengths ≡ self.old.lengths }
        ensures same { (j : ℕ) → cells.cell self.new.cells.items self.new.unset.items j ≡ cells.cell self.old.cells.items self.old.unset.items j }
        ensures held { OnOk result (end ≤ length self.new.cells.items) }
        ensures exact { length self.old.cells.items ≤ end → OnOk result (length self.new.cells.items ≡ end) }
    {
        if end <= self.cells.len() {
            return Ok(());
        }
        self.unset.resize(self.cells.len(), false)?;
        self.unset.resize(end, true)?;
        self.cells.resize(end, 0)?;
        Ok(())
    }

    /// Element `k` of all, which has a cell, becomes `v`.
    #[inline(always)]
    fn change(&mut self, k: usize, v: i64)
        requires { k < length self.old.cells.items }
        ensures lengths { self.new.lengths ≡ self.old.lengths }
        ensures held { k < length self.new.cells.items }
        ensures here { cells.cell self.new.cells.items self.new.unset.items k ≡ Some v }
        ensures others { (j : ℕ) → (j < k) ⊎ (k < j) → cells.cell self.new.cells.items self.new.unset.items j ≡ cells.cell self.old.cells.items self.old.unset.items j }
    {
        self.cells[k] = v;
        clear_mark(&mut self.unset, k);
    }

    /// Element `k` of all, which has no cell, becomes `v`.
    ///
    /// Errors: memory ran out.
    fn add(&mut self, k: usize, v: i64) -> Result<(), AllocError>
        requires { length self.old.cells.items ≤ k }
        ensures lengths { self.new.lengths ≡ self.old.lengths }
        ensures held { OnOk result (k < length self.new.cells.items) }
        ensures here { OnOk result (cells.cell self.new.cells.items self.new.unset.items k ≡ Some v) }
        ensures others { OnOk result ((j : ℕ) → (j < k) ⊎ (k < j) →
            cells.cell self.new.cells.items self.new.unset.items j ≡ cells.cell self.old.cells.items self.old.unset.items j) }
    {
        self.reach(k)?;
        self.cells.push(v)?;
        clear_mark(&mut self.unset, k);
        Ok(())
    }

    /// Element `k` of all becomes `v`.
    ///
    /// Errors: memory ran out.
    #[inline(always)]
    fn put(&mut self, k: usize, v: i64) -> Result<(), AllocError>
        ensures lengths { self.new.lengths ≡ self.old.lengths }
        ensures held { OnOk result (k < length self.new.cells.items) }
        ensures here { OnOk result (cells.cell self.new.cells.items self.new.unset.items k ≡ Some v) }
        ensures others { OnOk result ((j : ℕ) → (j < k) ⊎ (k < j) →
            cells.cell self.new.cells.items self.new.unset.items j ≡ cells.cell self.old.cells.items self.old.unset.items j) }
    {
        if k < self.cells.len() {
            self.change(k, v);
            return Ok(());
        }
        self.add(k, v)
    }

    /// The number of the element at these subscripts, if there is one, or the greatest number that memory has where it is past
    /// that.
    #[inline(always)]
    fn place(&self, path: &[usize]) -> Option<usize>
        ensures stands { IfSome result (λ k. cells.behind path.now self.now.lengths.items ≡ Some []) }
        ensures number { IfSome result (λ k. k ≡ min (cells.number path.now self.now.lengths.items 0) (2 ^ 64 - 1)) }
        ensures none { IfNone result ((w : Option ℤ) → machine.at_path (Some (grid_of self.now)) path.now ≢ Some (machine.Element w)) }
    {
        match behind(self.lengths.as_slice(), path) {
            None => None,
            Some(rest) => {
                if rest.is_empty() {
                    Some(number(self.lengths.as_slice(), path))
                } else {
                    None
                }
            }
        }
    }

    /// The element at these subscripts, if there is one, becomes `v`.
    ///
    /// Errors: memory ran out.
    pub fn set(&mut self, path: &[usize], v: i64) -> Result<(), AllocError>
        ensures { OnOk result (grid_of self.new ≡ machine.put_at path.now (machine.with_value v (machine.at_path (Some (grid_of self.old)) path.now)) (grid_of self.old)) }
    {
        let Some(k) = self.place(path) else {
            return Ok(());
        };
        self.put(k, v)
    }

    /// `count` elements of all, from number `first` on, become zero.
    ///
    /// Errors: memory ran out.
    fn clear(&mut self, first: usize, count: usize) -> Result<(), AllocError>
        ensures lengths { self.new.lengths ≡ self.old.lengths }
        ensures held { OnOk result (first + count ≤ length self.new.cells.items) }
        ensures inside { OnOk result ((j : ℕ) → j < count → cells.cell self.new.cells.items self.new.unset.items (first + j) ≡ Some (pos 0)) }
        ensures outside { OnOk result ((j : ℕ) → (j < first) ⊎ (first + count ≤ j) →
            cells.cell self.new.cells.items self.new.unset.items j ≡ cells.cell self.old.cells.items self.old.unset.items j) }
    {
        self.reach(first)?;
        let end = first.saturating_add(count).max(self.cells.len());
        self.cells.resize(end, 0)?;
        clear_numbers(&mut self.cells, first, count);
        clear_marks(&mut self.unset, first, count);
        Ok(())
    }

    /// Each element of the part at these subscripts, if there is one, becomes zero.
    ///
    /// Errors: memory ran out.
    pub fn zero(&mut self, path: &[usize]) -> Result<(), AllocError>
        ensures { OnOk result (grid_of self.new ≡ machine.put_at path.now (machine.with_zeros (machine.at_path (Some (grid_of self.old)) path.now)) (grid_of self.old)) }
    {
        let Some(rest) = behind(self.lengths.as_slice(), path) else {
            return Ok(());
        };
        let count = element_count(rest);
        let first = number(self.lengths.as_slice(), path).saturating_mul(count);
        self.clear(first, count)
    }

    /// The value of element `i` of an array of elements, if it has one.
    #[inline(always)]
    pub fn part_value(&self, i: usize) -> Option<i64>
        ensures { IfSome result (λ v. machine.value_of (machine.part_in (Some (grid_of self.now)) i) ≡ Some v) }
    {
        match self.lengths.as_slice().split_first() {
            None => None,
            Some((n, inner)) => {
                if inner.is_empty() && i < *n {
                    self.cell(i)
                } else {
                    None
                }
            }
        }
    }
}
