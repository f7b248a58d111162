//! Objects as their elements.

ghost use Rattle.std.specs.Prelude.{◌≡◌, ◌∷◌, [], Some, IfOk, IfSome, OnOk, length, slice_get};
ghost use Rattle.csem.specs.Store.{at_path, put_at, length_of, value_of, with_value, with_zeros, filled};
ghost use Rattle.csem.specs.Store as machine;
ghost use Rattle.interp_store.specs.Cells.{shaped};
ghost use Rattle.interp_store.specs.View.{tree_of};

use crate::grid::Grid;
use std::alloc::{AllocError, Global};

/// An object (6.2.4, 6.2.5p20).
#[derive(Drop)]
pub enum Tree {
    /// An element's value, none while it is indeterminate (3.19.2).
    Element(Option<i64>),
    /// An array with its elements in order.
    Array(Box<Grid>),
}

impl Tree {
    /// The value of the element at these subscripts, none where it is indeterminate or there is no element.
    #[inline(always)]
    pub fn value(&self, path: &[usize]) -> Option<i64>
        ensures { result ≡ value_of (at_path (Some (tree_of self.now)) path.now) }
    {
        match self {
            Tree::Element(value) => { if path.is_empty() { *value } else { None } }
            Tree::Array(grid) => grid.value(path),
        }
    }

    /// The number of elements or rows at these subscripts, 0 where there is no array.
    pub fn len(&self, path: &[usize]) -> usize
        ensures { result ≡ length_of (at_path (Some (tree_of self.now)) path.now) }
    {
        match self {
            Tree::Element(_) => 0,
            Tree::Array(grid) => grid.count(path),
        }
    }

    /// The value of element `i` of an array of elements, if it has one.
    #[inline(always)]
    pub fn part_value(&self, i: usize) -> Option<i64>
        ensures { IfSome result (λ v. value_of (machine.part_in (Some (tree_of self.now)) i) ≡ Some v) }
    {
        match self {
            Tree::Element(_) => None,
            Tree::Array(grid) => grid.part_value(i),
        }
    }

    /// The whole object, if it is an element, becomes `v`.
    ///
    /// Errors: memory ran out.
    #[inline(always)]
    pub fn set_whole(&mut self, v: i64) -> Result<(), AllocError>
        ensures { OnOk result (tree_of self.new ≡ with_value v (Some (tree_of self.old))) }
    {
        match self {
            Tree::Array(grid) => return grid.set(&[], v),
            Tree::Element(value) => *value = Some(v),
        }
        Ok(())
    }

    /// The element at these subscripts, if there is one, becomes `v`.
    ///
    /// Errors: memory ran out.
    pub fn set(&mut self, path: &[usize], v: i64) -> Result<(), AllocError>
        ensures { OnOk result (tree_of self.new ≡ put_at path.now (with_value v (at_path (Some (tree_of self.old)) path.now)) (tree_of self.old)) }
    {
        match self {
            Tree::Array(grid) => return grid.set(path, v),
            Tree::Element(_) => {}
        }
        if path.is_empty() {
            *self = Tree::Element(Some(v));
        }
        Ok(())
    }

    /// Each element of the part at these subscripts, if there is one, becomes zero.
    ///
    /// Errors: memory ran out.
    pub fn zero(&mut self, path: &[usize]) -> Result<(), AllocError>
        ensures { OnOk result (tree_of self.new ≡ put_at path.now (with_zeros (at_path (Some (tree_of self.old)) path.now)) (tree_of self.old)) }
    {
        match self {
            Tree::Array(grid) => return grid.zero(path),
            Tree::Element(_) => {}
        }
        if path.is_empty() {
            *self = Tree::Element(Some(0));
        }
        Ok(())
    }

    /// An object of these lengths whose value is indeterminate (6.2.4p6).
    ///
    /// Errors: memory ran out.
    pub fn indeterminate(alloc: Global, lengths: &[u32]) -> Result<Tree, AllocError>
        ensures { IfOk result (λ t. tree_of t ≡ filled None lengths.now) }
    {
        if lengths.is_empty() {
            return Ok(Tree::Element(None));
        }
        Tree::array(alloc, lengths, Vec::new(alloc))
    }

    /// An array of these lengths with these values, the first ones of its elements.
    ///
    /// Errors: memory ran out.
    pub fn array(alloc: Global, lengths: &[u32], cells: Vec<i64>) -> Result<Tree, AllocError>
        ensures { IfOk result (λ t. tree_of t ≡ shaped lengths.now (slice_get cells.items) 0) }
    {
        match widened(alloc, lengths) {
            Ok(lengths) => of_cells(alloc, lengths, cells),
            Err(e) => Err(e),
        }
    }

    /// An array of as many elements as there are values.
    ///
    /// Errors: memory ran out.
    pub fn row(alloc: Global, cells: Vec<i64>) -> Result<Tree, AllocError>
        ensures { IfOk result (λ t. tree_of t ≡ shaped (length cells.items ∷ []) (slice_get cells.items) 0) }
    {
        match Vec::from_slice(alloc, &[cells.len()]) {
            Ok(lengths) => of_cells(alloc, lengths, cells),
            Err(e) => Err(e),
        }
    }
}

/// These lengths as numbers of elements.
///
/// Errors: memory ran out.
fn widened(alloc: Global, lengths: &[u32]) -> Result<Vec<usize>, AllocError>
    ensures { IfOk result (λ all. all.items ≡ lengths.now) }
{
    let mut all = match Vec::with_capacity(alloc, lengths.len()) {
        Ok(all) => all,
        Err(e) => return Err(e),
    };
    for n in lengths {
        match all.push(*n as usize) {
            Ok(()) => {}
            Err(_) => return Err(AllocError),
        }
    }
    Ok(all)
}

/// An array of these lengths, each of whose cells has a value.
///
/// Errors: memory ran out.
fn of_cells(alloc: Global, lengths: Vec<usize>, cells: Vec<i64>) -> Result<Tree, AllocError>
    ensures { IfOk result (λ t. tree_of t ≡ shaped lengths.items (slice_get cells.items) 0) }
{
    let grid = Grid {
        lengths,
        cells,
        unset: Vec::new(alloc),
    };
    match Box::new(alloc, grid) {
        Ok(grid) => Ok(Tree::Array(grid)),
        Err(_) => Err(AllocError),
    }
}
