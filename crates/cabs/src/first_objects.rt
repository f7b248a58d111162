//! The objects before the run: string literals, then those with static storage.

ghost use Rattle.std.specs.Prelude.{◌≡◌, ◌<◌, ◌-◌, ◌^◌, ◌++◌, ◌∷◌, [], ℕ, Some, IfErr, IfOk, OnOk, drop, length, map, min, pos, slice_get};
ghost use Rattle.typing_spec.specs.Types.{elements_in};
ghost use Rattle.typed_ast.specs.View.{program_of, static_of};
ghost use Rattle.csem.specs.Store as machine;
ghost use Rattle.interp_store.specs.View.{store_of, tree_of};
ghost use Rattle.interp_store.specs.declared.stop.Stop.TheVariants.{Memory};

use interp_store::stop::Stop;
use interp_store::{Store, Tree};
use std::alloc::{AllocError, Global};
use typed_ast::{Program, Static};

/// The characters of a string literal as cells.
///
/// Errors: memory ran out.
fn literal_cells(alloc: Global, text: &[u8]) -> Result<Vec<i64>, AllocError>
    ensures { IfOk result (λ cells. cells.items ≡ map pos text.now) }
{
    let mut cells = match Vec::with_capacity(alloc, text.len()) {
        Ok(cells) => cells,
        Err(e) => return Err(e),
    };
    for c in text {
        match cells.push(i64::from(*c)) {
            Ok(()) => {}
            Err(_) => return Err(AllocError),
        }
    }
    Ok(cells)
}

/// The array of a string literal (6.4.5p6).
///
/// Errors: memory ran out.
fn literal_object(alloc: Global, text: &[u8]) -> Result<Tree, AllocError>
    ensures { IfOk result (λ t. tree_of t ≡ machine.literal_object text.now) }
{
    match literal_cells(alloc, text) {
        Ok(cells) => Tree::row(alloc, cells),
        Err(e) => Err(e),
    }
}

/// The first of these values, or 0 if there is none (6.7.9p10).
fn first_or_zero(values: &[i64]) -> i64
    ensures { result ≡ machine.first_or_zero values.now }
{
    match values.first() {
        None => 0,
        Some(v) => *v,
    }
}

/// Value `k` of these, or 0 after the last (6.7.9p21).
fn value_or_zero(values: &[i64], k: usize) -> i64
    ensures { result ≡ machine.first_or_zero (drop k values.now) }
{
    match values.get(k) {
        None => 0,
        Some(v) => *v,
    }
}

/// How many elements an object of these lengths has, or the greatest number that memory has where they are more.
fn element_count(lengths: &[u32]) -> usize
    ensures { result ≡ min (elements_in lengths.now) (2 ^ 64 - 1) }
{
    let mut product: usize = 1;
    for n in lengths {
        product = product.saturating_mul(*n as usize);
    }
    product
}

/// That many values in order, with zeros after the last, as cells (6.7.9p10, p21).
///
/// Errors: memory ran out.
fn laid_cells(alloc: Global, count: usize, values: &[i64]) -> Result<Vec<i64>, Stop>
    ensures ok { IfOk result (λ cells. (k : ℕ) → k < count → slice_get cells.items k ≡ Some (machine.first_or_zero (drop k values.now))) }
    ensures size { IfOk result (λ cells. length cells.items ≡ count) }
    ensures err { IfErr result (λ e. e ≡ Memory) }
{
    let mut cells = match Vec::with_capacity(alloc, count) {
        Ok(cells) => cells,
        Err(_) => return Err(Stop::Memory),
    };
    for k in 0..count {
        match cells.push(value_or_zero(values, k)) {
            Ok(()) => {}
            Err(_) => return Err(Stop::Memory),
        }
    }
    Ok(cells)
}

/// An object of these lengths whose elements have these values in order, the others being zero (6.7.9p10, p21).
///
/// Errors: memory ran out.
fn laid_out(alloc: Global, lengths: &[u32], values: &[i64]) -> Result<Tree, Stop>
    ensures ok { IfOk result (λ t. tree_of t ≡ machine.laid_out lengths.now values.now) }
    ensures err { IfErr result (λ e. e ≡ Memory) }
{
    if lengths.is_empty() {
        return Ok(Tree::Element(Some(first_or_zero(values))));
    }
    match laid_cells(alloc, element_count(lengths), values) {
        Ok(cells) => match Tree::array(alloc, lengths, cells) {
            Ok(object) => Ok(object),
            Err(_) => Err(Stop::Memory),
        },
        Err(stop) => Err(stop),
    }
}

/// The objects of the string literals.
///
/// Errors: memory ran out.
fn push_literals(store: &mut Store, alloc: Global, literals: &[Vec<u8>]) -> Result<(), Stop>
    ensures ok { OnOk result (store_of store.new ≡ store_of store.old ++ map machine.literal_object (map (λ text. text.items) literals.now)) }
    ensures err { IfErr result (λ e. e ≡ Memory) }
{
    let mut rest = literals;
    while let Some((text, more)) = rest.split_first() {
        match push_literal(store, alloc, text.as_slice()) {
            Ok(()) => {}
            Err(stop) => return Err(stop),
        }
        rest = more;
    }
    Ok(())
}

/// Adds the object of a string literal.
///
/// Errors: memory ran out.
fn push_literal(store: &mut Store, alloc: Global, text: &[u8]) -> Result<(), Stop>
    ensures ok { OnOk result (store_of store.new ≡ store_of store.old ++ machine.literal_object text.now ∷ []) }
    ensures err { IfErr result (λ e. e ≡ Memory) }
{
    match literal_object(alloc, text) {
        Ok(object) => match store.push(object) {
            Ok(()) => Ok(()),
            Err(_) => Err(Stop::Memory),
        },
        Err(_) => Err(Stop::Memory),
    }
}

/// Adds an object with static storage.
///
/// Errors: memory ran out.
fn push_static(store: &mut Store, alloc: Global, of: &Static) -> Result<(), Stop>
    ensures ok { OnOk result (store_of store.new ≡ store_of store.old ++ machine.static_object (static_of of.now) ∷ []) }
    ensures err { IfErr result (λ e. e ≡ Memory) }
{
    match laid_out(
        alloc,
        of.object_type.lengths.as_slice(),
        of.values.as_slice(),
    ) {
        Ok(object) => match store.push(object) {
            Ok(()) => Ok(()),
            Err(_) => Err(Stop::Memory),
        },
        Err(stop) => Err(stop),
    }
}

/// The objects with static storage.
///
/// Errors: memory ran out.
fn push_statics(store: &mut Store, alloc: Global, statics: &[Static]) -> Result<(), Stop>
    ensures ok { OnOk result (store_of store.new ≡ store_of store.old ++ map machine.static_object (map static_of statics.now)) }
    ensures err { IfErr result (λ e. e ≡ Memory) }
{
    let mut rest = statics;
    while let Some((of, more)) = rest.split_first() {
        match push_static(store, alloc, of) {
            Ok(()) => {}
            Err(stop) => return Err(stop),
        }
        rest = more;
    }
    Ok(())
}

/// The objects before the run (6.2.4p3, 6.4.5p6).
///
/// Errors: memory ran out.
pub fn first_store(alloc: Global, program: &Program) -> Result<Store, Stop>
    ensures ok { IfOk result (λ store. store_of store ≡ machine.first_store (program_of program.now)) }
    ensures err { IfErr result (λ e. e ≡ Memory) }
{
    let mut store = Store::new(alloc);
    match push_literals(&mut store, alloc, program.literals.as_slice()) {
        Ok(()) => {}
        Err(stop) => return Err(stop),
    }
    match push_statics(&mut store, alloc, program.statics.as_slice()) {
        Ok(()) => Ok(store),
        Err(stop) => Err(stop),
    }
}
