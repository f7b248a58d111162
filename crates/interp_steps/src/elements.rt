//! First values of elements (6.7.9).

ghost use Rattle.std.specs.Prelude.{◌≡◌, IfErr, IfOk, OnOk, Some, pos, slice_get};
ghost use Rattle.csem.specs.Store.{into};
ghost use Rattle.csem.specs.Statements.{characters, zeros};
ghost use Rattle.csem.specs.Machine.{stored};
ghost use Rattle.interp_store.specs.View.{reference_of};
ghost use Rattle.interp_store.specs.layer.Agrees.{Outside, Takes, state_in};
ghost use Rattle.interp_store.specs.layer.Steps.{entered};
ghost use Rattle.interp_store.specs.layer.Views.{node_of};
ghost use Rattle.interp_store.specs.declared.frames.Node.TheVariants as node;
ghost use Rattle.interp_store.specs.declared.stop.Stop.TheVariants.{Memory};
ghost use Rattle.interp_steps.specs.Zeros.{one_zero, character_at};

use ctypes::{IntType, convert};
use interp_store::Reference;
use interp_store::frames::{Found, Step};
use interp_store::machine::Machine;
use interp_store::scene::Scene;
use interp_store::stop::Stop;
use std::alloc::Global;

/// An element, if it is one, gets its first value, after its tick.
///
/// Errors: memory ran out.
pub fn enter_element<'p>(machine: &mut Machine<'p>, r: Reference, v: i64) -> Result<Step<'p>, Stop>
    ensures takes { Takes (λ p s. entered p (node_of (node.Element r v)) s) machine.old result machine.new }
    ensures program { machine.new.program ≡ machine.old.program }
{
    match machine.scene.set(&r, v) {
        Ok(()) => Ok(Step::Leaves(Found::Initialised)),
        Err(stop) => Err(stop),
    }
}

/// The element or row `i` of the array at `r`.
///
/// Errors: memory ran out.
pub fn part(alloc: Global, r: &Reference, i: usize) -> Result<Reference, Stop>
    ensures ok { IfOk result (λ part. reference_of part ≡ into (reference_of r.now) i) }
    ensures err { IfErr result (λ e. e ≡ Memory) }
{
    match r.copied(alloc) {
        Ok(same) => match same.into_part(alloc, i) {
            Ok(part) => Ok(part),
            Err(_) => Err(Stop::Memory),
        },
        Err(stop) => Err(stop),
    }
}

/// The element or row `i` of the array at `r`, if there is one, becomes zero.
///
/// Errors: memory ran out.
fn clear_part(scene: &mut Scene, alloc: Global, r: &Reference, i: usize) -> Result<(), Stop>
    ensures ok { (o : Outside) → OnOk result (state_in scene.new o ≡ one_zero i (reference_of r.now) (state_in scene.old o)) }
    ensures err { IfErr result (λ e. e ≡ Memory) }
{
    let part = match part(alloc, r, i) {
        Ok(part) => part,
        Err(stop) => return Err(stop),
    };
    match scene.store.zero(&part) {
        Ok(()) => Ok(()),
        Err(_) => Err(Stop::Memory),
    }
}

/// `count` elements or rows of the array at `r`, from `first` on, become zero (6.7.9p10, p21), as far as it has them.
///
/// Errors: memory ran out.
pub fn clear(
    scene: &mut Scene,
    alloc: Global,
    r: &Reference,
    first: usize,
    count: usize,
) -> Result<(), Stop>
    ensures ok { (o : Outside) → OnOk result (state_in scene.new o ≡ zeros count first (reference_of r.now) (state_in scene.old o)) }
    ensures err { IfErr result (λ e. e ≡ Memory) }
{
    let end = count.min(scene.store.length(r).saturating_sub(first));
    for i in 0..end {
        match clear_part(scene, alloc, r, first + i) {
            Ok(()) => {}
            Err(stop) => return Err(stop),
        }
    }
    Ok(())
}

/// Character `i` of a text as a value of the type; past its end it is zero (6.7.9p14, p21).
fn character(ty: IntType, text: &[u8], i: usize) -> i64
    ensures { result ≡ character_at ty (slice_get text.now i) }
{
    match text.get(i) {
        None => 0,
        Some(c) => convert(ty, i64::from(*c)),
    }
}

/// The element `i` of the array at `r`, if there is one, becomes `v`.
///
/// Errors: memory ran out.
fn set_part(scene: &mut Scene, alloc: Global, r: &Reference, i: usize, v: i64) -> Result<(), Stop>
    ensures ok { (o : Outside) → OnOk result (state_in scene.new o ≡ stored (into (reference_of r.now) i) v (state_in scene.old o)) }
    ensures err { IfErr result (λ e. e ≡ Memory) }
{
    match part(alloc, r, i) {
        Ok(part) => match scene.set(&part, v) {
            Ok(()) => Ok(()),
            Err(stop) => Err(stop),
        },
        Err(stop) => Err(stop),
    }
}

/// The first `count` elements of the array at `r`, as far as it has them, become the characters of a text (6.7.9p14, p21).
///
/// Errors: memory ran out.
pub fn put_text(
    scene: &mut Scene,
    alloc: Global,
    r: &Reference,
    ty: IntType,
    count: usize,
    text: &[u8],
) -> Result<(), Stop>
    ensures ok { (o : Outside) → OnOk result (state_in scene.new o ≡ characters ty count 0 text.now (reference_of r.now) (state_in scene.old o)) }
    ensures err { IfErr result (λ e. e ≡ Memory) }
{
    for i in 0..count {
        let v = character(ty, text, i);
        match set_part(scene, alloc, r, i, v) {
            Ok(()) => {}
            Err(stop) => return Err(stop),
        }
    }
    Ok(())
}
