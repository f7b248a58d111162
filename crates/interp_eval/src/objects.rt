//! Whole objects and their elements, without a reference in memory (6.3.2.1, 6.5.1, 6.5.2.1).

ghost use Rattle.std.specs.Prelude.{◌≡◌, ◌<◌, ◌≤◌, ℕ, IfSome, Some, pos, true};
ghost use Rattle.srcset.specs.declared.refusal.Pos.{Pos};
ghost use Rattle.typed_ast.specs.View.{place_of, program_of, storage_of};
ghost use Rattle.csem.specs.Store.{whole};
ghost use Rattle.csem.specs.Machine.{designated, read, subscripted, then_do, tick};
ghost use Rattle.interp_store.specs.View.{reference_of};
ghost use Rattle.interp_store.specs.layer.Agrees.{Outside, Runs, number, state_in, stepped};
ghost use Rattle.interp_eval.specs.layer.Comes.{Does, Designates, IsPart, IsWhole, Spends, StaysHere, found};

use crate::clock::{Clock, Scope};
use interp_store::Reference;
use interp_store::frames::Stepping;
use interp_store::operators::{operated_at, step_operation, step_value};
use interp_store::scene::Scene;
use interp_store::stop::Stop;
use srcset::Pos;
use std::alloc::Global;
use typed_ast::{Place, Program, Storage};

/// The number of the object that a name designates, if that is a whole one.
#[inline(always)]
fn object_of(scope: &Scope<'_>, scene: &Scene, what: Storage) -> Option<usize>
    ensures { (o : Outside) → Designates result (designated (program_of scope.now.program.now) (storage_of what) (state_in scene.now o)) }
{
    match what {
        Storage::Literal(n) => Some(n),
        Storage::Static(n) => scope.program.literals.len().checked_add(n),
        Storage::Automatic(n) => scene.base.checked_add(n),
        Storage::Parameter(_) => None,
    }
}

/// The number of the object that is the place, if that is a whole one with a name.
#[inline(always)]
pub fn whole_object(scope: &Scope<'_>, scene: &Scene, a: &Place) -> Option<usize>
    ensures { (o : Outside) → IsWhole result (found (place_of a.now) (program_of scope.now.program.now) (state_in scene.now o)) (state_in scene.now o) }
{
    match a {
        Place::Named(_, what) => object_of(scope, scene, *what),
        Place::Element(_, _, _) => None,
    }
}

/// The value of a whole object, after the tick of its name (6.3.2.1p2).
#[inline(always)]
pub fn read_object(
    scope: &Scope<'_>,
    scene: &Scene,
    clock: &mut Clock,
    at: Pos,
    n: usize,
) -> Option<i64>
    requires room { clock.old.spent ≤ scope.now.limit }
    ensures does { Does number scope.now (λ p s. tick s (λ s. read at (whole n) s)) clock.old scene.now result clock.new scene.now }
    ensures here { StaysHere true result clock.new.why }
    ensures spends { Spends clock.old.spent clock.new.spent scope.now.limit }
    ensures takes { IfSome result (λ _. clock.old.spent < clock.new.spent) }
{
    if !clock.tick(scope.limit) {
        return None;
    }
    clock.given(scene.read(at, &Reference::whole(n)))
}

/// The value of part `i` of the array that is object `n`, if that is an element with one.
#[inline(always)]
fn part_value(scene: &Scene, n: usize, i: usize) -> Option<i64>
    ensures { (at : Pos) (o : Outside) → IsPart result (then_do (subscripted at (whole n) (pos i) (state_in scene.now o)) (λ r s. read at r s)) (state_in scene.now o) }
{
    match scene.store.objects.get(n) {
        None => None,
        Some(object) => object.part_value(i),
    }
}

/// The number of a part.
#[inline(always)]
fn part_number(subscript: i64) -> Option<usize>
    ensures { (i : ℕ) → result ≡ Some i → subscript ≡ pos i }
{
    if subscript < 0 {
        None
    } else {
        Some(subscript.cast_unsigned() as usize)
    }
}

/// The value of an element of the array that is object `n`, if it has one.
#[inline(always)]
fn element_value(scene: &Scene, n: usize, subscript: i64) -> Option<i64>
    ensures { (at : Pos) (o : Outside) → IsPart result (then_do (subscripted at (whole n) subscript (state_in scene.now o)) (λ r s. read at r s)) (state_in scene.now o) }
{
    match part_number(subscript) {
        None => None,
        Some(i) => part_value(scene, n, i),
    }
}

/// The value of an element that was not found at once.
#[inline(never)]
pub fn read_at(
    alloc: Global,
    scene: &Scene,
    at: Pos,
    r: Reference,
    subscript: i64,
) -> Result<i64, Stop>
    ensures { (o : Outside) → Runs number (then_do (subscripted at (reference_of r) subscript (state_in scene.now o)) (λ r s. read at r s)) result (state_in scene.now o) }
{
    match scene.subscripted(alloc, at, r, subscript) {
        Ok(part) => scene.read(at, &part),
        Err(stop) => Err(stop),
    }
}

/// The value of an element of the array that is object `n` (6.5.2.1p2).
#[inline(always)]
pub fn read_element(
    alloc: Global,
    scene: &Scene,
    at: Pos,
    n: usize,
    subscript: i64,
) -> Result<i64, Stop>
    ensures { (o : Outside) → Runs number (then_do (subscripted at (whole n) subscript (state_in scene.now o)) (λ r s. read at r s)) result (state_in scene.now o) }
{
    match element_value(scene, n, subscript) {
        Some(v) => Ok(v),
        None => read_at(alloc, scene, at, Reference::whole(n), subscript),
    }
}

/// The element at `r` becomes one more or less, as `Scene::step` has it (6.5.2.4, 6.5.3.1).
///
/// Errors: `U6` of an indeterminate element, `U1` out of range, `U7` in a string literal.
#[inline(always)]
fn step_at(scene: &mut Scene, program: &Program, step: Stepping, r: &Reference) -> Result<i64, Stop>
    ensures { (o : Outside) →
        Runs number (stepped (program_of program.now) step (reference_of r.now) (state_in scene.old o)) result (state_in scene.new o) }
{
    let old = match scene.read(step.read_at, r) {
        Ok(old) => old,
        Err(stop) => return Err(stop),
    };
    let new = match operated_at(step.at, step_operation(step.op), step.of, old, 1) {
        Ok(new) => new,
        Err(stop) => return Err(stop),
    };
    match scene.write(program, step.at, r, step.ty, new) {
        Ok(new) => Ok(step_value(step.moment, old, new)),
        Err(stop) => Err(stop),
    }
}

/// `++` and `--` of object `n`.
#[inline(always)]
pub fn object_stepped(
    scope: &Scope<'_>,
    scene: &mut Scene,
    clock: &mut Clock,
    c: &Stepping,
    n: usize,
) -> Option<i64>
    requires room { clock.old.spent ≤ scope.now.limit }
    ensures does { Does number scope.now (λ p s. tick s (λ s. stepped p c.now (whole n) s)) clock.old scene.old result clock.new scene.new }
    ensures here { StaysHere true result clock.new.why }
    ensures spends { Spends clock.old.spent clock.new.spent scope.now.limit }
{
    if !clock.tick(scope.limit) {
        return None;
    }
    clock.given(step_at(scene, scope.program, *c, &Reference::whole(n)))
}
