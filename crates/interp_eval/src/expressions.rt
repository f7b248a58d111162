//! The values of expressions that call nothing (6.5).

ghost use Rattle.std.specs.Prelude.{◌≡◌, ◌&&◌, ◌<◌, ◌≤◌, IfSome, Option, true};
ghost use Rattle.ctypes.specs.declared.types.IntType.{IntType};
ghost use Rattle.ctypes.specs.Types.{truth, of_truth, converted};
ghost use Rattle.typing_spec.specs.Program as typed;
ghost use Rattle.typed_ast.specs.View.{moment_of, place_of, storage_of, value_of};
ghost use Rattle.csem.specs.Machine.{Goes, choose, read, subscripted, then_do, tick, write};
ghost use Rattle.csem.specs.Store.{whole};
ghost use Rattle.csem.specs.Expressions as meaning;
ghost use Rattle.interp_store.specs.View.{reference_of};
ghost use Rattle.interp_store.specs.layer.Agrees.{combined, number, stepped};
ghost use Rattle.interp_eval.specs.layer.Comes.{Does, Spends, StaysHere, found, valued};
ghost use Rattle.interp_eval.specs.layer.Quick.{quick, quick_place};

use crate::clock::{Clock, Scope, Why};
use crate::objects::{object_stepped, read_at, read_element, read_object, whole_object};
use ctypes::{BinOp, IntType};
use interp_store::Reference;
use interp_store::frames::{Compound, Stepping};
use interp_store::operators::{converted_or_none, is_true, of_truth, operated_at, sign_at};
use interp_store::scene::Scene;
use srcset::Pos;
use tree::PrefixOp;
use typed_ast::{Place, Storage, Value};

/// The place in the source of an element that is read: its name or its `[`.
#[inline(always)]
fn position_of(place: &Place) -> Pos
    ensures { result ≡ meaning.position_of (place_of place.now) }
{
    match place {
        Place::Named(at, _) => *at,
        Place::Element(at, _, _) => *at,
    }
}

/// The reference that an lvalue or an array gives (6.3.2.1, 6.5.1, 6.5.2.1).
#[cycle(evaluate)]
pub fn place(
    scope: &Scope<'_>,
    scene: &mut Scene,
    clock: &mut Clock,
    a: &Place,
) -> Option<Reference>
    requires room { clock.old.spent ≤ scope.now.limit }
    ensures does { Does reference_of scope.now (found (place_of a.now)) clock.old scene.old result clock.new scene.new }
    ensures here { StaysHere (quick_place (place_of a.now)) result clock.new.why }
    ensures spends { Spends clock.old.spent clock.new.spent scope.now.limit }
    ensures takes { IfSome result (λ _. clock.old.spent < clock.new.spent) }
{
    match a {
        Place::Named(at, what) => named(scope, scene, clock, at, *what),
        Place::Element(at, array, index) => element(scope, scene, clock, at, array, index),
    }
}

#[inline(always)]
fn named(
    scope: &Scope<'_>,
    scene: &Scene,
    clock: &mut Clock,
    at: &Pos,
    what: Storage,
) -> Option<Reference>
    requires room { clock.old.spent ≤ scope.now.limit }
    ensures does { Does reference_of scope.now (found (typed.named at.now (storage_of what))) clock.old scene.now result clock.new scene.now }
    ensures here { StaysHere true result clock.new.why }
    ensures spends { Spends clock.old.spent clock.new.spent scope.now.limit }
    ensures takes { IfSome result (λ _. clock.old.spent < clock.new.spent) }
{
    if !clock.tick(scope.limit) {
        return None;
    }
    clock.found(scene.designated(scope.alloc, scope.program, what))
}

#[cycle(evaluate)]
fn element(
    scope: &Scope<'_>,
    scene: &mut Scene,
    clock: &mut Clock,
    at: &Pos,
    array: &Place,
    index: &Value,
) -> Option<Reference>
    requires room { clock.old.spent ≤ scope.now.limit }
    ensures does { Does reference_of scope.now (found (typed.element at.now (place_of array.now) (value_of index.now))) clock.old scene.old result clock.new scene.new }
    ensures here { StaysHere (quick_place (place_of array.now) && quick (value_of index.now)) result clock.new.why }
    ensures spends { Spends clock.old.spent clock.new.spent scope.now.limit }
    ensures takes { IfSome result (λ _. clock.old.spent < clock.new.spent) }
{
    if !clock.tick(scope.limit) {
        return None;
    }
    let Some(r) = place(scope, scene, clock, array) else {
        return None;
    };
    let Some(v) = value(scope, scene, clock, index) else {
        return None;
    };
    clock.found(scene.subscripted(scope.alloc, *at, r, v))
}

/// The value of an expression (6.5).
#[cycle(evaluate)]
pub fn value(scope: &Scope<'_>, scene: &mut Scene, clock: &mut Clock, e: &Value) -> Option<i64>
    requires room { clock.old.spent ≤ scope.now.limit }
    ensures does { Does number scope.now (valued (value_of e.now)) clock.old scene.old result clock.new scene.new }
    ensures here { StaysHere (quick (value_of e.now)) result clock.new.why }
    ensures spends { Spends clock.old.spent clock.new.spent scope.now.limit }
    ensures takes { IfSome result (λ _. clock.old.spent < clock.new.spent) }
{
    match e {
        Value::Constant(ty, v) => constant(scope, scene, clock, *ty, *v),
        Value::Read(ty, a) => read(scope, scene, clock, *ty, a),
        Value::Assigned(at, ty, a, e) => assigned(scope, scene, clock, at, *ty, a, e),
        Value::Compound(at, op, ty, of, a, e) => {
            let c = Compound {
                at: *at,
                op: *op,
                ty: *ty,
                of: *of,
                read_at: position_of(a),
            };
            compound(scope, scene, clock, &c, a, e)
        }
        Value::Stepped(at, moment, op, ty, of, a) => {
            let c = Stepping {
                at: *at,
                moment: *moment,
                op: *op,
                ty: *ty,
                of: *of,
                read_at: position_of(a),
            };
            stepped(scope, scene, clock, &c, a)
        }
        Value::Unary(at, op, ty, e) => unary(scope, scene, clock, at, *op, *ty, e),
        Value::Binary(at, op, ty, a, b) => binary(scope, scene, clock, at, *op, *ty, a, b),
        Value::BothTrue(a, b) => both_true(scope, scene, clock, a, b),
        Value::OneTrue(a, b) => one_true(scope, scene, clock, a, b),
        Value::Chosen(ty, c, a, b) => chosen(scope, scene, clock, *ty, c, a, b),
        Value::Sequence(a, b) => sequence(scope, scene, clock, a, b),
        Value::Cast(ty, e) => cast(scope, scene, clock, *ty, e),
        Value::Discarded(e) => discarded(scope, scene, clock, e),
        Value::Call(_, _, _, _, _) => {
            clock.why = Why::Elsewhere;
            None
        }
    }
}

/// The same, where the smallest parts are done on the spot.
#[cycle(evaluate)]
#[inline(always)]
pub fn operand(scope: &Scope<'_>, scene: &mut Scene, clock: &mut Clock, e: &Value) -> Option<i64>
    requires room { clock.old.spent ≤ scope.now.limit }
    ensures does { Does number scope.now (valued (value_of e.now)) clock.old scene.old result clock.new scene.new }
    ensures here { StaysHere (quick (value_of e.now)) result clock.new.why }
    ensures spends { Spends clock.old.spent clock.new.spent scope.now.limit }
    ensures takes { IfSome result (λ _. clock.old.spent < clock.new.spent) }
{
    match e {
        Value::Constant(ty, v) => constant(scope, scene, clock, *ty, *v),
        Value::Read(ty, a) => read(scope, scene, clock, *ty, a),
        Value::Assigned(_, _, _, _) => value(scope, scene, clock, e),
        Value::Compound(_, _, _, _, _, _) => value(scope, scene, clock, e),
        Value::Stepped(_, _, _, _, _, _) => value(scope, scene, clock, e),
        Value::Unary(_, _, _, _) => value(scope, scene, clock, e),
        Value::Binary(_, _, _, _, _) => value(scope, scene, clock, e),
        Value::BothTrue(_, _) => value(scope, scene, clock, e),
        Value::OneTrue(_, _) => value(scope, scene, clock, e),
        Value::Chosen(_, _, _, _) => value(scope, scene, clock, e),
        Value::Sequence(_, _) => value(scope, scene, clock, e),
        Value::Cast(_, _) => value(scope, scene, clock, e),
        Value::Discarded(_) => value(scope, scene, clock, e),
        Value::Call(_, _, _, _, _) => value(scope, scene, clock, e),
    }
}

#[inline(always)]
fn constant(scope: &Scope<'_>, scene: &Scene, clock: &mut Clock, ty: IntType, v: i64) -> Option<i64>
    requires room { clock.old.spent ≤ scope.now.limit }
    ensures does { Does number scope.now (valued (typed.constant ty v)) clock.old scene.now result clock.new scene.now }
    ensures here { StaysHere true result clock.new.why }
    ensures spends { Spends clock.old.spent clock.new.spent scope.now.limit }
    ensures takes { IfSome result (λ _. clock.old.spent < clock.new.spent) }
{
    if !clock.tick(scope.limit) {
        return None;
    }
    Some(v)
}

/// The value of an element (6.3.2.1p2).
#[cycle(evaluate)]
#[inline(always)]
fn read(
    scope: &Scope<'_>,
    scene: &mut Scene,
    clock: &mut Clock,
    ty: IntType,
    a: &Place,
) -> Option<i64>
    requires room { clock.old.spent ≤ scope.now.limit }
    ensures does { Does number scope.now (valued (typed.read ty (place_of a.now))) clock.old scene.old result clock.new scene.new }
    ensures here { StaysHere (quick_place (place_of a.now)) result clock.new.why }
    ensures spends { Spends clock.old.spent clock.new.spent scope.now.limit }
    ensures takes { IfSome result (λ _. clock.old.spent < clock.new.spent) }
{
    match whole_object(scope, scene, a) {
        Some(n) => read_object(scope, scene, clock, position_of(a), n),
        None => read_part(scope, scene, clock, ty, a),
    }
}

/// The value of an element that is no whole object.
#[cycle(evaluate)]
#[inline(never)]
fn read_part(
    scope: &Scope<'_>,
    scene: &mut Scene,
    clock: &mut Clock,
    ty: IntType,
    a: &Place,
) -> Option<i64>
    requires room { clock.old.spent ≤ scope.now.limit }
    ensures does { Does number scope.now (valued (typed.read ty (place_of a.now))) clock.old scene.old result clock.new scene.new }
    ensures here { StaysHere (quick_place (place_of a.now)) result clock.new.why }
    ensures spends { Spends clock.old.spent clock.new.spent scope.now.limit }
    ensures takes { IfSome result (λ _. clock.old.spent < clock.new.spent) }
{
    match a {
        Place::Named(_, _) => read_found(scope, scene, clock, ty, a),
        Place::Element(at, array, index) => element_read(scope, scene, clock, ty, at, array, index),
    }
}

/// The value of the element at a reference.
#[cycle(evaluate)]
#[inline(never)]
fn read_found(
    scope: &Scope<'_>,
    scene: &mut Scene,
    clock: &mut Clock,
    ty: IntType,
    a: &Place,
) -> Option<i64>
    requires room { clock.old.spent ≤ scope.now.limit }
    ensures does { Does number scope.now (valued (typed.read ty (place_of a.now))) clock.old scene.old result clock.new scene.new }
    ensures here { StaysHere (quick_place (place_of a.now)) result clock.new.why }
    ensures spends { Spends clock.old.spent clock.new.spent scope.now.limit }
    ensures takes { IfSome result (λ _. clock.old.spent < clock.new.spent) }
{
    let Some(r) = place(scope, scene, clock, a) else {
        return None;
    };
    clock.given(scene.read(position_of(a), &r))
}

/// The value of an element of an array (6.5.2.1).
#[cycle(evaluate)]
#[inline(always)]
fn element_read(
    scope: &Scope<'_>,
    scene: &mut Scene,
    clock: &mut Clock,
    ty: IntType,
    at: &Pos,
    array: &Place,
    index: &Value,
) -> Option<i64>
    requires room { clock.old.spent ≤ scope.now.limit }
    ensures does { Does number scope.now (valued (typed.read ty (typed.element at.now (place_of array.now) (value_of index.now)))) clock.old scene.old result clock.new scene.new }
    ensures here { StaysHere (quick_place (place_of array.now) && quick (value_of index.now)) result clock.new.why }
    ensures spends { Spends clock.old.spent clock.new.spent scope.now.limit }
    ensures takes { IfSome result (λ _. clock.old.spent < clock.new.spent) }
{
    if !clock.tick(scope.limit) {
        return None;
    }
    match whole_object(scope, scene, array) {
        Some(n) => element_of(scope, scene, clock, at, n, index),
        None => row_read(scope, scene, clock, at, array, index),
    }
}

/// The value of an element of the array that is object `n`.
#[cycle(evaluate)]
#[inline(always)]
fn element_of(
    scope: &Scope<'_>,
    scene: &mut Scene,
    clock: &mut Clock,
    at: &Pos,
    n: usize,
    index: &Value,
) -> Option<i64>
    requires room { clock.old.spent ≤ scope.now.limit }
    ensures does { Does number scope.now (λ p s. tick s (λ s. then_do (valued (value_of index.now) p s) (λ v s. then_do (subscripted at.now (whole n) v s) (λ r s. read at.now r s))))
        clock.old scene.old result clock.new scene.new }
    ensures here { StaysHere (quick (value_of index.now)) result clock.new.why }
    ensures spends { Spends clock.old.spent clock.new.spent scope.now.limit }
{
    if !clock.tick(scope.limit) {
        return None;
    }
    let Some(v) = operand(scope, scene, clock, index) else {
        return None;
    };
    clock.given(read_element(scope.alloc, scene, *at, n, v))
}

/// The value of an element of a row.
#[cycle(evaluate)]
#[inline(never)]
fn row_read(
    scope: &Scope<'_>,
    scene: &mut Scene,
    clock: &mut Clock,
    at: &Pos,
    array: &Place,
    index: &Value,
) -> Option<i64>
    requires room { clock.old.spent ≤ scope.now.limit }
    ensures does { Does number scope.now (λ p s. then_do (found (place_of array.now) p s) (λ r s. then_do (valued (value_of index.now) p s) (λ v s.
        then_do (subscripted at.now r v s) (λ r s. read at.now r s)))) clock.old scene.old result clock.new scene.new }
    ensures here { StaysHere (quick_place (place_of array.now) && quick (value_of index.now)) result clock.new.why }
    ensures spends { Spends clock.old.spent clock.new.spent scope.now.limit }
{
    let Some(r) = place(scope, scene, clock, array) else {
        return None;
    };
    let Some(v) = value(scope, scene, clock, index) else {
        return None;
    };
    clock.given(read_at(scope.alloc, scene, *at, r, v))
}

/// Assignment (6.5.16.1).
#[cycle(evaluate)]
#[inline(always)]
fn assigned(
    scope: &Scope<'_>,
    scene: &mut Scene,
    clock: &mut Clock,
    at: &Pos,
    ty: IntType,
    a: &Place,
    e: &Value,
) -> Option<i64>
    requires room { clock.old.spent ≤ scope.now.limit }
    ensures does { Does number scope.now (valued (typed.assigned at.now ty (place_of a.now) (value_of e.now))) clock.old scene.old result clock.new scene.new }
    ensures here { StaysHere (quick_place (place_of a.now) && quick (value_of e.now)) result clock.new.why }
    ensures spends { Spends clock.old.spent clock.new.spent scope.now.limit }
    ensures takes { IfSome result (λ _. clock.old.spent < clock.new.spent) }
{
    if !clock.tick(scope.limit) {
        return None;
    }
    match whole_object(scope, scene, a) {
        Some(n) => object_assigned(scope, scene, clock, at, ty, n, e),
        None => part_assigned(scope, scene, clock, at, ty, a, e),
    }
}

/// Assignment to object `n`.
#[cycle(evaluate)]
#[inline(always)]
fn object_assigned(
    scope: &Scope<'_>,
    scene: &mut Scene,
    clock: &mut Clock,
    at: &Pos,
    ty: IntType,
    n: usize,
    e: &Value,
) -> Option<i64>
    requires room { clock.old.spent ≤ scope.now.limit }
    ensures does { Does number scope.now (λ p s. tick s (λ s. then_do (valued (value_of e.now) p s) (λ v s. write p at.now (whole n) (converted ty v) s)))
        clock.old scene.old result clock.new scene.new }
    ensures here { StaysHere (quick (value_of e.now)) result clock.new.why }
    ensures spends { Spends clock.old.spent clock.new.spent scope.now.limit }
{
    if !clock.tick(scope.limit) {
        return None;
    }
    let Some(v) = operand(scope, scene, clock, e) else {
        return None;
    };
    clock.given(scene.write(scope.program, *at, &Reference::whole(n), ty, v))
}

/// Assignment to a place that is no whole object.
#[cycle(evaluate)]
#[inline(never)]
fn part_assigned(
    scope: &Scope<'_>,
    scene: &mut Scene,
    clock: &mut Clock,
    at: &Pos,
    ty: IntType,
    a: &Place,
    e: &Value,
) -> Option<i64>
    requires room { clock.old.spent ≤ scope.now.limit }
    ensures does { Does number scope.now (λ p s. then_do (found (place_of a.now) p s) (λ r s. then_do (valued (value_of e.now) p s) (λ v s. write p at.now r (converted ty v) s)))
        clock.old scene.old result clock.new scene.new }
    ensures here { StaysHere (quick_place (place_of a.now) && quick (value_of e.now)) result clock.new.why }
    ensures spends { Spends clock.old.spent clock.new.spent scope.now.limit }
{
    let Some(r) = place(scope, scene, clock, a) else {
        return None;
    };
    let Some(v) = value(scope, scene, clock, e) else {
        return None;
    };
    clock.given(scene.write(scope.program, *at, &r, ty, v))
}

/// A compound assignment (6.5.16.2).
#[cycle(evaluate)]
fn compound(
    scope: &Scope<'_>,
    scene: &mut Scene,
    clock: &mut Clock,
    c: &Compound,
    a: &Place,
    e: &Value,
) -> Option<i64>
    requires room { clock.old.spent ≤ scope.now.limit }
    ensures does { c.now.read_at ≡ meaning.position_of (place_of a.now) →
        Does number scope.now (valued (typed.compound c.now.at c.now.op c.now.ty c.now.of (place_of a.now) (value_of e.now))) clock.old scene.old result clock.new scene.new }
    ensures here { StaysHere (quick_place (place_of a.now) && quick (value_of e.now)) result clock.new.why }
    ensures spends { Spends clock.old.spent clock.new.spent scope.now.limit }
    ensures takes { IfSome result (λ _. clock.old.spent < clock.new.spent) }
{
    if !clock.tick(scope.limit) {
        return None;
    }
    match whole_object(scope, scene, a) {
        Some(n) => object_combined(scope, scene, clock, c, n, e),
        None => part_combined(scope, scene, clock, c, a, e),
    }
}

/// `++` and `--` (6.5.2.4, 6.5.3.1).
#[cycle(evaluate)]
fn stepped(
    scope: &Scope<'_>,
    scene: &mut Scene,
    clock: &mut Clock,
    c: &Stepping,
    a: &Place,
) -> Option<i64>
    requires room { clock.old.spent ≤ scope.now.limit }
    ensures does { c.now.read_at ≡ meaning.position_of (place_of a.now) →
        Does number scope.now (valued (typed.stepped c.now.at (moment_of c.now.moment) c.now.op c.now.ty c.now.of (place_of a.now))) clock.old scene.old result clock.new scene.new }
    ensures here { StaysHere (quick_place (place_of a.now)) result clock.new.why }
    ensures spends { Spends clock.old.spent clock.new.spent scope.now.limit }
    ensures takes { IfSome result (λ _. clock.old.spent < clock.new.spent) }
{
    if !clock.tick(scope.limit) {
        return None;
    }
    match whole_object(scope, scene, a) {
        Some(n) => object_stepped(scope, scene, clock, c, n),
        None => part_stepped(scope, scene, clock, c, a),
    }
}

/// A compound assignment to object `n`.
#[cycle(evaluate)]
fn object_combined(
    scope: &Scope<'_>,
    scene: &mut Scene,
    clock: &mut Clock,
    c: &Compound,
    n: usize,
    e: &Value,
) -> Option<i64>
    requires room { clock.old.spent ≤ scope.now.limit }
    ensures does { Does number scope.now (λ p s. tick s (λ s. then_do (valued (value_of e.now) p s) (λ v s. combined p c.now (whole n) v s))) clock.old scene.old result clock.new scene.new }
    ensures here { StaysHere (quick (value_of e.now)) result clock.new.why }
    ensures spends { Spends clock.old.spent clock.new.spent scope.now.limit }
{
    if !clock.tick(scope.limit) {
        return None;
    }
    let Some(v) = operand(scope, scene, clock, e) else {
        return None;
    };
    clock.given(scene.combine(scope.program, *c, &Reference::whole(n), v))
}

/// A compound assignment to a place that is no whole object.
#[cycle(evaluate)]
#[inline(never)]
fn part_combined(
    scope: &Scope<'_>,
    scene: &mut Scene,
    clock: &mut Clock,
    c: &Compound,
    a: &Place,
    e: &Value,
) -> Option<i64>
    requires room { clock.old.spent ≤ scope.now.limit }
    ensures does { Does number scope.now (λ p s. then_do (found (place_of a.now) p s) (λ r s. then_do (valued (value_of e.now) p s) (λ v s. combined p c.now r v s)))
        clock.old scene.old result clock.new scene.new }
    ensures here { StaysHere (quick_place (place_of a.now) && quick (value_of e.now)) result clock.new.why }
    ensures spends { Spends clock.old.spent clock.new.spent scope.now.limit }
{
    let Some(r) = place(scope, scene, clock, a) else {
        return None;
    };
    let Some(v) = value(scope, scene, clock, e) else {
        return None;
    };
    clock.given(scene.combine(scope.program, *c, &r, v))
}

/// `++` and `--` of a place that is no whole object.
#[cycle(evaluate)]
#[inline(never)]
fn part_stepped(
    scope: &Scope<'_>,
    scene: &mut Scene,
    clock: &mut Clock,
    c: &Stepping,
    a: &Place,
) -> Option<i64>
    requires room { clock.old.spent ≤ scope.now.limit }
    ensures does { Does number scope.now (λ p s. then_do (found (place_of a.now) p s) (λ r s. stepped p c.now r s)) clock.old scene.old result clock.new scene.new }
    ensures here { StaysHere (quick_place (place_of a.now)) result clock.new.why }
    ensures spends { Spends clock.old.spent clock.new.spent scope.now.limit }
{
    let Some(r) = place(scope, scene, clock, a) else {
        return None;
    };
    clock.given(scene.step(scope.program, *c, &r))
}

/// A sign (6.5.3.3).
#[cycle(evaluate)]
fn unary(
    scope: &Scope<'_>,
    scene: &mut Scene,
    clock: &mut Clock,
    at: &Pos,
    op: PrefixOp,
    ty: IntType,
    e: &Value,
) -> Option<i64>
    requires room { clock.old.spent ≤ scope.now.limit }
    ensures does { Does number scope.now (valued (typed.unary at.now op ty (value_of e.now))) clock.old scene.old result clock.new scene.new }
    ensures here { StaysHere (quick (value_of e.now)) result clock.new.why }
    ensures spends { Spends clock.old.spent clock.new.spent scope.now.limit }
    ensures takes { IfSome result (λ _. clock.old.spent < clock.new.spent) }
{
    if !clock.tick(scope.limit) {
        return None;
    }
    let Some(v) = value(scope, scene, clock, e) else {
        return None;
    };
    clock.given(sign_at(*at, op, ty, v))
}

/// A binary operator (6.5.5 to 6.5.12).
#[cycle(evaluate)]
#[inline(always)]
fn binary(
    scope: &Scope<'_>,
    scene: &mut Scene,
    clock: &mut Clock,
    at: &Pos,
    op: BinOp,
    ty: IntType,
    a: &Value,
    b: &Value,
) -> Option<i64>
    requires room { clock.old.spent ≤ scope.now.limit }
    ensures does { Does number scope.now (valued (typed.binary at.now op ty (value_of a.now) (value_of b.now))) clock.old scene.old result clock.new scene.new }
    ensures here { StaysHere (quick (value_of a.now) && quick (value_of b.now)) result clock.new.why }
    ensures spends { Spends clock.old.spent clock.new.spent scope.now.limit }
    ensures takes { IfSome result (λ _. clock.old.spent < clock.new.spent) }
{
    if !clock.tick(scope.limit) {
        return None;
    }
    let Some(v) = operand(scope, scene, clock, a) else {
        return None;
    };
    let Some(w) = operand(scope, scene, clock, b) else {
        return None;
    };
    clock.given(operated_at(*at, op, ty, v, w))
}

/// `&&` (6.5.13).
#[cycle(evaluate)]
fn both_true(
    scope: &Scope<'_>,
    scene: &mut Scene,
    clock: &mut Clock,
    a: &Value,
    b: &Value,
) -> Option<i64>
    requires room { clock.old.spent ≤ scope.now.limit }
    ensures does { Does number scope.now (valued (typed.both_true (value_of a.now) (value_of b.now))) clock.old scene.old result clock.new scene.new }
    ensures here { StaysHere (quick (value_of a.now) && quick (value_of b.now)) result clock.new.why }
    ensures spends { Spends clock.old.spent clock.new.spent scope.now.limit }
    ensures takes { IfSome result (λ _. clock.old.spent < clock.new.spent) }
{
    if !clock.tick(scope.limit) {
        return None;
    }
    let Some(v) = value(scope, scene, clock, a) else {
        return None;
    };
    if is_true(v) {
        truth_of(scope, scene, clock, b)
    } else {
        Some(0)
    }
}

/// `||` (6.5.14).
#[cycle(evaluate)]
fn one_true(
    scope: &Scope<'_>,
    scene: &mut Scene,
    clock: &mut Clock,
    a: &Value,
    b: &Value,
) -> Option<i64>
    requires room { clock.old.spent ≤ scope.now.limit }
    ensures does { Does number scope.now (valued (typed.one_true (value_of a.now) (value_of b.now))) clock.old scene.old result clock.new scene.new }
    ensures here { StaysHere (quick (value_of a.now) && quick (value_of b.now)) result clock.new.why }
    ensures spends { Spends clock.old.spent clock.new.spent scope.now.limit }
    ensures takes { IfSome result (λ _. clock.old.spent < clock.new.spent) }
{
    if !clock.tick(scope.limit) {
        return None;
    }
    let Some(v) = value(scope, scene, clock, a) else {
        return None;
    };
    if is_true(v) {
        Some(1)
    } else {
        truth_of(scope, scene, clock, b)
    }
}

/// Whether an operand counts as true.
#[cycle(evaluate)]
fn truth_of(scope: &Scope<'_>, scene: &mut Scene, clock: &mut Clock, b: &Value) -> Option<i64>
    requires room { clock.old.spent ≤ scope.now.limit }
    ensures does { Does number scope.now (λ p s. then_do (valued (value_of b.now) p s) (λ w s. Goes (of_truth (truth w)) s)) clock.old scene.old result clock.new scene.new }
    ensures here { StaysHere (quick (value_of b.now)) result clock.new.why }
    ensures spends { Spends clock.old.spent clock.new.spent scope.now.limit }
{
    let Some(w) = value(scope, scene, clock, b) else {
        return None;
    };
    Some(of_truth(is_true(w)))
}

/// `?:` (6.5.15).
#[cycle(evaluate)]
fn chosen(
    scope: &Scope<'_>,
    scene: &mut Scene,
    clock: &mut Clock,
    ty: Option<IntType>,
    c: &Value,
    a: &Value,
    b: &Value,
) -> Option<i64>
    requires room { clock.old.spent ≤ scope.now.limit }
    ensures does { Does number scope.now (valued (typed.chosen ty (value_of c.now) (value_of a.now) (value_of b.now))) clock.old scene.old result clock.new scene.new }
    ensures here { StaysHere (quick (value_of c.now) && quick (value_of a.now) && quick (value_of b.now)) result clock.new.why }
    ensures spends { Spends clock.old.spent clock.new.spent scope.now.limit }
    ensures takes { IfSome result (λ _. clock.old.spent < clock.new.spent) }
{
    if !clock.tick(scope.limit) {
        return None;
    }
    let Some(v) = value(scope, scene, clock, c) else {
        return None;
    };
    if is_true(v) {
        conversion(scope, scene, clock, ty, a)
    } else {
        conversion(scope, scene, clock, ty, b)
    }
}

/// The value of an operand, converted to a type, if there is one.
#[cycle(evaluate)]
fn conversion(
    scope: &Scope<'_>,
    scene: &mut Scene,
    clock: &mut Clock,
    ty: Option<IntType>,
    e: &Value,
) -> Option<i64>
    requires room { clock.old.spent ≤ scope.now.limit }
    ensures does { Does number scope.now (λ p s. then_do (valued (value_of e.now) p s) (λ w s. Goes (meaning.converted_or_none ty w) s)) clock.old scene.old result clock.new scene.new }
    ensures here { StaysHere (quick (value_of e.now)) result clock.new.why }
    ensures spends { Spends clock.old.spent clock.new.spent scope.now.limit }
{
    let Some(v) = value(scope, scene, clock, e) else {
        return None;
    };
    Some(converted_or_none(ty, v))
}

/// The comma operator (6.5.17).
#[cycle(evaluate)]
fn sequence(
    scope: &Scope<'_>,
    scene: &mut Scene,
    clock: &mut Clock,
    a: &Value,
    b: &Value,
) -> Option<i64>
    requires room { clock.old.spent ≤ scope.now.limit }
    ensures does { Does number scope.now (valued (typed.sequence (value_of a.now) (value_of b.now))) clock.old scene.old result clock.new scene.new }
    ensures here { StaysHere (quick (value_of a.now) && quick (value_of b.now)) result clock.new.why }
    ensures spends { Spends clock.old.spent clock.new.spent scope.now.limit }
    ensures takes { IfSome result (λ _. clock.old.spent < clock.new.spent) }
{
    if !clock.tick(scope.limit) {
        return None;
    }
    let Some(_) = value(scope, scene, clock, a) else {
        return None;
    };
    value(scope, scene, clock, b)
}

/// A cast (6.5.4).
#[cycle(evaluate)]
fn cast(
    scope: &Scope<'_>,
    scene: &mut Scene,
    clock: &mut Clock,
    ty: IntType,
    e: &Value,
) -> Option<i64>
    requires room { clock.old.spent ≤ scope.now.limit }
    ensures does { Does number scope.now (valued (typed.cast ty (value_of e.now))) clock.old scene.old result clock.new scene.new }
    ensures here { StaysHere (quick (value_of e.now)) result clock.new.why }
    ensures spends { Spends clock.old.spent clock.new.spent scope.now.limit }
    ensures takes { IfSome result (λ _. clock.old.spent < clock.new.spent) }
{
    if !clock.tick(scope.limit) {
        return None;
    }
    conversion(scope, scene, clock, Some(ty), e)
}

/// A cast to `void` (6.3.2.2).
#[cycle(evaluate)]
fn discarded(scope: &Scope<'_>, scene: &mut Scene, clock: &mut Clock, e: &Value) -> Option<i64>
    requires room { clock.old.spent ≤ scope.now.limit }
    ensures does { Does number scope.now (valued (typed.discarded (value_of e.now))) clock.old scene.old result clock.new scene.new }
    ensures here { StaysHere (quick (value_of e.now)) result clock.new.why }
    ensures spends { Spends clock.old.spent clock.new.spent scope.now.limit }
    ensures takes { IfSome result (λ _. clock.old.spent < clock.new.spent) }
{
    if !clock.tick(scope.limit) {
        return None;
    }
    conversion(scope, scene, clock, None, e)
}
