//! The beginning of a call (6.5.2.2, 6.9.1).

ghost use Rattle.std.specs.Prelude.{◌≡◌, ◌++◌, ◌∷◌, [], IfErr, IfOk, OnOk, Some, drop, length, map, slice_get};
ghost use Rattle.typed_ast.specs.View.{function_of, object_type_of};
ghost use Rattle.csem.specs.History.{Entered};
ghost use Rattle.csem.specs.Store.{indeterminate};
ghost use Rattle.csem.specs.Meaning as meaning;
ghost use Rattle.interp_store.specs.View.{reference_of, store_of};
ghost use Rattle.interp_store.specs.layer.Agrees.{Outside, state_in};
ghost use Rattle.interp_store.specs.layer.Steps.{entered_call};
ghost use Rattle.interp_store.specs.layer.Views.{back_of, passed_of};
ghost use Rattle.interp_store.specs.declared.stop.Stop.TheVariants.{Memory};
ghost use Rattle.interp_transitions.specs.Acts.{Acts};

use crate::returning::go_back;
use interp_store::frames::{Back, FlowFrame, Frame, Late, Node, Passed, Return, Step};
use interp_store::machine::Machine;
use interp_store::scene::Scene;
use interp_store::stop::Stop;
use interp_store::{Reference, Store, Tree};
use std::alloc::Global;
use std::mem;
use typed_ast::{Function, ObjectType};

/// A number that is passed is an object with that value (6.9.1p9, p10).
///
/// Errors: memory ran out.
fn push_number(store: &mut Store, passed: &Passed) -> Result<(), Stop>
    ensures ok { OnOk result (store_of store.new ≡ store_of store.old ++ meaning.numbers_of (passed_of passed.now ∷ [])) }
    ensures err { IfErr result (λ e. e ≡ Memory) }
{
    match passed {
        Passed::Number(v) => match store.push(Tree::Element(Some(*v))) {
            Ok(()) => Ok(()),
            Err(_) => Err(Stop::Memory),
        },
        Passed::Referred(_) => Ok(()),
    }
}

/// The numbers that are passed are the first objects of a call.
///
/// Errors: memory ran out.
fn push_numbers(store: &mut Store, passed: &[Passed]) -> Result<(), Stop>
    ensures ok { OnOk result (store_of store.new ≡ store_of store.old ++ meaning.numbers_of (map passed_of passed.now)) }
    ensures err { IfErr result (λ e. e ≡ Memory) }
{
    let mut rest = passed;
    while let Some((one, more)) = rest.split_first() {
        match push_number(store, one) {
            Ok(()) => {}
            Err(stop) => return Err(stop),
        }
        rest = more;
    }
    Ok(())
}

/// One more object, indeterminate (6.2.4p6).
///
/// Errors: memory ran out.
fn push_object(store: &mut Store, alloc: Global, ty: &ObjectType) -> Result<(), Stop>
    ensures ok { OnOk result (store_of store.new ≡ store_of store.old ++ indeterminate (object_type_of ty.now) ∷ []) }
    ensures err { IfErr result (λ e. e ≡ Memory) }
{
    match Tree::indeterminate(alloc, ty.lengths.as_slice()) {
        Ok(object) => match store.push(object) {
            Ok(()) => Ok(()),
            Err(_) => Err(Stop::Memory),
        },
        Err(_) => Err(Stop::Memory),
    }
}

/// Objects of these types, indeterminate (6.2.4p6).
///
/// Errors: memory ran out.
fn push_objects(store: &mut Store, alloc: Global, types: &[ObjectType]) -> Result<(), Stop>
    ensures ok { OnOk result (store_of store.new ≡ store_of store.old ++ map indeterminate (map object_type_of types.now)) }
    ensures err { IfErr result (λ e. e ≡ Memory) }
{
    let mut rest = types;
    while let Some((ty, more)) = rest.split_first() {
        match push_object(store, alloc, ty) {
            Ok(()) => {}
            Err(stop) => return Err(stop),
        }
        rest = more;
    }
    Ok(())
}

/// The types after the first `count`.
fn behind<'p>(types: &'p [ObjectType], count: usize) -> &'p [ObjectType]
    ensures { result.now ≡ drop count types.now }
{
    match types.get(count..) {
        None => &[],
        Some(rest) => rest,
    }
}

/// The objects of a call (6.9.1p9, p10): the numbers that are passed, then the others.
///
/// Errors: memory ran out.
fn new_objects(
    store: &mut Store,
    alloc: Global,
    types: &[ObjectType],
    passed: &[Passed],
) -> Result<(), Stop>
    ensures ok { OnOk result (store_of store.new ≡ store_of store.old ++ meaning.objects_of (map object_type_of types.now) (map passed_of passed.now)) }
    ensures err { IfErr result (λ e. e ≡ Memory) }
{
    let before = store.len();
    match push_numbers(store, passed) {
        Ok(()) => {}
        Err(stop) => return Err(stop),
    }
    let numbers = store.len().saturating_sub(before);
    match push_objects(store, alloc, behind(types, numbers)) {
        Ok(()) => Ok(()),
        Err(stop) => Err(stop),
    }
}

/// An array that is passed, if this is one.
///
/// Errors: memory ran out.
fn push_array(arrays: &mut Vec<Reference>, alloc: Global, passed: &Passed) -> Result<(), Stop>
    ensures ok { OnOk result (map reference_of arrays.new.items ≡ map reference_of arrays.old.items ++ meaning.arrays_of (passed_of passed.now ∷ [])) }
    ensures err { IfErr result (λ e. e ≡ Memory) }
{
    match passed {
        Passed::Number(_) => Ok(()),
        Passed::Referred(r) => match r.copied(alloc) {
            Ok(same) => match arrays.push(same) {
                Ok(()) => Ok(()),
                Err(_) => Err(Stop::Memory),
            },
            Err(stop) => Err(stop),
        },
    }
}

/// The arrays that array parameters refer to (6.9.1p10).
///
/// Errors: memory ran out.
fn arrays_of(alloc: Global, passed: &[Passed]) -> Result<Vec<Reference>, Stop>
    ensures ok { IfOk result (λ arrays. map reference_of arrays.items ≡ meaning.arrays_of (map passed_of passed.now)) }
    ensures err { IfErr result (λ e. e ≡ Memory) }
{
    let mut arrays = Vec::new(alloc);
    let mut rest = passed;
    while let Some((one, more)) = rest.split_first() {
        match push_array(&mut arrays, alloc, one) {
            Ok(()) => {}
            Err(stop) => return Err(stop),
        }
        rest = more;
    }
    Ok(arrays)
}

/// The state of a caller: the number of its objects' first one, how many objects lived, and its arrays.
#[derive(Drop)]
pub struct Caller {
    pub count: usize,
    pub base: usize,
    pub arrays: Vec<Reference>,
}

/// The objects of a call begin, and its parameters are these (6.9.1p9, p10).
///
/// Errors: memory ran out.
fn set_scene(
    scene: &mut Scene,
    alloc: Global,
    types: &[ObjectType],
    passed: &[Passed],
) -> Result<Caller, Stop>
    ensures store { IfOk result (λ _. store_of scene.new.store ≡ store_of scene.old.store ++ meaning.objects_of (map object_type_of types.now) (map passed_of passed.now)) }
    ensures base { IfOk result (λ _. scene.new.base ≡ length (store_of scene.old.store)) }
    ensures arrays { IfOk result (λ _. map reference_of scene.new.arrays.items ≡ meaning.arrays_of (map passed_of passed.now)) }
    ensures caller { IfOk result (λ caller. (caller.count ≡ length (store_of scene.old.store)) × (caller.base ≡ scene.old.base) × (caller.arrays ≡ scene.old.arrays)) }
    ensures err { IfErr result (λ e. e ≡ Memory) }
{
    let count = scene.store.len();
    let arrays = match arrays_of(alloc, passed) {
        Ok(arrays) => arrays,
        Err(stop) => return Err(stop),
    };
    match new_objects(&mut scene.store, alloc, types, passed) {
        Ok(()) => {}
        Err(stop) => return Err(stop),
    }
    let base = mem::replace(&mut scene.base, count);
    let arrays = mem::replace(&mut scene.arrays, arrays);
    Ok(Caller {
        count,
        base,
        arrays,
    })
}

/// A function's definition is entered: the call waits for its body, which a tick for each parameter comes before.
///
/// Errors: memory ran out.
fn begin<'p>(
    machine: &mut Machine<'p>,
    back: Back,
    f: usize,
    g: &'p Function,
    passed: &[Passed],
) -> Result<Step<'p>, Stop>
    ensures acts { Acts (λ p s. entered_call p (back_of back) (Some (function_of g.now)) f (map passed_of passed.now) s) machine.old result machine.new }
    ensures program { machine.new.program ≡ machine.old.program }
{
    let is_main = f == machine.program.main;
    let caller = match set_scene(
        &mut machine.scene,
        machine.alloc,
        g.objects.as_slice(),
        passed,
    ) {
        Ok(caller) => caller,
        Err(stop) => return Err(stop),
    };
    let frame = FlowFrame::Returns(Return {
        back,
        is_main,
        count: caller.count,
        base: caller.base,
        arrays: caller.arrays,
    });
    let late = Late::EntersBody(g.objects.as_slice(), &g.body);
    machine.wait(
        Frame::Flow(frame),
        Node::Ticking(g.function_type.parameters.len(), late),
    )
}

/// A call of function `f` with these arguments, which goes back to this (6.5.2.2).
///
/// Errors: memory ran out.
pub fn call_function<'p>(
    machine: &mut Machine<'p>,
    back: Back,
    f: usize,
    passed: &[Passed],
) -> Result<Step<'p>, Stop>
    ensures acts { Acts (λ p s. entered_call p (back_of back) (slice_get p.functions f) f (map passed_of passed.now) s) machine.old result machine.new }
    ensures program { machine.new.program ≡ machine.old.program }
{
    let program = machine.program;
    match program.functions.get(f) {
        None => go_back(back, None),
        Some(g) => begin(machine, back, f, g, passed),
    }
}
