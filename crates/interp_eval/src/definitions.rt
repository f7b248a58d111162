//! Definitions of automatic objects with an initialiser (6.7.9).

ghost use Rattle.std.specs.Prelude.{◌≡◌, ◌<◌, ◌≤◌, IfSome, None, slice_get};
ghost use Rattle.typing_spec.specs.Program as typed;
ghost use Rattle.typed_ast.specs.View.{initialiser_of};
ghost use Rattle.csem.specs.Statements as meaning;
ghost use Rattle.interp_store.specs.layer.Presents.{call_in};
ghost use Rattle.interp_store.specs.layer.Views.{flow_of};
ghost use Rattle.interp_eval.specs.declared.clock.Why.TheVariants as why;
ghost use Rattle.interp_eval.specs.layer.Comes.{Does, Spends, StaysHere, executed, objects_in};
ghost use Rattle.interp_eval.specs.layer.Quick.{quick_initialiser};

use crate::clock::{Clock, Scope, Why};
use crate::initialisers::{Elements, initialise};
use interp_steps::objects::type_of;
use interp_store::frames::Flow;
use interp_store::scene::Scene;
use typed_ast::Initialiser;

/// The host's memory ran out.
pub fn out_of_memory(clock: &mut Clock) -> Option<Flow>
    ensures none { result ≡ None }
    ensures why { clock.new.why ≡ why.Memory }
    ensures spent { clock.new.spent ≡ clock.old.spent }
{
    clock.why = Why::Memory;
    None
}

/// An automatic object that has just begun gets its first value (6.7.9).
fn initialised(
    scope: &Scope<'_>,
    scene: &mut Scene,
    clock: &mut Clock,
    n: usize,
    i: &Initialiser,
) -> Option<Flow>
    requires room { clock.old.spent ≤ scope.now.limit }
    ensures does { Does flow_of scope.now (λ p s. meaning.define_object p (call_in p) (objects_in scope.now) (slice_get (objects_in scope.now) n) n (initialiser_of i.now) s)
        clock.old scene.old result clock.new scene.new }
    ensures here { StaysHere (quick_initialiser (initialiser_of i.now)) result clock.new.why }
    ensures spends { Spends clock.old.spent clock.new.spent scope.now.limit }
{
    let Some(ty) = type_of(scope.objects, n) else {
        return Some(Flow::Normal);
    };
    let r = scene.own(n);
    let of = Elements {
        ty: ty.element,
        lengths: ty.lengths.as_slice(),
    };
    match initialise(scope, scene, clock, i, of, &r) {
        None => None,
        Some(()) => Some(Flow::Normal),
    }
}

/// A declarator with an initialiser (6.2.4p6, 6.7.9).
pub fn definition(
    scope: &Scope<'_>,
    scene: &mut Scene,
    clock: &mut Clock,
    n: usize,
    i: &Initialiser,
) -> Option<Flow>
    requires room { clock.old.spent ≤ scope.now.limit }
    ensures does { Does flow_of scope.now (executed (objects_in scope.now) (typed.define n (initialiser_of i.now))) clock.old scene.old result clock.new scene.new }
    ensures here { StaysHere (quick_initialiser (initialiser_of i.now)) result clock.new.why }
    ensures spends { Spends clock.old.spent clock.new.spent scope.now.limit }
    ensures takes { IfSome result (λ _. clock.old.spent < clock.new.spent) }
{
    if !clock.tick(scope.limit) {
        return None;
    }
    match scene.renew(scope.alloc, scope.objects, n) {
        Ok(()) => initialised(scope, scene, clock, n, i),
        Err(_) => out_of_memory(clock),
    }
}
