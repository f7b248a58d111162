//! The part that takes the next tick, done as a whole where it calls nothing.

ghost use Rattle.std.specs.Prelude.{◌≡◌, ◌<◌, ◌≤◌, IfSome, None};
ghost use Rattle.typed_ast.specs.View.{program_of, statement_of, value_of};
ghost use Rattle.interp_store.specs.layer.Frames as on;
ghost use Rattle.interp_store.specs.layer.Presents.{call_in, given, presented};
ghost use Rattle.interp_store.specs.layer.Views.{found_of, node_of};
ghost use Rattle.interp_eval.specs.declared.clock.Why.TheVariants as why;
ghost use Rattle.interp_eval.specs.layer.Comes.{Does, DoesIn, Spends, StaysHere, executed, objects_in, valued};
ghost use Rattle.interp_eval.specs.layer.Quick.{quick, quick_node, quick_statement};

use crate::clock::{Clock, Scope, Why};
use crate::expressions::value;
use crate::statements::statement;
use interp_store::frames::{Found, Node};
use interp_store::scene::Scene;
use std::alloc::Global;
use typed_ast::{Program, Statement, Value};

/// An expression, with its value as found.
fn value_found(scope: &Scope<'_>, scene: &mut Scene, clock: &mut Clock, e: &Value) -> Option<Found>
    requires room { clock.old.spent ≤ scope.now.limit }
    ensures does { Does found_of scope.now (λ p s. given on.a_value (valued (value_of e.now) p s)) clock.old scene.old result clock.new scene.new }
    ensures here { StaysHere (quick (value_of e.now)) result clock.new.why }
    ensures spends { Spends clock.old.spent clock.new.spent scope.now.limit }
    ensures takes { IfSome result (λ _. clock.old.spent < clock.new.spent) }
{
    match value(scope, scene, clock, e) {
        None => None,
        Some(v) => Some(Found::Value(v)),
    }
}

/// A statement, with how it is left.
fn statement_found(
    scope: &Scope<'_>,
    scene: &mut Scene,
    clock: &mut Clock,
    a: &Statement,
) -> Option<Found>
    requires room { clock.old.spent ≤ scope.now.limit }
    ensures does { Does found_of scope.now (λ p s. given on.a_flow (executed (objects_in scope.now) (statement_of a.now) p s)) clock.old scene.old result clock.new scene.new }
    ensures here { StaysHere (quick_statement (statement_of a.now)) result clock.new.why }
    ensures spends { Spends clock.old.spent clock.new.spent scope.now.limit }
    ensures takes { IfSome result (λ _. clock.old.spent < clock.new.spent) }
{
    match statement(scope, scene, clock, a) {
        None => None,
        Some(flow) => Some(Found::Flow(flow)),
    }
}

/// A node that is not done here.
fn left_out(clock: &mut Clock) -> Option<Found>
    ensures none { result ≡ None }
    ensures why { clock.new.why ≡ why.Elsewhere }
    ensures spent { clock.new.spent ≡ clock.old.spent }
{
    clock.why = Why::Elsewhere;
    None
}

/// The part that takes the next tick, from its tick on.
pub fn done(
    alloc: Global,
    program: &Program,
    limit: u64,
    scene: &mut Scene,
    clock: &mut Clock,
    node: &Node<'_>,
) -> Option<Found>
    requires room { clock.old.spent ≤ limit }
    ensures does { DoesIn found_of limit (program_of program.now) (λ p s. presented p (call_in p) (node_of node.now) s) clock.old scene.old result clock.new scene.new }
    ensures here { StaysHere (quick_node (node_of node.now)) result clock.new.why }
    ensures spends { Spends clock.old.spent clock.new.spent limit }
    ensures takes { IfSome result (λ _. clock.old.spent < clock.new.spent) }
{
    match node {
        Node::Value(e) => {
            let scope = Scope {
                alloc,
                program,
                objects: &[],
                limit,
            };
            value_found(&scope, scene, clock, e)
        }
        Node::Place(_) => left_out(clock),
        Node::Statement(objects, a) => {
            let scope = Scope {
                alloc,
                program,
                objects,
                limit,
            };
            statement_found(&scope, scene, clock, a)
        }
        Node::Initialiser(_, _, _, _) => left_out(clock),
        Node::Element(_, _) => left_out(clock),
        Node::Ticking(_, _) => left_out(clock),
        Node::TickingLong(_, _) => left_out(clock),
        Node::SwitchBlock(_, _) => left_out(clock),
        Node::CaseTest(_) => left_out(clock),
    }
}
