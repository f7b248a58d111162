//! Parts of the program without calls, each evaluated as a whole.

ghost use Rattle.std.specs.Prelude.{◌≡◌, ◌≢◌, ◌<◌, ◌+◌, ℕ, List, Option, None, true};
ghost use Rattle.csem.specs.History.{Entry};
ghost use Rattle.typing_spec.specs.Program as typed;
ghost use Rattle.interp_store.specs.layer.Frames as on;
ghost use Rattle.interp_store.specs.layer.Views.{node_of};
ghost use Rattle.interp_eval.specs.declared.clock.Why.TheVariants.{Elsewhere};
ghost use Rattle.interp_eval.specs.layer.Quick.{quick_node};
ghost use Rattle.io_ports.specs.Port.{PortView};
ghost use Rattle.cabs.specs.inside.Standing.{Grows, IsCalm, MeetsAt, Outset, Spends, Stands, Whole, stopped_for};

use crate::outcome::Run;
use crate::state::Interpreter;
use interp_eval::clock::{Clock, Why};
use interp_eval::parts::done;
use interp_store::frames::{Node, Step};

/// How the run stops inside a part that is evaluated on the spot.
pub fn stopped(why: Why) -> Run
    requires { why ≢ Elsewhere }
    ensures { result ≡ stopped_for why }
{
    match why {
        Why::Ticks => Run::TicksUsed,
        Why::Undefined(act, at) => Run::Undefined(act, at),
        Why::Memory => Run::Memory,
        Why::Elsewhere => unreachable!(),
    }
}

/// A node without calls, with all its ticks.
///
/// Errors: how the run stops in it.
pub fn at_once<'p>(
    interpreter: &mut Interpreter<'p>,
    node: &Node<'p>,
    spent: &mut u64,
    limit: u64,
) -> Result<Step<'p>, Run>
    requires quick { quick_node (node_of node.now) ≡ true }
    requires room { spent.old < limit }
    ensures meets { (h : List Entry) (p : typed.Program) (all : Whole) (o : Outset) (port : PortView) → Grows all →
        Stands (λ g. g ≡ h) p (λ n. all (n + spent.old)) o interpreter.old (on.enters (node_of node.now)) port → interpreter.old.kept ≡ None →
        MeetsAt (λ g. g ≡ h) p all o limit result spent.new interpreter.new port }
    ensures spends { Spends result spent.old spent.new limit }
    ensures calm { IsCalm result }
{
    let alloc = interpreter.machine.alloc;
    let program = interpreter.machine.program;
    let mut clock = Clock {
        spent: *spent,
        why: Why::Ticks,
    };
    let found = done(
        alloc,
        program,
        limit,
        &mut interpreter.machine.scene,
        &mut clock,
        node,
    );
    *spent = clock.spent;
    match found {
        Some(found) => Ok(Step::Leaves(found)),
        None => Err(stopped(clock.why)),
    }
}
