//! Nodes after their tick.

ghost use Rattle.std.specs.Prelude.{◌≡◌};
ghost use Rattle.interp_store.specs.layer.Agrees.{Takes};
ghost use Rattle.interp_store.specs.layer.Steps.{entered};
ghost use Rattle.interp_store.specs.layer.Views.{node_of};

use crate::elements::enter_element;
use crate::initialisers::{enter_initialiser, spend, spend_long};
use crate::statements::enter_statement;
use crate::switches::{enter_block, enter_case};
use interp_store::expressions::{enter_place, enter_value};
use interp_store::frames::{Node, Step};
use interp_store::machine::Machine;
use interp_store::stop::Stop;

/// A node, after its tick (6.5, 6.7.9, 6.8).
///
/// Errors: why there is no next step.
pub fn enter<'p>(machine: &mut Machine<'p>, node: Node<'p>) -> Result<Step<'p>, Stop>
    ensures takes { Takes (λ p s. entered p (node_of node.entry) s) machine.old result machine.new }
    ensures program { machine.new.program ≡ machine.old.program }
{
    match node {
        Node::Place(a) => enter_place(machine, a),
        Node::Value(e) => enter_value(machine, e),
        Node::Statement(objects, a) => enter_statement(machine, objects, a),
        Node::Initialiser(i, ty, lengths, r) => enter_initialiser(machine, i, ty, lengths, r),
        Node::Element(r, v) => enter_element(machine, r, v),
        Node::Ticking(more, late) => spend(machine, more, late),
        Node::TickingLong(digits, late) => spend_long(machine, digits, late),
        Node::SwitchBlock(v, block) => enter_block(machine, v, block),
        Node::CaseTest(t) => enter_case(machine, t),
    }
}
