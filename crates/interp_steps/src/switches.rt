//! `switch` (6.8.4.2).

ghost use Rattle.std.specs.Prelude.{◌≡◌, ◌+◌, ◌<◌, ◌^◌, None, length, map};
ghost use Rattle.typed_ast.specs.View.{object_type_of, statement_of, statements_of};
ghost use Rattle.csem.specs.Statements.{labels_of};
ghost use Rattle.interp_store.specs.layer.Agrees.{Takes};
ghost use Rattle.interp_store.specs.layer.Steps.{from_label, jumps, sought, entered};
ghost use Rattle.interp_store.specs.layer.Views.{node_of};
ghost use Rattle.interp_store.specs.declared.frames.Node.TheVariants as node;

use crate::labels::{Sought, find_label, seek};
use crate::objects::renew_all;
use crate::statements::left;
use interp_store::frames::{CaseTest, Flow, FlowFrame, Frame, Node, Step, SwitchBlock};
use interp_store::machine::Machine;
use interp_store::operators::same_value;
use interp_store::stop::Stop;
use typed_ast::{ObjectType, Statement};

/// The statements from a label on, or none.
///
/// Errors: memory ran out.
fn start_at<'p>(
    machine: &mut Machine<'p>,
    objects: &'p [ObjectType],
    label: Option<usize>,
    all: &'p Vec<Statement>,
) -> Result<Step<'p>, Stop>
    ensures takes { Takes (λ p s. from_label (map object_type_of objects.now) label (statements_of (map statement_of all.now.items)) s) machine.old result machine.new }
    ensures program { machine.new.program ≡ machine.old.program }
{
    match label {
        None => left(Flow::Normal),
        Some(label) => match find_label(label, all.as_slice()) {
            None => left(Flow::Normal),
            Some((a, more)) => machine.wait(
                Frame::Flow(FlowFrame::Rest(objects, more)),
                Node::Statement(objects, a),
            ),
        },
    }
}

/// A jump to a label (6.8.4.2p4).
///
/// Errors: memory ran out.
fn jump<'p>(
    machine: &mut Machine<'p>,
    objects: &'p [ObjectType],
    label: Option<usize>,
    all: &'p Vec<Statement>,
) -> Result<Step<'p>, Stop>
    ensures takes { Takes (λ p s. jumps (map object_type_of objects.now) label (statements_of (map statement_of all.now.items)) s) machine.old result machine.new }
    ensures program { machine.new.program ≡ machine.old.program }
{
    match machine.push(Frame::Flow(FlowFrame::InSwitch)) {
        Ok(()) => start_at(machine, objects, label, all),
        Err(stop) => Err(stop),
    }
}

/// The next case is tested, or the label that the value has is jumped to (6.8.4.2p5).
///
/// Errors: memory ran out.
fn go_on<'p>(
    machine: &mut Machine<'p>,
    objects: &'p [ObjectType],
    value: i64,
    more: &'p [Statement],
    number: usize,
    default: Option<usize>,
    all: &'p Vec<Statement>,
) -> Result<Step<'p>, Stop>
    requires room { number + length more.now < 2 ^ 64 }
    ensures takes { Takes (λ p s. sought (map object_type_of objects.now) value (labels_of (statements_of (map statement_of more.now))) number default
        (statements_of (map statement_of all.now.items)) s) machine.old result machine.new }
    ensures program { machine.new.program ≡ machine.old.program }
{
    match seek(more, number, default) {
        Sought::Test(case, more, number, default) => {
            let test = CaseTest {
                objects,
                value,
                case,
                more,
                number,
                default,
                all,
            };
            Ok(Step::Enters(Node::CaseTest(test)))
        }
        Sought::Jump(label) => jump(machine, objects, label, all),
    }
}

/// The block of a `switch`, after its tick (6.8.4.2, 6.2.4p6).
///
/// Errors: memory ran out.
pub fn enter_block<'p>(
    machine: &mut Machine<'p>,
    value: i64,
    block: SwitchBlock<'p>,
) -> Result<Step<'p>, Stop>
    ensures takes { Takes (λ p s. entered p (node_of (node.SwitchBlock value block.entry)) s) machine.old result machine.new }
    ensures program { machine.new.program ≡ machine.old.program }
{
    match renew_all(
        &mut machine.scene,
        machine.alloc,
        block.objects,
        block.first,
        block.count,
    ) {
        Ok(()) => go_on(
            machine,
            block.objects,
            value,
            block.all.as_slice(),
            0,
            None,
            block.all,
        ),
        Err(stop) => Err(stop),
    }
}

/// A case, after the tick of its test (6.8.4.2p5).
///
/// Errors: memory ran out.
pub fn enter_case<'p>(machine: &mut Machine<'p>, t: CaseTest<'p>) -> Result<Step<'p>, Stop>
    ensures takes { Takes (λ p s. entered p (node_of (node.CaseTest t.entry)) s) machine.old result machine.new }
    ensures program { machine.new.program ≡ machine.old.program }
{
    if same_value(t.case, t.value) {
        return jump(machine, t.objects, Some(t.number), t.all);
    }
    go_on(
        machine,
        t.objects,
        t.value,
        t.more,
        t.number + 1,
        t.default,
        t.all,
    )
}
