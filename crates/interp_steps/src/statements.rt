//! Statements after their tick (6.8).

ghost use Rattle.std.specs.Prelude.{◌≡◌, Ok, map, option_map, slice_get};
ghost use Rattle.typed_ast.specs.View.{object_type_of, initialiser_of, statement_of, statements_of, value_of};
ghost use Rattle.csem.specs.Statements.{Normal, renewed, all_renewed};
ghost use Rattle.interp_store.specs.layer.Agrees.{Takes};
ghost use Rattle.interp_store.specs.layer.Frames as on;
ghost use Rattle.interp_store.specs.layer.Steps.{goes, waits, behind, started, defines, entered_statement};
ghost use Rattle.interp_store.specs.layer.Views.{flow_frame};
ghost use Rattle.interp_store.specs.declared.frames.FlowFrame.TheVariants as flows;
ghost use Rattle.interp_store.specs.declared.frames.Step.TheVariants as step;
ghost use Rattle.interp_store.specs.declared.frames.Found.TheVariants as found;

use crate::loops::{control, look, turn};
use crate::objects::{renew_all, type_of};
use interp_store::frames::{
    ControlFrame, Flow, FlowFrame, Found, Frame, InitialiserFrame, Loop, Node, Step, SwitchBlock,
};
use interp_store::machine::Machine;
use interp_store::stop::Stop;
use typed_ast::{Initialiser, ObjectType, Statement, Value};

/// A statement is left in this way, without further steps.
#[inline(always)]
pub fn left<'p>(flow: Flow) -> Result<Step<'p>, Stop>
    ensures { result ≡ Ok (step.Leaves (found.Flow flow)) }
{
    Ok(Step::Leaves(Found::Flow(flow)))
}

/// The statements of a block one after the other (6.8.2).
///
/// Errors: memory ran out.
pub fn start<'p>(
    machine: &mut Machine<'p>,
    objects: &'p [ObjectType],
    all: &'p [Statement],
) -> Result<Step<'p>, Stop>
    ensures takes { Takes (λ p s. started (map object_type_of objects.now) (statements_of (map statement_of all.now)) s) machine.old result machine.new }
    ensures program { machine.new.program ≡ machine.old.program }
{
    match all.split_first() {
        None => left(Flow::Normal),
        Some((a, more)) => machine.wait(
            Frame::Flow(FlowFrame::Rest(objects, more)),
            Node::Statement(objects, a),
        ),
    }
}

/// A declarator (6.2.4p6, 6.8p3).
///
/// Errors: memory ran out.
fn declare<'p>(
    machine: &mut Machine<'p>,
    objects: &'p [ObjectType],
    n: usize,
) -> Result<Step<'p>, Stop>
    ensures takes { Takes (λ p s. goes (on.a_flow Normal) (renewed (map object_type_of objects.now) n s)) machine.old result machine.new }
    ensures program { machine.new.program ≡ machine.old.program }
{
    match machine.scene.renew(machine.alloc, objects, n) {
        Ok(()) => left(Flow::Normal),
        Err(stop) => Err(stop),
    }
}

/// A block: its objects become indeterminate (6.8.2, 6.2.4p6).
///
/// Errors: memory ran out.
fn open_block<'p>(
    machine: &mut Machine<'p>,
    objects: &'p [ObjectType],
    first: usize,
    count: usize,
    all: &'p [Statement],
) -> Result<Step<'p>, Stop>
    ensures takes { Takes (λ p s. started (map object_type_of objects.now) (statements_of (map statement_of all.now))
        (all_renewed (map object_type_of objects.now) first count s)) machine.old result machine.new }
    ensures program { machine.new.program ≡ machine.old.program }
{
    match renew_all(&mut machine.scene, machine.alloc, objects, first, count) {
        Ok(()) => start(machine, objects, all),
        Err(stop) => Err(stop),
    }
}

/// The declarations of a `for`, and then its first expression (6.8.5.3).
///
/// Errors: memory ran out.
fn start_for<'p>(
    machine: &mut Machine<'p>,
    declared: &'p [Statement],
    start_with: Option<&'p Value>,
    l: Loop<'p>,
) -> Result<Step<'p>, Stop>
    ensures takes { Takes (λ p s. behind (flow_frame (flows.ForStarts start_with.entry l.entry))
        (started (map object_type_of l.entry.objects.now) (statements_of (map statement_of declared.now)) s)) machine.old result machine.new }
    ensures program { machine.new.program ≡ machine.old.program }
{
    match machine.push(Frame::Flow(FlowFrame::ForStarts(start_with, l))) {
        Ok(()) => start(machine, l.objects, declared),
        Err(stop) => Err(stop),
    }
}

/// An automatic object of this type gets its first value (6.7.9).
///
/// Errors: memory ran out.
fn initialise<'p>(
    machine: &mut Machine<'p>,
    ty: Option<&'p ObjectType>,
    n: usize,
    i: &'p Initialiser,
) -> Result<Step<'p>, Stop>
    ensures takes { Takes (λ p s. defines p (option_map (λ t. object_type_of t.now) ty.entry) n (initialiser_of i.now) s) machine.old result machine.new }
    ensures program { machine.new.program ≡ machine.old.program }
{
    let Some(ty) = ty else {
        return left(Flow::Normal);
    };
    let r = machine.scene.own(n);
    let node = Node::Initialiser(i, ty.element, ty.lengths.as_slice(), r);
    machine.wait(Frame::Initialiser(InitialiserFrame::Defined), node)
}

/// A declarator with an initialiser (6.2.4p6, 6.7.9).
///
/// Errors: memory ran out.
fn define<'p>(
    machine: &mut Machine<'p>,
    objects: &'p [ObjectType],
    n: usize,
    i: &'p Initialiser,
) -> Result<Step<'p>, Stop>
    ensures takes { Takes (λ p s. defines p (slice_get (map object_type_of objects.now) n) n (initialiser_of i.now)
        (renewed (map object_type_of objects.now) n s)) machine.old result machine.new }
    ensures program { machine.new.program ≡ machine.old.program }
{
    match machine.scene.renew(machine.alloc, objects, n) {
        Ok(()) => initialise(machine, type_of(objects, n), n, i),
        Err(stop) => Err(stop),
    }
}

/// A statement, after its tick (6.8). `objects` are those of its function.
///
/// Errors: memory ran out.
pub fn enter_statement<'p>(
    machine: &mut Machine<'p>,
    objects: &'p [ObjectType],
    a: &'p Statement,
) -> Result<Step<'p>, Stop>
    ensures takes { Takes (λ p s. entered_statement p (map object_type_of objects.now) (statement_of a.now) s) machine.old result machine.new }
    ensures program { machine.new.program ≡ machine.old.program }
{
    match a {
        Statement::Empty(_) | Statement::Case(_, _) | Statement::Default(_) => left(Flow::Normal),
        Statement::Evaluate(_, e) => control(machine, ControlFrame::Forgets, e),
        Statement::Declare(_, n) => declare(machine, objects, *n),
        Statement::Define(_, n, i) => define(machine, objects, *n, i),
        Statement::Block(_, first, count, all) => open_block(machine, objects, *first, *count, all),
        Statement::If(_, e, a) => control(machine, ControlFrame::IfTrue(objects, a), e),
        Statement::IfElse(_, e, a, b) => control(machine, ControlFrame::IfElse(objects, a, b), e),
        Statement::Switch(_, ty, e, first, count, all) => {
            let block = SwitchBlock {
                objects,
                first: *first,
                count: *count,
                all,
            };
            control(machine, ControlFrame::Switches(*ty, block), e)
        }
        Statement::While(_, e, body) => look(
            machine,
            Loop {
                objects,
                test: Some(e),
                body,
                step: None,
            },
        ),
        Statement::DoWhile(_, body, e) => turn(
            machine,
            Loop {
                objects,
                test: Some(e),
                body,
                step: None,
            },
        ),
        Statement::For(_, declared, control, body) => {
            let l = Loop {
                objects,
                test: control.test.as_ref(),
                body,
                step: control.step.as_ref(),
            };
            start_for(machine, declared, control.start.as_ref(), l)
        }
        Statement::Break(_) => left(Flow::Broken),
        Statement::Continue(_) => left(Flow::Continued),
        Statement::ReturnNothing(_) => left(Flow::Returned(None)),
        Statement::ReturnValue(_, ty, e) => control(machine, ControlFrame::GivesBack(*ty), e),
    }
}
