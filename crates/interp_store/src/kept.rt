//! Frames as the stack stores them: those for most parts of an expression, for a turn of a loop or for a call, in 48 bytes, and
//! the others in an allocation of their own. A loop is stored with the parts that it has: an optional part would take a word more each.

ghost use Rattle.std.specs.Prelude.{◌≡◌, IfErr, IfOk, IfSome, Some, map, option_map};
ghost use Rattle.typed_ast.specs.View.{object_type_of, statement_of, value_of};
ghost use Rattle.csem.specs.Store.{whole};
ghost use Rattle.interp_store.specs.View.{reference_of};
ghost use Rattle.interp_store.specs.layer.Frames as on;
ghost use Rattle.interp_store.specs.layer.Views.{control_frame, flow_frame, frame_of, initialiser_frame, kept_of, operand_frame, place_frame};
ghost use Rattle.interp_store.specs.declared.frames.ControlFrame.TheVariants as controls;
ghost use Rattle.interp_store.specs.declared.frames.FlowFrame.TheVariants as flows;
ghost use Rattle.interp_store.specs.declared.frames.OperandFrame.TheVariants as operands;
ghost use Rattle.interp_store.specs.declared.kept.Kept.TheVariants as kept;
ghost use Rattle.interp_store.specs.declared.stop.Stop.TheVariants.{Memory};

use crate::frames::{
    Back, ControlFrame, FlowFrame, Frame, InitialiserFrame, Loop, OperandFrame, PlaceFrame, Return,
    Stepping,
};
use crate::reference::Reference;
use crate::stop::Stop;
use ctypes::{BinOp, IntType};
use srcset::Pos;
use std::alloc::Global;
use tree::PrefixOp;
use typed_ast::{ObjectType, Statement, Value};

/// A call of an expression, whose caller has no arrays as parameters: its place, whether its value is used, and the state of its
/// caller.
#[derive(Clone, Copy)]
pub struct Call {
    pub file: usize,
    pub line: u32,
    pub used: bool,
    pub is_main: bool,
    pub count: usize,
    pub base: usize,
}

/// A frame on the stack.
#[derive(Drop)]
pub enum Kept<'p> {
    Indexes(Pos, &'p Value),
    Reads(Pos),
    Assigns(Pos, IntType, &'p Value),
    Steps(Stepping),
    /// The subscript of a whole object.
    IndexOf(Pos, usize),
    /// A store to a whole object.
    Stores(Pos, IntType, usize),
    Signs(Pos, PrefixOp, IntType),
    Right(Pos, BinOp, IntType, &'p Value),
    Applies(Pos, BinOp, IntType, i64),
    AndAlso(&'p Value),
    OrElse(&'p Value),
    TellsTruth,
    Chooses(Option<IntType>, &'p Value, &'p Value),
    Converts(Option<IntType>),
    ThenValue(&'p Value),
    Forgets,
    IfTrue(&'p [ObjectType], &'p Box<Statement>),
    IfElse(&'p [ObjectType], &'p Box<Statement>, &'p Box<Statement>),
    /// The test of a loop without a step.
    Tests(&'p [ObjectType], &'p Value, &'p Box<Statement>),
    /// The test of a loop with a step, which comes last.
    TestsStepped(&'p [ObjectType], &'p Value, &'p Box<Statement>, &'p Value),
    /// The step of a loop without a test.
    Loops(&'p [ObjectType], &'p Box<Statement>, &'p Value),
    /// The step of a loop with a test.
    LoopsTested(&'p [ObjectType], &'p Value, &'p Box<Statement>, &'p Value),
    GivesBack(IntType),
    Returns(Call),
    Rest(&'p [ObjectType], &'p [Statement]),
    InSwitch,
    /// The body of a loop with neither a test nor a step.
    Turn(&'p [ObjectType], &'p Box<Statement>),
    TurnTested(&'p [ObjectType], &'p Value, &'p Box<Statement>),
    TurnStepped(&'p [ObjectType], &'p Box<Statement>, &'p Value),
    /// The body of a loop with both.
    TurnOfBoth(&'p [ObjectType], &'p Value, &'p Box<Statement>, &'p Value),
    Defined,
    Other(Box<Frame<'p>>),
}

const _: () = prove!(size_of::<Kept<'static>>() == 48);

/// A frame in an allocation of its own.
///
/// Errors: memory ran out.
#[inline(never)]
fn apart<'p>(alloc: Global, frame: Frame<'p>) -> Result<Kept<'p>, Stop>
    ensures ok { IfOk result (λ kept. kept_of kept ≡ frame_of frame.entry) }
    ensures err { IfErr result (λ e. e ≡ Memory) }
{
    match Box::new(alloc, frame) {
        Ok(frame) => Ok(Kept::Other(frame)),
        Err(_) => Err(Stop::Memory),
    }
}

#[inline(always)]
fn keep_place<'p>(alloc: Global, frame: PlaceFrame<'p>) -> Result<Kept<'p>, Stop>
    ensures ok { IfOk result (λ kept. kept_of kept ≡ place_frame frame.entry) }
    ensures err { IfErr result (λ e. e ≡ Memory) }
{
    match frame {
        PlaceFrame::Indexes(at, index) => Ok(Kept::Indexes(at, index)),
        PlaceFrame::Reads(at) => Ok(Kept::Reads(at)),
        PlaceFrame::Assigns(at, ty, e) => Ok(Kept::Assigns(at, ty, e)),
        PlaceFrame::Compounds(c, e) => apart(alloc, Frame::Place(PlaceFrame::Compounds(c, e))),
        PlaceFrame::Steps(step) => Ok(Kept::Steps(step)),
        PlaceFrame::ArrayPassed(asked) => apart(
            alloc,
            Frame::Place(PlaceFrame::ArrayPassed(asked)),
        ),
    }
}

/// The number of the object that a reference is, if that is a whole one whose number memory has.
#[inline(always)]
fn whole_object(r: &Reference) -> Option<usize>
    ensures { IfSome result (λ n. whole n ≡ reference_of r.now) }
{
    if r.path.is_whole() {
        return r.object();
    }
    None
}

/// The subscript of the part at a reference.
#[inline(always)]
fn keep_subscript<'p>(alloc: Global, at: Pos, r: Reference) -> Result<Kept<'p>, Stop>
    ensures ok { IfOk result (λ kept. kept_of kept ≡ operand_frame (operands.IndexOf at r)) }
    ensures err { IfErr result (λ e. e ≡ Memory) }
{
    match whole_object(&r) {
        Some(n) => Ok(Kept::IndexOf(at, n)),
        None => apart(alloc, Frame::Operand(OperandFrame::IndexOf(at, r))),
    }
}

/// A store at a reference.
#[inline(always)]
fn keep_store<'p>(alloc: Global, at: Pos, ty: IntType, r: Reference) -> Result<Kept<'p>, Stop>
    ensures ok { IfOk result (λ kept. kept_of kept ≡ operand_frame (operands.Stores at ty r)) }
    ensures err { IfErr result (λ e. e ≡ Memory) }
{
    match whole_object(&r) {
        Some(n) => Ok(Kept::Stores(at, ty, n)),
        None => apart(alloc, Frame::Operand(OperandFrame::Stores(at, ty, r))),
    }
}

#[inline(always)]
fn keep_operand<'p>(alloc: Global, frame: OperandFrame<'p>) -> Result<Kept<'p>, Stop>
    ensures ok { IfOk result (λ kept. kept_of kept ≡ operand_frame frame.entry) }
    ensures err { IfErr result (λ e. e ≡ Memory) }
{
    match frame {
        OperandFrame::IndexOf(at, r) => keep_subscript(alloc, at, r),
        OperandFrame::Stores(at, ty, r) => keep_store(alloc, at, ty, r),
        OperandFrame::Combines(c, r) => apart(alloc, Frame::Operand(OperandFrame::Combines(c, r))),
        OperandFrame::Signs(at, op, ty) => Ok(Kept::Signs(at, op, ty)),
        OperandFrame::Right(at, op, ty, b) => Ok(Kept::Right(at, op, ty, b)),
        OperandFrame::Applies(at, op, ty, a) => Ok(Kept::Applies(at, op, ty, a)),
        OperandFrame::AndAlso(b) => Ok(Kept::AndAlso(b)),
        OperandFrame::OrElse(b) => Ok(Kept::OrElse(b)),
        OperandFrame::TellsTruth => Ok(Kept::TellsTruth),
        OperandFrame::Chooses(ty, a, b) => Ok(Kept::Chooses(ty, a, b)),
        OperandFrame::Converts(ty) => Ok(Kept::Converts(ty)),
        OperandFrame::ThenValue(b) => Ok(Kept::ThenValue(b)),
        OperandFrame::NumberPassed(ty, asked) => apart(
            alloc,
            Frame::Operand(OperandFrame::NumberPassed(ty, asked)),
        ),
    }
}

/// The frame of a loop's test. A loop without a test waits for none; its frame is stored apart.
#[inline(always)]
fn keep_test<'p>(alloc: Global, l: Loop<'p>) -> Result<Kept<'p>, Stop>
    ensures ok { IfOk result (λ kept. kept_of kept ≡ control_frame (controls.Tests l.entry)) }
    ensures err { IfErr result (λ e. e ≡ Memory) }
{
    let Some(test) = l.test else {
        return apart(alloc, Frame::Control(ControlFrame::Tests(l)));
    };
    match l.step {
        Some(step) => Ok(Kept::TestsStepped(l.objects, test, l.body, step)),
        None => Ok(Kept::Tests(l.objects, test, l.body)),
    }
}

/// The frame of a loop's step. A loop without a step waits for none; its frame is stored apart.
#[inline(always)]
fn keep_step<'p>(alloc: Global, l: Loop<'p>) -> Result<Kept<'p>, Stop>
    ensures ok { IfOk result (λ kept. kept_of kept ≡ control_frame (controls.Loops l.entry)) }
    ensures err { IfErr result (λ e. e ≡ Memory) }
{
    let Some(step) = l.step else {
        return apart(alloc, Frame::Control(ControlFrame::Loops(l)));
    };
    match l.test {
        Some(test) => Ok(Kept::LoopsTested(l.objects, test, l.body, step)),
        None => Ok(Kept::Loops(l.objects, l.body, step)),
    }
}

/// The body of a loop.
#[inline(always)]
fn keep_turn<'p>(l: Loop<'p>) -> Kept<'p>
    ensures { kept_of result ≡ flow_frame (flows.Turn l.entry) }
{
    match l.test {
        Some(test) => match l.step {
            Some(step) => Kept::TurnOfBoth(l.objects, test, l.body, step),
            None => Kept::TurnTested(l.objects, test, l.body),
        },
        None => match l.step {
            Some(step) => Kept::TurnStepped(l.objects, l.body, step),
            None => Kept::Turn(l.objects, l.body),
        },
    }
}

#[inline(always)]
fn keep_control<'p>(alloc: Global, frame: ControlFrame<'p>) -> Result<Kept<'p>, Stop>
    ensures ok { IfOk result (λ kept. kept_of kept ≡ control_frame frame.entry) }
    ensures err { IfErr result (λ e. e ≡ Memory) }
{
    match frame {
        ControlFrame::Gives(ty, r) => apart(alloc, Frame::Control(ControlFrame::Gives(ty, r))),
        ControlFrame::Forgets => Ok(Kept::Forgets),
        ControlFrame::IfTrue(objects, a) => Ok(Kept::IfTrue(objects, a)),
        ControlFrame::IfElse(objects, a, b) => Ok(Kept::IfElse(objects, a, b)),
        ControlFrame::Switches(ty, block) => apart(
            alloc,
            Frame::Control(ControlFrame::Switches(ty, block)),
        ),
        ControlFrame::Tests(l) => keep_test(alloc, l),
        ControlFrame::Loops(l) => keep_step(alloc, l),
        ControlFrame::GivesBack(ty) => Ok(Kept::GivesBack(ty)),
    }
}

/// A call.
#[inline(always)]
fn keep_return<'p>(alloc: Global, r: Return) -> Result<Kept<'p>, Stop>
    ensures ok { IfOk result (λ kept. kept_of kept ≡ flow_frame (flows.Returns r)) }
    ensures err { IfErr result (λ e. e ≡ Memory) }
{
    let Back::ToCaller(at, used) = r.back else {
        return apart(alloc, Frame::Flow(FlowFrame::Returns(r)));
    };
    if !r.arrays.is_empty() {
        return apart(alloc, Frame::Flow(FlowFrame::Returns(r)));
    }
    Ok(Kept::Returns(Call {
        file: at.file,
        line: at.line,
        used,
        is_main: r.is_main,
        count: r.count,
        base: r.base,
    }))
}

#[inline(always)]
fn keep_flow<'p>(alloc: Global, frame: FlowFrame<'p>) -> Result<Kept<'p>, Stop>
    ensures ok { IfOk result (λ kept. kept_of kept ≡ flow_frame frame.entry) }
    ensures err { IfErr result (λ e. e ≡ Memory) }
{
    match frame {
        FlowFrame::Returns(r) => keep_return(alloc, r),
        FlowFrame::Rest(objects, more) => Ok(Kept::Rest(objects, more)),
        FlowFrame::InSwitch => Ok(Kept::InSwitch),
        FlowFrame::Turn(l) => Ok(keep_turn(l)),
        FlowFrame::ForStarts(start, l) => apart(alloc, Frame::Flow(FlowFrame::ForStarts(start, l))),
    }
}

#[inline(always)]
fn keep_initialiser<'p>(alloc: Global, frame: InitialiserFrame<'p>) -> Result<Kept<'p>, Stop>
    ensures ok { IfOk result (λ kept. kept_of kept ≡ initialiser_frame frame.entry) }
    ensures err { IfErr result (λ e. e ≡ Memory) }
{
    match frame {
        InitialiserFrame::NextPart(l) => apart(
            alloc,
            Frame::Initialiser(InitialiserFrame::NextPart(l)),
        ),
        InitialiserFrame::Defined => Ok(Kept::Defined),
    }
}

/// A frame in the form in which the stack stores it.
///
/// Errors: memory ran out.
#[inline(always)]
pub fn keep<'p>(alloc: Global, frame: Frame<'p>) -> Result<Kept<'p>, Stop>
    ensures ok { IfOk result (λ kept. kept_of kept ≡ frame_of frame.entry) }
    ensures err { IfErr result (λ e. e ≡ Memory) }
{
    match frame {
        Frame::Place(f) => keep_place(alloc, f),
        Frame::Operand(f) => keep_operand(alloc, f),
        Frame::Control(f) => keep_control(alloc, f),
        Frame::Flow(f) => keep_flow(alloc, f),
        Frame::Initialiser(f) => keep_initialiser(alloc, f),
    }
}

/// A frame that waits for a place.
fn place<'p>(frame: PlaceFrame<'p>) -> Frame<'p>
    ensures { frame_of result ≡ place_frame frame.entry }
{
    Frame::Place(frame)
}

/// A frame that waits for an operand.
fn operand<'p>(frame: OperandFrame<'p>) -> Frame<'p>
    ensures { frame_of result ≡ operand_frame frame.entry }
{
    Frame::Operand(frame)
}

/// A frame that waits for the value of a whole expression.
fn control<'p>(frame: ControlFrame<'p>) -> Frame<'p>
    ensures { frame_of result ≡ control_frame frame.entry }
{
    Frame::Control(frame)
}

/// A frame that waits for a statement to be left.
fn flow<'p>(frame: FlowFrame<'p>) -> Frame<'p>
    ensures { frame_of result ≡ flow_frame frame.entry }
{
    Frame::Flow(frame)
}

/// The frame of a call's end.
fn return_of<'p>(alloc: Global, c: Call) -> Frame<'p>
    ensures { frame_of result ≡ kept_of (kept.Returns c) }
{
    let at = Pos {
        file: c.file,
        line: c.line,
    };
    Frame::Flow(FlowFrame::Returns(Return {
        back: Back::ToCaller(at, c.used),
        is_main: c.is_main,
        count: c.count,
        base: c.base,
        arrays: Vec::new(alloc),
    }))
}

/// The frame that waits for the test of a loop.
fn test_of<'p>(
    objects: &'p [ObjectType],
    test: &'p Value,
    body: &'p Box<Statement>,
    step: Option<&'p Value>,
) -> Frame<'p>
    ensures { frame_of result ≡ on.tests (map object_type_of objects.now) (Some (value_of test.now)) (statement_of body.now.value)
        (option_map (λ e. value_of e.now) step.entry) }
{
    let test = Some(test);
    Frame::Control(ControlFrame::Tests(Loop {
        objects,
        test,
        body,
        step,
    }))
}

/// The frame that waits for the step of a loop.
fn step_of<'p>(
    objects: &'p [ObjectType],
    test: Option<&'p Value>,
    body: &'p Box<Statement>,
    step: &'p Value,
) -> Frame<'p>
    ensures { frame_of result ≡ on.loops (map object_type_of objects.now) (option_map (λ e. value_of e.now) test.entry) (statement_of body.now.value)
        (Some (value_of step.now)) }
{
    let step = Some(step);
    Frame::Control(ControlFrame::Loops(Loop {
        objects,
        test,
        body,
        step,
    }))
}

/// The frame that waits for the body of a loop.
fn turn_of<'p>(
    objects: &'p [ObjectType],
    test: Option<&'p Value>,
    body: &'p Box<Statement>,
    step: Option<&'p Value>,
) -> Frame<'p>
    ensures { frame_of result ≡ on.turn (map object_type_of objects.now) (option_map (λ e. value_of e.now) test.entry) (statement_of body.now.value)
        (option_map (λ e. value_of e.now) step.entry) }
{
    Frame::Flow(FlowFrame::Turn(Loop {
        objects,
        test,
        body,
        step,
    }))
}

/// The frame that the stack stored.
pub fn taken<'p>(alloc: Global, kept: Kept<'p>) -> Frame<'p>
    ensures { frame_of result ≡ kept_of kept.entry }
{
    match kept {
        Kept::Indexes(at, index) => place(PlaceFrame::Indexes(at, index)),
        Kept::Reads(at) => place(PlaceFrame::Reads(at)),
        Kept::Assigns(at, ty, e) => place(PlaceFrame::Assigns(at, ty, e)),
        Kept::Steps(step) => place(PlaceFrame::Steps(step)),
        Kept::IndexOf(at, n) => operand(OperandFrame::IndexOf(at, Reference::whole(n))),
        Kept::Stores(at, ty, n) => operand(OperandFrame::Stores(at, ty, Reference::whole(n))),
        Kept::Signs(at, op, ty) => operand(OperandFrame::Signs(at, op, ty)),
        Kept::Right(at, op, ty, b) => operand(OperandFrame::Right(at, op, ty, b)),
        Kept::Applies(at, op, ty, a) => operand(OperandFrame::Applies(at, op, ty, a)),
        Kept::AndAlso(b) => operand(OperandFrame::AndAlso(b)),
        Kept::OrElse(b) => operand(OperandFrame::OrElse(b)),
        Kept::TellsTruth => operand(OperandFrame::TellsTruth),
        Kept::Chooses(ty, a, b) => operand(OperandFrame::Chooses(ty, a, b)),
        Kept::Converts(ty) => operand(OperandFrame::Converts(ty)),
        Kept::ThenValue(b) => operand(OperandFrame::ThenValue(b)),
        Kept::Forgets => control(ControlFrame::Forgets),
        Kept::IfTrue(objects, a) => control(ControlFrame::IfTrue(objects, a)),
        Kept::IfElse(objects, a, b) => control(ControlFrame::IfElse(objects, a, b)),
        Kept::Tests(objects, test, body) => test_of(objects, test, body, None),
        Kept::TestsStepped(objects, test, body, step) => test_of(objects, test, body, Some(step)),
        Kept::Loops(objects, body, step) => step_of(objects, None, body, step),
        Kept::LoopsTested(objects, test, body, step) => step_of(objects, Some(test), body, step),
        Kept::GivesBack(ty) => control(ControlFrame::GivesBack(ty)),
        Kept::Returns(c) => return_of(alloc, c),
        Kept::Rest(objects, more) => flow(FlowFrame::Rest(objects, more)),
        Kept::InSwitch => flow(FlowFrame::InSwitch),
        Kept::Turn(objects, body) => turn_of(objects, None, body, None),
        Kept::TurnTested(objects, test, body) => turn_of(objects, Some(test), body, None),
        Kept::TurnStepped(objects, body, step) => turn_of(objects, None, body, Some(step)),
        Kept::TurnOfBoth(objects, test, body, step) => {
            turn_of(objects, Some(test), body, Some(step))
        }
        Kept::Defined => Frame::Initialiser(InitialiserFrame::Defined),
        Kept::Other(frame) => Box::into_inner(frame),
    }
}
