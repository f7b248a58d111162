//! The frames on the machine's stack, the nodes that take the next tick, and the results.
//!
//! Statements are borrowed in their boxes and vectors where they can be: a type that reaches too many fields is rejected.

ghost use Rattle.std.specs.Prelude.{◌+◌, ◌-◌, ◌<◌, ◌^◌, length};

use crate::reference::Reference;
use ctypes::{BinOp, IntType};
use srcset::Pos;
use tree::{PrefixOp, StepOp};
use typed_ast::{Argument, Callee, Initialiser, Moment, ObjectType, Place, Statement, Value};

/// How a statement is left (6.8.6).
#[derive(Clone, Copy)]
pub enum Flow {
    Normal,
    Broken,
    Continued,
    Returned(Option<i64>),
}

/// The result that a part of the program passes to the frame that waits for it.
#[derive(Drop)]
pub enum Found {
    Value(i64),
    Place(Reference),
    Flow(Flow),
    Initialised,
}

/// The argument that a call passes for a parameter (6.5.2.2p4).
#[derive(Drop)]
pub enum Passed {
    Number(i64),
    Referred(Reference),
}

/// A call whose arguments are being evaluated: those to come and those that are done (6.5.2.2).
#[derive(Drop)]
pub struct Asked<'p> {
    pub at: Pos,
    pub callee: Callee,
    pub used: bool,
    pub more: &'p [Argument],
    pub before: Vec<Passed>,
}

/// A compound assignment (6.5.16.2).
#[derive(Clone, Copy)]
pub struct Compound {
    pub at: Pos,
    pub op: BinOp,
    pub ty: IntType,
    pub of: IntType,
    pub read_at: Pos,
}

/// One more or less (6.5.2.4, 6.5.3.1).
#[derive(Clone, Copy)]
pub struct Stepping {
    pub at: Pos,
    pub moment: Moment,
    pub op: StepOp,
    pub ty: IntType,
    pub of: IntType,
    pub read_at: Pos,
}

/// A loop, with the objects of its function (6.8.5).
#[derive(Clone, Copy)]
pub struct Loop<'p> {
    pub objects: &'p [ObjectType],
    pub test: Option<&'p Value>,
    pub body: &'p Box<Statement>,
    pub step: Option<&'p Value>,
}

/// The block of a `switch` (6.8.4.2).
#[derive(Clone, Copy)]
pub struct SwitchBlock<'p> {
    pub objects: &'p [ObjectType],
    pub first: usize,
    pub count: usize,
    pub all: &'p Vec<Statement>,
}

/// A label of a `switch` whose value is tested: its number, the statements after it, and the number of `default`, if that was
/// passed. Its number and those of the labels after it are numbers that memory has.
#[derive(Clone, Copy)]
pub struct CaseTest<'p> {
    pub objects: &'p [ObjectType],
    pub value: i64,
    pub case: i64,
    pub more: &'p [Statement],
    pub number: usize,
    pub default: Option<usize>,
    pub all: &'p Vec<Statement>,
    ghost room: { number + length more.now < 2 ^ 64 - 1 },
}

/// The operation that follows once a number of ticks is spent.
#[derive(Drop)]
pub enum Late<'p> {
    /// A number of characters of a string literal are stored.
    PutsText(IntType, usize, usize, Reference),
    /// A number of elements or rows, from a given one on, become zero.
    PutsZeros(usize, usize, Reference),
    EntersBody(&'p [ObjectType], &'p Statement),
}

/// The node that takes the next tick.
#[derive(Drop)]
pub enum Node<'p> {
    Place(&'p Place),
    Value(&'p Value),
    Statement(&'p [ObjectType], &'p Statement),
    Initialiser(&'p Initialiser, IntType, &'p [u32], Reference),
    Element(Reference, i64),
    /// As many ticks follow this one.
    Ticking(usize, Late<'p>),
    /// The same, by the digits of the number to the base 2^64, the lowest first: the elements of an array may be more than the
    /// last number that memory has.
    TickingLong(Vec<usize>, Late<'p>),
    SwitchBlock(i64, SwitchBlock<'p>),
    CaseTest(CaseTest<'p>),
}

/// The next step: a node, the result of one, or a call.
#[derive(Drop)]
pub enum Step<'p> {
    Enters(Node<'p>),
    Leaves(Found),
    Calls(Pos, Callee, bool, Vec<Passed>),
}

/// A frame that waits for a place.
#[derive(Drop)]
pub enum PlaceFrame<'p> {
    Indexes(Pos, &'p Value),
    Reads(Pos),
    Assigns(Pos, IntType, &'p Value),
    Compounds(Compound, &'p Value),
    Steps(Stepping),
    ArrayPassed(Asked<'p>),
}

/// A frame that waits for the value of an operand.
#[derive(Drop)]
pub enum OperandFrame<'p> {
    IndexOf(Pos, Reference),
    Stores(Pos, IntType, Reference),
    Combines(Compound, Reference),
    Signs(Pos, PrefixOp, IntType),
    Right(Pos, BinOp, IntType, &'p Value),
    Applies(Pos, BinOp, IntType, i64),
    AndAlso(&'p Value),
    OrElse(&'p Value),
    TellsTruth,
    Chooses(Option<IntType>, &'p Value, &'p Value),
    Converts(Option<IntType>),
    ThenValue(&'p Value),
    NumberPassed(IntType, Asked<'p>),
}

/// A frame that waits for the value of a whole expression.
#[derive(Drop)]
pub enum ControlFrame<'p> {
    Gives(IntType, Reference),
    Forgets,
    IfTrue(&'p [ObjectType], &'p Box<Statement>),
    IfElse(&'p [ObjectType], &'p Box<Statement>, &'p Box<Statement>),
    Switches(IntType, SwitchBlock<'p>),
    Tests(Loop<'p>),
    Loops(Loop<'p>),
    GivesBack(IntType),
}

/// The return target of a call.
#[derive(Clone, Copy)]
pub enum Back {
    /// An expression, which may use the value.
    ToCaller(Pos, bool),
    ToEnd,
}

/// A call, with its caller's state: how many objects lived, the number of its own first one, and its arrays.
#[derive(Drop)]
pub struct Return {
    pub back: Back,
    pub is_main: bool,
    pub count: usize,
    pub base: usize,
    pub arrays: Vec<Reference>,
}

/// A frame that waits for a statement to be left.
#[derive(Drop)]
pub enum FlowFrame<'p> {
    Returns(Return),
    Rest(&'p [ObjectType], &'p [Statement]),
    InSwitch,
    Turn(Loop<'p>),
    ForStarts(Option<&'p Value>, Loop<'p>),
}

/// A braced list that waits for a part: the parts after that, the type of its elements, how many elements or rows are left with the part and
/// the number of the part, and where they lie (6.7.9p17). Its number and those of the parts after it are numbers that memory has.
#[derive(Drop)]
pub struct Listed<'p> {
    pub more: &'p [Initialiser],
    pub ty: IntType,
    pub count: usize,
    pub number: usize,
    pub lengths: &'p [u32],
    pub array: Reference,
    ghost room: { number + length more.now < 2 ^ 64 - 1 },
}

/// A frame that waits for a first value.
#[derive(Drop)]
pub enum InitialiserFrame<'p> {
    NextPart(Listed<'p>),
    Defined,
}

/// A waiting frame.
#[derive(Drop)]
pub enum Frame<'p> {
    Place(PlaceFrame<'p>),
    Operand(OperandFrame<'p>),
    Control(ControlFrame<'p>),
    Flow(FlowFrame<'p>),
    Initialiser(InitialiserFrame<'p>),
}
