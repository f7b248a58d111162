//! Statements.

use crate::expressions::Value;
use crate::initialisers::Initialiser;
use ctypes::IntType;
use srcset::Pos;

/// The expressions in the parentheses of a `for` (6.8.5.3). They are boxed, so that no other statement takes as much memory.
#[derive(Drop)]
pub struct ForControl {
    pub start: Option<Value>,
    pub test: Option<Value>,
    pub step: Option<Value>,
}

/// A statement (6.8), or the declarator of an automatic object (6.7) by the number of the object. The place of each is that of its
/// first token, of a declarator that of its name; it is for tools, and nothing that a program does depends on it.
#[derive(Drop)]
pub enum Statement {
    Empty(Pos),
    Evaluate(Pos, Value),
    Declare(Pos, usize),
    Define(Pos, usize, Initialiser),
    /// The number of the first object, how many the block and its inner blocks declare, and its statements.
    Block(Pos, usize, usize, Vec<Statement>),
    If(Pos, Value, Box<Statement>),
    IfElse(Pos, Value, Box<Statement>, Box<Statement>),
    /// The value and each case converted to the type (6.8.4.2p5); then as a block. Labels precede their statements.
    Switch(Pos, IntType, Value, usize, usize, Vec<Statement>),
    Case(Pos, i64),
    Default(Pos),
    While(Pos, Value, Box<Statement>),
    DoWhile(Pos, Box<Statement>, Value),
    /// The declarations, the expressions in the parentheses and the body (6.8.5.3).
    For(Pos, Vec<Statement>, Box<ForControl>, Box<Statement>),
    Break(Pos),
    Continue(Pos),
    ReturnNothing(Pos),
    /// The value converted to the type, the function's result (6.8.6.4p3).
    ReturnValue(Pos, IntType, Value),
}

impl Statement {
    /// Its place in the source.
    pub fn place(&self) -> Pos {
        match self {
            Statement::Empty(at) | Statement::Evaluate(at, _) | Statement::Declare(at, _) => *at,
            Statement::Define(at, _, _) | Statement::Block(at, _, _, _) => *at,
            Statement::If(at, _, _) | Statement::IfElse(at, _, _, _) => *at,
            Statement::Switch(at, _, _, _, _, _) | Statement::Case(at, _) => *at,
            Statement::Default(at) | Statement::While(at, _, _) => *at,
            Statement::DoWhile(at, _, _) | Statement::For(at, _, _, _) => *at,
            Statement::Break(at) | Statement::Continue(at) | Statement::ReturnNothing(at) => *at,
            Statement::ReturnValue(at, _, _) => *at,
        }
    }
}
