//! Statements.

use crate::declaration::Declaration;
use crate::expression::Expr;
use srcset::Pos;

/// The first part of a `for` (ISO/IEC 9899:2011 6.8.5.3).
#[derive(Drop)]
pub enum ForStart {
    Expression(Option<Expr>),
    Declaration(Declaration),
}

/// The parts in the parentheses of a `for` (6.8.5.3).
#[derive(Drop)]
pub struct ForHead {
    pub start: ForStart,
    pub test: Option<Expr>,
    pub step: Option<Expr>,
}

/// An item of a block (6.8.2).
#[cycle(statements)]
#[derive(Drop)]
pub enum BlockItem {
    Declaration(Declaration),
    Statement(Stmt),
}

/// A statement (6.8). The place of each is that of its first token. The head of a `for` is in a box, so that no other
/// statement takes as much room as that.
#[cycle(statements)]
#[derive(Drop)]
pub enum Stmt {
    /// `{ .. }` (6.8.2).
    Block(Pos, Vec<BlockItem>),
    /// `;` (6.8.3).
    Empty(Pos),
    /// `e;` (6.8.3).
    Expression(Pos, Expr),
    /// `if (e) s` (6.8.4.1).
    If(Pos, Expr, Box<Stmt>),
    /// `if (e) s else s` (6.8.4.1).
    IfElse(Pos, Expr, Box<Stmt>, Box<Stmt>),
    /// `switch (e) s` (6.8.4.2).
    Switch(Pos, Expr, Box<Stmt>),
    /// `case e: s` (6.8.1).
    Case(Pos, Expr, Box<Stmt>),
    /// `default: s` (6.8.1).
    Default(Pos, Box<Stmt>),
    /// `while (e) s` (6.8.5.1).
    While(Pos, Expr, Box<Stmt>),
    /// `do s while (e);` (6.8.5.2).
    DoWhile(Pos, Box<Stmt>, Expr),
    /// `for (a; b; c) s` (6.8.5.3).
    For(Pos, Box<ForHead>, Box<Stmt>),
    /// `break;` (6.8.6.3).
    Break(Pos),
    /// `continue;` (6.8.6.2).
    Continue(Pos),
    /// `return;` or `return e;` (6.8.6.4).
    Return(Pos, Option<Expr>),
}
