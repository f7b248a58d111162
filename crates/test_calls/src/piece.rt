//! A text is written piece by piece: a part of a tree is replaced by the smaller pieces that it is written as, until
//! they are words.

use crate::declarations::{declaration, external, initialiser, parameter, sizes};
use crate::expressions::expression;
use crate::statements::{item, statement};
use crate::words::suffix;
use ctypes::IntType;
use srcset::Names;
use test_rows::Answer;
use tree::{BlockItem, Declaration, Expr, External, Initialiser, Parameter, Stmt, Unit};

/// A piece of the text.
#[derive(Clone, Copy)]
pub enum Piece<'t> {
    Text(&'static [u8]),
    /// An identifier, or the text of a string literal, by its number in the `Names`.
    Name(usize),
    Constant(IntType, u32),
    Expression(&'t Expr),
    Sizes(&'t [Option<Expr>]),
    Initialiser(&'t Initialiser),
    Parameter(&'t Parameter),
    Declaration(&'t Declaration),
    Statement(&'t Stmt),
    Item(&'t BlockItem),
    External(&'t External),
}

/// The pieces that a part of the tree is written as, in their order. Memory that is refused is kept in mind.
#[derive(Drop)]
pub struct Pieces<'t> {
    list: Vec<Piece<'t>>,
    failed: bool,
}

impl<'t> Pieces<'t> {
    pub fn add(&mut self, piece: Piece<'t>) {
        if self.list.push(piece).is_err() {
            self.failed = true;
        }
    }
}

/// More steps than any text of the rows takes.
const STEPS: u32 = 10_000_000;

/// Writes a unit: each external declaration, and each item of a function's body, on a line of its own.
pub fn show_unit(unit: &Unit, names: &Names, answer: &mut Answer) {
    let mut waiting = Pieces {
        list: Vec::new(answer.alloc()),
        failed: false,
    };
    for external in unit.externals.iter().rev() {
        waiting.add(Piece::External(external));
    }
    for _ in 0..STEPS {
        let Some(piece) = waiting.list.pop() else {
            break;
        };
        let mut parts = Pieces {
            list: Vec::new(answer.alloc()),
            failed: false,
        };
        show_piece(&mut parts, piece, names, answer);
        for part in parts.list.iter().rev() {
            waiting.add(*part);
        }
        waiting.failed = waiting.failed || parts.failed;
    }
    if waiting.failed {
        answer.fail();
    }
}

/// Writes a word, or adds the pieces that a part of the tree is written as.
fn show_piece<'t>(parts: &mut Pieces<'t>, piece: Piece<'t>, names: &Names, answer: &mut Answer) {
    match piece {
        Piece::Text(text) => answer.field(text),
        Piece::Name(name) => answer.field(printable(names, name)),
        Piece::Constant(ty, value) => {
            answer.show(&value);
            answer.write(suffix(ty));
        }
        Piece::Expression(part) => expression(parts, part),
        Piece::Sizes(part) => sizes(parts, part),
        Piece::Initialiser(part) => initialiser(parts, part),
        Piece::Parameter(part) => parameter(parts, part),
        Piece::Declaration(part) => declaration(parts, part),
        Piece::Statement(part) => statement(parts, part),
        Piece::Item(part) => item(parts, part),
        Piece::External(part) => external(parts, part),
    }
}

/// The text of a number, without the zero byte that ends a string.
fn printable(names: &Names, name: usize) -> &[u8] {
    match names.text(name) {
        Some([text @ .., 0]) => text,
        Some(text) => text,
        None => b"?",
    }
}
