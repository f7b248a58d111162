//! Declarations.

use crate::expression::{Expr, TypeSpecifier, TypeSpecifiers};
use srcset::Pos;

/// `A = e` or `A` in a list of enumerators (ISO/IEC 9899:2011 6.7.2.2), with the place of its name.
#[derive(Drop)]
pub struct Enumerator {
    pub pos: Pos,
    pub name: usize,
    pub value: Option<Expr>,
}

/// A specifier of a declaration (6.7.1 to 6.7.3).
#[derive(Drop)]
pub enum Specifier {
    Extern,
    Static,
    Plain(TypeSpecifier),
    /// `enum`, a tag or none, and a list of enumerators (6.7.2.2): at least one, where the tree spells tokens.
    Enumerators(Option<usize>, Vec<Enumerator>),
}

/// Specifiers in any order and number, and a place: that of the first, and at least one, where the tree spells tokens.
#[derive(Drop)]
pub struct Specifiers {
    pub pos: Pos,
    pub list: Vec<Specifier>,
}

/// An initialiser (6.7.9): one expression, or a braced list with its place: that of its brace, and at least one item,
/// where the tree spells tokens.
#[derive(Drop)]
pub enum Initialiser {
    One(Expr),
    List(Pos, Vec<Initialiser>),
}

/// The declarator of an object (6.7.6), with its array sizes from the outermost (6.7.6.2), and its
/// initialiser. The place is that of its name.
#[derive(Drop)]
pub struct ObjectDeclarator {
    pub pos: Pos,
    pub name: usize,
    pub sizes: Vec<Option<Expr>>,
    pub initialiser: Option<Initialiser>,
}

/// A parameter (6.7.6.3). The place is that of its name, or of its first token where it has none.
#[derive(Drop)]
pub struct Parameter {
    pub pos: Pos,
    pub specifiers: TypeSpecifiers,
    pub name: Option<usize>,
    pub sizes: Vec<Option<Expr>>,
}

/// The declarator of a function (6.7.6.3). The place is that of its name. No parameters denote `(void)`.
#[derive(Drop)]
pub struct FunctionDeclarator {
    pub pos: Pos,
    pub name: usize,
    pub parameters: Vec<Parameter>,
}

/// A declarator of a declaration, without the specifiers.
#[derive(Drop)]
pub enum Item {
    Object(ObjectDeclarator),
    Function(FunctionDeclarator),
}

/// A declaration (6.7), or a static assertion (6.7.10) with its condition and its text. The place of an
/// assertion is that of its first token.
#[derive(Drop)]
pub enum Declaration {
    Declared(Specifiers, Vec<Item>),
    Assertion(Pos, Expr, usize),
}
