//! Translation units.

use crate::declaration::{Declaration, FunctionDeclarator, Specifiers};
use crate::statement::BlockItem;
use srcset::Pos;

/// A function definition (ISO/IEC 9899:2011 6.9.1), with its body's opening brace and items. Its place is
/// that of its name.
#[derive(Drop)]
pub struct Function {
    pub specifiers: Specifiers,
    pub declarator: FunctionDeclarator,
    pub body_pos: Pos,
    pub body: Vec<BlockItem>,
}

/// An external declaration (6.9).
#[derive(Drop)]
pub enum External {
    Function(Function),
    Declaration(Declaration),
}

/// A translation unit (6.9).
#[derive(Drop)]
pub struct Unit {
    pub externals: Vec<External>,
}
