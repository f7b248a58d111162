//! The syntax tree of a translation unit (ISO/IEC 9899:2011 6.5 to 6.9, in the profile).
//!
//! The types hold any tree. Their comments on the token of a place, and on lists with at least one
//! item, apply to the trees that spell tokens (`grammar`), as those of the parser do.
#![tactic(auto)]

mod declaration;
mod depths;
mod expression;
pub mod laws;
mod node_counts;
mod statement;
mod unit;
mod weights;

pub use declaration::{
    Declaration, Enumerator, FunctionDeclarator, Initialiser, Item, ObjectDeclarator, Parameter,
    Specifier, Specifiers,
};
pub use expression::{
    AssignOp, BinaryOp, Expr, PrefixOp, StepOp, TypeName, TypeSpecifier, TypeSpecifiers, Word,
};
pub use statement::{BlockItem, ForHead, ForStart, Stmt};
pub use unit::{External, Function, Unit};
pub use weights::weight;
