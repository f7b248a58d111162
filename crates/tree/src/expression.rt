//! Expressions and type names.

use ctypes::IntType;
use srcset::Pos;

/// The words of which a type consists (ISO/IEC 9899:2011 6.7.2).
#[derive(Clone, Copy, PartialEq, Eq, Debug)]
pub enum Word {
    Void,
    Char,
    Short,
    Int,
    Long,
    Signed,
    Unsigned,
    Bool,
}

/// A type specifier or qualifier that contains no list of enumerators (6.7.2, 6.7.3).
#[derive(Clone, Copy, PartialEq, Eq, Debug)]
pub enum TypeSpecifier {
    Const,
    Word(Word),
    /// `enum` and a tag, by its number in the `Names`.
    Enum(usize),
}

/// Specifiers in any order and number, and a place: that of the first, and at least one, where the tree spells tokens.
#[derive(Drop)]
pub struct TypeSpecifiers {
    pub pos: Pos,
    pub list: Vec<TypeSpecifier>,
}

/// The name of a type (6.7.7): specifiers, and the sizes of arrays from the outermost.
#[cycle(expressions)]
#[derive(Drop)]
pub struct TypeName {
    pub specifiers: TypeSpecifiers,
    pub sizes: Vec<Expr>,
}

/// A sign before its operand (6.5.3.3).
#[derive(Clone, Copy, PartialEq, Eq, Debug)]
pub enum PrefixOp {
    Plus,
    Minus,
    Complement,
    Not,
}

/// `++` and `--` (6.5.2.4, 6.5.3.1).
#[derive(Clone, Copy, PartialEq, Eq, Debug)]
pub enum StepOp {
    Increment,
    Decrement,
}

/// An operator between two operands that is no assignment (6.5.5 to 6.5.14, 6.5.17).
#[derive(Clone, Copy, PartialEq, Eq, Debug)]
pub enum BinaryOp {
    Mul,
    Div,
    Rem,
    Add,
    Sub,
    ShiftLeft,
    ShiftRight,
    Less,
    Greater,
    LessEqual,
    GreaterEqual,
    Equal,
    NotEqual,
    BitAnd,
    BitXor,
    BitOr,
    And,
    Or,
    Comma,
}

/// An assignment (6.5.16).
#[derive(Clone, Copy, PartialEq, Eq, Debug)]
pub enum AssignOp {
    Plain,
    Mul,
    Div,
    Rem,
    Add,
    Sub,
    ShiftLeft,
    ShiftRight,
    BitAnd,
    BitXor,
    BitOr,
}

/// An expression (6.5). Where the tree spells tokens, the place of each is that of its operator, its `[`, its called
/// name, the `(` of its cast, or its own token. Identifiers and string literals are numbers of the `Names`.
#[cycle(expressions)]
#[derive(Drop)]
pub enum Expr {
    /// An identifier (6.5.1).
    Name(Pos, usize),
    /// A constant with its type and value (6.5.1).
    Constant(Pos, IntType, u32),
    /// A string literal (6.5.1).
    StringLiteral(Pos, usize),
    /// An expression in parentheses (6.5.1). It is no node, but counts for the depth.
    Paren(Box<Expr>),
    /// `f(a, ..)` (6.5.2.2).
    Call(Pos, usize, Vec<Expr>),
    /// `a[i]` (6.5.2.1).
    Subscript(Pos, Box<Expr>, Box<Expr>),
    /// `a++` (6.5.2.4).
    After(Pos, StepOp, Box<Expr>),
    /// `++a` (6.5.3.1).
    Before(Pos, StepOp, Box<Expr>),
    /// `-a` (6.5.3.3).
    Prefix(Pos, PrefixOp, Box<Expr>),
    /// `sizeof a` (6.5.3.4).
    SizeofExpr(Pos, Box<Expr>),
    /// `sizeof (int)` (6.5.3.4).
    SizeofType(Pos, TypeName),
    /// `(int)a` (6.5.4).
    Cast(Pos, TypeName, Box<Expr>),
    /// `a + b` (6.5.5 to 6.5.14, 6.5.17).
    Binary(Pos, BinaryOp, Box<Expr>, Box<Expr>),
    /// `c ? a : b` (6.5.15).
    Conditional(Pos, Box<Expr>, Box<Expr>, Box<Expr>),
    /// `a = b` (6.5.16).
    Assign(Pos, AssignOp, Box<Expr>, Box<Expr>),
}
