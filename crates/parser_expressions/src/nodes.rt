//! The nodes of expressions, each boxed (ISO/IEC 9899:2011 6.5).
//!
//! None is inlined: recursion is as deep as the tree, and a node is large.

ghost use Rattle.std.specs.Prelude.{◌≡◌, ◌++◌, ◌∷◌, [], map, IfOk, IfErr, OnOk};
ghost use Rattle.tree.specs.Tree.{identifier, constant, string, paren, call, subscript, after, before, prefix, size_of, size_of_type, cast, binary, conditional, assign};
ghost use Rattle.tree.specs.View.{tree_of, trees_of, type_of};
ghost use Rattle.parser_grammar.specs.declared.refusal.Refusal.TheVariants.{Memory};

use ctypes::IntType;
use parser_grammar::Refusal;
use srcset::Pos;
use std::alloc::Global;
use tree::{AssignOp, BinaryOp, Expr, PrefixOp, StepOp, TypeName};

// An identifier.
#[inline(never)]
pub(crate) fn name_node(alloc: Global, pos: Pos, name: usize) -> Result<Box<Expr>, Refusal>
    ensures ok { IfOk result (λ b. tree_of b.value ≡ identifier pos name) }
    ensures err { IfErr result (λ f. f ≡ Memory) }
{
    Ok(Box::new(alloc, Expr::Name(pos, name))?)
}

// A constant.
#[inline(never)]
pub(crate) fn constant_node(
    alloc: Global,
    pos: Pos,
    ty: IntType,
    value: u32,
) -> Result<Box<Expr>, Refusal>
    ensures ok { IfOk result (λ b. tree_of b.value ≡ constant pos ty value) }
    ensures err { IfErr result (λ f. f ≡ Memory) }
{
    Ok(Box::new(alloc, Expr::Constant(pos, ty, value))?)
}

// A string literal.
#[inline(never)]
pub(crate) fn string_node(alloc: Global, pos: Pos, text: usize) -> Result<Box<Expr>, Refusal>
    ensures ok { IfOk result (λ b. tree_of b.value ≡ string pos text) }
    ensures err { IfErr result (λ f. f ≡ Memory) }
{
    Ok(Box::new(alloc, Expr::StringLiteral(pos, text))?)
}

// `(e)`.
#[inline(never)]
pub(crate) fn paren_node(alloc: Global, inner: Box<Expr>) -> Result<Box<Expr>, Refusal>
    ensures ok { IfOk result (λ b. tree_of b.value ≡ paren (tree_of inner.value)) }
    ensures err { IfErr result (λ f. f ≡ Memory) }
{
    Ok(Box::new(alloc, Expr::Paren(inner))?)
}

// `f(a, ..)`.
#[inline(never)]
pub(crate) fn call_node(
    alloc: Global,
    pos: Pos,
    name: usize,
    list: Vec<Expr>,
) -> Result<Box<Expr>, Refusal>
    ensures ok { IfOk result (λ b. tree_of b.value ≡ call pos name (trees_of (map tree_of list.items))) }
    ensures err { IfErr result (λ f. f ≡ Memory) }
{
    Ok(Box::new(alloc, Expr::Call(pos, name, list))?)
}

// `l[i]`.
#[inline(never)]
pub(crate) fn subscript_node(
    alloc: Global,
    pos: Pos,
    left: Box<Expr>,
    index: Box<Expr>,
) -> Result<Box<Expr>, Refusal>
    ensures ok { IfOk result (λ b. tree_of b.value ≡ subscript pos (tree_of left.value) (tree_of index.value)) }
    ensures err { IfErr result (λ f. f ≡ Memory) }
{
    Ok(Box::new(alloc, Expr::Subscript(pos, left, index))?)
}

// `l++`.
#[inline(never)]
pub(crate) fn after_node(
    alloc: Global,
    pos: Pos,
    op: StepOp,
    operand: Box<Expr>,
) -> Result<Box<Expr>, Refusal>
    ensures ok { IfOk result (λ b. tree_of b.value ≡ after pos op (tree_of operand.value)) }
    ensures err { IfErr result (λ f. f ≡ Memory) }
{
    Ok(Box::new(alloc, Expr::After(pos, op, operand))?)
}

// `++e`.
#[inline(never)]
pub(crate) fn before_node(
    alloc: Global,
    pos: Pos,
    op: StepOp,
    operand: Box<Expr>,
) -> Result<Box<Expr>, Refusal>
    ensures ok { IfOk result (λ b. tree_of b.value ≡ before pos op (tree_of operand.value)) }
    ensures err { IfErr result (λ f. f ≡ Memory) }
{
    Ok(Box::new(alloc, Expr::Before(pos, op, operand))?)
}

// `-e`.
#[inline(never)]
pub(crate) fn prefix_node(
    alloc: Global,
    pos: Pos,
    op: PrefixOp,
    operand: Box<Expr>,
) -> Result<Box<Expr>, Refusal>
    ensures ok { IfOk result (λ b. tree_of b.value ≡ prefix pos op (tree_of operand.value)) }
    ensures err { IfErr result (λ f. f ≡ Memory) }
{
    Ok(Box::new(alloc, Expr::Prefix(pos, op, operand))?)
}

// `sizeof e`.
#[inline(never)]
pub(crate) fn size_node(alloc: Global, pos: Pos, operand: Box<Expr>) -> Result<Box<Expr>, Refusal>
    ensures ok { IfOk result (λ b. tree_of b.value ≡ size_of pos (tree_of operand.value)) }
    ensures err { IfErr result (λ f. f ≡ Memory) }
{
    Ok(Box::new(alloc, Expr::SizeofExpr(pos, operand))?)
}

// `sizeof (t)`.
#[inline(never)]
pub(crate) fn type_size_node(alloc: Global, pos: Pos, name: TypeName) -> Result<Box<Expr>, Refusal>
    ensures ok { IfOk result (λ b. tree_of b.value ≡ size_of_type pos (type_of name)) }
    ensures err { IfErr result (λ f. f ≡ Memory) }
{
    Ok(Box::new(alloc, Expr::SizeofType(pos, name))?)
}

// `(t)e`.
#[inline(never)]
pub(crate) fn cast_node(
    alloc: Global,
    pos: Pos,
    name: TypeName,
    operand: Box<Expr>,
) -> Result<Box<Expr>, Refusal>
    ensures ok { IfOk result (λ b. tree_of b.value ≡ cast pos (type_of name) (tree_of operand.value)) }
    ensures err { IfErr result (λ f. f ≡ Memory) }
{
    Ok(Box::new(alloc, Expr::Cast(pos, name, operand))?)
}

// `l op r`.
#[inline(never)]
pub(crate) fn binary_node(
    alloc: Global,
    pos: Pos,
    op: BinaryOp,
    left: Box<Expr>,
    right: Box<Expr>,
) -> Result<Box<Expr>, Refusal>
    ensures ok { IfOk result (λ b. tree_of b.value ≡ binary pos op (tree_of left.value) (tree_of right.value)) }
    ensures err { IfErr result (λ f. f ≡ Memory) }
{
    Ok(Box::new(alloc, Expr::Binary(pos, op, left, right))?)
}

// `c ? y : n`.
#[inline(never)]
pub(crate) fn conditional_node(
    alloc: Global,
    pos: Pos,
    test: Box<Expr>,
    yes: Box<Expr>,
    no: Box<Expr>,
) -> Result<Box<Expr>, Refusal>
    ensures ok { IfOk result (λ b. tree_of b.value ≡ conditional pos (tree_of test.value) (tree_of yes.value) (tree_of no.value)) }
    ensures err { IfErr result (λ f. f ≡ Memory) }
{
    Ok(Box::new(alloc, Expr::Conditional(pos, test, yes, no))?)
}

// `l = r`.
#[inline(never)]
pub(crate) fn assign_node(
    alloc: Global,
    pos: Pos,
    op: AssignOp,
    left: Box<Expr>,
    right: Box<Expr>,
) -> Result<Box<Expr>, Refusal>
    ensures ok { IfOk result (λ b. tree_of b.value ≡ assign pos op (tree_of left.value) (tree_of right.value)) }
    ensures err { IfErr result (λ f. f ≡ Memory) }
{
    Ok(Box::new(alloc, Expr::Assign(pos, op, left, right))?)
}

// One expression more.
#[inline(never)]
pub(crate) fn push_unboxed(list: &mut Vec<Expr>, expr: Box<Expr>) -> Result<(), Refusal>
    ensures ok { OnOk result (list.new.items ≡ list.old.items ++ expr.value ∷ []) }
    ensures err { IfErr result (λ f. f ≡ Memory) }
{
    list.push(Box::into_inner(expr))?;
    Ok(())
}
