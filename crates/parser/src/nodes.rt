//! The nodes of statements, each boxed (ISO/IEC 9899:2011 6.8).
//!
//! None is inlined: reading goes as deep as the tree does, and a node is large.

ghost use Rattle.std.specs.Prelude.{◌≡◌, ◌++◌, ◌∷◌, [], map, IfOk, IfErr, OnOk};
ghost use Rattle.tree.specs.Tree.{block_stmt, empty_stmt, expression_stmt, if_stmt, if_else_stmt, switch_stmt, case_stmt, default_stmt, while_stmt, do_while_stmt, for_stmt, break_stmt, continue_stmt, return_stmt, declaration_item, statement_item};
ghost use Rattle.tree.specs.View.{tree_of, option_tree, declaration_of, start_of, pieces_of, stmt_of, piece_of};
ghost use Rattle.parser_grammar.specs.declared.refusal.Refusal.TheVariants.{Memory};

use parser_grammar::Refusal;
use srcset::Pos;
use std::alloc::Global;
use tree::{BlockItem, Declaration, Expr, ForHead, ForStart, Stmt};

/// `;`
#[inline(never)]
pub(crate) fn empty_node(alloc: Global, pos: Pos) -> Result<Box<Stmt>, Refusal>
    ensures ok { IfOk result (λ b. stmt_of b.value ≡ empty_stmt pos) }
    ensures err { IfErr result (λ f. f ≡ Memory) }
{
    Ok(Box::new(alloc, Stmt::Empty(pos))?)
}

/// `break;`
#[inline(never)]
pub(crate) fn break_node(alloc: Global, pos: Pos) -> Result<Box<Stmt>, Refusal>
    ensures ok { IfOk result (λ b. stmt_of b.value ≡ break_stmt pos) }
    ensures err { IfErr result (λ f. f ≡ Memory) }
{
    Ok(Box::new(alloc, Stmt::Break(pos))?)
}

/// `continue;`
#[inline(never)]
pub(crate) fn continue_node(alloc: Global, pos: Pos) -> Result<Box<Stmt>, Refusal>
    ensures ok { IfOk result (λ b. stmt_of b.value ≡ continue_stmt pos) }
    ensures err { IfErr result (λ f. f ≡ Memory) }
{
    Ok(Box::new(alloc, Stmt::Continue(pos))?)
}

/// `return;` or `return e;`
#[inline(never)]
pub(crate) fn return_node(
    alloc: Global,
    pos: Pos,
    value: Option<Expr>,
) -> Result<Box<Stmt>, Refusal>
    ensures ok { IfOk result (λ b. stmt_of b.value ≡ return_stmt pos (option_tree value)) }
    ensures err { IfErr result (λ f. f ≡ Memory) }
{
    Ok(Box::new(alloc, Stmt::Return(pos, value))?)
}

/// `e;`
#[inline(never)]
pub(crate) fn expression_node(alloc: Global, pos: Pos, expr: Expr) -> Result<Box<Stmt>, Refusal>
    ensures ok { IfOk result (λ b. stmt_of b.value ≡ expression_stmt pos (tree_of expr)) }
    ensures err { IfErr result (λ f. f ≡ Memory) }
{
    Ok(Box::new(alloc, Stmt::Expression(pos, expr))?)
}

/// `{ .. }`
#[inline(never)]
pub(crate) fn block_node(
    alloc: Global,
    pos: Pos,
    items: Vec<BlockItem>,
) -> Result<Box<Stmt>, Refusal>
    ensures ok { IfOk result (λ b. stmt_of b.value ≡ block_stmt pos (pieces_of (map piece_of items.items))) }
    ensures err { IfErr result (λ f. f ≡ Memory) }
{
    Ok(Box::new(alloc, Stmt::Block(pos, items))?)
}

/// `if (e) s`
#[inline(never)]
pub(crate) fn if_node(
    alloc: Global,
    pos: Pos,
    test: Expr,
    body: Box<Stmt>,
) -> Result<Box<Stmt>, Refusal>
    ensures ok { IfOk result (λ b. stmt_of b.value ≡ if_stmt pos (tree_of test) (stmt_of body.value)) }
    ensures err { IfErr result (λ f. f ≡ Memory) }
{
    Ok(Box::new(alloc, Stmt::If(pos, test, body))?)
}

/// `if (e) s else s`
#[inline(never)]
pub(crate) fn if_else_node(
    alloc: Global,
    pos: Pos,
    test: Expr,
    first: Box<Stmt>,
    second: Box<Stmt>,
) -> Result<Box<Stmt>, Refusal>
    ensures ok { IfOk result (λ b. stmt_of b.value ≡ if_else_stmt pos (tree_of test) (stmt_of first.value) (stmt_of second.value)) }
    ensures err { IfErr result (λ f. f ≡ Memory) }
{
    Ok(Box::new(alloc, Stmt::IfElse(pos, test, first, second))?)
}

/// `switch (e) s`
#[inline(never)]
pub(crate) fn switch_node(
    alloc: Global,
    pos: Pos,
    test: Expr,
    body: Box<Stmt>,
) -> Result<Box<Stmt>, Refusal>
    ensures ok { IfOk result (λ b. stmt_of b.value ≡ switch_stmt pos (tree_of test) (stmt_of body.value)) }
    ensures err { IfErr result (λ f. f ≡ Memory) }
{
    Ok(Box::new(alloc, Stmt::Switch(pos, test, body))?)
}

/// `while (e) s`
#[inline(never)]
pub(crate) fn while_node(
    alloc: Global,
    pos: Pos,
    test: Expr,
    body: Box<Stmt>,
) -> Result<Box<Stmt>, Refusal>
    ensures ok { IfOk result (λ b. stmt_of b.value ≡ while_stmt pos (tree_of test) (stmt_of body.value)) }
    ensures err { IfErr result (λ f. f ≡ Memory) }
{
    Ok(Box::new(alloc, Stmt::While(pos, test, body))?)
}

/// `case e: s`
#[inline(never)]
pub(crate) fn case_node(
    alloc: Global,
    pos: Pos,
    value: Expr,
    body: Box<Stmt>,
) -> Result<Box<Stmt>, Refusal>
    ensures ok { IfOk result (λ b. stmt_of b.value ≡ case_stmt pos (tree_of value) (stmt_of body.value)) }
    ensures err { IfErr result (λ f. f ≡ Memory) }
{
    Ok(Box::new(alloc, Stmt::Case(pos, value, body))?)
}

/// `default: s`
#[inline(never)]
pub(crate) fn default_node(alloc: Global, pos: Pos, body: Box<Stmt>) -> Result<Box<Stmt>, Refusal>
    ensures ok { IfOk result (λ b. stmt_of b.value ≡ default_stmt pos (stmt_of body.value)) }
    ensures err { IfErr result (λ f. f ≡ Memory) }
{
    Ok(Box::new(alloc, Stmt::Default(pos, body))?)
}

/// `do s while (e);`
#[inline(never)]
pub(crate) fn do_while_node(
    alloc: Global,
    pos: Pos,
    body: Box<Stmt>,
    test: Expr,
) -> Result<Box<Stmt>, Refusal>
    ensures ok { IfOk result (λ b. stmt_of b.value ≡ do_while_stmt pos (stmt_of body.value) (tree_of test)) }
    ensures err { IfErr result (λ f. f ≡ Memory) }
{
    Ok(Box::new(alloc, Stmt::DoWhile(pos, body, test))?)
}

/// `for (a; b; c) s`
#[inline(never)]
pub(crate) fn for_node(
    alloc: Global,
    pos: Pos,
    start: ForStart,
    test: Option<Expr>,
    step: Option<Expr>,
    body: Box<Stmt>,
) -> Result<Box<Stmt>, Refusal>
    ensures ok { IfOk result (λ b. stmt_of b.value ≡ for_stmt pos (start_of start) (option_tree test) (option_tree step) (stmt_of body.value)) }
    ensures err { IfErr result (λ f. f ≡ Memory) }
{
    let head = Box::new(alloc, ForHead { start, test, step })?;
    Ok(Box::new(alloc, Stmt::For(pos, head, body))?)
}

/// A statement of a block.
#[inline(never)]
pub(crate) fn statement_piece(alloc: Global, stmt: Box<Stmt>) -> Result<Box<BlockItem>, Refusal>
    ensures ok { IfOk result (λ b. piece_of b.value ≡ statement_item (stmt_of stmt.value)) }
    ensures err { IfErr result (λ f. f ≡ Memory) }
{
    Ok(Box::new(alloc, BlockItem::Statement(Box::into_inner(stmt)))?)
}

/// A declaration of a block.
#[inline(never)]
pub(crate) fn declaration_piece(
    alloc: Global,
    declaration: Declaration,
) -> Result<Box<BlockItem>, Refusal>
    ensures ok { IfOk result (λ b. piece_of b.value ≡ declaration_item (declaration_of declaration)) }
    ensures err { IfErr result (λ f. f ≡ Memory) }
{
    Ok(Box::new(alloc, BlockItem::Declaration(declaration))?)
}

/// One more item of a block.
#[inline(never)]
pub(crate) fn push_unboxed(items: &mut Vec<BlockItem>, item: Box<BlockItem>) -> Result<(), Refusal>
    ensures ok { OnOk result (items.new.items ≡ items.old.items ++ item.value ∷ []) }
    ensures err { IfErr result (λ f. f ≡ Memory) }
{
    items.push(Box::into_inner(item))?;
    Ok(())
}
