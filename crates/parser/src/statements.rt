//! Statements (ISO/IEC 9899:2011 6.8).

ghost use Rattle.std.specs.Prelude.{◌≡◌, ◌<◌, ◌≤◌, ◌∷◌, length, IfOk, IfErr};
ghost use Rattle.lexer.specs.declared.token.Token.{Token};
ghost use Rattle.parser.specs.declared.statement_parts.Form.{Form};
ghost use Rattle.parser.specs.declared.statement_parts.Form.TheVariants as form;
ghost use Rattle.parser_grammar.specs.Tokens.{NotFront};
ghost use Rattle.parser_declarations.specs.DeclarationAnswers.{BeginsDeclaration};
ghost use Rattle.parser.specs.inside.StatementAnswers.{AnswersStmt, StandsStmt, AnswersBody, StandsBody};
ghost use Rattle.parser.specs.inside.StmtParts.{form_kind, AnswersLabelled, StandsLabelled, AnswersTested, StandsTested, AnswersPiece, StandsPiece};

use crate::nodes::{
    block_node, break_node, case_node, continue_node, declaration_piece, default_node,
    do_while_node, empty_node, expression_node, for_node, if_else_node, if_node, push_unboxed,
    return_node, statement_piece, switch_node, while_node,
};
use crate::statement_parts::{
    Form, closed_expression, do_end, expression_place, for_head, form_front, optional_expression,
    test_expression,
};
use lexer::{Keyword, Punctuator, Token};
use parser_declarations::declarations::{begins_declaration, declaration};
use parser_expressions::expressions::conditional;
use parser_expressions::fronts::{down, expect_sign, keyword_front, sign_front};
use parser_grammar::Refusal;
use srcset::Pos;
use std::alloc::Global;
use tree::{BlockItem, Expr, Stmt};

/// A statement at the front of a list, its depth, and the rest of the list. It is boxed: parsing recurses as deep as the tree, and each level takes little of
/// the host's stack.
#[derive(Drop)]
pub(crate) struct StmtPart<'t> {
    pub stmt: Box<Stmt>,
    pub depth: u32,
    pub rest: &'t [Token],
}

/// An expression in parentheses and a statement, their depth, and the rest of the list.
#[derive(Drop)]
pub(crate) struct TestedPart<'t> {
    pub test: Expr,
    pub body: Box<Stmt>,
    pub depth: u32,
    pub rest: &'t [Token],
}

/// A declaration or statement of a block, its depth, and the rest of the list.
#[derive(Drop)]
pub(crate) struct BlockItemPart<'t> {
    pub item: Box<BlockItem>,
    pub depth: u32,
    pub rest: &'t [Token],
}

/// The items of a block, its depth, and the rest of the list after the closing brace.
#[derive(Drop)]
pub(crate) struct BlockPart<'t> {
    pub items: Vec<BlockItem>,
    pub depth: u32,
    pub rest: &'t [Token],
}

/// A statement (6.8), below `depth` nodes.
#[cycle(statements)]
#[inline(never)]
pub(crate) fn statement<'t>(
    alloc: Global,
    tokens: &'t [Token],
    depth: u32,
) -> Result<StmtPart<'t>, Refusal>
    requires { depth ≤ 256 }
    ensures answer { AnswersStmt depth tokens.now result }
    ensures stands { IfErr result (λ f. StandsStmt depth tokens.now f) }
    ensures shorter { IfOk result (λ p. length p.rest.now < length tokens.now) }
{
    let Some((pos, form, rest)) = form_front(tokens) else {
        return expression_statement(alloc, tokens, depth);
    };
    match form {
        Form::Block => block(alloc, pos, rest, depth),
        Form::Empty => empty_statement(alloc, pos, rest, depth),
        Form::If => if_statement(alloc, pos, rest, depth),
        Form::Switch => switch_statement(alloc, pos, rest, depth),
        Form::Case => case_statement(alloc, pos, rest, depth),
        Form::Default => default_statement(alloc, pos, rest, depth),
        Form::While => while_statement(alloc, pos, rest, depth),
        Form::Do => do_statement(alloc, pos, rest, depth),
        Form::For => for_statement(alloc, pos, rest, depth),
        Form::Break => break_statement(alloc, pos, rest, depth),
        Form::Continue => continue_statement(alloc, pos, rest, depth),
        Form::Return => return_statement(alloc, pos, rest, depth),
    }
}

/// The items of a block (6.8.2), after its opening brace and up to the closing one, which is consumed too; below `depth` nodes, the block among them.
#[cycle(statements)]
#[inline(never)]
pub(crate) fn block_items<'t>(
    alloc: Global,
    tokens: &'t [Token],
    depth: u32,
) -> Result<BlockPart<'t>, Refusal>
    requires { depth ≤ 256 }
    ensures answer { AnswersBody depth tokens.now result }
    ensures stands { IfErr result (λ f. StandsBody depth tokens.now f) }
    ensures shorter { IfOk result (λ p. length p.rest.now < length tokens.now) }
{
    let mut items = Vec::new(alloc);
    let mut deepest = 0;
    let mut rest = tokens;
    loop {
        if let Some((_, after)) = sign_front(rest, Punctuator::BraceClose) {
            return Ok(BlockPart {
                items,
                depth: deepest,
                rest: after,
            });
        }
        let next = block_item(alloc, rest, depth)?;
        deepest = deepest.max(next.depth);
        rest = next.rest;
        push_unboxed(&mut items, next.item)?;
    }
}

/// A declaration of a block (6.8.2), below `depth` nodes.
#[inline(never)]
fn declared_item<'t>(
    alloc: Global,
    tokens: &'t [Token],
    depth: u32,
) -> Result<BlockItemPart<'t>, Refusal>
    requires room { depth ≤ 256 }
    requires begins { BeginsDeclaration tokens.now }
    ensures answer { AnswersPiece depth tokens.now result }
    ensures stands { IfErr result (λ f. StandsPiece depth tokens.now f) }
    ensures shorter { IfOk result (λ p. length p.rest.now < length tokens.now) }
{
    let part = declaration(alloc, tokens, depth)?;
    Ok(BlockItemPart {
        item: declaration_piece(alloc, part.declaration)?,
        depth: part.depth,
        rest: part.rest,
    })
}

/// A declaration or a statement (6.8.2), below `depth` nodes.
#[cycle(statements)]
#[inline(never)]
fn block_item<'t>(
    alloc: Global,
    tokens: &'t [Token],
    depth: u32,
) -> Result<BlockItemPart<'t>, Refusal>
    requires { depth ≤ 256 }
    ensures answer { AnswersPiece depth tokens.now result }
    ensures stands { IfErr result (λ f. StandsPiece depth tokens.now f) }
    ensures shorter { IfOk result (λ p. length p.rest.now < length tokens.now) }
{
    if begins_declaration(tokens) {
        return declared_item(alloc, tokens, depth);
    }
    let part = statement(alloc, tokens, depth)?;
    Ok(BlockItemPart {
        item: statement_piece(alloc, part.stmt)?,
        depth: part.depth,
        rest: part.rest,
    })
}

/// An expression in parentheses and a statement (6.8.4, 6.8.5.1), below `depth` nodes.
#[cycle(statements)]
#[inline(never)]
fn tested_statement<'t>(
    alloc: Global,
    tokens: &'t [Token],
    depth: u32,
) -> Result<TestedPart<'t>, Refusal>
    requires { depth ≤ 256 }
    ensures answer { AnswersTested depth tokens.now result }
    ensures stands { IfErr result (λ f. StandsTested depth tokens.now f) }
    ensures shorter { IfOk result (λ p. length p.rest.now < length tokens.now) }
{
    let test = test_expression(alloc, tokens, depth)?;
    let body = statement(alloc, test.rest, depth)?;
    let depth = test.depth.max(body.depth);
    Ok(TestedPart {
        test: test.expr,
        body: body.stmt,
        depth,
        rest: body.rest,
    })
}

/// A colon and a statement (6.8.1), below `depth` nodes. No declaration may appear there.
#[cycle(statements)]
#[inline(never)]
fn labelled_statement<'t>(
    alloc: Global,
    tokens: &'t [Token],
    depth: u32,
) -> Result<StmtPart<'t>, Refusal>
    requires { depth ≤ 256 }
    ensures answer { AnswersLabelled depth tokens.now result }
    ensures stands { IfErr result (λ f. StandsLabelled depth tokens.now f) }
    ensures shorter { IfOk result (λ p. length p.rest.now < length tokens.now) }
{
    let rest = expect_sign(tokens, Punctuator::Colon)?;
    let part = statement(alloc, rest, depth)?;
    Ok(part)
}

/// A block (6.8.2), after its opening brace.
#[cycle(statements)]
#[inline(never)]
fn block<'t>(
    alloc: Global,
    pos: Pos,
    tokens: &'t [Token],
    depth: u32,
) -> Result<StmtPart<'t>, Refusal>
    requires { depth ≤ 256 }
    ensures answer { AnswersStmt depth (record { kind = form_kind form.Block; pos = pos } ∷ tokens.now) result }
    ensures stands { IfErr result (λ f. StandsStmt depth (record { kind = form_kind form.Block; pos = pos } ∷ tokens.now) f) }
    ensures shorter { IfOk result (λ p. length p.rest.now < length tokens.now) }
{
    let below = down(depth, pos)?;
    let body = block_items(alloc, tokens, below)?;
    Ok(StmtPart {
        stmt: block_node(alloc, pos, body.items)?,
        depth: body.depth + 1,
        rest: body.rest,
    })
}

/// `if` with or without `else` (6.8.4.1), after that word.
#[cycle(statements)]
#[inline(never)]
fn if_statement<'t>(
    alloc: Global,
    pos: Pos,
    tokens: &'t [Token],
    depth: u32,
) -> Result<StmtPart<'t>, Refusal>
    requires { depth ≤ 256 }
    ensures answer { AnswersStmt depth (record { kind = form_kind form.If; pos = pos } ∷ tokens.now) result }
    ensures stands { IfErr result (λ f. StandsStmt depth (record { kind = form_kind form.If; pos = pos } ∷ tokens.now) f) }
    ensures shorter { IfOk result (λ p. length p.rest.now < length tokens.now) }
{
    let below = down(depth, pos)?;
    let first = tested_statement(alloc, tokens, below)?;
    let Some((_, rest)) = keyword_front(first.rest, Keyword::Else) else {
        return Ok(StmtPart {
            stmt: if_node(alloc, pos, first.test, first.body)?,
            depth: first.depth + 1,
            rest: first.rest,
        });
    };
    let second = statement(alloc, rest, below)?;
    let depth = first.depth.max(second.depth) + 1;
    Ok(StmtPart {
        stmt: if_else_node(alloc, pos, first.test, first.body, second.stmt)?,
        depth,
        rest: second.rest,
    })
}

/// `switch` (6.8.4.2), after that word.
#[cycle(statements)]
#[inline(never)]
fn switch_statement<'t>(
    alloc: Global,
    pos: Pos,
    tokens: &'t [Token],
    depth: u32,
) -> Result<StmtPart<'t>, Refusal>
    requires { depth ≤ 256 }
    ensures answer { AnswersStmt depth (record { kind = form_kind form.Switch; pos = pos } ∷ tokens.now) result }
    ensures stands { IfErr result (λ f. StandsStmt depth (record { kind = form_kind form.Switch; pos = pos } ∷ tokens.now) f) }
    ensures shorter { IfOk result (λ p. length p.rest.now < length tokens.now) }
{
    let below = down(depth, pos)?;
    let part = tested_statement(alloc, tokens, below)?;
    Ok(StmtPart {
        stmt: switch_node(alloc, pos, part.test, part.body)?,
        depth: part.depth + 1,
        rest: part.rest,
    })
}

/// `while` (6.8.5.1), after that word.
#[cycle(statements)]
#[inline(never)]
fn while_statement<'t>(
    alloc: Global,
    pos: Pos,
    tokens: &'t [Token],
    depth: u32,
) -> Result<StmtPart<'t>, Refusal>
    requires { depth ≤ 256 }
    ensures answer { AnswersStmt depth (record { kind = form_kind form.While; pos = pos } ∷ tokens.now) result }
    ensures stands { IfErr result (λ f. StandsStmt depth (record { kind = form_kind form.While; pos = pos } ∷ tokens.now) f) }
    ensures shorter { IfOk result (λ p. length p.rest.now < length tokens.now) }
{
    let below = down(depth, pos)?;
    let part = tested_statement(alloc, tokens, below)?;
    Ok(StmtPart {
        stmt: while_node(alloc, pos, part.test, part.body)?,
        depth: part.depth + 1,
        rest: part.rest,
    })
}

/// `case` (6.8.1), after that word.
#[cycle(statements)]
#[inline(never)]
fn case_statement<'t>(
    alloc: Global,
    pos: Pos,
    tokens: &'t [Token],
    depth: u32,
) -> Result<StmtPart<'t>, Refusal>
    requires { depth ≤ 256 }
    ensures answer { AnswersStmt depth (record { kind = form_kind form.Case; pos = pos } ∷ tokens.now) result }
    ensures stands { IfErr result (λ f. StandsStmt depth (record { kind = form_kind form.Case; pos = pos } ∷ tokens.now) f) }
    ensures shorter { IfOk result (λ p. length p.rest.now < length tokens.now) }
{
    let below = down(depth, pos)?;
    let value = conditional(alloc, tokens, below)?;
    let body = labelled_statement(alloc, value.rest, below)?;
    let depth = value.depth.max(body.depth) + 1;
    Ok(StmtPart {
        stmt: case_node(alloc, pos, value.expr, body.stmt)?,
        depth,
        rest: body.rest,
    })
}

/// `default` (6.8.1), after that word.
#[cycle(statements)]
#[inline(never)]
fn default_statement<'t>(
    alloc: Global,
    pos: Pos,
    tokens: &'t [Token],
    depth: u32,
) -> Result<StmtPart<'t>, Refusal>
    requires { depth ≤ 256 }
    ensures answer { AnswersStmt depth (record { kind = form_kind form.Default; pos = pos } ∷ tokens.now) result }
    ensures stands { IfErr result (λ f. StandsStmt depth (record { kind = form_kind form.Default; pos = pos } ∷ tokens.now) f) }
    ensures shorter { IfOk result (λ p. length p.rest.now < length tokens.now) }
{
    let below = down(depth, pos)?;
    let body = labelled_statement(alloc, tokens, below)?;
    Ok(StmtPart {
        stmt: default_node(alloc, pos, body.stmt)?,
        depth: body.depth + 1,
        rest: body.rest,
    })
}

/// `do` (6.8.5.2), after that word.
#[cycle(statements)]
#[inline(never)]
fn do_statement<'t>(
    alloc: Global,
    pos: Pos,
    tokens: &'t [Token],
    depth: u32,
) -> Result<StmtPart<'t>, Refusal>
    requires { depth ≤ 256 }
    ensures answer { AnswersStmt depth (record { kind = form_kind form.Do; pos = pos } ∷ tokens.now) result }
    ensures stands { IfErr result (λ f. StandsStmt depth (record { kind = form_kind form.Do; pos = pos } ∷ tokens.now) f) }
    ensures shorter { IfOk result (λ p. length p.rest.now < length tokens.now) }
{
    let below = down(depth, pos)?;
    let body = statement(alloc, tokens, below)?;
    let test = do_end(alloc, body.rest, below)?;
    let depth = body.depth.max(test.depth) + 1;
    Ok(StmtPart {
        stmt: do_while_node(alloc, pos, body.stmt, test.expr)?,
        depth,
        rest: test.rest,
    })
}

/// `for` (6.8.5.3), after that word.
#[cycle(statements)]
#[inline(never)]
fn for_statement<'t>(
    alloc: Global,
    pos: Pos,
    tokens: &'t [Token],
    depth: u32,
) -> Result<StmtPart<'t>, Refusal>
    requires { depth ≤ 256 }
    ensures answer { AnswersStmt depth (record { kind = form_kind form.For; pos = pos } ∷ tokens.now) result }
    ensures stands { IfErr result (λ f. StandsStmt depth (record { kind = form_kind form.For; pos = pos } ∷ tokens.now) f) }
    ensures shorter { IfOk result (λ p. length p.rest.now < length tokens.now) }
{
    let below = down(depth, pos)?;
    let head = for_head(alloc, tokens, below)?;
    let body = statement(alloc, head.rest, below)?;
    let depth = head.depth.max(body.depth) + 1;
    Ok(StmtPart {
        stmt: for_node(alloc, pos, head.start, head.test, head.step, body.stmt)?,
        depth,
        rest: body.rest,
    })
}

/// `;` (6.8.3).
#[inline(never)]
fn empty_statement<'t>(
    alloc: Global,
    pos: Pos,
    tokens: &'t [Token],
    depth: u32,
) -> Result<StmtPart<'t>, Refusal>
    requires { depth ≤ 256 }
    ensures answer { AnswersStmt depth (record { kind = form_kind form.Empty; pos = pos } ∷ tokens.now) result }
    ensures stands { IfErr result (λ f. StandsStmt depth (record { kind = form_kind form.Empty; pos = pos } ∷ tokens.now) f) }
    ensures shorter { IfOk result (λ p. length p.rest.now ≤ length tokens.now) }
{
    down(depth, pos)?;
    Ok(StmtPart {
        stmt: empty_node(alloc, pos)?,
        depth: 1,
        rest: tokens,
    })
}

/// `break` (6.8.6.3), after that word.
#[inline(never)]
fn break_statement<'t>(
    alloc: Global,
    pos: Pos,
    tokens: &'t [Token],
    depth: u32,
) -> Result<StmtPart<'t>, Refusal>
    requires { depth ≤ 256 }
    ensures answer { AnswersStmt depth (record { kind = form_kind form.Break; pos = pos } ∷ tokens.now) result }
    ensures stands { IfErr result (λ f. StandsStmt depth (record { kind = form_kind form.Break; pos = pos } ∷ tokens.now) f) }
    ensures shorter { IfOk result (λ p. length p.rest.now < length tokens.now) }
{
    down(depth, pos)?;
    let rest = expect_sign(tokens, Punctuator::Semicolon)?;
    Ok(StmtPart {
        stmt: break_node(alloc, pos)?,
        depth: 1,
        rest,
    })
}

/// `continue` (6.8.6.2), after that word.
#[inline(never)]
fn continue_statement<'t>(
    alloc: Global,
    pos: Pos,
    tokens: &'t [Token],
    depth: u32,
) -> Result<StmtPart<'t>, Refusal>
    requires { depth ≤ 256 }
    ensures answer { AnswersStmt depth (record { kind = form_kind form.Continue; pos = pos } ∷ tokens.now) result }
    ensures stands { IfErr result (λ f. StandsStmt depth (record { kind = form_kind form.Continue; pos = pos } ∷ tokens.now) f) }
    ensures shorter { IfOk result (λ p. length p.rest.now < length tokens.now) }
{
    down(depth, pos)?;
    let rest = expect_sign(tokens, Punctuator::Semicolon)?;
    Ok(StmtPart {
        stmt: continue_node(alloc, pos)?,
        depth: 1,
        rest,
    })
}

/// `return` with or without an expression (6.8.6.4), after that word.
#[inline(never)]
fn return_statement<'t>(
    alloc: Global,
    pos: Pos,
    tokens: &'t [Token],
    depth: u32,
) -> Result<StmtPart<'t>, Refusal>
    requires { depth ≤ 256 }
    ensures answer { AnswersStmt depth (record { kind = form_kind form.Return; pos = pos } ∷ tokens.now) result }
    ensures stands { IfErr result (λ f. StandsStmt depth (record { kind = form_kind form.Return; pos = pos } ∷ tokens.now) f) }
    ensures shorter { IfOk result (λ p. length p.rest.now < length tokens.now) }
{
    let below = down(depth, pos)?;
    let value = optional_expression(alloc, tokens, below, Punctuator::Semicolon)?;
    Ok(StmtPart {
        stmt: return_node(alloc, pos, value.expr)?,
        depth: value.depth + 1,
        rest: value.rest,
    })
}

/// An expression statement (6.8.3), where no other form begins.
#[inline(never)]
fn expression_statement<'t>(
    alloc: Global,
    tokens: &'t [Token],
    depth: u32,
) -> Result<StmtPart<'t>, Refusal>
    requires room { depth ≤ 256 }
    requires other { (f : Form) → NotFront (form_kind f) tokens.now }
    ensures answer { AnswersStmt depth tokens.now result }
    ensures stands { IfErr result (λ f. StandsStmt depth tokens.now f) }
    ensures shorter { IfOk result (λ p. length p.rest.now < length tokens.now) }
{
    let Some(pos) = expression_place(tokens) else {
        return Err(Refusal::Syntax(tokens.len()));
    };
    let below = down(depth, pos)?;
    let part = closed_expression(alloc, tokens, below, Punctuator::Semicolon)?;
    Ok(StmtPart {
        stmt: expression_node(alloc, pos, part.expr)?,
        depth: part.depth + 1,
        rest: part.rest,
    })
}
