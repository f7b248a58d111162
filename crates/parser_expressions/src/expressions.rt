//! Expressions (ISO/IEC 9899:2011 6.5) and type names (6.7.7).

ghost use Rattle.std.specs.Prelude.{max, List, ◌≡◌, ℕ, ◌<◌, ◌≤◌, ◌+◌, length, IfOk, IfErr, MatchOption, ◌∷◌, ◌↔◌, IsTrue};
ghost use Rattle.lexer.specs.declared.token.Kind.TheVariants as kind;
ghost use Rattle.lexer.specs.declared.token.Keyword.TheVariants as keyword;
ghost use Rattle.lexer.specs.declared.token.Punctuator.TheVariants as sign;
ghost use Rattle.lexer.specs.declared.token.Token.{Token};
ghost use Rattle.srcset.specs.declared.refusal.Pos.{Pos};
ghost use Rattle.tree.specs.Tree.{binary, subscript, after};
ghost use Rattle.tree.specs.View.{tree_of};
ghost use Rattle.tree.specs.declared.expression.BinaryOp.{BinaryOp};
ghost use Rattle.parser_grammar.specs.Tokens.{Own, NotFront};
ghost use Rattle.parser_grammar.specs.Expressions.{layer_of, binary_sign};
ghost use Rattle.parser_expressions.specs.ExpressionAnswers.{BeginsType, Answers, Stands};
ghost use Rattle.parser_expressions.specs.ExpressionLeads.{KindBeginsExpression, BeginsExpression};
ghost use Rattle.parser_expressions.specs.inside.PartAnswers.{AnswersBoxed, AnswersArguments, StandsArguments, AnswersType, StandsType};
ghost use Rattle.parser_grammar.specs.declared.refusal.Refusal.TheVariants.{Memory};

use crate::fronts::{
    above, constant_front, down, expect_sign, identifier_front, keyword_front, sign_front,
    string_front,
};
use crate::nodes::{
    after_node, assign_node, before_node, binary_node, call_node, cast_node, conditional_node,
    constant_node, name_node, paren_node, prefix_node, push_unboxed, size_node, string_node,
    subscript_node, type_size_node,
};
use crate::operators::{
    assign_front, binary_front, is_unary, layer_number, prefix_front, step_front,
};
use crate::type_specifiers::{begins_type, type_specifiers};
use lexer::{Keyword, Kind, Punctuator, Token};
use parser_grammar::Refusal;
use srcset::Pos;
use std::alloc::Global;
use tree::{BinaryOp, Expr, StepOp, TypeName};

/// An expression at the front of a list, its depth, and the rest of the list.
#[derive(Drop)]
pub struct Part<'t> {
    pub expr: Expr,
    pub depth: u32,
    pub rest: &'t [Token],
}

/// The same, boxed: recursion is as deep as the tree, and a level leaves little on the host's stack.
#[derive(Drop)]
pub(crate) struct BoxedPart<'t> {
    pub expr: Box<Expr>,
    pub depth: u32,
    pub rest: &'t [Token],
}

/// The arguments of a call, their depth, and the rest of the list after the closing parenthesis.
#[derive(Drop)]
pub(crate) struct ArgumentsPart<'t> {
    pub list: Vec<Expr>,
    pub depth: u32,
    pub rest: &'t [Token],
}

/// The name of a type, its depth, and the rest of the list after the closing parenthesis.
#[derive(Drop)]
pub(crate) struct TypePart<'t> {
    pub name: TypeName,
    pub depth: u32,
    pub rest: &'t [Token],
}

fn kind_begins_expression(kind: Kind) -> bool
    ensures { IsTrue result ↔ KindBeginsExpression kind }
{
    match kind {
        Kind::Identifier(_) | Kind::Constant(_, _) | Kind::StringLiteral(_) => true,
        Kind::Keyword(keyword) => match keyword {
            Keyword::Sizeof => true,
            _ => false,
        },
        Kind::Punctuator(sign) => match sign {
            Punctuator::ParenOpen
            | Punctuator::PlusPlus
            | Punctuator::MinusMinus
            | Punctuator::Plus
            | Punctuator::Minus
            | Punctuator::Tilde
            | Punctuator::Bang => true,
            _ => false,
        },
    }
}

/// Whether an expression may begin with the token at the front.
pub fn begins_expression(tokens: &[Token]) -> bool
    ensures { IsTrue result ↔ BeginsExpression tokens.now }
{
    match tokens {
        [first, ..] => kind_begins_expression(first.kind),
        [] => false,
    }
}

// The parenthesis before a type name, and the remaining tokens.
#[inline(never)]
fn cast_front<'t>(tokens: &'t [Token]) -> Option<(Pos, &'t [Token])>
    ensures { MatchOption result ((at : Pos) (rest : List Token) → Own (kind.Punctuator sign.ParenOpen) at tokens.now rest → BeginsType rest → ⊥)
        (λ p. Own (kind.Punctuator sign.ParenOpen) p.0 tokens.now p.1.now × BeginsType p.1.now) }
{
    let (pos, rest) = sign_front(tokens, Punctuator::ParenOpen)?;
    if begins_type(rest) {
        return Some((pos, rest));
    }
    None
}

// `l op r`.
#[inline(never)]
fn join<'t>(
    alloc: Global,
    pos: Pos,
    op: BinaryOp,
    left: BoxedPart<'t>,
    right: BoxedPart<'t>,
) -> Result<BoxedPart<'t>, Refusal>
    requires left { left.depth ≤ 256 }
    requires right { right.depth ≤ 256 }
    ensures ok { IfOk result (λ p. tree_of p.expr.value ≡ binary pos op (tree_of left.entry.expr.value) (tree_of right.entry.expr.value)) }
    ensures depth { IfOk result (λ p. p.depth ≡ max left.entry.depth right.entry.depth + 1) }
    ensures rest { IfOk result (λ p. p.rest.now ≡ right.entry.rest.now) }
    ensures err { IfErr result (λ f. f ≡ Memory) }
{
    let depth = left.depth.max(right.depth) + 1;
    Ok(BoxedPart {
        expr: binary_node(alloc, pos, op, left.expr, right.expr)?,
        depth,
        rest: right.rest,
    })
}

// `l[i]`.
#[inline(never)]
fn join_index<'t>(
    alloc: Global,
    pos: Pos,
    left: BoxedPart<'t>,
    index: BoxedPart<'t>,
    rest: &'t [Token],
) -> Result<BoxedPart<'t>, Refusal>
    requires left { left.depth ≤ 256 }
    requires index { index.depth ≤ 256 }
    ensures ok { IfOk result (λ p. tree_of p.expr.value ≡ subscript pos (tree_of left.entry.expr.value) (tree_of index.entry.expr.value)) }
    ensures depth { IfOk result (λ p. p.depth ≡ max left.entry.depth index.entry.depth + 1) }
    ensures rest { IfOk result (λ p. p.rest.now ≡ rest.now) }
    ensures err { IfErr result (λ f. f ≡ Memory) }
{
    let depth = left.depth.max(index.depth) + 1;
    Ok(BoxedPart {
        expr: subscript_node(alloc, pos, left.expr, index.expr)?,
        depth,
        rest,
    })
}

// `l++`.
#[inline(never)]
fn join_step<'t>(
    alloc: Global,
    pos: Pos,
    op: StepOp,
    left: BoxedPart<'t>,
    rest: &'t [Token],
) -> Result<BoxedPart<'t>, Refusal>
    requires left { left.depth ≤ 256 }
    ensures ok { IfOk result (λ p. tree_of p.expr.value ≡ after pos op (tree_of left.entry.expr.value)) }
    ensures depth { IfOk result (λ p. p.depth ≡ left.entry.depth + 1) }
    ensures rest { IfOk result (λ p. p.rest.now ≡ rest.now) }
    ensures err { IfErr result (λ f. f ≡ Memory) }
{
    Ok(BoxedPart {
        expr: after_node(alloc, pos, op, left.expr)?,
        depth: left.depth + 1,
        rest,
    })
}

// The part that is boxed.
fn unboxed<'t>(part: BoxedPart<'t>) -> Part<'t>
    ensures expr { result.expr ≡ part.entry.expr.value }
    ensures depth { result.depth ≡ part.entry.depth }
    ensures rest { result.rest.now ≡ part.entry.rest.now }
{
    Part {
        expr: Box::into_inner(part.expr),
        depth: part.depth,
        rest: part.rest,
    }
}

/// An expression (6.5.17), under `depth` nodes.
#[inline(never)]
pub fn expression<'t>(alloc: Global, tokens: &'t [Token], depth: u32) -> Result<Part<'t>, Refusal>
    requires { depth ≤ 256 }
    ensures answer { Answers 0 depth tokens.now result }
    ensures stands { IfErr result (λ f. Stands 0 depth tokens.now f) }
    ensures shorter { IfOk result (λ p. length p.rest.now < length tokens.now) }
{
    match read_expression(alloc, tokens, depth) {
        Ok(part) => Ok(unboxed(part)),
        Err(refusal) => Err(refusal),
    }
}

/// An assignment expression (6.5.16), under `depth` nodes.
#[inline(never)]
pub fn assignment<'t>(alloc: Global, tokens: &'t [Token], depth: u32) -> Result<Part<'t>, Refusal>
    requires { depth ≤ 256 }
    ensures answer { Answers 1 depth tokens.now result }
    ensures stands { IfErr result (λ f. Stands 1 depth tokens.now f) }
    ensures shorter { IfOk result (λ p. length p.rest.now < length tokens.now) }
{
    match read_assignment(alloc, tokens, depth) {
        Ok(part) => Ok(unboxed(part)),
        Err(refusal) => Err(refusal),
    }
}

/// A conditional expression (6.5.15), under `depth` nodes.
#[inline(never)]
pub fn conditional<'t>(alloc: Global, tokens: &'t [Token], depth: u32) -> Result<Part<'t>, Refusal>
    requires { depth ≤ 256 }
    ensures answer { Answers 2 depth tokens.now result }
    ensures stands { IfErr result (λ f. Stands 2 depth tokens.now f) }
    ensures shorter { IfOk result (λ p. length p.rest.now < length tokens.now) }
{
    match read_conditional(alloc, tokens, depth) {
        Ok(part) => Ok(unboxed(part)),
        Err(refusal) => Err(refusal),
    }
}

// An expression (6.5.17), under `depth` nodes.
#[cycle(expressions)]
#[inline(never)]
fn read_expression<'t>(
    alloc: Global,
    tokens: &'t [Token],
    depth: u32,
) -> Result<BoxedPart<'t>, Refusal>
    requires { depth ≤ 256 }
    ensures answer { AnswersBoxed 0 depth tokens.now result }
    ensures stands { IfErr result (λ f. Stands 0 depth tokens.now f) }
    ensures shorter { IfOk result (λ p. length p.rest.now < length tokens.now) }
{
    let mut left = read_assignment(alloc, tokens, depth)?;
    while let Some((pos, rest)) = sign_front(left.rest, Punctuator::Comma) {
        let below = above(depth, left.depth, pos)?;
        let right = read_assignment(alloc, rest, below)?;
        left = join(alloc, pos, BinaryOp::Comma, left, right)?;
    }
    Ok(left)
}

// An assignment expression (6.5.16), under `depth` nodes.
#[cycle(expressions)]
#[inline(never)]
fn read_assignment<'t>(
    alloc: Global,
    tokens: &'t [Token],
    depth: u32,
) -> Result<BoxedPart<'t>, Refusal>
    requires { depth ≤ 256 }
    ensures answer { AnswersBoxed 1 depth tokens.now result }
    ensures stands { IfErr result (λ f. Stands 1 depth tokens.now f) }
    ensures shorter { IfOk result (λ p. length p.rest.now < length tokens.now) }
{
    let left = read_conditional(alloc, tokens, depth)?;
    let Some((pos, op, rest)) = assign_front(left.rest) else {
        return Ok(left);
    };
    if !is_unary(&left.expr) {
        return Err(Refusal::Syntax(left.rest.len()));
    }
    let below = above(depth, left.depth, pos)?;
    let right = read_assignment(alloc, rest, below)?;
    let depth = left.depth.max(right.depth) + 1;
    Ok(BoxedPart {
        expr: assign_node(alloc, pos, op, left.expr, right.expr)?,
        depth,
        rest: right.rest,
    })
}

// A conditional expression (6.5.15), under `depth` nodes.
#[cycle(expressions)]
#[inline(never)]
fn read_conditional<'t>(
    alloc: Global,
    tokens: &'t [Token],
    depth: u32,
) -> Result<BoxedPart<'t>, Refusal>
    requires { depth ≤ 256 }
    ensures answer { AnswersBoxed 2 depth tokens.now result }
    ensures stands { IfErr result (λ f. Stands 2 depth tokens.now f) }
    ensures shorter { IfOk result (λ p. length p.rest.now < length tokens.now) }
{
    let test = binary(alloc, tokens, 3, depth)?;
    let Some((pos, rest)) = sign_front(test.rest, Punctuator::Question) else {
        return Ok(test);
    };
    let below = above(depth, test.depth, pos)?;
    let yes = read_expression(alloc, rest, below)?;
    let rest = expect_sign(yes.rest, Punctuator::Colon)?;
    let no = read_conditional(alloc, rest, below)?;
    let depth = test.depth.max(yes.depth.max(no.depth)) + 1;
    Ok(BoxedPart {
        expr: conditional_node(alloc, pos, test.expr, yes.expr, no.expr)?,
        depth,
        rest: no.rest,
    })
}

// An expression of operators whose layer is at least `min` (6.5.5 to 6.5.14), by precedence climbing.
#[cycle(expressions)]
#[inline(never)]
fn binary<'t>(
    alloc: Global,
    tokens: &'t [Token],
    min: u32,
    depth: u32,
) -> Result<BoxedPart<'t>, Refusal>
    requires room { depth ≤ 256 }
    requires from { 3 ≤ min }
    requires upto { min ≤ 13 }
    ensures answer { AnswersBoxed min depth tokens.now result }
    ensures stands { IfErr result (λ f. Stands min depth tokens.now f) }
    ensures ends { IfOk result (λ p. (op : BinaryOp) → min ≤ layer_of op → NotFront (kind.Punctuator (binary_sign op)) p.rest.now) }
    ensures shorter { IfOk result (λ p. length p.rest.now < length tokens.now) }
{
    let mut left = cast(alloc, tokens, depth)?;
    while let Some((pos, op, rest)) = binary_front(left.rest, min) {
        let below = above(depth, left.depth, pos)?;
        let right = binary(alloc, rest, layer_number(op) + 1, below)?;
        left = join(alloc, pos, op, left, right)?;
    }
    Ok(left)
}

// A cast expression (6.5.4).
#[cycle(expressions)]
#[inline(never)]
fn cast<'t>(alloc: Global, tokens: &'t [Token], depth: u32) -> Result<BoxedPart<'t>, Refusal>
    requires { depth ≤ 256 }
    ensures answer { AnswersBoxed 13 depth tokens.now result }
    ensures stands { IfErr result (λ f. Stands 13 depth tokens.now f) }
    ensures shorter { IfOk result (λ p. length p.rest.now < length tokens.now) }
{
    if let Some((pos, rest)) = cast_front(tokens) {
        let below = down(depth, pos)?;
        let named = type_name(alloc, rest, below)?;
        let operand = cast(alloc, named.rest, below)?;
        let depth = named.depth.max(operand.depth) + 1;
        return Ok(BoxedPart {
            expr: cast_node(alloc, pos, named.name, operand.expr)?,
            depth,
            rest: operand.rest,
        });
    }
    unary(alloc, tokens, depth)
}

// A type name (6.7.7), after its opening parenthesis and up to the closing one, which is consumed.
#[cycle(expressions)]
#[inline(never)]
fn type_name<'t>(alloc: Global, tokens: &'t [Token], depth: u32) -> Result<TypePart<'t>, Refusal>
    requires { depth ≤ 256 }
    ensures answer { AnswersType depth tokens.now result }
    ensures stands { IfErr result (λ f. StandsType depth tokens.now f) }
    ensures shorter { IfOk result (λ p. length p.rest.now < length tokens.now) }
{
    let first = type_specifiers(alloc, tokens)?;
    let mut sizes = Vec::new(alloc);
    let mut deepest = 0u32;
    let mut rest = first.rest;
    while let Some((_, inner)) = sign_front(rest, Punctuator::BracketOpen) {
        let size = read_conditional(alloc, inner, depth)?;
        rest = expect_sign(size.rest, Punctuator::BracketClose)?;
        deepest = deepest.max(size.depth);
        push_unboxed(&mut sizes, size.expr)?;
    }
    let rest = expect_sign(rest, Punctuator::ParenClose)?;
    Ok(TypePart {
        name: TypeName {
            specifiers: first.specifiers,
            sizes,
        },
        depth: deepest,
        rest,
    })
}

// A unary expression (6.5.3).
#[cycle(expressions)]
#[inline(never)]
fn unary<'t>(alloc: Global, tokens: &'t [Token], depth: u32) -> Result<BoxedPart<'t>, Refusal>
    requires { depth ≤ 256 }
    ensures answer { AnswersBoxed 14 depth tokens.now result }
    ensures stands { IfErr result (λ f. Stands 14 depth tokens.now f) }
    ensures shorter { IfOk result (λ p. length p.rest.now < length tokens.now) }
{
    if let Some((pos, op, rest)) = step_front(tokens) {
        let below = down(depth, pos)?;
        let operand = unary(alloc, rest, below)?;
        return Ok(BoxedPart {
            expr: before_node(alloc, pos, op, operand.expr)?,
            depth: operand.depth + 1,
            rest: operand.rest,
        });
    }
    if let Some((pos, op, rest)) = prefix_front(tokens) {
        let below = down(depth, pos)?;
        let operand = cast(alloc, rest, below)?;
        return Ok(BoxedPart {
            expr: prefix_node(alloc, pos, op, operand.expr)?,
            depth: operand.depth + 1,
            rest: operand.rest,
        });
    }
    if let Some((pos, rest)) = keyword_front(tokens, Keyword::Sizeof) {
        return sizeof(alloc, pos, rest, depth);
    }
    postfix(alloc, tokens, depth)
}

// The operand of `sizeof` (6.5.3.4), after that keyword.
#[cycle(expressions)]
#[inline(never)]
fn sizeof<'t>(
    alloc: Global,
    pos: Pos,
    tokens: &'t [Token],
    depth: u32,
) -> Result<BoxedPart<'t>, Refusal>
    requires { depth ≤ 256 }
    ensures answer { AnswersBoxed 14 depth (record { kind = kind.Keyword keyword.Sizeof; pos = pos } ∷ tokens.now) result }
    ensures stands { IfErr result (λ f. Stands 14 depth (record { kind = kind.Keyword keyword.Sizeof; pos = pos } ∷ tokens.now) f) }
    ensures shorter { IfOk result (λ p. length p.rest.now < length tokens.now + 1) }
{
    let below = down(depth, pos)?;
    if let Some((_, rest)) = cast_front(tokens) {
        let named = type_name(alloc, rest, below)?;
        return Ok(BoxedPart {
            expr: type_size_node(alloc, pos, named.name)?,
            depth: named.depth + 1,
            rest: named.rest,
        });
    }
    let operand = unary(alloc, tokens, below)?;
    Ok(BoxedPart {
        expr: size_node(alloc, pos, operand.expr)?,
        depth: operand.depth + 1,
        rest: operand.rest,
    })
}

// A postfix expression (6.5.2).
#[cycle(expressions)]
#[inline(never)]
fn postfix<'t>(alloc: Global, tokens: &'t [Token], depth: u32) -> Result<BoxedPart<'t>, Refusal>
    requires { depth ≤ 256 }
    ensures answer { AnswersBoxed 15 depth tokens.now result }
    ensures stands { IfErr result (λ f. Stands 15 depth tokens.now f) }
    ensures shorter { IfOk result (λ p. length p.rest.now < length tokens.now) }
{
    let mut left = primary(alloc, tokens, depth)?;
    loop {
        if let Some((pos, op, rest)) = step_front(left.rest) {
            above(depth, left.depth, pos)?;
            left = join_step(alloc, pos, op, left, rest)?;
            continue;
        }
        let Some((pos, rest)) = sign_front(left.rest, Punctuator::BracketOpen) else {
            return Ok(left);
        };
        let below = above(depth, left.depth, pos)?;
        let index = read_expression(alloc, rest, below)?;
        let rest = expect_sign(index.rest, Punctuator::BracketClose)?;
        left = join_index(alloc, pos, left, index, rest)?;
    }
}

// A primary expression (6.5.1), or the call of a function that is named (6.5.2.2).
#[cycle(expressions)]
#[inline(never)]
fn primary<'t>(alloc: Global, tokens: &'t [Token], depth: u32) -> Result<BoxedPart<'t>, Refusal>
    requires { depth ≤ 256 }
    ensures answer { AnswersBoxed 16 depth tokens.now result }
    ensures stands { IfErr result (λ f. Stands 16 depth tokens.now f) }
    ensures shorter { IfOk result (λ p. length p.rest.now < length tokens.now) }
{
    if let Some((pos, name, rest)) = identifier_front(tokens) {
        let below = down(depth, pos)?;
        if let Some((_, rest)) = sign_front(rest, Punctuator::ParenOpen) {
            let arguments = read_arguments(alloc, rest, below)?;
            return Ok(BoxedPart {
                expr: call_node(alloc, pos, name, arguments.list)?,
                depth: arguments.depth + 1,
                rest: arguments.rest,
            });
        }
        return Ok(BoxedPart {
            expr: name_node(alloc, pos, name)?,
            depth: 1,
            rest,
        });
    }
    if let Some((pos, ty, value, rest)) = constant_front(tokens) {
        down(depth, pos)?;
        return Ok(BoxedPart {
            expr: constant_node(alloc, pos, ty, value)?,
            depth: 1,
            rest,
        });
    }
    if let Some((pos, text, rest)) = string_front(tokens) {
        down(depth, pos)?;
        return Ok(BoxedPart {
            expr: string_node(alloc, pos, text)?,
            depth: 1,
            rest,
        });
    }
    let Some((pos, rest)) = sign_front(tokens, Punctuator::ParenOpen) else {
        return Err(Refusal::Syntax(tokens.len()));
    };
    let below = down(depth, pos)?;
    let inner = read_expression(alloc, rest, below)?;
    let rest = expect_sign(inner.rest, Punctuator::ParenClose)?;
    Ok(BoxedPart {
        expr: paren_node(alloc, inner.expr)?,
        depth: inner.depth + 1,
        rest,
    })
}

// The arguments of a call (6.5.2.2), after its opening parenthesis and up to the closing one, which is consumed.
#[cycle(expressions)]
#[inline(never)]
fn read_arguments<'t>(
    alloc: Global,
    tokens: &'t [Token],
    depth: u32,
) -> Result<ArgumentsPart<'t>, Refusal>
    requires { depth ≤ 256 }
    ensures answer { AnswersArguments depth tokens.now result }
    ensures stands { IfErr result (λ f. StandsArguments depth tokens.now f) }
    ensures shorter { IfOk result (λ p. length p.rest.now < length tokens.now) }
{
    let mut list = Vec::new(alloc);
    if let Some((_, rest)) = sign_front(tokens, Punctuator::ParenClose) {
        return Ok(ArgumentsPart {
            list,
            depth: 0,
            rest,
        });
    }
    let first = read_assignment(alloc, tokens, depth)?;
    let mut deepest = first.depth;
    let mut rest = first.rest;
    push_unboxed(&mut list, first.expr)?;
    while let Some((_, after)) = sign_front(rest, Punctuator::Comma) {
        let next = read_assignment(alloc, after, depth)?;
        deepest = deepest.max(next.depth);
        rest = next.rest;
        push_unboxed(&mut list, next.expr)?;
    }
    let rest = expect_sign(rest, Punctuator::ParenClose)?;
    Ok(ArgumentsPart {
        list,
        depth: deepest,
        rest,
    })
}
