//! Sizes of arrays and parameters of functions (ISO/IEC 9899:2011 6.7.6.2, 6.7.6.3).

ghost use Rattle.std.specs.Prelude.{◌≡◌, ◌<◌, ◌≤◌, ℕ, List, length, Option, None, Some, IfOk, IfErr, MatchOption};
ghost use Rattle.srcset.specs.declared.refusal.Pos.{Pos};
ghost use Rattle.lexer.specs.declared.token.Token.{Token};
ghost use Rattle.lexer.specs.declared.token.Kind.TheVariants as kind;
ghost use Rattle.lexer.specs.declared.token.Keyword.TheVariants as keyword;
ghost use Rattle.lexer.specs.declared.token.Punctuator.TheVariants as sign;
ghost use Rattle.parser_grammar.specs.Tokens.{Own, StartsAt, NotFront};
ghost use Rattle.parser_declarations.specs.inside.SpecifierAnswers.{AnswersBounds, StandsBounds, AnswersParameters, StandsParameters};
ghost use Rattle.parser_declarations.specs.inside.DeclarationParts.{AnswersBound, StandsBound, AnswersParameter, StandsParameter, EndsFirstAt, NameThere};

use lexer::{Keyword, Punctuator, Token};
use parser_expressions::expressions::conditional;
use parser_expressions::fronts::{down, expect_sign, identifier_front, keyword_front, sign_front};
use parser_expressions::type_specifiers::type_specifiers;
use parser_grammar::Refusal;
use srcset::Pos;
use std::alloc::Global;
use tree::{Expr, Parameter};

/// A size and the bracket after it, its depth, and the rest of the list.
#[derive(Drop)]
pub(crate) struct BoundPart<'t> {
    pub size: Option<Expr>,
    pub depth: u32,
    pub rest: &'t [Token],
}

/// Sizes at the front of a list, their depth, and the rest of the list.
#[derive(Drop)]
pub(crate) struct BoundsPart<'t> {
    pub sizes: Vec<Option<Expr>>,
    pub depth: u32,
    pub rest: &'t [Token],
}

/// A parameter at the front of a list, its depth, and the rest of the list.
#[derive(Drop)]
pub(crate) struct ParameterPart<'t> {
    pub parameter: Parameter,
    pub depth: u32,
    pub rest: &'t [Token],
}

/// Parameters, their depth, and the rest of the list after the closing parenthesis.
#[derive(Drop)]
pub(crate) struct ParametersPart<'t> {
    pub parameters: Vec<Parameter>,
    pub depth: u32,
    pub rest: &'t [Token],
}

/// A size or none, after the opening bracket and up to the closing one, which is consumed; under `depth` nodes.
fn bound<'t>(alloc: Global, tokens: &'t [Token], depth: u32) -> Result<BoundPart<'t>, Refusal>
    requires { depth ≤ 256 }
    ensures answer { AnswersBound depth tokens.now result }
    ensures stands { IfErr result (λ f. StandsBound depth tokens.now f) }
    ensures shorter { IfOk result (λ p. length p.rest.now < length tokens.now) }
{
    if let Some((_, rest)) = sign_front(tokens, Punctuator::BracketClose) {
        return Ok(BoundPart {
            size: None,
            depth: 0,
            rest,
        });
    }
    let size = conditional(alloc, tokens, depth)?;
    let rest = expect_sign(size.rest, Punctuator::BracketClose)?;
    Ok(BoundPart {
        size: Some(size.expr),
        depth: size.depth,
        rest,
    })
}

/// The sizes of a declarator, each in brackets, none at all where there is no bracket; under `depth` nodes.
pub(crate) fn bounds<'t>(
    alloc: Global,
    tokens: &'t [Token],
    depth: u32,
) -> Result<BoundsPart<'t>, Refusal>
    requires { depth ≤ 256 }
    ensures answer { AnswersBounds depth tokens.now result }
    ensures stands { IfErr result (λ f. StandsBounds depth tokens.now f) }
    ensures no_longer { IfOk result (λ p. length p.rest.now ≤ length tokens.now) }
{
    let mut sizes = Vec::new(alloc);
    let mut deepest: u32 = 0;
    let mut rest = tokens;
    while let Some((_, after)) = sign_front(rest, Punctuator::BracketOpen) {
        let next = bound(alloc, after, depth)?;
        deepest = deepest.max(next.depth);
        rest = next.rest;
        sizes.push(next.size)?;
    }
    Ok(BoundsPart {
        sizes,
        depth: deepest,
        rest,
    })
}

/// The place of the last token of the type specifier at the front, whose first is at this place.
fn first_end(tokens: &[Token], pos: Pos) -> Pos
    requires { StartsAt pos tokens.now }
    ensures { EndsFirstAt result tokens.now }
{
    let Some((_, rest)) = keyword_front(tokens, Keyword::Enum) else {
        return pos;
    };
    match identifier_front(rest) {
        Some((tag, _, _)) => tag,
        None => pos,
    }
}

/// The name at the front, if there is one, its place or else this one, and the remaining tokens.
fn name_front<'t>(tokens: &'t [Token], start: Pos) -> (Pos, Option<usize>, &'t [Token])
    ensures { NameThere start result.0 result.1 tokens.now result.2.now }
{
    match identifier_front(tokens) {
        Some((pos, name, rest)) => (pos, Some(name), rest),
        None => (start, None, tokens),
    }
}

/// A parameter, under `depth` nodes.
fn parameter<'t>(
    alloc: Global,
    tokens: &'t [Token],
    depth: u32,
) -> Result<ParameterPart<'t>, Refusal>
    requires { depth ≤ 256 }
    ensures answer { AnswersParameter depth tokens.now result }
    ensures stands { IfErr result (λ f. StandsParameter depth tokens.now f) }
    ensures shorter { IfOk result (λ p. length p.rest.now < length tokens.now) }
{
    let read = type_specifiers(alloc, tokens)?;
    let start = read.specifiers.pos;
    let below = down(depth, first_end(tokens, start))?;
    let (pos, name, rest) = name_front(read.rest, start);
    let part = bounds(alloc, rest, below)?;
    Ok(ParameterPart {
        parameter: Parameter {
            pos,
            specifiers: read.specifiers,
            name,
            sizes: part.sizes,
        },
        depth: part.depth + 1,
        rest: part.rest,
    })
}

/// The tokens after `void` and the closing parenthesis.
fn void_front<'t>(tokens: &'t [Token]) -> Option<&'t [Token]>
    ensures { MatchOption result
        ((o : Pos) (p : Pos) (t1 : List Token) (rest : List Token) → Own (kind.Keyword keyword.Void) o tokens.now t1 → Own (kind.Punctuator sign.ParenClose) p t1 rest → ⊥)
        (λ rest. (o : Pos) × (p : Pos) × (t1 : List Token) × Own (kind.Keyword keyword.Void) o tokens.now t1 × Own (kind.Punctuator sign.ParenClose) p t1 rest.now) }
{
    let (_, after) = keyword_front(tokens, Keyword::Void)?;
    let (_, rest) = sign_front(after, Punctuator::ParenClose)?;
    Some(rest)
}

/// The parameters of a function, after the opening parenthesis and up to the closing one, which is consumed;
/// under `depth` nodes. `void` alone denotes none.
pub(crate) fn parameters<'t>(
    alloc: Global,
    tokens: &'t [Token],
    depth: u32,
) -> Result<ParametersPart<'t>, Refusal>
    requires { depth ≤ 256 }
    ensures answer { AnswersParameters depth tokens.now result }
    ensures stands { IfErr result (λ f. StandsParameters depth tokens.now f) }
    ensures shorter { IfOk result (λ p. length p.rest.now < length tokens.now) }
{
    let mut list = Vec::new(alloc);
    if let Some(rest) = void_front(tokens) {
        return Ok(ParametersPart {
            parameters: list,
            depth: 0,
            rest,
        });
    }
    let first = parameter(alloc, tokens, depth)?;
    let mut deepest = first.depth;
    let mut rest = first.rest;
    list.push(first.parameter)?;
    while let Some((_, after)) = sign_front(rest, Punctuator::Comma) {
        let next = parameter(alloc, after, depth)?;
        deepest = deepest.max(next.depth);
        rest = next.rest;
        list.push(next.parameter)?;
    }
    let rest = expect_sign(rest, Punctuator::ParenClose)?;
    Ok(ParametersPart {
        parameters: list,
        depth: deepest,
        rest,
    })
}
