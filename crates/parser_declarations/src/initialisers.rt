//! Initialisers (ISO/IEC 9899:2011 6.7.9).

ghost use Rattle.std.specs.Prelude.{◌≡◌, ◌<◌, ◌≤◌, ℕ, List, length, IfOk, IfErr, MatchOption};
ghost use Rattle.lexer.specs.declared.token.Token.{Token};
ghost use Rattle.parser_grammar.specs.declared.refusal.Refusal.TheVariants.{Syntax};
ghost use Rattle.parser_declarations.specs.inside.InitAnswers.{AnswersInit, StandsInit, AnswersInitList, StandsInitList, AnswersInitialiser, StandsInitialiser, Goes, Closes};

use lexer::{Punctuator, Token};
use parser_expressions::expressions::assignment;
use parser_expressions::fronts::{down, expect_sign, sign_front};
use parser_grammar::Refusal;
use std::alloc::Global;
use tree::Initialiser;

/// An initialiser at the front of a list, its depth, and the rest of the list.
#[derive(Drop)]
pub(crate) struct InitialiserPart<'t> {
    pub initialiser: Initialiser,
    pub depth: u32,
    pub rest: &'t [Token],
}

/// The initialisers of a braced list, their depth, and the rest of the list of tokens after the closing brace.
#[derive(Drop)]
pub(crate) struct InitialisersPart<'t> {
    pub list: Vec<Initialiser>,
    pub depth: u32,
    pub rest: &'t [Token],
}

/// The initialiser of a declarator, where it has one, its depth, and the rest of the list.
#[derive(Drop)]
pub(crate) struct OptionalPart<'t> {
    pub initialiser: Option<Initialiser>,
    pub depth: u32,
    pub rest: &'t [Token],
}

/// The tokens after the comma before a further initialiser. A comma before the closing brace precedes none.
fn further_front<'t>(tokens: &'t [Token]) -> Option<&'t [Token]>
    ensures { MatchOption result ((rest : List Token) → Goes tokens.now rest → ⊥) (λ rest. Goes tokens.now rest.now) }
{
    let (_, rest) = sign_front(tokens, Punctuator::Comma)?;
    match sign_front(rest, Punctuator::BraceClose) {
        Some(_) => None,
        None => Some(rest),
    }
}

/// The tokens after the end of a braced list: its closing brace, and before it a comma or none.
fn list_end<'t>(tokens: &'t [Token]) -> Result<&'t [Token], Refusal>
    ensures ok { IfOk result (λ rest. Closes tokens.now rest.now) }
    ensures err { IfErr result (λ f. ((rest : List Token) → Closes tokens.now rest → ⊥) × ((left : ℕ) × (f ≡ Syntax left))) }
{
    match sign_front(tokens, Punctuator::Comma) {
        Some((_, rest)) => expect_sign(rest, Punctuator::BraceClose),
        None => expect_sign(tokens, Punctuator::BraceClose),
    }
}

/// An initialiser: an assignment expression or a braced list; under `depth` nodes.
#[cycle(initialisers)]
#[inline(never)]
pub(crate) fn initialiser<'t>(
    alloc: Global,
    tokens: &'t [Token],
    depth: u32,
) -> Result<InitialiserPart<'t>, Refusal>
    requires { depth ≤ 256 }
    ensures answer { AnswersInit depth tokens.now result }
    ensures stands { IfErr result (λ f. StandsInit depth tokens.now f) }
    ensures shorter { IfOk result (λ p. length p.rest.now < length tokens.now) }
{
    let Some((pos, rest)) = sign_front(tokens, Punctuator::BraceOpen) else {
        let one = assignment(alloc, tokens, depth)?;
        return Ok(InitialiserPart {
            initialiser: Initialiser::One(one.expr),
            depth: one.depth,
            rest: one.rest,
        });
    };
    let below = down(depth, pos)?;
    let parts = initialiser_list(alloc, rest, below)?;
    Ok(InitialiserPart {
        initialiser: Initialiser::List(pos, parts.list),
        depth: parts.depth + 1,
        rest: parts.rest,
    })
}

/// At least one initialiser, with a comma between any two, up to the closing brace, which is consumed.
#[cycle(initialisers)]
#[inline(never)]
fn initialiser_list<'t>(
    alloc: Global,
    tokens: &'t [Token],
    depth: u32,
) -> Result<InitialisersPart<'t>, Refusal>
    requires { depth ≤ 256 }
    ensures answer { AnswersInitList depth tokens.now result }
    ensures stands { IfErr result (λ f. StandsInitList depth tokens.now f) }
    ensures shorter { IfOk result (λ p. length p.rest.now < length tokens.now) }
{
    let mut list = Vec::new(alloc);
    let first = initialiser(alloc, tokens, depth)?;
    let mut deepest = first.depth;
    let mut rest = first.rest;
    list.push(first.initialiser)?;
    while let Some(after) = further_front(rest) {
        let next = initialiser(alloc, after, depth)?;
        deepest = deepest.max(next.depth);
        rest = next.rest;
        list.push(next.initialiser)?;
    }
    let rest = list_end(rest)?;
    Ok(InitialisersPart {
        list,
        depth: deepest,
        rest,
    })
}

/// The initialiser of a declarator, after its `=`, or none where there is no `=`; under `depth` nodes.
pub(crate) fn optional_initialiser<'t>(
    alloc: Global,
    tokens: &'t [Token],
    depth: u32,
) -> Result<OptionalPart<'t>, Refusal>
    requires { depth ≤ 256 }
    ensures answer { AnswersInitialiser depth tokens.now result }
    ensures stands { IfErr result (λ f. StandsInitialiser depth tokens.now f) }
    ensures no_longer { IfOk result (λ p. length p.rest.now ≤ length tokens.now) }
{
    let Some((_, rest)) = sign_front(tokens, Punctuator::Assign) else {
        return Ok(OptionalPart {
            initialiser: None,
            depth: 0,
            rest: tokens,
        });
    };
    let part = initialiser(alloc, rest, depth)?;
    Ok(OptionalPart {
        initialiser: Some(part.initialiser),
        depth: part.depth,
        rest: part.rest,
    })
}
