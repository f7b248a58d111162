//! Lists of enumerators (ISO/IEC 9899:2011 6.7.2.2).

ghost use Rattle.std.specs.Prelude.{◌≡◌, ◌<◌, ◌≤◌, List, length, IfOk, IfErr, MatchOption};
ghost use Rattle.srcset.specs.declared.refusal.Pos.{Pos};
ghost use Rattle.lexer.specs.declared.token.Token.{Token};
ghost use Rattle.lexer.specs.declared.token.Kind.TheVariants as kind;
ghost use Rattle.lexer.specs.declared.token.Punctuator.TheVariants as sign;
ghost use Rattle.parser_grammar.specs.Tokens.{Own, NotFront};
ghost use Rattle.parser_grammar.specs.Declarations.{Trailing};
ghost use Rattle.parser_declarations.specs.inside.DeclarationParts.{AnswersEnumerator, StandsEnumerator, AnswersEnumerators, StandsEnumerators};
ghost use Rattle.parser_expressions.specs.ExpressionAnswers.{NotDepth};

use lexer::{Punctuator, Token};
use parser_expressions::expressions::conditional;
use parser_expressions::fronts::{down, expect_sign, identifier_front, sign_front};
use parser_grammar::Refusal;
use srcset::Pos;
use std::alloc::Global;
use tree::Enumerator;

/// An enumerator at the front of a list, its depth, and the rest of the list.
#[derive(Drop)]
pub(crate) struct EnumeratorPart<'t> {
    pub enumerator: Enumerator,
    pub depth: u32,
    pub rest: &'t [Token],
}

/// Enumerators, their depth, and the rest of the list after the closing brace.
#[derive(Drop)]
pub(crate) struct EnumeratorsPart<'t> {
    pub list: Vec<Enumerator>,
    pub depth: u32,
    pub rest: &'t [Token],
}

/// An enumerator, under `depth` nodes.
fn enumerator<'t>(
    alloc: Global,
    tokens: &'t [Token],
    depth: u32,
) -> Result<EnumeratorPart<'t>, Refusal>
    requires { depth ≤ 256 }
    ensures answer { AnswersEnumerator depth tokens.now result }
    ensures stands { IfErr result (λ f. StandsEnumerator depth tokens.now f) }
    ensures shorter { IfOk result (λ p. length p.rest.now < length tokens.now) }
{
    let Some((pos, name, rest)) = identifier_front(tokens) else {
        return Err(Refusal::Syntax(tokens.len()));
    };
    let below = down(depth, pos)?;
    let Some((_, after)) = sign_front(rest, Punctuator::Assign) else {
        return Ok(EnumeratorPart {
            enumerator: Enumerator {
                pos,
                name,
                value: None,
            },
            depth: 1,
            rest,
        });
    };
    let value = conditional(alloc, after, below)?;
    Ok(EnumeratorPart {
        enumerator: Enumerator {
            pos,
            name,
            value: Some(value.expr),
        },
        depth: value.depth + 1,
        rest: value.rest,
    })
}

/// The tokens after a comma at the front that is not the last token of a list of enumerators.
fn next_front<'t>(tokens: &'t [Token]) -> Option<(Pos, &'t [Token])>
    ensures { MatchOption result ((at : Pos) (after : List Token) → Own (kind.Punctuator sign.Comma) at tokens.now after → (o : Pos) × (rest : List Token) × Own (kind.Punctuator sign.BraceClose) o after rest)
        (λ p. Own (kind.Punctuator sign.Comma) p.0 tokens.now p.1.now × NotFront (kind.Punctuator sign.BraceClose) p.1.now) }
{
    let (pos, after) = sign_front(tokens, Punctuator::Comma)?;
    if sign_front(after, Punctuator::BraceClose).is_some() {
        return None;
    }
    Some((pos, after))
}

/// The tokens after the closing brace of a list of enumerators and the comma that may precede it.
fn expect_end<'t>(tokens: &'t [Token]) -> Result<&'t [Token], Refusal>
    ensures ok { IfOk result (λ rest. (t1 : List Token) × (at : Pos) × Trailing tokens.now t1 × Own (kind.Punctuator sign.BraceClose) at t1 rest.now) }
    ensures err { IfErr result (λ f. (t1 : List Token) (at : Pos) (rest : List Token) → Trailing tokens.now t1 → Own (kind.Punctuator sign.BraceClose) at t1 rest → ⊥) }
    ensures plain { IfErr result NotDepth }
{
    match sign_front(tokens, Punctuator::Comma) {
        Some((_, after)) => expect_sign(after, Punctuator::BraceClose),
        None => expect_sign(tokens, Punctuator::BraceClose),
    }
}

/// Enumerators, after the opening brace and up to the closing one, which is consumed; under `depth` nodes.
/// A comma may follow the last.
pub(crate) fn enumerators<'t>(
    alloc: Global,
    tokens: &'t [Token],
    depth: u32,
) -> Result<EnumeratorsPart<'t>, Refusal>
    requires { depth ≤ 256 }
    ensures answer { AnswersEnumerators depth tokens.now result }
    ensures stands { IfErr result (λ f. StandsEnumerators depth tokens.now f) }
    ensures shorter { IfOk result (λ p. length p.rest.now < length tokens.now) }
{
    let first = enumerator(alloc, tokens, depth)?;
    let mut list = Vec::new(alloc);
    let mut deepest = first.depth;
    let mut rest = first.rest;
    list.push(first.enumerator)?;
    while let Some((_, after)) = next_front(rest) {
        let next = enumerator(alloc, after, depth)?;
        deepest = deepest.max(next.depth);
        rest = next.rest;
        list.push(next.enumerator)?;
    }
    let rest = expect_end(rest)?;
    Ok(EnumeratorsPart {
        list,
        depth: deepest,
        rest,
    })
}
