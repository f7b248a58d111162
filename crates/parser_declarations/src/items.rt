//! The declarators of a declaration (ISO/IEC 9899:2011 6.7.6).

ghost use Rattle.std.specs.Prelude.{◌≡◌, ◌<◌, ◌≤◌, length, IfOk, IfErr, MatchOption};
ghost use Rattle.lexer.specs.declared.token.Kind.TheVariants as kind;
ghost use Rattle.lexer.specs.declared.token.Punctuator.TheVariants as sign;
ghost use Rattle.tree.specs.View.{item_of};
ghost use Rattle.parser_grammar.specs.declared.scope.Scope.TheVariants.{File};
ghost use Rattle.parser_grammar.specs.Tokens.{Own, NotFront};
ghost use Rattle.parser_declarations.specs.inside.ItemAnswers.{AnswersItem, StandsItem, AnswersFurther, StandsFurther, AnswersItems, StandsItems};

use crate::initialisers::optional_initialiser;
use crate::parameters::{bounds, parameters};
use lexer::{Punctuator, Token};
use parser_expressions::fronts::{down, expect_sign, identifier_front, sign_front};
use parser_grammar::{Refusal, Scope};
use srcset::Pos;
use std::alloc::Global;
use tree::{FunctionDeclarator, Item, ObjectDeclarator};

/// A declarator at the front of a list, its depth, and the rest of the list.
#[derive(Drop)]
pub(crate) struct ItemPart<'t> {
    pub item: Item,
    pub depth: u32,
    pub rest: &'t [Token],
}

/// Declarators, their depth, and the rest of the list after the semicolon.
#[derive(Drop)]
pub(crate) struct ItemsPart<'t> {
    pub items: Vec<Item>,
    pub depth: u32,
    pub rest: &'t [Token],
}

/// The tokens after the parenthesis that opens the parameters of a function, which is declared at file scope only.
fn parameters_front<'t>(tokens: &'t [Token], scope: Scope) -> Option<&'t [Token]>
    ensures { MatchOption result (scope ≡ File → NotFront (kind.Punctuator sign.ParenOpen) tokens.now)
        (λ rest. (scope ≡ File) × ((at : Pos) × Own (kind.Punctuator sign.ParenOpen) at tokens.now rest.now)) }
{
    match scope {
        Scope::File => {
            let (_, rest) = sign_front(tokens, Punctuator::ParenOpen)?;
            Some(rest)
        }
        Scope::Block => None,
    }
}

/// A declarator (6.7.6) with its initialiser, under `depth` nodes.
pub(crate) fn item<'t>(
    alloc: Global,
    tokens: &'t [Token],
    depth: u32,
    scope: Scope,
) -> Result<ItemPart<'t>, Refusal>
    requires { depth ≤ 256 }
    ensures answer { AnswersItem scope depth tokens.now result }
    ensures stands { IfErr result (λ f. StandsItem scope depth tokens.now f) }
    ensures shorter { IfOk result (λ p. length p.rest.now < length tokens.now) }
{
    let Some((pos, name, rest)) = identifier_front(tokens) else {
        return Err(Refusal::Syntax(tokens.len()));
    };
    let below = down(depth, pos)?;
    if let Some(inside) = parameters_front(rest, scope) {
        let part = parameters(alloc, inside, below)?;
        let declarator = FunctionDeclarator {
            pos,
            name,
            parameters: part.parameters,
        };
        return Ok(ItemPart {
            item: Item::Function(declarator),
            depth: part.depth + 1,
            rest: part.rest,
        });
    }
    let sizes = bounds(alloc, rest, below)?;
    let value = optional_initialiser(alloc, sizes.rest, below)?;
    let depth = sizes.depth.max(value.depth) + 1;
    let declarator = ObjectDeclarator {
        pos,
        name,
        sizes: sizes.sizes,
        initialiser: value.initialiser,
    };
    Ok(ItemPart {
        item: Item::Object(declarator),
        depth,
        rest: value.rest,
    })
}

/// The declarators after the first, each after a comma, up to the semicolon, which is consumed; under `depth`
/// nodes. They are returned with the first; the depth is theirs alone.
pub(crate) fn further_items<'t>(
    alloc: Global,
    first: Item,
    tokens: &'t [Token],
    depth: u32,
    scope: Scope,
) -> Result<ItemsPart<'t>, Refusal>
    requires { depth ≤ 256 }
    ensures answer { AnswersFurther scope depth (item_of first) tokens.now result }
    ensures stands { IfErr result (λ f. StandsFurther scope depth tokens.now f) }
    ensures shorter { IfOk result (λ p. length p.rest.now < length tokens.now) }
{
    let mut items = Vec::new(alloc);
    items.push(first)?;
    let mut deepest = 0_u32;
    let mut rest = tokens;
    while let Some((_, after)) = sign_front(rest, Punctuator::Comma) {
        let next = item(alloc, after, depth, scope)?;
        deepest = deepest.max(next.depth);
        rest = next.rest;
        items.push(next.item)?;
    }
    let rest = expect_sign(rest, Punctuator::Semicolon)?;
    Ok(ItemsPart {
        items,
        depth: deepest,
        rest,
    })
}

/// The declarators of a declaration, or none, up to the semicolon, which is consumed; under `depth` nodes.
pub(crate) fn items<'t>(
    alloc: Global,
    tokens: &'t [Token],
    depth: u32,
    scope: Scope,
) -> Result<ItemsPart<'t>, Refusal>
    requires { depth ≤ 256 }
    ensures answer { AnswersItems scope depth tokens.now result }
    ensures stands { IfErr result (λ f. StandsItems scope depth tokens.now f) }
    ensures shorter { IfOk result (λ p. length p.rest.now < length tokens.now) }
{
    if let Some((_, rest)) = sign_front(tokens, Punctuator::Semicolon) {
        return Ok(ItemsPart {
            items: Vec::new(alloc),
            depth: 0,
            rest,
        });
    }
    let first = item(alloc, tokens, depth, scope)?;
    let further = further_items(alloc, first.item, first.rest, depth, scope)?;
    Ok(ItemsPart {
        items: further.items,
        depth: first.depth.max(further.depth),
        rest: further.rest,
    })
}
