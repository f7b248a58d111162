//! Declarations (ISO/IEC 9899:2011 6.7).

ghost use Rattle.std.specs.Prelude.{◌≡◌, ◌<◌, ◌≤◌, ◌↔◌, ◌+◌, ℕ, max, map, IsTrue, List, None, length, IfOk, IfErr, MatchOption};
ghost use Rattle.srcset.specs.declared.refusal.Pos.{Pos};
ghost use Rattle.lexer.specs.declared.token.Token.{Token};
ghost use Rattle.lexer.specs.declared.token.Kind.TheVariants as kind;
ghost use Rattle.lexer.specs.declared.token.Keyword.TheVariants as keyword;
ghost use Rattle.parser_grammar.specs.declared.refusal.Refusal.TheVariants.{Syntax, Depth};
ghost use Rattle.parser_grammar.specs.Tokens.{Own};
ghost use Rattle.parser_declarations.specs.DeclarationAnswers.{AnswersDeclaration, StandsDeclaration, AnswersHead, StandsHead, head_of, BeginsDeclaration, KeywordBeginsDeclaration};
ghost use Rattle.parser_declarations.specs.inside.DeclarationFronts.{SpellsText, AnswersAsserted, StandsAsserted, AnswersTail, BraceAt, HasBrace, Defines, IsObject, tail_of, head_tree, specifiers_height};
ghost use Rattle.parser_declarations.specs.inside.ItemAnswers.{StandsItems};
ghost use Rattle.tree.specs.View.{item_of, specifier_of};
ghost use Rattle.parser_grammar.specs.declared.scope.Scope.TheVariants.{File};

use crate::items::{ItemPart, further_items, item, items};
use crate::specifiers::{DeclarationSpecifiersPart, declaration_specifiers};
use lexer::{Keyword, Punctuator, Token};
use parser_expressions::expressions::conditional;
use parser_expressions::fronts::{
    above, any_keyword_front, down, expect_sign, keyword_front, sign_front, string_front,
};
use parser_grammar::{Refusal, Scope};
use srcset::Pos;
use std::alloc::Global;
use tree::{Declaration, FunctionDeclarator, Item, Specifiers};

/// A declaration at the front of a list, its depth, and the rest of the list.
#[derive(Drop)]
pub struct DeclarationPart<'t> {
    pub declaration: Declaration,
    pub depth: u32,
    pub rest: &'t [Token],
}

/// The front of a translation unit: a whole declaration, or a function definition up to the
/// brace that opens its body.
#[derive(Drop)]
pub enum Head {
    Declaration(Declaration),
    Function(Specifiers, FunctionDeclarator),
}

/// The front of a translation unit, its depth, and the rest of the list.
#[derive(Drop)]
pub struct HeadPart<'t> {
    pub head: Head,
    pub depth: u32,
    pub rest: &'t [Token],
}

/// The tokens after the specifiers at file scope: the declarators of a declaration with its semicolon, or the
/// declarator of a function definition, and the place of the brace after it.
#[derive(Drop)]
pub(crate) enum Tail {
    Items(Vec<Item>),
    Function(FunctionDeclarator, Pos),
}

/// The part after the specifiers at file scope, its depth, and the rest of the list.
#[derive(Drop)]
pub(crate) struct TailPart<'t> {
    pub tail: Tail,
    pub depth: u32,
    pub rest: &'t [Token],
}

/// Whether a declaration may begin with this keyword.
fn keyword_begins_declaration(keyword: Keyword) -> bool
    ensures { IsTrue result ↔ KeywordBeginsDeclaration keyword }
{
    match keyword {
        Keyword::Extern | Keyword::Static | Keyword::StaticAssert => true,
        Keyword::Const | Keyword::Enum => true,
        Keyword::Void | Keyword::Char | Keyword::Short | Keyword::Int | Keyword::Long => true,
        Keyword::Signed | Keyword::Unsigned | Keyword::Bool => true,
        _ => false,
    }
}

/// Whether a declaration begins here: a token that a specifier may begin with, or `_Static_assert`.
pub fn begins_declaration(tokens: &[Token]) -> bool
    ensures { IsTrue result ↔ BeginsDeclaration tokens.now }
{
    match any_keyword_front(tokens) {
        Some((_, keyword, _)) => keyword_begins_declaration(keyword),
        None => false,
    }
}

/// The text of a static assertion, after the comma and up to the semicolon, and the remaining tokens.
fn text_end<'t>(tokens: &'t [Token]) -> Result<(usize, &'t [Token]), Refusal>
    ensures ok { IfOk result (λ p. SpellsText None p.0 tokens.now p.1.now) }
    ensures err { IfErr result (λ f. ((n : ℕ) (rest : List Token) → SpellsText None n tokens.now rest → ⊥) × ((left : ℕ) × (f ≡ Syntax left))) }
{
    let rest = expect_sign(tokens, Punctuator::Comma)?;
    let Some((_, text, rest)) = string_front(rest) else {
        return Err(Refusal::Syntax(rest.len()));
    };
    let rest = expect_sign(rest, Punctuator::ParenClose)?;
    let rest = expect_sign(rest, Punctuator::Semicolon)?;
    Ok((text, rest))
}

/// A static assertion (6.7.10), after its keyword; under `depth` nodes.
fn assertion<'t>(
    alloc: Global,
    pos: Pos,
    tokens: &'t [Token],
    depth: u32,
) -> Result<DeclarationPart<'t>, Refusal>
    requires { depth ≤ 256 }
    ensures answer { AnswersAsserted depth pos tokens.now result }
    ensures stands { IfErr result (λ f. StandsAsserted depth pos tokens.now f) }
    ensures shorter { IfOk result (λ p. length p.rest.now < length tokens.now) }
{
    let below = down(depth, pos)?;
    let rest = expect_sign(tokens, Punctuator::ParenOpen)?;
    let condition = conditional(alloc, rest, below)?;
    let (text, rest) = text_end(condition.rest)?;
    Ok(DeclarationPart {
        declaration: Declaration::Assertion(pos, condition.expr, text),
        depth: condition.depth + 1,
        rest,
    })
}

/// A declaration in a block (6.7), under `depth` nodes.
#[inline(never)]
pub fn declaration<'t>(
    alloc: Global,
    tokens: &'t [Token],
    depth: u32,
) -> Result<DeclarationPart<'t>, Refusal>
    requires { depth ≤ 256 }
    ensures answer { AnswersDeclaration depth tokens.now result }
    ensures stands { IfErr result (λ f. StandsDeclaration depth tokens.now f) }
    ensures shorter { IfOk result (λ p. length p.rest.now < length tokens.now) }
{
    if let Some((pos, rest)) = keyword_front(tokens, Keyword::StaticAssert) {
        return assertion(alloc, pos, rest, depth);
    }
    let specifiers = declaration_specifiers(alloc, tokens, depth, Scope::Block)?;
    let items = items(alloc, specifiers.rest, depth, Scope::Block)?;
    let depth = specifiers.depth.max(items.depth);
    Ok(DeclarationPart {
        declaration: Declaration::Declared(specifiers.specifiers, items.items),
        depth,
        rest: items.rest,
    })
}

/// Converts a first declarator where the brace of a function's body follows: it defines a function.
fn defined<'t>(first: ItemPart<'t>, brace: Pos) -> Result<TailPart<'t>, Refusal>
    requires { BraceAt brace first.rest.now }
    ensures ok { IfOk result (λ p. Defines (item_of first.entry.item) (tail_of p.tail)) }
    ensures brace { IfOk result (λ p. HasBrace p.tail p.rest.now) }
    ensures depth { IfOk result (λ p. p.depth ≡ first.entry.depth) }
    ensures rest { IfOk result (λ p. p.rest.now ≡ first.entry.rest.now) }
    ensures err { IfErr result (λ f. IsObject (item_of first.entry.item) × ((left : ℕ) × (f ≡ Syntax left))) }
{
    let ItemPart { item, depth, rest } = first;
    match item {
        Item::Function(declarator) => Ok(TailPart {
            tail: Tail::Function(declarator, brace),
            depth,
            rest,
        }),
        Item::Object(_) => Err(Refusal::Syntax(rest.len())),
    }
}

/// The part after the specifiers at file scope (6.7, 6.9.1), under `depth` nodes.
#[inline(never)]
fn tail_front<'t>(alloc: Global, tokens: &'t [Token], depth: u32) -> Result<TailPart<'t>, Refusal>
    requires { depth ≤ 256 }
    ensures answer { AnswersTail depth tokens.now result }
    ensures stands { IfErr result (λ f. StandsItems File depth tokens.now f) }
    ensures shorter { IfOk result (λ p. length p.rest.now < length tokens.now) }
{
    if let Some((_, rest)) = sign_front(tokens, Punctuator::Semicolon) {
        return Ok(TailPart {
            tail: Tail::Items(Vec::new(alloc)),
            depth: 0,
            rest,
        });
    }
    let first = item(alloc, tokens, depth, Scope::File)?;
    if let Some((brace, _)) = sign_front(first.rest, Punctuator::BraceOpen) {
        return defined(first, brace);
    }
    let further = further_items(alloc, first.item, first.rest, depth, Scope::File)?;
    Ok(TailPart {
        tail: Tail::Items(further.items),
        depth: first.depth.max(further.depth),
        rest: further.rest,
    })
}

/// The whole front, from its specifiers and the part after them. Those of a function definition are under its node.
#[inline(never)]
fn external<'t>(
    specifiers: DeclarationSpecifiersPart<'t>,
    part: TailPart<'t>,
    depth: u32,
) -> Result<HeadPart<'t>, Refusal>
    requires room { depth + specifiers.depth ≤ 256 }
    requires brace { HasBrace part.tail part.rest.now }
    requires tall { part.depth ≤ 256 }
    ensures head { IfOk result (λ p. head_of p.head ≡ head_tree specifiers.entry.specifiers.pos (map specifier_of specifiers.entry.specifiers.list.items) (tail_of part.entry.tail)) }
    ensures fits { IfOk result (λ p. depth + specifiers_height specifiers.entry.depth (tail_of part.entry.tail) ≤ 256) }
    ensures depth { IfOk result (λ p. p.depth ≡ max (specifiers_height specifiers.entry.depth (tail_of part.entry.tail)) part.entry.depth) }
    ensures rest { IfOk result (λ p. p.rest.now ≡ part.entry.rest.now) }
    ensures err { IfErr result (λ f. (256 < depth + specifiers_height specifiers.entry.depth (tail_of part.entry.tail))
        × ((at : Pos) × BraceAt at part.entry.rest.now × (f ≡ Depth at))) }
{
    let TailPart {
        tail,
        depth: height,
        rest,
    } = part;
    match tail {
        Tail::Items(items) => {
            let declaration = Declaration::Declared(specifiers.specifiers, items);
            Ok(HeadPart {
                head: Head::Declaration(declaration),
                depth: specifiers.depth.max(height),
                rest,
            })
        }
        Tail::Function(declarator, brace) => {
            above(depth, specifiers.depth, brace)?;
            let head = Head::Function(specifiers.specifiers, declarator);
            Ok(HeadPart {
                head,
                depth: (specifiers.depth + 1).max(height),
                rest,
            })
        }
    }
}

/// The front of a translation unit (6.9), under `depth` nodes.
#[inline(never)]
pub fn external_head<'t>(
    alloc: Global,
    tokens: &'t [Token],
    depth: u32,
) -> Result<HeadPart<'t>, Refusal>
    requires { depth ≤ 256 }
    ensures answer { AnswersHead depth tokens.now result }
    ensures stands { IfErr result (λ f. StandsHead depth tokens.now f) }
    ensures shorter { IfOk result (λ p. length p.rest.now < length tokens.now) }
{
    if let Some((pos, rest)) = keyword_front(tokens, Keyword::StaticAssert) {
        let part = assertion(alloc, pos, rest, depth)?;
        return Ok(HeadPart {
            head: Head::Declaration(part.declaration),
            depth: part.depth,
            rest: part.rest,
        });
    }
    let specifiers = declaration_specifiers(alloc, tokens, depth, Scope::File)?;
    let part = tail_front(alloc, specifiers.rest, depth)?;
    external(specifiers, part, depth)
}
