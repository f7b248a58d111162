//! Specifiers of declarations (ISO/IEC 9899:2011 6.7.1 to 6.7.3).

ghost use Rattle.std.specs.Prelude.{◌≡◌, ◌<◌, ◌≤◌, ◌↔◌, ◌∷◌, ℕ, length, IsTrue, Option, None, IfOk, IfErr, MatchOption};
ghost use Rattle.lexer.specs.declared.token.Kind.TheVariants as kind;
ghost use Rattle.lexer.specs.declared.token.Keyword.TheVariants as keyword;
ghost use Rattle.tree.specs.View.{specifier_of};
ghost use Rattle.srcset.specs.declared.refusal.Pos.{Pos};
ghost use Rattle.parser_grammar.specs.Tokens.{Own, NotFront};
ghost use Rattle.parser_grammar.specs.Declarations.{SpellsTag};
ghost use Rattle.parser_declarations.specs.inside.SpecifierAnswers.{BeginsSpecifier, AnswersDeclarationSpecifiers, StandsDeclarationSpecifiers};
ghost use Rattle.parser_declarations.specs.DeclarationAnswers.{KeywordBeginsSpecifier};
ghost use Rattle.parser_declarations.specs.inside.DeclarationParts.{AnswersSpecifier, StandsSpecifier, IsAlone, IsNoneAlone};

use crate::enumerators::enumerators;
use lexer::{Keyword, Kind, Punctuator, Token};
use parser_expressions::fronts::{any_keyword_front, identifier_front, sign_front};
use parser_grammar::{Refusal, Scope};
use srcset::Pos;
use std::alloc::Global;
use tree::{Specifier, Specifiers, TypeSpecifier, Word};

/// Specifiers at the front of a list, their depth, and the rest of the list.
#[derive(Drop)]
pub(crate) struct DeclarationSpecifiersPart<'t> {
    pub specifiers: Specifiers,
    pub depth: u32,
    pub rest: &'t [Token],
}

/// A specifier at the front of a list, its depth, and the rest of the list.
#[derive(Drop)]
pub(crate) struct SpecifierPart<'t> {
    pub specifier: Specifier,
    pub depth: u32,
    pub rest: &'t [Token],
}

/// Whether a specifier of a declaration may begin with this keyword.
fn keyword_begins_specifier(keyword: Keyword) -> bool
    ensures { IsTrue result ↔ KeywordBeginsSpecifier keyword }
{
    match keyword {
        Keyword::Bool
        | Keyword::Char
        | Keyword::Const
        | Keyword::Enum
        | Keyword::Extern
        | Keyword::Int
        | Keyword::Long
        | Keyword::Short
        | Keyword::Signed
        | Keyword::Static
        | Keyword::Unsigned
        | Keyword::Void => true,
        _ => false,
    }
}

/// Whether a specifier of a declaration may begin here.
fn begins_specifier(tokens: &[Token]) -> bool
    ensures { IsTrue result ↔ BeginsSpecifier tokens.now }
{
    match tokens {
        [
            Token {
                kind: Kind::Keyword(keyword),
                ..
            },
            ..
        ] => keyword_begins_specifier(*keyword),
        _ => false,
    }
}

/// The specifier that consists of this keyword alone. `extern` is allowed at file scope only.
fn specifier_alone(keyword: Keyword, scope: Scope) -> Option<Specifier>
    ensures { MatchOption result (IsNoneAlone scope keyword) (λ s. IsAlone scope keyword (specifier_of s)) }
{
    match keyword {
        Keyword::Extern => match scope {
            Scope::File => Some(Specifier::Extern),
            Scope::Block => None,
        },
        Keyword::Static => Some(Specifier::Static),
        Keyword::Const => Some(Specifier::Plain(TypeSpecifier::Const)),
        Keyword::Void => Some(Specifier::Plain(TypeSpecifier::Word(Word::Void))),
        Keyword::Char => Some(Specifier::Plain(TypeSpecifier::Word(Word::Char))),
        Keyword::Short => Some(Specifier::Plain(TypeSpecifier::Word(Word::Short))),
        Keyword::Int => Some(Specifier::Plain(TypeSpecifier::Word(Word::Int))),
        Keyword::Long => Some(Specifier::Plain(TypeSpecifier::Word(Word::Long))),
        Keyword::Signed => Some(Specifier::Plain(TypeSpecifier::Word(Word::Signed))),
        Keyword::Unsigned => Some(Specifier::Plain(TypeSpecifier::Word(Word::Unsigned))),
        Keyword::Bool => Some(Specifier::Plain(TypeSpecifier::Word(Word::Bool))),
        _ => None,
    }
}

/// The tag at the front, if there is one, and the remaining tokens.
fn tag_front<'t>(tokens: &'t [Token]) -> (Option<usize>, &'t [Token])
    ensures spelled { SpellsTag result.0 tokens.now result.1.now }
    ensures none { result.0 ≡ None → (n : ℕ) → NotFront (kind.Identifier n) tokens.now }
{
    match identifier_front(tokens) {
        Some((_, tag, rest)) => (Some(tag), rest),
        None => (None, tokens),
    }
}

/// A specifier that begins with `enum`, after that keyword, which is at this place; under `depth` nodes.
fn enum_specifier<'t>(
    alloc: Global,
    pos: Pos,
    tokens: &'t [Token],
    depth: u32,
    scope: Scope,
) -> Result<SpecifierPart<'t>, Refusal>
    requires { depth ≤ 256 }
    ensures answer { AnswersSpecifier scope depth (record { kind = kind.Keyword keyword.Enum; pos = pos } ∷ tokens.now) result }
    ensures stands { IfErr result (λ f. StandsSpecifier scope depth (record { kind = kind.Keyword keyword.Enum; pos = pos } ∷ tokens.now) f) }
    ensures shorter { IfOk result (λ p. length p.rest.now < length tokens.now) }
{
    let (tag, rest) = tag_front(tokens);
    if let Some((_, list)) = sign_front(rest, Punctuator::BraceOpen) {
        let part = enumerators(alloc, list, depth)?;
        return Ok(SpecifierPart {
            specifier: Specifier::Enumerators(tag, part.list),
            depth: part.depth,
            rest: part.rest,
        });
    }
    let Some(name) = tag else {
        return Err(Refusal::Syntax(rest.len()));
    };
    Ok(SpecifierPart {
        specifier: Specifier::Plain(TypeSpecifier::Enum(name)),
        depth: 0,
        rest,
    })
}

/// A specifier of a declaration, under `depth` nodes.
fn specifier<'t>(
    alloc: Global,
    tokens: &'t [Token],
    depth: u32,
    scope: Scope,
) -> Result<SpecifierPart<'t>, Refusal>
    requires { depth ≤ 256 }
    ensures answer { AnswersSpecifier scope depth tokens.now result }
    ensures stands { IfErr result (λ f. StandsSpecifier scope depth tokens.now f) }
    ensures shorter { IfOk result (λ p. length p.rest.now < length tokens.now) }
{
    let Some((pos, keyword, rest)) = any_keyword_front(tokens) else {
        return Err(Refusal::Syntax(tokens.len()));
    };
    if keyword == Keyword::Enum {
        return enum_specifier(alloc, pos, rest, depth, scope);
    }
    let Some(specifier) = specifier_alone(keyword, scope) else {
        return Err(Refusal::Syntax(tokens.len()));
    };
    Ok(SpecifierPart {
        specifier,
        depth: 0,
        rest,
    })
}

/// The specifiers of a declaration, at least one, under `depth` nodes.
pub(crate) fn declaration_specifiers<'t>(
    alloc: Global,
    tokens: &'t [Token],
    depth: u32,
    scope: Scope,
) -> Result<DeclarationSpecifiersPart<'t>, Refusal>
    requires { depth ≤ 256 }
    ensures answer { AnswersDeclarationSpecifiers scope depth tokens.now result }
    ensures stands { IfErr result (λ f. StandsDeclarationSpecifiers scope depth tokens.now f) }
    ensures shorter { IfOk result (λ p. length p.rest.now < length tokens.now) }
{
    let Some((pos, _, _)) = any_keyword_front(tokens) else {
        return Err(Refusal::Syntax(tokens.len()));
    };
    let first = specifier(alloc, tokens, depth, scope)?;
    let mut list = Vec::new(alloc);
    let mut deepest = first.depth;
    let mut rest = first.rest;
    list.push(first.specifier)?;
    while begins_specifier(rest) {
        let next = specifier(alloc, rest, depth, scope)?;
        deepest = deepest.max(next.depth);
        rest = next.rest;
        list.push(next.specifier)?;
    }
    Ok(DeclarationSpecifiersPart {
        specifiers: Specifiers { pos, list },
        depth: deepest,
        rest,
    })
}
