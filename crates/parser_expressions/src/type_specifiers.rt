//! Specifiers of types that contain no list of enumerators.

ghost use Rattle.std.specs.Prelude.{◌≡◌, ◌<◌, ◌↔◌, ℕ, List, length, IsTrue, IfOk, IfErr, MatchOption};
ghost use Rattle.lexer.specs.declared.token.Token.{Token};
ghost use Rattle.tree.specs.declared.expression.TypeSpecifier.{TypeSpecifier};
ghost use Rattle.parser_grammar.specs.Tokens.{StartsAt};
ghost use Rattle.parser_grammar.specs.Expressions.{SpellsSpecifier};
ghost use Rattle.parser_expressions.specs.ExpressionAnswers.{KeywordBeginsType, BeginsType, AnswersSpecifiers, NotDepth};
ghost use Rattle.parser_expressions.specs.inside.PlainSpecifiers.{IsPlain};
ghost use Rattle.parser_grammar.specs.declared.refusal.Refusal.TheVariants.{Syntax};

use crate::fronts::{any_keyword_front, identifier_front, keyword_front};
use lexer::{Keyword, Token};
use parser_grammar::Refusal;
use srcset::Pos;
use std::alloc::Global;
use tree::{TypeSpecifier, TypeSpecifiers, Word};

/// Specifiers at the front of a list, and the rest of the list.
#[derive(Drop)]
pub struct SpecifiersPart<'t> {
    pub specifiers: TypeSpecifiers,
    pub rest: &'t [Token],
}

// The specifier that this keyword is by itself.
fn plain_specifier(keyword: Keyword) -> Option<TypeSpecifier>
    ensures { MatchOption result ((s : TypeSpecifier) → IsPlain s keyword → ⊥) (λ s. IsPlain s keyword) }
{
    match keyword {
        Keyword::Const => Some(TypeSpecifier::Const),
        Keyword::Void => Some(TypeSpecifier::Word(Word::Void)),
        Keyword::Char => Some(TypeSpecifier::Word(Word::Char)),
        Keyword::Short => Some(TypeSpecifier::Word(Word::Short)),
        Keyword::Int => Some(TypeSpecifier::Word(Word::Int)),
        Keyword::Long => Some(TypeSpecifier::Word(Word::Long)),
        Keyword::Signed => Some(TypeSpecifier::Word(Word::Signed)),
        Keyword::Unsigned => Some(TypeSpecifier::Word(Word::Unsigned)),
        Keyword::Bool => Some(TypeSpecifier::Word(Word::Bool)),
        _ => None,
    }
}

fn keyword_begins_type(keyword: Keyword) -> bool
    ensures { IsTrue result ↔ KeywordBeginsType keyword }
{
    match keyword {
        Keyword::Const
        | Keyword::Enum
        | Keyword::Void
        | Keyword::Char
        | Keyword::Short
        | Keyword::Int
        | Keyword::Long
        | Keyword::Signed
        | Keyword::Unsigned
        | Keyword::Bool => true,
        _ => false,
    }
}

/// Whether the front is a type specifier or qualifier.
pub(crate) fn begins_type(tokens: &[Token]) -> bool
    ensures { IsTrue result ↔ BeginsType tokens.now }
{
    match any_keyword_front(tokens) {
        Some((_, keyword, _)) => keyword_begins_type(keyword),
        None => false,
    }
}

// The specifier at the front, its place, and the remaining tokens.
fn specifier_front<'t>(tokens: &'t [Token]) -> Result<(Pos, TypeSpecifier, &'t [Token]), Refusal>
    ensures place { IfOk result (λ p. StartsAt p.0 tokens.now) }
    ensures ok { IfOk result (λ p. SpellsSpecifier p.1 tokens.now p.2.now) }
    ensures err { IfErr result (λ f. (s : TypeSpecifier) (rest : List Token) → SpellsSpecifier s tokens.now rest → ⊥) }
    ensures syntax { IfErr result (λ f. (left : ℕ) × (f ≡ Syntax left)) }
{
    if let Some((pos, rest)) = keyword_front(tokens, Keyword::Enum) {
        let Some((_, tag, rest)) = identifier_front(rest) else {
            return Err(Refusal::Syntax(rest.len()));
        };
        return Ok((pos, TypeSpecifier::Enum(tag), rest));
    }
    let Some((pos, keyword, rest)) = any_keyword_front(tokens) else {
        return Err(Refusal::Syntax(tokens.len()));
    };
    let Some(specifier) = plain_specifier(keyword) else {
        return Err(Refusal::Syntax(tokens.len()));
    };
    Ok((pos, specifier, rest))
}

/// The specifiers of a type name or a parameter (ISO/IEC 9899:2011 6.7.2, 6.7.3): at least one.
pub fn type_specifiers<'t>(
    alloc: Global,
    tokens: &'t [Token],
) -> Result<SpecifiersPart<'t>, Refusal>
    ensures answer { AnswersSpecifiers tokens.now result }
    ensures plain { IfErr result NotDepth }
    ensures shorter { IfOk result (λ p. length p.rest.now < length tokens.now) }
{
    let (pos, first, after) = specifier_front(tokens)?;
    let mut list = Vec::new(alloc);
    list.push(first)?;
    let mut rest = after;
    while begins_type(rest) {
        let (_, next, after) = specifier_front(rest)?;
        list.push(next)?;
        rest = after;
    }
    Ok(SpecifiersPart {
        specifiers: TypeSpecifiers { pos, list },
        rest,
    })
}
