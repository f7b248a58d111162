//! Tests of the token at the front of a list.

ghost use Rattle.std.specs.Prelude.{◌≡◌, ◌≤◌, ◌<◌, ◌+◌, ℕ, IfOk, IfErr, MatchOption};
ghost use Rattle.srcset.specs.declared.refusal.Pos.{Pos};
ghost use Rattle.ctypes.specs.declared.types.IntType.{IntType};
ghost use Rattle.lexer.specs.declared.token.Kind.TheVariants as kind;
ghost use Rattle.lexer.specs.declared.token.Punctuator.{Punctuator};
ghost use Rattle.lexer.specs.declared.token.Keyword.{Keyword};
ghost use Rattle.parser_grammar.specs.Tokens.{Own, NotFront};
ghost use Rattle.parser_grammar.specs.declared.refusal.Refusal.TheVariants.{Syntax, Depth};

use ctypes::IntType;
use lexer::{Keyword, Kind, Punctuator, Token};
use parser_grammar::Refusal;
use srcset::Pos;

/// The greatest depth of a tree.
pub const MAX_DEPTH: u32 = 256;

/// One level down.
pub fn down(depth: u32, at: Pos) -> Result<u32, Refusal>
    requires { depth ≤ 256 }
    ensures ok { IfOk result (λ k. (depth < 256) × (k ≡ depth + 1)) }
    ensures err { IfErr result (λ f. (depth ≡ 256) × (f ≡ Depth at)) }
{
    if depth == MAX_DEPTH {
        return Err(Refusal::Depth(at));
    }
    Ok(depth + 1)
}

/// One level down, above a tree of this height.
pub fn above(depth: u32, height: u32, at: Pos) -> Result<u32, Refusal>
    requires { depth + height ≤ 256 }
    ensures ok { IfOk result (λ k. (depth + 1 + height ≤ 256) × (k ≡ depth + 1)) }
    ensures err { IfErr result (λ f. (256 < depth + 1 + height) × (f ≡ Depth at)) }
{
    if depth + height == MAX_DEPTH {
        return Err(Refusal::Depth(at));
    }
    Ok(depth + 1)
}

/// The punctuator at the front, and the remaining tokens.
pub fn any_sign_front<'t>(tokens: &'t [Token]) -> Option<(Pos, Punctuator, &'t [Token])>
    ensures { MatchOption result ((k : Punctuator) → NotFront (kind.Punctuator k) tokens.now)
        (λ p. Own (kind.Punctuator p.1) p.0 tokens.now p.2.now) }
{
    let [first, rest @ ..] = tokens else {
        return None;
    };
    match first.kind {
        Kind::Punctuator(found) => Some((first.pos, found, rest)),
        _ => None,
    }
}

/// The place of this punctuator where it is at the front, and the remaining tokens.
pub fn sign_front<'t>(tokens: &'t [Token], sign: Punctuator) -> Option<(Pos, &'t [Token])>
    ensures { MatchOption result (NotFront (kind.Punctuator sign) tokens.now) (λ p. Own (kind.Punctuator sign) p.0 tokens.now p.1.now) }
{
    let (pos, found, rest) = any_sign_front(tokens)?;
    if found == sign {
        Some((pos, rest))
    } else {
        None
    }
}

/// The keyword at the front, and the remaining tokens.
pub fn any_keyword_front<'t>(tokens: &'t [Token]) -> Option<(Pos, Keyword, &'t [Token])>
    ensures { MatchOption result ((k : Keyword) → NotFront (kind.Keyword k) tokens.now)
        (λ p. Own (kind.Keyword p.1) p.0 tokens.now p.2.now) }
{
    let [first, rest @ ..] = tokens else {
        return None;
    };
    match first.kind {
        Kind::Keyword(found) => Some((first.pos, found, rest)),
        _ => None,
    }
}

/// The place of this keyword where it is at the front, and the remaining tokens.
pub fn keyword_front<'t>(tokens: &'t [Token], keyword: Keyword) -> Option<(Pos, &'t [Token])>
    ensures { MatchOption result (NotFront (kind.Keyword keyword) tokens.now) (λ p. Own (kind.Keyword keyword) p.0 tokens.now p.1.now) }
{
    let (pos, found, rest) = any_keyword_front(tokens)?;
    if found == keyword {
        Some((pos, rest))
    } else {
        None
    }
}

/// The tokens after this punctuator, which is at the front.
pub fn expect_sign<'t>(tokens: &'t [Token], sign: Punctuator) -> Result<&'t [Token], Refusal>
    ensures ok { IfOk result (λ rest. (at : Pos) × Own (kind.Punctuator sign) at tokens.now rest.now) }
    ensures err { IfErr result (λ f. NotFront (kind.Punctuator sign) tokens.now × ((left : ℕ) × (f ≡ Syntax left))) }
{
    match sign_front(tokens, sign) {
        Some((_, rest)) => Ok(rest),
        None => Err(Refusal::Syntax(tokens.len())),
    }
}

/// The tokens after this keyword, which is at the front.
pub fn expect_keyword<'t>(tokens: &'t [Token], keyword: Keyword) -> Result<&'t [Token], Refusal>
    ensures ok { IfOk result (λ rest. (at : Pos) × Own (kind.Keyword keyword) at tokens.now rest.now) }
    ensures err { IfErr result (λ f. NotFront (kind.Keyword keyword) tokens.now × ((left : ℕ) × (f ≡ Syntax left))) }
{
    match keyword_front(tokens, keyword) {
        Some((_, rest)) => Ok(rest),
        None => Err(Refusal::Syntax(tokens.len())),
    }
}

/// The identifier at the front, and the remaining tokens.
pub fn identifier_front<'t>(tokens: &'t [Token]) -> Option<(Pos, usize, &'t [Token])>
    ensures { MatchOption result ((n : ℕ) → NotFront (kind.Identifier n) tokens.now)
        (λ p. Own (kind.Identifier p.1) p.0 tokens.now p.2.now) }
{
    let [first, rest @ ..] = tokens else {
        return None;
    };
    match first.kind {
        Kind::Identifier(name) => Some((first.pos, name, rest)),
        _ => None,
    }
}

/// The constant at the front, and the remaining tokens.
pub fn constant_front<'t>(tokens: &'t [Token]) -> Option<(Pos, IntType, u32, &'t [Token])>
    ensures { MatchOption result ((ty : IntType) (n : ℕ) → NotFront (kind.Constant ty n) tokens.now)
        (λ p. Own (kind.Constant p.1 p.2) p.0 tokens.now p.3.now) }
{
    let [first, rest @ ..] = tokens else {
        return None;
    };
    match first.kind {
        Kind::Constant(ty, value) => Some((first.pos, ty, value, rest)),
        _ => None,
    }
}

/// The string literal at the front, and the remaining tokens.
pub fn string_front<'t>(tokens: &'t [Token]) -> Option<(Pos, usize, &'t [Token])>
    ensures { MatchOption result ((n : ℕ) → NotFront (kind.StringLiteral n) tokens.now)
        (λ p. Own (kind.StringLiteral p.1) p.0 tokens.now p.2.now) }
{
    let [first, rest @ ..] = tokens else {
        return None;
    };
    match first.kind {
        Kind::StringLiteral(text) => Some((first.pos, text, rest)),
        _ => None,
    }
}
