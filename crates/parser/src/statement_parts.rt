//! The parts of statements that have no statement in them (ISO/IEC 9899:2011 6.8).

ghost use Rattle.std.specs.Prelude.{◌≡◌, ◌<◌, ◌≤◌, length, IfOk, IfErr, MatchOption};
ghost use Rattle.parser_grammar.specs.Tokens.{Own, StartsAt, NotFront};
ghost use Rattle.parser_expressions.specs.ExpressionLeads.{BeginsExpression};
ghost use Rattle.parser.specs.inside.StmtParts.{EndsExpression, form_kind, AnswersClosed, StandsClosed, AnswersTest, StandsTest, AnswersDoEnd, StandsDoEnd, AnswersEnded, StandsEnded, AnswersStart, StandsStart, AnswersForHead, StandsForHead};
ghost use Rattle.lexer.specs.declared.token.Kind.TheVariants as kind;
ghost use Rattle.parser.specs.declared.statement_parts.Form.{Form};

use lexer::{Keyword, Kind, Punctuator, Token};
use parser_declarations::declarations::{begins_declaration, declaration};
use parser_expressions::expressions::{Part, begins_expression, expression};
use parser_expressions::fronts::{expect_keyword, expect_sign, sign_front};
use parser_grammar::Refusal;
use srcset::Pos;
use std::alloc::Global;
use tree::{Expr, ForStart};

/// The statements that begin with a token of their own.
#[derive(Clone, Copy, PartialEq, Eq, Debug)]
pub(crate) enum Form {
    /// `{` (6.8.2)
    Block,
    /// `;` (6.8.3)
    Empty,
    /// `if` (6.8.4.1)
    If,
    /// `switch` (6.8.4.2)
    Switch,
    /// `case` (6.8.1)
    Case,
    /// `default` (6.8.1)
    Default,
    /// `while` (6.8.5.1)
    While,
    /// `do` (6.8.5.2)
    Do,
    /// `for` (6.8.5.3)
    For,
    /// `break` (6.8.6.3)
    Break,
    /// `continue` (6.8.6.2)
    Continue,
    /// `return` (6.8.6.4)
    Return,
}

/// An expression or nothing, its depth, and the rest of the list.
#[derive(Drop)]
pub(crate) struct OptionPart<'t> {
    pub expr: Option<Expr>,
    pub depth: u32,
    pub rest: &'t [Token],
}

/// The first part of a `for`, its depth, and the rest of the list.
#[derive(Drop)]
pub(crate) struct StartPart<'t> {
    pub start: ForStart,
    pub depth: u32,
    pub rest: &'t [Token],
}

/// The contents of the parentheses of a `for`, their depth, and the rest of the list.
#[derive(Drop)]
pub(crate) struct ForHeadPart<'t> {
    pub start: ForStart,
    pub test: Option<Expr>,
    pub step: Option<Expr>,
    pub depth: u32,
    pub rest: &'t [Token],
}

fn keyword_form(keyword: Keyword) -> Option<Form>
    ensures { MatchOption result ((f : Form) → kind.Keyword keyword ≡ form_kind f → ⊥) (λ f. kind.Keyword keyword ≡ form_kind f) }
{
    match keyword {
        Keyword::If => Some(Form::If),
        Keyword::Switch => Some(Form::Switch),
        Keyword::Case => Some(Form::Case),
        Keyword::Default => Some(Form::Default),
        Keyword::While => Some(Form::While),
        Keyword::Do => Some(Form::Do),
        Keyword::For => Some(Form::For),
        Keyword::Break => Some(Form::Break),
        Keyword::Continue => Some(Form::Continue),
        Keyword::Return => Some(Form::Return),
        _ => None,
    }
}

fn kind_form(kind: Kind) -> Option<Form>
    ensures { MatchOption result ((f : Form) → kind ≡ form_kind f → ⊥) (λ f. kind ≡ form_kind f) }
{
    match kind {
        Kind::Keyword(keyword) => keyword_form(keyword),
        Kind::Punctuator(Punctuator::BraceOpen) => Some(Form::Block),
        Kind::Punctuator(Punctuator::Semicolon) => Some(Form::Empty),
        _ => None,
    }
}

/// The form of the statement that begins with the token at the front, its place, and the tokens after it.
pub(crate) fn form_front<'t>(tokens: &'t [Token]) -> Option<(Pos, Form, &'t [Token])>
    ensures { MatchOption result ((f : Form) → NotFront (form_kind f) tokens.now)
        (λ p. Own (form_kind p.1) p.0 tokens.now p.2.now) }
{
    let [first, rest @ ..] = tokens else {
        return None;
    };
    let form = kind_form(first.kind)?;
    Some((first.pos, form, rest))
}

/// The place of the first token, where an expression begins with it.
pub(crate) fn expression_place(tokens: &[Token]) -> Option<Pos>
    ensures { MatchOption result (BeginsExpression tokens.now → ⊥) (λ at. BeginsExpression tokens.now × StartsAt at tokens.now) }
{
    match tokens {
        [first, ..] => {
            if begins_expression(tokens) {
                Some(first.pos)
            } else {
                None
            }
        }
        [] => None,
    }
}

/// An expression and the sign after it, below `depth` nodes.
#[inline(never)]
pub(crate) fn closed_expression<'t>(
    alloc: Global,
    tokens: &'t [Token],
    depth: u32,
    sign: Punctuator,
) -> Result<Part<'t>, Refusal>
    requires room { depth ≤ 256 }
    requires closes { EndsExpression sign }
    ensures answer { AnswersClosed sign depth tokens.now result }
    ensures stands { IfErr result (λ f. StandsClosed sign depth tokens.now f) }
    ensures shorter { IfOk result (λ p. length p.rest.now < length tokens.now) }
{
    let part = expression(alloc, tokens, depth)?;
    let rest = expect_sign(part.rest, sign)?;
    Ok(Part {
        expr: part.expr,
        depth: part.depth,
        rest,
    })
}

/// An expression or nothing, and the sign after it, below `depth` nodes.
#[inline(never)]
pub(crate) fn optional_expression<'t>(
    alloc: Global,
    tokens: &'t [Token],
    depth: u32,
    sign: Punctuator,
) -> Result<OptionPart<'t>, Refusal>
    requires room { depth ≤ 256 }
    requires closes { EndsExpression sign }
    ensures answer { AnswersEnded sign depth tokens.now result }
    ensures stands { IfErr result (λ f. StandsEnded sign depth tokens.now f) }
    ensures shorter { IfOk result (λ p. length p.rest.now < length tokens.now) }
{
    if let Some((_, rest)) = sign_front(tokens, sign) {
        return Ok(OptionPart {
            expr: None,
            depth: 0,
            rest,
        });
    }
    let part = closed_expression(alloc, tokens, depth, sign)?;
    Ok(OptionPart {
        expr: Some(part.expr),
        depth: part.depth,
        rest: part.rest,
    })
}

/// The expression in parentheses of a statement (6.8.4, 6.8.5), below `depth` nodes.
#[inline(never)]
pub(crate) fn test_expression<'t>(
    alloc: Global,
    tokens: &'t [Token],
    depth: u32,
) -> Result<Part<'t>, Refusal>
    requires { depth ≤ 256 }
    ensures answer { AnswersTest depth tokens.now result }
    ensures stands { IfErr result (λ f. StandsTest depth tokens.now f) }
    ensures shorter { IfOk result (λ p. length p.rest.now < length tokens.now) }
{
    let rest = expect_sign(tokens, Punctuator::ParenOpen)?;
    let part = closed_expression(alloc, rest, depth, Punctuator::ParenClose)?;
    Ok(part)
}

/// The end of a `do` statement (6.8.5.2), below `depth` nodes.
#[inline(never)]
pub(crate) fn do_end<'t>(
    alloc: Global,
    tokens: &'t [Token],
    depth: u32,
) -> Result<Part<'t>, Refusal>
    requires { depth ≤ 256 }
    ensures answer { AnswersDoEnd depth tokens.now result }
    ensures stands { IfErr result (λ f. StandsDoEnd depth tokens.now f) }
    ensures shorter { IfOk result (λ p. length p.rest.now < length tokens.now) }
{
    let rest = expect_keyword(tokens, Keyword::While)?;
    let test = test_expression(alloc, rest, depth)?;
    let rest = expect_sign(test.rest, Punctuator::Semicolon)?;
    Ok(Part {
        expr: test.expr,
        depth: test.depth,
        rest,
    })
}

/// The first part of a `for` (6.8.5.3), with its semicolon; below `depth` nodes.
#[inline(never)]
fn for_start<'t>(alloc: Global, tokens: &'t [Token], depth: u32) -> Result<StartPart<'t>, Refusal>
    requires { depth ≤ 256 }
    ensures answer { AnswersStart depth tokens.now result }
    ensures stands { IfErr result (λ f. StandsStart depth tokens.now f) }
    ensures shorter { IfOk result (λ p. length p.rest.now < length tokens.now) }
{
    if begins_declaration(tokens) {
        let part = declaration(alloc, tokens, depth)?;
        return Ok(StartPart {
            start: ForStart::Declaration(part.declaration),
            depth: part.depth,
            rest: part.rest,
        });
    }
    let part = optional_expression(alloc, tokens, depth, Punctuator::Semicolon)?;
    Ok(StartPart {
        start: ForStart::Expression(part.expr),
        depth: part.depth,
        rest: part.rest,
    })
}

/// The contents of the parentheses of a `for` (6.8.5.3), below `depth` nodes.
#[inline(never)]
pub(crate) fn for_head<'t>(
    alloc: Global,
    tokens: &'t [Token],
    depth: u32,
) -> Result<ForHeadPart<'t>, Refusal>
    requires { depth ≤ 256 }
    ensures answer { AnswersForHead depth tokens.now result }
    ensures stands { IfErr result (λ f. StandsForHead depth tokens.now f) }
    ensures shorter { IfOk result (λ p. length p.rest.now < length tokens.now) }
{
    let rest = expect_sign(tokens, Punctuator::ParenOpen)?;
    let start = for_start(alloc, rest, depth)?;
    let test = optional_expression(alloc, start.rest, depth, Punctuator::Semicolon)?;
    let step = optional_expression(alloc, test.rest, depth, Punctuator::ParenClose)?;
    let depth = start.depth.max(test.depth.max(step.depth));
    Ok(ForHeadPart {
        start: start.start,
        test: test.expr,
        step: step.expr,
        depth,
        rest: step.rest,
    })
}
