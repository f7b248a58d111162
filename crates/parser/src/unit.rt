//! Translation units (ISO/IEC 9899:2011 6.9).

ghost use Rattle.std.specs.Prelude.{◌≡◌, ◌↔◌, ◌<◌, ◌≤◌, IsTrue, List, length, IfOk, IfErr, ◌∷◌};
ghost use Rattle.lexer.specs.declared.token.Token.{Token};
ghost use Rattle.lexer.specs.declared.token.Kind.{Kind};
ghost use Rattle.tree.specs.Capped.{capped};
ghost use Rattle.tree.specs.Counts.{external_nodes};
ghost use Rattle.tree.specs.View.{external_of, unit_of};
ghost use Rattle.parser_grammar.specs.Tokens.{Reaches};
ghost use Rattle.parser.specs.Units.{IsSmall, IsTreeWithin, IsOnly, HasTokenAt, IsRefused, IsFaultOfUnit};
ghost use Rattle.parser.specs.inside.UnitAnswers.{AnswersFunctionBody, AnswersExternal, StandsExternal, IsLocated, Counts, CountsTooMany};

use crate::statements::block_items;
use lexer::{Punctuator, Token};
use parser_declarations::declarations::{Head, HeadPart, external_head};
use parser_expressions::fronts::sign_front;
use parser_grammar::Refusal;
use srcset::{Code, Fault, Names, Pos};
use std::alloc::Global;
use tree::{BlockItem, External, Function, Unit};

/// The most nodes of a function definition.
const MAX_FUNCTION_NODES: u64 = 8_000;

/// The most nodes of a translation unit.
const MAX_NODES: u64 = 262_144;

/// The body of a function definition, the place of its brace, and the rest of the list.
#[derive(Drop)]
struct BodyPart<'t> {
    pos: Pos,
    items: Vec<BlockItem>,
    rest: &'t [Token],
}

/// An external declaration at the front of a list, and the rest of the list.
#[derive(Drop)]
struct ExternalPart<'t> {
    external: External,
    rest: &'t [Token],
}

/// The place of the token before the last `behind` tokens.
fn place_before(tokens: &[Token], behind: usize) -> Pos
    requires { behind < length tokens.now }
    ensures { (us : List Token) → length us ≡ behind → Reaches tokens.now us → (last : Kind) × Reaches tokens.now (record { kind = last; pos = result } ∷ us) }
{
    tokens[tokens.len() - 1 - behind].pos
}

/// The place of the first of the last `left` tokens, or, at 0, of the last token. No clause of the descent says that the list has `left` tokens; the smaller
/// count is taken.
fn syntax_place(tokens: &[Token], left: usize) -> Pos
    requires { 0 < length tokens.now }
    ensures { HasTokenAt tokens.now result }
{
    place_before(tokens, left.saturating_sub(1).min(tokens.len() - 1))
}

/// The refusal with its code.
fn located(refusal: Refusal, tokens: &[Token]) -> srcset::Refusal
    requires { 0 < length tokens.now }
    ensures { IsLocated tokens.now refusal result }
{
    match refusal {
        Refusal::Syntax(left) => srcset::Refusal::At {
            code: Code::SyntaxError,
            pos: syntax_place(tokens, left),
        },
        Refusal::Depth(pos) => srcset::Refusal::At {
            code: Code::DepthLimit,
            pos,
        },
        Refusal::Memory => srcset::Refusal::Memory,
    }
}

/// The body of a function definition (6.9.1), which is a node below the function.
fn function_body<'t>(alloc: Global, tokens: &'t [Token]) -> Result<BodyPart<'t>, Refusal>
    ensures answer { AnswersFunctionBody tokens.now result }
    ensures shorter { IfOk result (λ p. length p.rest.now < length tokens.now) }
{
    let Some((pos, inside)) = sign_front(tokens, Punctuator::BraceOpen) else {
        return Err(Refusal::Syntax(tokens.len()));
    };
    let part = block_items(alloc, inside, 2)?;
    Ok(BodyPart {
        pos,
        items: part.items,
        rest: part.rest,
    })
}

/// An external declaration (6.9).
fn external<'t>(alloc: Global, tokens: &'t [Token]) -> Result<ExternalPart<'t>, Refusal>
    ensures answer { AnswersExternal tokens.now result }
    ensures stands { IfErr result (λ f. StandsExternal tokens.now f) }
    ensures shorter { IfOk result (λ p. length p.rest.now < length tokens.now) }
{
    let HeadPart { head, rest, .. } = external_head(alloc, tokens, 0)?;
    match head {
        Head::Declaration(declaration) => Ok(ExternalPart {
            external: External::Declaration(declaration),
            rest,
        }),
        Head::Function(specifiers, declarator) => {
            let body = function_body(alloc, rest)?;
            Ok(ExternalPart {
                external: External::Function(Function {
                    specifiers,
                    declarator,
                    body_pos: body.pos,
                    body: body.items,
                }),
                rest: body.rest,
            })
        }
    }
}

/// Whether it is no function definition of too many nodes.
fn is_small(external: &External, nodes: u64) -> bool
    requires { nodes ≡ capped (external_nodes (external_of external.now)) }
    ensures { IsTrue result ↔ IsSmall (external_of external.now) }
{
    match external {
        External::Function(_) => nodes <= MAX_FUNCTION_NODES,
        External::Declaration(_) => true,
    }
}

/// The nodes read with this external declaration, which ends at this place.
fn counted(nodes: u64, external: &External, end: Pos) -> Result<u64, srcset::Refusal>
    requires { nodes ≤ 262144 }
    ensures ok { IfOk result (λ total. Counts nodes (external_of external.now) total) }
    ensures err { IfErr result (λ f. CountsTooMany nodes (external_of external.now) end f) }
{
    let more = external.nodes();
    if !is_small(external, more) {
        return Err(srcset::Refusal::At {
            code: Code::FunctionNodeLimit,
            pos: end,
        });
    }
    if more > MAX_NODES - nodes {
        return Err(srcset::Refusal::At {
            code: Code::ProgramNodeLimit,
            pos: end,
        });
    }
    Ok(nodes + more)
}

/// The translation unit that the whole list is.
fn unit(alloc: Global, tokens: &[Token]) -> Result<Unit, srcset::Refusal>
    ensures ok { IfOk result (λ unit. IsTreeWithin tokens.now (unit_of unit)) }
    ensures unique { IfOk result (λ unit. IsOnly tokens.now (unit_of unit)) }
    ensures err { IfErr result (λ f. IsRefused tokens.now f) }
{
    let mut externals: Vec<External> = Vec::new(alloc);
    let mut nodes = 0;
    let mut rest = tokens;
    while !rest.is_empty() {
        let part = match external(alloc, rest) {
            Ok(part) => part,
            Err(refusal) => return Err(located(refusal, tokens)),
        };
        let end = place_before(tokens, part.rest.len());
        nodes = counted(nodes, &part.external, end)?;
        rest = part.rest;
        externals.push(part.external)?;
    }
    Ok(Unit { externals })
}

/// The syntax tree of a whole list of C tokens (ISO/IEC 9899:2011 6.9), whose places `names` names.
///
/// `Ok` where the list has a tree within the limits: depth 256, 8,000 nodes a function definition, 262,144 nodes in
/// all. It is then the only tree of the list. Fails
/// - with 401 where the list has no tree, at the first token with which none goes on, or at the last token;
/// - with 709 (depth), 710 (a function definition's nodes) or 711 (the program's nodes) where it has no tree that
///   keeps that limit, at the token with which a begun tree passes it: of 710 and 711 the last of a function
///   definition or declaration;
/// - with 801 where memory runs out.
///
/// Linear in the tokens; its host recursion is bounded by the limit of the depth.
pub fn parse(alloc: Global, tokens: &[Token], names: &Names) -> Result<Unit, Fault>
    ensures ok { IfOk result (λ unit. IsTreeWithin tokens.now (unit_of unit)) }
    ensures unique { IfOk result (λ unit. IsOnly tokens.now (unit_of unit)) }
    ensures err { IfErr result (λ fault. IsFaultOfUnit fault names.now tokens.now) }
{
    match unit(alloc, tokens) {
        Ok(unit) => Ok(unit),
        Err(refusal) => Err(refusal.to_fault(alloc, names)),
    }
}
