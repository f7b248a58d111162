//! The parts of initialisers that hold no others: numbers and string literals.
#![tactic(auto)]

ghost use Rattle.std.specs.Prelude.{◌≡◌, ◌+◌, ◌-◌, length, map, slice_get, IfErr, IfOk, OnOk};
ghost use Rattle.srcset.specs.declared.refusal.Refusal.TheVariants.{Memory};
ghost use Rattle.typed_ast.specs.View.{initialiser_of};
ghost use Rattle.tree.specs.View.{tree_of, init_of, inits_of};
ghost use Rattle.typing_spec.specs.Verdict.{fine};
ghost use Rattle.typing_spec.specs.Scope.{Scope, or_empty, strings};
ghost use Rattle.typing_spec.specs.Expressions.{position};
ghost use Rattle.typing_spec.specs.Program as typed_program;
ghost use Rattle.typing_spec.specs.Initialisers as typed;
ghost use Rattle.typing_expressions.specs.Refused.{Tells};
ghost use Rattle.typing_expressions.specs.Forms.{checked_of};
ghost use Rattle.typing_expressions.specs.Numbered.{numbered};

use crate::forms::{exceeds, has_characters, string_literal};
use const_expr::expression;
use ctypes::IntType;
use srcset::{Code, Names, Pos, Refusal};
use std::alloc::Global;
use tree::{Expr, Initialiser as Init};
use typed_ast::Initialiser;
use typing_expressions::{Checked, LiteralCount, broken, valued};
use typing_scopes::Scope;

/// The place of an expression.
fn place_of(x: &Checked) -> Pos
    ensures { result ≡ position (checked_of x.now) }
{
    match x {
        Checked::Value(pos, _, _) => *pos,
        Checked::Object(pos, _, _, _) => *pos,
        Checked::Array(pos, _, _, _) => *pos,
        Checked::Unsized(pos, _, _) => *pos,
        Checked::Reference(pos, _, _) => *pos,
        Checked::Nothing(pos, _) => *pos,
        Checked::Designator(pos) => *pos,
    }
}

/// A number, as in an assignment (6.7.9p11).
pub(crate) fn number_from(
    alloc: Global,
    names: &Names,
    scope: &Scope,
    literals: &mut LiteralCount,
    element: IntType,
    e: &Expr,
) -> Result<Initialiser, Refusal>
    ensures ok { IfOk result (λ i. typed.number_from (numbered names.now literals.old scope.now) element (tree_of e.now) ≡ fine (initialiser_of i)) }
    ensures err { IfErr result (λ r. Tells r (typed.number_from (numbered names.now literals.old scope.now) element (tree_of e.now))) }
    ensures count { OnOk result (literals.new ≡ literals.old + length (strings (tree_of e.now))) }
{
    let x = match expression(alloc, names, scope, literals, e) {
        Ok(x) => x,
        Err(refusal) => return Err(refusal),
    };
    let pos = place_of(&x);
    match valued(alloc, Code::VoidAssigned, pos, x) {
        Ok(worth) => Ok(Initialiser::One(element, worth.value)),
        Err(refusal) => Err(refusal),
    }
}

/// An initialiser in braces.
pub(crate) fn in_braces(alloc: Global, inner: Initialiser) -> Result<Initialiser, Refusal>
    ensures ok { IfOk result (λ i. initialiser_of i ≡ typed_program.in_braces (initialiser_of inner)) }
    ensures err { IfErr result (λ r. r ≡ Memory) }
{
    let Ok(inner) = Box::new(alloc, inner) else {
        return Err(Refusal::Memory);
    };
    Ok(Initialiser::InBraces(inner))
}

/// A number in braces (6.7.9p11).
pub(crate) fn number_in_braces(
    alloc: Global,
    names: &Names,
    scope: &Scope,
    literals: &mut LiteralCount,
    pos: Pos,
    element: IntType,
    parts: &[Init],
) -> Result<Initialiser, Refusal>
    ensures ok { IfOk result (λ i. typed.number_in_braces (numbered names.now literals.old scope.now) pos element (inits_of (map init_of parts.now)) ≡ fine (initialiser_of i)) }
    ensures err { IfErr result (λ r. Tells r (typed.number_in_braces (numbered names.now literals.old scope.now) pos element (inits_of (map init_of parts.now)))) }
    ensures count { OnOk result (literals.new ≡ literals.old + length (typed.strings_of_all (inits_of (map init_of parts.now)))) }
{
    let Some((first, rest)) = parts.split_first() else {
        return Err(broken(Code::BadInitialiserForm, pos));
    };
    match first {
        Init::List(_, _) => Err(broken(Code::BadInitialiserForm, pos)),
        Init::One(e) => {
            if !rest.is_empty() {
                return Err(broken(Code::TooManyInitialisers, pos));
            }
            match number_from(alloc, names, scope, literals, element, e) {
                Ok(inner) => in_braces(alloc, inner),
                Err(refusal) => Err(refusal),
            }
        }
    }
}

/// The number of characters of a literal; its text has a zero after them.
fn character_count(names: &Names, name: usize) -> usize
    ensures { result ≡ length (or_empty (slice_get names.now name)) - 1 }
{
    match names.text(name) {
        Some(text) => text.len().saturating_sub(1),
        None => 0,
    }
}

/// The characters of a string literal (6.7.9p14).
pub(crate) fn text_from(
    names: &Names,
    literals: &mut LiteralCount,
    pos: Pos,
    room: Option<usize>,
    name: usize,
) -> Result<Initialiser, Refusal>
    ensures ok { (s : Scope) → IfOk result (λ i. typed.text_from (numbered names.now literals.old s) pos room name ≡ fine (initialiser_of i)) }
    ensures err { (s : Scope) → IfErr result (λ r. Tells r (typed.text_from (numbered names.now literals.old s) pos room name)) }
    ensures count { OnOk result (literals.new ≡ literals.old + 1) }
{
    if exceeds(character_count(names, name), room) {
        return Err(broken(Code::TooManyInitialisers, pos));
    }
    match literals.next() {
        Ok(number) => Ok(Initialiser::Text(number)),
        Err(_) => Err(Refusal::Memory),
    }
}

/// An array from an expression without braces that is no string literal for it.
fn not_braced(top: bool, pos: Pos) -> Refusal
    ensures { Tells result (typed.not_braced top pos) }
{
    if top {
        return broken(Code::BadInitialiserForm, pos);
    }
    broken(Code::LeftOutBraceElision, pos)
}

/// A string literal for an array of characters, if it is one.
fn text_if(
    names: &Names,
    literals: &mut LiteralCount,
    characters: bool,
    top: bool,
    pos: Pos,
    own: Pos,
    room: Option<usize>,
    name: usize,
) -> Result<Initialiser, Refusal>
    ensures ok { (s : Scope) → IfOk result (λ i. typed.text_if characters top (numbered names.now literals.old s) pos own room name ≡ fine (initialiser_of i)) }
    ensures err { (s : Scope) → IfErr result (λ r. Tells r (typed.text_if characters top (numbered names.now literals.old s) pos own room name)) }
    ensures count { OnOk result (literals.new ≡ literals.old + 1) }
{
    if characters {
        return text_from(names, literals, own, room, name);
    }
    Err(not_braced(top, pos))
}

/// An array from an expression without braces (6.7.9p14).
pub(crate) fn array_from(
    names: &Names,
    literals: &mut LiteralCount,
    pos: Pos,
    element: IntType,
    room: Option<usize>,
    lengths: &[u32],
    top: bool,
    e: &Expr,
) -> Result<Initialiser, Refusal>
    ensures ok { (s : Scope) → IfOk result (λ i. typed.array_from (numbered names.now literals.old s) pos element room lengths.now top (tree_of e.now) ≡ fine (initialiser_of i)) }
    ensures err { (s : Scope) → IfErr result (λ r. Tells r (typed.array_from (numbered names.now literals.old s) pos element room lengths.now top (tree_of e.now))) }
    ensures count { OnOk result (literals.new ≡ literals.old + length (strings (tree_of e.now))) }
{
    match string_literal(e) {
        None => Err(not_braced(top, pos)),
        Some((own, name)) => {
            let characters = has_characters(element, lengths);
            text_if(names, literals, characters, top, pos, own, room, name)
        }
    }
}
