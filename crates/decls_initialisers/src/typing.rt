//! Initialisers with their types (6.7.9).
#![tactic(auto)]

ghost use Rattle.std.specs.Prelude.{◌≡◌, ◌+◌, Bool, length, map, IfErr, IfOk, OnOk};
ghost use Rattle.typed_ast.specs.View.{initialiser_of, initialisers_of};
ghost use Rattle.tree.specs.Tree.{braced_init, one_init};
ghost use Rattle.tree.specs.View.{tree_of, init_of, inits_of};
ghost use Rattle.typing_spec.specs.Verdict.{fine};
ghost use Rattle.typing_spec.specs.Scope.{Scope, strings};
ghost use Rattle.typing_spec.specs.Initialisers as typed;
ghost use Rattle.typing_spec.specs.Initialisers.{an_array};
ghost use Rattle.typing_scopes.specs.Scopes.{with_texts};
ghost use Rattle.typing_expressions.specs.Refused.{Tells};
ghost use Rattle.decls_initialisers.specs.Views.{wanted_of, option_string};
ghost use Rattle.decls_initialisers.specs.inside.Numbered.{initialiser_at};
ghost use Rattle.decls_initialisers.specs.inside.Braces.{braced_string, braced_text_at, initialisers_at, list_at};

use crate::forms::{Wanted, exceeds, has_characters, text_alone, wanted_object};
use crate::parts::{array_from, in_braces, number_from, number_in_braces, text_from};
use ctypes::IntType;
use srcset::{Code, Names, Pos, Refusal};
use std::alloc::Global;
use tree::{Expr, Initialiser as Init};
use typed_ast::Initialiser;
use typing_expressions::{LiteralCount, broken};
use typing_scopes::Scope;

/// An initialiser without braces.
fn without_braces(
    alloc: Global,
    names: &Names,
    scope: &Scope,
    literals: &mut LiteralCount,
    pos: Pos,
    element: IntType,
    wanted: Wanted,
    top: bool,
    e: &Expr,
) -> Result<Initialiser, Refusal>
    ensures ok { IfOk result (λ i. initialiser_at names.now literals.old scope.now pos element (wanted_of wanted.entry) top (one_init (tree_of e.now)) ≡ fine (initialiser_of i)) }
    ensures err { IfErr result (λ r. Tells r (initialiser_at names.now literals.old scope.now pos element (wanted_of wanted.entry) top (one_init (tree_of e.now)))) }
    ensures count { OnOk result (literals.new ≡ literals.old + length (strings (tree_of e.now))) }
{
    match wanted {
        Wanted::Number => number_from(alloc, names, scope, literals, element, e),
        Wanted::Array(room, lengths) => {
            array_from(names, literals, pos, element, room, lengths, top, e)
        }
    }
}

/// No more parts than the array has elements (6.7.9p2), at least one (6.7.9p1).
fn fits_room(pos: Pos, room: Option<usize>, parts: &[Init]) -> Result<(), Refusal>
    ensures ok { OnOk result (typed.fits_room pos room (inits_of (map init_of parts.now)) ≡ fine tt) }
    ensures err { IfErr result (λ r. Tells r (typed.fits_room pos room (inits_of (map init_of parts.now)))) }
{
    if parts.is_empty() {
        return Err(broken(Code::BadInitialiserForm, pos));
    }
    if exceeds(parts.len(), room) {
        return Err(broken(Code::TooManyInitialisers, pos));
    }
    Ok(())
}

/// The string literal for characters that is alone in braces.
fn braced_text(element: IntType, lengths: &[u32], parts: &[Init]) -> Option<(Pos, usize)>
    ensures { option_string result ≡ braced_string (typed.has_characters element lengths.now) (typed.text_alone (inits_of (map init_of parts.now))) }
{
    if has_characters(element, lengths) {
        return text_alone(parts);
    }
    None
}

/// The parts of a list.
#[cycle(typing)]
fn typed_parts(
    alloc: Global,
    names: &Names,
    scope: &Scope,
    literals: &mut LiteralCount,
    pos: Pos,
    element: IntType,
    lengths: &[u32],
    parts: &[Init],
) -> Result<Vec<Initialiser>, Refusal>
    ensures ok { IfOk result (λ all. initialisers_at names.now literals.old scope.now pos element lengths.now (inits_of (map init_of parts.now)) ≡ fine (initialisers_of (map initialiser_of all.items))) }
    ensures err { IfErr result (λ r. Tells r (initialisers_at names.now literals.old scope.now pos element lengths.now (inits_of (map init_of parts.now)))) }
    ensures count { OnOk result (literals.new ≡ literals.old + length (typed.strings_of_all (inits_of (map init_of parts.now)))) }
{
    let mut all = Vec::new(alloc);
    for part in parts {
        let wanted = wanted_object(lengths);
        let inner = match initialiser_behind(
            alloc, names, scope, literals, pos, element, wanted, false, part,
        ) {
            Ok(inner) => inner,
            Err(refusal) => return Err(refusal),
        };
        let Ok(()) = all.push(inner) else {
            return Err(Refusal::Memory);
        };
    }
    Ok(all)
}

/// A list in braces, whose parts are in no other.
#[cycle(typing)]
fn list(
    alloc: Global,
    names: &Names,
    scope: &Scope,
    literals: &mut LiteralCount,
    pos: Pos,
    element: IntType,
    room: Option<usize>,
    lengths: &[u32],
    parts: &[Init],
) -> Result<Initialiser, Refusal>
    ensures ok { IfOk result (λ i. list_at names.now literals.old scope.now pos element room lengths.now (inits_of (map init_of parts.now)) ≡ fine (initialiser_of i)) }
    ensures err { IfErr result (λ r. Tells r (list_at names.now literals.old scope.now pos element room lengths.now (inits_of (map init_of parts.now)))) }
    ensures count { OnOk result (literals.new ≡ literals.old + length (typed.strings_of_all (inits_of (map init_of parts.now)))) }
{
    let all = match typed_parts(alloc, names, scope, literals, pos, element, lengths, parts) {
        Ok(all) => all,
        Err(refusal) => return Err(refusal),
    };
    match fits_room(pos, room, parts) {
        Ok(()) => Ok(Initialiser::List(all)),
        Err(refusal) => Err(refusal),
    }
}

/// A string literal alone in braces.
fn text_in_braces(
    alloc: Global,
    names: &Names,
    literals: &mut LiteralCount,
    pos: Pos,
    room: Option<usize>,
    name: usize,
) -> Result<Initialiser, Refusal>
    ensures ok { (s : Scope) → IfOk result (λ i. braced_text_at names.now literals.old s pos room name ≡ fine (initialiser_of i)) }
    ensures err { (s : Scope) → IfErr result (λ r. Tells r (braced_text_at names.now literals.old s pos room name)) }
    ensures count { OnOk result (literals.new ≡ literals.old + 1) }
{
    match text_from(names, literals, pos, room, name) {
        Ok(inner) => in_braces(alloc, inner),
        Err(refusal) => Err(refusal),
    }
}

/// An array in braces: a string literal alone for characters, or a list.
#[cycle(typing)]
fn array_in_braces(
    alloc: Global,
    names: &Names,
    scope: &Scope,
    literals: &mut LiteralCount,
    pos: Pos,
    element: IntType,
    room: Option<usize>,
    lengths: &[u32],
    parts: &[Init],
) -> Result<Initialiser, Refusal>
    ensures ok { (at : Pos) (top : Bool) → IfOk result (λ i. initialiser_at names.now literals.old scope.now at element (an_array room lengths.now) top (braced_init pos (inits_of (map init_of parts.now))) ≡ fine (initialiser_of i)) }
    ensures err { (at : Pos) (top : Bool) → IfErr result (λ r. Tells r (initialiser_at names.now literals.old scope.now at element (an_array room lengths.now) top (braced_init pos (inits_of (map init_of parts.now))))) }
    ensures count { OnOk result (literals.new ≡ literals.old + length (typed.strings_of_all (inits_of (map init_of parts.now)))) }
{
    match braced_text(element, lengths, parts) {
        Some((own, name)) => text_in_braces(alloc, names, literals, own, room, name),
        None => list(
            alloc, names, scope, literals, pos, element, room, lengths, parts,
        ),
    }
}

/// Types an initialiser after this number of string literals; the count grows by those in it. The elements of the initialised object have the type;
/// the place is that of its declarator, where `top` says that it is in no list, else that of the list. Else reports a constraint that it
/// violates, or 801.
///
/// Its recursion is as deep as the tree is.
#[cycle(typing)]
fn initialiser_behind(
    alloc: Global,
    names: &Names,
    scope: &Scope,
    literals: &mut LiteralCount,
    pos: Pos,
    element: IntType,
    wanted: Wanted,
    top: bool,
    init: &Init,
) -> Result<Initialiser, Refusal>
    ensures ok { IfOk result (λ i. initialiser_at names.now literals.old scope.now pos element (wanted_of wanted.entry) top (init_of init.now) ≡ fine (initialiser_of i)) }
    ensures err { IfErr result (λ r. Tells r (initialiser_at names.now literals.old scope.now pos element (wanted_of wanted.entry) top (init_of init.now))) }
    ensures count { OnOk result (literals.new ≡ literals.old + length (typed.strings_of (init_of init.now))) }
{
    match init {
        Init::One(e) => without_braces(alloc, names, scope, literals, pos, element, wanted, top, e),
        Init::List(brace, parts) => match wanted {
            Wanted::Number => {
                number_in_braces(alloc, names, scope, literals, *brace, element, parts)
            }
            Wanted::Array(room, lengths) => array_in_braces(
                alloc, names, scope, literals, *brace, element, room, lengths, parts,
            ),
        },
    }
}

/// An initialiser in a scope, whose names and literals have these texts (6.7.9), as `initialiser_behind` has it.
///
/// Fails
/// - with 5xx, 62x or 712 where a part breaks a constraint;
/// - with 801 where memory runs out.
pub fn initialiser(
    alloc: Global,
    names: &Names,
    scope: &Scope,
    pos: Pos,
    element: IntType,
    wanted: Wanted,
    top: bool,
    init: &Init,
) -> Result<Initialiser, Refusal>
    ensures ok { IfOk result (λ i. typed.initialiser (with_texts names.now scope.now) pos element (wanted_of wanted.entry) top (init_of init.now) ≡ fine (initialiser_of i)) }
    ensures err { IfErr result (λ r. Tells r (typed.initialiser (with_texts names.now scope.now) pos element (wanted_of wanted.entry) top (init_of init.now))) }
{
    let mut literals = LiteralCount::behind(alloc, scope.literals());
    initialiser_behind(
        alloc,
        names,
        scope,
        &mut literals,
        pos,
        element,
        wanted,
        top,
        init,
    )
}
