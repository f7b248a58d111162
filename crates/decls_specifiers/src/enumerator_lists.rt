//! Lists of enumerators (6.7.2.2), and their tags (6.7.2.3).
#![tactic(auto, using(decls_declarators::proofs::Verdicts::told))]

ghost use Rattle.std.specs.Prelude.{◌≡◌, ◌+ℤ◌, ℤ, map, IfErr, IfOk, OnOk};
ghost use Rattle.srcset.specs.declared.refusal.Refusal.TheVariants.{Memory};
ghost use Rattle.ctypes.specs.declared.types.IntType.TheVariants as ty;
ghost use Rattle.ctypes.specs.Types.{IsValueOf};
ghost use Rattle.tree.specs.View.{option_tree, enumerator_of};
ghost use Rattle.typing_spec.specs.Scope as scope_typed;
ghost use Rattle.typing_spec.specs.Verdict.{fine};
ghost use Rattle.typing_spec.specs.Declarations as typed;
ghost use Rattle.typing_expressions.specs.Refused.{IsOf, Tells};
ghost use Rattle.const_expr.specs.Typings.{natural};
ghost use Rattle.typing_scopes.specs.Scopes.{with_texts, seen_tag};
ghost use Rattle.decls_specifiers.specs.inside.Lists.{enumerator_read, behind_enumerator, as_enumerator, tag_enumerated};

use const_expr::constant_value;
use ctypes::IntType;
use decls_declarators::past;
use decls_linkage::{Agreed, as_built_in, fresh};
use srcset::{Code, Names, Pos, Refusal};
use std::alloc::Global;
use tree::{Enumerator, Expr};
use typing_expressions::broken;
use typing_scopes::{Linkage, Meaning, Scope, State, Tag, built_in};

/// The value of an enumerator is an `int` (6.7.2.2p2).
fn fits_int(pos: Pos, value: i64) -> Result<i64, Refusal>
    ensures ok { IfOk result (λ v. (v ≡ value) × (typed.fits_int pos value ≡ fine v)) }
    ensures range { IfOk result (λ v. IsValueOf ty.Int v) }
    ensures err { IfErr result (λ r. Tells r (typed.fits_int pos value)) }
{
    if IntType::Int.contains(value) {
        return Ok(value);
    }
    Err(broken(Code::EnumeratorOutOfRange, pos))
}

/// The value given after an enumerator, or that of the one before plus 1 (6.7.2.2p3).
fn value_of_enumerator(
    alloc: Global,
    names: &Names,
    scope: &Scope,
    next: i64,
    pos: Pos,
    value: &Option<Expr>,
) -> Result<i64, Refusal>
    ensures ok { IfOk result (λ v. typed.value_of_enumerator (with_texts names.now scope.now) next pos (option_tree value.now) ≡ fine v) }
    ensures range { IfOk result (λ v. IsValueOf ty.Int v) }
    ensures err { IfErr result (λ r. Tells r (typed.value_of_enumerator (with_texts names.now scope.now) next pos (option_tree value.now))) }
{
    match value {
        None => fits_int(pos, next),
        Some(e) => match constant_value(alloc, names, scope, e) {
            Ok(constant) => fits_int(pos, constant.value),
            Err(refusal) => Err(refusal),
        },
    }
}

/// Appends the literals of an expression, if there is one, to those of the scope.
fn past_option(scope: &mut Scope, value: &Option<Expr>) -> Result<(), Refusal>
    ensures ok { OnOk result (scope.new ≡ typed.past_option scope.old (option_tree value.now)) }
    ensures err { IfErr result (λ r. r ≡ Memory) }
{
    match value {
        None => Ok(()),
        Some(e) => past(scope, e),
    }
}

/// At file scope a name of a built-in is a function's.
fn no_built_in(scope: &Scope, names: &Names, pos: Pos, name: usize) -> Result<(), Refusal>
    ensures ok { OnOk result (as_enumerator pos (typed.built_in_at_file (with_texts names.now scope.now) name) ≡ fine tt) }
    ensures err { IfErr result (λ r. IsOf r (as_enumerator pos (typed.built_in_at_file (with_texts names.now scope.now) name))) }
{
    if scope.level() != 0 {
        return Ok(());
    }
    let new = Agreed {
        meaning: Meaning::Enumerator(0),
        linkage: Linkage::None,
        state: State::Mentioned,
    };
    as_built_in(pos, &new, built_in(names, name))
}

/// An enumerator is declared once in a scope (6.7p3), and at file scope is no built-in.
fn fresh_enumerator(scope: &Scope, names: &Names, pos: Pos, name: usize) -> Result<(), Refusal>
    ensures ok { OnOk result (typed.fresh_enumerator (with_texts names.now scope.now) pos name ≡ fine tt) }
    ensures err { IfErr result (λ r. Tells r (typed.fresh_enumerator (with_texts names.now scope.now) pos name)) }
{
    match fresh(scope, pos, name) {
        Ok(()) => {}
        Err(refusal) => return Err(refusal),
    }
    match no_built_in(scope, names, pos, name) {
        Ok(()) => Ok(()),
        Err(refusal) => Err(refusal),
    }
}

/// The value of an enumerator whose name is fresh.
fn checked_enumerator(
    alloc: Global,
    names: &Names,
    scope: &Scope,
    next: i64,
    enumerator: &Enumerator,
) -> Result<i64, Refusal>
    ensures ok { IfOk result (λ v. enumerator_read (with_texts names.now scope.now) next (enumerator_of enumerator.now) ≡ fine v) }
    ensures range { IfOk result (λ v. IsValueOf ty.Int v) }
    ensures err { IfErr result (λ r. Tells r (enumerator_read (with_texts names.now scope.now) next (enumerator_of enumerator.now))) }
{
    match fresh_enumerator(scope, names, enumerator.pos, enumerator.name) {
        Ok(()) => {}
        Err(refusal) => return Err(refusal),
    }
    match value_of_enumerator(alloc, names, scope, next, enumerator.pos, &enumerator.value) {
        Ok(value) => Ok(value),
        Err(refusal) => Err(refusal),
    }
}

/// One more enumerator, whose scope begins after it (6.2.1p7). It gives the value of the next.
fn enumerate(
    alloc: Global,
    names: &Names,
    scope: &mut Scope,
    next: i64,
    enumerator: &Enumerator,
) -> Result<i64, Refusal>
    ensures ok { IfOk result (λ m. (v : ℤ) × (enumerator_read (with_texts names.now scope.old) next (enumerator_of enumerator.now) ≡ fine v) × (scope.new ≡ behind_enumerator scope.old (enumerator_of enumerator.now) v) × (m ≡ v +ℤ natural 1)) }
    ensures err { IfErr result (λ r. Tells r (enumerator_read (with_texts names.now scope.old) next (enumerator_of enumerator.now))) }
{
    let value = match checked_enumerator(alloc, names, scope, next, enumerator) {
        Ok(value) => value,
        Err(refusal) => return Err(refusal),
    };
    let Ok(()) = past_option(scope, &enumerator.value) else {
        return Err(Refusal::Memory);
    };
    let meaning = Meaning::Enumerator(value);
    match scope.with_name(enumerator.name, meaning, Linkage::None, State::Defined) {
        Ok(()) => Ok(value + 1),
        Err(_) => Err(Refusal::Memory),
    }
}

/// Enumerators in order, the first of which is 0 unless a value follows it.
fn enumerators(
    alloc: Global,
    names: &Names,
    scope: &mut Scope,
    list: &[Enumerator],
) -> Result<(), Refusal>
    ensures ok { OnOk result (typed.enumerators (with_texts names.now scope.old) (natural 0) (map enumerator_of list.now) ≡ fine (with_texts names.now scope.new)) }
    ensures err { IfErr result (λ r. Tells r (typed.enumerators (with_texts names.now scope.old) (natural 0) (map enumerator_of list.now))) }
{
    let mut next = 0;
    for enumerator in list {
        next = match enumerate(alloc, names, scope, next, enumerator) {
            Ok(next) => next,
            Err(refusal) => return Err(refusal),
        };
    }
    Ok(())
}

/// A tag has one list in a scope (6.7.2.3p1).
fn is_fresh_tag(level: usize, pos: Pos, tag: Option<Tag>) -> Result<(), Refusal>
    ensures ok { OnOk result (typed.is_fresh_tag level pos (seen_tag tag) ≡ fine tt) }
    ensures err { IfErr result (λ r. Tells r (typed.is_fresh_tag level pos (seen_tag tag))) }
{
    match tag {
        None => Ok(()),
        Some(tag) => {
            if tag.level == level {
                return Err(broken(Code::BadEnumTag, pos));
            }
            Ok(())
        }
    }
}

/// The enumerators of a tag, which is incomplete among them.
fn tagged(
    alloc: Global,
    names: &Names,
    scope: &mut Scope,
    tag: usize,
    list: &[Enumerator],
) -> Result<(), Refusal>
    ensures ok { OnOk result (tag_enumerated (with_texts names.now scope.old) tag (map enumerator_of list.now) ≡ fine (with_texts names.now scope.new)) }
    ensures err { IfErr result (λ r. Tells r (tag_enumerated (with_texts names.now scope.old) tag (map enumerator_of list.now))) }
{
    let Ok(()) = scope.with_tag(tag, false) else {
        return Err(Refusal::Memory);
    };
    match enumerators(alloc, names, scope, list) {
        Ok(()) => {}
        Err(refusal) => return Err(refusal),
    }
    match scope.with_tag(tag, true) {
        Ok(()) => Ok(()),
        Err(_) => Err(Refusal::Memory),
    }
}

/// A list of enumerators, with a tag or without one.
pub(crate) fn enumerated(
    alloc: Global,
    names: &Names,
    scope: &mut Scope,
    pos: Pos,
    tag: Option<usize>,
    list: &[Enumerator],
) -> Result<(), Refusal>
    ensures ok { OnOk result (typed.enumerated (with_texts names.now scope.old) pos tag (map enumerator_of list.now) ≡ fine (with_texts names.now scope.new)) }
    ensures err { IfErr result (λ r. Tells r (typed.enumerated (with_texts names.now scope.old) pos tag (map enumerator_of list.now))) }
{
    match tag {
        None => enumerators(alloc, names, scope, list),
        Some(tag) => match is_fresh_tag(scope.level(), pos, scope.lookup_tag(tag)) {
            Ok(()) => tagged(alloc, names, scope, tag, list),
            Err(refusal) => Err(refusal),
        },
    }
}
