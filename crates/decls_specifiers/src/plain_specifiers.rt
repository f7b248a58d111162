//! The type that specifiers name, some of which contain lists of enumerators (6.7.2, 6.7.3).
#![tactic(auto, using(decls_declarators::proofs::Verdicts::told))]

ghost use Rattle.std.specs.Prelude.{◌≡◌, ◌+◌, ◌≤◌, ◌++◌, ◌∷◌, List, map, IfErr, IfOk, OnOk};
ghost use Rattle.srcset.specs.declared.refusal.Refusal.TheVariants.{Memory};
ghost use Rattle.srcset.specs.NameTable.{Texts};
ghost use Rattle.tree.specs.Tree.{SpecifierTree};
ghost use Rattle.tree.specs.View.{specifier_of};
ghost use Rattle.typing_spec.specs.Scope as scope_typed;
ghost use Rattle.typing_spec.specs.Verdict.{fine};
ghost use Rattle.typing_spec.specs.Declarations as typed;
ghost use Rattle.typing_expressions.specs.Refused.{Tells};
ghost use Rattle.const_expr.specs.Typings.{base_type_of};
ghost use Rattle.typing_scopes.specs.Scopes.{with_texts};

use const_expr::{BaseType, base_type};
use ctypes::IntType;
use srcset::{Code, Pos, Refusal};
use std::alloc::Global;
use tree::{Specifier, Specifiers, TypeSpecifier, TypeSpecifiers};
use typing_expressions::broken;
use typing_scopes::Scope;

/// Appends a specifier that contains no list to those before it.
fn push_plain(plain: &mut Vec<TypeSpecifier>, specifier: &Specifier) -> Result<(), Refusal>
    ensures ok { (ss : List SpecifierTree) → OnOk result (plain.new.items ++ typed.plain_of ss ≡ plain.old.items ++ typed.plain_of (specifier_of specifier.now ∷ ss)) }
    ensures err { IfErr result (λ r. r ≡ Memory) }
{
    match specifier {
        Specifier::Extern => Ok(()),
        Specifier::Static => Ok(()),
        Specifier::Plain(specifier) => match plain.push(*specifier) {
            Ok(()) => Ok(()),
            Err(_) => Err(Refusal::Memory),
        },
        Specifier::Enumerators(_, _) => Ok(()),
    }
}

/// The specifiers and qualifiers that contain no list.
fn plain_of(alloc: Global, specifiers: &[Specifier]) -> Result<Vec<TypeSpecifier>, Refusal>
    ensures ok { IfOk result (λ plain. plain.items ≡ typed.plain_of (map specifier_of specifiers.now)) }
    ensures err { IfErr result (λ r. r ≡ Memory) }
{
    let mut plain = Vec::new(alloc);
    for specifier in specifiers {
        match push_plain(&mut plain, specifier) {
            Ok(()) => {}
            Err(refusal) => return Err(refusal),
        }
    }
    Ok(plain)
}

/// How many lists a specifier contains.
fn lists_of(specifier: &Specifier) -> usize
    ensures more { (ss : List SpecifierTree) → typed.lists_in (specifier_of specifier.now ∷ ss) ≡ typed.lists_in ss + result }
    ensures most { result ≤ 1 }
{
    match specifier {
        Specifier::Extern => 0,
        Specifier::Static => 0,
        Specifier::Plain(_) => 0,
        Specifier::Enumerators(_, _) => 1,
    }
}

/// How many lists of enumerators there are.
pub(crate) fn lists_in(specifiers: &[Specifier]) -> usize
    ensures { result ≡ typed.lists_in (map specifier_of specifiers.now) }
{
    let mut count = 0;
    for specifier in specifiers {
        count += lists_of(specifier);
    }
    count
}

/// One enumerated type alone, which is `int` in this profile (6.7.2.2p4), apart from `const`.
fn enumerated_type(pos: Pos, specifiers: &[TypeSpecifier]) -> Result<BaseType, Refusal>
    ensures ok { (s : scope_typed.Scope) → IfOk result (λ b. typed.base_in s pos 1 specifiers.now ≡ fine (base_type_of b)) }
    ensures err { (s : scope_typed.Scope) → IfErr result (λ r. Tells r (typed.base_in s pos 1 specifiers.now)) }
{
    let mut constant = false;
    for specifier in specifiers {
        if *specifier != TypeSpecifier::Const {
            return Err(broken(Code::BadTypeSpecifiers, pos));
        }
        constant = true;
    }
    Ok(BaseType {
        named: Some(IntType::Int),
        constant,
    })
}

/// The type of specifiers that contain no list.
fn plain_type(scope: &Scope, specifiers: &TypeSpecifiers) -> Result<BaseType, Refusal>
    ensures ok { (t : Texts) → IfOk result (λ b. typed.base_in (with_texts t scope.now) specifiers.now.pos 0 specifiers.now.list.items ≡ fine (base_type_of b)) }
    ensures err { (t : Texts) → IfErr result (λ r. Tells r (typed.base_in (with_texts t scope.now) specifiers.now.pos 0 specifiers.now.list.items)) }
{
    match base_type(scope, specifiers) {
        Ok(base) => Ok(base),
        Err(refusal) => Err(refusal),
    }
}

/// The type that specifiers name, after their lists. Else reports 525 at them where `enum tag` names no complete type, or 511 where
/// they name no type.
pub(crate) fn base_in(
    alloc: Global,
    scope: &Scope,
    specifiers: &Specifiers,
) -> Result<BaseType, Refusal>
    ensures ok { (t : Texts) → IfOk result (λ b. typed.base_in (with_texts t scope.now) specifiers.now.pos (typed.lists_in (map specifier_of specifiers.now.list.items)) (typed.plain_of (map specifier_of specifiers.now.list.items)) ≡ fine (base_type_of b)) }
    ensures err { (t : Texts) → IfErr result (λ r. Tells r (typed.base_in (with_texts t scope.now) specifiers.now.pos (typed.lists_in (map specifier_of specifiers.now.list.items)) (typed.plain_of (map specifier_of specifiers.now.list.items)))) }
{
    let pos = specifiers.pos;
    let list = match plain_of(alloc, &specifiers.list) {
        Ok(list) => list,
        Err(refusal) => return Err(refusal),
    };
    match lists_in(&specifiers.list) {
        0 => plain_type(scope, &TypeSpecifiers { pos, list }),
        1 => enumerated_type(pos, &list),
        _ => Err(broken(Code::BadTypeSpecifiers, pos)),
    }
}
