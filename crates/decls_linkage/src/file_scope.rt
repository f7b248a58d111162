//! Names declared at file scope (6.2.2, 6.9, 6.9.2).
#![tactic(auto, using(crate::proofs::Tellings::told))]

ghost use Rattle.std.specs.Prelude.{◌≡◌, IfErr, OnOk};
ghost use Rattle.srcset.specs.declared.refusal.Refusal.TheVariants.{Memory};
ghost use Rattle.typed_ast.specs.View.{storage_of, declared_type_of, function_type_of};
ghost use Rattle.typing_spec.specs.Verdict.{fine};
ghost use Rattle.typing_spec.specs.Scope.{an_object};
ghost use Rattle.typing_spec.specs.Linkage as typed;
ghost use Rattle.typing_expressions.specs.Refused.{Tells};
ghost use Rattle.typing_scopes.specs.Scopes.{with_texts, meaning_of, state_of, option_binding};
ghost use Rattle.decls_linkage.specs.Views.{class_of, agreed_of};

use crate::built_ins::as_built_in;
use crate::composites::completed;
use crate::redeclarations::{Agreed, redeclared};
use crate::rules::{StorageClass, is_mentioned, linkage_of_function, linkage_of_object};
use srcset::{Names, Pos, Refusal};
use std::alloc::Global;
use typed_ast::{DeclaredType, FunctionType, Storage};
use typing_scopes::{Binding, Meaning, Scope, State, StaticObject, built_in};

/// The object with this number has this type.
fn put_object(
    alloc: Global,
    scope: &mut Scope,
    name: usize,
    state: State,
    what: Storage,
    declared: &DeclaredType,
) -> Result<(), Refusal>
    ensures ok { OnOk result (scope.new ≡ typed.with_storage scope.old (state_of state) (an_object (storage_of what) (declared_type_of declared.now))) }
    ensures err { IfErr result (λ r. r ≡ Memory) }
{
    match what {
        Storage::Static(place) => match completed(alloc, declared) {
            Ok(object_type) => scope.put_static(
                place,
                StaticObject {
                    name,
                    object_type,
                    defined: !is_mentioned(state),
                },
            ),
            Err(refusal) => Err(refusal),
        },
        Storage::Literal(_) => Ok(()),
        Storage::Automatic(_) => Ok(()),
        Storage::Parameter(_) => Ok(()),
    }
}

/// An object with static storage has the type that is now declared.
fn with_storage(
    alloc: Global,
    scope: &mut Scope,
    name: usize,
    state: State,
    meaning: &Meaning,
) -> Result<(), Refusal>
    ensures ok { OnOk result (scope.new ≡ typed.with_storage scope.old (state_of state) (meaning_of meaning.now)) }
    ensures err { IfErr result (λ r. r ≡ Memory) }
{
    match meaning {
        Meaning::Object(what, declared) => put_object(alloc, scope, name, state, *what, declared),
        Meaning::ArrayParameter(_, _) => Ok(()),
        Meaning::Function(_) => Ok(()),
        Meaning::Enumerator(_) => Ok(()),
    }
}

/// The scope has the meaning that the name now has.
fn agreed_in(alloc: Global, scope: &mut Scope, name: usize, agreed: Agreed) -> Result<(), Refusal>
    ensures ok { OnOk result (typed.agreed_in scope.old name (agreed_of agreed) ≡ fine scope.new) }
    ensures err { IfErr result (λ r. r ≡ Memory) }
{
    match with_storage(alloc, scope, name, agreed.state, &agreed.meaning) {
        Ok(()) => scope.with_name(name, agreed.meaning, agreed.linkage, agreed.state),
        Err(refusal) => Err(refusal),
    }
}

/// A name declared at file scope.
fn declared_at_file(
    alloc: Global,
    names: &Names,
    scope: &mut Scope,
    pos: Pos,
    name: usize,
    new: Agreed,
) -> Result<(), Refusal>
    ensures ok { OnOk result (typed.declared_at_file (with_texts names.now scope.old) pos name (agreed_of new) ≡ fine (with_texts names.now scope.new)) }
    ensures err { IfErr result (λ r. Tells r (typed.declared_at_file (with_texts names.now scope.old) pos name (agreed_of new))) }
{
    match as_built_in(pos, &new, built_in(names, name)) {
        Ok(()) => {}
        Err(refusal) => return Err(refusal),
    }
    match redeclared(alloc, pos, new, scope.lookup(name)) {
        Ok(agreed) => agreed_in(alloc, scope, name, agreed),
        Err(refusal) => Err(refusal),
    }
}

/// An object's number: that of the declaration before, or the next.
fn storage_before(scope: &Scope, before: Option<&Binding>) -> Storage
    ensures { storage_of result ≡ typed.storage_before scope.now (option_binding before.entry) }
{
    match before {
        None => Storage::Static(scope.static_count()),
        Some(binding) => storage_of_meaning(scope, &binding.meaning),
    }
}

fn storage_of_meaning(scope: &Scope, meaning: &Meaning) -> Storage
    ensures { storage_of result ≡ typed.storage_of_meaning scope.now (meaning_of meaning.now) }
{
    match meaning {
        Meaning::Object(what, _) => *what,
        Meaning::ArrayParameter(_, _) => Storage::Static(scope.static_count()),
        Meaning::Function(_) => Storage::Static(scope.static_count()),
        Meaning::Enumerator(_) => Storage::Static(scope.static_count()),
    }
}

/// The scope after the declaration of an object at file scope.
///
/// Fails
/// - with 514 where the name has no linkage, as an enumerator;
/// - with 515 where it was declared with another type, or is that of a built-in;
/// - with 516 where one declaration is `static` and another is not;
/// - with 517 where both define it;
/// - with 801 where memory runs out; the scope is then unspecified.
pub fn file_object(
    alloc: Global,
    names: &Names,
    scope: &mut Scope,
    pos: Pos,
    name: usize,
    class: StorageClass,
    declared: DeclaredType,
    state: State,
) -> Result<(), Refusal>
    ensures ok { OnOk result (typed.file_object (with_texts names.now scope.old) pos name (class_of class) (declared_type_of declared) (state_of state) ≡ fine (with_texts names.now scope.new)) }
    ensures err { IfErr result (λ r. Tells r (typed.file_object (with_texts names.now scope.old) pos name (class_of class) (declared_type_of declared) (state_of state))) }
{
    let linkage = linkage_of_object(class, scope.lookup(name));
    let what = storage_before(scope, scope.lookup(name));
    let meaning = Meaning::Object(what, declared);
    let new = Agreed {
        meaning,
        linkage,
        state,
    };
    declared_at_file(alloc, names, scope, pos, name, new)
}

/// The scope after the declaration of a function, or its definition's declarator. It fails as `file_object` does, and with 553 where
/// it defines a built-in.
pub fn file_function(
    alloc: Global,
    names: &Names,
    scope: &mut Scope,
    pos: Pos,
    name: usize,
    class: StorageClass,
    function: FunctionType,
    state: State,
) -> Result<(), Refusal>
    ensures ok { OnOk result (typed.file_function (with_texts names.now scope.old) pos name (class_of class) (function_type_of function) (state_of state) ≡ fine (with_texts names.now scope.new)) }
    ensures err { IfErr result (λ r. Tells r (typed.file_function (with_texts names.now scope.old) pos name (class_of class) (function_type_of function) (state_of state))) }
{
    let linkage = linkage_of_function(class, scope.lookup(name));
    let new = Agreed {
        meaning: Meaning::Function(function),
        linkage,
        state,
    };
    declared_at_file(alloc, names, scope, pos, name, new)
}
