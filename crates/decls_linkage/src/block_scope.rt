//! Objects declared in blocks and at file scope (6.2.2p6, 6.2.4p3, p5, 6.7p3).
#![tactic(auto, using(crate::proofs::Tellings::told, crate::proofs::Blocks::next_static))]

ghost use Rattle.std.specs.Prelude.{◌≡◌, IfErr, OnOk};
ghost use Rattle.srcset.specs.NameTable.{Texts};
ghost use Rattle.srcset.specs.declared.refusal.Refusal.TheVariants.{Memory};
ghost use Rattle.typed_ast.specs.View.{declared_type_of};
ghost use Rattle.typing_spec.specs.Verdict.{fine};
ghost use Rattle.typing_spec.specs.Declarators as declarators;
ghost use Rattle.typing_spec.specs.Declarations as typed;
ghost use Rattle.typing_expressions.specs.Refused.{IsOf, Tells};
ghost use Rattle.typing_scopes.specs.Scopes.{with_texts};
ghost use Rattle.decls_linkage.specs.Views.{class_of};

use crate::composites::completed;
use crate::file_scope::file_object;
use crate::rules::{StorageClass, state_of_object};
use srcset::{Code, Names, Pos, Refusal};
use std::alloc::Global;
use typed_ast::{DeclaredType, Storage};
use typing_expressions::broken;
use typing_scopes::{Linkage, Meaning, Scope, State, StaticObject};

/// A name without linkage is declared once in a scope (6.7p3). Else it fails at the name with 514.
pub fn fresh(scope: &Scope, pos: Pos, name: usize) -> Result<(), Refusal>
    ensures ok { OnOk result (declarators.fresh scope.now pos name ≡ fine tt) }
    ensures err { IfErr result (λ r. IsOf r (declarators.fresh scope.now pos name)) }
{
    match scope.lookup(name) {
        None => Ok(()),
        Some(binding) => {
            if binding.level == scope.level() {
                return Err(broken(Code::NameDeclaredTwice, pos));
            }
            Ok(())
        }
    }
}

/// An object of the present function (6.2.4p5).
fn with_automatic(
    alloc: Global,
    scope: &mut Scope,
    name: usize,
    declared: DeclaredType,
) -> Result<(), Refusal>
    ensures ok { OnOk result (scope.new ≡ typed.with_automatic scope.old name (declared_type_of declared)) }
    ensures err { IfErr result (λ r. r ≡ Memory) }
{
    let object = match completed(alloc, &declared) {
        Ok(object) => object,
        Err(refusal) => return Err(refusal),
    };
    let what = Storage::Automatic(scope.object_count());
    let meaning = Meaning::Object(what, declared);
    match scope.with_name(name, meaning, Linkage::None, State::Defined) {
        Ok(()) => scope.with_object(object),
        Err(refusal) => Err(refusal),
    }
}

/// An object of a block that is static (6.2.4p3).
fn with_static(
    alloc: Global,
    scope: &mut Scope,
    name: usize,
    declared: DeclaredType,
) -> Result<(), Refusal>
    ensures ok { OnOk result (scope.new ≡ typed.with_static scope.old name (declared_type_of declared)) }
    ensures err { IfErr result (λ r. r ≡ Memory) }
{
    let object_type = match completed(alloc, &declared) {
        Ok(object_type) => object_type,
        Err(refusal) => return Err(refusal),
    };
    let place = scope.static_count();
    let meaning = Meaning::Object(Storage::Static(place), declared);
    let object = StaticObject {
        name,
        object_type,
        defined: true,
    };
    match scope.with_name(name, meaning, Linkage::None, State::Defined) {
        Ok(()) => scope.put_static(place, object),
        Err(refusal) => Err(refusal),
    }
}

/// The scope after the declaration of an object in a block, where `extern` has no tree.
fn block_object(
    alloc: Global,
    scope: &mut Scope,
    pos: Pos,
    name: usize,
    class: StorageClass,
    declared: DeclaredType,
) -> Result<(), Refusal>
    ensures ok { (t : Texts) → OnOk result (typed.block_object (with_texts t scope.old) pos name (class_of class) (declared_type_of declared) ≡ fine (with_texts t scope.new)) }
    ensures err { (t : Texts) → IfErr result (λ r. Tells r (typed.block_object (with_texts t scope.old) pos name (class_of class) (declared_type_of declared))) }
{
    match class {
        StorageClass::Extern => Err(broken(Code::SyntaxError, pos)),
        StorageClass::None => match fresh(scope, pos, name) {
            Ok(()) => with_automatic(alloc, scope, name, declared),
            Err(refusal) => Err(refusal),
        },
        StorageClass::Static => match fresh(scope, pos, name) {
            Ok(()) => with_static(alloc, scope, name, declared),
            Err(refusal) => Err(refusal),
        },
    }
}

/// The scope after the declaration of an object, at file scope or in a block, with an initialiser or without one. It fails as
/// `file_object` does; in a block with 514 where the name is declared there already.
pub fn object_at(
    alloc: Global,
    names: &Names,
    scope: &mut Scope,
    pos: Pos,
    name: usize,
    class: StorageClass,
    declared: DeclaredType,
    initialised: bool,
) -> Result<(), Refusal>
    ensures ok { OnOk result (typed.object_at scope.old.level (with_texts names.now scope.old) pos name (class_of class) (declared_type_of declared) initialised ≡ fine (with_texts names.now scope.new)) }
    ensures err { IfErr result (λ r. Tells r (typed.object_at scope.old.level (with_texts names.now scope.old) pos name (class_of class) (declared_type_of declared) initialised)) }
{
    if scope.level() == 0 {
        let state = state_of_object(class, initialised);
        return file_object(alloc, names, scope, pos, name, class, declared, state);
    }
    block_object(alloc, scope, pos, name, class, declared)
}
