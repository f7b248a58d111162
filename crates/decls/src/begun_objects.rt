//! Declarators of objects that have begun (6.2.1p7): the name is in scope, the initialiser follows.
#![tactic(auto, using(decls_declarators::proofs::Verdicts::told))]

ghost use Rattle.std.specs.Prelude.{◌≡◌, map, IfErr, IfOk};
ghost use Rattle.srcset.specs.declared.refusal.Refusal.TheVariants.{Memory};
ghost use Rattle.tree.specs.View.{option_tree, option_init};
ghost use Rattle.typed_ast.specs.View.{storage_of, declared_type_of};
ghost use Rattle.typing_spec.specs.Verdict.{fine};
ghost use Rattle.typing_spec.specs.Declarations as typed;
ghost use Rattle.typing_expressions.specs.Refused.{Tells};
ghost use Rattle.const_expr.specs.Typings.{base_type_of};
ghost use Rattle.typing_scopes.specs.Scopes.{with_texts, meaning_of, option_binding};
ghost use Rattle.decls_linkage.specs.Views.{class_of};
ghost use Rattle.decls.specs.Views.{begun_of};

use crate::begun_object::BegunObject;
use crate::copies::copied_type;
use const_expr::BaseType;
use decls_declarators::declared_type;
use decls_linkage::{StorageClass, object_at};
use srcset::{Names, Refusal};
use std::alloc::Global;
use tree::ObjectDeclarator;
use typed_ast::{DeclaredType, Storage};
use typing_scopes::{Binding, Meaning, Scope};

/// The storage of the object that a name denotes.
fn storage_in(meaning: &Meaning) -> Storage
    ensures { storage_of result ≡ typed.storage_in (meaning_of meaning.now) }
{
    match meaning {
        Meaning::Object(what, _) => *what,
        Meaning::ArrayParameter(n, _) => Storage::Parameter(*n),
        Meaning::Function(_) => Storage::Static(0),
        Meaning::Enumerator(_) => Storage::Static(0),
    }
}

/// The storage of the most recently declared name.
fn storage_of_binding(binding: Option<&Binding>) -> Storage
    ensures { storage_of result ≡ typed.storage_of (option_binding binding.entry) }
{
    match binding {
        None => Storage::Static(0),
        Some(binding) => storage_in(&binding.meaning),
    }
}

/// The type of an object, or the one that was declared.
fn type_of_meaning(
    alloc: Global,
    declared: DeclaredType,
    meaning: &Meaning,
) -> Result<DeclaredType, Refusal>
    ensures ok { IfOk result (λ t. declared_type_of t ≡ typed.type_of_meaning (declared_type_of declared) (meaning_of meaning.now)) }
    ensures err { IfErr result (λ r. r ≡ Memory) }
{
    match meaning {
        Meaning::Object(_, composite) => copied_type(alloc, composite),
        Meaning::ArrayParameter(_, _) => Ok(declared),
        Meaning::Function(_) => Ok(declared),
        Meaning::Enumerator(_) => Ok(declared),
    }
}

/// The type of the most recently declared name.
fn type_of_binding(
    alloc: Global,
    declared: DeclaredType,
    binding: Option<&Binding>,
) -> Result<DeclaredType, Refusal>
    ensures ok { IfOk result (λ t. declared_type_of t ≡ typed.type_of_binding (declared_type_of declared) (option_binding binding.entry)) }
    ensures err { IfErr result (λ r. r ≡ Memory) }
{
    match binding {
        None => Ok(declared),
        Some(binding) => type_of_meaning(alloc, declared, &binding.meaning),
    }
}

/// The declarator of an object, whose name is in scope after it.
///
/// Fails
/// - as `decls_declarators::declared_type` does where its type is none;
/// - as `decls_linkage::object_at` does where the name is declared already.
///
/// After an error the scope is unspecified.
pub fn begun(
    alloc: Global,
    names: &Names,
    scope: &mut Scope,
    class: StorageClass,
    base: BaseType,
    declarator: &ObjectDeclarator,
) -> Result<BegunObject, Refusal>
    ensures ok { IfOk result (λ b. typed.begun (with_texts names.now scope.old) (class_of class) (base_type_of base) declarator.now.pos declarator.now.name (map option_tree declarator.now.sizes.items) (option_init declarator.now.initialiser) ≡ fine (begun_of b class declarator.now (with_texts names.now scope.new))) }
    ensures err { IfErr result (λ r. Tells r (typed.begun (with_texts names.now scope.old) (class_of class) (base_type_of base) declarator.now.pos declarator.now.name (map option_tree declarator.now.sizes.items) (option_init declarator.now.initialiser))) }
{
    let pos = declarator.pos;
    let name = declarator.name;
    let declared = match declared_type(alloc, names, scope, pos, base, &declarator.sizes) {
        Ok(declared) => declared,
        Err(refusal) => return Err(refusal),
    };
    let Ok(copy) = copied_type(alloc, &declared) else {
        return Err(Refusal::Memory);
    };
    let initialised = declarator.initialiser.is_some();
    match object_at(alloc, names, scope, pos, name, class, copy, initialised) {
        Ok(()) => {}
        Err(refusal) => return Err(refusal),
    }
    let what = storage_of_binding(scope.lookup(name));
    match type_of_binding(alloc, declared, scope.lookup(name)) {
        Ok(declared) => Ok(BegunObject { declared, what }),
        Err(_) => Err(Refusal::Memory),
    }
}
