//! The types of objects once their initialisers are known (6.7p7, 6.7.9p22, 6.9.2p3).
#![tactic(auto, using(decls_declarators::proofs::Verdicts::told))]

ghost use Rattle.std.specs.Prelude.{◌≡◌, ◌∷◌, IfErr, IfOk, OnOk};
ghost use Rattle.srcset.specs.declared.refusal.Refusal.TheVariants.{Memory};
ghost use Rattle.srcset.specs.NameTable.{Texts};
ghost use Rattle.tree.specs.View.{init_of, option_init};
ghost use Rattle.typed_ast.specs.View.{object_type_of, declared_type_of, storage_of};
ghost use Rattle.typing_spec.specs.Verdict.{fine};
ghost use Rattle.typing_spec.specs.Types as type;
ghost use Rattle.typing_spec.specs.Scope as scope_typed;
ghost use Rattle.typing_spec.specs.Expressions as expressions;
ghost use Rattle.typing_spec.specs.Declarations as typed;
ghost use Rattle.typing_expressions.specs.Refused.{Tells};
ghost use Rattle.typing_scopes.specs.Scopes.{with_texts, meaning_of, linkage_of, state_of};
ghost use Rattle.decls_declarators.specs.Views.{Positive};
ghost use Rattle.decls_linkage.specs.Views.{class_of};
ghost use Rattle.decls.specs.Views.{begun_of};
ghost use Rattle.decls.specs.inside.Parts.{size_given, past_given};

use crate::begun_object::BegunObject;
use crate::copies::copied_function;
use crate::initialised_sizes::length_from;
use const_expr::bytes_in;
use decls_initialisers::past_init;
use decls_linkage::{StorageClass, array_of, completed, composite, copied};
use srcset::{Code, Names, Pos, Refusal};
use std::alloc::Global;
use tree::{Initialiser, ObjectDeclarator};
use typed_ast::{DeclaredType, ObjectType, Storage};
use typing_expressions::{OBJECT_LIMIT, broken};
use typing_scopes::{Linkage, Meaning, Scope, State, StaticObject};

/// The lengths of an array of `length` elements of these lengths.
fn widened(alloc: Global, length: usize, lengths: &[u32]) -> Result<Vec<u64>, Refusal>
    ensures ok { IfOk result (λ ns. ns.items ≡ length ∷ lengths.now) }
    ensures err { IfErr result (λ r. r ≡ Memory) }
{
    let mut wide = Vec::new(alloc);
    let Ok(()) = wide.push(length as u64) else {
        return Err(Refusal::Memory);
    };
    for inner in lengths {
        match wide.push(u64::from(*inner)) {
            Ok(()) => {}
            Err(_) => return Err(Refusal::Memory),
        }
    }
    Ok(wide)
}

/// An array of a number of such elements, within the limit.
fn array_within(
    alloc: Global,
    pos: Pos,
    length: usize,
    element: &ObjectType,
) -> Result<ObjectType, Refusal>
    requires { Positive element.now.lengths.items }
    ensures ok { IfOk result (λ t. object_type_of t ≡ type.array_of length (object_type_of element.now)) }
    ensures fits { OnOk result (expressions.too_large pos (type.array_of length (object_type_of element.now)) ≡ fine tt) }
    ensures err { IfErr result (λ r. Tells r (expressions.too_large pos (type.array_of length (object_type_of element.now)))) }
{
    let Ok(lengths) = widened(alloc, length, &element.lengths) else {
        return Err(Refusal::Memory);
    };
    if bytes_in(element.element, &lengths) > OBJECT_LIMIT {
        return Err(broken(Code::ObjectSizeLimit, pos));
    }
    match array_of(alloc, length as u32, element) {
        Ok(object) => Ok(object),
        Err(_) => Err(Refusal::Memory),
    }
}

/// The meaning of a name with the composite of its declared type and its type so far (6.7p4).
fn retyped_meaning(
    alloc: Global,
    pos: Pos,
    declared: DeclaredType,
    meaning: &Meaning,
) -> Result<Meaning, Refusal>
    ensures ok { IfOk result (λ m. typed.retyped_meaning pos (declared_type_of declared) (meaning_of meaning.now) ≡ fine (meaning_of m)) }
    ensures err { IfErr result (λ r. Tells r (typed.retyped_meaning pos (declared_type_of declared) (meaning_of meaning.now))) }
{
    match meaning {
        Meaning::Object(what, before) => match composite(alloc, before, declared) {
            Ok(Some(declared)) => Ok(Meaning::Object(*what, declared)),
            Ok(None) => Err(broken(Code::RedeclaredWithAnotherType, pos)),
            Err(_) => Err(Refusal::Memory),
        },
        Meaning::ArrayParameter(n, element) => match copied(alloc, element) {
            Ok(element) => Ok(Meaning::ArrayParameter(*n, element)),
            Err(_) => Err(Refusal::Memory),
        },
        Meaning::Function(function) => match copied_function(alloc, function) {
            Ok(function) => Ok(Meaning::Function(function)),
            Err(_) => Err(Refusal::Memory),
        },
        Meaning::Enumerator(value) => Ok(Meaning::Enumerator(*value)),
    }
}

/// The object with this storage has this type.
fn put_type(
    alloc: Global,
    scope: &mut Scope,
    name: usize,
    what: Storage,
    declared: &DeclaredType,
) -> Result<(), Refusal>
    ensures ok { OnOk result (scope.new ≡ typed.with_storage_type scope.old (scope_typed.an_object (storage_of what) (declared_type_of declared.now))) }
    ensures err { IfErr result (λ r. r ≡ Memory) }
{
    match what {
        Storage::Static(place) => match completed(alloc, declared) {
            Ok(object_type) => scope.put_static(
                place,
                StaticObject {
                    name,
                    object_type,
                    defined: true,
                },
            ),
            Err(refusal) => Err(refusal),
        },
        Storage::Automatic(place) => match completed(alloc, declared) {
            Ok(object) => scope.put_object(place, object),
            Err(refusal) => Err(refusal),
        },
        Storage::Literal(_) => Ok(()),
        Storage::Parameter(_) => Ok(()),
    }
}

/// An object has the type that is now known.
fn with_storage_type(
    alloc: Global,
    scope: &mut Scope,
    name: usize,
    meaning: &Meaning,
) -> Result<(), Refusal>
    ensures ok { OnOk result (scope.new ≡ typed.with_storage_type scope.old (meaning_of meaning.now)) }
    ensures err { IfErr result (λ r. r ≡ Memory) }
{
    match meaning {
        Meaning::Object(what, declared) => put_type(alloc, scope, name, *what, declared),
        Meaning::ArrayParameter(_, _) => Ok(()),
        Meaning::Function(_) => Ok(()),
        Meaning::Enumerator(_) => Ok(()),
    }
}

/// A name has this meaning, and its object has that type.
fn with_meaning(
    alloc: Global,
    scope: &mut Scope,
    name: usize,
    meaning: Meaning,
    linkage: Linkage,
    state: State,
) -> Result<(), Refusal>
    ensures ok { OnOk result (scope.new ≡ typed.with_storage_type (scope_typed.with_name scope.old name (meaning_of meaning) (linkage_of linkage) (state_of state)) (meaning_of meaning)) }
    ensures err { IfErr result (λ r. r ≡ Memory) }
{
    match with_storage_type(alloc, scope, name, &meaning) {
        Ok(()) => scope.with_name(name, meaning, linkage, state),
        Err(refusal) => Err(refusal),
    }
}

/// The name has the type that its initialiser completes.
fn retyped(
    alloc: Global,
    scope: &mut Scope,
    pos: Pos,
    declared: DeclaredType,
    name: usize,
) -> Result<(), Refusal>
    ensures ok { (t : Texts) → OnOk result (typed.retyped (with_texts t scope.old) pos (declared_type_of declared) name (scope_typed.lookup scope.old name) ≡ fine (with_texts t scope.new)) }
    ensures err { (t : Texts) → IfErr result (λ r. Tells r (typed.retyped (with_texts t scope.old) pos (declared_type_of declared) name (scope_typed.lookup scope.old name))) }
{
    let Some(binding) = scope.lookup(name) else {
        return Ok(());
    };
    let linkage = binding.linkage;
    let state = binding.state;
    let meaning = match retyped_meaning(alloc, pos, declared, &binding.meaning) {
        Ok(meaning) => meaning,
        Err(refusal) => return Err(refusal),
    };
    match with_meaning(alloc, scope, name, meaning, linkage, state) {
        Ok(()) => Ok(()),
        Err(_) => Err(Refusal::Memory),
    }
}

/// An array of unknown size without an initialiser: at file scope, without `static`, its size may follow.
fn left_unknown(level: usize, class: StorageClass, pos: Pos) -> Result<(), Refusal>
    ensures ok { (s : scope_typed.Scope) → OnOk result (typed.left_unknown level (class_of class) pos s ≡ fine s) }
    ensures err { (s : scope_typed.Scope) → IfErr result (λ r. Tells r (typed.left_unknown level (class_of class) pos s)) }
{
    if level != 0 {
        return Err(broken(Code::IncompleteObject, pos));
    }
    match class {
        StorageClass::None => Ok(()),
        StorageClass::Extern => Ok(()),
        StorageClass::Static => Err(broken(Code::IncompleteObject, pos)),
    }
}

/// The array has this number of elements.
fn sized(
    alloc: Global,
    scope: &mut Scope,
    pos: Pos,
    name: usize,
    element: &ObjectType,
    length: usize,
) -> Result<(), Refusal>
    requires { Positive element.now.lengths.items }
    ensures ok { (t : Texts) → OnOk result (typed.sized (with_texts t scope.old) pos name (object_type_of element.now) length ≡ fine (with_texts t scope.new)) }
    ensures err { (t : Texts) → IfErr result (λ r. Tells r (typed.sized (with_texts t scope.old) pos name (object_type_of element.now) length)) }
{
    let array = match array_within(alloc, pos, length, element) {
        Ok(array) => array,
        Err(refusal) => return Err(refusal),
    };
    match retyped(alloc, scope, pos, DeclaredType::Complete(array), name) {
        Ok(()) => Ok(()),
        Err(refusal) => Err(refusal),
    }
}

/// The array has the size that its initialiser gives.
fn sized_by(
    alloc: Global,
    names: &Names,
    scope: &mut Scope,
    pos: Pos,
    name: usize,
    element: &ObjectType,
    initialiser: &Initialiser,
) -> Result<(), Refusal>
    requires { Positive element.now.lengths.items }
    ensures ok { OnOk result (size_given (with_texts names.now scope.old) pos name (object_type_of element.now) (init_of initialiser.now) ≡ fine (with_texts names.now scope.new)) }
    ensures err { IfErr result (λ r. Tells r (size_given (with_texts names.now scope.old) pos name (object_type_of element.now) (init_of initialiser.now))) }
{
    let length = match length_from(names, pos, element, initialiser) {
        Ok(length) => length,
        Err(refusal) => return Err(refusal),
    };
    let Ok(()) = past_init(scope, initialiser) else {
        return Err(Refusal::Memory);
    };
    match sized(alloc, scope, pos, name, element, length) {
        Ok(()) => Ok(()),
        Err(refusal) => Err(refusal),
    }
}

/// Appends the literals of an initialiser, if there is one, to those of the scope.
fn past_option(scope: &mut Scope, initialiser: &Option<Initialiser>) -> Result<(), Refusal>
    ensures ok { OnOk result (scope.new ≡ past_given scope.old (option_init initialiser.now)) }
    ensures err { IfErr result (λ r. r ≡ Memory) }
{
    match initialiser {
        None => Ok(()),
        Some(initialiser) => past_init(scope, initialiser),
    }
}

/// The scope after a declarator and its initialiser, which is examined only for a size that it gives.
///
/// Fails
/// - with 519 where an array of unknown size has no initialiser, in a block or with `static`;
/// - with 521 where its initialiser gives no size, and with 712 where it gives one beyond the limit;
/// - with 801 where memory runs out.
///
/// After an error the scope is unspecified.
pub fn finished(
    alloc: Global,
    names: &Names,
    scope: &mut Scope,
    class: StorageClass,
    declarator: &ObjectDeclarator,
    begun: &BegunObject,
) -> Result<(), Refusal>
    ensures ok { OnOk result (typed.finished (begun_of begun.now class declarator.now (with_texts names.now scope.old)) ≡ fine (with_texts names.now scope.new)) }
    ensures err { IfErr result (λ r. Tells r (typed.finished (begun_of begun.now class declarator.now (with_texts names.now scope.old)))) }
{
    let pos = declarator.pos;
    let element = match &begun.declared {
        DeclaredType::Complete(_) => return past_option(scope, &declarator.initialiser),
        DeclaredType::UnknownSize(element) => element,
    };
    match &declarator.initialiser {
        None => left_unknown(scope.level(), class, pos),
        Some(initialiser) => {
            sized_by(
                alloc,
                names,
                scope,
                pos,
                declarator.name,
                element,
                initialiser,
            )
        }
    }
}
