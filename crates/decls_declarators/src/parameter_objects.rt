//! Parameters (6.7.6.3).
#![tactic(auto, using(typing_expressions::proofs::Verdicts::tells_of, crate::proofs::Verdicts::told))]

ghost use Rattle.std.specs.Prelude.{◌≡◌, ◌<◌, ◌-◌, ◌^◌, [], Some, IfErr, IfOk, OnOk};
ghost use Rattle.srcset.specs.declared.refusal.Refusal.TheVariants.{Memory};
ghost use Rattle.tree.specs.View.{parameter_of};
ghost use Rattle.typed_ast.specs.View.{object_type_of, parameter_type_of};
ghost use Rattle.typing_spec.specs.Verdict.{fine};
ghost use Rattle.typing_spec.specs.Scope as scope_typed;
ghost use Rattle.typing_spec.specs.Declarators as typed;
ghost use Rattle.typing_expressions.specs.Refused.{Tells};
ghost use Rattle.const_expr.specs.Typings.{base_type_of};
ghost use Rattle.typing_scopes.specs.Scopes.{with_texts};
ghost use Rattle.decls_declarators.specs.Views.{sizes_of, Positive};
ghost use Rattle.decls_declarators.specs.ParameterViews.{parameter_object_of, checked_parameter};

use crate::objects::object_within;
use crate::sizes::{Sizes, sizes_in};
use const_expr::{BaseType, base_type};
use ctypes::IntType;
use decls_linkage::{copied, fresh};
use srcset::{Code, Names, Pos, Refusal};
use std::alloc::Global;
use tree::Parameter;
use typed_ast::{DeclaredType, ObjectType, ParameterType, Storage};
use typing_expressions::broken;
use typing_scopes::{Linkage, Meaning, Scope, State};

/// The object of a parameter in its function.
#[derive(Drop)]
pub(crate) enum ParameterObject {
    /// A number, which may be `const`.
    Number(IntType, bool),
    /// A reference to the elements of an array (6.7.6.3p7); its outermost size is not kept.
    Reference(ObjectType),
}

/// A number, or a reference to the elements of an array.
fn sized_parameter(
    alloc: Global,
    pos: Pos,
    element: IntType,
    constant: bool,
    sizes: &Sizes,
) -> Result<ParameterObject, Refusal>
    requires { Positive sizes.now.lengths.items }
    ensures ok { IfOk result (λ o. typed.parameter_of pos element constant (sizes_of sizes.now) ≡ fine (parameter_object_of o)) }
    ensures err { IfErr result (λ r. Tells r (typed.parameter_of pos element constant (sizes_of sizes.now))) }
{
    if sizes.unknown {
        return match object_within(alloc, pos, element, constant, &sizes.lengths) {
            Ok(object) => Ok(ParameterObject::Reference(object)),
            Err(refusal) => Err(refusal),
        };
    }
    match sizes.lengths.split_first() {
        None => Ok(ParameterObject::Number(element, constant)),
        Some((_, lengths)) => match object_within(alloc, pos, element, constant, lengths) {
            Ok(object) => Ok(ParameterObject::Reference(object)),
            Err(refusal) => Err(refusal),
        },
    }
}

/// No parameter is `void`, and no array of it (6.7.6.3p4, p10).
fn void_parameter(pos: Pos, sizes: &Sizes) -> Refusal
    ensures { Tells result (typed.void_parameter pos (sizes_of sizes.now)) }
{
    if sizes.unknown {
        return broken(Code::BadArrayType, pos);
    }
    if sizes.lengths.is_empty() {
        return broken(Code::VoidParameter, pos);
    }
    broken(Code::BadArrayType, pos)
}

fn parameter_with(
    alloc: Global,
    pos: Pos,
    base: BaseType,
    sizes: &Sizes,
) -> Result<ParameterObject, Refusal>
    requires { Positive sizes.now.lengths.items }
    ensures ok { IfOk result (λ o. typed.parameter_with pos (base_type_of base) base.named (sizes_of sizes.now) ≡ fine (parameter_object_of o)) }
    ensures err { IfErr result (λ r. Tells r (typed.parameter_with pos (base_type_of base) base.named (sizes_of sizes.now))) }
{
    match base.named {
        None => Err(void_parameter(pos, sizes)),
        Some(element) => sized_parameter(alloc, pos, element, base.constant, sizes),
    }
}

/// The object of a parameter; the literals of its sizes are appended to those of the scope.
fn parameter_object(
    alloc: Global,
    names: &Names,
    scope: &mut Scope,
    parameter: &Parameter,
) -> Result<ParameterObject, Refusal>
    ensures ok { IfOk result (λ o. typed.parameter_object (with_texts names.now scope.old) (parameter_of parameter.now) ≡ fine (parameter_object_of o)) }
    ensures scope { OnOk result (scope.new ≡ scope_typed.with_literals scope.old (typed.strings_in_sizes (parameter_of parameter.now).sizes)) }
    ensures err { IfErr result (λ r. Tells r (typed.parameter_object (with_texts names.now scope.old) (parameter_of parameter.now))) }
{
    let base = match base_type(scope, &parameter.specifiers) {
        Ok(base) => base,
        Err(refusal) => return Err(refusal),
    };
    match sizes_in(alloc, names, scope, parameter.pos, &parameter.sizes) {
        Ok(sizes) => parameter_with(alloc, parameter.pos, base, &sizes),
        Err(refusal) => Err(refusal),
    }
}

/// The name of a parameter, if it has one, is declared once (6.7p3).
fn fresh_if_named(scope: &Scope, pos: Pos, name: Option<usize>) -> Result<(), Refusal>
    ensures ok { OnOk result (typed.fresh_if_named scope.now pos name ≡ fine tt) }
    ensures err { IfErr result (λ r. Tells r (typed.fresh_if_named scope.now pos name)) }
{
    match name {
        None => Ok(()),
        Some(name) => match fresh(scope, pos, name) {
            Ok(()) => Ok(()),
            Err(refusal) => Err(refusal),
        },
    }
}

/// The object of a parameter whose name is fresh, in its function.
pub(crate) fn fresh_parameter(
    alloc: Global,
    names: &Names,
    scope: &mut Scope,
    parameter: &Parameter,
) -> Result<ParameterObject, Refusal>
    ensures ok { IfOk result (λ o. checked_parameter (with_texts names.now scope.old) (parameter_of parameter.now) ≡ fine (parameter_object_of o)) }
    ensures scope { OnOk result (scope.new ≡ scope_typed.with_literals scope.old (typed.strings_in_sizes (parameter_of parameter.now).sizes)) }
    ensures err { IfErr result (λ r. Tells r (checked_parameter (with_texts names.now scope.old) (parameter_of parameter.now))) }
{
    match fresh_if_named(scope, parameter.pos, parameter.name) {
        Ok(()) => {}
        Err(refusal) => return Err(refusal),
    }
    match parameter_object(alloc, names, scope, parameter) {
        Ok(object) => Ok(object),
        Err(refusal) => Err(refusal),
    }
}

/// A parameter without its qualifiers (6.7.6.3p15).
pub(crate) fn type_of_parameter(
    alloc: Global,
    object: &ParameterObject,
) -> Result<ParameterType, Refusal>
    ensures ok { IfOk result (λ t. parameter_type_of t ≡ typed.type_of_parameter (parameter_object_of object.now)) }
    ensures err { IfErr result (λ r. r ≡ Memory) }
{
    match object {
        ParameterObject::Number(ty, _) => Ok(ParameterType::Number(*ty)),
        ParameterObject::Reference(element) => match copied(alloc, element) {
            Ok(element) => Ok(ParameterType::Elements(element)),
            Err(refusal) => Err(refusal),
        },
    }
}

/// A number, as an object of the function.
fn number_object(alloc: Global, ty: IntType, constant: bool) -> ObjectType
    ensures { object_type_of result ≡ typed.object_type ty constant [] }
{
    ObjectType {
        element: ty,
        constant,
        lengths: Vec::new(alloc),
    }
}

/// Binds a name to a parameter: the next object of the function, or the next reference.
fn name_parameter(
    alloc: Global,
    scope: &mut Scope,
    references: usize,
    name: usize,
    object: &ParameterObject,
) -> Result<(), Refusal>
    ensures ok { OnOk result (scope.new ≡ typed.with_parameter scope.old references (Some name) (parameter_object_of object.now)) }
    ensures err { IfErr result (λ r. r ≡ Memory) }
{
    match object {
        ParameterObject::Number(ty, constant) => {
            let what = Storage::Automatic(scope.object_count());
            let declared = DeclaredType::Complete(number_object(alloc, *ty, *constant));
            let meaning = Meaning::Object(what, declared);
            scope.with_name(name, meaning, Linkage::None, State::Defined)
        }
        ParameterObject::Reference(element) => match copied(alloc, element) {
            Ok(element) => {
                let meaning = Meaning::ArrayParameter(references, element);
                scope.with_name(name, meaning, Linkage::None, State::Defined)
            }
            Err(refusal) => Err(refusal),
        },
    }
}

/// Binds the name of a parameter, if it has one, to it.
pub(crate) fn with_parameter(
    alloc: Global,
    scope: &mut Scope,
    references: usize,
    name: Option<usize>,
    object: &ParameterObject,
) -> Result<(), Refusal>
    ensures ok { OnOk result (scope.new ≡ typed.with_parameter scope.old references name (parameter_object_of object.now)) }
    ensures err { IfErr result (λ r. r ≡ Memory) }
{
    match name {
        None => Ok(()),
        Some(name) => name_parameter(alloc, scope, references, name, object),
    }
}

/// A number is one more object of the function, an array one more reference.
pub(crate) fn with_object(
    alloc: Global,
    scope: &mut Scope,
    references: &mut usize,
    object: &ParameterObject,
) -> Result<(), Refusal>
    requires { references.old < 2 ^ 64 - 1 }
    ensures ok { OnOk result (scope.new ≡ typed.with_object scope.old (parameter_object_of object.now)) }
    ensures count { OnOk result (references.new ≡ typed.references_after references.old (parameter_object_of object.now)) }
    ensures err { IfErr result (λ r. r ≡ Memory) }
{
    match object {
        ParameterObject::Number(ty, constant) => {
            let object = number_object(alloc, *ty, *constant);
            scope.with_object(object)
        }
        ParameterObject::Reference(_) => {
            *references += 1;
            Ok(())
        }
    }
}
