//! Lists of parameters, and the types of functions (6.7.6.3).
#![tactic(auto, using(crate::proofs::Verdicts::told))]

ghost use Rattle.std.specs.Prelude.{◌≡◌, ◌<◌, ◌-◌, ◌^◌, ◌++◌, ◌∷◌, [], List, map, IfErr, IfOk, OnOk};
ghost use Rattle.srcset.specs.NameTable.{Texts};
ghost use Rattle.tree.specs.Tree.{ParameterTree};
ghost use Rattle.tree.specs.View.{parameter_of};
ghost use Rattle.typed_ast.specs.View.{object_type_of, parameter_type_of, function_type_of};
ghost use Rattle.typing_spec.specs.Verdict.{fine};
ghost use Rattle.typing_spec.specs.Types as type;
ghost use Rattle.typing_spec.specs.Scope as scope_typed;
ghost use Rattle.typing_spec.specs.Declarators as typed;
ghost use Rattle.typing_expressions.specs.Refused.{Tells};
ghost use Rattle.const_expr.specs.Typings.{base_type_of};
ghost use Rattle.typing_scopes.specs.Scopes.{with_texts, block_of};
ghost use Rattle.decls_declarators.specs.ParameterViews.{checked_parameter, behind_parameter};

use crate::parameter_objects::{fresh_parameter, type_of_parameter, with_object, with_parameter};
use const_expr::BaseType;
use srcset::{Names, Refusal};
use std::alloc::Global;
use tree::Parameter;
use typed_ast::{FunctionType, ObjectType, ParameterType};
use typing_scopes::{Block, Scope};

/// The types of parameters that are in scope, and the parts of the scope that they replace: the block around them, and the objects of another function.
#[derive(Drop)]
pub struct Entered {
    pub types: Vec<ParameterType>,
    pub block: Block,
    pub objects: Vec<ObjectType>,
}

/// One more parameter: its type, its name and its object.
fn enter(
    alloc: Global,
    names: &Names,
    scope: &mut Scope,
    references: &mut usize,
    parameter: &Parameter,
    types: &mut Vec<ParameterType>,
) -> Result<(), Refusal>
    requires { references.old < 2 ^ 64 - 1 }
    ensures ok { OnOk result ((o : typed.ParameterObject) × (checked_parameter (with_texts names.now scope.old) (parameter_of parameter.now) ≡ fine o) × (scope.new ≡ behind_parameter references.old scope.old (parameter_of parameter.now) o) × (references.new ≡ typed.references_after references.old o) × (map parameter_type_of types.new.items ≡ map parameter_type_of types.old.items ++ typed.type_of_parameter o ∷ [])) }
    ensures err { IfErr result (λ r. Tells r (checked_parameter (with_texts names.now scope.old) (parameter_of parameter.now))) }
{
    let object = match fresh_parameter(alloc, names, scope, parameter) {
        Ok(object) => object,
        Err(refusal) => return Err(refusal),
    };
    let Ok(ty) = type_of_parameter(alloc, &object) else {
        return Err(Refusal::Memory);
    };
    let Ok(()) = types.push(ty) else {
        return Err(Refusal::Memory);
    };
    let Ok(()) = with_parameter(alloc, scope, *references, parameter.name, &object) else {
        return Err(Refusal::Memory);
    };
    match with_object(alloc, scope, references, &object) {
        Ok(()) => Ok(()),
        Err(_) => Err(Refusal::Memory),
    }
}

/// Parameters in order, each in the scope of those before it.
fn parameters_from(
    alloc: Global,
    names: &Names,
    scope: &mut Scope,
    parameters: &[Parameter],
) -> Result<Vec<ParameterType>, Refusal>
    ensures ok { IfOk result (λ types. typed.parameters_from 0 (with_texts names.now scope.old) (map parameter_of parameters.now) ≡ fine (record { types = map parameter_type_of types.items; scope = with_texts names.now scope.new })) }
    ensures err { IfErr result (λ r. Tells r (typed.parameters_from 0 (with_texts names.now scope.old) (map parameter_of parameters.now))) }
{
    let mut types = Vec::new(alloc);
    let mut references = 0;
    for parameter in parameters {
        match enter(alloc, names, scope, &mut references, parameter, &mut types) {
            Ok(()) => {}
            Err(refusal) => return Err(refusal),
        }
    }
    Ok(types)
}

/// The parameters of a function, in a scope of their own, which is that of its body (6.2.1p4).
///
/// Fails
/// - with 514 where two have one name;
/// - with 526 where one is `void`, and with 518 where one is an array of it, or a size is none;
/// - with 712 where the elements of an array have more than 1,048,576 bytes;
/// - with the constraint that its specifiers or a size break, and with 801 where memory runs out.
///
/// After a refusal the scope is unspecified.
pub fn parameters_in(
    alloc: Global,
    names: &Names,
    scope: &mut Scope,
    parameters: &[Parameter],
) -> Result<Entered, Refusal>
    ensures ok { IfOk result (λ e. typed.parameters_in (with_texts names.now scope.old) (map parameter_of parameters.now) ≡ fine (record { types = map parameter_type_of e.types.items; scope = with_texts names.now scope.new })) }
    ensures before { IfOk result (λ e. (e.block ≡ block_of scope.old) × (map object_type_of e.objects.items ≡ scope.old.objects)) }
    ensures err { IfErr result (λ r. Tells r (typed.parameters_in (with_texts names.now scope.old) (map parameter_of parameters.now))) }
{
    let objects = scope.change_objects(Vec::new(alloc));
    let Ok(block) = scope.inside() else {
        return Err(Refusal::Memory);
    };
    match parameters_from(alloc, names, scope, parameters) {
        Ok(types) => Ok(Entered {
            types,
            block,
            objects,
        }),
        Err(refusal) => Err(refusal),
    }
}

/// After a declarator the names of its parameters are removed, and their string literals stay.
pub fn behind_parameters(scope: &mut Scope, block: Block, objects: Vec<ObjectType>)
    ensures { (t : Texts) (outer : scope_typed.Scope) (ps : List ParameterTree) (types : List type.ParameterType) → typed.parameters_in (with_texts t outer) ps ≡ fine (record { types = types; scope = with_texts t scope.old }) → block ≡ block_of outer → map object_type_of objects.items ≡ outer.objects → with_texts t scope.new ≡ typed.behind_parameters (with_texts t outer) (with_texts t scope.old) }
{
    scope.outside(block);
    scope.change_objects(objects);
}

/// The type of a function by its declarator, after which the names of its parameters are removed. It fails as `parameters_in` does.
pub fn function_type(
    alloc: Global,
    names: &Names,
    scope: &mut Scope,
    base: BaseType,
    parameters: &[Parameter],
) -> Result<FunctionType, Refusal>
    ensures ok { IfOk result (λ f. (p : typed.Parameters) × (typed.parameters_in (with_texts names.now scope.old) (map parameter_of parameters.now) ≡ fine p) × (function_type_of f ≡ typed.function_type (base_type_of base) p.types) × (with_texts names.now scope.new ≡ typed.behind_parameters (with_texts names.now scope.old) p.scope)) }
    ensures err { IfErr result (λ r. Tells r (typed.parameters_in (with_texts names.now scope.old) (map parameter_of parameters.now))) }
{
    match parameters_in(alloc, names, scope, parameters) {
        Ok(entered) => {
            behind_parameters(scope, entered.block, entered.objects);
            Ok(FunctionType {
                result: base.named,
                constant: base.constant,
                parameters: entered.types,
            })
        }
        Err(refusal) => Err(refusal),
    }
}
