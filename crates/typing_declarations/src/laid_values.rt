//! The values that initialisers give objects with static storage.
#![tactic(auto)]

ghost use Rattle.std.specs.Prelude.{◌≡◌, ◌∷◌, IfErr, IfOk};
ghost use Rattle.srcset.specs.declared.refusal.Refusal.TheVariants.{Memory};
ghost use Rattle.typed_ast.specs.View.{declared_type_of, initialiser_of};
ghost use Rattle.typing_spec.specs.Verdict.{fine};
ghost use Rattle.typing_spec.specs.Scope as scope_typed;
ghost use Rattle.typing_spec.specs.Initialisers as initialisers;
ghost use Rattle.typing_spec.specs.Declarations as typed;
ghost use Rattle.typing_expressions.specs.Refused.{Tells};
ghost use Rattle.typing_expressions.specs.Forms.{seen};

use decls_initialisers::values;
use srcset::{Names, Refusal};
use std::alloc::Global;
use typed_ast::{DeclaredType, Initialiser, ObjectType};

/// The lengths of an array of one element of these lengths: how many parts the outermost has matters not.
fn lengths_of_one(alloc: Global, lengths: &[u32]) -> Result<Vec<u32>, Refusal>
    ensures ok { IfOk result (λ ns. ns.items ≡ 1 ∷ lengths.now) }
    ensures err { IfErr result (λ r. r ≡ Memory) }
{
    let mut all = Vec::new(alloc);
    let Ok(()) = all.push(1) else {
        return Err(Refusal::Memory);
    };
    match all.extend_from_slice(lengths) {
        Ok(()) => Ok(all),
        Err(_) => Err(Refusal::Memory),
    }
}

/// The values of an array of unknown size.
fn values_of_unknown(
    alloc: Global,
    names: &Names,
    literals: &[usize],
    element: &ObjectType,
    initialiser: &Initialiser,
) -> Result<Vec<i64>, Refusal>
    ensures ok { (s : scope_typed.Scope) → IfOk result (λ vs. initialisers.values (seen names.now literals.now s) element.now.element (1 ∷ element.now.lengths.items) (initialiser_of initialiser.now) ≡ fine vs.items) }
    ensures err { (s : scope_typed.Scope) → IfErr result (λ r. Tells r (initialisers.values (seen names.now literals.now s) element.now.element (1 ∷ element.now.lengths.items) (initialiser_of initialiser.now))) }
{
    match lengths_of_one(alloc, &element.lengths) {
        Ok(lengths) => values(
            alloc,
            names,
            literals,
            element.element,
            &lengths,
            initialiser,
        ),
        Err(_) => Err(Refusal::Memory),
    }
}

/// The values of an object with this type, in their order.
pub(crate) fn object_values(
    alloc: Global,
    names: &Names,
    literals: &[usize],
    declared: &DeclaredType,
    initialiser: &Initialiser,
) -> Result<Vec<i64>, Refusal>
    ensures ok { (s : scope_typed.Scope) → IfOk result (λ vs. initialisers.values (seen names.now literals.now s) (typed.element_of (declared_type_of declared.now)) (typed.lengths_of (declared_type_of declared.now)) (initialiser_of initialiser.now) ≡ fine vs.items) }
    ensures err { (s : scope_typed.Scope) → IfErr result (λ r. Tells r (initialisers.values (seen names.now literals.now s) (typed.element_of (declared_type_of declared.now)) (typed.lengths_of (declared_type_of declared.now)) (initialiser_of initialiser.now))) }
{
    match declared {
        DeclaredType::Complete(object) => {
            values(
                alloc,
                names,
                literals,
                object.element,
                &object.lengths,
                initialiser,
            )
        }
        DeclaredType::UnknownSize(element) => {
            values_of_unknown(alloc, names, literals, element, initialiser)
        }
    }
}
