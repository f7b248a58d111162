//! Appends the effects of declarators to those before.
#![tactic(auto)]

ghost use Rattle.std.specs.Prelude.{◌≡◌, [], ◌∷◌, ◌++◌, IfErr, OnOk};
ghost use Rattle.srcset.specs.declared.refusal.Refusal.TheVariants.{Memory};
ghost use Rattle.typed_ast.specs.View.{declared_type_of};
ghost use Rattle.typing_spec.specs.Scope as scope_typed;
ghost use Rattle.typing_expressions.specs.Refused.{Tells};
ghost use Rattle.typing_expressions.specs.Forms.{seen};
ghost use Rattle.typing_declarations.specs.inside.Effects.{effect_in, Does};

use crate::laid_values::object_values;
use crate::object_effects::ObjectEffect;
use srcset::{Names, Refusal};
use std::alloc::Global;
use typed_ast::{DeclaredType, Statement};
use typing_units::Initial;

/// One more statement.
fn push_statement(statement: Statement, statements: &mut Vec<Statement>) -> Result<(), Refusal>
    ensures ok { OnOk result (statements.new.items ≡ statements.old.items ++ statement ∷ []) }
    ensures err { IfErr result (λ r. r ≡ Memory) }
{
    let Ok(()) = statements.push(statement) else {
        return Err(Refusal::Memory);
    };
    Ok(())
}

/// The first values of one more object.
fn push_initial(one: Initial, firsts: &mut Vec<Initial>) -> Result<(), Refusal>
    ensures ok { OnOk result (firsts.new.items ≡ firsts.old.items ++ one ∷ []) }
    ensures err { IfErr result (λ r. r ≡ Memory) }
{
    match firsts.push(one) {
        Ok(()) => Ok(()),
        Err(_) => Err(Refusal::Memory),
    }
}

/// Appends the effects of a declarator, in a scope with these literals, to those before.
pub(crate) fn put_effect(
    alloc: Global,
    names: &Names,
    literals: &[usize],
    declared: &DeclaredType,
    effect: ObjectEffect,
    statements: &mut Vec<Statement>,
    firsts: &mut Vec<Initial>,
) -> Result<(), Refusal>
    ensures ok { (s : scope_typed.Scope) → OnOk result (Does (effect_in (seen names.now literals.now s) (declared_type_of declared.now) effect) statements.old.items statements.new.items firsts.old.items firsts.new.items) }
    ensures err { (s : scope_typed.Scope) → IfErr result (λ r. Tells r (effect_in (seen names.now literals.now s) (declared_type_of declared.now) effect)) }
{
    match effect {
        ObjectEffect::Nothing => Ok(()),
        ObjectEffect::Declared(at, n) => push_statement(Statement::Declare(at, n), statements),
        ObjectEffect::Defined(at, n, initialiser) => {
            push_statement(Statement::Define(at, n, initialiser), statements)
        }
        ObjectEffect::First(n, initialiser) => {
            let values = match object_values(alloc, names, literals, declared, &initialiser) {
                Ok(values) => values,
                Err(refusal) => return Err(refusal),
            };
            let one = Initial {
                static_number: n,
                values,
            };
            match push_initial(one, firsts) {
                Ok(()) => Ok(()),
                Err(refusal) => Err(refusal),
            }
        }
    }
}
