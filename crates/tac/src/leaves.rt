//! The code of statements that hold no other, and of a loop's expressions.

ghost use Rattle.std.specs.Prelude.{ℕ, OnOk};
ghost use Rattle.typing_spec.specs.Program as typed;
ghost use Rattle.typed_ast.specs.View.{value_of, option_value, initialiser_of};
ghost use Rattle.lower_correct.specs.Bodies as relation;
ghost use Rattle.lower_ops.specs.layer.Parts.{Wrote};
ghost use Rattle.tac.specs.inside.Scopes.{program_in, function_in};
ghost use Rattle.tac.specs.inside.Sizes as size;
ghost use Rattle.tac.specs.inside.Written.{WroteStatement};

use crate::initialisers::{all_free, put_first};
use ctypes::IntType;
use lower_exprs::values::{put_converted, put_value};
use lower_ops::modes::Mode;
use lower_ops::scopes::Scope;
use lower_ops::writing::{Code, put};
use std::alloc::AllocError;
use tac_code::{Instruction, Target};
use typed_ast::{Initialiser, Value};

/// An expression that may be left out: nothing is evaluated.
pub(crate) fn put_effects(
    scope: &Scope<'_>,
    code: &mut Code,
    e: &Option<Value>,
) -> Result<(), AllocError>
    ensures { OnOk result (Wrote (λ w p q. relation.Effects w (program_in scope.now) (function_in scope.now) (option_value e.now) p q) (size.effects_size (option_value e.now)) code.old.list.items code.new.list.items) }
{
    match e {
        None => Ok(()),
        Some(e) => {
            put_value(scope, code, e, Mode::Nowhere, all_free())?;
            Ok(())
        }
    }
}

/// An expression that may be left out: a loop goes on.
pub(crate) fn put_repeats(
    scope: &Scope<'_>,
    code: &mut Code,
    e: &Option<Value>,
    top: usize,
) -> Result<(), AllocError>
    ensures { OnOk result (Wrote (λ w p q. relation.Repeats w (program_in scope.now) (function_in scope.now) (option_value e.now) top p q) (size.repeats_size (option_value e.now)) code.old.list.items code.new.list.items) }
{
    match e {
        None => {
            put(code, Instruction::Jump(top))?;
            Ok(())
        }
        Some(e) => {
            put_value(scope, code, e, Mode::If(true, top), all_free())?;
            Ok(())
        }
    }
}

pub(crate) fn put_evaluated(scope: &Scope<'_>, code: &mut Code, e: &Value) -> Result<(), AllocError>
    ensures { OnOk result ((out again back : ℕ) → WroteStatement (program_in scope.now) (function_in scope.now) (typed.evaluate (value_of e.now)) out again back code.old.list.items code.new.list.items) }
{
    put(code, Instruction::Nothing)?;
    put_value(scope, code, e, Mode::Nowhere, all_free())?;
    Ok(())
}

pub(crate) fn put_defined(
    scope: &Scope<'_>,
    code: &mut Code,
    object: usize,
    initialiser: &Initialiser,
) -> Result<(), AllocError>
    ensures { OnOk result ((out again back : ℕ) → WroteStatement (program_in scope.now) (function_in scope.now) (typed.define object (initialiser_of initialiser.now)) out again back code.old.list.items code.new.list.items) }
{
    put(
        code,
        Instruction::Forget {
            first: object,
            count: 1,
        },
    )?;
    put_first(scope, code, initialiser, object)?;
    Ok(())
}

pub(crate) fn put_returned(
    scope: &Scope<'_>,
    code: &mut Code,
    ty: IntType,
    e: &Value,
    back: usize,
) -> Result<(), AllocError>
    ensures { OnOk result ((out again : ℕ) → WroteStatement (program_in scope.now) (function_in scope.now) (typed.return_value ty (value_of e.now)) out again back code.old.list.items code.new.list.items) }
{
    put(code, Instruction::Nothing)?;
    put_converted(scope, code, ty, e, Target::Temporary(0), all_free())?;
    put(code, Instruction::Jump(back))?;
    Ok(())
}

pub(crate) fn put_return(scope: &Scope<'_>, code: &mut Code, back: usize) -> Result<(), AllocError>
    ensures { OnOk result ((out again : ℕ) → WroteStatement (program_in scope.now) (function_in scope.now) typed.return_nothing out again back code.old.list.items code.new.list.items) }
{
    put(code, Instruction::Nothing)?;
    put(code, Instruction::Jump(back))?;
    Ok(())
}
