//! The code of initialisers (6.7.9).

ghost use Rattle.std.specs.Prelude.{◌≡◌, ◌<◌, ◌+◌, ◌*◌, ◌^◌, true, map, Some, slice_get, OnOk};
ghost use Rattle.typed_ast.specs.View.{value_of, object_type_of, initialiser_of, initialisers_of};
ghost use Rattle.typing_spec.specs.Types.{elements_in};
ghost use Rattle.lower_wf.specs.Asked.{is_sized};
ghost use Rattle.lower_correct.specs.Bodies as relation;
ghost use Rattle.lower_correct.specs.Initialisers as stretches;
ghost use Rattle.lower_ops.specs.layer.Parts.{Wrote};
ghost use Rattle.lower_ops.specs.layer.Rows as rows;
ghost use Rattle.tac.specs.inside.Scopes.{program_in, function_in};
ghost use Rattle.tac.specs.inside.FirstSizes as size;
ghost use Rattle.tac.specs.inside.Written.{WroteFills, WroteFillAll, WroteInitialises};

use crate::elements::{Start, element_at, put_clears, put_copies};
use crate::first_sizes::{characters_of, first_length, inner_lengths};
use ctypes::IntType;
use lower_exprs::operands::keeps;
use lower_exprs::places::Free;
use lower_exprs::values::{put_converted, put_rested};
use lower_ops::bools::either;
use lower_ops::memory::put_stored;
use lower_ops::modes::Mode;
use lower_ops::row_sizes::elements_counted;
use lower_ops::scopes::Scope;
use lower_ops::spots::cuts;
use lower_ops::writing::{Code, put};
use std::alloc::AllocError;
use tac_code::{Instruction, Target};
use typed_ast::{Initialiser, ObjectType, Value};

/// Each full expression has all temporaries and slots.
pub(crate) fn all_free() -> Free
    ensures temporary { result.temporary ≡ 0 }
    ensures slot { result.slot ≡ 0 }
{
    Free {
        temporary: 0,
        slot: 0,
    }
}

/// An object that is no array gets its first value, which costs a tick after its expression.
fn put_word(
    scope: &Scope<'_>,
    code: &mut Code,
    initialiser: &Initialiser,
    object: usize,
) -> Result<(), AllocError>
    ensures { OnOk result (Wrote (λ w p q. relation.InitialisesWord w (program_in scope.now) (function_in scope.now) (initialiser_of initialiser.now) object p q) (size.word_size (initialiser_of initialiser.now)) code.old.list.items code.new.list.items) }
{
    match initialiser {
        Initialiser::One(ty, e) => {
            put_converted(scope, code, *ty, e, Target::Object(object), all_free())?;
            put(code, Instruction::Nothing)?;
            Ok(())
        }
        Initialiser::Text(_) => {
            put(code, Instruction::Nothing)?;
            Ok(())
        }
        Initialiser::InBraces(inner) => {
            put(code, Instruction::Nothing)?;
            put_word(scope, code, inner, object)?;
            Ok(())
        }
        Initialiser::List(_) => {
            put(code, Instruction::Nothing)?;
            Ok(())
        }
    }
}

// ---- arrays

/// An element gets a value.
fn put_set(
    scope: &Scope<'_>,
    code: &mut Code,
    ty: IntType,
    e: &Value,
    start: Start,
) -> Result<(), AllocError>
    ensures { OnOk result (Wrote (λ w p q. stretches.Sets w (program_in scope.now).literals (rows.sizes_in scope.now) ty (value_of e.now) start.array start.number p q) (size.sets_size ty (value_of e.now)) code.old.list.items code.new.list.items) }
{
    let operand = put_rested(scope, code, e, all_free())?;
    let kept = either(cuts(ty, Mode::Nowhere), keeps(ty, e));
    let spot = element_at(Start {
        element: ty,
        array: start.array,
        number: start.number,
    });
    put_stored(code, kept, ty, operand, spot, Mode::Nowhere, 0)?;
    Ok(())
}

/// `count` elements ahead.
fn ahead_of(start: Start, count: usize) -> Start
    requires { start.number + count < 2 ^ 64 }
    ensures element { result.element ≡ start.element }
    ensures array { result.array ≡ start.array }
    ensures number { result.number ≡ start.number + count }
{
    Start {
        element: start.element,
        array: start.array,
        number: start.number + count,
    }
}

/// `count` elements or rows of these lengths; those that the list omits become zero (6.7.9p17, p21). Initialisers past the last one
/// have no code.
#[cycle(fills)]
fn put_fill_all(
    scope: &Scope<'_>,
    code: &mut Code,
    all: &[Initialiser],
    count: u32,
    lengths: &[u32],
    start: Start,
) -> Result<(), AllocError>
    requires some { 0 < elements_in lengths.now }
    requires row { elements_in lengths.now < 2 ^ 32 }
    requires whole { start.number + count * elements_in lengths.now < 2 ^ 32 }
    ensures { OnOk result (WroteFillAll (program_in scope.now) (function_in scope.now) (initialisers_of (map initialiser_of all.now)) count lengths.now start code.old.list.items code.new.list.items) }
{
    let row = elements_counted(lengths);
    let mut next = start;
    let mut left = count;
    for initialiser in all {
        if left == 0 {
            break;
        }
        put_fills(scope, code, initialiser, lengths, next)?;
        next = ahead_of(next, row);
        left -= 1;
    }
    let rest = (left as usize) * row;
    put_clears(code, next, rest)?;
    Ok(())
}

/// An initialiser that begins at an element, and has these lengths.
#[cycle(fills)]
fn put_fills(
    scope: &Scope<'_>,
    code: &mut Code,
    initialiser: &Initialiser,
    lengths: &[u32],
    start: Start,
) -> Result<(), AllocError>
    requires some { 0 < elements_in lengths.now }
    requires small { start.number + elements_in lengths.now < 2 ^ 32 }
    ensures { OnOk result (WroteFills (program_in scope.now) (function_in scope.now) (initialiser_of initialiser.now) lengths.now start code.old.list.items code.new.list.items) }
{
    let count = first_length(lengths);
    match initialiser {
        Initialiser::One(ty, e) => {
            put_set(scope, code, *ty, e, start)?;
            Ok(())
        }
        Initialiser::Text(literal) => {
            let characters = characters_of(&scope.program.literals, *literal);
            put_copies(code, start, *literal, count, characters)?;
            Ok(())
        }
        Initialiser::InBraces(inner) => {
            put(code, Instruction::Nothing)?;
            put_fills(scope, code, inner, lengths, start)?;
            Ok(())
        }
        Initialiser::List(all) => {
            put(code, Instruction::Nothing)?;
            put_fill_all(scope, code, all, count, inner_lengths(lengths), start)?;
            Ok(())
        }
    }
}

fn put_object(
    scope: &Scope<'_>,
    code: &mut Code,
    initialiser: &Initialiser,
    object: usize,
    found: &ObjectType,
) -> Result<(), AllocError>
    requires { is_sized (object_type_of found.now) ≡ true }
    ensures { OnOk result (WroteInitialises (program_in scope.now) (function_in scope.now) (Some (object_type_of found.now)) (initialiser_of initialiser.now) object code.old.list.items code.new.list.items) }
{
    if found.lengths.is_empty() {
        put_word(scope, code, initialiser, object)?;
        return Ok(());
    }
    let start = Start {
        element: found.element,
        array: object,
        number: 0,
    };
    put_fills(scope, code, initialiser, &found.lengths, start)?;
    Ok(())
}

/// An object gets its first value.
pub(crate) fn put_first(
    scope: &Scope<'_>,
    code: &mut Code,
    initialiser: &Initialiser,
    object: usize,
) -> Result<(), AllocError>
    ensures { OnOk result (WroteInitialises (program_in scope.now) (function_in scope.now) (slice_get (function_in scope.now).objects object) (initialiser_of initialiser.now) object code.old.list.items code.new.list.items) }
{
    match scope.function.objects.get(object) {
        None => Ok(()),
        Some(found) => {
            put_object(scope, code, initialiser, object, found)?;
            Ok(())
        }
    }
}
