//! The values of the elements of an object with static storage (6.7.9).
#![tactic(auto)]

ghost use Rattle.std.specs.Prelude.{◌≡◌, [], ◌∷◌, ◌++◌, ◌-◌, ℕ, ℤ, List, length, map, take, slice_get, IfErr, IfOk, OnOk};
ghost use Rattle.srcset.specs.declared.refusal.Refusal.TheVariants.{Memory};
ghost use Rattle.tree.specs.Capped.{capped};
ghost use Rattle.typed_ast.specs.View.{initialiser_of, initialisers_of, value_of};
ghost use Rattle.typing_spec.specs.Verdict.{fine};
ghost use Rattle.typing_spec.specs.Types.{elements_in};
ghost use Rattle.typing_spec.specs.Scope.{Scope};
ghost use Rattle.typing_spec.specs.Initialisers as typed;
ghost use Rattle.typing_expressions.specs.Refused.{Tells};
ghost use Rattle.typing_expressions.specs.Forms.{seen};
ghost use Rattle.decls_initialisers.specs.inside.Values.{values_with, all_values_with, value_with, text_with, characters_with};

use const_expr::folded;
use ctypes::{IntType, convert};
use srcset::{Names, Refusal};
use std::alloc::Global;
use typed_ast::{Initialiser, Value};

/// How many elements arrays of these lengths have, or 2^64 - 1 where that is less.
fn element_count(lengths: &[u32]) -> usize
    ensures { result ≡ capped (elements_in lengths.now) }
{
    match lengths.split_first() {
        None => 1,
        Some((first, rest)) => (*first as usize).saturating_mul(element_count(rest)),
    }
}

/// One more value.
fn push_value(value: i64, all: &mut Vec<i64>) -> Result<(), Refusal>
    ensures ok { OnOk result (all.new.items ≡ all.old.items ++ value ∷ []) }
    ensures err { IfErr result (λ r. r ≡ Memory) }
{
    match all.push(value) {
        Ok(()) => Ok(()),
        Err(_) => Err(Refusal::Memory),
    }
}

/// Cuts the values from this place on at `count`, or appends zeros up to it. A `Vec` cannot have as many as the greatest `usize`.
fn pad(start: usize, count: usize, all: &mut Vec<i64>) -> Result<(), Refusal>
    ensures ok { (n : ℕ) (before vs : List ℤ) → count ≡ capped n → all.old.items ≡ before ++ vs → start ≡ length before → OnOk result (all.new.items ≡ before ++ typed.padded n vs) }
    ensures err { IfErr result (λ r. r ≡ Memory) }
{
    match all.resize(start.saturating_add(count), 0) {
        Ok(()) => Ok(()),
        Err(_) => Err(Refusal::Memory),
    }
}

/// The characters of a text, which ends in a zero.
fn characters_of<'n>(names: &'n Names, name: usize) -> &'n [u8]
    ensures { result.now ≡ characters_with names.now name }
{
    match names.text(name) {
        Some(text) => &text[..text.len().saturating_sub(1)],
        None => &[],
    }
}

/// Characters, each converted to the type.
fn push_characters(element: IntType, text: &[u8], all: &mut Vec<i64>) -> Result<(), Refusal>
    ensures ok { OnOk result (all.new.items ≡ all.old.items ++ typed.characters element text.now) }
    ensures err { IfErr result (λ r. r ≡ Memory) }
{
    for byte in text {
        match push_value(convert(element, i64::from(*byte)), all) {
            Ok(()) => {}
            Err(refusal) => return Err(refusal),
        }
    }
    Ok(())
}

/// The text of the literal with this number among the literals.
fn literal_at(literals: &[usize], number: usize) -> Option<usize>
    ensures { result ≡ slice_get literals.now number }
{
    literals.get(number).copied()
}

/// The characters of the literal with this number among the literals.
fn push_text(
    names: &Names,
    literals: &[usize],
    element: IntType,
    number: usize,
    all: &mut Vec<i64>,
) -> Result<(), Refusal>
    ensures ok { OnOk result (all.new.items ≡ all.old.items ++ typed.characters element (text_with names.now literals.now number)) }
    ensures err { IfErr result (λ r. r ≡ Memory) }
{
    match literal_at(literals, number) {
        None => Ok(()),
        Some(name) => push_characters(element, characters_of(names, name), all),
    }
}

/// The value of a number, converted to the type.
fn push_folded(element: IntType, e: &Value, all: &mut Vec<i64>) -> Result<(), Refusal>
    ensures ok { OnOk result ((vs : List ℤ) × (all.new.items ≡ all.old.items ++ vs) × (value_with element (value_of e.now) ≡ fine vs)) }
    ensures err { IfErr result (λ r. Tells r (value_with element (value_of e.now))) }
{
    match folded(e) {
        Ok(value) => push_value(convert(element, value), all),
        Err(refusal) => Err(refusal),
    }
}

/// The values of the parts of a list, each with as many as a part has.
#[cycle(element_values)]
fn push_parts(
    names: &Names,
    literals: &[usize],
    element: IntType,
    lengths: &[u32],
    parts: &[Initialiser],
    all: &mut Vec<i64>,
) -> Result<(), Refusal>
    ensures ok { OnOk result ((vs : List ℤ) × (all.new.items ≡ all.old.items ++ vs) × (all_values_with names.now literals.now element lengths.now (initialisers_of (map initialiser_of parts.now)) ≡ fine vs)) }
    ensures err { IfErr result (λ r. Tells r (all_values_with names.now literals.now element lengths.now (initialisers_of (map initialiser_of parts.now)))) }
{
    let count = element_count(lengths);
    for part in parts {
        let start = all.len();
        match push_values(names, literals, element, lengths, part, all) {
            Ok(()) => {}
            Err(refusal) => return Err(refusal),
        }
        match pad(start, count, all) {
            Ok(()) => {}
            Err(refusal) => return Err(refusal),
        }
    }
    Ok(())
}

/// Appends the values of an initialiser to others.
#[cycle(element_values)]
fn push_values(
    names: &Names,
    literals: &[usize],
    element: IntType,
    lengths: &[u32],
    initialiser: &Initialiser,
    all: &mut Vec<i64>,
) -> Result<(), Refusal>
    ensures ok { OnOk result ((vs : List ℤ) × (all.new.items ≡ all.old.items ++ vs) × (values_with names.now literals.now element lengths.now (initialiser_of initialiser.now) ≡ fine vs)) }
    ensures err { IfErr result (λ r. Tells r (values_with names.now literals.now element lengths.now (initialiser_of initialiser.now))) }
{
    match initialiser {
        Initialiser::One(_, e) => push_folded(element, e, all),
        Initialiser::Text(number) => push_text(names, literals, element, *number, all),
        Initialiser::InBraces(inner) => {
            push_values(names, literals, element, lengths, inner, all)
        }
        Initialiser::List(parts) => match lengths.split_first() {
            None => Ok(()),
            Some((_, rest)) => push_parts(names, literals, element, rest, parts, all),
        },
    }
}

/// The values of the elements of an object, as far as its initialiser gives them, in their order: of the parts of a list, each with as
/// many as a part has. The literals are those of the unit, up to and with those of the initialiser, by the numbers of their texts.
///
/// Fails
/// - with 501, 502 or 503 where an expression has no constant value;
/// - with 801 where memory runs out.
///
/// Its recursion is as deep as the initialiser is.
pub fn values(
    alloc: Global,
    names: &Names,
    literals: &[usize],
    element: IntType,
    lengths: &[u32],
    initialiser: &Initialiser,
) -> Result<Vec<i64>, Refusal>
    ensures ok { (s : Scope) → IfOk result (λ vs. typed.values (seen names.now literals.now s) element lengths.now (initialiser_of initialiser.now) ≡ fine vs.items) }
    ensures err { (s : Scope) → IfErr result (λ r. Tells r (typed.values (seen names.now literals.now s) element lengths.now (initialiser_of initialiser.now))) }
{
    let mut all = Vec::new(alloc);
    match push_values(names, literals, element, lengths, initialiser, &mut all) {
        Ok(()) => Ok(all),
        Err(refusal) => Err(refusal),
    }
}
