//! String literals (6.4.5), each an object of its own.
#![tactic(auto)]

ghost use Rattle.std.specs.Prelude.{◌≡◌, ◌+◌, ◌-◌, ◌<◌, length, slice_get, IfErr, IfOk, OnOk, [], false};
ghost use Rattle.tree.specs.Tree.{string};
ghost use Rattle.typing_spec.specs.Verdict.{fine};
ghost use Rattle.typing_spec.specs.Scope.{Scope, or_empty};
ghost use Rattle.typing_spec.specs.Types.{complete, array_of};
ghost use Rattle.typing_spec.specs.Expressions as typed;
ghost use Rattle.typing_spec.specs.Program as program_typed;
ghost use Rattle.ctypes.specs.declared.types.IntType.TheVariants as ty;
ghost use Rattle.typing_expressions.specs.Refused.{Tells};
ghost use Rattle.typing_expressions.specs.Forms.{checked_of};
ghost use Rattle.typing_expressions.specs.Numbered.{typing_at};

use crate::forms::{Checked, Elements, broken};
use crate::literal_counts::LiteralCount;
use ctypes::IntType;
use srcset::{Code, Names, Pos, Refusal};
use typed_ast::{Place, Storage};

/// The most bytes of an object, of an element of an array, and of an array in a type name (5.2.4.1).
pub const OBJECT_LIMIT: u64 = 1_048_576;

/// How many characters a literal has; its text has a terminating zero.
fn characters(names: &Names, name: usize) -> usize
    ensures { result ≡ length (or_empty (slice_get names.now name)) - 1 }
{
    match names.text(name) {
        Some(text) => text.len().saturating_sub(1),
        None => 0,
    }
}

/// An array of `char`, of `length` characters, the terminating zero included.
fn array<'s>(pos: Pos, number: usize, length: u32) -> Checked<'s>
    ensures { checked_of result ≡ typed.array pos (complete (array_of length (record { element = ty.Char; constant = false; lengths = [] }))) (program_typed.named pos (program_typed.literal number)) }
{
    let elements = Elements {
        element: IntType::Char,
        constant: false,
        lengths: &[],
    };
    Checked::Array(
        pos,
        length,
        elements,
        Place::Named(pos, Storage::Literal(number)),
    )
}

/// The literal with this number, within the limit of objects.
fn literal<'s>(names: &Names, number: usize, pos: Pos, name: usize) -> Result<Checked<'s>, Refusal>
    ensures ok { (s : Scope) → IfOk result (λ c. typing_at names.now number s (string pos name) ≡ fine (checked_of c)) }
    ensures err { (s : Scope) → IfErr result (λ r. Tells r (typing_at names.now number s (string pos name))) }
{
    let characters = characters(names, name);
    if characters as u64 >= OBJECT_LIMIT {
        return Err(broken(Code::ObjectSizeLimit, pos));
    }
    Ok(array(pos, number, characters as u32 + 1))
}

/// A string literal (6.4.5p6) after `literals` others.
#[inline(never)]
pub fn next_literal<'s>(
    names: &Names,
    literals: &mut LiteralCount,
    pos: Pos,
    name: usize,
) -> Result<Checked<'s>, Refusal>
    ensures ok { (s : Scope) → IfOk result (λ c. typing_at names.now literals.old s (string pos name) ≡ fine (checked_of c)) }
    ensures err { (s : Scope) → IfErr result (λ r. Tells r (typing_at names.now literals.old s (string pos name))) }
    ensures count { OnOk result (literals.new ≡ literals.old + 1) }
{
    let Ok(number) = literals.next() else {
        return Err(Refusal::Memory);
    };
    literal(names, number, pos, name)
}
