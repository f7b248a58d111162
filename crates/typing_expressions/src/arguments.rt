//! Arguments of calls (6.5.2.2): each is assigned to its parameter.
#![tactic(auto, using(crate::proofs::Verdicts::tells_then))]

ghost use Rattle.std.specs.Prelude.{◌≡◌, IfErr, IfOk, Some};
ghost use Rattle.typed_ast.specs.View.{place_of, parameter_type_of, object_type_of, argument_of, and_given};
ghost use Rattle.typing_spec.specs.Verdict.{fine};
ghost use Rattle.typing_spec.specs.Types as type;
ghost use Rattle.typing_spec.specs.Program as program_typed;
ghost use Rattle.typing_spec.specs.Program.{Arguments};
ghost use Rattle.typing_spec.specs.Expressions as typed;
ghost use Rattle.typing_expressions.specs.Refused.{Tells};
ghost use Rattle.typing_expressions.specs.Forms.{checked_of, elements_of};

use crate::forms::{Checked, Elements, broken, elements_in, left_out, valued};
use ctypes::IntType;
use srcset::{Code, Pos, Refusal};
use std::alloc::Global;
use typed_ast::{Argument, ParameterType, Place};

fn same_lengths(a: &[u32], b: &[u32]) -> bool
    ensures { result ≡ type.same_lengths a.now b.now }
{
    match a.split_first() {
        None => b.is_empty(),
        Some((m, ms)) => match b.split_first() {
            None => false,
            Some((n, ns)) => *m == *n && same_lengths(ms, ns),
        },
    }
}

fn same_type(a: IntType, b: IntType) -> bool
    ensures { result ≡ type.same_type a b }
{
    a == b
}

/// The same but for `const`.
fn alike(a: Elements, b: Elements) -> bool
    ensures { result ≡ type.alike (elements_of a.entry) (elements_of b.entry) }
{
    same_type(a.element, b.element) && same_lengths(a.lengths, b.lengths)
}

fn same_truth(a: bool, b: bool) -> bool
    ensures { result ≡ type.same_truth a b }
{
    a == b
}

fn same_object(a: Elements, b: Elements) -> bool
    ensures { result ≡ type.same_object (elements_of a.entry) (elements_of b.entry) }
{
    alike(a, b) && same_truth(a.constant, b.constant)
}

fn is_number(a: Elements) -> bool
    ensures { result ≡ typed.has_no_lengths (elements_of a.entry).lengths }
{
    a.lengths.is_empty()
}

/// Whether a reference to the one may be assigned to a reference to the other (6.5.16.1p1).
fn may_refer(wanted: Elements, given: Elements) -> bool
    ensures { result ≡ typed.may_refer (elements_of wanted.entry) (elements_of given.entry) }
{
    same_object(wanted, given) || (alike(wanted, given) && (wanted.constant && is_number(wanted)))
}

fn referring(pos: Pos, wanted: Elements, given: Elements, place: Place) -> Result<Place, Refusal>
    ensures ok { (more : Arguments) → IfOk result (λ p. typed.referring pos (elements_of wanted.entry) (Some (elements_of given.entry)) (place_of place) more ≡ fine (program_typed.and_array (place_of p) more)) }
    ensures err { (more : Arguments) → IfErr result (λ r. Tells r (typed.referring pos (elements_of wanted.entry) (Some (elements_of given.entry)) (place_of place) more)) }
{
    if may_refer(wanted, given) {
        return Ok(place);
    }
    Err(broken(Code::ArgumentType, pos))
}

/// An array for a parameter that refers to one (6.5.2.2p2).
fn array_argument(pos: Pos, wanted: Elements, x: Checked) -> Result<Place, Refusal>
    ensures ok { (more : Arguments) → IfOk result (λ p. typed.array_argument pos (elements_of wanted.entry) (checked_of x.entry) more ≡ fine (program_typed.and_array (place_of p) more)) }
    ensures err { (more : Arguments) → IfErr result (λ r. Tells r (typed.array_argument pos (elements_of wanted.entry) (checked_of x.entry) more)) }
{
    match x {
        Checked::Array(_, _, given, place) => referring(pos, wanted, given, place),
        Checked::Unsized(_, given, place) => referring(pos, wanted, given, place),
        Checked::Reference(_, given, place) => referring(pos, wanted, given, place),
        Checked::Value(_, _, _) => Err(broken(Code::ArgumentType, pos)),
        Checked::Object(_, _, _, _) => Err(broken(Code::ArgumentType, pos)),
        Checked::Nothing(_, _) => Err(broken(Code::ArgumentType, pos)),
        Checked::Designator(pos) => Err(left_out(pos)),
    }
}

/// An argument for its parameter (6.5.2.2p4, p7).
pub fn argument(
    alloc: Global,
    pos: Pos,
    parameter: &ParameterType,
    x: Checked,
) -> Result<Argument, Refusal>
    ensures ok { (more : Arguments) → IfOk result (λ a. typed.argument pos (parameter_type_of parameter.now) (checked_of x.entry) more ≡ fine (and_given (argument_of a) more)) }
    ensures err { (more : Arguments) → IfErr result (λ r. Tells r (typed.argument pos (parameter_type_of parameter.now) (checked_of x.entry) more)) }
{
    match parameter {
        ParameterType::Number(ty) => match valued(alloc, Code::ArgumentType, pos, x) {
            Ok(x) => Ok(Argument::Number(*ty, x.value)),
            Err(refusal) => Err(refusal),
        },
        ParameterType::Elements(wanted) => match array_argument(pos, elements_in(wanted), x) {
            Ok(place) => Ok(Argument::Array(place)),
            Err(refusal) => Err(refusal),
        },
    }
}
