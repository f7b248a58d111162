//! What names designate, and the lengths of objects (6.2.4, 6.5.2.1).

ghost use Rattle.std.specs.Prelude.{◌≡◌, ◌≤◌, ◌∷◌, ◌+◌, [], drop, length, ◌<◌, IfSome, IsTrue};
ghost use Rattle.typing_spec.specs.Program as typed;
ghost use Rattle.typed_ast.specs.View.{program_of, storage_of};
ghost use Rattle.verify_logic.specs.States.{shape_of, shapes_of};
ghost use Rattle.verify_logic.specs.Places.{Designates, OneRow, Subscribes};
ghost use Rattle.verify_expressions.specs.Views.{frame_of, own_shape_in, shape_in};
ghost use Rattle.verify_expressions.specs.Parts.{OneElement};

use crate::facts::FOLLOWED_ELEMENTS;
use crate::memory::follows_elements;
use crate::scope::Scope;
use typed_ast::{ObjectType, Storage};
use verify_intervals::add_usize;
use verify_logic::{ArrayArgument, Interval};

/// The number of string literals of the program.
pub fn literal_count(scope: &Scope<'_>) -> usize
    ensures { result ≡ length (program_of scope.now.program.now).literals }
{
    scope.program.literals.len()
}

/// The number in the store of the object that a name designates, if it is no array parameter.
pub fn object(scope: &Scope<'_>, what: Storage) -> Option<usize>
    ensures { IfSome result (λ x. Designates (frame_of scope.now) (storage_of what) x 0) }
{
    match what {
        Storage::Literal(n) => Some(n),
        Storage::Static(n) => add_usize(literal_count(scope), n),
        Storage::Automatic(n) => add_usize(scope.outer.len(), n),
        Storage::Parameter(_) => None,
    }
}

fn whole(scope: &Scope<'_>, what: Storage) -> Option<ArrayArgument>
    ensures { IfSome result (λ a. Designates (frame_of scope.now) (storage_of what) a.object a.depth) }
{
    let Some(x) = object(scope, what) else {
        return None;
    };
    Some(ArrayArgument {
        object: x,
        depth: 0,
    })
}

/// The referent of array parameter `n`.
fn parameter(scope: &Scope<'_>, n: usize) -> Option<ArrayArgument>
    ensures { IfSome result (λ a. Designates (frame_of scope.now) (typed.parameter n) a.object a.depth) }
{
    match scope.arrays.get(n) {
        None => None,
        Some(a) => Some(*a),
    }
}

/// The designation of a name: an object, or the object or row to which an array parameter refers.
pub fn designated(scope: &Scope<'_>, what: Storage) -> Option<ArrayArgument>
    ensures { IfSome result (λ a. Designates (frame_of scope.now) (storage_of what) a.object a.depth) }
{
    match what {
        Storage::Literal(_) => whole(scope, what),
        Storage::Static(_) => whole(scope, what),
        Storage::Automatic(_) => whole(scope, what),
        Storage::Parameter(n) => parameter(scope, n),
    }
}

/// The number of all objects, if it is representable.
pub fn object_count(scope: &Scope<'_>) -> Option<usize>
    ensures { IfSome result (λ n. n ≡ length scope.now.outer.now + length scope.now.objects.now) }
{
    scope.outer.len().checked_add(scope.objects.len())
}

fn is_below(x: usize, n: usize) -> bool
    ensures { IsTrue result → x < n }
{
    x < n
}

/// Tests whether object `x` exists.
pub fn is_object(scope: &Scope<'_>, x: usize) -> bool
    ensures { IsTrue result → x < length (shapes_of (frame_of scope.now)) }
{
    match object_count(scope) {
        None => false,
        Some(n) => is_below(x, n),
    }
}

fn own_shape<'s>(objects: &'s [ObjectType], n: usize) -> &'s [u32]
    ensures { result.now ≡ own_shape_in objects.now n }
{
    match objects.get(n) {
        None => &[],
        Some(object) => &object.lengths,
    }
}

/// The lengths of object `x`, none for a scalar.
pub fn shape<'s>(outer: &'s [Vec<u32>], objects: &'s [ObjectType], x: usize) -> &'s [u32]
    ensures { result.now ≡ shape_in outer.now objects.now x }
{
    if x < outer.len() {
        &outer[x]
    } else {
        own_shape(objects, x - outer.len())
    }
}

/// Tests whether object `x` is a scalar.
pub fn is_scalar(scope: &Scope<'_>, x: usize) -> bool
    ensures { IsTrue result → shape_of (frame_of scope.now) x ≡ [] }
{
    let lengths = shape(scope.outer, scope.objects, x);
    lengths.is_empty()
}

/// Tests whether each of the lengths is 1.
#[tactic(auto, using(crate::proofs::Steps::ones_step, crate::proofs::Steps::whole_ones))]
fn are_ones(lengths: &[u32]) -> bool
    ensures { IsTrue result → OneElement lengths.now }
{
    for n in 0..lengths.len() {
        if lengths[n] != 1 {
            return false;
        }
    }
    true
}

/// Tests whether object `x` is a scalar or an array of one element.
pub fn has_one_element(scope: &Scope<'_>, x: usize) -> bool
    ensures { IsTrue result → OneElement (shape_of (frame_of scope.now) x) }
{
    let lengths = shape(scope.outer, scope.objects, x);
    are_ones(lengths)
}

fn is_followed(lengths: &[u32]) -> bool
    ensures { IsTrue result → OneRow lengths.now }
{
    lengths.len() == 1 && lengths[0] <= FOLLOWED_ELEMENTS
}

/// The interval of the subscript of an element of object `x`, if that is an array of one row whose elements are tracked.
pub fn followed_subscript(scope: &Scope<'_>, x: usize, i: Interval) -> Option<Interval>
    ensures { Subscribes result i (shape_of (frame_of scope.now) x) }
{
    let lengths = shape(scope.outer, scope.objects, x);
    let followed = is_followed(lengths);
    if followed && follows_elements(scope.memory) {
        Some(i)
    } else {
        None
    }
}

/// Tests whether this number of subscripts leads to an element of object `x`.
pub fn is_element(scope: &Scope<'_>, x: usize, depth: usize) -> bool
    ensures { IsTrue result → drop depth (shape_of (frame_of scope.now) x) ≡ [] }
{
    let lengths = shape(scope.outer, scope.objects, x);
    lengths.len() <= depth
}

fn length_in(lengths: &[u32], depth: usize) -> Option<u32>
    ensures { IfSome result (λ n. drop depth lengths.now ≡ n ∷ drop (depth + 1) lengths.now) }
{
    if depth < lengths.len() {
        Some(lengths[depth])
    } else {
        None
    }
}

/// The length of the array to which this number of subscripts leads in object `x`.
pub fn length_at(scope: &Scope<'_>, x: usize, depth: usize) -> Option<u32>
    ensures { IfSome result (λ n. drop depth (shape_of (frame_of scope.now) x) ≡ n ∷ drop (depth + 1) (shape_of (frame_of scope.now) x)) }
{
    let lengths = shape(scope.outer, scope.objects, x);
    length_in(lengths, depth)
}
