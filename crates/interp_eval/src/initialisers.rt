//! The first values of automatic objects (6.7.9). Elements get theirs in their order, which 6.7.9p23 leaves open, and the zeros behind them come last.

ghost use Rattle.std.specs.Prelude.{◌≡◌, ◌*◌, ◌-◌, ◌^◌, ◌<◌, ◌≤◌, None, map, slice_get, true};
ghost use Rattle.ctypes.specs.Types.{converted};
ghost use Rattle.typing_spec.specs.Program as typed;
ghost use Rattle.typing_spec.specs.Types.{elements_in};
ghost use Rattle.typed_ast.specs.View.{initialiser_of, initialisers_of, value_of};
ghost use Rattle.csem.specs.Machine.{Goes, stored, then_do, tick};
ghost use Rattle.csem.specs.Statements.{first_length, inner_lengths, text_or_none};
ghost use Rattle.csem.specs.Statements as meaning;
ghost use Rattle.interp_store.specs.View.{reference_of};
ghost use Rattle.interp_eval.specs.declared.clock.Why.TheVariants as why;
ghost use Rattle.interp_eval.specs.layer.Comes.{Does, Spends, StaysHere, all_initialised, initialised, nothing, valued};
ghost use Rattle.interp_eval.specs.layer.Quick.{quick, quick_initialiser, quick_initialisers};

use crate::clock::{Clock, Scope, Why};
use crate::expressions::value;
use ctypes::{IntType, convert};
use interp_steps::elements::{clear, part, put_text};
use interp_store::Reference;
use interp_store::scene::Scene;
use typed_ast::{Initialiser, Value};

/// What an object, a row or an element consists of: the type of its elements, and the lengths of its arrays, the outermost one first (6.2.5p20).
#[derive(Clone, Copy)]
pub struct Elements<'p> {
    pub ty: IntType,
    pub lengths: &'p [u32],
}

/// The host's memory ran out.
fn out_of_memory(clock: &mut Clock) -> Option<()>
    ensures none { result ≡ None }
    ensures why { clock.new.why ≡ why.Memory }
    ensures spent { clock.new.spent ≡ clock.old.spent }
{
    clock.why = Why::Memory;
    None
}

/// The first one of the lengths, 0 if there is none.
fn first_of(lengths: &[u32]) -> usize
    ensures { result ≡ first_length lengths.now }
{
    match lengths.first() {
        None => 0,
        Some(n) => *n as usize,
    }
}

/// The lengths of a row.
fn inner_of<'p>(lengths: &'p [u32]) -> &'p [u32]
    ensures { result.now ≡ inner_lengths lengths.now }
{
    match lengths.split_first() {
        None => lengths,
        Some((_, inner)) => inner,
    }
}

/// The characters of string literal `n`, or none.
fn text_of<'p>(literals: &'p [Vec<u8>], n: usize) -> &'p [u8]
    ensures { result.now ≡ text_or_none (slice_get (map (λ l. l.items) literals.now) n) }
{
    match literals.get(n) {
        None => &[],
        Some(text) => text.as_slice(),
    }
}

/// How many elements `count` rows of these lengths have, or the greatest number where they are more.
fn element_count(count: usize, lengths: &[u32]) -> u128
    ensures most { result ≤ count * elements_in lengths.now }
    ensures exact { result < 2 ^ 128 - 1 → result ≡ count * elements_in lengths.now }
{
    let mut product = count as u128;
    for n in lengths {
        product = product.saturating_mul(u128::from(*n));
    }
    product
}

/// The element at `r` gets the value of an expression (6.7.9p11).
fn first_value(
    scope: &Scope<'_>,
    scene: &mut Scene,
    clock: &mut Clock,
    r: &Reference,
    ty: IntType,
    e: &Value,
) -> Option<()>
    requires room { clock.old.spent ≤ scope.now.limit }
    ensures does { Does nothing scope.now (λ p s. then_do (valued (value_of e.now) p s) (λ v s. tick s (λ s. Goes tt (stored (reference_of r.now) (converted ty v) s))))
        clock.old scene.old result clock.new scene.new }
    ensures here { StaysHere (quick (value_of e.now)) result clock.new.why }
    ensures spends { Spends clock.old.spent clock.new.spent scope.now.limit }
{
    let Some(v) = value(scope, scene, clock, e) else {
        return None;
    };
    if !clock.tick(scope.limit) {
        return None;
    }
    match scene.set(r, convert(ty, v)) {
        Ok(()) => Some(()),
        Err(_) => out_of_memory(clock),
    }
}

/// The array at `r` gets the characters of string literal `n`, with a tick for each of its elements (6.7.9p14).
fn text(
    scope: &Scope<'_>,
    scene: &mut Scene,
    clock: &mut Clock,
    n: usize,
    of: Elements<'_>,
    r: &Reference,
) -> Option<()>
    requires room { clock.old.spent ≤ scope.now.limit }
    ensures does { Does nothing scope.now (initialised (typed.text n) of.entry.ty of.entry.lengths.now (reference_of r.now)) clock.old scene.old result clock.new scene.new }
    ensures here { StaysHere true result clock.new.why }
    ensures spends { Spends clock.old.spent clock.new.spent scope.now.limit }
{
    if !clock.tick(scope.limit) {
        return None;
    }
    let count = first_of(of.lengths);
    if !clock.ticks(scope.limit, count as u128) {
        return None;
    }
    let text = text_of(scope.program.literals.as_slice(), n);
    match put_text(scene, scope.alloc, r, of.ty, count, text) {
        Ok(()) => Some(()),
        Err(_) => out_of_memory(clock),
    }
}

/// The elements or rows of the array at `r` from number `first` on become zero, with a tick for each element (6.7.9p10, p21).
fn zeros(
    scope: &Scope<'_>,
    scene: &mut Scene,
    clock: &mut Clock,
    first: usize,
    of: Elements<'_>,
    r: &Reference,
) -> Option<()>
    requires room { clock.old.spent ≤ scope.now.limit }
    ensures does { Does nothing scope.now (λ p s. meaning.clear (first_length of.entry.lengths.now - first) first (inner_lengths of.entry.lengths.now) (reference_of r.now) s)
        clock.old scene.old result clock.new scene.new }
    ensures here { StaysHere true result clock.new.why }
    ensures spends { Spends clock.old.spent clock.new.spent scope.now.limit }
{
    let count = first_of(of.lengths).saturating_sub(first);
    let inner = inner_of(of.lengths);
    if !clock.ticks(scope.limit, element_count(count, inner)) {
        return None;
    }
    match clear(scene, scope.alloc, r, first, count) {
        Ok(()) => Some(()),
        Err(_) => out_of_memory(clock),
    }
}

/// The elements or rows of the array at `r` get the parts of a braced list, and those behind them zero (6.7.9p17, p21).
#[cycle(initialise)]
fn parts(
    scope: &Scope<'_>,
    scene: &mut Scene,
    clock: &mut Clock,
    all: &[Initialiser],
    of: Elements<'_>,
    r: &Reference,
) -> Option<()>
    requires room { clock.old.spent ≤ scope.now.limit }
    ensures does { Does nothing scope.now (all_initialised (initialisers_of (map initialiser_of all.now)) of.entry.ty (first_length of.entry.lengths.now) 0
        (inner_lengths of.entry.lengths.now) (reference_of r.now)) clock.old scene.old result clock.new scene.new }
    ensures here { StaysHere (quick_initialisers (initialisers_of (map initialiser_of all.now))) result clock.new.why }
    ensures spends { Spends clock.old.spent clock.new.spent scope.now.limit }
{
    let mut rest = all;
    while let Some((x, more)) = rest.split_first() {
        let Ok(to) = part(scope.alloc, r, all.len() - rest.len()) else {
            return out_of_memory(clock);
        };
        let inner = Elements {
            ty: of.ty,
            lengths: inner_of(of.lengths),
        };
        let Some(_) = initialise(scope, scene, clock, x, inner, &to) else {
            return None;
        };
        rest = more;
    }
    zeros(scope, scene, clock, all.len(), of, r)
}

/// A braced list for an array (6.7.9p17).
#[cycle(initialise)]
fn list(
    scope: &Scope<'_>,
    scene: &mut Scene,
    clock: &mut Clock,
    all: &[Initialiser],
    of: Elements<'_>,
    r: &Reference,
) -> Option<()>
    requires room { clock.old.spent ≤ scope.now.limit }
    ensures does { Does nothing scope.now (initialised (typed.list (initialisers_of (map initialiser_of all.now))) of.entry.ty of.entry.lengths.now (reference_of r.now))
        clock.old scene.old result clock.new scene.new }
    ensures here { StaysHere (quick_initialisers (initialisers_of (map initialiser_of all.now))) result clock.new.why }
    ensures spends { Spends clock.old.spent clock.new.spent scope.now.limit }
{
    if !clock.tick(scope.limit) {
        return None;
    }
    parts(scope, scene, clock, all, of, r)
}

/// An initialiser in braces that are not those of a list (6.7.9p11, p14).
#[cycle(initialise)]
fn in_braces(
    scope: &Scope<'_>,
    scene: &mut Scene,
    clock: &mut Clock,
    i: &Initialiser,
    of: Elements<'_>,
    r: &Reference,
) -> Option<()>
    requires room { clock.old.spent ≤ scope.now.limit }
    ensures does { Does nothing scope.now (initialised (typed.in_braces (initialiser_of i.now)) of.entry.ty of.entry.lengths.now (reference_of r.now))
        clock.old scene.old result clock.new scene.new }
    ensures here { StaysHere (quick_initialiser (initialiser_of i.now)) result clock.new.why }
    ensures spends { Spends clock.old.spent clock.new.spent scope.now.limit }
{
    if !clock.tick(scope.limit) {
        return None;
    }
    initialise(scope, scene, clock, i, of, r)
}

/// The object, row or element at `r` gets its first value (6.7.9).
#[cycle(initialise)]
pub fn initialise(
    scope: &Scope<'_>,
    scene: &mut Scene,
    clock: &mut Clock,
    i: &Initialiser,
    of: Elements<'_>,
    r: &Reference,
) -> Option<()>
    requires room { clock.old.spent ≤ scope.now.limit }
    ensures does { Does nothing scope.now (initialised (initialiser_of i.now) of.entry.ty of.entry.lengths.now (reference_of r.now)) clock.old scene.old result clock.new scene.new }
    ensures here { StaysHere (quick_initialiser (initialiser_of i.now)) result clock.new.why }
    ensures spends { Spends clock.old.spent clock.new.spent scope.now.limit }
{
    match i {
        Initialiser::One(ty, e) => first_value(scope, scene, clock, r, *ty, e),
        Initialiser::Text(n) => text(scope, scene, clock, *n, of, r),
        Initialiser::InBraces(i) => in_braces(scope, scene, clock, i, of, r),
        Initialiser::List(all) => list(scope, scene, clock, all, of, r),
    }
}
