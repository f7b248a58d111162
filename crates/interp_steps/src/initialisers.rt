//! Initialisers (6.7.9).

ghost use Rattle.std.specs.Prelude.{◌≡◌, ◌+◌, ◌*◌, ◌-◌, ◌<◌, ◌^◌, suc, IfSome, length, map, slice_get};
ghost use Rattle.typing_spec.specs.Types.{elements_in};
ghost use Rattle.typed_ast.specs.View.{initialiser_of, initialisers_of, value_of};
ghost use Rattle.csem.specs.Statements.{characters, first_length, inner_lengths, text_or_none, zeros};
ghost use Rattle.interp_store.specs.View.{reference_of};
ghost use Rattle.interp_store.specs.layer.Agrees.{Takes};
ghost use Rattle.interp_store.specs.layer.Digits.{number_of};
ghost use Rattle.interp_store.specs.layer.Frames as on;
ghost use Rattle.interp_store.specs.layer.Steps.{
  behind,
  came_late,
  counted,
  entered_initialiser,
  entered_value,
  goes,
  left_initialised,
  listed,
};
ghost use Rattle.interp_store.specs.layer.Views.{initialiser_frame, late_of};

use crate::digits::{element_digits, take_one};
use crate::elements::{clear, part, put_text};
use crate::statements::left;
use ctypes::IntType;
use interp_store::Reference;
use interp_store::expressions::enter_value;
use interp_store::frames::{
    ControlFrame, Flow, Found, Frame, InitialiserFrame, Late, Listed, Node, Step,
};
use interp_store::machine::Machine;
use interp_store::stop::Stop;
use typed_ast::{Initialiser, Value};

/// How many elements `count` rows of these lengths have, if memory has that number.
fn element_count(count: usize, lengths: &[u32]) -> Option<usize>
    ensures { IfSome result (λ n. n ≡ count * elements_in lengths.now) }
{
    let mut product = count;
    for n in lengths {
        let Some(next) = product.checked_mul(*n as usize) else {
            return None;
        };
        product = next;
    }
    Some(product)
}

/// The first one of the lengths, 0 if there is none.
fn first_of(lengths: &[u32]) -> usize
    ensures { result ≡ first_length lengths.now }
{
    match lengths.first() {
        None => 0,
        Some(n) => *n as usize,
    }
}

/// The lengths of a row.
fn inner_of<'p>(lengths: &'p [u32]) -> &'p [u32]
    ensures { result.now ≡ inner_lengths lengths.now }
{
    match lengths.split_first() {
        None => lengths,
        Some((_, inner)) => inner,
    }
}

/// The characters of string literal `n`, or none.
fn text_of<'p>(literals: &'p [Vec<u8>], n: usize) -> &'p [u8]
    ensures { result.now ≡ text_or_none (slice_get (map (λ l. l.items) literals.now) n) }
{
    match literals.get(n) {
        None => &[],
        Some(text) => text.as_slice(),
    }
}

/// Stores characters of string literal `n` (6.7.9p14).
///
/// Errors: memory ran out.
fn fill_text<'p>(
    machine: &mut Machine<'p>,
    ty: IntType,
    count: usize,
    n: usize,
    r: Reference,
) -> Result<Step<'p>, Stop>
    ensures takes { Takes (λ p s. goes on.initialised (characters ty count 0 (text_or_none (slice_get p.literals n)) (reference_of r) s))
        machine.old result machine.new }
    ensures program { machine.new.program ≡ machine.old.program }
{
    let text = text_of(machine.program.literals.as_slice(), n);
    match put_text(&mut machine.scene, machine.alloc, &r, ty, count, text) {
        Ok(()) => Ok(Step::Leaves(Found::Initialised)),
        Err(stop) => Err(stop),
    }
}

/// Elements or rows become zero (6.7.9p21).
///
/// Errors: memory ran out.
fn fill_zeros<'p>(
    machine: &mut Machine<'p>,
    count: usize,
    first: usize,
    r: Reference,
) -> Result<Step<'p>, Stop>
    ensures takes { Takes (λ p s. goes on.initialised (zeros count first (reference_of r) s)) machine.old result machine.new }
    ensures program { machine.new.program ≡ machine.old.program }
{
    match clear(&mut machine.scene, machine.alloc, &r, first, count) {
        Ok(()) => Ok(Step::Leaves(Found::Initialised)),
        Err(stop) => Err(stop),
    }
}

/// The operation that was deferred until a number of ticks was spent.
///
/// Errors: memory ran out.
pub fn come_late<'p>(machine: &mut Machine<'p>, late: Late<'p>) -> Result<Step<'p>, Stop>
    ensures takes { Takes (λ p s. came_late p (late_of late.entry) s) machine.old result machine.new }
    ensures program { machine.new.program ≡ machine.old.program }
{
    match late {
        Late::PutsText(ty, count, n, r) => fill_text(machine, ty, count, n, r),
        Late::PutsZeros(count, first, r) => fill_zeros(machine, count, first, r),
        Late::EntersBody(objects, body) => Ok(Step::Enters(Node::Statement(objects, body))),
    }
}

/// Spends a number of ticks before a deferred operation.
///
/// Errors: memory ran out.
pub fn spend<'p>(machine: &mut Machine<'p>, ticks: usize, late: Late<'p>) -> Result<Step<'p>, Stop>
    ensures takes { Takes (λ p s. counted p ticks (late_of late.entry) s) machine.old result machine.new }
    ensures program { machine.new.program ≡ machine.old.program }
{
    match ticks.checked_sub(1) {
        None => come_late(machine, late),
        Some(more) => Ok(Step::Enters(Node::Ticking(more, late))),
    }
}

/// The same, of a number by its digits.
///
/// Errors: memory ran out.
pub fn spend_long<'p>(
    machine: &mut Machine<'p>,
    mut digits: Vec<usize>,
    late: Late<'p>,
) -> Result<Step<'p>, Stop>
    ensures takes { Takes (λ p s. counted p (number_of digits.items) (late_of late.entry) s) machine.old result machine.new }
    ensures program { machine.new.program ≡ machine.old.program }
{
    if take_one(&mut digits) {
        return Ok(Step::Enters(Node::TickingLong(digits, late)));
    }
    come_late(machine, late)
}

/// Spends a tick for each element of `count` rows of these lengths before a deferred operation.
///
/// Errors: memory ran out.
fn spend_all<'p>(
    machine: &mut Machine<'p>,
    count: usize,
    lengths: &[u32],
    late: Late<'p>,
) -> Result<Step<'p>, Stop>
    ensures takes { Takes (λ p s. counted p (count * elements_in lengths.now) (late_of late.entry) s) machine.old result machine.new }
    ensures program { machine.new.program ≡ machine.old.program }
{
    match element_count(count, lengths) {
        Some(ticks) => spend(machine, ticks, late),
        None => match element_digits(machine.alloc, count, lengths) {
            Ok(digits) => spend_long(machine, digits, late),
            Err(_) => Err(Stop::Memory),
        },
    }
}

/// The elements or rows after the last part of a braced list (6.7.9p21).
///
/// Errors: memory ran out.
fn end_list<'p>(
    machine: &mut Machine<'p>,
    count: usize,
    first: usize,
    lengths: &'p [u32],
    r: Reference,
) -> Result<Step<'p>, Stop>
    ensures takes { Takes (λ p s. counted p (count * elements_in lengths.now)
        (on.puts_zeros count first (reference_of r)) s) machine.old result machine.new }
    ensures program { machine.new.program ≡ machine.old.program }
{
    spend_all(machine, count, lengths, Late::PutsZeros(count, first, r))
}

/// A braced list, from a part on (6.7.9p17).
///
/// Errors: memory ran out.
fn list<'p>(
    machine: &mut Machine<'p>,
    all: &'p [Initialiser],
    ty: IntType,
    count: usize,
    number: usize,
    lengths: &'p [u32],
    array: Reference,
) -> Result<Step<'p>, Stop>
    requires room { number + length all.now < 2 ^ 64 }
    ensures takes { Takes (λ p s. listed p (initialisers_of (map initialiser_of all.now)) ty count number lengths.now (reference_of array) s)
        machine.old result machine.new }
    ensures program { machine.new.program ≡ machine.old.program }
{
    match all.split_first() {
        None => end_list(machine, count, number, lengths, array),
        Some((x, more)) => match part(machine.alloc, &array, number) {
            Ok(r) => {
                let rest = Listed {
                    more,
                    ty,
                    count,
                    number,
                    lengths,
                    array,
                };
                machine.wait(
                    Frame::Initialiser(InitialiserFrame::NextPart(rest)),
                    Node::Initialiser(x, ty, lengths, r),
                )
            }
            Err(stop) => Err(stop),
        },
    }
}

/// An expression for one element (6.7.9p11).
///
/// Errors: why it has no value.
fn enter_one<'p>(
    machine: &mut Machine<'p>,
    ty: IntType,
    e: &'p Value,
    r: Reference,
) -> Result<Step<'p>, Stop>
    ensures takes { Takes (λ p s. behind (on.gives ty (reference_of r)) (entered_value p (value_of e.now) s))
        machine.old result machine.new }
    ensures program { machine.new.program ≡ machine.old.program }
{
    match machine.push(Frame::Control(ControlFrame::Gives(ty, r))) {
        Ok(()) => enter_value(machine, e),
        Err(stop) => Err(stop),
    }
}

/// An initialiser, after its tick: of the object, row or element at `r`, whose elements have this type (6.7.9).
///
/// Errors: memory ran out.
pub fn enter_initialiser<'p>(
    machine: &mut Machine<'p>,
    i: &'p Initialiser,
    ty: IntType,
    lengths: &'p [u32],
    r: Reference,
) -> Result<Step<'p>, Stop>
    ensures takes { Takes (λ p s. entered_initialiser p (initialiser_of i.now) ty lengths.now (reference_of r) s)
        machine.old result machine.new }
    ensures program { machine.new.program ≡ machine.old.program }
{
    match i {
        Initialiser::One(ty, e) => enter_one(machine, *ty, e, r),
        Initialiser::Text(n) => {
            let count = first_of(lengths);
            spend(machine, count, Late::PutsText(ty, count, *n, r))
        }
        Initialiser::InBraces(i) => Ok(Step::Enters(Node::Initialiser(i, ty, lengths, r))),
        Initialiser::List(all) => list(
            machine,
            all.as_slice(),
            ty,
            first_of(lengths),
            0,
            inner_of(lengths),
            r,
        ),
    }
}

/// The next part of a braced list.
///
/// Errors: memory ran out.
fn next_part<'p>(machine: &mut Machine<'p>, l: Listed<'p>) -> Result<Step<'p>, Stop>
    ensures takes { Takes (λ p s. listed p (initialisers_of (map initialiser_of l.entry.more.now))
        l.entry.ty (l.entry.count - 1) (suc l.entry.number) l.entry.lengths.now (reference_of l.entry.array) s) machine.old result machine.new }
    ensures program { machine.new.program ≡ machine.old.program }
{
    list(
        machine,
        l.more,
        l.ty,
        l.count.saturating_sub(1),
        l.number + 1,
        l.lengths,
        l.array,
    )
}

/// The step of a frame once a first value is given.
///
/// Errors: memory ran out.
pub fn leave_initialiser<'p>(
    machine: &mut Machine<'p>,
    frame: InitialiserFrame<'p>,
) -> Result<Step<'p>, Stop>
    ensures takes { Takes (λ p s. left_initialised p (initialiser_frame frame.entry) s) machine.old result machine.new }
    ensures program { machine.new.program ≡ machine.old.program }
{
    match frame {
        InitialiserFrame::NextPart(l) => next_part(machine, l),
        InitialiserFrame::Defined => left(Flow::Normal),
    }
}
