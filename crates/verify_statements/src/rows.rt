//! First values of short arrays of one row, element by element (6.7.9p14, p17, p21). After them the value of each element is known, and an
//! initialiser may assign and call.

ghost use Rattle.std.specs.Prelude.{◌≡◌, ◌-ℤ◌, ◌∷◌, [], map, pos, IfOk, IfSome, IsTrue, Some};
ghost use Rattle.typing_spec.specs.Program as typed;
ghost use Rattle.typed_ast.specs.View.{initialiser_of, initialisers_of, value_of};
ghost use Rattle.verify_logic.specs.States.{Writes};
ghost use Rattle.verify_expressions.specs.Views.{frame_of, known_of, state_of};
ghost use Rattle.verify_statements.specs.Rows.{ElementBegins, RowBecomes, RowBegins, RowClears, RowFills, RowSpells};

use crate::effects::is_quiet;
use ctypes::IntType;
use typed_ast::{Initialiser, Value};
use verify_expressions::{
    AbsState, FOLLOWED_ELEMENTS, Known, Scope, Stop, elements_read, evaluate, follows_elements,
    value_in, with_value, written,
};
use verify_intervals::{conversion, initialised, single};
use verify_logic::Interval;

/// The limit on facts about single elements when an array is filled in this way.
const ROOM: usize = 512;

fn single_index(n: u32) -> Interval
    ensures { result ≡ record { low = pos n; high = pos n } }
{
    let v = i64::from(n);
    Interval { low: v, high: v }
}

/// One value for element `index` (6.7.9p11).
fn element_begun(
    scope: &Scope<'_>,
    state: AbsState,
    x: usize,
    n: u32,
    index: u32,
    ty: IntType,
    e: &Value,
) -> Result<AbsState, Stop>
    ensures { IfOk result (λ r. ElementBegins (frame_of scope.now) (typed.one_value ty (value_of e.now)) x n index (state_of state) (state_of r)) }
{
    let v = evaluate(scope, state, e)?;
    let k = conversion(ty, v.interval);
    let at = single_index(index);
    let state2 = written(scope, v.state, x, Some(at), k)?;
    Ok(state2)
}

/// The value that element `index` gets.
fn element_listed(
    scope: &Scope<'_>,
    state: AbsState,
    x: usize,
    n: u32,
    index: u32,
    i: &Initialiser,
) -> Result<AbsState, Stop>
    ensures { IfOk result (λ r. ElementBegins (frame_of scope.now) (initialiser_of i.now) x n index (state_of state) (state_of r)) }
{
    match i {
        Initialiser::One(ty, e) => element_begun(scope, state, x, n, index, *ty, e),
        Initialiser::Text(_) => Err(Stop::Unfollowed(None)),
        Initialiser::InBraces(_) => Err(Stop::Unfollowed(None)),
        Initialiser::List(_) => Err(Stop::Unfollowed(None)),
    }
}

/// The elements from number `from` on become 0.
fn row_cleared(
    scope: &Scope<'_>,
    state: AbsState,
    x: usize,
    n: u32,
    from: u32,
) -> Result<AbsState, Stop>
    ensures { IfOk result (λ r. RowClears (frame_of scope.now) x n from (state_of state) (state_of r)) }
{
    let mut current = state;
    for index in from..n {
        let at = single_index(index);
        let zero = single(0);
        let next = written(scope, current, x, Some(at), zero)?;
        current = next;
    }
    Ok(current)
}

/// The elements get these values, in their order, and the others 0.
fn row_begun(
    scope: &Scope<'_>,
    state: AbsState,
    x: usize,
    n: u32,
    all: &[Initialiser],
) -> Result<AbsState, Stop>
    ensures { IfOk result (λ r. RowBegins (frame_of scope.now) (initialisers_of (map initialiser_of all.now)) x n 0 (state_of state) (state_of r)) }
{
    let mut current = state;
    let mut done: u32 = 0;
    let mut rest = all;
    while let Some((i, more)) = rest.split_first() {
        if done >= n {
            return Err(Stop::Unfollowed(None));
        }
        let next = element_listed(scope, current, x, n, done, i)?;
        current = next;
        done += 1;
        rest = more;
    }
    let last = row_cleared(scope, current, x, n, done)?;
    Ok(last)
}

/// An element gets a character of a string, or 0 past its end.
fn character_begun(
    scope: &Scope<'_>,
    state: AbsState,
    x: usize,
    index: u32,
    value: Interval,
) -> Result<AbsState, Stop>
    ensures { IfOk result (λ r. Writes (frame_of scope.now) (state_of state) x (Some (record { low = pos index; high = pos index })) value (state_of r)) }
{
    let at = single_index(index);
    let state2 = written(scope, state, x, Some(at), value)?;
    Ok(state2)
}

fn single_byte(c: u8) -> Interval
    ensures { result ≡ record { low = pos c; high = pos c } }
{
    let v = i64::from(c);
    Interval { low: v, high: v }
}

/// The elements become the characters of a string, and the others 0.
fn row_spelled(
    scope: &Scope<'_>,
    state: AbsState,
    x: usize,
    n: u32,
    element: IntType,
    text: &[u8],
) -> Result<AbsState, Stop>
    ensures { IfOk result (λ r. RowSpells (frame_of scope.now) element text.now x n 0 (state_of state) (state_of r)) }
{
    let mut current = state;
    let mut done: u32 = 0;
    let mut rest = text;
    while let Some((c, more)) = rest.split_first() {
        if done >= n {
            return Ok(current);
        }
        let v = single_byte(*c);
        let value = conversion(element, v);
        let next = character_begun(scope, current, x, done, value)?;
        current = next;
        done += 1;
        rest = more;
    }
    let last = row_cleared(scope, current, x, n, done)?;
    Ok(last)
}

fn listed(
    scope: &Scope<'_>,
    state: AbsState,
    x: usize,
    n: u32,
    element: IntType,
    all: &[Initialiser],
) -> Result<AbsState, Stop>
    ensures { IfOk result (λ r. RowFills (frame_of scope.now) (typed.list (initialisers_of (map initialiser_of all.now))) element x n (state_of state) (state_of r)) }
{
    let state2 = row_begun(scope, state, x, n, all)?;
    Ok(state2)
}

fn spelled(
    scope: &Scope<'_>,
    state: AbsState,
    x: usize,
    n: u32,
    element: IntType,
    text: usize,
) -> Result<AbsState, Stop>
    ensures { IfOk result (λ r. RowFills (frame_of scope.now) (typed.text text) element x n (state_of state) (state_of r)) }
{
    match scope.program.literals.get(text) {
        None => Err(Stop::Unfollowed(None)),
        Some(characters) => {
            let state2 = row_spelled(scope, state, x, n, element, characters)?;
            Ok(state2)
        }
    }
}

/// Object `x`, an array of `n` elements, gets a first value.
///
/// Errors: memory ran out, undefined behaviour is not ruled out, a call was not analysed yet, or the analysis is not possible.
pub fn row_filled(
    scope: &Scope<'_>,
    state: AbsState,
    x: usize,
    n: u32,
    element: IntType,
    i: &Initialiser,
) -> Result<AbsState, Stop>
    ensures { IfOk result (λ r. RowFills (frame_of scope.now) (initialiser_of i.now) element x n (state_of state) (state_of r)) }
{
    match i {
        Initialiser::One(_, _) => Err(Stop::Unfollowed(None)),
        Initialiser::Text(text) => spelled(scope, state, x, n, element, *text),
        Initialiser::InBraces(_) => Err(Stop::Unfollowed(None)),
        Initialiser::List(all) => listed(scope, state, x, n, element, all),
    }
}

// ---- which arrays are filled in this way

fn is_one(i: &Initialiser) -> bool {
    match i {
        Initialiser::One(_, _) => true,
        Initialiser::Text(_) => false,
        Initialiser::InBraces(_) => false,
        Initialiser::List(_) => false,
    }
}

fn are_ones(all: &[Initialiser]) -> bool {
    for n in 0..all.len() {
        if !is_one(&all[n]) {
            return false;
        }
    }
    true
}

fn suits(i: &Initialiser) -> bool {
    match i {
        Initialiser::One(_, _) => false,
        Initialiser::Text(_) => true,
        Initialiser::InBraces(_) => false,
        Initialiser::List(all) => are_ones(all),
    }
}

fn is_simple_one(i: &Initialiser) -> bool {
    match i {
        Initialiser::One(_, e) => is_quiet(e),
        Initialiser::Text(_) => true,
        Initialiser::InBraces(_) => true,
        Initialiser::List(_) => true,
    }
}

fn are_simple(all: &[Initialiser]) -> bool {
    for n in 0..all.len() {
        if !is_simple_one(&all[n]) {
            return false;
        }
    }
    true
}

/// Tests whether the first value has no side effects, and so may be taken as a whole.
fn is_simple(i: &Initialiser) -> bool {
    match i {
        Initialiser::One(_, _) => true,
        Initialiser::Text(_) => true,
        Initialiser::InBraces(_) => true,
        Initialiser::List(all) => are_simple(all),
    }
}

/// Tests whether there is room for facts about this many further elements.
fn has_room(state: &AbsState) -> bool {
    match &state.objects {
        None => true,
        Some(known) => known.facts.len() < ROOM,
    }
}

fn row_length(lengths: &[u32]) -> Option<u32>
    ensures { IfSome result (λ n. lengths.now ≡ n ∷ []) }
{
    let Some((n, more)) = lengths.split_first() else {
        return None;
    };
    if more.is_empty() { Some(*n) } else { None }
}

/// The length of a short array of one row with such a first value, if that is analysed element by element.
pub fn short_row(
    scope: &Scope<'_>,
    state: &AbsState,
    lengths: &[u32],
    i: &Initialiser,
) -> Option<u32>
    ensures { IfSome result (λ n. lengths.now ≡ n ∷ []) }
{
    let Some(n) = row_length(lengths) else {
        return None;
    };
    let wanted = follows_elements(scope.memory) || !is_simple(i);
    if wanted && n <= FOLLOWED_ELEMENTS && suits(i) && has_room(state) {
        Some(n)
    } else {
        None
    }
}

// ---- all elements have values

fn whole_row(n: u32) -> Interval
    ensures low { result.low ≡ pos 0 }
    ensures high { result.high ≡ pos n -ℤ pos 1 }
{
    let high = i64::from(n) - 1;
    Interval { low: 0, high }
}

fn known_completed(scope: &Scope<'_>, known: Known, x: usize, n: u32) -> AbsState
    ensures { RowBecomes (frame_of scope.now) x n (Some (known_of known)) (state_of result) }
{
    let j = whole_row(n);
    let Some(k) = elements_read(&known.facts, x, j) else {
        return AbsState {
            objects: Some(known),
        };
    };
    let Some(_old) = value_in(&known.objects, x) else {
        return AbsState {
            objects: Some(known),
        };
    };
    let new = initialised(k);
    let objects = with_value(known.objects, x, new);
    AbsState {
        objects: Some(Known {
            objects,
            facts: known.facts,
        }),
    }
}

/// The state in which each element of object `x`, an array of `n`, has a value, if single facts show that.
pub fn completed(scope: &Scope<'_>, state: AbsState, x: usize, n: u32) -> AbsState
    ensures { RowBecomes (frame_of scope.now) x n (state_of state) (state_of result) }
{
    match state.objects {
        None => AbsState { objects: None },
        Some(known) => known_completed(scope, known, x, n),
    }
}
