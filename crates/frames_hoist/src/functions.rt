//! Functions whose constants are hoisted.

ghost use Rattle.std.specs.Prelude.{◌≡◌, ◌≤◌, ◌<◌, ◌+◌, ◌*◌, ◌/◌, length, sum_by, IfOk, IfSome};
ghost use Rattle.std.specs.Bool.{OnTrue};
ghost use Rattle.frames_code.specs.Code.{function_of};
ghost use Rattle.frames.specs.Costs.{code_bytes};
ghost use Rattle.frames_hoist.specs.layer.Functions.{HasPlaces, HasRoom, IsReady, IsPooled, IsHoistedFunction};
ghost use Rattle.frames_hoist.specs.layer.Functions as layer;

use crate::choosing::{has_loop, places_in, pool_of, start_of};
use crate::homes::Home;
use crate::leaves::{first_free, registers_left};
use crate::rewriting::{filled_by, hoisted};
use crate::tests::{all_fine, are_straight};
use frames_code::{Function, Instruction};
use frames_opt::size_of;
use std::alloc::{AllocError, Global};

/// The most constants that are hoisted in a function.
const MOST: usize = 4;

/// The bytes of a frame.
fn frame_with(outgoing: usize, cells: usize, area: usize) -> usize
    requires { (outgoing < 512) × (cells < 1024) × (area < 0x800) }
    ensures { result ≡ (4 * outgoing + 4 + 4 * cells + area + 4 + 15) / 16 * 16 }
{
    (4 * outgoing + 4 + 4 * cells + area + 4 + 15) / 16 * 16
}

/// How many words more the frame has room for: all words are in registers, of which there are 12.
fn room_in(function: &Function) -> usize {
    if function.area != 0 || function.outgoing >= 512 || function.cells > 12 {
        return 0;
    }
    let frame = frame_with(function.outgoing, function.cells, 0);
    let mut room = 0;
    for more in 1..MOST + 1 {
        let wider = function.cells + more;
        if wider <= 12 && frame_with(function.outgoing, wider, 0) == frame {
            room = more;
        }
    }
    room
}

/// Where constants may be held, and how many. Temporaries are better, since a word of the frame may get a register that has to be saved.
fn home_in(function: &Function) -> (Home, usize) {
    let first = first_free(&function.code);
    let left = registers_left(function, first);
    if left > 0 {
        (Home::Temporaries(first), left.min(MOST))
    } else {
        (Home::Words(function.cells), room_in(function))
    }
}

/// Whether so many places there are registers: of words in a frame without arrays, or of temporaries.
fn has_places(function: &Function, home: Home, most: usize) -> bool
    requires { most ≤ 4 }
    ensures { OnTrue result (HasPlaces (function_of function.now) home most) }
{
    match home {
        Home::Words(first) => {
            function.area == 0
                && first == function.cells
                && function.cells <= 12
                && function.cells + most <= 12
        }
        Home::Temporaries(first) => first <= 8 && first + most <= 8,
    }
}

/// How many words more a frame has where so many constants have places.
fn words_more(home: Home, most: usize) -> usize
    ensures value { result ≡ layer.words_more home most }
    ensures few { result ≤ most }
{
    match home {
        Home::Words(_) => most,
        Home::Temporaries(_) => 0,
    }
}

/// How many words live in registers, of a frame with so many words.
fn resident_in(home: Home, resident: usize, cells: usize) -> usize
    ensures { result ≡ layer.resident_in home resident cells }
{
    match home {
        Home::Words(_) => cells,
        Home::Temporaries(_) => resident,
    }
}

/// Whether a function may have so many constants there.
fn has_room(function: &Function, home: Home, most: usize) -> bool
    ensures { OnTrue result (HasRoom (function_of function.now) home most) }
{
    if function.area >= 0x800 || function.outgoing >= 512 || function.cells >= 512 || most > MOST {
        return false;
    }
    if !has_places(function, home, most) {
        return false;
    }
    let wider = function.cells + words_more(home, most);
    let frame = frame_with(function.outgoing, function.cells, function.area);
    frame < 0x800 && frame_with(function.outgoing, wider, function.area) == frame
}

/// Whether the first instructions, up to `start`, may put so many constants into their places.
fn is_ready(function: &Function, home: Home, most: usize, start: usize) -> bool
    ensures { OnTrue result (IsReady (function_of function.now) home most start) }
{
    let code = &function.code;
    if start > code.len() {
        return false;
    }
    let is_fine = all_fine(home, start, code);
    let is_straight = are_straight(start, code);
    let count = filled_by(most, start, code);
    is_fine && is_straight && count == most
}

/// Whether code is known to have no more bytes than other code, counted with their entries.
fn is_affordable(new: &[Instruction], old: &[Instruction]) -> bool
    ensures { OnTrue result (64 + sum_by code_bytes new.now ≤ 168 + sum_by code_bytes old.now) }
{
    let Some(first) = size_of(new) else {
        return false;
    };
    let Some(second) = size_of(old) else {
        return false;
    };
    first <= second || first - second <= 104
}

/// The function with the constants of the pool in these places, where it may have them there.
fn pooled(
    alloc: Global,
    function: &Function,
    home: Home,
    pool: &[u32],
    start: usize,
) -> Result<Option<Function>, AllocError>
    ensures { IfOk result (λ o. IfSome o (λ g. IsPooled (function_of function.now) (function_of g))) }
{
    if !has_room(function, home, pool.len()) || !is_ready(function, home, pool.len(), start) {
        return Ok(None);
    }
    let code = hoisted(alloc, home, pool, start, &function.code)?;
    if !is_affordable(&code, &function.code) {
        return Ok(None);
    }
    let cells = function.cells + words_more(home, pool.len());
    Ok(Some(Function {
        code,
        cells,
        resident: resident_in(home, function.resident, cells),
        area: function.area,
        outgoing: function.outgoing,
        gives: function.gives,
    }))
}

/// The function with the constants that its loops use most in words of its frame or in temporaries.
fn hoisted_function(alloc: Global, function: &Function) -> Result<Option<Function>, AllocError>
    ensures { IfOk result (λ o. IfSome o (λ g. IsPooled (function_of function.now) (function_of g))) }
{
    if !has_loop(&function.code) {
        return Ok(None);
    }
    let (home, room) = home_in(function);
    if room == 0 {
        return Ok(None);
    }
    let start = start_of(&function.code);
    let most = places_in(start, room, &function.code);
    let pool = pool_of(alloc, &function.code, most)?;
    if pool.is_empty() {
        return Ok(None);
    }
    pooled(alloc, function, home, &pool, start)
}

/// The function with the constants that its loops use most in words of its frame or in temporaries, put there at its beginning; as it was, where
/// none is.
///
/// No more than four constants are. Words of the frame hold them where it has room for them and stays as large; temporaries where the function
/// calls nothing and names none of these.
pub fn hoist_function(alloc: Global, function: Function) -> Result<Function, AllocError>
    ensures { IfOk result (λ g. IsHoistedFunction (function_of function) (function_of g)) }
{
    match hoisted_function(alloc, &function)? {
        Some(better) => Ok(better),
        None => Ok(function),
    }
}
