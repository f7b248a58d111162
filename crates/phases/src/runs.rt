//! Runs of plain bytes, which need no test for trigraphs and splices.
ghost use Rattle.std.specs.Prelude.{◌≡◌, ◌≤◌, ◌<◌, ◌+◌, ◌^◌, drop, length};
ghost use Rattle.phases.specs.inside.Lexical.{word_len, number_more};
ghost use Rattle.phases.specs.inside.Runs.{next_line, is_ordinary, all_ordinary, ordinary_len, white_len, IsRun, IsWhiteRun};

use crate::classes::{is_white, is_word};
use crate::cursor::{Cursor, Span};
use crate::lexical::goes_on;
use crate::reading::is_plain;

/// The line after a sure byte on this line.
#[inline(always)]
pub(crate) fn next_line(byte: u8, line: u32) -> u32
    requires { line + 1 < 2 ^ 32 }
    ensures { result ≡ next_line byte line }
{
    if byte == b'\n' { line + 1 } else { line }
}

#[inline(always)]
fn is_ordinary(stop: u8, byte: u8) -> bool
    ensures { result ≡ is_ordinary stop byte }
{
    is_plain(byte) && !(byte == stop)
}

// How many bytes are tested in parallel.
const BLOCK: usize = 16;

// Whether all bytes are plain and not `stop`. Each is tested, so that the processor may test them in parallel.
#[inline(always)]
fn all_ordinary(bytes: &[u8], stop: u8) -> bool
    ensures { result ≡ all_ordinary stop bytes.now }
{
    let mut all = true;
    for byte in bytes {
        all = all & is_ordinary(stop, *byte);
    }
    all
}

// How many bytes from the first on are plain and not `stop`, one by one.
#[inline(always)]
fn ordinary_front(bytes: &[u8], stop: u8) -> usize
    ensures { result ≡ ordinary_len stop bytes.now }
{
    let mut count = 0;
    for byte in bytes {
        if !is_ordinary(stop, *byte) {
            return count;
        }
        count += 1;
    }
    count
}

// How many bytes from the first on are plain and not `stop`.
#[inline(always)]
pub(crate) fn ordinary_bytes(bytes: &[u8], stop: u8) -> usize
    ensures { result ≡ ordinary_len stop bytes.now }
{
    let size = bytes.len();
    let mut count = 0;
    while size - count >= BLOCK && all_ordinary(&bytes[count..count + BLOCK], stop) {
        count += BLOCK;
    }
    count + ordinary_front(&bytes[count..], stop)
}

// How many bytes from the first on are white space, one by one.
#[inline(always)]
fn white_front(bytes: &[u8]) -> usize
    ensures { result ≡ white_len bytes.now }
{
    let mut count = 0;
    for byte in bytes {
        if !is_white(*byte) {
            return count;
        }
        count += 1;
    }
    count
}

// The number of leading white-space bytes. Mostly it is one or none, and the processor cannot predict
// which: so no branch tests for it.
#[inline(always)]
pub(crate) fn white_bytes(bytes: &[u8]) -> usize
    ensures { result ≡ white_len bytes.now }
{
    let Some(first) = bytes.first() else {
        return 0;
    };
    let one = is_white(*first) as usize;
    if one < bytes.len() && is_white(bytes[one]) {
        return one + white_front(&bytes[one..]);
    }
    one
}

/// How many of the first bytes continue a word.
#[inline(always)]
pub(crate) fn word_bytes(bytes: &[u8]) -> usize
    ensures { result ≡ word_len bytes.now }
{
    let mut count = 0;
    for byte in bytes {
        if !is_word(*byte) {
            return count;
        }
        count += 1;
    }
    count
}

/// How many of the first bytes continue a preprocessing number after the byte `first`.
pub(crate) fn number_bytes(bytes: &[u8], first: u8) -> usize
    ensures { result ≡ number_more first bytes.now }
{
    let mut last = first;
    let mut count = 0;
    for byte in bytes {
        if !goes_on(last, *byte) {
            return count;
        }
        last = *byte;
        count += 1;
    }
    count
}
