//! The token lines of a file.
ghost use Rattle.std.specs.Prelude.{ℕ, List, ◌≡◌, ◌≤◌, ◌-◌, ◌+◌, ◌<◌, ◌^◌, Ok, Err, IfOk, IfErr, false, ◌⊎◌, length};
ghost use Rattle.srcset.specs.declared.refusal.Refusal.TheVariants.{Memory};
ghost use Rattle.srcset.specs.Files.{max_file_bytes};
ghost use Rattle.phases.specs.declared.token.Place.TheVariants.{Start};
ghost use Rattle.phases.specs.Text.{phase1, line_after, last_line, ends_open, ends_spliced};
ghost use Rattle.phases.specs.Lines.{found, lines_or_fault, scanned, AreComments};
ghost use Rattle.phases.specs.inside.Reading.{text_at};
ghost use Rattle.phases.specs.Scanned.{IsScanFault};
ghost use Rattle.phases.specs.Grammar.{IsLongest, IsWholeFront, IsOtherAlone};
ghost use Rattle.phases.specs.declared.token.Place.{Place};

use crate::cursor::{Cursor, Hopeless};
use crate::line_list::Lines;
use crate::scanner::Scanner;
use srcset::{Code, Fault, Names, Pos, Refusal};
use std::alloc::Global;

// The line after these bytes, which begin on line 1.
fn line_behind(bytes: &[u8]) -> u32
    requires { length bytes.now < 2 ^ 31 }
    ensures { result ≡ line_after 1 bytes.now }
{
    let mut line = 1;
    for byte in bytes {
        if *byte == b'\n' {
            line += 1;
        }
    }
    line
}

// The line of the last byte.
fn last_line(bytes: &[u8]) -> u32
    requires { length bytes.now < 2 ^ 31 }
    ensures { result ≡ last_line bytes.now }
{
    if bytes.is_empty() {
        return 1;
    }
    line_behind(&bytes[..bytes.len() - 1])
}

// Whether there are bytes and the last of them ends no line.
fn ends_open(bytes: &[u8]) -> bool
    ensures { result ≡ ends_open (phase1 0 1 bytes.now) }
{
    if bytes.is_empty() {
        return false;
    }
    !bytes.ends_with(b"\n")
}

// Whether the bytes end in a backslash, or the trigraph for one, and the end of a line.
fn ends_spliced(bytes: &[u8]) -> bool
    ensures { result ≡ ends_spliced (phase1 0 1 bytes.now) }
{
    let backslash = bytes.ends_with(b"\\\n");
    let backslash_return = bytes.ends_with(b"\\\r\n");
    let trigraph = bytes.ends_with(b"??/\n");
    let trigraph_return = bytes.ends_with(b"??/\r\n");
    backslash | (backslash_return | (trigraph | trigraph_return))
}

// The same knowledge, `count` characters further on.
pub(crate) fn behind(known: Hopeless, count: usize) -> Hopeless
    ensures single { result.single ≡ known.single - count }
    ensures double { result.double ≡ known.double - count }
{
    Hopeless {
        single: known.single.saturating_sub(count),
        double: known.double.saturating_sub(count),
    }
}

// The token lines of the text from here on.
fn token_lines<'a>(alloc: Global, start: Cursor<'a>, file: usize) -> Result<Lines<'a>, Refusal>
    ensures ok { IfOk result (λ lines. lines_or_fault (found file 0 Start false (text_at start.entry)) ≡ Ok lines) }
    ensures err { IfErr result (λ e. (e ≡ Memory) ⊎ (lines_or_fault (found file 0 Start false (text_at start.entry)) ≡ Err e)) }
{
    let mut scanner = Scanner::new(alloc, file, start.rest.len())?;
    let begun = scanner.put_quick(alloc, start)?;
    let mut at = begun.after.past_splices();
    let mut known = Hopeless {
        single: 0,
        double: 0,
    };
    while let Some(first) = at.read() {
        let hopeless = at.hopeless(first, known);
        let front = at.front(scanner.place, first, hopeless);
        scanner.put(alloc, at, first, front)?;
        let quick = scanner.put_quick(alloc, front.span.after)?;
        known = behind(behind(hopeless, front.span.count), quick.count);
        at = quick.after.past_splices();
    }
    scanner.end_file()
}

/// The token lines of a file, as `scan` returns them; an error names no file, and allocates nothing.
pub fn try_scan<'a>(alloc: Global, bytes: &'a [u8], file: usize) -> Result<Lines<'a>, Refusal>
    requires { length bytes.now ≤ max_file_bytes }
    ensures ok { IfOk result (λ lines. scanned file bytes.now ≡ Ok lines) }
    ensures err { IfErr result (λ e. (e ≡ Memory) ⊎ (scanned file bytes.now ≡ Err e)) }
{
    if ends_open(bytes) {
        let pos = Pos {
            file,
            line: last_line(bytes),
        };
        return Err(Refusal::At {
            code: Code::NoFinalNewline,
            pos,
        });
    }
    if ends_spliced(bytes) {
        let pos = Pos {
            file,
            line: last_line(bytes),
        };
        return Err(Refusal::At {
            code: Code::FinalSplice,
            pos,
        });
    }
    token_lines(
        alloc,
        Cursor {
            rest: bytes,
            line: 1,
        },
        file,
    )
}

/// The token lines of a file: translation phases 1 to 3 (ISO/IEC 9899:2011 5.1.1.2), for a file of at
/// most 1,048,576 bytes. `file` is the number of its name in `names`.
///
/// A line ends in a line feed, or in a carriage return and a line feed. Comments and white space are no
/// tokens; they show in the marks of the tokens after them. A line with no token is empty, not absent.
///
/// Fails with the lowest of these codes that applies, under the file's name:
/// 111 where the last line does not end, and 112 where the file ends in a splice, both at the last line;
/// 113 where a comment is not closed, at the line where it opens; 703 where a spelling is longer than
/// 4,095 bytes, at the line of the first such token. Fails with 801 where memory runs out.
///
/// Each token is the longest one that can begin where it does (6.4, clauses `longest`, `whole` and `other`). A
/// comment is `/*`, a body without `*/`, and `*/` (6.4.9, clause `comments`).
pub fn scan<'a>(
    alloc: Global,
    bytes: &'a [u8],
    file: usize,
    names: &Names,
) -> Result<Lines<'a>, Fault>
    requires { length bytes.now ≤ max_file_bytes }
    ensures ok { IfOk result (λ lines. scanned file bytes.now ≡ Ok lines) }
    ensures err { IfErr result (λ fault. IsScanFault fault names.now (scanned file bytes.now)) }
    ensures longest { (place : Place) (text : List ℕ) → IsLongest place text }
    ensures whole { (place : Place) (text : List ℕ) → IsWholeFront place text }
    ensures other { (place : Place) (text : List ℕ) → IsOtherAlone place text }
    ensures comments { (place : Place) (body rest : List ℕ) → AreComments place body rest }
{
    match try_scan(alloc, bytes, file) {
        Ok(lines) => Ok(lines),
        Err(refusal) => Err(refusal.to_fault(alloc, names)),
    }
}
