//! Scanning a file piece by piece.
ghost use Rattle.std.specs.Prelude.{◌≡◌, ◌⊎◌, Ok, Err, IfOk, IfErr, OnOk, Some, take};
ghost use Rattle.srcset.specs.declared.refusal.Refusal.TheVariants.{Memory};
ghost use Rattle.phases.specs.Lines.{after_first, after_hash, next_place, lines_or_fault, nothing};
ghost use Rattle.phases.specs.inside.Reading.{bytes_at, Spans};
ghost use Rattle.phases.specs.inside.Scanning.{Puts, IsNew, EndsLine, AddsWord, PassesWhite, or_later, whole, Goes};

use crate::cursor::{Cursor, Front, Span, Step};
use crate::line_list::{LineBuilder, Lines};
use crate::scanner::Scanner;
use crate::token::{Kind, Piece, Place, PpToken};
use srcset::{Code, Pos, Refusal};
use std::alloc::Global;

/// The greatest number of bytes in the spelling of a token.
pub const MAX_SPELLING_BYTES: usize = 4095;

// The initial capacity is one token for this many bytes of the file. A file with more tokens allocates more.
const BYTES_PER_TOKEN: usize = 4;

// The place of the token after this one.
#[inline(always)]
pub(crate) fn next_place(place: Place, spelling: &[u8]) -> Place
    ensures { result ≡ next_place place spelling.now }
{
    match place {
        Place::Start => after_first(spelling),
        Place::AfterHash => after_hash(spelling),
        Place::AfterInclude => Place::Elsewhere,
        Place::Elsewhere => Place::Elsewhere,
    }
}

// The place of the second token of a line.
fn after_first(spelling: &[u8]) -> Place
    ensures { result ≡ after_first spelling.now }
{
    if spelling == b"#".as_slice() || spelling == b"%:".as_slice() {
        return Place::AfterHash;
    }
    Place::Elsewhere
}

// The place of the token after a `#` and this one.
fn after_hash(spelling: &[u8]) -> Place
    ensures { result ≡ after_hash spelling.now }
{
    if spelling == b"include".as_slice() {
        return Place::AfterInclude;
    }
    Place::Elsewhere
}

// The first of two places.
fn or_later(first: Option<Pos>, later: Pos) -> Option<Pos>
    ensures { result ≡ or_later first (Some later) }
{
    match first {
        Some(pos) => Some(pos),
        None => Some(later),
    }
}

impl<'a> Scanner<'a> {
    /// A scanner of a file of `size` bytes, of which nothing is scanned yet.
    pub(crate) fn new(alloc: Global, file: usize, size: usize) -> Result<Scanner<'a>, Refusal>
        ensures ok { IfOk result (IsNew file) }
        ensures err { IfErr result (λ e. e ≡ Memory) }
    {
        let list = LineBuilder::new(alloc, size / BYTES_PER_TOKEN)?;
        Ok(Scanner {
            file,
            list,
            place: Place::Start,
            space: false,
            overlong: None,
            unclosed: None,
        })
    }

    #[inline(always)]
    fn take_newline(&mut self) -> Result<(), Refusal>
        ensures ok { OnOk result (EndsLine self.old self.new) }
        ensures err { IfErr result (λ e. e ≡ Memory) }
    {
        self.list.end_line()?;
        self.place = Place::Start;
        self.space = false;
        Ok(())
    }

    // Adds a token that begins at this place, on this line.
    #[inline(always)]
    fn add_word(
        &mut self,
        alloc: Global,
        at: Cursor<'a>,
        line: u32,
        kind: Kind,
        span: Span<'a>,
    ) -> Result<(), Refusal>
        requires { Spans at span.count span.after }
        ensures ok { OnOk result (AddsWord self.old self.new kind (take span.entry.count (bytes_at at.entry)) line) }
        ensures err { IfErr result (λ e. e ≡ Memory) }
    {
        let spelling = at.spelled(alloc, span)?;
        let pos = Pos {
            file: self.file,
            line,
        };
        if span.count > MAX_SPELLING_BYTES {
            self.overlong = or_later(self.overlong, pos);
        }
        self.place = next_place(self.place, spelling.as_slice());
        let token = PpToken::new(kind, spelling, self.space, pos)?;
        self.space = false;
        self.list.push(token)?;
        Ok(())
    }

    /// Adds the piece at this place.
    #[inline(always)]
    pub(crate) fn put(
        &mut self,
        alloc: Global,
        at: Cursor<'a>,
        first: Step<'a>,
        front: Front<'a>,
    ) -> Result<(), Refusal>
        requires { Spans at front.span.count front.span.after }
        ensures ok { OnOk result (Puts self.old self.new at.entry first.entry front.entry) }
        ensures err { IfErr result (λ e. e ≡ Memory) }
    {
        match front.piece {
            Piece::Newline => self.take_newline(),
            Piece::Gap => {
                self.space = true;
                Ok(())
            }
            Piece::Unclosed => {
                let pos = Pos {
                    file: self.file,
                    line: first.line,
                };
                self.unclosed = or_later(self.unclosed, pos);
                self.space = true;
                Ok(())
            }
            Piece::Word(kind) => self.add_word(alloc, at, first.line, kind, front.span),
        }
    }

    // Passes `count` characters of white space.
    #[inline(always)]
    fn pass_white(&mut self, count: usize)
        ensures { PassesWhite self.old self.new count }
    {
        self.space = self.space || count > 0;
    }

    /// Adds the pieces from here on, each with the white space after it, as long as the raw bytes alone determine them.
    #[inline(always)]
    pub(crate) fn put_quick(
        &mut self,
        alloc: Global,
        start: Cursor<'a>,
    ) -> Result<Span<'a>, Refusal>
        ensures ok { IfOk result (Goes self.old self.new start.entry) }
        ensures err { IfErr result (λ e. e ≡ Memory) }
    {
        let mut count = 0;
        let mut at = start;
        while let Some(first) = at.read_sure() {
            let Some(front) = at.quick(self.place, first) else {
                return Ok(Span { count, after: at });
            };
            self.put(alloc, at, first, front)?;
            let white = front.span.after.white();
            self.pass_white(white.count);
            count += front.span.count;
            count += white.count;
            at = white.after;
        }
        Ok(Span { count, after: at })
    }

    /// The lines of a file that is all scanned, or the fault of a comment or a token.
    pub(crate) fn end_file(self) -> Result<Lines<'a>, Refusal>
        ensures ok { IfOk result (λ lines. lines_or_fault (whole self.entry nothing) ≡ Ok lines) }
        ensures err { IfErr result (λ e. (e ≡ Memory) ⊎ (lines_or_fault (whole self.entry nothing) ≡ Err e)) }
    {
        if let Some(pos) = self.unclosed {
            return Err(Refusal::At {
                code: Code::OpenComment,
                pos,
            });
        }
        if let Some(pos) = self.overlong {
            return Err(Refusal::At {
                code: Code::TokenLengthLimit,
                pos,
            });
        }
        let lines = self.list.finish()?;
        Ok(lines)
    }
}
