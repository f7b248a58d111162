//! Places in a file, and the logical text at each.
ghost use Rattle.std.specs.Prelude.{◌+◌, ◌<◌, ◌^◌, length};

use crate::classes::{is_letter, is_single, is_sure, is_white, is_word};
use crate::lexical::{begins_number, closes, escapes_next, goes_on, is_digit, is_prefix};
use crate::pieces::{ends_comment, opens};
use crate::punctuators::{is_pair, is_quadruple, is_triple};
use crate::quick::{is_quote, may_go_on};
use crate::reading::{after_return, after_splice, trigraph_at};
use crate::runs::{next_line, number_bytes, ordinary_bytes, white_bytes, word_bytes};
use crate::token::{Kind, Piece, Place};
use std::alloc::{AllocError, Global};
use std::borrow::CowSlice;

/// A place in a file: the remaining bytes, and the line of the first of them.
#[derive(Clone, Copy)]
pub struct Cursor<'a> {
    pub(crate) rest: &'a [u8],
    pub(crate) line: u32,
    ghost room: { line + length rest.now < 2 ^ 32 },
}

/// The first character of a text, its line, and the place after it.
#[derive(Clone, Copy)]
pub struct Step<'a> {
    pub(crate) byte: u8,
    pub(crate) line: u32,
    pub(crate) next: Cursor<'a>,
}

/// A front of a text: the number of its characters, and the place after them.
#[derive(Clone, Copy)]
pub struct Span<'a> {
    pub(crate) count: usize,
    pub(crate) after: Cursor<'a>,
}

/// A token at the front of a text.
#[derive(Clone, Copy)]
pub struct Lexeme<'a> {
    pub(crate) kind: Kind,
    pub(crate) span: Span<'a>,
}

/// The piece at the front of a text.
#[derive(Clone, Copy)]
pub struct Front<'a> {
    pub(crate) piece: Piece,
    pub(crate) span: Span<'a>,
}

/// The rest of a comment, through its end or that of the text.
#[derive(Clone, Copy)]
pub struct Comment<'a> {
    pub(crate) closed: bool,
    pub(crate) span: Span<'a>,
}

/// How many characters from some place on contain no quote that opens a literal, since none of them is closed
/// on its line. Stored so that no line is searched repeatedly.
#[derive(Clone, Copy)]
pub struct Hopeless {
    pub(crate) single: usize,
    pub(crate) double: usize,
}

// ---- Reading characters

impl<'a> Cursor<'a> {
    ghost use Rattle.std.specs.Prelude.{◌≡◌, [], MatchOption};
    ghost use Rattle.phases.specs.inside.Reading.{Skips, IsPastSplices, text_at, MapsTo, IsStep};
    ghost use Rattle.phases.specs.inside.Runs.{IsSureStep};

    // The first character after phase 1.
    pub(crate) fn mapped(self) -> Option<Step<'a>>
        ensures { MatchOption result (self.entry.rest.now ≡ []) (MapsTo self.entry) }
    {
        let [first, rest @ ..] = self.rest else {
            return None;
        };
        let line = self.line;
        if let Some((byte, after)) = trigraph_at(*first, rest) {
            let next = Cursor { rest: after, line };
            return Some(Step { byte, line, next });
        }
        if let Some(after) = after_return(*first, rest) {
            let next = Cursor {
                rest: after,
                line: line + 1,
            };
            return Some(Step {
                byte: b'\n',
                line,
                next,
            });
        }
        let after = if *first == b'\n' { line + 1 } else { line };
        let next = Cursor { rest, line: after };
        Some(Step {
            byte: *first,
            line,
            next,
        })
    }

    /// The place after the splices here.
    pub(crate) fn past_splices(self) -> Cursor<'a>
        ensures skips { Skips self.entry result }
        ensures past { IsPastSplices result }
    {
        let mut at = self;
        while let Some(step) = at.mapped() {
            match after_splice(step) {
                Some(after) => at = after,
                None => return at,
            }
        }
        at
    }

    // The first character, where splices or trigraphs may precede it.
    fn read_slowly(self) -> Option<Step<'a>>
        ensures { MatchOption result (text_at self.entry ≡ []) (IsStep self.entry) }
    {
        self.past_splices().mapped()
    }

    /// The first character, where its byte alone determines it.
    #[inline(always)]
    pub(crate) fn read_sure(self) -> Option<Step<'a>>
        ensures { MatchOption result (Unit {0}) (IsSureStep self.entry) }
    {
        let [first, rest @ ..] = self.rest else {
            return None;
        };
        let byte = *first;
        if !is_sure(byte) {
            return None;
        }
        let line = self.line;
        let next = Cursor {
            rest,
            line: next_line(byte, line),
        };
        Some(Step { byte, line, next })
    }

    /// The first character, or `None` at the end of the text.
    #[inline(always)]
    pub(crate) fn read(self) -> Option<Step<'a>>
        ensures { MatchOption result (text_at self.entry ≡ []) (IsStep self.entry) }
    {
        if let Some(step) = self.read_sure() {
            return Some(step);
        }
        self.read_slowly()
    }
}

// ---- Runs of plain bytes

impl<'a> Cursor<'a> {
    ghost use Rattle.std.specs.Prelude.{◌≡◌, ◌≤◌, drop, length};
    ghost use Rattle.phases.specs.inside.Runs.{IsRun, IsWhiteRun};

    /// The place `count` bytes further on, on the same line.
    #[inline(always)]
    pub(crate) fn past(self, count: usize) -> Cursor<'a>
        requires { count ≤ length self.rest.now }
        ensures rest { result.rest.now ≡ drop count self.entry.rest.now }
        ensures line { result.line ≡ self.entry.line }
    {
        Cursor {
            rest: &self.rest[count..],
            line: self.line,
        }
    }

    /// The white space from here on.
    #[inline(always)]
    pub(crate) fn white(self) -> Span<'a>
        ensures { IsWhiteRun self.entry result }
    {
        let count = white_bytes(self.rest);
        Span {
            count,
            after: self.past(count),
        }
    }

    /// The plain bytes from here on up to `stop`.
    #[inline(always)]
    pub(crate) fn ordinary(self, stop: u8) -> Span<'a>
        ensures { IsRun self.entry stop result }
    {
        let count = ordinary_bytes(self.rest, stop);
        Span {
            count,
            after: self.past(count),
        }
    }
}

// ---- The fronts of a text that are tokens of one kind (ISO/IEC 9899:2011 6.4)

impl<'a> Cursor<'a> {
    ghost use Rattle.std.specs.Prelude.{◌≡◌, true, false, None, MatchOption};
    ghost use Rattle.phases.specs.inside.Lexical.{word_len, name_len, number_more, number_len, to_close, enclosed, character_prefix, character_len, string_prefix, string_len, header_len, begins_digit};
    ghost use Rattle.phases.specs.inside.Reading.{bytes_at, Spans};
    ghost use Rattle.phases.specs.inside.Along.{plus};
    ghost use Rattle.phases.specs.inside.Fronts.{IsFront, IsSomeFront, IsCloseFront, IsAhead};
    ghost use Rattle.phases.specs.inside.Closing.{unclosed_for};

    // The letters, digits and underscores from here on.
    fn word(self) -> Span<'a>
        ensures { IsFront self.entry (word_len (bytes_at self.entry)) result }
    {
        let mut count = 0;
        let mut at = self;
        while let Some(step) = at.read() {
            if !is_word(step.byte) {
                return Span { count, after: at };
            }
            count += 1;
            at = step.next;
        }
        Span { count, after: at }
    }

    // The rest of a preprocessing number after the byte `first`.
    fn number_tail(self, first: u8) -> Span<'a>
        ensures { IsFront self.entry (number_more first (bytes_at self.entry)) result }
    {
        let mut last = first;
        let mut count = 0;
        let mut at = self;
        while let Some(step) = at.read() {
            if !goes_on(last, step.byte) {
                return Span { count, after: at };
            }
            last = step.byte;
            count += 1;
            at = step.next;
        }
        Span { count, after: at }
    }

    // The characters through `close`, on this line. Where there are escapes, the character after a
    // backslash closes nothing.
    pub(crate) fn to_close(self, close: u8, escapes: bool) -> Option<Span<'a>>
        ensures { MatchOption result (to_close close escapes false (bytes_at self.entry) ≡ None) (IsCloseFront self.entry (to_close close escapes false (bytes_at self.entry))) }
    {
        let mut escaped = false;
        let mut count = 0;
        let mut at = self;
        while let Some(step) = at.read() {
            if step.byte == b'\n' {
                return None;
            }
            if closes(close, escaped, step.byte) {
                return Some(Span {
                    count: count + 1,
                    after: step.next,
                });
            }
            escaped = escapes_next(escapes, escaped, step.byte);
            let run = step.next.within_literal(close, escapes, escaped);
            count += 1 + run.count;
            at = run.after;
        }
        None
    }

    // The plain characters here that neither close, after a backslash or not, nor escape.
    #[inline(always)]
    fn within_literal(self, close: u8, escapes: bool, escaped: bool) -> Span<'a>
        ensures spans { Spans self.entry result.count result.after }
        ensures left { to_close close escapes escaped (bytes_at self.entry) ≡ plus result.count (to_close close escapes escaped (bytes_at result.after)) }
    {
        if escaped {
            return Span {
                count: 0,
                after: self,
            };
        }
        self.ordinary(close)
    }

    // An identifier.
    #[inline(always)]
    pub(crate) fn name(self) -> Option<Span<'a>>
        ensures { MatchOption result (name_len (bytes_at self.entry) ≡ 0) (IsSomeFront self.entry (name_len (bytes_at self.entry))) }
    {
        let Some(first) = self.read() else {
            return None;
        };
        if !is_letter(first.byte) {
            return None;
        }
        let tail = first.next.word();
        Some(Span {
            count: 1 + tail.count,
            after: tail.after,
        })
    }

    // Whether the first character is a digit.
    #[inline(always)]
    pub(crate) fn begins_digit(self) -> bool
        ensures { result ≡ begins_digit (bytes_at self.entry) }
    {
        match self.read() {
            Some(step) => is_digit(step.byte),
            None => false,
        }
    }

    // A preprocessing number.
    #[inline(always)]
    pub(crate) fn number(self) -> Option<Span<'a>>
        ensures { MatchOption result (number_len (bytes_at self.entry) ≡ 0) (IsSomeFront self.entry (number_len (bytes_at self.entry))) }
    {
        let Some(first) = self.read() else {
            return None;
        };
        if !begins_number(first) {
            return None;
        }
        let tail = first.next.number_tail(first.byte);
        Some(Span {
            count: 1 + tail.count,
            after: tail.after,
        })
    }

    // The text that `first` opens and `close` closes, if more than `least` characters follow `first`.
    #[inline(always)]
    fn enclosed(self, first: u8, close: u8, least: usize, escapes: bool) -> Option<Span<'a>>
        ensures { MatchOption result (enclosed first close least escapes (bytes_at self.entry) ≡ 0) (IsSomeFront self.entry (enclosed first close least escapes (bytes_at self.entry))) }
    {
        let Some(step) = self.read() else {
            return None;
        };
        if step.byte != first {
            return None;
        }
        let Some(tail) = step.next.to_close(close, escapes) else {
            return None;
        };
        if tail.count <= least {
            return None;
        }
        Some(Span {
            count: 1 + tail.count,
            after: tail.after,
        })
    }

    // The prefix that a character constant may have.
    #[inline(always)]
    fn character_prefix(self) -> Span<'a>
        ensures { IsFront self.entry (character_prefix (bytes_at self.entry)) result }
    {
        let Some(first) = self.read() else {
            return Span {
                count: 0,
                after: self,
            };
        };
        if is_prefix(first.byte) {
            return Span {
                count: 1,
                after: first.next,
            };
        }
        Span {
            count: 0,
            after: self,
        }
    }

    // A character constant.
    pub(crate) fn character(self, hopeless: usize) -> Option<Span<'a>>
        requires { unclosed_for 39 hopeless (bytes_at self) ≡ true }
        ensures { MatchOption result (character_len (bytes_at self.entry) ≡ 0) (IsSomeFront self.entry (character_len (bytes_at self.entry))) }
    {
        let prefix = self.character_prefix();
        if prefix.count < hopeless {
            return None;
        }
        let Some(tail) = prefix.after.enclosed(b'\'', b'\'', 1, true) else {
            return None;
        };
        Some(Span {
            count: prefix.count + tail.count,
            after: tail.after,
        })
    }

    // The next character and the place after it, or 0 and this place at the end.
    #[inline(always)]
    pub(crate) fn ahead(self) -> Step<'a>
        ensures { IsAhead self.entry result }
    {
        match self.read() {
            Some(step) => step,
            None => Step {
                byte: 0,
                line: self.line,
                next: self,
            },
        }
    }

    // The prefix that a string literal may have.
    #[inline(always)]
    fn string_prefix(self) -> Span<'a>
        ensures { IsFront self.entry (string_prefix (bytes_at self.entry)) result }
    {
        let Some(first) = self.read() else {
            return Span {
                count: 0,
                after: self,
            };
        };
        if !is_prefix(first.byte) {
            return Span {
                count: 0,
                after: self,
            };
        }
        let second = first.next.ahead();
        if first.byte == b'u' && second.byte == b'8' {
            return Span {
                count: 2,
                after: second.next,
            };
        }
        Span {
            count: 1,
            after: first.next,
        }
    }

    // A string literal.
    pub(crate) fn string(self, hopeless: usize) -> Option<Span<'a>>
        requires { unclosed_for 34 hopeless (bytes_at self) ≡ true }
        ensures { MatchOption result (string_len (bytes_at self.entry) ≡ 0) (IsSomeFront self.entry (string_len (bytes_at self.entry))) }
    {
        let prefix = self.string_prefix();
        if prefix.count < hopeless {
            return None;
        }
        let Some(tail) = prefix.after.enclosed(b'"', b'"', 0, true) else {
            return None;
        };
        Some(Span {
            count: prefix.count + tail.count,
            after: tail.after,
        })
    }

    // A header name.
    pub(crate) fn header(self) -> Option<Span<'a>>
        ensures { MatchOption result (header_len (bytes_at self.entry) ≡ 0) (IsSomeFront self.entry (header_len (bytes_at self.entry))) }
    {
        if self.ahead().byte == b'<' {
            self.enclosed(b'<', b'>', 1, false)
        } else {
            self.enclosed(b'"', b'"', 1, false)
        }
    }
}

// ---- Punctuators (6.4.6)

impl<'a> Cursor<'a> {
    ghost use Rattle.std.specs.Prelude.{◌≡◌, MatchOption};
    ghost use Rattle.phases.specs.inside.Lexical.{punctuator_len};
    ghost use Rattle.phases.specs.inside.Reading.{bytes_at};
    ghost use Rattle.phases.specs.inside.Fronts.{IsSomeFront};

    // A punctuator.
    pub(crate) fn punctuator(self) -> Option<Span<'a>>
        ensures { MatchOption result (punctuator_len (bytes_at self.entry) ≡ 0) (IsSomeFront self.entry (punctuator_len (bytes_at self.entry))) }
    {
        let first = self.ahead();
        let second = first.next.ahead();
        let third = second.next.ahead();
        let fourth = third.next.ahead();
        if is_quadruple(first.byte, second.byte, third.byte, fourth.byte) {
            return Some(Span {
                count: 4,
                after: fourth.next,
            });
        }
        if is_triple(first.byte, second.byte, third.byte) {
            return Some(Span {
                count: 3,
                after: third.next,
            });
        }
        if is_pair(first.byte, second.byte) {
            return Some(Span {
                count: 2,
                after: second.next,
            });
        }
        if is_single(first.byte) {
            return Some(Span {
                count: 1,
                after: first.next,
            });
        }
        None
    }
}

// ---- Tokens and gaps (5.1.1.2, phase 3)

impl<'a> Cursor<'a> {
    ghost use Rattle.std.specs.Prelude.{◌≡◌, true, false, drop};
    ghost use Rattle.phases.specs.inside.Lexical.{plain_token, header_or, header_len, token_front};
    ghost use Rattle.phases.specs.inside.Pieces.{line_len, comment_len, comment_piece, opens, front};
    ghost use Rattle.phases.specs.inside.Reading.{bytes_at, IsStep, Spans};
    ghost use Rattle.phases.specs.inside.Closing.{IsHopeless};
    ghost use Rattle.phases.specs.inside.Along.{longer};
    ghost use Rattle.phases.specs.inside.Fronts.{IsFront, IsCommentFront, IsLexeme, IsPiece};

    // The longest token here that is no header name.
    fn plain_token(self, first: Step<'a>, hopeless: Hopeless) -> Lexeme<'a>
        requires step { IsStep self first }
        requires hopeless { IsHopeless hopeless (bytes_at self) }
        ensures { IsLexeme self.entry (plain_token (bytes_at self.entry)) result }
    {
        if let Some(span) = self.character(hopeless.single) {
            return Lexeme {
                kind: Kind::CharacterConstant,
                span,
            };
        }
        if let Some(span) = self.string(hopeless.double) {
            return Lexeme {
                kind: Kind::StringLiteral,
                span,
            };
        }
        if let Some(span) = self.name() {
            return Lexeme {
                kind: Kind::Identifier,
                span,
            };
        }
        if let Some(span) = self.number() {
            return Lexeme {
                kind: Kind::Number,
                span,
            };
        }
        if let Some(span) = self.punctuator() {
            return Lexeme {
                kind: Kind::Punctuator,
                span,
            };
        }
        let span = Span {
            count: 1,
            after: first.next,
        };
        Lexeme {
            kind: Kind::Other,
            span,
        }
    }

    // The longest token here, where a header name may occur.
    fn header_or_token(self, first: Step<'a>, hopeless: Hopeless) -> Lexeme<'a>
        requires step { IsStep self first }
        requires hopeless { IsHopeless hopeless (bytes_at self) }
        ensures { IsLexeme self.entry (header_or (header_len (bytes_at self.entry)) (plain_token (bytes_at self.entry))) result }
    {
        let token = self.plain_token(first, hopeless);
        let Some(span) = self.header() else {
            return token;
        };
        if token.span.count <= span.count {
            return Lexeme {
                kind: Kind::HeaderName,
                span,
            };
        }
        token
    }

    // The longest token here.
    fn token(self, place: Place, first: Step<'a>, hopeless: Hopeless) -> Lexeme<'a>
        requires step { IsStep self first }
        requires hopeless { IsHopeless hopeless (bytes_at self) }
        ensures { IsLexeme self.entry (token_front place (bytes_at self.entry)) result }
    {
        match place {
            Place::Start => self.plain_token(first, hopeless),
            Place::AfterHash => self.plain_token(first, hopeless),
            Place::AfterInclude => self.header_or_token(first, hopeless),
            Place::Elsewhere => self.plain_token(first, hopeless),
        }
    }

    // The rest of this line.
    pub(crate) fn line(self) -> Span<'a>
        ensures { IsFront self.entry (line_len (bytes_at self.entry)) result }
    {
        let mut count = 0;
        let mut at = self;
        while let Some(step) = at.read() {
            if step.byte == b'\n' {
                return Span { count, after: at };
            }
            let run = step.next.ordinary(b'\n');
            count += 1 + run.count;
            at = run.after;
        }
        Span { count, after: at }
    }

    // The plain characters here that neither end a comment, after a `*` or not, nor may begin its end.
    #[inline(always)]
    fn within_comment(self, star: bool) -> Span<'a>
        ensures spans { Spans self.entry result.count result.after }
        ensures left { comment_len star (bytes_at self.entry) ≡ longer result.count (comment_len star (bytes_at result.after)) }
    {
        if star {
            return Span {
                count: 0,
                after: self,
            };
        }
        self.ordinary(b'*')
    }

    // The rest of a comment that is not ended by a line.
    fn comment(self) -> Comment<'a>
        ensures { IsCommentFront self.entry (comment_len false (bytes_at self.entry)) result }
    {
        let mut star = false;
        let mut count = 0;
        let mut at = self;
        while let Some(step) = at.read() {
            if ends_comment(star, step.byte) {
                let span = Span {
                    count: count + 1,
                    after: step.next,
                };
                return Comment { closed: true, span };
            }
            star = step.byte == b'*';
            let run = step.next.within_comment(star);
            count += 1 + run.count;
            at = run.after;
        }
        Comment {
            closed: false,
            span: Span { count, after: at },
        }
    }

    // The comment that begins with the slash `first` and the star after it.
    fn comment_front(self, first: Step<'a>) -> Front<'a>
        requires step { IsStep self first }
        requires opened { opens 42 first.byte (bytes_at first.next) ≡ true }
        ensures { IsPiece self.entry (comment_piece (comment_len false (drop 1 (bytes_at first.entry.next)))) result }
    {
        let second = first.next.ahead();
        let comment = second.next.comment();
        let count = 2 + comment.span.count;
        let span = Span {
            count,
            after: comment.span.after,
        };
        if comment.closed {
            return Front {
                piece: Piece::Gap,
                span,
            };
        }
        Front {
            piece: Piece::Unclosed,
            span,
        }
    }

    /// The piece here.
    pub(crate) fn front(self, place: Place, first: Step<'a>, hopeless: Hopeless) -> Front<'a>
        requires step { IsStep self first }
        requires hopeless { IsHopeless hopeless (bytes_at self) }
        ensures { IsPiece self.entry (front place first.entry.byte (bytes_at first.entry.next)) result }
    {
        if first.byte == b'\n' {
            return Front {
                piece: Piece::Newline,
                span: Span {
                    count: 1,
                    after: first.next,
                },
            };
        }
        if is_white(first.byte) {
            return Front {
                piece: Piece::Gap,
                span: Span {
                    count: 1,
                    after: first.next,
                },
            };
        }
        if opens(b'/', first) {
            let rest = first.next.line();
            let span = Span {
                count: 1 + rest.count,
                after: rest.after,
            };
            return Front {
                piece: Piece::Gap,
                span,
            };
        }
        if opens(b'*', first) {
            return self.comment_front(first);
        }
        let word = self.token(place, first, hopeless);
        Front {
            piece: Piece::Word(word.kind),
            span: word.span,
        }
    }
}

// ---- Pieces that are seen from the bytes alone: no trigraph, splice, literal or comment can be among them

impl<'a> Cursor<'a> {
    ghost use Rattle.std.specs.Prelude.{◌≡◌, true, MatchOption};
    ghost use Rattle.phases.specs.declared.token.Place.{Place};
    ghost use Rattle.phases.specs.declared.token.Place.TheVariants.{AfterInclude};
    ghost use Rattle.phases.specs.inside.Lexical.{is_letter, is_digit};
    ghost use Rattle.phases.specs.inside.Pieces.{front};
    ghost use Rattle.phases.specs.inside.Reading.{bytes_at, IsStep};
    ghost use Rattle.phases.specs.inside.Fronts.{IsPiece};

    // The identifier here.
    #[inline(always)]
    fn quick_name(self, first: Step<'a>) -> Option<Front<'a>>
        requires step { IsStep self first }
        requires letter { is_letter first.byte ≡ true }
        ensures { MatchOption result (Unit {0}) (λ x. (place : Place) → IsPiece self.entry (front place first.entry.byte (bytes_at first.entry.next)) x) }
    {
        let count = word_bytes(first.next.rest);
        let after = first.next.past(count);
        let end = after.read_sure()?;
        if is_quote(end.byte) {
            return None;
        }
        Some(Front {
            piece: Piece::Word(Kind::Identifier),
            span: Span {
                count: 1 + count,
                after,
            },
        })
    }

    // The preprocessing number here.
    #[inline(always)]
    fn quick_number(self, first: Step<'a>) -> Option<Front<'a>>
        requires step { IsStep self first }
        requires digit { is_digit first.byte ≡ true }
        ensures { MatchOption result (Unit {0}) (λ x. (place : Place) → IsPiece self.entry (front place first.entry.byte (bytes_at first.entry.next)) x) }
    {
        let count = number_bytes(first.next.rest, first.byte);
        let after = first.next.past(count);
        let _end = after.read_sure()?;
        Some(Front {
            piece: Piece::Word(Kind::Number),
            span: Span {
                count: 1 + count,
                after,
            },
        })
    }

    // The punctuator of one or two characters here, where no header name may occur.
    #[inline(always)]
    fn quick_punctuator(self, first: Step<'a>) -> Option<Front<'a>>
        requires step { IsStep self first }
        ensures { MatchOption result (Unit {0}) (λ x. (place : Place) → (place ≡ AfterInclude → ⊥) → IsPiece self.entry (front place first.entry.byte (bytes_at first.entry.next)) x) }
    {
        if !is_single(first.byte) {
            return None;
        }
        let second = first.next.read_sure()?;
        if may_go_on(first.byte, second.byte) {
            return None;
        }
        let piece = Piece::Word(Kind::Punctuator);
        if is_pair(first.byte, second.byte) {
            return Some(Front {
                piece,
                span: Span {
                    count: 2,
                    after: second.next,
                },
            });
        }
        Some(Front {
            piece,
            span: Span {
                count: 1,
                after: first.next,
            },
        })
    }

    // The token here.
    #[inline(always)]
    fn quick_token(self, place: Place, first: Step<'a>) -> Option<Front<'a>>
        requires step { IsStep self first }
        ensures { MatchOption result (Unit {0}) (IsPiece self.entry (front place first.entry.byte (bytes_at first.entry.next))) }
    {
        if is_letter(first.byte) {
            return self.quick_name(first);
        }
        if is_digit(first.byte) {
            return self.quick_number(first);
        }
        match place {
            Place::Start => self.quick_punctuator(first),
            Place::AfterHash => self.quick_punctuator(first),
            Place::AfterInclude => None,
            Place::Elsewhere => self.quick_punctuator(first),
        }
    }

    /// The piece here, where the raw bytes alone determine it.
    #[inline(always)]
    pub(crate) fn quick(self, place: Place, first: Step<'a>) -> Option<Front<'a>>
        requires step { IsStep self first }
        ensures { MatchOption result (Unit {0}) (IsPiece self.entry (front place first.entry.byte (bytes_at first.entry.next))) }
    {
        let span = Span {
            count: 1,
            after: first.next,
        };
        if is_white(first.byte) {
            return Some(Front {
                piece: Piece::Gap,
                span,
            });
        }
        if first.byte == b'\n' {
            return Some(Front {
                piece: Piece::Newline,
                span,
            });
        }
        self.quick_token(place, first)
    }
}

// ---- Quotes that are not closed on their line

impl<'a> Cursor<'a> {
    ghost use Rattle.std.specs.Prelude.{◌≡◌, true};
    ghost use Rattle.phases.specs.inside.Closing.{unclosed_for, IsHopeless};
    ghost use Rattle.phases.specs.inside.Reading.{bytes_at, IsStep};

    // How many characters from here on contain no such quote that is closed; `known` of them are known.
    #[inline(always)]
    fn hopeless_of(self, first: Step<'a>, quote: u8, known: usize) -> usize
        requires step { IsStep self first }
        requires known { unclosed_for quote known (bytes_at self) ≡ true }
        ensures { unclosed_for quote result (bytes_at self.entry) ≡ true }
    {
        if first.byte != quote || known > 0 {
            return known;
        }
        match first.next.to_close(quote, true) {
            Some(_) => known,
            None => 1 + first.next.line().count,
        }
    }

    /// Updates the knowledge about unclosed quotes after a look at the first character.
    #[inline(always)]
    pub(crate) fn hopeless(self, first: Step<'a>, known: Hopeless) -> Hopeless
        requires step { IsStep self first }
        requires known { IsHopeless known (bytes_at self) }
        ensures { IsHopeless result (bytes_at self.entry) }
    {
        let single = self.hopeless_of(first, b'\'', known.single);
        let double = self.hopeless_of(first, b'"', known.double);
        Hopeless { single, double }
    }
}

// ---- Spellings: lent from the bytes, or copied where something was rewritten

impl<'a> Cursor<'a> {
    ghost use Rattle.std.specs.Prelude.{◌≡◌, IfOk, take};
    ghost use Rattle.std.specs.Cow.{cow_slice_items};
    ghost use Rattle.phases.specs.inside.Reading.{bytes_at, Spans};

    // The first `count` characters, or all where there are fewer.
    fn copied(self, alloc: Global, count: usize) -> Result<Vec<u8>, AllocError>
        ensures { IfOk result (λ copy. copy.items ≡ take count (bytes_at self.entry)) }
    {
        let mut copy = Vec::new(alloc);
        let mut at = self;
        while copy.len() < count {
            let Some(step) = at.read() else {
                return Ok(copy);
            };
            copy.push(step.byte)?;
            at = step.next;
        }
        Ok(copy)
    }

    /// The spelling of a token that begins here. It is borrowed where each character takes one byte.
    #[inline(always)]
    pub(crate) fn spelled(
        self,
        alloc: Global,
        span: Span<'a>,
    ) -> Result<CowSlice<'a, u8>, AllocError>
        requires { Spans self span.count span.after }
        ensures { IfOk result (λ spelling. cow_slice_items spelling ≡ take span.entry.count (bytes_at self.entry)) }
    {
        let used = self.rest.len() - span.after.rest.len();
        if used == span.count {
            return Ok(CowSlice::Borrowed(&self.rest[..used]));
        }
        let copy = self.copied(alloc, span.count)?;
        Ok(CowSlice::Owned(copy))
    }
}
