//! Token lines, one after another in one list.
ghost use Rattle.std.specs.Prelude.{◌≡◌, ◌≤◌, ◌==◌, [], ◌∷◌, ◌++◌, length, slice_get, IfOk, OnOk, option_map};
ghost use Rattle.std.specs.List.{flat_map};
ghost use Rattle.phases.specs.inside.Cut.{line_start};
ghost use Rattle.phases.specs.Lines.{before};

use crate::token::PpToken;
use std::alloc::{AllocError, Global};
use std::marker::Model;

/// The token lines of a file: each holds the tokens up to the next end of a line that lies in no comment. A line
/// with no token is empty, not absent. All tokens lie in one list, and each line adds one number to another list.
#[derive(Drop)]
pub struct Lines<'a> {
    // The tokens of all lines, in their order.
    tokens: Vec<PpToken<'a>>,
    // For each line, how many tokens there are up to its end.
    ends: Vec<usize>,
}

impl<'a> Model for Lines<'a> {
    ghost use Rattle.std.specs.Prelude.{List, length};
    ghost use Rattle.phases.specs.Token.{Token};
    ghost use Rattle.phases.specs.inside.Cut.{cut, Ascend};

    ghost Value = { List (List Token) };

    ghost view = { λ l. cut 0 l.ends.items l.tokens.items };

    ghost invariant = { λ l. Ascend 0 l.ends.items (length l.tokens.items) };
}

// Where the line with this number begins.
fn line_start(ends: &[usize], index: usize) -> usize
    requires { index ≤ length ends.now }
    ensures { result ≡ line_start 0 ends.now index }
{
    if index == 0 {
        return 0;
    }
    ends[index - 1]
}

impl<'a> Lines<'a> {
    /// How many lines there are.
    pub fn len(&self) -> usize
        ensures { result ≡ length self.now }
    {
        self.ends.len()
    }

    /// The tokens of the line with this number, counted from 0. `None` where there are not that many lines.
    pub fn get(&self, index: usize) -> Option<&[PpToken<'a>]>
        ensures { option_map (λ line. line.now) result ≡ slice_get self.now index }
    {
        let end = *self.ends.get(index)?;
        let start = line_start(&self.ends, index);
        self.tokens.get(start..end)
    }

    /// The tokens of all lines, in their order.
    pub fn tokens(&self) -> &[PpToken<'a>]
        ensures { result.now ≡ flat_map (λ line. line) self.now }
    {
        self.tokens.as_slice()
    }

    /// The tokens of all lines, in their order.
    pub fn into_tokens(self) -> Vec<PpToken<'a>>
        ensures { result.items ≡ flat_map (λ line. line) self.entry }
    {
        self.tokens
    }
}

/// Token lines under construction.
#[derive(Drop)]
pub struct LineBuilder<'a> {
    tokens: Vec<PpToken<'a>>,
    ends: Vec<usize>,
    // The number of tokens in ended lines.
    start: usize,
}

impl<'a> Model for LineBuilder<'a> {
    ghost use Rattle.std.specs.Prelude.{◌≤◌, length, drop};
    ghost use Rattle.phases.specs.inside.Cut.{cut, Ascend, Begun};

    ghost Value = { Begun };

    ghost view = { λ b. record { lines = cut 0 b.ends.items b.tokens.items; line = drop b.start b.tokens.items } };

    ghost invariant = { λ b. (b.start ≤ length b.tokens.items) × Ascend 0 b.ends.items b.start };
}

impl<'a> LineBuilder<'a> {
    /// No line, and room for `room` tokens.
    pub(crate) fn new(alloc: Global, room: usize) -> Result<LineBuilder<'a>, AllocError>
        ensures ok { IfOk result (λ builder. builder ≡ record { lines = []; line = [] }) }
    {
        let mut tokens = Vec::new(alloc);
        tokens.reserve_exact(room)?;
        Ok(LineBuilder {
            tokens,
            ends: Vec::new(alloc),
            start: 0,
        })
    }

    /// Appends a token to the line.
    #[inline(always)]
    pub(crate) fn push(&mut self, token: PpToken<'a>) -> Result<(), AllocError>
        ensures ok { OnOk result (self.new ≡ record { lines = self.old.lines; line = self.old.line ++ token.entry ∷ [] }) }
    {
        self.tokens.push(token)?;
        Ok(())
    }

    /// Ends the line.
    #[inline(always)]
    pub(crate) fn end_line(&mut self) -> Result<(), AllocError>
        ensures ok { OnOk result (self.new ≡ record { lines = self.old.lines ++ self.old.line ∷ []; line = [] }) }
    {
        let end = self.tokens.len();
        self.ends.push(end)?;
        self.start = end;
        Ok(())
    }

    // Whether the line has no token.
    fn is_line_empty(&self) -> bool
        ensures { result ≡ (length self.now.line == 0) }
    {
        self.start == self.tokens.len()
    }

    // Ends the last line, where it has tokens.
    fn end_last_line(&mut self) -> Result<(), AllocError>
        ensures ok { OnOk result (self.new ≡ record { lines = self.old.lines ++ before self.old.line []; line = [] }) }
    {
        if self.is_line_empty() {
            return Ok(());
        }
        self.end_line()
    }

    // The lines, all of which are ended.
    fn into_lines(self) -> Lines<'a>
        requires { self.line ≡ [] }
        ensures { result ≡ self.entry.lines }
    {
        Lines {
            tokens: self.tokens,
            ends: self.ends,
        }
    }

    /// The lines. The line that is not ended is the last of them, where it has tokens.
    pub(crate) fn finish(mut self) -> Result<Lines<'a>, AllocError>
        ensures ok { IfOk result (λ lines. lines ≡ self.entry.lines ++ before self.entry.line []) }
    {
        self.end_last_line()?;
        Ok(self.into_lines())
    }
}
