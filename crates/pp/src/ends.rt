//! Where the lines of a file end.
ghost use Rattle.std.specs.Prelude.{◌≡◌, ◌≤◌, length, drop, IfOk, IfErr};
ghost use Rattle.srcset.specs.declared.refusal.Refusal.TheVariants.{Memory};
ghost use Rattle.phases.specs.declared.token.Place.TheVariants.{Start};
ghost use Rattle.phases.specs.Text.{logical};
ghost use Rattle.phases.specs.LineEnds.{line_ends};
ghost use Rattle.pp.specs.Lines.{first_end};

use phases::end_lines;
use srcset::Refusal;
use std::alloc::Global;
use std::marker::Model;

/// The physical lines on which the token lines of a file end, counted when the first is requested.
#[derive(Drop)]
pub struct LineEnds<'a> {
    bytes: &'a [u8],
    ends: Option<Vec<u32>>,
}

impl<'a> Model for LineEnds<'a> {
    ghost use Rattle.std.specs.Prelude.{◌≡◌, ◌≤◌, ℕ, List, length, IfSome};
    ghost use Rattle.phases.specs.declared.token.Place.TheVariants.{Start};
    ghost use Rattle.phases.specs.Text.{logical};
    ghost use Rattle.phases.specs.LineEnds.{line_ends};

    ghost Value = { List ℕ };

    ghost view = { λ e. line_ends 0 Start (logical 1 e.bytes.now) };

    ghost invariant = { λ e. (length e.bytes.now ≤ 1048576) × IfSome e.ends (λ ends. ends.items ≡ line_ends 0 Start (logical 1 e.bytes.now)) };
}

// The line on which the token line with this number ends.
fn end_at(ends: &[u32], index: usize) -> u32
    ensures { result ≡ first_end (drop index ends.now) }
{
    match ends.get(index) {
        Some(end) => *end,
        None => 0,
    }
}

impl<'a> LineEnds<'a> {
    /// Of a file with these bytes.
    pub fn new(bytes: &'a [u8]) -> LineEnds<'a>
        requires { length bytes.now ≤ 1048576 }
        ensures { result ≡ line_ends 0 Start (logical 1 bytes.now) }
    {
        LineEnds { bytes, ends: None }
    }

    /// The line on which the token line with this number ends, both counted as in the file's `Lines`.
    pub fn end_of(&mut self, alloc: Global, index: usize) -> Result<u32, Refusal>
        ensures ok { IfOk result (λ end. end ≡ first_end (drop index self.old)) }
        ensures err { IfErr result (λ refusal. refusal ≡ Memory) }
        ensures same { self.new ≡ self.old }
    {
        if let Some(ends) = &self.ends {
            return Ok(end_at(ends, index));
        }
        let ends = end_lines(alloc, self.bytes)?;
        let end = end_at(&ends, index);
        self.ends = Some(ends);
        Ok(end)
    }
}
