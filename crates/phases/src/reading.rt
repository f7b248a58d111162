//! Reading the logical text of a file, with no copy of it (ISO/IEC 9899:2011 5.1.1.2, phases 1 and 2).
ghost use Rattle.std.specs.Prelude.{◌≡◌, ◌+◌, ◌∷◌, [], false, true, drop, length, MatchOption, Some, None};
ghost use Rattle.phases.specs.Text.{trigraph, trigraph_at, is_return};
ghost use Rattle.phases.specs.inside.Plain.{is_plain};
ghost use Rattle.phases.specs.inside.Reading.{IsNoSplice, EndsSplice, Skips, IsPastSplices, text_at, MapsTo, IsStep};
ghost use Rattle.phases.specs.inside.Runs.{next_line, IsSureStep};

use crate::classes::is_sure;
use crate::cursor::{Cursor, Step};
use crate::runs::next_line;

#[tactic(auto, unfolding(crate::specs::Text::trigraph))]
fn trigraph(third: u8) -> Option<u8>
    ensures { result ≡ trigraph third }
{
    match third {
        b'=' => Some(b'#'),
        b'(' => Some(b'['),
        b'/' => Some(b'\\'),
        b')' => Some(b']'),
        b'\'' => Some(b'^'),
        b'<' => Some(b'{'),
        b'!' => Some(b'|'),
        b'>' => Some(b'}'),
        b'-' => Some(b'~'),
        _ => None,
    }
}

// The character that the trigraph beginning with `first` denotes, and the bytes after it.
pub(crate) fn trigraph_at<'a>(first: u8, rest: &'a [u8]) -> Option<(u8, &'a [u8])>
    ensures { MatchOption result (trigraph_at first rest.now ≡ None) (λ t. (trigraph_at first rest.now ≡ Some t.0) × (t.1.now ≡ drop 2 rest.now) × (length t.1.now + 2 ≡ length rest.now)) }
{
    let [b'?', third, after @ ..] = rest else {
        return None;
    };
    if first != b'?' {
        return None;
    }
    match trigraph(*third) {
        Some(byte) => Some((byte, after)),
        None => None,
    }
}

// The bytes after a line end of two bytes that begins with `first`.
pub(crate) fn after_return<'a>(first: u8, rest: &'a [u8]) -> Option<&'a [u8]>
    ensures { MatchOption result (is_return first rest.now ≡ false) (λ after. (is_return first rest.now ≡ true) × (after.now ≡ drop 1 rest.now) × (length after.now + 1 ≡ length rest.now)) }
{
    let [b'\n', after @ ..] = rest else {
        return None;
    };
    if first == b'\r' { Some(after) } else { None }
}

#[inline(always)]
pub(crate) fn is_plain(byte: u8) -> bool
    ensures { result ≡ is_plain byte }
{
    !(byte == b'?' || byte == b'\\' || byte == b'\r' || byte == b'\n')
}

// The place after the splice that begins with this character of phase 1.
pub(crate) fn after_splice<'a>(step: Step<'a>) -> Option<Cursor<'a>>
    ensures { MatchOption result (IsNoSplice step.entry) (EndsSplice step.entry) }
{
    if step.byte != b'\\' {
        return None;
    }
    let end = step.next.mapped()?;
    if end.byte == b'\n' {
        Some(end.next)
    } else {
        None
    }
}
