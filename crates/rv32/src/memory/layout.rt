//! Whether segments share an address.

ghost use Rattle.std.specs.Prelude.{◌≡◌};
ghost use Rattle.rv32.specs.Space as space;

use super::Segment;

fn apart(a: &Segment, b: &Segment) -> bool
    ensures { result ≡ space.apart a.now b.now }
{
    a.start as usize + a.bytes.len() <= b.start as usize
        || b.start as usize + b.bytes.len() <= a.start as usize
}

fn apart_from_all(first: &Segment, rest: &[Segment]) -> bool
    ensures { result ≡ space.apart_from_all first.now rest.now }
{
    match rest {
        [] => true,
        [second, rest @ ..] => apart(first, second) && apart_from_all(first, rest),
    }
}

/// Whether no two of the segments share an address.
pub fn is_laid_out(segments: &[Segment]) -> bool
    ensures { result ≡ space.is_laid_out segments.now }
{
    match segments {
        [] => true,
        [first, rest @ ..] => apart_from_all(first, rest) && is_laid_out(rest),
    }
}
