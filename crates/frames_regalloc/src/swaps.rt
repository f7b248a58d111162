//! Words that change places.

ghost use Rattle.std.specs.Prelude.{◌≡◌};
ghost use Rattle.frames_regalloc.specs.inside.Pairs as words;

/// Two words of a frame, each of which gets the other's number.
#[derive(Clone, Copy, Debug)]
pub struct Swap {
    pub first: usize,
    pub second: usize,
}

fn swapped(swap: Swap, number: usize) -> usize
    ensures { result ≡ words.swapped swap number }
{
    if number == swap.first {
        swap.second
    } else if number == swap.second {
        swap.first
    } else {
        number
    }
}

/// The number of a word once these have changed places, one pair after the other.
pub fn through(swaps: &[Swap], word: usize) -> usize
    ensures { result ≡ words.through swaps.now word }
{
    let mut number = word;
    for swap in swaps {
        number = swapped(*swap, number);
    }
    number
}
