//! Numbers that may be past the last word, by their digits to the base 2^64, the lowest first.

ghost use Rattle.std.specs.Prelude.{◌≡◌, ◌+◌, ◌*◌, ◌^◌, ◌<◌, IfOk, IsTrue, OnOk, false};
ghost use Rattle.typing_spec.specs.Types.{elements_in};
ghost use Rattle.interp_store.specs.layer.Digits.{number_of};

use std::alloc::{AllocError, Global};

/// A digit times a number and one more number: the digit in its place, and what goes to the next place.
fn product(digit: usize, n: u32, more: usize) -> (usize, usize)
    ensures { result.0 + 2 ^ 64 * result.1 ≡ digit * n + more }
{
    let whole = digit as u128 * n as u128 + more as u128;
    ((whole % (1 << 64)) as usize, (whole / (1 << 64)) as usize)
}

/// A number becomes so many times as great.
///
/// Errors: memory ran out.
fn multiply(digits: &mut Vec<usize>, n: u32) -> Result<(), AllocError>
    ensures { OnOk result (number_of digits.new.items ≡ number_of digits.old.items * n) }
{
    let mut more: usize = 0;
    for k in 0..digits.len() {
        let (digit, next) = product(digits[k], n, more);
        digits[k] = digit;
        more = next;
    }
    digits.push(more)?;
    Ok(())
}

/// How many elements `count` rows of these lengths have.
///
/// Errors: memory ran out.
pub fn element_digits(
    alloc: Global,
    count: usize,
    lengths: &[u32],
) -> Result<Vec<usize>, AllocError>
    ensures { IfOk result (λ digits. number_of digits.items ≡ count * elements_in lengths.now) }
{
    let mut digits = match Vec::from_slice(alloc, &[count]) {
        Ok(digits) => digits,
        Err(e) => return Err(e),
    };
    for n in lengths {
        match multiply(&mut digits, *n) {
            Ok(()) => {}
            Err(e) => return Err(e),
        }
    }
    Ok(digits)
}

/// A number becomes one less, if it is not 0. Gives whether it did.
pub fn take_one(digits: &mut Vec<usize>) -> bool
    ensures taken { IsTrue result → number_of digits.old.items ≡ number_of digits.new.items + 1 }
    ensures none { result ≡ false → number_of digits.old.items ≡ 0 }
{
    for k in 0..digits.len() {
        if digits[k] > 0 {
            digits[k] -= 1;
            return true;
        }
        digits[k] = usize::MAX;
    }
    false
}
