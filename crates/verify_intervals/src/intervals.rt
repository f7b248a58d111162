//! Intervals as sets ordered by inclusion, and checked arithmetic on their bounds.

ghost use Rattle.std.specs.Prelude.{◌≡◌, ◌≤ℤ◌, ◌<ℤ◌, ◌+◌, ◌+ℤ◌, ◌-ℤ◌, ◌*ℤ◌, ◌⊎◌, int_div, pos, IfSome, IsTrue};
ghost use Rattle.verify_logic.specs.States.{Below, just};

use verify_logic::Interval;

/// The lesser of two numbers.
pub fn lesser(a: i64, b: i64) -> i64
    ensures first { result ≤ℤ a }
    ensures second { result ≤ℤ b }
{
    if a < b { a } else { b }
}

/// The greater of two numbers.
pub fn greater(a: i64, b: i64) -> i64
    ensures first { a ≤ℤ result }
    ensures second { b ≤ℤ result }
{
    if a < b { b } else { a }
}

/// An interval that holds both.
pub fn hull(i: Interval, j: Interval) -> Interval
    ensures first { Below i result }
    ensures second { Below j result }
{
    let low = lesser(i.low, j.low);
    let high = greater(i.high, j.high);
    Interval { low, high }
}

/// Tests whether the one lies in the other.
pub fn lies_in(i: Interval, j: Interval) -> bool
    ensures { IsTrue result → Below i j }
{
    j.low <= i.low && i.high <= j.high
}

/// The interval of one number.
pub fn single(v: i64) -> Interval
    ensures { result ≡ just v }
{
    Interval { low: v, high: v }
}

/// The interval without a number, whose hull with another is the other.
pub fn nothing() -> Interval {
    Interval {
        low: i64::MAX,
        high: i64::MIN,
    }
}

/// Tests whether no number lies in the interval.
pub fn is_empty(i: Interval) -> bool
    ensures { IsTrue result → i.high <ℤ i.low }
{
    i.high < i.low
}

/// Tests whether 0 alone lies in the interval.
pub fn is_zero(i: Interval) -> bool
    ensures { IsTrue result → (i.low ≡ pos 0) × (i.high ≡ pos 0) }
{
    i.low == 0 && i.high == 0
}

/// Tests whether 0 lies outside the interval.
pub fn is_nonzero(i: Interval) -> bool
    ensures { IsTrue result → (pos 0 <ℤ i.low) ⊎ (i.high <ℤ pos 0) }
{
    0 < i.low || i.high < 0
}

/// The sum, where it fits.
pub fn add(a: i64, b: i64) -> Option<i64>
    ensures { IfSome result (λ r. r ≡ a +ℤ b) }
{
    a.checked_add(b)
}

/// The difference, where it fits.
pub fn subtract(a: i64, b: i64) -> Option<i64>
    ensures { IfSome result (λ r. r ≡ a -ℤ b) }
{
    a.checked_sub(b)
}

/// The product, where it fits.
pub fn multiply(a: i64, b: i64) -> Option<i64>
    ensures { IfSome result (λ r. r ≡ a *ℤ b) }
{
    a.checked_mul(b)
}

/// The quotient by a number above zero, cut towards zero.
pub fn divide(a: i64, b: i64) -> i64
    requires { pos 0 <ℤ b }
    ensures { result ≡ int_div a b }
{
    a / b
}

/// The quotients of both bounds.
pub fn divided_by(i: Interval, d: i64) -> Interval
    requires { pos 0 <ℤ d }
    ensures low { result.low ≡ int_div i.low d }
    ensures high { result.high ≡ int_div i.high d }
{
    let low = divide(i.low, d);
    let high = divide(i.high, d);
    Interval { low, high }
}

/// From 0 to the product, where it fits.
pub fn up_to_product(a: i64, b: i64) -> Option<Interval>
    ensures low { IfSome result (λ k. k.low ≡ pos 0) }
    ensures high { IfSome result (λ k. k.high ≡ a *ℤ b) }
{
    let Some(high) = multiply(a, b) else {
        return None;
    };
    Some(Interval { low: 0, high })
}

/// The product below and above 0, where it fits.
pub fn around_product(a: i64, b: i64) -> Option<Interval>
    ensures low { IfSome result (λ k. k.low ≡ pos 0 -ℤ (a *ℤ b)) }
    ensures high { IfSome result (λ k. k.high ≡ a *ℤ b) }
{
    let Some(high) = multiply(a, b) else {
        return None;
    };
    let Some(low) = subtract(0, high) else {
        return None;
    };
    Some(Interval { low, high })
}

/// The greatest magnitude of the numbers in the interval, where it fits.
pub fn greatest_magnitude(i: Interval) -> Option<i64>
    ensures { IfSome result (λ m. Below i (record { low = pos 0 -ℤ m; high = m })) }
{
    let Some(opposite) = subtract(0, i.low) else {
        return None;
    };
    let m = greater(opposite, i.high);
    Some(m)
}

/// An interval that holds 0, too.
pub fn with_zero(i: Interval) -> Interval
    ensures all { Below i result }
    ensures low { result.low ≤ℤ pos 0 }
    ensures high { pos 0 ≤ℤ result.high }
{
    let low = lesser(i.low, 0);
    let high = greater(i.high, 0);
    Interval { low, high }
}

/// The numbers of the opposite signs, where they fit.
pub fn opposite(i: Interval) -> Option<Interval>
    ensures low { IfSome result (λ k. k.low ≡ pos 0 -ℤ i.high) }
    ensures high { IfSome result (λ k. k.high ≡ pos 0 -ℤ i.low) }
{
    let Some(low) = subtract(0, i.high) else {
        return None;
    };
    let Some(high) = subtract(0, i.low) else {
        return None;
    };
    Some(Interval { low, high })
}

/// The sum of two sizes, where it fits.
pub fn add_usize(a: usize, b: usize) -> Option<usize>
    ensures { IfSome result (λ r. r ≡ a + b) }
{
    a.checked_add(b)
}
