//! The abstract value of an element, as sets ordered by inclusion.

ghost use Rattle.std.specs.Prelude.{◌≡◌, IsTrue, true, false};
ghost use Rattle.verify_logic.specs.States.{Entails};

use crate::intervals::{hull, lies_in, nothing};
use verify_logic::{AbsValue, Interval};

/// A value in the interval.
pub fn initialised(interval: Interval) -> AbsValue
    ensures { result ≡ record { initialised = true; interval = interval } }
{
    AbsValue {
        initialised: true,
        interval,
    }
}

/// No value.
pub fn uninitialised() -> AbsValue
    ensures { result.initialised ≡ false }
{
    AbsValue {
        initialised: false,
        interval: nothing(),
    }
}

/// The abstract value of an element that has one of these two.
pub fn either(a: AbsValue, b: AbsValue) -> AbsValue
    ensures first { Entails a result }
    ensures second { Entails b result }
{
    let initialised = a.initialised && b.initialised;
    let interval = hull(a.interval, b.interval);
    AbsValue {
        initialised,
        interval,
    }
}

/// Tests whether the first value implies the second.
pub fn entails(a: AbsValue, b: AbsValue) -> bool
    ensures { IsTrue result → Entails a b }
{
    let within = lies_in(a.interval, b.interval);
    within && (a.initialised || !b.initialised)
}
