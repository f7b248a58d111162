//! Parts of expressions that evaluate nothing.

ghost use Rattle.std.specs.Prelude.{◌≡◌};
ghost use Rattle.typed_ast.specs.View.{moment_of, place_of};
ghost use Rattle.csem.specs.Expressions.{position_of};
ghost use Rattle.verify_logic.specs.Places.{ConvertsOr, got, step_interval};

use ctypes::IntType;
use srcset::Pos;
use typed_ast::{Moment, Place};
use verify_intervals::{conversion, single};
use verify_logic::Interval;

/// The position of an element that is read.
pub fn position(a: &Place) -> Pos
    ensures { result ≡ position_of (place_of a.now) }
{
    match a {
        Place::Named(at, _) => *at,
        Place::Element(at, _, _) => *at,
    }
}

/// The value of `++` or `--` (6.5.2.4, 6.5.3.1).
pub fn value_stepped(moment: Moment, old: Interval, new: Interval) -> Interval
    ensures { result ≡ step_interval (moment_of moment) old new }
{
    match moment {
        Moment::After => old,
        Moment::Before => new,
    }
}

/// The value of `?:`, which is 0 if that is void (6.5.15).
pub fn choice_conversion(ty: Option<IntType>, i: Interval) -> Interval
    ensures { ConvertsOr ty i result }
{
    match ty {
        None => single(0),
        Some(t) => conversion(t, i),
    }
}

/// The values of `rv_getbyte`.
pub fn got_byte() -> Interval
    ensures { result ≡ got }
{
    Interval { low: -1, high: 255 }
}
