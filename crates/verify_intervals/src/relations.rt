//! Relations of two numbers, and the bounds that they imply for the intervals of these numbers.

ghost use Rattle.std.specs.Prelude.{IfSome, IsTrue};
ghost use Rattle.verify_logic.specs.Relations.{Avoids, CutsAbove, CutsBelow, Narrows, Tells};
ghost use Rattle.verify_intervals.specs.Decided.{Never, Refutes};

use crate::intervals::{add, is_empty, subtract};
use ctypes::BinOp;
use verify_logic::{Interval, Relation};

/// A relation of the first to the second, or of the second to the first.
#[derive(Clone, Copy, PartialEq, Eq, Debug)]
pub struct Told {
    pub swapped: bool,
    pub relation: Relation,
}

fn told_less(truth: bool) -> Option<Told>
    ensures { IfSome result (λ r. Tells BinOp.Less truth r.swapped r.relation) }
{
    if truth {
        Some(Told {
            swapped: false,
            relation: Relation::Less,
        })
    } else {
        Some(Told {
            swapped: true,
            relation: Relation::AtMost,
        })
    }
}

fn told_greater(truth: bool) -> Option<Told>
    ensures { IfSome result (λ r. Tells BinOp.Greater truth r.swapped r.relation) }
{
    if truth {
        Some(Told {
            swapped: true,
            relation: Relation::Less,
        })
    } else {
        Some(Told {
            swapped: false,
            relation: Relation::AtMost,
        })
    }
}

fn told_at_most(truth: bool) -> Option<Told>
    ensures { IfSome result (λ r. Tells BinOp.LessEqual truth r.swapped r.relation) }
{
    if truth {
        Some(Told {
            swapped: false,
            relation: Relation::AtMost,
        })
    } else {
        Some(Told {
            swapped: true,
            relation: Relation::Less,
        })
    }
}

fn told_at_least(truth: bool) -> Option<Told>
    ensures { IfSome result (λ r. Tells BinOp.GreaterEqual truth r.swapped r.relation) }
{
    if truth {
        Some(Told {
            swapped: true,
            relation: Relation::AtMost,
        })
    } else {
        Some(Told {
            swapped: false,
            relation: Relation::Less,
        })
    }
}

fn told_equal(truth: bool) -> Option<Told>
    ensures { IfSome result (λ r. Tells BinOp.Equal truth r.swapped r.relation) }
{
    if truth {
        Some(Told {
            swapped: false,
            relation: Relation::Same,
        })
    } else {
        Some(Told {
            swapped: false,
            relation: Relation::Other,
        })
    }
}

fn told_unequal(truth: bool) -> Option<Told>
    ensures { IfSome result (λ r. Tells BinOp.NotEqual truth r.swapped r.relation) }
{
    if truth {
        Some(Told {
            swapped: false,
            relation: Relation::Other,
        })
    } else {
        Some(Told {
            swapped: false,
            relation: Relation::Same,
        })
    }
}

/// The relation that an operator's truth value implies.
pub fn tell(op: BinOp, truth: bool) -> Option<Told>
    ensures { IfSome result (λ r. Tells op truth r.swapped r.relation) }
{
    match op {
        BinOp::Less => told_less(truth),
        BinOp::Greater => told_greater(truth),
        BinOp::LessEqual => told_at_most(truth),
        BinOp::GreaterEqual => told_at_least(truth),
        BinOp::Equal => told_equal(truth),
        BinOp::NotEqual => told_unequal(truth),
        BinOp::Mul
        | BinOp::Div
        | BinOp::Rem
        | BinOp::Add
        | BinOp::Sub
        | BinOp::Shl
        | BinOp::Shr
        | BinOp::BitAnd
        | BinOp::BitXor
        | BinOp::BitOr => None,
    }
}

/// Two intervals.
#[derive(Clone, Copy, PartialEq, Eq, Debug)]
pub struct Pair {
    pub left: Interval,
    pub right: Interval,
}

/// The part of an interval that does not lie above.
pub fn cut_above(i: Interval, top: i64) -> Interval
    ensures { CutsAbove i top result }
{
    if top < i.high {
        Interval {
            low: i.low,
            high: top,
        }
    } else {
        i
    }
}

/// The part of an interval that does not lie below.
pub fn cut_below(i: Interval, bottom: i64) -> Interval
    ensures { CutsBelow i bottom result }
{
    if i.low < bottom {
        Interval {
            low: bottom,
            high: i.high,
        }
    } else {
        i
    }
}

fn less(i: Interval, j: Interval) -> Pair
    ensures { Narrows Relation.Less i j result.left result.right }
{
    let Some(top) = subtract(j.high, 1) else {
        return Pair { left: i, right: j };
    };
    let Some(bottom) = add(i.low, 1) else {
        return Pair { left: i, right: j };
    };
    let left = cut_above(i, top);
    let right = cut_below(j, bottom);
    Pair { left, right }
}

fn at_most(i: Interval, j: Interval) -> Pair
    ensures { Narrows Relation.AtMost i j result.left result.right }
{
    let left = cut_above(i, j.high);
    let right = cut_below(j, i.low);
    Pair { left, right }
}

fn same(i: Interval, j: Interval) -> Pair
    ensures { Narrows Relation.Same i j result.left result.right }
{
    let left_above = cut_below(i, j.low);
    let left = cut_above(left_above, j.high);
    let right_above = cut_below(j, i.low);
    let right = cut_above(right_above, i.high);
    Pair { left, right }
}

/// The numbers of `i` other than the only one of `j`.
#[tactic(auto, using(verify_logic::proofs::Compares::avoids_low, verify_logic::proofs::Compares::avoids_high, verify_logic::proofs::Compares::avoids_same))]
fn without(i: Interval, j: Interval) -> Interval
    ensures { Avoids i j result }
{
    if j.low < j.high {
        return i;
    }
    if i.low == j.low {
        let Some(bottom) = add(i.low, 1) else {
            return i;
        };
        return Interval {
            low: bottom,
            high: i.high,
        };
    }
    if i.high == j.high {
        let Some(top) = subtract(i.high, 1) else {
            return i;
        };
        return Interval {
            low: i.low,
            high: top,
        };
    }
    i
}

fn other(i: Interval, j: Interval) -> Pair
    ensures { Narrows Relation.Other i j result.left result.right }
{
    let left = without(i, j);
    let right = without(j, i);
    Pair { left, right }
}

/// The intervals narrowed by a relation.
pub fn narrowed(r: Relation, i: Interval, j: Interval) -> Pair
    ensures { Narrows r i j result.left result.right }
{
    match r {
        Relation::Less => less(i, j),
        Relation::AtMost => at_most(i, j),
        Relation::Same => same(i, j),
        Relation::Other => other(i, j),
    }
}

/// Tests whether no two numbers of the intervals are so related.
fn is_refuted(r: Relation, i: Interval, j: Interval) -> bool
    ensures { IsTrue result → Refutes r i j }
{
    let pair = narrowed(r, i, j);
    let left = is_empty(pair.left);
    if left {
        return true;
    }
    is_empty(pair.right)
}

/// Tests whether a comparison of numbers of the intervals never has this truth.
pub fn never(op: BinOp, truth: bool, i: Interval, j: Interval) -> bool
    ensures { IsTrue result → Never op truth i j }
{
    let Some(said) = tell(op, truth) else {
        return false;
    };
    let swapped = said.swapped;
    if swapped {
        let turned = is_refuted(said.relation, j, i);
        turned
    } else {
        let straight = is_refuted(said.relation, i, j);
        straight
    }
}
