//! Guesses of the invariant of a loop. Nothing depends on them: a guess is tested before it is used.

use ctypes::IntType;
use verify_expressions::{AbsState, Known, Scope, Stop, copied, joined, literal_count};
use verify_intervals::initialised;
use verify_logic::{AbsValue, Fact, Interval};

/// Where bounds that keep growing are moved to, besides the lengths of arrays, if the type of the object is not known or they are past its values: the
/// bounds of the types, and 0 and 1 between them.
const STEPS: [i64; 12] = [
    -2147483648,
    -32768,
    -128,
    -1,
    0,
    1,
    127,
    255,
    32767,
    65535,
    2147483647,
    4294967295,
];

/// The number of iterations in which the lengths of arrays are bounds too: with arrays of many lengths, a bound that went from one to the next would be
/// moved more often than guesses are tried.
const NEAR_TURNS: u32 = 10;

fn floor(v: i64) -> i64 {
    let mut found = i64::MIN;
    for s in STEPS {
        if s <= v {
            found = s;
        }
    }
    found
}

fn type_ceiling(v: i64) -> i64 {
    for s in STEPS {
        if v <= s {
            return s;
        }
    }
    i64::MAX
}

fn closer(v: i64, step: i64, best: i64) -> i64 {
    if v <= step && step < best { step } else { best }
}

/// The closer of a bound and the last subscripts and lengths of arrays.
fn length_ceiling(v: i64, lengths: &[u32], best: i64) -> i64 {
    let mut found = best;
    for n in lengths {
        let n = i64::from(*n);
        found = closer(v, n - 1, found);
        found = closer(v, n, found);
    }
    found
}

/// The type of the elements of object `x`, if that is one of the call or has static storage.
fn element_type(scope: &Scope<'_>, x: usize) -> Option<IntType> {
    let literals = literal_count(scope);
    if x >= scope.outer.len() {
        match scope.objects.get(x - scope.outer.len()) {
            None => None,
            Some(object) => Some(object.element),
        }
    } else if x >= literals {
        match scope.program.statics.get(x - literals) {
            None => None,
            Some(object) => Some(object.object_type.element),
        }
    } else {
        None
    }
}

/// The next bound below: of the type of object `x`, after 0 and -1.
fn least(scope: &Scope<'_>, x: usize, v: i64) -> i64 {
    match element_type(scope, x) {
        None => floor(v),
        Some(ty) => if v < -1 && ty.min() <= v {
            ty.min()
        } else {
            floor(v)
        },
    }
}

/// The next bound above: of the type of object `x`, after 0 and 1.
fn greatest(scope: &Scope<'_>, x: usize, v: i64) -> i64 {
    match element_type(scope, x) {
        None => type_ceiling(v),
        Some(ty) => if 1 < v && v <= ty.max() {
            ty.max()
        } else {
            type_ceiling(v)
        },
    }
}

/// The next bound above: of a type, or among the lengths of arrays as long as these are `near`. String literals do not count: a
/// program has many of them, and their lengths bound little.
fn ceiling(scope: &Scope<'_>, x: usize, v: i64, near: bool) -> i64 {
    let mut found = greatest(scope, x, v);
    if !near {
        return found;
    }
    for n in literal_count(scope)..scope.outer.len() {
        found = length_ceiling(v, &scope.outer[n], found);
    }
    for object in scope.objects {
        found = length_ceiling(v, &object.lengths, found);
    }
    found
}

fn wider(scope: &Scope<'_>, x: usize, old: AbsValue, new: AbsValue, near: bool) -> AbsValue {
    let low = if new.interval.low < old.interval.low {
        least(scope, x, new.interval.low)
    } else {
        new.interval.low
    };
    let high = if old.interval.high < new.interval.high {
        ceiling(scope, x, new.interval.high, near)
    } else {
        new.interval.high
    };
    AbsValue {
        initialised: new.initialised,
        interval: Interval { low, high },
    }
}

fn each_wider(
    scope: &Scope<'_>,
    olds: &[AbsValue],
    news: &[AbsValue],
    near: bool,
) -> Result<Vec<AbsValue>, Stop> {
    let mut out = Vec::new(scope.alloc);
    for i in 0..news.len() {
        let k = if i < olds.len() {
            wider(scope, i, olds[i], news[i], near)
        } else {
            news[i]
        };
        let Ok(()) = out.push(k) else {
            return Err(Stop::Memory);
        };
    }
    Ok(out)
}

/// The fact about the same element, which is most often at the same position.
fn same_fact(olds: &[Fact], new: Fact, near: usize) -> Option<Interval> {
    for n in near..olds.len() {
        if olds[n].object == new.object && olds[n].index == new.index {
            return Some(olds[n].interval);
        }
    }
    None
}

fn fact_wider(scope: &Scope<'_>, new: Fact, old: Interval, near: bool) -> Interval {
    let all = wider(
        scope,
        new.object,
        initialised(old),
        initialised(new.interval),
        near,
    );
    all.interval
}

fn facts_wider(
    scope: &Scope<'_>,
    olds: &[Fact],
    news: &[Fact],
    near: bool,
) -> Result<Vec<Fact>, Stop> {
    let mut out = Vec::new(scope.alloc);
    for n in 0..news.len() {
        let new = news[n];
        let interval = match same_fact(olds, new, n) {
            None => new.interval,
            Some(old) => fact_wider(scope, new, old, near),
        };
        let Ok(()) = out.push(Fact {
            object: new.object,
            index: new.index,
            interval,
        }) else {
            return Err(Stop::Memory);
        };
    }
    Ok(out)
}

fn known_wider(scope: &Scope<'_>, olds: &Known, news: &Known, near: bool) -> Result<Known, Stop> {
    let objects = each_wider(scope, &olds.objects, &news.objects, near)?;
    let facts = facts_wider(scope, &olds.facts, &news.facts, near)?;
    Ok(Known { objects, facts })
}

fn moved(scope: &Scope<'_>, old: &AbsState, new: AbsState, near: bool) -> Result<AbsState, Stop> {
    match new.objects {
        None => Ok(AbsState { objects: None }),
        Some(news) => match &old.objects {
            None => Ok(AbsState {
                objects: Some(news),
            }),
            Some(olds) => match known_wider(scope, olds, &news, near) {
                Err(stop) => Err(stop),
                Ok(out) => Ok(AbsState { objects: Some(out) }),
            },
        },
    }
}

/// The values of both states, with those bounds that differ from the first moved out to the next step, from the third iteration on.
///
/// Errors: memory ran out.
pub fn widened(
    scope: &Scope<'_>,
    old: AbsState,
    new: AbsState,
    turn: u32,
) -> Result<AbsState, Stop> {
    let kept = copied(scope.alloc, &old)?;
    let both = joined(scope.alloc, old, new)?;
    if turn < 2 {
        Ok(both)
    } else {
        moved(scope, &kept, both, turn < NEAR_TURNS)
    }
}
