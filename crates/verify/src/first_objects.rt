//! The objects before the run (6.2.4p3, 6.4.5p6, 6.7.9p10).

ghost use Rattle.std.specs.Prelude.{◌≡◌, ◌≤◌, ◌++◌, ◌∷◌, [], drop, length, map, pos, IfOk, IfSome, IsTrue};
ghost use Rattle.typing_spec.specs.Types.{elements_in};
ghost use Rattle.typed_ast.specs.View.{program_of, static_of};
ghost use Rattle.csem.specs.Store.{first_or_zero, laid_out, literal_object, static_object};
ghost use Rattle.verify_logic.specs.States.{In, ObjectsAre, TreeIs};
ghost use Rattle.verify_logic.specs.Calls.{Begins, EachIn};
ghost use Rattle.verify_expressions.specs.Views.{known_of, shapes_in};
ghost use Rattle.verify.specs.Says.{Adds, FirstAre, TreeFacts, texts_of};

use std::alloc::Global;
use typed_ast::{Program, Static};
use verify_expressions::{FOLLOWED_ELEMENTS, Known, Stop};
use verify_intervals::{greater, initialised, lesser};
use verify_logic::{AbsValue, Fact, Interval};

/// The lengths of objects, and the facts known about them.
#[derive(Drop)]
pub struct FirstObjects {
    pub outer: Vec<Vec<u32>>,
    pub known: Known,
}

/// The number of elements for which single facts are kept before the run.
const MOST_FIRST_FACTS: usize = 512;

fn holds(i: Interval, v: i64) -> bool
    ensures { IsTrue result → In i v }
{
    i.low <= v && v <= i.high
}

/// The least interval that contains 0 and each of the values. It is a guess: nothing depends on it.
fn guessed(values: &[i64]) -> Interval {
    let mut low = 0;
    let mut high = 0;
    for v in values {
        low = lesser(low, *v);
        high = greater(high, *v);
    }
    Interval { low, high }
}

/// Tests whether each of the values lies in the interval.
#[tactic(auto, using(crate::proofs::Steps::value_step, crate::proofs::Steps::whole_values))]
fn holds_each(i: Interval, values: &[i64]) -> bool
    ensures { IsTrue result → EachIn i values.now }
{
    for n in 0..values.len() {
        let within = holds(i, values[n]);
        if !within {
            return false;
        }
    }
    true
}

/// An interval that contains 0 and each of the values.
fn interval_of(values: &[i64]) -> Option<Interval>
    ensures each { IfSome result (λ i. EachIn i values.now) }
    ensures zero { IfSome result (λ i. In i (pos 0)) }
{
    let i = guessed(values);
    let each = holds_each(i, values);
    let zero = holds(i, 0);
    if each && zero { Some(i) } else { None }
}

/// The least interval that contains each of the values. It is a guess: nothing depends on it.
fn guessed_alone(values: &[i64]) -> Interval {
    let first = values.first().copied().unwrap_or(0);
    let mut low = first;
    let mut high = first;
    for v in values {
        low = lesser(low, *v);
        high = greater(high, *v);
    }
    Interval { low, high }
}

/// An interval that contains each of the values.
fn interval_alone(values: &[i64]) -> Option<Interval>
    ensures { IfSome result (λ i. EachIn i values.now) }
{
    let i = guessed_alone(values);
    let each = holds_each(i, values);
    if each { Some(i) } else { None }
}

/// Tests whether there are as many values as elements of an object of these lengths.
fn are_enough(lengths: &[u32], count: usize) -> bool
    ensures { IsTrue result → elements_in lengths.now ≤ count }
{
    let mut rows: u64 = 1;
    let mut rest = lengths;
    while let Some((n, more)) = rest.split_first() {
        let Some(product) = rows.checked_mul(u64::from(*n)) else {
            return false;
        };
        rows = product;
        rest = more;
    }
    rows <= count as u64
}

/// The facts about an object that has a value for each element.
fn whole_value(object: &Static) -> Option<AbsValue>
    requires { elements_in (static_of object.now).type.lengths ≤ length object.now.values.items }
    ensures { IfSome result (λ k. TreeIs k (static_of object.now).type.lengths (static_object (static_of object.now))) }
{
    let Some(i) = interval_alone(&object.values) else {
        return None;
    };
    let k = initialised(i);
    Some(k)
}

/// The facts about an object whose last elements may be 0 (6.7.9p21).
fn padded_value(object: &Static) -> Option<AbsValue>
    ensures { IfSome result (λ k. TreeIs k (static_of object.now).type.lengths (static_object (static_of object.now))) }
{
    let Some(i) = interval_of(&object.values) else {
        return None;
    };
    let k = initialised(i);
    Some(k)
}

/// The facts about an object with static storage.
fn static_value(object: &Static) -> Option<AbsValue>
    ensures { IfSome result (λ k. TreeIs k (static_of object.now).type.lengths (static_object (static_of object.now))) }
{
    let enough = are_enough(&object.object_type.lengths, object.values.len());
    if enough {
        whole_value(object)
    } else {
        padded_value(object)
    }
}

/// The least interval from 0 on that contains each character. It is a guess: nothing depends on it.
fn guessed_text(text: &[u8]) -> Interval {
    let mut high = 0;
    for c in text {
        let v = i64::from(*c);
        high = greater(high, v);
    }
    Interval { low: 0, high }
}

/// Tests whether each character lies in the interval.
#[tactic(auto, using(crate::proofs::Steps::text_step, crate::proofs::Steps::whole_text))]
fn holds_text(i: Interval, text: &[u8]) -> bool
    ensures { IsTrue result → EachIn i (map (λ c. pos c) text.now) }
{
    for n in 0..text.len() {
        let v = i64::from(text[n]);
        let within = holds(i, v);
        if !within {
            return false;
        }
    }
    true
}

/// An interval that contains each character.
fn text_interval(text: &[u8]) -> Option<Interval>
    ensures { IfSome result (λ i. EachIn i (map (λ c. pos c) text.now)) }
{
    let i = guessed_text(text);
    let each = holds_text(i, text);
    if each { Some(i) } else { None }
}

/// The facts about the characters of a string literal.
fn text_value(text: &[u8]) -> Option<AbsValue>
    ensures { IfSome result (λ k. TreeIs k (length text.now ∷ []) (literal_object text.now)) }
{
    let Some(i) = text_interval(text) else {
        return None;
    };
    let k = initialised(i);
    Some(k)
}

fn text_lengths(alloc: Global, text: &[u8]) -> Result<Vec<u32>, Stop>
    ensures { IfOk result (λ r. r.items ≡ length text.now ∷ []) }
{
    let Ok(n) = u32::try_from(text.len()) else {
        return Err(Stop::Unfollowed(None));
    };
    let mut out = Vec::new(alloc);
    let Ok(()) = out.push(n) else {
        return Err(Stop::Memory);
    };
    Ok(out)
}

fn copied_lengths(alloc: Global, lengths: &[u32]) -> Result<Vec<u32>, Stop>
    ensures { IfOk result (λ r. r.items ≡ lengths.now) }
{
    let mut out = Vec::new(alloc);
    match out.extend_from_slice(lengths) {
        Ok(()) => Ok(out),
        Err(_) => Err(Stop::Memory),
    }
}

// ---- single elements

fn may_follow(facts: &[Fact], count: usize) -> bool {
    let most = MOST_FIRST_FACTS.saturating_sub(facts.len());
    count <= most
}

fn are_few(count: usize) -> bool {
    match u32::try_from(count) {
        Err(_) => false,
        Ok(n) => n <= FOLLOWED_ELEMENTS,
    }
}

fn with_fact(mut facts: Vec<Fact>, f: Fact) -> Result<Vec<Fact>, Stop>
    ensures { IfOk result (λ r. r.items ≡ facts.items ++ f ∷ []) }
{
    let Ok(()) = facts.push(f) else {
        return Err(Stop::Memory);
    };
    Ok(facts)
}

fn byte_interval(c: u8) -> Interval
    ensures { result ≡ record { low = pos c; high = pos c } }
{
    let v = i64::from(c);
    Interval { low: v, high: v }
}

/// Each character of a short string literal, object `x`.
fn with_text(facts: Vec<Fact>, x: usize, text: &[u8]) -> Result<Vec<Fact>, Stop>
    ensures { IfOk result (λ r. TreeFacts (literal_object text.now) x facts.items r.items) }
{
    let followed = are_few(text.len()) && may_follow(&facts, text.len());
    if !followed {
        return Ok(facts);
    }
    let mut out = facts;
    for j in 0..text.len() {
        let Ok(index) = u32::try_from(j) else {
            return Ok(out);
        };
        let interval = byte_interval(text[j]);
        let next = with_fact(
            out,
            Fact {
                object: x,
                index,
                interval,
            },
        )?;
        out = next;
    }
    Ok(out)
}

/// The value of an element, which is 0 if none is given (6.7.9p21).
fn value_or_zero(values: &[i64], j: usize) -> i64
    ensures { result ≡ first_or_zero (drop j values.now) }
{
    if j < values.len() { values[j] } else { 0 }
}

fn value_interval(values: &[i64], j: usize) -> Interval
    ensures low { result.low ≡ first_or_zero (drop j values.now) }
    ensures high { result.high ≡ first_or_zero (drop j values.now) }
{
    let v = value_or_zero(values, j);
    Interval { low: v, high: v }
}

/// Each element of an array of one row, object `x`.
fn with_values(facts: Vec<Fact>, x: usize, n: u32, values: &[i64]) -> Result<Vec<Fact>, Stop>
    ensures { IfOk result (λ r. TreeFacts (laid_out (n ∷ []) values.now) x facts.items r.items) }
{
    let mut out = facts;
    for index in 0..n {
        let Ok(j) = usize::try_from(index) else {
            return Ok(out);
        };
        let interval = value_interval(values, j);
        let next = with_fact(
            out,
            Fact {
                object: x,
                index,
                interval,
            },
        )?;
        out = next;
    }
    Ok(out)
}

/// The length of an array of one row.
fn row_length(lengths: &[u32]) -> Option<u32>
    ensures { IfSome result (λ n. lengths.now ≡ n ∷ []) }
{
    let Some((n, more)) = lengths.split_first() else {
        return None;
    };
    if more.is_empty() { Some(*n) } else { None }
}

fn is_followed(facts: &[Fact], n: u32, values: &[i64]) -> bool {
    let count = match usize::try_from(n) {
        Err(_) => 0,
        Ok(count) => count,
    };
    n <= FOLLOWED_ELEMENTS && !values.is_empty() && may_follow(facts, count)
}

/// Each element of an object with static storage, object `x`, if that is a short array of one row with a first value.
fn with_elements(
    facts: Vec<Fact>,
    x: usize,
    lengths: &[u32],
    values: &[i64],
) -> Result<Vec<Fact>, Stop>
    ensures { IfOk result (λ r. TreeFacts (laid_out lengths.now values.now) x facts.items r.items) }
{
    let Some(n) = row_length(lengths) else {
        return Ok(facts);
    };
    let followed = is_followed(&facts, n, values);
    if !followed {
        return Ok(facts);
    }
    let out = with_values(facts, x, n, values)?;
    Ok(out)
}

fn with_object(facts: Vec<Fact>, x: usize, object: &Static) -> Result<Vec<Fact>, Stop>
    ensures { IfOk result (λ r. TreeFacts (static_object (static_of object.now)) x facts.items r.items) }
{
    let out = with_elements(facts, x, &object.object_type.lengths, &object.values)?;
    Ok(out)
}

// ---- one more object

fn added(
    outer: Vec<Vec<u32>>,
    objects: Vec<AbsValue>,
    facts: Vec<Fact>,
    lengths: Vec<u32>,
    k: AbsValue,
) -> Result<FirstObjects, Stop>
    ensures objects { IfOk result (λ r. r.known.objects.items ≡ objects.items ++ k ∷ []) }
    ensures facts { IfOk result (λ r. r.known.facts.items ≡ facts.items) }
    ensures outer { IfOk result (λ r. r.outer.items ≡ outer.items ++ lengths ∷ []) }
{
    let mut outer = outer;
    let Ok(()) = outer.push(lengths) else {
        return Err(Stop::Memory);
    };
    let mut objects = objects;
    let Ok(()) = objects.push(k) else {
        return Err(Stop::Memory);
    };
    Ok(FirstObjects {
        outer,
        known: Known { objects, facts },
    })
}

fn count_of(outer: &Vec<Vec<u32>>) -> usize
    ensures { result ≡ length outer.now.items }
{
    outer.len()
}

/// One more string literal.
fn with_literal(alloc: Global, before: FirstObjects, text: &[u8]) -> Result<FirstObjects, Stop>
    ensures { IfOk result (λ r. Adds before (literal_object text.now) r) }
{
    let lengths = text_lengths(alloc, text)?;
    let Some(k) = text_value(text) else {
        return Err(Stop::Unfollowed(None));
    };
    let outer = before.outer;
    let known = before.known;
    let x = count_of(&outer);
    let facts = with_text(known.facts, x, text)?;
    let all = added(outer, known.objects, facts, lengths, k)?;
    Ok(all)
}

/// One more object with static storage.
fn with_static(alloc: Global, before: FirstObjects, object: &Static) -> Result<FirstObjects, Stop>
    ensures { IfOk result (λ r. Adds before (static_object (static_of object.now)) r) }
{
    let lengths = copied_lengths(alloc, &object.object_type.lengths)?;
    let Some(k) = static_value(object) else {
        return Err(Stop::Unfollowed(None));
    };
    let outer = before.outer;
    let known = before.known;
    let x = count_of(&outer);
    let facts = with_object(known.facts, x, object)?;
    let all = added(outer, known.objects, facts, lengths, k)?;
    Ok(all)
}

fn none(alloc: Global) -> FirstObjects
    ensures { FirstAre result [] }
{
    FirstObjects {
        outer: Vec::new(alloc),
        known: Known {
            objects: Vec::new(alloc),
            facts: Vec::new(alloc),
        },
    }
}

/// String literals.
fn literals(alloc: Global, texts: &[Vec<u8>]) -> Result<FirstObjects, Stop>
    ensures { IfOk result (λ r. FirstAre r (map literal_object (texts_of texts.now))) }
{
    let mut current = none(alloc);
    for n in 0..texts.len() {
        let next = with_literal(alloc, current, &texts[n])?;
        current = next;
    }
    Ok(current)
}

/// Then objects with static storage.
fn statics(alloc: Global, texts: &[Vec<u8>], objects: &[Static]) -> Result<FirstObjects, Stop>
    ensures { IfOk result (λ r. FirstAre r (map literal_object (texts_of texts.now) ++ map static_object (map static_of objects.now))) }
{
    let mut current = literals(alloc, texts)?;
    for n in 0..objects.len() {
        let next = with_static(alloc, current, &objects[n])?;
        current = next;
    }
    Ok(current)
}

/// Then those of a program.
fn statics_of(alloc: Global, texts: &[Vec<u8>], program: &Program) -> Result<FirstObjects, Stop>
    ensures { IfOk result (λ r. FirstAre r (map literal_object (texts_of texts.now) ++ map static_object (program_of program.now).statics)) }
{
    let all = statics(alloc, texts, &program.statics)?;
    Ok(all)
}

/// The objects before the run.
///
/// Errors: memory ran out, or the analysis is not possible.
pub fn objects_at_start(alloc: Global, program: &Program) -> Result<FirstObjects, Stop>
    ensures { IfOk result (λ r. Begins (program_of program.now) (shapes_in r.outer.items) (known_of r.known)) }
{
    let all = statics_of(alloc, &program.literals, program)?;
    Ok(all)
}
