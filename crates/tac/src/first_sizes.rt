//! How many instructions the code of an initialiser has.

ghost use Rattle.std.specs.Prelude.{◌≡◌, ◌*◌, ◌-◌, ◌^◌, min, map, length, slice_get};
ghost use Rattle.ctypes.specs.declared.types.IntType.{IntType};
ghost use Rattle.typing_spec.specs.Types as type;
ghost use Rattle.csem.specs.Statements as meaning;
ghost use Rattle.typed_ast.specs.View.{program_of, function_of, value_of, initialiser_of, initialisers_of};
ghost use Rattle.tac.specs.inside.FirstSizes as size;

use ctypes::IntType;
use lower_exprs::operands::{keeps, operand_of};
use lower_exprs::sizes::{converted_size, value_size};
use lower_ops::bools::either;
use lower_ops::form_sizes::{plus, puts_size};
use lower_ops::modes::{Shape, shape_for};
use lower_ops::row_sizes::elements_counted;
use lower_ops::spots::cuts_for;
use typed_ast::{Function, Initialiser, Program, Value};

// ---- the parameters of the sizes

pub(crate) fn first_length(lengths: &[u32]) -> u32
    ensures { result ≡ meaning.first_length lengths.now }
{
    match lengths.split_first() {
        None => 0,
        Some((first, _)) => *first,
    }
}

pub(crate) fn inner_lengths(lengths: &[u32]) -> &[u32]
    ensures { result.now ≡ meaning.inner_lengths lengths.now }
{
    match lengths.split_first() {
        None => lengths,
        Some((_, inner)) => inner,
    }
}

/// How many characters a literal has, with its zero.
pub(crate) fn characters_of(literals: &[Vec<u8>], number: usize) -> usize
    ensures { result ≡ length (meaning.text_or_none (slice_get (map (λ text. text.items) literals.now) number)) }
{
    match literals.get(number) {
        None => 0,
        Some(text) => text.len(),
    }
}

// ---- stretches of elements

fn clears_to_size() -> usize
    ensures { result ≡ size.clears_to_size }
{
    plus(1, plus(1, plus(1, 1)))
}

fn clears_size(count: usize) -> usize
    ensures { result ≡ size.clears_size count }
{
    if count == 0 {
        return 0;
    }
    if count == 1 {
        return 1;
    }
    plus(plus(1, 1), clears_to_size())
}

/// `rows` rows or elements become zero.
fn rest_size(rows: u32, lengths: &[u32]) -> usize
    ensures { result ≡ size.clears_size (rows * type.elements_in lengths.now) }
{
    clears_size((rows as usize).saturating_mul(elements_counted(lengths)))
}

fn clears_rest_size(less: bool) -> usize
    ensures { result ≡ size.clears_rest_size less }
{
    if less { clears_to_size() } else { 0 }
}

fn copies_first_size(count: usize) -> usize
    ensures { result ≡ size.copies_first_size count }
{
    if count == 0 {
        return 0;
    }
    plus(1, plus(1, plus(1, plus(1, plus(1, 1)))))
}

fn copies_size(count: usize, characters: usize) -> usize
    ensures { result ≡ size.copies_size count characters }
{
    let copied = copies_first_size(count.min(characters));
    let rest = clears_rest_size(characters < count);
    plus(1, plus(plus(1, 1), plus(1, plus(copied, rest))))
}

// ---- initialisers

fn sets_size(ty: IntType, e: &Value) -> usize
    ensures { result ≡ size.sets_size ty (value_of e.now) }
{
    let kept = either(cuts_for(ty, Shape::Nowhere), keeps(ty, e));
    let value = value_size(e, shape_for(operand_of(e, 0, 0)));
    plus(value, puts_size(kept, Shape::Nowhere))
}

fn word_size(initialiser: &Initialiser) -> usize
    ensures { result ≡ size.word_size (initialiser_of initialiser.now) }
{
    match initialiser {
        Initialiser::One(ty, e) => plus(converted_size(*ty, e, Shape::Object), 1),
        Initialiser::Text(_) => 1,
        Initialiser::InBraces(inner) => plus(1, word_size(inner)),
        Initialiser::List(_) => 1,
    }
}

#[cycle(initialiser_sizes)]
fn fill_all_size(literals: &[Vec<u8>], all: &[Initialiser], count: u32, lengths: &[u32]) -> usize
    ensures { result ≡ size.fill_all_size (map (λ text. text.items) literals.now) (initialisers_of (map initialiser_of all.now)) count lengths.now }
{
    let mut size = 0;
    let mut left = count;
    for initialiser in all {
        if left == 0 {
            break;
        }
        size = plus(size, fills_size(literals, initialiser, lengths));
        left -= 1;
    }
    plus(size, rest_size(left, lengths))
}

#[cycle(initialiser_sizes)]
fn fills_size(literals: &[Vec<u8>], initialiser: &Initialiser, lengths: &[u32]) -> usize
    ensures { result ≡ size.fills_size (map (λ text. text.items) literals.now) (initialiser_of initialiser.now) lengths.now }
{
    let count = first_length(lengths);
    match initialiser {
        Initialiser::One(ty, e) => sets_size(*ty, e),
        Initialiser::Text(literal) => {
            copies_size(count as usize, characters_of(literals, *literal))
        }
        Initialiser::InBraces(inner) => plus(1, fills_size(literals, inner, lengths)),
        Initialiser::List(all) => {
            let inner = inner_lengths(lengths);
            plus(1, fill_all_size(literals, all, count, inner))
        }
    }
}

fn first_size(literals: &[Vec<u8>], lengths: &[u32], initialiser: &Initialiser) -> usize
    ensures { result ≡ size.first_size (map (λ text. text.items) literals.now) lengths.now (initialiser_of initialiser.now) }
{
    if lengths.is_empty() {
        return word_size(initialiser);
    }
    fills_size(literals, initialiser, lengths)
}

/// The instructions of the first value of an object.
pub(crate) fn initialises_size(
    program: &Program,
    function: &Function,
    object: usize,
    initialiser: &Initialiser,
) -> usize
    ensures { result ≡ size.initialises_size (program_of program.now).literals (slice_get (function_of function.now).objects object) (initialiser_of initialiser.now) }
{
    match function.objects.get(object) {
        None => 0,
        Some(found) => first_size(&program.literals, &found.lengths, initialiser),
    }
}
