//! The tokens after `# define`: the name, the parameters, the replacement list (ISO/IEC 9899:2011 6.10.3p1, p9 to p11).
ghost use Rattle.std.specs.Prelude.{◌≡◌, ◌≤◌, ◌&&◌, drop, ℕ, List, [], Some, None, map, length, option_map, slice_get, IfOk, IfErr, true, codes, if◌then◌else◌};
ghost use Rattle.std.specs.Str.{bytes_eq};
ghost use Rattle.srcset.specs.NameTable.{KeepsNumbers, NumbersOnce};
ghost use Rattle.srcset.specs.declared.refusal.Refusal.TheVariants.{Memory};
ghost use Rattle.macros.specs.Macro.{is_spelled};
ghost use Rattle.macros.specs.Definition.{number_among, parameter_among, with_variable, head_of, function_like, macro_of};
ghost use Rattle.macros.specs.Table.{AreNumbered, AreSame, with_parameter};
ghost use Rattle.macros.specs.inside.Readings.{IsReading, IsWithin};
ghost use Rattle.macros.specs.inside.Reading.{read_from, KeepsTables, distinct_from, macro_if};

use crate::reserved::is_text;
use crate::table::{BodyToken, Macro};
use crate::tests_of_tokens::is_identifier;
use indexmap::IndexSet;
use phases::PpToken;
use srcset::{Names, Refusal};
use std::alloc::{AllocError, Global};

/// The parameters of a function-like macro, as they are written.
#[derive(Drop)]
pub(crate) struct Reading {
    /// The numbers of their names, in order.
    pub(crate) numbers: Vec<usize>,
    /// Whether an ellipsis ends them.
    pub(crate) variadic: bool,
    /// How many tokens there are through the `)`.
    pub(crate) len: usize,
}

/// Whether the token is spelled so.
pub(crate) fn is_spelled(text: &[u8], token: &PpToken) -> bool
    ensures { result ≡ is_spelled text.now token.now }
{
    is_text(token.spelling(), text)
}

/// The number of a token's text.
pub(crate) fn number_of(token: &PpToken, names: &mut Names) -> Result<usize, Refusal>
    ensures once { NumbersOnce names.new }
    ensures text { IfOk result (λ n. slice_get names.new n ≡ Some token.now.spelling) }
    ensures keeps { KeepsNumbers names.old names.new }
    ensures tables { KeepsTables names.old names.new }
    ensures err { IfErr result (λ r. r ≡ Memory) }
{
    match names.intern(token.spelling()) {
        Ok(n) => Ok(n),
        Err(_) => Err(Refusal::Memory),
    }
}

// The parameters that an ellipsis ends, if the token after it is the `)`.
fn ended(numbers: Vec<usize>, next: &PpToken, len: usize) -> Option<Reading>
    ensures { result ≡ (if is_spelled (codes ")") next.now then Some (record { numbers = numbers; variadic = true; len = len }) else None) }
{
    if is_spelled(b")", next) {
        return Some(Reading {
            numbers,
            variadic: true,
            len,
        });
    }
    None
}

/// The parameters whose names begin here, after the `(`. The same name may occur twice.
pub(crate) fn read_parameters(
    alloc: Global,
    tokens: &[PpToken],
    names: &mut Names,
) -> Result<Option<Reading>, Refusal>
    requires { NumbersOnce names.old }
    ensures ok { IfOk result (λ reading. IsReading names.new reading (read_from tokens.now)) }
    ensures within { IfOk result (λ reading. IsWithin reading (length tokens.now)) }
    ensures once { NumbersOnce names.new }
    ensures keeps { KeepsNumbers names.old names.new }
    ensures tables { KeepsTables names.old names.new }
    ensures err { IfErr result (λ r. r ≡ Memory) }
{
    let mut numbers = Vec::new(alloc);
    let mut at = 0;
    while at + 1 < tokens.len() {
        let name = &tokens[at];
        let next = &tokens[at + 1];
        if is_spelled(b"...", name) {
            return Ok(ended(numbers, next, at + 2));
        }
        if !is_identifier(name) {
            return Ok(None);
        }
        let n = number_of(name, names)?;
        numbers.push(n)?;
        if is_spelled(b")", next) {
            return Ok(Some(Reading {
                numbers,
                variadic: false,
                len: at + 2,
            }));
        }
        if !is_spelled(b",", next) {
            return Ok(None);
        }
        at += 2;
    }
    Ok(None)
}

/// The numbers as a set, where no number is there twice.
pub(crate) fn distinct(
    alloc: Global,
    numbers: &[usize],
) -> Result<Option<IndexSet<usize>>, AllocError>
    ensures { IfOk result (λ set. option_map (λ s. s.keys) set ≡ (if distinct_from [] numbers.now then Some numbers.now else None)) }
{
    let mut set = IndexSet::new(alloc);
    for number in numbers {
        let (_, added) = set.insert_full(*number)?;
        if !added {
            return Ok(None);
        }
    }
    Ok(Some(set))
}

// The place among these parameters of the one with this name.
fn place_of(name: &[u8], parameters: &IndexSet<usize>, names: &Names) -> Option<usize>
    ensures { (texts : List (List ℕ)) → AreNumbered names.now parameters.now.keys texts → result ≡ number_among name.now texts }
{
    let Some(n) = names.find(name) else {
        return None;
    };
    parameters.get_index_of(&n)
}

// Whether the name denotes the variable arguments.
fn is_variable(variadic: bool, name: &[u8]) -> bool
    ensures { result ≡ variadic && bytes_eq name.now (codes "__VA_ARGS__") }
{
    variadic && is_text(name, b"__VA_ARGS__")
}

// The same, where `__VA_ARGS__` is the last parameter of a variadic macro.
fn place_with_variable(
    name: &[u8],
    parameters: &IndexSet<usize>,
    variadic: bool,
    names: &Names,
) -> Option<usize>
    ensures { (texts : List (List ℕ)) → AreNumbered names.now parameters.now.keys texts → result ≡ number_among name.now (with_variable variadic texts) }
{
    if let Some(place) = place_of(name, parameters, names) {
        return Some(place);
    }
    if is_variable(variadic, name) {
        return Some(parameters.len());
    }
    None
}

// Which of these parameters the token names.
fn parameter_of(
    token: &PpToken,
    parameters: &IndexSet<usize>,
    variadic: bool,
    names: &Names,
) -> Option<usize>
    ensures { (texts : List (List ℕ)) → AreNumbered names.now parameters.now.keys texts → result ≡ parameter_among (with_variable variadic texts) token.now }
{
    if is_identifier(token) {
        return place_with_variable(token.spelling(), parameters, variadic, names);
    }
    None
}

// A token of a replacement list.
fn body_token<'a>(
    token: &PpToken<'a>,
    parameters: &IndexSet<usize>,
    variadic: bool,
    names: &Names,
) -> Result<BodyToken<'a>, AllocError>
    ensures { (texts : List (List ℕ)) → AreNumbered names.now parameters.now.keys texts → IfOk result (λ x. x ≡ with_parameter (with_variable variadic texts) token.now) }
{
    let parameter = parameter_of(token, parameters, variadic, names);
    Ok(BodyToken {
        token: token.copy()?,
        parameter,
    })
}

/// The replacement list of these tokens.
pub(crate) fn body_of<'a>(
    alloc: Global,
    tokens: &[PpToken<'a>],
    parameters: &IndexSet<usize>,
    variadic: bool,
    names: &Names,
) -> Result<Vec<BodyToken<'a>>, AllocError>
    ensures { (texts : List (List ℕ)) → AreNumbered names.now parameters.now.keys texts → IfOk result (λ body. body.items ≡ map (with_parameter (with_variable variadic texts)) tokens.now) }
{
    let mut body = Vec::new(alloc);
    for token in tokens {
        body.push(body_token(token, parameters, variadic, names)?)?;
    }
    Ok(body)
}

// The function-like macro with these parameters and this replacement list, where no parameter is there twice.
fn with_parameters<'a>(
    alloc: Global,
    numbers: Vec<usize>,
    variadic: bool,
    tokens: &[PpToken<'a>],
    names: &Names,
) -> Result<Option<Macro<'a>>, AllocError>
    ensures { (texts : List (List ℕ)) → AreNumbered names.now numbers.items texts → IfOk result (λ m. AreSame names.now m (macro_if (distinct_from [] numbers.items) texts variadic tokens.now)) }
{
    let Some(parameters) = distinct(alloc, numbers.as_slice())? else {
        return Ok(None);
    };
    let body = body_of(alloc, tokens, &parameters, variadic, names)?;
    Ok(Some(Macro {
        parameters: Some(numbers),
        variadic,
        body,
    }))
}

// The object-like macro with this replacement list.
fn object_like<'a>(
    alloc: Global,
    tokens: &[PpToken<'a>],
    names: &Names,
) -> Result<Option<Macro<'a>>, AllocError>
    ensures { IfOk result (λ m. AreSame names.now m (Some (record { parameters = None; body = tokens.now }))) }
{
    let body = body_of(alloc, tokens, &IndexSet::new(alloc), false, names)?;
    Ok(Some(Macro {
        parameters: None,
        variadic: false,
        body,
    }))
}

/// The tokens after the first `count`.
pub(crate) fn behind<'s, 'a>(tokens: &'s [PpToken<'a>], count: usize) -> &'s [PpToken<'a>]
    requires { count ≤ length tokens.now }
    ensures { result.now ≡ drop count tokens.now }
{
    &tokens[count..]
}

// The function-like macro whose parameters begin here, after the `(`.
fn function_like<'a>(
    alloc: Global,
    tokens: &[PpToken<'a>],
    names: &mut Names,
) -> Result<Option<Macro<'a>>, Refusal>
    requires { NumbersOnce names.old }
    ensures ok { IfOk result (λ m. AreSame names.new m (function_like (head_of tokens.now))) }
    ensures keeps { KeepsNumbers names.old names.new }
    ensures tables { KeepsTables names.old names.new }
    ensures once { NumbersOnce names.new }
    ensures err { IfErr result (λ r. r ≡ Memory) }
{
    let [first, ..] = tokens else {
        return Ok(None);
    };
    if is_spelled(b")", first) {
        let body = behind(tokens, 1);
        return Ok(with_parameters(alloc, Vec::new(alloc), false, body, names)?);
    }
    let Some(reading) = read_parameters(alloc, tokens, names)? else {
        return Ok(None);
    };
    let body = behind(tokens, reading.len);
    Ok(with_parameters(alloc, reading.numbers, reading.variadic, body, names)?)
}

/// The macro of the tokens after the name, or `None` where they are none.
pub(crate) fn read_macro<'a>(
    alloc: Global,
    tokens: &[PpToken<'a>],
    names: &mut Names,
) -> Result<Option<Macro<'a>>, Refusal>
    requires { NumbersOnce names.old }
    ensures ok { IfOk result (λ m. AreSame names.new m (macro_of tokens.now)) }
    ensures keeps { KeepsNumbers names.old names.new }
    ensures tables { KeepsTables names.old names.new }
    ensures once { NumbersOnce names.new }
    ensures err { IfErr result (λ r. r ≡ Memory) }
{
    let [first, rest @ ..] = tokens else {
        return Ok(object_like(alloc, tokens, names)?);
    };
    if first.space_before() {
        return Ok(object_like(alloc, tokens, names)?);
    }
    if is_spelled(b"(", first) {
        return function_like(alloc, rest, names);
    }
    Ok(None)
}
