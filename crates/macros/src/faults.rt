//! The faults of a definition (ISO/IEC 9899:2011 6.10.3, 6.10.3.2p1, 6.10.3.3p1).
ghost use Rattle.std.specs.Prelude.{◌≡◌, ℕ, List, false, codes};
ghost use Rattle.std.specs.List.{list_any};
ghost use Rattle.std.specs.Str.{bytes_eq};
ghost use Rattle.macros.specs.Macro.{is_reserved};
ghost use Rattle.macros.specs.inside.Faults.{has_reserved, is_variable_outside, is_number_reserved, is_replaced, lone_hash_after, begins_joint, ends_joint, same_token, same_all, same_list, same_numbered, same_macro, is_hash_lone, is_joint_amiss};

use crate::reading::is_spelled;
use crate::reserved::{is_reserved, is_text};
use crate::table::{BodyToken, Macro};
use crate::tests_of_tokens::{is_hash, is_joint};
use srcset::Names;

// Whether the text of the number is reserved.
fn is_number_reserved(n: usize, names: &Names) -> bool
    ensures { result ≡ is_number_reserved names.now n }
{
    match names.text(n) {
        Some(text) => is_reserved(text),
        None => false,
    }
}

// Whether the text of one of the numbers is reserved.
fn is_one_reserved(numbers: &[usize], names: &Names) -> bool
    ensures { result ≡ list_any (is_number_reserved names.now) numbers.now }
{
    let mut any = false;
    for number in numbers {
        any = any | is_number_reserved(*number, names);
    }
    any
}

// Whether `__VA_ARGS__` appears in the list.
fn has_variable_arguments(body: &[BodyToken]) -> bool
    ensures { result ≡ list_any is_replaced body.now }
{
    let mut any = false;
    for x in body {
        any = any | is_spelled(b"__VA_ARGS__", x.token());
    }
    any
}

/// Whether the name under the number or a parameter's is reserved (6.10.3p5, 6.10.8p4).
pub(crate) fn has_reserved(n: usize, found: &Macro, names: &Names) -> bool
    ensures { result ≡ has_reserved names.now n found.now }
{
    is_number_reserved(n, names) || is_one_reserved(found.names(), names)
}

/// Whether `__VA_ARGS__` appears in the replacement list of a macro without an ellipsis (6.10.3p5).
pub(crate) fn is_variable_outside(found: &Macro) -> bool
    ensures { result ≡ is_variable_outside found.now }
{
    !found.is_variadic() && has_variable_arguments(found.body())
}

// Whether a `#` is followed by no parameter.
fn has_lone_hash(body: &[BodyToken]) -> bool
    ensures { result ≡ lone_hash_after false body.now }
{
    let mut wrong = false;
    let mut pending = false;
    for x in body {
        wrong = wrong | (pending & x.parameter().is_none());
        pending = is_hash(x.token());
    }
    wrong | pending
}

/// Whether a `#` of a function-like macro is followed by no parameter (6.10.3.2p1).
pub(crate) fn is_hash_lone(found: &Macro) -> bool
    ensures { result ≡ is_hash_lone found.now }
{
    found.parameters().is_some() && has_lone_hash(found.body())
}

// Whether the list begins with `##`.
fn begins_joint(body: &[BodyToken]) -> bool
    ensures { result ≡ begins_joint body.now }
{
    match body {
        [] => false,
        [first, ..] => is_joint(first.token()),
    }
}

// Whether the list ends with `##`.
fn ends_joint(body: &[BodyToken]) -> bool
    ensures { result ≡ ends_joint false body.now }
{
    let mut last = false;
    for x in body {
        last = is_joint(x.token());
    }
    last
}

/// Whether `##` is at an end of the list (6.10.3.3p1).
pub(crate) fn is_joint_amiss(found: &Macro) -> bool
    ensures { result ≡ is_joint_amiss found.now }
{
    begins_joint(found.body()) || ends_joint(found.body())
}

// The same spelling, and white space before both or neither.
fn same_token(x: &BodyToken, y: &BodyToken) -> bool
    ensures { result ≡ same_token x.now y.now }
{
    is_text(x.token().spelling(), y.token().spelling())
        && x.token().space_before() == y.token().space_before()
}

// The same of all tokens.
fn same_tokens(a: &[BodyToken], b: &[BodyToken]) -> bool
    ensures { result ≡ same_all a.now b.now }
{
    if a.len() != b.len() {
        return false;
    }
    let mut same = true;
    for i in 0..a.len() {
        same = same & same_token(&a[i], &b[i]);
    }
    same
}

// The same replacement list: white space before it is no part of it (6.10.3p7).
fn same_list(a: &[BodyToken], b: &[BodyToken]) -> bool
    ensures { result ≡ same_list a.now b.now }
{
    let [x, xs @ ..] = a else {
        return b.is_empty();
    };
    let [y, ys @ ..] = b else {
        return false;
    };
    is_text(x.token().spelling(), y.token().spelling()) && same_tokens(xs, ys)
}

// Whether two lists of numbers are the same.
fn same_numbers(a: &[usize], b: &[usize]) -> bool
    ensures { result ≡ bytes_eq a.now b.now }
{
    a == b
}

// The same names of parameters, with an ellipsis after both or neither; or none in both.
fn same_parameters(a: &Macro, b: &Macro) -> bool
    ensures { result ≡ same_numbered a.now.parameters b.now.parameters }
{
    match &a.parameters {
        None => match &b.parameters {
            None => true,
            Some(_) => false,
        },
        Some(p) => match &b.parameters {
            None => false,
            Some(q) => a.variadic == b.variadic && same_numbers(p.as_slice(), q.as_slice()),
        },
    }
}

/// Whether it is the same definition (6.10.3p1, p2).
pub(crate) fn same_macro(a: &Macro, b: &Macro) -> bool
    ensures { result ≡ same_macro a.now b.now }
{
    same_parameters(a, b) && same_list(a.body(), b.body())
}
