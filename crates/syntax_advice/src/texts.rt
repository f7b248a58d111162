//! The texts of expectations.

use crate::expectation::Expected;
use crate::type_names::known_type;
use std::alloc::{AllocError, Global};

/// The message for a token that does not fit. `token` is that token, `word` the text that the change replaces, `text` its replacement.
pub fn expected_text(
    alloc: Global,
    expected: Expected,
    token: &str,
    word: &str,
    text: &str,
) -> Result<String, AllocError> {
    let text = text.trim();
    let word = word.trim();
    match expected {
        Expected::Word => format!(in alloc; "`{word}` is no keyword: did you mean `{text}`?"),
        Expected::ElseIf => format!(in alloc; "`{word}` is no word of C: did you mean `else if`?"),
        Expected::Operator => format!(in alloc; "`{word}` is no operator: did you mean `{text}`?"),
        Expected::TypeName => format!(in alloc; "unknown type name `{word}`"),
        Expected::KeywordAsName => { format!(in alloc; "expected a name: `{token}` is a keyword") }
        Expected::SemicolonInstead | Expected::CommaInstead | Expected::ColonInstead => {
            format!(in alloc; "expected `{text}` in place of `{token}`")
        }
        Expected::Nothing => format!(in alloc; "`{token}` is too much here"),
        Expected::Unmatched => format!(in alloc; "nothing is open that this `{token}` closes"),
        _ => plain_text(alloc, expected, token, text),
    }
}

/// The message for a token by the expectation alone.
fn plain_text(
    alloc: Global,
    expected: Expected,
    token: &str,
    text: &str,
) -> Result<String, AllocError> {
    let left_out = left_out_text(expected);
    if !left_out.is_empty() {
        return String::from_str(alloc, left_out);
    }
    match expected {
        Expected::Statement => format!(in alloc; "expected a statement before `{token}`"),
        Expected::Operand => format!(in alloc; "expected an operand before `{token}`"),
        Expected::Name => format!(in alloc; "expected a name before `{token}`"),
        Expected::Type => format!(in alloc; "expected a type before `{token}`"),
        Expected::Initialiser => format!(in alloc; "expected an initialiser before `{token}`"),
        _ => format!(in alloc; "expected `{text}` before `{token}`"),
    }
}

/// The message for a form that the compiler leaves out, or that C does not have; empty for any other.
fn left_out_text(expected: Expected) -> &'static str {
    match expected {
        Expected::Then => "C has no `then`: the statement follows the `)`",
        Expected::Power => "C has no power operator `**`",
        Expected::Pointer => "left out: pointers",
        Expected::Indirection => "left out: pointers, and so `*` before an operand",
        Expected::Address => "left out: pointers, and so `&` before an operand",
        Expected::BracketsBehindName => "the brackets of an array stand behind its name",
        Expected::Designator => "left out: designated initialisers",
        Expected::ArrayResult => "a function cannot return an array (6.7.6.3p1)",
        Expected::CompoundLiteral => "left out: compound literals",
        Expected::NestedFunction => "a function is declared and defined outside of every other",
        Expected::Member => "left out: structures, and so their members",
        Expected::Ellipsis => "left out: functions with `...`",
        Expected::CaseRange => "C has no `case` of a range",
        Expected::Body => "expected the body of the function, `{` and `}`, after `)`",
        Expected::NoObject =>
            "what stands before it is a value: only an object or an element can be assigned",
        _ => "",
    }
}

/// The replacement to suggest; empty where the message says it already. `word` is the text that the change replaces.
pub fn expected_help(expected: Expected, word: &[u8]) -> &'static str {
    match expected {
        Expected::TypeName => type_help(word),
        Expected::VoidParameters => "a function without parameters is declared with `(void)`",
        Expected::Initialiser => "an array of zeros is initialised by `{ 0 }`",
        Expected::Power => "multiply in a loop; a power of two is `1 << n`",
        Expected::Pointer => "write an array, as `int a[]` for a parameter, and an index",
        Expected::Indirection => "write an element of an array: a[i]",
        Expected::Address =>
            "an array is passed by its name: f(a); for a number write an array of one element",
        Expected::BracketsBehindName => "write `int a[3]`",
        Expected::Designator => "write all elements in order",
        Expected::ArrayResult => "pass the array that is filled as a parameter",
        Expected::CompoundLiteral => "declare an array with these elements, and pass its name",
        Expected::NestedFunction => "put it before the function in which it stands",
        Expected::Member => "write an array for each field, with the record as index",
        Expected::Ellipsis => "write an array and the number of its elements",
        Expected::CaseRange => "write a `case` for each value",
        _ => "",
    }
}

/// The replacement to suggest for a type that is none.
fn type_help(name: &[u8]) -> &'static str {
    match name {
        b"bool" => "`#include <stdbool.h>` defines `bool`, `true` and `false`",
        b"boolean" | b"Boolean" => "write `bool` with `#include <stdbool.h>`, or `_Bool`",
        b"string" | b"String" => "a string is an array of characters: char s[] = \"abc\"",
        _ => match known_type(name) {
            "unsigned char" => "write `unsigned char`",
            "signed char" => "write `signed char`",
            "unsigned short" => "write `unsigned short`",
            "short" => "write `short`",
            "unsigned int" => "write `unsigned int`",
            "int" => "write `int`",
            _ =>
                "the types are `_Bool`, `char`, `short`, `int` and `long`, with `signed` or `unsigned`",
        },
    }
}
