//! Integer constants (ISO/IEC 9899:2011 6.4.4.1).
ghost use Rattle.std.specs.Prelude.{◌≡◌, ℕ, ◌≤◌, ◌<◌, ◌*◌, ◌+◌, ◌==◌, pos, Err, MatchOption, length, drop, slice_index};
ghost use Rattle.std.specs.List.{prefix_len, list_any};
ghost use Rattle.ctypes.specs.Types.{is_value_of};
ghost use Rattle.lexer.specs.Digits.{digit_value, is_digit, digit_count, value_of};
ghost use Rattle.lexer.specs.Numbers.{is_hexadecimal, base_of, unprefixed, suffix_of, types_of, typed, in_range, is_exponent, is_floating, no_integer, suffix_behind, number};

use ctypes::IntType;
use srcset::Code;

/// A constant: its type, and its value, which the type can represent.
#[derive(Clone, Copy, PartialEq, Eq, Debug)]
pub struct Constant {
    /// The type.
    pub of: IntType,
    /// The value.
    pub value: u32,
}

/// The text after the digits of an integer constant.
#[derive(Clone, Copy, PartialEq, Eq, Debug)]
pub enum Suffix {
    /// Nothing.
    Plain,
    /// u
    Unsigned,
    /// l
    Long,
    /// u and l
    UnsignedLong,
    /// ll, also with u
    LongLong,
}

// The value of a byte as a digit of a base up to 16, or 16.
fn digit_value(byte: u8) -> u8
    ensures { result ≡ digit_value byte }
{
    match byte {
        b'0'..=b'9' => byte - b'0',
        b'a'..=b'f' => byte - b'a' + 10,
        b'A'..=b'F' => byte - b'A' + 10,
        _ => 16,
    }
}

/// Whether the byte is a digit of the base.
pub(crate) fn is_digit(base: u8, byte: u8) -> bool
    ensures { result ≡ is_digit base byte }
{
    digit_value(byte) < base
}

/// How many digits of the base come first.
pub fn digit_count(base: u8, text: &[u8]) -> usize
    ensures count { result ≡ digit_count base text.now }
    ensures within { result ≤ length text.now }
{
    for (index, byte) in text.iter().enumerate() {
        if !is_digit(base, *byte) {
            return index;
        }
    }
    text.len()
}

// The number with one more digit, or `None` where it is over 18446744073709551615.
fn with_digit(high: u64, base: u8, byte: u8) -> Option<u64>
    ensures { MatchOption result (18446744073709551615 < high * base + digit_value byte) (λ v. v ≡ high * base + digit_value byte) }
{
    let shifted = high.checked_mul(u64::from(base))?;
    shifted.checked_add(u64::from(digit_value(byte)))
}

/// The number that the digits denote, or `None` where it is over 18446744073709551615.
pub fn value(base: u8, digits: &[u8]) -> Option<u64>
    requires { 1 ≤ base }
    ensures { MatchOption result (18446744073709551615 < value_of base digits.now) (λ v. v ≡ value_of base digits.now) }
{
    let mut value = 0;
    for byte in digits {
        let Some(next) = with_digit(value, base, *byte) else {
            return None;
        };
        value = next;
    }
    Some(value)
}

/// The byte at an index, or 0 after the end.
pub(crate) fn byte_at(text: &[u8], index: usize) -> u8
    ensures { result ≡ slice_index text.now index }
{
    if index < text.len() { text[index] } else { 0 }
}

/// The text without its first bytes.
pub(crate) fn behind(text: &[u8], count: usize) -> &[u8]
    ensures { result.now ≡ drop count text.now }
{
    if count <= text.len() {
        &text[count..]
    } else {
        &[]
    }
}

// Whether `0x` or `0X` comes first.
fn is_hexadecimal(spelling: &[u8]) -> bool
    ensures { result ≡ is_hexadecimal spelling.now }
{
    byte_at(spelling, 0) == b'0' && (byte_at(spelling, 1) == b'x' || byte_at(spelling, 1) == b'X')
}

/// The base of an integer constant (6.4.4.1): 8, 10 or 16.
pub fn base_of(spelling: &[u8]) -> u8
    ensures base { result ≡ base_of spelling.now }
    ensures some { 1 ≤ result }
{
    if is_hexadecimal(spelling) {
        16
    } else if byte_at(spelling, 0) == b'0' {
        8
    } else {
        10
    }
}

/// An integer constant without its `0x` or `0X`.
pub fn unprefixed(spelling: &[u8]) -> &[u8]
    ensures { result.now ≡ unprefixed spelling.now }
{
    if is_hexadecimal(spelling) {
        behind(spelling, 2)
    } else {
        spelling
    }
}

// The suffix with this text.
#[tactic(auto, unfolding(crate::specs::Numbers::suffix_of))]
fn suffix_of(text: &[u8]) -> Option<Suffix>
    ensures { result ≡ suffix_of text.now }
{
    if text == b"".as_slice() {
        return Some(Suffix::Plain);
    }
    if text == b"u".as_slice() {
        return Some(Suffix::Unsigned);
    }
    if text == b"U".as_slice() {
        return Some(Suffix::Unsigned);
    }
    if text == b"l".as_slice() {
        return Some(Suffix::Long);
    }
    if text == b"L".as_slice() {
        return Some(Suffix::Long);
    }
    if text == b"ul".as_slice() {
        return Some(Suffix::UnsignedLong);
    }
    if text == b"uL".as_slice() {
        return Some(Suffix::UnsignedLong);
    }
    if text == b"Ul".as_slice() {
        return Some(Suffix::UnsignedLong);
    }
    if text == b"UL".as_slice() {
        return Some(Suffix::UnsignedLong);
    }
    if text == b"lu".as_slice() {
        return Some(Suffix::UnsignedLong);
    }
    if text == b"Lu".as_slice() {
        return Some(Suffix::UnsignedLong);
    }
    if text == b"lU".as_slice() {
        return Some(Suffix::UnsignedLong);
    }
    if text == b"LU".as_slice() {
        return Some(Suffix::UnsignedLong);
    }
    if text == b"ll".as_slice() {
        return Some(Suffix::LongLong);
    }
    if text == b"LL".as_slice() {
        return Some(Suffix::LongLong);
    }
    if text == b"ull".as_slice() {
        return Some(Suffix::LongLong);
    }
    if text == b"uLL".as_slice() {
        return Some(Suffix::LongLong);
    }
    if text == b"Ull".as_slice() {
        return Some(Suffix::LongLong);
    }
    if text == b"ULL".as_slice() {
        return Some(Suffix::LongLong);
    }
    if text == b"llu".as_slice() {
        return Some(Suffix::LongLong);
    }
    if text == b"LLu".as_slice() {
        return Some(Suffix::LongLong);
    }
    if text == b"llU".as_slice() {
        return Some(Suffix::LongLong);
    }
    if text == b"LLU".as_slice() {
        return Some(Suffix::LongLong);
    }
    None
}

/// The suffix after `count` digits, or `None` where it is none or there are no digits.
pub fn suffix_behind(count: usize, text: &[u8]) -> Option<Suffix>
    ensures { result ≡ suffix_behind count text.now }
{
    if count == 0 {
        return None;
    }
    suffix_of(behind(text, count))
}

const DECIMAL: &[IntType] = &[IntType::Int, IntType::Long];

const OTHER: &[IntType] = &[IntType::Int, IntType::UInt, IntType::Long, IntType::ULong];

const UNSIGNED: &[IntType] = &[IntType::UInt, IntType::ULong];

const LONG: &[IntType] = &[IntType::Long];

const OTHER_LONG: &[IntType] = &[IntType::Long, IntType::ULong];

const UNSIGNED_LONG: &[IntType] = &[IntType::ULong];

// The types that a constant may have, in their order.
fn types(decimal: bool, suffix: Suffix) -> &'static [IntType]
    ensures { result.now ≡ types_of decimal suffix }
{
    match suffix {
        Suffix::Plain => { if decimal { DECIMAL } else { OTHER } }
        Suffix::Unsigned => UNSIGNED,
        Suffix::Long => { if decimal { LONG } else { OTHER_LONG } }
        Suffix::UnsignedLong => UNSIGNED_LONG,
        Suffix::LongLong => &[],
    }
}

// The constant with the first type that has the value.
fn typed(value: u32, types: &[IntType]) -> Result<Constant, Code>
    ensures { result ≡ typed value types.now }
{
    for of in types {
        if of.contains(i64::from(value)) {
            return Ok(Constant { of: *of, value });
        }
    }
    Err(Code::LeftOutLongLong)
}

// The same, of the value of digits, which is `None` where it is over 18446744073709551615.
fn in_range(value: Option<u64>, types: &[IntType]) -> Result<Constant, Code>
    ensures { (v : ℕ) → MatchOption value (18446744073709551615 < v) (λ w. w ≡ v) → result ≡ in_range v types.now }
{
    let Some(value) = value else {
        return Err(Code::ConstantOutOfRange);
    };
    match u32::try_from(value) {
        Ok(value) => typed(value, types),
        Err(_) => Err(Code::LeftOutLongLong),
    }
}

// Whether the byte begins an exponent (6.4.4.2).
fn is_exponent(hexadecimal: bool, byte: u8) -> bool
    ensures { result ≡ is_exponent hexadecimal byte }
{
    if hexadecimal {
        byte == b'p' || byte == b'P'
    } else {
        byte == b'e' || byte == b'E'
    }
}

fn is_floating(spelling: &[u8]) -> bool
    ensures { result ≡ is_floating spelling.now }
{
    let hexadecimal = is_hexadecimal(spelling);
    spelling
        .iter()
        .any(|byte| *byte == b'.' || is_exponent(hexadecimal, *byte))
}

// The code of a preprocessing number that is no integer constant.
fn no_integer(spelling: &[u8]) -> Code
    ensures { result ≡ no_integer spelling.now }
{
    if is_floating(spelling) {
        Code::LeftOutFloatingConstant
    } else {
        Code::NotAToken
    }
}

/// The constant that a preprocessing number is, or the code of its fault.
pub(crate) fn number(spelling: &[u8]) -> Result<Constant, Code>
    ensures { result ≡ number spelling.now }
{
    let base = base_of(spelling);
    let rest = unprefixed(spelling);
    let count = digit_count(base, rest);
    let Some(suffix) = suffix_behind(count, rest) else {
        return Err(no_integer(spelling));
    };
    in_range(value(base, &rest[..count]), types(base == 10, suffix))
}
