//! The constants of conditions (ISO/IEC 9899:2011 6.4.4.1, 6.4.4.4, 6.10.1p4).
ghost use Rattle.std.specs.Prelude.{◌≡◌, ◌<◌, ◌==◌, ℕ, MatchOption};
ghost use Rattle.std.specs.List.{list_any};
ghost use Rattle.pp_cond.specs.Condition.{is_u, number_value, character_value, token_value, constant_value};
ghost use Rattle.lexer.specs.Literals.{character};
ghost use Rattle.pp_cond.specs.inside.Operands.{known_option, known_constant};

use crate::operand::Operand;
use lexer::literals::character;
use lexer::numbers::{base_of, digit_count, suffix_behind, unprefixed, value};
use phases::{Kind, PpToken};

fn has_u(suffix: &[u8]) -> bool
    ensures { result ≡ list_any is_u suffix.now }
{
    suffix.iter().any(|byte| *byte == b'u' || *byte == b'U')
}

// In the first of intmax_t and uintmax_t that has the number (6.4.4.1p5).
fn typed(decimal: bool, unsigned: bool, number: u64) -> Option<Operand>
    ensures { known_option result ≡ known_constant (constant_value decimal unsigned number) }
{
    if number < 0x8000_0000_0000_0000 && !unsigned {
        return Some(Operand::Signed(Some(number.cast_signed())));
    }
    if unsigned || !decimal {
        return Some(Operand::Unsigned(Some(number)));
    }
    None
}

// The same, of the value of digits, which is `None` where it is over 18446744073709551615.
fn in_range(decimal: bool, unsigned: bool, number: Option<u64>) -> Option<Operand>
    ensures { (v : ℕ) → MatchOption number (18446744073709551615 < v) (λ w. w ≡ v) → known_option result ≡ known_constant (constant_value decimal unsigned v) }
{
    let Some(number) = number else {
        return None;
    };
    typed(decimal, unsigned, number)
}

fn number(spelling: &[u8]) -> Option<Operand>
    ensures { known_option result ≡ known_constant (number_value spelling.now) }
{
    let base = base_of(spelling);
    let rest = unprefixed(spelling);
    let count = digit_count(base, rest);
    if suffix_behind(count, rest).is_none() {
        return None;
    }
    in_range(
        base == 10,
        has_u(&rest[count..]),
        value(base, &rest[..count]),
    )
}

fn character_constant(spelling: &[u8]) -> Option<Operand>
    ensures { known_option result ≡ known_constant (character_value (character spelling.now)) }
{
    match character(spelling) {
        Ok(constant) => Some(Operand::Signed(Some(i64::from(constant.value)))),
        Err(_) => None,
    }
}

/// The operand that a constant or an identifier is; an identifier is 0.
pub(crate) fn constant(token: &PpToken) -> Option<Operand>
    ensures { known_option result ≡ known_constant (token_value token.now) }
{
    match token.kind() {
        Kind::Identifier => Some(Operand::Signed(Some(0))),
        Kind::Number => number(token.spelling()),
        Kind::CharacterConstant => character_constant(token.spelling()),
        Kind::StringLiteral => None,
        Kind::HeaderName => None,
        Kind::Punctuator => None,
        Kind::Other => None,
    }
}
