//! The operands of a condition: numbers of intmax_t and uintmax_t, both of 64 bits (ISO/IEC 9899:2011 6.10.1p4).
ghost use Rattle.std.specs.Prelude.{◌≡◌, ◌≤◌, ◌||◌, not, true, false, IfSome};
ghost use Rattle.pp_cond.specs.Values.{is_shift, is_comparison};
ghost use Rattle.pp_cond.specs.inside.Operands.{known_of, natural, known_prefix, known_binary, known_both, known_either, known_choice, known_joined, truth_value, truth_number, negated, converted_value, known_converted, known_shifted, count_value, computed_value};

use crate::arithmetic::{
    complement, complement_unsigned, is_comparison, is_shift, on_signed, on_unsigned, opposite,
    opposite_unsigned,
};
use crate::operators::{Operator, PrefixOperator};
use ctypes::BinOp;

/// The type of an operand, and its value, `None` where evaluating it gives none.
#[derive(Clone, Copy, PartialEq, Eq, Debug)]
pub enum Operand {
    /// Of intmax_t.
    Signed(Option<i64>),
    /// Of uintmax_t.
    Unsigned(Option<u64>),
}

// The number of a truth, 1 or 0.
fn of_truth(truth: Option<bool>) -> Operand
    ensures { known_of result ≡ record { unsigned = false; value = truth_number truth } }
{
    match truth {
        Some(true) => Operand::Signed(Some(1)),
        Some(false) => Operand::Signed(Some(0)),
        None => Operand::Signed(None),
    }
}

fn negated(truth: Option<bool>) -> Option<bool>
    ensures { result ≡ negated truth }
{
    match truth {
        Some(truth) => Some(!truth),
        None => None,
    }
}

// An operation on numbers of intmax_t, if both are there.
fn both_signed(operator: BinOp, a: Option<i64>, b: Option<i64>) -> Option<i64>
    ensures { result ≡ computed_value operator false a b }
{
    let Some(a) = a else {
        return None;
    };
    let Some(b) = b else {
        return None;
    };
    on_signed(operator, a, b)
}

// An operation on numbers of uintmax_t, if both are there.
fn both_unsigned(operator: BinOp, a: Option<u64>, b: Option<u64>) -> Option<u64>
    ensures value { natural result ≡ computed_value operator true (natural a) (natural b) }
    ensures truth { is_comparison operator ≡ true → IfSome result (λ v. v ≤ 1) }
{
    let Some(a) = a else {
        return None;
    };
    let Some(b) = b else {
        return None;
    };
    on_unsigned(operator, a, b)
}

// The same; a comparison gives an int.
fn result_of_unsigned(operator: BinOp, a: Option<u64>, b: Option<u64>) -> Operand
    requires { is_shift operator ≡ false }
    ensures { known_of result ≡ record { unsigned = not (is_comparison operator); value = computed_value operator true (natural a) (natural b) } }
{
    let value = both_unsigned(operator, a, b);
    if is_comparison(operator) {
        match value {
            Some(truth) => Operand::Signed(Some(truth.cast_signed())),
            None => Operand::Signed(None),
        }
    } else {
        Operand::Unsigned(value)
    }
}

// The count of a shift as a number of intmax_t, and as one of uintmax_t.
fn signed_count(count: Option<u8>) -> Option<i64>
    ensures { result ≡ natural count }
{
    match count {
        Some(count) => Some(i64::from(count)),
        None => None,
    }
}

fn unsigned_count(count: Option<u8>) -> Option<u64>
    ensures { result ≡ count }
{
    match count {
        Some(count) => Some(u64::from(count)),
        None => None,
    }
}

impl Operand {
    /// Whether its type is uintmax_t.
    fn is_unsigned(self) -> bool
        ensures { result ≡ (known_of self).unsigned }
    {
        match self {
            Operand::Signed(_) => false,
            Operand::Unsigned(_) => true,
        }
    }

    /// Whether it is not 0, where it has a value.
    pub(crate) fn truth(self) -> Option<bool>
        ensures { result ≡ truth_value (known_of self).value }
    {
        match self {
            Operand::Signed(None) => None,
            Operand::Signed(Some(number)) => Some(number != 0),
            Operand::Unsigned(None) => None,
            Operand::Unsigned(Some(number)) => Some(number != 0),
        }
    }

    /// Its value converted to uintmax_t (6.3.1.3p2).
    fn bits(self) -> Option<u64>
        ensures { natural result ≡ converted_value true (known_of self).value }
    {
        match self {
            Operand::Signed(None) => None,
            Operand::Signed(Some(number)) => Some(number.cast_unsigned()),
            Operand::Unsigned(number) => number,
        }
    }

    /// The same number in the common type of both (6.3.1.8).
    fn converted_with(self, other: Operand) -> Operand
        ensures { known_of result ≡ known_converted ((known_of self).unsigned || (known_of other).unsigned) (known_of self) }
    {
        if self.is_unsigned() || other.is_unsigned() {
            Operand::Unsigned(self.bits())
        } else {
            self
        }
    }

    fn opposite(self) -> Operand
        ensures { known_of result ≡ known_prefix PrefixOperator.Minus (known_of self) }
    {
        match self {
            Operand::Signed(None) => Operand::Signed(None),
            Operand::Signed(Some(number)) => Operand::Signed(opposite(number)),
            Operand::Unsigned(None) => Operand::Unsigned(None),
            Operand::Unsigned(Some(number)) => Operand::Unsigned(Some(opposite_unsigned(number))),
        }
    }

    fn complement(self) -> Operand
        ensures { known_of result ≡ known_prefix PrefixOperator.Complement (known_of self) }
    {
        match self {
            Operand::Signed(None) => Operand::Signed(None),
            Operand::Signed(Some(number)) => Operand::Signed(Some(complement(number))),
            Operand::Unsigned(None) => Operand::Unsigned(None),
            Operand::Unsigned(Some(number)) => Operand::Unsigned(Some(complement_unsigned(number))),
        }
    }

    /// The operator in front of it (6.5.3.3).
    pub(crate) fn prefixed(self, operator: PrefixOperator) -> Operand
        ensures { known_of result ≡ known_prefix operator (known_of self) }
    {
        match operator {
            PrefixOperator::Plus => self,
            PrefixOperator::Minus => self.opposite(),
            PrefixOperator::Complement => self.complement(),
            PrefixOperator::Negation => of_truth(negated(self.truth())),
        }
    }

    /// Its value as a count of a bit, 64 where it is none (6.5.7p3).
    fn count(self) -> Option<u8>
        ensures { natural result ≡ count_value (known_of self).value }
    {
        match self {
            Operand::Signed(None) => None,
            Operand::Signed(Some(number)) => Some(if 0 <= number && number < 64 {
                number.cast_unsigned() as u8
            } else {
                64
            }),
            Operand::Unsigned(None) => None,
            Operand::Unsigned(Some(number)) => Some(if number < 64 { number as u8 } else { 64 }),
        }
    }

    // Shifted in its own type (6.5.7).
    fn shifted(self, operator: BinOp, count: Option<u8>) -> Operand
        ensures { known_of result ≡ known_shifted operator (known_of self) (natural count) }
    {
        match self {
            Operand::Signed(number) => {
                Operand::Signed(both_signed(operator, number, signed_count(count)))
            }
            Operand::Unsigned(number) => {
                Operand::Unsigned(both_unsigned(operator, number, unsigned_count(count)))
            }
        }
    }

    // Under the usual arithmetic conversions (6.3.1.8).
    fn usual(self, operator: BinOp, last: Operand) -> Operand
        requires { is_shift operator ≡ false }
        ensures { known_of result ≡ known_binary operator (known_of self) (known_of last) }
    {
        match self {
            Operand::Signed(a) => match last {
                Operand::Signed(b) => Operand::Signed(both_signed(operator, a, b)),
                Operand::Unsigned(b) => result_of_unsigned(operator, self.bits(), b),
            },
            Operand::Unsigned(a) => result_of_unsigned(operator, a, last.bits()),
        }
    }

    fn binary(self, operator: BinOp, last: Operand) -> Operand
        ensures { known_of result ≡ known_binary operator (known_of self) (known_of last) }
    {
        if is_shift(operator) {
            self.shifted(operator, last.count())
        } else {
            self.usual(operator, last)
        }
    }

    // `||` evaluates its right operand only where the left one is 0 (6.5.14p4).
    fn or_else(self, last: Operand) -> Operand
        ensures { known_of result ≡ known_either (known_of self) (known_of last) }
    {
        match self.truth() {
            None => of_truth(None),
            Some(true) => of_truth(Some(true)),
            Some(false) => of_truth(last.truth()),
        }
    }

    // `&&` evaluates its right operand only where the left one is not 0 (6.5.13p4).
    fn and_then(self, last: Operand) -> Operand
        ensures { known_of result ≡ known_both (known_of self) (known_of last) }
    {
        match self.truth() {
            None => of_truth(None),
            Some(true) => of_truth(last.truth()),
            Some(false) => of_truth(Some(false)),
        }
    }

    /// Both sides of an operator (6.5.5 to 6.5.14).
    pub(crate) fn joined(self, operator: Operator, last: Operand) -> Operand
        ensures { known_of result ≡ known_joined operator (known_of self) (known_of last) }
    {
        match operator {
            Operator::OrElse => self.or_else(last),
            Operator::AndThen => self.and_then(last),
            Operator::Two(operator) => self.binary(operator, last),
        }
    }

    /// `self ? first : last`, in the common type of the last two (6.5.15).
    pub(crate) fn choice(self, first: Operand, last: Operand) -> Operand
        ensures { known_of result ≡ known_choice (known_of self) (known_of first) (known_of last) }
    {
        match self.truth() {
            None => {
                if first.is_unsigned() || last.is_unsigned() {
                    Operand::Unsigned(None)
                } else {
                    Operand::Signed(None)
                }
            }
            Some(true) => first.converted_with(last),
            Some(false) => last.converted_with(first),
        }
    }
}
