//! A frame that waits for an operand while a condition is read.
ghost use Rattle.std.specs.Prelude.{◌≡◌};
ghost use Rattle.pp_cond.specs.inside.Operands.{known_of};
ghost use Rattle.pp_cond.specs.inside.Reading.{wait_of, closes, combined};

use crate::operand::Operand;
use crate::operators::{Operator, PrefixOperator};

/// A frame that waits for an operand, or for the token after one.
#[derive(Clone, Copy, Debug)]
pub enum Frame {
    /// `(`
    Open,
    /// A prefix operator.
    Prefix(PrefixOperator),
    /// A left operand and its operator.
    Left {
        /// The level of the operator, 0 of the tightest.
        level: u8,
        /// The operator.
        operator: Operator,
        /// The left operand.
        operand: Operand,
    },
    /// The first operand of `? :`, which waits for the `:`.
    Asked(Operand),
    /// The first two operands of `? :`.
    Otherwise(Operand, Operand),
}

impl Frame {
    /// Whether a token that ends operators up to this level ends it. A level over 10 ends `? :`.
    pub(crate) fn closes(self, bound: u8) -> bool
        ensures { result ≡ closes bound (wait_of self) }
    {
        match self {
            Frame::Open => false,
            Frame::Prefix(_) => true,
            Frame::Left {
                level,
                operator: _,
                operand: _,
            } => level <= bound,
            Frame::Asked(_) => false,
            Frame::Otherwise(_, _) => 10 < bound,
        }
    }

    /// The operand that it makes of its last operand.
    pub(crate) fn combined(self, last: Operand) -> Operand
        ensures { known_of result ≡ combined (wait_of self) (known_of last) }
    {
        match self {
            Frame::Open => last,
            Frame::Prefix(operator) => last.prefixed(operator),
            Frame::Left {
                level: _,
                operator,
                operand,
            } => operand.joined(operator, last),
            Frame::Asked(_) => last,
            Frame::Otherwise(condition, first) => condition.choice(first, last),
        }
    }
}
