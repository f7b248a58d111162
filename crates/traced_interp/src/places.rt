//! The place of an expression.

use srcset::Pos;
use typed_ast::{Place, Value};

/// The place of an expression: that of its operator, or of its first operand's where it has none. `None` of a constant.
pub(crate) fn place_of(value: &Value) -> Option<Pos> {
    match value {
        Value::Constant(_, _) => None,
        Value::Read(_, place) => Some(position_of(place)),
        Value::Assigned(at, _, _, _) | Value::Compound(at, _, _, _, _, _) => Some(*at),
        Value::Stepped(at, _, _, _, _, _) | Value::Unary(at, _, _, _) => Some(*at),
        Value::Binary(at, _, _, _, _) | Value::Call(at, _, _, _, _) => Some(*at),
        Value::BothTrue(first, _) | Value::OneTrue(first, _) => place_of(first),
        Value::Chosen(_, first, _, _) | Value::Sequence(first, _) => place_of(first),
        Value::Cast(_, operand) | Value::Discarded(operand) => place_of(operand),
    }
}

fn position_of(place: &Place) -> Pos {
    match place {
        Place::Named(at, _) | Place::Element(at, _, _) => *at,
    }
}
