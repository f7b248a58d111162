//! Expressions, in the order in which they are evaluated.

use crate::paths::Point;
use crate::ranges::span_of;
use crate::walker::Walker;
use std::alloc::AllocError;
use tree::PrefixOp;
use typed_ast::{Argument, Place, Value};

impl Walker {
    /// Walks an expression. For a condition the present point is then that where it holds, and the result that where it does not.
    #[cycle(values)]
    pub(crate) fn value(&mut self, value: &Value, is_condition: bool) -> Result<Point, AllocError> {
        match value {
            Value::Constant(_, number) => self.constant(*number, is_condition),
            Value::Read(_, place) => {
                self.place(place)?;
                self.note_read(place)?;
                self.split(is_condition)
            }
            Value::Assigned(_, _, place, stored) => {
                self.place(place)?;
                self.value(stored, false)?;
                self.note_stored(place);
                self.split(is_condition)
            }
            Value::Compound(_, _, _, _, place, operand) => {
                self.place(place)?;
                self.note_read(place)?;
                self.value(operand, false)?;
                self.note_stored(place);
                self.split(is_condition)
            }
            Value::Stepped(_, _, _, _, _, place) => {
                self.place(place)?;
                self.note_read(place)?;
                self.note_stored(place);
                self.split(is_condition)
            }
            Value::Unary(_, PrefixOp::Not, _, operand) => {
                let no = self.value(operand, is_condition)?;
                Ok(self.turned(no))
            }
            Value::Unary(_, _, _, operand) => {
                self.value(operand, false)?;
                self.decided(value, is_condition)
            }
            Value::Binary(pos, op, ty, left, right) => {
                self.value(left, false)?;
                self.value(right, false)?;
                self.note_comparison(*pos, *op, *ty, left, right)?;
                self.decided(value, is_condition)
            }
            Value::BothTrue(left, right) => {
                let first = self.value(left, true)?;
                let second = self.value(right, is_condition)?;
                Ok(self.both_true(first, second, is_condition))
            }
            Value::OneTrue(left, right) => {
                let no = self.value(left, true)?;
                let yes = self.go_to(no);
                let no = self.value(right, is_condition)?;
                self.meet(yes);
                Ok(no)
            }
            Value::Chosen(_, test, first, second) => {
                let no = self.value(test, true)?;
                self.value(first, false)?;
                let yes = self.go_to(no);
                self.value(second, false)?;
                self.meet(yes);
                self.split(is_condition)
            }
            Value::Sequence(first, last) => {
                self.value(first, false)?;
                self.value(last, is_condition)
            }
            Value::Cast(_, operand) => {
                self.value(operand, false)?;
                self.decided(value, is_condition)
            }
            Value::Discarded(operand) => {
                self.value(operand, false)?;
                self.split(is_condition)
            }
            Value::Call(_, callee, _, _, arguments) => {
                self.arguments(arguments.as_slice())?;
                self.note_call(*callee)?;
                self.split(is_condition)
            }
        }
    }

    /// Walks the subscripts of a place.
    #[cycle(values)]
    fn place(&mut self, place: &Place) -> Result<(), AllocError> {
        match place {
            Place::Named(_, _) => Ok(()),
            Place::Element(pos, array, index) => {
                self.place(array)?;
                self.value(index, false)?;
                self.note_index(*pos, array, index)
            }
        }
    }

    #[cycle(values)]
    fn arguments(&mut self, arguments: &[Argument]) -> Result<(), AllocError> {
        for argument in arguments {
            match argument {
                Argument::Number(_, value) => {
                    self.value(value, false)?;
                }
                Argument::Array(place) => self.place(place)?,
            }
        }
        Ok(())
    }

    /// The end of an operation: one that has a single value is a constant.
    fn decided(&mut self, value: &Value, is_condition: bool) -> Result<Point, AllocError> {
        let values = span_of(value);
        if values.is_one() {
            self.constant(values.least, is_condition)
        } else {
            self.split(is_condition)
        }
    }

    /// A constant: as a condition it leads one way.
    fn constant(&mut self, number: i64, is_condition: bool) -> Result<Point, AllocError> {
        if !is_condition {
            return Ok(self.now);
        }
        let other = self.paths.nowhere()?;
        if number != 0 {
            return Ok(other);
        }
        Ok(self.go_to(other))
    }

    /// Continues at another point; returns the one before.
    pub(crate) fn go_to(&mut self, point: Point) -> Point {
        let before = self.now;
        self.now = point;
        before
    }

    /// `!`: continues where the operand does not hold; returns the point before.
    fn turned(&mut self, no: Point) -> Point {
        self.go_to(no)
    }

    /// `&&`, where the first did not hold, or the second.
    fn both_true(&mut self, first: Point, second: Point, is_condition: bool) -> Point {
        if is_condition {
            self.paths.join(first, second)
        } else {
            self.meet(first);
            self.now
        }
    }
}
