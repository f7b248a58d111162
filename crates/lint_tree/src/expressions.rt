//! Expressions (6.5).

use crate::conditions::{Use, idle, is_chained};
use crate::walker::Walker;
use lint::Kind;
use srcset::Pos;
use std::alloc::AllocError;
use tree::{AssignOp, BinaryOp, Expr};

impl Walker {
    /// Walks an expression statement, and warns where it does nothing.
    pub(crate) fn alone(&mut self, expression: &Expr) -> Result<(), AllocError> {
        self.note_idle(expression)?;
        self.expression(expression, Use::Nothing)
    }

    /// Walks an expression with this use.
    #[cycle(expressions)]
    pub(crate) fn expression(&mut self, expression: &Expr, used: Use) -> Result<(), AllocError> {
        match expression {
            Expr::Name(_, name) => {
                self.use_name(*name, used);
                Ok(())
            }
            Expr::Constant(_, _, _) => Ok(()),
            Expr::StringLiteral(_, _) => Ok(()),
            Expr::Paren(inner) => self.expression(inner, used.in_parentheses()),
            Expr::Call(_, name, arguments) => {
                self.call(*name);
                self.values(arguments.as_slice())
            }
            Expr::Subscript(_, array, index) => {
                self.expression(array, used.of_array())?;
                self.expression(index, Use::Value)
            }
            Expr::After(_, _, operand) => self.expression(operand, used.of_changed()),
            Expr::Before(_, _, operand) => self.expression(operand, used.of_changed()),
            Expr::Prefix(_, op, operand) => self.expression(operand, Use::of_signed(*op)),
            Expr::SizeofExpr(_, operand) => self.expression(operand, Use::Value),
            Expr::SizeofType(_, name) => self.values(name.sizes.as_slice()),
            Expr::Cast(_, name, operand) => {
                self.values(name.sizes.as_slice())?;
                self.expression(operand, Use::Value)
            }
            Expr::Binary(pos, op, left, right) => {
                self.note_binary(*pos, *op, left)?;
                self.expression(left, used.of_left(*op))?;
                self.expression(right, used.of_right(*op))
            }
            Expr::Conditional(_, test, yes, no) => {
                self.expression(test, Use::Condition)?;
                self.expression(yes, used)?;
                self.expression(no, used)
            }
            Expr::Assign(pos, op, place, value) => {
                self.note_assignment(*pos, *op, used)?;
                self.expression(place, used.of_changed())?;
                self.expression(value, Use::Value)
            }
        }
    }

    /// Walks expressions whose values are used as numbers.
    #[cycle(expressions)]
    pub(crate) fn values(&mut self, expressions: &[Expr]) -> Result<(), AllocError> {
        for expression in expressions {
            self.expression(expression, Use::Value)?;
        }
        Ok(())
    }

    /// A name with this use.
    fn use_name(&mut self, name: usize, used: Use) {
        if used == Use::Place {
            self.scopes.set(name);
        } else {
            self.scopes.read(name);
        }
    }

    /// Warns of an expression that does nothing.
    fn note_idle(&mut self, expression: &Expr) -> Result<(), AllocError> {
        match idle(expression) {
            Some(pos) => self.warn(Kind::UnusedValue, pos),
            None => Ok(()),
        }
    }

    /// Warns of an operator whose left operand does nothing, or is a comparison that is compared.
    fn note_binary(&mut self, pos: Pos, op: BinaryOp, left: &Expr) -> Result<(), AllocError> {
        if op == BinaryOp::Comma {
            self.note_idle(left)
        } else if is_chained(op, left) {
            self.warn(Kind::ChainedComparison, pos)
        } else {
            Ok(())
        }
    }

    /// Warns of an assignment that is a condition.
    fn note_assignment(&mut self, pos: Pos, op: AssignOp, used: Use) -> Result<(), AllocError> {
        if op == AssignOp::Plain && used == Use::Condition {
            self.warn(Kind::Parentheses, pos)
        } else {
            Ok(())
        }
    }
}
