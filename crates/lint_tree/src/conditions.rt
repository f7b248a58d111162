//! Which expressions do nothing, and which compare a comparison.

use srcset::Pos;
use tree::{BinaryOp, Expr, PrefixOp, TypeName, TypeSpecifier, Word};

/// The use of the value of an expression.
#[derive(Clone, Copy, Debug, PartialEq, Eq)]
pub(crate) enum Use {
    /// As a number.
    Value,
    /// As a condition, with no parentheses of its own.
    Condition,
    /// For nothing.
    Nothing,
    /// As a place that is given a value.
    Place,
}

impl Use {
    /// The use of an expression in parentheses: they say that an assignment is meant.
    pub(crate) fn in_parentheses(self) -> Use {
        match self {
            Use::Condition => Use::Value,
            Use::Value => Use::Value,
            Use::Nothing => Use::Nothing,
            Use::Place => Use::Place,
        }
    }

    /// The use of an array whose element is used so.
    pub(crate) fn of_array(self) -> Use {
        if self == Use::Place {
            Use::Place
        } else {
            Use::Value
        }
    }

    /// The use of an operand that is given another value: it counts as used where that value is.
    pub(crate) fn of_changed(self) -> Use {
        if self == Use::Nothing {
            Use::Place
        } else {
            Use::Value
        }
    }

    /// The use of a sign's operand.
    pub(crate) fn of_signed(op: PrefixOp) -> Use {
        if op == PrefixOp::Not {
            Use::Condition
        } else {
            Use::Value
        }
    }

    /// The use of an operator's left operand.
    pub(crate) fn of_left(self, op: BinaryOp) -> Use {
        match op {
            BinaryOp::And | BinaryOp::Or => Use::Condition,
            BinaryOp::Comma => Use::Nothing,
            _ => Use::Value,
        }
    }

    /// The use of an operator's right operand.
    pub(crate) fn of_right(self, op: BinaryOp) -> Use {
        match op {
            BinaryOp::And | BinaryOp::Or => self.of_tested(),
            BinaryOp::Comma => self,
            _ => Use::Value,
        }
    }

    /// The use of the second operand of `&&` and `||`.
    fn of_tested(self) -> Use {
        if self == Use::Nothing {
            Use::Nothing
        } else {
            Use::Condition
        }
    }
}

/// The place of an expression's outermost operator, where it changes nothing when its value is not used; `None` where the expression does something, or is
/// cast to `void`. The left operands of comma operators are not checked.
pub(crate) fn idle(expression: &Expr) -> Option<Pos> {
    match expression {
        Expr::Call(_, _, _) => None,
        Expr::After(_, _, _) | Expr::Before(_, _, _) => None,
        Expr::Assign(_, _, _, _) => None,
        Expr::Paren(inner) => idle(inner),
        Expr::Cast(pos, name, _) => { if is_void(name) { None } else { Some(*pos) } }
        Expr::Binary(pos, op, _, right) => {
            if matches!(op, BinaryOp::Comma | BinaryOp::And | BinaryOp::Or) {
                idle(right)
            } else {
                Some(*pos)
            }
        }
        Expr::Conditional(pos, _, yes, no) => {
            if idle(yes).is_some() && idle(no).is_some() {
                Some(*pos)
            } else {
                None
            }
        }
        Expr::Name(pos, _) => Some(*pos),
        Expr::Constant(pos, _, _) => Some(*pos),
        Expr::StringLiteral(pos, _) => Some(*pos),
        Expr::Subscript(pos, _, _) => Some(*pos),
        Expr::Prefix(pos, _, _) => Some(*pos),
        Expr::SizeofExpr(pos, _) => Some(*pos),
        Expr::SizeofType(pos, _) => Some(*pos),
    }
}

/// Whether a type name is `void`.
fn is_void(name: &TypeName) -> bool {
    has_void(name.specifiers.list.as_slice())
}

/// Whether one of the words is `void`.
pub(crate) fn has_void(words: &[TypeSpecifier]) -> bool {
    for word in words {
        if matches!(word, TypeSpecifier::Word(Word::Void)) {
            return true;
        }
    }
    false
}

/// Whether an operator compares the result of a like comparison that is to its left without parentheses (6.5.8p6).
pub(crate) fn is_chained(op: BinaryOp, left: &Expr) -> bool {
    match left {
        Expr::Binary(_, inner, _, _) => {
            (is_relational(op) && is_relational(*inner)) || (is_equality(op) && is_equality(*inner))
        }
        _ => false,
    }
}

fn is_relational(op: BinaryOp) -> bool {
    matches!(
        op,
        BinaryOp::Less | BinaryOp::Greater | BinaryOp::LessEqual | BinaryOp::GreaterEqual
    )
}

fn is_equality(op: BinaryOp) -> bool {
    matches!(op, BinaryOp::Equal | BinaryOp::NotEqual)
}
