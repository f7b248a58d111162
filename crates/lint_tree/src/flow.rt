//! How a statement may end.

use tree::{Expr, Stmt};

/// How a statement may end, by its form and by conditions that are constants: each that is false is so on every run.
#[derive(Clone, Copy, Debug, PartialEq, Eq)]
pub(crate) struct Flow {
    /// At its end.
    pub(crate) falls: bool,
    /// By a `break` that leaves a statement around it.
    pub(crate) breaks: bool,
    /// By a `continue` of a loop around it.
    pub(crate) continues: bool,
}

impl Flow {
    /// At its end alone.
    pub(crate) fn falling() -> Flow {
        Flow {
            falls: true,
            breaks: false,
            continues: false,
        }
    }

    /// A flow that does not continue in the function.
    pub(crate) fn ending() -> Flow {
        Flow {
            falls: false,
            breaks: false,
            continues: false,
        }
    }

    /// By a `break` alone.
    pub(crate) fn breaking() -> Flow {
        Flow {
            falls: false,
            breaks: true,
            continues: false,
        }
    }

    /// By a `continue` alone.
    pub(crate) fn continuing() -> Flow {
        Flow {
            falls: false,
            breaks: false,
            continues: true,
        }
    }

    /// As the first where a condition holds, and else as the second.
    pub(crate) fn chosen(test: Truth, yes: Flow, no: Flow) -> Flow {
        match test {
            Truth::Always => yes,
            Truth::Never => no,
            Truth::Unknown => yes.or(no),
        }
    }

    /// As one of the two may.
    pub(crate) fn or(self, other: Flow) -> Flow {
        Flow {
            falls: self.falls || other.falls,
            breaks: self.breaks || other.breaks,
            continues: self.continues || other.continues,
        }
    }

    /// One statement, then the other.
    pub(crate) fn then(self, next: Flow) -> Flow {
        Flow {
            falls: self.falls && next.falls,
            breaks: self.breaks || next.breaks,
            continues: self.continues || next.continues,
        }
    }

    /// A loop with this body, whose test comes before it.
    pub(crate) fn looped(self, test: Truth) -> Flow {
        Flow {
            falls: self.breaks || test != Truth::Always,
            breaks: false,
            continues: false,
        }
    }

    /// A loop with this body, whose test follows it.
    pub(crate) fn repeated(self, test: Truth) -> Flow {
        let is_tested = self.falls || self.continues;
        Flow {
            falls: self.breaks || (is_tested && test != Truth::Always),
            breaks: false,
            continues: false,
        }
    }

    /// A `switch` with this body.
    pub(crate) fn switched(self, has_default: bool) -> Flow {
        Flow {
            falls: self.falls || self.breaks || !has_default,
            breaks: false,
            continues: self.continues,
        }
    }
}

/// The known truth of a condition.
#[derive(Clone, Copy, Debug, PartialEq, Eq)]
pub(crate) enum Truth {
    Always,
    Never,
    Unknown,
}

impl Truth {
    /// Of an expression: a constant is known.
    pub(crate) fn of(expression: &Expr) -> Truth {
        match expression {
            Expr::Constant(_, _, 0) => Truth::Never,
            Expr::Constant(_, _, _) => Truth::Always,
            Expr::Paren(inner) => Truth::of(inner),
            _ => Truth::Unknown,
        }
    }

    /// Of the test of a `for`, which may be left out (6.8.5.3p2).
    pub(crate) fn of_test(test: &Option<Expr>) -> Truth {
        match test {
            Some(expression) => Truth::of(expression),
            None => Truth::Always,
        }
    }
}

/// Whether a statement is `;`.
pub(crate) fn is_empty(statement: &Stmt) -> bool {
    matches!(statement, Stmt::Empty(_))
}
