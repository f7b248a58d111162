//! The labels of a `switch` (6.8.4.2).

use crate::flow::{Flow, is_empty};
use srcset::Pos;
use tree::{BlockItem, Stmt};

/// The state after the items of a `switch` so far.
#[derive(Clone, Copy)]
pub(crate) struct Labels {
    // How the items so far may end; before the first label no item is reached.
    passed: Flow,
    has_default: bool,
    // Whether nothing but `;` follows the last label.
    is_bare: bool,
}

impl Labels {
    pub(crate) fn new() -> Labels {
        Labels {
            passed: Flow::ending(),
            has_default: false,
            is_bare: true,
        }
    }

    /// The place of the label in front of an item that the statements before it fall through to. Falling through is allowed from a label with nothing but `;`
    /// after it, and to one whose statement is `break`.
    pub(crate) fn fallen_to(&self, item: &BlockItem) -> Option<Pos> {
        let BlockItem::Statement(statement) = item else {
            return None;
        };
        let pos = label_of(statement)?;
        if self.passed.falls && !self.is_bare && !matches!(labelled(statement), Stmt::Break(_)) {
            Some(pos)
        } else {
            None
        }
    }

    /// Passes a statement that may end so.
    pub(crate) fn pass(&mut self, statement: &Stmt, flow: Flow) {
        let is_label = label_of(statement).is_some();
        let does_nothing = is_empty(labelled(statement));
        if is_label {
            self.passed = Flow {
                falls: true,
                ..self.passed
            }
            .then(flow);
            self.is_bare = does_nothing;
            self.has_default = self.has_default || has_default(statement);
        } else {
            self.passed = self.passed.then(flow);
            self.is_bare = self.is_bare && does_nothing;
        }
    }

    /// How the whole `switch` may end.
    pub(crate) fn flow(&self) -> Flow {
        self.passed.switched(self.has_default)
    }
}

/// The place of the label in front of a statement.
fn label_of(statement: &Stmt) -> Option<Pos> {
    match statement {
        Stmt::Case(pos, _, _) => Some(*pos),
        Stmt::Default(pos, _) => Some(*pos),
        _ => None,
    }
}

/// The statement after all labels.
fn labelled(statement: &Stmt) -> &Stmt {
    match statement {
        Stmt::Case(_, _, inner) => labelled(inner),
        Stmt::Default(_, inner) => labelled(inner),
        _ => statement,
    }
}

/// Whether one of the labels in front of a statement is `default`.
fn has_default(statement: &Stmt) -> bool {
    match statement {
        Stmt::Case(_, _, inner) => has_default(inner),
        Stmt::Default(_, _) => true,
        _ => false,
    }
}
