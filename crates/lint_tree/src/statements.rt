//! Statements (6.8).

use crate::conditions::Use;
use crate::flow::{Flow, Truth};
use crate::switches::Labels;
use crate::walker::Walker;
use lint::Kind;
use srcset::Pos;
use std::alloc::AllocError;
use tree::{BlockItem, Expr, ForHead, ForStart, Stmt};

impl Walker {
    /// Walks a statement; returns how it may end.
    #[cycle(statements)]
    pub(crate) fn statement(&mut self, statement: &Stmt) -> Result<Flow, AllocError> {
        match statement {
            Stmt::Block(_, items) => {
                let mark = self.scopes.mark();
                let flow = self.items(items.as_slice())?;
                self.end_scope(mark)?;
                Ok(flow)
            }
            Stmt::Empty(_) => Ok(Flow::falling()),
            Stmt::Expression(_, expression) => {
                self.alone(expression)?;
                Ok(self.flow_of(expression))
            }
            Stmt::If(_, test, body) => {
                self.condition(test)?;
                self.note_empty(body)?;
                let flow = self.statement(body)?;
                Ok(Flow::chosen(Truth::of(test), flow, Flow::falling()))
            }
            Stmt::IfElse(_, test, yes, no) => {
                self.condition(test)?;
                self.note_empty(no)?;
                let flow = self.statement(yes)?;
                let other = self.statement(no)?;
                Ok(Flow::chosen(Truth::of(test), flow, other))
            }
            Stmt::Switch(_, value, body) => {
                self.expression(value, Use::Value)?;
                self.switch_body(body)
            }
            Stmt::Case(_, value, labelled) => {
                self.expression(value, Use::Value)?;
                self.statement(labelled)
            }
            Stmt::Default(_, labelled) => self.statement(labelled),
            Stmt::While(_, test, body) => {
                self.condition(test)?;
                let flow = self.statement(body)?;
                Ok(flow.looped(Truth::of(test)))
            }
            Stmt::DoWhile(_, body, test) => {
                let flow = self.statement(body)?;
                self.condition(test)?;
                Ok(flow.repeated(Truth::of(test)))
            }
            Stmt::For(_, head, body) => {
                let mark = self.scopes.mark();
                self.head(head)?;
                let flow = self.statement(body)?;
                self.end_scope(mark)?;
                Ok(flow.looped(Truth::of_test(&head.test)))
            }
            Stmt::Break(_) => Ok(Flow::breaking()),
            Stmt::Continue(_) => Ok(Flow::continuing()),
            Stmt::Return(_, value) => {
                self.optional(value, Use::Value)?;
                Ok(Flow::ending())
            }
        }
    }

    /// Walks the items of a block, whose scope is open.
    #[cycle(statements)]
    pub(crate) fn items(&mut self, items: &[BlockItem]) -> Result<Flow, AllocError> {
        let mut flow = Flow::falling();
        let mut empty = None;
        for item in items {
            self.note_loop(empty, item)?;
            empty = empty_loop(item);
            match item {
                BlockItem::Declaration(declaration) => self.inner_declaration(declaration)?,
                BlockItem::Statement(statement) => {
                    flow = flow.then(self.statement(statement)?);
                }
            }
        }
        Ok(flow)
    }

    /// Walks the body of a `switch`; returns how the whole may end.
    #[cycle(statements)]
    fn switch_body(&mut self, body: &Stmt) -> Result<Flow, AllocError> {
        match body {
            Stmt::Block(_, items) => {
                let mark = self.scopes.mark();
                let flow = self.switch_items(items.as_slice())?;
                self.end_scope(mark)?;
                Ok(flow)
            }
            _ => Ok(Flow::falling()),
        }
    }

    /// Walks the items in the block of a `switch`, and warns of a label that is reached from above.
    #[cycle(statements)]
    fn switch_items(&mut self, items: &[BlockItem]) -> Result<Flow, AllocError> {
        let mut labels = Labels::new();
        for item in items {
            if let Some(pos) = labels.fallen_to(item) {
                self.warn(Kind::ImplicitFallthrough, pos)?;
            }
            match item {
                BlockItem::Declaration(declaration) => self.inner_declaration(declaration)?,
                BlockItem::Statement(statement) => {
                    let flow = self.statement(statement)?;
                    labels.pass(statement, flow);
                }
            }
        }
        Ok(labels.flow())
    }

    /// Walks the parts in the parentheses of a `for`.
    fn head(&mut self, head: &ForHead) -> Result<(), AllocError> {
        match &head.start {
            ForStart::Expression(start) => self.optional_alone(start)?,
            ForStart::Declaration(declaration) => self.inner_declaration(declaration)?,
        }
        self.optional(&head.test, Use::Condition)?;
        self.optional_alone(&head.step)
    }

    fn condition(&mut self, test: &Expr) -> Result<(), AllocError> {
        self.expression(test, Use::Condition)
    }

    fn optional(&mut self, expression: &Option<Expr>, used: Use) -> Result<(), AllocError> {
        match expression {
            Some(expression) => self.expression(expression, used),
            None => Ok(()),
        }
    }

    fn optional_alone(&mut self, expression: &Option<Expr>) -> Result<(), AllocError> {
        match expression {
            Some(expression) => self.alone(expression),
            None => Ok(()),
        }
    }

    /// How an expression statement may end: a call of `rv_exit` does not.
    fn flow_of(&self, expression: &Expr) -> Flow {
        match expression {
            Expr::Call(_, name, _) if self.is_exit(*name) => Flow::ending(),
            _ => Flow::falling(),
        }
    }

    /// Warns of a body that is `;`.
    fn note_empty(&mut self, body: &Stmt) -> Result<(), AllocError> {
        match body {
            Stmt::Empty(pos) => self.warn(Kind::EmptyBody, *pos),
            _ => Ok(()),
        }
    }

    /// Warns of the `;` at this place, the body of a loop, where a block directly follows it.
    fn note_loop(&mut self, empty: Option<Pos>, item: &BlockItem) -> Result<(), AllocError> {
        match item {
            BlockItem::Statement(Stmt::Block(_, _)) => match empty {
                Some(pos) => self.warn(Kind::EmptyBody, pos),
                None => Ok(()),
            },
            _ => Ok(()),
        }
    }
}

/// The place of the `;` that is the body of a loop.
fn empty_loop(item: &BlockItem) -> Option<Pos> {
    match item {
        BlockItem::Statement(Stmt::While(_, _, body)) => empty_place(body),
        BlockItem::Statement(Stmt::For(_, _, body)) => empty_place(body),
        _ => None,
    }
}

/// The place of a statement that is `;`.
fn empty_place(statement: &Stmt) -> Option<Pos> {
    match statement {
        Stmt::Empty(pos) => Some(*pos),
        _ => None,
    }
}
