//! Statements, in the order in which they are done.

use crate::paths::Point;
use crate::walker::{Choice, Walker};
use std::alloc::AllocError;
use typed_ast::{Initialiser, Statement, Value};

impl Walker {
    /// Walks a statement.
    #[cycle(statements)]
    pub(crate) fn statement(&mut self, statement: &Statement) -> Result<(), AllocError> {
        match statement {
            Statement::Empty(_) => Ok(()),
            Statement::Evaluate(_, value) => self.alone(value),
            Statement::Declare(_, object) => {
                self.paths.note(self.now, *object, false);
                Ok(())
            }
            Statement::Define(_, object, initialiser) => {
                self.initialiser(initialiser)?;
                self.paths.note(self.now, *object, true);
                Ok(())
            }
            Statement::Block(_, _, _, inner) => self.statements(inner.as_slice()),
            Statement::If(_, test, body) => {
                let no = self.value(test, true)?;
                self.statement(body)?;
                self.meet(no);
                Ok(())
            }
            Statement::IfElse(_, test, yes, no) => {
                let other = self.value(test, true)?;
                self.statement(yes)?;
                let end = self.go_to(other);
                self.statement(no)?;
                self.meet(end);
                Ok(())
            }
            Statement::Switch(_, _, value, _, _, inner) => {
                self.value(value, false)?;
                self.open_choice()?;
                self.statements(inner.as_slice())?;
                self.close_choice();
                Ok(())
            }
            Statement::Case(_, _) => self.label(false),
            Statement::Default(_) => self.label(true),
            Statement::While(_, test, body) => {
                self.open_loop()?;
                let no = self.value(test, true)?;
                self.statement(body)?;
                self.close_loop();
                self.leave_loop(no);
                Ok(())
            }
            Statement::DoWhile(_, body, test) => {
                self.open_loop()?;
                self.statement(body)?;
                self.close_loop();
                let no = self.value(test, true)?;
                self.leave_loop(no);
                Ok(())
            }
            Statement::For(_, declared, control, body) => {
                self.statements(declared.as_slice())?;
                self.optional(&control.start)?;
                self.open_loop()?;
                let no = self.test(&control.test)?;
                self.statement(body)?;
                self.close_loop();
                self.optional(&control.step)?;
                self.leave_loop(no);
                Ok(())
            }
            Statement::Break(_) => self.leave_for_break(),
            Statement::Continue(_) => self.leave_for_continue(),
            Statement::ReturnNothing(_) => self.stop(),
            Statement::ReturnValue(_, _, value) => {
                self.value(value, false)?;
                self.stop()
            }
        }
    }

    /// Walks statements.
    #[cycle(statements)]
    fn statements(&mut self, statements: &[Statement]) -> Result<(), AllocError> {
        for statement in statements {
            self.statement(statement)?;
        }
        Ok(())
    }

    /// Walks an expression whose value is not used.
    fn alone(&mut self, value: &Value) -> Result<(), AllocError> {
        self.note_alone(value)?;
        self.value(value, false)?;
        Ok(())
    }

    fn optional(&mut self, value: &Option<Value>) -> Result<(), AllocError> {
        match value {
            Some(value) => self.alone(value),
            None => Ok(()),
        }
    }

    /// The test of a `for`; one that is left out always holds (6.8.5.3p2).
    fn test(&mut self, test: &Option<Value>) -> Result<Point, AllocError> {
        match test {
            Some(test) => self.value(test, true),
            None => self.paths.nowhere(),
        }
    }

    #[cycle(initialisers)]
    fn initialiser(&mut self, initialiser: &Initialiser) -> Result<(), AllocError> {
        match initialiser {
            Initialiser::One(_, value) => {
                self.value(value, false)?;
                Ok(())
            }
            Initialiser::Text(_) => Ok(()),
            Initialiser::InBraces(inner) => self.initialiser(inner),
            Initialiser::List(parts) => self.initialisers(parts.as_slice()),
        }
    }

    #[cycle(initialisers)]
    fn initialisers(&mut self, parts: &[Initialiser]) -> Result<(), AllocError> {
        for part in parts {
            self.initialiser(part)?;
        }
        Ok(())
    }

    /// The body of a `switch` begins; no path leads to the statements before its labels.
    fn open_choice(&mut self) -> Result<(), AllocError> {
        let entry = self.now;
        let end = self.paths.nowhere()?;
        self.breaks.push(end)?;
        self.choices.push(Choice {
            entry,
            has_default: false,
        })?;
        self.stop()
    }

    /// A label: it is reached from above, and from the beginning of its `switch`.
    fn label(&mut self, is_default: bool) -> Result<(), AllocError> {
        let Some(choice) = self.choices.last_mut() else {
            return Ok(());
        };
        choice.has_default = choice.has_default || is_default;
        let entry = choice.entry;
        let from = self.paths.again(entry)?;
        self.meet(from);
        Ok(())
    }

    /// The body of a `switch` ends.
    fn close_choice(&mut self) {
        if let Some(choice) = self.choices.pop() {
            if !choice.has_default {
                self.meet(choice.entry);
            }
        }
        if let Some(end) = self.breaks.pop() {
            self.meet(end);
        }
    }

    /// A loop begins.
    fn open_loop(&mut self) -> Result<(), AllocError> {
        let end = self.paths.nowhere()?;
        let next = self.paths.nowhere()?;
        self.breaks.push(end)?;
        self.continues.push(next)?;
        Ok(())
    }

    /// The body of a loop ends: its `continue`s lead here.
    fn close_loop(&mut self) {
        if let Some(next) = self.continues.pop() {
            self.meet(next);
        }
    }

    /// A loop is left, where its test does not hold and by its `break`s.
    fn leave_loop(&mut self, no: Point) {
        self.now = no;
        if let Some(end) = self.breaks.pop() {
            self.meet(end);
        }
    }

    fn leave_for_break(&mut self) -> Result<(), AllocError> {
        let now = self.now;
        if let Some(end) = self.breaks.pop() {
            let joined = self.paths.join(end, now);
            self.breaks.push(joined)?;
        }
        self.stop()
    }

    fn leave_for_continue(&mut self) -> Result<(), AllocError> {
        let now = self.now;
        if let Some(next) = self.continues.pop() {
            let joined = self.paths.join(next, now);
            self.continues.push(joined)?;
        }
        self.stop()
    }
}
