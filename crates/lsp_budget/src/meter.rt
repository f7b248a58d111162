//! Tokens, each counted as often as the preprocessor copies it.

use crate::macros::{Macro, Macros};
use lsp_names::{Class, Word};
use std::alloc::{AllocError, Global};

/// A call of a macro that is open.
#[derive(Clone, Copy)]
struct Call {
    called: Macro,
    /// How often the tokens around the call are copied.
    around: u64,
    /// How often the present argument is.
    factor: u64,
    argument: usize,
    /// How many parentheses are open in the arguments.
    depth: usize,
}

/// How many tokens some become, each counted once for each call around it too.
#[derive(Clone, Copy)]
pub(crate) struct Scaled(pub(crate) u64);

/// A walk over tokens.
#[derive(Drop)]
pub(crate) struct Meter<'m> {
    macros: &'m Macros,
    /// The name of the macro whose body this is, which is not replaced there.
    own: Option<usize>,
    calls: Vec<Call>,
    sum: u64,
}

impl<'m> Meter<'m> {
    pub(crate) fn new(alloc: Global, macros: &'m Macros, own: Option<usize>) -> Meter<'m> {
        Meter {
            macros,
            own,
            calls: Vec::new(alloc),
            sum: 0,
        }
    }

    /// The size of the tokens that were taken.
    pub(crate) fn scaled(&self) -> Scaled {
        Scaled(self.sum)
    }

    /// How often the next token is copied.
    pub(crate) fn factor(&self) -> u64 {
        match self.calls.last() {
            Some(call) => call.factor,
            None => 1,
        }
    }

    /// Takes a token; `next` is the one after it.
    pub(crate) fn take(&mut self, word: Word, next: Option<&Word>) -> Result<(), AllocError> {
        match word.class {
            Class::Identifier => self.name(word, next),
            Class::OpenRound => {
                self.count(1);
                self.deepen();
                Ok(())
            }
            Class::CloseRound => {
                self.close();
                self.count(1);
                Ok(())
            }
            Class::Comma => {
                self.next_argument();
                self.count(1);
                Ok(())
            }
            _ => {
                self.count(1);
                Ok(())
            }
        }
    }

    /// A name: a macro with its arguments, one without, or none.
    fn name(&mut self, word: Word, next: Option<&Word>) -> Result<(), AllocError> {
        let Some(found) = self.macro_at(word, next) else {
            self.count(1);
            return Ok(());
        };
        self.count(found.size);
        if found.is_function {
            return self.open(found);
        }
        Ok(())
    }

    /// The macro that is replaced at a name.
    fn macro_at(&self, word: Word, next: Option<&Word>) -> Option<Macro> {
        if self.own == Some(word.name) {
            return None;
        }
        let found = self.macros.named(word.name)?;
        let is_called = match next {
            Some(next) => next.class == Class::OpenRound,
            None => false,
        };
        if found.is_function && !is_called {
            return None;
        }
        Some(found)
    }

    /// Begins with the arguments of a macro.
    fn open(&mut self, called: Macro) -> Result<(), AllocError> {
        let around = self.factor();
        let call = Call {
            called,
            around,
            factor: around.saturating_mul(self.macros.copies(called, 0)),
            argument: 0,
            depth: 0,
        };
        self.calls.push(call)?;
        Ok(())
    }

    fn deepen(&mut self) {
        if let Some(call) = self.calls.last_mut() {
            call.depth = call.depth.saturating_add(1);
        }
    }

    /// A `)`, which may end the innermost call.
    fn close(&mut self) {
        let Some(call) = self.calls.last_mut() else {
            return;
        };
        call.depth = call.depth.saturating_sub(1);
        if call.depth == 0 {
            let _ended = self.calls.pop();
        }
    }

    /// A comma, which may end an argument.
    fn next_argument(&mut self) {
        let macros = self.macros;
        let Some(call) = self.calls.last_mut() else {
            return;
        };
        if call.depth == 1 {
            call.argument = call.argument.saturating_add(1);
            let copies = macros.copies(call.called, call.argument);
            call.factor = call.around.saturating_mul(copies);
        }
    }

    /// Counts `tokens` tokens at this place.
    fn count(&mut self, tokens: u64) {
        let around = (self.calls.len() as u64).saturating_add(1);
        let more = tokens.saturating_mul(self.factor()).saturating_mul(around);
        self.sum = self.sum.saturating_add(more);
    }
}
