//! Nesting of the parts of a file: the stack of a walk over tokens.

use crate::symbols::Place;
use std::alloc::{AllocError, Global};

/// The maximum depth of nested frames; deeper parts count for their surroundings.
const MAX_DEPTH: usize = 2_048;

/// The kind of a part of a file.
#[derive(Clone, Copy, Debug, PartialEq, Eq)]
pub(crate) enum Inside {
    File,
    Block,
    /// The parentheses of a function's declarator.
    Parameters,
    /// The parentheses after `for`.
    ForHead,
    /// The statement after them.
    ForBody,
    /// The braces of an enumeration.
    Enumerators,
    /// Any other parentheses, or brackets.
    Round,
    /// The braces of an initialiser.
    Braces,
}

/// How far a declaration or a statement has come.
#[derive(Clone, Copy, Debug, PartialEq, Eq)]
pub(crate) enum Stage {
    Start,
    Specifiers,
    /// After a comma between declarators.
    Declarator,
    /// After a declared name.
    Behind,
    Initialiser,
    Expression,
}

#[derive(Clone, Copy)]
pub(crate) struct Frame {
    pub(crate) inside: Inside,
    pub(crate) stage: Stage,
    /// How many symbols were bound before it.
    pub(crate) mark: usize,
    /// Where its declaration begins.
    pub(crate) begin: usize,
    /// The symbol that it declares, and the name.
    pub(crate) symbol: Option<usize>,
    pub(crate) at: Place,
}

const NOWHERE: Place = Place {
    file: 0,
    start: 0,
    end: 0,
};

impl Frame {
    /// A part that begins.
    pub(crate) fn new(inside: Inside, mark: usize) -> Frame {
        let stage = match inside {
            Inside::Round => Stage::Expression,
            Inside::Braces => Stage::Expression,
            _ => Stage::Start,
        };
        Frame {
            inside,
            stage,
            mark,
            begin: 0,
            symbol: None,
            at: NOWHERE,
        }
    }

    /// Whether declarations may appear here.
    pub(crate) fn takes_declarations(self) -> bool {
        matches!(
            self.inside,
            Inside::File | Inside::Block | Inside::Parameters | Inside::ForHead
        )
    }

    /// Whether it has a scope of its own.
    pub(crate) fn is_scope(self) -> bool {
        matches!(
            self.inside,
            Inside::Block | Inside::Parameters | Inside::ForHead | Inside::ForBody
        )
    }

    /// Whether statements or external declarations follow one another in it.
    pub(crate) fn is_sequence(self) -> bool {
        matches!(
            self.inside,
            Inside::File | Inside::Block | Inside::ForHead | Inside::ForBody
        )
    }

    /// Whether it has braces.
    pub(crate) fn has_braces(self) -> bool {
        matches!(
            self.inside,
            Inside::Block | Inside::Enumerators | Inside::Braces
        )
    }

    /// Whether its declarator may be followed by a comma and another one.
    pub(crate) fn has_declarator(self) -> bool {
        matches!(self.inside, Inside::File | Inside::Block | Inside::ForHead)
            && matches!(self.stage, Stage::Behind | Stage::Initialiser)
    }
}

/// The parts around a token, the innermost last. The first is a file's.
#[derive(Drop)]
pub(crate) struct Frames {
    list: Vec<Frame>,
    /// How many of them have a scope.
    scopes: usize,
}

impl Frames {
    /// Makes a stack of a file alone.
    pub(crate) fn new(alloc: Global) -> Frames {
        Frames {
            list: Vec::new(alloc),
            scopes: 0,
        }
    }

    /// How many parts there are.
    pub(crate) fn len(&self) -> usize {
        self.list.len()
    }

    /// Whether no part but the file's has a scope.
    pub(crate) fn is_global(&self) -> bool {
        self.scopes == 0
    }

    /// The innermost part.
    pub(crate) fn top(&self) -> Frame {
        match self.list.last() {
            Some(frame) => *frame,
            None => Frame::new(Inside::File, 0),
        }
    }

    /// Changes the innermost part.
    pub(crate) fn set_top(&mut self, frame: Frame) -> Result<(), AllocError> {
        if let Some(top) = self.list.last_mut() {
            *top = frame;
            return Ok(());
        }
        self.list.push(frame)?;
        Ok(())
    }

    /// Adds a part.
    pub(crate) fn push(&mut self, frame: Frame) -> Result<(), AllocError> {
        if self.list.is_empty() {
            self.list.push(Frame::new(Inside::File, 0))?;
        }
        if self.list.len() >= MAX_DEPTH {
            return Ok(());
        }
        self.list.push(frame)?;
        if frame.is_scope() {
            self.scopes = self.scopes.saturating_add(1);
        }
        Ok(())
    }

    /// Removes the innermost part, but never the file's.
    pub(crate) fn pop(&mut self) {
        if self.list.len() <= 1 {
            return;
        }
        if let Some(frame) = self.list.pop() {
            if frame.is_scope() {
                self.scopes = self.scopes.saturating_sub(1);
            }
        }
    }
}
