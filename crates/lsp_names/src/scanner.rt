//! Declarations, uses and scopes (ISO/IEC 9899:2011 6.2.1), found token by token. The profile has no typedef, no structure and no pointer, so
//! the words alone identify a declaration; a macro that denotes a type counts as one of them. Incorrect sources are followed
//! as far as braces and semicolons allow.

use crate::frames::{Frame, Frames, Inside, Stage};
use crate::symbols::{Parameter, Place};
use crate::table::Table;
use crate::words::{Class, Word};
use std::alloc::{AllocError, Global};

/// A token with its surroundings.
#[derive(Clone, Copy)]
pub(crate) struct At {
    pub(crate) file: usize,
    pub(crate) word: Word,
    /// The class of the next token of the file that is in no directive.
    pub(crate) next: Class,
}

/// A walk over the tokens of a unit.
#[derive(Drop)]
pub(crate) struct Scanner {
    pub(crate) table: Table,
    pub(crate) frames: Frames,
    /// The number of the spelling `void`.
    void: Option<usize>,
    /// After the parentheses of a function: how many symbols were bound before them.
    prototype: Option<usize>,
    /// The token before, and the class of the one before that.
    last: Option<Word>,
    before: Class,
}

impl Scanner {
    pub(crate) fn new(alloc: Global, table: Table, void: Option<usize>) -> Scanner {
        Scanner {
            table,
            frames: Frames::new(alloc),
            void,
            prototype: None,
            last: None,
            before: Class::Other,
        }
    }

    /// Takes the next token.
    pub(crate) fn step(&mut self, at: At) -> Result<(), AllocError> {
        self.close_prototype(at);
        match at.word.class {
            Class::Identifier => self.identifier(at)?,
            Class::TypeWord | Class::Enum => self.specifier(at)?,
            Class::OpenRound => self.open_round()?,
            Class::OpenSquare => self.push(Inside::Round)?,
            Class::OpenBrace => self.open_brace()?,
            Class::CloseRound | Class::CloseSquare => self.close_round(at)?,
            Class::CloseBrace => self.close_brace(at)?,
            Class::Semicolon => self.semicolon(at)?,
            Class::Comma => self.comma(at)?,
            Class::Assign => self.assign()?,
            _ => self.begin_expression()?,
        }
        self.before = self.last_class();
        self.last = Some(at.word);
        Ok(())
    }

    pub(crate) fn last_class(&self) -> Class {
        match self.last {
            Some(word) => word.class,
            None => Class::Other,
        }
    }

    fn last_end(&self) -> usize {
        match self.last {
            Some(word) => word.end,
            None => 0,
        }
    }

    fn push(&mut self, inside: Inside) -> Result<(), AllocError> {
        self.frames.push(Frame::new(inside, self.table.mark()))
    }

    /// Removes the innermost part, and ends its scope.
    fn pop(&mut self, end: usize) {
        let top = self.frames.top();
        if top.is_scope() {
            self.table.unbind(top.mark, end);
        }
        self.frames.pop();
    }

    pub(crate) fn set_stage(&mut self, stage: Stage) -> Result<(), AllocError> {
        let mut top = self.frames.top();
        top.stage = stage;
        self.frames.set_top(top)
    }

    /// Ends the scope of a prototype, unless a body follows.
    fn close_prototype(&mut self, at: At) {
        if at.word.class == Class::OpenBrace {
            return;
        }
        if let Some(mark) = self.prototype.take() {
            self.table.unbind(mark, at.word.start);
        }
    }

    /// A token that begins a statement which is no declaration.
    fn begin_expression(&mut self) -> Result<(), AllocError> {
        if self.frames.top().stage == Stage::Start {
            return self.set_stage(Stage::Expression);
        }
        Ok(())
    }

    /// A word of declaration specifiers.
    pub(crate) fn specifier(&mut self, at: At) -> Result<(), AllocError> {
        let mut top = self.frames.top();
        if top.stage != Stage::Start {
            return Ok(());
        }
        top.stage = if top.takes_declarations() {
            Stage::Specifiers
        } else {
            Stage::Expression
        };
        top.begin = at.word.start;
        top.symbol = None;
        self.frames.set_top(top)
    }

    fn open_round(&mut self) -> Result<(), AllocError> {
        let top = self.frames.top();
        if self.last_class() == Class::For {
            self.begin_expression()?;
            return self.push(Inside::ForHead);
        }
        let is_declarator = top.stage == Stage::Behind
            && matches!(top.inside, Inside::File | Inside::Block)
            && self.last_class() == Class::Identifier;
        if !is_declarator {
            self.begin_expression()?;
            return self.push(Inside::Round);
        }
        if let Some(number) = top.symbol {
            self.table.begin_parameters(number);
        }
        self.push(Inside::Parameters)
    }

    fn close_round(&mut self, at: At) -> Result<(), AllocError> {
        match self.frames.top().inside {
            Inside::Round => self.frames.pop(),
            Inside::Parameters => self.close_parameters(at)?,
            Inside::ForHead => self.begin_for_body()?,
            _ => {}
        }
        Ok(())
    }

    /// The end of a function's parameters. Their scope ends after the body, where one follows.
    fn close_parameters(&mut self, at: At) -> Result<(), AllocError> {
        self.end_parameter(at.file)?;
        self.prototype = Some(self.frames.top().mark);
        self.frames.pop();
        let top = self.frames.top();
        if let Some(number) = top.symbol {
            self.table.end_head(number, top.at, at.word.end);
            self.table.begin_scope(number);
        }
        Ok(())
    }

    fn begin_for_body(&mut self) -> Result<(), AllocError> {
        let mut top = self.frames.top();
        top.inside = Inside::ForBody;
        top.stage = Stage::Start;
        self.frames.set_top(top)
    }

    /// The end of a parameter's declaration. `void` alone declares none.
    fn end_parameter(&mut self, file: usize) -> Result<(), AllocError> {
        let top = self.frames.top();
        if top.stage == Stage::Start || self.is_void_alone(top) {
            return Ok(());
        }
        let whole = Place {
            file,
            start: top.begin,
            end: self.last_end(),
        };
        let name = match top.symbol {
            Some(number) => {
                self.table.begin_scope(number);
                self.table.end_whole(number, top.at, whole.end)
            }
            None => None,
        };
        self.table.add_parameter(Parameter { whole, name })
    }

    fn is_void_alone(&self, top: Frame) -> bool {
        match self.last {
            Some(word) => word.start == top.begin && Some(word.name) == self.void,
            None => false,
        }
    }

    fn open_brace(&mut self) -> Result<(), AllocError> {
        let top = self.frames.top();
        if let Some(mark) = self.prototype.take() {
            if let Some(number) = top.symbol {
                let end = self.last_end();
                self.table.define(number, top.at, top.begin);
                self.table.end_head(number, top.at, end);
            }
            return self.frames.push(Frame::new(Inside::Block, mark));
        }
        let last = self.last_class();
        if last == Class::Enum || last == Class::Identifier && self.before == Class::Enum {
            return self.push(Inside::Enumerators);
        }
        if top.stage == Stage::Initialiser || top.inside == Inside::Braces {
            return self.push(Inside::Braces);
        }
        self.push(Inside::Block)
    }

    /// A `}` ends the innermost part with braces, and any part left open in it.
    fn close_brace(&mut self, at: At) -> Result<(), AllocError> {
        for _ in 0..self.frames.len() {
            let top = self.frames.top();
            if top.inside == Inside::File {
                return Ok(());
            }
            if top.inside == Inside::Enumerators {
                let end = self.last_end();
                self.end_declarator(end);
            }
            self.pop(at.word.start);
            if top.has_braces() {
                return self.behind_brace(top.inside, at);
            }
        }
        Ok(())
    }

    fn behind_brace(&mut self, closed: Inside, at: At) -> Result<(), AllocError> {
        if closed == Inside::Enumerators {
            self.end_declarator(at.word.end);
            return Ok(());
        }
        if closed == Inside::Braces {
            return Ok(());
        }
        if self.frames.top().inside == Inside::File {
            self.end_declarator(at.word.end);
        }
        self.end_statement(at)
    }

    /// The end of a statement: with it ends each `for` whose body it is.
    fn end_statement(&mut self, at: At) -> Result<(), AllocError> {
        if self.frames.top().inside == Inside::ForBody && at.next == Class::Else {
            return self.set_stage(Stage::Expression);
        }
        for _ in 0..self.frames.len() {
            if self.frames.top().inside != Inside::ForBody {
                break;
            }
            self.pop(at.word.end);
        }
        self.set_stage(Stage::Start)
    }

    fn semicolon(&mut self, at: At) -> Result<(), AllocError> {
        self.close_open(at.word.start);
        if self.frames.top().has_declarator() {
            self.end_declarator(at.word.end);
        }
        if self.frames.top().inside == Inside::ForHead {
            return self.set_stage(Stage::Expression);
        }
        self.end_statement(at)
    }

    /// Ends the parts in which a `;` may not appear.
    fn close_open(&mut self, end: usize) {
        for _ in 0..self.frames.len() {
            if self.frames.top().is_sequence() {
                return;
            }
            self.pop(end);
        }
    }

    fn comma(&mut self, at: At) -> Result<(), AllocError> {
        let top = self.frames.top();
        if top.inside == Inside::Parameters {
            self.end_parameter(at.file)?;
            return self.begin_item();
        }
        if top.inside == Inside::Enumerators {
            let end = self.last_end();
            self.end_declarator(end);
            return self.begin_item();
        }
        if top.has_declarator() {
            let end = self.last_end();
            self.end_declarator(end);
            return self.set_stage(Stage::Declarator);
        }
        Ok(())
    }

    /// The beginning of the next parameter or enumerator.
    fn begin_item(&mut self) -> Result<(), AllocError> {
        let mut top = self.frames.top();
        top.stage = Stage::Start;
        top.symbol = None;
        self.frames.set_top(top)
    }

    /// Notes where the declarator of the innermost part ends.
    fn end_declarator(&mut self, end: usize) {
        let top = self.frames.top();
        if let Some(number) = top.symbol {
            self.table.begin_scope(number);
            let _name = self.table.end_whole(number, top.at, end);
        }
    }

    /// A `=` after a declared name: an initialiser follows.
    fn assign(&mut self) -> Result<(), AllocError> {
        let top = self.frames.top();
        if top.stage != Stage::Behind {
            return self.begin_expression();
        }
        if let Some(number) = top.symbol {
            let end = self.last_end();
            self.table.define(number, top.at, top.begin);
            self.table.end_head(number, top.at, end);
            if top.inside != Inside::Enumerators {
                self.table.begin_scope(number);
            }
        }
        self.set_stage(Stage::Initialiser)
    }
}
