//! The macros of a program, with the number of tokens that each becomes, and how often it copies each argument.

use crate::lines::{is_directive, line_length};
use crate::meter::{Meter, Scaled};
use lsp_names::{Class, Index, Word};
use std::alloc::{AllocError, Global};

/// The maximum number of times that the sizes of macros are computed anew. Each turn goes over them forwards and backwards, so that two are enough where each
/// macro precedes or follows those that it names.
const TURNS: usize = 16;

/// The most parameters that a macro may have (the limit of the compiler).
const MAX_PARAMETERS: usize = 127;

/// A macro.
#[derive(Clone, Copy)]
pub(crate) struct Macro {
    /// The number of its name.
    pub(crate) name: usize,
    pub(crate) is_function: bool,
    /// Its parameters among those of all macros.
    first_parameter: usize,
    parameters: usize,
    /// The tokens of its body, in its file.
    file: usize,
    first: usize,
    past: usize,
    /// How many tokens the body becomes, arguments aside.
    pub(crate) size: u64,
}

/// A parameter of a macro: the number of its name, and how often the body has its argument.
#[derive(Clone, Copy)]
struct Parameter {
    name: usize,
    copies: u64,
}

/// The macros of a program. Of a name that is defined several times the longest body counts.
#[derive(Drop)]
pub(crate) struct Macros {
    list: Vec<Macro>,
    parameters: Vec<Parameter>,
    /// For each name, the number of its macro.
    by_name: Vec<Option<usize>>,
}

impl Macros {
    /// Finds the macros of `files` files, and computes their sizes.
    pub(crate) fn of(alloc: Global, index: &Index, files: usize) -> Result<Macros, AllocError> {
        let mut macros = Macros {
            list: Vec::new(alloc),
            parameters: Vec::new(alloc),
            by_name: Vec::new(alloc),
        };
        for file in 0..files {
            macros.find(index, file)?;
        }
        for _ in 0..TURNS {
            let before = macros.whole_size();
            macros.measure_forwards(alloc, index)?;
            macros.measure_backwards(alloc, index)?;
            if macros.whole_size() == before {
                break;
            }
        }
        Ok(macros)
    }

    /// The macro of a name.
    pub(crate) fn named(&self, name: usize) -> Option<Macro> {
        let number = self.by_name.get(name).copied().flatten()?;
        self.list.get(number).copied()
    }

    /// How often a macro has the argument of this number; those after the last parameter belong to it.
    pub(crate) fn copies(&self, it: Macro, argument: usize) -> u64 {
        let last = it.parameters.saturating_sub(1);
        let number = it.first_parameter.saturating_add(argument.min(last));
        match self.parameters.get(number) {
            Some(parameter) => parameter.copies.max(1),
            None => 1,
        }
    }

    /// The number of a macro's parameter of this name.
    fn parameter(&self, it: Macro, name: usize) -> Option<usize> {
        let end = it.first_parameter.saturating_add(it.parameters);
        let own = self.parameters.get(it.first_parameter..end)?;
        let number = own.iter().position(|parameter| parameter.name == name)?;
        Some(it.first_parameter.saturating_add(number))
    }

    /// The sum of the sizes and of the copies.
    fn whole_size(&self) -> u64 {
        let mut sum: u64 = 0;
        for it in &self.list {
            sum = sum.saturating_add(it.size);
        }
        for parameter in &self.parameters {
            sum = sum.saturating_add(parameter.copies);
        }
        sum
    }

    /// Adds the macros that a file defines.
    fn find(&mut self, index: &Index, file: usize) -> Result<(), AllocError> {
        let words = index.words(file);
        for (number, word) in words.iter().enumerate() {
            if word.is_first && is_directive(index, words, number, "define") {
                let past = number.saturating_add(line_length(words, number));
                self.add(words, file, number.saturating_add(2), past)?;
            }
        }
        Ok(())
    }

    /// Adds the macro whose name is the token of number `at`, and whose line ends before the one of number `past`.
    fn add(
        &mut self,
        words: &[Word],
        file: usize,
        at: usize,
        past: usize,
    ) -> Result<(), AllocError> {
        let Some(name) = words.get(at) else {
            return Ok(());
        };
        let first_parameter = self.parameters.len();
        let behind = at.saturating_add(1);
        let is_function = match words.get(behind) {
            Some(open) => open.class == Class::OpenRound && open.start == name.end,
            None => false,
        };
        let first = if is_function {
            self.add_parameters(words, behind, past)?
        } else {
            behind
        };
        let it = Macro {
            name: name.name,
            is_function,
            first_parameter,
            parameters: self.parameters.len().saturating_sub(first_parameter),
            file,
            first: first.min(past),
            past,
            size: 1,
        };
        self.keep(it)
    }

    /// Adds the parameters between parentheses, the first of which has this number; returns the number of the token after them.
    fn add_parameters(
        &mut self,
        words: &[Word],
        open: usize,
        past: usize,
    ) -> Result<usize, AllocError> {
        let most = self.parameters.len().saturating_add(MAX_PARAMETERS);
        for number in open..past {
            let Some(word) = words.get(number) else {
                break;
            };
            if word.class == Class::CloseRound {
                return Ok(number.saturating_add(1));
            }
            if word.class == Class::Identifier && self.parameters.len() < most {
                self.parameters.push(Parameter {
                    name: word.name,
                    copies: 1,
                })?;
            }
        }
        Ok(past)
    }

    /// Keeps a macro, where its body is the longest of its name.
    fn keep(&mut self, it: Macro) -> Result<(), AllocError> {
        let known = match self.named(it.name) {
            Some(other) => other.past.saturating_sub(other.first),
            None => 0,
        };
        if self.named(it.name).is_some() && it.past.saturating_sub(it.first) <= known {
            return Ok(());
        }
        let number = self.list.len();
        self.list.push(it)?;
        if it.name >= self.by_name.len() {
            self.by_name.resize(it.name.saturating_add(1), None)?;
        }
        if let Some(entry) = self.by_name.get_mut(it.name) {
            *entry = Some(number);
        }
        Ok(())
    }

    fn measure_forwards(&mut self, alloc: Global, index: &Index) -> Result<(), AllocError> {
        for number in 0..self.list.len() {
            self.measure(alloc, index, number)?;
        }
        Ok(())
    }

    fn measure_backwards(&mut self, alloc: Global, index: &Index) -> Result<(), AllocError> {
        let count = self.list.len();
        for turn in 0..count {
            let number = count.saturating_sub(turn).saturating_sub(1);
            self.measure(alloc, index, number)?;
        }
        Ok(())
    }

    /// Computes the size of the macro with this number, and how often it has each argument.
    fn measure(&mut self, alloc: Global, index: &Index, number: usize) -> Result<(), AllocError> {
        let Some(it) = self.list.get(number).copied() else {
            return Ok(());
        };
        let body = index
            .words(it.file)
            .get(it.first..it.past)
            .unwrap_or_default();
        let measured = self.measured(alloc, it, body)?;
        if let Some(entry) = self.list.get_mut(number) {
            entry.size = measured.size.max(1);
        }
        for (place, copies) in measured.copies {
            if let Some(parameter) = self.parameters.get_mut(place) {
                parameter.copies = copies;
            }
        }
        Ok(())
    }

    /// The size of the body of a macro.
    fn measured(&self, alloc: Global, it: Macro, body: &[Word]) -> Result<Measured, AllocError> {
        let mut meter = Meter::new(alloc, self, Some(it.name));
        let mut copies = Vec::new(alloc);
        for number in 0..it.parameters {
            copies.push((it.first_parameter.saturating_add(number), 0u64))?;
        }
        for (number, word) in body.iter().enumerate() {
            let next = body.get(number.saturating_add(1));
            match self.parameter(it, word.name) {
                Some(place) => add_copies(&mut copies, place, meter.factor()),
                None => meter.take(*word, next)?,
            }
        }
        let Scaled(size) = meter.scaled();
        Ok(Measured { size, copies })
    }
}

/// The size of a body: its tokens, and for each parameter, by its number, how often its argument appears in them.
#[derive(Drop)]
struct Measured {
    size: u64,
    copies: Vec<(usize, u64)>,
}

fn add_copies(copies: &mut Vec<(usize, u64)>, place: usize, more: u64) {
    for entry in copies.iter_mut() {
        if entry.0 == place {
            entry.1 = entry.1.saturating_add(more);
        }
    }
}
