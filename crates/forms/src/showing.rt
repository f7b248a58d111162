//! A form of a program, from its sources.

ghost use Rattle.std.specs.Prelude.{◌≡◌, []};

use crate::items_form::items_text;
use crate::passes::passes_of;
use cc::{StackSize, checked_program};
use cc_backend::flat_program;
use forms_text::{Style, flat_text, tac_text, tokens_text, tree_text, typed_text};
use lexer::tokens;
use parser::parse;
use pp::preprocess;
use srcset::{Fault, FileSet, Names};
use std::alloc::{AllocError, Global};

/// Which form of a program is shown.
#[derive(Clone, Copy, Debug, PartialEq, Eq)]
pub enum Form {
    /// The tokens after preprocessing.
    Tokens,
    /// The syntax tree.
    Tree,
    /// The typed program.
    Typed,
    /// Three-address code.
    Tac,
    /// Flat code, with the words that are used most in front.
    Flat,
    /// Flat code after each of its passes.
    Passes,
    /// The items that the file is assembled from.
    Items,
}

/// A form of the program in the file `main` of the set, as text or as JSON, followed by a newline.
///
/// Refuses as `compile_with` does, but only as far as the form needs: tokens with 103, 1xx, 2xx, 7xx of preprocessing, a tree with all faults up to it.
pub fn show(
    alloc: Global,
    set: &FileSet,
    main: &str,
    stack: StackSize,
    form: Form,
    style: Style,
) -> Result<String, Fault> {
    match form {
        Form::Tokens => show_tokens(alloc, set, main, style),
        Form::Tree => show_tree(alloc, set, main, style),
        Form::Typed | Form::Tac | Form::Flat | Form::Passes | Form::Items => {
            show_typed(alloc, set, main, stack, form, style)
        }
    }
}

/// The text written, or the fault 801.
fn told(alloc: Global, written: Result<String, AllocError>) -> Result<String, Fault> {
    match written {
        Ok(text) => Ok(text),
        Err(_) => Err(Fault::memory(alloc)),
    }
}

fn show_tokens(alloc: Global, set: &FileSet, main: &str, style: Style) -> Result<String, Fault> {
    let mut names = Names::new(alloc);
    let list = preprocess(alloc, set, &mut names, main)?;
    told(alloc, tokens_text(alloc, list.as_slice(), &names, style))
}

fn show_tree(alloc: Global, set: &FileSet, main: &str, style: Style) -> Result<String, Fault> {
    let mut names = Names::new(alloc);
    let list = preprocess(alloc, set, &mut names, main)?;
    let tokens = tokens(alloc, list.as_slice(), &mut names)?;
    drop(list);
    let unit = parse(alloc, tokens.as_slice(), &names)?;
    told(alloc, tree_text(alloc, &unit, &names, style))
}

fn show_typed(
    alloc: Global,
    set: &FileSet,
    main: &str,
    stack: StackSize,
    form: Form,
    style: Style,
) -> Result<String, Fault> {
    let mut names = Names::new(alloc);
    let program = checked_program(alloc, set, main, &mut names, stack)?;
    let written = match form {
        Form::Typed => typed_text(alloc, &program, &names, style),
        Form::Tac => tac_text(alloc, &program, &names, style),
        Form::Items => items_text(alloc, &program, &names, stack, style),
        Form::Passes => passes_of(alloc, &program, &names, style),
        _ => match flat_program(alloc, &program) {
            Ok(code) => flat_text(alloc, &program, &code, &names, style),
            Err(error) => Err(error),
        },
    };
    told(alloc, written)
}
