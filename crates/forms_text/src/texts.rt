//! Each form as text or as JSON, with a newline after it.

ghost use Rattle.std.specs.Prelude.{◌≡◌, true};
ghost use Rattle.lower_wf.specs.Asked.{types_are_sized};
ghost use Rattle.typed_ast.specs.View.{program_of};

use crate::code_form::{put_flat, put_tac};
use crate::token_form::put_tokens;
use crate::tree_form::put_unit;
use crate::typed_form::put_program;
use crate::writer::{Style, Writer};
use frames_code::FlatProgram;
use phases::PpToken;
use srcset::Names;
use std::alloc::{AllocError, Global};
use tree::Unit;
use typed_ast::Program;

/// Preprocessing tokens.
pub fn tokens_text(
    alloc: Global,
    list: &[PpToken<'_>],
    names: &Names,
    style: Style,
) -> Result<String, AllocError> {
    let mut out = Writer::new(alloc, names, style);
    put_tokens(&mut out, list)?;
    out.into_text()
}

/// A syntax tree.
pub fn tree_text(
    alloc: Global,
    unit: &Unit,
    names: &Names,
    style: Style,
) -> Result<String, AllocError> {
    let mut out = Writer::new(alloc, names, style);
    put_unit(&mut out, unit)?;
    out.into_text()
}

/// A typed program.
pub fn typed_text(
    alloc: Global,
    program: &Program,
    names: &Names,
    style: Style,
) -> Result<String, AllocError> {
    let mut out = Writer::new(alloc, names, style);
    put_program(&mut out, program)?;
    out.into_text()
}

/// The three-address code of a program, whose objects have elements, and not more bytes than an object may have.
pub fn tac_text(
    alloc: Global,
    program: &Program,
    names: &Names,
    style: Style,
) -> Result<String, AllocError>
    requires { types_are_sized (program_of program.now) ≡ true }
{
    let mut out = Writer::new(alloc, names, style);
    put_tac(alloc, &mut out, program)?;
    out.into_text()
}

/// The flat code of a program.
pub fn flat_text(
    alloc: Global,
    program: &Program,
    code: &FlatProgram,
    names: &Names,
    style: Style,
) -> Result<String, AllocError> {
    let mut out = Writer::new(alloc, names, style);
    put_flat(alloc, &mut out, program, code)?;
    out.into_text()
}

/// The flat code of a program after a pass, and the name of the pass.
#[derive(Drop)]
pub struct Passed {
    pub pass: &'static str,
    pub code: FlatProgram,
}

/// The flat code of a program after each of these passes, as a node of the pass whose part is the code.
pub fn passes_text(
    alloc: Global,
    program: &Program,
    passed: &[Passed],
    names: &Names,
    style: Style,
) -> Result<String, AllocError> {
    let mut out = Writer::new(alloc, names, style);
    out.begin("passes")?;
    for after in passed {
        out.begin("after")?;
        out.word("name", after.pass)?;
        put_flat(alloc, &mut out, program, &after.code)?;
        out.end()?;
    }
    out.end()?;
    out.into_text()
}
