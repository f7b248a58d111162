//! The flat code of a program after each pass over it.

ghost use Rattle.typed_ast.specs.View.{program_of};
ghost use Rattle.cc_backend.specs.Made.{IsReady};

use cc_backend::{Pass, flat_program_after};
use forms_text::{Passed, Style, passes_text};
use srcset::Names;
use std::alloc::{AllocError, Global};
use typed_ast::Program;

/// What a pass does, by the field's name.
fn name_of(pass: Pass) -> &'static str {
    match pass {
        Pass::Flatten => "flattening",
        Pass::Simplify => "constant-propagation-and-dead-stores",
        Pass::RemoveUnreachable => "unreachable-code-elimination",
        Pass::LayOut => "jump-threading",
        Pass::Hoist => "constant-hoisting",
        Pass::AllocateLeaf => "register-allocation-of-leaf-functions",
        Pass::Renumber => "register-allocation",
    }
}

fn after(alloc: Global, program: &Program, pass: Pass) -> Result<Passed, AllocError>
    requires { IsReady (program_of program.now) }
{
    Ok(Passed {
        pass: name_of(pass),
        code: flat_program_after(alloc, program, pass)?,
    })
}

/// The code after each pass, as text or as JSON.
pub fn passes_of(
    alloc: Global,
    program: &Program,
    names: &Names,
    style: Style,
) -> Result<String, AllocError>
    requires { IsReady (program_of program.now) }
{
    let mut passed = Vec::with_capacity(alloc, 7)?;
    passed.push(after(alloc, program, Pass::Flatten)?)?;
    passed.push(after(alloc, program, Pass::Simplify)?)?;
    passed.push(after(alloc, program, Pass::RemoveUnreachable)?)?;
    passed.push(after(alloc, program, Pass::LayOut)?)?;
    passed.push(after(alloc, program, Pass::Hoist)?)?;
    passed.push(after(alloc, program, Pass::AllocateLeaf)?)?;
    passed.push(after(alloc, program, Pass::Renumber)?)?;
    passes_text(alloc, program, passed.as_slice(), names, style)
}
