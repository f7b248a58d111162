//! From source files to the typed program, and to the addresses of its parts in the executable file.

ghost use Rattle.std.specs.Prelude.{◌≡◌, List, [], IfOk, IfErr};
ghost use Rattle.tree.specs.Tree.{ExternalTree};
ghost use Rattle.typed_ast.specs.View.{program_of};
ghost use Rattle.cc_backend.specs.Made.{IsReady};
ghost use Rattle.cc.specs.Compiled.{HasProgram};
ghost use Rattle.cc.specs.Refused.{IsRefused};
ghost use Rattle.cc.specs.inside.Stops.{Stops};

use crate::front::checked_unit;
use crate::stopping::Stop;
use cc_backend::{CodeMap, code_map};
use elf_out::StackSize;
use srcset::{Fault, FileSet, Names};
use std::alloc::Global;
use typed_ast::Program;

/// A typed program, and the addresses of its parts in the executable file.
#[derive(Drop)]
pub struct Mapped {
    pub program: Program,
    pub map: CodeMap,
}

/// The typed program of the file `main` of the set, and the addresses of its functions, statements and objects in the file that `compile_with`
/// makes of it. The names are numbered in `names`, which is to have none. It refuses as `compile_with` does.
pub fn map_of(
    alloc: Global,
    set: &FileSet,
    main: &str,
    names: &mut Names,
    stack: StackSize,
) -> Result<Mapped, Fault>
    requires new { names.old ≡ [] }
    ensures refused { IfErr result (λ fault. IsRefused stack set.now main.now fault) }
{
    match map_checked(alloc, set, main, names, stack) {
        Ok(mapped) => Ok(mapped),
        Err(stop) => Err(stop.to_fault(alloc, main)),
    }
}

/// The typed program of the file `main` of the set, for a stack of this size. The names are numbered in `names`, which is to have none. It
/// refuses as `compile_with` does.
pub fn checked_program(
    alloc: Global,
    set: &FileSet,
    main: &str,
    names: &mut Names,
    stack: StackSize,
) -> Result<Program, Fault>
    requires new { names.old ≡ [] }
    ensures program { IfOk result (λ p. (unit : List ExternalTree) × HasProgram stack set.now main.now names.new unit (program_of p)) }
    ensures ready { IfOk result (λ p. IsReady (program_of p)) }
    ensures refused { IfErr result (λ fault. IsRefused stack set.now main.now fault) }
{
    match checked_unit(alloc, set, main, names, stack) {
        Ok(program) => Ok(program),
        Err(stop) => Err(stop.to_fault(alloc, main)),
    }
}

fn map_checked(
    alloc: Global,
    set: &FileSet,
    main: &str,
    names: &mut Names,
    stack: StackSize,
) -> Result<Mapped, Stop>
    requires new { names.old ≡ [] }
    ensures stops { IfErr result (Stops stack set.now main.now) }
{
    let program = checked_unit(alloc, set, main, names, stack)?;
    match code_map(alloc, &program, stack) {
        Ok(map) => Ok(Mapped { program, map }),
        Err(_) => Err(Stop::Memory),
    }
}
