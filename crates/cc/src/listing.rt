//! An executable file together with the listing of its code.

ghost use Rattle.std.specs.Prelude.{OnOk, IfOk, IfErr};
ghost use Rattle.typed_ast.specs.View.{program_of};
ghost use Rattle.memory_map.specs.MemoryMap.{text_start};
ghost use Rattle.asm.specs.Layout.{IsLow};
ghost use Rattle.asm.specs.Listing.{Lists};
ghost use Rattle.asm.specs.Refusals.{IsListRefused};
ghost use Rattle.cc_backend.specs.Made.{IsReady};
ghost use Rattle.cc.specs.Made.{IsListed, ListsProgram};
ghost use Rattle.cc.specs.Refused.{IsRefused};
ghost use Rattle.cc.specs.inside.Stops.{Stops};

use crate::compiling::{Built, put_entries};
use crate::front::checked_unit;
use crate::stopping::Stop;
use asm::{Items, list};
use cc_backend::generate_listed;
use elf_out::StackSize;
use memory_map::TEXT_START;
use srcset::{Fault, FileSet, Names};
use std::alloc::{AllocError, Global};
use std::io::Write;
use typed_ast::Program;

/// An executable file, and the items that its text is assembled from.
#[derive(Drop)]
pub struct Listed {
    pub built: Built,
    pub items: Items,
}

/// The executable file of the program in the file `main` of the set, with a stack of this size, and the items of this very file. It refuses as
/// `compile_with` does.
pub fn compile_listed(
    alloc: Global,
    set: &FileSet,
    main: &str,
    stack: StackSize,
) -> Result<Listed, Fault>
    ensures listed { IfOk result (λ l. IsListed stack set.now main.now l.built l.items) }
    ensures refused { IfErr result (λ fault. IsRefused stack set.now main.now fault) }
{
    match listed_by_phases(alloc, set, main, stack) {
        Ok(listed) => Ok(listed),
        Err(stop) => Err(stop.to_fault(alloc, main)),
    }
}

/// The phases in their order (ISO/IEC 9899:2011 5.1.1.2).
fn listed_by_phases(
    alloc: Global,
    set: &FileSet,
    main: &str,
    stack: StackSize,
) -> Result<Listed, Stop>
    ensures listed { IfOk result (λ l. IsListed stack set.now main.now l.built l.items) }
    ensures stops { IfErr result (λ stop. Stops stack set.now main.now stop) }
{
    let mut names = Names::new(alloc);
    let program = checked_unit(alloc, set, main, &mut names, stack)?;
    match list_checked(alloc, &program, &names, stack) {
        Ok(listed) => Ok(listed),
        Err(_) => Err(Stop::Memory),
    }
}

/// The executable file of a program with these names, and its items.
fn list_checked(
    alloc: Global,
    program: &Program,
    names: &Names,
    stack: StackSize,
) -> Result<Listed, AllocError>
    requires { IsReady (program_of program.now) }
    ensures { IfOk result (λ l. ListsProgram stack names.now (program_of program.now) l.built l.items) }
{
    let made = match generate_listed(alloc, program, stack) {
        Ok(made) => made,
        Err(_) => return Err(AllocError),
    };
    let generated = made.generated;
    let items = made.items;
    let mut frames = Vec::new(alloc);
    match put_entries(
        alloc,
        &mut frames,
        names,
        &program.functions,
        generated.frames.as_slice(),
    ) {
        Ok(()) => Ok(Listed {
            built: Built {
                elf: generated.elf,
                frames,
            },
            items,
        }),
        Err(_) => Err(AllocError),
    }
}

/// Writes the listing of the items of a file: a line for each word of its text, as `Cmd::List` does.
///
/// Fails with 801 where memory ran out, having written nothing, and with 803 where the writer failed, which then holds a prefix of the listing.
pub fn write_listing<W: Write>(alloc: Global, items: &Items, out: &mut W) -> Result<(), Fault>
    requires { IsLow text_start items.now }
    ensures ok { OnOk result (Lists text_start items.now (W.contents out.old) (W.contents out.new)) }
    ensures refused { IfErr result (IsListRefused text_start items.now (W.contents out.old) (W.contents out.new)) }
{
    list(alloc, items, TEXT_START, out)
}
