//! From source files to an executable file.

ghost use Rattle.std.specs.Prelude.{◌≡◌, ◌<◌, ◌^◌, map, IfOk, IfErr, OnOk, ◌++◌};
ghost use Rattle.typed_ast.specs.View.{program_of, function_of};
ghost use Rattle.memory_map.specs.MemoryMap.{usual_stack};
ghost use Rattle.cc_backend.specs.Made.{IsReady};
ghost use Rattle.cc.specs.Compiled.{Compiles, BuildsProgram, shown_entry, entry_of, entries};
ghost use Rattle.cc.specs.Refused.{IsRefused};
ghost use Rattle.cc.specs.Made.{IsMade, MakesProgram};
ghost use Rattle.cc.specs.inside.Stops.{Stops, IsMemory};
ghost use Rattle.cc.specs.inside.Light.{AreLight};

use crate::front::checked_unit;
use crate::stopping::Stop;
use cc_backend::generate;
use elf_out::StackSize;
use srcset::{Fault, FileSet, Names};
use std::alloc::{AllocError, Global};
use typed_ast::{Function, Program};

/// An executable file, and the bytes of the stack that each function may take.
#[derive(Drop)]
pub struct Built {
    /// The ELF32 file.
    pub elf: Vec<u8>,
    /// For each function definition, in order: its name, the bytes of its frame, and its weight, which
    /// is never less than these.
    pub frames: Vec<(String, u32, u32)>,
}

/// The executable file of the program in the file `main` of the set, with a stack of 1,048,576 bytes. It refuses as `compile_with` does.
pub fn compile(alloc: Global, set: &FileSet, main: &str) -> Result<Built, Fault>
    ensures built { IfOk result (λ built. Compiles usual_stack set.now main.now built) }
    ensures made { IfOk result (λ built. IsMade usual_stack set.now main.now built) }
    ensures refused { IfErr result (λ fault. IsRefused usual_stack set.now main.now fault) }
{
    compile_with(alloc, set, main, StackSize::usual())
}

/// The executable file of the program in the file `main` of the set, with a stack of this size.
///
/// Refuses with the fault of its preprocessing tokens (103; 111 to 113, 703; 201 to 235, 704 to 708), of its C tokens (301 to 303,
/// 601 to 609), of its tree (401, 709 to 711), or of a constraint that this breaks (501 to 553, 620 to 623, 712 to 715; 714 where a
/// function weighs more than the stack has bytes), in this order; and with 801 where there is no memory.
pub fn compile_with(
    alloc: Global,
    set: &FileSet,
    main: &str,
    stack: StackSize,
) -> Result<Built, Fault>
    ensures built { IfOk result (λ built. Compiles stack set.now main.now built) }
    ensures made { IfOk result (λ built. IsMade stack set.now main.now built) }
    ensures refused { IfErr result (λ fault. IsRefused stack set.now main.now fault) }
{
    match by_phases(alloc, set, main, stack) {
        Ok(built) => Ok(built),
        Err(stop) => Err(stop.to_fault(alloc, main)),
    }
}

/// The phases in their order (ISO/IEC 9899:2011 5.1.1.2).
fn by_phases(alloc: Global, set: &FileSet, main: &str, stack: StackSize) -> Result<Built, Stop>
    ensures built { IfOk result (λ built. Compiles stack set.now main.now built) }
    ensures made { IfOk result (λ built. IsMade stack set.now main.now built) }
    ensures stops { IfErr result (λ stop. Stops stack set.now main.now stop) }
{
    let mut names = Names::new(alloc);
    let program = checked_unit(alloc, set, main, &mut names, stack)?;
    build(alloc, &program, &names, stack)
}

/// The executable file of a program.
fn build(alloc: Global, program: &Program, names: &Names, stack: StackSize) -> Result<Built, Stop>
    requires { IsReady (program_of program.now) }
    ensures built { IfOk result (λ built. BuildsProgram stack names.now (program_of program.now) built) }
    ensures made { IfOk result (λ built. MakesProgram stack names.now (program_of program.now) built) }
    ensures stops { IfErr result IsMemory }
{
    match compile_checked(alloc, program, names, stack) {
        Ok(built) => Ok(built),
        Err(_) => Err(Stop::Memory),
    }
}

/// The executable file of a program that `checked_program` answered with these names, for a stack of this size. The
/// error is that memory ran out.
pub fn compile_checked(
    alloc: Global,
    program: &Program,
    names: &Names,
    stack: StackSize,
) -> Result<Built, AllocError>
    requires { IsReady (program_of program.now) }
    ensures { IfOk result (λ built. MakesProgram stack names.now (program_of program.now) built) }
{
    let generated = match generate(alloc, program, stack) {
        Ok(generated) => generated,
        Err(_) => return Err(AllocError),
    };
    let mut frames = Vec::new(alloc);
    match put_entries(
        alloc,
        &mut frames,
        names,
        &program.functions,
        generated.frames.as_slice(),
    ) {
        Ok(()) => Ok(Built {
            elf: generated.elf,
            frames,
        }),
        Err(_) => Err(AllocError),
    }
}

/// An entry for each function that has a frame.
pub fn put_entries(
    alloc: Global,
    list: &mut Vec<(String, u32, u32)>,
    names: &Names,
    functions: &[Function],
    frames: &[u32],
) -> Result<(), AllocError>
    requires { AreLight (map function_of functions.now) }
    ensures { OnOk result (map shown_entry list.new.items ≡ map shown_entry list.old.items ++ entries names.now (map function_of functions.now) frames.now) }
{
    let mut done = 0;
    while done < functions.len() && done < frames.len() {
        list.push(entry(alloc, names, &functions[done], frames[done])?)?;
        done += 1;
    }
    Ok(())
}

/// The entry of a function.
fn entry(
    alloc: Global,
    names: &Names,
    function: &Function,
    frame: u32,
) -> Result<(String, u32, u32), AllocError>
    requires { (function_of function.now).weight < 2 ^ 32 }
    ensures { IfOk result (λ e. shown_entry e ≡ entry_of names.now (function_of function.now) frame) }
{
    let name = String::from_str(alloc, names.shown_text(function.name))?;
    Ok((name, frame, function.weight as u32))
}
