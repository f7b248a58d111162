//! `build --listing`: an executable file, and the listing of the code of this very file.

ghost use Rattle.memory_map.specs.MemoryMap.{text_start};
ghost use Rattle.asm.specs.Layout.{IsLow};

use cc::{Listed, StackSize, compile_listed, write_listing};
use cli_io::{OutFile, put_executable, say, say_memory, say_unwritten};
use cli_sources::Sources;
use std::io::{BufWriter, Write};

/// Compiles the files, and writes the executable file and its listing; returns the exit status.
pub fn build_listed(
    rt: &HostRuntime,
    sources: &Sources<'_>,
    out: &str,
    listing: &str,
    stack: StackSize,
) -> u8 {
    match compile_listed(rt.alloc(), &sources.set, sources.main, stack) {
        Ok(listed) => put_both(rt, &listed, out, listing),
        Err(fault) => say(rt, &sources.told(rt.alloc(), fault)),
    }
}

fn put_both(rt: &HostRuntime, listed: &Listed, out: &str, listing: &str) -> u8
    requires { IsLow text_start listed.now.items }
{
    let status = put_executable(rt, out, listed.built.elf.as_slice());
    if status == 0 {
        put_listing(rt, listed, listing)
    } else {
        status
    }
}

/// Writes the listing at a path. Flushes the output before returning the status.
fn put_listing(rt: &HostRuntime, listed: &Listed, path: &str) -> u8
    requires { IsLow text_start listed.now.items }
{
    let Ok(mut out) = BufWriter::new(rt.alloc(), OutFile::plain(rt, path)) else {
        return say_memory(rt);
    };
    let is_whole = match write_listing(rt.alloc(), &listed.items, &mut out) {
        Ok(()) => out.flush().is_ok(),
        Err(fault) if fault.code == 801 => return say_memory(rt),
        Err(_) => false,
    };
    if is_whole { 0 } else { say_unwritten(rt, path) }
}
