//! `build`: an executable file, its listing, and the rule of a Makefile.

use crate::listed_building::build_listed;
use cc::{Cmd, StackSize, perform};
use cli_args::{Program, Role, Rule, Word};
use cli_io::{
    Line, OutFile, TAKEN, is_same, put_file, say, say_memory, say_unwritten, say_usage, tell,
};
use cli_sources::{Sources, is_taken, read_sources, rule_path, rule_text, stack_size};
use io_ports::IoPort;
use std::alloc::Global;
use std::io;
use std::io::{BufReader, BufWriter};

/// Why a listing is not written.
const LISTING_TAKEN: &str = "the listing is OUT or one of the files that are read";

/// Why a rule for make is not written.
const RULE_TAKEN: &str =
    "the file of the rule is OUT, the listing or one of the files that are read: write -MF FILE";

/// Below the greatest size up to which glibc's `malloc` learns to keep freed blocks (32 MiB, mallopt(3), M_MMAP_THRESHOLD).
const KEPT_BYTES: usize = 33_488_896;

/// Compiles a program, and writes the executable file at a path, with its rule and its listing where they have a path; returns the exit status.
pub fn build(
    rt: &HostRuntime,
    program: &Program<'_>,
    out: &str,
    rule: Option<Rule<'_>>,
    listing: Option<&str>,
) -> u8 {
    if is_taken(rt, program, out) {
        return say_usage(rt, TAKEN);
    }
    if is_listing_taken(rt, program, out, listing) {
        return say_usage(rt, LISTING_TAKEN);
    }
    keep_large_blocks(rt.alloc());
    let sources = match read_sources(rt, program) {
        Ok(sources) => sources,
        Err(fault) => return say(rt, &fault),
    };
    if sources.are_at(rt, out) {
        return say_usage(rt, TAKEN);
    }
    if is_source(rt, &sources, listing) {
        return say_usage(rt, LISTING_TAKEN);
    }
    say_alone(rt, program, &sources);
    match rule {
        Some(rule) => build_with_rule(rt, program, &sources, out, listing, rule),
        None => build_files(rt, program, &sources, out, listing),
    }
}

/// Writes the executable file, and its listing where that has a path.
fn build_files(
    rt: &HostRuntime,
    program: &Program<'_>,
    sources: &Sources<'_>,
    out: &str,
    listing: Option<&str>,
) -> u8 {
    let stack = stack_size(program);
    match listing {
        Some(path) => build_listed(rt, sources, out, path, stack),
        None => build_set(rt, sources, out, stack),
    }
}

/// Writes the same files, and then the rule for make, whose path is none of theirs.
fn build_with_rule(
    rt: &HostRuntime,
    program: &Program<'_>,
    sources: &Sources<'_>,
    out: &str,
    listing: Option<&str>,
    rule: Rule<'_>,
) -> u8 {
    let built = if out == "-" { sources.given } else { out };
    let Ok(path) = rule_path(rt.alloc(), rule, built) else {
        return say_memory(rt);
    };
    if is_rule_taken(rt, sources, out, listing, path.as_str()) {
        return say_usage(rt, RULE_TAKEN);
    }
    let status = build_files(rt, program, sources, out, listing);
    if status != 0 {
        return status;
    }
    match rule_text(rt.alloc(), rule, program, built, sources) {
        Ok(text) => put_file(rt, path.as_str(), text.as_bytes()),
        Err(_) => say_memory(rt),
    }
}

/// Whether the path of the rule leads to OUT, to the listing, or to a file that was read.
fn is_rule_taken(
    rt: &HostRuntime,
    sources: &Sources<'_>,
    out: &str,
    listing: Option<&str>,
    path: &str,
) -> bool {
    let is_listing = match listing {
        Some(listing) => is_one(rt, path, listing),
        None => false,
    };
    is_listing || is_one(rt, path, out) || sources.are_at(rt, path)
}

/// Whether two paths lead to the same file, also where there is none yet.
fn is_one(rt: &HostRuntime, first: &str, second: &str) -> bool {
    is_same(rt, plain(first), plain(second))
}

/// A path without `./` at its beginning.
fn plain(path: &str) -> &str {
    match path.strip_prefix("./") {
        Some(rest) => rest,
        None => path,
    }
}

/// Whether a file that was read lies at the path of the listing.
fn is_source(rt: &HostRuntime, sources: &Sources<'_>, listing: Option<&str>) -> bool {
    match listing {
        Some(path) => sources.are_at(rt, path),
        None => false,
    }
}

/// Whether the path of the listing leads to a file of the program or to OUT.
fn is_listing_taken(
    rt: &HostRuntime,
    program: &Program<'_>,
    out: &str,
    listing: Option<&str>,
) -> bool {
    match listing {
        Some(path) => is_taken(rt, program, path) || is_one(rt, path, out),
        None => false,
    }
}

/// Allocates one large block, of which no page is touched, and frees it. From then on the allocator of the C library takes large lists from its heap, where the
/// pages of one list serve the next, and not each from the system with fresh ones. Where the allocation fails, nothing is lost.
#[inline(never)]
fn keep_large_blocks(alloc: Global) {
    let _block = Vec::<u8>::with_capacity(alloc, KEPT_BYTES);
}

/// Reports each further file that is a C file and that no file includes: it is not compiled, since a program is one unit.
fn say_alone(rt: &HostRuntime, program: &Program<'_>, sources: &Sources<'_>) {
    for word in &program.words {
        if is_c_file(*word) && !is_included(rt, sources, word.text) {
            let name = word.text;
            let _said = eprintln!(rt;
                "note: no file includes {name}, so it is no part of the program, which is one unit: write #include \"{name}\" in MAIN"
            );
        }
    }
}

/// Whether a word names a further file that is a C file.
fn is_c_file(word: Word<'_>) -> bool {
    word.role == Role::File && word.text.ends_with(".c")
}

/// Whether a file of the set includes that of this name, as far as is known.
fn is_included(rt: &HostRuntime, sources: &Sources<'_>, name: &str) -> bool {
    if has_other_name(rt, sources, name) {
        return true;
    }
    for number in 0..sources.files.len() {
        if may_include(rt, sources, number, name) {
            return true;
        }
    }
    false
}

/// Whether the set has the file at this path under another name, which an `#include` has.
fn has_other_name(rt: &HostRuntime, sources: &Sources<'_>, path: &str) -> bool {
    for file in &sources.files {
        if file.name.as_str() != path && is_same(rt, file.path.as_str(), path) {
            return true;
        }
    }
    false
}

/// Whether the file with this number includes that of this name, or what a macro names; true if memory runs out in the search.
fn may_include(rt: &HostRuntime, sources: &Sources<'_>, number: usize, name: &str) -> bool {
    let Ok(names) = sources.included(rt.alloc(), number) else {
        return true;
    };
    let Ok(is_made) = sources.includes_by_macro(rt.alloc(), number) else {
        return true;
    };
    is_made || has_name(names.as_slice(), name)
}

fn has_name(names: &[String], wanted: &str) -> bool {
    for name in names {
        if name.as_str() == wanted {
            return true;
        }
    }
    false
}

/// Compiles the files, and writes the executable file. Flushes the output before returning the status.
fn build_set(rt: &HostRuntime, sources: &Sources<'_>, out: &str, stack: StackSize) -> u8 {
    let Ok(mut line) = Line::new(rt.alloc()) else {
        return say_memory(rt);
    };
    let Ok(mut port) = file_port(rt, out) else {
        return say_memory(rt);
    };
    let status = perform(
        rt.alloc(),
        Cmd::Build(out),
        &sources.set,
        sources.main,
        b"",
        &mut port,
        &mut io::sink(),
        &mut line,
        stack,
    );
    if status == 0 && port.finish().is_err() {
        return say_unwritten(rt, out);
    }
    line.rename(rt.alloc(), sources.main, sources.given);
    tell(rt, &mut line, status)
}

/// A port without input over the file at a path.
fn file_port<'a>(
    rt: &'a HostRuntime,
    out: &'a str,
) -> io::Result<IoPort<io::Empty, BufWriter<OutFile<'a>>>> {
    let writer = BufWriter::new(rt.alloc(), OutFile::executable(rt, out))?;
    match BufReader::with_capacity(rt.alloc(), 0, io::empty()) {
        Ok(reader) => Ok(IoPort::new(reader, writer)),
        Err(error) => Err(error),
    }
}
