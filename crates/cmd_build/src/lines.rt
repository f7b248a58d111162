//! The tokens after preprocessing, on their lines.

use cli_args::Program;
use cli_io::{TAKEN, put_file, say, say_usage};
use cli_sources::{Sources, is_taken, read_sources};
use phases::PpToken;
use pp::preprocess;
use srcset::{Fault, Names};
use std::alloc::{AllocError, Global};

/// The most empty lines that are written in place of a marker.
const MOST_EMPTY: u32 = 8;

/// Prints the tokens of a program to the file at a path, each on its line, with a marker `# LINE "FILE"` where another file or a further line goes on; returns
/// the exit status.
pub fn print_lines(rt: &HostRuntime, program: &Program<'_>, out: &str) -> u8 {
    if is_taken(rt, program, out) {
        return say_usage(rt, TAKEN);
    }
    let sources = match read_sources(rt, program) {
        Ok(sources) => sources,
        Err(fault) => return say(rt, &fault),
    };
    if sources.are_at(rt, out) {
        return say_usage(rt, TAKEN);
    }
    match lines_of(rt.alloc(), &sources) {
        Ok(text) => put_file(rt, out, text.as_slice()),
        Err(fault) => say(rt, &sources.told(rt.alloc(), fault)),
    }
}

/// The tokens of the files as text.
fn lines_of(alloc: Global, sources: &Sources<'_>) -> Result<Vec<u8>, Fault> {
    let mut names = Names::new(alloc);
    let tokens = match preprocess(alloc, &sources.set, &mut names, sources.main) {
        Ok(tokens) => tokens,
        Err(fault) => return Err(fault),
    };
    match text_of(alloc, tokens.as_slice(), &names) {
        Ok(text) => Ok(text),
        Err(_) => Err(Fault::memory(alloc)),
    }
}

/// The present position of the text: a line of a file, which has a token already or not.
#[derive(Clone, Copy)]
struct Reached {
    file: usize,
    line: u32,
    is_begun: bool,
}

fn text_of(alloc: Global, tokens: &[PpToken<'_>], names: &Names) -> Result<Vec<u8>, AllocError> {
    let mut text = Vec::new(alloc);
    let mut reached = Reached {
        file: usize::MAX,
        line: 0,
        is_begun: false,
    };
    for token in tokens {
        reached = put_place(alloc, token, reached, names, &mut text)?;
        text.extend_from_slice(token.spelling())?;
    }
    if reached.is_begun {
        text.push(b'\n')?;
    }
    Ok(text)
}

/// Advances to the place of a token; returns the new position.
fn put_place(
    alloc: Global,
    token: &PpToken<'_>,
    reached: Reached,
    names: &Names,
    text: &mut Vec<u8>,
) -> Result<Reached, AllocError> {
    let pos = token.pos();
    let there = Reached {
        file: pos.file,
        line: pos.line,
        is_begun: true,
    };
    if pos.file == reached.file && pos.line == reached.line {
        text.push(b' ')?;
        return Ok(there);
    }
    if pos.file == reached.file
        && pos.line > reached.line
        && pos.line - reached.line <= MOST_EMPTY
    {
        for _ in reached.line..pos.line {
            text.push(b'\n')?;
        }
        return Ok(there);
    }
    if reached.is_begun {
        text.push(b'\n')?;
    }
    let (line, name) = (pos.line, names.file_name(pos.file));
    text.extend_from_slice(format!(in alloc; "# {line} \"{name}\"\n")?.as_bytes())?;
    Ok(there)
}
