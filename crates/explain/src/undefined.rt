//! Interpreting a program, and its undefined behaviour.

use cc::{Cmd, StackSize, perform};
use explain_findings::{
    Certainty, Includes, Noted, Place, Sources, Topic, Undefined, act_help, nth_on_line, place_at,
    room_for_line, show_place, wants_memory,
};
use explain_places::{Tokens, laid_out};
use io_ports::MemPort;
use srcset::FileSet;
use std::alloc::{AllocError, Global};
use std::{io, str};

/// The result of interpreting a program.
#[derive(Drop)]
pub struct Interpretation {
    /// The exit status of `interp`.
    pub status: u8,
    /// The output of the program.
    pub output: Vec<u8>,
    /// The line that `interp` prints on standard error.
    pub line: Vec<u8>,
    /// The undefined behaviour, where it ended with one.
    pub undefined: Option<Undefined>,
}

/// How a program is interpreted.
#[derive(Clone, Copy)]
pub struct Run<'a> {
    /// The bytes that it reads.
    pub input: &'a [u8],
    /// The maximum number of ticks.
    pub max: u64,
    pub stack: StackSize,
}

/// How a run of the interpreter ended.
#[derive(Drop)]
struct RunEnd {
    status: u8,
    output: Vec<u8>,
    line: Vec<u8>,
}

/// The place of undefined behaviour.
#[derive(Drop)]
struct Site {
    file: String,
    line: u32,
    act: u32,
}

/// Interprets the program in the file `main` of the set, and finds the token of undefined behaviour:
/// its line is laid out anew, a token a line, and the program interpreted again.
pub fn interpreted(
    alloc: Global,
    set: &FileSet,
    names: &[&str],
    main: &str,
    run: &Run<'_>,
) -> Result<Interpretation, AllocError> {
    let end = end_of(alloc, set, main, run)?;
    let undefined = match site_in(alloc, end.line.as_slice())? {
        Some(site) => {
            let sources = Sources::of(alloc, set, names)?;
            Some(explain_act(alloc, set, &sources, main, run, site)?)
        }
        None => None,
    };
    Ok(Interpretation {
        status: end.status,
        output: end.output,
        line: end.line,
        undefined,
    })
}

fn end_of(alloc: Global, set: &FileSet, main: &str, run: &Run<'_>) -> Result<RunEnd, AllocError> {
    let mut port = MemPort::new(alloc, Vec::from_slice(alloc, run.input)?);
    let mut line = room_for_line(alloc)?;
    let status = perform(
        alloc,
        Cmd::Interp(run.max),
        set,
        main,
        b"",
        &mut port,
        &mut io::sink(),
        &mut line,
        run.stack,
    );
    Ok(RunEnd {
        status,
        output: Vec::from_slice(alloc, port.output())?,
        line,
    })
}

/// The place in a line `FILE:LINE: undefined UN`.
fn site_in(alloc: Global, line: &[u8]) -> Result<Option<Site>, AllocError> {
    let Ok(text) = str::from_utf8(line) else {
        return Ok(None);
    };
    let Some((place, act)) = text.trim_end().rsplit_once(": undefined U") else {
        return Ok(None);
    };
    let Some((file, line)) = place.rsplit_once(':') else {
        return Ok(None);
    };
    match (line.parse::<u32>(), act.parse::<u32>()) {
        (Ok(line), Ok(act)) => Ok(Some(Site {
            file: String::from_str(alloc, file)?,
            line,
            act,
        })),
        _ => Ok(None),
    }
}

fn explain_act(
    alloc: Global,
    set: &FileSet,
    sources: &Sources,
    main: &str,
    run: &Run<'_>,
    site: Site,
) -> Result<Undefined, AllocError> {
    let place = place_of_act(alloc, sources, main, run, &site)?;
    let mut noted = Noted::new(alloc);
    if let Some(file) = sources.number(site.file.as_str()) {
        let includes = Includes::of(alloc, sources, sources.number(main).unwrap_or(0))?;
        includes.put_notes(alloc, sources, file, &mut noted.notes)?;
    }
    noted.put_text(alloc, Topic::Hint, act_help(site.act))?;
    let shown = show_place(alloc, set, site.file.as_str(), site.line, place, noted)?;
    Ok(Undefined {
        file: site.file,
        line: site.line,
        act: site.act,
        certainty: Certainty::Met,
        shown,
    })
}

/// The place of undefined behaviour, by a run over the file laid out anew.
fn place_of_act(
    alloc: Global,
    sources: &Sources,
    main: &str,
    run: &Run<'_>,
    at: &Site,
) -> Result<Option<Place>, AllocError> {
    let Some(file) = sources.number(at.file.as_str()) else {
        return Ok(None);
    };
    let text = sources.text(file);
    let Some(tokens) = Tokens::of(alloc, text)? else {
        return Ok(None);
    };
    let again = laid_out(alloc, text, &tokens.spots, at.line)?;
    let Some(set) = sources.set_with(alloc, file, &again)? else {
        return Ok(None);
    };
    let end = end_of(alloc, &set, main, run)?;
    if wants_memory(end.line.as_slice()) {
        return Err(AllocError);
    }
    let Some(found) = site_in(alloc, end.line.as_slice())? else {
        return Ok(None);
    };
    if found.act != at.act || found.file.as_str() != at.file.as_str() || found.line < at.line {
        return Ok(None);
    }
    match nth_on_line(&tokens.spots, at.line, found.line - at.line) {
        Some(spot) => Ok(Some(place_at(file, text, spot))),
        None => Ok(None),
    }
}
