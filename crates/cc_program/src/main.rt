//! The program `zkc`.
#![tactic(auto)]

mod answering;

use answering::answer;
use clap::error::ErrorKind as UsageKind;
use cli_args::{Asked, Reading, Refused, ask, plain_words};
use cli_io::{say, say_memory, say_unwritten, say_usage};
use explain_cmd::VERSION;
use srcset::Fault;
use std::alloc::{AllocError, Global};
use std::env;
use std::env::Args;
use std::io::ErrorKind;
use std::process::ExitCode;

fn main(rt: HostRuntime) -> ExitCode {
    match env::args(&rt) {
        Ok(words) => ExitCode::from(obey(&rt, words)),
        Err(error) if error.kind() == ErrorKind::OutOfMemory => ExitCode::from(say_memory(&rt)),
        Err(_) => ExitCode::from(say_usage(&rt, "an argument is no text")),
    }
}

/// Runs the command line and returns its exit status.
fn obey(rt: &HostRuntime, words: Args<Global>) -> u8 {
    let Ok(words) = collected(rt.alloc(), words) else {
        return say_memory(rt);
    };
    match plain_words(rt.alloc(), words.get(1..).unwrap_or_default()) {
        Ok(plain) => obey_plain(rt, plain.as_slice()),
        Err(Refused::Told(why)) => say_usage(rt, why),
        Err(Refused::Memory) => say_memory(rt),
    }
}

fn collected(alloc: Global, words: Args<Global>) -> Result<Vec<String>, AllocError> {
    words.collect(alloc)
}

/// Runs a command line in its plain form and returns its exit status.
fn obey_plain(rt: &HostRuntime, words: &[&str]) -> u8 {
    match ask(rt.alloc(), words, VERSION) {
        Ok(Asked::Read(Reading::Request(request))) => answer(rt, &request),
        Ok(Asked::Read(Reading::Wrong(why))) => say_usage(rt, why),
        Ok(Asked::Shown(error)) => show(rt, &error),
        Err(_) => say_memory(rt),
    }
}

/// Prints the requested help, or the error in the command line, or that there was no memory to parse it.
fn show(rt: &HostRuntime, error: &clap::Error) -> u8 {
    if error.kind() == UsageKind::OutOfMemory {
        return say(rt, &Fault::memory(rt.alloc()));
    }
    let is_printed = error.print(rt).is_ok();
    if error.exit_code() != 0 {
        2
    } else if is_printed {
        0
    } else {
        say_unwritten(rt, "")
    }
}
