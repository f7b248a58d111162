//! The form of the command line, made from the table.

use crate::forms::{
    build, check, explain, frames, image, interp, list, lsp, pp, run, show, size, symbols, verify,
};
use clap::Command;
use std::alloc::{AllocError, Global};

/// The command line's form, of a program of this version.
pub fn command<'a>(alloc: Global, version: &'a str) -> Result<Command<'a>, AllocError> {
    with_forms(alloc, whole(alloc, version))
}

/// The command line as a whole, above the commands.
fn whole<'a>(alloc: Global, version: &'a str) -> Command<'a> {
    Command::new(alloc, "zkc")
        .about("Compiles C11 programs for RV32IM, and runs them")
        .version(version)
        .subcommand_required(true)
        .disable_help_subcommand(true)
}

/// The command with all commands below it.
fn with_forms<'a>(alloc: Global, whole: Command<'a>) -> Result<Command<'a>, AllocError> {
    let command = with(Ok(whole), build(alloc));
    let command = with(command, pp(alloc));
    let command = with(command, list(alloc));
    let command = with(command, run(alloc));
    let command = with(command, interp(alloc));
    let command = with(command, explain(alloc));
    let command = with(command, show(alloc));
    let command = with(command, check(alloc));
    let command = with(command, verify(alloc));
    let command = with(command, frames(alloc));
    let command = with(command, symbols(alloc));
    let command = with(command, image(alloc));
    let command = with(command, size(alloc));
    with(command, lsp(alloc))
}

/// The command with one more below it, where there was memory for both. A call joins the steps and not `?`, at each of which both would be let go, and that
/// would be proved there.
fn with<'a>(
    command: Result<Command<'a>, AllocError>,
    below: Result<Command<'a>, AllocError>,
) -> Result<Command<'a>, AllocError> {
    match below {
        Ok(below) => above(command, below),
        Err(error) => Err(error),
    }
}

fn above<'a>(
    command: Result<Command<'a>, AllocError>,
    below: Command<'a>,
) -> Result<Command<'a>, AllocError> {
    match command {
        Ok(command) => command.subcommand(below),
        Err(error) => Err(error),
    }
}
