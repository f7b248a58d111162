//! Prints the results of library calls for the rows of its input, a line each.
#![tactic(auto)]

mod arithmetic;
mod assembly;
mod constants;
mod declarations;
mod expressions;
mod faults;
mod files;
mod items;
mod memory;
mod narrow;
mod piece;
mod ports;
mod pulling;
mod runs;
mod same;
mod scanned;
mod sets;
mod statements;
mod streams;
mod tokens;
mod trees;
mod twos;
mod words;

use std::io::{Read, Write};
use std::process::ExitCode;
use test_rows::{Answer, Fields, Subjects, answer_rows};

/// The subjects of calls.
struct Calls;

impl Subjects for Calls {
    fn answer(row: &Fields, answer: &mut Answer) {
        let is_known = of_sources(row, answer)
            || of_numbers(row, answer)
            || of_items(row, answer)
            || of_machine(row, answer);
        if !is_known {
            answer.write(b"no such subject");
        }
    }
}

fn main(rt: HostRuntime) -> ExitCode {
    let mut input = Vec::new(rt.alloc());
    if rt.stdin().read_to_end(&mut input).is_err() {
        return ExitCode::FAILURE;
    }
    let mut answer = Answer::new(rt.alloc());
    answer_rows::<Calls>(input.as_slice(), &mut answer);
    let Some(text) = answer.text() else {
        return ExitCode::FAILURE;
    };
    match rt.stdout().write_all(text) {
        Ok(()) => ExitCode::SUCCESS,
        Err(_) => ExitCode::FAILURE,
    }
}

/// Sets, names and faults, and the parsed forms of texts.
fn of_sources(row: &Fields, answer: &mut Answer) -> bool {
    match row.text(0) {
        "file" => sets::file(row, answer),
        "refused" => sets::refused(row, answer),
        "header" => sets::header(row, answer),
        "names" => sets::numbers(row, answer),
        "many" => sets::many(row, answer),
        "message" => faults::message_of(row, answer),
        "messages" => faults::messages(answer),
        "fault" => faults::fault_line(row, answer),
        "refusal" => faults::refusal_line(row, answer),
        "out_of_memory" => faults::out_of_memory(answer),
        "write" => faults::write(row, answer),
        _ => return false,
    }
    true
}

/// Tokens, trees, and numbers.
fn of_numbers(row: &Fields, answer: &mut Answer) -> bool {
    match row.text(0) {
        "text" => scanned::text(row, answer),
        "lines" => scanned::lines(row, answer),
        "twos" => twos::twos(row, answer),
        "tokens" => tokens::tokens_of(row, answer),
        "stream" => streams::stream(row, answer),
        "tree" => trees::tree_of(row, answer),
        "counts" => trees::counts_of(row, answer),
        "constant" => constants::constant(row, answer),
        "operation" => arithmetic::operation(row, answer),
        "conversion" => arithmetic::conversion(row, answer),
        "type" => arithmetic::type_of(row, answer),
        "pair" => arithmetic::pair(row, answer),
        _ => return false,
    }
    true
}

/// Instructions and items.
fn of_items(row: &Fields, answer: &mut Answer) -> bool {
    match row.text(0) {
        "word" => assembly::word(row, answer),
        "code" => assembly::code(row, answer),
        "size" => assembly::size(row, answer),
        "jump" => assembly::jump(row, answer),
        "listing" => assembly::listing(row, answer),
        "sound" => assembly::sound(row, answer),
        "low" => assembly::low(row, answer),
        _ => return false,
    }
    true
}

/// Memory and runs.
fn of_machine(row: &Fields, answer: &mut Answer) -> bool {
    match row.text(0) {
        "memory" => memory::calls_of_text(row, answer),
        "image" => memory::calls_of_image(row, answer),
        "run" => runs::run(row, answer),
        "port" => ports::run(row, answer),
        "silent" => ports::run_silent(row, answer),
        _ => return false,
    }
    true
}
