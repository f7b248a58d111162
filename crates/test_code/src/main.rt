//! Prints the results of programs and code for the rows of its input, a line each.
#![tactic(auto)]

mod answers;
mod building;
mod compiled;
mod flat_names;
mod flat_reader;
mod flattened;
mod interpreting;
mod running;
mod tac_names;
mod tac_reader;
mod trace;
mod types;

use std::io::{Read, Write};
use std::process::ExitCode;
use test_rows::{Answer, Fields, Subjects, answer_rows};

/// The subjects of programs and code.
struct Programs;

impl Subjects for Programs {
    fn answer(row: &Fields, answer: &mut Answer) {
        match row.text(0) {
            "interpreted" => interpreting::interpreted_row(row, answer),
            "frames" => compiled::frames(row, answer),
            "missing" => compiled::missing(row, answer),
            "passed" => compiled::passed(row, answer),
            "passed_length" => compiled::passed_length(row, answer),
            "flat" => building::run_flat(row, answer),
            "flat_took" => building::take_flat(row, answer),
            "flat_file" => building::write_flat(row, answer),
            "flat_times" => building::repeat_flat(row, answer),
            "tac" => flattened::run_tac(row, answer),
            "tac_took" => flattened::take_tac(row, answer),
            "tac_file" => flattened::write_tac(row, answer),
            _ => answer.write(b"no such subject"),
        }
    }
}

fn main(rt: HostRuntime) -> ExitCode {
    let mut input = Vec::new(rt.alloc());
    if rt.stdin().read_to_end(&mut input).is_err() {
        return ExitCode::FAILURE;
    }
    let mut answer = Answer::new(rt.alloc());
    answer_rows::<Programs>(input.as_slice(), &mut answer);
    let Some(text) = answer.text() else {
        return ExitCode::FAILURE;
    };
    match rt.stdout().write_all(text) {
        Ok(()) => ExitCode::SUCCESS,
        Err(_) => ExitCode::FAILURE,
    }
}
