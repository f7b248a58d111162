//! `show`: a form that the compiler makes of a program between its phases.

use cli_args::{Program, ShownForm};
use cli_io::{TAKEN, put_file, say, say_usage};
use cli_sources::{is_taken, read_sources, stack_size};
use forms::{Form, Style, show};

/// Prints a form of a program to the file at a path; returns the exit status.
pub fn show_form(
    rt: &HostRuntime,
    program: &Program<'_>,
    out: &str,
    form: ShownForm,
    is_json: bool,
) -> u8 {
    if is_taken(rt, program, out) {
        return say_usage(rt, TAKEN);
    }
    let sources = match read_sources(rt, program) {
        Ok(sources) => sources,
        Err(fault) => return say(rt, &fault),
    };
    if sources.are_at(rt, out) {
        return say_usage(rt, TAKEN);
    }
    let stack = stack_size(program);
    let style = if is_json { Style::Json } else { Style::Text };
    match show(
        rt.alloc(),
        &sources.set,
        sources.main,
        stack,
        form_of(form),
        style,
    ) {
        Ok(text) => put_file(rt, out, text.as_bytes()),
        Err(fault) => say(rt, &sources.told(rt.alloc(), fault)),
    }
}

fn form_of(form: ShownForm) -> Form {
    match form {
        ShownForm::Tokens => Form::Tokens,
        ShownForm::Tree => Form::Tree,
        ShownForm::Typed => Form::Typed,
        ShownForm::Tac => Form::Tac,
        ShownForm::Flat => Form::Flat,
        ShownForm::Passes => Form::Passes,
        ShownForm::Items => Form::Items,
    }
}
