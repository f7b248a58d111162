//! Executes a request.

use cc::Cmd;
use cli_args::{Command, Program, Request, Role, Trace};
use cmd_build::{build, interp, list_files, print_lines, print_text, run};
use cmd_check::{Warned, check_program};
use cmd_explain::{Told, explain_program, show_line};
use cmd_inspect::{
    ListForm, list_code, show_form, show_frames, show_image, show_size, write_symbols,
};
use cmd_lsp::serve;
use cmd_trace::{InterpForm, RunForm, interp_traced, run_traced};
use cmd_verify::verify_program;

/// Executes the request; returns the exit status.
pub fn answer(rt: &HostRuntime, request: &Request<'_>) -> u8 {
    let program = &request.program;
    match request.command {
        Command::Build {
            out,
            rule,
            listing,
            is_plain,
        } => {
            let status = build(rt, program, out, rule, listing);
            if status == 1 && !is_plain {
                show_line(rt, program);
            }
            status
        }
        Command::ListFiles => list_files(rt, program),
        Command::Pp {
            out,
            has_lines: true,
        } => print_lines(rt, program, out),
        Command::Pp {
            out,
            has_lines: false,
        } => print_text(rt, program, Cmd::Pp, out),
        Command::List {
            out,
            has_labels,
            has_abi_names,
            has_lines,
        } => list(
            rt,
            program,
            out,
            ListForm {
                has_labels,
                has_abi_names,
                has_lines,
            },
        ),
        Command::Run { max, at, trace } => run_told(rt, program, RunForm { max, at, trace }),
        Command::Interp {
            max,
            trace: Trace::None,
            is_json: _,
        } => interp(rt, program, max),
        Command::Interp {
            max,
            trace,
            is_json,
        } => interp_traced(
            rt,
            program,
            InterpForm {
                max,
                trace,
                is_json,
            },
        ),
        Command::Explain {
            stage,
            max,
            errors,
            telling,
            colours,
        } => explain_program(
            rt,
            program,
            Told {
                stage,
                max,
                most: errors as usize,
                telling,
                colours,
            },
        ),
        Command::Show { form, is_json, out } => show_form(rt, program, out, form, is_json),
        Command::Check {
            words,
            are_errors,
            telling,
        } => check_program(
            rt,
            program,
            Warned {
                words,
                are_errors,
                telling,
            },
        ),
        Command::Verify(words) => verify_program(rt, program, &words),
        Command::Frames { has_sizes } => show_frames(rt, program, has_sizes),
        Command::Symbols(out) => write_symbols(rt, program, out),
        Command::Image(form) => show_image(rt, program.main, form),
        Command::Size => show_size(rt, program.main),
        Command::Lsp => serve(rt),
    }
}

/// A listing: the plain one, or one with more.
fn list(rt: &HostRuntime, program: &Program<'_>, out: &str, form: ListForm) -> u8 {
    if form.has_labels || form.has_abi_names || form.has_lines {
        list_code(rt, program, out, form)
    } else {
        print_text(rt, program, Cmd::List, out)
    }
}

/// A run: the plain one, or one that is traced.
fn run_told(rt: &HostRuntime, program: &Program<'_>, form: RunForm<'_>) -> u8 {
    if form.at.is_some() || form.trace != Trace::None || program.has(Role::File) {
        run_traced(rt, program, form)
    } else {
        run(rt, program, form.max)
    }
}
