//! A verdict in each form.

use crate::answering::Asked;
use crate::placing::Placed;
use crate::stack::Stack;
use ctypes::Undef;
use explain_findings::{Certainty, Noted, Place, Shown, Topic, Undefined, act_help, act_title};
use explain_render::{
    Report, Style, put_json_report, put_json_undefined, put_sarif_act_rules, put_sarif_end,
    put_sarif_report, put_sarif_results, put_sarif_rule, put_sarif_tool, put_source,
};
use lint_report::{Files, Form};
use srcset::{Names, Pos};
use std::alloc::{AllocError, Global};

/// The code of a program that the analysis does not follow.
const NOT_FOLLOWED: &str = "not-followed";

const NO_FURTHER: &str = "not followed: the analysis goes no further here";

/// The code of a stack that may not suffice.
const SHORT_STACK: &str = "stack";

/// The beginning of the verdict on a program that is defined.
const DEFINED: &str = "defined on every input; ";

/// The report on a program that is defined.
pub(crate) fn tell_defined(
    alloc: Global,
    stack: &Stack,
    asked: &Asked<'_>,
) -> Result<String, AllocError> {
    let mut out = String::new(alloc);
    if asked.form == Form::Sarif {
        put_sarif_tool(alloc, asked.version, &mut out)?;
        put_stack_rule(alloc, stack, true, &mut out)?;
        put_sarif_results(&mut out)?;
    }
    put_verdict(alloc, stack, asked, DEFINED, true, &mut out)?;
    Ok(out)
}

/// The report where the analysis does not follow, near this place.
pub(crate) fn tell_not_followed(
    alloc: Global,
    names: &Names,
    at: Option<Pos>,
    stack: &Stack,
    asked: &Asked<'_>,
) -> Result<String, AllocError> {
    let mut out = String::new(alloc);
    if asked.form == Form::Sarif {
        put_sarif_tool(alloc, asked.version, &mut out)?;
        put_sarif_rule(
            alloc,
            NOT_FOLLOWED,
            "not followed",
            "docs/VERIFY.md says what the analysis does not follow",
            &mut out,
        )?;
        put_stack_rule(alloc, stack, false, &mut out)?;
        put_sarif_results(&mut out)?;
    }
    match at {
        Some(at) => put_not_followed(
            alloc,
            names.file_name(at.file),
            at.line,
            asked.form,
            &mut out,
        )?,
        None => put_not_followed(alloc, asked.given, 0, asked.form, &mut out)?,
    }
    put_verdict(alloc, stack, asked, "", false, &mut out)?;
    Ok(out)
}

/// Puts the rule of a stack that may not suffice, where it is needed; a comma precedes it where it is not the first.
fn put_stack_rule(
    alloc: Global,
    stack: &Stack,
    is_first: bool,
    out: &mut String,
) -> Result<(), AllocError> {
    if stack.suffices() {
        return Ok(());
    }
    out.push_str(if is_first { "" } else { "," })?;
    put_sarif_rule(
        alloc,
        SHORT_STACK,
        "the stack may not suffice",
        "docs/VERIFY.md says how a program takes a bounded stack: it has no recursion",
        out,
    )
}

/// Puts the verdict on the whole, which begins with these words: in the text a line, in JSON an object after the others, in SARIF a result where the
/// stack may not suffice.
fn put_verdict(
    alloc: Global,
    stack: &Stack,
    asked: &Asked<'_>,
    words: &str,
    is_first: bool,
    out: &mut String,
) -> Result<(), AllocError> {
    let mut text = String::from_str(alloc, words)?;
    stack.put(alloc, &mut text)?;
    let main = asked.given;
    match asked.form {
        Form::Text => {
            let text = text.as_str();
            out.push_str(format!(in alloc; "{main}: {text}\n")?.as_str())
        }
        Form::Json => put_object(alloc, stack, main, text.as_str(), !words.is_empty(), out),
        Form::Sarif => {
            if !stack.suffices() {
                put_short_stack(alloc, main, text.as_str(), is_first, out)?;
            }
            put_sarif_end(out)
        }
    }
}

/// Puts that the stack may not suffice as a result about the main file.
fn put_short_stack(
    alloc: Global,
    main: &str,
    text: &str,
    is_first: bool,
    out: &mut String,
) -> Result<(), AllocError> {
    let shown = nothing_shown(alloc);
    let report = Report {
        code: SHORT_STACK,
        text,
        level: "warning",
        file: main,
        line: 0,
        shown: &shown,
    };
    put_sarif_report(alloc, report, is_first, out)
}

/// Puts the verdict as an object with the members of a report, and `defined`, `stack` and `stack_most` (null where no bound is known).
fn put_object(
    alloc: Global,
    stack: &Stack,
    main: &str,
    text: &str,
    is_defined: bool,
    out: &mut String,
) -> Result<(), AllocError> {
    let shown = nothing_shown(alloc);
    let report = Report {
        code: "verdict",
        text,
        level: "note",
        file: main,
        line: 0,
        shown: &shown,
    };
    let mut object = String::new(alloc);
    put_json_report(alloc, report, &mut object)?;
    out.push_str(object.as_str().strip_suffix("}\n").unwrap_or_default())?;
    let size = stack.size;
    out.push_str(format!(in alloc; ",\"defined\":{is_defined},\"stack\":{size}")?.as_str())?;
    match stack.most {
        Some(most) => { out.push_str(format!(in alloc; ",\"stack_most\":{most}}}\n")?.as_str()) }
        None => out.push_str(",\"stack_most\":null}\n"),
    }
}

/// Puts that the analysis does not follow, at a line of a file, or, where that is 0, somewhere in it.
fn put_not_followed(
    alloc: Global,
    file: &str,
    line: u32,
    form: Form,
    out: &mut String,
) -> Result<(), AllocError> {
    let shown = nothing_shown(alloc);
    let report = Report {
        code: NOT_FOLLOWED,
        text: NO_FURTHER,
        level: "warning",
        file,
        line,
        shown: &shown,
    };
    match form {
        Form::Text if line == 0 => out.push_str(format!(in alloc;
            "{file}: not followed: the analysis goes no further\n"
        )?.as_str()),
        Form::Text => { out.push_str(format!(in alloc; "{file}:{line}: {NO_FURTHER}\n")?.as_str()) }
        Form::Json => put_json_report(alloc, report, out),
        Form::Sarif => put_sarif_report(alloc, report, true, out),
    }
}

/// The report on places at which undefined behaviour was not ruled out.
pub(crate) fn tell_acts(
    alloc: Global,
    files: &Files<'_>,
    names: &Names,
    list: &[Placed],
    stack: &Stack,
    asked: &Asked<'_>,
) -> Result<String, AllocError> {
    let mut out = String::new(alloc);
    if asked.form == Form::Sarif {
        put_sarif_tool(alloc, asked.version, &mut out)?;
        put_sarif_act_rules(alloc, acts(alloc, list)?.as_slice(), &mut out)?;
        put_stack_rule(alloc, stack, list.is_empty(), &mut out)?;
        put_sarif_results(&mut out)?;
    }
    for (number, placed) in list.iter().enumerate() {
        let file = names.file_name(placed.alarm.at.file);
        let act = act_at(alloc, files, file, placed)?;
        match asked.form {
            Form::Text => put_text(alloc, &act, &mut out)?,
            Form::Json => put_json_undefined(alloc, &act, &mut out)?,
            Form::Sarif => put_result(alloc, &act, number == 0, &mut out)?,
        }
    }
    put_verdict(alloc, stack, asked, "", list.is_empty(), &mut out)?;
    Ok(out)
}

/// The numbers of the operations, each once.
fn acts(alloc: Global, list: &[Placed]) -> Result<Vec<u32>, AllocError> {
    let mut acts = Vec::new(alloc);
    for placed in list {
        let act = u32::from(placed.alarm.act.number());
        if !acts.as_slice().contains(&act) {
            acts.push(act)?;
        }
    }
    Ok(acts)
}

fn put_result(
    alloc: Global,
    act: &Undefined,
    is_first: bool,
    out: &mut String,
) -> Result<(), AllocError> {
    let number = act.act;
    let code = format!(in alloc; "U{number}")?;
    put_sarif_report(alloc, Report::of_act(act, code.as_str()), is_first, out)
}

/// Puts a line, `FILE:LINE:COLUMN: may be undefined U2: division by zero (-65 to 190) '/'`, and the source line with a caret.
fn put_text(alloc: Global, act: &Undefined, out: &mut String) -> Result<(), AllocError> {
    let (line, number) = (act.line, act.act);
    out.push_str(act.file.as_str())?;
    out.push_str(format!(in alloc; ":{line}")?.as_str())?;
    if let Some(place) = act.shown.place {
        let column = place.column;
        out.push_str(format!(in alloc; ":{column}")?.as_str())?;
    }
    let title = act_title(number);
    let what = title.strip_prefix("undefined: ").unwrap_or(title);
    out.push_str(format!(in alloc; ": may be undefined U{number}: {what}")?.as_str())?;
    for note in &act.shown.notes {
        if note.topic == Topic::Value {
            let numbers = note.text.as_str();
            out.push_str(format!(in alloc; " ({numbers})")?.as_str())?;
        }
    }
    if !act.shown.token.is_empty() {
        let token = String::from_utf8_lossy(alloc, act.shown.token.as_slice())?;
        let token = token.as_str();
        out.push_str(format!(in alloc; " '{token}'")?.as_str())?;
    }
    out.push_str("\n")?;
    put_source(alloc, Style::Plain, line, &act.shown, out)
}

/// An alarm as possible undefined behaviour, with its place and notes as they are shown.
fn act_at(
    alloc: Global,
    files: &Files<'_>,
    file: &str,
    placed: &Placed,
) -> Result<Undefined, AllocError> {
    let act = u32::from(placed.alarm.act.number());
    let mut noted = Noted::new(alloc);
    put_numbers(alloc, placed, &mut noted)?;
    noted.put_text(alloc, Topic::Hint, act_help(act))?;
    Ok(Undefined {
        file: String::from_str(alloc, file)?,
        line: placed.line,
        act,
        certainty: Certainty::Possible,
        shown: shown_at(alloc, files, file, placed, noted)?,
    })
}

/// Puts the numbers that were found possible, where the operation has a number as operand.
fn put_numbers(alloc: Global, placed: &Placed, noted: &mut Noted) -> Result<(), AllocError> {
    if matches!(placed.alarm.act, Undef::U6 | Undef::U7 | Undef::U8) {
        return Ok(());
    }
    let (low, high) = (placed.alarm.interval.low, placed.alarm.interval.high);
    let text = format!(in alloc; "{low} to {high}")?;
    noted.put_text(alloc, Topic::Value, text.as_str())
}

/// The token and the source line of an alarm.
fn shown_at(
    alloc: Global,
    files: &Files<'_>,
    name: &str,
    placed: &Placed,
    noted: Noted,
) -> Result<Shown, AllocError> {
    let number = files.number(name);
    let mut shown = nothing_shown(alloc);
    shown.notes = noted.notes;
    let Some(file) = files.list.get(number) else {
        return Ok(shown);
    };
    let Some((before, source)) = file.line(placed.line) else {
        return Ok(shown);
    };
    shown.source.extend_from_slice(source)?;
    if placed.end != 0 {
        let token = file.bytes.get(placed.start..placed.end).unwrap_or_default();
        shown.token.extend_from_slice(token)?;
        shown.place = Some(Place {
            file: number,
            start: placed.start,
            end: placed.end,
            line: placed.line,
            column: placed.start.saturating_sub(before).saturating_add(1),
        });
    }
    Ok(shown)
}

fn nothing_shown(alloc: Global) -> Shown {
    Shown {
        place: None,
        token: Vec::new(alloc),
        source: Vec::new(alloc),
        notes: Vec::new(alloc),
        fixes: Vec::new(alloc),
    }
}
