//! The output of `cc explain`.

ghost use Rattle.std.specs.Prelude.{◌≡◌, ◌≤◌, IfOk};

use crate::knowing::put_known;
use crate::version::VERSION;
use cc::StackSize;
use explain::{Explained, Interpretation, Run, Stage, explain, interpreted};
use explain_findings::{Finding, Shown, Undefined, wants_memory};
use explain_render::{
    Style, put_finding, put_json, put_json_undefined, put_sarif_end, put_sarif_result,
    put_sarif_start, put_sarif_undefined, put_source, put_undefined,
};
use srcset::{Fault, FileSet};
use std::alloc::{AllocError, Global};

/// The form in which a fault is reported.
#[derive(Clone, Copy, Debug, PartialEq, Eq)]
pub enum Form {
    /// As text, on standard error.
    Text(Style),
    /// As JSON, an object a line, on standard output.
    Json,
    /// As a log of SARIF, on standard output.
    Sarif,
}

/// The output of a command.
#[derive(Drop)]
pub struct Said {
    /// On standard output.
    pub out: Vec<u8>,
    /// On standard error.
    pub err: Vec<u8>,
    /// The exit status.
    pub status: u8,
}

/// How far the faults of a program are looked for.
#[derive(Clone, Copy, Debug, PartialEq, Eq)]
pub struct Bounds {
    pub stage: Stage,
    /// The stack that the program is built for.
    pub stack: StackSize,
    /// The maximum number of reported faults.
    pub most: usize,
}

/// The faults of the program in the file `main` of the set, reported in a form; the status is 1 where there are some, else 0. `names` are those of
/// the files of the set, and `given` is the one by which the main file is reported.
pub fn explain_faults(
    alloc: Global,
    set: &FileSet,
    names: &[&str],
    main: &str,
    given: &str,
    bounds: Bounds,
    form: Form,
) -> Result<Said, AllocError>
    ensures { IfOk result (λ said. said.status ≤ 1) }
{
    let told = find_faults(alloc, set, names, main, given, bounds)?;
    tell_faults(alloc, told.as_ref(), form)
}

/// The report, in a form, of the faults that were found; the status is 1 where there are some, else 0.
pub fn tell_faults(alloc: Global, told: Option<&Explained>, form: Form) -> Result<Said, AllocError>
    ensures { IfOk result (λ said. said.status ≤ 1) }
{
    let status = if told.is_some() { 1 } else { 0 };
    let mut out = String::new(alloc);
    let mut err = String::new(alloc);
    match form {
        Form::Sarif => put_log(alloc, told, &mut out)?,
        Form::Json => {
            if let Some(told) = told {
                put_objects(alloc, told, &mut out)?;
            }
        }
        Form::Text(style) => {
            if let Some(told) = told {
                put_text(alloc, style, told, &mut err)?;
            }
        }
    }
    Ok(Said {
        out: out.into_bytes(),
        err: err.into_bytes(),
        status,
    })
}

/// The faults of a program, in which the main file has the name by which it is reported.
pub fn find_faults(
    alloc: Global,
    set: &FileSet,
    names: &[&str],
    main: &str,
    given: &str,
    bounds: Bounds,
) -> Result<Option<Explained>, AllocError> {
    let Bounds { stage, stack, most } = bounds;
    let told = explain(alloc, set, names, main, stage, stack, most)?;
    match told {
        Some(told) => {
            let mut told = told;
            put_name(alloc, main, given, &mut told.first)?;
            for finding in told.further.iter_mut() {
                put_name(alloc, main, given, finding)?;
            }
            Ok(Some(told))
        }
        None => Ok(None),
    }
}

/// Puts the name by which the main file is reported in place of the one that it has in the set.
fn put_name(
    alloc: Global,
    main: &str,
    given: &str,
    finding: &mut Finding,
) -> Result<(), AllocError> {
    if finding.fault.file.as_str() == main && finding.fault.line <= 1 {
        finding.fault.file = String::from_str(alloc, given)?;
    }
    Ok(())
}

/// The source line of the fault of a program, with a caret under its token; empty where there is none.
pub fn fault_source(
    alloc: Global,
    set: &FileSet,
    names: &[&str],
    main: &str,
    stack: StackSize,
    style: Style,
) -> Result<Vec<u8>, AllocError> {
    let mut text = String::new(alloc);
    if let Some(told) = explain(alloc, set, names, main, Stage::Whole, stack, 1)? {
        put_source(
            alloc,
            style,
            told.first.fault.line,
            &told.first.shown,
            &mut text,
        )?;
    }
    Ok(text.into_bytes())
}

/// Why a file was not read, which no source explains, reported in a form; the status is 1.
pub fn explain_unread(alloc: Global, fault: Fault, form: Form) -> Result<Said, AllocError>
    ensures { IfOk result (λ said. said.status ≡ 1) }
{
    let told = Explained {
        first: Finding {
            fault,
            shown: Shown {
                place: None,
                token: Vec::new(alloc),
                source: Vec::new(alloc),
                notes: Vec::new(alloc),
                fixes: Vec::new(alloc),
            },
        },
        further: Vec::new(alloc),
    };
    let mut out = String::new(alloc);
    let mut err = String::new(alloc);
    match form {
        Form::Sarif => put_log(alloc, Some(&told), &mut out)?,
        Form::Json => put_objects(alloc, &told, &mut out)?,
        Form::Text(style) => put_text(alloc, style, &told, &mut err)?,
    }
    Ok(Said {
        out: out.into_bytes(),
        err: err.into_bytes(),
        status: 1,
    })
}

/// Puts each fault as text.
fn put_text(
    alloc: Global,
    style: Style,
    told: &Explained,
    out: &mut String,
) -> Result<(), AllocError> {
    put_finding(alloc, style, &told.first, out)?;
    for finding in &told.further {
        put_finding(alloc, style, finding, out)?;
    }
    Ok(())
}

/// Puts each fault as an object on a line of its own.
fn put_objects(alloc: Global, told: &Explained, out: &mut String) -> Result<(), AllocError> {
    put_json(alloc, &told.first, out)?;
    for finding in &told.further {
        put_json(alloc, finding, out)?;
    }
    Ok(())
}

/// Puts a log with a result for each fault.
fn put_log(alloc: Global, told: Option<&Explained>, out: &mut String) -> Result<(), AllocError> {
    let codes = match told {
        Some(told) => codes(alloc, told)?,
        None => Vec::new(alloc),
    };
    put_sarif_start(alloc, VERSION, codes.as_slice(), &[], out)?;
    if let Some(told) = told {
        put_sarif_result(alloc, &told.first, true, out)?;
        for finding in &told.further {
            put_sarif_result(alloc, finding, false, out)?;
        }
    }
    put_sarif_end(out)
}

/// The codes of the faults, each once.
fn codes(alloc: Global, told: &Explained) -> Result<Vec<u16>, AllocError> {
    let mut codes = vec![in alloc; told.first.fault.code]?;
    for finding in &told.further {
        let code = finding.fault.code;
        if !codes.as_slice().contains(&code) {
            codes.push(code)?;
        }
    }
    Ok(codes)
}

/// Interprets a program: the text that it wrote, which only the text form includes, and its undefined
/// behaviour explained, with the values and the calls that lead to it, or else the line that `interp` prints. The status is that of `interp`.
pub fn explain_run(
    alloc: Global,
    set: &FileSet,
    names: &[&str],
    main: &str,
    run: &Run<'_>,
    form: Form,
) -> Result<Said, AllocError> {
    let Interpretation {
        status,
        output,
        line,
        undefined,
    } = interpreted(alloc, set, names, main, run)?;
    let is_undefined = undefined.is_some();
    let told = match undefined {
        Some(act) => {
            let act = act_known(alloc, set, main, run, act)?;
            told_act(alloc, form, &act)?
        }
        None => told_nothing(alloc, form, line.as_slice())?,
    };
    let err = if is_undefined { Vec::new(alloc) } else { line };
    if matches!(form, Form::Text(_)) {
        let err = if is_undefined { told.into_bytes() } else { err };
        return Ok(Said {
            out: output,
            err,
            status,
        });
    }
    Ok(Said {
        out: told.into_bytes(),
        err,
        status,
    })
}

/// The report, in a form, of a run without undefined behaviour that ended with this line: nothing, which as SARIF is a log without results. A
/// run that ran out of memory has no log, since nothing was found out about it.
fn told_nothing(alloc: Global, form: Form, line: &[u8]) -> Result<String, AllocError> {
    let mut told = String::new(alloc);
    if form == Form::Sarif && !wants_memory(line) {
        put_log(alloc, None, &mut told)?;
    }
    Ok(told)
}

/// Undefined behaviour in a form.
fn told_act(alloc: Global, form: Form, act: &Undefined) -> Result<String, AllocError> {
    let mut told = String::new(alloc);
    put_act(alloc, form, act, &mut told)?;
    Ok(told)
}

/// Undefined behaviour with its values and the calls that lead to it.
fn act_known(
    alloc: Global,
    set: &FileSet,
    main: &str,
    run: &Run<'_>,
    act: Undefined,
) -> Result<Undefined, AllocError> {
    let mut act = act;
    put_known(alloc, set, main, run, &mut act)?;
    Ok(act)
}

/// Puts undefined behaviour in a form.
fn put_act(alloc: Global, form: Form, act: &Undefined, out: &mut String) -> Result<(), AllocError> {
    match form {
        Form::Text(style) => put_undefined(alloc, style, act, out),
        Form::Json => put_json_undefined(alloc, act, out),
        Form::Sarif => {
            put_sarif_start(alloc, VERSION, &[], &[act.act], out)?;
            put_sarif_undefined(alloc, act, out)?;
            put_sarif_end(out)
        }
    }
}
