//! The result of a parse, as a request. All words are read here, once.

use crate::request::{
    Colours, Command, ImageForm, Program, Request, Role, Rule, ShownForm, Stage, Telling, Trace,
    VerifyWords, Word,
};
use clap::ArgMatches;
use std::alloc::{AllocError, Global};

/// How many instructions or ticks a run may take where the words do not say.
const USUAL_MAX: u64 = 1_000_000_000;

/// How many steps an analysis may take where the words do not say.
const USUAL_EFFORT: u64 = 15_000_000;

/// How many faults are explained where that is not said.
const USUAL_ERRORS: u64 = 20;

/// The bytes of the usual stack.
const USUAL_STACK: u32 = 0x10_0000;

const NO_COMMAND: &str = "there is no such command";

const NO_OUT: &str = "the file to write is missing: -o OUT";

const NO_FORM: &str = "one of --bin, --ihex and --memh is needed";

const BAD_STACK: &str =
    "the bytes of the stack are no multiple of 4096 from 4096 to 16777216, as 65536, 64K or 1M";

const BAD_MACRO: &str = "a macro is written -D NAME, -D NAME=VALUE or -U NAME, on one line";

const ONE_INPUT: &str = "- is standard input, and stands for MAIN alone";

const ONE_TEXT: &str = "-E and -S write one file: leave --listing and the rule for make out";

const NEEDS_TRACE: &str = "--json is for --trace or --trace-file here";

const NEEDS_MAP: &str = "--stack, -I, -D and -U are for --map here";

/// The request of the words, or the error in them.
#[derive(Drop)]
pub enum Reading<'a> {
    Request(Request<'a>),
    Wrong(&'static str),
}

/// Makes the request of the words that a parse took.
pub fn read<'a>(alloc: Global, matches: &ArgMatches<'a>) -> Result<Reading<'a>, AllocError> {
    let Some((name, inner)) = matches.subcommand() else {
        return Ok(Reading::Wrong(NO_COMMAND));
    };
    let found = match name {
        "build" => build(inner),
        "pp" => Ok(pp(inner)),
        "list" => Ok(list(inner)),
        "run" => run(inner),
        "interp" => interp(inner),
        "explain" => Ok(explain(inner)),
        "show" => Ok(show(inner)),
        "check" => Ok(check(inner)),
        "verify" => Ok(Command::Verify(verify(inner))),
        "frames" => Ok(Command::Frames {
            has_sizes: inner.get_flag("sizes"),
        }),
        "symbols" => symbols(inner),
        "image" => image(inner),
        "size" => Ok(Command::Size),
        "lsp" => Ok(Command::Lsp),
        _ => Err(NO_COMMAND),
    };
    match found {
        Ok(command) => request(alloc, inner, command),
        Err(why) => Ok(Reading::Wrong(why)),
    }
}

/// The request of a command, with its program.
fn request<'a>(
    alloc: Global,
    inner: &ArgMatches<'a>,
    command: Command<'a>,
) -> Result<Reading<'a>, AllocError> {
    let Some(stack) = stack_of(inner) else {
        return Ok(Reading::Wrong(BAD_STACK));
    };
    if !has_macros(inner) {
        return Ok(Reading::Wrong(BAD_MACRO));
    }
    if inner.get_strs("FILES").unwrap_or_default().contains(&"-") {
        return Ok(Reading::Wrong(ONE_INPUT));
    }
    let main = match inner.get_str("MAIN") {
        Some(main) => main,
        None => inner.get_str("FILE").unwrap_or_default(),
    };
    let words = words_of(alloc, inner)?;
    Ok(Reading::Request(Request {
        program: Program { main, words, stack },
        command,
    }))
}

/// The words that belong to the program.
fn words_of<'a>(alloc: Global, inner: &ArgMatches<'a>) -> Result<Vec<Word<'a>>, AllocError> {
    let mut words = Vec::new(alloc);
    put_words(inner, "FILES", Role::File, &mut words)?;
    put_words(inner, "map", Role::File, &mut words)?;
    put_words(inner, "folder-quote", Role::Folder, &mut words)?;
    put_words(inner, "folder", Role::Folder, &mut words)?;
    put_words(inner, "folder-system", Role::Folder, &mut words)?;
    put_words(inner, "folder-late", Role::Folder, &mut words)?;
    put_macros(inner, &mut words)?;
    put_words(inner, "depend-target", Role::Target, &mut words)?;
    put_words(inner, "depend-quoted", Role::QuotedTarget, &mut words)?;
    put_words(inner, "no-warn", Role::Unwarned, &mut words)?;
    Ok(words)
}

/// Puts the macros that are defined, and those whose definition is removed, in the order of the words.
fn put_macros<'a>(inner: &ArgMatches<'a>, words: &mut Vec<Word<'a>>) -> Result<(), AllocError> {
    let defines = inner.get_strs("define").unwrap_or_default();
    let undefines = inner.get_strs("undefine").unwrap_or_default();
    let mut defined: usize = 0;
    let mut undefined: usize = 0;
    for _ in 0..defines.len().saturating_add(undefines.len()) {
        if place_of(inner, "define", defined) < place_of(inner, "undefine", undefined) {
            put_one(defines, defined, Role::Define, words)?;
            defined = defined.saturating_add(1);
        } else {
            put_one(undefines, undefined, Role::Undefine, words)?;
            undefined = undefined.saturating_add(1);
        }
    }
    Ok(())
}

/// The place among the words of the value of an option that has this number; the greatest number where there is none.
fn place_of(inner: &ArgMatches<'_>, id: &str, number: usize) -> usize {
    let places = inner.indices_of(id).unwrap_or_default();
    match places.get(number).copied() {
        Some(place) => place,
        None => usize::MAX,
    }
}

/// Puts the value with this number.
fn put_one<'a>(
    texts: &[&'a str],
    number: usize,
    role: Role,
    words: &mut Vec<Word<'a>>,
) -> Result<(), AllocError> {
    match texts.get(number).copied() {
        Some(text) => {
            words.push(Word { role, text })?;
            Ok(())
        }
        None => Ok(()),
    }
}

fn put_words<'a>(
    inner: &ArgMatches<'a>,
    id: &str,
    role: Role,
    words: &mut Vec<Word<'a>>,
) -> Result<(), AllocError> {
    for text in inner.get_strs(id).unwrap_or_default() {
        words.push(Word { role, text: *text })?;
    }
    Ok(())
}

/// The bytes of the stack; `None` where the word is no such number.
fn stack_of(inner: &ArgMatches<'_>) -> Option<u32> {
    match inner.get_str("stack") {
        Some(word) => stack_bytes(word),
        None => Some(USUAL_STACK),
    }
}

/// A number of bytes as it is written: in decimal, followed by K for 1024 of them or M for 1048576; a multiple of 4096 from 4096 to 16777216.
fn stack_bytes(word: &str) -> Option<u32> {
    let (digits, unit) = match word.strip_suffix("K") {
        Some(digits) => (digits, 0x400),
        None => match word.strip_suffix("M") {
            Some(digits) => (digits, 0x10_0000),
            None => (word, 1),
        },
    };
    let count = digits.parse::<u32>().ok()?;
    let bytes = count.checked_mul(unit)?;
    if bytes % 0x1000 == 0 && (0x1000..=0x100_0000).contains(&bytes) {
        Some(bytes)
    } else {
        None
    }
}

/// Whether each macro of the words is written as one.
fn has_macros(inner: &ArgMatches<'_>) -> bool {
    for text in inner.get_strs("define").unwrap_or_default() {
        if !is_definition(text) {
            return false;
        }
    }
    for text in inner.get_strs("undefine").unwrap_or_default() {
        if macro_name(text).len() != text.len() || text.is_empty() {
            return false;
        }
    }
    true
}

/// Whether a text is a name, with parameters or without, followed by `=` and a value or not, on one line. A backslash at its end, as `??/` means one, would
/// join the next line to it (5.1.1.2p1).
fn is_definition(text: &str) -> bool {
    let name = macro_name(text);
    let behind = text.get(name.len()..).unwrap_or_default();
    !name.is_empty()
        && (behind.is_empty() || behind.starts_with("=") || behind.starts_with("("))
        && !text.contains('\n')
        && !text.contains('\r')
        && !text.ends_with("\\")
        && !text.ends_with("??/")
        && !opens_comment(text)
}

/// Whether a comment begins in a text, outside of its strings, and does not end there: it would go on in the next line (6.4.9p1).
fn opens_comment(text: &str) -> bool {
    match text.rsplit_once("/*") {
        Some((before, behind)) => !is_in_string(before) && behind.split_once("*/").is_none(),
        None => false,
    }
}

/// Whether a string is open at the end of a text.
fn is_in_string(text: &str) -> bool {
    let mut is_open = false;
    for letter in text.chars() {
        if letter == '"' {
            is_open = !is_open;
        }
    }
    is_open
}

/// The name at the beginning of a macro.
pub fn macro_name(text: &str) -> &str {
    match text.find(|c: char| !(c.is_ascii_alphanumeric() || c == '_')) {
        Some(end) => text.get(..end).unwrap_or_default(),
        None => text,
    }
}

fn build<'a>(inner: &ArgMatches<'a>) -> Result<Command<'a>, &'static str> {
    if inner.get_flag("list-files") {
        return Ok(Command::ListFiles);
    }
    if is_text(inner) && writes_more(inner) {
        return Err(ONE_TEXT);
    }
    if inner.get_flag("S") {
        return Ok(list(inner));
    }
    if inner.get_flag("E") {
        return Ok(Command::Pp {
            out: text_out(inner),
            has_lines: true,
        });
    }
    match inner.get_str("OUT") {
        Some(out) => Ok(Command::Build {
            out,
            rule: rule(inner),
            listing: inner.get_str("listing"),
            is_plain: inner.get_flag("plain"),
        }),
        None => Err(NO_OUT),
    }
}

/// Whether a text is written in place of the executable file.
fn is_text(inner: &ArgMatches<'_>) -> bool {
    inner.get_flag("S") || inner.get_flag("E")
}

/// Whether the words request a listing or a rule beside the file.
fn writes_more(inner: &ArgMatches<'_>) -> bool {
    rule(inner).is_some() || inner.contains_id("listing")
}

/// The rule that the words request.
fn rule<'a>(inner: &ArgMatches<'a>) -> Option<Rule<'a>> {
    if inner.get_flag("depend") || inner.get_str("depend-file").is_some() {
        Some(Rule {
            file: inner.get_str("depend-file"),
            has_phony: inner.get_flag("depend-phony"),
        })
    } else {
        None
    }
}

/// Where a text goes.
fn text_out<'a>(inner: &ArgMatches<'a>) -> &'a str {
    inner.get_str("OUT").unwrap_or("-")
}

fn pp<'a>(inner: &ArgMatches<'a>) -> Command<'a> {
    if inner.get_flag("list-files") {
        return Command::ListFiles;
    }
    Command::Pp {
        out: text_out(inner),
        has_lines: inner.get_flag("lines"),
    }
}

fn list<'a>(inner: &ArgMatches<'a>) -> Command<'a> {
    Command::List {
        out: text_out(inner),
        has_labels: inner.get_flag("labels"),
        has_abi_names: inner.get_flag("abi"),
        has_lines: inner.get_flag("source"),
    }
}

fn run<'a>(inner: &ArgMatches<'a>) -> Result<Command<'a>, &'static str> {
    let is_built = inner.contains_id("stack")
        || inner.contains_id("folder")
        || inner.contains_id("define")
        || inner.contains_id("undefine");
    if is_built && !inner.contains_id("map") {
        return Err(NEEDS_MAP);
    }
    Ok(Command::Run {
        max: max(inner),
        at: inner.get_one::<u64>("at"),
        trace: trace(inner),
    })
}

fn interp<'a>(inner: &ArgMatches<'a>) -> Result<Command<'a>, &'static str> {
    let trace = trace(inner);
    let is_json = inner.get_flag("json");
    if is_json && trace == Trace::None {
        return Err(NEEDS_TRACE);
    }
    Ok(Command::Interp {
        max: max(inner),
        trace,
        is_json,
    })
}

fn verify<'a>(inner: &ArgMatches<'a>) -> VerifyWords<'a> {
    VerifyWords {
        effort: inner.get_one::<u64>("effort").unwrap_or(USUAL_EFFORT),
        telling: telling(inner),
        out: inner.get_str("OUT"),
    }
}

fn max(inner: &ArgMatches<'_>) -> u64 {
    inner.get_one::<u64>("max").unwrap_or(USUAL_MAX)
}

fn trace<'a>(inner: &ArgMatches<'a>) -> Trace<'a> {
    match inner.get_str("trace-file") {
        Some(path) => Trace::File(path),
        None if inner.get_flag("trace") => Trace::Shown,
        None => Trace::None,
    }
}

fn explain<'a>(inner: &ArgMatches<'a>) -> Command<'a> {
    Command::Explain {
        stage: match inner.get_str("WHAT") {
            Some("interp") => Stage::Interp,
            Some("pp") => Stage::Pp,
            _ => Stage::Build,
        },
        max: max(inner),
        errors: inner.get_one::<u64>("errors").unwrap_or(USUAL_ERRORS),
        telling: telling(inner),
        colours: match inner.get_str("color") {
            Some("always") => Colours::Always,
            Some("never") => Colours::Never,
            _ => Colours::Auto,
        },
    }
}

fn show<'a>(inner: &ArgMatches<'a>) -> Command<'a> {
    Command::Show {
        form: match inner.get_str("FORM") {
            Some("tree") => ShownForm::Tree,
            Some("typed") => ShownForm::Typed,
            Some("tac") => ShownForm::Tac,
            Some("flat") => ShownForm::Flat,
            Some("passes") => ShownForm::Passes,
            Some("items") => ShownForm::Items,
            _ => ShownForm::Tokens,
        },
        is_json: inner.get_flag("json"),
        out: text_out(inner),
    }
}

fn check<'a>(inner: &ArgMatches<'a>) -> Command<'a> {
    Command::Check {
        words: inner.get_str("warn").unwrap_or("all"),
        are_errors: inner.get_flag("werror"),
        telling: telling(inner),
    }
}

fn telling(inner: &ArgMatches<'_>) -> Telling {
    if inner.get_flag("sarif") {
        Telling::Sarif
    } else if inner.get_flag("json") {
        Telling::Json
    } else {
        Telling::Text
    }
}

fn symbols<'a>(inner: &ArgMatches<'a>) -> Result<Command<'a>, &'static str> {
    match inner.get_str("OUT") {
        Some(out) => Ok(Command::Symbols(out)),
        None => Err(NO_OUT),
    }
}

fn image<'a>(inner: &ArgMatches<'a>) -> Result<Command<'a>, &'static str> {
    if inner.get_flag("bin") {
        Ok(Command::Image(ImageForm::Binary))
    } else if inner.get_flag("ihex") {
        Ok(Command::Image(ImageForm::Intel))
    } else if inner.get_flag("memh") {
        Ok(Command::Image(ImageForm::Verilog))
    } else {
        Err(NO_FORM)
    }
}
