//! The arguments of commands.

use crate::table::{Kind, Row};

/// The main file.
pub const MAIN: Row = Row {
    id: "MAIN",
    short: None,
    long: None,
    value: None,
    kind: Kind::Place,
    default: None,
    help: "The main file; - is standard input",
    apart: &[],
};

/// The further files.
pub const FILES: Row = Row {
    id: "FILES",
    short: None,
    long: None,
    value: None,
    kind: Kind::Places,
    default: None,
    help: "Further files",
    apart: &[],
};

/// The executable file that is read.
pub const EXECUTABLE: Row = Row {
    id: "FILE",
    short: None,
    long: None,
    value: None,
    kind: Kind::Place,
    default: None,
    help: "The executable file",
    apart: &[],
};

/// Whose faults are explained.
pub const WHAT: Row = Row {
    id: "WHAT",
    short: None,
    long: None,
    value: None,
    kind: Kind::Choice(&["build", "interp", "pp"]),
    default: None,
    help: "Which command's faults",
    apart: &[],
};

/// Which form of a program is shown.
pub const FORM: Row = Row {
    id: "FORM",
    short: None,
    long: None,
    value: None,
    kind: Kind::Choice(&["tokens", "tree", "typed", "tac", "flat", "passes", "items"]),
    default: None,
    help: "Which form: the tokens after preprocessing, the syntax tree, the typed program, three-address code, flat code, flat code after each of its passes, or the items that the file is assembled from",
    apart: &[],
};

/// Whether a form is shown as JSON.
pub const FORM_JSON: Row = Row {
    id: "json",
    short: None,
    long: Some("json"),
    value: None,
    kind: Kind::Flag,
    default: None,
    help: "JSON, a node an object, in place of text",
    apart: &[],
};

/// The executable file of a program that is verified.
pub const VERIFIED_OUT: Row = Row {
    id: "OUT",
    short: Some('o'),
    long: None,
    value: None,
    kind: Kind::Text,
    default: None,
    help: "Builds the program that was verified, where it is defined and its stack suffices",
    apart: &[],
};

/// How many bytes the stack has.
pub const STACK: Row = Row {
    id: "stack",
    short: None,
    long: Some("stack"),
    value: Some("N"),
    kind: Kind::Text,
    default: Some("1048576"),
    help: "The bytes of the stack, a multiple of 4096, as 65536, 64K or 1M",
    apart: &[],
};

/// How many bytes the stack of a built file has.
pub const BUILT_STACK: Row = Row {
    id: "stack",
    short: None,
    long: Some("stack"),
    value: Some("N"),
    kind: Kind::Text,
    default: None,
    help: "The bytes of the stack that FILE was built with, for --map",
    apart: &[],
};

/// The executable file that is written.
pub const OUT: Row = Row {
    id: "OUT",
    short: Some('o'),
    long: None,
    value: None,
    kind: Kind::Text,
    default: None,
    help: "The executable file to write; - is standard output",
    apart: &[],
};

/// The file of symbols that is written.
pub const SYMBOLS_OUT: Row = Row {
    id: "OUT",
    short: Some('o'),
    long: None,
    value: None,
    kind: Kind::Text,
    default: None,
    help: "The file to write",
    apart: &[],
};

/// The file that a text is written to.
pub const TEXT_OUT: Row = Row {
    id: "OUT",
    short: Some('o'),
    long: None,
    value: None,
    kind: Kind::Text,
    default: None,
    help: "The file to write, in place of standard output",
    apart: &[],
};

/// The folders in which included files are looked for.
pub const FOLDERS: Row = Row {
    id: "folder",
    short: Some('I'),
    long: None,
    value: Some("DIR"),
    kind: Kind::Texts,
    default: None,
    help: "Reads what is included too: beside the including file, or in this folder",
    apart: &[],
};

/// The folders that go before those of -I.
pub const QUOTE_FOLDERS: Row = Row {
    id: "folder-quote",
    short: None,
    long: Some("folder-quote"),
    value: Some("DIR"),
    kind: Kind::Hidden,
    default: None,
    help: "A folder of -iquote",
    apart: &[],
};

/// The folders that follow those of -I.
pub const SYSTEM_FOLDERS: Row = Row {
    id: "folder-system",
    short: None,
    long: Some("folder-system"),
    value: Some("DIR"),
    kind: Kind::Hidden,
    default: None,
    help: "A folder of -isystem",
    apart: &[],
};

/// The folders that follow all others.
pub const LATE_FOLDERS: Row = Row {
    id: "folder-late",
    short: None,
    long: Some("folder-late"),
    value: Some("DIR"),
    kind: Kind::Hidden,
    default: None,
    help: "A folder of -idirafter",
    apart: &[],
};

/// The macros that are defined.
pub const DEFINES: Row = Row {
    id: "define",
    short: Some('D'),
    long: None,
    value: Some("NAME[=VALUE]"),
    kind: Kind::Texts,
    default: None,
    help: "Defines a macro, as 1 where there is no value",
    apart: &[],
};

/// The macros that are not defined.
pub const UNDEFINES: Row = Row {
    id: "undefine",
    short: Some('U'),
    long: None,
    value: Some("NAME"),
    kind: Kind::Texts,
    default: None,
    help: "Removes the definition of a macro",
    apart: &[],
};

/// Whether the files of the set are listed.
pub const LIST_FILES: Row = Row {
    id: "list-files",
    short: None,
    long: Some("list-files"),
    value: None,
    kind: Kind::Flag,
    default: None,
    help: "Prints the files of the program with their paths, in place of the command",
    apart: &[],
};

/// Whether a listing is written.
pub const ASSEMBLY: Row = Row {
    id: "S",
    short: Some('S'),
    long: None,
    value: None,
    kind: Kind::Flag,
    default: None,
    help: "Writes a listing of the code, in place of the executable file",
    apart: &["E"],
};

/// Whether the tokens are written.
pub const PREPROCESSED: Row = Row {
    id: "E",
    short: Some('E'),
    long: None,
    value: None,
    kind: Kind::Flag,
    default: None,
    help: "Writes the tokens after preprocessing with their lines, in place of the executable file",
    apart: &[],
};

/// Whether the rule of a Makefile is written.
pub const DEPEND: Row = Row {
    id: "depend",
    short: None,
    long: Some("depend"),
    value: None,
    kind: Kind::Flag,
    default: None,
    help: "Writes a rule for make too, of all files that are read; also -MD",
    apart: &[],
};

/// The file of the rule.
pub const DEPEND_FILE: Row = Row {
    id: "depend-file",
    short: None,
    long: Some("depend-file"),
    value: Some("FILE"),
    kind: Kind::Text,
    default: None,
    help: "The file of that rule, by default OUT with .d in place of its ending; also -MF",
    apart: &[],
};

/// The file of the listing of the code that is built.
pub const LISTING: Row = Row {
    id: "listing",
    short: None,
    long: Some("listing"),
    value: Some("FILE"),
    kind: Kind::Text,
    default: None,
    help: "Writes a listing of the code of this very file too",
    apart: &[],
};

/// The target of the rule.
pub const DEPEND_TARGET: Row = Row {
    id: "depend-target",
    short: None,
    long: Some("depend-target"),
    value: Some("NAME"),
    kind: Kind::Texts,
    default: None,
    help: "The target of that rule, by default OUT; also -MT",
    apart: &[],
};

/// The targets of the rule that are quoted for make.
pub const DEPEND_QUOTED: Row = Row {
    id: "depend-quoted",
    short: None,
    long: Some("depend-quoted"),
    value: Some("NAME"),
    kind: Kind::Hidden,
    default: None,
    help: "A target of -MQ",
    apart: &[],
};

/// Whether included files are targets too.
pub const DEPEND_PHONY: Row = Row {
    id: "depend-phony",
    short: None,
    long: Some("depend-phony"),
    value: None,
    kind: Kind::Flag,
    default: None,
    help: "Makes each included file a target too, so that one that is removed stops no build; also -MP",
    apart: &[],
};

/// Whether the lines of tokens are kept.
pub const LINES: Row = Row {
    id: "lines",
    short: None,
    long: Some("lines"),
    value: None,
    kind: Kind::Flag,
    default: None,
    help: "Keeps the lines, with markers as # 12 \"a.c\"",
    apart: &[],
};

/// Whether the listing has labels.
pub const LABELS: Row = Row {
    id: "labels",
    short: None,
    long: Some("labels"),
    value: None,
    kind: Kind::Flag,
    default: None,
    help: "Names functions and objects, and the places that branches lead to",
    apart: &[],
};

/// Whether registers have their names of calls.
pub const ABI: Row = Row {
    id: "abi",
    short: None,
    long: Some("abi"),
    value: None,
    kind: Kind::Flag,
    default: None,
    help: "Names registers as calls do: sp, a0, t0",
    apart: &[],
};

/// Whether the listing has the lines of the sources.
pub const SOURCE: Row = Row {
    id: "source",
    short: None,
    long: Some("source"),
    value: None,
    kind: Kind::Flag,
    default: None,
    help: "Puts the lines of the sources between the instructions",
    apart: &[],
};

/// How many instructions a run may take.
pub const MAX_RUN: Row = Row {
    id: "max",
    short: None,
    long: Some("max"),
    value: Some("N"),
    kind: Kind::Number(1, 9223372036854775807),
    default: Some("1000000000"),
    help: "At most this many instructions",
    apart: &[],
};

/// How many steps an analysis may take.
pub const EFFORT: Row = Row {
    id: "effort",
    short: None,
    long: Some("effort"),
    value: Some("N"),
    kind: Kind::Number(1, 9223372036854775807),
    default: Some("15000000"),
    help: "At most this many steps of the analysis",
    apart: &[],
};

/// How many ticks an interpreter may take.
pub const MAX_TICKS: Row = Row {
    id: "max",
    short: None,
    long: Some("max"),
    value: Some("N"),
    kind: Kind::Number(1, 9223372036854775807),
    default: Some("1000000000"),
    help: "At most this many ticks",
    apart: &[],
};

/// How many ticks an interpreter that is explained may take.
pub const MAX_EXPLAINED: Row = Row {
    id: "max",
    short: None,
    long: Some("max"),
    value: Some("N"),
    kind: Kind::Number(1, 9223372036854775807),
    default: Some("1000000000"),
    help: "At most this many ticks of `interp`",
    apart: &[],
};

/// How many faults are explained.
pub const ERRORS: Row = Row {
    id: "errors",
    short: None,
    long: Some("errors"),
    value: Some("N"),
    kind: Kind::Number(1, 1000),
    default: Some("20"),
    help: "At most this many faults",
    apart: &[],
};

/// Whether a fault is its one line alone, also on a terminal.
pub const PLAIN: Row = Row {
    id: "plain",
    short: None,
    long: Some("plain"),
    value: None,
    kind: Kind::Flag,
    default: None,
    help: "Tells a fault in its one line, also on a terminal",
    apart: &[],
};

/// Whether each instruction is traced.
pub const TRACE_RUN: Row = Row {
    id: "trace",
    short: None,
    long: Some("trace"),
    value: None,
    kind: Kind::Flag,
    default: None,
    help: "Tells each instruction on standard error",
    apart: &["trace-file"],
};

/// Whether each statement is traced.
pub const TRACE_INTERP: Row = Row {
    id: "trace",
    short: None,
    long: Some("trace"),
    value: None,
    kind: Kind::Flag,
    default: None,
    help: "Tells each statement and what it changes on standard error",
    apart: &["trace-file"],
};

/// The file that a trace is written to.
pub const TRACE_FILE: Row = Row {
    id: "trace-file",
    short: None,
    long: Some("trace-file"),
    value: Some("OUT"),
    kind: Kind::Text,
    default: None,
    help: "Writes the trace to a file",
    apart: &[],
};

/// Whether a trace is JSON.
pub const TRACE_JSON: Row = Row {
    id: "json",
    short: None,
    long: Some("json"),
    value: None,
    kind: Kind::Flag,
    default: None,
    help: "Tells the trace as JSON, an object a line",
    apart: &[],
};

/// After how many instructions the machine is shown.
pub const AT: Row = Row {
    id: "at",
    short: None,
    long: Some("at"),
    value: Some("N"),
    kind: Kind::Number(0, 9223372036854775807),
    default: None,
    help: "Shows the machine after so many instructions, on standard error",
    apart: &["trace", "trace-file"],
};

/// The sources of an executable file.
pub const MAP: Row = Row {
    id: "map",
    short: None,
    long: Some("map"),
    value: Some("SOURCE"),
    kind: Kind::List,
    default: None,
    help: "The sources that FILE was built from, the main one first, for the names of functions",
    apart: &[],
};

/// Whether faults are reported as JSON.
pub const JSON: Row = Row {
    id: "json",
    short: None,
    long: Some("json"),
    value: None,
    kind: Kind::Flag,
    default: None,
    help: "One JSON object a fault, on standard output",
    apart: &["sarif"],
};

/// Whether faults are reported as SARIF.
pub const SARIF: Row = Row {
    id: "sarif",
    short: None,
    long: Some("sarif"),
    value: None,
    kind: Kind::Flag,
    default: None,
    help: "A SARIF 2.1.0 log, on standard output",
    apart: &[],
};

/// Which warnings are reported.
pub const WARN: Row = Row {
    id: "warn",
    short: None,
    long: Some("warn"),
    value: Some("NAMES"),
    kind: Kind::Text,
    default: Some("all"),
    help: "Which warnings: all, none, or names with commas between",
    apart: &[],
};

/// The warnings that are left out.
pub const NO_WARN: Row = Row {
    id: "no-warn",
    short: None,
    long: Some("no-warn"),
    value: Some("NAME"),
    kind: Kind::Hidden,
    default: None,
    help: "A warning of -Wno-NAME",
    apart: &[],
};

/// Whether warnings are errors.
pub const WARN_ERRORS: Row = Row {
    id: "werror",
    short: None,
    long: Some("werror"),
    value: None,
    kind: Kind::Flag,
    default: None,
    help: "Ends with 1 where there is a warning",
    apart: &[],
};

/// When a text has colours.
pub const COLOR: Row = Row {
    id: "color",
    short: None,
    long: Some("color"),
    value: Some("WHEN"),
    kind: Kind::One(&["auto", "always", "never"]),
    default: Some("auto"),
    help: "When the text has colours",
    apart: &[],
};

/// Whether addresses and sizes are shown.
pub const SIZES: Row = Row {
    id: "sizes",
    short: None,
    long: Some("sizes"),
    value: None,
    kind: Kind::Flag,
    default: None,
    help: "Shows where each function lies, and the bytes of code, data and stack in all",
    apart: &[],
};

/// The bytes alone.
pub const BINARY: Row = Row {
    id: "bin",
    short: None,
    long: Some("bin"),
    value: None,
    kind: Kind::Flag,
    default: None,
    help: "The bytes alone",
    apart: &["ihex", "memh"],
};

/// Intel's form.
pub const INTEL: Row = Row {
    id: "ihex",
    short: None,
    long: Some("ihex"),
    value: None,
    kind: Kind::Flag,
    default: None,
    help: "Intel's hexadecimal form",
    apart: &["memh"],
};

/// The form of `$readmemh`.
pub const VERILOG: Row = Row {
    id: "memh",
    short: None,
    long: Some("memh"),
    value: None,
    kind: Kind::Flag,
    default: None,
    help: "The form that $readmemh reads, a byte a number",
    apart: &[],
};

/// That the standard streams are spoken over, which clients say and which is always so.
pub const STDIO: Row = Row {
    id: "stdio",
    short: None,
    long: Some("stdio"),
    value: None,
    kind: Kind::Flag,
    default: None,
    help: "Speaks over the standard streams, as always",
    apart: &[],
};
