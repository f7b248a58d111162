//! The request of a command line.

/// The part of the program that a word names.
#[derive(Clone, Copy, Debug, PartialEq, Eq)]
pub enum Role {
    /// A further file of the set.
    File,
    /// A folder in which included files are looked for.
    Folder,
    /// A macro that is defined, as NAME or NAME=VALUE.
    Define,
    /// A macro whose definition is removed.
    Undefine,
    /// A target of the rule for make, as it is written.
    Target,
    /// A target that is quoted for make.
    QuotedTarget,
    /// The name of warnings that are left out.
    Unwarned,
}

/// A word that belongs to the program, or that a command has several times.
#[derive(Clone, Copy)]
pub struct Word<'a> {
    pub role: Role,
    pub text: &'a str,
}

/// The program of the words.
#[derive(Drop)]
pub struct Program<'a> {
    /// The path of the main file; `-` is standard input. Of a command that takes an executable file, that file.
    pub main: &'a str,
    /// The further files, folders, macros, targets and warnings. Folders are in the order in which they are searched, the others in that of the words.
    pub words: Vec<Word<'a>>,
    /// The bytes of the stack: a multiple of 4096 from 4096 to 16777216.
    pub stack: u32,
}

impl<'a> Program<'a> {
    /// Whether a word has this role.
    pub fn has(&self, role: Role) -> bool {
        for word in &self.words {
            if word.role == role {
                return true;
            }
        }
        false
    }
}

/// Where a trace goes.
#[derive(Clone, Copy, Debug, PartialEq, Eq)]
pub enum Trace<'a> {
    /// There is none.
    None,
    /// To standard error.
    Shown,
    /// To the file at a path.
    File(&'a str),
}

/// The form in which a fault is reported.
#[derive(Clone, Copy, Debug, PartialEq, Eq)]
pub enum Telling {
    Text,
    Json,
    Sarif,
}

/// When a text has colours.
#[derive(Clone, Copy, Debug, PartialEq, Eq)]
pub enum Colours {
    /// On a terminal.
    Auto,
    Always,
    Never,
}

/// Whose faults are explained.
#[derive(Clone, Copy, Debug, PartialEq, Eq)]
pub enum Stage {
    Build,
    Interp,
    Pp,
}

/// A form that the compiler makes of a program between its phases.
#[derive(Clone, Copy, Debug, PartialEq, Eq)]
pub enum ShownForm {
    Tokens,
    Tree,
    Typed,
    Tac,
    Flat,
    Passes,
    Items,
}

/// The form of an image.
#[derive(Clone, Copy, Debug, PartialEq, Eq)]
pub enum ImageForm {
    /// The bytes alone.
    Binary,
    /// Intel's hexadecimal form.
    Intel,
    /// The form that `$readmemh` reads.
    Verilog,
}

/// The Makefile rule with the dependencies of a file.
#[derive(Clone, Copy)]
pub struct Rule<'a> {
    /// The path of the file that has the rule; where there is none, that of the output with `d` as extension.
    pub file: Option<&'a str>,
    /// Whether each included file is a target of its own too, without a recipe, so that one that is removed stops no build.
    pub has_phony: bool,
}

/// The command of the words, with the options that belong to it alone.
#[derive(Clone, Copy)]
pub enum Command<'a> {
    /// Compile to the file at a path, and write the rule and the listing of this file. On a terminal the source line of a fault is shown, if that is not to be `is_plain`.
    Build {
        out: &'a str,
        rule: Option<Rule<'a>>,
        listing: Option<&'a str>,
        is_plain: bool,
    },
    /// Print the names of the set's files with their paths.
    ListFiles,
    /// Print the tokens after preprocessing to the file at a path, with their lines or without.
    Pp {
        out: &'a str,
        has_lines: bool,
    },
    /// Print a listing to the file at a path, with labels, the names that registers have in calls and the lines of the sources, or
    /// without.
    List {
        out: &'a str,
        has_labels: bool,
        has_abi_names: bool,
        has_lines: bool,
    },
    /// Run an executable file for at most this number of instructions.
    Run {
        max: u64,
        at: Option<u64>,
        trace: Trace<'a>,
    },
    /// Interpret for at most this number of ticks, with a trace as JSON or as text.
    Interp {
        max: u64,
        trace: Trace<'a>,
        is_json: bool,
    },
    /// Explain at most this number of faults.
    Explain {
        stage: Stage,
        max: u64,
        errors: u64,
        telling: Telling,
        colours: Colours,
    },
    /// Print a form of a program to the file at a path, as JSON or as text.
    Show {
        form: ShownForm,
        is_json: bool,
        out: &'a str,
    },
    /// Tell of these warnings, as errors or not.
    Check {
        words: &'a str,
        are_errors: bool,
        telling: Telling,
    },
    /// Tell whether anything undefined is done, on any input; where nothing is, and the stack suffices, compile to the file at a path.
    Verify(VerifyWords<'a>),
    /// Print the stack use of each function, with addresses and sizes or without.
    Frames {
        has_sizes: bool,
    },
    /// Write the symbols to the file at a path.
    Symbols(&'a str),
    /// Print the contents that an executable file loads.
    Image(ImageForm),
    /// Print how large the parts of an executable file are.
    Size,
    /// Serve an editor over the standard streams.
    Lsp,
}

/// The action requested of `verify`.
#[derive(Clone, Copy)]
pub struct VerifyWords<'a> {
    /// How many steps the analysis takes at most.
    pub effort: u64,
    pub telling: Telling,
    /// The path of the executable file.
    pub out: Option<&'a str>,
}

/// The request of a command line.
#[derive(Drop)]
pub struct Request<'a> {
    pub program: Program<'a>,
    pub command: Command<'a>,
}
