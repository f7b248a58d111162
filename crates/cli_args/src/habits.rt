//! Words that other compilers take, and their replacements here.

use std::alloc::{AllocError, Global};

/// The action on a word.
#[derive(Clone, Copy)]
enum Act {
    /// It changes nothing here, and is left out.
    Leave,
    /// It stays, and so does the word after it, whatever that is.
    KeepValue,
    /// It is replaced by this word where the command is `build`, and else can't be done.
    WriteInBuild(&'static str),
    /// The same, with a value as `WriteValue` has it.
    ValueInBuild(&'static str, &'static str),
    /// It is replaced by the first word, whose value is the rest of the word after its matched beginning, or else the next word. The second says that there is no
    /// next word.
    WriteValue(&'static str, &'static str),
    /// It is replaced by this word where the command is `check`, and else is left out.
    WriteInCheck(&'static str),
    /// It leaves the warning out that the rest of the word names, where the command is `check` and has it, and else is left out.
    LeaveWarning,
    /// It leaves all warnings out where the command is `check`, and else is left out.
    LeaveWarnings,
    /// It can't be done where the command is `check`, and has the warning that the rest of the word names; and else is left out.
    OneError,
    /// It names the language of the sources by the next word; both are left out.
    Language,
    /// It can't be done, for this reason.
    Refuse(&'static str),
}

/// A word, or the beginning of one, and the action on it.
struct Habit {
    text: &'static str,
    is_whole: bool,
    act: Act,
}

const NO_OBJECTS: &str =
    "there are no object files: a program is one unit; write zkc build MAIN -I DIR -o OUT, and in MAIN #include of the others";

const NO_LINKER: &str = "nothing is linked: leave the word out";

const OTHER_MACHINE: &str =
    "the code is for RV32IM with the calling convention ILP32: leave the word out";

const OTHER_LANGUAGE: &str = "the language is a part of C11: leave the word out, or write -std=c11";

const NO_SANITIZER: &str =
    "there are no sanitizers: zkc interp MAIN tells each undefined act at its line";

const NO_TRAP: &str =
    "an overflow does not stop a program: zkc interp MAIN tells each undefined act at its line";

const ONLY_WITH_M: &str =
    "the code has the instructions of RV32M, so it is for a core that has them: write -march=rv32im";

const LITTLE_ENDIAN: &str = "the code is for a little-endian machine: leave the word out";

const UNSIGNED_CHAR: &str =
    "a char has no sign: write signed char where one is needed, and leave the word out";

const OTHER_ENUMS: &str = "an enumeration is an int: leave the word out";

const OTHER_CHARSET: &str =
    "a source is read as ASCII or UTF-8: convert it, and leave the word out";

const NO_WRAP: &str =
    "signed arithmetic does not wrap: compute with unsigned ints, and leave the word out";

const NO_MARKERS: &str =
    "zkc pp MAIN prints the tokens without markers: write it in place of -E -P";

const NO_PASSING: &str = "write the options that follow -Wp, as words of their own";

const ONE_ERROR: &str = "write --warn=NAME --werror for a warning that is an error";

const NO_RULE_HERE: &str = "only zkc build writes a rule for make: leave -MD and its like out";

const NO_RULE_FILE: &str = "the file of the rule is missing: -MF FILE";

const NO_TARGET: &str = "the target of the rule is missing: -MT NAME or -MQ NAME";

const NO_QUOTE_FOLDER: &str = "the folder is missing: -iquote DIR";

const NO_SYSTEM_FOLDER: &str = "the folder is missing: -isystem DIR";

const NO_LATE_FOLDER: &str = "the folder is missing: -idirafter DIR";

const NO_RULE_ALONE: &str = "write zkc build MAIN -I DIR -o OUT -MD -MF FILE";

const NO_FORCED: &str = "write the #include in MAIN";

/// The words, the first that fits before the others.
const HABITS: &[Habit] = &[
    Habit {
        text: "-o",
        is_whole: true,
        act: Act::KeepValue,
    },
    Habit {
        text: "-I",
        is_whole: true,
        act: Act::KeepValue,
    },
    Habit {
        text: "-D",
        is_whole: true,
        act: Act::KeepValue,
    },
    Habit {
        text: "-U",
        is_whole: true,
        act: Act::KeepValue,
    },
    Habit {
        text: "--stack",
        is_whole: true,
        act: Act::KeepValue,
    },
    Habit {
        text: "--max",
        is_whole: true,
        act: Act::KeepValue,
    },
    Habit {
        text: "--effort",
        is_whole: true,
        act: Act::KeepValue,
    },
    Habit {
        text: "--trace-file",
        is_whole: true,
        act: Act::KeepValue,
    },
    Habit {
        text: "--depend-file",
        is_whole: true,
        act: Act::KeepValue,
    },
    Habit {
        text: "--depend-target",
        is_whole: true,
        act: Act::KeepValue,
    },
    Habit {
        text: "-MD",
        is_whole: true,
        act: Act::WriteInBuild("--depend"),
    },
    Habit {
        text: "-MMD",
        is_whole: true,
        act: Act::WriteInBuild("--depend"),
    },
    Habit {
        text: "-MP",
        is_whole: true,
        act: Act::WriteInBuild("--depend-phony"),
    },
    Habit {
        text: "-MF",
        is_whole: false,
        act: Act::ValueInBuild("--depend-file", NO_RULE_FILE),
    },
    Habit {
        text: "-MT",
        is_whole: false,
        act: Act::ValueInBuild("--depend-target", NO_TARGET),
    },
    Habit {
        text: "-MQ",
        is_whole: false,
        act: Act::ValueInBuild("--depend-quoted", NO_TARGET),
    },
    Habit {
        text: "-M",
        is_whole: false,
        act: Act::Refuse(NO_RULE_ALONE),
    },
    Habit {
        text: "-isystem",
        is_whole: false,
        act: Act::WriteValue("--folder-system", NO_SYSTEM_FOLDER),
    },
    Habit {
        text: "-iquote",
        is_whole: false,
        act: Act::WriteValue("--folder-quote", NO_QUOTE_FOLDER),
    },
    Habit {
        text: "-idirafter",
        is_whole: false,
        act: Act::WriteValue("--folder-late", NO_LATE_FOLDER),
    },
    Habit {
        text: "-include",
        is_whole: true,
        act: Act::Refuse(NO_FORCED),
    },
    Habit {
        text: "-imacros",
        is_whole: true,
        act: Act::Refuse(NO_FORCED),
    },
    Habit {
        text: "-std=c11",
        is_whole: true,
        act: Act::Leave,
    },
    Habit {
        text: "-std=gnu11",
        is_whole: true,
        act: Act::Leave,
    },
    Habit {
        text: "-std=c17",
        is_whole: true,
        act: Act::Leave,
    },
    Habit {
        text: "-std=gnu17",
        is_whole: true,
        act: Act::Leave,
    },
    Habit {
        text: "-std=c18",
        is_whole: true,
        act: Act::Leave,
    },
    Habit {
        text: "-std=iso9899:2011",
        is_whole: true,
        act: Act::Leave,
    },
    Habit {
        text: "-std=c99",
        is_whole: true,
        act: Act::Leave,
    },
    Habit {
        text: "-std=gnu99",
        is_whole: true,
        act: Act::Leave,
    },
    Habit {
        text: "-std=",
        is_whole: false,
        act: Act::Refuse(OTHER_LANGUAGE),
    },
    Habit {
        text: "-ansi",
        is_whole: true,
        act: Act::Refuse(OTHER_LANGUAGE),
    },
    Habit {
        text: "-xc",
        is_whole: true,
        act: Act::Leave,
    },
    Habit {
        text: "-x",
        is_whole: true,
        act: Act::Language,
    },
    Habit {
        text: "-x",
        is_whole: false,
        act: Act::Refuse(OTHER_LANGUAGE),
    },
    Habit {
        text: "-fsanitize",
        is_whole: false,
        act: Act::Refuse(NO_SANITIZER),
    },
    Habit {
        text: "-ftrapv",
        is_whole: true,
        act: Act::Refuse(NO_TRAP),
    },
    Habit {
        text: "-fwrapv",
        is_whole: true,
        act: Act::Refuse(NO_WRAP),
    },
    Habit {
        text: "-fno-strict-overflow",
        is_whole: true,
        act: Act::Refuse(NO_WRAP),
    },
    Habit {
        text: "-fsigned-char",
        is_whole: true,
        act: Act::Refuse(UNSIGNED_CHAR),
    },
    Habit {
        text: "-fno-unsigned-char",
        is_whole: true,
        act: Act::Refuse(UNSIGNED_CHAR),
    },
    Habit {
        text: "-fshort-enums",
        is_whole: true,
        act: Act::Refuse(OTHER_ENUMS),
    },
    Habit {
        text: "-finput-charset=UTF-8",
        is_whole: true,
        act: Act::Leave,
    },
    Habit {
        text: "-finput-charset=utf-8",
        is_whole: true,
        act: Act::Leave,
    },
    Habit {
        text: "-finput-charset=UTF8",
        is_whole: true,
        act: Act::Leave,
    },
    Habit {
        text: "-finput-charset=utf8",
        is_whole: true,
        act: Act::Leave,
    },
    Habit {
        text: "-finput-charset=ASCII",
        is_whole: true,
        act: Act::Leave,
    },
    Habit {
        text: "-finput-charset=ascii",
        is_whole: true,
        act: Act::Leave,
    },
    Habit {
        text: "-finput-charset=US-ASCII",
        is_whole: true,
        act: Act::Leave,
    },
    Habit {
        text: "-finput-charset=us-ascii",
        is_whole: true,
        act: Act::Leave,
    },
    Habit {
        text: "-finput-charset",
        is_whole: false,
        act: Act::Refuse(OTHER_CHARSET),
    },
    Habit {
        text: "-march=rv32im",
        is_whole: false,
        act: Act::Leave,
    },
    Habit {
        text: "-march=rv32g",
        is_whole: false,
        act: Act::Leave,
    },
    Habit {
        text: "-march=rv32i",
        is_whole: false,
        act: Act::Refuse(ONLY_WITH_M),
    },
    Habit {
        text: "-march=",
        is_whole: false,
        act: Act::Refuse(OTHER_MACHINE),
    },
    Habit {
        text: "-mabi=ilp32",
        is_whole: true,
        act: Act::Leave,
    },
    Habit {
        text: "-mabi=",
        is_whole: false,
        act: Act::Refuse(OTHER_MACHINE),
    },
    Habit {
        text: "-m64",
        is_whole: true,
        act: Act::Refuse(OTHER_MACHINE),
    },
    Habit {
        text: "-mno-div",
        is_whole: true,
        act: Act::Refuse(ONLY_WITH_M),
    },
    Habit {
        text: "-mbig-endian",
        is_whole: true,
        act: Act::Refuse(LITTLE_ENDIAN),
    },
    Habit {
        text: "-Wl,",
        is_whole: false,
        act: Act::Refuse(NO_LINKER),
    },
    Habit {
        text: "-Wa,",
        is_whole: false,
        act: Act::Refuse(NO_LINKER),
    },
    Habit {
        text: "-Wp,",
        is_whole: false,
        act: Act::Refuse(NO_PASSING),
    },
    Habit {
        text: "-Xlinker",
        is_whole: true,
        act: Act::Refuse(NO_LINKER),
    },
    Habit {
        text: "-rdynamic",
        is_whole: true,
        act: Act::Refuse(NO_LINKER),
    },
    Habit {
        text: "-l",
        is_whole: false,
        act: Act::Refuse(NO_LINKER),
    },
    Habit {
        text: "-L",
        is_whole: false,
        act: Act::Refuse(NO_LINKER),
    },
    Habit {
        text: "-T",
        is_whole: false,
        act: Act::Refuse(NO_LINKER),
    },
    Habit {
        text: "-shared",
        is_whole: true,
        act: Act::Refuse(NO_LINKER),
    },
    Habit {
        text: "-static-pie",
        is_whole: true,
        act: Act::Refuse(NO_LINKER),
    },
    Habit {
        text: "-pie",
        is_whole: true,
        act: Act::Refuse(NO_LINKER),
    },
    Habit {
        text: "-r",
        is_whole: true,
        act: Act::Refuse(NO_LINKER),
    },
    Habit {
        text: "-c",
        is_whole: true,
        act: Act::Refuse(NO_OBJECTS),
    },
    Habit {
        text: "-Werror",
        is_whole: true,
        act: Act::WriteInCheck("--werror"),
    },
    Habit {
        text: "-Werror=",
        is_whole: false,
        act: Act::OneError,
    },
    Habit {
        text: "-Wno-error=",
        is_whole: false,
        act: Act::OneError,
    },
    Habit {
        text: "-Wno-",
        is_whole: false,
        act: Act::LeaveWarning,
    },
    Habit {
        text: "-W",
        is_whole: false,
        act: Act::Leave,
    },
    Habit {
        text: "-w",
        is_whole: true,
        act: Act::LeaveWarnings,
    },
    Habit {
        text: "-O",
        is_whole: false,
        act: Act::Leave,
    },
    Habit {
        text: "-g",
        is_whole: false,
        act: Act::Leave,
    },
    Habit {
        text: "-f",
        is_whole: false,
        act: Act::Leave,
    },
    Habit {
        text: "-m",
        is_whole: false,
        act: Act::Leave,
    },
    Habit {
        text: "-pedantic",
        is_whole: false,
        act: Act::Leave,
    },
    Habit {
        text: "-pipe",
        is_whole: true,
        act: Act::Leave,
    },
    Habit {
        text: "-nostd",
        is_whole: false,
        act: Act::Leave,
    },
    Habit {
        text: "-nodefaultlibs",
        is_whole: true,
        act: Act::Leave,
    },
    Habit {
        text: "-nostartfiles",
        is_whole: true,
        act: Act::Leave,
    },
    Habit {
        text: "-static",
        is_whole: true,
        act: Act::Leave,
    },
    Habit {
        text: "-static-libgcc",
        is_whole: true,
        act: Act::Leave,
    },
    Habit {
        text: "-no-pie",
        is_whole: true,
        act: Act::Leave,
    },
    Habit {
        text: "-pthread",
        is_whole: true,
        act: Act::Leave,
    },
    Habit {
        text: "--specs=nano.specs",
        is_whole: true,
        act: Act::Leave,
    },
    Habit {
        text: "-specs=nano.specs",
        is_whole: true,
        act: Act::Leave,
    },
    Habit {
        text: "--specs=nosys.specs",
        is_whole: true,
        act: Act::Leave,
    },
    Habit {
        text: "-specs=nosys.specs",
        is_whole: true,
        act: Act::Leave,
    },
    Habit {
        text: "--specs",
        is_whole: false,
        act: Act::Refuse(NO_LINKER),
    },
    Habit {
        text: "-specs",
        is_whole: false,
        act: Act::Refuse(NO_LINKER),
    },
    Habit {
        text: "-trigraphs",
        is_whole: true,
        act: Act::Leave,
    },
    Habit {
        text: "-undef",
        is_whole: true,
        act: Act::Leave,
    },
    Habit {
        text: "-P",
        is_whole: true,
        act: Act::Refuse(NO_MARKERS),
    },
    Habit {
        text: "-s",
        is_whole: true,
        act: Act::Leave,
    },
    Habit {
        text: "-v",
        is_whole: true,
        act: Act::Leave,
    },
    Habit {
        text: "-save-temps",
        is_whole: true,
        act: Act::Leave,
    },
];

/// The commands that read sources, in which these words may appear.
const COMPILING: &[&str] = &[
    "build", "pp", "list", "interp", "explain", "show", "frames", "symbols", "check", "verify",
];

/// The warnings of `check` whose names gcc has too.
const WARNINGS: &[&str] = &[
    "unused-variable",
    "unused-but-set-variable",
    "unused-parameter",
    "unused-but-set-parameter",
    "unused-function",
    "unused-value",
    "unused-result",
    "parentheses",
    "empty-body",
    "implicit-fallthrough",
    "shadow",
    "return-type",
    "maybe-uninitialized",
    "array-bounds",
    "type-limits",
];

/// The words that may appear in place of a command.
const TOP: &[&str] = &["-h", "--help", "-V", "--version"];

/// Why the words are not taken.
#[derive(Clone, Copy, Debug, PartialEq, Eq)]
pub enum Refused {
    /// For this reason.
    Told(&'static str),
    /// Memory ran out.
    Memory,
}

/// The words of a command line after the program's name, as the command line's form has them: after the name `zkc`, without words that change nothing here, and
/// with the command `build` where there is none.
pub fn plain_words<'a>(alloc: Global, words: &'a [String]) -> Result<Vec<&'a str>, Refused> {
    let mut plain = Vec::new(alloc);
    let put = put_all(words, &mut plain);
    match put {
        Ok(()) => Ok(plain),
        Err(refused) => Err(refused),
    }
}

fn put_all<'a>(words: &'a [String], plain: &mut Vec<&'a str>) -> Result<(), Refused> {
    put("zkc", plain)?;
    let first = match words.first() {
        Some(word) => word.as_str(),
        None => return Ok(()),
    };
    if first == "help" {
        put_each(words.get(1..).unwrap_or_default(), plain)?;
        return put("--help", plain);
    }
    if first == "-v" && words.len() == 1 {
        return put("--version", plain);
    }
    if COMPILING.contains(&first) {
        return put_words(words, plain);
    }
    if is_source(first) {
        put("build", plain)?;
        return put_words(words, plain);
    }
    put_each(words, plain)
}

/// Whether a first word is no command, but belongs to a program that is to be built.
fn is_source(first: &str) -> bool {
    if first.starts_with("-") {
        !TOP.contains(&first)
    } else {
        first.ends_with(".c")
    }
}

fn put<'a>(word: &'a str, plain: &mut Vec<&'a str>) -> Result<(), Refused> {
    match plain.push(word) {
        Ok(()) => Ok(()),
        Err(_) => Err(Refused::Memory),
    }
}

/// Appends the words as they are.
fn put_each<'a>(words: &'a [String], plain: &mut Vec<&'a str>) -> Result<(), Refused> {
    for word in words {
        put(word.as_str(), plain)?;
    }
    Ok(())
}

/// The kind of a word, by those before it.
#[derive(Clone, Copy)]
enum Turn {
    /// Any word.
    Word,
    /// The value of the word before.
    Value,
    /// The value of the word before, which is a word of another compiler. This says that there is none.
    Wanted(&'static str),
    /// The name of a language.
    Language,
    /// After `--`, where all stay.
    Rest,
}

/// The command to which words belong, where the action on a word depends on that.
#[derive(Clone, Copy, PartialEq, Eq)]
enum Place {
    Build,
    Check,
    Other,
}

/// Appends the words of a command that reads sources.
fn put_words<'a>(words: &'a [String], plain: &mut Vec<&'a str>) -> Result<(), Refused> {
    let place = place_of(words);
    let mut turn = Turn::Word;
    for word in words {
        turn = match turn {
            Turn::Word => put_word(word.as_str(), place, plain)?,
            Turn::Value | Turn::Wanted(_) => {
                put(word.as_str(), plain)?;
                Turn::Word
            }
            Turn::Language => language(word.as_str())?,
            Turn::Rest => {
                put(word.as_str(), plain)?;
                Turn::Rest
            }
        };
    }
    match turn {
        Turn::Language => Err(Refused::Told(OTHER_LANGUAGE)),
        Turn::Wanted(missing) => Err(Refused::Told(missing)),
        Turn::Word | Turn::Value | Turn::Rest => Ok(()),
    }
}

/// The command of the words, which is `build` where the first of them is none.
fn place_of(words: &[String]) -> Place {
    let first = match words.first() {
        Some(word) => word.as_str(),
        None => "",
    };
    if first == "check" {
        Place::Check
    } else if first != "build" && COMPILING.contains(&first) {
        Place::Other
    } else {
        Place::Build
    }
}

/// The word after `-x`; returns the kind of the next word.
fn language(word: &str) -> Result<Turn, Refused> {
    if word == "c" {
        Ok(Turn::Word)
    } else {
        Err(Refused::Told(OTHER_LANGUAGE))
    }
}

/// Appends the replacement of a word; returns the kind of the next word.
fn put_word<'a>(word: &'a str, place: Place, plain: &mut Vec<&'a str>) -> Result<Turn, Refused> {
    let Some((act, behind)) = act_of(word) else {
        put(word, plain)?;
        return Ok(if word == "--" { Turn::Rest } else { Turn::Word });
    };
    match act {
        Act::Leave => Ok(Turn::Word),
        Act::KeepValue => {
            put(word, plain)?;
            Ok(Turn::Value)
        }
        Act::WriteInBuild(other) => match place {
            Place::Build => put_once(other, plain),
            Place::Check | Place::Other => Err(Refused::Told(NO_RULE_HERE)),
        },
        Act::ValueInBuild(other, missing) => match place {
            Place::Build => put_value(other, behind, missing, plain),
            Place::Check | Place::Other => Err(Refused::Told(NO_RULE_HERE)),
        },
        Act::WriteValue(other, missing) => put_value(other, behind, missing, plain),
        Act::WriteInCheck(other) => match place {
            Place::Check => put_once(other, plain),
            Place::Build | Place::Other => Ok(Turn::Word),
        },
        Act::LeaveWarning => leave_warning(behind, place, plain),
        Act::LeaveWarnings => leave_warning("all", place, plain),
        Act::OneError => one_error(behind, place),
        Act::Language => Ok(Turn::Language),
        Act::Refuse(why) => Err(Refused::Told(why)),
    }
}

/// Appends a word, unless it is there.
fn put_once<'a>(word: &'a str, plain: &mut Vec<&'a str>) -> Result<Turn, Refused> {
    if !plain.contains(&word) {
        put(word, plain)?;
    }
    Ok(Turn::Word)
}

/// Appends a word with its value, where that is in the same word; returns the kind of the next word.
fn put_value<'a>(
    word: &'a str,
    value: &'a str,
    missing: &'static str,
    plain: &mut Vec<&'a str>,
) -> Result<Turn, Refused> {
    put(word, plain)?;
    if value.is_empty() {
        return Ok(Turn::Wanted(missing));
    }
    put(value, plain)?;
    Ok(Turn::Word)
}

/// Leaves a warning of `check` out, where it has one of this name, or all of them.
fn leave_warning<'a>(
    name: &'a str,
    place: Place,
    plain: &mut Vec<&'a str>,
) -> Result<Turn, Refused> {
    if place == Place::Check && (name == "all" || WARNINGS.contains(&name)) {
        put("--no-warn", plain)?;
        put(name, plain)?;
    }
    Ok(Turn::Word)
}

/// A word by which one warning is an error, or none, which `check` does not have.
fn one_error(name: &str, place: Place) -> Result<Turn, Refused> {
    if place == Place::Check && WARNINGS.contains(&name) {
        Err(Refused::Told(ONE_ERROR))
    } else {
        Ok(Turn::Word)
    }
}

/// The action on a word, and the rest of the word after the beginning that decides; `None` where it stays.
fn act_of(word: &str) -> Option<(Act, &str)> {
    for habit in HABITS {
        if let Some(behind) = word.strip_prefix(habit.text) {
            if behind.is_empty() || !habit.is_whole {
                return Some((habit.act, behind));
            }
        }
    }
    None
}
