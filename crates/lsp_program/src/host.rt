//! The requests of the server to the program that runs it.

use srcset::FileSet;
use std::alloc::{AllocError, Global};

/// The files of a program.
#[derive(Clone, Copy)]
pub struct Unit<'a> {
    pub set: &'a FileSet,
    /// The names of the files of the set.
    pub names: &'a [&'a str],
    /// The name of the file that is translated.
    pub main: &'a str,
    /// The name of the main file that a person wrote; that which is translated, unless there are macros of the options.
    pub given: &'a str,
    /// The bytes of the stack.
    pub stack: u32,
}

/// A question about a program.
#[derive(Clone, Copy, Debug, PartialEq, Eq)]
pub enum Question {
    /// The faults for which it is rejected: at most this many.
    Faults(usize),
    /// Its warnings. Requested only for programs that are not rejected.
    Warnings,
    /// The places where undefined behaviour is not ruled out. Requested only for programs that are not rejected.
    Unverified,
}

/// A part of a file of the set: its name, and the bytes from `start` up to `end`.
#[derive(Clone, Copy)]
pub struct Part<'a> {
    pub file: &'a str,
    pub start: usize,
    pub end: usize,
}

/// A declaration of an object or a parameter.
#[derive(Clone, Copy)]
pub struct Declared<'a> {
    pub name: &'a str,
    /// The name where it is declared.
    pub at: Part<'a>,
    /// Where its declarator ends, with the initialiser and the `;` after it.
    pub end: usize,
    /// Whether it is declared for the whole unit.
    pub is_global: bool,
    /// Of a parameter: the name of its function, and its number there, from 0.
    pub parameter: Option<(&'a str, usize)>,
}

/// An enumerator of a block.
#[derive(Clone, Copy)]
pub struct Enumerated<'a> {
    pub name: &'a str,
    /// The whole enumerator.
    pub whole: Part<'a>,
    /// Where its block ends: before the brace.
    pub scope_end: usize,
}

/// The facts about an object.
#[derive(Drop)]
pub struct ObjectFact {
    /// Its type, as C spells it.
    pub type_text: String,
    /// Its value, where it is `const` and the initialiser a constant.
    pub value: Option<i64>,
}

/// The facts about a function.
#[derive(Drop)]
pub struct FunctionFact {
    /// Its type, as C spells it.
    pub type_text: String,
    /// The bytes of its frame.
    pub frame: u32,
    /// Its weight.
    pub weight: u32,
}

/// A program that runs a server. Its facts about names are none where they are not sure, and where the compiler rejects the program. Each method fails
/// where memory runs out.
pub trait Host {
    /// The bytes of the file at a path; `None` where there is none that can be read.
    fn read(&self, alloc: Global, path: &str) -> Result<Option<Vec<u8>>, AllocError>;

    /// The names of the entries of a folder, those of folders with `/` after them; none where it cannot be read.
    fn entries(&self, alloc: Global, folder: &str) -> Result<Vec<String>, AllocError>;

    /// The findings in a program: an object of JSON on each line, with the members that `zkc explain --json` has.
    fn findings(
        &self,
        alloc: Global,
        question: Question,
        unit: Unit<'_>,
    ) -> Result<String, AllocError>;

    /// The facts about an object or a parameter.
    fn object(
        &self,
        alloc: Global,
        unit: Unit<'_>,
        declared: Declared<'_>,
    ) -> Result<Option<ObjectFact>, AllocError>;

    /// The facts about the function of this name.
    fn function(
        &self,
        alloc: Global,
        unit: Unit<'_>,
        name: &str,
    ) -> Result<Option<FunctionFact>, AllocError>;

    /// The tokens that the preprocessor makes of a part of a file, with one space between; empty where there are none.
    fn expansion(
        &self,
        alloc: Global,
        unit: Unit<'_>,
        part: Part<'_>,
    ) -> Result<Option<String>, AllocError>;

    /// The value of an integer constant expression, in which no name is a macro, after the whole program.
    fn value(
        &self,
        alloc: Global,
        unit: Unit<'_>,
        expression: &str,
    ) -> Result<Option<i64>, AllocError>;

    /// The value of an enumerator of a block.
    fn enumerator(
        &self,
        alloc: Global,
        unit: Unit<'_>,
        declared: Enumerated<'_>,
    ) -> Result<Option<i64>, AllocError>;

    /// The value of a macro without parameters there.
    fn macro_value(
        &self,
        alloc: Global,
        unit: Unit<'_>,
        name: &str,
    ) -> Result<Option<i64>, AllocError>;
}
