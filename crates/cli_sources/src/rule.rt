//! The rule of a Makefile that lists the files that a file is built from.

use crate::sources::{Source, Sources};
use cli_args::{Program, Role, Rule, Word};
use std::alloc::{AllocError, Global};

/// The path of the rule's file: the one of the words, or that of the built file with `d` as extension.
pub fn rule_path(alloc: Global, rule: Rule<'_>, built: &str) -> Result<String, AllocError> {
    if let Some(path) = rule.file {
        return String::from_str(alloc, path);
    }
    let mut path = String::from_str(alloc, without_extension(built))?;
    path.push_str(".d")?;
    Ok(path)
}

/// A path without the text after the last dot of its last name.
fn without_extension(path: &str) -> &str {
    let name = match path.rfind('/') {
        Some(end) => end.saturating_add(1),
        None => 0,
    };
    match path.rfind('.') {
        Some(end) if end > name => path.get(..end).unwrap_or_default(),
        _ => path,
    }
}

/// The rule: the targets, and the paths of all files that were read; and with `has_phony` a rule without a recipe for each file but the main one. Standard
/// input is no file of a rule.
pub fn rule_text(
    alloc: Global,
    rule: Rule<'_>,
    program: &Program<'_>,
    built: &str,
    sources: &Sources<'_>,
) -> Result<String, AllocError> {
    let mut text = String::new(alloc);
    put_targets(program, built, &mut text)?;
    text.push_str(":")?;
    for file in &sources.files {
        if is_named(file) {
            text.push_str(" ")?;
            put_escaped(file.path.as_str(), &mut text)?;
        }
    }
    text.push_str("\n")?;
    if rule.has_phony {
        put_phony(sources, &mut text)?;
    }
    Ok(text)
}

/// Whether a file has a path that make finds: the file of macros has none, and standard input has `-`.
fn is_named(file: &Source) -> bool {
    !file.path.is_empty() && file.path.as_str() != "-"
}

/// Puts the targets of the words, a space between; the built file where they have none.
fn put_targets(program: &Program<'_>, built: &str, text: &mut String) -> Result<(), AllocError> {
    for word in &program.words {
        if matches!(word.role, Role::Target | Role::QuotedTarget) {
            put_target(*word, text)?;
        }
    }
    if text.is_empty() {
        put_escaped(built, text)?;
    }
    Ok(())
}

/// Puts a target of the words after those that are there.
fn put_target(word: Word<'_>, text: &mut String) -> Result<(), AllocError> {
    if !text.is_empty() {
        text.push_str(" ")?;
    }
    if word.role == Role::QuotedTarget {
        put_escaped(word.text, text)
    } else {
        text.push_str(word.text)
    }
}

/// Puts a rule for each file but the main one.
fn put_phony(sources: &Sources<'_>, text: &mut String) -> Result<(), AllocError> {
    for file in sources.files.get(1..).unwrap_or_default() {
        if is_named(file) {
            put_escaped(file.path.as_str(), text)?;
            text.push_str(":\n")?;
        }
    }
    Ok(())
}

/// Puts a path as make reads it.
fn put_escaped(path: &str, text: &mut String) -> Result<(), AllocError> {
    for letter in path.chars() {
        if letter == ' ' || letter == '\t' || letter == '#' {
            text.push('\\')?;
        }
        if letter == '$' {
            text.push('$')?;
        }
        text.push(letter)?;
    }
    Ok(())
}
