//! The role of a line, by its first tokens.
ghost use Rattle.std.specs.Prelude.{◌≡◌, ◌||◌, codes};
ghost use Rattle.macros.specs.Macro.{is_spelled};
ghost use Rattle.pp.specs.Groups.{is_text, word_role, hash_role, role_of, is_else, place_of};
ghost use Rattle.pp.specs.inside.Stepping.{role_meant, line_role_meant};

use macros::{is_hash, is_identifier};
use phases::PpToken;
use srcset::Pos;

/// The role of a directive in conditional sections (ISO/IEC 9899:2011 6.10p1).
#[derive(Clone, Copy)]
pub enum Role {
    /// `#if`, `#ifdef` or `#ifndef`.
    Opens,
    /// `#elif` or `#else`.
    Divides,
    /// `#endif`.
    Closes,
    /// Any other.
    StandsAlone,
}

/// Whether the token has this spelling.
pub fn is_spelled(token: &PpToken, text: &[u8]) -> bool
    ensures { result ≡ is_spelled text.now token.now }
{
    token.spelling() == text
}

// Whether a directive of this name opens a conditional.
fn opens(name: &PpToken) -> bool
    ensures { result ≡ (is_spelled (codes "if") name.now || is_spelled (codes "ifdef") name.now || is_spelled (codes "ifndef") name.now) }
{
    is_spelled(name, b"if") || is_spelled(name, b"ifdef") || is_spelled(name, b"ifndef")
}

// Whether a directive of this name begins a further branch.
fn divides(name: &PpToken) -> bool
    ensures { result ≡ (is_spelled (codes "elif") name.now || is_spelled (codes "else") name.now) }
{
    is_spelled(name, b"elif") || is_spelled(name, b"else")
}

// The role of a directive of this name.
fn word_role(name: &PpToken) -> Role
    ensures { role_meant result ≡ word_role name.now }
{
    if opens(name) {
        return Role::Opens;
    }
    if divides(name) {
        return Role::Divides;
    }
    if is_spelled(name, b"endif") {
        return Role::Closes;
    }
    Role::StandsAlone
}

// The role of a directive, by the tokens after its `#`.
fn hash_role(further: &[PpToken]) -> Role
    ensures { role_meant result ≡ hash_role further.now }
{
    let [name, ..] = further else {
        return Role::StandsAlone;
    };
    if is_identifier(name) {
        word_role(name)
    } else {
        Role::StandsAlone
    }
}

/// The role of the line; `None` for text. The first token of a directive is a `#` (ISO/IEC 9899:2011 6.10p2).
pub fn role_of(line: &[PpToken]) -> Option<Role>
    ensures { line_role_meant result ≡ role_of line.now }
{
    let [first, further @ ..] = line else {
        return None;
    };
    if is_hash(first) {
        Some(hash_role(further))
    } else {
        None
    }
}

/// Whether the line is text.
#[inline(always)]
pub fn is_text(line: &[PpToken]) -> bool
    ensures { result ≡ is_text (role_of line.now) }
{
    match role_of(line) {
        Some(_) => false,
        None => true,
    }
}

/// Whether the directive is an `#else`.
pub fn is_else(line: &[PpToken]) -> bool
    ensures { result ≡ is_else line.now }
{
    match line {
        [_, name, ..] => is_spelled(name, b"else"),
        _ => false,
    }
}

/// The physical place of the first token.
pub fn place_of(line: &[PpToken]) -> Pos
    ensures { result ≡ place_of line.now }
{
    match line {
        [first, ..] => first.pos(),
        [] => Pos { file: 0, line: 0 },
    }
}
