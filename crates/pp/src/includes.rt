//! `#include` (ISO/IEC 9899:2011 6.10.2).
ghost use Rattle.std.specs.Prelude.{◌≡◌, ◌++◌, [], ℕ, true, false, codes, Some, All, IfOk, IfErr, IfSome, OnOk};
ghost use Rattle.std.specs.Str.{byte};
ghost use Rattle.srcset.specs.Headers.{header_of};
ghost use Rattle.srcset.specs.NameTable.{Texts, KeepsNumbers, NumbersOnce};
ghost use Rattle.srcset.specs.declared.refusal.Refusal.TheVariants.{Memory};
ghost use Rattle.pp.specs.Lines.{first_end};
ghost use Rattle.pp.specs.Groups.{Parsed, role_of, with_line};
ghost use Rattle.pp.specs.Phase4.{State as Done, Outcome, Enter, presume, built_in, file_meant, entered, is_header_kind, include_named, include_made, include_done};
ghost use Rattle.pp.specs.Left.{around_with, Stands};
ghost use Rattle.pp.specs.inside.Including.{is_include, IsNumber, IsMeant, CanRead, EntersOrStops, IncludesOrStops, StandsOrWaits};
ghost use Rattle.pp.specs.Held.{Agrees, IsSound};
ghost use Rattle.pp.specs.inside.Stepping.{IsNear, line_with};

use crate::file::OpenFile;
use crate::line_directive::{inside, is_plain_string};
use crate::state::{State, bad_directive};
use crate::words::is_spelled;
use macros::{is_hash, is_identifier};
use phases::{Kind, PpToken};
use srcset::{Code, FileSet, Names, Pos, Refusal, find_builtin};
use std::alloc::Global;

/// An `#include` has one token: with a second one it is wrong, whatever follows.
const MOST_TOKENS: usize = 2;

/// A file that is to be read.
#[derive(Clone, Copy)]
pub struct Source<'a> {
    /// The number of its name in `Names`; that of a built-in header has its brackets.
    pub name: usize,
    pub bytes: &'a [u8],
}

/// Whether the line is an `#include`.
pub fn is_include(line: &[PpToken]) -> bool
    ensures { result ≡ is_include line.now }
{
    match line {
        [first, name, ..] => is_hash(first) && is_identifier(name) && is_spelled(name, b"include"),
        _ => false,
    }
}

// Whether it is a header name.
fn is_header_kind(kind: Kind) -> bool
    ensures { result ≡ is_header_kind kind }
{
    match kind {
        Kind::HeaderName => true,
        Kind::Identifier => false,
        Kind::Number => false,
        Kind::CharacterConstant => false,
        Kind::StringLiteral => false,
        Kind::Punctuator => false,
        Kind::Other => false,
    }
}

// The number of a name.
fn number_of(name: &[u8], names: &mut Names) -> Result<usize, Refusal>
    ensures ok { IfOk result (λ n. IsNumber names.new n name.now) }
    ensures err { IfErr result (λ refusal. refusal ≡ Memory) }
    ensures keeps { KeepsNumbers names.old names.new }
{
    match names.intern(name) {
        Ok(number) => Ok(number),
        Err(_) => Err(Refusal::Memory),
    }
}

// A name in brackets.
fn bracketed(alloc: Global, name: &[u8]) -> Result<Vec<u8>, Refusal>
    ensures ok { IfOk result (λ text. text.items ≡ codes "<" ++ name.now ++ codes ">") }
    ensures err { IfErr result (λ refusal. refusal ≡ Memory) }
{
    let mut text = Vec::new(alloc);
    text.push(b'<')?;
    text.extend_from_slice(name)?;
    text.push(b'>')?;
    Ok(text)
}

// The built-in header with this name, if there is one.
fn built_in<'a>(
    alloc: Global,
    name: &[u8],
    names: &mut Names,
) -> Result<Option<Source<'a>>, Refusal>
    ensures ok { IfOk result (λ source. IsMeant names.new source (built_in (header_of name.now) name.now)) }
    ensures err { IfErr result (λ refusal. refusal ≡ Memory) }
    ensures keeps { KeepsNumbers names.old names.new }
{
    let Some(bytes) = find_builtin(name) else {
        return Ok(None);
    };
    let text = bracketed(alloc, name)?;
    let name = number_of(&text, names)?;
    Ok(Some(Source { name, bytes }))
}

// The file that is meant by a name in quotes or brackets, if there is one.
fn file_meant<'a>(
    alloc: Global,
    set: &'a FileSet,
    spelling: &[u8],
    names: &mut Names,
) -> Result<Option<Source<'a>>, Refusal>
    ensures ok { IfOk result (λ source. IsMeant names.new source (file_meant set.now spelling.now)) }
    ensures err { IfErr result (λ refusal. refusal ≡ Memory) }
    ensures keeps { KeepsNumbers names.old names.new }
{
    let name = inside(spelling);
    if !spelling.starts_with(b"\"") {
        return built_in(alloc, name, names);
    }
    let Some(bytes) = set.find(name) else {
        return built_in(alloc, name, names);
    };
    let name = number_of(name, names)?;
    Ok(Some(Source { name, bytes }))
}

// The same, where one may be entered: there has to be room for one more.
fn source_named<'a>(
    alloc: Global,
    set: &'a FileSet,
    room: usize,
    spelling: &[u8],
    at: Pos,
    names: &mut Names,
) -> Result<Source<'a>, Refusal>
    ensures enters { (texts : Texts) (s : Done) → KeepsNumbers names.new texts → EntersOrStops result names.new set.now texts room s (entered room set.now texts spelling.now at s) }
    ensures ok { IfOk result (CanRead names.new room) }
    ensures once { IfOk result (λ source. NumbersOnce names.new) }
    ensures keeps { KeepsNumbers names.old names.new }
{
    let Some(source) = file_meant(alloc, set, spelling, names)? else {
        return Err(Refusal::At {
            code: Code::IncludeNotFound,
            pos: at,
        });
    };
    if room == 0 {
        return Err(Refusal::At {
            code: Code::NestingLimit,
            pos: at,
        });
    }
    Ok(source)
}

// The file of a header name, which nothing may follow (6.10p1).
fn header_named<'a>(
    alloc: Global,
    set: &'a FileSet,
    room: usize,
    further: &[PpToken<'a>],
    at: Pos,
    state: &State<'a>,
    names: &mut Names,
) -> Result<Source<'a>, Refusal>
    ensures includes { (texts : Texts) (s : Done) → KeepsNumbers names.new texts → Agrees names.old state.now s → IncludesOrStops s.given result names.new state.now set.now texts room (include_named (entered room set.now texts) at (presume s further.now) s) }
    ensures ok { IfOk result (CanRead names.new room) }
    ensures keeps { KeepsNumbers names.old names.new }
{
    let [name] = further else {
        return Err(bad_directive(at));
    };
    source_named(alloc, set, room, name.spelling(), at, names)
}

// The file named by the expansion of the tokens: one string literal.
fn string_named<'a>(
    alloc: Global,
    set: &'a FileSet,
    room: usize,
    tokens: &[PpToken<'a>],
    at: Pos,
    state: &State<'a>,
    names: &mut Names,
) -> Result<Source<'a>, Refusal>
    ensures includes { (texts : Texts) (s : Done) → KeepsNumbers names.new texts → Agrees names.old state.now s → IncludesOrStops s.given result names.new state.now set.now texts room (include_made (entered room set.now texts) at (tokens.now, s)) }
    ensures ok { IfOk result (CanRead names.new room) }
    ensures keeps { KeepsNumbers names.old names.new }
{
    let [name] = tokens else {
        return Err(bad_directive(at));
    };
    if !is_plain_string(name) {
        return Err(bad_directive(at));
    }
    source_named(alloc, set, room, name.spelling(), at, names)
}

// The file that an `#include` names, by the tokens after its name. `room` further nested files may still be opened.
fn included<'a>(
    alloc: Global,
    set: &'a FileSet,
    room: usize,
    further: &[PpToken<'a>],
    at: Pos,
    state: &mut State<'a>,
    names: &mut Names,
) -> Result<Source<'a>, Refusal>
    requires sound { IsSound names.old state.old }
    requires near { All IsNear further.now }
    ensures includes { (texts : Texts) (s : Done) → KeepsNumbers names.new texts → Agrees names.old state.old s → IncludesOrStops s.given result names.new state.new set.now texts room (include_done texts (entered room set.now texts) at (presume s further.now) s) }
    ensures ok { IfOk result (CanRead names.new room) }
    ensures sound { OnOk result (IsSound names.new state.new) }
    ensures given { state.new.given ≡ state.old.given }
    ensures keeps { KeepsNumbers names.old names.new }
{
    let [first, ..] = further else {
        return Err(bad_directive(at));
    };
    if is_header_kind(first.kind()) {
        return header_named(alloc, set, room, further, at, state, names);
    }
    let mut placed = Vec::new(alloc);
    state.presumed.put(further, &mut placed)?;
    let tokens = state.expand_first(alloc, &placed, MOST_TOKENS, names)?;
    string_named(alloc, set, room, &tokens, at, state, names)
}

/// The file that an `#include` names, before which the run has ended; `None` where the line is skipped. `room` further files may still
/// be opened, nested.
pub fn include_done<'a>(
    alloc: Global,
    set: &'a FileSet,
    room: usize,
    line: &[PpToken<'a>],
    file: &OpenFile<'a>,
    state: &mut State<'a>,
    names: &mut Names,
) -> Result<Option<Source<'a>>, Refusal>
    requires sound { IsSound names.old state.old }
    requires ended { file.now.run.begun ≡ false }
    requires idle { file.now.run.tokens ≡ [] }
    requires include { is_include line.now ≡ true }
    requires near { All IsNear line.now }
    ensures waits { (texts : Texts) (end : ℕ) (p : Parsed) (o : Outcome Done) → KeepsNumbers names.new texts → Stands names.old state.old file.now.run (around_with room set.now texts) file.now.conditionals (with_line (role_of line.now) (line_with line.now end) p) o → StandsOrWaits result names.new state.new file.now set.now texts room p o }
    ensures ok { IfOk result (λ included. IfSome included (CanRead names.new room)) }
    ensures sound { OnOk result (IsSound names.new state.new) }
    ensures given { state.new.given ≡ state.old.given }
    ensures keeps { KeepsNumbers names.old names.new }
{
    if !file.conditionals.is_active() {
        return Ok(None);
    }
    let [hash, _, further @ ..] = line else {
        return Ok(None);
    };
    let at = state.presumed.place(hash.pos());
    let source = included(alloc, set, room, further, at, state, names)?;
    Ok(Some(source))
}
