//! Files with an include guard: `#ifndef` of a macro around the whole file, so that it does nothing once the macro is defined.
ghost use Rattle.std.specs.Prelude.{◌≡◌, ◌∷◌, ℕ, List, true, nat_lt, length, Ok, IfSome};
ghost use Rattle.phases.specs.Lines.{scanned};
ghost use Rattle.pp.specs.Groups.{of_text, opens, divides, closes, stands_alone, role_of};
ghost use Rattle.pp.specs.inside.Guards.{IsGuarded, Stays, IsGuardLine, is_blank, opened_by, PassesLine, PassesAlways};

use crate::conditionals::{BranchState, Conditionals, Open};
use crate::scans::Scanned;
use crate::words::{Role, is_else, is_spelled, role_of};
use macros::is_identifier;
use phases::PpToken;
use srcset::Pos;
use std::alloc::Global;

// The macro, where the line is an `#ifndef` of one.
fn guard_name<'a>(line: &[PpToken<'a>]) -> Option<&'a [u8]>
    ensures { IfSome result (λ name. IsGuardLine name.now line.now) }
{
    let [_, word, name] = line else {
        return None;
    };
    if !is_spelled(word, b"ifndef") {
        return None;
    }
    if !is_identifier(name) {
        return None;
    }
    name.lent_spelling()
}

// A conditional opens, or continues with a further branch. Its place is left out, since it differs.
fn put(line: &[PpToken], branch: BranchState, conditionals: &mut Conditionals) -> bool
    ensures { result ≡ true → conditionals.new ≡ opened_by line.now branch ∷ conditionals.old }
{
    let at = Pos { file: 0, line: 0 };
    conditionals
        .push(Open {
            at,
            branch,
            behind_else: is_else(line),
        })
        .is_ok()
}

// Whether the line has no token.
fn is_blank(line: &[PpToken]) -> bool
    ensures { result ≡ is_blank line.now }
{
    match line {
        [] => true,
        [_, ..] => false,
    }
}

// Whether there is more in the line than the name of a directive.
fn has_more(line: &[PpToken]) -> bool
    ensures { result ≡ nat_lt 2 (length line.now) }
{
    line.len() > 2
}

// Whether text does nothing: it is skipped, or has no token.
fn text_passed(line: &[PpToken], conditionals: &Conditionals) -> bool
    requires role { role_of line.now ≡ of_text }
    ensures passes { result ≡ true → PassesAlways line.now conditionals.now conditionals.now }
{
    if conditionals.is_active() {
        return is_blank(line);
    }
    true
}

// The guard itself does nothing where its macro is defined; a conditional that opens after it is skipped.
fn opens_passed<'a>(
    line: &[PpToken<'a>],
    guard: &mut Option<&'a [u8]>,
    conditionals: &mut Conditionals,
) -> bool
    requires role { role_of line.now ≡ opens }
    ensures passes { result ≡ true → PassesLine guard.new line.now conditionals.old conditionals.new }
    ensures stays { result ≡ true → Stays guard.old guard.new }
{
    if conditionals.is_full() {
        return false;
    }
    if !conditionals.is_active() {
        return put(line, BranchState::Skipped, conditionals);
    }
    if guard.is_some() {
        return false;
    }
    let Some(name) = guard_name(line) else {
        return false;
    };
    *guard = Some(name);
    put(line, BranchState::Waiting, conditionals)
}

// A further branch is skipped where its conditional is; the guard may have none.
fn divides_passed(line: &[PpToken], conditionals: &mut Conditionals) -> bool
    requires role { role_of line.now ≡ divides }
    ensures passes { result ≡ true → PassesAlways line.now conditionals.old conditionals.new }
{
    let Some(innermost) = conditionals.pop() else {
        return false;
    };
    if innermost.behind_else {
        return false;
    }
    match innermost.branch {
        BranchState::Skipped => put(line, BranchState::Skipped, conditionals),
        BranchState::Waiting => false,
        BranchState::Taken => false,
        BranchState::Past => false,
    }
}

// Nothing may follow the `#endif` of the guard in its line.
fn closes_passed(line: &[PpToken], conditionals: &mut Conditionals) -> bool
    requires role { role_of line.now ≡ closes }
    ensures passes { result ≡ true → PassesAlways line.now conditionals.old conditionals.new }
{
    let Some(innermost) = conditionals.pop() else {
        return false;
    };
    match innermost.branch {
        BranchState::Skipped => true,
        BranchState::Waiting => !has_more(line),
        BranchState::Taken => false,
        BranchState::Past => false,
    }
}

// Whether the line does nothing where the macro of the guard is defined.
fn line_passed<'a>(
    line: &[PpToken<'a>],
    guard: &mut Option<&'a [u8]>,
    conditionals: &mut Conditionals,
) -> bool
    ensures passes { result ≡ true → PassesLine guard.new line.now conditionals.old conditionals.new }
    ensures stays { result ≡ true → Stays guard.old guard.new }
{
    let Some(role) = role_of(line) else {
        return text_passed(line, conditionals);
    };
    match role {
        Role::Opens => opens_passed(line, guard, conditionals),
        Role::Divides => divides_passed(line, conditionals),
        Role::Closes => closes_passed(line, conditionals),
        Role::StandsAlone => !conditionals.is_active(),
    }
}

/// The macro of the guard of a file, where it has one: the file does nothing where the macro is defined.
pub fn guard_of<'a>(alloc: Global, lines: &Scanned<'a>) -> Option<&'a [u8]>
    ensures { IfSome result (λ name. (file : ℕ) (bytes : List ℕ) → scanned file bytes ≡ Ok lines.now → IsGuarded name.now file bytes) }
{
    let mut guard = None;
    let mut conditionals = Conditionals::new(alloc);
    for index in 0..lines.len() {
        let Some(line) = lines.get(index) else {
            return None;
        };
        if !line_passed(line, &mut guard, &mut conditionals) {
            return None;
        }
    }
    match conditionals.innermost() {
        None => guard,
        Some(_) => None,
    }
}
