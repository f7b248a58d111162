//! Preprocessing tokens, pulled one after another.
ghost use Rattle.srcset.specs.NameTable.{KeepsNumbers};
ghost use Rattle.pp.specs.Stream.{IsStream};

use crate::same::{is_same_fault, is_same_pp};
use lexer::Lexer;
use phases::PpToken;
use pp::Pp;
use srcset::{Fault, FileSet, Names};
use std::alloc::Global;

/// The file of a row.
pub const MAIN: &str = "row.c";

/// More tokens than a stream gives.
const LIMIT: u32 = 1_048_577;

// Has the lexer take a token. After a fault, which is kept, the lexer has to report the same one again.
fn takes(lexer: &mut Lexer, fault: &mut Option<Fault>, token: &PpToken, names: &mut Names) -> bool
    ensures { KeepsNumbers names.old names.new }
{
    let Err(found) = lexer.take(token, names) else {
        return fault.is_none();
    };
    if let Some(first) = &*fault {
        return is_same_fault(first, &found);
    }
    *fault = Some(found);
    true
}

// Whether a token is the one that is wanted, which the lexer then takes.
fn takes_wanted(
    lexer: &mut Lexer,
    fault: &mut Option<Fault>,
    token: &PpToken,
    names: &mut Names,
    wanted: &PpToken,
    others: &Names,
) -> bool
    ensures { KeepsNumbers names.old names.new }
{
    if !is_same_pp(token, names, wanted, others) {
        return false;
    }
    takes(lexer, fault, token, names)
}

/// Pulls the tokens of a list, and has the lexer take each. Whether the stream gives the list, and the lexer keeps its fault.
#[tactic(auto, using(pp::proofs::StreamLaws::stream_grows))]
pub fn pull_list(
    alloc: Global,
    pp: &mut Pp,
    names: &mut Names,
    lexer: &mut Lexer,
    list: &[PpToken],
    others: &Names,
) -> bool
    requires { IsStream names.old pp.old }
    ensures { IsStream names.new pp.new }
{
    let mut fault = None;
    for wanted in list {
        let Ok(Some(token)) = pp.next(alloc, names) else {
            return false;
        };
        if !takes_wanted(lexer, &mut fault, &token, names, wanted, others) {
            return false;
        }
    }
    true
}

// Skips the tokens that are left. Whether this fault follows them.
fn passes_to(alloc: Global, pp: &mut Pp, names: &mut Names, fault: &Fault) -> bool
    requires { IsStream names.old pp.old }
    ensures { IsStream names.new pp.new }
{
    for _ in 0..LIMIT {
        match pp.next(alloc, names) {
            Ok(Some(_)) => (),
            Ok(None) => return false,
            Err(found) => return is_same_fault(&found, fault),
        }
    }
    false
}

// Whether this is the end, or this fault.
fn is_end(found: &Result<Option<PpToken>, Fault>, fault: Option<&Fault>) -> bool {
    match found {
        Ok(Some(_)) => false,
        Ok(None) => fault.is_none(),
        Err(found) => match fault {
            Some(fault) => is_same_fault(found, fault),
            None => false,
        },
    }
}

/// Whether the end comes, or this fault, three times.
pub fn ends_so(alloc: Global, pp: &mut Pp, names: &mut Names, fault: Option<&Fault>) -> bool
    requires { IsStream names.old pp.old }
{
    for _ in 0..3 {
        let found = pp.next(alloc, names);
        if !is_end(&found, fault) {
            return false;
        }
    }
    true
}

/// Whether the stream of a set ends in this fault, and reports it again.
pub fn ends_in(alloc: Global, set: &FileSet, fault: &Fault) -> bool {
    let mut names = Names::new(alloc);
    let mut pp = match Pp::new(alloc, set, &mut names, MAIN) {
        Ok(pp) => pp,
        Err(found) => return is_same_fault(&found, fault),
    };
    passes_to(alloc, &mut pp, &mut names, fault) && ends_so(alloc, &mut pp, &mut names, Some(fault))
}
