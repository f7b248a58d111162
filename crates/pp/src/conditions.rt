//! Which branches of conditionals are taken (ISO/IEC 9899:2011 6.10.1).
#![tactic(auto, using(crate::proofs::NearLemmas::first_near))]

ghost use Rattle.std.specs.Prelude.{◌≡◌, ◌<◌, ◌+◌, ◌&&◌, ℕ, codes, length, All, IfOk, IfErr, OnOk, Some};
ghost use Rattle.srcset.specs.NameTable.{Texts, KeepsNumbers};
ghost use Rattle.srcset.specs.declared.refusal.Refusal.TheVariants.{At};
ghost use Rattle.srcset.specs.declared.code.Code.TheVariants.{BadDirective, NotConstantCondition};
ghost use Rattle.macros.specs.Macro.{is_identifier, is_spelled};
ghost use Rattle.pp_expand.specs.Expands.{HaveFiles};
ghost use Rattle.pp.specs.Phase4.{State as Done, truth_token, is_macro, name_operand, operand_of, defined_resolved, condition_by, macro_asked, else_asked, branch_taken, else_checked, end_checked, presume, Around};
ghost use Rattle.pp.specs.Rest.{next_branch};
ghost use Rattle.pp.specs.Held.{Agrees, IsSound};
ghost use Rattle.pp.specs.inside.Stepping.{IsNear, Asks, Does, line_with, operand_meant, PutsResolved, Resolves, IsUnresolved};

use crate::conditionals::BranchState;
use crate::state::{State, bad_directive};
use crate::words::{is_else, is_spelled, place_of};
use macros::{is_identifier, is_predefined};
use phases::{Kind, PpToken};
use pp_cond::ConditionReader;
use pp_expand::{Expander, RunEnd};
use srcset::{Code, Names, Pos, Refusal};
use std::alloc::{AllocError, Global};
use std::borrow::CowSlice;

// The token that takes the place of a `defined` and its operand.
fn truth_token<'a>(word: &PpToken<'a>, holds: bool) -> Result<PpToken<'a>, AllocError>
    ensures { IfOk result (λ token. token ≡ truth_token holds word.now) }
{
    let spelling = if holds {
        b"1".as_slice()
    } else {
        b"0".as_slice()
    };
    PpToken::new(
        Kind::Number,
        CowSlice::Borrowed(spelling),
        word.space_before(),
        word.pos(),
    )
}

/// Whether a macro of this name is defined.
pub fn is_macro<'a>(state: &State<'a>, name: &[u8], names: &Names) -> bool
    ensures { (s : Done) → Agrees names.now state.now s → result ≡ is_macro s name.now }
{
    is_predefined(name) || state.table.find(names, name).is_some()
}

// The name that is an operand, where it is one, and how many tokens the operand takes.
fn name_operand<'a, 'b>(name: &'b PpToken<'a>, taken: usize) -> Option<(&'b [u8], usize)>
    ensures { operand_meant result ≡ name_operand name.now taken }
{
    if is_identifier(name) {
        Some((name.spelling(), taken))
    } else {
        None
    }
}

// The name after a `defined`, in parentheses or not, and how many tokens that takes.
fn operand_of<'a, 'b>(further: &'b [PpToken<'a>]) -> Option<(&'b [u8], usize)>
    ensures { operand_meant result ≡ operand_of further.now }
{
    match further {
        [] => None,
        [open, name, close, ..] => {
            if !is_spelled(open, b"(") {
                return name_operand(open, 1);
            }
            if is_spelled(close, b")") {
                name_operand(name, 3)
            } else {
                None
            }
        }
        [name, ..] => name_operand(name, 1),
    }
}

// Whether it is the word `defined`.
fn is_defined(token: &PpToken) -> bool
    ensures { result ≡ (is_identifier token.now && is_spelled (codes "defined") token.now) }
{
    is_identifier(token) && is_spelled(token, b"defined")
}

// Appends the first token with `defined` resolved, and returns how many tokens after it are its operand's.
fn put_resolved<'a>(
    state: &State<'a>,
    alloc: Global,
    rest: &[PpToken<'a>],
    at: Pos,
    list: &mut Vec<PpToken<'a>>,
    names: &Names,
) -> Result<usize, Refusal>
    requires { 0 < length rest.now }
    ensures ok { IfOk result (PutsResolved names.now state.now rest.now list.old.items list.new.items) }
    ensures err { IfErr result (λ refusal. IsUnresolved refusal names.now state.now rest.now at) }
{
    let [first, further @ ..] = rest else {
        return Ok(0);
    };
    if !is_defined(first) {
        list.push(first.copy()?)?;
        return Ok(0);
    }
    let Some((name, taken)) = operand_of(further) else {
        return Err(Refusal::At {
            code: Code::NotConstantCondition,
            pos: at,
        });
    };
    list.push(truth_token(first, is_macro(state, name, names))?)?;
    Ok(taken)
}

// The same with the token of this number, unless it is one of the `skip` tokens that belong to an operand.
fn put_next<'a>(
    state: &State<'a>,
    alloc: Global,
    tokens: &[PpToken<'a>],
    index: usize,
    skip: usize,
    at: Pos,
    list: &mut Vec<PpToken<'a>>,
    names: &Names,
) -> Result<usize, Refusal>
    requires within { index < length tokens.now }
    requires files { HaveFiles names.now tokens.now }
    requires resolves { Resolves names.now state.now tokens.now list.old.items skip index }
    ensures ok { IfOk result (λ next. Resolves names.now state.now tokens.now list.new.items next (index + 1)) }
    ensures err { IfErr result (λ refusal. IsUnresolved refusal names.now state.now tokens.now at) }
{
    if skip > 0 {
        return Ok(skip - 1);
    }
    put_resolved(state, alloc, &tokens[index..], at, list, names)
}

// The tokens with each `defined` and its operand resolved.
fn resolved<'a>(
    state: &State<'a>,
    alloc: Global,
    tokens: &[PpToken<'a>],
    at: Pos,
    names: &Names,
) -> Result<Vec<PpToken<'a>>, Refusal>
    requires { HaveFiles names.now tokens.now }
    ensures ok { IfOk result (λ list. (s : Done) → Agrees names.now state.now s → defined_resolved 0 s tokens.now ≡ Some list.items) }
    ensures files { IfOk result (λ list. HaveFiles names.now list.items) }
    ensures err { IfErr result (λ refusal. IsUnresolved refusal names.now state.now tokens.now at) }
{
    let mut list = Vec::new(alloc);
    let mut skip = 0;
    for index in 0..tokens.len() {
        skip = put_next(state, alloc, tokens, index, skip, at, &mut list, names)?;
    }
    Ok(list)
}

// Whether the condition holds that these tokens expand to. Each token of the expansion is read when it comes, and not kept. It
// is expanded to its end also after a wrong token, since a fault of the expansion precedes one of the condition.
fn expanded_truth<'a>(
    state: &mut State<'a>,
    alloc: Global,
    tokens: Vec<PpToken<'a>>,
    at: Pos,
    names: &Names,
) -> Result<bool, Refusal>
    requires sound { IsSound names.now state.old }
    requires files { HaveFiles names.now tokens.items }
    ensures asks { (texts : Texts) (s : Done) → KeepsNumbers names.now texts → Agrees names.now state.old s → Asks s.given result names.now state.new (condition_by texts at (Some tokens.entry.items) s) }
    ensures sound { OnOk result (IsSound names.now state.new) }
    ensures given { state.new.given ≡ state.old.given }
{
    let mut expander = Expander::new(alloc, tokens, RunEnd::Directive);
    let mut reader = ConditionReader::new(alloc);
    loop {
        match expander.try_next(alloc, &state.table, &mut state.budget, names) {
            Ok(next) => {
                let Some(token) = next else {
                    return reader.truth(at);
                };
                if let Err(refusal) = reader.take(&token) {
                    return Err(refusal);
                }
            }
            Err(refusal) => return Err(refusal),
        }
    }
}

// Whether the condition of an `#if` or `#elif` holds, by the tokens after its name.
fn condition<'a>(
    state: &mut State<'a>,
    alloc: Global,
    further: &[PpToken<'a>],
    at: Pos,
    names: &Names,
) -> Result<bool, Refusal>
    requires sound { IsSound names.now state.old }
    requires near { All IsNear further.now }
    ensures asks { (texts : Texts) (s : Done) → KeepsNumbers names.now texts → Agrees names.now state.old s → Asks s.given result names.now state.new (condition_by texts at (defined_resolved 0 s (presume s further.now)) s) }
    ensures sound { OnOk result (IsSound names.now state.new) }
    ensures given { state.new.given ≡ state.old.given }
{
    let mut placed = Vec::new(alloc);
    state.presumed.put(further, &mut placed)?;
    let list = resolved(state, alloc, &placed, at, names)?;
    expanded_truth(state, alloc, list, at, names)
}

// Whether the name after `#ifdef` or `#ifndef` is that of a macro, or is not, as `wanted` says.
fn macro_asked<'a>(
    state: &State<'a>,
    wanted: bool,
    further: &[PpToken<'a>],
    at: Pos,
    names: &Names,
) -> Result<bool, Refusal>
    ensures { (s : Done) → Agrees names.now state.now s → Asks s.given result names.now state.now (macro_asked wanted at (presume s further.now) s) }
{
    let [name] = further else {
        return Err(bad_directive(at));
    };
    if !is_identifier(name) {
        return Err(bad_directive(at));
    }
    if is_macro(state, name.spelling(), names) {
        Ok(wanted)
    } else {
        Ok(!wanted)
    }
}

// An `#else` is taken, where nothing follows it.
fn else_asked<'a>(state: &State<'a>, further: &[PpToken<'a>], at: Pos) -> Result<bool, Refusal>
    ensures { (names : Texts) (s : Done) → Agrees names state.now s → Asks s.given result names state.now (else_asked at (presume s further.now) s) }
{
    if further.is_empty() {
        Ok(true)
    } else {
        Err(bad_directive(at))
    }
}

// Whether the branch is taken that this line begins, where none before it was.
fn branch_taken<'a>(
    state: &mut State<'a>,
    alloc: Global,
    line: &[PpToken<'a>],
    names: &Names,
) -> Result<bool, Refusal>
    requires sound { IsSound names.now state.old }
    requires near { All IsNear line.now }
    ensures asks { (texts : Texts) (end : ℕ) (s : Done) → KeepsNumbers names.now texts → Agrees names.now state.old s → Asks s.given result names.now state.new (branch_taken texts (line_with line.now end) s) }
    ensures sound { OnOk result (IsSound names.now state.new) }
    ensures given { state.new.given ≡ state.old.given }
{
    let [hash, name, further @ ..] = line else {
        return Ok(false);
    };
    let at = state.presumed.place(hash.pos());
    if is_spelled(name, b"ifdef") {
        return macro_asked(state, true, further, at, names);
    }
    if is_spelled(name, b"ifndef") {
        return macro_asked(state, false, further, at, names);
    }
    if is_spelled(name, b"else") {
        return else_asked(state, further, at);
    }
    condition(state, alloc, further, at, names)
}

// Refused where anything follows an `#else`.
fn check_else<'a>(state: &State<'a>, line: &[PpToken<'a>]) -> Result<(), Refusal>
    requires { All IsNear line.now }
    ensures { (names : Texts) (end : ℕ) → Does result names state.now names state.now (else_checked (line_with line.now end)) }
{
    if is_else(line) && line.len() > 2 {
        return Err(bad_directive(state.presumed.place(place_of(line))));
    }
    Ok(())
}

/// Refused where anything follows an `#endif`.
pub fn check_end<'a>(state: &State<'a>, line: &[PpToken<'a>]) -> Result<(), Refusal>
    requires { All IsNear line.now }
    ensures { (names : Texts) (end : ℕ) → Does result names state.now names state.now (end_checked (line_with line.now end)) }
{
    if line.len() > 2 {
        return Err(bad_directive(state.presumed.place(place_of(line))));
    }
    Ok(())
}

/// The state of the branch that this line begins, by that of the branch before it.
pub fn next_branch<'a>(
    state: &mut State<'a>,
    alloc: Global,
    line: &[PpToken<'a>],
    before: BranchState,
    names: &Names,
) -> Result<BranchState, Refusal>
    requires sound { IsSound names.now state.old }
    requires near { All IsNear line.now }
    ensures asks { (around : Around) (end : ℕ) (s : Done) → KeepsNumbers names.now around.texts → Agrees names.now state.old s → Asks s.given result names.now state.new (next_branch before around (line_with line.now end) s) }
    ensures sound { OnOk result (IsSound names.now state.new) }
    ensures given { state.new.given ≡ state.old.given }
{
    match before {
        BranchState::Waiting => {
            if branch_taken(state, alloc, line, names)? {
                Ok(BranchState::Taken)
            } else {
                Ok(BranchState::Waiting)
            }
        }
        BranchState::Taken => {
            check_else(state, line)?;
            Ok(BranchState::Past)
        }
        BranchState::Past => {
            check_else(state, line)?;
            Ok(BranchState::Past)
        }
        BranchState::Skipped => Ok(BranchState::Skipped),
    }
}
