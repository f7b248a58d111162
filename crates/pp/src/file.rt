//! The lines of a file, one after another.
#![tactic(auto, using(crate::proofs::NearLemmas::first_near))]

ghost use Rattle.std.specs.Prelude.{◌≡◌, ◌&&◌, ℕ, [], false, not, drop, All, OnOk};
ghost use Rattle.std.specs.List.{list_all};
ghost use Rattle.srcset.specs.NameTable.{Texts, KeepsNumbers};
ghost use Rattle.srcset.specs.declared.refusal.Refusal.TheVariants.{At};
ghost use Rattle.srcset.specs.declared.code.Code.TheVariants.{UnbalancedConditional};
ghost use Rattle.pp_expand.specs.Expands.{HaveFiles};
ghost use Rattle.pp.specs.Lines.{first_end, lines_with};
ghost use Rattle.pp.specs.Groups.{Parsed, Group, is_text, ends, opens, divides, closes, stands_alone, role_of, to_end, with_line, groups};
ghost use Rattle.pp.specs.Phase4.{State as Done, Outcome, Around, group_done};
ghost use Rattle.pp.specs.inside.Including.{is_include};
ghost use Rattle.pp.specs.Rest.{nowhere, is_active, rest_done};
ghost use Rattle.pp.specs.Held.{IsSound, Agrees};
ghost use Rattle.pp.specs.Left.{Stands};
ghost use Rattle.pp.specs.inside.Stepping.{IsNear, line_with, role_meant, EndsOrGoes, RestsOrStops, StandsOrStops};

use crate::conditionals::{BranchState, Conditionals, Open};
use crate::conditions::{check_end, next_branch};
use crate::ends::LineEnds;
use crate::run::Run;
use crate::state::State;
use crate::words::{Role, is_else, place_of, role_of};
use phases::{Lines, PpToken};
use srcset::{Code, Names, Pos, Refusal};
use std::alloc::Global;

/// The state of a file while its lines are processed: the run and the conditionals that are open, and where its lines end.
#[derive(Drop)]
pub struct OpenFile<'a> {
    pub run: Run<'a>,
    pub conditionals: Conditionals,
    pub ends: LineEnds<'a>,
}

fn unbalanced(at: Pos) -> Refusal
    ensures { result ≡ At UnbalancedConditional at }
{
    Refusal::At {
        code: Code::UnbalancedConditional,
        pos: at,
    }
}

// A conditional opens, unless it is one too many.
fn opens<'a>(
    alloc: Global,
    line: &[PpToken<'a>],
    conditionals: &mut Conditionals,
    state: &mut State<'a>,
    names: &Names,
) -> Result<(), Refusal>
    requires sound { IsSound names.now state.old }
    requires role { role_of line.now ≡ opens }
    requires near { All IsNear line.now }
    ensures rests { (around : Around) (end : ℕ) (p : Parsed) (s : Done) → KeepsNumbers names.now around.texts → Agrees names.now state.old s → RestsOrStops s.given result names.now state.new around conditionals.new p (rest_done around conditionals.old (with_line opens (line_with line.now end) p) s) }
    ensures sound { OnOk result (IsSound names.now state.new) }
    ensures given { state.new.given ≡ state.old.given }
{
    let at = state.presumed.place(place_of(line));
    if conditionals.is_full() {
        return Err(Refusal::At {
            code: Code::NestingLimit,
            pos: at,
        });
    }
    let branch = next_branch(state, alloc, line, conditionals.opening(), names)?;
    conditionals.push(Open {
        at,
        branch,
        behind_else: is_else(line),
    })
}

// A further branch of the innermost conditional, which has to be there, without an `#else` so far.
fn divides<'a>(
    alloc: Global,
    line: &[PpToken<'a>],
    conditionals: &mut Conditionals,
    state: &mut State<'a>,
    names: &Names,
) -> Result<(), Refusal>
    requires sound { IsSound names.now state.old }
    requires role { role_of line.now ≡ divides }
    requires near { All IsNear line.now }
    ensures rests { (around : Around) (end : ℕ) (p : Parsed) (s : Done) → KeepsNumbers names.now around.texts → Agrees names.now state.old s → RestsOrStops s.given result names.now state.new around conditionals.new p (rest_done around conditionals.old (with_line divides (line_with line.now end) p) s) }
    ensures sound { OnOk result (IsSound names.now state.new) }
    ensures given { state.new.given ≡ state.old.given }
{
    let at = state.presumed.place(place_of(line));
    let Some(innermost) = conditionals.pop() else {
        return Err(unbalanced(at));
    };
    if innermost.behind_else {
        return Err(unbalanced(at));
    }
    let branch = next_branch(state, alloc, line, innermost.branch, names)?;
    conditionals.push(Open {
        at: innermost.at,
        branch,
        behind_else: is_else(line),
    })
}

// The innermost conditional closes, which has to be there.
fn closes<'a>(
    line: &[PpToken<'a>],
    conditionals: &mut Conditionals,
    state: &State<'a>,
) -> Result<(), Refusal>
    requires role { role_of line.now ≡ closes }
    requires near { All IsNear line.now }
    ensures rests { (names : Texts) (around : Around) (end : ℕ) (p : Parsed) (s : Done) → Agrees names state.now s → RestsOrStops s.given result names state.now around conditionals.new p (rest_done around conditionals.old (with_line closes (line_with line.now end) p) s) }
{
    let at = state.presumed.place(place_of(line));
    let Some(innermost) = conditionals.pop() else {
        return Err(unbalanced(at));
    };
    match innermost.branch {
        BranchState::Skipped => Ok(()),
        BranchState::Waiting => check_end(state, line),
        BranchState::Taken => check_end(state, line),
        BranchState::Past => check_end(state, line),
    }
}

// A directive, after the end of a run.
fn directive_done<'a>(
    alloc: Global,
    line: &[PpToken<'a>],
    index: usize,
    role: Role,
    file: &mut OpenFile<'a>,
    state: &mut State<'a>,
    names: &mut Names,
) -> Result<(), Refusal>
    requires sound { IsSound names.old state.old }
    requires other { is_include line.now ≡ false }
    requires role { role_of line.now ≡ role_meant role }
    requires near { All IsNear line.now }
    ensures rests { (around : Around) (p : Parsed) (s : Done) → KeepsNumbers names.new around.texts → Agrees names.old state.old s → RestsOrStops s.given result names.new state.new around file.new.conditionals p (rest_done around file.old.conditionals (with_line (role_meant role) (line_with line.now (first_end (drop index file.old.ends))) p) s) }
    ensures sound { OnOk result (IsSound names.new state.new) }
    ensures given { state.new.given ≡ state.old.given }
    ensures keeps { KeepsNumbers names.old names.new }
    ensures run { file.new.run ≡ file.old.run }
    ensures ends { file.new.ends ≡ file.old.ends }
{
    match role {
        Role::Opens => opens(alloc, line, &mut file.conditionals, state, names),
        Role::Divides => divides(alloc, line, &mut file.conditionals, state, names),
        Role::Closes => closes(line, &mut file.conditionals, state),
        Role::StandsAlone => {
            if !file.conditionals.is_active() {
                return Ok(());
            }
            state.directive(alloc, line, index, &mut file.ends, names)
        }
    }
}

/// Text goes to the run, unless it is skipped; a directive is done, before which the run has ended.
pub fn line_done<'a>(
    alloc: Global,
    line: &[PpToken<'a>],
    index: usize,
    file: &mut OpenFile<'a>,
    state: &mut State<'a>,
    names: &mut Names,
) -> Result<(), Refusal>
    requires sound { IsSound names.old state.old }
    requires files { HaveFiles names.old file.old.run.tokens }
    requires ended { (file.old.run.begun && not (is_text (role_of line.now))) ≡ false }
    requires idle { file.old.run.begun ≡ false → file.old.run.tokens ≡ [] }
    requires other { is_include line.now ≡ false }
    requires near { All IsNear line.now }
    ensures stands { (around : Around) (p : Parsed) (o : Outcome Done) → KeepsNumbers names.new around.texts → Stands names.old state.old file.old.run around file.old.conditionals (with_line (role_of line.now) (line_with line.now (first_end (drop index file.old.ends))) p) o → StandsOrStops result names.new state.new file.new.run around file.new.conditionals p o }
    ensures sound { OnOk result (IsSound names.new state.new) }
    ensures given { state.new.given ≡ state.old.given }
    ensures files { OnOk result (HaveFiles names.new file.new.run.tokens) }
    ensures idle { file.new.run.begun ≡ false → file.new.run.tokens ≡ [] }
    ensures keeps { KeepsNumbers names.old names.new }
    ensures ends { file.new.ends ≡ file.old.ends }
{
    let Some(role) = role_of(line) else {
        if !file.conditionals.is_active() {
            return Ok(());
        }
        return file.run.put_line(line, state.presumed);
    };
    directive_done(alloc, line, index, role, file, state, names)
}

/// The end of a file, before which its run has ended: no conditional may be open.
pub fn end_done<'a>(file: &OpenFile<'a>, state: &State<'a>) -> Result<(), Refusal>
    requires { file.now.run.begun ≡ false }
    ensures { (names : Texts) (around : Around) (o : Outcome Done) → Stands names state.now file.now.run around file.now.conditionals (to_end ends) o → EndsOrGoes result names state.now o }
{
    match file.conditionals.innermost() {
        None => Ok(()),
        Some(open) => Err(unbalanced(open.at)),
    }
}
