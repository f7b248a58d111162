//! A program that is verified, and its executable file.
#![tactic(auto)]

ghost use Rattle.std.specs.Prelude.{◌≡◌, ◌≤◌, IfOk, IfSome};
ghost use Rattle.typed_ast.specs.View.{program_of};
ghost use Rattle.cc_backend.specs.Made.{IsReady};
ghost use Rattle.verify.specs.declared.verdict.Verdict.TheVariants.{Defined};
ghost use Rattle.verify_stack.specs.declared.bounds.Bound.TheVariants.{AtMost};
ghost use Rattle.verify_stack.specs.Bounds.{Says, size_in};
ghost use Rattle.verify_build.specs.Verified.{IsShown};
ghost use Rattle.verify_build.specs.Sizes.{frames_listed};

use cc::{Built, StackSize, compile_checked};
use srcset::Names;
use std::alloc::{AllocError, Global};
use typed_ast::Program;
use verify::{Verdict, verify};
use verify_stack::{Bound, stack_bound_by};

/// The file of a verified program, and how many bytes of stack its calls take at most.
#[derive(Drop)]
pub struct Verified {
    pub built: Built,
    pub most: u64,
}

/// What was found of a program.
#[derive(Drop)]
pub struct Judged {
    /// Whether it is defined on every input.
    pub verdict: Verdict,
    /// How much stack its calls take at most, by the bytes of their frames.
    pub bound: Bound,
    /// Its file, where it is shown that nothing undefined is met on any input, and that the stack suffices.
    pub file: Option<Verified>,
}

/// Verifies a program that `cc::checked_program` answered with these names, in so many steps of the analysis at most, and builds its file for a stack of this size.
///
/// Errors: memory ran out.
pub fn judge(
    alloc: Global,
    program: &Program,
    names: &Names,
    stack: StackSize,
    effort: u64,
) -> Result<Judged, AllocError>
    requires { IsReady (program_of program.now) }
    ensures { IfOk result (λ judged. IfSome judged.file (λ v. IsShown stack names.now (program_of program.now) v.built v.most)) }
{
    let verdict = verify(alloc, program, effort)?;
    let built = compile_checked(alloc, program, names, stack)?;
    let bound = frames_bound(alloc, program, &built)?;
    let file = shown(&verdict, &bound, built, stack);
    Ok(Judged {
        verdict,
        bound,
        file,
    })
}

/// The bytes of each frame.
fn frame_sizes(alloc: Global, entries: &[(String, u32, u32)]) -> Result<Vec<u64>, AllocError>
    ensures { IfOk result (λ r. r.items ≡ frames_listed entries.now) }
{
    let mut sizes = Vec::new(alloc);
    let mut rest = entries;
    while let Some((entry, more)) = rest.split_first() {
        sizes.push(u64::from(entry.1))?;
        rest = more;
    }
    Ok(sizes)
}

/// How much stack a program takes at most, by the frames of its file.
fn frames_bound(alloc: Global, program: &Program, built: &Built) -> Result<Bound, AllocError>
    ensures { IfOk result (λ b. Says (size_in (frames_listed built.now.frames.items)) (program_of program.now) b) }
{
    let sizes = frame_sizes(alloc, &built.frames)?;
    bound_by(alloc, program, &built.frames, &sizes)
}

/// The bound by the sizes that these entries have.
fn bound_by(
    alloc: Global,
    program: &Program,
    entries: &[(String, u32, u32)],
    sizes: &[u64],
) -> Result<Bound, AllocError>
    requires { sizes.now ≡ frames_listed entries.now }
    ensures { IfOk result (λ b. Says (size_in (frames_listed entries.now)) (program_of program.now) b) }
{
    stack_bound_by(alloc, program, sizes)
}

/// The file, where nothing undefined is met and the bound is within the stack.
fn shown(verdict: &Verdict, bound: &Bound, built: Built, stack: StackSize) -> Option<Verified>
    ensures { IfSome result (λ v. (v.built ≡ built) × (verdict.now ≡ Defined) × (bound.now ≡ AtMost v.most) × (v.most ≤ stack)) }
{
    match verdict {
        Verdict::Defined => within(bound, built, stack),
        Verdict::DefinedBut(_, _) => None,
        Verdict::Unknown(_) => None,
    }
}

/// The file, where the bound is within the stack.
fn within(bound: &Bound, built: Built, stack: StackSize) -> Option<Verified>
    ensures { IfSome result (λ v. (v.built ≡ built) × (bound.now ≡ AtMost v.most) × (v.most ≤ stack)) }
{
    match bound {
        Bound::AtMost(most) => if *most <= u64::from(stack.get()) {
            Some(Verified { built, most: *most })
        } else {
            None
        },
        Bound::Recursive(_) => None,
        Bound::Unknown => None,
    }
}
