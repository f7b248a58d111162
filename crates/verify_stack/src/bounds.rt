//! The bound of a program, by the sizes of its functions: their weights, or their frames in a file.

ghost use Rattle.std.specs.Prelude.{◌≡◌, ℕ, map, slice_get, IfOk, IfSome, Some};
ghost use Rattle.typed_ast.specs.View.{function_of, program_of};
ghost use Rattle.csem.specs.History.{weight_in};
ghost use Rattle.typing_spec.specs.Program.{Function as TypedFunction};
ghost use Rattle.verify_stack.specs.Usages.{AreUsages};
ghost use Rattle.verify_stack.specs.Bounds.{Says, size_in};

use crate::recursions::recurses;
use crate::search::{Found, find_usages};
use crate::usages::are_usages;
use std::alloc::{AllocError, Global};
use typed_ast::{Function, Program};

/// A function that may call itself, directly or through others; functions are given by their numbers.
#[derive(Drop)]
pub struct Recursion {
    pub function: usize,
    /// Main calls the first of these, each of them the next, and the last one is the function; none where the function is main.
    pub way: Vec<usize>,
    /// The function calls the first of these, each of them the next, and the last one is the function again.
    pub cycle: Vec<usize>,
}

/// How much stack a program takes, in the sizes of its functions.
#[derive(Drop)]
pub enum Bound {
    /// On every input, the sizes of the calls that are active at one time never sum to more.
    AtMost(u64),
    /// A function that main reaches may call itself. The arguments are not examined, so its calls may still be bounded.
    Recursive(Recursion),
    /// No bound is found: a sum is past 64 bits.
    Unknown,
}

fn usage_of(usages: &[Option<u64>], f: usize) -> Option<u64>
    ensures { IfSome result (λ usage. slice_get usages.now f ≡ Some (Some usage)) }
{
    match usages.get(f) {
        Some(Some(usage)) => Some(*usage),
        Some(None) => None,
        None => None,
    }
}

/// The bound by these usages.
fn bound_of(program: &Program, sizes: &[u64], usages: &[Option<u64>]) -> Bound
    requires { AreUsages (program_of program.now) sizes.now usages.now }
    ensures { Says (size_in sizes.now) (program_of program.now) result }
{
    match usage_of(usages, program.main) {
        Some(most) => Bound::AtMost(most),
        None => Bound::Unknown,
    }
}

fn tested_usages(
    alloc: Global,
    program: &Program,
    sizes: &[u64],
    usages: &[Option<u64>],
) -> Result<Bound, AllocError>
    ensures { IfOk result (λ b. Says (size_in sizes.now) (program_of program.now) b) }
{
    let tested = are_usages(alloc, program, sizes, usages)?;
    if tested {
        Ok(bound_of(program, sizes, usages))
    } else {
        Ok(Bound::Unknown)
    }
}

fn tested_recursion(
    alloc: Global,
    program: &Program,
    recursion: Recursion,
) -> Result<Bound, AllocError>
    ensures { IfOk result (λ b. (size : ℕ → ℕ) → Says size (program_of program.now) b) }
{
    let tested = recurses(alloc, program, &recursion)?;
    if tested {
        Ok(Bound::Recursive(recursion))
    } else {
        Ok(Bound::Unknown)
    }
}

/// How much stack a program takes at most, where its functions have these sizes by their numbers, the bytes of their frames, say: where main reaches no
/// recursion, the greatest sum of sizes along calls from main.
///
/// Errors: memory ran out.
pub fn stack_bound_by(alloc: Global, program: &Program, sizes: &[u64]) -> Result<Bound, AllocError>
    ensures { IfOk result (λ b. Says (size_in sizes.now) (program_of program.now) b) }
{
    match find_usages(alloc, program, sizes)? {
        Found::Usages(usages) => tested_usages(alloc, program, sizes, &usages),
        Found::Recursion(recursion) => tested_recursion(alloc, program, recursion),
    }
}

/// The weights of functions, in their order.
fn weights(alloc: Global, functions: &[Function]) -> Result<Vec<u64>, AllocError>
    ensures { IfOk result (λ r. r.items ≡ map (λ (g : TypedFunction). g.weight) (map function_of functions.now)) }
{
    let mut weights = Vec::new(alloc);
    let mut rest = functions;
    while let Some((function, more)) = rest.split_first() {
        weights.push(function.weight)?;
        rest = more;
    }
    Ok(weights)
}

/// The bound by sizes that are the weights.
fn bound_by_weights(alloc: Global, program: &Program, sizes: &[u64]) -> Result<Bound, AllocError>
    requires { sizes.now ≡ map (λ (g : TypedFunction). g.weight) (program_of program.now).functions }
    ensures { IfOk result (λ b. Says (weight_in (program_of program.now)) (program_of program.now) b) }
{
    stack_bound_by(alloc, program, sizes)
}

/// How much stack a program takes at most, by the weights of its functions.
///
/// Errors: memory ran out.
pub fn stack_bound(alloc: Global, program: &Program) -> Result<Bound, AllocError>
    ensures { IfOk result (λ b. Says (weight_in (program_of program.now)) (program_of program.now) b) }
{
    let sizes = weights(alloc, &program.functions)?;
    bound_by_weights(alloc, program, &sizes)
}
