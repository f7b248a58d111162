//! The sizes of declarators (6.7.6.2).
#![tactic(auto, using(typing_expressions::proofs::Verdicts::tells_then, crate::proofs::Verdicts::then_fine, crate::proofs::Verdicts::told))]

ghost use Rattle.std.specs.Prelude.{◌≡◌, ◌++◌, ◌∷◌, [], ◌<◌, ℕ, List, Option, map, IfErr, IfOk, OnOk};
ghost use Rattle.tree.specs.View.{tree_of, option_tree};
ghost use Rattle.typing_spec.specs.Verdict.{fine};
ghost use Rattle.typing_spec.specs.Scope as scope_typed;
ghost use Rattle.typing_spec.specs.Declarators as typed;
ghost use Rattle.typing_expressions.specs.Refused.{Tells};
ghost use Rattle.typing_scopes.specs.Scopes.{with_texts};
ghost use Rattle.decls_declarators.specs.Views.{sizes_of, known_size, Positive};

use crate::literals::past;
use const_expr::{constant_value, positive};
use srcset::{Code, Names, Pos, Refusal};
use std::alloc::Global;
use tree::Expr;
use typing_expressions::broken;
use typing_scopes::Scope;

/// The sizes of a declarator, none or from the outermost.
#[derive(Drop)]
pub struct Sizes {
    /// Whether one more precedes these, which is unknown.
    pub unknown: bool,
    pub lengths: Vec<u64>,
}

/// A constant greater than zero.
fn size_of_array(
    alloc: Global,
    names: &Names,
    scope: &Scope,
    pos: Pos,
    e: &Expr,
) -> Result<u64, Refusal>
    ensures ok { IfOk result (λ n. typed.size_of_array (with_texts names.now scope.now) pos (tree_of e.now) ≡ fine n) }
    ensures err { IfErr result (λ r. Tells r (typed.size_of_array (with_texts names.now scope.now) pos (tree_of e.now))) }
{
    match constant_value(alloc, names, scope, e) {
        Ok(size) => positive(pos, size.value),
        Err(refusal) => Err(refusal),
    }
}

/// A size; its literals are appended to those of the scope.
fn size_past(
    alloc: Global,
    names: &Names,
    scope: &mut Scope,
    pos: Pos,
    e: &Expr,
    lengths: &mut Vec<u64>,
) -> Result<(), Refusal>
    ensures ok { OnOk result ((n : ℕ) × (typed.size_of_array (with_texts names.now scope.old) pos (tree_of e.now) ≡ fine n) × (lengths.new.items ≡ lengths.old.items ++ n ∷ []) × (scope.new ≡ scope_typed.past scope.old (tree_of e.now))) }
    ensures err { IfErr result (λ r. Tells r (typed.size_of_array (with_texts names.now scope.old) pos (tree_of e.now))) }
{
    let size = match size_of_array(alloc, names, scope, pos, e) {
        Ok(size) => size,
        Err(refusal) => return Err(refusal),
    };
    let Ok(()) = past(scope, e) else {
        return Err(Refusal::Memory);
    };
    match lengths.push(size) {
        Ok(()) => Ok(()),
        Err(_) => Err(Refusal::Memory),
    }
}

/// Of an inner array the size must be known: an element is of complete type.
fn inner_size(
    alloc: Global,
    names: &Names,
    scope: &mut Scope,
    pos: Pos,
    size: &Option<Expr>,
    lengths: &mut Vec<u64>,
) -> Result<(), Refusal>
    ensures ok { OnOk result ((n : ℕ) × (typed.inner_size (with_texts names.now scope.old) pos (option_tree size.now) ≡ fine n) × (lengths.new.items ≡ lengths.old.items ++ n ∷ []) × (scope.new ≡ scope_typed.with_literals scope.old (typed.strings_in_size (option_tree size.now)))) }
    ensures err { IfErr result (λ r. Tells r (typed.inner_size (with_texts names.now scope.old) pos (option_tree size.now))) }
{
    match size {
        None => Err(broken(Code::BadArrayType, pos)),
        Some(e) => size_past(alloc, names, scope, pos, e, lengths),
    }
}

/// The sizes of the arrays within an array.
fn inner_sizes(
    alloc: Global,
    names: &Names,
    scope: &mut Scope,
    pos: Pos,
    sizes: &[Option<Expr>],
    lengths: &mut Vec<u64>,
) -> Result<(), Refusal>
    ensures ok { OnOk result ((ns : List ℕ) × (typed.inner_sizes (with_texts names.now scope.old) pos (map option_tree sizes.now) ≡ fine ns) × (lengths.new.items ≡ lengths.old.items ++ ns) × (scope.new ≡ scope_typed.with_literals scope.old (typed.strings_in_sizes (map option_tree sizes.now)))) }
    ensures err { IfErr result (λ r. Tells r (typed.inner_sizes (with_texts names.now scope.old) pos (map option_tree sizes.now))) }
{
    for size in sizes {
        match inner_size(alloc, names, scope, pos, size, lengths) {
            Ok(()) => {}
            Err(refusal) => return Err(refusal),
        }
    }
    Ok(())
}

/// The outermost size, which may be unknown.
fn outer_size(
    alloc: Global,
    names: &Names,
    scope: &mut Scope,
    pos: Pos,
    size: &Option<Expr>,
    lengths: &mut Vec<u64>,
) -> Result<(), Refusal>
    ensures ok { OnOk result ((n : Option ℕ) × (typed.outer_size (with_texts names.now scope.old) pos (option_tree size.now) ≡ fine n) × (lengths.new.items ≡ lengths.old.items ++ known_size n) × (scope.new ≡ scope_typed.with_literals scope.old (typed.strings_in_size (option_tree size.now)))) }
    ensures err { IfErr result (λ r. Tells r (typed.outer_size (with_texts names.now scope.old) pos (option_tree size.now))) }
{
    match size {
        None => Ok(()),
        Some(e) => size_past(alloc, names, scope, pos, e, lengths),
    }
}

/// The sizes of a declarator; their literals are appended to those of the scope.
pub fn sizes_in(
    alloc: Global,
    names: &Names,
    scope: &mut Scope,
    pos: Pos,
    sizes: &[Option<Expr>],
) -> Result<Sizes, Refusal>
    ensures ok { IfOk result (λ x. (typed.sizes_in (with_texts names.now scope.old) pos (map option_tree sizes.now) ≡ fine (sizes_of x)) × (scope.new ≡ scope_typed.with_literals scope.old (typed.strings_in_sizes (map option_tree sizes.now)))) }
    ensures err { IfErr result (λ r. Tells r (typed.sizes_in (with_texts names.now scope.old) pos (map option_tree sizes.now))) }
    ensures positive { IfOk result (λ x. Positive x.lengths.items) }
{
    let mut lengths = Vec::new(alloc);
    let Some((first, rest)) = sizes.split_first() else {
        return Ok(Sizes {
            unknown: false,
            lengths,
        });
    };
    match outer_size(alloc, names, scope, pos, first, &mut lengths) {
        Ok(()) => {}
        Err(refusal) => return Err(refusal),
    }
    match inner_sizes(alloc, names, scope, pos, rest, &mut lengths) {
        Ok(()) => Ok(Sizes {
            unknown: first.is_none(),
            lengths,
        }),
        Err(refusal) => Err(refusal),
    }
}
