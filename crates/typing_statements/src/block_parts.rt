//! The parts of blocks that need no recursion (6.8.2).
#![tactic(auto, using(crate::proofs::BlockRules::declared_fine, crate::proofs::BlockRules::declared_tells))]

ghost use Rattle.std.specs.Prelude.{◌≡◌, ◌-◌, ◌++◌, List, [], Option, length, IfErr, IfOk, OnOk};
ghost use Rattle.srcset.specs.declared.refusal.Refusal.TheVariants.{Memory};
ghost use Rattle.ctypes.specs.declared.types.IntType.{IntType};
ghost use Rattle.typed_ast.specs.declared.statements.Statement.{Statement};
ghost use Rattle.tree.specs.Tree as tree;
ghost use Rattle.tree.specs.View.{declaration_of};
ghost use Rattle.typing_spec.specs.Verdict.{then_check};
ghost use Rattle.typing_spec.specs.Statements as typed;
ghost use Rattle.typing_expressions.specs.Refused.{Tells};
ghost use Rattle.typing_scopes.specs.Scopes.{with_texts};
ghost use Rattle.typing_units.specs.declared.first_values.Initial.{Initial};
ghost use Rattle.typing_statements.specs.inside.Pieces.{put_before};

use srcset::{Names, Refusal};
use std::alloc::Global;
use tree::Declaration;
use typed_ast::Statement;
use typing_declarations::declaration_typed;
use typing_scopes::Scope;
use typing_units::Initial;

/// How many objects the present function has after the first `first` ones.
pub(crate) fn objects_since(scope: &Scope, first: usize) -> usize
    ensures { result ≡ length scope.now.objects - first }
{
    scope.object_count().saturating_sub(first)
}

#[inline(never)]
pub(crate) fn boxed(alloc: Global, statement: Statement) -> Result<Box<Statement>, Refusal>
    ensures ok { IfOk result (λ b. b.value ≡ statement) }
    ensures err { IfErr result (λ r. r ≡ Memory) }
{
    match Box::new(alloc, statement) {
        Ok(statement) => Ok(statement),
        Err(_) => Err(Refusal::Memory),
    }
}

/// A declaration among the items of a block.
#[inline(never)]
pub(crate) fn declaration_item(
    alloc: Global,
    names: &Names,
    scope: &mut Scope,
    initial: &mut Vec<Initial>,
    all: &mut Vec<Statement>,
    declaration: &Declaration,
) -> Result<(), Refusal>
    ensures ok { (around : typed.Around) (direct : Option IntType) → OnOk result ((js : List Initial) × (xs : List Statement) × (initial.new.items ≡ initial.old.items ++ js) × (all.new.items ≡ all.old.items ++ xs) × ((ps : tree.Pieces) → typed.pieces around direct (with_texts names.now scope.old) (tree.and_piece (tree.declaration_item (declaration_of declaration.now)) ps) ≡ then_check (typed.pieces around direct (with_texts names.now scope.new) ps) (put_before [] js xs))) }
    ensures err { (around : typed.Around) (direct : Option IntType) → IfErr result (λ r. (ps : tree.Pieces) → Tells r (typed.pieces around direct (with_texts names.now scope.old) (tree.and_piece (tree.declaration_item (declaration_of declaration.now)) ps))) }
{
    match declaration_typed(alloc, names, scope, all, initial, declaration) {
        Ok(()) => Ok(()),
        Err(refusal) => Err(refusal),
    }
}
