//! The types of objects (6.7.6.2).
#![tactic(auto, using(typing_expressions::proofs::Verdicts::tells_then, crate::proofs::Verdicts::told))]

ghost use Rattle.std.specs.Prelude.{◌≡◌, ◌≤◌, map, IfErr, IfOk, OnOk};
ghost use Rattle.std.specs.List.{All};
ghost use Rattle.srcset.specs.declared.refusal.Refusal.TheVariants.{Memory};
ghost use Rattle.tree.specs.View.{option_tree};
ghost use Rattle.typed_ast.specs.View.{object_type_of, declared_type_of};
ghost use Rattle.typing_spec.specs.Verdict.{fine};
ghost use Rattle.typing_spec.specs.Scope as scope_typed;
ghost use Rattle.typing_spec.specs.Expressions as expression_typed;
ghost use Rattle.typing_spec.specs.Declarators as typed;
ghost use Rattle.typing_expressions.specs.Refused.{Tells};
ghost use Rattle.const_expr.specs.Typings.{base_type_of};
ghost use Rattle.typing_scopes.specs.Scopes.{with_texts};
ghost use Rattle.decls_declarators.specs.Views.{sizes_of, Positive};

use crate::sizes::{Sizes, sizes_in};
use const_expr::{BaseType, bytes_in};
use ctypes::IntType;
use srcset::{Code, Names, Pos, Refusal};
use std::alloc::Global;
use tree::Expr;
use typed_ast::{DeclaredType, ObjectType};
use typing_expressions::{OBJECT_LIMIT, broken};
use typing_scopes::Scope;

/// The lengths of an object within the limit.
fn narrowed(alloc: Global, lengths: &[u64]) -> Result<Vec<u32>, Refusal>
    requires { All (λ n. n ≤ 1048576) lengths.now }
    ensures ok { IfOk result (λ ns. ns.items ≡ lengths.now) }
    ensures err { IfErr result (λ r. r ≡ Memory) }
{
    let mut narrow = Vec::new(alloc);
    for length in lengths {
        match narrow.push(*length as u32) {
            Ok(()) => {}
            Err(_) => return Err(Refusal::Memory),
        }
    }
    Ok(narrow)
}

/// An object of these lengths, within the limit.
pub(crate) fn object_within(
    alloc: Global,
    pos: Pos,
    element: IntType,
    constant: bool,
    lengths: &[u64],
) -> Result<ObjectType, Refusal>
    requires { Positive lengths.now }
    ensures ok { IfOk result (λ t. object_type_of t ≡ typed.object_type element constant lengths.now) }
    ensures fits { OnOk result (expression_typed.too_large pos (typed.object_type element constant lengths.now) ≡ fine tt) }
    ensures err { IfErr result (λ r. Tells r (expression_typed.too_large pos (typed.object_type element constant lengths.now))) }
{
    if bytes_in(element, lengths) > OBJECT_LIMIT {
        return Err(broken(Code::ObjectSizeLimit, pos));
    }
    match narrowed(alloc, lengths) {
        Ok(lengths) => Ok(ObjectType {
            element,
            constant,
            lengths,
        }),
        Err(refusal) => Err(refusal),
    }
}

/// A number, or an array whose outermost size may be unknown.
fn of_sizes(
    alloc: Global,
    pos: Pos,
    element: IntType,
    constant: bool,
    sizes: &Sizes,
) -> Result<DeclaredType, Refusal>
    requires { Positive sizes.now.lengths.items }
    ensures ok { IfOk result (λ t. typed.of_sizes pos element constant (sizes_of sizes.now) ≡ fine (declared_type_of t)) }
    ensures err { IfErr result (λ r. Tells r (typed.of_sizes pos element constant (sizes_of sizes.now))) }
{
    if sizes.unknown {
        return match object_within(alloc, pos, element, constant, &sizes.lengths) {
            Ok(object) => Ok(DeclaredType::UnknownSize(object)),
            Err(refusal) => Err(refusal),
        };
    }
    if sizes.lengths.is_empty() {
        return Ok(DeclaredType::Complete(ObjectType {
            element,
            constant,
            lengths: Vec::new(alloc),
        }));
    }
    match object_within(alloc, pos, element, constant, &sizes.lengths) {
        Ok(object) => Ok(DeclaredType::Complete(object)),
        Err(refusal) => Err(refusal),
    }
}

/// No object and no array is `void`, which is incomplete for good (6.2.5p19).
fn void_object(pos: Pos, sizes: &Sizes) -> Refusal
    ensures { Tells result (typed.void_object pos (sizes_of sizes.now)) }
{
    if sizes.unknown {
        return broken(Code::BadArrayType, pos);
    }
    if sizes.lengths.is_empty() {
        return broken(Code::IncompleteObject, pos);
    }
    broken(Code::BadArrayType, pos)
}

fn with_base(
    alloc: Global,
    pos: Pos,
    base: BaseType,
    sizes: &Sizes,
) -> Result<DeclaredType, Refusal>
    requires { Positive sizes.now.lengths.items }
    ensures ok { IfOk result (λ t. typed.with_base pos base.named base.constant (sizes_of sizes.now) ≡ fine (declared_type_of t)) }
    ensures err { IfErr result (λ r. Tells r (typed.with_base pos base.named base.constant (sizes_of sizes.now))) }
{
    match base.named {
        None => Err(void_object(pos, sizes)),
        Some(element) => of_sizes(alloc, pos, element, base.constant, sizes),
    }
}

/// The type of an object's declarator; the literals of its sizes are appended to those of the scope.
///
/// Fails
/// - with 519 where the object is `void`;
/// - with 518 where a size is no constant greater than zero, or an inner one is left out, or the elements are `void`;
/// - with 712 where the object has more than 1,048,576 bytes, an array of unknown size where its elements have;
/// - with the constraint that a size breaks, and with 801 where memory runs out.
pub fn declared_type(
    alloc: Global,
    names: &Names,
    scope: &mut Scope,
    pos: Pos,
    base: BaseType,
    sizes: &[Option<Expr>],
) -> Result<DeclaredType, Refusal>
    ensures ok { IfOk result (λ t. typed.declared_type (with_texts names.now scope.old) pos (base_type_of base) (map option_tree sizes.now) ≡ fine (declared_type_of t)) }
    ensures scope { OnOk result (scope.new ≡ scope_typed.with_literals scope.old (typed.strings_in_sizes (map option_tree sizes.now))) }
    ensures err { IfErr result (λ r. Tells r (typed.declared_type (with_texts names.now scope.old) pos (base_type_of base) (map option_tree sizes.now))) }
{
    match sizes_in(alloc, names, scope, pos, sizes) {
        Ok(sizes) => with_base(alloc, pos, base, &sizes),
        Err(refusal) => Err(refusal),
    }
}
