//! The types of expressions (6.5), by the rules of their forms, and of the names of types (6.7.7).
#![tactic(auto, using(typing_expressions::proofs::Verdicts::tells_then, crate::proofs::Parts::joined, crate::proofs::Parts::joined_tells))]

ghost use Rattle.std.specs.Prelude.{◌≡◌, ◌+◌, ◌++◌, length, map, IfErr, IfOk, OnOk};
ghost use Rattle.typed_ast.specs.View.{parameter_type_of};
ghost use Rattle.tree.specs.Tree.{call, subscript, after, before, prefix, size_of, size_of_type, cast, binary, conditional, assign};
ghost use Rattle.tree.specs.View.{tree_of, trees_of, type_of};
ghost use Rattle.typing_spec.specs.Verdict.{fine};
ghost use Rattle.typing_spec.specs.Scope.{strings, strings_in, strings_of_type};
ghost use Rattle.typing_expressions.specs.Refused.{Tells};
ghost use Rattle.typing_expressions.specs.Forms.{checked_of};
ghost use Rattle.const_expr.specs.Typings.{option_named};
ghost use Rattle.typing_expressions.specs.Numbered.{typing_at, operands_at, arguments_at, named_at, size_at, lengths_at};
ghost use Rattle.const_expr.specs.Operands.{operands_of};
ghost use Rattle.const_expr.specs.Given.{given_for};

use crate::calls::called_with;
use crate::casts::cast_to;
use crate::constant_forms::constant_form;
use crate::constants::{size_in, source_constant};
use crate::measures::{measured, type_measured};
use crate::specifiers::base_type;
use crate::type_names::{NamedType, type_of};
use srcset::{Code, Names, Pos, Refusal};
use std::alloc::Global;
use tree::{AssignOp, BinaryOp, Expr, PrefixOp, StepOp, TypeName};
use typed_ast::{Moment, ParameterType};
use typing_expressions::{
    Checked, LiteralCount, assigned, broken, chosen, function_named, named, next_literal, operated,
    signed, stepped, subscripted, valued,
};
use typing_scopes::Scope;

/// Two operands.
#[derive(Drop)]
pub(crate) struct Operands<'s> {
    pub(crate) first: Checked<'s>,
    pub(crate) second: Checked<'s>,
}

/// Two operands, the first before the second.
#[cycle(typing)]
#[inline(never)]
fn two_operands<'s>(
    alloc: Global,
    names: &Names,
    scope: &'s Scope,
    literals: &mut LiteralCount,
    a: &Expr,
    b: &Expr,
) -> Result<Operands<'s>, Refusal>
    ensures ok { IfOk result (λ x. operands_at names.now literals.old scope.now (tree_of a.now) (tree_of b.now) ≡ fine (operands_of x)) }
    ensures err { IfErr result (λ r. Tells r (operands_at names.now literals.old scope.now (tree_of a.now) (tree_of b.now))) }
    ensures count { OnOk result (literals.new ≡ literals.old + length (strings (tree_of a.now) ++ strings (tree_of b.now))) }
{
    let first = match expression(alloc, names, scope, literals, a) {
        Ok(first) => first,
        Err(refusal) => return Err(refusal),
    };
    match expression(alloc, names, scope, literals, b) {
        Ok(second) => Ok(Operands { first, second }),
        Err(refusal) => Err(refusal),
    }
}

/// A size in the name of a type: a constant expression (6.7.6.2p1).
#[cycle(typing)]
#[inline(never)]
fn size(
    alloc: Global,
    names: &Names,
    scope: &Scope,
    literals: &mut LiteralCount,
    pos: Pos,
    e: &Expr,
) -> Result<u64, Refusal>
    ensures ok { IfOk result (λ n. size_at names.now literals.old scope.now pos (tree_of e.now) ≡ fine n) }
    ensures err { IfErr result (λ r. Tells r (size_at names.now literals.old scope.now pos (tree_of e.now))) }
    ensures count { OnOk result (literals.new ≡ literals.old + length (strings (tree_of e.now))) }
{
    match constant_form(scope, e) {
        Ok(()) => {}
        Err(refusal) => return Err(refusal),
    }
    match expression(alloc, names, scope, literals, e) {
        Ok(x) => size_in(alloc, pos, x),
        Err(refusal) => Err(refusal),
    }
}

/// The sizes in the name of a type.
#[cycle(typing)]
#[inline(never)]
fn sizes(
    alloc: Global,
    names: &Names,
    scope: &Scope,
    literals: &mut LiteralCount,
    pos: Pos,
    es: &[Expr],
) -> Result<Vec<u64>, Refusal>
    ensures ok { IfOk result (λ all. lengths_at names.now literals.old scope.now pos (trees_of (map tree_of es.now)) ≡ fine all.items) }
    ensures err { IfErr result (λ r. Tells r (lengths_at names.now literals.old scope.now pos (trees_of (map tree_of es.now)))) }
    ensures count { OnOk result (literals.new ≡ literals.old + length (strings_in (trees_of (map tree_of es.now)))) }
{
    let mut all = Vec::new(alloc);
    for e in es {
        let n = match size(alloc, names, scope, literals, pos, e) {
            Ok(n) => n,
            Err(refusal) => return Err(refusal),
        };
        let Ok(()) = all.push(n) else {
            return Err(Refusal::Memory);
        };
    }
    Ok(all)
}

/// The type that is named (6.7.7), none for `void`.
#[cycle(typing)]
#[inline(never)]
fn type_named(
    alloc: Global,
    names: &Names,
    scope: &Scope,
    literals: &mut LiteralCount,
    name: &TypeName,
) -> Result<Option<NamedType>, Refusal>
    ensures ok { IfOk result (λ n. named_at names.now literals.old scope.now (type_of name.now) ≡ fine (option_named n)) }
    ensures err { IfErr result (λ r. Tells r (named_at names.now literals.old scope.now (type_of name.now))) }
    ensures count { OnOk result (literals.new ≡ literals.old + length (strings_of_type (type_of name.now))) }
{
    let pos = name.specifiers.pos;
    let base = match base_type(scope, &name.specifiers) {
        Ok(base) => base,
        Err(refusal) => return Err(refusal),
    };
    match sizes(alloc, names, scope, literals, pos, &name.sizes) {
        Ok(lengths) => type_of(pos, base, lengths),
        Err(refusal) => Err(refusal),
    }
}

/// A cast (6.5.4).
#[cycle(typing)]
#[inline(never)]
fn cast_typed<'s>(
    alloc: Global,
    names: &Names,
    scope: &'s Scope,
    literals: &mut LiteralCount,
    pos: Pos,
    name: &TypeName,
    a: &Expr,
) -> Result<Checked<'s>, Refusal>
    ensures ok { IfOk result (λ c. typing_at names.now literals.old scope.now (cast pos (type_of name.now) (tree_of a.now)) ≡ fine (checked_of c)) }
    ensures err { IfErr result (λ r. Tells r (typing_at names.now literals.old scope.now (cast pos (type_of name.now) (tree_of a.now)))) }
    ensures count { OnOk result (literals.new ≡ literals.old + length (strings_of_type (type_of name.now) ++ strings (tree_of a.now))) }
{
    let named = match type_named(alloc, names, scope, literals, name) {
        Ok(named) => named,
        Err(refusal) => return Err(refusal),
    };
    match expression(alloc, names, scope, literals, a) {
        Ok(a) => cast_to(alloc, pos, named, a),
        Err(refusal) => Err(refusal),
    }
}

/// `?:` (6.5.15).
#[cycle(typing)]
#[inline(never)]
fn conditional_typed<'s>(
    alloc: Global,
    names: &Names,
    scope: &'s Scope,
    literals: &mut LiteralCount,
    pos: Pos,
    test: &Expr,
    a: &Expr,
    b: &Expr,
) -> Result<Checked<'s>, Refusal>
    ensures ok { IfOk result (λ c. typing_at names.now literals.old scope.now (conditional pos (tree_of test.now) (tree_of a.now) (tree_of b.now)) ≡ fine (checked_of c)) }
    ensures err { IfErr result (λ r. Tells r (typing_at names.now literals.old scope.now (conditional pos (tree_of test.now) (tree_of a.now) (tree_of b.now)))) }
    ensures count { OnOk result (literals.new ≡ literals.old + length (strings (tree_of test.now) ++ strings (tree_of a.now) ++ strings (tree_of b.now))) }
{
    let test = match expression(alloc, names, scope, literals, test) {
        Ok(test) => test,
        Err(refusal) => return Err(refusal),
    };
    let test = match valued(alloc, Code::VoidOperand, pos, test) {
        Ok(test) => test,
        Err(refusal) => return Err(refusal),
    };
    match two_operands(alloc, names, scope, literals, a, b) {
        Ok(x) => chosen(alloc, pos, test, x.first, x.second),
        Err(refusal) => Err(refusal),
    }
}

/// The arguments of a call, no more than its function has parameters (6.5.2.2p2).
#[cycle(typing)]
#[inline(never)]
fn arguments<'s>(
    alloc: Global,
    names: &Names,
    scope: &'s Scope,
    literals: &mut LiteralCount,
    pos: Pos,
    parameters: &[ParameterType],
    es: &[Expr],
) -> Result<Vec<Checked<'s>>, Refusal>
    ensures ok { IfOk result (λ all. arguments_at names.now literals.old scope.now pos (map parameter_type_of parameters.now) (trees_of (map tree_of es.now)) ≡ given_for pos (map parameter_type_of parameters.now) (map checked_of all.items)) }
    ensures err { IfErr result (λ r. Tells r (arguments_at names.now literals.old scope.now pos (map parameter_type_of parameters.now) (trees_of (map tree_of es.now)))) }
    ensures count { OnOk result (literals.new ≡ literals.old + length (strings_in (trees_of (map tree_of es.now)))) }
{
    let mut all = Vec::new(alloc);
    for e in es {
        if all.len() == parameters.len() {
            return Err(broken(Code::ArgumentCount, pos));
        }
        let x = match expression(alloc, names, scope, literals, e) {
            Ok(x) => x,
            Err(refusal) => return Err(refusal),
        };
        let Ok(()) = all.push(x) else {
            return Err(Refusal::Memory);
        };
    }
    Ok(all)
}

/// A call (6.5.2.2).
#[cycle(typing)]
#[inline(never)]
fn call_typed<'s>(
    alloc: Global,
    names: &Names,
    scope: &'s Scope,
    literals: &mut LiteralCount,
    pos: Pos,
    name: usize,
    es: &[Expr],
) -> Result<Checked<'s>, Refusal>
    ensures ok { IfOk result (λ c. typing_at names.now literals.old scope.now (call pos name (trees_of (map tree_of es.now))) ≡ fine (checked_of c)) }
    ensures err { IfErr result (λ r. Tells r (typing_at names.now literals.old scope.now (call pos name (trees_of (map tree_of es.now))))) }
    ensures count { OnOk result (literals.new ≡ literals.old + length (strings_in (trees_of (map tree_of es.now)))) }
{
    let called = match function_named(names, scope, pos, name, scope.lookup(name)) {
        Ok(called) => called,
        Err(refusal) => return Err(refusal),
    };
    let parameters = called.function.parameters.as_slice();
    match arguments(alloc, names, scope, literals, pos, parameters, es) {
        Ok(xs) => called_with(alloc, pos, called, xs),
        Err(refusal) => Err(refusal),
    }
}

/// An element of an array (6.5.2.1).
#[cycle(typing)]
#[inline(never)]
fn subscript_typed<'s>(
    alloc: Global,
    names: &Names,
    scope: &'s Scope,
    literals: &mut LiteralCount,
    pos: Pos,
    a: &Expr,
    b: &Expr,
) -> Result<Checked<'s>, Refusal>
    ensures ok { IfOk result (λ c. typing_at names.now literals.old scope.now (subscript pos (tree_of a.now) (tree_of b.now)) ≡ fine (checked_of c)) }
    ensures err { IfErr result (λ r. Tells r (typing_at names.now literals.old scope.now (subscript pos (tree_of a.now) (tree_of b.now)))) }
    ensures count { OnOk result (literals.new ≡ literals.old + length (strings (tree_of a.now) ++ strings (tree_of b.now))) }
{
    match two_operands(alloc, names, scope, literals, a, b) {
        Ok(x) => subscripted(alloc, pos, x.first, x.second),
        Err(refusal) => Err(refusal),
    }
}

/// `++` and `--` after an operand (6.5.2.4).
#[cycle(typing)]
#[inline(never)]
fn after_typed<'s>(
    alloc: Global,
    names: &Names,
    scope: &'s Scope,
    literals: &mut LiteralCount,
    pos: Pos,
    op: StepOp,
    a: &Expr,
) -> Result<Checked<'s>, Refusal>
    ensures ok { IfOk result (λ c. typing_at names.now literals.old scope.now (after pos op (tree_of a.now)) ≡ fine (checked_of c)) }
    ensures err { IfErr result (λ r. Tells r (typing_at names.now literals.old scope.now (after pos op (tree_of a.now)))) }
    ensures count { OnOk result (literals.new ≡ literals.old + length (strings (tree_of a.now))) }
{
    match expression(alloc, names, scope, literals, a) {
        Ok(a) => stepped(alloc, pos, Moment::After, op, a),
        Err(refusal) => Err(refusal),
    }
}

/// `++` and `--` before an operand (6.5.3.1).
#[cycle(typing)]
#[inline(never)]
fn before_typed<'s>(
    alloc: Global,
    names: &Names,
    scope: &'s Scope,
    literals: &mut LiteralCount,
    pos: Pos,
    op: StepOp,
    a: &Expr,
) -> Result<Checked<'s>, Refusal>
    ensures ok { IfOk result (λ c. typing_at names.now literals.old scope.now (before pos op (tree_of a.now)) ≡ fine (checked_of c)) }
    ensures err { IfErr result (λ r. Tells r (typing_at names.now literals.old scope.now (before pos op (tree_of a.now)))) }
    ensures count { OnOk result (literals.new ≡ literals.old + length (strings (tree_of a.now))) }
{
    match expression(alloc, names, scope, literals, a) {
        Ok(a) => stepped(alloc, pos, Moment::Before, op, a),
        Err(refusal) => Err(refusal),
    }
}

/// `+`, `-`, `~` and `!` before an operand (6.5.3.3).
#[cycle(typing)]
#[inline(never)]
fn prefix_typed<'s>(
    alloc: Global,
    names: &Names,
    scope: &'s Scope,
    literals: &mut LiteralCount,
    pos: Pos,
    op: PrefixOp,
    a: &Expr,
) -> Result<Checked<'s>, Refusal>
    ensures ok { IfOk result (λ c. typing_at names.now literals.old scope.now (prefix pos op (tree_of a.now)) ≡ fine (checked_of c)) }
    ensures err { IfErr result (λ r. Tells r (typing_at names.now literals.old scope.now (prefix pos op (tree_of a.now)))) }
    ensures count { OnOk result (literals.new ≡ literals.old + length (strings (tree_of a.now))) }
{
    match expression(alloc, names, scope, literals, a) {
        Ok(a) => signed(alloc, pos, op, a),
        Err(refusal) => Err(refusal),
    }
}

/// `sizeof` of an expression (6.5.3.4).
#[cycle(typing)]
#[inline(never)]
fn sizeof_typed<'s>(
    alloc: Global,
    names: &Names,
    scope: &'s Scope,
    literals: &mut LiteralCount,
    pos: Pos,
    a: &Expr,
) -> Result<Checked<'s>, Refusal>
    ensures ok { IfOk result (λ c. typing_at names.now literals.old scope.now (size_of pos (tree_of a.now)) ≡ fine (checked_of c)) }
    ensures err { IfErr result (λ r. Tells r (typing_at names.now literals.old scope.now (size_of pos (tree_of a.now)))) }
    ensures count { OnOk result (literals.new ≡ literals.old + length (strings (tree_of a.now))) }
{
    match expression(alloc, names, scope, literals, a) {
        Ok(a) => measured(pos, &a),
        Err(refusal) => Err(refusal),
    }
}

/// `sizeof` of a type that is named (6.5.3.4).
#[cycle(typing)]
#[inline(never)]
fn sizeof_type_typed<'s>(
    alloc: Global,
    names: &Names,
    scope: &'s Scope,
    literals: &mut LiteralCount,
    pos: Pos,
    name: &TypeName,
) -> Result<Checked<'s>, Refusal>
    ensures ok { IfOk result (λ c. typing_at names.now literals.old scope.now (size_of_type pos (type_of name.now)) ≡ fine (checked_of c)) }
    ensures err { IfErr result (λ r. Tells r (typing_at names.now literals.old scope.now (size_of_type pos (type_of name.now)))) }
    ensures count { OnOk result (literals.new ≡ literals.old + length (strings_of_type (type_of name.now))) }
{
    match type_named(alloc, names, scope, literals, name) {
        Ok(named) => type_measured(pos, &named),
        Err(refusal) => Err(refusal),
    }
}

/// Two operands of an operator (6.5.5 to 6.5.14, 6.5.17).
#[cycle(typing)]
#[inline(never)]
fn binary_typed<'s>(
    alloc: Global,
    names: &Names,
    scope: &'s Scope,
    literals: &mut LiteralCount,
    pos: Pos,
    op: BinaryOp,
    a: &Expr,
    b: &Expr,
) -> Result<Checked<'s>, Refusal>
    ensures ok { IfOk result (λ c. typing_at names.now literals.old scope.now (binary pos op (tree_of a.now) (tree_of b.now)) ≡ fine (checked_of c)) }
    ensures err { IfErr result (λ r. Tells r (typing_at names.now literals.old scope.now (binary pos op (tree_of a.now) (tree_of b.now)))) }
    ensures count { OnOk result (literals.new ≡ literals.old + length (strings (tree_of a.now) ++ strings (tree_of b.now))) }
{
    match two_operands(alloc, names, scope, literals, a, b) {
        Ok(x) => operated(alloc, pos, op, x.first, x.second),
        Err(refusal) => Err(refusal),
    }
}

/// An assignment (6.5.16).
#[cycle(typing)]
#[inline(never)]
fn assign_typed<'s>(
    alloc: Global,
    names: &Names,
    scope: &'s Scope,
    literals: &mut LiteralCount,
    pos: Pos,
    op: AssignOp,
    a: &Expr,
    b: &Expr,
) -> Result<Checked<'s>, Refusal>
    ensures ok { IfOk result (λ c. typing_at names.now literals.old scope.now (assign pos op (tree_of a.now) (tree_of b.now)) ≡ fine (checked_of c)) }
    ensures err { IfErr result (λ r. Tells r (typing_at names.now literals.old scope.now (assign pos op (tree_of a.now) (tree_of b.now)))) }
    ensures count { OnOk result (literals.new ≡ literals.old + length (strings (tree_of a.now) ++ strings (tree_of b.now))) }
{
    match two_operands(alloc, names, scope, literals, a, b) {
        Ok(x) => assigned(alloc, pos, op, x.first, x.second),
        Err(refusal) => Err(refusal),
    }
}

/// The typed form of an expression (6.5), after a number of string literals, whose count grows by those in it. Else it fails with a constraint that the
/// expression breaks, or with 801.
///
/// Its recursion is as deep as the tree is.
#[cycle(typing)]
#[inline(never)]
pub fn expression<'s>(
    alloc: Global,
    names: &Names,
    scope: &'s Scope,
    literals: &mut LiteralCount,
    e: &Expr,
) -> Result<Checked<'s>, Refusal>
    ensures ok { IfOk result (λ c. typing_at names.now literals.old scope.now (tree_of e.now) ≡ fine (checked_of c)) }
    ensures err { IfErr result (λ r. Tells r (typing_at names.now literals.old scope.now (tree_of e.now))) }
    ensures count { OnOk result (literals.new ≡ literals.old + length (strings (tree_of e.now))) }
{
    match e {
        Expr::Name(pos, name) => named(*pos, scope.lookup(*name)),
        Expr::Constant(pos, ty, value) => Ok(source_constant(*pos, *ty, *value)),
        Expr::StringLiteral(pos, name) => next_literal(names, literals, *pos, *name),
        Expr::Paren(e) => expression(alloc, names, scope, literals, e),
        Expr::Call(pos, f, es) => call_typed(alloc, names, scope, literals, *pos, *f, es),
        Expr::Subscript(pos, a, b) => subscript_typed(alloc, names, scope, literals, *pos, a, b),
        Expr::After(pos, op, a) => after_typed(alloc, names, scope, literals, *pos, *op, a),
        Expr::Before(pos, op, a) => before_typed(alloc, names, scope, literals, *pos, *op, a),
        Expr::Prefix(pos, op, a) => prefix_typed(alloc, names, scope, literals, *pos, *op, a),
        Expr::SizeofExpr(pos, a) => sizeof_typed(alloc, names, scope, literals, *pos, a),
        Expr::SizeofType(pos, name) => {
            sizeof_type_typed(alloc, names, scope, literals, *pos, name)
        }
        Expr::Cast(pos, name, a) => cast_typed(alloc, names, scope, literals, *pos, name, a),
        Expr::Binary(pos, op, a, b) => {
            binary_typed(alloc, names, scope, literals, *pos, *op, a, b)
        }
        Expr::Conditional(pos, test, a, b) => {
            conditional_typed(alloc, names, scope, literals, *pos, test, a, b)
        }
        Expr::Assign(pos, op, a, b) => {
            assign_typed(alloc, names, scope, literals, *pos, *op, a, b)
        }
    }
}
