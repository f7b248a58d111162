//! The labels of a switch (6.8.1, 6.8.4.2).
#![tactic(auto, using(decls_declarators::proofs::Verdicts::told))]

ghost use Rattle.std.specs.Prelude.{◌≡◌, ◌++◌, ◌∷◌, [], map, IfErr, IfOk, OnOk};
ghost use Rattle.ctypes.specs.declared.types.IntType.{IntType};
ghost use Rattle.tree.specs.View.{tree_of};
ghost use Rattle.typing_spec.specs.Verdict.{fine};
ghost use Rattle.typing_spec.specs.Scope as scope_typed;
ghost use Rattle.typing_spec.specs.Statements as typed;
ghost use Rattle.typing_expressions.specs.Refused.{IsOf, Tells};
ghost use Rattle.typing_scopes.specs.Scopes.{with_texts};
ghost use Rattle.srcset.specs.declared.refusal.Refusal.TheVariants.{Memory};
ghost use Rattle.typing_statements.specs.Views.{around_of, label_of};
ghost use Rattle.typing_statements.specs.inside.Pieces.{label_statement};

use crate::surroundings::Around;
use const_expr::constant_value;
use ctypes::{IntType, convert};
use decls_declarators::past;
use indexmap::IndexSet;
use srcset::{Code, Names, Pos, Refusal};
use std::alloc::Global;
use tree::Expr;
use typed_ast::Statement;
use typing_expressions::broken;
use typing_scopes::Scope;

/// A label of a switch, of no value for `default`, and its place.
#[derive(Clone, Copy)]
pub struct Label {
    pub pos: Pos,
    pub value: Option<i64>,
}

/// No two cases have one value, and no two labels are `default` (6.8.4.2p3). Else reports 540 at the second of two.
#[inline(never)]
pub(crate) fn no_label_twice(alloc: Global, labels: &[Label]) -> Result<(), Refusal>
    ensures ok { OnOk result (typed.no_label_twice [] (map label_of labels.now) ≡ fine tt) }
    ensures err { IfErr result (λ r. Tells r (typed.no_label_twice [] (map label_of labels.now))) }
{
    let mut values = IndexSet::new(alloc);
    for label in labels {
        match values.insert_full(label.value) {
            Ok((_, true)) => {}
            Ok((_, false)) => return Err(broken(Code::LabelTwice, label.pos)),
            Err(_) => return Err(Refusal::Memory),
        }
    }
    Ok(())
}

/// The value of a case, converted to the promoted type of its switch (6.8.4.2p5).
#[inline(never)]
pub(crate) fn case_value(
    alloc: Global,
    names: &Names,
    scope: &Scope,
    ty: IntType,
    e: &Expr,
) -> Result<i64, Refusal>
    ensures ok { IfOk result (λ v. typed.case_value (with_texts names.now scope.now) ty (tree_of e.now) ≡ fine v) }
    ensures err { IfErr result (λ r. Tells r (typed.case_value (with_texts names.now scope.now) ty (tree_of e.now))) }
{
    match constant_value(alloc, names, scope, e) {
        Ok(constant) => Ok(convert(ty, constant.value)),
        Err(refusal) => Err(refusal),
    }
}

/// A label that is not directly in the block of a switch: 623 in a switch, 541 elsewhere (6.8.1p2).
#[inline(never)]
pub(crate) fn misplaced(around: Around, pos: Pos) -> Refusal
    ensures { IsOf result (typed.misplaced (around_of around) pos) }
{
    if around.in_switch {
        return broken(Code::LeftOutLabel, pos);
    }
    broken(Code::LabelOutsideSwitch, pos)
}

/// A label as a statement, which precedes the statement that it labels.
fn label_statement(label: &Label) -> Statement
    ensures { result ≡ label_statement label.now }
{
    match label.value {
        None => Statement::Default(label.pos),
        Some(value) => Statement::Case(label.pos, value),
    }
}

/// Appends the labels of a statement to those of its block, and these labels and the statement to the block's statements.
#[inline(never)]
pub(crate) fn push_labelled(
    labels: &mut Vec<Label>,
    all: &mut Vec<Statement>,
    own: &[Label],
    statement: Statement,
) -> Result<(), Refusal>
    ensures ok { OnOk result ((labels.new.items ≡ labels.old.items ++ own.now) × (all.new.items ≡ all.old.items ++ (map label_statement own.now ++ statement ∷ []))) }
    ensures err { IfErr result (λ r. r ≡ Memory) }
{
    for label in own {
        let Ok(()) = labels.push(*label) else {
            return Err(Refusal::Memory);
        };
        let Ok(()) = all.push(label_statement(label)) else {
            return Err(Refusal::Memory);
        };
    }
    match all.push(statement) {
        Ok(()) => Ok(()),
        Err(_) => Err(Refusal::Memory),
    }
}

/// The value of a case, whose literals are appended to the scope's.
#[inline(never)]
pub(crate) fn case_past(
    alloc: Global,
    names: &Names,
    scope: &mut Scope,
    ty: IntType,
    e: &Expr,
) -> Result<i64, Refusal>
    ensures ok { IfOk result (λ v. (typed.case_value (with_texts names.now scope.old) ty (tree_of e.now) ≡ fine v) × (scope.new ≡ scope_typed.past scope.old (tree_of e.now))) }
    ensures err { IfErr result (λ r. Tells r (typed.case_value (with_texts names.now scope.old) ty (tree_of e.now))) }
{
    let value = match case_value(alloc, names, scope, ty, e) {
        Ok(value) => value,
        Err(refusal) => return Err(refusal),
    };
    match past(scope, e) {
        Ok(()) => Ok(value),
        Err(_) => Err(Refusal::Memory),
    }
}
