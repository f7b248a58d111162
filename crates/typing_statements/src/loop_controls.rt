//! The controlling parts of a `for` (6.8.5.3).
#![tactic(auto, using(decls_declarators::proofs::Verdicts::told))]

ghost use Rattle.std.specs.Prelude.{◌≡◌, ◌++◌, List, map, IfErr, IfOk};
ghost use Rattle.srcset.specs.declared.refusal.Refusal.TheVariants.{Memory};
ghost use Rattle.typed_ast.specs.declared.statements.Statement.{Statement};
ghost use Rattle.typed_ast.specs.View.{option_value, statement_of, statements_of};
ghost use Rattle.typing_spec.specs.Program as program;
ghost use Rattle.tree.specs.View as tree_view;
ghost use Rattle.tree.specs.View.{option_tree};
ghost use Rattle.typing_spec.specs.Verdict.{fine, both};
ghost use Rattle.typing_spec.specs.Statements as typed;
ghost use Rattle.typing_expressions.specs.Refused.{Tells};
ghost use Rattle.typing_scopes.specs.Scopes.{with_texts};
ghost use Rattle.typing_units.specs.declared.first_values.Initial.{Initial};
ghost use Rattle.typing_statements.specs.Views.{start_of};
ghost use Rattle.typing_statements.specs.inside.Controls.{control_of};

use crate::controls::{effect_in, test_in};
use crate::loop_declarations::fit_for_loop;
use srcset::{Names, Pos, Refusal};
use std::alloc::Global;
use tree::{Expr, ForStart};
use typed_ast::{ForControl, Statement, Value};
use typing_declarations::declaration_typed;
use typing_scopes::Scope;
use typing_units::Initial;

/// The test and the step of a `for`.
#[derive(Drop)]
pub(crate) struct Control {
    pub(crate) test: Option<Value>,
    pub(crate) step: Option<Value>,
}

/// The test and the step, whose literals are appended to the scope's.
#[inline(never)]
pub(crate) fn controlled(
    alloc: Global,
    names: &Names,
    scope: &mut Scope,
    pos: Pos,
    test: &Option<Expr>,
    step: &Option<Expr>,
) -> Result<Control, Refusal>
    ensures ok { IfOk result (λ c. (both (typed.test_in (with_texts names.now scope.old) pos (option_tree test.now)) (typed.effect_in (typed.past_option (with_texts names.now scope.old) (option_tree test.now)) (option_tree step.now)) typed.control ≡ fine (control_of c)) × (scope.new ≡ typed.past_option (typed.past_option scope.old (option_tree test.now)) (option_tree step.now))) }
    ensures err { IfErr result (λ r. Tells r (both (typed.test_in (with_texts names.now scope.old) pos (option_tree test.now)) (typed.effect_in (typed.past_option (with_texts names.now scope.old) (option_tree test.now)) (option_tree step.now)) typed.control)) }
{
    let test = match test_in(alloc, names, scope, pos, test) {
        Ok(test) => test,
        Err(refusal) => return Err(refusal),
    };
    match effect_in(alloc, names, scope, step) {
        Ok(step) => Ok(Control { test, step }),
        Err(refusal) => Err(refusal),
    }
}

/// The first part: its declarations are appended to the statements and first values; its expression is returned.
#[inline(never)]
pub(crate) fn started(
    alloc: Global,
    names: &Names,
    scope: &mut Scope,
    declared: &mut Vec<Statement>,
    initial: &mut Vec<Initial>,
    start: &ForStart,
) -> Result<Option<Value>, Refusal>
    ensures ok { IfOk result (λ v. (xs : List Statement) × (js : List Initial) × (declared.new.items ≡ declared.old.items ++ xs) × (initial.new.items ≡ initial.old.items ++ js) × (typed.started (with_texts names.now scope.old) (tree_view.start_of start.now) ≡ fine (start_of (with_texts names.now scope.new) xs js v))) }
    ensures err { IfErr result (λ r. Tells r (typed.started (with_texts names.now scope.old) (tree_view.start_of start.now))) }
{
    match start {
        ForStart::Expression(e) => match effect_in(alloc, names, scope, e) {
            Ok(value) => Ok(value),
            Err(refusal) => Err(refusal),
        },
        ForStart::Declaration(declaration) => {
            match fit_for_loop(declaration) {
                Ok(()) => {}
                Err(refusal) => return Err(refusal),
            }
            match declaration_typed(alloc, names, scope, declared, initial, declaration) {
                Ok(()) => Ok(None),
                Err(refusal) => Err(refusal),
            }
        }
    }
}

/// A `for` of its parts. Fails where memory runs out.
#[inline(never)]
pub(crate) fn for_statement(
    alloc: Global,
    pos: Pos,
    declared: Vec<Statement>,
    start: Option<Value>,
    control: Control,
    a: Box<Statement>,
) -> Result<Statement, Refusal>
    ensures ok { IfOk result (λ x. statement_of x ≡ program.for (statements_of (map statement_of declared.items)) (option_value start) (option_value control.test) (option_value control.step) (statement_of a.value)) }
    ensures err { IfErr result (λ r. r ≡ Memory) }
{
    let Control { test, step } = control;
    let control = Box::new(alloc, ForControl { start, test, step })?;
    Ok(Statement::For(pos, declared, control, a))
}
