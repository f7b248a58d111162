//! The labels of a `switch` (6.8.4.2).

ghost use Rattle.std.specs.Prelude.{◌≡◌, ◌+◌, ◌<◌, ◌^◌, Some, ℤ, List, length, map};
ghost use Rattle.typing_spec.specs.Types as type;
ghost use Rattle.typing_spec.specs.Program as typed;
ghost use Rattle.typed_ast.specs.View.{statement_of, statements_of};
ghost use Rattle.csem.specs.Machine.{State};
ghost use Rattle.csem.specs.Statements.{labels_at, labels_of};
ghost use Rattle.interp_store.specs.layer.Steps.{from_label, sought};
ghost use Rattle.interp_steps.specs.Labels.{HasRoom, label_kind, begins_at, comes_to};

use typed_ast::Statement;

/// The kind of label that a statement is.
#[derive(Clone, Copy)]
pub enum Label {
    Case(i64),
    Default,
    None,
}

/// The result of a search for the labels of a `switch`: a case whose value is to be tested, with the statements after it, its number and that of
/// `default`, if it was passed; or the number of the label that is jumped to.
#[derive(Clone, Copy)]
pub enum Sought<'p> {
    Test(i64, &'p [Statement], usize, Option<usize>),
    Jump(Option<usize>),
}

/// The kind of label that a statement is (6.8.1).
pub fn label_of(a: &Statement) -> Label
    ensures { labels_at (statement_of a.now) ≡ label_kind result }
{
    match a {
        Statement::Case(_, v) => Label::Case(*v),
        Statement::Default(_) => Label::Default,
        Statement::Empty(_) | Statement::Evaluate(_, _) | Statement::Declare(_, _) => Label::None,
        Statement::Define(_, _, _) | Statement::Block(_, _, _, _) | Statement::If(_, _, _) =>
            Label::None,
        Statement::IfElse(_, _, _, _) | Statement::Switch(_, _, _, _, _, _) => Label::None,
        Statement::While(_, _, _) | Statement::DoWhile(_, _, _) => Label::None,
        Statement::For(_, _, _, _) | Statement::Break(_) | Statement::Continue(_) => Label::None,
        Statement::ReturnNothing(_) | Statement::ReturnValue(_, _, _) => Label::None,
    }
}

/// How many labels a statement is.
fn label_count(a: &Statement) -> usize
    ensures { result ≡ length (labels_at (statement_of a.now)) }
{
    match label_of(a) {
        Label::Case(_) => 1,
        Label::Default => 1,
        Label::None => 0,
    }
}

/// The statement that is the label of this number, and those after it.
pub fn find_label<'p>(
    label: usize,
    all: &'p [Statement],
) -> Option<(&'p Statement, &'p [Statement])>
    ensures { (objects : List type.ObjectType) (s : State) →
        from_label objects (Some label) (statements_of (map statement_of all.now)) s ≡ begins_at objects result s }
{
    let mut label = label;
    let mut rest = all;
    while let Some((a, more)) = rest.split_first() {
        let count = label_count(a);
        if label < count {
            return Some((a, more));
        }
        label -= count;
        rest = more;
    }
    None
}

/// The next case to test, the labels from number `n` on being left (6.8.4.2p5).
pub(crate) fn seek<'p>(all: &'p [Statement], n: usize, default: Option<usize>) -> Sought<'p>
    requires room { n + length all.now < 2 ^ 64 }
    ensures sought { (objects : List type.ObjectType) (v : ℤ) (whole : typed.Statements) (s : State) →
        sought objects v (labels_of (statements_of (map statement_of all.now))) n default whole s ≡ comes_to objects v whole result s }
    ensures room { HasRoom result }
{
    let mut number = n;
    let mut passed = default;
    let mut rest = all;
    while let Some((a, more)) = rest.split_first() {
        match label_of(a) {
            Label::Case(c) => return Sought::Test(c, more, number, passed),
            Label::Default => {
                passed = Some(number);
                number += 1;
            }
            Label::None => {}
        }
        rest = more;
    }
    Sought::Jump(passed)
}
