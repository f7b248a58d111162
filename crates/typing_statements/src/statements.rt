//! Statements and the items of blocks (6.8).
#![tactic(auto)]

ghost use Rattle.std.specs.Prelude.{◌≡◌, ◌++◌, List, [], Option, None, map, IfErr, IfOk, OnOk};
ghost use Rattle.ctypes.specs.declared.types.IntType.{IntType};
ghost use Rattle.typed_ast.specs.declared.statements.Statement.{Statement};
ghost use Rattle.tree.specs.Tree as tree;
ghost use Rattle.tree.specs.View as tree_view;
ghost use Rattle.tree.specs.View.{tree_of, option_tree, stmt_of, piece_of, pieces_of, declaration_of};
ghost use Rattle.srcset.specs.declared.code.Code.TheVariants as code;
ghost use Rattle.typing_spec.specs.Expressions.{typing, valued};
ghost use Rattle.typing_spec.specs.Verdict.{fine};
ghost use Rattle.typing_spec.specs.Scope as scope_typed;
ghost use Rattle.typing_spec.specs.Statements as typed;
ghost use Rattle.typing_expressions.specs.Refused.{Tells};
ghost use Rattle.typing_expressions.specs.Forms.{worth_of};
ghost use Rattle.typing_scopes.specs.Scopes.{with_texts};
ghost use Rattle.typing_statements.specs.declared.labels.Label.{Label};
ghost use Rattle.typing_units.specs.declared.first_values.Initial.{Initial};
ghost use Rattle.typing_statements.specs.Views.{around_of, done_of, all_done_of, Unlabelled, Labelled};
ghost use Rattle.typing_statements.specs.inside.Pieces.{switch_on, Inner, Puts, Scoped};

use crate::block_parts::{boxed, declaration_item, objects_since};
use crate::controls::worth_past;
use crate::labels::{Label, case_past, misplaced, no_label_twice, push_labelled};
use crate::loop_controls::{controlled, for_statement, started};
use crate::simple_statements::{break_typed, continue_typed, expression_typed, return_typed};
use crate::surroundings::Around;
use ctypes::{IntType, promote};
use srcset::{Code, Names, Pos, Refusal};
use std::alloc::Global;
use tree::{BlockItem, Expr, ForStart, Stmt};
use typed_ast::Statement;
use typing_expressions::{Worth, broken};
use typing_scopes::Scope;
use typing_units::Initial;

/// A statement that is not itself in the block of a switch.
#[cycle(statements)]
#[inline(never)]
fn inner_statement(
    alloc: Global,
    names: &Names,
    around: Around,
    s: &Stmt,
    scope: &mut Scope,
    initial: &mut Vec<Initial>,
) -> Result<Box<Statement>, Refusal>
    ensures ok { IfOk result (λ x. Inner (typed.statement (around_of around) None (with_texts names.now scope.old) (stmt_of s.now)) initial.old.items initial.new.items (with_texts names.now scope.new) x.value) }
    ensures err { IfErr result (λ r. Tells r (typed.statement (around_of around) None (with_texts names.now scope.old) (stmt_of s.now))) }
{
    let mut labels = Vec::new(alloc);
    let x = match statement(alloc, names, around, None, s, scope, &mut labels, initial) {
        Ok(x) => x,
        Err(refusal) => return Err(refusal),
    };
    match boxed(alloc, x) {
        Ok(x) => Ok(x),
        Err(_) => Err(Refusal::Memory),
    }
}

/// `if` (6.8.4.1).
#[cycle(statements)]
#[inline(never)]
fn if_typed(
    alloc: Global,
    names: &Names,
    around: Around,
    a: &Stmt,
    scope: &mut Scope,
    initial: &mut Vec<Initial>,
    pos: Pos,
    e: &Expr,
) -> Result<Statement, Refusal>
    ensures ok { (d : Option IntType) → IfOk result (λ x. Unlabelled (typed.statement (around_of around) d (with_texts names.now scope.old) (tree.if_stmt pos (tree_of e.now) (stmt_of a.now))) initial.old.items initial.new.items (with_texts names.now scope.new) x) }
    ensures err { (d : Option IntType) → IfErr result (λ r. Tells r (typed.statement (around_of around) d (with_texts names.now scope.old) (tree.if_stmt pos (tree_of e.now) (stmt_of a.now)))) }
{
    let test = match worth_past(alloc, names, scope, Code::VoidControl, pos, e) {
        Ok(test) => test,
        Err(refusal) => return Err(refusal),
    };
    match inner_statement(alloc, names, around, a, scope, initial) {
        Ok(a) => Ok(Statement::If(pos, test.value, a)),
        Err(refusal) => Err(refusal),
    }
}

/// The part before an `else`.
#[derive(Drop)]
pub(crate) struct Head {
    pub(crate) test: Worth,
    pub(crate) a: Box<Statement>,
}

/// `if` as far as its `else` (6.8.4.1).
#[cycle(statements)]
#[inline(never)]
fn if_head(
    alloc: Global,
    names: &Names,
    around: Around,
    a: &Stmt,
    scope: &mut Scope,
    initial: &mut Vec<Initial>,
    pos: Pos,
    e: &Expr,
) -> Result<Head, Refusal>
    ensures ok { IfOk result (λ h. (valued code.VoidControl pos (typing (with_texts names.now scope.old) (tree_of e.now)) ≡ fine (worth_of h.test)) × Inner (typed.statement (around_of around) None (scope_typed.past (with_texts names.now scope.old) (tree_of e.now)) (stmt_of a.now)) initial.old.items initial.new.items (with_texts names.now scope.new) h.a.value) }
    ensures err { (d : Option IntType) (b : tree.StmtTree) → IfErr result (λ r. Tells r (typed.statement (around_of around) d (with_texts names.now scope.old) (tree.if_else_stmt pos (tree_of e.now) (stmt_of a.now) b))) }
{
    let test = match worth_past(alloc, names, scope, Code::VoidControl, pos, e) {
        Ok(test) => test,
        Err(refusal) => return Err(refusal),
    };
    match inner_statement(alloc, names, around, a, scope, initial) {
        Ok(a) => Ok(Head { test, a }),
        Err(refusal) => Err(refusal),
    }
}

/// `while` (6.8.5.1).
#[cycle(statements)]
#[inline(never)]
fn while_typed(
    alloc: Global,
    names: &Names,
    around: Around,
    a: &Stmt,
    scope: &mut Scope,
    initial: &mut Vec<Initial>,
    pos: Pos,
    e: &Expr,
) -> Result<Statement, Refusal>
    ensures ok { (d : Option IntType) → IfOk result (λ x. Unlabelled (typed.statement (around_of around) d (with_texts names.now scope.old) (tree.while_stmt pos (tree_of e.now) (stmt_of a.now))) initial.old.items initial.new.items (with_texts names.now scope.new) x) }
    ensures err { (d : Option IntType) → IfErr result (λ r. Tells r (typed.statement (around_of around) d (with_texts names.now scope.old) (tree.while_stmt pos (tree_of e.now) (stmt_of a.now)))) }
{
    let test = match worth_past(alloc, names, scope, Code::VoidControl, pos, e) {
        Ok(test) => test,
        Err(refusal) => return Err(refusal),
    };
    match inner_statement(alloc, names, around.in_a_loop(), a, scope, initial) {
        Ok(a) => Ok(Statement::While(pos, test.value, a)),
        Err(refusal) => Err(refusal),
    }
}

/// `do` (6.8.5.2).
#[cycle(statements)]
#[inline(never)]
fn do_while_typed(
    alloc: Global,
    names: &Names,
    around: Around,
    a: &Stmt,
    scope: &mut Scope,
    initial: &mut Vec<Initial>,
    pos: Pos,
    e: &Expr,
) -> Result<Statement, Refusal>
    ensures ok { (d : Option IntType) → IfOk result (λ x. Unlabelled (typed.statement (around_of around) d (with_texts names.now scope.old) (tree.do_while_stmt pos (stmt_of a.now) (tree_of e.now))) initial.old.items initial.new.items (with_texts names.now scope.new) x) }
    ensures err { (d : Option IntType) → IfErr result (λ r. Tells r (typed.statement (around_of around) d (with_texts names.now scope.old) (tree.do_while_stmt pos (stmt_of a.now) (tree_of e.now)))) }
{
    let a = match inner_statement(alloc, names, around.in_a_loop(), a, scope, initial) {
        Ok(a) => a,
        Err(refusal) => return Err(refusal),
    };
    match worth_past(alloc, names, scope, Code::VoidControl, pos, e) {
        Ok(test) => Ok(Statement::DoWhile(pos, a, test.value)),
        Err(refusal) => Err(refusal),
    }
}

/// `for` (6.8.5.3).
#[cycle(statements)]
#[inline(never)]
fn for_typed(
    alloc: Global,
    names: &Names,
    around: Around,
    a: &Stmt,
    scope: &mut Scope,
    initial: &mut Vec<Initial>,
    pos: Pos,
    start: &ForStart,
    test: &Option<Expr>,
    step: &Option<Expr>,
) -> Result<Statement, Refusal>
    ensures ok { (d : Option IntType) → IfOk result (λ x. Unlabelled (typed.statement (around_of around) d (with_texts names.now scope.old) (tree.for_stmt pos (tree_view.start_of start.now) (option_tree test.now) (option_tree step.now) (stmt_of a.now))) initial.old.items initial.new.items (with_texts names.now scope.new) x) }
    ensures err { (d : Option IntType) → IfErr result (λ r. Tells r (typed.statement (around_of around) d (with_texts names.now scope.old) (tree.for_stmt pos (tree_view.start_of start.now) (option_tree test.now) (option_tree step.now) (stmt_of a.now)))) }
{
    let Ok(block) = scope.inside() else {
        return Err(Refusal::Memory);
    };
    let mut declared = Vec::new(alloc);
    let first = match started(alloc, names, scope, &mut declared, initial, start) {
        Ok(first) => first,
        Err(refusal) => return Err(refusal),
    };
    let control = match controlled(alloc, names, scope, pos, test, step) {
        Ok(control) => control,
        Err(refusal) => return Err(refusal),
    };
    let Ok(_) = scope.inside() else {
        return Err(Refusal::Memory);
    };
    let a = match inner_statement(alloc, names, around.in_a_loop(), a, scope, initial) {
        Ok(a) => a,
        Err(refusal) => return Err(refusal),
    };
    scope.outside(block);
    match for_statement(alloc, pos, declared, first, control, a) {
        Ok(done) => Ok(done),
        Err(refusal) => Err(refusal),
    }
}

/// The items of a block, whose names and tags go at its end.
#[cycle(statements)]
#[inline(never)]
fn scoped_items(
    alloc: Global,
    names: &Names,
    around: Around,
    direct: Option<IntType>,
    items: &[BlockItem],
    scope: &mut Scope,
    labels: &mut Vec<Label>,
    initial: &mut Vec<Initial>,
) -> Result<Vec<Statement>, Refusal>
    ensures ok { IfOk result (λ xs. Scoped (typed.pieces (around_of around) direct (with_texts names.now (scope_typed.inside scope.old)) (pieces_of (map piece_of items.now))) labels.old.items labels.new.items initial.old.items initial.new.items names.now scope.old scope.new xs.items) }
    ensures err { IfErr result (λ r. Tells r (typed.pieces (around_of around) direct (with_texts names.now (scope_typed.inside scope.old)) (pieces_of (map piece_of items.now)))) }
{
    let Ok(block) = scope.inside() else {
        return Err(Refusal::Memory);
    };
    let mut all = Vec::new(alloc);
    match pieces(
        alloc, names, around, direct, items, scope, labels, initial, &mut all,
    ) {
        Ok(()) => {}
        Err(refusal) => return Err(refusal),
    }
    scope.outside(block);
    Ok(all)
}

/// A block (6.8.2).
#[cycle(statements)]
#[inline(never)]
fn block_typed(
    alloc: Global,
    names: &Names,
    around: Around,
    items: &[BlockItem],
    scope: &mut Scope,
    initial: &mut Vec<Initial>,
    pos: Pos,
) -> Result<Statement, Refusal>
    ensures ok { (d : Option IntType) → IfOk result (λ x. Unlabelled (typed.statement (around_of around) d (with_texts names.now scope.old) (tree.block_stmt pos (pieces_of (map piece_of items.now)))) initial.old.items initial.new.items (with_texts names.now scope.new) x) }
    ensures err { (d : Option IntType) → IfErr result (λ r. Tells r (typed.statement (around_of around) d (with_texts names.now scope.old) (tree.block_stmt pos (pieces_of (map piece_of items.now))))) }
{
    let first = scope.object_count();
    let mut labels = Vec::new(alloc);
    match scoped_items(
        alloc,
        names,
        around,
        None,
        items,
        scope,
        &mut labels,
        initial,
    ) {
        Ok(all) => {
            let count = objects_since(scope, first);
            Ok(Statement::Block(pos, first, count, all))
        }
        Err(refusal) => Err(refusal),
    }
}

/// The block of a switch with this controlling expression.
#[cycle(statements)]
#[inline(never)]
fn switch_block(
    alloc: Global,
    names: &Names,
    around: Around,
    items: &[BlockItem],
    scope: &mut Scope,
    initial: &mut Vec<Initial>,
    pos: Pos,
    worth: Worth,
) -> Result<Statement, Refusal>
    ensures ok { IfOk result (λ x. Unlabelled (switch_on (around_of around) (worth_of worth) (with_texts names.now scope.old) (pieces_of (map piece_of items.now))) initial.old.items initial.new.items (with_texts names.now scope.new) x) }
    ensures err { IfErr result (λ r. Tells r (switch_on (around_of around) (worth_of worth) (with_texts names.now scope.old) (pieces_of (map piece_of items.now)))) }
{
    let ty = promote(worth.ty);
    let first = scope.object_count();
    let mut labels = Vec::new(alloc);
    let all = match scoped_items(
        alloc,
        names,
        around.in_a_switch(),
        Some(ty),
        items,
        scope,
        &mut labels,
        initial,
    ) {
        Ok(all) => all,
        Err(refusal) => return Err(refusal),
    };
    let count = objects_since(scope, first);
    match no_label_twice(alloc, &labels) {
        Ok(()) => Ok(Statement::Switch(pos, ty, worth.value, first, count, all)),
        Err(refusal) => Err(refusal),
    }
}

/// `switch` (6.8.4.2): in this profile its body is a block.
#[cycle(statements)]
#[inline(never)]
fn switch_typed(
    alloc: Global,
    names: &Names,
    around: Around,
    body: &Stmt,
    scope: &mut Scope,
    initial: &mut Vec<Initial>,
    pos: Pos,
    e: &Expr,
) -> Result<Statement, Refusal>
    ensures ok { (d : Option IntType) → IfOk result (λ x. Unlabelled (typed.statement (around_of around) d (with_texts names.now scope.old) (tree.switch_stmt pos (tree_of e.now) (stmt_of body.now))) initial.old.items initial.new.items (with_texts names.now scope.new) x) }
    ensures err { (d : Option IntType) → IfErr result (λ r. Tells r (typed.statement (around_of around) d (with_texts names.now scope.old) (tree.switch_stmt pos (tree_of e.now) (stmt_of body.now)))) }
{
    let worth = match worth_past(alloc, names, scope, Code::VoidControl, pos, e) {
        Ok(worth) => worth,
        Err(refusal) => return Err(refusal),
    };
    let left_out = broken(Code::LeftOutLabel, pos);
    match body {
        Stmt::Block(_, items) => switch_block(
            alloc, names, around, items, scope, initial, pos, worth,
        ),
        Stmt::Empty(_) => Err(left_out),
        Stmt::Expression(_, _) => Err(left_out),
        Stmt::If(_, _, _) => Err(left_out),
        Stmt::IfElse(_, _, _, _) => Err(left_out),
        Stmt::Switch(_, _, _) => Err(left_out),
        Stmt::Case(_, _, _) => Err(left_out),
        Stmt::Default(_, _) => Err(left_out),
        Stmt::While(_, _, _) => Err(left_out),
        Stmt::DoWhile(_, _, _) => Err(left_out),
        Stmt::For(_, _, _) => Err(left_out),
        Stmt::Break(_) => Err(left_out),
        Stmt::Continue(_) => Err(left_out),
        Stmt::Return(_, _) => Err(left_out),
    }
}

/// `case` (6.8.1).
#[cycle(statements)]
#[inline(never)]
fn case_typed(
    alloc: Global,
    names: &Names,
    around: Around,
    direct: Option<IntType>,
    a: &Stmt,
    scope: &mut Scope,
    labels: &mut Vec<Label>,
    initial: &mut Vec<Initial>,
    pos: Pos,
    e: &Expr,
) -> Result<Statement, Refusal>
    ensures ok { IfOk result (λ x. Labelled (typed.statement (around_of around) direct (with_texts names.now scope.old) (tree.case_stmt pos (tree_of e.now) (stmt_of a.now))) labels.old.items labels.new.items initial.old.items initial.new.items (with_texts names.now scope.new) x) }
    ensures err { IfErr result (λ r. Tells r (typed.statement (around_of around) direct (with_texts names.now scope.old) (tree.case_stmt pos (tree_of e.now) (stmt_of a.now)))) }
{
    let Some(ty) = direct else {
        return Err(misplaced(around, pos));
    };
    let value = match case_past(alloc, names, scope, ty, e) {
        Ok(value) => value,
        Err(refusal) => return Err(refusal),
    };
    let Ok(()) = labels.push(Label {
        pos,
        value: Some(value),
    }) else {
        return Err(Refusal::Memory);
    };
    statement(alloc, names, around, Some(ty), a, scope, labels, initial)
}

/// `default` (6.8.1).
#[cycle(statements)]
#[inline(never)]
fn default_typed(
    alloc: Global,
    names: &Names,
    around: Around,
    direct: Option<IntType>,
    a: &Stmt,
    scope: &mut Scope,
    labels: &mut Vec<Label>,
    initial: &mut Vec<Initial>,
    pos: Pos,
) -> Result<Statement, Refusal>
    ensures ok { IfOk result (λ x. Labelled (typed.statement (around_of around) direct (with_texts names.now scope.old) (tree.default_stmt pos (stmt_of a.now))) labels.old.items labels.new.items initial.old.items initial.new.items (with_texts names.now scope.new) x) }
    ensures err { IfErr result (λ r. Tells r (typed.statement (around_of around) direct (with_texts names.now scope.old) (tree.default_stmt pos (stmt_of a.now)))) }
{
    let Some(ty) = direct else {
        return Err(misplaced(around, pos));
    };
    let Ok(()) = labels.push(Label { pos, value: None }) else {
        return Err(Refusal::Memory);
    };
    statement(alloc, names, around, Some(ty), a, scope, labels, initial)
}

/// A statement, whose labels and first values are appended to those before. `direct` is the promoted type of the switch in whose block
/// it itself is.
#[cycle(statements)]
#[inline(never)]
fn statement(
    alloc: Global,
    names: &Names,
    around: Around,
    direct: Option<IntType>,
    s: &Stmt,
    scope: &mut Scope,
    labels: &mut Vec<Label>,
    initial: &mut Vec<Initial>,
) -> Result<Statement, Refusal>
    ensures ok { IfOk result (λ x. Labelled (typed.statement (around_of around) direct (with_texts names.now scope.old) (stmt_of s.now)) labels.old.items labels.new.items initial.old.items initial.new.items (with_texts names.now scope.new) x) }
    ensures err { IfErr result (λ r. Tells r (typed.statement (around_of around) direct (with_texts names.now scope.old) (stmt_of s.now))) }
{
    match s {
        Stmt::Block(pos, items) => {
            block_typed(alloc, names, around, items, scope, initial, *pos)
        }
        Stmt::Empty(pos) => Ok(Statement::Empty(*pos)),
        Stmt::Expression(pos, e) => expression_typed(alloc, names, scope, *pos, e),
        Stmt::If(pos, e, a) => if_typed(alloc, names, around, a, scope, initial, *pos, e),
        Stmt::IfElse(pos, e, a, b) => {
            let head = match if_head(alloc, names, around, a, scope, initial, *pos, e) {
                Ok(head) => head,
                Err(refusal) => return Err(refusal),
            };
            match inner_statement(alloc, names, around, b, scope, initial) {
                Ok(b) => Ok(Statement::IfElse(*pos, head.test.value, head.a, b)),
                Err(refusal) => Err(refusal),
            }
        }
        Stmt::Switch(pos, e, a) => switch_typed(alloc, names, around, a, scope, initial, *pos, e),
        Stmt::Case(pos, e, a) => {
            case_typed(
                alloc, names, around, direct, a, scope, labels, initial, *pos, e,
            )
        }
        Stmt::Default(pos, a) => {
            default_typed(
                alloc, names, around, direct, a, scope, labels, initial, *pos,
            )
        }
        Stmt::While(pos, e, a) => while_typed(alloc, names, around, a, scope, initial, *pos, e),
        Stmt::DoWhile(pos, a, e) => do_while_typed(
            alloc, names, around, a, scope, initial, *pos, e,
        ),
        Stmt::For(pos, head, a) => for_typed(
            alloc,
            names,
            around,
            a,
            scope,
            initial,
            *pos,
            &head.start,
            &head.test,
            &head.step,
        ),
        Stmt::Break(pos) => break_typed(around, *pos),
        Stmt::Continue(pos) => continue_typed(around, *pos),
        Stmt::Return(pos, e) => return_typed(alloc, names, around, scope, *pos, e),
    }
}

/// A statement among the items of a block: its labels precede it.
#[cycle(statements)]
#[inline(never)]
fn statement_item(
    alloc: Global,
    names: &Names,
    around: Around,
    direct: Option<IntType>,
    s: &Stmt,
    scope: &mut Scope,
    labels: &mut Vec<Label>,
    initial: &mut Vec<Initial>,
    all: &mut Vec<Statement>,
) -> Result<(), Refusal>
    ensures ok { OnOk result (Puts (λ ps. typed.pieces (around_of around) direct (with_texts names.now scope.old) (tree.and_piece (tree.statement_item (stmt_of s.now)) ps)) (λ ps. typed.pieces (around_of around) direct (with_texts names.now scope.new) ps) labels.old.items labels.new.items initial.old.items initial.new.items all.old.items all.new.items) }
    ensures err { IfErr result (λ r. (ps : tree.Pieces) → Tells r (typed.pieces (around_of around) direct (with_texts names.now scope.old) (tree.and_piece (tree.statement_item (stmt_of s.now)) ps))) }
{
    let mut own = Vec::new(alloc);
    let x = match statement(alloc, names, around, direct, s, scope, &mut own, initial) {
        Ok(x) => x,
        Err(refusal) => return Err(refusal),
    };
    match push_labelled(labels, all, &own, x) {
        Ok(()) => Ok(()),
        Err(_) => Err(Refusal::Memory),
    }
}

/// An item of a block.
#[cycle(statements)]
#[inline(never)]
fn piece(
    alloc: Global,
    names: &Names,
    around: Around,
    direct: Option<IntType>,
    item: &BlockItem,
    scope: &mut Scope,
    labels: &mut Vec<Label>,
    initial: &mut Vec<Initial>,
    all: &mut Vec<Statement>,
) -> Result<(), Refusal>
    ensures ok { OnOk result (Puts (λ ps. typed.pieces (around_of around) direct (with_texts names.now scope.old) (tree.and_piece (piece_of item.now) ps)) (λ ps. typed.pieces (around_of around) direct (with_texts names.now scope.new) ps) labels.old.items labels.new.items initial.old.items initial.new.items all.old.items all.new.items) }
    ensures err { IfErr result (λ r. (ps : tree.Pieces) → Tells r (typed.pieces (around_of around) direct (with_texts names.now scope.old) (tree.and_piece (piece_of item.now) ps))) }
{
    match item {
        BlockItem::Declaration(declaration) => {
            declaration_item(alloc, names, scope, initial, all, declaration)
        }
        BlockItem::Statement(s) => statement_item(
            alloc, names, around, direct, s, scope, labels, initial, all,
        ),
    }
}

/// The items of a block, each in the scope after those before it. Their statements, labels and first values are appended to those before.
///
/// Fails
/// - with 539 where a controlling expression is void, and with 540 at a label of a value that another has;
/// - with 541 at a label outside a switch, and with 623 at one that is not in the switch's block itself;
/// - with 542 at a jump out of nothing, with 543 at a `return` that does not match its function, and with 544 at a bad first part of a `for`;
/// - with the violations of declarations and expressions, and with 801 where memory runs out.
///
/// Its recursion is as deep as the tree is. After an error the scope and the vectors are unspecified.
#[cycle(statements)]
#[inline(never)]
pub fn pieces(
    alloc: Global,
    names: &Names,
    around: Around,
    direct: Option<IntType>,
    items: &[BlockItem],
    scope: &mut Scope,
    labels: &mut Vec<Label>,
    initial: &mut Vec<Initial>,
    all: &mut Vec<Statement>,
) -> Result<(), Refusal>
    ensures ok { OnOk result ((ms : List Label) × (js : List Initial) × (xs : List Statement) × (labels.new.items ≡ labels.old.items ++ ms) × (initial.new.items ≡ initial.old.items ++ js) × (all.new.items ≡ all.old.items ++ xs) × (typed.pieces (around_of around) direct (with_texts names.now scope.old) (pieces_of (map piece_of items.now)) ≡ fine (all_done_of (with_texts names.now scope.new) ms js xs))) }
    ensures err { IfErr result (λ r. Tells r (typed.pieces (around_of around) direct (with_texts names.now scope.old) (pieces_of (map piece_of items.now)))) }
{
    for item in items {
        match piece(
            alloc, names, around, direct, item, scope, labels, initial, all,
        ) {
            Ok(()) => {}
            Err(refusal) => return Err(refusal),
        }
    }
    Ok(())
}
