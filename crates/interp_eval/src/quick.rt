//! Which parts are evaluated here: those that call nothing.

ghost use Rattle.std.specs.Prelude.{◌≡◌, map};
ghost use Rattle.typed_ast.specs.View.{initialiser_of, initialisers_of, option_value, place_of, statement_of, statements_of, value_of};
ghost use Rattle.interp_store.specs.layer.Views.{node_of};
ghost use Rattle.interp_eval.specs.layer.Quick.{quick, quick_all, quick_control, quick_initialiser, quick_initialisers, quick_node, quick_or, quick_place, quick_statement};

use interp_store::frames::Node;
use typed_ast::{Initialiser, Place, Statement, Value};

/// Whether a place calls nothing.
#[cycle(quick)]
pub fn is_quick_place(a: &Place) -> bool
    ensures { result ≡ quick_place (place_of a.now) }
{
    match a {
        Place::Named(_, _) => true,
        Place::Element(_, array, index) => is_quick_place(array) && is_quick(index),
    }
}

/// Whether an expression calls nothing.
#[cycle(quick)]
pub fn is_quick(e: &Value) -> bool
    ensures { result ≡ quick (value_of e.now) }
{
    match e {
        Value::Constant(_, _) => true,
        Value::Read(_, a) => is_quick_place(a),
        Value::Assigned(_, _, a, e) => is_quick_place(a) && is_quick(e),
        Value::Compound(_, _, _, _, a, e) => is_quick_place(a) && is_quick(e),
        Value::Stepped(_, _, _, _, _, a) => is_quick_place(a),
        Value::Unary(_, _, _, e) => is_quick(e),
        Value::Binary(_, _, _, a, b) => is_quick(a) && is_quick(b),
        Value::BothTrue(a, b) => is_quick(a) && is_quick(b),
        Value::OneTrue(a, b) => is_quick(a) && is_quick(b),
        Value::Chosen(_, c, a, b) => is_quick(c) && is_quick(a) && is_quick(b),
        Value::Sequence(a, b) => is_quick(a) && is_quick(b),
        Value::Cast(_, e) => is_quick(e),
        Value::Discarded(e) => is_quick(e),
        Value::Call(_, _, _, _, _) => false,
    }
}

/// Whether an expression that may be left out calls nothing.
fn is_quick_or(e: &Option<Value>) -> bool
    ensures { result ≡ quick_or (option_value e.now) }
{
    match e {
        None => true,
        Some(e) => is_quick(e),
    }
}

/// Whether the expressions that control a `for` call nothing.
fn is_quick_control(start: &Option<Value>, test: &Option<Value>, step: &Option<Value>) -> bool
    ensures { result ≡ quick_control (option_value start.now) (option_value test.now) (option_value step.now) }
{
    is_quick_or(start) && is_quick_or(test) && is_quick_or(step)
}

/// Whether all parts of a braced list call nothing.
#[cycle(quick_initialisers)]
fn are_quick_parts(all: &[Initialiser]) -> bool
    ensures { result ≡ quick_initialisers (initialisers_of (map initialiser_of all.now)) }
{
    let mut rest = all;
    while let Some((i, more)) = rest.split_first() {
        if !is_quick_initialiser(i) {
            return false;
        }
        rest = more;
    }
    true
}

/// Whether an initialiser calls nothing.
#[cycle(quick_initialisers)]
fn is_quick_initialiser(i: &Initialiser) -> bool
    ensures { result ≡ quick_initialiser (initialiser_of i.now) }
{
    match i {
        Initialiser::One(_, e) => is_quick(e),
        Initialiser::Text(_) => true,
        Initialiser::InBraces(i) => is_quick_initialiser(i),
        Initialiser::List(all) => are_quick_parts(all),
    }
}

/// Whether all statements are done here.
#[cycle(quick_statements)]
fn are_quick(all: &[Statement]) -> bool
    ensures { result ≡ quick_all (statements_of (map statement_of all.now)) }
{
    let mut rest = all;
    while let Some((a, more)) = rest.split_first() {
        if !is_quick_statement(a) {
            return false;
        }
        rest = more;
    }
    true
}

/// Whether a statement is done here: it calls nothing.
#[cycle(quick_statements)]
pub fn is_quick_statement(a: &Statement) -> bool
    ensures { result ≡ quick_statement (statement_of a.now) }
{
    match a {
        Statement::Empty(_) => true,
        Statement::Evaluate(_, e) => is_quick(e),
        Statement::Declare(_, _) => true,
        Statement::Define(_, _, i) => is_quick_initialiser(i),
        Statement::Block(_, _, _, all) => are_quick(all),
        Statement::If(_, e, a) => is_quick(e) && is_quick_statement(a),
        Statement::IfElse(_, e, a, b) => is_quick(e)
            && is_quick_statement(a)
            && is_quick_statement(b),
        Statement::Switch(_, _, e, _, _, all) => is_quick(e) && are_quick(all),
        Statement::Case(_, _) => true,
        Statement::Default(_) => true,
        Statement::While(_, e, a) => is_quick(e) && is_quick_statement(a),
        Statement::DoWhile(_, a, e) => is_quick(e) && is_quick_statement(a),
        Statement::For(_, declared, control, a) => {
            is_quick_control(&control.start, &control.test, &control.step)
                && are_quick(declared)
                && is_quick_statement(a)
        }
        Statement::Break(_) => true,
        Statement::Continue(_) => true,
        Statement::ReturnNothing(_) => true,
        Statement::ReturnValue(_, _, e) => is_quick(e),
    }
}

/// Whether the part that takes the next tick is done here.
pub fn is_quick_node(node: &Node<'_>) -> bool
    ensures { result ≡ quick_node (node_of node.now) }
{
    match node {
        Node::Value(e) => is_quick(e),
        Node::Place(_) => false,
        Node::Statement(_, a) => is_quick_statement(a),
        Node::Initialiser(_, _, _, _) => false,
        Node::Element(_, _) => false,
        Node::Ticking(_, _) => false,
        Node::TickingLong(_, _) => false,
        Node::SwitchBlock(_, _) => false,
        Node::CaseTest(_) => false,
    }
}
