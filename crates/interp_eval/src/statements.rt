//! Statements that call nothing (6.8).

ghost use Rattle.std.specs.Prelude.{◌≡◌, ◌&&◌, ◌<◌, ◌≤◌, IfSome, true, map, option_map};
ghost use Rattle.typing_spec.specs.Program as typed;
ghost use Rattle.typed_ast.specs.View.{statement_of, statements_of, value_of};
ghost use Rattle.csem.specs.Machine.{Goes, tick};
ghost use Rattle.csem.specs.Expressions.{evaluate_or};
ghost use Rattle.interp_store.specs.layer.Agrees.{number};
ghost use Rattle.interp_store.specs.layer.Presents.{call_in, loop};
ghost use Rattle.interp_store.specs.layer.Views.{flow_of};
ghost use Rattle.interp_eval.specs.layer.Comes.{Does, Spends, StaysHere, all_executed, executed, jumped, objects_in, way_out};
ghost use Rattle.interp_eval.specs.layer.Quick.{quick, quick_all, quick_control, quick_initialiser, quick_or, quick_statement};

use crate::clock::{Clock, Scope};
use crate::definitions::{definition, out_of_memory};
use crate::expressions::{operand, value};
use crate::switches::{left_switch, selected};
use ctypes::{IntType, convert};
use interp_steps::objects::renew_all;
use interp_store::frames::Flow;
use interp_store::operators::is_true;
use interp_store::scene::Scene;
use typed_ast::{Statement, Value};

/// A statement (6.8).
#[cycle(execute)]
pub fn statement(
    scope: &Scope<'_>,
    scene: &mut Scene,
    clock: &mut Clock,
    a: &Statement,
) -> Option<Flow>
    requires room { clock.old.spent ≤ scope.now.limit }
    ensures does { Does flow_of scope.now (executed (objects_in scope.now) (statement_of a.now)) clock.old scene.old result clock.new scene.new }
    ensures here { StaysHere (quick_statement (statement_of a.now)) result clock.new.why }
    ensures spends { Spends clock.old.spent clock.new.spent scope.now.limit }
    ensures takes { IfSome result (λ _. clock.old.spent < clock.new.spent) }
{
    match a {
        Statement::Empty(_) | Statement::Case(_, _) | Statement::Default(_) => {
            at_once(scope, scene, clock, Flow::Normal)
        }
        Statement::Evaluate(_, e) => evaluation(scope, scene, clock, e),
        Statement::Declare(_, n) => declaration(scope, scene, clock, *n),
        Statement::Define(_, n, i) => definition(scope, scene, clock, *n, i),
        Statement::Block(_, first, count, all) => block(scope, scene, clock, *first, *count, all),
        Statement::If(_, e, a) => branch(scope, scene, clock, e, a),
        Statement::IfElse(_, e, a, b) => branches(scope, scene, clock, e, a, b),
        Statement::Switch(_, ty, e, first, count, all) => {
            switch(scope, scene, clock, *ty, e, *first, *count, all)
        }
        Statement::While(_, e, a) => while_loop(scope, scene, clock, e, a),
        Statement::DoWhile(_, a, e) => do_loop(scope, scene, clock, a, e),
        Statement::For(_, declared, control, a) => {
            let start = control.start.as_ref();
            let test = control.test.as_ref();
            let step = control.step.as_ref();
            for_loop(scope, scene, clock, declared, start, test, step, a)
        }
        Statement::Break(_) => at_once(scope, scene, clock, Flow::Broken),
        Statement::Continue(_) => at_once(scope, scene, clock, Flow::Continued),
        Statement::ReturnNothing(_) => at_once(scope, scene, clock, Flow::Returned(None)),
        Statement::ReturnValue(_, ty, e) => return_value(scope, scene, clock, *ty, e),
    }
}

/// A statement that does nothing, or jumps (6.8.1, 6.8.3, 6.8.6).
#[inline(always)]
fn at_once(scope: &Scope<'_>, scene: &Scene, clock: &mut Clock, flow: Flow) -> Option<Flow>
    requires room { clock.old.spent ≤ scope.now.limit }
    ensures does { Does flow_of scope.now (λ p s. tick s (λ s. Goes (flow_of flow) s)) clock.old scene.now result clock.new scene.now }
    ensures here { StaysHere true result clock.new.why }
    ensures spends { Spends clock.old.spent clock.new.spent scope.now.limit }
    ensures takes { IfSome result (λ _. clock.old.spent < clock.new.spent) }
{
    if !clock.tick(scope.limit) {
        return None;
    }
    Some(flow)
}

/// An expression statement (6.8.3).
fn evaluation(scope: &Scope<'_>, scene: &mut Scene, clock: &mut Clock, e: &Value) -> Option<Flow>
    requires room { clock.old.spent ≤ scope.now.limit }
    ensures does { Does flow_of scope.now (executed (objects_in scope.now) (typed.evaluate (value_of e.now))) clock.old scene.old result clock.new scene.new }
    ensures here { StaysHere (quick (value_of e.now)) result clock.new.why }
    ensures spends { Spends clock.old.spent clock.new.spent scope.now.limit }
    ensures takes { IfSome result (λ _. clock.old.spent < clock.new.spent) }
{
    if !clock.tick(scope.limit) {
        return None;
    }
    let Some(_) = value(scope, scene, clock, e) else {
        return None;
    };
    Some(Flow::Normal)
}

/// A declarator (6.2.4p6, 6.8p3).
fn declaration(scope: &Scope<'_>, scene: &mut Scene, clock: &mut Clock, n: usize) -> Option<Flow>
    requires room { clock.old.spent ≤ scope.now.limit }
    ensures does { Does flow_of scope.now (executed (objects_in scope.now) (typed.declare n)) clock.old scene.old result clock.new scene.new }
    ensures here { StaysHere true result clock.new.why }
    ensures spends { Spends clock.old.spent clock.new.spent scope.now.limit }
    ensures takes { IfSome result (λ _. clock.old.spent < clock.new.spent) }
{
    if !clock.tick(scope.limit) {
        return None;
    }
    match scene.renew(scope.alloc, scope.objects, n) {
        Ok(()) => Some(Flow::Normal),
        Err(_) => out_of_memory(clock),
    }
}

/// A block (6.8.2, 6.2.4p6).
#[cycle(execute)]
fn block(
    scope: &Scope<'_>,
    scene: &mut Scene,
    clock: &mut Clock,
    first: usize,
    count: usize,
    all: &[Statement],
) -> Option<Flow>
    requires room { clock.old.spent ≤ scope.now.limit }
    ensures does { Does flow_of scope.now (executed (objects_in scope.now) (typed.block first count (statements_of (map statement_of all.now)))) clock.old scene.old result clock.new scene.new }
    ensures here { StaysHere (quick_all (statements_of (map statement_of all.now))) result clock.new.why }
    ensures spends { Spends clock.old.spent clock.new.spent scope.now.limit }
    ensures takes { IfSome result (λ _. clock.old.spent < clock.new.spent) }
{
    if !clock.tick(scope.limit) {
        return None;
    }
    match renew_all(scene, scope.alloc, scope.objects, first, count) {
        Ok(()) => all_of(scope, scene, clock, all),
        Err(_) => out_of_memory(clock),
    }
}

/// Statements one after the other (6.8p2).
#[cycle(execute)]
fn all_of(
    scope: &Scope<'_>,
    scene: &mut Scene,
    clock: &mut Clock,
    all: &[Statement],
) -> Option<Flow>
    requires room { clock.old.spent ≤ scope.now.limit }
    ensures does { Does flow_of scope.now (all_executed (objects_in scope.now) (statements_of (map statement_of all.now))) clock.old scene.old result clock.new scene.new }
    ensures here { StaysHere (quick_all (statements_of (map statement_of all.now))) result clock.new.why }
    ensures spends { Spends clock.old.spent clock.new.spent scope.now.limit }
{
    let mut rest = all;
    while let Some((a, more)) = rest.split_first() {
        match statement(scope, scene, clock, a) {
            None => return None,
            Some(Flow::Normal) => {}
            Some(Flow::Broken) => return Some(Flow::Broken),
            Some(Flow::Continued) => return Some(Flow::Continued),
            Some(Flow::Returned(v)) => return Some(Flow::Returned(v)),
        }
        rest = more;
    }
    Some(Flow::Normal)
}

/// `if` (6.8.4.1).
#[cycle(execute)]
fn branch(
    scope: &Scope<'_>,
    scene: &mut Scene,
    clock: &mut Clock,
    e: &Value,
    a: &Statement,
) -> Option<Flow>
    requires room { clock.old.spent ≤ scope.now.limit }
    ensures does { Does flow_of scope.now (executed (objects_in scope.now) (typed.branch (value_of e.now) (statement_of a.now))) clock.old scene.old result clock.new scene.new }
    ensures here { StaysHere (quick (value_of e.now) && quick_statement (statement_of a.now)) result clock.new.why }
    ensures spends { Spends clock.old.spent clock.new.spent scope.now.limit }
    ensures takes { IfSome result (λ _. clock.old.spent < clock.new.spent) }
{
    if !clock.tick(scope.limit) {
        return None;
    }
    let Some(v) = operand(scope, scene, clock, e) else {
        return None;
    };
    if is_true(v) {
        statement(scope, scene, clock, a)
    } else {
        Some(Flow::Normal)
    }
}

/// `if` with `else` (6.8.4.1).
#[cycle(execute)]
fn branches(
    scope: &Scope<'_>,
    scene: &mut Scene,
    clock: &mut Clock,
    e: &Value,
    a: &Statement,
    b: &Statement,
) -> Option<Flow>
    requires room { clock.old.spent ≤ scope.now.limit }
    ensures does { Does flow_of scope.now (executed (objects_in scope.now) (typed.branches (value_of e.now) (statement_of a.now) (statement_of b.now))) clock.old scene.old result clock.new scene.new }
    ensures here { StaysHere (quick (value_of e.now) && quick_statement (statement_of a.now) && quick_statement (statement_of b.now)) result clock.new.why }
    ensures spends { Spends clock.old.spent clock.new.spent scope.now.limit }
    ensures takes { IfSome result (λ _. clock.old.spent < clock.new.spent) }
{
    if !clock.tick(scope.limit) {
        return None;
    }
    let Some(v) = operand(scope, scene, clock, e) else {
        return None;
    };
    if is_true(v) {
        statement(scope, scene, clock, a)
    } else {
        statement(scope, scene, clock, b)
    }
}

/// `switch` (6.8.4.2): the objects of its block begin, and its value jumps into the block.
#[cycle(execute)]
fn switch(
    scope: &Scope<'_>,
    scene: &mut Scene,
    clock: &mut Clock,
    ty: IntType,
    e: &Value,
    first: usize,
    count: usize,
    all: &[Statement],
) -> Option<Flow>
    requires room { clock.old.spent ≤ scope.now.limit }
    ensures does { Does flow_of scope.now (executed (objects_in scope.now) (typed.switch ty (value_of e.now) first count (statements_of (map statement_of all.now)))) clock.old scene.old result clock.new scene.new }
    ensures here { StaysHere (quick (value_of e.now) && quick_all (statements_of (map statement_of all.now))) result clock.new.why }
    ensures spends { Spends clock.old.spent clock.new.spent scope.now.limit }
    ensures takes { IfSome result (λ _. clock.old.spent < clock.new.spent) }
{
    if !clock.tick(scope.limit) {
        return None;
    }
    let Some(v) = operand(scope, scene, clock, e) else {
        return None;
    };
    if !clock.tick(scope.limit) {
        return None;
    }
    match renew_all(scene, scope.alloc, scope.objects, first, count) {
        Ok(()) => jump(scope, scene, clock, convert(ty, v), all),
        Err(_) => out_of_memory(clock),
    }
}

/// The block of a `switch` from the label on to which this value jumps (6.8.4.2p4, p5).
#[cycle(execute)]
fn jump(
    scope: &Scope<'_>,
    scene: &mut Scene,
    clock: &mut Clock,
    value: i64,
    all: &[Statement],
) -> Option<Flow>
    requires room { clock.old.spent ≤ scope.now.limit }
    ensures does { Does flow_of scope.now (jumped (objects_in scope.now) value (statements_of (map statement_of all.now))) clock.old scene.old result clock.new scene.new }
    ensures here { StaysHere (quick_all (statements_of (map statement_of all.now))) result clock.new.why }
    ensures spends { Spends clock.old.spent clock.new.spent scope.now.limit }
{
    let Some(rest) = selected(scope, clock, value, all) else {
        return None;
    };
    match all_of(scope, scene, clock, rest) {
        None => None,
        Some(flow) => Some(left_switch(flow)),
    }
}

/// `while` (6.8.5.1).
#[cycle(execute)]
fn while_loop(
    scope: &Scope<'_>,
    scene: &mut Scene,
    clock: &mut Clock,
    e: &Value,
    a: &Statement,
) -> Option<Flow>
    requires room { clock.old.spent ≤ scope.now.limit }
    ensures does { Does flow_of scope.now (executed (objects_in scope.now) (typed.while (value_of e.now) (statement_of a.now))) clock.old scene.old result clock.new scene.new }
    ensures here { StaysHere (quick (value_of e.now) && quick_statement (statement_of a.now)) result clock.new.why }
    ensures spends { Spends clock.old.spent clock.new.spent scope.now.limit }
    ensures takes { IfSome result (λ _. clock.old.spent < clock.new.spent) }
{
    if !clock.tick(scope.limit) {
        return None;
    }
    turns(scope, scene, clock, Some(e), a, None)
}

/// `do` (6.8.5.2).
#[cycle(execute)]
fn do_loop(
    scope: &Scope<'_>,
    scene: &mut Scene,
    clock: &mut Clock,
    a: &Statement,
    e: &Value,
) -> Option<Flow>
    requires room { clock.old.spent ≤ scope.now.limit }
    ensures does { Does flow_of scope.now (executed (objects_in scope.now) (typed.do_while (statement_of a.now) (value_of e.now))) clock.old scene.old result clock.new scene.new }
    ensures here { StaysHere (quick (value_of e.now) && quick_statement (statement_of a.now)) result clock.new.why }
    ensures spends { Spends clock.old.spent clock.new.spent scope.now.limit }
    ensures takes { IfSome result (λ _. clock.old.spent < clock.new.spent) }
{
    if !clock.tick(scope.limit) {
        return None;
    }
    match statement(scope, scene, clock, a) {
        None => None,
        Some(Flow::Broken) => Some(Flow::Normal),
        Some(Flow::Returned(v)) => Some(Flow::Returned(v)),
        Some(Flow::Normal) => turns(scope, scene, clock, Some(e), a, None),
        Some(Flow::Continued) => turns(scope, scene, clock, Some(e), a, None),
    }
}

/// `for` (6.8.5.3).
#[cycle(execute)]
fn for_loop(
    scope: &Scope<'_>,
    scene: &mut Scene,
    clock: &mut Clock,
    declared: &[Statement],
    start: Option<&Value>,
    test: Option<&Value>,
    step: Option<&Value>,
    a: &Statement,
) -> Option<Flow>
    requires room { clock.old.spent ≤ scope.now.limit }
    ensures does { Does flow_of scope.now (executed (objects_in scope.now) (typed.for (statements_of (map statement_of declared.now))
        (option_map (λ e. value_of e.now) start.entry) (option_map (λ e. value_of e.now) test.entry) (option_map (λ e. value_of e.now) step.entry) (statement_of a.now)))
        clock.old scene.old result clock.new scene.new }
    ensures here { StaysHere (quick_control (option_map (λ e. value_of e.now) start.entry) (option_map (λ e. value_of e.now) test.entry) (option_map (λ e. value_of e.now) step.entry)
        && quick_all (statements_of (map statement_of declared.now)) && quick_statement (statement_of a.now)) result clock.new.why }
    ensures spends { Spends clock.old.spent clock.new.spent scope.now.limit }
    ensures takes { IfSome result (λ _. clock.old.spent < clock.new.spent) }
{
    if !clock.tick(scope.limit) {
        return None;
    }
    let Some(_) = all_of(scope, scene, clock, declared) else {
        return None;
    };
    let Some(_) = value_or(scope, scene, clock, start) else {
        return None;
    };
    turns(scope, scene, clock, test, a, step)
}

/// An expression that may be left out (6.8.5.3p2).
#[inline(always)]
fn value_or(
    scope: &Scope<'_>,
    scene: &mut Scene,
    clock: &mut Clock,
    e: Option<&Value>,
) -> Option<i64>
    requires room { clock.old.spent ≤ scope.now.limit }
    ensures does { Does number scope.now (λ p s. evaluate_or p (call_in p) (option_map (λ e. value_of e.now) e.entry) s) clock.old scene.old result clock.new scene.new }
    ensures here { StaysHere (quick_or (option_map (λ e. value_of e.now) e.entry)) result clock.new.why }
    ensures spends { Spends clock.old.spent clock.new.spent scope.now.limit }
{
    match e {
        None => Some(1),
        Some(e) => operand(scope, scene, clock, e),
    }
}

/// How a loop is left by its body, if it is (6.8.6.2, 6.8.6.3).
#[inline(always)]
fn left_by(flow: Flow) -> Option<Flow>
    ensures { option_map flow_of result ≡ way_out (flow_of flow) }
{
    match flow {
        Flow::Normal => None,
        Flow::Continued => None,
        Flow::Broken => Some(Flow::Normal),
        Flow::Returned(v) => Some(Flow::Returned(v)),
    }
}

/// The turns of a loop (6.8.5). Each takes a tick.
#[cycle(execute)]
fn turns(
    scope: &Scope<'_>,
    scene: &mut Scene,
    clock: &mut Clock,
    test: Option<&Value>,
    a: &Statement,
    step: Option<&Value>,
) -> Option<Flow>
    requires room { clock.old.spent ≤ scope.now.limit }
    ensures does { Does flow_of scope.now (λ p s. loop p (call_in p) (objects_in scope.now) (option_map (λ e. value_of e.now) test.entry) (statement_of a.now)
        (option_map (λ e. value_of e.now) step.entry) s) clock.old scene.old result clock.new scene.new }
    ensures here { StaysHere (quick_or (option_map (λ e. value_of e.now) test.entry) && quick_statement (statement_of a.now)
        && quick_or (option_map (λ e. value_of e.now) step.entry)) result clock.new.why }
    ensures spends { Spends clock.old.spent clock.new.spent scope.now.limit }
{
    loop {
        let Some(v) = value_or(scope, scene, clock, test) else {
            return None;
        };
        if !is_true(v) {
            return Some(Flow::Normal);
        }
        let Some(flow) = statement(scope, scene, clock, a) else {
            return None;
        };
        if let Some(out) = left_by(flow) {
            return Some(out);
        }
        let Some(_) = value_or(scope, scene, clock, step) else {
            return None;
        };
    }
}

/// `return` with a value (6.8.6.4p3).
fn return_value(
    scope: &Scope<'_>,
    scene: &mut Scene,
    clock: &mut Clock,
    ty: IntType,
    e: &Value,
) -> Option<Flow>
    requires room { clock.old.spent ≤ scope.now.limit }
    ensures does { Does flow_of scope.now (executed (objects_in scope.now) (typed.return_value ty (value_of e.now))) clock.old scene.old result clock.new scene.new }
    ensures here { StaysHere (quick (value_of e.now)) result clock.new.why }
    ensures spends { Spends clock.old.spent clock.new.spent scope.now.limit }
    ensures takes { IfSome result (λ _. clock.old.spent < clock.new.spent) }
{
    if !clock.tick(scope.limit) {
        return None;
    }
    let Some(v) = value(scope, scene, clock, e) else {
        return None;
    };
    Some(Flow::Returned(Some(convert(ty, v))))
}
