//! Where a `switch` jumps to (6.8.4.2), and how it is left (6.8.6.3).

ghost use Rattle.std.specs.Prelude.{◌≡◌, ◌≤◌, IfSome, ℕ, drop, map, true};
ghost use Rattle.typed_ast.specs.View.{statement_of, statements_of};
ghost use Rattle.csem.specs.Machine.{Goes, State};
ghost use Rattle.csem.specs.Statements as meaning;
ghost use Rattle.interp_store.specs.declared.scene.Scene.{Scene};
ghost use Rattle.interp_store.specs.layer.Views.{flow_of};
ghost use Rattle.interp_eval.specs.layer.Comes as comes;
ghost use Rattle.interp_eval.specs.layer.Comes.{Does, Spends, StaysHere};

use crate::clock::{Clock, Scope};
use interp_steps::labels::{Label, label_of};
use interp_store::frames::Flow;
use interp_store::operators::same_value;
use typed_ast::Statement;

/// How a `switch` is left by its block (6.8.6.3).
#[inline(always)]
pub fn left_switch(flow: Flow) -> Flow
    ensures { (s : State) → meaning.after_switch (flow_of flow) s ≡ Goes (flow_of result) s }
{
    match flow {
        Flow::Normal => Flow::Normal,
        Flow::Broken => Flow::Normal,
        Flow::Continued => Flow::Continued,
        Flow::Returned(v) => Flow::Returned(v),
    }
}

/// The statements of a block from the label on to which a value jumps: the first case of this value, else `default`, else none
/// (6.8.4.2p5). Each case that is tested takes a tick.
pub fn selected<'p>(
    scope: &Scope<'_>,
    clock: &mut Clock,
    value: i64,
    all: &'p [Statement],
) -> Option<&'p [Statement]>
    requires room { clock.old.spent ≤ scope.now.limit }
    ensures does { (scene : Scene) → Does (λ x. statements_of (map statement_of x.now)) scope.now (λ p s. comes.selected value (statements_of (map statement_of all.now)) s)
        clock.old scene result clock.new scene }
    ensures part { IfSome result (λ x. (k : ℕ) × (x.now ≡ drop k all.now)) }
    ensures here { StaysHere true result clock.new.why }
    ensures spends { Spends clock.old.spent clock.new.spent scope.now.limit }
{
    let mut default: &'p [Statement] = &[];
    let mut rest = all;
    while let Some((a, more)) = rest.split_first() {
        match label_of(a) {
            Label::Case(c) => {
                if !clock.tick(scope.limit) {
                    return None;
                }
                if same_value(c, value) {
                    return Some(rest);
                }
            }
            Label::Default => default = rest,
            Label::None => {}
        }
        rest = more;
    }
    Some(default)
}
