//! The end of a call (6.8.6.4, 6.9.1p12).

ghost use Rattle.std.specs.Prelude.{◌≡◌, ◌∷◌, List, Option, ℤ, map, option_map};
ghost use Rattle.typing_spec.specs.Program as typed;
ghost use Rattle.csem.specs.History.{Left};
ghost use Rattle.csem.specs.Machine.{State};
ghost use Rattle.csem.specs.Meaning as meaning;
ghost use Rattle.interp_store.specs.View.{reference_of};
ghost use Rattle.interp_store.specs.layer.Frames as on;
ghost use Rattle.interp_store.specs.layer.Presents.{back_at};
ghost use Rattle.interp_store.specs.layer.Agrees.{Agrees, Outside, onto, state_in};
ghost use Rattle.interp_store.specs.layer.Steps.{left_by_flow, went_back};
ghost use Rattle.interp_store.specs.layer.Views.{back_of, flow_frame, flow_of};
ghost use Rattle.interp_store.specs.declared.frames.FlowFrame.TheVariants as flows;
ghost use Rattle.interp_transitions.specs.Acts.{Acts};

use ctypes::Undef;
use interp_store::Reference;
use interp_store::frames::{Back, Flow, Found, Return, Step};
use interp_store::machine::Machine;
use interp_store::operators::low_byte;
use interp_store::scene::Scene;
use interp_store::stop::Stop;
use srcset::Pos;

/// The result of the end of a body: 0 of `main` (5.1.2.2.3p1), nothing of another function (6.9.1p12).
fn value_at_end(is_main: bool) -> Option<i64>
    ensures { result ≡ meaning.value_at_end is_main }
{
    if is_main { Some(0) } else { None }
}

/// The result of a call whose body is left in this way (6.8.6.4p3).
fn value_left(is_main: bool, flow: Flow) -> Option<i64>
    ensures { result ≡ meaning.value_left is_main (flow_of flow) }
{
    match flow {
        Flow::Normal => value_at_end(is_main),
        Flow::Broken => value_at_end(is_main),
        Flow::Continued => value_at_end(is_main),
        Flow::Returned(v) => v,
    }
}

/// The exit status for `main`'s value: its low 8 bits (5.1.2.2.3p1).
fn status_of(value: Option<i64>) -> u8
    ensures { result ≡ meaning.status_of value }
{
    match value {
        None => 0,
        Some(v) => low_byte(v),
    }
}

/// The value of a call as an expression.
///
/// Errors: `U8` where it has none and is used (6.9.1p12).
fn call_value<'p>(at: Pos, used: bool, value: Option<i64>) -> Result<Step<'p>, Stop>
    ensures { (p : typed.Program) (s : State) (fs : List on.Frame) → Agrees (onto fs (went_back p (on.to_caller at used) value s)) result fs s }
{
    match value {
        Some(v) => Ok(Step::Leaves(Found::Value(v))),
        None => {
            if used {
                Err(Stop::Undefined(Undef::U8, at))
            } else {
                Ok(Step::Leaves(Found::Value(0)))
            }
        }
    }
}

/// The frame that a call's end returns to gets this value.
///
/// Errors: the run ends with `main`; `U8` where a value is used that there is not.
pub fn go_back<'p>(back: Back, value: Option<i64>) -> Result<Step<'p>, Stop>
    ensures { (p : typed.Program) (s : State) (fs : List on.Frame) → Agrees (onto fs (went_back p (back_of back) value s)) result fs s }
{
    match back {
        Back::ToCaller(at, used) => call_value(at, used, value),
        Back::ToEnd => Err(Stop::Ended(status_of(value))),
    }
}

/// The objects of a call end, and the caller goes on with its own (6.2.4p6).
fn restore(scene: &mut Scene, count: usize, base: usize, arrays: Vec<Reference>)
    ensures { (o : Outside) (value : Option ℤ) → state_in scene.new (record o { history = Left (option_map meaning.word_of value) ∷ o.history }) ≡
        back_at count base (map reference_of arrays.items) value (state_in scene.old o) }
{
    scene.store.truncate(count);
    scene.base = base;
    scene.arrays = arrays;
}

/// A call's body is left.
///
/// Errors: the run ends with `main`; `U8` where a value is used that there is not.
pub fn come_back<'p>(machine: &mut Machine<'p>, r: Return, flow: Flow) -> Result<Step<'p>, Stop>
    ensures acts { Acts (λ p s. left_by_flow p (flow_frame (flows.Returns r)) (flow_of flow) s) machine.old result machine.new }
    ensures program { machine.new.program ≡ machine.old.program }
{
    let value = value_left(r.is_main, flow);
    restore(&mut machine.scene, r.count, r.base, r.arrays);
    go_back(r.back, value)
}
