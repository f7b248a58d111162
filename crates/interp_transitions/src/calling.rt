//! A call whose arguments are done (6.5.2.2).

ghost use Rattle.std.specs.Prelude.{◌≡◌, map};
ghost use Rattle.typed_ast.specs.View.{callee_of};
ghost use Rattle.csem.specs.Expressions as meaning;
ghost use Rattle.interp_store.specs.layer.Views.{passed_of};
ghost use Rattle.typed_ast.specs.declared.storage_places.Callee.TheVariants as callee;
ghost use Rattle.interp_transitions.specs.Calls.{CallActs};

use crate::calls::call_function;
use interp_store::frames::{Back, Found, Passed, Step};
use interp_store::machine::Machine;
use interp_store::operators::low_byte;
use interp_store::stop::Stop;
use srcset::Pos;
use typed_ast::Callee;

/// The outcome of a call: a step, or a byte is got, or put.
#[derive(Drop)]
pub enum Called<'p> {
    Step(Step<'p>),
    Gets,
    Puts(u8),
}

/// The number that a call passes first.
fn first_number(passed: &[Passed]) -> i64
    ensures { result ≡ meaning.first_number (map passed_of passed.now) }
{
    match passed.first() {
        None => 0,
        Some(Passed::Number(v)) => *v,
        Some(Passed::Referred(_)) => 0,
    }
}

/// A call of a function, which goes back to its caller.
///
/// Errors: memory ran out; `U8` where it has no definition and its value is used.
fn enter_function<'p>(
    machine: &mut Machine<'p>,
    at: Pos,
    f: usize,
    used: bool,
    passed: &[Passed],
) -> Result<Called<'p>, Stop>
    ensures acts { CallActs machine.old at (callee_of (callee.Function f)) used (map passed_of passed.now) result machine.new }
    ensures program { machine.new.program ≡ machine.old.program }
{
    match call_function(machine, Back::ToCaller(at, used), f, passed) {
        Ok(step) => Ok(Called::Step(step)),
        Err(stop) => Err(stop),
    }
}

/// A call, whose arguments are done. Bytes are got and put by whoever has the port.
///
/// Errors: the run ends with `rv_exit`; memory ran out.
pub fn call<'p>(
    machine: &mut Machine<'p>,
    at: Pos,
    callee: Callee,
    used: bool,
    passed: &[Passed],
) -> Result<Called<'p>, Stop>
    ensures acts { CallActs machine.old at (callee_of callee) used (map passed_of passed.now) result machine.new }
    ensures program { machine.new.program ≡ machine.old.program }
{
    match callee {
        Callee::Function(f) => enter_function(machine, at, f, used, passed),
        Callee::GetByte => Ok(Called::Gets),
        Callee::PutByte => Ok(Called::Puts(low_byte(first_number(passed)))),
        Callee::Exit => Err(Stop::Ended(low_byte(first_number(passed)))),
        Callee::Missing(_) => Ok(Called::Step(Step::Leaves(Found::Value(0)))),
    }
}
