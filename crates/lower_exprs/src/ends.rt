//! Which of the arguments of a call are the last that call and that may assign, so that the arguments after an argument are not
//! searched for each argument anew.

ghost use Rattle.std.specs.Prelude.{◌≡◌, ℕ, List, drop, map, false};
ghost use Rattle.std.specs.Bool.{OnTrue};
ghost use Rattle.typed_ast.specs.declared.expressions.Argument.{Argument};
ghost use Rattle.typed_ast.specs.View.{value_of, place_of, argument_of, arguments_of};
ghost use Rattle.lower_correct.specs.Values as values;
ghost use Rattle.lower_exprs.specs.inside.Given.{given_writes};
ghost use Rattle.lower_exprs.specs.inside.Ends.{AreEnds, calling_in, write_nothing};

use crate::rests::{argument_calls, arguments_write};
use typed_ast::{Argument, Place, Value};

/// Of some arguments, the position of the last one that calls, and of the last one that may assign to an object: counted from 1, and 0 where
/// there is none.
#[derive(Clone, Copy)]
pub(crate) struct Ends {
    calling: usize,
    writing: usize,
}

/// Whether a place is an object's name, which evaluates nothing.
fn is_named(place: &Place) -> bool
    ensures { OnTrue result ((x : ℕ) → values.place_writes (place_of place.now) x ≡ false) }
{
    match place {
        Place::Named(_, _) => true,
        Place::Element(_, _, _) => false,
    }
}

/// Whether an expression is a constant or an object's name.
fn is_plain(e: &Value) -> bool
    ensures { OnTrue result ((x : ℕ) → values.writes (value_of e.now) x ≡ false) }
{
    match e {
        Value::Constant(_, _) => true,
        Value::Read(_, place) => is_named(place),
        Value::Assigned(_, _, _, _) => false,
        Value::Compound(_, _, _, _, _, _) => false,
        Value::Stepped(_, _, _, _, _, _) => false,
        Value::Unary(_, _, _, _) => false,
        Value::Binary(_, _, _, _, _) => false,
        Value::BothTrue(_, _) => false,
        Value::OneTrue(_, _) => false,
        Value::Chosen(_, _, _, _) => false,
        Value::Sequence(_, _) => false,
        Value::Cast(_, _) => false,
        Value::Discarded(_) => false,
        Value::Call(_, _, _, _, _) => false,
    }
}

/// Whether an argument assigns to nothing, as is seen at once.
fn is_still(argument: &Argument) -> bool
    ensures { OnTrue result ((x : ℕ) → given_writes (argument_of argument.now) x ≡ false) }
{
    match argument {
        Argument::Number(_, e) => is_plain(e),
        Argument::Array(array) => is_named(array),
    }
}

fn last_calling(arguments: &[Argument]) -> usize
    ensures { result ≡ calling_in (map argument_of arguments.now) }
{
    let mut left = arguments;
    while let Some((last, front)) = left.split_last() {
        if argument_calls(last) {
            return left.len();
        }
        left = front;
    }
    0
}

fn last_writing(arguments: &[Argument]) -> usize
    ensures { write_nothing (drop result arguments.now) }
{
    let mut left = arguments;
    while let Some((last, front)) = left.split_last() {
        if !is_still(last) {
            return left.len();
        }
        left = front;
    }
    0
}

impl Ends {
    /// Those of these arguments.
    pub(crate) fn of(arguments: &[Argument]) -> Ends
        ensures { AreEnds result arguments.now }
    {
        Ends {
            calling: last_calling(arguments),
            writing: last_writing(arguments),
        }
    }

    /// Those of the arguments after the first `count`.
    pub(crate) fn behind(self, count: usize) -> Ends
        ensures { (arguments : List Argument) → AreEnds self arguments → AreEnds result (drop count arguments) }
    {
        Ends {
            calling: self.calling.saturating_sub(count),
            writing: self.writing.saturating_sub(count),
        }
    }

    /// Whether one of the arguments calls.
    pub(crate) fn call(self) -> bool
        ensures { (arguments : List Argument) → AreEnds self arguments → result ≡ values.arguments_call (arguments_of (map argument_of arguments)) }
    {
        self.calling > 0
    }

    /// Whether one of the arguments, whose ends these are, assigns to an object.
    pub(crate) fn write(self, arguments: &[Argument], object: usize) -> bool
        requires { AreEnds self arguments.now }
        ensures { result ≡ values.arguments_write (arguments_of (map argument_of arguments.now)) object }
    {
        match arguments.get(..self.writing) {
            Some(front) => arguments_write(front, object),
            None => arguments_write(arguments, object),
        }
    }
}
