//! The ticks of a run, and why a part of it stopped.

ghost use Rattle.std.specs.Prelude.{◌≡◌, ◌≢◌, ◌+◌, ◌<◌, ◌≤◌, IfErr, true, false};
ghost use Rattle.std.specs.Bool.{OnTrue, OnFalse};
ghost use Rattle.interp_eval.specs.declared.clock.Why.TheVariants as why;
ghost use Rattle.interp_eval.specs.layer.Comes.{Gives, GoesOn, Idles, Spends, StaysHere, StoppedBy};

use ctypes::Undef;
use interp_store::Reference;
use interp_store::stop::Stop;
use srcset::Pos;
use std::alloc::Global;
use typed_ast::{ObjectType, Program};

/// Why a part of a run stopped.
#[derive(Clone, Copy)]
pub enum Why {
    /// All ticks that were allowed are taken.
    Ticks,
    /// Undefined behaviour, at its place (3.4.3).
    Undefined(Undef, Pos),
    /// The host's memory ran out.
    Memory,
    /// The part is not one that is evaluated here.
    Elsewhere,
}

/// The ticks that are spent, and why the run stopped, if it did.
#[derive(Drop)]
pub struct Clock {
    pub spent: u64,
    pub why: Why,
}

/// The context that stays the same while a part of a call is evaluated: the program, the objects of the function, and the maximum number of ticks.
#[derive(Clone, Copy)]
pub struct Scope<'p> {
    pub alloc: Global,
    pub program: &'p Program,
    pub objects: &'p [ObjectType],
    pub limit: u64,
}

impl Clock {
    /// One tick, if one is left.
    #[inline(always)]
    pub fn tick(&mut self, limit: u64) -> bool
        requires room { self.old.spent ≤ limit }
        ensures taken { OnTrue result (self.new.spent ≡ self.old.spent + 1) }
        ensures idle { OnFalse result (Idles self.new.why self.new.spent limit) }
        ensures same { OnFalse result (self.new.spent ≡ self.old.spent) }
        ensures here { result ≡ false → self.new.why ≢ why.Elsewhere }
        ensures spends { Spends self.old.spent self.new.spent limit }
    {
        if self.spent < limit {
            self.spent += 1;
            true
        } else {
            self.why = Why::Ticks;
            false
        }
    }

    /// A number of ticks, if they are left. If they are not, all that are left are taken.
    pub fn ticks(&mut self, limit: u64, n: u128) -> bool
        requires room { self.old.spent ≤ limit }
        ensures taken { OnTrue result (self.new.spent ≡ self.old.spent + n) }
        ensures idle { OnFalse result (Idles self.new.why self.new.spent limit) }
        ensures short { OnFalse result (limit < self.old.spent + n) }
        ensures here { result ≡ false → self.new.why ≢ why.Elsewhere }
        ensures spends { Spends self.old.spent self.new.spent limit }
    {
        if n <= u128::from(limit - self.spent) {
            self.spent += n as u64;
            true
        } else {
            self.spent = limit;
            self.why = Why::Ticks;
            false
        }
    }

    /// The value of a leaf.
    #[inline(always)]
    pub fn given(&mut self, value: Result<i64, Stop>) -> Option<i64>
        requires leaf { IfErr value GoesOn }
        ensures gives { Gives value result self.new.why }
        ensures spent { self.new.spent ≡ self.old.spent }
        ensures here { StaysHere true result self.new.why }
    {
        match value {
            Ok(v) => Some(v),
            Err(stop) => {
                self.stop(stop);
                None
            }
        }
    }

    /// The reference that a leaf gave.
    #[inline(always)]
    pub fn found(&mut self, place: Result<Reference, Stop>) -> Option<Reference>
        requires leaf { IfErr place GoesOn }
        ensures gives { Gives place result self.new.why }
        ensures spent { self.new.spent ≡ self.old.spent }
        ensures here { StaysHere true result self.new.why }
    {
        match place {
            Ok(r) => Some(r),
            Err(stop) => {
                self.stop(stop);
                None
            }
        }
    }

    /// The run stops in a leaf, which does not end the program.
    pub fn stop(&mut self, stop: Stop)
        requires leaf { GoesOn stop }
        ensures why { StoppedBy stop self.new.why }
        ensures spent { self.new.spent ≡ self.old.spent }
        ensures here { self.new.why ≢ why.Elsewhere }
    {
        match stop {
            Stop::Undefined(act, at) => self.why = Why::Undefined(act, at),
            Stop::Ended(_) => unreachable!(),
            Stop::Memory => self.why = Why::Memory,
        }
    }
}
