//! The semantics of C programs: a definitional interpreter, which is the abstract machine with a clock, and its laws.
//!
//! There is nothing to run. Each law is the contract of a function without code, so that it is surely proved.
#![tactic(auto)]

ghost use Rattle.csem.specs.Laws.{HistoryGrows, EndedStays, OtherObjectStays, OtherPartStays, WrittenIsRead, OperationFits, SignFits, ReadFits, WriteFits, SetFits, NewFits, StaticFits, ArrayStays, ElementIsSet, ZerosAreSet, NothingIsPut};

/// With more ticks the history of a run is that of fewer ticks, perhaps with newer entries (5.1.2.3).
pub fn history_grows()
    ensures { HistoryGrows }
{}

/// A run that has ended with a status, or at undefined behaviour, stays so with more ticks, in the same state.
pub fn ended_stays()
    ensures { EndedStays }
{}

/// An object that is not written to keeps its value (6.2.4p2).
pub fn other_object_stays()
    ensures { OtherObjectStays }
{}

/// A part of an object that is not written to keeps its value.
pub fn other_part_stays()
    ensures { OtherPartStays }
{}

/// A tree written where there is one is read there.
pub fn written_is_read()
    ensures { WrittenIsRead }
{}

/// An array keeps its lengths: what would be written in its place as a value changes nothing.
pub fn array_stays()
    ensures { ArrayStays }
{}

/// An element that becomes a value is that value in its place (6.5.16p3).
pub fn element_is_set()
    ensures { ElementIsSet }
{}

/// Elements that become zero are the zeroed tree in their place (6.7.9p10).
pub fn zeros_are_set()
    ensures { ZerosAreSet }
{}

/// Where there is nothing, nothing changes.
pub fn nothing_is_put()
    ensures { NothingIsPut }
{}

/// The result of a binary operator is a value of its result type (6.5p5).
pub fn operation_fits()
    ensures { OperationFits }
{}

/// The result of a sign is a value of its result type (6.5.3.3).
pub fn sign_fits()
    ensures { SignFits }
{}

/// An object each of whose elements, if it has a value, has one of a type gives values of that type only.
pub fn read_fits()
    ensures { ReadFits }
{}

/// It keeps to the type where the written tree fits it.
pub fn write_fits()
    ensures { WriteFits }
{}

/// So it does where a value that fits is written.
pub fn set_fits()
    ensures { SetFits }
{}

/// A new object, which is indeterminate, fits every type.
pub fn new_fits()
    ensures { NewFits }
{}

/// An object with static storage, whose first values fit its type, fits it at the beginning (6.7.9p10).
pub fn static_fits()
    ensures { StaticFits }
{}
