//! Laws of the selected items.

ghost use Rattle.select.specs.Bytes.{CodeIsShort};
ghost use Rattle.select.specs.Program.{NearCallsAreShorter, CallsShortenInParts};

/// With all branches long, a function's code has at most the bytes of the sum of its rows.
pub fn code_is_short()
    ensures { CodeIsShort }
{}

/// Items take no more bytes if their calls are near.
pub fn near_calls_are_shorter()
    ensures { NearCallsAreShorter }
{}

/// The calls of two lists of items are made near together as they are one list after the other.
pub fn calls_shorten_in_parts()
    ensures { CallsShortenInParts }
{}
