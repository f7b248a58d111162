//! Laws of streams, each the contract of a function without code.

ghost use Rattle.pp.specs.Laws.{StreamGrows, RestGrows};

/// A stream stays one, where the table gets further names.
pub fn stream_grows()
    ensures { StreamGrows }
{}

/// And the same is left of it, where no text of the later table has two numbers.
pub fn rest_grows()
    ensures { RestGrows }
{}
