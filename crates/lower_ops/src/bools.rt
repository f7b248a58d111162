//! Truth values of parts.

ghost use Rattle.std.specs.Prelude.{◌≡◌, ◌||◌};

/// Whether one of both is true; both are known.
pub fn either(a: bool, b: bool) -> bool
    ensures { result ≡ a || b }
{
    a || b
}
