//! Abstract states.

ghost use Rattle.std.specs.Prelude.{◌≡◌, false, None};
ghost use Rattle.verify_expressions.specs.Views.{state_of};

use verify_logic::{AbsValue, Fact};

/// The facts about each object by its number in the store, and about single elements of arrays of one row.
#[derive(Drop)]
pub struct Known {
    pub objects: Vec<AbsValue>,
    /// At most one for each element. Leaving one out loses the fact about it, and nothing else.
    pub facts: Vec<Fact>,
}

/// The facts about all objects, or that no run comes here.
#[derive(Drop)]
pub struct AbsState {
    pub objects: Option<Known>,
}

/// Where no run comes.
pub fn unreachable() -> AbsState
    ensures { state_of result ≡ None }
{
    AbsState { objects: None }
}

/// Tests whether a run may come here.
pub fn is_reached(state: &AbsState) -> bool
    ensures { (result ≡ false) → state_of state.now ≡ None }
{
    match &state.objects {
        None => false,
        Some(_) => true,
    }
}
