//! Which object a place is.

ghost use Rattle.std.specs.Prelude.{◌≡◌};
ghost use Rattle.typed_ast.specs.View.{storage_of, place_of};
ghost use Rattle.lower_correct.specs.Values as definition;
ghost use Rattle.srcset.specs.declared.refusal.Pos.{Pos};
ghost use Rattle.typing_spec.specs.Program as typed;

use typed_ast::{Place, Storage};

fn object_named(what: Storage) -> Option<usize>
    ensures { (at : Pos) → result ≡ definition.object_of (typed.named at (storage_of what)) }
{
    match what {
        Storage::Automatic(number) => Some(number),
        Storage::Literal(_) => None,
        Storage::Static(_) => None,
        Storage::Parameter(_) => None,
    }
}

/// The object that a place is.
pub fn object_of(place: &Place) -> Option<usize>
    ensures { result ≡ definition.object_of (place_of place.now) }
{
    match place {
        Place::Named(_, what) => object_named(*what),
        Place::Element(_, _, _) => None,
    }
}
