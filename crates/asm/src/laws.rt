//! Laws of placed code, for proofs about code that is made of parts.

ghost use Rattle.asm.specs.Layout.{EndsAfterLongest, PlacesInParts};
ghost use Rattle.asm.specs.Placed.{OppositeHoldsWhereNot, StandsInParts};

/// A list of items is placed in parts exactly where it is placed.
pub fn stands_in_parts()
    ensures { StandsInParts }
{}

/// The opposite comparison holds exactly where the comparison does not.
pub fn opposite_holds_where_not()
    ensures { OppositeHoldsWhereNot }
{}

/// With all branches long the items end after the sum of their greatest sizes.
pub fn ends_after_longest()
    ensures { EndsAfterLongest }
{}

/// The addresses of the items of a list in two parts.
pub fn places_in_parts()
    ensures { PlacesInParts }
{}
