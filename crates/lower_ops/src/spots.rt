//! Where the reference is that a place gives, and which temporaries and slots are free next to it.

ghost use Rattle.std.specs.Prelude.{◌≡◌, ◌<◌};
ghost use Rattle.typed_ast.specs.View.{place_of, storage_of};
ghost use Rattle.srcset.specs.declared.refusal.Pos.{Pos};
ghost use Rattle.typing_spec.specs.Program as typed;
ghost use Rattle.lower_correct.specs.Places as places;
ghost use Rattle.lower_ops.specs.layer.Parts.{meant};
ghost use Rattle.lower_ops.specs.layer.FormSizes as size;

use crate::modes::{Mode, Shape};
use crate::waiting::{free_slot, free_temporary, pending};
use ctypes::IntType;
use tac_code::{Operand, Place as Spot, Target};
use typed_ast::{Place, Storage};

/// A slot where the value has to survive a call, else a temporary.
pub fn target_for(has_calls: bool, temporary: usize, slot: usize) -> Target
    ensures { result ≡ places.target_for has_calls temporary slot }
{
    if has_calls {
        Target::Kept(slot)
    } else {
        Target::Temporary(temporary)
    }
}

fn named_spot(what: Storage) -> Spot
    ensures { result ≡ places.named_spot (storage_of what) }
{
    match what {
        Storage::Literal(number) => Spot::Literal(number),
        Storage::Static(number) => Spot::Static(number),
        Storage::Automatic(number) => Spot::Array(number),
        Storage::Parameter(number) => Spot::At(Operand::Parameter(number)),
    }
}

/// Where the reference is while the next part is evaluated, which calls or not.
pub fn found(place: &Place, has_calls: bool, temporary: usize, slot: usize) -> Spot
    ensures { result ≡ places.found (place_of place.now) has_calls temporary slot }
{
    match place {
        Place::Named(_, what) => named_spot(*what),
        Place::Element(_, _, _) => Spot::At(pending(has_calls, temporary, slot)),
    }
}

/// The first free temporary after that of a reference.
pub fn free_temporary_at(spot: Spot, temporary: usize) -> usize
    requires { temporary < 4611686018427387904 }
    ensures { result ≡ places.free_temporary_at spot temporary }
{
    match spot {
        Spot::Literal(_) => temporary,
        Spot::Static(_) => temporary,
        Spot::Array(_) => temporary,
        Spot::Element {
            array: _,
            number: _,
            element: _,
        } => temporary,
        Spot::At(operand) => free_temporary(operand, temporary),
    }
}

/// The first free slot after that of a reference.
pub fn free_slot_at(spot: Spot, slot: usize) -> usize
    requires { slot < 4611686018427387904 }
    ensures { result ≡ places.free_kept_at spot slot }
{
    match spot {
        Spot::Literal(_) => slot,
        Spot::Static(_) => slot,
        Spot::Array(_) => slot,
        Spot::Element {
            array: _,
            number: _,
            element: _,
        } => slot,
        Spot::At(operand) => free_slot(operand, slot),
    }
}

fn is_truth(ty: IntType) -> bool
    ensures { result ≡ places.is_truth ty }
{
    match ty {
        IntType::Bool => true,
        IntType::Char | IntType::SChar | IntType::UChar => false,
        IntType::Short | IntType::UShort => false,
        IntType::Int | IntType::UInt | IntType::Long | IntType::ULong => false,
    }
}

/// Whether a store of this type does the conversion of a value that is not used afterwards.
pub fn cuts(ty: IntType, mode: Mode) -> bool
    ensures { result ≡ places.cuts ty (meant mode) }
{
    match mode {
        Mode::Nowhere => !is_truth(ty),
        Mode::To(_) => false,
        Mode::If(_, _) => false,
    }
}

/// `cuts`, of a shape.
pub fn cuts_for(ty: IntType, shape: Shape) -> bool
    ensures { result ≡ size.cuts_for ty shape }
{
    match shape {
        Shape::Nowhere => !is_truth(ty),
        Shape::Local => false,
        Shape::Object => false,
        Shape::Jump => false,
    }
}
