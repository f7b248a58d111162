//! Consequences of the checker's definition: the program of a unit that breaks no constraint is typed, its objects have bytes, and those used are
//! defined.
#![tactic(auto)]

ghost use Rattle.lower_wf_units.specs.Objects.{DesignatedAreDefined, ObjectsAreSized, TypedIsChecked, UsesArePresent};
ghost use Rattle.lower_wf_units.specs.Laws.{ProgramIsChecked, ProgramIsTyped};

/// No object of a function is without bytes.
pub fn objects_are_sized()
    ensures { ObjectsAreSized }
{}

/// The objects and functions that a function uses have a definition.
pub fn uses_are_present()
    ensures { UsesArePresent }
{}

/// Each designation in a function of a typed program is defined.
pub fn designated_are_defined()
    ensures { DesignatedAreDefined }
{}

/// A unit that breaks no constraint, within the limit of nodes and with texts of bytes, has a program that satisfies all assumptions of
/// lowering as soon as it is typed.
pub fn typed_is_checked()
    ensures { TypedIsChecked }
{}

/// The program of a unit that breaks no constraint is typed.
pub fn program_is_typed()
    ensures { ProgramIsTyped }
{}

/// It satisfies all assumptions of lowering.
pub fn program_is_checked()
    ensures { ProgramIsChecked }
{}
