//! An object whose declarator has begun.

ghost use Rattle.std.specs.Prelude.{◌≡◌, true};
ghost use Rattle.typed_ast.specs.View.{declared_type_of};
ghost use Rattle.decls.specs.inside.Elements.{has_elements};

use typed_ast::{DeclaredType, Storage};

/// An object whose name is in scope: its type, with an earlier declaration the composite type (6.2.7p4), and its storage.
#[derive(Drop)]
pub struct BegunObject {
    pub declared: DeclaredType,
    pub what: Storage,
    ghost sized: { has_elements (declared_type_of declared) ≡ true },
}
