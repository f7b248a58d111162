//! Objects of a block (6.2.4p6).

ghost use Rattle.std.specs.Prelude.{◌≡◌, IfErr, OnOk, map, option_map, slice_get};
ghost use Rattle.typed_ast.specs.View.{object_type_of};
ghost use Rattle.csem.specs.Statements.{all_renewed};
ghost use Rattle.interp_store.specs.layer.Agrees.{Outside, state_in};
ghost use Rattle.interp_store.specs.declared.stop.Stop.TheVariants.{Memory};

use interp_store::scene::Scene;
use interp_store::stop::Stop;
use std::alloc::Global;
use typed_ast::ObjectType;

/// `count` objects of the present call, from `first` on, become indeterminate (6.2.4p6).
///
/// Errors: memory ran out.
pub fn renew_all(
    scene: &mut Scene,
    alloc: Global,
    objects: &[ObjectType],
    first: usize,
    count: usize,
) -> Result<(), Stop>
    ensures ok { (o : Outside) → OnOk result (state_in scene.new o ≡ all_renewed (map object_type_of objects.now) first count (state_in scene.old o)) }
    ensures err { IfErr result (λ e. e ≡ Memory) }
{
    for i in 0..count {
        // No store has objects past the last number.
        let Some(n) = first.checked_add(i) else {
            return Ok(());
        };
        match scene.renew(alloc, objects, n) {
            Ok(()) => {}
            Err(stop) => return Err(stop),
        }
    }
    Ok(())
}

/// The type of object `n`.
pub fn type_of<'p>(objects: &'p [ObjectType], n: usize) -> Option<&'p ObjectType>
    ensures { option_map (λ t. object_type_of t.now) result ≡ slice_get (map object_type_of objects.now) n }
{
    match objects.get(n) {
        None => None,
        Some(ty) => Some(ty),
    }
}
