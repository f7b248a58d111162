//! The definitions of a unit (6.9).
#![tactic(auto)]

ghost use Rattle.std.specs.Prelude.{◌≡◌, ◌++◌, ◌∷◌, [], map, OnOk, IfOk, IfErr};
ghost use Rattle.srcset.specs.declared.refusal.Refusal.TheVariants.{Memory};
ghost use Rattle.tree.specs.View.{external_of};
ghost use Rattle.typing_spec.specs.Units as typed;

use srcset::Refusal;
use std::alloc::Global;
use tree::External;

/// Appends the name that an external declaration defines, if any.
fn with_definition(names: &mut Vec<usize>, external: &External) -> Result<(), Refusal>
    ensures ok { OnOk result (names.new.items ≡ names.old.items ++ typed.definitions_in (external_of external.now ∷ [])) }
    ensures err { IfErr result (λ r. r ≡ Memory) }
{
    match external {
        External::Function(function) => match names.push(function.declarator.name) {
            Ok(()) => Ok(()),
            Err(_) => Err(Refusal::Memory),
        },
        External::Declaration(_) => Ok(()),
    }
}

/// The names of the functions that a unit defines, in their order. It fails where memory runs out.
pub fn definitions_in(alloc: Global, externals: &[External]) -> Result<Vec<usize>, Refusal>
    ensures ok { IfOk result (λ names. names.items ≡ typed.definitions_in (map external_of externals.now)) }
    ensures err { IfErr result (λ r. r ≡ Memory) }
{
    let mut names = Vec::new(alloc);
    for external in externals {
        match with_definition(&mut names, external) {
            Ok(()) => {}
            Err(refusal) => return Err(refusal),
        }
    }
    Ok(names)
}
