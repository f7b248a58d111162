//! The string literals of initialisers, each an object of its own (6.4.5p6).
#![tactic(auto, using(crate::proofs::Strings::none_more))]

ghost use Rattle.std.specs.Prelude.{◌≡◌, map, OnOk, IfErr};
ghost use Rattle.srcset.specs.declared.refusal.Refusal.TheVariants.{Memory};
ghost use Rattle.tree.specs.View.{init_of, inits_of};
ghost use Rattle.typing_spec.specs.Scope.{with_literals};
ghost use Rattle.typing_spec.specs.Initialisers as typed;

use decls_declarators::past;
use srcset::Refusal;
use tree::Initialiser;
use typing_scopes::Scope;

/// Appends the literals of the parts of a list to those of the scope.
#[cycle(literals)]
fn all_past(scope: &mut Scope, parts: &[Initialiser]) -> Result<(), Refusal>
    ensures ok { OnOk result (scope.new ≡ with_literals scope.old (typed.strings_of_all (inits_of (map init_of parts.now)))) }
    ensures err { IfErr result (λ r. r ≡ Memory) }
{
    for part in parts {
        match past_init(scope, part) {
            Ok(()) => {}
            Err(refusal) => return Err(refusal),
        }
    }
    Ok(())
}

/// Appends the literals of an initialiser to those of the scope. It fails where memory runs out.
///
/// Its recursion is as deep as the tree is.
#[cycle(literals)]
pub fn past_init(scope: &mut Scope, init: &Initialiser) -> Result<(), Refusal>
    ensures ok { OnOk result (scope.new ≡ typed.past_init scope.old (init_of init.now)) }
    ensures err { IfErr result (λ r. r ≡ Memory) }
{
    match init {
        Initialiser::One(e) => past(scope, e),
        Initialiser::List(_, parts) => all_past(scope, parts),
    }
}
