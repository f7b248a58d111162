//! Storage-class specifiers (6.7.1).
#![tactic(auto)]

ghost use Rattle.std.specs.Prelude.{◌≡◌, ◌++◌, ◌∷◌, List, map, IfErr, IfOk};
ghost use Rattle.tree.specs.Tree.{SpecifierTree};
ghost use Rattle.tree.specs.View.{specifier_of};
ghost use Rattle.typing_spec.specs.Verdict.{fine};
ghost use Rattle.typing_spec.specs.Declarations as typed;
ghost use Rattle.typing_expressions.specs.Refused.{Tells};
ghost use Rattle.decls_linkage.specs.Views as view;
ghost use Rattle.decls_specifiers.specs.inside.Lists.{class_before};

use decls_linkage::StorageClass;
use srcset::{Code, Pos, Refusal};
use tree::Specifier;
use typing_expressions::broken;

/// The class after one more specifier.
fn class_with(pos: Pos, class: StorageClass, specifier: &Specifier) -> Result<StorageClass, Refusal>
    ensures ok { (ss : List SpecifierTree) → IfOk result (λ c. typed.class_of pos (class_before (view.class_of class) ++ typed.classes_of (specifier_of specifier.now ∷ ss)) ≡ typed.class_of pos (class_before (view.class_of c) ++ typed.classes_of ss)) }
    ensures err { (ss : List SpecifierTree) → IfErr result (λ r. Tells r (typed.class_of pos (class_before (view.class_of class) ++ typed.classes_of (specifier_of specifier.now ∷ ss)))) }
{
    match specifier {
        Specifier::Extern => match class {
            StorageClass::None => Ok(StorageClass::Extern),
            StorageClass::Extern => Err(broken(Code::BadStorageClass, pos)),
            StorageClass::Static => Err(broken(Code::BadStorageClass, pos)),
        },
        Specifier::Static => match class {
            StorageClass::None => Ok(StorageClass::Static),
            StorageClass::Extern => Err(broken(Code::BadStorageClass, pos)),
            StorageClass::Static => Err(broken(Code::BadStorageClass, pos)),
        },
        Specifier::Plain(_) => Ok(class),
        Specifier::Enumerators(_, _) => Ok(class),
    }
}

/// At most one storage-class specifier (6.7.1p2).
pub(crate) fn class_of(pos: Pos, specifiers: &[Specifier]) -> Result<StorageClass, Refusal>
    ensures ok { IfOk result (λ c. typed.class_of pos (typed.classes_of (map specifier_of specifiers.now)) ≡ fine (view.class_of c)) }
    ensures err { IfErr result (λ r. Tells r (typed.class_of pos (typed.classes_of (map specifier_of specifiers.now)))) }
{
    let mut class = StorageClass::None;
    for specifier in specifiers {
        class = match class_with(pos, class, specifier) {
            Ok(next) => next,
            Err(refusal) => return Err(refusal),
        };
    }
    Ok(class)
}
