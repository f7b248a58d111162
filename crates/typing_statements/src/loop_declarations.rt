//! The declarations that the first part of a `for` may contain (6.8.5p3).
#![tactic(auto, using(crate::proofs::Loops::unfit_is))]

ghost use Rattle.std.specs.Prelude.{◌≡◌, map, IfErr, OnOk};
ghost use Rattle.std.specs.List.{list_any};
ghost use Rattle.tree.specs.View.{declaration_of, item_of, specifier_of};
ghost use Rattle.typing_spec.specs.Verdict.{fine};
ghost use Rattle.typing_spec.specs.Statements as typed;
ghost use Rattle.typing_expressions.specs.Refused.{IsOf};
ghost use Rattle.typing_statements.specs.inside.Loops.{declares_function, is_kept_out, unfit};

use srcset::{Code, Refusal};
use tree::{Declaration, Item, Specifier};
use typing_expressions::broken;

fn declares_function(item: &Item) -> bool
    ensures { result ≡ declares_function item.now }
{
    match item {
        Item::Object(_) => false,
        Item::Function(_) => true,
    }
}

fn has_function(items: &[Item]) -> bool
    ensures { result ≡ list_any declares_function items.now }
{
    items.iter().any(declares_function)
}

/// A storage-class specifier, or a list of enumerators.
fn is_kept_out(specifier: &Specifier) -> bool
    ensures { result ≡ is_kept_out specifier.now }
{
    match specifier {
        Specifier::Extern => true,
        Specifier::Static => true,
        Specifier::Plain(_) => false,
        Specifier::Enumerators(_, _) => true,
    }
}

fn has_kept_out(specifiers: &[Specifier]) -> bool
    ensures { result ≡ list_any is_kept_out specifiers.now }
{
    specifiers.iter().any(is_kept_out)
}

fn is_unfit(specifiers: &[Specifier], items: &[Item]) -> bool
    ensures { result ≡ unfit (map specifier_of specifiers.now) (map item_of items.now) }
{
    has_kept_out(specifiers) || has_function(items)
}

/// Only objects that are not static may be declared; an assertion declares nothing. Else reports 544 at the declaration.
pub(crate) fn fit_for_loop(declaration: &Declaration) -> Result<(), Refusal>
    ensures ok { OnOk result (typed.fit_for_loop (declaration_of declaration.now) ≡ fine tt) }
    ensures err { IfErr result (λ r. IsOf r (typed.fit_for_loop (declaration_of declaration.now))) }
{
    match declaration {
        Declaration::Assertion(_, _, _) => Ok(()),
        Declaration::Declared(specifiers, items) => {
            if is_unfit(&specifiers.list, items) {
                return Err(broken(Code::BadForDeclaration, specifiers.pos));
            }
            Ok(())
        }
    }
}
