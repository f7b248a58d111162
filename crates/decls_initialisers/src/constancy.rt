//! The permitted parts of the initialiser of an object with static storage (6.7.9p4).
#![tactic(auto)]

ghost use Rattle.std.specs.Prelude.{◌≡◌, ◌&&◌, is_some, map, IfErr, OnOk};
ghost use Rattle.typing_spec.specs.Verdict.{fine};
ghost use Rattle.typing_spec.specs.Initialisers as typed;
ghost use Rattle.tree.specs.View.{tree_of, init_of, inits_of};
ghost use Rattle.typing_expressions.specs.Refused.{IsOf};
ghost use Rattle.decls_initialisers.specs.Views.{wanted_of};

use crate::forms::{Wanted, has_characters, text_alone, wanted_object};
use const_expr::constant_form;
use ctypes::IntType;
use srcset::Refusal;
use tree::{Expr, Initialiser};
use typing_scopes::Scope;

/// Whether it is a string literal, also in parentheses.
fn is_text(e: &Expr) -> bool
    ensures { result ≡ typed.is_text (tree_of e.now) }
{
    match e {
        Expr::StringLiteral(_, _) => true,
        Expr::Paren(e) => is_text(e),
        Expr::Name(_, _) => false,
        Expr::Constant(_, _, _) => false,
        Expr::Call(_, _, _) => false,
        Expr::Subscript(_, _, _) => false,
        Expr::After(_, _, _) => false,
        Expr::Before(_, _, _) => false,
        Expr::Prefix(_, _, _) => false,
        Expr::SizeofExpr(_, _) => false,
        Expr::SizeofType(_, _) => false,
        Expr::Cast(_, _, _) => false,
        Expr::Binary(_, _, _, _) => false,
        Expr::Conditional(_, _, _, _) => false,
        Expr::Assign(_, _, _, _) => false,
    }
}

/// Whether a string literal may initialise it: an array of characters (6.7.9p14).
fn takes_text(element: IntType, wanted: Wanted<'_>) -> bool
    ensures { result ≡ typed.takes_text element (wanted_of wanted.entry) }
{
    match wanted {
        Wanted::Number => false,
        Wanted::Array(_, lengths) => has_characters(element, lengths),
    }
}

/// The type of a part of a list.
fn part_wanted<'s>(wanted: Wanted<'s>) -> Wanted<'s>
    ensures { wanted_of result ≡ typed.part_wanted (wanted_of wanted.entry) }
{
    match wanted {
        Wanted::Number => Wanted::Number,
        Wanted::Array(_, lengths) => wanted_object(lengths),
    }
}

/// A constant expression, or the string literal of an array of characters.
fn constant_part(
    scope: &Scope,
    element: IntType,
    wanted: Wanted<'_>,
    e: &Expr,
) -> Result<(), Refusal>
    ensures ok { OnOk result (typed.form_unless (typed.takes_text element (wanted_of wanted.entry) && typed.is_text (tree_of e.now)) scope.now (tree_of e.now) ≡ fine tt) }
    ensures err { IfErr result (λ r. IsOf r (typed.form_unless (typed.takes_text element (wanted_of wanted.entry) && typed.is_text (tree_of e.now)) scope.now (tree_of e.now))) }
{
    if takes_text(element, wanted) && is_text(e) {
        return Ok(());
    }
    constant_form(scope, e)
}

/// Whether a list is one string literal for an array of characters.
fn is_text_alone(element: IntType, wanted: Wanted<'_>, parts: &[Initialiser]) -> bool
    ensures { result ≡ (typed.takes_text element (wanted_of wanted.entry) && is_some (typed.text_alone (inits_of (map init_of parts.now)))) }
{
    takes_text(element, wanted) && text_alone(parts).is_some()
}

/// Whether this holds of each part of a list.
#[cycle(constancy)]
fn all_constant(
    scope: &Scope,
    element: IntType,
    wanted: Wanted<'_>,
    parts: &[Initialiser],
) -> Result<(), Refusal>
    ensures ok { OnOk result (typed.all_constant scope.now element (wanted_of wanted.entry) (inits_of (map init_of parts.now)) ≡ fine tt) }
    ensures err { IfErr result (λ r. IsOf r (typed.all_constant scope.now element (wanted_of wanted.entry) (inits_of (map init_of parts.now)))) }
{
    for part in parts {
        match constant_parts(scope, element, wanted, part) {
            Ok(()) => {}
            Err(refusal) => return Err(refusal),
        }
    }
    Ok(())
}

/// Whether each part may be a constant expression, or is a string literal for an array of characters, as in the initialiser of an
/// object with static storage (6.7.9p4, p14). Else reports 501 at one that may not.
///
/// Its recursion is as deep as the tree is.
#[cycle(constancy)]
pub fn constant_parts(
    scope: &Scope,
    element: IntType,
    wanted: Wanted<'_>,
    init: &Initialiser,
) -> Result<(), Refusal>
    ensures ok { OnOk result (typed.constant_parts scope.now element (wanted_of wanted.entry) (init_of init.now) ≡ fine tt) }
    ensures err { IfErr result (λ r. IsOf r (typed.constant_parts scope.now element (wanted_of wanted.entry) (init_of init.now))) }
{
    match init {
        Initialiser::One(e) => constant_part(scope, element, wanted, e),
        Initialiser::List(_, parts) => {
            if is_text_alone(element, wanted, parts) {
                return Ok(());
            }
            all_constant(scope, element, part_wanted(wanted), parts)
        }
    }
}
