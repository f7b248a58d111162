//! The sizes that initialisers give (6.7.9p22).
#![tactic(auto, using(crate::proofs::Initialisers::count_is))]

ghost use Rattle.std.specs.Prelude.{◌≡◌, ◌+◌, length, map, IfErr, IfOk};
ghost use Rattle.tree.specs.View.{tree_of, init_of, inits_of};
ghost use Rattle.typed_ast.specs.View.{object_type_of};
ghost use Rattle.typing_spec.specs.Verdict.{fine};
ghost use Rattle.typing_spec.specs.Scope as scope_typed;
ghost use Rattle.typing_spec.specs.Initialisers as initialisers;
ghost use Rattle.typing_spec.specs.Declarations as typed;
ghost use Rattle.typing_expressions.specs.Refused.{Tells};
ghost use Rattle.typing_scopes.specs.Scopes.{with_texts};
ghost use Rattle.decls.specs.inside.Sizes.{as_literal, init_literal, alone_literal, count_of_parts, list_size, text_size};

use ctypes::IntType;
use srcset::{Code, Names, Pos, Refusal};
use tree::{Expr, Initialiser};
use typed_ast::ObjectType;
use typing_expressions::broken;

/// A character type (6.2.5p15).
fn is_character(ty: IntType) -> bool
    ensures { result ≡ initialisers.is_character ty }
{
    ty == IntType::Char || ty == IntType::SChar || ty == IntType::UChar
}

/// Whether an array of such elements has characters (6.7.9p14).
fn has_characters(element: &ObjectType) -> bool
    ensures { result ≡ initialisers.has_characters (object_type_of element.now).element (object_type_of element.now).lengths }
{
    element.lengths.is_empty() && is_character(element.element)
}

/// The number of bytes of a literal's characters and the zero after them.
fn text_length(names: &Names, name: usize) -> usize
    ensures { (s : scope_typed.Scope) → result ≡ length (scope_typed.literal_of (with_texts names.now s) name) + 1 }
{
    match names.text(name) {
        Some(text) => text.len().max(1),
        None => 1,
    }
}

/// The name of a string literal that is no part of an expression.
fn literal_in(e: &Expr) -> Option<usize>
    ensures { result ≡ as_literal (tree_of e.now) }
{
    match e {
        Expr::Name(_, _) => None,
        Expr::Constant(_, _, _) => None,
        Expr::StringLiteral(_, name) => Some(*name),
        Expr::Paren(_) => None,
        Expr::Call(_, _, _) => None,
        Expr::Subscript(_, _, _) => None,
        Expr::After(_, _, _) => None,
        Expr::Before(_, _, _) => None,
        Expr::Prefix(_, _, _) => None,
        Expr::SizeofExpr(_, _) => None,
        Expr::SizeofType(_, _) => None,
        Expr::Cast(_, _, _) => None,
        Expr::Binary(_, _, _, _) => None,
        Expr::Conditional(_, _, _, _) => None,
        Expr::Assign(_, _, _, _) => None,
    }
}

/// The literal that an initialiser without braces is.
fn literal_of(initialiser: &Initialiser) -> Option<usize>
    ensures { result ≡ init_literal (init_of initialiser.now) }
{
    match initialiser {
        Initialiser::One(e) => literal_in(e),
        Initialiser::List(_, _) => None,
    }
}

/// The literal that is alone in braces.
fn literal_alone(parts: &[Initialiser]) -> Option<usize>
    ensures { result ≡ alone_literal (inits_of (map init_of parts.now)) }
{
    match parts.split_first() {
        None => None,
        Some((first, rest)) => {
            if rest.is_empty() {
                return literal_of(first);
            }
            None
        }
    }
}

/// The size that a list gives: that of its parts, of which there is at least one.
fn count_or_form(pos: Pos, parts: &[Initialiser]) -> Result<usize, Refusal>
    ensures ok { IfOk result (λ n. count_of_parts pos (initialisers.count_of (inits_of (map init_of parts.now))) ≡ fine n) }
    ensures err { IfErr result (λ r. Tells r (count_of_parts pos (initialisers.count_of (inits_of (map init_of parts.now))))) }
{
    if parts.is_empty() {
        return Err(broken(Code::BadInitialiserForm, pos));
    }
    Ok(parts.len())
}

/// The size that a braced list gives: that of the literal alone in it, for characters, or of its parts.
fn size_of_list(
    names: &Names,
    characters: bool,
    pos: Pos,
    parts: &[Initialiser],
) -> Result<usize, Refusal>
    ensures ok { (s : scope_typed.Scope) → IfOk result (λ n. list_size (with_texts names.now s) characters pos (inits_of (map init_of parts.now)) ≡ fine n) }
    ensures err { (s : scope_typed.Scope) → IfErr result (λ r. Tells r (list_size (with_texts names.now s) characters pos (inits_of (map init_of parts.now)))) }
{
    if !characters {
        return count_or_form(pos, parts);
    }
    match literal_alone(parts) {
        Some(name) => Ok(text_length(names, name)),
        None => count_or_form(pos, parts),
    }
}

/// The size that an initialiser without braces gives: that of a string literal, for characters.
fn size_of_text(names: &Names, characters: bool, pos: Pos, e: &Expr) -> Result<usize, Refusal>
    ensures ok { (s : scope_typed.Scope) → IfOk result (λ n. text_size (with_texts names.now s) characters pos (tree_of e.now) ≡ fine n) }
    ensures err { (s : scope_typed.Scope) → IfErr result (λ r. Tells r (text_size (with_texts names.now s) characters pos (tree_of e.now))) }
{
    if !characters {
        return Err(broken(Code::BadInitialiserForm, pos));
    }
    match literal_in(e) {
        Some(name) => Ok(text_length(names, name)),
        None => Err(broken(Code::BadInitialiserForm, pos)),
    }
}

/// The length that an initialiser gives an array of such elements. Else reports 521, at the brace or at the declarator.
pub(crate) fn length_from(
    names: &Names,
    pos: Pos,
    element: &ObjectType,
    initialiser: &Initialiser,
) -> Result<usize, Refusal>
    ensures ok { (s : scope_typed.Scope) → IfOk result (λ n. typed.length_from (with_texts names.now s) pos (object_type_of element.now) (init_of initialiser.now) ≡ fine n) }
    ensures err { (s : scope_typed.Scope) → IfErr result (λ r. Tells r (typed.length_from (with_texts names.now s) pos (object_type_of element.now) (init_of initialiser.now))) }
{
    let characters = has_characters(element);
    match initialiser {
        Initialiser::One(e) => size_of_text(names, characters, pos, e),
        Initialiser::List(brace, parts) => size_of_list(names, characters, *brace, parts),
    }
}
