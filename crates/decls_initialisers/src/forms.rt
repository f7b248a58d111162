//! The types to initialise, and the forms of initialisers.
#![tactic(auto, using(crate::proofs::Shapes::counted, crate::proofs::Shapes::alone_none, crate::proofs::Shapes::alone_one, crate::proofs::Shapes::alone_more, crate::proofs::Shapes::alone_list))]

ghost use Rattle.std.specs.Prelude.{◌≡◌, map};
ghost use Rattle.tree.specs.View.{tree_of, init_of, inits_of};
ghost use Rattle.typing_spec.specs.Initialisers as typed;
ghost use Rattle.decls_initialisers.specs.Views.{wanted_of, option_string};
ghost use Rattle.decls_initialisers.specs.inside.Braces.{string_in};

use ctypes::IntType;
use srcset::Pos;
use tree::{Expr, Initialiser};

/// The type to initialise: a number, or an array.
#[derive(Clone, Copy)]
pub enum Wanted<'s> {
    Number,
    /// As many elements, or any number where its size is unknown, and the lengths of each, from the outermost.
    Array(Option<usize>, &'s [u32]),
}

/// An object with these lengths, from the outermost.
pub fn wanted_object<'s>(lengths: &'s [u32]) -> Wanted<'s>
    ensures { wanted_of result ≡ typed.wanted lengths.now }
{
    match lengths.split_first() {
        None => Wanted::Number,
        Some((first, rest)) => Wanted::Array(Some(*first as usize), rest),
    }
}

/// Whether it is a character type (6.2.5p15).
pub fn is_character(ty: IntType) -> bool
    ensures { result ≡ typed.is_character ty }
{
    matches!(ty, IntType::Char | IntType::SChar | IntType::UChar)
}

/// Whether the elements, of these lengths, are characters, which a string literal may give (6.7.9p14).
pub fn has_characters(ty: IntType, lengths: &[u32]) -> bool
    ensures { result ≡ typed.has_characters ty lengths.now }
{
    match lengths.split_first() {
        None => is_character(ty),
        Some(_) => false,
    }
}

/// Whether there are more than there is room for.
pub(crate) fn exceeds(count: usize, room: Option<usize>) -> bool
    ensures { result ≡ typed.exceeds count room }
{
    match room {
        None => false,
        Some(room) => room < count,
    }
}

/// How many parts a list has.
pub fn count_of(parts: &[Initialiser]) -> usize
    ensures { result ≡ typed.count_of (inits_of (map init_of parts.now)) }
{
    parts.len()
}

/// A string literal, not in parentheses.
pub(crate) fn string_literal(e: &Expr) -> Option<(Pos, usize)>
    ensures { result ≡ string_in (tree_of e.now) }
{
    match e {
        Expr::StringLiteral(pos, name) => Some((*pos, *name)),
        Expr::Name(_, _) => None,
        Expr::Constant(_, _, _) => None,
        Expr::Paren(_) => None,
        Expr::Call(_, _, _) => None,
        Expr::Subscript(_, _, _) => None,
        Expr::After(_, _, _) => None,
        Expr::Before(_, _, _) => None,
        Expr::Prefix(_, _, _) => None,
        Expr::SizeofExpr(_, _) => None,
        Expr::SizeofType(_, _) => None,
        Expr::Cast(_, _, _) => None,
        Expr::Binary(_, _, _, _) => None,
        Expr::Conditional(_, _, _, _) => None,
        Expr::Assign(_, _, _, _) => None,
    }
}

/// The string literal that is the only part of a list, with its place.
pub fn text_alone(parts: &[Initialiser]) -> Option<(Pos, usize)>
    ensures { option_string result ≡ typed.text_alone (inits_of (map init_of parts.now)) }
{
    let Some((first, rest)) = parts.split_first() else {
        return None;
    };
    if !rest.is_empty() {
        return None;
    }
    match first {
        Initialiser::One(e) => string_literal(e),
        Initialiser::List(_, _) => None,
    }
}
