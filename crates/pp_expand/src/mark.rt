//! The role of a token in the arguments of a call.
ghost use Rattle.std.specs.Prelude.{◌≡◌};
ghost use Rattle.pp_expand.specs.Expansion.{mark_of};
ghost use Rattle.pp_expand.specs.inside.Turns.{mark_as};

use phases::PpToken;

/// The role of a token in a list of arguments (ISO/IEC 9899:2011 6.10.3p11).
#[derive(Clone, Copy)]
pub(crate) enum Mark {
    Opens,
    Closes,
    Separates,
    Other,
}

/// Whether it is a parenthesis, or a comma.
pub(crate) fn mark_of(token: &PpToken<'_>) -> Mark
    ensures { mark_as result ≡ mark_of token.now }
{
    let spelling = token.spelling();
    if spelling == b"(".as_slice() {
        Mark::Opens
    } else if spelling == b")".as_slice() {
        Mark::Closes
    } else if spelling == b",".as_slice() {
        Mark::Separates
    } else {
        Mark::Other
    }
}
