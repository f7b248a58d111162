//! The roles of a token in a macro.
ghost use Rattle.std.specs.Prelude.{◌≡◌};
ghost use Rattle.macros.specs.Macro.{is_hash, is_identifier, is_joint};

use crate::reserved::is_text;
use phases::{Kind, PpToken};

/// Whether it is an identifier (ISO/IEC 9899:2011 6.4.2).
pub fn is_identifier(token: &PpToken) -> bool
    ensures { result ≡ is_identifier token.now }
{
    match token.kind() {
        Kind::Identifier => true,
        Kind::Number => false,
        Kind::CharacterConstant => false,
        Kind::StringLiteral => false,
        Kind::HeaderName => false,
        Kind::Punctuator => false,
        Kind::Other => false,
    }
}

/// Whether it is `#`, also as a digraph (6.4.6p3).
pub fn is_hash(token: &PpToken) -> bool
    ensures { result ≡ is_hash token.now }
{
    is_text(token.spelling(), b"#") || is_text(token.spelling(), b"%:")
}

/// Whether it is `##`, also as a digraph (6.4.6p3).
pub fn is_joint(token: &PpToken) -> bool
    ensures { result ≡ is_joint token.now }
{
    is_text(token.spelling(), b"##") || is_text(token.spelling(), b"%:%:")
}
