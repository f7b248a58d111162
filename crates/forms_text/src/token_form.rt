//! Tokens after preprocessing (ISO/IEC 9899:2011 6.4).

use crate::writer::Writer;
use phases::{Kind, PpToken};
use std::alloc::AllocError;

fn kind_word(kind: Kind) -> &'static str {
    match kind {
        Kind::Identifier => "identifier",
        Kind::Number => "number",
        Kind::CharacterConstant => "character",
        Kind::StringLiteral => "string",
        Kind::HeaderName => "header",
        Kind::Punctuator => "punctuator",
        Kind::Other => "other",
    }
}

pub(crate) fn put_tokens(out: &mut Writer<'_>, tokens: &[PpToken<'_>]) -> Result<(), AllocError> {
    out.begin("tokens")?;
    for token in tokens {
        out.begin(kind_word(token.kind()))?;
        out.bytes("text", token.spelling())?;
        out.place(token.pos())?;
        out.end()?;
    }
    out.end()
}
