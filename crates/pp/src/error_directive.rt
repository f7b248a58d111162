//! `#error` (ISO/IEC 9899:2011 6.10.5).
ghost use Rattle.std.specs.Prelude.{◌≡◌, ◌++◌, ℕ, List, map, IfOk, OnOk};
ghost use Rattle.std.specs.List.{flat_map};
ghost use Rattle.srcset.specs.NameTable.{KeepsNumbers};
ghost use Rattle.phases.specs.Token.{Token};
ghost use Rattle.pp.specs.Phase4.{printable, error_text, State as Done};
ghost use Rattle.pp.specs.inside.Stepping.{StopsAs, spaced_out, error_done};

use phases::PpToken;
use srcset::{Code, Names, Pos, Refusal};
use std::alloc::{AllocError, Global};

/// The greatest length of the text of an `#error`.
const MAX_TEXT_BYTES: usize = 200;

// The byte where it is printable, and else a question mark.
fn printable(byte: u8) -> u8
    ensures { result ≡ printable byte }
{
    if byte >= 32 && byte <= 126 {
        byte
    } else {
        b'?'
    }
}

// Appends the bytes, as far as they are printable.
fn put_printable(text: &mut Vec<u8>, bytes: &[u8]) -> Result<(), AllocError>
    ensures { OnOk result (text.new.items ≡ text.old.items ++ map printable bytes.now) }
{
    for byte in bytes {
        text.push(printable(*byte))?;
    }
    Ok(())
}

// Appends each token after a space.
fn put_tokens(text: &mut Vec<u8>, tokens: &[PpToken]) -> Result<(), AllocError>
    ensures { OnOk result (text.new.items ≡ text.old.items ++ map printable (flat_map spaced_out tokens.now)) }
{
    for token in tokens {
        text.push(b' ')?;
        put_printable(text, token.spelling())?;
    }
    Ok(())
}

// The text that the fault adds.
fn error_text(alloc: Global, tokens: &[PpToken]) -> Result<Vec<u8>, AllocError>
    ensures { IfOk result (λ text. text.items ≡ error_text tokens.now) }
{
    let mut text = Vec::new(alloc);
    put_tokens(&mut text, tokens)?;
    text.truncate(MAX_TEXT_BYTES);
    Ok(text)
}

/// The refusal of an `#error`, by the tokens after its name, at this place.
pub fn refusal_of(alloc: Global, tokens: &[PpToken], at: Pos, names: &mut Names) -> Refusal
    ensures told { (s : Done) → StopsAs s.given names.new result (error_done at tokens.now s) }
    ensures keeps { KeepsNumbers names.old names.new }
{
    let Ok(text) = error_text(alloc, tokens) else {
        return Refusal::Memory;
    };
    match names.intern(&text) {
        Ok(text) => Refusal::Told {
            code: Code::ErrorDirective,
            pos: at,
            text,
        },
        Err(_) => Refusal::Memory,
    }
}
