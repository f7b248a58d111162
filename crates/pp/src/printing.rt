//! Tokens as text.
ghost use Rattle.std.specs.Prelude.{◌≡◌, ◌++◌, IfOk, IfErr, OnOk};
ghost use Rattle.std.specs.Io.KnownBytes.{Appends};
ghost use Rattle.std.specs.List.{flat_map};
ghost use Rattle.pp.specs.Printed.{behind_space, spaced, printed, IsPrintRefused};

use phases::PpToken;
use srcset::{Code, Fault, write_text};
use std::alloc::{AllocError, Global};
use std::io::Write;

// Appends each spelling after a space.
fn put_further(text: &mut Vec<u8>, further: &[PpToken]) -> Result<(), AllocError>
    ensures { OnOk result (text.new.items ≡ text.old.items ++ flat_map behind_space further.now) }
{
    for token in further {
        text.push(b' ')?;
        text.extend_from_slice(token.spelling())?;
    }
    Ok(())
}

// Appends the spellings with one space between.
fn put_spaced(text: &mut Vec<u8>, list: &[PpToken]) -> Result<(), AllocError>
    ensures { OnOk result (text.new.items ≡ text.old.items ++ spaced list.now) }
{
    let [first, further @ ..] = list else {
        return Ok(());
    };
    text.extend_from_slice(first.spelling())?;
    put_further(text, further)
}

// The spellings with one space between, and a newline.
fn text_of(alloc: Global, list: &[PpToken]) -> Result<Vec<u8>, AllocError>
    ensures { IfOk result (λ text. text.items ≡ printed list.now) }
{
    let mut text = Vec::new(alloc);
    put_spaced(&mut text, list)?;
    text.push(b'\n')?;
    Ok(text)
}

/// Writes the spellings of the tokens with one space between, and a newline.
///
/// Refused with 801 where memory runs out, having written nothing, and with 803 where the writer refused, which then took
/// a beginning of the text.
pub fn print<W: Write>(alloc: Global, list: &[PpToken], w: &mut W) -> Result<(), Fault>
    ensures ok { OnOk result (Appends (W.contents w.old) (W.contents w.new) (printed list.now)) }
    ensures refused { IfErr result (IsPrintRefused list.now (W.contents w.old) (W.contents w.new)) }
{
    let Ok(text) = text_of(alloc, list) else {
        return Err(Fault::memory(alloc));
    };
    if write_text(w, &text) {
        Ok(())
    } else {
        Err(Fault {
            code: Code::CannotWrite.number(),
            file: String::new(alloc),
            line: 0,
            text: String::new(alloc),
        })
    }
}
