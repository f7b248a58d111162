//! The tokens of predefined macros.
ghost use Rattle.std.specs.Prelude.{◌≡◌, ℕ, List, IfOk, IfErr};
ghost use Rattle.std.specs.Cow.{cow_slice_items};
ghost use Rattle.srcset.specs.declared.refusal.Refusal.TheVariants.{Memory};
ghost use Rattle.macros.specs.Macro.{Macros};
ghost use Rattle.macros_substitution.specs.HideSets.{Sets};
ghost use Rattle.macros_substitution.specs.Meaning.{hidden_of};
ghost use Rattle.pp_expand.specs.Expansion.{text_of, quoted, predefined_token, predefined_front};

use itoa::Buffer;
use macros_substitution::HiddenToken;
use phases::{Kind, PpToken};
use srcset::{Names, Pos, Refusal};
use std::alloc::{AllocError, Global};
use std::borrow::CowSlice;

// The name of a file, or nothing where no text has its number.
fn file_text(names: &Names, file: usize) -> &[u8]
    ensures { result.now ≡ text_of names.now file }
{
    match names.text(file) {
        Some(text) => text,
        None => b"",
    }
}

// A text between quotes.
fn quoted(alloc: Global, text: &[u8]) -> Result<Vec<u8>, AllocError>
    ensures { IfOk result (λ v. v.items ≡ quoted text.now) }
{
    let mut spelling = Vec::from_slice(alloc, b"\"")?;
    spelling.extend_from_slice(text)?;
    spelling.extend_from_slice(b"\"")?;
    Ok(spelling)
}

// The kind and the spelling of a predefined macro's token (ISO/IEC 9899:2011 6.10.8), where the name is at this place.
fn parts<'a>(
    alloc: Global,
    names: &Names,
    name: &[u8],
    pos: Pos,
) -> Result<(Kind, CowSlice<'a, u8>), AllocError>
    ensures { (macros : Macros) → IfOk result (λ p. (p.0, cow_slice_items p.1) ≡ predefined_token (record { macros = macros; texts = names.now }) name.now pos) }
{
    if name == b"__LINE__".as_slice() {
        let mut buffer = Buffer::new();
        let spelling = Vec::from_slice(alloc, buffer.format(pos.line).as_bytes())?;
        return Ok((Kind::Number, CowSlice::Owned(spelling)));
    }
    if name == b"__FILE__".as_slice() {
        let spelling = quoted(alloc, file_text(names, pos.file))?;
        return Ok((Kind::StringLiteral, CowSlice::Owned(spelling)));
    }
    if name == b"__DATE__".as_slice() {
        return Ok((
            Kind::StringLiteral,
            CowSlice::Borrowed(b"\"Jan  1 1970\"".as_slice()),
        ));
    }
    if name == b"__TIME__".as_slice() {
        return Ok((
            Kind::StringLiteral,
            CowSlice::Borrowed(b"\"00:00:00\"".as_slice()),
        ));
    }
    if name == b"__STDC_VERSION__".as_slice() {
        return Ok((Kind::Number, CowSlice::Borrowed(b"201112L".as_slice())));
    }
    if name == b"__STDC_HOSTED__".as_slice() {
        return Ok((Kind::Number, CowSlice::Borrowed(b"0".as_slice())));
    }
    Ok((Kind::Number, CowSlice::Borrowed(b"1".as_slice())))
}

/// The token that takes the place of a predefined macro's name.
pub(crate) fn predefined<'a>(
    alloc: Global,
    names: &Names,
    x: &HiddenToken<'a>,
) -> Result<HiddenToken<'a>, Refusal>
    ensures ok { IfOk result (λ y. (y.hides ≡ x.now.hides) × ((macros : Macros) (sets : Sets) → hidden_of names.now sets y ≡ predefined_front (record { macros = macros; texts = names.now }) (hidden_of names.now sets x.now))) }
    ensures err { IfErr result (λ refusal. refusal ≡ Memory) }
{
    let pos = x.token.pos();
    let (kind, spelling) = parts(alloc, names, x.token.spelling(), pos)?;
    let token = PpToken::new(kind, spelling, x.token.space_before(), pos)?;
    Ok(HiddenToken {
        token,
        hides: x.hides,
    })
}
