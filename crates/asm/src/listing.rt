//! A listing: address, word and text of each instruction.

ghost use Rattle.std.specs.Prelude.{◌≡◌, ◌<◌, ◌≤◌, ◌+◌, ◌-◌, ◌*◌, ◌/◌, ◌%◌, ◌^◌, ◌↔◌, OnOk, IfOk, ◌++◌, List, [], length, map, slice_index, Some, IsSome, IfErr, IsOk, IsTrue};
ghost use Rattle.rv32.specs.declared.instr.Instr.{Instr};
ghost use Rattle.rv32.specs.Space.{word_at};
ghost use Rattle.rv32.specs.Words.{decode_of, word_of};
ghost use Rattle.srcset.specs.Fault.{IsMemoryFault};
ghost use Rattle.asm.specs.Listing.{line, IsListing, IsListingOf, Lists};
ghost use Rattle.asm.specs.Layout.{IsLow, SomeMisses, AllReach};
ghost use Rattle.asm.specs.inside.Choice.{IsTable};
ghost use Rattle.asm.specs.inside.Code.{Writes, AreWords};
ghost use Rattle.asm.specs.Refusals.{IsListRefused};
ghost use Rattle.asm.specs.inside.Refusing.{IfFar};

use crate::emit::resolve;
use crate::hex::put_hex;
use crate::item::Item;
use crate::items::Items;
use crate::refusal::{Refusal, told};
use crate::text::text;
use rv32::{Instr, decode};
use srcset::{Fault, write_text};
use std::alloc::{AllocError, Global};
use std::io::Write;

/// One line: address, word, text.
fn put_line(bytes: &mut Vec<u8>, at: u32, word: u32, text: &str) -> Result<(), AllocError>
    ensures { OnOk result (bytes.new.items ≡ bytes.old.items ++ line at word text.now) }
{
    put_hex(bytes, at)?;
    bytes.push(b' ')?;
    put_hex(bytes, word)?;
    bytes.push(b' ')?;
    bytes.push(b' ')?;
    bytes.extend_from_slice(text.as_bytes())?;
    bytes.push(b'\n')?;
    Ok(())
}

/// A word of the code, the lowest byte first.
fn word_in(code: &[u8], number: usize) -> u32
    requires { 4 * number + 4 ≤ length code.now }
    ensures { result ≡ word_at (slice_index code.now) (4 * number) }
{
    let at = 4 * number;
    u32::from(code[at])
        + u32::from(code[at + 1]) * 0x100
        + u32::from(code[at + 2]) * 0x1_0000
        + u32::from(code[at + 3]) * 0x100_0000
}

/// The instruction that a word encodes.
fn instr_in(word: u32) -> Instr
    requires { IsSome (decode_of word) }
    ensures { decode_of word ≡ Some result }
{
    let Some(instr) = decode(word) else {
        unreachable!()
    };
    instr
}

/// The lines of the words from `base` on.
fn lines(alloc: Global, code: &[u8], base: u32) -> Result<Vec<u8>, AllocError>
    requires words { AreWords code.now }
    requires low { base + length code.now < 2 ^ 32 }
    ensures { IfOk result (λ v. (is : List Instr) → Writes [] code.now is → IsListing base (map word_of is) v.items) }
{
    let mut bytes = Vec::new(alloc);
    let mut at = base;
    for number in 0..code.len() / 4 {
        let word = word_in(code, number);
        let words = text(alloc, instr_in(word))?;
        put_line(&mut bytes, at, word, words.as_str())?;
        at += 4;
    }
    Ok(bytes)
}

/// The listing of the items, whole.
fn listing_of(alloc: Global, items: &[Item], homes: &[usize], base: u32) -> Result<Vec<u8>, Refusal>
    requires table { IsTable homes.now items.now }
    requires aligned { base % 4 ≡ 0 }
    requires low { IsLow base items.now }
    ensures ok { IfOk result (λ bytes. IsListingOf base items.now bytes.items) }
    ensures err { IfErr result (IfFar (SomeMisses base items.now)) }
{
    let code = resolve(alloc, items, homes, base)?;
    let bytes = lines(alloc, &code, base)?;
    Ok(bytes)
}

/// The result of handing a listing to the writer.
fn outcome(is_written: bool) -> Result<(), Refusal>
    ensures ok { IsOk result ↔ IsTrue is_written }
    ensures err { IfErr result (λ refusal. refusal ≡ Refusal.Write) }
{
    if is_written {
        Ok(())
    } else {
        Err(Refusal::Write)
    }
}

/// Writes a line for each word of the items' machine code at the address `base`, as
/// `00011000 00100093  addi x1,x0,1`: the address and the word as 8 hexadecimal digits with A to F
/// capital and one space between, two spaces, and the instruction's text.
///
/// Fails as `assemble` does, having written nothing, and with 803 where the writer failed, which
/// then holds a prefix of the listing.
pub fn list<W: Write>(alloc: Global, items: &Items, base: u32, w: &mut W) -> Result<(), Fault>
    requires aligned { base % 4 ≡ 0 }
    requires low { IsLow base items.now }
    ensures ok { OnOk result (Lists base items.now (W.contents w.old) (W.contents w.new)) }
    ensures refused { IfErr result (IsListRefused base items.now (W.contents w.old) (W.contents w.new)) }
{
    match told(
        alloc,
        listing_of(alloc, items.as_slice(), items.homes(), base),
    ) {
        Ok(bytes) => told(alloc, outcome(write_text(w, &bytes))),
        Err(fault) => Err(fault),
    }
}
