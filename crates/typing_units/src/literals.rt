//! The string literals of a unit (6.4.5p6): the characters of each, and a zero.
#![tactic(auto)]

ghost use Rattle.std.specs.Prelude.{◌≡◌, ◌++◌, ◌∷◌, [], length, map, IfOk, IfErr, OnOk};
ghost use Rattle.srcset.specs.declared.refusal.Refusal.TheVariants.{Memory};
ghost use Rattle.tree.specs.Capped.{capped32};
ghost use Rattle.typing_scopes.specs.Scopes.{with_texts};
ghost use Rattle.typing_spec.specs.Scope.{Scope, literal_of};
ghost use Rattle.typing_spec.specs.Units as typed;
ghost use Rattle.typing_units.specs.inside.Parts.{literal_bytes};

use crate::sizes::{in_words, narrowed, sum};
use srcset::{Names, Refusal};
use std::alloc::Global;

/// The characters of a literal, without the zero that ends its text.
fn characters<'n>(names: &'n Names, name: usize) -> &'n [u8]
    ensures { (s : Scope) → result.now ≡ literal_of (with_texts names.now s) name }
{
    let text = names.text(name).unwrap_or(&[]);
    let count = text.len().saturating_sub(1);
    &text[..count]
}

/// The characters of a literal, and a zero.
fn literal(alloc: Global, names: &Names, name: usize) -> Result<Vec<u8>, Refusal>
    ensures ok { (s : Scope) → IfOk result (λ text. text.items ≡ literal_of (with_texts names.now s) name ++ 0 ∷ []) }
    ensures err { IfErr result (λ r. r ≡ Memory) }
{
    let mut text = Vec::new(alloc);
    let Ok(()) = text.extend_from_slice(characters(names, name)) else {
        return Err(Refusal::Memory);
    };
    match text.push(0) {
        Ok(()) => Ok(text),
        Err(_) => Err(Refusal::Memory),
    }
}

/// One more text.
fn push_text(texts: &mut Vec<Vec<u8>>, text: Vec<u8>) -> Result<(), Refusal>
    ensures ok { OnOk result (texts.new.items ≡ texts.old.items ++ text ∷ []) }
    ensures err { IfErr result (λ r. r ≡ Memory) }
{
    match texts.push(text) {
        Ok(()) => Ok(()),
        Err(_) => Err(Refusal::Memory),
    }
}

/// One more literal.
fn with_text(
    alloc: Global,
    names: &Names,
    name: usize,
    texts: &mut Vec<Vec<u8>>,
) -> Result<(), Refusal>
    ensures ok { (s : Scope) → OnOk result (map (λ text. text.items) texts.new.items ≡ map (λ text. text.items) texts.old.items ++ (literal_of (with_texts names.now s) name ++ 0 ∷ []) ∷ []) }
    ensures err { IfErr result (λ r. r ≡ Memory) }
{
    match literal(alloc, names, name) {
        Ok(text) => push_text(texts, text),
        Err(refusal) => Err(refusal),
    }
}

/// The literals with these numbers of their texts. It fails where memory runs out.
pub fn literals_of(
    alloc: Global,
    names: &Names,
    literals: &[usize],
) -> Result<Vec<Vec<u8>>, Refusal>
    ensures ok { (s : Scope) → IfOk result (λ texts. map (λ text. text.items) texts.items ≡ typed.literals_of (with_texts names.now s) literals.now) }
    ensures err { IfErr result (λ r. r ≡ Memory) }
{
    let mut texts = Vec::new(alloc);
    for name in literals {
        match with_text(alloc, names, *name, &mut texts) {
            Ok(()) => {}
            Err(refusal) => return Err(refusal),
        }
    }
    Ok(texts)
}

/// How many characters a literal has.
fn literal_length(names: &Names, name: usize) -> usize
    ensures { (s : Scope) → result ≡ length (literal_of (with_texts names.now s) name) }
{
    characters(names, name).len()
}

/// The bytes of a literal, in whole words.
fn literal_size(names: &Names, name: usize) -> u32
    ensures { (s : Scope) → result ≡ capped32 (literal_bytes (with_texts names.now s) name) }
{
    let count = literal_length(names, name);
    in_words(sum(narrowed(count as u64), 1))
}

/// The bytes of the literals with these numbers of their texts, or 2^32 - 1 where they are more.
pub fn bytes_of_literals(names: &Names, literals: &[usize]) -> u32
    ensures { (s : Scope) → result ≡ capped32 (typed.bytes_of_literals (typed.literals_of (with_texts names.now s) literals.now)) }
{
    let mut total = 0;
    for name in literals {
        total = sum(total, literal_size(names, *name));
    }
    total
}
