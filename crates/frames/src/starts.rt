//! Where string literals and objects with static storage begin in the statics.

ghost use Rattle.std.specs.Prelude.{ℕ, ◌≡◌, ◌≤◌, ◌<◌, ◌+◌, ◌^◌, ◌++◌, map, length, slice_get, OnOk, IfOk};
ghost use Rattle.typed_ast.specs.View.{object_type_of, static_of};
ghost use Rattle.typing_spec.specs.Types.{size_of_object};
ghost use Rattle.typing_spec.specs.Units as units;
ghost use Rattle.tac_code.specs.Sound.{data_bytes, static_bytes};
ghost use Rattle.frames.specs.Layout.{starts_from, starts_of, start_in};
ghost use Rattle.frames.specs.layer.Alone.{starts_in, with_data};
ghost use Rattle.frames.specs.Sizes.{literal_bytes, statics_bytes, literal_sizes, static_sizes};

use crate::sizes::{in_words, object_size};
use std::alloc::{AllocError, Global};
use typed_ast::Static;

/// How many bytes from the start of the statics each begins.
#[derive(Drop)]
pub struct Starts {
    pub literals: Vec<usize>,
    pub statics: Vec<usize>,
}

/// The bytes of an object: none where it is only declared.
pub fn static_size(object: &Static) -> usize
    requires { static_bytes object.now.defined (size_of_object (object_type_of object.now.object_type)) < 2 ^ 62 }
    ensures { result ≡ static_bytes object.now.defined (size_of_object (object_type_of object.now.object_type)) }
{
    if object.defined {
        in_words(object_size(&object.object_type))
    } else {
        0
    }
}

/// Where literals begin, the first at `first`, and where the last ends.
fn put_literal_starts(
    starts: &mut Vec<usize>,
    literals: &[Vec<u8>],
    first: usize,
) -> Result<usize, AllocError>
    requires { first + literal_bytes (map (λ text. text.items) literals.now) < 2 ^ 62 }
    ensures { IfOk result (λ end. (starts.new.items ≡ starts.old.items ++ starts_from first (literal_sizes (map (λ text. text.items) literals.now)))
        × (end ≡ first + literal_bytes (map (λ text. text.items) literals.now))) }
{
    let mut start = first;
    for text in literals {
        starts.push(start)?;
        start += in_words(text.len());
    }
    Ok(start)
}

fn put_static_starts(
    starts: &mut Vec<usize>,
    statics: &[Static],
    first: usize,
) -> Result<(), AllocError>
    requires { first + statics_bytes (map static_of statics.now) < 2 ^ 62 }
    ensures { OnOk result (starts.new.items ≡ starts.old.items ++ starts_from first (static_sizes (map static_of statics.now))) }
{
    let mut start = first;
    for object in statics {
        starts.push(start)?;
        start += static_size(object);
    }
    Ok(())
}

fn start_at(starts: &[usize], number: usize) -> usize
    ensures { result ≡ start_in (slice_get starts.now number) }
{
    match starts.get(number) {
        Some(start) => *start,
        None => 0,
    }
}

impl Starts {
    /// Those of a program's string literals and objects with static storage.
    pub fn new(alloc: Global, texts: &[Vec<u8>], objects: &[Static]) -> Result<Starts, AllocError>
        requires { data_bytes (map (λ text. text.items) texts.now) (map static_of objects.now) ≤ 2 ^ 24 }
        ensures { IfOk result (λ starts. starts_in starts ≡ starts_of (with_data (map (λ text. text.items) texts.now) (map static_of objects.now))) }
    {
        let mut literals = Vec::with_capacity(alloc, texts.len())?;
        let mut statics = Vec::with_capacity(alloc, objects.len())?;
        let end = put_literal_starts(&mut literals, texts, 16)?;
        put_static_starts(&mut statics, objects, end)?;
        Ok(Starts { literals, statics })
    }

    /// Where a string literal begins.
    pub fn literal(&self, number: usize) -> usize
        ensures { result ≡ start_in (slice_get self.now.literals.items number) }
    {
        start_at(&self.literals, number)
    }

    /// Where an object with static storage begins.
    pub fn object(&self, number: usize) -> usize
        ensures { result ≡ start_in (slice_get self.now.statics.items number) }
    {
        start_at(&self.statics, number)
    }
}
