//! The segments of memory that a file's headers make.

ghost use Rattle.std.specs.Prelude.{◌≡◌, ◌<◌, ◌≤◌, ◌+◌, ◌^◌, ℕ, length, true, IfOk, OnOk, ◌++◌, ◌∷◌, [], List, slice_index};
ghost use Rattle.loader.specs.File as file;
ghost use Rattle.loader.specs.inside.Segments.{IsLoaded, AreLoaded};
ghost use Rattle.rv32.specs.declared.memory.Segment.{Segment};

use crate::header::LoadHeader;
use rv32::memory::Segment;
use std::alloc::{AllocError, Global};

/// The bytes that the file holds of a segment; where there are none, the offset may lie anywhere.
fn file_bytes<'a>(bytes: &'a [u8], load: &LoadHeader) -> &'a [u8]
    requires { file.is_sound (length bytes.now) load.now ≡ true }
    ensures size { length result.now ≡ load.now.file_size }
    ensures same { (k : ℕ) → k < load.now.file_size → slice_index result.now k ≡ slice_index bytes.now (load.now.offset + k) }
{
    if load.file_size == 0 {
        &[]
    } else {
        let start = load.offset as usize;
        &bytes[start..start + load.file_size as usize]
    }
}

fn segment_of(alloc: Global, bytes: &[u8], load: &LoadHeader) -> Result<Segment, AllocError>
    requires sound { file.is_sound (length bytes.now) load.now ≡ true }
    requires fits { load.now.address + load.now.memory_size ≤ 2 ^ 32 }
    ensures { IfOk result (IsLoaded bytes.now load.now) }
{
    let mut content = Vec::with_capacity(alloc, load.memory_size as usize)?;
    content.extend_from_slice(file_bytes(bytes, load))?;
    content.resize(load.memory_size as usize, 0)?;
    Ok(Segment {
        start: load.address,
        bytes: content,
        readable: load.flags / 4 % 2 == 1,
        writable: load.flags / 2 % 2 == 1,
        executable: load.flags % 2 == 1,
    })
}

fn push_segment(
    alloc: Global,
    segments: &mut Vec<Segment>,
    bytes: &[u8],
    load: &LoadHeader,
) -> Result<(), AllocError>
    requires sound { file.is_sound (length bytes.now) load.now ≡ true }
    requires fits { load.now.address + load.now.memory_size ≤ 2 ^ 32 }
    ensures { OnOk result ((ss : List Segment) × (segments.new.items ≡ segments.old.items ++ ss) × AreLoaded bytes.now (load.now ∷ []) ss) }
{
    if load.memory_size != 0 {
        segments.push(segment_of(alloc, bytes, load)?)?;
    }
    Ok(())
}

/// A segment for each header that takes any memory, in the order of the headers.
pub fn segments_of(
    alloc: Global,
    bytes: &[u8],
    loads: &[LoadHeader],
) -> Result<Vec<Segment>, AllocError>
    requires sound { file.all_sound (length bytes.now) loads.now ≡ true }
    requires apart { file.are_apart loads.now ≡ true }
    ensures { IfOk result (λ v. AreLoaded bytes.now loads.now v.items) }
{
    let mut segments = Vec::new(alloc);
    for load in loads {
        push_segment(alloc, &mut segments, bytes, load)?;
    }
    Ok(segments)
}
