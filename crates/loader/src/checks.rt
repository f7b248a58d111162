//! The tests of a file, in the order of their codes.
//!
//! System V gABI, chapter 4, "ELF Header" and "ELF Identification", and chapter 5, "Program Header"; for
//! `EM_RISCV` and `e_flags` the RISC-V ELF psABI, "ELF Object Files".

ghost use Rattle.std.specs.Prelude.{◌≡◌, ◌≤◌, ◌+◌, ◌*◌, ◌^◌, ◌⊎◌, length, true, MatchResult, IfNone, Some, None};
ghost use Rattle.std.specs.List.{sum_by};
ghost use Rattle.loader.specs.File as file;

use crate::fault::LoadFault;
use crate::header::{Headers, LoadHeader, half, loads_from, word};
use memory_map::MAX_MEMORY;

/// The file's headers of type `PT_LOAD`, or the first fault of the file. Allocates nothing.
#[tactic(auto, unfolding(crate::specs::File::loads))]
pub fn read_loads(bytes: &[u8]) -> Result<Headers, LoadFault>
    ensures { MatchResult result
        (λ v. (v.items ≡ file.loads bytes.now) × (file.fault_of bytes.now ≡ None))
        (λ e. file.fault_of bytes.now ≡ Some e) }
{
    if let Some(fault) = check_header(bytes) {
        return Err(fault);
    }
    let loads = loads_from(bytes, word(bytes, 28) as usize, half(bytes, 44) as usize);
    match check_loads(bytes.len(), loads.as_slice()) {
        Some(fault) => Err(fault),
        None => Ok(loads),
    }
}

/// The first fault of the ELF header.
fn check_header(bytes: &[u8]) -> Option<LoadFault>
    ensures value { result ≡ file.header_fault bytes.now }
    ensures table { IfNone result ((52 ≤ length bytes.now) × (file.is_table bytes.now ≡ true)) }
{
    if bytes.len() < 52 {
        Some(LoadFault::TooShort)
    } else if !is_elf32(bytes) {
        Some(LoadFault::NotElf32)
    } else if half(bytes, 16) != 2 {
        Some(LoadFault::NotExecutable)
    } else if !(half(bytes, 18) == 243 && word(bytes, 36) == 0) {
        Some(LoadFault::NotRiscV)
    } else if !is_table(bytes) {
        Some(LoadFault::BadProgramHeader)
    } else {
        None
    }
}

/// Whether the identification is that of a 32-bit little-endian file of version 1.
fn is_elf32(bytes: &[u8]) -> bool
    requires { 52 ≤ length bytes.now }
    ensures { result ≡ file.is_elf32 bytes.now }
{
    bytes[0] == 0x7F
        && bytes[1] == 0x45
        && bytes[2] == 0x4C
        && bytes[3] == 0x46
        && bytes[4] == 1
        && bytes[5] == 1
        && bytes[6] == 1
        && word(bytes, 20) == 1
}

/// Whether there are 1 to 16 program headers, of 32 bytes each, all inside the file.
fn is_table(bytes: &[u8]) -> bool
    requires { 52 ≤ length bytes.now }
    ensures { result ≡ file.is_table bytes.now }
{
    let count = half(bytes, 44) as usize;
    half(bytes, 42) == 32
        && 1 <= count
        && count <= 16
        && word(bytes, 28) as usize + 32 * count <= bytes.len()
}

/// The first fault of the program headers, in a file of `len` bytes.
fn check_loads(len: usize, loads: &[LoadHeader]) -> Option<LoadFault>
    requires { length loads.now ≤ 16 }
    ensures { result ≡ file.loads_fault len loads.now }
{
    if !all_sound(len, loads) {
        Some(LoadFault::BadProgramHeader)
    } else if !are_apart(loads) {
        Some(LoadFault::Overlap)
    } else if total(loads) > MAX_MEMORY {
        Some(LoadFault::TooMuch)
    } else {
        None
    }
}

/// Whether the segment's bytes lie inside the file, and memory has room for them.
fn is_sound(len: usize, load: &LoadHeader) -> bool
    ensures { result ≡ file.is_sound len load.now }
{
    (load.file_size == 0 || load.offset as usize + load.file_size as usize <= len)
        && load.file_size <= load.memory_size
}

fn all_sound(len: usize, loads: &[LoadHeader]) -> bool
    ensures { result ≡ file.all_sound len loads.now }
{
    loads.iter().all(|load| is_sound(len, load))
}

/// Whether two segments share no address.
fn apart(a: &LoadHeader, b: &LoadHeader) -> bool
    ensures { result ≡ file.apart a.now b.now }
{
    a.memory_size == 0
        || b.memory_size == 0
        || a.address as usize + a.memory_size as usize <= b.address as usize
        || b.address as usize + b.memory_size as usize <= a.address as usize
}

fn apart_from_all(first: &LoadHeader, rest: &[LoadHeader]) -> bool
    ensures { result ≡ file.apart_from_all first.now rest.now }
{
    rest.iter().all(|second| apart(first, second))
}

/// Whether no two segments share an address, and none passes the end of the address space.
fn are_apart(loads: &[LoadHeader]) -> bool
    ensures { result ≡ file.are_apart loads.now }
{
    match loads {
        [] => true,
        [first, rest @ ..] => first.address as usize + first.memory_size as usize <= 0x1_0000_0000
            && apart_from_all(first, rest)
            && are_apart(rest),
    }
}

/// How many bytes of memory the segments take together.
fn total(loads: &[LoadHeader]) -> usize
    requires { length loads.now ≤ 16 }
    ensures { result ≡ sum_by (λ l. l.memory_size) loads.now }
{
    loads.iter().map(|load| load.memory_size as usize).sum()
}
