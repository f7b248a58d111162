//! The fields of a file's headers.
//!
//! System V gABI, chapter 4, "ELF Header", and chapter 5, "Program Header".

ghost use Rattle.std.specs.Prelude.{◌≡◌, ◌<◌, ◌≤◌, ◌+◌, ◌*◌, ◌++◌, length};
ghost use Rattle.arrayvec.specs.ArrayVec.{array_vec_len};
ghost use Rattle.loader.specs.File as file;

use arrayvec::ArrayVec;

/// A program header of type `PT_LOAD`, without the fields that are ignored.
#[derive(Clone, Copy, Debug, Default, PartialEq, Eq)]
pub struct LoadHeader {
    /// `p_offset`: where the segment's bytes begin in the file.
    pub offset: u32,
    /// `p_vaddr`: where the segment begins in memory.
    pub address: u32,
    /// `p_filesz`: how many bytes the file holds.
    pub file_size: u32,
    /// `p_memsz`: how many bytes the segment takes in memory.
    pub memory_size: u32,
    /// `p_flags`: 1 to execute, 2 to write, 4 to read.
    pub flags: u32,
}

/// The headers of type `PT_LOAD` of a file, which are at most 16 and take no memory.
pub type Headers = ArrayVec<LoadHeader, 16>;

/// The number in the two bytes from `at` on, the lowest first.
pub fn half(bytes: &[u8], at: usize) -> u32
    requires { at + 2 ≤ length bytes.now }
    ensures { result ≡ file.half bytes.now at }
{
    bytes[at] as u32 + bytes[at + 1] as u32 * 0x100
}

/// The number in the four bytes from `at` on, the lowest first.
pub fn word(bytes: &[u8], at: usize) -> u32
    requires { at + 4 ≤ length bytes.now }
    ensures { result ≡ file.word bytes.now at }
{
    bytes[at] as u32
        + bytes[at + 1] as u32 * 0x100
        + bytes[at + 2] as u32 * 0x1_0000
        + bytes[at + 3] as u32 * 0x100_0000
}

fn load_header_at(bytes: &[u8], at: usize) -> LoadHeader
    requires { at + 32 ≤ length bytes.now }
    ensures { result ≡ file.load_header_at bytes.now at }
{
    LoadHeader {
        offset: word(bytes, at + 4),
        address: word(bytes, at + 8),
        file_size: word(bytes, at + 16),
        memory_size: word(bytes, at + 20),
        flags: word(bytes, at + 24),
    }
}

fn push_header(loads: &mut Headers, bytes: &[u8], at: usize)
    requires inside { at + 32 ≤ length bytes.now }
    requires room { array_vec_len loads.old < 16 }
    ensures items { loads.new.items ≡ loads.old.items ++ file.loads_at bytes.now at }
    ensures few { array_vec_len loads.new ≤ array_vec_len loads.old + 1 }
{
    if word(bytes, at) == 1 {
        loads.push(load_header_at(bytes, at));
    }
}

/// The headers of type `PT_LOAD` among the `count` headers of 32 bytes from `at` on.
pub fn loads_from(bytes: &[u8], at: usize, count: usize) -> Headers
    requires inside { at + 32 * count ≤ length bytes.now }
    requires few { count ≤ 16 }
    ensures items { result.items ≡ file.loads_from bytes.now at count }
    ensures few { array_vec_len result ≤ 16 }
{
    let mut loads = Headers::new();
    for k in 0..count {
        push_header(&mut loads, bytes, at + 32 * k);
    }
    loads
}
