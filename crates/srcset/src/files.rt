//! The source files of a translation unit.
ghost use Rattle.std.specs.Prelude.{◌≡◌, ◌↔◌, ◌++◌, ◌∷◌, [], ◌≤◌, ℕ, List, IsTrue, length, is_some, IsSome, None, IfSome, IfErr, OnOk, OnErr};
ghost use Rattle.std.specs.List.{list_all};
ghost use Rattle.std.specs.Option.{option_copied};
ghost use Rattle.srcset.specs.Files.{add_fault, file_of, names_of, max_file_bytes, is_name_byte as name_byte, is_file_name as file_name};
ghost use Rattle.srcset.specs.NameTable.{NumbersOnce};
ghost use Rattle.srcset.specs.Fault.{IsFaultOf};

use crate::code::Code;
use crate::fault::Fault;
use indexmap::IndexMap;
use std::alloc::Global;
use std::marker::Model;

/// The greatest size of a file, in bytes.
pub const MAX_FILE_BYTES: usize = 1048576;

/// The greatest number of files in a set.
pub const MAX_FILES: usize = 256;

/// The greatest length of a file's name, in bytes.
pub const MAX_NAME_BYTES: usize = 255;

/// The source files that one translation unit may be read from: a map from name to bytes, in the
/// order in which the files were added.
///
/// A name has 1 to 255 bytes of 0x20 to 0x7E without `"`, `\`, `<` and `>`, so that each name can be
/// written in an `#include` of either form (ISO/IEC 9899:2011 6.4.7). A file has at most 1,048,576
/// bytes, and a set at most 256 files.
#[derive(Drop)]
pub struct FileSet {
    alloc: Global,
    files: IndexMap<String, Vec<u8>>,
}

impl Model for FileSet {
    ghost use Rattle.std.specs.Prelude.{map};
    ghost use Rattle.std.specs.String.{string_bytes};
    ghost use Rattle.srcset.specs.Files.{Files, IsFileMap};

    ghost Value = { Files };

    ghost view = { λ s. map (λ f. (string_bytes f.0, f.1.items)) s.files.entries };

    ghost invariant = { λ s. IsFileMap (map (λ f. (string_bytes f.0, f.1.items)) s.files.entries) };
}

impl FileSet {
    /// The set with no file. It stores `alloc`, and allocates nothing yet.
    pub fn new(alloc: Global) -> FileSet
        ensures { result ≡ [] }
    {
        FileSet {
            alloc,
            files: IndexMap::new(alloc),
        }
    }

    /// The bytes of the file with this name, or `None` where no file has it. Allocates nothing.
    pub fn get(&self, name: &str) -> Option<&[u8]>
        ensures bytes { option_copied result ≡ file_of self.now name.now }
        ensures small { IfSome result (λ bytes. length bytes.now ≤ max_file_bytes) }
        ensures named { IsSome result → IsTrue (file_name name.now) }
    {
        let bytes = self.files.get(name)?;
        Some(bytes.as_slice())
    }

    /// The bytes of the file whose name has these bytes, or `None` where no file has it. Allocates nothing.
    pub fn find(&self, name: &[u8]) -> Option<&[u8]>
        ensures bytes { option_copied result ≡ file_of self.now name.now }
        ensures small { IfSome result (λ bytes. length bytes.now ≤ max_file_bytes) }
    {
        let files = &self.files;
        let Ok(name) = str::from_utf8(name) else {
            return None;
        };
        let bytes = files.get(name)?;
        Some(bytes.as_slice())
    }

    /// Whether a file has this name. Allocates nothing.
    pub fn contains(&self, name: &str) -> bool
        ensures { result ≡ is_some (file_of self.now name.now) }
    {
        self.files.contains_key(name)
    }

    /// How many files there are, 0 to 256.
    pub fn len(&self) -> usize
        ensures { result ≡ length self.now }
    {
        self.files.len()
    }

    /// Whether there is no file.
    pub fn is_empty(&self) -> bool
        ensures { IsTrue result ↔ (self.now ≡ []) }
    {
        self.files.is_empty()
    }

    /// Adds a file after the existing ones.
    ///
    /// Fails by the first of these rules that applies, and leaves the set as it was: the name is not one
    /// that a file may have (102), it is in use (101), the file has more than 1,048,576 bytes (701),
    /// there are 256 files (702). The fault has the file's name and line 0. Where memory runs out it
    /// is 801, and the set is as it was too.
    pub fn add(&mut self, name: &str, bytes: Vec<u8>) -> Result<(), Fault>
        ensures ok { OnOk result (self.new ≡ self.old ++ (name.now, bytes.items) ∷ []) }
        ensures accepts { OnOk result (add_fault self.old name.now bytes.items ≡ None) }
        ensures err { OnErr result (self.new ≡ self.old) }
        ensures fault { IfErr result (λ fault. IsFaultOf fault (add_fault self.old name.now bytes.items) name.now 0) }
        ensures once { NumbersOnce (names_of self.new) }
    {
        if let Some(code) = self.add_fault_code(name, bytes.len()) {
            return Err(Fault::at(self.alloc, code, name, 0));
        }
        let Ok(key) = String::from_str(self.alloc, name) else {
            return Err(Fault::memory(self.alloc));
        };
        let Ok(_) = self.files.insert(key, bytes) else {
            return Err(Fault::memory(self.alloc));
        };
        Ok(())
    }

    // The code of the first rule that adding a file of this size breaks.
    fn add_fault_code(&self, name: &str, size: usize) -> Option<Code>
        ensures { (bytes : List ℕ) → length bytes ≡ size → result ≡ add_fault self.now name.now bytes }
    {
        if !is_file_name(name) {
            return Some(Code::BadFileName);
        }
        if self.contains(name) {
            return Some(Code::FileGivenTwice);
        }
        if size > MAX_FILE_BYTES {
            return Some(Code::FileSizeLimit);
        }
        if self.len() >= MAX_FILES {
            return Some(Code::FileLimit);
        }
        None
    }
}

// Whether a file may have this name.
fn is_file_name(name: &str) -> bool
    ensures { result ≡ file_name name.now }
{
    1 <= name.len() && name.len() <= MAX_NAME_BYTES && are_name_bytes(name.as_bytes())
}

fn are_name_bytes(bytes: &[u8]) -> bool
    ensures { result ≡ list_all name_byte bytes.now }
{
    bytes.iter().all(|b| is_name_byte(*b))
}

// Whether a file's name may contain this byte.
fn is_name_byte(b: u8) -> bool
    ensures { result ≡ name_byte b }
{
    0x20 <= b && b <= 0x7e && !(b == b'"' || b == b'\\' || b == b'<' || b == b'>')
}
