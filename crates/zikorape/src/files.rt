//! A set of source files from the texts that a caller gives.

ghost use Rattle.std.specs.Prelude.{◌≡◌, ◌≤◌, ◌↔◌, ◌++◌, ◌∷◌, ◌^◌, [], IsTrue, MatchOption, MatchResult, OnOk, IfErr, length};
ghost use Rattle.zikorape.specs.Given.{AreGiven, FailsToGive, IsFaultOfFile, total, text_or_empty};

use srcset::{Code, Fault, FileSet};
use std::alloc::Global;
use std::str;

/// How long a source file is that a caller gives: its name, and its bytes.
#[repr(C)]
#[derive(Clone, Copy)]
pub struct FileLengths {
    pub name: u64,
    pub bytes: u64,
}

/// The sum of all lengths; `None` where it is 2^64 or more.
fn total(files: &[FileLengths]) -> Option<u64>
    ensures { MatchOption result (2 ^ 64 ≤ total files.now) (λ sum. sum ≡ total files.now) }
{
    let mut sum: u64 = 0;
    for file in files {
        let Some(named) = sum.checked_add(file.name) else {
            return None;
        };
        let Some(whole) = named.checked_add(file.bytes) else {
            return None;
        };
        sum = whole;
    }
    Some(sum)
}

/// Whether the lengths add up to that of the texts.
pub fn fits(texts: &[u8], files: &[FileLengths]) -> bool
    ensures { IsTrue result ↔ (total files.now ≡ length texts.now) }
{
    match total(files) {
        Some(sum) => sum == texts.len() as u64,
        None => false,
    }
}

/// The set of the files whose names and bytes are the texts, one after another.
pub fn file_set(alloc: Global, texts: &[u8], files: &[FileLengths]) -> Result<FileSet, Fault>
    requires { total files.now ≡ length texts.now }
    ensures { MatchResult result (AreGiven texts.now files.now) (FailsToGive texts.now files.now) }
{
    let mut set = FileSet::new(alloc);
    let mut rest = texts;
    for file in files {
        let (name, after) = rest.split_at(file.name as usize);
        let (bytes, after) = after.split_at(file.bytes as usize);
        match add_file(alloc, &mut set, name, bytes) {
            Ok(()) => {}
            Err(fault) => return Err(fault),
        }
        rest = after;
    }
    Ok(set)
}

/// Adds a file. A name that is not UTF-8 is none that a file may have.
fn add_file(alloc: Global, set: &mut FileSet, name: &[u8], bytes: &[u8]) -> Result<(), Fault>
    ensures ok { OnOk result (set.new ≡ set.old ++ (name.now, bytes.now) ∷ []) }
    ensures fault { IfErr result (IsFaultOfFile set.old name.now bytes.now) }
{
    let Ok(name) = str::from_utf8(name) else {
        return Err(Fault::at(alloc, Code::BadFileName, "", 0));
    };
    let Ok(bytes) = bytes.to_vec(alloc) else {
        return Err(Fault::memory(alloc));
    };
    set.add(name, bytes)
}

/// The bytes as a text, which is empty where they are not UTF-8.
pub fn text_or_empty(bytes: &[u8]) -> &str
    ensures { result.now ≡ text_or_empty bytes.now }
{
    match str::from_utf8(bytes) {
        Ok(text) => text,
        Err(_) => "",
    }
}
