//! Reading one source file.

use cc::read_source;
use cli_io::unread;
use io_ports::{IoPort, Port};
use srcset::{Fault, FileSet};
use std::io::BufReader;
use std::{fs, io};

/// The path of standard input.
const STANDARD: &str = "-";

/// Adds the file at a path to the set under a name; the path `-` is standard input. A file that is too large is refused before its name is checked.
pub fn read_file(rt: &HostRuntime, name: &str, path: &str, set: &mut FileSet) -> Result<(), Fault> {
    match read_bytes(rt, name, path) {
        Ok(bytes) => set.add(name, bytes),
        Err(fault) => Err(fault),
    }
}

/// The bytes of the source file at a path; faults have this name.
pub fn read_bytes(rt: &HostRuntime, name: &str, path: &str) -> Result<Vec<u8>, Fault> {
    let alloc = rt.alloc();
    if path == STANDARD {
        return match BufReader::new(alloc, rt.stdin()) {
            Ok(reader) => read_source(alloc, name, &mut IoPort::new(reader, io::sink())),
            Err(error) => Err(unread(alloc, name, &error)),
        };
    }
    let file = match fs::open(rt, path) {
        Ok(file) => file,
        Err(error) => return Err(unread(alloc, name, &error)),
    };
    match BufReader::new(alloc, file) {
        Ok(reader) => read_source(alloc, name, &mut IoPort::new(reader, io::sink())),
        Err(error) => Err(unread(alloc, name, &error)),
    }
}
