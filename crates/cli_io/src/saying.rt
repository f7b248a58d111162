//! The messages of a command, and the exit status that goes with each.

use crate::line::Line;
use crate::out_file::OutFile;
use io_ports::PortFault;
use srcset::{Code, Fault, write_text};
use std::alloc::{AllocError, Global};
use std::io;
use std::io::{BufWriter, ErrorKind, Write};

/// The message where a command would overwrite a file that it reads.
pub const TAKEN: &str = "OUT is one of the files that are read";

/// Prints the error in the command's words; returns the exit status.
pub fn say_usage(rt: &HostRuntime, text: &str) -> u8 {
    let _said = eprintln!(rt; "error: {text}");
    2
}

/// Prints a command's line, and returns its status; or prints that there was no memory for it.
pub fn tell(rt: &HostRuntime, line: &mut Line, status: u8) -> u8 {
    if line.is_cut() {
        return say_memory(rt);
    }
    let _said = rt.stderr().write_all(line.printable());
    status
}

/// Prints that the final output was refused; returns the exit status.
pub fn say_port(rt: &HostRuntime, fault: PortFault) -> u8 {
    let _said = eprintln!(rt; "cc: port fault {}", fault.code().number());
    126
}

/// Prints a fault in one line; returns the exit status.
pub fn say(rt: &HostRuntime, fault: &Fault) -> u8 {
    match line_of(rt.alloc(), fault) {
        Ok(mut line) => {
            let _said = rt.stderr().write_all(line.printable());
        }
        Err(_) => {
            let _said = eprintln!(rt; "{}", Fault::memory(rt.alloc()));
        }
    }
    1
}

/// The line of a fault.
fn line_of(alloc: Global, fault: &Fault) -> Result<Line, AllocError> {
    let text = fault.to_line(alloc)?;
    let mut line = Line::new(alloc)?;
    line.put(text.as_slice())?;
    line.put(b"\n".as_slice())?;
    Ok(line)
}

/// Writes a text to the file at a path, or to standard output where that is `-`; returns the exit status.
pub fn put_file(rt: &HostRuntime, path: &str, bytes: &[u8]) -> u8 {
    let Ok(mut writer) = BufWriter::new(rt.alloc(), OutFile::plain(rt, path)) else {
        return say_memory(rt);
    };
    let is_whole = write_text(&mut writer, bytes) && writer.flush().is_ok();
    if is_whole { 0 } else { say_unwritten(rt, path) }
}

/// Writes an executable file at a path, or to standard output where that is `-`; returns the exit status.
pub fn put_executable(rt: &HostRuntime, path: &str, bytes: &[u8]) -> u8 {
    let mut file = OutFile::executable(rt, path);
    let is_whole = write_text(&mut file, bytes) && file.flush().is_ok();
    if is_whole { 0 } else { say_unwritten(rt, path) }
}

/// Prints that a file, or standard output where the path is `-` or empty, cannot be written; returns the exit status.
pub fn say_unwritten(rt: &HostRuntime, path: &str) -> u8 {
    let shown = if path == "-" { "" } else { path };
    say(rt, &Fault::at(rt.alloc(), Code::CannotWrite, shown, 0))
}

/// Prints that memory ran out; returns the exit status.
pub fn say_memory(rt: &HostRuntime) -> u8 {
    say(rt, &Fault::memory(rt.alloc()))
}

/// Writes a text to standard output: the exit status where the whole command is then done.
pub fn put_out(rt: &HostRuntime, bytes: &[u8], status: u8) -> u8 {
    if write_text(&mut rt.stdout(), bytes) {
        status
    } else {
        say_unwritten(rt, "")
    }
}

/// Why a file was not read: it can't be, or there is no memory for it.
pub fn unread(alloc: Global, name: &str, error: &io::Error) -> Fault {
    if error.kind() == ErrorKind::OutOfMemory {
        Fault::memory(alloc)
    } else {
        Fault::at(alloc, Code::CannotRead, name, 0)
    }
}
