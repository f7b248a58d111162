//! Faults: the diagnostics of the compiler where it rejects its input.
ghost use Rattle.std.specs.Prelude.{◌≡◌, ◌++◌, IfOk, OnOk, Some};
ghost use Rattle.std.specs.Prelude.{◌⊎◌};
ghost use Rattle.srcset.specs.Fault.{IsFaultOrMemory, IsFaultWith, IsMemoryFault, fault_line, place_text};

use crate::code::{Code, message};
use itoa::Buffer;
use std::alloc::{AllocError, Global};
use std::fmt;
use thiserror::Error;

/// The reason why the compiler rejected its input, and the place.
///
/// It is shown as the one line `FILE:LINE: CODE TEXT`, or `cc: CODE TEXT` where `file` is empty.
/// TEXT is the text of the code, as `message` gives it, followed by `text`.
#[derive(Debug, Drop, Error)]
pub struct Fault {
    /// The code, 101 to 907.
    pub code: u16,
    /// The name of the file, as the source presumes it to be (ISO/IEC 9899:2011 6.10.4). Empty where
    /// no file is to blame, and where the presumed name is not UTF-8.
    pub file: String,
    /// The line, counted from 1, or 0 where the fault concerns no line.
    pub line: u32,
    /// The text that this fault adds to that of its code: the tokens of an `#error`, each after a space,
    /// and else nothing.
    pub text: String,
}

impl Fault {
    /// Out of memory: code 801, no file, line 0. Allocates nothing.
    pub fn memory(alloc: Global) -> Fault
        ensures { IsMemoryFault result }
    {
        Fault {
            code: Code::OutOfMemory.number(),
            file: String::new(alloc),
            line: 0,
            text: String::new(alloc),
        }
    }

    /// The fault with this code at a line of a file, and no text of its own.
    ///
    /// Where memory runs out for the copy of the file's name, the fault is 801 instead.
    pub fn at(alloc: Global, code: Code, file: &str, line: u32) -> Fault
        ensures { IsFaultOrMemory result code file.now line }
    {
        match String::from_str(alloc, file) {
            Ok(file) => Fault {
                code: code.number(),
                file,
                line,
                text: String::new(alloc),
            },
            Err(_) => Fault::memory(alloc),
        }
    }

    /// The fault with this code at a line of a file, which adds a text to that of its code.
    ///
    /// Where memory runs out for a copy of the file's name or of the text, the fault is 801 instead.
    pub fn with_text(alloc: Global, code: Code, file: &str, line: u32, text: &str) -> Fault
        ensures { IsFaultWith result code file.now line text.now ⊎ IsMemoryFault result }
    {
        let Ok(file) = String::from_str(alloc, file) else {
            return Fault::memory(alloc);
        };
        let Ok(text) = String::from_str(alloc, text) else {
            return Fault::memory(alloc);
        };
        Fault {
            code: code.number(),
            file,
            line,
            text,
        }
    }

    /// The bytes of the line that shows the fault, without a newline at its end.
    ///
    /// Fails only where memory runs out.
    pub fn to_line(&self, alloc: Global) -> Result<Vec<u8>, AllocError>
        ensures { IfOk result (λ line. line.items ≡ fault_line self.now) }
    {
        let mut number = Buffer::new();
        let mut line = Vec::new(alloc);
        push_place(&mut line, self.file.as_str(), self.line)?;
        line.extend_from_slice(number.format(self.code).as_bytes())?;
        line.extend_from_slice(b" ")?;
        line.extend_from_slice(message(self.code).as_bytes())?;
        line.extend_from_slice(self.text.as_bytes())?;
        Ok(line)
    }
}

/// Prints the line that `Fault::to_line` returns.
impl fmt::Display for Fault {
    ghost output = { λ fault. Some (fault_line fault) };

    fn fmt<W: fmt::Write>(&self, f: &mut fmt::Formatter<W>) -> fmt::Result {
        if self.file.is_empty() {
            write!(f, "cc: ")?;
        } else {
            write!(f, "{}:{}: ", self.file, self.line)?;
        }
        write!(f, "{} {}{}", self.code, message(self.code), self.text)
    }
}

// Appends the place of a fault: `FILE:LINE: `, or `cc: ` where there is no file.
fn push_place(text: &mut Vec<u8>, file: &str, line: u32) -> Result<(), AllocError>
    ensures { OnOk result (text.new.items ≡ text.old.items ++ place_text file.now line) }
{
    if file.is_empty() {
        text.extend_from_slice(b"cc: ")?;
        return Ok(());
    }
    let mut number = Buffer::new();
    text.extend_from_slice(file.as_bytes())?;
    text.extend_from_slice(b":")?;
    text.extend_from_slice(number.format(line).as_bytes())?;
    text.extend_from_slice(b": ")?;
    Ok(())
}
