//! The messages of the program on standard error.

ghost use Rattle.std.specs.Prelude.{◌≡◌, ◌++◌, [], codes, decimal, true, IfOk, OnOk};
ghost use Rattle.std.specs.Io.KnownBytes.{Appends};
ghost use Rattle.srcset.specs.NameTable.{file_name_of};
ghost use Rattle.srcset.specs.Codes.{message_of};
ghost use Rattle.srcset.specs.Fault.{place_text};
ghost use Rattle.cc.specs.Reported.{Says, fault_text, memory_text, budget_text, trap_text, undefined_text, port_text, cause_name, behind_file};
ghost use Rattle.srcset.specs.Writing.{TakesBeginning};

use arrayvec::ArrayString;
use ctypes::Undef;
use io_ports::PortFault;
use itoa::Buffer;
use rv32::Cause;
use srcset::{Fault, Names, Pos, message, write_text};
use std::alloc::{AllocError, Global};
use std::fmt;
use std::fmt::Write as _;
use std::io::Write;

/// The line of 801, out of memory, which allocates nothing.
const OUT_OF_MEMORY: &[u8] = b"cc: 801 out of memory\n";

/// Room for the longest text that names no file.
const ROOM: usize = 64;

/// The line of a fault: at once where there is memory for it, and else piece by piece.
pub fn say_fault<E: Write>(alloc: Global, fault: &Fault, err: &mut E)
    ensures { Says (record { before = E.contents err.old; after = E.contents err.new }) (fault_text fault.now) }
{
    match fault_text(alloc, fault) {
        Ok(line) => {
            let _whole = write_text(err, line.as_slice());
        }
        Err(_) => {
            let _whole = write_fault(err, fault);
        }
    }
}

fn fault_text(alloc: Global, fault: &Fault) -> Result<Vec<u8>, AllocError>
    ensures { IfOk result (λ t. t.items ≡ fault_text fault.now) }
{
    let mut line = fault.to_line(alloc)?;
    line.push(b'\n')?;
    Ok(line)
}

/// Writes one text and then another. `false` where the writer refused; it then took a beginning of both.
fn write_both<E: Write>(err: &mut E, first: &[u8], second: &[u8]) -> bool
    ensures all { result ≡ true → Appends (E.contents err.old) (E.contents err.new) (first.now ++ second.now) }
    ensures some { TakesBeginning (E.contents err.old) (E.contents err.new) (first.now ++ second.now) }
{
    if !write_text(err, first) {
        return false;
    }
    write_text(err, second)
}

/// The place of a fault: `FILE:LINE: `, or `cc: ` where there is no file.
fn write_place<E: Write>(err: &mut E, file: &str, line: u32) -> bool
    ensures all { result ≡ true → Appends (E.contents err.old) (E.contents err.new) (place_text file.now line) }
    ensures some { TakesBeginning (E.contents err.old) (E.contents err.new) (place_text file.now line) }
{
    if file.is_empty() {
        return write_text(err, b"cc: ");
    }
    let mut number = Buffer::new();
    if !write_both(err, file.as_bytes(), b":") {
        return false;
    }
    write_both(err, number.format(line).as_bytes(), b": ")
}

/// The message of the fault: `CODE TEXT`, without the text that the fault adds.
fn write_message<E: Write>(err: &mut E, code: u16) -> bool
    ensures all { result ≡ true → Appends (E.contents err.old) (E.contents err.new) (decimal code ++ codes " " ++ message_of code) }
    ensures some { TakesBeginning (E.contents err.old) (E.contents err.new) (decimal code ++ codes " " ++ message_of code) }
{
    let mut number = Buffer::new();
    if !write_both(err, number.format(code).as_bytes(), b" ") {
        return false;
    }
    write_text(err, message(code).as_bytes())
}

/// The line of a fault, which takes no memory.
fn write_fault<E: Write>(err: &mut E, fault: &Fault) -> bool
    ensures { TakesBeginning (E.contents err.old) (E.contents err.new) (fault_text fault.now) }
{
    if !write_place(err, fault.file.as_str(), fault.line) {
        return false;
    }
    if !write_message(err, fault.code) {
        return false;
    }
    write_both(err, fault.text.as_bytes(), b"\n")
}

/// That the instructions allowed were not enough.
pub fn say_budget<E: Write>(err: &mut E)
    ensures { TakesBeginning (E.contents err.old) (E.contents err.new) budget_text }
{
    let _whole = write_text(err, b"cc: budget used\n");
}

/// Why and where the program trapped, which takes no memory to say.
pub fn say_trap<E: Write>(pc: u32, cause: Cause, err: &mut E)
    ensures { Says (record { before = E.contents err.old; after = E.contents err.new }) (trap_text pc cause) }
{
    let mut line = ArrayString::<ROOM>::new();
    if put_trap(&mut line, pc, cause).is_ok() {
        let _whole = write_text(err, line.as_str().as_bytes());
    }
}

fn put_trap(line: &mut ArrayString<ROOM>, pc: u32, cause: Cause) -> fmt::Result
    ensures { OnOk result (line.new.bytes ≡ line.old.bytes ++ trap_text pc cause) }
{
    write!(line, "cc: trap {} at 0x{pc:08X}\n", cause_name(cause))
}

/// Which undefined behaviour a program did, and where, which takes no memory to say.
pub fn say_undefined<E: Write>(names: &Names, act: Undef, at: Pos, err: &mut E)
    ensures { Says (record { before = E.contents err.old; after = E.contents err.new }) (undefined_text (file_name_of names.now at.file) at.line act) }
{
    let file = names.file_name(at.file);
    if file.is_empty() {
        say_nowhere(act, err);
    } else {
        say_somewhere(file, at.line, act, err);
    }
}

fn say_nowhere<E: Write>(act: Undef, err: &mut E)
    ensures { Says (record { before = E.contents err.old; after = E.contents err.new }) (undefined_text [] 0 act) }
{
    let mut line = ArrayString::<ROOM>::new();
    if put_nowhere(&mut line, act).is_ok() {
        let _whole = write_text(err, line.as_str().as_bytes());
    }
}

fn put_nowhere(line: &mut ArrayString<ROOM>, act: Undef) -> fmt::Result
    ensures { OnOk result (line.new.bytes ≡ line.old.bytes ++ undefined_text [] 0 act) }
{
    write!(line, "cc: undefined U{}\n", act.number())
}

fn say_somewhere<E: Write>(file: &str, at: u32, act: Undef, err: &mut E)
    ensures { Says (record { before = E.contents err.old; after = E.contents err.new }) (file.now ++ behind_file at act) }
{
    let mut line = ArrayString::<ROOM>::new();
    if put_somewhere(&mut line, at, act).is_ok() {
        let _whole = write_both(err, file.as_bytes(), line.as_str().as_bytes());
    }
}

fn put_somewhere(line: &mut ArrayString<ROOM>, at: u32, act: Undef) -> fmt::Result
    ensures { OnOk result (line.new.bytes ≡ line.old.bytes ++ behind_file at act) }
{
    write!(line, ":{at}: undefined U{}\n", act.number())
}

/// That there was no memory, which takes none to say.
pub fn say_memory<E: Write>(err: &mut E)
    ensures { TakesBeginning (E.contents err.old) (E.contents err.new) memory_text }
{
    let _whole = write_text(err, OUT_OF_MEMORY);
}

/// That the port refused, which takes no memory to say.
pub fn say_port<E: Write>(fault: PortFault, err: &mut E)
    ensures { TakesBeginning (E.contents err.old) (E.contents err.new) (port_text fault) }
{
    let _whole = write_text(err, port_text(fault));
}

fn port_text(fault: PortFault) -> &'static [u8]
    ensures { result.now ≡ port_text fault }
{
    match fault {
        PortFault::Memory => b"cc: port fault 801\n",
        PortFault::Read => b"cc: port fault 802\n",
        PortFault::Write => b"cc: port fault 803\n",
    }
}

fn cause_name(cause: Cause) -> &'static str
    ensures { result.now ≡ cause_name cause }
{
    match cause {
        Cause::Illegal => "Illegal",
        Cause::FetchFault => "FetchFault",
        Cause::Target => "Target",
        Cause::Misaligned => "Misaligned",
        Cause::LoadFault => "LoadFault",
        Cause::StoreFault => "StoreFault",
        Cause::Break => "Break",
        Cause::BadCall => "BadCall",
    }
}
