//! Why a file is not loaded.

ghost use Rattle.std.specs.Prelude.{◌≡◌, Some};
ghost use Rattle.srcset.specs.Codes.{text_of};
ghost use Rattle.loader.specs.Fault.{code_of};

use srcset::Code;
use std::fmt;
use thiserror::Error;

/// Why a file is not loaded. Each variant has a code of its own, 901 to 907 in the order of the tests, and 801.
#[derive(Clone, Copy, Debug, PartialEq, Eq, Error)]
pub enum LoadFault {
    /// 901: the file has fewer than the 52 bytes of the ELF header.
    TooShort,
    /// 902: the identification is not that of ELF32, little endian, version 1.
    NotElf32,
    /// 903: `e_type` is not `ET_EXEC`.
    NotExecutable,
    /// 904: `e_machine` is not `EM_RISCV`, or `e_flags` is not 0.
    NotRiscV,
    /// 905: the table of program headers is malformed, or it or a segment's bytes lie outside the file.
    BadProgramHeader,
    /// 906: two segments share an address, or one passes the end of the address space.
    Overlap,
    /// 907: the segments take more than 134,217,728 bytes of memory.
    TooMuch,
    /// 801: an allocation was refused.
    Memory,
}

impl LoadFault {
    /// The code of the fault, 801 or 901 to 907.
    pub fn code(self) -> Code
        ensures { result ≡ code_of self }
    {
        match self {
            LoadFault::TooShort => Code::ShortHeader,
            LoadFault::NotElf32 => Code::NotElf32,
            LoadFault::NotExecutable => Code::NotExecutable,
            LoadFault::NotRiscV => Code::NotRiscV,
            LoadFault::BadProgramHeader => Code::BadProgramHeader,
            LoadFault::Overlap => Code::SegmentsOverlap,
            LoadFault::TooMuch => Code::TooMuchMemory,
            LoadFault::Memory => Code::OutOfMemory,
        }
    }
}

/// Shows the text of the code.
impl fmt::Display for LoadFault {
    ghost output = { λ fault. Some (text_of (code_of fault)) };

    fn fmt<W: fmt::Write>(&self, f: &mut fmt::Formatter<W>) -> fmt::Result {
        f.write_str(self.code().message())
    }
}
