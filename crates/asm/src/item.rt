//! The input of the assembler.

ghost use Rattle.std.specs.Prelude.{◌≡◌, ℕ};

use rv32::{Five, Instr, Test};
use std::marker::Model;

/// A place in the code that other items name, numbered from 0.
#[derive(Clone, Copy, PartialEq, Eq, Debug)]
pub struct Label {
    number: usize,
}

impl Model for Label {
    ghost Value = { ℕ };

    ghost view = { λ l. l.number };

    ghost inverse = { λ n. record { number = n } };
}

impl Label {
    /// The label of this number.
    pub fn new(number: usize) -> Self
        ensures { result ≡ number }
    {
        Label { number }
    }

    /// The number of the label.
    pub fn number(self) -> usize
        ensures { result ≡ self }
    {
        self.number
    }
}

/// One item of the code.
///
/// The instructions are those of the RISC-V unprivileged ISA manual, chapter "RV32I Base Integer
/// Instruction Set"; the items other than `Plain` are its usual pseudoinstructions.
#[derive(Clone, Copy, Debug, Drop)]
pub enum Item {
    /// The address of the label; no bytes.
    Mark(Label),
    /// An instruction as it is; 4 bytes.
    Plain(Instr),
    /// A conditional branch to a label of any distance that a jump reaches: the branch itself,
    /// 4 bytes, or its opposite over a jump, 8 bytes.
    Branch {
        test: Test,
        left: Five,
        right: Five,
        to: Label,
    },
    /// JAL with x0, -1048576 to 1048574 bytes far; 4 bytes.
    Jump {
        to: Label,
    },
    /// AUIPC and JALR with x1, of any distance; 8 bytes.
    Call {
        to: Label,
    },
    /// A call that is near: JAL with x1, -1048576 to 1048574 bytes far; 4 bytes.
    NearCall {
        to: Label,
    },
    /// LUI and ADDI that load a 32-bit constant; 8 bytes.
    Constant {
        rd: Five,
        value: u32,
    },
    /// LUI and ADDI that load the address of a label; 8 bytes.
    LabelAddress {
        rd: Five,
        of: Label,
    },
    /// LUI and ADDI that load the address of a byte of the data, `offset` below 0x10000000 bytes
    /// after the data's begin, which is the first multiple of 4096 not below the code's end; 8 bytes.
    DataAddress {
        rd: Five,
        offset: u32,
    },
}
