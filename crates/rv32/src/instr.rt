//! The instructions of RV32I and of the extension M, by the formats of their words.

ghost use Rattle.std.specs.Prelude.{◌≡◌, ◌<◌, ◌+◌, ◌%◌, ◌^◌, ℕ};

use std::marker::Model;

/// A number of five bits, 0 to 31: a register, x0 to x31, or the distance of a shift.
#[derive(Clone, Copy, PartialEq, Eq, Debug)]
pub struct Five {
    number: u8,
}

impl Model for Five {
    ghost Value = { ℕ };

    ghost view = { λ r. r.number };

    ghost invariant = { λ r. r.number < 2 ^ 5 };

    ghost inverse = { λ n. record { number = n } };
}

impl Five {
    /// The number `number`, 0 to 31.
    pub fn new(number: u8) -> Self
        requires { number < 2 ^ 5 }
        ensures { result ≡ number }
    {
        Five { number }
    }

    /// The number, 0 to 31.
    pub fn get(self) -> u8
        ensures value { result ≡ self }
        ensures range { self < 2 ^ 5 }
    {
        self.number
    }
}

/// A signed number of 12 bits, -2048 to 2047, sign-extended to 32 bits: the I- and the S-immediate
/// (unprivileged ISA manual, 2.3).
#[derive(Clone, Copy, PartialEq, Eq, Debug)]
pub struct Short {
    bits: u32,
}

impl Model for Short {
    ghost Value = { ℕ };

    ghost view = { λ r. r.bits };

    ghost invariant = { λ r. (r.bits + 2 ^ 11) % 2 ^ 32 < 2 ^ 12 };

    ghost inverse = { λ n. record { bits = n } };
}

impl Short {
    /// The number whose two's complement on 32 bits is `bits`.
    pub fn new(bits: u32) -> Self
        requires { (bits + 2 ^ 11) % 2 ^ 32 < 2 ^ 12 }
        ensures { result ≡ bits }
    {
        Short { bits }
    }

    /// Its two's complement on 32 bits.
    pub fn get(self) -> u32
        ensures value { result ≡ self }
        ensures range { (self + 2 ^ 11) % 2 ^ 32 < 2 ^ 12 }
    {
        self.bits
    }
}

/// A word whose lower 12 bits are zero: the U-immediate (unprivileged ISA manual, 2.3).
#[derive(Clone, Copy, PartialEq, Eq, Debug)]
pub struct Upper {
    word: u32,
}

impl Model for Upper {
    ghost Value = { ℕ };

    ghost view = { λ r. r.word };

    ghost invariant = { λ r. r.word % 2 ^ 12 ≡ 0 };

    ghost inverse = { λ n. record { word = n } };
}

impl Upper {
    /// The word `word`, a multiple of 4096.
    pub fn new(word: u32) -> Self
        requires { word % 2 ^ 12 ≡ 0 }
        ensures { result ≡ word }
    {
        Upper { word }
    }

    /// The word, a multiple of 4096.
    pub fn get(self) -> u32
        ensures value { result ≡ self }
        ensures range { self % 2 ^ 12 ≡ 0 }
    {
        self.word
    }
}

/// An even number of bytes, -4096 to 4094, sign-extended to 32 bits: the B-immediate (unprivileged
/// ISA manual, 2.3).
#[derive(Clone, Copy, PartialEq, Eq, Debug)]
pub struct BranchOffset {
    distance: u32,
}

impl Model for BranchOffset {
    ghost Value = { ℕ };

    ghost view = { λ r. r.distance };

    ghost invariant = { λ r. ((r.distance + 2 ^ 12) % 2 ^ 32 < 2 ^ 13) × (r.distance % 2 ≡ 0) };

    ghost inverse = { λ n. record { distance = n } };
}

impl BranchOffset {
    /// The offset whose two's complement on 32 bits is `distance`.
    pub fn new(distance: u32) -> Self
        requires range { (distance + 2 ^ 12) % 2 ^ 32 < 2 ^ 13 }
        requires even { distance % 2 ≡ 0 }
        ensures { result ≡ distance }
    {
        BranchOffset { distance }
    }

    /// Its two's complement on 32 bits.
    pub fn get(self) -> u32
        ensures value { result ≡ self }
        ensures range { (self + 2 ^ 12) % 2 ^ 32 < 2 ^ 13 }
        ensures even { self % 2 ≡ 0 }
    {
        self.distance
    }
}

/// An even number of bytes, -1048576 to 1048574, sign-extended to 32 bits: the J-immediate
/// (unprivileged ISA manual, 2.3).
#[derive(Clone, Copy, PartialEq, Eq, Debug)]
pub struct JumpOffset {
    bytes: u32,
}

impl Model for JumpOffset {
    ghost Value = { ℕ };

    ghost view = { λ r. r.bytes };

    ghost invariant = { λ r. ((r.bytes + 2 ^ 20) % 2 ^ 32 < 2 ^ 21) × (r.bytes % 2 ≡ 0) };

    ghost inverse = { λ n. record { bytes = n } };
}

impl JumpOffset {
    /// The offset whose two's complement on 32 bits is `bytes`.
    pub fn new(bytes: u32) -> Self
        requires range { (bytes + 2 ^ 20) % 2 ^ 32 < 2 ^ 21 }
        requires even { bytes % 2 ≡ 0 }
        ensures { result ≡ bytes }
    {
        JumpOffset { bytes }
    }

    /// Its two's complement on 32 bits.
    pub fn get(self) -> u32
        ensures value { result ≡ self }
        ensures range { (self + 2 ^ 20) % 2 ^ 32 < 2 ^ 21 }
        ensures even { self % 2 ≡ 0 }
    {
        self.bytes
    }
}

/// The comparison of two registers by a conditional branch (unprivileged ISA manual, 2.5.2): BEQ, BNE, BLT,
/// BGE, BLTU, BGEU. The comparisons are signed unless they say `Unsigned`.
#[derive(Clone, Copy, PartialEq, Eq, Debug)]
pub enum Test {
    Equal,
    NotEqual,
    Less,
    GreaterEqual,
    LessUnsigned,
    GreaterEqualUnsigned,
}

/// The kind of a load from memory (unprivileged ISA manual, 2.6): LB, LH, LW, LBU, LHU. A value of
/// under 32 bits is sign-extended, or zero-extended where the name says `Unsigned`.
#[derive(Clone, Copy, PartialEq, Eq, Debug)]
pub enum LoadKind {
    Byte,
    Half,
    Word,
    ByteUnsigned,
    HalfUnsigned,
}

/// How much a store puts into memory (unprivileged ISA manual, 2.6): SB, SH, SW.
#[derive(Clone, Copy, PartialEq, Eq, Debug)]
pub enum StoreKind {
    Byte,
    Half,
    Word,
}

/// Operations on a register and an immediate (unprivileged ISA manual, 2.4.1): ADDI, SLTI, SLTIU,
/// XORI, ORI, ANDI.
#[derive(Clone, Copy, PartialEq, Eq, Debug)]
pub enum ImmediateOp {
    Add,
    Less,
    LessUnsigned,
    Xor,
    Or,
    And,
}

/// Shifts by a constant (unprivileged ISA manual, 2.4.1): SLLI, SRLI, SRAI.
#[derive(Clone, Copy, PartialEq, Eq, Debug)]
pub enum ShiftOp {
    Left,
    Right,
    RightArithmetic,
}

/// Operations on two registers (unprivileged ISA manual, 2.4.2, and the chapter on the extension M):
/// ADD, SUB, SLL, SLT, SLTU, XOR, SRL, SRA, OR, AND; MUL, MULH, MULHSU, MULHU, DIV, DIVU, REM, REMU.
#[derive(Clone, Copy, PartialEq, Eq, Debug)]
pub enum RegisterOp {
    Add,
    Sub,
    ShiftLeft,
    Less,
    LessUnsigned,
    Xor,
    ShiftRight,
    ShiftRightArithmetic,
    Or,
    And,
    Mul,
    MulHigh,
    MulHighSignedUnsigned,
    MulHighUnsigned,
    Div,
    DivUnsigned,
    Rem,
    RemUnsigned,
}

/// One instruction of RV32I or of the extension M. Its fields have just the values that a word can
/// have.
#[derive(Clone, Copy, PartialEq, Eq, Debug)]
pub enum Instr {
    /// LUI.
    Lui {
        rd: Five,
        upper: Upper,
    },
    /// AUIPC.
    Auipc {
        rd: Five,
        upper: Upper,
    },
    /// JAL.
    Jal {
        rd: Five,
        offset: JumpOffset,
    },
    /// JALR.
    Jalr {
        rd: Five,
        base: Five,
        offset: Short,
    },
    /// BEQ to BGEU; `left` is rs1 and `right` rs2.
    Branch {
        test: Test,
        left: Five,
        right: Five,
        offset: BranchOffset,
    },
    /// LB to LHU; `base` is rs1.
    Load {
        kind: LoadKind,
        rd: Five,
        base: Five,
        offset: Short,
    },
    /// SB to SW; `base` is rs1 and `source` rs2.
    Store {
        kind: StoreKind,
        source: Five,
        base: Five,
        offset: Short,
    },
    /// ADDI to ANDI; `left` is rs1.
    Immediate {
        op: ImmediateOp,
        rd: Five,
        left: Five,
        right: Short,
    },
    /// SLLI, SRLI, SRAI; `left` is rs1, and `amount` is in the field of rs2.
    Shift {
        op: ShiftOp,
        rd: Five,
        left: Five,
        amount: Five,
    },
    /// ADD to REMU; `left` is rs1 and `right` rs2.
    Op {
        op: RegisterOp,
        rd: Five,
        left: Five,
        right: Five,
    },
    /// FENCE, with every setting of its other fields; `source` is rs1, and `bits` the immediate.
    Fence {
        rd: Five,
        source: Five,
        bits: Short,
    },
    /// ECALL.
    Ecall,
    /// EBREAK.
    Ebreak,
}
