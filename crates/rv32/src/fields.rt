//! The fields of an instruction word.

ghost use Rattle.std.specs.Prelude.{◌≡◌, ◌<◌, ◌+◌, ◌*◌, ◌/◌, ◌%◌, ◌^◌};
ghost use Rattle.rv32.specs.Words as words;
ghost use Rattle.rv32.specs.Words.{IsFive, IsShort, IsBranchOffset, IsUpper, IsJumpOffset};

use crate::instr::{BranchOffset, Five, JumpOffset, Short, Upper};

/// `opcode`: bits 0 to 6 (RISC-V unprivileged ISA, 2.2).
pub fn opcode(word: u32) -> u32
    ensures { result ≡ words.opcode word }
{
    word & 0x7f
}

/// `funct3`: bits 12 to 14 (2.2).
pub fn funct3(word: u32) -> u32
    ensures { result ≡ words.funct3 word }
{
    word >> 12 & 7
}

/// `funct7`: bits 25 to 31 (2.2).
pub fn funct7(word: u32) -> u32
    ensures { result ≡ words.funct7 word }
{
    word >> 25
}

/// The five bits from `low` on.
fn five_at(word: u32, low: u32) -> Five
    requires { low < 32 }
    ensures { result ≡ word / 2 ^ low % 2 ^ 5 }
{
    Five::new((word >> low & 0x1f) as u8)
}

/// `rd`, the register that is written: bits 7 to 11 (2.2).
pub fn rd(word: u32) -> Five
    ensures value { result ≡ words.rd word }
    ensures range { IsFive result }
{
    five_at(word, 7)
}

/// `rs1`, the first register that is read: bits 15 to 19 (2.2).
pub fn rs1(word: u32) -> Five
    ensures value { result ≡ words.rs1 word }
    ensures range { IsFive result }
{
    five_at(word, 15)
}

/// `rs2`, the second register that is read: bits 20 to 24 (2.2).
pub fn rs2(word: u32) -> Five
    ensures value { result ≡ words.rs2 word }
    ensures range { IsFive result }
{
    five_at(word, 20)
}

fn sign_extend_12(bits: u32) -> Short
    requires { bits < 2 ^ 12 }
    ensures { result ≡ words.sign_extended 11 bits }
{
    Short::new(if bits < 0x800 {
        bits
    } else {
        bits + 0xffff_f000
    })
}

/// The I-immediate, -2048 to 2047, modulo 2^32 (2.3).
pub fn immediate_i(word: u32) -> Short
    ensures value { result ≡ words.immediate_i word }
    ensures range { IsShort result }
{
    sign_extend_12(word >> 20)
}

/// The S-immediate, of stores, -2048 to 2047, modulo 2^32 (2.3).
pub fn immediate_s(word: u32) -> Short
    ensures value { result ≡ words.immediate_s word }
    ensures range { IsShort result }
{
    sign_extend_12((word >> 25) * 0x20 + word / 0x80 % 0x20)
}

/// The B-immediate, of branches, an even number from -4096 to 4094, modulo 2^32 (2.3).
pub fn immediate_b(word: u32) -> BranchOffset
    ensures value { result ≡ words.immediate_b word }
    ensures range { IsBranchOffset result }
{
    let bits = (word >> 31) * 0x1000
        + word / 0x80 % 2 * 0x800
        + word / 0x200_0000 % 0x40 * 0x20
        + word / 0x100 % 0x10 * 2;
    BranchOffset::new(if bits < 0x1000 {
        bits
    } else {
        bits + 0xffff_e000
    })
}

/// The U-immediate, a multiple of 4096, modulo 2^32 (2.3).
pub fn immediate_u(word: u32) -> Upper
    ensures value { result ≡ words.immediate_u word }
    ensures range { IsUpper result }
{
    Upper::new(word & 0xffff_f000)
}

/// The J-immediate, of `jal`, an even number from -1048576 to 1048574, modulo 2^32 (2.3).
pub fn immediate_j(word: u32) -> JumpOffset
    ensures value { result ≡ words.immediate_j word }
    ensures range { IsJumpOffset result }
{
    let bits = (word >> 31) * 0x10_0000
        + word / 0x1000 % 0x100 * 0x1000
        + word / 0x10_0000 % 2 * 0x800
        + word / 0x20_0000 % 0x400 * 2;
    JumpOffset::new(if bits < 0x10_0000 {
        bits
    } else {
        bits + 0xffe0_0000
    })
}
