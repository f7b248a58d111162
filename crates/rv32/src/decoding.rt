//! From a word to its instruction.

ghost use Rattle.std.specs.Prelude.{IfSome, Some, None, ◌≢◌, ◌≡◌, ◌<◌, ◌+◌, ◌*◌, ◌/◌, ◌%◌, ◌^◌};
ghost use Rattle.rv32.specs.declared.instr.Instr.{Instr};
ghost use Rattle.rv32.specs.Table.{IsWordOf};
ghost use Rattle.rv32.specs.Words as words;
ghost use Rattle.rv32.specs.Words.{test_of, load_of, store_of, immediate_op_of, shift_of, register_op_of, decode_of, word_of, test_number, load_number, store_number, immediate_number, shift_number, register_number, InRange};

use crate::fields::{
    funct3, funct7, immediate_b, immediate_i, immediate_j, immediate_s, immediate_u, opcode, rd,
    rs1, rs2,
};
use crate::instr::{ImmediateOp, Instr, LoadKind, RegisterOp, ShiftOp, StoreKind, Test};

#[inline(always)]
fn decode_test(funct3: u32) -> Option<Test>
    ensures value { result ≡ test_of funct3 }
    ensures back { IfSome result (λ x. test_number x ≡ funct3) }
{
    match funct3 {
        0 => Some(Test::Equal),
        1 => Some(Test::NotEqual),
        4 => Some(Test::Less),
        5 => Some(Test::GreaterEqual),
        6 => Some(Test::LessUnsigned),
        7 => Some(Test::GreaterEqualUnsigned),
        _ => None,
    }
}

#[inline(always)]
fn decode_load(funct3: u32) -> Option<LoadKind>
    ensures value { result ≡ load_of funct3 }
    ensures back { IfSome result (λ x. load_number x ≡ funct3) }
{
    match funct3 {
        0 => Some(LoadKind::Byte),
        1 => Some(LoadKind::Half),
        2 => Some(LoadKind::Word),
        4 => Some(LoadKind::ByteUnsigned),
        5 => Some(LoadKind::HalfUnsigned),
        _ => None,
    }
}

#[inline(always)]
fn decode_store(funct3: u32) -> Option<StoreKind>
    ensures value { result ≡ store_of funct3 }
    ensures back { IfSome result (λ x. store_number x ≡ funct3) }
{
    match funct3 {
        0 => Some(StoreKind::Byte),
        1 => Some(StoreKind::Half),
        2 => Some(StoreKind::Word),
        _ => None,
    }
}

#[inline(always)]
fn decode_immediate(funct3: u32) -> Option<ImmediateOp>
    ensures value { result ≡ immediate_op_of funct3 }
    ensures back { IfSome result (λ x. immediate_number x ≡ funct3) }
{
    match funct3 {
        0 => Some(ImmediateOp::Add),
        2 => Some(ImmediateOp::Less),
        3 => Some(ImmediateOp::LessUnsigned),
        4 => Some(ImmediateOp::Xor),
        6 => Some(ImmediateOp::Or),
        7 => Some(ImmediateOp::And),
        _ => None,
    }
}

#[inline(always)]
fn decode_shift(function: u32) -> Option<ShiftOp>
    ensures value { result ≡ shift_of function }
    ensures back { IfSome result (λ x. shift_number x ≡ function) }
{
    match function {
        1 => Some(ShiftOp::Left),
        5 => Some(ShiftOp::Right),
        0x105 => Some(ShiftOp::RightArithmetic),
        _ => None,
    }
}

#[inline(always)]
fn decode_register(function: u32) -> Option<RegisterOp>
    ensures value { result ≡ register_op_of function }
    ensures back { IfSome result (λ x. register_number x ≡ function) }
{
    match function {
        0 => Some(RegisterOp::Add),
        1 => Some(RegisterOp::ShiftLeft),
        2 => Some(RegisterOp::Less),
        3 => Some(RegisterOp::LessUnsigned),
        4 => Some(RegisterOp::Xor),
        5 => Some(RegisterOp::ShiftRight),
        6 => Some(RegisterOp::Or),
        7 => Some(RegisterOp::And),
        8 => Some(RegisterOp::Mul),
        9 => Some(RegisterOp::MulHigh),
        10 => Some(RegisterOp::MulHighSignedUnsigned),
        11 => Some(RegisterOp::MulHighUnsigned),
        12 => Some(RegisterOp::Div),
        13 => Some(RegisterOp::DivUnsigned),
        14 => Some(RegisterOp::Rem),
        15 => Some(RegisterOp::RemUnsigned),
        0x100 => Some(RegisterOp::Sub),
        0x105 => Some(RegisterOp::ShiftRightArithmetic),
        _ => None,
    }
}

#[inline(always)]
fn function(word: u32) -> u32
    ensures { result ≡ words.function word }
{
    funct7(word) * 8 + funct3(word)
}

/// JALR.
#[inline(always)]
fn jump_and_link_register(word: u32) -> Option<Instr>
    requires { words.opcode word ≡ 0x67 }
    ensures value { result ≡ decode_of word }
    ensures word { IfSome result (λ i. word_of i ≡ word) }
    ensures range { IfSome result InRange }
{
    if funct3(word) == 0 {
        Some(Instr::Jalr {
            rd: rd(word),
            base: rs1(word),
            offset: immediate_i(word),
        })
    } else {
        None
    }
}

/// BEQ to BGEU.
#[inline(always)]
fn branch(word: u32) -> Option<Instr>
    requires { words.opcode word ≡ 0x63 }
    ensures value { result ≡ decode_of word }
    ensures word { IfSome result (λ i. word_of i ≡ word) }
    ensures range { IfSome result InRange }
{
    match decode_test(funct3(word)) {
        Some(test) => Some(Instr::Branch {
            test,
            left: rs1(word),
            right: rs2(word),
            offset: immediate_b(word),
        }),
        None => None,
    }
}

/// LB to LHU.
#[inline(always)]
fn load(word: u32) -> Option<Instr>
    requires { words.opcode word ≡ 0x03 }
    ensures value { result ≡ decode_of word }
    ensures word { IfSome result (λ i. word_of i ≡ word) }
    ensures range { IfSome result InRange }
{
    match decode_load(funct3(word)) {
        Some(kind) => Some(Instr::Load {
            kind,
            rd: rd(word),
            base: rs1(word),
            offset: immediate_i(word),
        }),
        None => None,
    }
}

/// SB to SW.
#[inline(always)]
fn store(word: u32) -> Option<Instr>
    requires { words.opcode word ≡ 0x23 }
    ensures value { result ≡ decode_of word }
    ensures word { IfSome result (λ i. word_of i ≡ word) }
    ensures range { IfSome result InRange }
{
    match decode_store(funct3(word)) {
        Some(kind) => Some(Instr::Store {
            kind,
            source: rs2(word),
            base: rs1(word),
            offset: immediate_s(word),
        }),
        None => None,
    }
}

/// SLLI, SRLI, SRAI.
#[inline(always)]
fn shift(word: u32) -> Option<Instr>
    requires opcode { words.opcode word ≡ 0x13 }
    requires shifts { words.funct3 word % 4 ≡ 1 }
    ensures value { result ≡ decode_of word }
    ensures word { IfSome result (λ i. word_of i ≡ word) }
    ensures range { IfSome result InRange }
{
    match decode_shift(function(word)) {
        Some(op) => Some(Instr::Shift {
            op,
            rd: rd(word),
            left: rs1(word),
            amount: rs2(word),
        }),
        None => None,
    }
}

/// ADDI to ANDI.
#[inline(always)]
fn immediate(word: u32) -> Option<Instr>
    requires opcode { words.opcode word ≡ 0x13 }
    requires shifts { words.funct3 word % 4 ≢ 1 }
    ensures value { result ≡ decode_of word }
    ensures word { IfSome result (λ i. word_of i ≡ word) }
    ensures range { IfSome result InRange }
{
    match decode_immediate(funct3(word)) {
        Some(op) => Some(Instr::Immediate {
            op,
            rd: rd(word),
            left: rs1(word),
            right: immediate_i(word),
        }),
        None => None,
    }
}

/// ADD to REMU.
#[inline(always)]
fn operation(word: u32) -> Option<Instr>
    requires { words.opcode word ≡ 0x33 }
    ensures value { result ≡ decode_of word }
    ensures word { IfSome result (λ i. word_of i ≡ word) }
    ensures range { IfSome result InRange }
{
    match decode_register(function(word)) {
        Some(op) => Some(Instr::Op {
            op,
            rd: rd(word),
            left: rs1(word),
            right: rs2(word),
        }),
        None => None,
    }
}

/// FENCE.
#[inline(always)]
fn fence(word: u32) -> Option<Instr>
    requires { words.opcode word ≡ 0x0f }
    ensures value { result ≡ decode_of word }
    ensures word { IfSome result (λ i. word_of i ≡ word) }
    ensures range { IfSome result InRange }
{
    if funct3(word) == 0 {
        Some(Instr::Fence {
            rd: rd(word),
            source: rs1(word),
            bits: immediate_i(word),
        })
    } else {
        None
    }
}

/// The instruction that a word is, by its opcode.
#[inline(always)]
fn by_opcode(word: u32) -> Option<Instr>
    ensures value { result ≡ decode_of word }
    ensures word { IfSome result (λ i. word_of i ≡ word) }
    ensures range { IfSome result InRange }
{
    match opcode(word) {
        0x37 => Some(Instr::Lui {
            rd: rd(word),
            upper: immediate_u(word),
        }),
        0x17 => Some(Instr::Auipc {
            rd: rd(word),
            upper: immediate_u(word),
        }),
        0x6f => Some(Instr::Jal {
            rd: rd(word),
            offset: immediate_j(word),
        }),
        0x67 => jump_and_link_register(word),
        0x63 => branch(word),
        0x03 => load(word),
        0x23 => store(word),
        0x13 => if funct3(word) % 4 == 1 {
            shift(word)
        } else {
            immediate(word)
        },
        0x33 => operation(word),
        0x0f => fence(word),
        _ => match word {
            0x0000_0073 => Some(Instr::Ecall),
            0x0010_0073 => Some(Instr::Ebreak),
            _ => None,
        },
    }
}

/// The instruction that a word is; `None` where it is no instruction of RV32I or of the extension M
/// (unprivileged ISA manual, chapters "RV32I Base Integer Instruction Set" and "M Extension").
#[inline(always)]
pub fn decode(word: u32) -> Option<Instr>
    // By the table: an instruction is answered exactly where the word is its word.
    ensures found { IfSome result (λ i. IsWordOf word i) }
    ensures only { (i : Instr) → IsWordOf word i → result ≡ Some i }
    ensures none { ((i : Instr) → ¬ IsWordOf word i) → result ≡ None }
    // By the fields of the word, and back.
    ensures value { result ≡ decode_of word }
    ensures word { IfSome result (λ i. word_of i ≡ word) }
{
    by_opcode(word)
}
