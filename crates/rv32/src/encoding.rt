//! From an instruction to its word.

ghost use Rattle.std.specs.Prelude.{◌≡◌, ◌<◌, ◌+◌, ◌*◌, ◌/◌, ◌%◌, ◌^◌, Some};
ghost use Rattle.rv32.specs.Table.{IsWordOf};
ghost use Rattle.rv32.specs.Words as words;
ghost use Rattle.rv32.specs.Words.{InRange, IsFive, IsShort, word_of, decode_of, test_of, load_of, store_of, immediate_op_of, shift_of, register_op_of, test_number, load_number, store_number, immediate_number, shift_number, register_number};

use crate::instr::{
    Five, ImmediateOp, Instr, LoadKind, RegisterOp, ShiftOp, Short, StoreKind, Test,
};

fn test_code(test: Test) -> u32
    ensures value { result ≡ test_number test }
    ensures again { test_of result ≡ Some test }
    ensures small { result < 8 }
{
    match test {
        Test::Equal => 0,
        Test::NotEqual => 1,
        Test::Less => 4,
        Test::GreaterEqual => 5,
        Test::LessUnsigned => 6,
        Test::GreaterEqualUnsigned => 7,
    }
}

fn load_code(kind: LoadKind) -> u32
    ensures value { result ≡ load_number kind }
    ensures again { load_of result ≡ Some kind }
    ensures small { result < 8 }
{
    match kind {
        LoadKind::Byte => 0,
        LoadKind::Half => 1,
        LoadKind::Word => 2,
        LoadKind::ByteUnsigned => 4,
        LoadKind::HalfUnsigned => 5,
    }
}

fn store_code(kind: StoreKind) -> u32
    ensures value { result ≡ store_number kind }
    ensures again { store_of result ≡ Some kind }
    ensures small { result < 8 }
{
    match kind {
        StoreKind::Byte => 0,
        StoreKind::Half => 1,
        StoreKind::Word => 2,
    }
}

fn immediate_code(op: ImmediateOp) -> u32
    ensures value { result ≡ immediate_number op }
    ensures again { immediate_op_of result ≡ Some op }
    ensures small { result < 8 }
{
    match op {
        ImmediateOp::Add => 0,
        ImmediateOp::Less => 2,
        ImmediateOp::LessUnsigned => 3,
        ImmediateOp::Xor => 4,
        ImmediateOp::Or => 6,
        ImmediateOp::And => 7,
    }
}

fn shift_code(op: ShiftOp) -> u32
    ensures value { result ≡ shift_number op }
    ensures again { shift_of result ≡ Some op }
    ensures small { result < 1024 }
{
    match op {
        ShiftOp::Left => 1,
        ShiftOp::Right => 5,
        ShiftOp::RightArithmetic => 0x105,
    }
}

fn register_code(op: RegisterOp) -> u32
    ensures value { result ≡ register_number op }
    ensures again { register_op_of result ≡ Some op }
    ensures small { result < 1024 }
{
    match op {
        RegisterOp::Add => 0,
        RegisterOp::ShiftLeft => 1,
        RegisterOp::Less => 2,
        RegisterOp::LessUnsigned => 3,
        RegisterOp::Xor => 4,
        RegisterOp::ShiftRight => 5,
        RegisterOp::Or => 6,
        RegisterOp::And => 7,
        RegisterOp::Mul => 8,
        RegisterOp::MulHigh => 9,
        RegisterOp::MulHighSignedUnsigned => 10,
        RegisterOp::MulHighUnsigned => 11,
        RegisterOp::Div => 12,
        RegisterOp::DivUnsigned => 13,
        RegisterOp::Rem => 14,
        RegisterOp::RemUnsigned => 15,
        RegisterOp::Sub => 0x100,
        RegisterOp::ShiftRightArithmetic => 0x105,
    }
}

/// A word of its fields; `rd`, `rs1` and `rs2` may also be parts of an immediate.
fn pack(opcode: u32, rd: u32, funct3: u32, rs1: u32, rs2: u32, funct7: u32) -> u32
    requires opcode { opcode < 2 ^ 7 }
    requires rd { rd < 2 ^ 5 }
    requires funct3 { funct3 < 2 ^ 3 }
    requires rs1 { rs1 < 2 ^ 5 }
    requires rs2 { rs2 < 2 ^ 5 }
    requires funct7 { funct7 < 2 ^ 7 }
    ensures { result ≡ words.pack opcode rd funct3 rs1 rs2 funct7 }
{
    opcode + rd * 0x80 + funct3 * 0x1000 + rs1 * 0x8000 + rs2 * 0x10_0000 + funct7 * 0x200_0000
}

/// A word with an immediate of 12 bits at the top.
fn pack_short(opcode: u32, rd: Five, funct3: u32, rs1: Five, bits: Short) -> u32
    requires opcode { opcode < 2 ^ 7 }
    requires funct3 { funct3 < 2 ^ 3 }
    ensures value { result ≡ words.pack opcode rd funct3 rs1 0 0 + words.placed_i bits }
    ensures ranges { IsFive rd × IsFive rs1 × IsShort bits }
{
    pack(
        opcode,
        u32::from(rd.get()),
        funct3,
        u32::from(rs1.get()),
        0,
        0,
    ) + bits.get() % 0x1000 * 0x10_0000
}

/// The word of an instruction, by its format.
fn by_format(instr: Instr) -> u32
    ensures word { result ≡ word_of instr }
    ensures range { InRange instr }
{
    match instr {
        Instr::Lui { rd, upper } => pack(0x37, u32::from(rd.get()), 0, 0, 0, 0) + upper.get(),
        Instr::Auipc { rd, upper } => pack(0x17, u32::from(rd.get()), 0, 0, 0, 0) + upper.get(),
        Instr::Jal { rd, offset } => {
            let v = offset.get();
            pack(0x6f, u32::from(rd.get()), 0, 0, 0, 0)
                + (v / 0x1000 % 0x100 * 0x1000
                    + v / 0x800 % 2 * 0x10_0000
                    + v / 2 % 0x400 * 0x20_0000
                    + v / 0x10_0000 % 2 * 0x8000_0000)
        }
        Instr::Jalr { rd, base, offset } => pack_short(0x67, rd, 0, base, offset),
        Instr::Branch {
            test,
            left,
            right,
            offset,
        } => {
            let v = offset.get();
            pack(
                0x63,
                v / 0x800 % 2 + v / 2 % 0x10 * 2,
                test_code(test),
                u32::from(left.get()),
                u32::from(right.get()),
                v / 0x20 % 0x40 + v / 0x1000 % 2 * 0x40,
            )
        }
        Instr::Load {
            kind,
            rd,
            base,
            offset,
        } => pack_short(0x03, rd, load_code(kind), base, offset),
        Instr::Store {
            kind,
            source,
            base,
            offset,
        } => {
            let v = offset.get();
            pack(
                0x23,
                v % 0x20,
                store_code(kind),
                u32::from(base.get()),
                u32::from(source.get()),
                v / 0x20 % 0x80,
            )
        }
        Instr::Immediate {
            op,
            rd,
            left,
            right,
        } => pack_short(0x13, rd, immediate_code(op), left, right),
        Instr::Shift {
            op,
            rd,
            left,
            amount,
        } => {
            let code = shift_code(op);
            pack(
                0x13,
                u32::from(rd.get()),
                code % 8,
                u32::from(left.get()),
                u32::from(amount.get()),
                code / 8,
            )
        }
        Instr::Op {
            op,
            rd,
            left,
            right,
        } => {
            let code = register_code(op);
            pack(
                0x33,
                u32::from(rd.get()),
                code % 8,
                u32::from(left.get()),
                u32::from(right.get()),
                code / 8,
            )
        }
        Instr::Fence { rd, source, bits } => pack_short(0x0f, rd, 0, source, bits),
        Instr::Ecall => 0x73,
        Instr::Ebreak => 0x10_0073,
    }
}

/// The word of an instruction (unprivileged ISA manual, chapter "RV32/64G Instruction Set Listings").
/// `decode` gives the instruction back.
pub fn encode(instr: Instr) -> u32
    ensures row { IsWordOf result instr }
    ensures decodes { decode_of result ≡ Some instr }
    ensures word { result ≡ word_of instr }
{
    by_format(instr)
}
