//! The texts of instructions, as an assembler for RISC-V reads them.

ghost use Rattle.std.specs.Prelude.{◌≡◌, ◌++◌, codes, decimal, IfOk};
ghost use Rattle.std.specs.Fmt.{signed_decimal};
ghost use Rattle.asm.specs.Text.{test_name, load_name, store_name, immediate_name, shift_name, op_name, register, upper_bits, memory, text_of};

use rv32::{ImmediateOp, Instr, LoadKind, RegisterOp, ShiftOp, StoreKind, Test};
use std::alloc::{AllocError, Global};

fn test_name(test: Test) -> &'static str
    ensures { result.now ≡ test_name test }
{
    match test {
        Test::Equal => "beq",
        Test::NotEqual => "bne",
        Test::Less => "blt",
        Test::GreaterEqual => "bge",
        Test::LessUnsigned => "bltu",
        Test::GreaterEqualUnsigned => "bgeu",
    }
}

fn load_name(kind: LoadKind) -> &'static str
    ensures { result.now ≡ load_name kind }
{
    match kind {
        LoadKind::Byte => "lb",
        LoadKind::Half => "lh",
        LoadKind::Word => "lw",
        LoadKind::ByteUnsigned => "lbu",
        LoadKind::HalfUnsigned => "lhu",
    }
}

fn store_name(kind: StoreKind) -> &'static str
    ensures { result.now ≡ store_name kind }
{
    match kind {
        StoreKind::Byte => "sb",
        StoreKind::Half => "sh",
        StoreKind::Word => "sw",
    }
}

fn immediate_name(op: ImmediateOp) -> &'static str
    ensures { result.now ≡ immediate_name op }
{
    match op {
        ImmediateOp::Add => "addi",
        ImmediateOp::Less => "slti",
        ImmediateOp::LessUnsigned => "sltiu",
        ImmediateOp::Xor => "xori",
        ImmediateOp::Or => "ori",
        ImmediateOp::And => "andi",
    }
}

fn shift_name(op: ShiftOp) -> &'static str
    ensures { result.now ≡ shift_name op }
{
    match op {
        ShiftOp::Left => "slli",
        ShiftOp::Right => "srli",
        ShiftOp::RightArithmetic => "srai",
    }
}

fn op_name(op: RegisterOp) -> &'static str
    ensures { result.now ≡ op_name op }
{
    match op {
        RegisterOp::Add => "add",
        RegisterOp::Sub => "sub",
        RegisterOp::ShiftLeft => "sll",
        RegisterOp::Less => "slt",
        RegisterOp::LessUnsigned => "sltu",
        RegisterOp::Xor => "xor",
        RegisterOp::ShiftRight => "srl",
        RegisterOp::ShiftRightArithmetic => "sra",
        RegisterOp::Or => "or",
        RegisterOp::And => "and",
        RegisterOp::Mul => "mul",
        RegisterOp::MulHigh => "mulh",
        RegisterOp::MulHighSignedUnsigned => "mulhsu",
        RegisterOp::MulHighUnsigned => "mulhu",
        RegisterOp::Div => "div",
        RegisterOp::DivUnsigned => "divu",
        RegisterOp::Rem => "rem",
        RegisterOp::RemUnsigned => "remu",
    }
}

// A name, a register and the upper 20 bits of a number.
fn upper_text(alloc: Global, name: &str, rd: u8, upper: u32) -> Result<String, AllocError>
    ensures { IfOk result (λ t. t.bytes.items ≡ name.now ++ codes " " ++ register rd ++ codes "," ++ upper_bits upper) }
{
    format!(in alloc; "{name} x{},0x{:X}", rd, upper / 0x1000)
}

// A name, a register and a signed number.
fn jump_text(alloc: Global, name: &str, rd: u8, offset: i32) -> Result<String, AllocError>
    ensures { IfOk result (λ t. t.bytes.items ≡ name.now ++ codes " " ++ register rd ++ codes "," ++ signed_decimal offset) }
{
    format!(in alloc; "{name} x{},{}", rd, offset)
}

// A name, a register and a place in memory.
fn memory_text(
    alloc: Global,
    name: &str,
    value: u8,
    base: u8,
    offset: i32,
) -> Result<String, AllocError>
    ensures { IfOk result (λ t. t.bytes.items ≡ name.now ++ codes " " ++ register value ++ codes "," ++ memory base offset) }
{
    format!(in alloc; "{name} x{},{}(x{})", value, offset, base)
}

// A name, two registers and a signed number.
fn number_text(
    alloc: Global,
    name: &str,
    first: u8,
    second: u8,
    number: i32,
) -> Result<String, AllocError>
    ensures { IfOk result (λ t. t.bytes.items ≡ name.now ++ codes " " ++ register first ++ codes "," ++ register second ++ codes "," ++ signed_decimal number) }
{
    format!(in alloc; "{name} x{},x{},{}", first, second, number)
}

// A name, two registers and the distance of a shift.
fn shift_text(alloc: Global, name: &str, rd: u8, left: u8, amount: u8) -> Result<String, AllocError>
    ensures { IfOk result (λ t. t.bytes.items ≡ name.now ++ codes " " ++ register rd ++ codes "," ++ register left ++ codes "," ++ decimal amount) }
{
    format!(in alloc; "{name} x{},x{},{}", rd, left, amount)
}

// A name and three registers.
fn op_text(alloc: Global, name: &str, rd: u8, left: u8, right: u8) -> Result<String, AllocError>
    ensures { IfOk result (λ t. t.bytes.items ≡ name.now ++ codes " " ++ register rd ++ codes "," ++ register left ++ codes "," ++ register right) }
{
    format!(in alloc; "{name} x{},x{},x{}", rd, left, right)
}

/// The text of an instruction, as `addi x1,x0,1` or `lw x5,-4(x2)`.
pub fn text(alloc: Global, instr: Instr) -> Result<String, AllocError>
    ensures { IfOk result (λ t. t.bytes.items ≡ text_of instr) }
{
    match instr {
        Instr::Lui { rd, upper } => upper_text(alloc, "lui", rd.get(), upper.get()),
        Instr::Auipc { rd, upper } => upper_text(alloc, "auipc", rd.get(), upper.get()),
        Instr::Jal { rd, offset } => jump_text(alloc, "jal", rd.get(), offset.get().cast_signed()),
        Instr::Jalr { rd, base, offset } => memory_text(
            alloc,
            "jalr",
            rd.get(),
            base.get(),
            offset.get().cast_signed(),
        ),
        Instr::Branch {
            test,
            left,
            right,
            offset,
        } => number_text(
            alloc,
            test_name(test),
            left.get(),
            right.get(),
            offset.get().cast_signed(),
        ),
        Instr::Load {
            kind,
            rd,
            base,
            offset,
        } => memory_text(
            alloc,
            load_name(kind),
            rd.get(),
            base.get(),
            offset.get().cast_signed(),
        ),
        Instr::Store {
            kind,
            source,
            base,
            offset,
        } => memory_text(
            alloc,
            store_name(kind),
            source.get(),
            base.get(),
            offset.get().cast_signed(),
        ),
        Instr::Immediate {
            op,
            rd,
            left,
            right,
        } => number_text(
            alloc,
            immediate_name(op),
            rd.get(),
            left.get(),
            right.get().cast_signed(),
        ),
        Instr::Shift {
            op,
            rd,
            left,
            amount,
        } => shift_text(alloc, shift_name(op), rd.get(), left.get(), amount.get()),
        Instr::Op {
            op,
            rd,
            left,
            right,
        } => op_text(alloc, op_name(op), rd.get(), left.get(), right.get()),
        Instr::Fence { rd, source, bits } => {
            number_text(
                alloc,
                "fence",
                rd.get(),
                source.get(),
                bits.get().cast_signed(),
            )
        }
        Instr::Ecall => String::from_str(alloc, "ecall"),
        Instr::Ebreak => String::from_str(alloc, "ebreak"),
    }
}
