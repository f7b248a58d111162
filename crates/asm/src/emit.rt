//! From items to machine code.
#![tactic(auto, using(crate::proofs::Writing::writes_none, crate::proofs::Writing::writes_two))]

ghost use Rattle.std.specs.Prelude.{◌≡◌, ◌≤◌, ◌<◌, ◌+◌, ◌*◌, ◌-◌, ◌/◌, ◌%◌, ◌^◌, ℕ, true, false, length, OnOk, IfOk, IfErr, ◌↔◌, [], ◌∷◌, ◌++◌, Err, IsOk};
ghost use Rattle.asm.specs.Layout.{IsLow, Refers, Reach, Near, SomeMisses};
ghost use Rattle.asm.specs.inside.Choice.{IsTable, IsChosen};
ghost use Rattle.asm.specs.Placed as placed;
ghost use Rattle.asm.specs.Placed.{word_bytes};
ghost use Rattle.asm.specs.inside.Code.{item_code, address, NearIfShort, Misses, IsGood, load_code, branch_code, jump_code, call_code, whole_code, Writes, IsResolved};
ghost use Rattle.asm.specs.inside.Refusing.{IfFar};

use crate::item::{Item, Label};
use crate::layout::choose;
use crate::offset::{branch_offset, jump_offset, split};
use crate::refusal::Refusal;
use rv32::{BranchOffset, Five, ImmediateOp, Instr, Test, encode};
use std::alloc::{AllocError, Global};

/// The test that is true exactly where `test` is not.
fn opposite(test: Test) -> Test
    ensures { result ≡ placed.opposite test }
{
    match test {
        Test::Equal => Test::NotEqual,
        Test::NotEqual => Test::Equal,
        Test::Less => Test::GreaterEqual,
        Test::GreaterEqual => Test::Less,
        Test::LessUnsigned => Test::GreaterEqualUnsigned,
        Test::GreaterEqualUnsigned => Test::LessUnsigned,
    }
}

/// Writes a word, the lowest byte first.
fn put_word(code: &mut Vec<u8>, word: u32) -> Result<(), AllocError>
    ensures { OnOk result (code.new.items ≡ code.old.items ++ word_bytes word) }
{
    code.extend_from_slice(&[
        (word % 0x100) as u8,
        (word / 0x100 % 0x100) as u8,
        (word / 0x1_0000 % 0x100) as u8,
        (word / 0x100_0000) as u8,
    ])
}

#[inline(always)]
fn put(code: &mut Vec<u8>, instr: Instr) -> Result<(), Refusal>
    ensures ok { OnOk result (Writes code.old.items code.new.items (instr ∷ [])) }
    ensures err { IfErr result (λ e. e ≡ Refusal.Memory) }
{
    put_word(code, encode(instr))?;
    Ok(())
}

fn does_reach(from: u32, to: u32) -> bool
    requires small { (from < 0x70000010) × (to < 0x70000000) }
    ensures { result ≡ true ↔ Reach from to }
{
    from <= to + 0x10_0000 && to <= from + 0xf_fffe
}

/// Fails where a jump does not reach. Allocates nothing.
fn check_reach(from: u32, to: u32) -> Result<(), Refusal>
    requires small { (from < 0x70000010) × (to < 0x70000000) }
    ensures ok { IsOk result ↔ Reach from to }
    ensures far { IfErr result (λ e. e ≡ Refusal.Far) }
{
    if does_reach(from, to) {
        Ok(())
    } else {
        Err(Refusal::Far)
    }
}

/// The jump from `from` to `to`, which leaves the address behind it in `link`.
fn put_jump(code: &mut Vec<u8>, link: Five, from: u32, to: u32) -> Result<(), Refusal>
    requires small { (from < 0x70000010) × (to < 0x70000000) }
    requires even { (from % 4 ≡ 0) × (to % 4 ≡ 0) }
    ensures ok { OnOk result (Writes code.old.items code.new.items (jump_code link from to)) }
    ensures err { IfErr result (IfFar (Reach from to → ⊥)) }
    ensures far { (Reach from to → ⊥) → result ≡ Err Refusal.Far }
{
    check_reach(from, to)?;
    put(
        code,
        Instr::Jal {
            rd: link,
            offset: jump_offset(from, to),
        },
    )
}

/// LUI and ADDI that load `value` into `rd`.
fn put_load(code: &mut Vec<u8>, rd: Five, value: u32) -> Result<(), Refusal>
    ensures ok { OnOk result (Writes code.old.items code.new.items (load_code rd value)) }
    ensures err { IfErr result (λ e. e ≡ Refusal.Memory) }
{
    let (upper, low) = split(value);
    put(code, Instr::Lui { rd, upper })?;
    put(
        code,
        Instr::Immediate {
            op: ImmediateOp::Add,
            rd,
            left: rd,
            right: low,
        },
    )
}

/// AUIPC and JALR from `from` to `to`.
fn put_call(code: &mut Vec<u8>, from: u32, to: u32) -> Result<(), Refusal>
    ensures ok { OnOk result (Writes code.old.items code.new.items (call_code from to)) }
    ensures err { IfErr result (λ e. e ≡ Refusal.Memory) }
{
    let (upper, low) = split(to.wrapping_sub(from));
    let link = Five::new(1);
    put(code, Instr::Auipc { rd: link, upper })?;
    put(
        code,
        Instr::Jalr {
            rd: link,
            base: link,
            offset: low,
        },
    )
}

/// A branch from `from` to `to`, or its opposite over a jump.
fn put_branch(
    code: &mut Vec<u8>,
    long: bool,
    test: Test,
    left: Five,
    right: Five,
    from: u32,
    to: u32,
) -> Result<(), Refusal>
    requires small { (from < 0x70000000) × (to < 0x70000000) }
    requires even { (from % 4 ≡ 0) × (to % 4 ≡ 0) }
    requires near { long ≡ false → Near from to }
    ensures ok { OnOk result (Writes code.old.items code.new.items (branch_code long test left right from to)) }
    ensures err { IfErr result (IfFar ((long ≡ true) × (Reach (from + 4) to → ⊥))) }
    ensures far { (long ≡ true) × (Reach (from + 4) to → ⊥) → result ≡ Err Refusal.Far }
{
    if long {
        check_reach(from + 4, to)?;
        put(
            code,
            Instr::Branch {
                test: opposite(test),
                left,
                right,
                offset: BranchOffset::new(8),
            },
        )?;
        put_jump(code, Five::new(0), from + 4, to)
    } else {
        put(
            code,
            Instr::Branch {
                test,
                left,
                right,
                offset: branch_offset(from, to),
            },
        )
    }
}

/// The address where the label is marked.
fn address_of(homes: &[usize], places: &[u32], label: Label) -> u32
    requires good { IsGood homes.now places.now }
    requires known { label < length homes.now }
    ensures value { result ≡ address homes.now places.now label }
    ensures low { result < 0x70000000 }
    ensures even { result % 4 ≡ 0 }
{
    places[homes[label.number()]]
}

/// Writes the words of one item. It is a separate function, so that marks and instructions jump through no table.
#[inline(never)]
fn put_other(
    code: &mut Vec<u8>,
    item: Item,
    long: bool,
    at: u32,
    homes: &[usize],
    places: &[u32],
    data_start: u32,
) -> Result<(), Refusal>
    requires good { IsGood homes.now places.now }
    requires refers { Refers (length homes.now) item }
    requires small { (at < 0x70000000) × (at % 4 ≡ 0) × (data_start < 0x70001000) }
    requires near { NearIfShort long at (address homes.now places.now) item }
    ensures ok { OnOk result (Writes code.old.items code.new.items (item_code (address homes.now places.now) data_start long at item)) }
    ensures err { IfErr result (IfFar (Misses long at (address homes.now places.now) item)) }
    ensures far { Misses long at (address homes.now places.now) item → result ≡ Err Refusal.Far }
{
    match item {
        Item::Mark(_) => Ok(()),
        Item::Plain(instr) => put(code, instr),
        Item::Branch {
            test,
            left,
            right,
            to,
        } => put_branch(
            code,
            long,
            test,
            left,
            right,
            at,
            address_of(homes, places, to),
        ),
        Item::Jump { to } => put_jump(code, Five::new(0), at, address_of(homes, places, to)),
        Item::Call { to } => put_call(code, at, address_of(homes, places, to)),
        Item::NearCall { to } => put_jump(code, Five::new(1), at, address_of(homes, places, to)),
        Item::Constant { rd, value } => put_load(code, rd, value),
        Item::LabelAddress { rd, of } => put_load(code, rd, address_of(homes, places, of)),
        Item::DataAddress { rd, offset } => put_load(code, rd, data_start + offset),
    }
}

/// Writes the words of one item. Most items are marks and instructions, which two tests recognise.
fn put_item(
    code: &mut Vec<u8>,
    item: Item,
    long: bool,
    at: u32,
    homes: &[usize],
    places: &[u32],
    data_start: u32,
) -> Result<(), Refusal>
    requires good { IsGood homes.now places.now }
    requires refers { Refers (length homes.now) item }
    requires small { (at < 0x70000000) × (at % 4 ≡ 0) × (data_start < 0x70001000) }
    requires near { NearIfShort long at (address homes.now places.now) item }
    ensures ok { OnOk result (Writes code.old.items code.new.items (item_code (address homes.now places.now) data_start long at item)) }
    ensures err { IfErr result (IfFar (Misses long at (address homes.now places.now) item)) }
    ensures far { Misses long at (address homes.now places.now) item → result ≡ Err Refusal.Far }
{
    if let Item::Plain(instr) = item {
        put(code, instr)
    } else if let Item::Mark(_) = item {
        Ok(())
    } else {
        put_other(code, item, long, at, homes, places, data_start)
    }
}

/// The machine code of all items, with the fewest long branches.
pub fn resolve(
    alloc: Global,
    items: &[Item],
    homes: &[usize],
    base: u32,
) -> Result<Vec<u8>, Refusal>
    requires table { IsTable homes.now items.now }
    requires aligned { base % 4 ≡ 0 }
    requires low { IsLow base items.now }
    ensures err { IfErr result (IfFar (SomeMisses base items.now)) }
    ensures ok { IfOk result (λ v. IsResolved homes.now base items.now v.items) }
{
    let layout = choose(alloc, items, homes, base)?;
    emit(alloc, items, homes, base, &layout.long, &layout.places)
}

fn emit(
    alloc: Global,
    items: &[Item],
    homes: &[usize],
    base: u32,
    long: &[bool],
    places: &[u32],
) -> Result<Vec<u8>, Refusal>
    requires table { IsTable homes.now items.now }
    requires aligned { base % 4 ≡ 0 }
    requires low { IsLow base items.now }
    requires chosen { IsChosen base items.now long.now places.now }
    ensures err { IfErr result (IfFar (SomeMisses base items.now)) }
    ensures ok { IfOk result (λ v. Writes [] v.items (whole_code homes.now long.now places.now base items.now)) }
{
    let end = places[items.len()];
    let data_start = (end + 0xfff) / 0x1000 * 0x1000;
    let mut code = Vec::with_capacity(alloc, end.saturating_sub(base) as usize)?;
    for (i, item) in items.iter().enumerate() {
        put_item(
            &mut code, *item, long[i], places[i], homes, places, data_start,
        )?;
    }
    Ok(code)
}
