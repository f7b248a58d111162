//! The items that the file is assembled from, an item a line.

ghost use Rattle.std.specs.Prelude.{◌⊎◌, []};
ghost use Rattle.memory_map.specs.MemoryMap.{text_start};
ghost use Rattle.srcset.specs.declared.code.Code.TheVariants.{CannotWrite};
ghost use Rattle.srcset.specs.Fault.{IsFault, IsMemoryFault};
ghost use Rattle.asm.specs.Layout.{AllReach, IsLow};
ghost use Rattle.typed_ast.specs.View.{program_of};
ghost use Rattle.cc_backend.specs.Made.{IsReady};

use asm::{Item, Items, item_addresses, list};
use cc::{CodeMap, CodeRow, StackSize};
use cc_backend::{code_map, items};
use forms_text::{Style, Writer};
use memory_map::TEXT_START;
use rv32::Test;
use srcset::{Fault, Names, Pos};
use std::alloc::{AllocError, Global};
use typed_ast::Program;

/// How many bytes precede the text in a line of a listing: address, word, and the spaces after them.
const TEXT_COLUMN: usize = 19;

/// The addresses of the items, and their contents.
#[derive(Drop)]
struct Placed {
    /// The address of each item.
    addresses: Vec<u32>,
    /// The listing, a line a word.
    listing: Vec<u8>,
    /// Where the code of each statement begins.
    rows: Vec<CodeRow>,
}

/// Where the code of statements begins, in the order of the addresses.
#[derive(Drop)]
struct Rows<'a> {
    rows: &'a [CodeRow],
    /// How many precede the present item.
    passed: usize,
}

impl<'a> Rows<'a> {
    /// The place of the innermost statement whose code begins at this address, which is not below an earlier one.
    fn place_at(&mut self, address: u32) -> Option<Pos> {
        let mut found = None;
        let mut count: usize = 0;
        for row in self.rows.get(self.passed..).unwrap_or_default() {
            if row.address > address {
                break;
            }
            if row.address == address {
                found = Some(row.place);
            }
            count = count.saturating_add(1);
        }
        self.passed = self.passed.saturating_add(count);
        found
    }
}

/// The items of a program with a stack of this size, by functions; where a statement's code begins, its place.
pub(crate) fn items_text(
    alloc: Global,
    program: &Program,
    names: &Names,
    stack: StackSize,
    style: Style,
) -> Result<String, AllocError>
    requires { IsReady (program_of program.now) }
{
    let made = items(alloc, program, stack)?;
    let map = code_map(alloc, program, stack)?;
    let mut out = Writer::new(alloc, names, style);
    let placed = lay_out(alloc, &made, &map)?;
    put_items(alloc, &mut out, names, program, made.as_slice(), &placed)?;
    out.into_text()
}

fn lay_out(alloc: Global, items: &Items, map: &CodeMap) -> Result<Placed, AllocError>
    requires low { IsLow text_start items.now }
    requires reach { AllReach text_start items.now }
{
    Ok(Placed {
        addresses: item_addresses(alloc, items, TEXT_START)?,
        listing: listing_of(alloc, items)?,
        rows: rows_of(alloc, map)?,
    })
}

/// The fault 801, out of memory, or 803, which a vector gives only where it cannot grow.
fn want_of_memory(fault: Fault) -> AllocError
    requires { IsMemoryFault fault ⊎ IsFault fault CannotWrite [] 0 }
{
    drop(fault);
    AllocError
}

/// Each jump reaches its label, so that only memory is refused.
fn listing_of(alloc: Global, items: &Items) -> Result<Vec<u8>, AllocError>
    requires low { IsLow text_start items.now }
    requires reach { AllReach text_start items.now }
{
    let mut listing = Vec::new(alloc);
    match list(alloc, items, TEXT_START, &mut listing) {
        Ok(()) => Ok(listing),
        Err(fault) => Err(want_of_memory(fault)),
    }
}

fn rows_of(alloc: Global, map: &CodeMap) -> Result<Vec<CodeRow>, AllocError> {
    let mut rows = Vec::new(alloc);
    for function in &map.functions {
        for row in &function.rows {
            rows.push(*row)?;
        }
    }
    Ok(rows)
}

/// The text of the instruction in each line of a listing.
fn texts_of(alloc: Global, listing: &[u8]) -> Result<Vec<&str>, AllocError> {
    let mut texts = Vec::new(alloc);
    for line in listing.split(|byte| *byte == b'\n') {
        texts.push(str::from_utf8(
            line.get(TEXT_COLUMN..).unwrap_or_default(),
        ).unwrap_or_default())?;
    }
    Ok(texts)
}

/// Each item in its function, those before the first function under `start`.
fn put_items(
    alloc: Global,
    out: &mut Writer<'_>,
    names: &Names,
    program: &Program,
    items: &[Item],
    placed: &Placed,
) -> Result<(), AllocError> {
    let texts = texts_of(alloc, placed.listing.as_slice())?;
    let mut rows = Rows {
        rows: placed.rows.as_slice(),
        passed: 0,
    };
    out.begin("program")?;
    out.begin("start")?;
    for (number, item) in items.iter().enumerate() {
        let address = placed.addresses.get(number).copied().unwrap_or(TEXT_START);
        begin_function(out, program, *item)?;
        let plain = text_at(texts.as_slice(), address);
        let text = item_text(alloc, names, program, *item, plain)?;
        let place = match item {
            Item::Mark(_) => None,
            _ => rows.place_at(address),
        };
        put_item(alloc, out, address, text.as_str(), place)?;
    }
    out.end()?;
    out.end()
}

/// Begins a function, after the one before it, where the item marks its first instruction.
fn begin_function(out: &mut Writer<'_>, program: &Program, item: Item) -> Result<(), AllocError> {
    if let Item::Mark(label) = item {
        if let Some(function) = program.functions.get(label.number()) {
            out.end()?;
            out.begin("function")?;
            out.name("name", function.name)?;
        }
    }
    Ok(())
}

/// An item: its address, as a listing has it, its text, and the place of the construct that it begins.
fn put_item(
    alloc: Global,
    out: &mut Writer<'_>,
    address: u32,
    text: &str,
    place: Option<Pos>,
) -> Result<(), AllocError> {
    out.begin("item")?;
    out.word("at", format!(in alloc; "{address:08X}")?.as_str())?;
    out.word("code", text)?;
    if let Some(place) = place {
        out.place(place)?;
    }
    out.end()
}

/// The text of the instruction at an address.
fn text_at<'a>(texts: &[&'a str], address: u32) -> &'a str {
    let word = address.saturating_sub(TEXT_START) / 4;
    texts.get(word as usize).copied().unwrap_or_default()
}

/// An item as an assembler for RISC-V reads it. `plain` is the text of the instruction at the item's address.
fn item_text(
    alloc: Global,
    names: &Names,
    program: &Program,
    item: Item,
    plain: &str,
) -> Result<String, AllocError> {
    match item {
        Item::Plain(_) => String::from_str(alloc, plain),
        Item::Mark(label) => {
            let label = label.number();
            format!(in alloc; "L{label}:")
        }
        Item::Branch {
            test,
            left,
            right,
            to,
        } => {
            let (test, left, right, to) = (test_name(test), left.get(), right.get(), to.number());
            format!(in alloc; "{test} x{left},x{right},L{to}")
        }
        Item::Jump { to } => {
            let to = to.number();
            format!(in alloc; "j L{to}")
        }
        Item::Call { to } | Item::NearCall { to } => call_text(alloc, names, program, to.number()),
        Item::Constant { rd, value } => {
            let (rd, value) = (rd.get(), signed(value));
            format!(in alloc; "li x{rd},{value}")
        }
        Item::LabelAddress { rd, of } => {
            let (rd, of) = (rd.get(), of.number());
            format!(in alloc; "la x{rd},L{of}")
        }
        Item::DataAddress { rd, offset } => {
            let rd = rd.get();
            format!(in alloc; "la x{rd},data+{offset}")
        }
    }
}

/// The number that 32 bits are as a signed one.
fn signed(value: u32) -> i64 {
    let number = i64::from(value);
    if number < 0x8000_0000 {
        number
    } else {
        number - 0x1_0000_0000
    }
}

/// A call of the function with this number.
fn call_text(
    alloc: Global,
    names: &Names,
    program: &Program,
    number: usize,
) -> Result<String, AllocError> {
    match program.functions.get(number) {
        Some(function) => {
            let name = names.shown_text(function.name);
            format!(in alloc; "call {name}")
        }
        None => format!(in alloc; "call L{number}"),
    }
}

fn test_name(test: Test) -> &'static str {
    match test {
        Test::Equal => "beq",
        Test::NotEqual => "bne",
        Test::Less => "blt",
        Test::GreaterEqual => "bge",
        Test::LessUnsigned => "bltu",
        Test::GreaterEqualUnsigned => "bgeu",
    }
}
