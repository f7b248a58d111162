//! The addresses of the functions, the statements and the objects of a program in its file, for listings and debuggers.

ghost use Rattle.typed_ast.specs.View.{program_of};
ghost use Rattle.cc_backend.specs.Made.{IsReady};

use crate::flat_code::flat_program;
use crate::homes::{FunctionHomes, program_homes};
use crate::image::code_image;
use asm::{Item, item_addresses};
use elf_out::StackSize;
use frames::Starts;
use memory_map::{MAX_IMAGE, TEXT_START, data_start};
use rv32::Instr;
use select::GP_OFFSET;
use srcset::Pos;
use std::alloc::{AllocError, Global};
use tac::{CodeScope, CodeStart, code_scopes, code_starts};
use typed_ast::{Function, Program, Static};

/// x3, the global pointer (RISC-V ELF psABI, "Integer Register Convention").
const GP: u8 = 3;

/// The address at which the code of the item at a place begins.
#[derive(Clone, Copy, Debug)]
pub struct CodeRow {
    pub place: Pos,
    pub address: u32,
}

/// The code of a scope (ISO/IEC 9899:2011 6.2.1p4): a block, or a `for` with its declarations.
#[derive(Clone, Copy, Debug)]
pub struct ScopeCode {
    /// The number of its first object, and how many it has; those of a scope within it are among them.
    pub first: usize,
    pub count: usize,
    /// The address of its first instruction, and that after its last.
    pub start: u32,
    pub end: u32,
}

/// The code of a function.
#[derive(Drop)]
pub struct FunctionCode {
    /// The number of its name.
    pub name: usize,
    /// The address of its first instruction, and that after its last.
    pub start: u32,
    pub end: u32,
    /// Its statements, in the order of their code.
    pub rows: Vec<CodeRow>,
    /// Its scopes, each before those within it.
    pub scopes: Vec<ScopeCode>,
    /// Where its objects live, by their numbers.
    pub homes: FunctionHomes,
}

/// Bytes in the data.
#[derive(Clone, Copy, Debug)]
pub struct DataObject {
    /// The number of the name of an object with static storage; none of a string literal.
    pub name: Option<usize>,
    pub address: u32,
    /// In bytes. An object that is only declared has none.
    pub size: u32,
}

/// An instruction that calls a function, or that reaches the data.
#[derive(Clone, Copy, Debug)]
pub enum Reference {
    /// A call, and the number of the function.
    Call(u32, usize),
    /// An access to the data, or the instruction that ends the load of an address there, and that address.
    Data(u32, u32),
}

/// The addresses of the parts of a program.
#[derive(Drop)]
pub struct CodeMap {
    /// In the order of their definitions.
    pub functions: Vec<FunctionCode>,
    /// String literals, and then the objects with static storage, in the order of their addresses.
    pub objects: Vec<DataObject>,
    /// In the order of their addresses.
    pub references: Vec<Reference>,
}

/// The addresses of the labels, and the references to functions and data, whose offsets are not yet addresses.
#[derive(Drop)]
struct Found {
    labels: Vec<u32>,
    references: Vec<Reference>,
}

fn address_at(addresses: &[u32], number: usize) -> u32 {
    addresses.get(number).copied().unwrap_or(0)
}

/// How many labels the code of functions has: one a function, and one an instruction with one more.
fn label_count(functions: &[frames_code::Function]) -> usize {
    let mut count = functions.len();
    for function in functions {
        count = count.saturating_add(function.code.len()).saturating_add(1);
    }
    count
}

/// For each function, the label of its first instruction.
fn first_labels(
    alloc: Global,
    functions: &[frames_code::Function],
) -> Result<Vec<usize>, AllocError> {
    let mut firsts = Vec::with_capacity(alloc, functions.len())?;
    let mut label = functions.len();
    for function in functions {
        firsts.push(label)?;
        label = label.saturating_add(function.code.len()).saturating_add(1);
    }
    Ok(firsts)
}

/// Looks through the items for those that mark a label, call, or load an address in the data.
fn found_in(
    alloc: Global,
    items: &[Item],
    addresses: &[u32],
    labels: usize,
) -> Result<Found, AllocError> {
    let mut found = Found {
        labels: vec![in alloc; 0u32; labels]?,
        references: Vec::new(alloc),
    };
    for (number, item) in items.iter().enumerate() {
        put_item(&mut found, *item, address_at(addresses, number))?;
    }
    Ok(found)
}

fn put_item(found: &mut Found, item: Item, at: u32) -> Result<(), AllocError> {
    match item {
        Item::Mark(label) => {
            if let Some(place) = found.labels.get_mut(label.number()) {
                *place = at;
            }
            Ok(())
        }
        Item::Call { to } | Item::NearCall { to } => {
            found.references.push(Reference::Call(at, to.number()))?;
            Ok(())
        }
        Item::DataAddress { rd, offset } => {
            if rd.get() == GP {
                return Ok(());
            }
            let second = at.wrapping_add(4);
            found.references.push(Reference::Data(second, offset))?;
            Ok(())
        }
        Item::Plain(instr) => {
            if let Some(offset) = reached_from_gp(instr) {
                found.references.push(Reference::Data(at, offset))?;
            }
            Ok(())
        }
        _ => Ok(()),
    }
}

/// The offset in the data of what an instruction reaches from gp, or its address. Only accesses to statics and sums name gp.
fn reached_from_gp(instr: Instr) -> Option<u32> {
    let (base, distance) = match instr {
        Instr::Load { base, offset, .. } => (base, offset),
        Instr::Store { base, offset, .. } => (base, offset),
        Instr::Immediate { left, right, .. } => (left, right),
        _ => return None,
    };
    if base.get() == GP {
        Some(distance.get().wrapping_add(GP_OFFSET))
    } else {
        None
    }
}

/// References with offsets in the data become such with addresses.
fn settle(references: &mut [Reference], data: u32) {
    for reference in references.iter_mut() {
        if let Reference::Data(at, offset) = *reference {
            *reference = Reference::Data(at, data.wrapping_add(offset));
        }
    }
}

/// Where the flat code of a function has come to lie: the addresses of labels, the label of its first instruction, and the places there of its
/// instructions as flattening gives them, from the first on that is no move of a parameter.
#[derive(Clone, Copy)]
struct Lie<'l> {
    labels: &'l [u32],
    first: usize,
    places: &'l [usize],
    begin: usize,
}

fn address_in(lie: &Lie<'_>, number: usize) -> u32 {
    let place = lie.places.get(lie.begin.saturating_add(number)).copied();
    address_at(lie.labels, lie.first.saturating_add(place.unwrap_or(0)))
}

/// The rows of a function.
fn rows(alloc: Global, starts: &[CodeStart], lie: &Lie<'_>) -> Result<Vec<CodeRow>, AllocError> {
    let mut rows = Vec::with_capacity(alloc, starts.len())?;
    for start in starts {
        rows.push(CodeRow {
            place: start.place,
            address: address_in(lie, start.number),
        })?;
    }
    Ok(rows)
}

/// The scopes of a function.
fn scopes(alloc: Global, found: &[CodeScope], lie: &Lie<'_>) -> Result<Vec<ScopeCode>, AllocError> {
    let mut scopes = Vec::with_capacity(alloc, found.len())?;
    for scope in found {
        scopes.push(ScopeCode {
            first: scope.first,
            count: scope.count,
            start: address_in(lie, scope.start),
            end: address_in(lie, scope.end),
        })?;
    }
    Ok(scopes)
}

/// The code of a function whose first instruction has the label `first`, and whose flat code begins with a move for each parameter. It
/// begins at an address.
fn function_code(
    alloc: Global,
    program: &Program,
    function: &Function,
    homes: FunctionHomes,
    labels: &[u32],
    (start, first): (u32, usize),
) -> Result<FunctionCode, AllocError> {
    let starts = code_starts(alloc, program, function)?;
    let found = code_scopes(alloc, program, function)?;
    let lie = Lie {
        labels,
        first,
        places: homes.places.as_slice(),
        begin: function.function_type.parameters.len(),
    };
    let rows = rows(alloc, starts.as_slice(), &lie)?;
    let scopes = scopes(alloc, found.as_slice(), &lie)?;
    Ok(FunctionCode {
        name: function.name,
        start,
        end: 0,
        rows,
        scopes,
        homes,
    })
}

/// The code of each function; one ends where the next begins, the last where the text does.
fn function_codes(
    alloc: Global,
    program: &Program,
    homes: Vec<FunctionHomes>,
    firsts: &[usize],
    labels: &[u32],
) -> Result<Vec<FunctionCode>, AllocError> {
    let mut functions = Vec::with_capacity(alloc, program.functions.len())?;
    for (number, (function, homes)) in program.functions.iter().zip(homes).enumerate() {
        let places = (
            address_at(labels, number),
            firsts.get(number).copied().unwrap_or(0),
        );
        functions.push(function_code(alloc, program, function, homes, labels, places)?)?;
    }
    Ok(functions)
}

fn put_ends(functions: &mut [FunctionCode], end: u32) {
    let mut behind = end;
    for function in functions.iter_mut().rev() {
        function.end = behind;
        behind = function.start;
    }
}

fn bytes_of(object: &Static) -> u32 {
    if !object.defined {
        return 0;
    }
    let mut bytes = ctypes::size_of(object.object_type.element);
    for length in &object.object_type.lengths {
        bytes = bytes.wrapping_mul(*length);
    }
    bytes
}

fn address_of(data: u32, start: usize) -> u32 {
    data.wrapping_add(u32::try_from(start).unwrap_or(0))
}

fn literal_objects(
    alloc: Global,
    program: &Program,
    starts: &Starts,
    data: u32,
) -> Result<Vec<DataObject>, AllocError> {
    let mut objects = Vec::with_capacity(alloc, program.literals.len())?;
    for (number, text) in program.literals.iter().enumerate() {
        objects.push(DataObject {
            name: None,
            address: address_of(data, starts.literal(number)),
            size: u32::try_from(text.len()).unwrap_or(0),
        })?;
    }
    Ok(objects)
}

fn put_statics(
    objects: &mut Vec<DataObject>,
    program: &Program,
    starts: &Starts,
    data: u32,
) -> Result<(), AllocError> {
    for (number, object) in program.statics.iter().enumerate() {
        objects.push(DataObject {
            name: Some(object.name),
            address: address_of(data, starts.object(number)),
            size: bytes_of(object),
        })?;
    }
    Ok(())
}

/// Where string literals and objects begin in the data.
fn starts_of(alloc: Global, program: &Program) -> Result<Starts, AllocError>
    requires { IsReady (program_of program.now) }
{
    Starts::new(alloc, &program.literals, &program.statics)
}

/// The addresses of the parts of the file that `generate` makes of a program that breaks no constraint.
///
/// Fails only where there is no memory.
pub fn code_map(alloc: Global, program: &Program, stack: StackSize) -> Result<CodeMap, AllocError>
    requires ready { IsReady (program_of program.now) }
{
    let code = flat_program(alloc, program)?;
    let firsts = first_labels(alloc, &code.functions)?;
    let starts = starts_of(alloc, program)?;
    let homes = program_homes(alloc, program, &starts, code.functions.as_slice())?;
    let count = label_count(&code.functions);
    let made = code_image(alloc, code, stack)?;
    let addresses = item_addresses(alloc, &made.items, TEXT_START)?;
    let mut found = found_in(alloc, made.items.as_slice(), addresses.as_slice(), count)?;
    let end = addresses.last().copied().unwrap_or(TEXT_START);
    let data = data_start(end.saturating_sub(TEXT_START).min(MAX_IMAGE as u32));
    settle(&mut found.references, data);
    let labels = found.labels.as_slice();
    let mut functions = function_codes(alloc, program, homes, firsts.as_slice(), labels)?;
    put_ends(&mut functions, end);
    let mut objects = literal_objects(alloc, program, &starts, data)?;
    put_statics(&mut objects, program, &starts, data)?;
    Ok(CodeMap {
        functions,
        objects,
        references: found.references,
    })
}
