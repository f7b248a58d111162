//! The functions and the objects of a built file, as the compiler reports them.

use crate::files::Files;
use crate::variables::{FunctionVariables, VariableType, function_variables, object_type};
use cc::{Built, CodeMap, DataObject, FunctionCode, Mapped, Reference, StackSize, map_of};
use memory_map::{TEXT_OFFSET, TEXT_START};
use object_names::{ProgramNames, names_of_set};
use srcset::{Fault, FileSet, Names};
use std::alloc::{AllocError, Global};
use typed_ast::Program;

/// The source line of a statement, and the address at which its code begins.
#[derive(Clone, Copy, Debug, PartialEq, Eq)]
pub struct Line {
    /// The number of the file in `SymbolTable::files`.
    pub file: usize,
    /// Counted from 1.
    pub line: u32,
    pub address: u32,
}

/// A function of a built file.
#[derive(Drop)]
pub struct Function {
    pub name: String,
    /// The bytes of its frame.
    pub frame: u32,
    /// Its weight, which the source alone gives.
    pub weight: u32,
    /// The address of its first instruction.
    pub start: u32,
    /// The bytes of its code.
    pub size: u32,
    /// The numbers of the functions that it calls, each once.
    pub calls: Vec<usize>,
    /// The line of its name, and then those of its statements, in the order of their code.
    pub lines: Vec<Line>,
    pub variables: FunctionVariables,
}

/// An object with static storage, or a string literal.
#[derive(Drop)]
pub struct Object {
    /// None of a string literal.
    pub name: Option<String>,
    pub address: u32,
    /// In bytes.
    pub size: u32,
    /// None of a string literal.
    pub object_type: Option<VariableType>,
}

/// An instruction that reaches a byte of the data, or ends the load of its address, and that address.
#[derive(Clone, Copy, Debug, PartialEq, Eq)]
pub struct DataLoad {
    pub at: u32,
    pub address: u32,
}

/// The symbols of a built file.
#[derive(Drop)]
pub struct SymbolTable {
    /// In the order of their definitions, which is that of their addresses.
    pub functions: Vec<Function>,
    /// In the order of their addresses.
    pub objects: Vec<Object>,
    /// In the order of the instructions.
    pub loads: Vec<DataLoad>,
    /// The names of the files that contain statements, as `#line` and includes name them.
    pub files: Vec<String>,
    /// The bytes of the code.
    pub text: Vec<u8>,
}

/// The symbols of the file that the compiler makes of the program in the file `main` of the set.
///
/// Fails as `compile_with` does.
pub fn symbol_table(
    alloc: Global,
    set: &FileSet,
    main: &str,
    stack: StackSize,
    built: &Built,
) -> Result<SymbolTable, Fault> {
    let mut names = Names::new(alloc);
    let mapped = map_of(alloc, set, main, &mut names, stack)?;
    match table_of(alloc, set, main, names, &mapped, built) {
        Ok(table) => Ok(table),
        Err(_) => Err(Fault::memory(alloc)),
    }
}

fn table_of(
    alloc: Global,
    set: &FileSet,
    main: &str,
    names: Names,
    mapped: &Mapped,
    built: &Built,
) -> Result<SymbolTable, AllocError> {
    let mut names = names;
    let objects_named = names_of_set(alloc, set, main, &mut names, &mapped.program)?;
    let map = &mapped.map;
    let mut files = Files::new(alloc, &names)?;
    let told = Told {
        program: &mapped.program,
        names: &names,
        objects: &objects_named,
    };
    let mut functions = functions(alloc, &told, map, built, &mut files)?;
    put_calls(alloc, &mut functions, map.references.as_slice())?;
    Ok(SymbolTable {
        functions,
        objects: objects(alloc, &told, map.objects.as_slice())?,
        loads: loads(alloc, map.references.as_slice())?,
        files: files.list,
        text: text_of(alloc, map.functions.as_slice(), built.elf.as_slice())?,
    })
}

/// The program and its names.
#[derive(Clone, Copy)]
struct Told<'a> {
    program: &'a Program,
    names: &'a Names,
    objects: &'a ProgramNames,
}

fn functions(
    alloc: Global,
    told: &Told<'_>,
    map: &CodeMap,
    built: &Built,
    files: &mut Files<'_>,
) -> Result<Vec<Function>, AllocError> {
    let mut functions = Vec::with_capacity(alloc, map.functions.len())?;
    for (number, code) in map.functions.iter().enumerate() {
        if let Some((_, frame, weight)) = built.frames.get(number) {
            functions.push(Function {
                name: String::from_str(alloc, told.names.shown_text(code.name))?,
                frame: *frame,
                weight: *weight,
                start: code.start,
                size: code.end.wrapping_sub(code.start),
                calls: Vec::new(alloc),
                lines: lines(alloc, code, files)?,
                variables: function_variables(alloc, told.program, told.objects, number, code)?,
            })?;
        }
    }
    Ok(functions)
}

/// The lines of a function. The first statement is its body, which has the place of its name.
fn lines(
    alloc: Global,
    code: &FunctionCode,
    files: &mut Files<'_>,
) -> Result<Vec<Line>, AllocError> {
    let mut lines = Vec::with_capacity(alloc, code.rows.len())?;
    if let Some(first) = code.rows.first() {
        lines.push(Line {
            file: files.number(alloc, first.place.file)?,
            line: first.place.line,
            address: code.start,
        })?;
    }
    for row in &code.rows {
        lines.push(Line {
            file: files.number(alloc, row.place.file)?,
            line: row.place.line,
            address: row.address,
        })?;
    }
    Ok(lines)
}

/// The number of the function in whose code an address lies. They rise.
fn index_at(functions: &[Function], address: u32) -> Option<usize> {
    let mut low = 0;
    let mut high = functions.len();
    for _ in 0..64 {
        if low >= high {
            break;
        }
        let middle = low + (high - low) / 2;
        let Some(function) = functions.get(middle) else {
            break;
        };
        if address < function.start {
            high = middle;
        } else if address.wrapping_sub(function.start) < function.size {
            return Some(middle);
        } else {
            low = middle.saturating_add(1);
        }
    }
    None
}

/// Records the callees of each function. A function is a new callee where its mark is not the caller's number plus one.
fn put_calls(
    alloc: Global,
    functions: &mut [Function],
    references: &[Reference],
) -> Result<(), AllocError> {
    let mut marks = vec![in alloc; 0; functions.len()]?;
    for reference in references {
        if let Reference::Call(at, callee) = *reference {
            if let Some(caller) = index_at(functions, at) {
                put_call(functions, &mut marks, caller, callee)?;
            }
        }
    }
    Ok(())
}

fn put_call(
    functions: &mut [Function],
    marks: &mut [usize],
    caller: usize,
    callee: usize,
) -> Result<(), AllocError> {
    if is_new(marks, callee, caller.saturating_add(1)) {
        if let Some(function) = functions.get_mut(caller) {
            function.calls.push(callee)?;
        }
    }
    Ok(())
}

/// Marks a function; returns whether it had another mark.
fn is_new(marks: &mut [usize], number: usize, mark: usize) -> bool {
    match marks.get_mut(number) {
        Some(old) => {
            let other = *old != mark;
            *old = mark;
            other
        }
        None => false,
    }
}

/// The objects that take bytes. String literals come first.
fn objects(alloc: Global, told: &Told<'_>, all: &[DataObject]) -> Result<Vec<Object>, AllocError> {
    let mut objects = Vec::with_capacity(alloc, all.len())?;
    for (number, object) in all.iter().enumerate() {
        if object.size != 0 {
            objects.push(Object {
                name: object_name(alloc, told.names, object.name)?,
                address: object.address,
                size: object.size,
                object_type: static_type(alloc, told.program, number)?,
            })?;
        }
    }
    Ok(objects)
}

/// The type of the object with this number, where it is no string literal.
fn static_type(
    alloc: Global,
    program: &Program,
    number: usize,
) -> Result<Option<VariableType>, AllocError> {
    let Some(behind) = number.checked_sub(program.literals.len()) else {
        return Ok(None);
    };
    match program.statics.get(behind) {
        Some(object) => Ok(Some(object_type(alloc, &object.object_type, false)?)),
        None => Ok(None),
    }
}

fn object_name(
    alloc: Global,
    names: &Names,
    number: Option<usize>,
) -> Result<Option<String>, AllocError> {
    match number {
        Some(number) => {
            let name = String::from_str(alloc, names.shown_text(number))?;
            Ok(Some(name))
        }
        None => Ok(None),
    }
}

fn loads(alloc: Global, references: &[Reference]) -> Result<Vec<DataLoad>, AllocError> {
    let mut loads = Vec::new(alloc);
    for reference in references {
        if let Reference::Data(at, address) = *reference {
            loads.push(DataLoad { at, address })?;
        }
    }
    Ok(loads)
}

/// The bytes of the code of a file, up to the end of the last function.
fn text_of(alloc: Global, functions: &[FunctionCode], file: &[u8]) -> Result<Vec<u8>, AllocError> {
    let bytes = match functions.last() {
        Some(function) => function.end.wrapping_sub(TEXT_START) as usize,
        None => 0,
    };
    let start = TEXT_OFFSET as usize;
    Vec::from_slice(
        alloc,
        file.get(start..start.saturating_add(bytes))
            .unwrap_or_default(),
    )
}

impl SymbolTable {
    /// The function in whose code an address lies.
    pub fn at(&self, address: u32) -> Option<&Function> {
        self.functions
            .get(index_at(self.functions.as_slice(), address)?)
    }

    /// The number of the function of this name.
    pub fn number(&self, name: &str) -> Option<usize> {
        self.functions
            .iter()
            .position(|function| function.name.as_str() == name)
    }

    /// The object in whose bytes an address lies.
    pub fn object_at(&self, address: u32) -> Option<&Object> {
        self.objects.iter().find(|object| address.wrapping_sub(object.address) < object.size)
    }
}
