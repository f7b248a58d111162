//! Where the objects of functions live while these run, for debuggers.

ghost use Rattle.std.specs.Prelude.{ℕ, ◌≡◌, slice_get, Some};
ghost use Rattle.typed_ast.specs.View.{function_of, program_of};
ghost use Rattle.cc_backend.specs.Made.{IsReady};

use frames::{Home, Starts, flatten_function, object_homes};
use frames_hoist::hoist_function;
use frames_layout::{known_bytes, lay_out, new_places};
use frames_leaf::{allocate_leaf, leaf_words};
use frames_opt::simplify_function;
use frames_reach::remove_unreachable;
use frames_regalloc::word_numbers;
use std::alloc::{AllocError, Global};
use tac::lower_function;
use typed_ast::{Function, ObjectType, ParameterType, Program};

/// Where an object of a call lives while its function runs, or the address that an array parameter refers to.
#[derive(Clone, Copy, Debug, PartialEq, Eq)]
pub enum ObjectHome {
    /// In a register of the machine, by its number: s0 to s11, or in a function that calls nothing also a1 to a7.
    Register(u32),
    /// In the frame, at this offset in bytes above the stack pointer.
    Frame(u32),
}

/// Where the objects of a function live.
#[derive(Drop)]
pub struct FunctionHomes {
    /// Its objects by number, the parameters that are numbers first.
    pub objects: Vec<ObjectHome>,
    /// Its parameters that are arrays, in their order: where the address is.
    pub arrays: Vec<ObjectHome>,
    /// The place in the code of the file of each instruction that flattening gives, and of the end.
    pub places: Vec<usize>,
}

/// A function's words under their numbers in its flat code, and the description of its frame that they give.
#[derive(Drop)]
struct Words {
    numbers: Vec<usize>,
    temporaries: Vec<Option<usize>>,
    resident: usize,
    outgoing: usize,
}

/// Its low 32 bits.
fn low_word(number: usize) -> u32 {
    (number % 0x1_0000_0000) as u32
}

/// The register of a word that lives in one: s0 and s1 are x8 and x9, s2 to s11 are x18 to x27 (RISC-V ELF psABI, "Integer Register
/// Convention").
fn register_of(number: usize) -> u32 {
    if number < 2 {
        low_word(number).wrapping_add(8)
    } else {
        low_word(number).wrapping_add(16)
    }
}

impl Words {
    /// Where a word has its place in the frame, in bytes above the stack pointer.
    fn place(&self, number: usize) -> u32 {
        low_word(self.outgoing.wrapping_add(1).wrapping_add(number)).wrapping_mul(4)
    }

    /// Where a word lives. Temporaries 0 to 7 are a0 to a7, which are x10 to x17.
    fn home(&self, word: usize) -> ObjectHome {
        if let Some(Some(temporary)) = self.temporaries.get(word) {
            return ObjectHome::Register(low_word(*temporary).wrapping_add(10));
        }
        let number = self.numbers.get(word).copied().unwrap_or(0);
        if number < self.resident {
            ObjectHome::Register(register_of(number))
        } else {
            ObjectHome::Frame(self.place(number))
        }
    }

    /// Where an object lives that has this home in the frame.
    fn object(&self, home: Home) -> ObjectHome {
        match home {
            Home::Cell(word) => self.home(word),
            Home::Array(offset) => {
                let area = self.place(self.numbers.len());
                ObjectHome::Frame(area.wrapping_add(low_word(offset)))
            }
        }
    }
}

/// How many of a function's objects are no arrays.
fn count_numbers(objects: &[ObjectType]) -> usize {
    let mut count: usize = 0;
    for object in objects {
        if object.lengths.is_empty() {
            count = count.saturating_add(1);
        }
    }
    count
}

/// Where the objects of one function live, whose flat code has these words. The words of its array parameters follow those of its objects.
fn lived_in(
    alloc: Global,
    function: &Function,
    homes: &[Home],
    words: &Words,
    places: Vec<usize>,
) -> Result<FunctionHomes, AllocError> {
    let mut objects = Vec::with_capacity(alloc, homes.len())?;
    for home in homes {
        objects.push(words.object(*home))?;
    }
    let first = count_numbers(function.objects.as_slice());
    let mut arrays = Vec::new(alloc);
    for parameter in &function.function_type.parameters {
        if matches!(parameter, ParameterType::Elements(_)) {
            arrays.push(words.home(first.saturating_add(arrays.len())))?;
        }
    }
    Ok(FunctionHomes {
        objects,
        arrays,
        places,
    })
}

/// Where the objects of a function live. Its flat code, `flat`, is made of it as in `flat_program`.
fn homes_of(
    alloc: Global,
    program: &Program,
    starts: &Starts,
    function: &Function,
    flat: Option<&frames_code::Function>,
    is_main: bool,
) -> Result<FunctionHomes, AllocError>
    requires ready { IsReady (program_of program.now) }
    requires own { (k : ℕ) × (slice_get (program_of program.now).functions k ≡ Some (function_of function.now)) }
{
    let code = lower_function(alloc, program, function, is_main)?;
    let homes = object_homes(alloc, &code)?;
    let long = flatten_function(alloc, starts, &code)?;
    drop(code);
    let most = known_bytes(&long.code);
    let simple = simplify_function(alloc, long)?;
    let reached = remove_unreachable(alloc, simple)?;
    let places = new_places(alloc, most, &reached.code)?;
    let laid = lay_out(alloc, most, reached)?;
    let hoisted = hoist_function(alloc, laid)?;
    let temporaries = leaf_words(alloc, &hoisted)?;
    let allocated = allocate_leaf(alloc, hoisted)?;
    let words = Words {
        numbers: word_numbers(alloc, &allocated)?,
        temporaries,
        resident: flat.map_or(0, |flat| flat.resident),
        outgoing: allocated.outgoing,
    };
    lived_in(alloc, function, homes.as_slice(), &words, places)
}

/// Where the objects of each function live, in the order of their definitions. `flat` has their flat code, by `flat_program`.
pub fn program_homes(
    alloc: Global,
    program: &Program,
    starts: &Starts,
    flat: &[frames_code::Function],
) -> Result<Vec<FunctionHomes>, AllocError>
    requires { IsReady (program_of program.now) }
{
    let mut list = Vec::with_capacity(alloc, program.functions.len())?;
    let mut number = 0;
    for function in &program.functions {
        let is_main = number == program.main;
        let homes = homes_of(alloc, program, starts, function, flat.get(number), is_main)?;
        list.push(homes)?;
        number += 1;
    }
    Ok(list)
}
