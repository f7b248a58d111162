//! Reads three-address programs, a line each for their parts.

use crate::tac_names::{
    comparison_of, location_of, operand_of, operation_of, parameter_of, reading_of, target_of,
};
use crate::types::{int_type, next_letter, next_place};
use ctypes::IntType;
use std::alloc::Global;
use tac_code::{Function, Instruction, Operand, Parameter, TacProgram, Target};
use test_rows::{Answer, Fields, Words, bytes, decimal};
use typed_ast::{ObjectType, Static};

/// The program of a row's lines, from the sixth field on.
pub fn tac_program(row: &Fields, answer: &mut Answer) -> TacProgram {
    let alloc = answer.alloc();
    let mut program = TacProgram {
        functions: Vec::new(alloc),
        literals: Vec::new(alloc),
        statics: Vec::new(alloc),
        main: usize::try_from(row.number(5)).unwrap_or(0),
    };
    for at in 6..row.count() {
        let mut words = Words::new(row.field(at), b' ');
        if !take_line(alloc, &mut program, &mut words) {
            answer.fail();
        }
    }
    program
}

fn take_line(alloc: Global, program: &mut TacProgram, words: &mut Words<'_>) -> bool {
    match next_letter(words) {
        b'L' => program.literals.push(bytes(alloc, words.word())).is_ok(),
        b'S' => program
            .statics
            .push(next_static(alloc, true, words))
            .is_ok(),
        b'D' => program
            .statics
            .push(next_static(alloc, false, words))
            .is_ok(),
        b'f' => program.functions.push(next_function(alloc, words)).is_ok(),
        b'O' => push_object(&mut program.functions, next_object(alloc, words)),
        b'*' => {
            let times = next_place(words);
            let kind = next_letter(words);
            push_instructions(&mut program.functions, next_instruction(kind, words), times)
        }
        kind => push_instructions(&mut program.functions, next_instruction(kind, words), 1),
    }
}

/// `f TEMPORARIES KEPT PARAMETERS`, a letter for each parameter. Its result is an `int`, of which every word is a value.
fn next_function(alloc: Global, words: &mut Words<'_>) -> Function {
    Function {
        code: Vec::new(alloc),
        temporaries: next_place(words),
        kept: next_place(words),
        parameters: parameters_of(alloc, words.word()),
        objects: Vec::new(alloc),
        result: Some(IntType::Int),
    }
}

fn parameters_of(alloc: Global, letters: &[u8]) -> Vec<Parameter> {
    let mut parameters = Vec::new(alloc);
    for letter in letters {
        if parameters.push(parameter_of(*letter)).is_err() {
            return parameters;
        }
    }
    parameters
}

/// `O TYPE LENGTH ..`, up to the end or to `=`.
fn next_object(alloc: Global, words: &mut Words<'_>) -> ObjectType {
    let element = int_type(next_letter(words));
    let mut lengths = Vec::new(alloc);
    for _ in 0..u32::MAX {
        if words.is_over() {
            break;
        }
        let word = words.word();
        if word == b"=".as_slice() {
            break;
        }
        if lengths
            .push(u32::try_from(decimal(word)).unwrap_or(0))
            .is_err()
        {
            break;
        }
    }
    ObjectType {
        element,
        constant: false,
        lengths,
    }
}

/// `S TYPE LENGTH .. = VALUE ..` for an object with static storage, `D` for one that is only declared.
fn next_static(alloc: Global, defined: bool, words: &mut Words<'_>) -> Static {
    let object_type = next_object(alloc, words);
    Static {
        name: 0,
        object_type,
        defined,
        values: next_values(alloc, words),
    }
}

fn next_values(alloc: Global, words: &mut Words<'_>) -> Vec<i64> {
    let mut values = Vec::new(alloc);
    for _ in 0..u32::MAX {
        if words.is_over() {
            break;
        }
        if values.push(words.number()).is_err() {
            break;
        }
    }
    values
}

fn push_object(functions: &mut Vec<Function>, object: ObjectType) -> bool {
    match functions.last_mut() {
        Some(function) => function.objects.push(object).is_ok(),
        None => false,
    }
}

/// Adds an instruction to the last function, a number of times.
fn push_instructions(
    functions: &mut Vec<Function>,
    instruction: Instruction,
    times: usize,
) -> bool {
    let Some(function) = functions.last_mut() else {
        return false;
    };
    for _ in 0..times {
        if function.code.extend_from_slice(&[instruction]).is_err() {
            return false;
        }
    }
    true
}

fn next_operand(words: &mut Words<'_>) -> Operand {
    operand_of(words.word())
}

fn next_target(words: &mut Words<'_>) -> Target {
    target_of(words.word())
}

fn next_instruction(kind: u8, words: &mut Words<'_>) -> Instruction {
    match kind {
        b'p' => Instruction::PutByte,
        b'g' => Instruction::GetByte,
        b'x' => Instruction::Exit,
        b'r' => Instruction::Return,
        b'j' => Instruction::Jump(next_place(words)),
        b'c' => Instruction::Call(next_place(words)),
        b'k' => Instruction::Forget {
            first: next_place(words),
            count: next_place(words),
        },
        b'b' => Instruction::Branch {
            comparison: comparison_of(next_place(words)),
            reading: reading_of(next_letter(words)),
            left: next_operand(words),
            right: next_operand(words),
            to: next_place(words),
        },
        b'm' | b'v' | b'o' => computation(kind, words),
        b'l' | b's' | b'a' | b'e' | b't' => access(kind, words),
        _ => Instruction::Nothing,
    }
}

fn access(kind: u8, words: &mut Words<'_>) -> Instruction {
    match kind {
        b'l' => load(next_letter(words), words),
        b's' => store(next_letter(words), words),
        b'a' => {
            let target = next_target(words);
            let word = words.word();
            Instruction::Address {
                target,
                of: location_of(word, next_letter(words)),
            }
        }
        b'e' => Instruction::Element {
            element: int_type(next_letter(words)),
            target: next_target(words),
            from: next_operand(words),
            count: next_operand(words),
        },
        _ => Instruction::Part {
            target: next_target(words),
            array: next_operand(words),
            index: next_operand(words),
            size: next_place(words),
        },
    }
}

fn load(letter: u8, words: &mut Words<'_>) -> Instruction {
    Instruction::Load {
        element: int_type(letter),
        target: next_target(words),
        from: location_of(words.word(), letter),
    }
}

fn store(letter: u8, words: &mut Words<'_>) -> Instruction {
    Instruction::Store {
        element: int_type(letter),
        source: next_operand(words),
        to: location_of(words.word(), letter),
    }
}

fn computation(kind: u8, words: &mut Words<'_>) -> Instruction {
    match kind {
        b'm' => Instruction::Move {
            target: next_target(words),
            source: next_operand(words),
        },
        b'v' => Instruction::Convert {
            to: int_type(next_letter(words)),
            target: next_target(words),
            source: next_operand(words),
        },
        _ => Instruction::Compute {
            operation: operation_of(next_place(words)),
            reading: reading_of(next_letter(words)),
            target: next_target(words),
            left: next_operand(words),
            right: next_operand(words),
        },
    }
}
