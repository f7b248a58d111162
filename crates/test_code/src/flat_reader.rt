//! Reads flat programs, a line each for their parts.

use crate::flat_names::{
    conversion_of, location_of, operand_of, operation_of, target_of, test_of, width_of,
};
use crate::types::{next_letter, next_place};
use frames_code::{FlatProgram, Function, Instruction, Operand, Target};
use std::alloc::Global;
use test_rows::{Answer, Fields, Words, bytes};

/// The program of a row's lines, from the sixth field on.
pub fn flat_program(row: &Fields, answer: &mut Answer) -> FlatProgram {
    let alloc = answer.alloc();
    let mut program = FlatProgram {
        functions: Vec::new(alloc),
        statics: Vec::new(alloc),
        main: usize::try_from(row.number(5)).unwrap_or(0),
    };
    for at in 6..row.count() {
        let mut words = Words::new(row.field(at), b' ');
        if !take_line(alloc, &mut program, &mut words) {
            answer.fail();
        }
    }
    program
}

fn take_line(alloc: Global, program: &mut FlatProgram, words: &mut Words<'_>) -> bool {
    match next_letter(words) {
        b'd' => push_statics(alloc, &mut program.statics, words),
        b'f' => program.functions.push(next_function(alloc, words)).is_ok(),
        b'*' => {
            let times = next_place(words);
            let kind = next_letter(words);
            push_instructions(&mut program.functions, next_instruction(kind, words), times)
        }
        kind => push_instructions(&mut program.functions, next_instruction(kind, words), 1),
    }
}

/// `d BYTES TIMES`.
fn push_statics(alloc: Global, statics: &mut Vec<u8>, words: &mut Words<'_>) -> bool {
    let some = bytes(alloc, words.word());
    for _ in 0..words.number() {
        if statics.extend_from_slice(some.as_slice()).is_err() {
            return false;
        }
    }
    true
}

/// `f CELLS RESIDENT AREA OUTGOING`.
fn next_function(alloc: Global, words: &mut Words<'_>) -> Function {
    Function {
        code: Vec::new(alloc),
        cells: next_place(words),
        resident: next_place(words),
        area: next_place(words),
        outgoing: next_place(words),
        gives: true,
    }
}

/// Adds an instruction to the last function, a number of times.
fn push_instructions(
    functions: &mut Vec<Function>,
    instruction: Instruction,
    times: usize,
) -> bool {
    let Some(function) = functions.last_mut() else {
        return false;
    };
    for _ in 0..times {
        if function.code.extend_from_slice(&[instruction]).is_err() {
            return false;
        }
    }
    true
}

fn next_operand(words: &mut Words<'_>) -> Operand {
    operand_of(words.word())
}

fn next_target(words: &mut Words<'_>) -> Target {
    target_of(words.word())
}

fn next_instruction(kind: u8, words: &mut Words<'_>) -> Instruction {
    match kind {
        b'p' => Instruction::PutByte,
        b'g' => Instruction::GetByte,
        b'x' => Instruction::Exit,
        b'r' => Instruction::Return,
        b'j' => Instruction::Jump(next_place(words)),
        b'c' => Instruction::Call(next_place(words)),
        b'b' => Instruction::Branch {
            test: test_of(next_place(words)),
            left: next_operand(words),
            right: next_operand(words),
            to: next_place(words),
        },
        b'm' | b'v' | b'o' => computation(kind, words),
        b'l' | b's' | b'a' | b'e' => access(kind, words),
        _ => Instruction::Nothing,
    }
}

fn access(kind: u8, words: &mut Words<'_>) -> Instruction {
    match kind {
        b'l' => Instruction::Load {
            width: width_of(next_place(words)),
            target: next_target(words),
            from: location_of(words.word()),
        },
        b's' => Instruction::Store {
            width: width_of(next_place(words)),
            source: next_operand(words),
            to: location_of(words.word()),
        },
        b'a' => Instruction::Address {
            target: next_target(words),
            of: location_of(words.word()),
        },
        _ => Instruction::Element {
            target: next_target(words),
            array: next_operand(words),
            index: next_operand(words),
            size: next_place(words),
        },
    }
}

fn computation(kind: u8, words: &mut Words<'_>) -> Instruction {
    match kind {
        b'm' => Instruction::Move {
            target: next_target(words),
            source: next_operand(words),
        },
        b'v' => Instruction::Convert {
            conversion: conversion_of(next_place(words)),
            target: next_target(words),
            source: next_operand(words),
        },
        _ => Instruction::Compute {
            operation: operation_of(next_place(words)),
            target: next_target(words),
            left: next_operand(words),
            right: next_operand(words),
        },
    }
}
