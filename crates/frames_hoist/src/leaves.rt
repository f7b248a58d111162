//! Which temporaries a function leaves free. No contract depends on it.

use frames_code::{Function, Instruction, Location, Operand, Target};

/// The registers that hold temporaries: a0 to a7.
const REGISTERS: usize = 8;

/// A function with more words than this is not looked at.
const MOST_WORDS: usize = 64;

/// What an instruction names. A constant stands for nothing.
#[derive(Clone, Copy)]
struct Named {
    target: Operand,
    first: Operand,
    second: Operand,
}

const NOTHING: Operand = Operand::Constant(0);

fn of_target(target: Target) -> Operand {
    match target {
        Target::Temporary(number) => Operand::Temporary(number),
        Target::Cell(number) => Operand::Cell(number),
    }
}

fn of_location(location: Location) -> Operand {
    match location {
        Location::Statics(_) => NOTHING,
        Location::Frame(_) => NOTHING,
        Location::At(operand) => operand,
        Location::Indexed { index, .. } => index,
    }
}

fn naming(target: Operand, first: Operand, second: Operand) -> Named {
    Named {
        target,
        first,
        second,
    }
}

fn named_in(instruction: Instruction) -> Named {
    match instruction {
        Instruction::Nothing => naming(NOTHING, NOTHING, NOTHING),
        Instruction::Move { target, source } => naming(of_target(target), source, NOTHING),
        Instruction::Compute {
            target,
            left,
            right,
            ..
        } => naming(of_target(target), left, right),
        Instruction::Convert { target, source, .. } => naming(of_target(target), source, NOTHING),
        Instruction::Load { target, from, .. } => {
            naming(of_target(target), of_location(from), NOTHING)
        }
        Instruction::Store { source, to, .. } => naming(NOTHING, source, of_location(to)),
        Instruction::Address { target, of } => naming(of_target(target), of_location(of), NOTHING),
        Instruction::Element {
            target,
            array,
            index,
            ..
        } => naming(of_target(target), array, index),
        Instruction::Jump(_) => naming(NOTHING, NOTHING, NOTHING),
        Instruction::Branch { left, right, .. } => naming(NOTHING, left, right),
        Instruction::Call(_) => naming(NOTHING, NOTHING, NOTHING),
        Instruction::PutByte => naming(NOTHING, NOTHING, NOTHING),
        Instruction::GetByte => naming(NOTHING, NOTHING, NOTHING),
        Instruction::Exit => naming(NOTHING, NOTHING, NOTHING),
        Instruction::Return => naming(NOTHING, NOTHING, NOTHING),
    }
}

/// Whether an instruction loses temporaries.
fn is_call(instruction: Instruction) -> bool {
    match instruction {
        Instruction::Nothing => false,
        Instruction::Move { .. } => false,
        Instruction::Compute { .. } => false,
        Instruction::Convert { .. } => false,
        Instruction::Load { .. } => false,
        Instruction::Store { .. } => false,
        Instruction::Address { .. } => false,
        Instruction::Element { .. } => false,
        Instruction::Jump(_) => false,
        Instruction::Branch { .. } => false,
        Instruction::Call(_) => true,
        Instruction::PutByte => true,
        Instruction::GetByte => true,
        Instruction::Exit => false,
        Instruction::Return => false,
    }
}

/// The number behind a temporary, or the one so far if that is greater.
fn behind(least: usize, operand: Operand) -> usize {
    match operand {
        Operand::Temporary(number) => least.max(number.saturating_add(1)),
        Operand::Cell(_) => least,
        Operand::Constant(_) => least,
        Operand::Argument(_) => least,
    }
}

fn is_word(word: usize, operand: Operand) -> bool {
    match operand {
        Operand::Temporary(_) => false,
        Operand::Cell(number) => number == word,
        Operand::Constant(_) => false,
        Operand::Argument(_) => false,
    }
}

/// The first temporary behind all that a function's code names, and behind the one that has the result; 8 or more where it calls, or puts or gets a byte.
pub fn first_free(code: &[Instruction]) -> usize {
    let mut least = 1;
    for instruction in code {
        let all = named_in(*instruction);
        least = behind(behind(behind(least, all.target), all.first), all.second);
        if is_call(*instruction) {
            least = least.max(REGISTERS);
        }
    }
    least
}

fn names_word(code: &[Instruction], word: usize) -> bool {
    for instruction in code {
        let all = named_in(*instruction);
        if is_word(word, all.target) || is_word(word, all.first) || is_word(word, all.second) {
            return true;
        }
    }
    false
}

/// How many words of the frame the code names.
fn words_in(function: &Function) -> usize {
    if function.cells > MOST_WORDS {
        return function.cells;
    }
    let mut count: usize = 0;
    for word in 0..function.cells {
        if names_word(&function.code, word) {
            count = count.saturating_add(1);
        }
    }
    count
}

/// How many registers from a temporary on are left where each word that the code names gets one.
pub fn registers_left(function: &Function, first: usize) -> usize {
    if first >= REGISTERS {
        return 0;
    }
    REGISTERS
        .saturating_sub(first)
        .saturating_sub(words_in(function))
}
