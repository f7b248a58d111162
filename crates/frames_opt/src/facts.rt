//! The contents of the temporaries, as far as the code itself determines them.

ghost use Rattle.std.specs.Prelude.{◌≡◌, replicate};
ghost use Rattle.frames_opt.specs.inside.Facts as facts_in;

use crate::indices::indexed_from;
use crate::operations::computed;
use crate::room::Room;
use frames_code::{Base, Instruction, Location, Operand, Target};

/// The abstract value of a temporary.
#[derive(Clone, Copy, Debug)]
pub enum Known {
    /// Anything, or nothing yet.
    Unknown,
    Word(u32),
    /// A reference at this offset in bytes from the start of the statics.
    Statics(usize),
    /// A reference at this offset in bytes from the start of the arrays of the frame.
    Frame(usize),
    /// A reference to the element with this number of an array of elements of `size` bytes, which an access may name.
    Indexed {
        base: Base,
        index: Operand,
        size: usize,
    },
}

/// The facts known of the first eight temporaries, which live in registers.
pub type Facts = [Known; 8];

/// Nothing is known.
pub fn nothing() -> Facts
    ensures { result ≡ facts_in.nothing }
{
    [Known::Unknown; 8]
}

fn held(facts: &Facts, number: usize) -> Known
    ensures { result ≡ facts_in.held facts.now number }
{
    if number < 8 {
        facts[number]
    } else {
        Known::Unknown
    }
}

/// The abstract value of an operand.
pub fn known_of(facts: &Facts, operand: Operand) -> Known
    ensures { result ≡ facts_in.known_of facts.now operand }
{
    match operand {
        Operand::Temporary(number) => held(facts, number),
        Operand::Cell(_) => Known::Unknown,
        Operand::Constant(word) => Known::Word(word),
        Operand::Argument(_) => Known::Unknown,
    }
}

fn reference_to(location: Location) -> Known
    ensures { result ≡ facts_in.reference_to location }
{
    match location {
        Location::Statics(offset) => Known::Statics(offset),
        Location::Frame(offset) => Known::Frame(offset),
        Location::At(_) => Known::Unknown,
        Location::Indexed { .. } => Known::Unknown,
    }
}

/// Whether the word that is written is the operand.
pub fn is_target(target: Target, operand: Operand) -> bool
    ensures { result ≡ facts_in.is_target target operand }
{
    match target {
        Target::Temporary(written) => match operand {
            Operand::Temporary(number) => written == number,
            Operand::Cell(_) => false,
            Operand::Constant(_) => false,
            Operand::Argument(_) => false,
        },
        Target::Cell(written) => match operand {
            Operand::Temporary(_) => false,
            Operand::Cell(number) => written == number,
            Operand::Constant(_) => false,
            Operand::Argument(_) => false,
        },
    }
}

/// What stays known as a word is written.
fn killed(target: Target, known: Known) -> Known
    ensures { result ≡ facts_in.killed target known }
{
    match known {
        Known::Unknown => Known::Unknown,
        Known::Word(word) => Known::Word(word),
        Known::Statics(offset) => Known::Statics(offset),
        Known::Frame(offset) => Known::Frame(offset),
        Known::Indexed { base, index, size } => {
            if is_target(target, index) {
                Known::Unknown
            } else {
                Known::Indexed { base, index, size }
            }
        }
    }
}

fn kill(facts: &mut Facts, target: Target)
    ensures { facts.new ≡ facts_in.all_killed target facts.old }
{
    *facts = [
        killed(target, facts[0]),
        killed(target, facts[1]),
        killed(target, facts[2]),
        killed(target, facts[3]),
        killed(target, facts[4]),
        killed(target, facts[5]),
        killed(target, facts[6]),
        killed(target, facts[7]),
    ];
}

fn learn(facts: &mut Facts, target: Target, known: Known)
    ensures { facts.new ≡ facts_in.learned facts.old target known }
{
    kill(facts, target);
    match target {
        Target::Temporary(number) => {
            if number < 8 {
                facts[number] = killed(target, known);
            }
        }
        Target::Cell(_) => {}
    }
}

fn forget(facts: &mut Facts)
    ensures { facts.new ≡ facts_in.nothing }
{
    *facts = nothing();
}

/// The facts known after an instruction.
pub fn pass(room: Room, facts: &mut Facts, instruction: Instruction)
    ensures { facts.new ≡ facts_in.behind room facts.old instruction }
{
    match instruction {
        Instruction::Nothing => {}
        Instruction::Move { target, source } => {
            let known = known_of(facts, source);
            learn(facts, target, known);
        }
        Instruction::Compute {
            operation,
            target,
            left,
            right,
        } => learn(facts, target, computed(operation, left, right)),
        Instruction::Convert { target, .. } => learn(facts, target, Known::Unknown),
        Instruction::Load { target, .. } => learn(facts, target, Known::Unknown),
        Instruction::Store { .. } => {}
        Instruction::Address { target, of } => learn(facts, target, reference_to(of)),
        Instruction::Element {
            target,
            array,
            index,
            size,
        } => {
            let known = indexed_from(room, known_of(facts, array), index, size);
            learn(facts, target, known);
        }
        Instruction::Jump(_) => forget(facts),
        Instruction::Branch { .. } => {}
        Instruction::Call(_) => forget(facts),
        Instruction::PutByte => forget(facts),
        Instruction::GetByte => forget(facts),
        Instruction::Exit => forget(facts),
        Instruction::Return => forget(facts),
    }
}
