//! Flat code.

ghost use Rattle.std.specs.Prelude.{◌≡◌, ◌≤◌, ◌<◌};
ghost use Rattle.frames_code.specs.Code as flat;
ghost use Rattle.frames_code.specs.Code.{function_of};
ghost use Rattle.frames_code.specs.Sound.{most_bytes};

use rv32::{RegisterOp, Test};

/// An operand that an instruction reads.
#[derive(Clone, Copy, Debug, PartialEq, Eq)]
pub enum Operand {
    /// A temporary, which a call loses.
    Temporary(usize),
    /// A word of the frame.
    Cell(usize),
    Constant(u32),
    /// An argument from the ninth on, by its number from 0, which the caller's frame holds.
    Argument(usize),
}

/// Where a result goes.
#[derive(Clone, Copy, Debug, PartialEq, Eq)]
pub enum Target {
    Temporary(usize),
    /// A word of the frame.
    Cell(usize),
}

/// How an element lies in memory, the lowest byte first, and whether its sign is extended when it is read.
#[derive(Clone, Copy, Debug, PartialEq, Eq)]
pub enum Width {
    Byte,
    SignedByte,
    Half,
    SignedHalf,
    Word,
}

/// Where an array begins, in bytes.
#[derive(Clone, Copy, Debug, PartialEq, Eq)]
pub enum Base {
    /// From the start of the statics.
    Statics(usize),
    /// From the start of the arrays of the frame.
    Frame(usize),
}

/// Where an element lies.
#[derive(Clone, Copy, Debug, PartialEq, Eq)]
pub enum Location {
    /// This number of bytes from the start of the statics.
    Statics(usize),
    /// This number of bytes from the start of the arrays of the frame.
    Frame(usize),
    /// The target of a reference.
    At(Operand),
    /// A number of elements of `size` bytes from a base on.
    Indexed {
        base: Base,
        index: Operand,
        size: usize,
    },
}

/// An operation on two words.
#[derive(Clone, Copy, Debug, PartialEq, Eq)]
pub enum Operation {
    /// One that the machine has.
    Machine(RegisterOp),
    /// 1 where both are the same, else 0.
    Equal,
    /// 0 where both are the same, else 1.
    NotEqual,
}

/// A conversion to a narrow type (ISO/IEC 9899:2011 6.3.1.2, 6.3.1.3).
#[derive(Clone, Copy, Debug, PartialEq, Eq)]
pub enum Conversion {
    ToByte,
    ToSignedByte,
    ToHalf,
    ToSignedHalf,
    /// To 0 and 1.
    ToTruth,
}

/// An instruction. Jumps lead to an instruction of the same function, counted from 0.
///
/// The arguments of a call are in the temporaries from 0 on; its result, a byte that is written or read, and the status of `Exit` are in
/// temporary 0.
#[derive(Clone, Copy, Debug)]
pub enum Instruction {
    Nothing,
    Move {
        target: Target,
        source: Operand,
    },
    Compute {
        operation: Operation,
        target: Target,
        left: Operand,
        right: Operand,
    },
    Convert {
        conversion: Conversion,
        target: Target,
        source: Operand,
    },
    Load {
        width: Width,
        target: Target,
        from: Location,
    },
    Store {
        width: Width,
        source: Operand,
        to: Location,
    },
    /// A reference to the location.
    Address {
        target: Target,
        of: Location,
    },
    /// The reference a number of elements of `size` bytes further on.
    Element {
        target: Target,
        array: Operand,
        index: Operand,
        size: usize,
    },
    Jump(usize),
    /// A jump where the comparison holds.
    Branch {
        test: Test,
        left: Operand,
        right: Operand,
        to: usize,
    },
    /// A call of the function with this number.
    Call(usize),
    PutByte,
    GetByte,
    Exit,
    Return,
}

/// A function.
#[derive(Drop)]
pub struct Function {
    pub code: Vec<Instruction>,
    /// How many words its frame has.
    pub cells: usize,
    /// How many of them, the first ones, may live in registers: at most 12.
    pub resident: usize,
    /// The bytes of its arrays.
    pub area: usize,
    /// How many temporaries from the ninth on it has. They lie at the frame's start, where arguments from the ninth on belong.
    pub outgoing: usize,
    /// Whether it has a result, which temporary 0 holds where it returns.
    pub gives: bool,
}

impl Function {
    /// How many bytes above the frame's start a word of the frame lies.
    pub fn cell_home(&self, number: usize) -> u32
        requires small { flat.frame_bytes (function_of self.now) ≤ most_bytes }
        requires inside { number < self.now.cells }
        ensures { result ≡ flat.cell_home (function_of self.now) number }
    {
        (4 * self.outgoing + 4 + 4 * number) as u32
    }

    /// How many bytes above the frame's start its arrays begin.
    pub fn area_home(&self) -> u32
        requires { flat.frame_bytes (function_of self.now) ≤ most_bytes }
        ensures { result ≡ flat.area_home (function_of self.now) }
    {
        (4 * self.outgoing + 4 + 4 * self.cells) as u32
    }

    /// The bytes of its frame, a multiple of 16.
    pub fn frame_bytes(&self) -> u32
        requires { flat.frame_bytes (function_of self.now) ≤ most_bytes }
        ensures { result ≡ flat.frame_bytes (function_of self.now) }
    {
        ((4 * self.outgoing + 4 + 4 * self.cells + self.area + 4 + 15) / 16 * 16) as u32
    }
}

/// A program: its functions, the bytes of its statics as it begins, and the number of `main`.
#[derive(Drop)]
pub struct FlatProgram {
    pub functions: Vec<Function>,
    pub statics: Vec<u8>,
    pub main: usize,
}
