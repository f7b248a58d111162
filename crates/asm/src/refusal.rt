//! The reasons for a failure.

ghost use Rattle.std.specs.Prelude.{◌≡◌, [], Ok, IsErrAnd, MatchResult};
ghost use Rattle.srcset.specs.Fault.{IsFault};
ghost use Rattle.asm.specs.inside.Refusing.{code_of};
ghost use Rattle.asm.specs.declared.refusal.Refusal.TheVariants.{Memory};

use srcset::{Code, Fault};
use std::alloc::{AllocError, AllocFailed, Global};

/// A jump does not reach, there is no memory, or the writer failed.
#[derive(Clone, Copy, PartialEq, Eq, Debug, Drop)]
pub enum Refusal {
    Far,
    Memory,
    Write,
}

impl From<AllocError> for Refusal {
    ghost from_gives = { λ _ e. e ≡ Memory };

    fn from(_e: AllocError) -> Refusal {
        Refusal::Memory
    }
}

impl<T: Drop> From<AllocFailed<T>> for Refusal {
    ghost from_gives = { λ _ e. e ≡ Memory };

    fn from(_e: AllocFailed<T>) -> Refusal {
        Refusal::Memory
    }
}

/// The result of an inner step, its error converted to the fault.
pub fn told<T>(alloc: Global, step: Result<T, Refusal>) -> Result<T, Fault>
    ensures { MatchResult step (λ value. result ≡ Ok value)
        (λ refusal. IsErrAnd result (λ fault. IsFault fault (code_of refusal) [] 0)) }
{
    match step {
        Ok(value) => Ok(value),
        Err(refusal) => Err(refusal.to_fault(alloc)),
    }
}

impl Refusal {
    fn code(self) -> Code
        ensures { result ≡ code_of self }
    {
        match self {
            Refusal::Far => Code::JumpLimit,
            Refusal::Memory => Code::OutOfMemory,
            Refusal::Write => Code::CannotWrite,
        }
    }

    /// The fault, which names no file.
    fn to_fault(self, alloc: Global) -> Fault
        ensures { IsFault result (code_of self) [] 0 }
    {
        Fault {
            code: self.code().number(),
            file: String::new(alloc),
            line: 0,
            text: String::new(alloc),
        }
    }
}
