//! The truth of a condition (ISO/IEC 9899:2011 6.10.1).
ghost use Rattle.std.specs.Prelude.{◌≡◌, ◌≢◌, [], ◌∷◌, ◌++◌, List, Ok, Err, IfOk, IfErr, OnOk};
ghost use Rattle.srcset.specs.declared.refusal.Refusal.TheVariants.{Memory};
ghost use Rattle.phases.specs.Token.{Token};
ghost use Rattle.pp_cond.specs.Condition.{is_defined_word, truth_or_fault, holds};
ghost use Rattle.pp_cond.specs.layer.HasRead.{HasRead};
ghost use Rattle.pp_cond.specs.Refused.{IsConditionRefused};
ghost use Rattle.pp_cond.specs.inside.Operands.{known_of, known_option};
ghost use Rattle.pp_cond.specs.inside.Reading.{start, run, truth_known};

use crate::operand::Operand;
use crate::reader::Reader;
use macros::is_identifier;
use phases::PpToken;
use srcset::{Code, Pos, Refusal};
use std::alloc::Global;

fn is_defined_word(token: &PpToken) -> bool
    ensures { result ≡ is_defined_word token.now }
{
    is_identifier(token) && token.spelling() == b"defined".as_slice()
}

// Whether a condition that was read holds, or the code of its fault.
fn truth_of(operand: Option<Operand>) -> Result<bool, Code>
    ensures { result ≡ truth_known (known_option operand) }
{
    let Some(operand) = operand else {
        return Err(Code::NotConstantCondition);
    };
    match operand.truth() {
        Some(truth) => Ok(truth),
        None => Err(Code::ConditionOutOfRange),
    }
}

/// A condition whose tokens are read one after the other, and not kept. In memory are the frames that wait for operands, with
/// only the types and values of these.
#[derive(Drop)]
pub struct ConditionReader {
    // What is read of the condition, up to the first token with which no condition continues.
    reader: Reader,
    // Whether a token is a `defined`.
    has_defined: bool,
    // Whether no condition begins with the tokens.
    is_broken: bool,
}

impl ConditionReader {
    /// No token is read. Takes no memory yet.
    pub fn new(alloc: Global) -> ConditionReader
        ensures { HasRead result [] }
    {
        ConditionReader {
            reader: Reader::new(alloc),
            has_defined: false,
            is_broken: false,
        }
    }

    /// Reads the next token, `defined` resolved and macros replaced.
    ///
    /// Fails only when out of memory.
    pub fn take(&mut self, token: &PpToken) -> Result<(), Refusal>
        ensures ok { (xs : List Token) → HasRead self.old xs → OnOk result (HasRead self.new (xs ++ token.now ∷ [])) }
        ensures err { IfErr result (λ refusal. refusal ≡ Memory) }
    {
        if is_defined_word(token) {
            self.has_defined = true;
        }
        if self.is_broken {
            return Ok(());
        }
        match self.reader.take(token) {
            Ok(taken) => {
                self.is_broken = !taken;
                Ok(())
            }
            Err(refusal) => Err(refusal),
        }
    }

    // The whole condition that the tokens are, or `None` where they are none.
    fn whole(&mut self) -> Option<Operand>
        ensures { (xs : List Token) → HasRead self.old xs → known_option result ≡ run xs start }
    {
        if self.is_broken {
            return None;
        }
        self.reader.end()
    }

    /// Whether the condition holds that the tokens read are, as `truth` says it.
    ///
    /// # Errors
    ///
    /// As those of `truth`, but not 801.
    pub fn truth(mut self, at: Pos) -> Result<bool, Refusal>
        ensures ok { (xs : List Token) → HasRead self xs → IfOk result (λ b. holds xs ≡ Ok b) }
        ensures err { (xs : List Token) → HasRead self xs → IfErr result (λ refusal. IsConditionRefused (holds xs) at refusal) }
        ensures known { IfErr result (λ refusal. refusal ≢ Memory) }
    {
        if self.has_defined {
            return Err(Refusal::At {
                code: Code::DefinedMadeByMacro,
                pos: at,
            });
        }
        match truth_of(self.whole()) {
            Ok(truth) => Ok(truth),
            Err(code) => Err(Refusal::At { code, pos: at }),
        }
    }
}

/// Whether a condition holds, once `defined` is resolved and macros are replaced (6.10.1p1, p4): a constant expression
/// (6.6) whose arithmetic is that of intmax_t and uintmax_t, both of 64 bits, and where each identifier left is 0.
///
/// # Errors
///
/// All are at `at`: 223 where a `defined` is left, which replacement made; else 221 where the tokens are no such
/// expression, or a constant is none of these types; else 222 where an evaluated operation overflows, divides by zero or
/// shifts by no count of a bit. 801 where memory runs out.
pub fn truth(alloc: Global, tokens: &[PpToken], at: Pos) -> Result<bool, Refusal>
    ensures ok { IfOk result (λ b. holds tokens.now ≡ Ok b) }
    ensures err { IfErr result (λ refusal. IsConditionRefused (holds tokens.now) at refusal) }
{
    let mut reader = ConditionReader::new(alloc);
    for token in tokens {
        if let Err(refusal) = reader.take(token) {
            return Err(refusal);
        }
    }
    reader.truth(at)
}
