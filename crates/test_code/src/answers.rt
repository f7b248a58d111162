//! Wrappers of calls, with the clauses that state when a fault, or that the ticks are used up, may be returned.

ghost use Rattle.std.specs.Prelude.{◌≡◌, ℕ, List, Some, IfErr};
ghost use Rattle.tree.specs.View.{unit_of};
ghost use Rattle.parser.specs.Units.{IsFaultOfUnit};
ghost use Rattle.typing_spec.specs.Units as typed;
ghost use Rattle.typing.specs.Told.{IsFaultOfVerdict};
ghost use Rattle.typed_ast.specs.View.{program_of};
ghost use Rattle.cabs.specs.Interpreting.{RunMeets};

use cabs::{Interpreted, interpret};
use io_ports::Port;
use lexer::Token;
use parser::parse;
use srcset::{Fault, Names, Pos};
use std::alloc::Global;
use tree::Unit;
use typed_ast::Program;
use typing::check;

/// The syntax tree of tokens. A fault is one that the tokens have.
pub fn parsed(alloc: Global, tokens: &[Token], names: &Names) -> Result<Unit, Fault>
    ensures { IfErr result (λ fault. IsFaultOfUnit fault names.now tokens.now) }
{
    parse(alloc, tokens, names)
}

/// The typed program of a tree, for a stack of 1,048,576 bytes. A fault is of a constraint that is broken.
pub fn checked(alloc: Global, unit: Unit, names: &Names, whole: Pos) -> Result<Program, Fault>
    ensures { IfErr result (λ fault. IsFaultOfVerdict fault names.now (typed.unit_typed 1048576 names.now whole (unit_of unit))) }
{
    check(alloc, unit, names, whole, 1_048_576)
}

/// The outcome of a program. It ends so where it does by the definition.
pub fn interpreted<P: Port>(
    alloc: Global,
    program: &Program,
    port: &mut P,
    ticks: u64,
) -> Interpreted
    ensures { (input : List ℕ) → (P.seen port.old).input ≡ Some input →
        RunMeets (program_of program.now) input ticks result.run result.greatest (P.seen port.old) (P.seen port.new) }
{
    interpret(alloc, program, port, ticks)
}
