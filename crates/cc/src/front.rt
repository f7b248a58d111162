//! From a set of files to the typed program, a function for each step.

ghost use Rattle.std.specs.Prelude.{◌≡◌, ◌≤◌, ◌⊎◌, ℕ, List, [], Some, slice_get, IfOk, IfErr, OnOk};
ghost use Rattle.srcset.specs.NameTable.{Texts, KeepsNumbers, NumbersOnce};
ghost use Rattle.srcset.specs.Fault.{IsMemoryFault};
ghost use Rattle.parser.specs.Units.{IsTreeWithin, IsOnly, IsFaultOfUnit};
ghost use Rattle.tree.specs.Tree.{ExternalTree};
ghost use Rattle.tree.specs.View.{unit_of};
ghost use Rattle.typed_ast.specs.View.{program_of};
ghost use Rattle.tac_code.specs.Sound.{AreBytes};
ghost use Rattle.lower_wf.specs.Laws.{AreTexts};
ghost use Rattle.cc_backend.specs.Made.{IsReady};
ghost use Rattle.cc.specs.Compiled.{HasList, HasProgram, IsProgramOf};
ghost use Rattle.cc.specs.Refused.{BreaksConstraint, FailsPreprocessing};
ghost use Rattle.cc.specs.inside.Stops.{IsTold, Stops};

use crate::stopping::Stop;
use crate::token_stream::c_tokens;
use elf_out::StackSize;
use lexer::Token;
use parser::parse;
use phases::PpToken;
use pp::preprocess;
use srcset::{FileSet, Names, Pos};
use std::alloc::Global;
use tree::Unit;
use typed_ast::Program;
use typing::check;

/// The typed program of a set of files, from the one of this name on, for a stack of this size: the phases in their order (ISO/IEC 9899:2011 5.1.1.2), a
/// call each. Each phase consumes and frees the output of the previous one.
pub fn checked_unit(
    alloc: Global,
    set: &FileSet,
    main: &str,
    names: &mut Names,
    stack: StackSize,
) -> Result<Program, Stop>
    requires new { names.old ≡ [] }
    ensures program { IfOk result (λ p. (unit : List ExternalTree) × HasProgram stack set.now main.now names.new unit (program_of p)) }
    ensures ready { IfOk result (λ p. IsReady (program_of p)) }
    ensures stops { IfErr result (λ stop. Stops stack set.now main.now stop) }
{
    let tokens = c_tokens(alloc, set, main, names)?;
    let unit = syntax_tree(alloc, tokens.as_slice(), names)?;
    drop(tokens);
    let program = typed_program(alloc, unit, names, main, stack)?;
    texts_are_bytes(names);
    Ok(program)
}

/// The preprocessing tokens of a set of files, from the one of this name on: translation phases 1 to 4
/// (ISO/IEC 9899:2011 5.1.1.2).
pub fn preprocessed<'s>(
    alloc: Global,
    set: &'s FileSet,
    main: &str,
    names: &mut Names,
) -> Result<Vec<PpToken<'s>>, Stop>
    requires new { names.old ≡ [] }
    ensures list { IfOk result (λ list. (texts : Texts) → KeepsNumbers names.new texts → NumbersOnce texts → HasList set.now main.now texts list.items) }
    ensures once { OnOk result (NumbersOnce names.new) }
    ensures stops { IfErr result (IsTold (λ fault. FailsPreprocessing set.now main.now fault ⊎ IsMemoryFault fault)) }
{
    match number_name(main, names) {
        Ok(()) => {}
        Err(stop) => return Err(stop),
    }
    let made = preprocess(alloc, set, names, main);
    numbers_once(names);
    match made {
        Ok(list) => Ok(list),
        Err(fault) => Err(Stop::Told(fault)),
    }
}

/// Gives the name of the main file a number.
pub(crate) fn number_name(main: &str, names: &mut Names) -> Result<(), Stop>
    ensures named { OnOk result ((n : ℕ) × (slice_get names.new n ≡ Some main.now)) }
    ensures stops { IfErr result (IsTold IsMemoryFault) }
{
    match names.intern(main.as_bytes()) {
        Ok(_) => Ok(()),
        Err(fault) => Err(Stop::Told(fault)),
    }
}

/// No text of a table has two numbers, as `find` says.
pub(crate) fn numbers_once(names: &Names)
    ensures { NumbersOnce names.now }
{
    let _ = names.find(b"".as_slice());
}

/// The characters of each text are bytes.
fn texts_are_bytes(names: &Names)
    ensures { AreTexts names.now }
{
    for number in 0..names.len() {
        text_is_bytes(names, number);
    }
}

fn text_is_bytes(names: &Names, number: usize)
    ensures { (text : List ℕ) → slice_get names.now number ≡ Some text → AreBytes text }
{
    if let Some(text) = names.text(number) {
        are_bytes(text);
    }
}

/// Each of them is below 2^8.
fn are_bytes(bytes: &[u8])
    ensures { AreBytes bytes.now }
{}

/// The syntax tree: translation phase 7.
pub fn syntax_tree(alloc: Global, tokens: &[Token], names: &Names) -> Result<Unit, Stop>
    ensures ok { IfOk result (λ unit. IsTreeWithin tokens.now (unit_of unit)) }
    ensures unique { IfOk result (λ unit. IsOnly tokens.now (unit_of unit)) }
    ensures stops { IfErr result (IsTold (λ fault. IsFaultOfUnit fault names.now tokens.now)) }
{
    match parse(alloc, tokens, names) {
        Ok(unit) => Ok(unit),
        Err(fault) => Err(Stop::Told(fault)),
    }
}

/// The typed program, of a unit that breaks no constraint for a stack of this size: translation phase 7.
pub fn typed_program(
    alloc: Global,
    unit: Unit,
    names: &Names,
    main: &str,
    stack: StackSize,
) -> Result<Program, Stop>
    requires { (n : ℕ) × (slice_get names.now n ≡ Some main.now) }
    ensures ok { IfOk result (λ p. IsProgramOf stack main.now names.now (unit_of unit) (program_of p)) }
    ensures stops { IfErr result (IsTold (BreaksConstraint stack main.now names.now (unit_of unit))) }
    ensures small { stack ≤ 16777216 }
{
    let Some(file) = names.find(main.as_bytes()) else {
        unreachable!()
    };
    let bytes = stack.get();
    match check(alloc, unit, names, Pos { file, line: 1 }, bytes) {
        Ok(program) => Ok(program),
        Err(fault) => Err(Stop::Told(fault)),
    }
}
