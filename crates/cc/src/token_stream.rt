//! The C tokens of a set of files, each preprocessing token read as it comes.

ghost use Rattle.std.specs.Prelude.{◌≡◌, ◌⊎◌, List, [], ◌∷◌, ◌++◌, IfOk, IfErr, OnOk};
ghost use Rattle.srcset.specs.NameTable.{Texts, KeepsNumbers, NumbersOnce};
ghost use Rattle.srcset.specs.Fault.{IsMemoryFault};
ghost use Rattle.phases.specs.Token.{Token};
ghost use Rattle.lexer.specs.Reading.{HasRead};
ghost use Rattle.pp.specs.Phase4.{Phase4};
ghost use Rattle.pp.specs.Stream.{IsRest, IsStream};
ghost use Rattle.cc.specs.Compiled.{HasTokens};
ghost use Rattle.cc.specs.Refused.{FailsPreprocessing, FailsTokens};
ghost use Rattle.cc.specs.inside.Stops.{IsTold};
ghost use Rattle.cc.specs.inside.Streams.{ReadsAll, EndsBy};

use crate::front::{number_name, numbers_once};
use crate::stopping::Stop;
use lexer::{Lexer, Token as CToken};
use phases::PpToken;
use pp::Pp;
use srcset::{FileSet, Names, Refusal};
use std::alloc::Global;

/// Reads a token; a refusal of the lexer is repeated at its end. Where the table has no further text it is the same; else no text
/// has two numbers.
fn read_one(lexer: &mut Lexer, token: &PpToken<'_>, names: &mut Names)
    ensures reads { (front : List Token) → HasRead names.old front lexer.old → HasRead names.new (front ++ token.now ∷ []) lexer.new }
    ensures keeps { KeepsNumbers names.old names.new }
    ensures table { (names.new ≡ names.old) ⊎ NumbersOnce names.new }
{
    let count = names.len();
    let _ = lexer.try_take(token, names);
    if names.len() != count {
        numbers_once(names);
    }
}

/// Reads the tokens of a stream to its end. A refusal of the lexer is repeated at its end; until then the stream goes on, since a fault of preprocessing is
/// reported before one of a token.
fn read_all(alloc: Global, mut stream: Pp<'_>, names: &mut Names) -> Result<Lexer, Refusal>
    requires { IsStream names.old stream }
    ensures reads { IfOk result (λ lexer. ReadsAll names.old names.new stream.entry lexer) }
    ensures err { IfErr result (λ refusal. EndsBy refusal names.old names.new stream.entry) }
    ensures keeps { KeepsNumbers names.old names.new }
{
    let mut lexer = Lexer::new(alloc);
    'tokens: while let Some(token) = stream.try_next(alloc, names)? {
        read_one(&mut lexer, &token, names);
    }
    Ok(lexer)
}

/// The C tokens of a set of files, from the one of this name on: translation phases 1 to 7, before the grammar
/// (ISO/IEC 9899:2011 5.1.1.2). No list of preprocessing tokens is kept.
pub fn c_tokens(
    alloc: Global,
    set: &FileSet,
    main: &str,
    names: &mut Names,
) -> Result<Vec<CToken>, Stop>
    requires new { names.old ≡ [] }
    ensures tokens { IfOk result (λ tokens. HasTokens set.now main.now names.new tokens.items) }
    ensures stops { IfErr result (IsTold (λ fault. FailsPreprocessing set.now main.now fault ⊎ FailsTokens set.now main.now fault ⊎ IsMemoryFault fault)) }
    ensures once { OnOk result (NumbersOnce names.new) }
{
    match number_name(main, names) {
        Ok(()) => {}
        Err(stop) => return Err(stop),
    }
    let stream = match Pp::new(alloc, set, names, main) {
        Ok(stream) => stream,
        Err(fault) => {
            numbers_once(names);
            return Err(Stop::Told(fault));
        }
    };
    let lexer = match read_all(alloc, stream, names) {
        Ok(lexer) => lexer,
        Err(refusal) => {
            numbers_once(names);
            return Err(Stop::Told(refusal.to_fault(alloc, names)));
        }
    };
    let made = lexer.end(names);
    numbers_once(names);
    match made {
        Ok(tokens) => Ok(tokens),
        Err(fault) => Err(Stop::Told(fault)),
    }
}
