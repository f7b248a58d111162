//! Phase 4 of a set of files.
ghost use Rattle.std.specs.Prelude.{IfOk, IfErr};
ghost use Rattle.srcset.specs.NameTable.{Texts, KeepsNumbers};
ghost use Rattle.pp.specs.Preprocessed.{IsDone, IsRefused, IsPreprocessFault};

use crate::stream::Pp;
use phases::PpToken;
use srcset::{Fault, FileSet, Names, Refusal};
use std::alloc::Global;

/// The tokens after translation phase 4 of the file `main` of the set (ISO/IEC 9899:2011 5.1.1.2, 6.10), each with its
/// file and its line, counted from 1. New names get numbers in `names`, whether it succeeds or not.
///
/// Refused with the fault in which phase 4 ends: 103 at line 0 where the set has no file of that name; the fault
/// of a file's phases 1 to 3, as it is entered; those of the directives and of the replacement of macros; 707 where a 33rd
/// file would be open in addition to the main one; 708 at the first token past 1,048,576. `Memory` where memory runs out.
pub fn try_preprocess<'a>(
    alloc: Global,
    set: &'a FileSet,
    names: &mut Names,
    main: &str,
) -> Result<Vec<PpToken<'a>>, Refusal>
    ensures ok { IfOk result (λ list. (texts : Texts) → KeepsNumbers names.new texts → IsDone set.now texts main.now list.items) }
    ensures err { IfErr result (λ refusal. (texts : Texts) → KeepsNumbers names.new texts → IsRefused set.now texts main.now refusal) }
    ensures keeps { KeepsNumbers names.old names.new }
{
    let mut pp = Pp::try_new(alloc, set, names, main)?;
    let mut list = Vec::new(alloc);
    'tokens: while let Some(token) = pp.try_next(alloc, names)? {
        list.push(token)?;
    }
    Ok(list)
}

/// The tokens after translation phase 4 of the file `main` of the set, as `try_preprocess` gives them.
///
/// A refusal is the fault under the name that its place has; 801 where memory runs out.
pub fn preprocess<'a>(
    alloc: Global,
    set: &'a FileSet,
    names: &mut Names,
    main: &str,
) -> Result<Vec<PpToken<'a>>, Fault>
    ensures ok { IfOk result (λ list. (texts : Texts) → KeepsNumbers names.new texts → IsDone set.now texts main.now list.items) }
    ensures err { IfErr result (λ fault. IsPreprocessFault fault set.now names.new main.now) }
    ensures keeps { KeepsNumbers names.old names.new }
{
    match try_preprocess(alloc, set, names, main) {
        Ok(list) => Ok(list),
        Err(refusal) => Err(refusal.to_fault(alloc, names)),
    }
}
