//! The replacement of the macros in a list of tokens.
ghost use Rattle.std.specs.Prelude.{◌≡◌, [], ◌∷◌, drop, length, IfOk, IfErr, OnOk};
ghost use Rattle.srcset.specs.NameTable.{Texts, KeepsNumbers};
ghost use Rattle.srcset.specs.declared.refusal.Refusal.TheVariants.{Memory};
ghost use Rattle.macros.specs.Macro.{Macros};
ghost use Rattle.macros.specs.Table.{IsTable};
ghost use Rattle.pp_expand.specs.Expansion.{expanded};
ghost use Rattle.pp_expand.specs.Expands.{HaveFiles, IsExpansion, IsExpansionBehind, IsToldExpansion, ending_of, put_behind};

use crate::budget::Budget;
use crate::run_end::RunEnd;
use crate::streaming::Expander;
use crate::unexpanded::Unexpanded;
use macros::MacroTable;
use phases::PpToken;
use srcset::{Fault, Names, Refusal};
use std::alloc::Global;

// Appends a token to those given, if they are fewer than `most`.
#[tactic(auto, using(crate::proofs::Handing::one_kept, crate::proofs::Handing::one_dropped))]
fn show_one<'a>(
    token: PpToken<'a>,
    most: usize,
    given: &mut Vec<PpToken<'a>>,
) -> Result<(), Refusal>
    ensures ok { OnOk result (given.new.items ≡ put_behind most given.old.items (token.entry ∷ [])) }
    ensures err { IfErr result (λ refusal. refusal ≡ Memory) }
{
    if given.len() < most {
        given.push(token)?;
    }
    Ok(())
}

/// Appends the expansion of a list, as `expand` gives it, to the tokens given, as long as they are fewer than `most`: later
/// tokens are expanded and not kept. A refusal names no file, and after one the appended tokens are unspecified.
pub fn expand_behind<'a>(
    alloc: Global,
    table: &MacroTable<'a>,
    list: Unexpanded<'a>,
    end: RunEnd,
    budget: &mut Budget,
    names: &Names,
    most: usize,
    given: &mut Vec<PpToken<'a>>,
) -> Result<(), Refusal>
    requires { HaveFiles names.now list }
    ensures expansion { (macros : Macros) (texts : Texts) → IsTable names.now table.now macros → KeepsNumbers names.now texts → IsExpansionBehind result most given.old.items given.new.items budget.old budget.new (expanded (record { macros = macros; texts = texts }) list.entry (ending_of end) budget.old) }
    ensures files { (macros : Macros) → IsTable names.now table.now macros → OnOk result (HaveFiles names.now (drop (length given.old.items) given.new.items)) }
{
    let before = budget.left();
    let mut expander = Expander::of(alloc, list, end);
    loop {
        match expander.try_next(alloc, table, budget, names) {
            Ok(next) => {
                let Some(token) = next else {
                    return Ok(());
                };
                if let Err(refusal) = show_one(token, most, given) {
                    *budget = Budget::new(before);
                    return Err(refusal);
                }
            }
            Err(refusal) => {
                *budget = Budget::new(before);
                return Err(refusal);
            }
        }
    }
}

/// The expansion of a list, as `expand` gives it; a refusal names no file, and takes no memory.
pub fn try_expand<'a>(
    alloc: Global,
    table: &MacroTable<'a>,
    list: &[PpToken<'a>],
    end: RunEnd,
    budget: &mut Budget,
    names: &Names,
) -> Result<Vec<PpToken<'a>>, Refusal>
    requires { HaveFiles names.now list.now }
    ensures expansion { (macros : Macros) (texts : Texts) → IsTable names.now table.now macros → KeepsNumbers names.now texts → IsExpansion result budget.old budget.new (expanded (record { macros = macros; texts = texts }) list.now (ending_of end) budget.old) }
    ensures files { (macros : Macros) → IsTable names.now table.now macros → IfOk result (λ v. HaveFiles names.now v.items) }
{
    let list = Unexpanded::copy_of(alloc, list)?;
    let mut given = Vec::new(alloc);
    let most = usize::MAX;
    match expand_behind(alloc, table, list, end, budget, names, most, &mut given) {
        Ok(()) => {
            let is_whole = given.len() < most;
            prove!(is_whole);
            Ok(given)
        }
        Err(refusal) => Err(refusal),
    }
}

/// The expansion of a list of tokens: each macro that it names is replaced, and the result is scanned again with
/// the rest of the list (ISO/IEC 9899:2011 6.10.3.4). No name is replaced in the result of its own replacement, by the
/// hide sets of X3J11/86-196. `names` has the names of the macros and of the files.
///
/// Each replacement takes one of `budget`, which stays as it was where the list is refused.
///
/// Fails at the first of these, in the order in which the list is scanned, at the name that is replaced: 211 where the
/// arguments are not closed; 705 where they are more than 127; 212 where they are not as many as the parameters, or 214
/// where they are for the named ones alone; 213 where a function-like name ends a run; 706 where no replacement is left;
/// 207 where `#` makes no string literal; the fault of an argument; 206 where `##` makes no token. Fails with 801
/// where memory runs out.
pub fn expand<'a>(
    alloc: Global,
    table: &MacroTable<'a>,
    list: &[PpToken<'a>],
    end: RunEnd,
    budget: &mut Budget,
    names: &Names,
) -> Result<Vec<PpToken<'a>>, Fault>
    requires { HaveFiles names.now list.now }
    ensures expansion { (macros : Macros) (texts : Texts) → IsTable names.now table.now macros → KeepsNumbers names.now texts → IsToldExpansion names.now result budget.old budget.new (expanded (record { macros = macros; texts = texts }) list.now (ending_of end) budget.old) }
    ensures files { (macros : Macros) → IsTable names.now table.now macros → IfOk result (λ v. HaveFiles names.now v.items) }
{
    match try_expand(alloc, table, list, end, budget, names) {
        Ok(tokens) => Ok(tokens),
        Err(refusal) => Err(refusal.to_fault(alloc, names)),
    }
}
