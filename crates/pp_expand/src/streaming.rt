//! The expansion of a list, one token after the other.
ghost use Rattle.std.specs.Prelude.{◌≡◌, ◌+◌, ◌<◌, [], ◌++◌, map, length, Option, Some, None, Result, Err, option_map, IfOk, IfErr, IfSome, OnOk};
ghost use Rattle.srcset.specs.NameTable.{Texts, KeepsNumbers};
ghost use Rattle.srcset.specs.declared.refusal.Refusal.{Refusal};
ghost use Rattle.srcset.specs.declared.refusal.Refusal.TheVariants.{Memory};
ghost use Rattle.phases.specs.Token.{Token};
ghost use Rattle.macros.specs.Macro.{Macros};
ghost use Rattle.macros.specs.Table.{IsTable};
ghost use Rattle.macros_substitution.specs.HideSets.{Sets, Extends, NamesBelow};
ghost use Rattle.macros_substitution.specs.Meaning.{hidden_all, AreIn};
ghost use Rattle.pp_expand.specs.Expansion.{unhidden};
ghost use Rattle.pp_expand.specs.Expands.{HaveFiles, ending_of};
ghost use Rattle.pp_expand.specs.Pulled.{pulled};
ghost use Rattle.pp_expand.specs.Streams.{list_left, Knows, size_left, refusal_of, IsPulled, IsTold};
ghost use Rattle.pp_expand.specs.inside.Pulls.{PullsAs, FallsTo};

use crate::budget::Budget;
use crate::pulling::pull;
use crate::run_end::RunEnd;
use crate::unexpanded::Unexpanded;
use macros::MacroTable;
use macros_substitution::{HiddenToken, HideSet, HideSets};
use phases::PpToken;
use srcset::{Fault, Names, Refusal};
use std::alloc::Global;
use std::collections::VecDeque;
use std::marker::Model;
use std::mem;

/// The expansion of a list of tokens (ISO/IEC 9899:2011 6.10.3.4), of which each call of `next` gives one token. Nothing is
/// expanded before it is requested. It holds the list left with its hide sets; nothing is borrowed from the table of macros,
/// which may gain and lose macros between two calls.
#[derive(Drop)]
pub struct Expander<'a> {
    // Tokens that have not been scanned yet. They follow the others, and hide nothing.
    fresh: Vec<PpToken<'a>>,
    list: VecDeque<HiddenToken<'a>>,
    sets: HideSets,
    end: RunEnd,
    // How the list was refused, once it was. Then no token is left.
    refused: Option<Refusal>,
}

impl<'a> Model for Expander<'a> {
    ghost use Rattle.std.specs.Prelude.{length};
    ghost use Rattle.macros_substitution.specs.Meaning.{AreIn};
    ghost use Rattle.pp_expand.specs.Streams.{Stream};

    ghost Value = { Stream };

    ghost view = { λ e. record { list = e.list.items; fresh = e.fresh.items; sets = e.sets; end = e.end; refused = e.refused } };

    ghost invariant = { λ e. AreIn (length e.sets) e.list.items };
}

// Appends the tokens that have not been scanned yet to the others.
fn take_fresh<'a>(
    alloc: Global,
    fresh: &mut Vec<PpToken<'a>>,
    list: &mut VecDeque<HiddenToken<'a>>,
) -> Result<(), Refusal>
    ensures ok { OnOk result ((fresh.new.items ≡ []) × (list.new.items ≡ list.old.items ++ map (λ x. record { token = x; hides = 0 }) fresh.old.items)) }
    ensures err { IfErr result (λ refusal. refusal ≡ Memory) }
{
    if fresh.is_empty() {
        return Ok(());
    }
    for token in mem::replace(fresh, Vec::new(alloc)) {
        list.push_back(HiddenToken {
            token,
            hides: HideSet::empty(),
        })?;
    }
    Ok(())
}

// The first token, as `pull` gives it, of a list and the tokens after it that have not been scanned yet.
#[inline(always)]
fn pull_all<'a>(
    alloc: Global,
    table: &MacroTable<'a>,
    names: &Names,
    sets: &mut HideSets,
    fresh: &mut Vec<PpToken<'a>>,
    list: &mut VecDeque<HiddenToken<'a>>,
    end: RunEnd,
    left: &mut u32,
) -> Result<Option<HiddenToken<'a>>, Refusal>
    requires { AreIn (length sets.old) list.old.items }
    ensures pulls { (macros : Macros) (later : Sets) → IsTable names.now table.now macros → NamesBelow (length names.now) sets.old → Extends sets.new later → PullsAs names.now later result list.new.items left.new (pulled (record { macros = macros; texts = names.now }) (hidden_all names.now later list.old.items ++ unhidden fresh.old.items) (ending_of end) left.old) }
    ensures fresh { OnOk result (fresh.new.items ≡ []) }
    ensures known { OnOk result (AreIn (length sets.new) list.new.items) }
    ensures keeps { Extends sets.old sets.new }
    ensures names { NamesBelow (length names.now) sets.old → NamesBelow (length names.now) sets.new }
    ensures falls { IfOk result (λ given. IfSome given (λ x. FallsTo left.old (length list.old.items + length fresh.old.items) left.new (length list.new.items))) }
{
    if let Err(refusal) = take_fresh(alloc, fresh, list) {
        return Err(refusal);
    }
    pull(alloc, table, names, sets, list, end, left)
}

// The token without its hide set.
#[inline(always)]
fn shown<'a>(found: Option<HiddenToken<'a>>) -> Option<PpToken<'a>>
    ensures { result ≡ option_map (λ x. x.token) found.entry }
{
    match found {
        Some(x) => Some(x.token),
        None => None,
    }
}

impl<'a> Expander<'a> {
    /// The expansion of a list that ends there. Takes no memory yet.
    pub fn new(alloc: Global, list: Vec<PpToken<'a>>, end: RunEnd) -> Expander<'a>
        ensures left { (texts : Texts) → list_left texts result ≡ unhidden list.entry.items }
        ensures known { (names : Texts) → HaveFiles names list.entry.items → Knows names result }
        ensures end { result.end ≡ end }
        ensures refused { result.refused ≡ None }
    {
        Expander {
            fresh: list,
            list: VecDeque::new(alloc),
            sets: HideSets::new(alloc),
            end,
            refused: None,
        }
    }

    /// The same of tokens that were gathered for it, which are moved. Takes no memory yet.
    pub fn of(alloc: Global, list: Unexpanded<'a>, end: RunEnd) -> Expander<'a>
        ensures left { (texts : Texts) → list_left texts result ≡ unhidden list.entry }
        ensures known { (names : Texts) → HaveFiles names list.entry → Knows names result }
        ensures end { result.end ≡ end }
        ensures refused { result.refused ≡ None }
    {
        Expander {
            fresh: Vec::new(alloc),
            list: list.into_hidden(),
            sets: HideSets::new(alloc),
            end,
            refused: None,
        }
    }

    /// The next token, as `next` gives it; a refusal names no file, and takes no memory.
    #[inline(always)]
    pub fn try_next(
        &mut self,
        alloc: Global,
        table: &MacroTable<'a>,
        budget: &mut Budget,
        names: &Names,
    ) -> Result<Option<PpToken<'a>>, Refusal>
        ensures pulls { (macros : Macros) (texts : Texts) → IsTable names.now table.now macros → KeepsNumbers names.now texts → Knows names.now self.old → self.old.refused ≡ None → IsPulled result (list_left texts self.new) budget.old budget.new (pulled (record { macros = macros; texts = texts }) (list_left texts self.old) (ending_of self.old.end) budget.old) }
        ensures again { (refusal : Refusal) → self.old.refused ≡ Some refusal → (result ≡ Err refusal) × (budget.new ≡ budget.old) }
        ensures refused { self.new.refused ≡ refusal_of result }
        ensures end { self.new.end ≡ self.old.end }
        ensures known { (macros : Macros) → IsTable names.now table.now macros → Knows names.now self.old → Knows names.now self.new }
        ensures files { (macros : Macros) → IsTable names.now table.now macros → Knows names.now self.old → IfOk result (λ given. IfSome given (λ x. x.pos.file < length names.now)) }
        ensures falls { IfOk result (λ given. IfSome given (λ x. size_left self.new budget.new < size_left self.old budget.old)) }
    {
        if let Some(refusal) = self.refused {
            return Err(refusal);
        }
        let mut left = budget.left();
        let given = pull_all(
            alloc,
            table,
            names,
            &mut self.sets,
            &mut self.fresh,
            &mut self.list,
            self.end,
            &mut left,
        );
        match given {
            Ok(found) => {
                *budget = Budget::new(left);
                Ok(shown(found))
            }
            Err(refusal) => {
                self.fresh = Vec::new(alloc);
                self.list = VecDeque::new(alloc);
                self.refused = Some(refusal);
                Err(refusal)
            }
        }
    }

    /// The next token of the expansion, none where it ends and from then on. `names` has the names of the macros and of the
    /// files, and may gain texts between two calls. The replacements made until the first token is final, and no others,
    /// are taken from `budget`.
    ///
    /// Fails as `expand` does, once each token that precedes the fault is given, and with 801 where memory runs out. Then the
    /// budget is as it was, and each further call fails in the same way.
    pub fn next(
        &mut self,
        alloc: Global,
        table: &MacroTable<'a>,
        budget: &mut Budget,
        names: &Names,
    ) -> Result<Option<PpToken<'a>>, Fault>
        ensures pulls { (macros : Macros) (texts : Texts) → IsTable names.now table.now macros → KeepsNumbers names.now texts → Knows names.now self.old → self.old.refused ≡ None → (answer : Result (Option Token) Refusal) × IsTold names.now result answer × IsPulled answer (list_left texts self.new) budget.old budget.new (pulled (record { macros = macros; texts = texts }) (list_left texts self.old) (ending_of self.old.end) budget.old) }
        ensures again { (refusal : Refusal) → self.old.refused ≡ Some refusal → (self.new.refused ≡ Some refusal) × (budget.new ≡ budget.old) }
        ensures refused { (answer : Result (Option Token) Refusal) × IsTold names.now result answer × (self.new.refused ≡ refusal_of answer) }
        ensures end { self.new.end ≡ self.old.end }
        ensures known { (macros : Macros) → IsTable names.now table.now macros → Knows names.now self.old → Knows names.now self.new }
        ensures files { (macros : Macros) → IsTable names.now table.now macros → Knows names.now self.old → IfOk result (λ given. IfSome given (λ x. x.pos.file < length names.now)) }
        ensures falls { IfOk result (λ given. IfSome given (λ x. size_left self.new budget.new < size_left self.old budget.old)) }
    {
        match self.try_next(alloc, table, budget, names) {
            Ok(given) => Ok(given),
            Err(refusal) => Err(refusal.to_fault(alloc, names)),
        }
    }
}
