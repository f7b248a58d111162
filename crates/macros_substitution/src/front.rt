//! Puts the tokens of a replacement in front of the tokens after its name.
ghost use Rattle.std.specs.Prelude.{◌≡◌, ℕ, ◌≤◌, ◌++◌, length, Bool, OnOk, IfErr};
ghost use Rattle.srcset.specs.NameTable.{Texts, NumbersOnce};
ghost use Rattle.srcset.specs.declared.refusal.Refusal.TheVariants.{Memory};
ghost use Rattle.macros_substitution.specs.HideSets.{Sets, members, spelled, Extends, NamesBelow};
ghost use Rattle.macros_substitution.specs.Meaning.{hidden_all, AreIn};
ghost use Rattle.macros_substitution.specs.Substitution.{marked, hiding};
ghost use Rattle.macros_substitution.specs.inside.Steps.{mark_if};

use crate::hide_sets::{HideSet, HideSets};
use crate::piece::HiddenToken;
use phases::PpToken;
use srcset::Refusal;
use std::collections::VecDeque;

// The token, with this mark where it is the first.
fn marked_first<'a>(token: PpToken<'a>, is_first: bool, space_before: bool) -> PpToken<'a>
    ensures { result ≡ mark_if is_first space_before token.entry }
{
    if is_first {
        token.with_space(space_before)
    } else {
        token
    }
}

/// Puts the tokens of a replacement in front of the rest. Its first token gets the mark of the replaced name, and all of
/// them hide these names too (ISO/IEC 9899:2011 6.10.3.4). After a refusal, which is only when out of memory, some of
/// the tokens may be in the rest.
pub fn put_in_front<'a>(
    new: Vec<HiddenToken<'a>>,
    space_before: bool,
    hides: HideSet,
    sets: &mut HideSets,
    rest: &mut VecDeque<HiddenToken<'a>>,
) -> Result<(), Refusal>
    requires tokens { AreIn (length sets.old) new.items }
    requires known { hides ≤ length sets.old }
    requires behind { AreIn (length sets.old) rest.old.items }
    ensures ok { OnOk result ((texts : Texts) (later : Sets) → NumbersOnce texts → NamesBelow (length texts) sets.old → Extends sets.new later → hidden_all texts later rest.new.items
        ≡ marked space_before (hiding (spelled texts (members later hides)) (hidden_all texts later new.entry.items)) ++ hidden_all texts later rest.old.items) }
    ensures known { OnOk result (AreIn (length sets.new) rest.new.items) }
    ensures keeps { Extends sets.old sets.new }
    ensures names { (count : ℕ) → NamesBelow count sets.old → NamesBelow count sets.new }
    ensures err { IfErr result (λ refusal. refusal ≡ Memory) }
{
    let mut new = new;
    rest.reserve(new.len())?;
    let mut last_set = (HideSet::empty(), hides);
    while let Some(last) = new.pop() {
        let HiddenToken { token, hides: own } = last;
        let made = sets.united_or_last(hides, own, last_set)?;
        last_set = (own, made);
        let token = marked_first(token, new.is_empty(), space_before);
        rest.push_front(HiddenToken { token, hides: made })?;
    }
    Ok(())
}
