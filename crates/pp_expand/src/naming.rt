//! Which macro a token names.
ghost use Rattle.std.specs.Prelude.{◌≡◌, ℕ, ◌≤◌, ◌&&◌, Bool, length};
ghost use Rattle.std.specs.List.{list_any};
ghost use Rattle.srcset.specs.NameTable.{Texts, NumbersOnce};
ghost use Rattle.macros.specs.Macro.{Macros};
ghost use Rattle.macros.specs.Table.{IsTable};
ghost use Rattle.macros_substitution.specs.HideSets.{Sets, Extends, NamesBelow, members};
ghost use Rattle.macros_substitution.specs.Meaning.{hidden_of};
ghost use Rattle.pp_expand.specs.inside.Turns.{IsNamed, IsNamedBelow, IsNamedOnce, has_number};

use crate::task::Named;
use macros::{MacroTable, is_identifier, is_predefined};
use macros_substitution::{HiddenToken, HideSet, HideSets};
use srcset::Names;

// Whether a set has the name with this number.
#[inline(always)]
fn has_name(sets: &HideSets, set: HideSet, number: Option<usize>) -> bool
    requires { set ≤ length sets.now }
    ensures { result ≡ has_number (members sets.now set) number }
{
    match number {
        Some(n) => sets.contains(set, n),
        None => false,
    }
}

/// The macro that a token names, unless the token hides it (ISO/IEC 9899:2011 6.10.3.4p2).
#[inline(always)]
pub(crate) fn named<'a, 't>(
    table: &'t MacroTable<'a>,
    names: &Names,
    sets: &HideSets,
    x: &HiddenToken<'a>,
) -> Named<'a, 't>
    requires { x.now.hides ≤ length sets.now }
    ensures named { (macros : Macros) (later : Sets) → IsTable names.now table.now macros → NamesBelow (length names.now) sets.now → Extends sets.now later → IsNamed (record { macros = macros; texts = names.now }) (hidden_of names.now later x.now) result }
    ensures below { IsNamedBelow (length names.now) result }
    ensures once { IsNamedOnce names.now result }
{
    if !is_identifier(&x.token) {
        return Named::Nothing;
    }
    let number = names.find(x.token.spelling());
    if has_name(sets, x.hides, number) {
        return Named::Nothing;
    }
    if is_predefined(x.token.spelling()) {
        return Named::OfCompiler;
    }
    let Some(n) = number else {
        return Named::Nothing;
    };
    match table.get(n) {
        Some(definition) => Named::Defined(n, definition),
        None => Named::Nothing,
    }
}
