//! Hide sets, interned in a table of nodes.
ghost use Rattle.std.specs.Prelude.{◌≡◌, ℕ, ◌≤◌, ◌<◌, [], ◌∷◌, ◌++◌, length, nat_eq, IfOk, IfErr, MatchOption};
ghost use Rattle.std.specs.List.{list_any, filter};
ghost use Rattle.srcset.specs.declared.refusal.Refusal.TheVariants.{Memory};
ghost use Rattle.macros_substitution.specs.HideSets.{members, is_new, united, Extends, AreBelow, NamesBelow};
ghost use Rattle.macros_substitution.specs.inside.Nodes.{FirstIs};
ghost use Rattle.macros_substitution.specs.inside.Firsts.{IsAbsent};
ghost use Rattle.macros_substitution.specs.inside.Both.{IsBoth, Holds};

use crate::firsts::Firsts;
use indexmap::IndexSet;
use srcset::Refusal;
use std::alloc::Global;
use std::marker::Model;

/// The names that may not replace a token again (ISO/IEC 9899:2011 6.10.3.4p2): the number of a set in its table, 0 for the
/// empty set.
#[derive(Clone, Copy, Debug, PartialEq, Eq, Hash)]
pub struct HideSet {
    number: usize,
}

impl Model for HideSet {
    ghost Value = { ℕ };

    ghost view = { λ set. set.number };

    ghost inverse = { λ n. record { number = n } };
}

impl HideSet {
    /// The set without a name.
    pub fn empty() -> HideSet
        ensures { result ≡ 0 }
    {
        HideSet { number: 0 }
    }

    /// Whether it is the set without a name.
    pub fn is_empty(self) -> bool
        ensures { result ≡ nat_eq self 0 }
    {
        self.number == 0
    }
}

/// A set that is a name before another set.
#[derive(Clone, Copy, PartialEq, Eq, Hash)]
struct Node {
    parent: usize,
    name: usize,
}

/// A table of hide sets: equal lists of names have one number, and a list shares memory with the list after its first name.
///
/// A set is a list of names, in the order in which they were put in, each as the number of its text.
#[derive(Drop)]
pub struct HideSets {
    alloc: Global,
    nodes: IndexSet<Node>,
    firsts: Firsts,
    // For a set the first one that was found to be a subset of it.
    wholes: Firsts,
}

// How many names of a set are compared before the least number of the name's nodes is looked up.
const NEAR_NAMES: usize = 4;

impl Model for HideSets {
    ghost use Rattle.macros_substitution.specs.HideSets.{Sets};
    ghost use Rattle.macros_substitution.specs.inside.Nodes.{sets_of};
    ghost use Rattle.macros_substitution.specs.inside.Wholes.{Sound};

    ghost Value = { Sets };

    ghost view = { λ s. sets_of s.nodes.keys };

    ghost invariant = { λ s. Sound s.nodes.keys s.firsts s.wholes };
}

impl HideSets {
    /// The table that has the empty set alone. It keeps `alloc`, and allocates nothing yet.
    pub fn new(alloc: Global) -> HideSets
        ensures { result ≡ [] }
    {
        HideSets {
            alloc,
            nodes: IndexSet::new(alloc),
            firsts: Firsts::new(alloc),
            wholes: Firsts::new(alloc),
        }
    }

    // The first name of a set, and the set of the others.
    fn first(&self, set: HideSet) -> Option<(usize, HideSet)>
        ensures { FirstIs self.now set result }
    {
        if set.number == 0 {
            return None;
        }
        let Some(node) = self.nodes.get_index(set.number - 1) else {
            return None;
        };
        let behind = HideSet {
            number: node.parent,
        };
        Some((node.name, behind))
    }

    // Up to which number no set has the name, or that none has it.
    fn absent(&self, name: usize) -> Option<usize>
        ensures { IsAbsent self.now name result }
    {
        self.firsts.get(name)
    }

    /// Whether a name is in a set.
    pub fn contains(&self, set: HideSet, name: usize) -> bool
        ensures { result ≡ list_any (nat_eq name) (members self.now set) }
    {
        let mut left = set;
        for _ in 0..NEAR_NAMES {
            let Some((first, behind)) = self.first(left) else {
                return false;
            };
            if first == name {
                return true;
            }
            left = behind;
        }
        self.contains_far(left, name)
    }

    // The same where the set may have many names, few of which come after the first node of this name.
    fn contains_far(&self, set: HideSet, name: usize) -> bool
        ensures { result ≡ list_any (nat_eq name) (members self.now set) }
    {
        let Some(absent) = self.absent(name) else {
            return false;
        };
        let mut left = set;
        while left.number > absent {
            let Some((first, behind)) = self.first(left) else {
                return false;
            };
            if first == name {
                return true;
            }
            left = behind;
        }
        false
    }

    // A set that is known to be a subset of this one.
    fn whole(&self, set: HideSet) -> HideSet
        ensures { Holds self.now result set }
    {
        match self.wholes.get(set.number) {
            Some(number) => HideSet { number },
            None => HideSet::empty(),
        }
    }

    // Notes that the second set has all names of the first, if nothing was noted of it.
    fn note_whole(&mut self, whole: HideSet, set: HideSet) -> Result<(), Refusal>
        requires whole { whole ≤ length self.old }
        requires set { set ≤ length self.old }
        requires holds { Holds self.old whole set }
        ensures same { self.new ≡ self.old }
        ensures err { IfErr result (λ refusal. refusal ≡ Memory) }
    {
        self.wholes.note(set.number, whole.number)
    }

    // A set whose names the other has all, and at which a walk along the first one's names arrives: one of which that is known, or
    // the one in which the nodes of both end. Numbers fall towards it.
    fn meeting(&self, set: HideSet, other: HideSet) -> HideSet
        ensures { Holds self.now result other }
    {
        let whole = self.whole(other);
        let mut left = set;
        let mut right = other;
        while left.number != right.number {
            if left.number == whole.number {
                return whole;
            }
            if left.number > right.number {
                let Some((_, behind)) = self.first(left) else {
                    return HideSet::empty();
                };
                left = behind;
            } else {
                let Some((_, behind)) = self.first(right) else {
                    return HideSet::empty();
                };
                right = behind;
            }
        }
        right
    }

    // The names of the first set that the second lacks, which has those of the third.
    fn lacking(&self, set: HideSet, other: HideSet, meeting: HideSet) -> Result<Vec<usize>, Refusal>
        requires { Holds self.now meeting other }
        ensures ok { IfOk result (λ names. names.items ≡ filter (is_new (members self.now other)) (members self.now set)) }
        ensures err { IfErr result (λ refusal. refusal ≡ Memory) }
    {
        let mut names = Vec::new(self.alloc);
        let mut left = set;
        while left.number != meeting.number {
            let Some((first, behind)) = self.first(left) else {
                return Ok(names);
            };
            if !self.contains(other, first) {
                names.push(first)?;
            }
            left = behind;
        }
        Ok(names)
    }

    // The names of the first set that the second has too, up to a set that it has whole, since it has the third.
    fn shared(
        &self,
        set: HideSet,
        other: HideSet,
        meeting: HideSet,
    ) -> Result<(Vec<usize>, HideSet), Refusal>
        requires known { set ≤ length self.now }
        requires holds { Holds self.now meeting other }
        ensures ok { IfOk result (λ found. (found.1 ≤ length self.now)
            × (found.0.items ++ members self.now found.1 ≡ filter (λ n. list_any (nat_eq n) (members self.now other)) (members self.now set))) }
        ensures err { IfErr result (λ refusal. refusal ≡ Memory) }
    {
        let mut names = Vec::new(self.alloc);
        let mut left = set;
        while left.number != meeting.number {
            let Some((first, behind)) = self.first(left) else {
                return Ok((names, left));
            };
            if self.contains(other, first) {
                names.push(first)?;
            }
            left = behind;
        }
        Ok((names, left))
    }

    // The set with these names before the others.
    fn with_names(&mut self, names: Vec<usize>, behind: HideSet) -> Result<HideSet, Refusal>
        requires { behind ≤ length self.old }
        ensures ok { IfOk result (λ made. (made ≤ length self.new) × (members self.new made ≡ names.items ++ members self.old behind)) }
        ensures keeps { Extends self.old self.new }
        ensures names { (count : ℕ) → AreBelow count names.items → NamesBelow count self.old → NamesBelow count self.new }
        ensures err { IfErr result (λ refusal. refusal ≡ Memory) }
    {
        let mut names = names;
        let mut made = behind;
        while let Some(name) = names.pop() {
            made = self.with(made, name)?;
        }
        Ok(made)
    }

    /// The set with this name before the others.
    pub fn with(&mut self, set: HideSet, name: usize) -> Result<HideSet, Refusal>
        requires { set ≤ length self.old }
        ensures ok { IfOk result (λ made. (made ≤ length self.new) × (members self.new made ≡ name ∷ members self.old set)) }
        ensures keeps { Extends self.old self.new }
        ensures names { (count : ℕ) → name < count → NamesBelow count self.old → NamesBelow count self.new }
        ensures err { IfErr result (λ refusal. refusal ≡ Memory) }
    {
        if let Err(refusal) = self.firsts.note(name, self.nodes.len()) {
            return Err(refusal);
        }
        let node = Node {
            parent: set.number,
            name,
        };
        let Ok((index, _)) = self.nodes.insert_full(node) else {
            return Err(Refusal::Memory);
        };
        // Numbers of nodes are less than their count, which is a number too.
        let _count = self.nodes.len();
        Ok(HideSet { number: index + 1 })
    }

    /// The names of the first set that the second has too, in the order of the first.
    pub fn common(&mut self, set: HideSet, other: HideSet) -> Result<HideSet, Refusal>
        requires { set ≤ length self.old }
        ensures ok { IfOk result (λ made. (made ≤ length self.new)
            × (members self.new made ≡ filter (λ n. list_any (nat_eq n) (members self.old other)) (members self.old set))) }
        ensures keeps { Extends self.old self.new }
        ensures names { (count : ℕ) → NamesBelow count self.old → NamesBelow count self.new }
        ensures err { IfErr result (λ refusal. refusal ≡ Memory) }
    {
        if set.number == other.number {
            return Ok(set);
        }
        if other.number == 0 {
            return Ok(HideSet::empty());
        }
        let meeting = self.meeting(set, other);
        let found = self.shared(set, other, meeting)?;
        let (names, behind) = found;
        self.with_names(names, behind)
    }

    /// The names of either: those of the first set that the second has not, before those of the second.
    pub fn united(&mut self, set: HideSet, behind: HideSet) -> Result<HideSet, Refusal>
        requires first { set ≤ length self.old }
        requires second { behind ≤ length self.old }
        ensures ok { IfOk result (λ made. (made ≤ length self.new)
            × (members self.new made ≡ united (members self.old set) (members self.old behind))) }
        ensures keeps { Extends self.old self.new }
        ensures names { (count : ℕ) → NamesBelow count self.old → NamesBelow count self.new }
        ensures err { IfErr result (λ refusal. refusal ≡ Memory) }
    {
        if behind.number == 0 {
            return Ok(set);
        }
        let meeting = self.meeting(set, behind);
        let names = self.lacking(set, behind, meeting)?;
        let made = self.with_names(names, behind)?;
        self.note_whole(set, made)?;
        Ok(made)
    }

    /// The same, where the result for one other set, `last.0`, was `last.1`: so that many tokens with one set cost as one.
    pub(crate) fn united_or_last(
        &mut self,
        set: HideSet,
        behind: HideSet,
        last: (HideSet, HideSet),
    ) -> Result<HideSet, Refusal>
        requires first { set ≤ length self.old }
        requires second { behind ≤ length self.old }
        requires last { IsBoth self.old set last }
        ensures ok { IfOk result (λ made. IsBoth self.new set (behind, made)) }
        ensures keeps { Extends self.old self.new }
        ensures names { (count : ℕ) → NamesBelow count self.old → NamesBelow count self.new }
        ensures err { IfErr result (λ refusal. refusal ≡ Memory) }
    {
        if behind.number == last.0.number {
            return Ok(last.1);
        }
        self.united(set, behind)
    }
}
