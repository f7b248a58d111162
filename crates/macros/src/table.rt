//! The table of macros.
ghost use Rattle.std.specs.Prelude.{◌≡◌, ◌↔◌, [], true, is_some, IsTrue, length, option_map, IfOk, IfErr, OnOk, OnErr};
ghost use Rattle.std.specs.Option.{option_copied};
ghost use Rattle.srcset.specs.NameTable.{KeepsNumbers, file_name_of};
ghost use Rattle.srcset.specs.Fault.{IsFaultOrMemory, IsFaultOf};
ghost use Rattle.srcset.specs.declared.code.Code.TheVariants.{BadMacroDefinition, ReservedMacroName};
ghost use Rattle.srcset.specs.declared.refusal.Refusal.TheVariants.{At, Memory};
ghost use Rattle.macros.specs.Macro.{Macros, macro_named, is_reserved};
ghost use Rattle.macros.specs.Definition.{without};
ghost use Rattle.macros.specs.inside.Faults.{differs, fault, places_of};
ghost use Rattle.macros.specs.inside.Puts.{Puts};
ghost use Rattle.macros.specs.Table.{Defines, Undefines, define_code, IsDefineRefusal, IsUndefineRefusal, IsTable, IsFound, numbered, numbers_of, places, is_variadic, found_macro};

use crate::faults::{has_reserved, is_hash_lone, is_joint_amiss, is_variable_outside, same_macro};
use crate::reading::{behind, number_of, read_macro};
use crate::reserved::is_reserved;
use crate::tests_of_tokens::is_identifier;
use indexmap::IndexMap;
use phases::PpToken;
use srcset::{Code, Fault, Names, Pos, Refusal};
use std::alloc::Global;
use std::marker::Model;

/// A token of a replacement list.
#[derive(Drop)]
pub struct BodyToken<'a> {
    pub(crate) token: PpToken<'a>,
    pub(crate) parameter: Option<usize>,
}

impl<'a> Model for BodyToken<'a> {
    ghost use Rattle.macros.specs.Table.{BodyToken as Seen};

    ghost Value = { Seen };

    ghost view = { λ b. record { token = b.token; parameter = b.parameter } };
}

impl<'a> BodyToken<'a> {
    /// The token, as written in the definition.
    pub fn token(&self) -> &PpToken<'a>
        ensures { result.now ≡ self.now.token }
    {
        &self.token
    }

    /// The place among the macro's parameters, counted from 0, of the one that the token names.
    pub fn parameter(&self) -> Option<usize>
        ensures { result ≡ self.now.parameter }
    {
        self.parameter
    }
}

/// A macro: its parameters where it is function-like, and its replacement list (ISO/IEC 9899:2011 6.10.3p9, p10).
#[derive(Drop)]
pub struct Macro<'a> {
    pub(crate) parameters: Option<Vec<usize>>,
    // Whether an ellipsis ends them.
    pub(crate) variadic: bool,
    pub(crate) body: Vec<BodyToken<'a>>,
}

impl<'a> Model for Macro<'a> {
    ghost use Rattle.macros.specs.Table.{NumberedMacro};
    ghost use Rattle.macros.specs.inside.Views.{numbered_parameters};

    ghost Value = { NumberedMacro };

    ghost view = { λ m. record { parameters = numbered_parameters m.parameters m.variadic; body = m.body.items } };
}

impl<'a> Macro<'a> {
    /// How many parameters it has, 0 to 127, an ellipsis being one of them; or `None` where it is object-like.
    pub fn parameters(&self) -> Option<usize>
        ensures { result ≡ option_map places self.now.parameters }
    {
        match &self.parameters {
            Some(names) => {
                if self.variadic {
                    Some(names.len() + 1)
                } else {
                    Some(names.len())
                }
            }
            None => None,
        }
    }

    /// Whether an ellipsis ends its parameters, so that `__VA_ARGS__` is the last of them (6.10.3p12, 6.10.3.1p2).
    pub fn is_variadic(&self) -> bool
        ensures { result ≡ is_variadic self.now.parameters }
    {
        match &self.parameters {
            Some(_) => self.variadic,
            None => false,
        }
    }

    // How many parameters it has, none where it is object-like.
    fn places(&self) -> usize
        ensures { result ≡ places_of self.now.parameters }
    {
        match self.parameters() {
            Some(count) => count,
            None => 0,
        }
    }

    /// The numbers of its parameters' names, in order, without an ellipsis; none where it is object-like.
    pub fn names(&self) -> &[usize]
        ensures { result.now ≡ numbers_of self.now.parameters }
    {
        match &self.parameters {
            Some(names) => names.as_slice(),
            None => &[],
        }
    }

    /// The tokens of its replacement list.
    pub fn body(&self) -> &[BodyToken<'a>]
        ensures { result.now ≡ self.now.body }
    {
        self.body.as_slice()
    }
}

/// The macros that are defined, each under the number of its name.
#[derive(Drop)]
pub struct MacroTable<'a> {
    alloc: Global,
    macros: IndexMap<usize, Macro<'a>>,
}

impl<'a> Model for MacroTable<'a> {
    ghost use Rattle.macros.specs.Table.{Table};

    ghost Value = { Table };

    ghost view = { λ t. t.macros.entries };
}

/// How many macros there may be.
pub const MAX_MACROS: usize = 65_536;

/// How many parameters a macro may have.
pub const MAX_PARAMETERS: usize = 127;

// The tokens after `# define` are no definition.
fn bad_definition(at: Pos) -> Refusal
    ensures { result ≡ At BadMacroDefinition at }
{
    Refusal::At {
        code: Code::BadMacroDefinition,
        pos: at,
    }
}

impl<'a> MacroTable<'a> {
    /// The table with no macro. It keeps `alloc`, and takes no memory yet.
    pub fn new(alloc: Global) -> MacroTable<'a>
        ensures { result ≡ [] }
    {
        MacroTable {
            alloc,
            macros: IndexMap::new(alloc),
        }
    }

    /// How many macros there are, at most 65,536.
    pub fn len(&self) -> usize
        ensures { result ≡ length self.now }
    {
        self.macros.len()
    }

    /// Whether there are none.
    pub fn is_empty(&self) -> bool
        ensures { IsTrue result ↔ (self.now ≡ []) }
    {
        self.macros.is_empty()
    }

    /// The macro under the number of its name. Takes no memory, and constant time.
    pub fn get(&self, name: usize) -> Option<&Macro<'a>>
        ensures { option_copied result ≡ numbered self.now name }
    {
        self.macros.get(&name)
    }

    /// The number of a name, and the macro that is defined under it; `None` where none is. Takes no memory, and
    /// constant time, but for the bytes of the name.
    pub fn find(&self, names: &Names, spelling: &[u8]) -> Option<(usize, &Macro<'a>)>
        ensures { (macros : Macros) → IsTable names.now self.now macros → IsFound names.now spelling.now (found_macro result) (macro_named macros spelling.now) }
    {
        let Some(n) = names.find(spelling) else {
            return None;
        };
        let Some(found) = self.get(n) else {
            return None;
        };
        Some((n, found))
    }

    // Whether the number has another macro.
    fn differs(&self, n: usize, found: &Macro<'a>) -> bool
        ensures { result ≡ differs (numbered self.now n) found.now }
    {
        match self.get(n) {
            None => false,
            Some(old) => !same_macro(old, found),
        }
    }

    // Whether the number has a macro.
    fn has(&self, n: usize) -> bool
        ensures { result ≡ is_some (numbered self.now n) }
    {
        self.get(n).is_some()
    }

    // The fault of a macro under this number.
    fn fault_of(&self, n: usize, found: &Macro<'a>, names: &Names) -> Option<Code>
        ensures { result ≡ fault names.now self.now n found.now }
    {
        if has_reserved(n, found, names) {
            return Some(Code::ReservedMacroName);
        }
        if is_variable_outside(found) {
            return Some(Code::VariableArgumentsOutside);
        }
        if is_hash_lone(found) {
            return Some(Code::HashWithoutParameter);
        }
        if is_joint_amiss(found) {
            return Some(Code::PasteAtAnEnd);
        }
        if found.places() > MAX_PARAMETERS {
            return Some(Code::MacroParameterLimit);
        }
        if self.differs(n, found) {
            return Some(Code::MacroRedefined);
        }
        if !self.has(n) && self.len() >= MAX_MACROS {
            return Some(Code::MacroLimit);
        }
        None
    }

    // Enters a macro under its number, where there is none.
    fn put(&mut self, n: usize, found: Macro<'a>) -> Result<(), Refusal>
        ensures ok { OnOk result (Puts self.old n found.entry self.new) }
        ensures unchanged { OnErr result (self.new ≡ self.old) }
        ensures err { IfErr result (λ r. r ≡ Memory) }
    {
        if self.has(n) {
            return Ok(());
        }
        self.macros.insert(n, found)?;
        Ok(())
    }

    /// Defines a macro by the tokens after `# define` (6.10.3). `names` numbers its name and its parameters.
    ///
    /// Fails at `at` with the first of these that applies: 202 where the tokens are no definition; 205 where a name is reserved; 208 where `__VA_ARGS__`
    /// appears in the replacement list and no ellipsis ends the parameters; 203 where no parameter follows a `#`; 204 where `##` is at an end; 705 where there
    /// are more than 127 parameters; 201 where the name has another macro; 704 where there are 65,536 macros. Fails with 801 where memory runs out. The table
    /// is then as it was.
    pub fn try_define(
        &mut self,
        line: &[PpToken<'a>],
        at: Pos,
        names: &mut Names,
    ) -> Result<(), Refusal>
        ensures ok { OnOk result (Defines names.old self.old line.now names.new self.new) }
        ensures unchanged { OnErr result (self.new ≡ self.old) }
        ensures stays { (macros : Macros) → IsTable names.old self.old macros → OnErr result (IsTable names.new self.new macros) }
        ensures err { IfErr result (λ r. (macros : Macros) → IsTable names.old self.old macros → IsDefineRefusal macros line.now at r) }
        ensures keeps { KeepsNumbers names.old names.new }
    {
        let [name, ..] = line else {
            return Err(bad_definition(at));
        };
        if !is_identifier(name) {
            return Err(bad_definition(at));
        }
        let n = number_of(name, names)?;
        let Some(found) = read_macro(self.alloc, behind(line, 1), names)? else {
            return Err(bad_definition(at));
        };
        if let Some(code) = self.fault_of(n, &found, names) {
            return Err(Refusal::At { code, pos: at });
        }
        self.put(n, found)
    }

    /// The same, and the fault names the file by `names`.
    pub fn define(
        &mut self,
        alloc: Global,
        line: &[PpToken<'a>],
        at: Pos,
        names: &mut Names,
    ) -> Result<(), Fault>
        ensures ok { OnOk result (Defines names.old self.old line.now names.new self.new) }
        ensures unchanged { OnErr result (self.new ≡ self.old) }
        ensures stays { (macros : Macros) → IsTable names.old self.old macros → OnErr result (IsTable names.new self.new macros) }
        ensures err { IfErr result (λ fault. (macros : Macros) → IsTable names.old self.old macros → IsFaultOf fault (define_code macros line.now) (file_name_of names.new at.file) at.line) }
        ensures keeps { KeepsNumbers names.old names.new }
    {
        match self.try_define(line, at, names) {
            Ok(done) => Ok(done),
            Err(refusal) => Err(refusal.to_fault(alloc, names)),
        }
    }

    // Takes out the macro of this name, where there is one.
    fn remove(&mut self, names: &Names, spelling: &[u8])
        ensures { (macros : Macros) → IsTable names.now self.old macros → IsTable names.now self.new (without macros spelling.now) }
    {
        let Some(n) = names.find(spelling) else {
            return;
        };
        let _ = self.macros.swap_remove(&n);
    }

    /// Undefines the macro of this name, where there is one (6.10.3.5p2). Takes no memory.
    ///
    /// Fails with 205 at `at` where the name is reserved. The table is then as it was.
    pub fn try_undef(&mut self, name: &PpToken<'a>, at: Pos, names: &Names) -> Result<(), Refusal>
        ensures ok { OnOk result (Undefines names.now self.old name.now self.new) }
        ensures unchanged { OnErr result (self.new ≡ self.old) }
        ensures err { IfErr result (IsUndefineRefusal name.now at) }
    {
        if is_reserved(name.spelling()) {
            return Err(Refusal::At {
                code: Code::ReservedMacroName,
                pos: at,
            });
        }
        self.remove(names, name.spelling());
        Ok(())
    }

    /// The same, and the fault names the file by `names`.
    pub fn undef(
        &mut self,
        alloc: Global,
        name: &PpToken<'a>,
        at: Pos,
        names: &Names,
    ) -> Result<(), Fault>
        ensures ok { OnOk result (Undefines names.now self.old name.now self.new) }
        ensures unchanged { OnErr result (self.new ≡ self.old) }
        ensures err { IfErr result (λ fault. (is_reserved name.now.spelling ≡ true) × IsFaultOrMemory fault ReservedMacroName (file_name_of names.now at.file) at.line) }
    {
        match self.try_undef(name, at, names) {
            Ok(done) => Ok(done),
            Err(refusal) => Err(refusal.to_fault(alloc, names)),
        }
    }
}
