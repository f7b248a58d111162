//! The state of phase 4, and the effect on it of ends of runs and of directives.
ghost use Rattle.std.specs.Prelude.{◌≡◌, ◌<◌, true, false, length, drop, codes, All, IfOk, IfErr, OnOk};
ghost use Rattle.srcset.specs.NameTable.{Texts, KeepsNumbers};
ghost use Rattle.srcset.specs.declared.refusal.Refusal.TheVariants.{At};
ghost use Rattle.srcset.specs.declared.code.Code.TheVariants.{BadDirective};
ghost use Rattle.macros.specs.Macro.{is_spelled};
ghost use Rattle.macros.specs.Definition.{define};
ghost use Rattle.pp_expand.specs.Expansion.{of_directive};
ghost use Rattle.pp_expand.specs.Expands.{HaveFiles};
ghost use Rattle.pp.specs.Lines.{first_end};
ghost use Rattle.pp.specs.Phase4.{State as Done, Enter, start, expand, presume, with_macros, undefined, named, directive_done};
ghost use Rattle.pp.specs.inside.Including.{is_include};
ghost use Rattle.pp.specs.inside.Pending.{is_directive};
ghost use Rattle.pp.specs.Held.{Agrees, IsSound};
ghost use Rattle.pp.specs.inside.Stepping.{IsNear, line_with, GivesFirst, StopsAs, Does};

use crate::ends::LineEnds;
use crate::error_directive::refusal_of;
use crate::line_directive::line_done;
use crate::places::Presumed;
use crate::words::is_spelled;
use macros::{MacroTable, is_identifier};
use phases::PpToken;
use pp_expand::{Budget, RunEnd, Unexpanded, expand_behind};
use srcset::{Code, Names, Pos, Refusal};
use std::alloc::Global;

/// The greatest number of replacements of macros.
pub const MAX_REPLACEMENTS: u32 = 1048576;

/// The state so far: the macros, the replacements left, how many tokens were given, and how places are presumed.
#[derive(Drop)]
pub struct State<'a> {
    pub table: MacroTable<'a>,
    pub budget: Budget,
    pub given: usize,
    pub presumed: Presumed,
}

/// Tokens that the directive does not take follow its name, or there is no such directive.
pub fn bad_directive(at: Pos) -> Refusal
    ensures { result ≡ At BadDirective at }
{
    Refusal::At {
        code: Code::BadDirective,
        pos: at,
    }
}

impl<'a> State<'a> {
    /// Nothing was done, and places are presumed to be the physical ones of this file.
    pub fn new(alloc: Global, file: usize) -> State<'a>
        ensures agrees { (names : Texts) → Agrees names result (record start { presumed = record { from = 1; line = 1; file = file } }) }
        ensures sound { (names : Texts) → file < length names → IsSound names result }
        ensures none { result.given ≡ 0 }
    {
        State {
            table: MacroTable::new(alloc),
            budget: Budget::new(MAX_REPLACEMENTS),
            given: 0,
            presumed: Presumed::physical(file),
        }
    }

    /// The expansion of these tokens, at most its first `most` tokens: no more are kept, however many come.
    pub fn expand_first(
        &mut self,
        alloc: Global,
        tokens: &[PpToken<'a>],
        most: usize,
        names: &Names,
    ) -> Result<Vec<PpToken<'a>>, Refusal>
        requires sound { IsSound names.now self.old }
        requires files { HaveFiles names.now tokens.now }
        ensures ok { IfOk result (λ first. (texts : Texts) (s : Done) → KeepsNumbers names.now texts → Agrees names.now self.old s → GivesFirst most first.items names.now self.new (expand texts tokens.now of_directive s)) }
        ensures err { IfErr result (λ refusal. (texts : Texts) (s : Done) → KeepsNumbers names.now texts → Agrees names.now self.old s → StopsAs s.given names.now refusal (expand texts tokens.now of_directive s)) }
        ensures sound { OnOk result (IsSound names.now self.new) }
        ensures given { self.new.given ≡ self.old.given }
    {
        let list = Unexpanded::copy_of(alloc, tokens)?;
        let mut first = Vec::new(alloc);
        expand_behind(
            alloc,
            &self.table,
            list,
            RunEnd::Directive,
            &mut self.budget,
            names,
            most,
            &mut first,
        )?;
        Ok(first)
    }

    // `#define` (ISO/IEC 9899:2011 6.10.3), by the tokens after the name of the directive.
    fn define(
        &mut self,
        alloc: Global,
        line: &[PpToken<'a>],
        at: Pos,
        names: &mut Names,
    ) -> Result<(), Refusal>
        requires sound { IsSound names.old self.old }
        requires near { All IsNear line.now }
        ensures does { Does result names.old self.old names.new self.new (λ s. with_macros s at (define s.macros (presume s line.now))) }
        ensures sound { OnOk result (IsSound names.new self.new) }
        ensures keeps { KeepsNumbers names.old names.new }
        ensures given { self.new.given ≡ self.old.given }
    {
        let mut tokens = Vec::new(alloc);
        self.presumed.put(line, &mut tokens)?;
        self.table.try_define(&tokens, at, names)
    }

    // `#undef` (6.10.3.5), by the tokens after the name of the directive.
    fn undef(&mut self, line: &[PpToken<'a>], at: Pos, names: &Names) -> Result<(), Refusal>
        requires { IsSound names.now self.old }
        ensures does { Does result names.now self.old names.now self.new (λ s. undefined s at (presume s line.now)) }
        ensures sound { OnOk result (IsSound names.now self.new) }
        ensures given { self.new.given ≡ self.old.given }
    {
        let [name] = line else {
            return Err(bad_directive(at));
        };
        if !is_identifier(name) {
            return Err(bad_directive(at));
        }
        self.table.try_undef(name, at, names)
    }

    // Executes a directive of this name that is no part of a conditional section and no `#include` (6.10p1), by the tokens after the name.
    fn named(
        &mut self,
        alloc: Global,
        name: &PpToken<'a>,
        further: &[PpToken<'a>],
        at: Pos,
        index: usize,
        ends: &mut LineEnds<'a>,
        names: &mut Names,
    ) -> Result<(), Refusal>
        requires sound { IsSound names.old self.old }
        requires other { is_spelled (codes "include") name.now ≡ false }
        requires near { All IsNear further.now }
        ensures does { (texts : Texts) (enter : Enter) → KeepsNumbers names.new texts → Does result names.old self.old names.new self.new (λ s. named texts enter name.now (presume s further.now) (first_end (drop index ends.old)) at s) }
        ensures sound { OnOk result (IsSound names.new self.new) }
        ensures keeps { KeepsNumbers names.old names.new }
        ensures given { self.new.given ≡ self.old.given }
        ensures same { ends.new ≡ ends.old }
    {
        if is_spelled(name, b"define") {
            return self.define(alloc, further, at, names);
        }
        if is_spelled(name, b"undef") {
            return self.undef(further, at, names);
        }
        if is_spelled(name, b"line") {
            let end = ends.end_of(alloc, index)?;
            return line_done(self, alloc, further, end, at, names);
        }
        if is_spelled(name, b"error") {
            return Err(refusal_of(alloc, further, at, names));
        }
        if is_spelled(name, b"pragma") {
            return Ok(());
        }
        Err(bad_directive(at))
    }

    /// Executes a directive that is no part of a conditional section. A `#` alone does nothing (6.10.7).
    pub fn directive(
        &mut self,
        alloc: Global,
        line: &[PpToken<'a>],
        index: usize,
        ends: &mut LineEnds<'a>,
        names: &mut Names,
    ) -> Result<(), Refusal>
        requires sound { IsSound names.old self.old }
        requires other { is_include line.now ≡ false }
        requires hash { is_directive line.now ≡ true }
        requires near { All IsNear line.now }
        ensures does { (texts : Texts) (enter : Enter) → KeepsNumbers names.new texts → Does result names.old self.old names.new self.new (directive_done texts enter (line_with line.now (first_end (drop index ends.old)))) }
        ensures sound { OnOk result (IsSound names.new self.new) }
        ensures keeps { KeepsNumbers names.old names.new }
        ensures given { self.new.given ≡ self.old.given }
        ensures same { ends.new ≡ ends.old }
    {
        let [hash, name, further @ ..] = line else {
            return Ok(());
        };
        let at = self.presumed.place(hash.pos());
        if !is_identifier(name) {
            return Err(bad_directive(at));
        }
        self.named(alloc, name, further, at, index, ends, names)
    }
}
