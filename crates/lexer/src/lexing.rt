//! The C tokens of the preprocessing tokens so far, as they are stored.
ghost use Rattle.std.specs.Prelude.{◌≡◌, ◌≢◌, ℕ, [], ◌∷◌, ◌++◌, false, None, Some, IfOk, IfErr, OnOk, OnErr};
ghost use Rattle.srcset.specs.NameTable.{Texts, KeepsNumbers};
ghost use Rattle.srcset.specs.declared.refusal.Refusal.TheVariants.{Memory};
ghost use Rattle.lexer.specs.CTokens.{CTokens, nothing, meaning, as_constant};
ghost use Rattle.lexer.specs.Words.{word};
ghost use Rattle.lexer.specs.Punctuators.{mark};
ghost use Rattle.lexer.specs.inside.Decoding.{IsRefusal, IsFaultAt, IsFaultFirst};
ghost use Rattle.lexer.specs.Literals.{string};
ghost use Rattle.lexer.specs.Numbering.{AreAll};
ghost use Rattle.lexer.specs.inside.Carrying.{is_string, IsKindFor, with_meaning, Carries, IsPushed, Passes, PassesText, Closes, Stops, StopsClosing, IsSettled, ends_in_literal};

use crate::literals::{character, string};
use crate::numbers::{Constant, number};
use crate::punctuators::punctuator;
use crate::token::{Kind, Token};
use crate::words::{keyword, left_out};
use phases::{Kind as PpKind, PpToken};
use srcset::{Code, Names, Pos, Refusal};
use std::alloc::Global;

/// The C tokens that a lexer stores.
#[derive(Drop)]
pub struct Stored {
    // The tokens, without a string literal that may not be complete.
    pub(crate) tokens: Vec<Token>,
    // The place of this string literal.
    pub(crate) pending: Option<Pos>,
    // Its bytes so far.
    pub(crate) bytes: Vec<u8>,
}

// The kind of a keyword or an identifier.
fn word(spelling: &[u8], pos: Pos, names: &mut Names) -> Result<Kind, Refusal>
    ensures ok { IfOk result (λ k. IsKindFor names.new (word spelling.now) k) }
    ensures err { IfErr result (λ e. IsFaultFirst e pos (word spelling.now)) }
    ensures texts { OnOk result (names.new ≡ with_meaning names.old (word spelling.now)) }
    ensures same { OnErr result (names.new ≡ names.old) }
    ensures keeps { KeepsNumbers names.old names.new }
{
    if let Some(keyword) = keyword(spelling) {
        return Ok(Kind::Keyword(keyword));
    }
    if let Some(code) = left_out(spelling) {
        return Err(Refusal::At { code, pos });
    }
    let Ok(n) = names.intern(spelling) else {
        return Err(Refusal::Memory);
    };
    Ok(Kind::Identifier(n))
}

// The kind of a constant.
fn constant(constant: Result<Constant, Code>, pos: Pos) -> Result<Kind, Refusal>
    ensures ok { IfOk result (λ k. (texts : Texts) → IsKindFor texts (as_constant constant) k) }
    ensures err { IfErr result (λ e. IsFaultAt e pos (as_constant constant)) }
{
    match constant {
        Ok(constant) => Ok(Kind::Constant(constant.of, constant.value)),
        Err(code) => Err(Refusal::At { code, pos }),
    }
}

// The kind of a punctuator.
fn mark(spelling: &[u8], pos: Pos) -> Result<Kind, Refusal>
    ensures ok { IfOk result (λ k. (texts : Texts) → IsKindFor texts (mark spelling.now) k) }
    ensures err { IfErr result (λ e. IsFaultAt e pos (mark spelling.now)) }
{
    match punctuator(spelling) {
        Some(punctuator) => Ok(Kind::Punctuator(punctuator)),
        None => Err(Refusal::At {
            code: Code::NotAToken,
            pos,
        }),
    }
}

// Whether a token is a string literal.
fn is_string(kind: PpKind) -> bool
    ensures { result ≡ is_string kind }
{
    match kind {
        PpKind::StringLiteral => true,
        PpKind::Identifier | PpKind::Number | PpKind::CharacterConstant => false,
        PpKind::HeaderName | PpKind::Punctuator | PpKind::Other => false,
    }
}

// The kind of a token that is no string literal.
fn kind_of(token: &PpToken, names: &mut Names) -> Result<Kind, Refusal>
    requires { is_string token.now.kind ≡ false }
    ensures ok { IfOk result (λ k. IsKindFor names.new (meaning token.now.kind token.now.spelling) k) }
    ensures err { IfErr result (λ e. IsFaultFirst e token.now.pos (meaning token.now.kind token.now.spelling)) }
    ensures texts { OnOk result (names.new ≡ with_meaning names.old (meaning token.now.kind token.now.spelling)) }
    ensures same { OnErr result (names.new ≡ names.old) }
    ensures keeps { KeepsNumbers names.old names.new }
{
    let pos = token.pos();
    match token.kind() {
        PpKind::Identifier => word(token.spelling(), pos, names),
        PpKind::Number => constant(number(token.spelling()), pos),
        PpKind::CharacterConstant => constant(character(token.spelling()), pos),
        PpKind::Punctuator => mark(token.spelling(), pos),
        PpKind::HeaderName => Err(Refusal::At {
            code: Code::NotAToken,
            pos,
        }),
        PpKind::Other => Err(Refusal::At {
            code: Code::NotAToken,
            pos,
        }),
        PpKind::StringLiteral => unreachable!(),
    }
}

impl Stored {
    /// No token.
    pub(crate) fn new(alloc: Global) -> Stored
        ensures nothing { result.tokens.items ≡ [] }
        ensures pending { result.pending ≡ None }
    {
        Stored {
            tokens: Vec::new(alloc),
            pending: None,
            bytes: Vec::new(alloc),
        }
    }

    // Appends a token.
    fn push(&mut self, kind: Kind, pos: Pos) -> Result<(), Refusal>
        ensures ok { OnOk result (IsPushed self.old self.new (record { kind = kind; pos = pos })) }
        ensures err { IfErr result (λ e. e ≡ Memory) }
    {
        self.tokens.extend_from_slice(&[Token { kind, pos }])?;
        Ok(())
    }

    // Ends the string literal, if there is one.
    fn close(&mut self, names: &mut Names) -> Result<(), Refusal>
        ensures ok { OnOk result (Closes names.old self.old names.new self.new) }
        ensures none { OnOk result (self.new.pending ≡ None) }
        ensures err { IfErr result (λ e. e ≡ Memory) }
        ensures stops { OnErr result (StopsClosing names.old self.old names.new) }
        ensures keeps { KeepsNumbers names.old names.new }
    {
        let Some(pos) = self.pending else {
            return Ok(());
        };
        self.bytes.push(0)?;
        let Ok(n) = names.intern(self.bytes.as_slice()) else {
            return Err(Refusal::Memory);
        };
        self.pending = None;
        self.push(Kind::StringLiteral(n), pos)
    }

    // Appends the bytes of a string literal to those of the literals directly before it.
    fn take_string(&mut self, spelling: &[u8], pos: Pos) -> Result<(), Refusal>
        ensures pending { self.new.pending ≢ None }
        ensures ok { OnOk result ((texts : Texts) → PassesText texts self.old self.new pos (string spelling.now)) }
        ensures err { IfErr result (λ e. IsRefusal e pos (string spelling.now)) }
    {
        if self.pending.is_none() {
            self.pending = Some(pos);
            self.bytes.clear();
        }
        string(spelling, pos, &mut self.bytes)
    }

    // Appends a token that is no string literal, after a string literal that is complete.
    fn take_other(&mut self, token: &PpToken, names: &mut Names) -> Result<(), Refusal>
        requires { is_string token.now.kind ≡ false }
        ensures ok { OnOk result (Passes names.old self.old names.new self.new token.now) }
        ensures ends { OnOk result (ends_in_literal self.new.tokens.items ≡ false) }
        ensures err { IfErr result (λ e. IsRefusal e token.now.pos (meaning token.now.kind token.now.spelling)) }
        ensures stops { OnErr result (Stops names.old self.old names.new token.now) }
        ensures keeps { KeepsNumbers names.old names.new }
    {
        self.close(names)?;
        let kind = kind_of(token, names)?;
        self.push(kind, token.pos())
    }

    /// Reads one more token.
    pub(crate) fn take(&mut self, token: &PpToken, names: &mut Names) -> Result<(), Refusal>
        ensures ok { OnOk result (Passes names.old self.old names.new self.new token.now) }
        ensures settled { OnOk result (IsSettled self.new) }
        ensures err { IfErr result (λ e. IsRefusal e token.now.pos (meaning token.now.kind token.now.spelling)) }
        ensures stops { OnErr result (Stops names.old self.old names.new token.now) }
        ensures keeps { KeepsNumbers names.old names.new }
    {
        if is_string(token.kind()) {
            return self.take_string(token.spelling(), token.pos());
        }
        self.take_other(token, names)
    }

    /// All tokens, where no token is left.
    pub(crate) fn end(mut self, names: &mut Names) -> Result<Vec<Token>, Refusal>
        ensures ok { IfOk result (λ ts. (old : Texts) (total : CTokens) → Carries old names.old self nothing total → AreAll old names.new total ts.items) }
        ensures err { IfErr result (λ e. e ≡ Memory) }
        ensures stops { OnErr result (StopsClosing names.old self names.new) }
        ensures keeps { KeepsNumbers names.old names.new }
    {
        self.close(names)?;
        Ok(self.tokens)
    }
}
