//! A lexer that takes one preprocessing token after another.
ghost use Rattle.std.specs.Prelude.{◌≡◌, ◌⊎◌, List, [], ◌∷◌, ◌++◌, Option, None, Some, Result, Err, IfSome, IsSomeAnd, IsErrAnd, IfOk, IfErr, OnOk, OnErr};
ghost use Rattle.phases.specs.Token.{Token as PpToken};
ghost use Rattle.srcset.specs.Fault.{IsMemoryFault};
ghost use Rattle.srcset.specs.NameTable.{Texts, KeepsNumbers};
ghost use Rattle.srcset.specs.Refusal.{IsFaultOfRefusal};
ghost use Rattle.srcset.specs.declared.refusal.Refusal.TheVariants.{Memory};
ghost use Rattle.lexer.specs.CTokens.{ctokens};
ghost use Rattle.lexer.specs.Laws.{AreInTheirTypes};
ghost use Rattle.lexer.specs.Numbering.{AreTokensOf, TakesUp, IsTokenFault, texts_of, with_texts};
ghost use Rattle.lexer.specs.Reading.{HasRead, HasTakenUp, refusal_of};

use crate::lexing::Stored;
use crate::token::Token;
use phases::PpToken;
use srcset::{Fault, Names, Refusal};
use std::alloc::Global;

/// The tokens read of a list of preprocessing tokens that come one after another: translation phases 5 to 7 (ISO/IEC
/// 9899:2011 5.1.1.2).
///
/// It is seen as the C tokens of those read (`HasRead`), under the table of names as it is: other texts may get numbers
/// between two calls. Once it has refused a token it refuses everything, each time for the same reason.
#[derive(Drop)]
pub struct Lexer {
    alloc: Global,
    stored: Stored,
    refused: Option<Refusal>,
}

impl Lexer {
    /// A lexer that has read nothing. It keeps `alloc`, and allocates nothing yet.
    pub fn new(alloc: Global) -> Lexer
        ensures nothing { (texts : Texts) → HasRead texts [] result }
        ensures ready { refusal_of result ≡ None }
    {
        Lexer {
            alloc,
            stored: Stored::new(alloc),
            refused: None,
        }
    }

    /// Reserves room for `additional` more tokens, as `reserve` does, and returns a refusal.
    pub(crate) fn try_reserve(&mut self, additional: usize) -> Result<(), Refusal>
        ensures same { (texts : Texts) (front : List PpToken) → HasRead texts front self.old → HasRead texts front self.new }
        ensures refusal { refusal_of self.new ≡ refusal_of self.old }
        ensures err { IfErr result (λ e. e ≡ Memory) }
    {
        self.stored.tokens.reserve(additional)?;
        Ok(())
    }

    /// Reserves room for `additional` more tokens, so that none of them has to allocate. Without it room grows by doubling.
    ///
    /// Fails with 801 where memory runs out. In any case the tokens read stay.
    pub fn reserve(&mut self, additional: usize) -> Result<(), Fault>
        ensures same { (texts : Texts) (front : List PpToken) → HasRead texts front self.old → HasRead texts front self.new }
        ensures refusal { refusal_of self.new ≡ refusal_of self.old }
        ensures err { IfErr result IsMemoryFault }
    {
        match self.try_reserve(additional) {
            Ok(()) => Ok(()),
            Err(_) => Err(Fault::memory(self.alloc)),
        }
    }

    /// Reads one token more, as `take` does, and returns a refusal, which names no file.
    pub fn try_take(&mut self, token: &PpToken, names: &mut Names) -> Result<(), Refusal>
        ensures reads { (front : List PpToken) → HasRead names.old front self.old → HasRead names.new (front ++ token.now ∷ []) self.new }
        ensures ok { OnOk result (refusal_of self.new ≡ None) }
        ensures err { IfErr result (λ e. refusal_of self.new ≡ Some e) }
        ensures again { IfSome (refusal_of self.old) (λ e. (result ≡ Err e) × (self.new ≡ self.old) × (names.new ≡ names.old)) }
        ensures texts { OnOk result ((before : Texts) (front : List PpToken) → HasRead names.old front self.old → HasTakenUp before front names.old
            → HasTakenUp before (front ++ token.now ∷ []) names.new) }
        ensures stops { OnErr result ((before : Texts) (front rest : List PpToken) → HasRead names.old front self.old → HasTakenUp before front names.old
            → TakesUp before names.new (ctokens (front ++ token.now ∷ rest)).tokens) }
        ensures keeps { KeepsNumbers names.old names.new }
    {
        if let Some(refusal) = self.refused {
            return Err(refusal);
        }
        let Err(refusal) = self.stored.take(token, names) else {
            return Ok(());
        };
        self.refused = Some(refusal);
        Err(refusal)
    }

    /// Reads one token more: an identifier takes its number from `names`, and so does a string literal that precedes
    /// this token and that it does not join.
    ///
    /// Fails with the fault that this token has (those of `tokens`), and with 801 where memory runs out. From then on every
    /// call fails with the same fault, or 801 where a copy of its texts finds no memory, and changes nothing.
    pub fn take(&mut self, token: &PpToken, names: &mut Names) -> Result<(), Fault>
        ensures reads { (front : List PpToken) → HasRead names.old front self.old → HasRead names.new (front ++ token.now ∷ []) self.new }
        ensures ok { OnOk result (refusal_of self.new ≡ None) }
        ensures err { IfErr result (λ fault. IsSomeAnd (refusal_of self.new) (IsFaultOfRefusal fault names.new)) }
        ensures fault { IfErr result (λ fault. (front : List PpToken) → HasRead names.old front self.old
            → IsTokenFault fault names.new (ctokens (front ++ token.now ∷ [])).fault) }
        ensures again { IfSome (refusal_of self.old) (λ e. IsErrAnd result (λ fault. IsFaultOfRefusal fault names.new e) × (self.new ≡ self.old) × (names.new ≡ names.old)) }
        ensures texts { OnOk result ((before : Texts) (front : List PpToken) → HasRead names.old front self.old → HasTakenUp before front names.old
            → HasTakenUp before (front ++ token.now ∷ []) names.new) }
        ensures stops { OnErr result ((before : Texts) (front rest : List PpToken) → HasRead names.old front self.old → HasTakenUp before front names.old
            → TakesUp before names.new (ctokens (front ++ token.now ∷ rest)).tokens) }
        ensures keeps { KeepsNumbers names.old names.new }
    {
        match self.try_take(token, names) {
            Ok(()) => Ok(()),
            Err(refusal) => Err(refusal.to_fault(self.alloc, names)),
        }
    }

    /// All tokens, as `end` gives them, or a refusal, which names no file.
    pub fn try_end(self, names: &mut Names) -> Result<Vec<Token>, Refusal>
        ensures ok { IfOk result (λ ts. (front : List PpToken) → HasRead names.old front self
            → ((ctokens front).fault ≡ None) × AreTokensOf names.new (ctokens front).tokens ts.items) }
        ensures constants { IfOk result (λ ts. (front : List PpToken) → HasRead names.old front self → AreInTheirTypes ts.items) }
        ensures err { IfErr result (λ e. (front : List PpToken) → HasRead names.old front self → (e ≡ Memory) ⊎ ((ctokens front).fault ≡ Some e)) }
        ensures again { IfSome (refusal_of self) (λ e. (result ≡ Err e) × (names.new ≡ names.old)) }
        ensures texts { OnOk result ((before : Texts) (front : List PpToken) → HasRead names.old front self → HasTakenUp before front names.old
            → names.new ≡ with_texts before (texts_of (ctokens front).tokens)) }
        ensures stops { OnErr result ((before : Texts) (front : List PpToken) → HasRead names.old front self → HasTakenUp before front names.old
            → TakesUp before names.new (ctokens front).tokens) }
        ensures keeps { KeepsNumbers names.old names.new }
    {
        match self.refused {
            Some(refusal) => Err(refusal),
            None => self.stored.end(names),
        }
    }

    /// All tokens, where no token is left to read. A last string literal takes its number from `names`.
    ///
    /// Fails with the fault that the tokens have, and with 801 where memory runs out.
    pub fn end(self, names: &mut Names) -> Result<Vec<Token>, Fault>
        ensures ok { IfOk result (λ ts. (front : List PpToken) → HasRead names.old front self
            → ((ctokens front).fault ≡ None) × AreTokensOf names.new (ctokens front).tokens ts.items) }
        ensures constants { IfOk result (λ ts. (front : List PpToken) → HasRead names.old front self → AreInTheirTypes ts.items) }
        ensures err { IfErr result (λ fault. (front : List PpToken) → HasRead names.old front self → IsTokenFault fault names.new (ctokens front).fault) }
        ensures again { IfSome (refusal_of self) (λ e. IsErrAnd result (λ fault. IsFaultOfRefusal fault names.new e) × (names.new ≡ names.old)) }
        ensures texts { OnOk result ((before : Texts) (front : List PpToken) → HasRead names.old front self → HasTakenUp before front names.old
            → names.new ≡ with_texts before (texts_of (ctokens front).tokens)) }
        ensures stops { OnErr result ((before : Texts) (front : List PpToken) → HasRead names.old front self → HasTakenUp before front names.old
            → TakesUp before names.new (ctokens front).tokens) }
        ensures keeps { KeepsNumbers names.old names.new }
    {
        let alloc = self.alloc;
        match self.try_end(names) {
            Ok(tokens) => Ok(tokens),
            Err(refusal) => Err(refusal.to_fault(alloc, names)),
        }
    }
}
