//! C tokens of a list of preprocessing tokens.
ghost use Rattle.std.specs.Prelude.{◌≡◌, ℕ, List, ◌⊎◌, Some, IfOk, IfErr, OnErr};
ghost use Rattle.srcset.specs.NameTable.{KeepsNumbers};
ghost use Rattle.srcset.specs.declared.refusal.Refusal.TheVariants.{Memory};
ghost use Rattle.lexer.specs.CTokens.{ctokens};
ghost use Rattle.lexer.specs.Laws.{AreInTheirTypes, DigitsStandForTheirNumber, HasBytes, IsItself, GoesOnBehind};
ghost use Rattle.lexer.specs.Numbering.{AreAll, TakesUp, IsTokenFault};

use crate::reading::Lexer;
use crate::token::Token;
use phases::PpToken;
use srcset::{Fault, Names, Refusal};
use std::alloc::Global;

// The C tokens, or the refusal.
fn all_tokens(alloc: Global, list: &[PpToken], names: &mut Names) -> Result<Vec<Token>, Refusal>
    ensures ok { IfOk result (λ ts. AreAll names.old names.new (ctokens list.now) ts.items) }
    ensures err { IfErr result (λ e. (e ≡ Memory) ⊎ ((ctokens list.now).fault ≡ Some e)) }
    ensures stops { OnErr result (TakesUp names.old names.new (ctokens list.now).tokens) }
    ensures keeps { KeepsNumbers names.old names.new }
{
    let mut lexer = Lexer::new(alloc);
    lexer.try_reserve(list.len())?;
    for token in list {
        lexer.try_take(token, names)?;
    }
    lexer.try_end(names)
}

/// The C tokens of preprocessing tokens: translation phases 5 to 7 (ISO/IEC 9899:2011 5.1.1.2).
///
/// Each identifier and each string literal takes its number from `names`, in the order of the tokens;
/// the text of a string literal is its bytes and a zero byte (6.4.5). Adjacent string literals are
/// one, at the place of the first of them.
///
/// Fails with the fault of the first token that has one, at that token, under the file's name:
/// 301 for text that is no token; 302 for a bad escape or byte in a literal; 303 for a constant over
/// 18446744073709551615 or a character over 255; 601 to 605 for a keyword and 608 for `_Pragma` or
/// `__func__`, 606 for a floating constant, 607 for a prefixed or multi-character literal and 609 for a
/// constant that needs `long long`, which this profile leaves out. Of several faults of one literal 607
/// comes first, then 302. Fails with 801 where memory runs out. In any case `names` has taken up the
/// texts of some of the first tokens, in their order, and no others.
///
/// A constant is a value of its type (clause `constants`). The clauses after it are laws of the definitions: the
/// digits of a number denote it (6.4.4.1), the characters of a literal are bytes, a literal without escape
/// sequences denotes its own characters, and one with some is read sequence by sequence (6.4.4.4, 6.4.5).
pub fn tokens(alloc: Global, list: &[PpToken], names: &mut Names) -> Result<Vec<Token>, Fault>
    ensures ok { IfOk result (λ ts. AreAll names.old names.new (ctokens list.now) ts.items) }
    ensures err { IfErr result (λ fault. IsTokenFault fault names.new (ctokens list.now).fault) }
    ensures stops { OnErr result (TakesUp names.old names.new (ctokens list.now).tokens) }
    ensures keeps { KeepsNumbers names.old names.new }
    ensures constants { IfOk result (λ ts. AreInTheirTypes ts.items) }
    ensures digits { (n : ℕ) → DigitsStandForTheirNumber n }
    ensures bytes { (spelling : List ℕ) → HasBytes spelling }
    ensures plain { (text : List ℕ) → IsItself text }
    ensures behind { (b : ℕ) (bs rest : List ℕ) → GoesOnBehind b bs rest }
{
    match all_tokens(alloc, list, names) {
        Ok(tokens) => Ok(tokens),
        Err(refusal) => Err(refusal.to_fault(alloc, names)),
    }
}
