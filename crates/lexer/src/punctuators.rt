//! Punctuators (ISO/IEC 9899:2011 6.4.6).
ghost use Rattle.std.specs.Prelude.{◌≡◌};
ghost use Rattle.lexer.specs.Punctuators.{single_of, pair_of, longer_of, punctuator_of};

use crate::token::Punctuator;

// Those of one character.
#[tactic(auto, unfolding(crate::specs::Punctuators::single_of))]
fn single(spelling: &[u8]) -> Option<Punctuator>
    ensures { result ≡ single_of spelling.now }
{
    if spelling == b"[".as_slice() {
        return Some(Punctuator::BracketOpen);
    }
    if spelling == b"]".as_slice() {
        return Some(Punctuator::BracketClose);
    }
    if spelling == b"(".as_slice() {
        return Some(Punctuator::ParenOpen);
    }
    if spelling == b")".as_slice() {
        return Some(Punctuator::ParenClose);
    }
    if spelling == b"{".as_slice() {
        return Some(Punctuator::BraceOpen);
    }
    if spelling == b"}".as_slice() {
        return Some(Punctuator::BraceClose);
    }
    if spelling == b".".as_slice() {
        return Some(Punctuator::Dot);
    }
    if spelling == b"&".as_slice() {
        return Some(Punctuator::Ampersand);
    }
    if spelling == b"*".as_slice() {
        return Some(Punctuator::Star);
    }
    if spelling == b"+".as_slice() {
        return Some(Punctuator::Plus);
    }
    if spelling == b"-".as_slice() {
        return Some(Punctuator::Minus);
    }
    if spelling == b"~".as_slice() {
        return Some(Punctuator::Tilde);
    }
    if spelling == b"!".as_slice() {
        return Some(Punctuator::Bang);
    }
    if spelling == b"/".as_slice() {
        return Some(Punctuator::Slash);
    }
    if spelling == b"%".as_slice() {
        return Some(Punctuator::Percent);
    }
    if spelling == b"<".as_slice() {
        return Some(Punctuator::Less);
    }
    if spelling == b">".as_slice() {
        return Some(Punctuator::Greater);
    }
    if spelling == b"^".as_slice() {
        return Some(Punctuator::Caret);
    }
    if spelling == b"|".as_slice() {
        return Some(Punctuator::Bar);
    }
    if spelling == b"?".as_slice() {
        return Some(Punctuator::Question);
    }
    if spelling == b":".as_slice() {
        return Some(Punctuator::Colon);
    }
    if spelling == b";".as_slice() {
        return Some(Punctuator::Semicolon);
    }
    if spelling == b"=".as_slice() {
        return Some(Punctuator::Assign);
    }
    if spelling == b",".as_slice() {
        return Some(Punctuator::Comma);
    }
    if spelling == b"#".as_slice() {
        return Some(Punctuator::Hash);
    }
    None
}

// Those of two, digraphs among them.
#[tactic(auto, unfolding(crate::specs::Punctuators::pair_of))]
fn pair(spelling: &[u8]) -> Option<Punctuator>
    ensures { result ≡ pair_of spelling.now }
{
    if spelling == b"->".as_slice() {
        return Some(Punctuator::Arrow);
    }
    if spelling == b"++".as_slice() {
        return Some(Punctuator::PlusPlus);
    }
    if spelling == b"--".as_slice() {
        return Some(Punctuator::MinusMinus);
    }
    if spelling == b"<<".as_slice() {
        return Some(Punctuator::ShiftLeft);
    }
    if spelling == b">>".as_slice() {
        return Some(Punctuator::ShiftRight);
    }
    if spelling == b"<=".as_slice() {
        return Some(Punctuator::LessEqual);
    }
    if spelling == b">=".as_slice() {
        return Some(Punctuator::GreaterEqual);
    }
    if spelling == b"==".as_slice() {
        return Some(Punctuator::EqualEqual);
    }
    if spelling == b"!=".as_slice() {
        return Some(Punctuator::BangEqual);
    }
    if spelling == b"&&".as_slice() {
        return Some(Punctuator::AndAnd);
    }
    if spelling == b"||".as_slice() {
        return Some(Punctuator::BarBar);
    }
    if spelling == b"*=".as_slice() {
        return Some(Punctuator::StarAssign);
    }
    if spelling == b"/=".as_slice() {
        return Some(Punctuator::SlashAssign);
    }
    if spelling == b"%=".as_slice() {
        return Some(Punctuator::PercentAssign);
    }
    if spelling == b"+=".as_slice() {
        return Some(Punctuator::PlusAssign);
    }
    if spelling == b"-=".as_slice() {
        return Some(Punctuator::MinusAssign);
    }
    if spelling == b"&=".as_slice() {
        return Some(Punctuator::AmpersandAssign);
    }
    if spelling == b"^=".as_slice() {
        return Some(Punctuator::CaretAssign);
    }
    if spelling == b"|=".as_slice() {
        return Some(Punctuator::BarAssign);
    }
    if spelling == b"##".as_slice() {
        return Some(Punctuator::HashHash);
    }
    if spelling == b"<:".as_slice() {
        return Some(Punctuator::BracketOpen);
    }
    if spelling == b":>".as_slice() {
        return Some(Punctuator::BracketClose);
    }
    if spelling == b"<%".as_slice() {
        return Some(Punctuator::BraceOpen);
    }
    if spelling == b"%>".as_slice() {
        return Some(Punctuator::BraceClose);
    }
    if spelling == b"%:".as_slice() {
        return Some(Punctuator::Hash);
    }
    None
}

// Those of three and four.
#[tactic(auto, unfolding(crate::specs::Punctuators::longer_of))]
fn longer(spelling: &[u8]) -> Option<Punctuator>
    ensures { result ≡ longer_of spelling.now }
{
    if spelling == b"...".as_slice() {
        return Some(Punctuator::Ellipsis);
    }
    if spelling == b"<<=".as_slice() {
        return Some(Punctuator::ShiftLeftAssign);
    }
    if spelling == b">>=".as_slice() {
        return Some(Punctuator::ShiftRightAssign);
    }
    if spelling == b"%:%:".as_slice() {
        return Some(Punctuator::HashHash);
    }
    None
}

/// The punctuator with this spelling.
pub(crate) fn punctuator(spelling: &[u8]) -> Option<Punctuator>
    ensures { result ≡ punctuator_of spelling.now }
{
    if let Some(found) = single(spelling) {
        return Some(found);
    }
    if let Some(found) = pair(spelling) {
        return Some(found);
    }
    longer(spelling)
}
