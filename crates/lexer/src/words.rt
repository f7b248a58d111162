//! Keywords and identifiers (ISO/IEC 9899:2011 6.4.1, 6.4.2).
ghost use Rattle.std.specs.Prelude.{◌≡◌};
ghost use Rattle.lexer.specs.Words.{keyword_of, left_out_of};

use crate::token::Keyword;
use srcset::Code;

/// The keyword with this spelling.
#[tactic(auto, unfolding(crate::specs::Words::keyword_of))]
pub(crate) fn keyword(spelling: &[u8]) -> Option<Keyword>
    ensures { result ≡ keyword_of spelling.now }
{
    if spelling == b"_Bool".as_slice() {
        return Some(Keyword::Bool);
    }
    if spelling == b"break".as_slice() {
        return Some(Keyword::Break);
    }
    if spelling == b"case".as_slice() {
        return Some(Keyword::Case);
    }
    if spelling == b"char".as_slice() {
        return Some(Keyword::Char);
    }
    if spelling == b"const".as_slice() {
        return Some(Keyword::Const);
    }
    if spelling == b"continue".as_slice() {
        return Some(Keyword::Continue);
    }
    if spelling == b"default".as_slice() {
        return Some(Keyword::Default);
    }
    if spelling == b"do".as_slice() {
        return Some(Keyword::Do);
    }
    if spelling == b"else".as_slice() {
        return Some(Keyword::Else);
    }
    if spelling == b"enum".as_slice() {
        return Some(Keyword::Enum);
    }
    if spelling == b"extern".as_slice() {
        return Some(Keyword::Extern);
    }
    if spelling == b"for".as_slice() {
        return Some(Keyword::For);
    }
    if spelling == b"if".as_slice() {
        return Some(Keyword::If);
    }
    if spelling == b"int".as_slice() {
        return Some(Keyword::Int);
    }
    if spelling == b"long".as_slice() {
        return Some(Keyword::Long);
    }
    if spelling == b"return".as_slice() {
        return Some(Keyword::Return);
    }
    if spelling == b"short".as_slice() {
        return Some(Keyword::Short);
    }
    if spelling == b"signed".as_slice() {
        return Some(Keyword::Signed);
    }
    if spelling == b"sizeof".as_slice() {
        return Some(Keyword::Sizeof);
    }
    if spelling == b"static".as_slice() {
        return Some(Keyword::Static);
    }
    if spelling == b"_Static_assert".as_slice() {
        return Some(Keyword::StaticAssert);
    }
    if spelling == b"switch".as_slice() {
        return Some(Keyword::Switch);
    }
    if spelling == b"unsigned".as_slice() {
        return Some(Keyword::Unsigned);
    }
    if spelling == b"void".as_slice() {
        return Some(Keyword::Void);
    }
    if spelling == b"while".as_slice() {
        return Some(Keyword::While);
    }
    None
}

/// The code of a word that this profile leaves out, 601 to 605 or 608.
#[tactic(auto, unfolding(crate::specs::Words::left_out_of))]
pub(crate) fn left_out(spelling: &[u8]) -> Option<Code>
    ensures { result ≡ left_out_of spelling.now }
{
    if spelling == b"float".as_slice() {
        return Some(Code::LeftOutFloating);
    }
    if spelling == b"double".as_slice() {
        return Some(Code::LeftOutFloating);
    }
    if spelling == b"_Complex".as_slice() {
        return Some(Code::LeftOutFloating);
    }
    if spelling == b"_Imaginary".as_slice() {
        return Some(Code::LeftOutFloating);
    }
    if spelling == b"struct".as_slice() {
        return Some(Code::LeftOutStructures);
    }
    if spelling == b"union".as_slice() {
        return Some(Code::LeftOutStructures);
    }
    if spelling == b"typedef".as_slice() {
        return Some(Code::LeftOutStructures);
    }
    if spelling == b"goto".as_slice() {
        return Some(Code::LeftOutGoto);
    }
    if spelling == b"volatile".as_slice() {
        return Some(Code::LeftOutQualifiers);
    }
    if spelling == b"restrict".as_slice() {
        return Some(Code::LeftOutQualifiers);
    }
    if spelling == b"_Atomic".as_slice() {
        return Some(Code::LeftOutQualifiers);
    }
    if spelling == b"_Thread_local".as_slice() {
        return Some(Code::LeftOutQualifiers);
    }
    if spelling == b"auto".as_slice() {
        return Some(Code::LeftOutQualifiers);
    }
    if spelling == b"register".as_slice() {
        return Some(Code::LeftOutQualifiers);
    }
    if spelling == b"inline".as_slice() {
        return Some(Code::LeftOutSpecifiers);
    }
    if spelling == b"_Noreturn".as_slice() {
        return Some(Code::LeftOutSpecifiers);
    }
    if spelling == b"_Alignas".as_slice() {
        return Some(Code::LeftOutSpecifiers);
    }
    if spelling == b"_Alignof".as_slice() {
        return Some(Code::LeftOutSpecifiers);
    }
    if spelling == b"_Generic".as_slice() {
        return Some(Code::LeftOutSpecifiers);
    }
    if spelling == b"_Pragma".as_slice() {
        return Some(Code::LeftOutPragmaOperator);
    }
    if spelling == b"__func__".as_slice() {
        return Some(Code::LeftOutPragmaOperator);
    }
    None
}
