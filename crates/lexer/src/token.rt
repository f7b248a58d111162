//! C tokens (ISO/IEC 9899:2011 6.4).

use ctypes::IntType;
use srcset::Pos;

/// The keywords of this profile (6.4.1), 25 of the 44.
#[derive(Clone, Copy, PartialEq, Eq, Debug)]
pub enum Keyword {
    /// `_Bool`
    Bool,
    /// `break`
    Break,
    /// `case`
    Case,
    /// `char`
    Char,
    /// `const`
    Const,
    /// `continue`
    Continue,
    /// `default`
    Default,
    /// `do`
    Do,
    /// `else`
    Else,
    /// `enum`
    Enum,
    /// `extern`
    Extern,
    /// `for`
    For,
    /// `if`
    If,
    /// `int`
    Int,
    /// `long`
    Long,
    /// `return`
    Return,
    /// `short`
    Short,
    /// `signed`
    Signed,
    /// `sizeof`
    Sizeof,
    /// `static`
    Static,
    /// `_Static_assert`
    StaticAssert,
    /// `switch`
    Switch,
    /// `unsigned`
    Unsigned,
    /// `void`
    Void,
    /// `while`
    While,
}

/// The punctuators (6.4.6). A digraph is the punctuator that it denotes.
#[derive(Clone, Copy, PartialEq, Eq, Debug)]
pub enum Punctuator {
    /// `[`
    BracketOpen,
    /// `]`
    BracketClose,
    /// `(`
    ParenOpen,
    /// `)`
    ParenClose,
    /// `{`
    BraceOpen,
    /// `}`
    BraceClose,
    /// `.`
    Dot,
    /// `->`
    Arrow,
    /// `++`
    PlusPlus,
    /// `--`
    MinusMinus,
    /// `&`
    Ampersand,
    /// `*`
    Star,
    /// `+`
    Plus,
    /// `-`
    Minus,
    /// `~`
    Tilde,
    /// `!`
    Bang,
    /// `/`
    Slash,
    /// `%`
    Percent,
    /// `<<`
    ShiftLeft,
    /// `>>`
    ShiftRight,
    /// `<`
    Less,
    /// `>`
    Greater,
    /// `<=`
    LessEqual,
    /// `>=`
    GreaterEqual,
    /// `==`
    EqualEqual,
    /// `!=`
    BangEqual,
    /// `^`
    Caret,
    /// `|`
    Bar,
    /// `&&`
    AndAnd,
    /// `||`
    BarBar,
    /// `?`
    Question,
    /// `:`
    Colon,
    /// `;`
    Semicolon,
    /// `...`
    Ellipsis,
    /// `=`
    Assign,
    /// `*=`
    StarAssign,
    /// `/=`
    SlashAssign,
    /// `%=`
    PercentAssign,
    /// `+=`
    PlusAssign,
    /// `-=`
    MinusAssign,
    /// `<<=`
    ShiftLeftAssign,
    /// `>>=`
    ShiftRightAssign,
    /// `&=`
    AmpersandAssign,
    /// `^=`
    CaretAssign,
    /// `|=`
    BarAssign,
    /// `,`
    Comma,
    /// `#`
    Hash,
    /// `##`
    HashHash,
}

/// The kind of a token, with its value.
#[derive(Clone, Copy, PartialEq, Eq, Debug)]
pub enum Kind {
    /// A keyword (6.4.1).
    Keyword(Keyword),
    /// An identifier that is no keyword (6.4.2), by its number in the `Names`.
    Identifier(usize),
    /// An integer or character constant (6.4.4), with its type and its value, which the type can represent.
    Constant(IntType, u32),
    /// A string literal (6.4.5), by the number that its bytes, the last of them zero, have in the `Names`.
    StringLiteral(usize),
    /// A punctuator (6.4.6).
    Punctuator(Punctuator),
}

/// A token, and the place of its first character; of joined string literals, that of the first.
#[derive(Clone, Copy, PartialEq, Eq, Debug)]
pub struct Token {
    /// The kind of the token.
    pub kind: Kind,
    /// The place of the token.
    pub pos: Pos,
}
