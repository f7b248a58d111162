//! The roles of tokens in a macro's body.

use phases::{Kind, PpToken};

/// Whether a spelling is that of an operator between two operands that binds tighter than an assignment.
pub(crate) fn is_operator(spelling: &[u8]) -> bool {
    is_arithmetic(spelling) || is_comparison(spelling) || is_logical(spelling)
}

fn is_arithmetic(spelling: &[u8]) -> bool {
    matches!(spelling, b"*" | b"/" | b"%" | b"+" | b"-" | b"<<" | b">>")
}

fn is_comparison(spelling: &[u8]) -> bool {
    matches!(spelling, b"<" | b">" | b"<=" | b">=" | b"==" | b"!=")
}

fn is_logical(spelling: &[u8]) -> bool {
    matches!(spelling, b"&" | b"^" | b"|" | b"&&" | b"||" | b"?")
}

/// Whether it is a prefix operator.
pub(crate) fn is_sign(spelling: &[u8]) -> bool {
    matches!(spelling, b"!" | b"~")
}

/// Whether it is a word of a type.
pub(crate) fn is_type_word(spelling: &[u8]) -> bool {
    matches!(spelling, b"int" | b"char" | b"short" | b"long" | b"signed")
        || matches!(
            spelling,
            b"unsigned" | b"_Bool" | b"bool" | b"void" | b"const"
        )
}

/// Whether it begins or ends a statement, assigns, or separates the items of a list: the body is then no expression.
pub(crate) fn is_of_statement(spelling: &[u8]) -> bool {
    matches!(
        spelling,
        b";" | b"{" | b"}" | b"," | b"return" | b"if" | b"else"
    ) || matches!(
        spelling,
        b"for" | b"while" | b"do" | b"switch" | b"case" | b"default"
    ) || matches!(spelling, b"break" | b"continue" | b"static" | b"enum")
        || is_type_word(spelling)
        || is_assignment(spelling)
}

/// Whether it is an assignment.
pub(crate) fn is_assignment(spelling: &[u8]) -> bool {
    matches!(spelling, b"=" | b"+=" | b"-=" | b"*=" | b"/=" | b"%=")
        || matches!(spelling, b"<<=" | b">>=" | b"&=" | b"^=" | b"|=")
}

/// Whether an operand may end with a token.
pub(crate) fn ends_operand(token: &PpToken<'_>) -> bool {
    match token.kind() {
        Kind::Identifier | Kind::Number | Kind::CharacterConstant | Kind::StringLiteral => true,
        Kind::Punctuator => matches!(token.spelling(), b")" | b"]"),
        Kind::HeaderName | Kind::Other => false,
    }
}
