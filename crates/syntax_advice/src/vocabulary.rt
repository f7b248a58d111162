//! The words of C (ISO/IEC 9899:2011 6.4.1).

/// Whether a token is a word of letters: an identifier or a keyword.
pub fn is_word(token: &[u8]) -> bool {
    match token.first() {
        Some(letter) => letter.is_ascii_alphabetic() || *letter == b'_',
        None => false,
    }
}

/// Whether a token is a word that is no keyword.
pub fn is_identifier(token: &[u8]) -> bool {
    is_word(token) && !is_keyword(token)
}

/// Whether a token is a keyword.
pub fn is_keyword(token: &[u8]) -> bool {
    is_type_word(token) || is_statement_word(token) || is_left_out_word(token)
}

/// Whether a token can begin a declaration.
pub fn is_type_word(token: &[u8]) -> bool {
    matches!(
        token,
        b"int"
            | b"char"
            | b"unsigned"
            | b"signed"
            | b"short"
            | b"long"
            | b"_Bool"
            | b"void"
            | b"const"
            | b"static"
            | b"extern"
            | b"enum"
    )
}

fn is_statement_word(token: &[u8]) -> bool {
    matches!(
        token,
        b"return"
            | b"else"
            | b"do"
            | b"case"
            | b"default"
            | b"if"
            | b"while"
            | b"for"
            | b"switch"
            | b"break"
            | b"continue"
            | b"sizeof"
            | b"_Static_assert"
    )
}

/// Whether a token is a keyword that the compiler leaves out, each with a fault of its own.
fn is_left_out_word(token: &[u8]) -> bool {
    matches!(
        token,
        b"auto"
            | b"double"
            | b"float"
            | b"goto"
            | b"inline"
            | b"register"
            | b"restrict"
            | b"struct"
            | b"typedef"
            | b"union"
            | b"volatile"
    )
}

/// Whether a statement, a declaration or a parameter can begin after this token, which is empty at the start of a file.
pub fn is_front(before: &[u8]) -> bool {
    matches!(
        before,
        b"" | b";"
            | b"{"
            | b"}"
            | b"("
            | b")"
            | b","
            | b":"
            | b"else"
            | b"do"
            | b"const"
            | b"static"
            | b"extern"
    )
}

/// Whether a token begins a statement whose head is in parentheses.
pub fn has_head(token: &[u8]) -> bool {
    matches!(token, b"if" | b"while" | b"for" | b"switch")
}
