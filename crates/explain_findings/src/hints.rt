//! What to write in place of what the compiler leaves out, and the meaning of a code for its source.

/// The hint for a fault of this code at this token; empty where nothing is certain.
pub fn hint(code: u16, token: &[u8]) -> &'static str {
    match code {
        301 | 302 | 607 => literal_hint(code, token),
        501 =>
            "what is needed here is a constant: an enumerator, as in `enum { n = 3 };`, or a macro; a `const` object is none",
        511 =>
            "the integer types are _Bool, char, short, int and long, with `signed` or `unsigned`; `long long` is left out: write two unsigned ints",
        541 => "`case` and `default` stand in the block of a `switch`",
        542 => jump_hint(token),
        601 | 606 =>
            "floating types are left out: write integers that count thousandths, or 65536ths",
        602 => aggregate_hint(token),
        603 => "`goto` is left out: write a loop, or a function that is left by `return`",
        604 => "leave the word out: there is one thread, and no device to wait for",
        605 => "leave the word out, or write `static`",
        608 => "leave it out: write `#pragma`, or a string literal",
        609 =>
            "a constant has at most 32 bits, and in decimal without `u` at most 2147483647: write 3000000000u or 0x80000000",
        621 => "write the array first: a[0]",
        622 => "write a braced list for each row",
        623 => "write the label in the switch's own block",
        _ => whole_hint(code, token),
    }
}

/// The hint for a fault of the preprocessor, or one that is about the files of the command.
fn whole_hint(code: u16, token: &[u8]) -> &'static str {
    match code {
        111 => "end the last line of the file with a newline",
        211 => "no `)` closes the arguments of this macro",
        213 => "a call of a macro stands in one piece: its `(` is behind a directive, or missing",
        214 => "write the comma before the variable arguments also where there are none: F(1,)",
        231 => conditional_hint(token),
        232 => include_hint(token),
        233 => directive_hint(token),
        551 => "the program has no function `int main(void)` with a body",
        552 =>
            "a function that is called has its body in the one unit: FILES of the command are not compiled by themselves, they are what MAIN may include",
        _ => "",
    }
}

/// The hint where conditionals are not balanced.
fn conditional_hint(token: &[u8]) -> &'static str {
    match token {
        b"else" =>
            "each #else follows its #if, #ifdef or #ifndef in the same file, which has one #else",
        b"elif" =>
            "each #elif follows its #if, #ifdef or #ifndef in the same file, and goes before #else",
        b"endif" => "no #if, #ifdef or #ifndef of this file is open here",
        b"if" | b"ifdef" | b"ifndef" =>
            "each #if, #ifdef and #ifndef has its #endif in the same file",
        _ => "",
    }
}

/// The hint where a file is not found.
fn include_hint(token: &[u8]) -> &'static str {
    match token {
        b"<stdio.h>" | b"<stdlib.h>" | b"<string.h>" | b"<unistd.h>" =>
            "there is no C library: <rvio.h> declares rv_getbyte, rv_putbyte and rv_exit",
        b"<stdint.h>" | b"<stddef.h>" | b"<inttypes.h>" =>
            "there is no such header: char has 8 bits, short 16, int and long 32",
        [b'<', ..] =>
            "in angle brackets stands a built-in header: rvio.h, limits.h, stdbool.h or iso646.h; any other file is named in quotes",
        _ =>
            "what is included is one of FILES in the command, by the path as it stands there, or, with -I DIR, a file beside the including one or in DIR; or a built-in header: rvio.h, limits.h, stdbool.h, iso646.h",
    }
}

/// The hint where this directive is known, and what follows it is wrong, or where it is one of a later standard.
fn directive_hint(token: &[u8]) -> &'static str {
    match token {
        b"ifdef" | b"ifndef" | b"undef" => "one name follows it, that of a macro, and nothing else",
        b"else" | b"endif" => "nothing follows it: write what it belongs to in a comment",
        b"elifdef" => "C11 has no such directive: write `#elif defined NAME`",
        b"elifndef" => "C11 has no such directive: write `#elif !defined NAME`",
        _ => "",
    }
}

/// The hint for a token that is none, or for a literal.
fn literal_hint(code: u16, token: &[u8]) -> &'static str {
    match (code, token) {
        (301, b"\"") => "no `\"` closes this string literal in its line",
        (301, b"''") => "a character constant has one character between its quotes",
        (301, b"'") => "no `'` closes this character constant in its line",
        (301, [b'0', digits @ ..]) => number_hint(digits),
        (301, [first, ..]) if *first >= 0x80 => character_hint(token),
        (607, [b'\'', ..]) =>
            "a character constant has one character: write the bytes, each as a constant of its own",
        _ => "",
    }
}

/// The hint for a character of UTF-8 that is none of C's.
fn character_hint(character: &[u8]) -> &'static str {
    match character {
        [0xef, 0xbb, 0xbf] => "this is a byte order mark: save the file without it",
        [0xe2, 0x80, 0x9c..=0x9f] => "this is a curly quote: write \"",
        [0xe2, 0x80, 0x98..=0x9b] => "this is a curly quote: write '",
        [0xe2, 0x80, 0x90..=0x95] => "this is a dash: write -",
        [0xe2, 0x88, 0x92] => "this is a minus sign of mathematics: write -",
        [0xc2, 0xa0] | [0xe2, 0x80, 0x80..=0x8a] | [0xe2, 0x80, 0xaf] =>
            "this is a space of another kind: write a space",
        [0xe2, 0x80, 0x8b..=0x8d] => "this is a character without width: remove it",
        _ => "a name has the letters A to Z and a to z, digits and `_`",
    }
}

/// The hint for a number that is none, by what follows its leading 0.
fn number_hint(digits: &[u8]) -> &'static str {
    let Some(place) = digits.iter().position(|byte| !matches!(*byte, b'0'..=b'7')) else {
        return "";
    };
    match digits.get(place).copied() {
        Some(b'8' | b'9') => "digits that begin with 0 are octal: 0 to 7 alone",
        Some(b'b' | b'B') if place == 0 =>
            "C11 has no binary constants: write it in hexadecimal, as 0x5",
        _ => "",
    }
}

fn jump_hint(token: &[u8]) -> &'static str {
    match token {
        b"break" => "`break` leaves a loop or a `switch`; an `if` is neither",
        _ => "`continue` goes on with a loop",
    }
}

fn aggregate_hint(token: &[u8]) -> &'static str {
    match token {
        b"typedef" => "`typedef` is left out: write a macro, as `#define word int`",
        _ =>
            "structures and unions are left out: write an array for each field, with the record as index",
    }
}
