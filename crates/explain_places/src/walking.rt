//! The bytes of a source file, passed piece by piece (ISO/IEC 9899:2011 5.1.1.2, phases 1 to 3).

/// The bytes after the first `count`.
fn behind(bytes: &[u8], count: usize) -> &[u8] {
    match bytes.get(count..) {
        Some(rest) => rest,
        None => &[],
    }
}

/// The bytes after a text at the front.
fn past_text<'a>(bytes: &'a [u8], text: &[u8]) -> Option<&'a [u8]> {
    if bytes.starts_with(text) {
        Some(behind(bytes, text.len()))
    } else {
        None
    }
}

/// The bytes after a line splice at the front.
fn past_splice(bytes: &[u8]) -> Option<&[u8]> {
    let backslash = match past_text(bytes, b"??/") {
        Some(rest) => rest,
        None => past_text(bytes, b"\\")?,
    };
    match past_text(backslash, b"\r\n") {
        Some(rest) => Some(rest),
        None => past_text(backslash, b"\n"),
    }
}

/// The bytes after all line splices at the front.
fn past_splices(bytes: &[u8]) -> &[u8] {
    let mut rest = bytes;
    for _ in 0..bytes.len() {
        let Some(after) = past_splice(rest) else {
            break;
        };
        rest = after;
    }
    rest
}

/// The bytes after the comment whose opening has been passed: from its `*/` on, or none.
fn past_comment(bytes: &[u8]) -> &[u8] {
    match bytes.windows(2).position(|pair| matches!(pair, b"*/")) {
        Some(count) => behind(bytes, count.saturating_add(2)),
        None => &[],
    }
}

/// The bytes from the end of the line on, where splices carry the line on.
fn past_line(bytes: &[u8]) -> &[u8] {
    let mut rest = bytes;
    for _ in 0..bytes.len() {
        if rest.is_empty() || rest.starts_with(b"\n") {
            break;
        }
        rest = match past_splice(rest) {
            Some(after) => after,
            None => behind(rest, 1),
        };
    }
    rest
}

/// The bytes after the white space, the comment or the splice at the front.
fn past_piece(bytes: &[u8]) -> Option<&[u8]> {
    match bytes.first()? {
        b' ' | b'\t' | b'\n' | b'\r' | 0x0b | 0x0c => Some(behind(bytes, 1)),
        b'/' => match past_text(bytes, b"/*") {
            Some(body) => Some(past_comment(body)),
            None => Some(past_line(past_text(bytes, b"//")?)),
        },
        _ => past_splice(bytes),
    }
}

/// The bytes after all that precedes a token.
pub fn past_gap(bytes: &[u8]) -> &[u8] {
    let mut rest = bytes;
    for _ in 0..bytes.len() {
        let Some(after) = past_piece(rest) else {
            break;
        };
        rest = after;
    }
    rest
}

/// The bytes after this character, which may be written as a trigraph.
fn past_character(bytes: &[u8], character: u8) -> Option<&[u8]> {
    if bytes.first() == Some(&character) {
        return Some(behind(bytes, 1));
    }
    let trigraph: &[u8] = match character {
        b'#' => b"??=",
        b'[' => b"??(",
        b'\\' => b"??/",
        b']' => b"??)",
        b'^' => b"??'",
        b'{' => b"??<",
        b'|' => b"??!",
        b'}' => b"??>",
        b'~' => b"??-",
        _ => return None,
    };
    past_text(bytes, trigraph)
}

/// The bytes after a token of this spelling, which may have splices and trigraphs in it.
pub fn past_spelling<'a>(bytes: &'a [u8], spelling: &[u8]) -> Option<&'a [u8]> {
    if let Some(rest) = past_text(bytes, spelling) {
        return Some(rest);
    }
    let mut rest = bytes;
    for character in spelling {
        rest = past_character(past_splices(rest), *character)?;
    }
    Some(rest)
}
