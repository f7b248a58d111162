//! Lines and columns.

/// The column of the byte after the first `start`, counted in bytes from 1.
pub fn column(bytes: &[u8], start: usize) -> usize {
    let Some(before) = bytes.get(..start) else {
        return 1;
    };
    match before.iter().rposition(|byte| *byte == b'\n') {
        Some(newline) => start.saturating_sub(newline),
        None => start.saturating_add(1),
    }
}

/// The bytes of the line with this number, counted from 1, without its end; empty where there is none.
pub fn source_line(bytes: &[u8], line: u32) -> &[u8] {
    let mut rest = bytes;
    for _ in 1..line {
        match rest.iter().position(|byte| *byte == b'\n') {
            Some(newline) => rest = rest.get(newline.saturating_add(1)..).unwrap_or_default(),
            None => return &[],
        }
    }
    first_line(rest)
}

/// The bytes up to the end of their first line.
fn first_line(bytes: &[u8]) -> &[u8] {
    let line = match bytes.iter().position(|byte| *byte == b'\n') {
        Some(newline) => bytes.get(..newline).unwrap_or_default(),
        None => bytes,
    };
    match line.strip_suffix(b"\r") {
        Some(line) => line,
        None => line,
    }
}
