//! Comments before labels.

use explain_places::Tokens;

/// Whether a comment directly before the token with this number says that the statements before it fall through: it contains the letters `fall`, in either
/// case.
pub fn falls_by_comment(bytes: &[u8], tokens: &Tokens<'_>, number: usize) -> bool {
    let Some(spot) = tokens.spot(number) else {
        return false;
    };
    let before = match number.checked_sub(1) {
        Some(last) => match tokens.spot(last) {
            Some(last) => last.end,
            None => 0,
        },
        None => 0,
    };
    let gap = bytes.get(before..spot.start).unwrap_or_default();
    gap.windows(4).any(is_fall)
}

fn is_fall(letters: &[u8]) -> bool {
    matches!(
        letters,
        [b'f' | b'F', b'a' | b'A', b'l' | b'L', b'l' | b'L']
    )
}

/// The number of the first token on a line that begins a label.
pub fn label_on(tokens: &Tokens<'_>, line: u32) -> Option<usize> {
    for number in first_on(tokens, line)..tokens.spots.len() {
        match tokens.spot(number) {
            Some(spot) if spot.line == line => {}
            _ => return None,
        }
        if matches!(tokens.spelling(number), b"case" | b"default") {
            return Some(number);
        }
    }
    None
}

/// The number of the first token that is on no line before this one; their lines do not fall.
fn first_on(tokens: &Tokens<'_>, line: u32) -> usize {
    let mut low = 0;
    let mut high = tokens.spots.len();
    for _ in 0..64 {
        if low >= high {
            break;
        }
        let middle = low + (high - low) / 2;
        let is_before = match tokens.spot(middle) {
            Some(spot) => spot.line < line,
            None => false,
        };
        if is_before {
            low = middle.saturating_add(1);
        } else {
            high = middle;
        }
    }
    low
}
