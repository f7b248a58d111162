//! Labels of a `switch` (ISO/IEC 9899:2011 6.8.1).

use source_words::Words;

/// How many tokens a constant has at most that is compared.
const MAX_TOKENS: usize = 16;

/// The number of the nearest `case` or `default` before this one in its `switch` that is spelled alike up to its colon.
pub fn same_label_before(words: &Words<'_>, label: usize) -> Option<usize> {
    let mut depth: usize = 0;
    for place in (0..label).rev() {
        match words.at(place) {
            b"}" => {
                depth = depth.saturating_add(1);
            }
            b"{" => depth = depth.checked_sub(1)?,
            b"case" | b"default" if depth == 0 && is_same(words, place, label) => {
                return Some(place);
            }
            _ => {}
        }
    }
    None
}

/// Whether two labels are spelled alike.
fn is_same(words: &Words<'_>, one: usize, other: usize) -> bool {
    for count in 0..MAX_TOKENS {
        let token = words.at(one.saturating_add(count));
        if token != words.at(other.saturating_add(count)) {
            return false;
        }
        if matches!(token, b":") {
            return true;
        }
    }
    false
}
