//! Which warnings are enabled.

use crate::kinds::Kind;

/// Whether a list of words, with commas between, enables a kind. `all` and `none` apply to every kind, the name of a kind to this one; the last word that
/// applies to the kind counts.
pub fn selects(words: &str, kind: Kind) -> bool {
    let mut is_on = false;
    for word in words.split(',') {
        if word == "all" || word == kind.name() {
            is_on = true;
        } else if word == "none" {
            is_on = false;
        }
    }
    is_on
}

/// Whether a word of the list is neither `all` nor `none` nor the name of a kind.
pub fn unknown_word(words: &str) -> bool {
    for word in words.split(',') {
        if !is_known(word) {
            return true;
        }
    }
    false
}

/// Whether a word is one that a list may have.
fn is_known(word: &str) -> bool {
    if word == "all" || word == "none" {
        return true;
    }
    for kind in Kind::all() {
        if word == kind.name() {
            return true;
        }
    }
    false
}
