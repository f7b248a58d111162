//! The directives of a file.

use lsp_names::{Class, Index, Word};

/// How many tokens the directive has that begins with this token.
pub(crate) fn line_length(words: &[Word], first: usize) -> usize {
    let rest = words.get(first.saturating_add(1)..).unwrap_or_default();
    match rest.iter().position(|word| word.is_first) {
        Some(count) => count.saturating_add(1),
        None => words.len().saturating_sub(first),
    }
}

/// Whether the directive that begins with this token has this name.
pub(crate) fn is_directive(index: &Index, words: &[Word], first: usize, name: &str) -> bool {
    let (Some(hash), Some(word)) = (words.get(first), words.get(first.saturating_add(1))) else {
        return false;
    };
    hash.is_first && hash.class == Class::Hash && index.spelling(word.name) == name
}
