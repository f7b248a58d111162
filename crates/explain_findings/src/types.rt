//! The type that a declaration begins with, by its words.

use declaration_places::{is_identifier, is_type_word};
use source_words::Words;

/// An integer type.
#[derive(Clone, Copy, Debug, PartialEq, Eq)]
pub struct ElementType {
    base: Base,
    is_unsigned: bool,
    is_signed: bool,
}

#[derive(Clone, Copy, Debug, PartialEq, Eq)]
enum Base {
    Bool,
    Char,
    Short,
    Int,
    Long,
}

/// The integer type of the declaration whose first token has this number; `None` where a name may stand for a part of it.
pub fn element_type(words: &Words<'_>, front: usize) -> Option<ElementType> {
    let mut found = ElementType {
        base: Base::Int,
        is_unsigned: false,
        is_signed: false,
    };
    for number in front..words.list.len() {
        let token = words.at(number);
        if !is_type_word(token) {
            if number > front && is_declarator(words, number) {
                return Some(found);
            }
            return None;
        }
        found = with_word(found, token)?;
    }
    None
}

/// The type with one more of its words; `None` where it is no integer type of keywords alone.
fn with_word(found: ElementType, token: &[u8]) -> Option<ElementType> {
    let base = match token {
        b"_Bool" => Base::Bool,
        b"char" => Base::Char,
        b"short" => Base::Short,
        b"long" => Base::Long,
        b"enum" | b"void" => return None,
        _ => found.base,
    };
    Some(ElementType {
        base,
        is_unsigned: found.is_unsigned || matches!(token, b"unsigned"),
        is_signed: found.is_signed || matches!(token, b"signed"),
    })
}

/// Whether the token with this number is the name of an object that is declared.
fn is_declarator(words: &Words<'_>, number: usize) -> bool {
    is_identifier(words.at(number))
        && matches!(
            words.at(number.saturating_add(1)),
            b"[" | b"," | b";" | b"=" | b")"
        )
}

/// Whether two types are one: `signed` tells only a char from another.
pub fn is_of_one_type(one: ElementType, other: ElementType) -> bool {
    one.base == other.base
        && one.is_unsigned == other.is_unsigned
        && (one.base != Base::Char || one.is_signed == other.is_signed)
}
