//! Types for debuggers.

use crate::debug_bytes::{low_word, put_number, put_text, put_word};
use crate::debug_entries::{ARRAY_TYPE, BASE_TYPE, CONST_TYPE, POINTER_TYPE, SUBRANGE};
use crate::variables::VariableType;
use ctypes::{IntType, size_of};
use std::alloc::{AllocError, Global};

/// The integer types, in the order of their entries.
const BASES: [IntType; 10] = [
    IntType::Bool,
    IntType::Char,
    IntType::SChar,
    IntType::UChar,
    IntType::Short,
    IntType::UShort,
    IntType::Int,
    IntType::UInt,
    IntType::Long,
    IntType::ULong,
];

/// The entries of types, and where they are in the unit.
#[derive(Drop)]
pub(crate) struct Types {
    pub(crate) entries: Vec<u8>,
    /// The number of bytes of the unit before them.
    before: usize,
    /// Where the entries of the integer types are.
    bases: Vec<u32>,
}

/// The name of an integer type, and its encoding (DWARF 2, 7.8).
fn base_of(element: IntType) -> (&'static str, u8) {
    match element {
        IntType::Bool => ("_Bool", 2),
        IntType::Char => ("char", 8),
        IntType::SChar => ("signed char", 6),
        IntType::UChar => ("unsigned char", 8),
        IntType::Short => ("short", 5),
        IntType::UShort => ("unsigned short", 7),
        IntType::Int => ("int", 5),
        IntType::UInt => ("unsigned int", 7),
        IntType::Long => ("long", 5),
        IntType::ULong => ("unsigned long", 7),
    }
}

/// Its number in `BASES`.
fn base_number(element: IntType) -> usize {
    match element {
        IntType::Bool => 0,
        IntType::Char => 1,
        IntType::SChar => 2,
        IntType::UChar => 3,
        IntType::Short => 4,
        IntType::UShort => 5,
        IntType::Int => 6,
        IntType::UInt => 7,
        IntType::Long => 8,
        IntType::ULong => 9,
    }
}

impl Types {
    /// The entries of the integer types, after `before` bytes of the unit.
    pub(crate) fn new(alloc: Global, before: usize) -> Result<Types, AllocError> {
        let mut types = Types {
            entries: Vec::new(alloc),
            before,
            bases: Vec::new(alloc),
        };
        for element in BASES {
            let place = types.place();
            types.bases.push(place)?;
            types.put_base(element)?;
        }
        Ok(types)
    }

    /// Where the next entry is in the unit.
    fn place(&self) -> u32 {
        low_word(self.before.saturating_add(self.entries.len()))
    }

    fn put_base(&mut self, element: IntType) -> Result<(), AllocError> {
        let (name, encoding) = base_of(element);
        self.entries.push(BASE_TYPE)?;
        put_text(&mut self.entries, name)?;
        self.entries.push(encoding)?;
        self.entries.push((size_of(element) % 0x100) as u8)?;
        Ok(())
    }

    /// Where the entry of an integer type is.
    pub(crate) fn base(&self, element: IntType) -> u32 {
        self.bases.get(base_number(element)).copied().unwrap_or(0)
    }

    /// The offset of a type's entry, which is added where it is no integer type.
    pub(crate) fn place_of(&mut self, shown: &VariableType) -> Result<u32, AllocError> {
        let mut place = self.base(shown.element);
        if shown.is_const {
            place = self.put_over(&[CONST_TYPE], place)?;
        }
        if !shown.lengths.is_empty() {
            place = self.put_array(shown.lengths.as_slice(), place)?;
        }
        if shown.is_reference {
            place = self.put_over(&[POINTER_TYPE, 4], place)?;
        }
        Ok(place)
    }

    /// Appends an entry with these first bytes, whose last attribute is the type at a place.
    fn put_over(&mut self, first: &[u8], place: u32) -> Result<u32, AllocError> {
        let here = self.place();
        self.entries.extend_from_slice(first)?;
        put_word(&mut self.entries, place)?;
        Ok(here)
    }

    /// Appends an array of the type at a place.
    fn put_array(&mut self, lengths: &[u32], place: u32) -> Result<u32, AllocError> {
        let here = self.put_over(&[ARRAY_TYPE], place)?;
        for length in lengths {
            self.entries.push(SUBRANGE)?;
            put_number(&mut self.entries, length.wrapping_sub(1))?;
        }
        self.entries.push(0)?;
        Ok(here)
    }
}
