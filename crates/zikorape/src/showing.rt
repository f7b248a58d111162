//! A form of a program between the compiler's phases, as JSON.

use crate::giving::{Sizes, hand_fault, hand_out};
use cc::StackSize;
use forms::{Form, Style, show};
use srcset::FileSet;
use std::alloc::Global;

/// The form with this number.
pub fn form_of(number: u32) -> Option<Form> {
    match number {
        0 => Some(Form::Tokens),
        1 => Some(Form::Tree),
        2 => Some(Form::Typed),
        3 => Some(Form::Tac),
        4 => Some(Form::Flat),
        5 => Some(Form::Items),
        6 => Some(Form::Passes),
        _ => None,
    }
}

/// A form of the program in the file `main` of the set.
pub fn show_form(
    alloc: Global,
    set: &FileSet,
    main: &str,
    form: Form,
    out: &mut [u8],
    message: &mut [u8],
    sizes: &mut Sizes,
) -> u32 {
    match show(alloc, set, main, StackSize::usual(), form, Style::Json) {
        Ok(text) => {
            hand_out(text.as_bytes(), b"", out, message, sizes);
            0
        }
        Err(fault) => {
            hand_fault(alloc, &fault, out, message, sizes);
            1
        }
    }
}
