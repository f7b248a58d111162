//! Hexadecimal digits.

ghost use Rattle.std.specs.Prelude.{◌≡◌, ◌<◌, ◌+◌, ◌-◌, ◌*◌, ◌/◌, ◌%◌, ◌^◌, OnOk, OnErr, ◌++◌};
ghost use Rattle.asm.specs.Listing.{hex, digit};

use std::alloc::AllocError;

fn digit_of(value: u32) -> u8
    requires { value < 16 }
    ensures { result ≡ digit value }
{
    let low = value as u8;
    if low < 10 {
        b'0' + low
    } else {
        b'A' - 10 + low
    }
}

/// Appends the eight hexadecimal digits of a word to `bytes`, the highest first, in capitals.
pub fn put_hex(bytes: &mut Vec<u8>, word: u32) -> Result<(), AllocError>
    ensures { OnOk result (bytes.new.items ≡ bytes.old.items ++ hex word) }
{
    let digits = [
        digit_of(word / 0x1000_0000),
        digit_of(word / 0x100_0000 % 0x10),
        digit_of(word / 0x10_0000 % 0x10),
        digit_of(word / 0x1_0000 % 0x10),
        digit_of(word / 0x1000 % 0x10),
        digit_of(word / 0x100 % 0x10),
        digit_of(word / 0x10 % 0x10),
        digit_of(word % 0x10),
    ];
    bytes.extend_from_slice(&digits)
}
