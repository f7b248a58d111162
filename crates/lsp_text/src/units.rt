//! How many units of a position's encoding each byte of UTF-8 counts for.

ghost use Rattle.std.specs.Prelude.{◌≤◌, length};

/// The units in which the protocol counts the characters of a line.
#[derive(Clone, Copy, Debug, PartialEq, Eq)]
pub enum Encoding {
    /// Bytes of UTF-8.
    Utf8,
    /// Code units of UTF-16, which every client has.
    Utf16,
}

impl Encoding {
    /// The name of this encoding in the protocol.
    pub fn name(self) -> &'static str {
        match self {
            Encoding::Utf8 => "utf-8",
            Encoding::Utf16 => "utf-16",
        }
    }
}

/// The units of the code point that begins with this byte; 0 for a byte inside of one.
pub(crate) fn width(byte: u8, encoding: Encoding) -> u32
    ensures { result ≤ 4 }
{
    match byte {
        0..=0x7f => 1,
        0x80..=0xbf => 0,
        _ => wide(byte, encoding),
    }
}

/// The units of a code point of several bytes.
fn wide(byte: u8, encoding: Encoding) -> u32
    ensures { result ≤ 4 }
{
    match encoding {
        Encoding::Utf16 => if byte < 0xf0 { 1 } else { 2 },
        Encoding::Utf8 => length_of(byte),
    }
}

/// The bytes of the code point that begins with this byte.
fn length_of(byte: u8) -> u32
    ensures { result ≤ 4 }
{
    match byte {
        0..=0xdf => 2,
        0xe0..=0xef => 3,
        _ => 4,
    }
}

/// Counts the units of a row's bytes.
pub(crate) fn units_of(row: &[u8], encoding: Encoding) -> u32 {
    let mut count: u32 = 0;
    for byte in row {
        count = count.saturating_add(width(*byte, encoding));
    }
    count
}

/// Returns how many bytes of a row precede the code point at `units` units. A count inside of a code point means its beginning, and one past the row its end.
pub(crate) fn bytes_before(row: &[u8], units: u32, encoding: Encoding) -> usize
    ensures { result ≤ length row.now }
{
    let mut left = units;
    for (at, byte) in row.iter().enumerate() {
        let width = width(*byte, encoding);
        if width > left {
            return at;
        }
        left = left.saturating_sub(width);
    }
    row.len()
}
