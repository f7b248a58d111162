//! Five classes of bytes, by one table.
ghost use Rattle.std.specs.Prelude.{◌≡◌};
ghost use Rattle.phases.specs.inside.Lexical.{is_letter, is_single, is_white, is_word};
ghost use Rattle.phases.specs.inside.Runs.{is_sure};

// It continues a word.
const WORD: u8 = 1;

// It begins a name.
const LETTER: u8 = 2;

// It is white space on a line.
const WHITE: u8 = 4;

// It is a punctuator alone.
const SINGLE: u8 = 8;

// A trigraph, a splice or a line's end of two bytes may begin with it.
const UNSURE: u8 = 16;

// For each byte the sum of the flags above.
#[rattlefmt::skip]
static CLASSES: [u8; 256] = [
    0, 0, 0, 0, 0, 0, 0, 0, 0, 4, 0, 4, 4, 16, 0, 0,
    0, 0, 0, 0, 0, 0, 0, 0, 0, 0, 0, 0, 0, 0, 0, 0,
    4, 8, 0, 8, 0, 8, 8, 0, 8, 8, 8, 8, 8, 8, 8, 8,
    1, 1, 1, 1, 1, 1, 1, 1, 1, 1, 8, 8, 8, 8, 8, 24,
    0, 3, 3, 3, 3, 3, 3, 3, 3, 3, 3, 3, 3, 3, 3, 3,
    3, 3, 3, 3, 3, 3, 3, 3, 3, 3, 3, 8, 16, 8, 8, 3,
    0, 3, 3, 3, 3, 3, 3, 3, 3, 3, 3, 3, 3, 3, 3, 3,
    3, 3, 3, 3, 3, 3, 3, 3, 3, 3, 3, 8, 8, 8, 8, 0,
    0, 0, 0, 0, 0, 0, 0, 0, 0, 0, 0, 0, 0, 0, 0, 0,
    0, 0, 0, 0, 0, 0, 0, 0, 0, 0, 0, 0, 0, 0, 0, 0,
    0, 0, 0, 0, 0, 0, 0, 0, 0, 0, 0, 0, 0, 0, 0, 0,
    0, 0, 0, 0, 0, 0, 0, 0, 0, 0, 0, 0, 0, 0, 0, 0,
    0, 0, 0, 0, 0, 0, 0, 0, 0, 0, 0, 0, 0, 0, 0, 0,
    0, 0, 0, 0, 0, 0, 0, 0, 0, 0, 0, 0, 0, 0, 0, 0,
    0, 0, 0, 0, 0, 0, 0, 0, 0, 0, 0, 0, 0, 0, 0, 0,
    0, 0, 0, 0, 0, 0, 0, 0, 0, 0, 0, 0, 0, 0, 0, 0,
];

/// A letter, a digit or an underscore.
#[inline(always)]
pub(crate) fn is_word(byte: u8) -> bool
    ensures { result ≡ is_word byte }
{
    CLASSES[byte as usize] & WORD != 0
}

/// A letter or an underscore.
#[inline(always)]
pub(crate) fn is_letter(byte: u8) -> bool
    ensures { result ≡ is_letter byte }
{
    CLASSES[byte as usize] & LETTER != 0
}

/// Space, tab, vertical tab or form feed.
#[inline(always)]
pub(crate) fn is_white(byte: u8) -> bool
    ensures { result ≡ is_white byte }
{
    CLASSES[byte as usize] & WHITE != 0
}

/// The punctuators of one character.
#[inline(always)]
pub(crate) fn is_single(byte: u8) -> bool
    ensures { result ≡ is_single byte }
{
    CLASSES[byte as usize] & SINGLE != 0
}

/// Whether the byte is the first character of each text that begins with it.
#[inline(always)]
pub(crate) fn is_sure(byte: u8) -> bool
    ensures { result ≡ is_sure byte }
{
    CLASSES[byte as usize] & UNSURE == 0
}
