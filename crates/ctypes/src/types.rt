//! Integer types, their ranges and the conversions between them.

ghost use Rattle.std.specs.Prelude.{◌≡◌, ◌↔◌, IsTrue};
ghost use Rattle.ctypes.specs.Types.{bytes_of, bits_of, signed, least, greatest, rank_of, IsValueOf, is_value_of, promoted, usual_of, modulo, converted};

/// An integer type without its qualifiers (6.2.5). An enumerated type is `Int`, this profile's
/// choice (6.7.2.2p4).
#[derive(Clone, Copy, PartialEq, Eq, Debug)]
pub enum IntType {
    /// `_Bool`
    Bool,
    /// `char`, which is unsigned, this profile's choice (6.2.5p15)
    Char,
    /// `signed char`
    SChar,
    /// `unsigned char`
    UChar,
    /// `short`
    Short,
    /// `unsigned short`
    UShort,
    /// `int`
    Int,
    /// `unsigned int`
    UInt,
    /// `long`
    Long,
    /// `unsigned long`
    ULong,
}

impl IntType {
    /// Whether it is a signed type (6.2.5p4).
    #[inline(always)]
    pub fn is_signed(self) -> bool
        ensures { result ≡ signed self }
    {
        match self {
            IntType::Bool | IntType::Char | IntType::UChar => false,
            IntType::UShort | IntType::UInt | IntType::ULong => false,
            IntType::SChar | IntType::Short | IntType::Int | IntType::Long => true,
        }
    }

    /// The bits of a value, the sign's included (6.2.6.2p6): 1, 8, 16 or 32.
    pub fn width(self) -> u32
        ensures { result ≡ bits_of self }
    {
        match self {
            IntType::Bool => 1,
            IntType::Char | IntType::SChar | IntType::UChar => 8,
            IntType::Short | IntType::UShort => 16,
            IntType::Int | IntType::UInt | IntType::Long | IntType::ULong => 32,
        }
    }

    /// The least value.
    #[inline(always)]
    pub fn min(self) -> i64
        ensures { result ≡ least self }
    {
        match self {
            IntType::Bool | IntType::Char | IntType::UChar => 0,
            IntType::UShort | IntType::UInt | IntType::ULong => 0,
            IntType::SChar => -0x80,
            IntType::Short => -0x8000,
            IntType::Int | IntType::Long => -0x8000_0000,
        }
    }

    /// The greatest value.
    #[inline(always)]
    pub fn max(self) -> i64
        ensures { result ≡ greatest self }
    {
        match self {
            IntType::Bool => 1,
            IntType::Char | IntType::UChar => 0xff,
            IntType::SChar => 0x7f,
            IntType::Short => 0x7fff,
            IntType::UShort => 0xffff,
            IntType::Int | IntType::Long => 0x7fff_ffff,
            IntType::UInt | IntType::ULong => 0xffff_ffff,
        }
    }

    /// Whether `value` is one of its values.
    #[inline(always)]
    pub fn contains(self, value: i64) -> bool
        ensures test { result ≡ is_value_of self value }
        ensures fact { IsTrue result ↔ IsValueOf self value }
    {
        self.min() <= value && value <= self.max()
    }

    /// The rank of its conversion (6.3.1.1p1), as a number from 0 (`_Bool`) to 4 (`long`).
    pub fn rank(self) -> u8
        ensures { result ≡ rank_of self }
    {
        match self {
            IntType::Bool => 0,
            IntType::Char | IntType::SChar | IntType::UChar => 1,
            IntType::Short | IntType::UShort => 2,
            IntType::Int | IntType::UInt => 3,
            IntType::Long | IntType::ULong => 4,
        }
    }
}

/// The bytes of an object of the type, as `sizeof` gives them (6.5.3.4): 1, 2 or 4.
pub fn size_of(ty: IntType) -> u32
    ensures { result ≡ bytes_of ty }
{
    match ty {
        IntType::Bool | IntType::Char | IntType::SChar | IntType::UChar => 1,
        IntType::Short | IntType::UShort => 2,
        IntType::Int | IntType::UInt | IntType::Long | IntType::ULong => 4,
    }
}

/// The integer promotions (6.3.1.1p2): `Int` for each type below it, else the type itself.
pub fn promote(ty: IntType) -> IntType
    ensures { result ≡ promoted ty }
{
    match ty {
        IntType::Bool | IntType::Char | IntType::SChar | IntType::UChar => IntType::Int,
        IntType::Short | IntType::UShort | IntType::Int => IntType::Int,
        IntType::UInt => IntType::UInt,
        IntType::Long => IntType::Long,
        IntType::ULong => IntType::ULong,
    }
}

fn usual_with_unsigned_int(other: IntType) -> IntType
    ensures { result ≡ usual_of IntType.UInt other }
{
    match promote(other) {
        IntType::Long | IntType::ULong => IntType::ULong,
        _ => IntType::UInt,
    }
}

fn usual_with_long(other: IntType) -> IntType
    ensures { result ≡ usual_of IntType.Long other }
{
    match promote(other) {
        IntType::UInt | IntType::ULong => IntType::ULong,
        _ => IntType::Long,
    }
}

/// The common type of the usual arithmetic conversions (6.3.1.8p1). Both types are promoted first.
pub fn usual(a: IntType, b: IntType) -> IntType
    ensures { result ≡ usual_of a b }
{
    match promote(a) {
        IntType::UInt => usual_with_unsigned_int(b),
        IntType::Long => usual_with_long(b),
        IntType::ULong => IntType::ULong,
        _ => promote(b),
    }
}

/// Whether the types are compatible (6.2.7p1): two integer types are where they are the same.
pub fn compatible(a: IntType, b: IntType) -> bool
    ensures { IsTrue result ↔ (a ≡ b) }
{
    a == b
}

#[inline(always)]
fn low_byte(value: i64) -> u8
    ensures { result ≡ modulo 8 value }
{
    (value.cast_unsigned() % 0x100) as u8
}

#[inline(always)]
fn low_half(value: i64) -> u16
    ensures { result ≡ modulo 16 value }
{
    (value.cast_unsigned() % 0x1_0000) as u16
}

/// The low 32 bits of the number in two's complement.
#[inline(always)]
pub(crate) fn low_word(value: i64) -> u32
    ensures { result ≡ modulo 32 value }
{
    (value.cast_unsigned() % 0x1_0000_0000) as u32
}

/// The value converted to a type (6.3.1.2, 6.3.1.3): to `_Bool` 0 or 1, to an unsigned type modulo,
/// to a signed type the value of that type that is equal to it modulo two to the width, this
/// profile's choice.
#[inline(always)]
pub fn convert(to: IntType, value: i64) -> i64
    ensures value { result ≡ converted to value }
    ensures range { IsValueOf to result }
{
    match to {
        IntType::Bool => i64::from(value != 0),
        IntType::Char | IntType::UChar => i64::from(low_byte(value)),
        IntType::SChar => i64::from(low_byte(value).cast_signed()),
        IntType::UShort => i64::from(low_half(value)),
        IntType::Short => i64::from(low_half(value).cast_signed()),
        IntType::UInt | IntType::ULong => i64::from(low_word(value)),
        IntType::Int | IntType::Long => i64::from(low_word(value).cast_signed()),
    }
}
