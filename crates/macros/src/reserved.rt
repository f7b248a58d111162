//! Names that no macro and no parameter may have (ISO/IEC 9899:2011 6.10.8p4, 6.10.3p5).
ghost use Rattle.std.specs.Prelude.{◌≡◌};
ghost use Rattle.std.specs.Str.{bytes_eq};
ghost use Rattle.macros.specs.Macro.{is_predefined, is_reserved};

// Whether two texts are the same.
#[inline(always)]
pub(crate) fn is_text(spelling: &[u8], text: &[u8]) -> bool
    ensures { result ≡ bytes_eq spelling.now text.now }
{
    spelling == text
}

/// Whether it is one of the predefined names of 6.10.8.1 to 6.10.8.3 that this compiler has.
pub fn is_predefined(spelling: &[u8]) -> bool
    ensures { result ≡ is_predefined spelling.now }
{
    is_text(spelling, b"__DATE__")
        || is_text(spelling, b"__FILE__")
        || is_text(spelling, b"__LINE__")
        || is_text(spelling, b"__STDC__")
        || is_text(spelling, b"__STDC_HOSTED__")
        || is_text(spelling, b"__STDC_VERSION__")
        || is_text(spelling, b"__TIME__")
        || is_text(spelling, b"__STDC_NO_ATOMICS__")
        || is_text(spelling, b"__STDC_NO_COMPLEX__")
        || is_text(spelling, b"__STDC_NO_THREADS__")
        || is_text(spelling, b"__STDC_NO_VLA__")
}

/// Whether no macro and no parameter may have this name.
pub fn is_reserved(spelling: &[u8]) -> bool
    ensures { result ≡ is_reserved spelling.now }
{
    is_predefined(spelling) || is_text(spelling, b"defined") || is_text(spelling, b"__VA_ARGS__")
}
