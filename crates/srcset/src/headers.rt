//! The built-in headers.
ghost use Rattle.std.specs.Prelude.{◌≡◌, ◌≤◌, length, IfSome};
ghost use Rattle.std.specs.Option.{option_copied};
ghost use Rattle.srcset.specs.Headers.{header_of};
ghost use Rattle.srcset.specs.Files.{max_file_bytes};

const RVIO: &[u8] = b"int rv_getbyte(void);\n\
void rv_putbyte(int c);\n\
void rv_exit(int status);\n";

const LIMITS: &[u8] = b"#define CHAR_BIT 8\n\
#define SCHAR_MIN (-128)\n\
#define SCHAR_MAX 127\n\
#define UCHAR_MAX 255\n\
#define CHAR_MIN 0\n\
#define CHAR_MAX 255\n\
#define MB_LEN_MAX 1\n\
#define SHRT_MIN (-32768)\n\
#define SHRT_MAX 32767\n\
#define USHRT_MAX 65535\n\
#define INT_MIN (-2147483647-1)\n\
#define INT_MAX 2147483647\n\
#define UINT_MAX 4294967295U\n\
#define LONG_MIN (-2147483647L-1L)\n\
#define LONG_MAX 2147483647L\n\
#define ULONG_MAX 4294967295UL\n";

const STDBOOL: &[u8] = b"#define bool _Bool\n\
#define true 1\n\
#define false 0\n\
#define __bool_true_false_are_defined 1\n";

const ISO646: &[u8] = b"#define and &&\n\
#define and_eq &=\n\
#define bitand &\n\
#define bitor |\n\
#define compl ~\n\
#define not !\n\
#define not_eq !=\n\
#define or ||\n\
#define or_eq |=\n\
#define xor ^\n\
#define xor_eq ^=\n";

/// The text of the built-in header with this name, or `None` where there is none. Allocates nothing.
///
/// There are four: `limits.h` (ISO/IEC 9899:2011 5.2.4.2.1, without the limits of `long long`, at the
/// sizes of the RISC-V psABI's ILP32 with a plain `char` that is unsigned), `stdbool.h` (7.18),
/// `iso646.h` (7.9), and the compiler's own `rvio.h`, which declares the three calls for input, output
/// and the end of the program. Each line ends in a newline.
#[tactic(auto, unfolding(crate::specs::Headers::rvio_h, crate::specs::Headers::limits_h, crate::specs::Headers::stdbool_h, crate::specs::Headers::iso646_h))]
pub fn builtin(name: &str) -> Option<&'static [u8]>
    ensures text { option_copied result ≡ header_of name.now }
    ensures small { IfSome result (λ bytes. length bytes.now ≤ max_file_bytes) }
{
    match name {
        "rvio.h" => Some(RVIO),
        "limits.h" => Some(LIMITS),
        "stdbool.h" => Some(STDBOOL),
        "iso646.h" => Some(ISO646),
        _ => None,
    }
}

/// The text of the built-in header whose name has these bytes, as `builtin` returns it. Allocates nothing.
pub fn find_builtin(name: &[u8]) -> Option<&'static [u8]>
    ensures text { option_copied result ≡ header_of name.now }
    ensures small { IfSome result (λ bytes. length bytes.now ≤ max_file_bytes) }
{
    match str::from_utf8(name) {
        Ok(name) => builtin(name),
        Err(_) => None,
    }
}
