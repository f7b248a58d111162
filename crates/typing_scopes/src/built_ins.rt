//! The built-in functions, by the texts of their names.

ghost use Rattle.std.specs.Prelude.{◌≡◌, slice_get};
ghost use Rattle.std.specs.Str.{bytes_eq};
ghost use Rattle.typed_ast.specs.View.{callee_of};
ghost use Rattle.typing_spec.specs.Scope as typed;
ghost use Rattle.typing_scopes.specs.Scopes.{with_texts};
ghost use Rattle.typing_scopes.specs.BuiltIns.{built_in_of, option_built_in};

use srcset::Names;
use typed_ast::Callee;

/// A function that no unit defines.
#[derive(Clone, Copy, PartialEq, Eq, Debug)]
pub enum BuiltIn {
    /// `int rv_getbyte(void)`
    GetByte,
    /// `void rv_putbyte(int c)`
    PutByte,
    /// `void rv_exit(int status)`
    Exit,
}

/// Whether this is the text of a name.
pub fn is_called(names: &Names, name: usize, text: &[u8]) -> bool
    ensures { result ≡ bytes_eq (typed.or_empty (slice_get names.now name)) text.now }
{
    let known = names.text(name).unwrap_or(&[]);
    known == text
}

/// The built-in function with this name.
pub fn built_in(names: &Names, name: usize) -> Option<BuiltIn>
    ensures { (s : typed.Scope) → option_built_in result ≡ typed.built_in (with_texts names.now s) name }
{
    if is_called(names, name, b"rv_getbyte") {
        return Some(BuiltIn::GetByte);
    }
    if is_called(names, name, b"rv_putbyte") {
        return Some(BuiltIn::PutByte);
    }
    if is_called(names, name, b"rv_exit") {
        return Some(BuiltIn::Exit);
    }
    None
}

impl BuiltIn {
    /// The target of a call of it.
    pub fn callee(self) -> Callee
        ensures { callee_of result ≡ (built_in_of self).callee }
    {
        match self {
            BuiltIn::GetByte => Callee::GetByte,
            BuiltIn::PutByte => Callee::PutByte,
            BuiltIn::Exit => Callee::Exit,
        }
    }
}
