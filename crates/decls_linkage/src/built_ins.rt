//! The names of the built-in functions: at file scope such a name has the type of its function, is not static and has no other
//! definition.
#![tactic(auto, using(typing_expressions::proofs::Verdicts::each_left, typing_expressions::proofs::Verdicts::each_right, typing_expressions::proofs::Verdicts::each_fine))]

ghost use Rattle.std.specs.Prelude.{◌≡◌, IfErr, OnOk};
ghost use Rattle.typed_ast.specs.View.{function_type_of};
ghost use Rattle.typing_spec.specs.Verdict.{fine};
ghost use Rattle.typing_spec.specs.Types.{same_function};
ghost use Rattle.typing_spec.specs.Linkage as typed;
ghost use Rattle.typing_expressions.specs.Refused.{IsOf};
ghost use Rattle.typing_scopes.specs.Scopes.{meaning_of};
ghost use Rattle.typing_scopes.specs.BuiltIns.{built_in_of, option_built_in};
ghost use Rattle.decls_linkage.specs.Views.{agreed_of};

use crate::comparisons::has_type;
use crate::redeclarations::Agreed;
use crate::rules::{is_defined, is_internal};
use ctypes::IntType;
use srcset::{Code, Pos, Refusal};
use typed_ast::{FunctionType, ParameterType};
use typing_expressions::broken;
use typing_scopes::{BuiltIn, Meaning};

/// Whether this is the type of a built-in function.
fn is_of_type(built_in: BuiltIn, function: &FunctionType) -> bool
    ensures { result ≡ same_function (built_in_of built_in).type (function_type_of function.now) }
{
    match built_in {
        BuiltIn::GetByte => has_type(Some(IntType::Int), &[], function),
        BuiltIn::PutByte => has_type(None, &[ParameterType::Number(IntType::Int)], function),
        BuiltIn::Exit => has_type(None, &[ParameterType::Number(IntType::Int)], function),
    }
}

/// Whether this is a function of the type of a built-in one.
fn is_meant(built_in: BuiltIn, meaning: &Meaning) -> bool
    ensures { result ≡ typed.is_of_type (built_in_of built_in).type (meaning_of meaning.now) }
{
    match meaning {
        Meaning::Function(function) => is_of_type(built_in, function),
        Meaning::Object(_, _) => false,
        Meaning::ArrayParameter(_, _) => false,
        Meaning::Enumerator(_) => false,
    }
}

/// A declaration of a built-in's name is of that function, has external linkage and is no definition.
pub fn as_built_in(pos: Pos, new: &Agreed, built_in: Option<BuiltIn>) -> Result<(), Refusal>
    ensures ok { OnOk result (typed.as_built_in pos (agreed_of new.now) (option_built_in built_in) ≡ fine tt) }
    ensures err { IfErr result (λ r. IsOf r (typed.as_built_in pos (agreed_of new.now) (option_built_in built_in))) }
{
    match built_in {
        None => Ok(()),
        Some(function) => {
            if !is_meant(function, &new.meaning) {
                return Err(broken(Code::RedeclaredWithAnotherType, pos));
            }
            if is_internal(new.linkage) {
                return Err(broken(Code::LinkageConflict, pos));
            }
            if is_defined(new.state) {
                return Err(broken(Code::BuiltInDefined, pos));
            }
            Ok(())
        }
    }
}
