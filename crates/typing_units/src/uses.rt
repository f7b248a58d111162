//! Each object and function used has a definition (6.9p3, p5).
#![tactic(auto)]

ghost use Rattle.std.specs.Prelude.{◌≡◌, [], map, OnOk, IfErr};
ghost use Rattle.typed_ast.specs.View.{function_of};
ghost use Rattle.typing_scopes.specs.Scopes.{static_of, with_statics};
ghost use Rattle.typing_spec.specs.Verdict.{fine};
ghost use Rattle.typing_spec.specs.Scope as scope_typed;
ghost use Rattle.typing_spec.specs.Uses as typed;
ghost use Rattle.typing_expressions.specs.Refused.{IsOf};
ghost use Rattle.typing_units.specs.inside.Undefined.{undefined_in};

use crate::statement_uses::in_statement;
use crate::value_uses::earlier;
use srcset::{Code, Pos, Refusal};
use typed_ast::Function;
use typing_expressions::broken;
use typing_scopes::StaticObject;

fn in_functions(statics: &[StaticObject], functions: &[Function]) -> Option<Pos>
    ensures { result ≡ undefined_in (map static_of statics.now) (typed.uses_in_functions (map function_of functions.now)) }
{
    let mut found = None;
    for function in functions {
        found = earlier(found, in_statement(statics, &function.body));
    }
    found
}

/// Each object with static storage and each function that functions use has a definition. Else reports 552 at the first use, in
/// the order of the source, of one that has none.
pub fn all_defined(statics: &[StaticObject], functions: &[Function]) -> Result<(), Refusal>
    ensures ok { (s : scope_typed.Scope) → OnOk result (typed.all_defined (with_statics (map static_of statics.now) s) [] (typed.uses_in_functions (map function_of functions.now)) ≡ fine tt) }
    ensures err { (s : scope_typed.Scope) → IfErr result (λ r. IsOf r (typed.all_defined (with_statics (map static_of statics.now) s) [] (typed.uses_in_functions (map function_of functions.now)))) }
{
    match in_functions(statics, functions) {
        None => Ok(()),
        Some(pos) => Err(broken(Code::UsedUndefined, pos)),
    }
}
