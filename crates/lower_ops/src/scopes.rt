//! What code is written for.

ghost use Rattle.std.specs.Prelude.{◌≡◌, true};
ghost use Rattle.std.specs.List.{list_all};
ghost use Rattle.lower_wf.specs.Asked.{is_sized};
ghost use Rattle.typed_ast.specs.View.{program_of, function_of};
ghost use Rattle.lower_ops.specs.layer.Small.{RowsAreSmall};

use typed_ast::{Function, Program};

/// The program and the function that code is written for, whose objects have elements, and not more bytes than an object may have.
#[derive(Clone, Copy)]
pub struct Scope<'p> {
    pub program: &'p Program,
    pub function: &'p Function,
    ghost rows: { RowsAreSmall (program_of program.now) (function_of function.now) },
    ghost objects: { list_all is_sized (function_of function.now).objects ≡ true },
}
