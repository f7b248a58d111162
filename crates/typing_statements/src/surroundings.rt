//! The context of statements.
#![tactic(auto)]

ghost use Rattle.std.specs.Prelude.{◌≡◌};
ghost use Rattle.typing_spec.specs.Statements as typed;
ghost use Rattle.typing_statements.specs.Views.{around_of};

use ctypes::IntType;

/// The context of a statement (6.8): the result of its function, none for `void`; whether it is in a loop, and in a switch.
#[derive(Clone, Copy)]
pub struct Around {
    pub result: Option<IntType>,
    pub in_loop: bool,
    pub in_switch: bool,
}

impl Around {
    pub(crate) fn in_a_loop(self) -> Around
        ensures { around_of result ≡ typed.in_a_loop (around_of self) }
    {
        Around {
            result: self.result,
            in_loop: true,
            in_switch: self.in_switch,
        }
    }

    pub(crate) fn in_a_switch(self) -> Around
        ensures { around_of result ≡ typed.in_a_switch (around_of self) }
    {
        Around {
            result: self.result,
            in_loop: self.in_loop,
            in_switch: true,
        }
    }
}
