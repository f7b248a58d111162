//! How many string literals there are before an expression.

ghost use Rattle.std.specs.Prelude.{◌≡◌, ◌+◌, length, IfOk, OnOk};

use std::alloc::{AllocError, Global};
use std::marker::Model;

/// How many string literals there are so far.
#[derive(Drop)]
pub struct LiteralCount {
    // Those of the scope.
    before: usize,
    // A byte for each further one.
    own: Vec<u8>,
}

impl Model for LiteralCount {
    ghost use Rattle.std.specs.Prelude.{ℕ, ◌+◌, ◌<◌, ◌^◌, length};

    ghost Value = { ℕ };

    ghost view = { λ c. c.before + length c.own.items };

    ghost invariant = { λ c. c.before < 2 ^ 62 };
}

impl LiteralCount {
    /// Behind these literals.
    pub fn behind(alloc: Global, literals: &[usize]) -> LiteralCount
        ensures { result ≡ length literals.now }
    {
        LiteralCount {
            before: literals.len(),
            own: Vec::new(alloc),
        }
    }

    /// One more literal. Gives its number.
    pub fn next(&mut self) -> Result<usize, AllocError>
        ensures ok { IfOk result (λ n. n ≡ self.old) }
        ensures count { OnOk result (self.new ≡ self.old + 1) }
    {
        let number = self.before + self.own.len();
        self.own.push(0)?;
        Ok(number)
    }
}
