//! How many replacements are left.
ghost use Rattle.std.specs.Prelude.{◌≡◌, ℕ};

use std::marker::Model;

/// How many macro replacements may still be made. One budget serves all of a translation unit.
#[derive(Debug, Drop)]
pub struct Budget {
    left: u32,
}

impl Model for Budget {
    ghost Value = { ℕ };

    ghost view = { λ b. b.left };
}

impl Budget {
    /// A budget of `left` replacements.
    pub fn new(left: u32) -> Budget
        ensures { result ≡ left }
    {
        Budget { left }
    }

    /// How many are left.
    pub fn left(&self) -> u32
        ensures { result ≡ self.now }
    {
        self.left
    }
}
