ghost use Rattle.std.specs.Prelude.{◌≡◌, ◌+◌, ◌-◌, ◌^◌, min};

use std::marker::Model;

/// How often lanes were asked for a departure: a number that stays at the greatest of 64 bits.
///
/// Only the lanes of a stop come with one, and nothing copies one,
/// so nobody else can change what is told.
#[derive(Drop)]
pub struct Steps {
    count: u64,
}

impl Model for Steps {
    ghost use Rattle.std.specs.Prelude.{ℕ};

    ghost Value = { ℕ };

    ghost view = { λ s. s.count };
}

impl Steps {
    // No lane was asked yet.
    pub(crate) fn new() -> Steps
        ensures { result ≡ 0 }
    {
        Steps { count: 0 }
    }

    /// How often lanes were asked.
    pub fn count(&self) -> u64
        ensures { result ≡ self.now }
    {
        self.count
    }

    // A lane is asked once more.
    pub(crate) fn add_one(&mut self)
        ensures { self.new ≡ min (self.old + 1) (2 ^ 64 - 1) }
    {
        let count = &mut self.count;
        *count = count.saturating_add(1);
    }
}
