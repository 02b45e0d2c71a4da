// A count of steps that only its owner can begin.
ghost use Rattle.std.specs.Prelude.{◌≡◌, ◌+◌, ◌<◌, ◌^◌};

use std::marker::Model;
use std::sync::ledger::Blank;

/// What a count of steps is kept for. Code that is generic in a ledger can't begin a count of its own.
pub trait Ledger: Drop {}

impl Ledger for Blank {}

/// How many steps were taken. A step is one reading of one object's fields.
#[derive(Drop)]
pub struct Steps<L: Ledger> {
    ledger: L,
    count: u64,
}

impl<L: Ledger> Model for Steps<L> {
    ghost use Rattle.std.specs.Prelude.{ℕ};

    ghost Value = { ℕ };

    ghost view = { λ steps. steps.count };
}

impl<L: Ledger> Steps<L> {
    /// No step was taken yet.
    pub fn start(ledger: L) -> Self
        ensures { result ≡ 0 }
    {
        Steps { ledger, count: 0 }
    }

    /// One more step is taken.
    pub fn tick(&mut self)
        requires { self.old + 1 < 2 ^ 64 }
        ensures { self.new ≡ self.old + 1 }
    {
        self.count += 1;
    }

    /// How many steps were taken.
    pub fn count(&self) -> u64
        ensures { result ≡ self.now }
    {
        self.count
    }
}
