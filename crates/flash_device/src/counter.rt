//! A number for contracts only.
ghost use Rattle.std.specs.Prelude.{◌≡◌, ℕ, ◌+◌};

use std::marker::Model;
use std::mem;
use std::snapshot::Snapshot;

#[derive(Drop)]
enum Number {
    Zero,
    More(usize, Snapshot<Number>),
}

/// An unbounded counter of size 0.
#[derive(Drop)]
pub struct Counter {
    number: Snapshot<Number>,
}

impl Model for Counter {
    ghost use Rattle.std.specs.Prelude.{ℕ};
    ghost use Rattle.flash_device.specs.Device.{count_of};

    ghost Value = { ℕ };

    ghost view = { λ c. count_of c.number.value };
}

impl Counter {
    /// Returns 0.
    pub fn new() -> Counter
        ensures { result ≡ 0 }
    {
        Counter {
            number: Snapshot::of(&Number::Zero),
        }
    }

    /// Adds 1.
    pub fn tick(&mut self)
        ensures { self.new ≡ self.old + 1 }
    {
        self.add(1);
    }

    /// Adds `n`.
    pub fn add(&mut self, n: usize)
        ensures { self.new ≡ self.old + n }
    {
        let before = mem::replace(&mut self.number, Snapshot::of(&Number::Zero));
        self.number = Snapshot::of(&Number::More(n, before));
    }
}

const _: () = prove!(mem::size_of::<Counter>() == 0);
