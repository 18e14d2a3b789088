// Which pairs a look-up is to see.
ghost use Rattle.std.specs.Prelude.{◌≡◌, ◌<◌, ◌↔◌, ◌++◌, ◌∷◌, [], IsTrue, OnOk, OnErr, IfSome, IfNone};
ghost use Rattle.std.specs.List.{All};
ghost use Rattle.std.specs.List.Sorted.{IsStrictlyIncreasing};
ghost use Rattle.pair_reader.specs.Answers.{is_among};
ghost use Rattle.pair_index.specs.Seen.{is_seen};

use std::alloc::{AllocError, Global};
use std::marker::Model;

/// Numbers of pairs, each less than the next one.
#[derive(Debug, Drop)]
pub struct Numbers {
    items: Vec<u64>,
}

impl Model for Numbers {
    ghost use Rattle.std.specs.Prelude.{List, ℕ};
    ghost use Rattle.std.specs.List.Sorted.{IsStrictlyIncreasing};

    ghost Value = { List ℕ };

    ghost view = { λ numbers. numbers.items.items };

    ghost invariant = { λ numbers. IsStrictlyIncreasing numbers.items.items };
}

impl Numbers {
    /// No numbers. It keeps the allocator and takes no memory.
    pub fn new(alloc: Global) -> Numbers
        ensures { result ≡ [] }
    {
        Numbers {
            items: Vec::new(alloc),
        }
    }

    /// These numbers, and nothing where one of them is not less than the next one.
    pub fn from_vec(items: Vec<u64>) -> Option<Numbers>
        ensures some { IfSome result (λ numbers. numbers ≡ items.items) }
        ensures none { IfNone result (¬ IsStrictlyIncreasing items.items) }
    {
        if ascends(items.as_slice()) {
            Some(Numbers { items })
        } else {
            None
        }
    }

    /// Adds a number that is greater than the others. They stay as they were where memory is
    /// wanting.
    pub fn push(&mut self, number: u64) -> Result<(), AllocError>
        requires { All (λ n. n < number) self.old }
        ensures pushed { OnOk result (self.new ≡ self.old ++ number ∷ []) }
        ensures kept { OnErr result (self.new ≡ self.old) }
    {
        self.items.push(number)?;
        Ok(())
    }

    /// Whether a number is among them.
    pub fn holds(&self, number: u64) -> bool
        ensures { result ≡ is_among self.now number }
    {
        is_among(self.items.as_slice(), number)
    }

    pub fn as_slice(&self) -> &[u64]
        ensures { result.now ≡ self.now }
    {
        self.items.as_slice()
    }

    /// The numbers as they were given. It takes no memory.
    pub fn into_vec(self) -> Vec<u64>
        ensures { result.items ≡ self }
    {
        self.items
    }
}

/// Whether each number is less than the next one.
fn ascends(numbers: &[u64]) -> bool
    ensures { IsTrue result ↔ IsStrictlyIncreasing numbers.now }
{
    for i in 1..numbers.len() {
        if numbers[i] <= numbers[i - 1] {
            return false;
        }
    }
    true
}

/// Whether a number is among these. It is sought by halves.
fn is_among(numbers: &[u64], number: u64) -> bool
    requires { IsStrictlyIncreasing numbers.now }
    ensures { result ≡ is_among numbers.now number }
{
    numbers.binary_search(&number).is_ok()
}

/// Which pairs of a log a look-up is to see: the first so many, and those with these numbers.
#[derive(Debug, Drop)]
pub struct SeenPairs {
    pub first: u64,
    pub own: Numbers,
}

impl SeenPairs {
    /// Whether the pair with that number is seen.
    pub fn holds(&self, number: u64) -> bool
        ensures { result ≡ is_seen self.now number }
    {
        number < self.first || self.own.holds(number)
    }
}
