// Which calls of a device in memory fail.
ghost use Rattle.std.specs.Prelude.{◌≡◌, ◌↔◌, ◌+◌, ◌≤◌, IsTrue};
ghost use Rattle.rel_path.specs.Causes.{Rose};
ghost use Rattle.tree_dev.specs.Turns.{FailsNext, after};

/// The number of a device's next call, counted from 0, and the numbers of the calls that fail. The count
/// stands still at the last value of a u64.
#[derive(Drop)]
pub struct Turns {
    pub fails: Vec<u64>,
    pub next: u64,
}

impl Turns {
    pub fn new(fails: Vec<u64>) -> Turns
        ensures { result ≡ record { fails = fails; next = 0 } }
    {
        Turns { fails, next: 0 }
    }

    /// Counts a call, and answers whether it is one of those that fail.
    pub fn fails_now(&mut self) -> bool
        ensures fails { IsTrue result ↔ FailsNext self.old }
        ensures counted { self.new ≡ after self.old }
    {
        let number = self.next;
        self.next = number.saturating_add(1);
        self.fails.contains(&number)
    }
}

/// One fault more. The count stands still at the last value of a u64.
pub fn count_fault(faults: &mut u64)
    ensures later { faults.old ≤ faults.new }
    ensures rose { Rose faults.old faults.new }
    ensures by_one { faults.new ≤ faults.old + 1 }
{
    *faults = faults.saturating_add(1);
}
