// A sink for bytes, by what it means, and one in memory.
ghost use Rattle.std.specs.Prelude.{◌≡◌, ℕ, List, [], OnErr};
ghost use Rattle.tree_dev.specs.Cause.{HasCause};
ghost use Rattle.tree_dev.specs.Sink.{Appends};
ghost use Rattle.tree_dev.specs.Turns.{FailsAsTold, sink_turns};

use crate::turns::count_fault;
use crate::{DevErr, Turns};
use std::alloc::Global;

/// A sink for bytes, as standard output. Clauses under `tells` hold where `written` is what the sink has.
pub trait Sink {
    /// Whether `written` tells what the sink has.
    ghost tells: { Type 0 };

    ghost written: { Self → List ℕ };

    ghost faults: { Self → ℕ };

    /// Appends the bytes; some first part of them, where the sink fails.
    fn put(&mut self, alloc: Global, bytes: &[u8]) -> Result<(), DevErr>
        ensures appends { tells → Appends bytes.now (written self.old) (written self.new) result }
        ensures cause { HasCause (faults self.old) (faults self.new) result };
}

/// A sink in memory, which fails at the calls that it is told to.
#[derive(Drop)]
pub struct MemSink {
    written: Vec<u8>,
    turns: Turns,
    faults: u64,
}

impl MemSink {
    /// An empty sink, of which the calls with these numbers fail, counted from 0. It takes no memory.
    pub fn new(alloc: Global, fails: Vec<u64>) -> MemSink
        ensures written { ⟦<MemSink as Sink>⟧.written result ≡ [] }
        ensures faults { ⟦<MemSink as Sink>⟧.faults result ≡ 0 }
        ensures turns { sink_turns result ≡ record { fails = fails; next = 0 } }
    {
        MemSink {
            written: Vec::new(alloc),
            turns: Turns::new(fails),
            faults: 0,
        }
    }

    pub fn written(&self) -> &[u8]
        ensures { ⟦<MemSink as Sink>⟧.written self.now ≡ result.now }
    {
        self.written.as_slice()
    }
}

impl Sink for MemSink {
    ghost tells = { Unit {0} };

    ghost written = { λ s. s.written.items };

    ghost faults = { λ s. s.faults };

    fn put(&mut self, _alloc: Global, bytes: &[u8]) -> Result<(), DevErr>
        ensures appends { Appends bytes.now self.old.written.items self.new.written.items result }
        ensures cause { HasCause self.old.faults self.new.faults result }
        ensures told { FailsAsTold (sink_turns self.old) (sink_turns self.new) result }
        ensures kept { OnErr result (self.new.written.items ≡ self.old.written.items) }
    {
        if self.turns.fails_now() {
            count_fault(&mut self.faults);
            return Err(DevErr::Failed);
        }
        self.written.extend_from_slice(bytes)?;
        Ok(())
    }
}
