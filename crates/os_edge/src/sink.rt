// Standard output.
ghost use Rattle.std.specs.Prelude.{◌≡◌, []};

use std::alloc::Global;
use tree_dev::{DevErr, Sink, count_fault};

/// Standard output, with a count of its faults. It tells nothing.
#[derive(Drop)]
pub struct OsSink<R> {
    rt: R,
    faults: u64,
}

impl<R: Print> OsSink<R> {
    pub fn new(rt: R) -> OsSink<R>
        ensures { ⟦<OsSink<R> as Sink>⟧.faults result ≡ 0 }
    {
        OsSink { rt, faults: 0 }
    }
}

impl<R: Print> Sink for OsSink<R> {
    ghost tells = { ⊥ };

    ghost written = { λ _. [] };

    ghost faults = { λ s. s.faults };

    fn put(&mut self, _alloc: Global, bytes: &[u8]) -> Result<(), DevErr> {
        if self.rt.write_all(bytes).is_err() {
            count_fault(&mut self.faults);
            return Err(DevErr::Failed);
        }
        Ok(())
    }
}
