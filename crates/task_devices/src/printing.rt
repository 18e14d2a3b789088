// What is printed.
ghost use Rattle.std.specs.Prelude.{◌≡◌, ◌++◌, OnOk, IfErr};
ghost use Rattle.run_plan.specs.Pages.{IsCut};
ghost use Rattle.task_devices.specs.Stops.{faults_of, StopsBy, is_sink_fault};

use crate::RunErr;
use page::{PageErr, emit};
use std::alloc::Global;
use tree_dev::Sink;

/// Puts a text into the sink.
pub fn put_text<K: Sink>(alloc: Global, text: &[u8], out: &mut K) -> Result<(), RunErr>
    ensures put { K.tells → OnOk result (K.written out.new ≡ K.written out.old ++ text.now) }
    ensures torn { K.tells → IfErr result (λ e.
        IsCut (is_sink_fault e) text.now (K.written out.old) (K.written out.new)) }
    ensures cause { StopsBy (faults_of 0 0 0 (K.faults out.old))
        (faults_of 0 0 0 (K.faults out.new)) result }
{
    match emit(alloc, out, text) {
        Ok(()) => Ok(()),
        Err(PageErr::SinkFault) => Err(RunErr::SinkFault),
        Err(PageErr::OutOfMemory) => Err(RunErr::OutOfMemory),
    }
}
