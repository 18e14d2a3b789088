// What is put into the output.
ghost use Rattle.page.specs.Answers.{Emits, HasCause};

use crate::PageErr;
use std::alloc::Global;
use tree_dev::Sink;

/// Puts the bytes into the sink. `SinkFault` comes only where the sink's count of faults rose, and then some first part
/// of the bytes may stand in the sink. Where memory is wanting, nothing was put. No bytes are no call of the sink.
pub fn emit<K: Sink>(alloc: Global, out: &mut K, bytes: &[u8]) -> Result<(), PageErr>
    ensures emits { K.tells → Emits bytes.now (K.written out.old) (K.written out.new) result }
    ensures cause { HasCause (K.faults out.old) (K.faults out.new) result }
{
    if bytes.is_empty() {
        return Ok(());
    }
    match out.put(alloc, bytes) {
        Ok(()) => Ok(()),
        Err(error) => Err(PageErr::from(error)),
    }
}
