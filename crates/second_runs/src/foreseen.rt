// Opening a store over which a plan is to be run.
ghost use Rattle.std.specs.Prelude.{IfOk, IfErr};
ghost use Rattle.artifact_store.specs.Opened.{IsOpened, IsUnopened};
ghost use Rattle.artifact_store.specs.Store.{lengths_of};
ghost use Rattle.run_plan.specs.Plans.{IsValidPlan};
ghost use Rattle.second_runs.specs.Opened.{AreOfKeys};

use artifact_store::{Lengths, OpenErr, Store};
use record_log::Unopened;
use run_plan::Plan;
use std::alloc::Global;
use store_dev::StoreDevice;

/// Opens a device as a store over which the plan is to be run. It foresees only keys that are as
/// long as one of the plan's, and makes no fingerprint of any other. Where memory is wanting for
/// the lengths, the device is handed back as it was.
pub fn open_for_plan<D: StoreDevice>(
    alloc: Global,
    plan: &Plan,
    device: D,
) -> Result<Store<D>, Unopened<D, OpenErr>>
    requires { IsValidPlan plan.now }
    ensures opened { IfOk result (λ store. IsOpened device (lengths_of store) store) }
    ensures foresees { IfOk result (λ store. AreOfKeys plan.now (lengths_of store)) }
    ensures unopened { IfErr result (IsUnopened D.StoreDevice device) }
{
    match plan.key_lengths(alloc) {
        Ok(lengths) => Store::open_for(alloc, device, Lengths::Only(lengths)),
        Err(_) => Err(Unopened {
            fault: OpenErr::OutOfMemory,
            store: device,
        }),
    }
}
