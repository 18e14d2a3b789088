// The store that is read.
ghost use Rattle.std.specs.Prelude.{IfOk, IfErr};
ghost use Rattle.compact.specs.Left.{Rests};
ghost use Rattle.compact.specs.Sources.{IsSource, IsNoSource, IsFromErr};
ghost use Rattle.compact.specs.Answers.{IsNotFrom};

use crate::CompactErr;
use crate::faults::{from_err, open_err};
use artifact_store::{Lengths, Store};
use record_log::{Log, Unopened};
use std::alloc::Global;
use store_dev::StoreDevice;

/// Opens the store, without fingerprints of its keys, and tells its generation.
pub(crate) fn opened<S: StoreDevice>(
    alloc: Global,
    from: S,
) -> Result<(Store<S>, u64), Unopened<S, CompactErr>>
    requires { S.tells → Rests S.StoreDevice from }
    ensures ok { IfOk result (λ source. IsSource from source.0 source.1) }
    ensures err { IfErr result (IsNoSource S.StoreDevice from) }
    ensures answers { IfErr result (λ u. IsFromErr u.fault) }
    ensures sound { S.tells → IfErr result (λ u. IsNotFrom u.fault) }
{
    let log = match Log::open(alloc, from) {
        Ok(log) => log,
        Err(Unopened { fault, store }) => {
            return Err(Unopened {
                fault: from_err(open_err(fault)),
                store,
            });
        }
    };
    let generation = log.generation();
    let lengths = Lengths::Only(Vec::new(alloc));
    match Store::open_for(alloc, log.device(), lengths) {
        Ok(store) => Ok((store, generation)),
        Err(Unopened { fault, store }) => Err(Unopened {
            fault: from_err(fault),
            store,
        }),
    }
}
