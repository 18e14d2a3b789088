// The three steps in which a spare store is renewed. Each opens the device anew and hands it on.
ghost use Rattle.std.specs.Prelude.{◌≡◌, ◌<◌, [], All, IsTrue, IfOk, IfErr};
ghost use Rattle.rel_path.specs.Causes.{Counts};
ghost use Rattle.store_dev.specs.Device.{LeavesOnly};
ghost use Rattle.record_log.specs.Frames.{frames_of};
ghost use Rattle.artifact_store.specs.Store.{state_of, count_in, OnlyReadsStore};
ghost use Rattle.compact.specs.Answers.{CountsBoth, is_fault, IsNotTo, IsNoRoomWhere};
ghost use Rattle.compact.specs.Current.{generation_in, pairs_held};
ghost use Rattle.compact.specs.Left.{ReadsAs, Rests, RestsAs, IsUnsealed, IsRenewing};
ghost use Rattle.compact.specs.Picks.{AreUseful, pairs_at};
ghost use Rattle.compact.specs.Room.{lacking};
ghost use Rattle.compact.specs.Sources.{handed, answered, IsOfGeneration, IsSealing, IsStepPut};
ghost use Rattle.compact.specs.Sources.{IsClearErr, IsToErr, LeavesRefused};

use crate::CompactErr;
use crate::faults::{append_err, open_err, reset_err, to_err};
use crate::fill::fill;
use artifact_store::{Lengths, Store};
use record_log::{GENERATION, Log, LogErr, Unopened};
use std::alloc::Global;
use store_dev::StoreDevice;

/// All three, one after another.
pub(crate) fn rewritten<S: StoreDevice, P: StoreDevice>(
    alloc: Global,
    from: &mut Store<S>,
    to: P,
    numbers: &[u64],
    generation: u64,
) -> Result<P, Unopened<P, CompactErr>>
    requires whole { IsTrue (state_of from.old).whole }
    requires below { All (λ number. number < count_in from.old) numbers.now }
    requires useful { S.tells → AreUseful (pairs_at (state_of from.old).pairs numbers.now) }
    requires rests { P.tells → Rests P.StoreDevice to }
    ensures renewed { S.tells → P.tells → IfOk result (RestsAs P.StoreDevice generation
        (pairs_at (state_of from.old).pairs numbers.now)) }
    ensures room { S.tells → P.tells → IsNoRoomWhere (answered result)
        (lacking generation [] (pairs_at (state_of from.old).pairs numbers.now)) }
    ensures reads { OnlyReadsStore from.old from.new }
    ensures images { S.tells → P.tells → LeavesOnly P.moment P.images_since to (handed result)
        (IsRenewing (generation_in (P.content to)) generation
        (pairs_at (state_of from.old).pairs numbers.now)) }
    ensures refused { S.tells → P.tells → IfErr result (λ u. LeavesRefused u.fault
        (P.images u.store) (IsUnsealed (generation_in (P.content to)))) }
    ensures answers { IfErr result (λ u. IsToErr u.fault) }
    ensures sound { P.tells → IfErr result (λ u. IsNotTo u.fault) }
    ensures cause { CountsBoth is_fault (state_of from.old).faults (state_of from.new).faults
        (P.store_faults to) (P.store_faults (handed result)) (answered result) }
{
    let to = cleared(alloc, to)?;
    let to = filled(alloc, from, to, numbers)?;
    sealed(alloc, to, generation)
}

/// The first step: none of its frames counts any more.
pub(crate) fn cleared<P: StoreDevice>(alloc: Global, to: P) -> Result<P, Unopened<P, CompactErr>>
    requires { P.tells → Rests P.StoreDevice to }
    ensures none { P.tells → IfOk result (λ to. frames_of (P.content to) ≡ []) }
    ensures rests { P.tells → IfOk result (Rests P.StoreDevice) }
    ensures images { P.tells → LeavesOnly P.moment P.images_since to (handed result)
        (IsUnsealed (generation_in (P.content to))) }
    ensures answers { IfErr result (λ u. IsClearErr u.fault) }
    ensures cause { Counts is_fault (P.store_faults to)
        (P.store_faults (handed result)) (answered result) }
{
    match Log::reset(alloc, to) {
        Ok(log) => Ok(log.device()),
        Err(Unopened { fault, store }) => Err(Unopened {
            fault: reset_err(fault),
            store,
        }),
    }
}

/// The second step: the pairs with these numbers are put into it, in their order.
pub(crate) fn filled<S: StoreDevice, P: StoreDevice>(
    alloc: Global,
    from: &mut Store<S>,
    to: P,
    numbers: &[u64],
) -> Result<P, Unopened<P, CompactErr>>
    requires whole { IsTrue (state_of from.old).whole }
    requires below { All (λ number. number < count_in from.old) numbers.now }
    requires useful { S.tells → AreUseful (pairs_at (state_of from.old).pairs numbers.now) }
    requires none { P.tells → frames_of (P.content to) ≡ [] }
    requires rests { P.tells → Rests P.StoreDevice to }
    ensures pairs { S.tells → P.tells → IfOk result (RestsAs P.StoreDevice 0
        (pairs_at (state_of from.old).pairs numbers.now)) }
    ensures rests { P.tells → IfOk result (Rests P.StoreDevice) }
    ensures room { S.tells → P.tells
        → IsStepPut P.StoreDevice result (pairs_at (state_of from.old).pairs numbers.now) }
    ensures reads { OnlyReadsStore from.old from.new }
    ensures images { P.tells → LeavesOnly P.moment P.images_since to (handed result)
        (IsOfGeneration 0) }
    ensures answers { IfErr result (λ u. IsToErr u.fault) }
    ensures sound { P.tells → IfErr result (λ u. IsNotTo u.fault) }
    ensures cause { CountsBoth is_fault (state_of from.old).faults (state_of from.new).faults
        (P.store_faults to) (P.store_faults (handed result)) (answered result) }
{
    match Store::open_for(alloc, to, Lengths::Only(Vec::new(alloc))) {
        Err(Unopened { fault, store }) => Err(Unopened {
            fault: to_err(fault),
            store,
        }),
        Ok(store) => {
            let mut store = store;
            match fill(alloc, from, &mut store, numbers) {
                Ok(()) => Ok(store.device()),
                Err(fault) => Err(Unopened {
                    fault,
                    store: store.device(),
                }),
            }
        }
    }
}

/// The third step: it tells that generation.
pub(crate) fn sealed<P: StoreDevice>(
    alloc: Global,
    to: P,
    generation: u64,
) -> Result<P, Unopened<P, CompactErr>>
    requires { P.tells → Rests P.StoreDevice to }
    ensures sealed { P.tells
        → IfOk result (RestsAs P.StoreDevice generation (pairs_held (P.content to))) }
    ensures room { P.tells
        → IsNoRoomWhere (answered result) (lacking generation (frames_of (P.content to)) []) }
    ensures images { P.tells → LeavesOnly P.moment P.images_since to (handed result)
        (IsSealing (P.content to) generation) }
    ensures refused { P.tells → IfErr result (λ u.
        LeavesRefused u.fault (P.images u.store) (ReadsAs (P.content to))) }
    ensures answers { IfErr result (λ u. IsToErr u.fault) }
    ensures sound { P.tells → IfErr result (λ u. IsNotTo u.fault) }
    ensures cause { Counts is_fault (P.store_faults to)
        (P.store_faults (handed result)) (answered result) }
{
    let log = match Log::open(alloc, to) {
        Ok(log) => log,
        Err(Unopened { fault, store }) => {
            return Err(Unopened {
                fault: to_err(open_err(fault)),
                store,
            });
        }
    };
    let mut log = log;
    match log.append(alloc, GENERATION, &generation.to_le_bytes(), &[]) {
        Ok(_) => Ok(log.device()),
        Err(fault) => Err(Unopened {
            fault: append_err(fault),
            store: log.device(),
        }),
    }
}
