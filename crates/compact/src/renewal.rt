// Compacting a store into a spare one.
ghost use Rattle.std.specs.Prelude.{◌≡◌, ◌+◌, [], List, ℕ, Err, IsTrue, IfOk, IfErr, OnOk};
ghost use Rattle.store_dev.specs.Device.{LeavesOnly};
ghost use Rattle.artifact_store.specs.Store.{state_of, OnlyReadsStore};
ghost use Rattle.compact.specs.declared.side.Side.{Side};
ghost use Rattle.compact.specs.Answers.{CountsBoth, is_fault, IsCompactErr, IsNotFrom, IsNotTo};
ghost use Rattle.compact.specs.Answers.{IsLastWhere, IsNoRoomWhere};
ghost use Rattle.compact.specs.Chosen.{chosen};
ghost use Rattle.compact.specs.Current.{generation_in, pairs_held, IsCurrent, IsCurrentOn};
ghost use Rattle.compact.specs.Current.{pairs_by};
ghost use Rattle.compact.specs.Left.{ReadsAs, Rests, StillRests, RestsAs, IsUnsealed, IsRenewing};
ghost use Rattle.compact.specs.Left.{chosen_in, next_generation, IsCountOf, IsCountIn, IsEither};
ghost use Rattle.compact.specs.Left.{IsAfter};
ghost use Rattle.compact.specs.Room.{lacking};
ghost use Rattle.compact.specs.Sources.{IsRenewErr, LeavesRefused};

use crate::choose::choose;
use crate::source::opened;
use crate::steps::rewritten;
use crate::{CompactErr, Kept};
use artifact_store::Store;
use record_log::Unopened;
use std::alloc::Global;
use store_dev::StoreDevice;

/// Writes the pairs worth keeping into a spare store, the last so many of them or all, and makes
/// it the current one. The store that is read has to be the current one of the two. Both devices
/// are handed back.
pub fn compact<S: StoreDevice, P: StoreDevice>(
    alloc: Global,
    from: S,
    to: P,
    keep: Option<u64>,
) -> (Result<Kept, CompactErr>, S, P)
    requires current { S.tells → P.tells → IsCurrent (S.content from) (P.content to) }
    requires from { S.tells → Rests S.StoreDevice from }
    requires to { P.tells → Rests P.StoreDevice to }

    // After `Ok` the spare store has what is worth keeping, and the next generation.
    ensures counts { S.tells → IfOk result.0 (IsCountOf (S.content from) keep) }
    ensures renewed { S.tells → P.tells → OnOk result.0 (RestsAs P.StoreDevice
        (next_generation (S.content from)) (chosen_in (S.content from) keep) result.2) }
    ensures still { S.tells → OnOk result.0 (StillRests S.StoreDevice from result.1) }

    // whatever it answers
    ensures from_left { S.tells → LeavesOnly S.moment S.images_since from result.1
        (ReadsAs (S.content from)) }
    ensures to_left { S.tells → P.tells → LeavesOnly P.moment P.images_since to result.2
        (IsRenewing (generation_in (P.content to)) (next_generation (S.content from))
        (chosen_in (S.content from) keep)) }

    // At every moment, for each image of the one with each image of the other, in the order in
    // which the store that is read was current: the current one has the pairs that there were, or
    // those that are worth keeping.
    ensures moments { S.tells → P.tells → (side : Side)
        → IsCurrentOn side (S.content from) (P.content to) → (f t : List ℕ)
        → S.images_since result.1 (S.moment from) f → P.images_since result.2 (P.moment to) t
        → IsEither (pairs_held (S.content from)) (chosen_in (S.content from) keep)
        (pairs_by side f t) }
    ensures after { S.tells → P.tells → (side : Side)
        → IsCurrentOn side (S.content from) (P.content to) → (f t : List ℕ)
        → S.images result.1 f → P.images result.2 t
        → IsAfter result.0 (pairs_held (S.content from)) (chosen_in (S.content from) keep)
        (pairs_by side f t) }

    ensures last { S.tells → IsLastWhere result.0 (generation_in (S.content from)) }
    ensures untouched { result.0 ≡ Err CompactErr.LastGeneration → result.2 ≡ to }
    ensures room { S.tells → P.tells → IsNoRoomWhere result.0
        (lacking (next_generation (S.content from)) [] (chosen_in (S.content from) keep)) }
    ensures answers { IfErr result.0 IsCompactErr }
    ensures from_sound { S.tells → IfErr result.0 IsNotFrom }
    ensures to_sound { P.tells → IfErr result.0 IsNotTo }
    ensures cause { CountsBoth is_fault (S.store_faults from) (S.store_faults result.1)
        (P.store_faults to) (P.store_faults result.2) result.0 }
{
    match opened(alloc, from) {
        Err(Unopened { fault, store }) => (Err(fault), store, to),
        Ok((source, generation)) => {
            let mut source = source;
            let (result, spare) = renewed(alloc, &mut source, to, keep, generation);
            (result, source.device(), spare)
        }
    }
}

/// The same from a store that was opened and has that generation.
fn renewed<S: StoreDevice, P: StoreDevice>(
    alloc: Global,
    from: &mut Store<S>,
    to: P,
    keep: Option<u64>,
    generation: u64,
) -> (Result<Kept, CompactErr>, P)
    requires whole { IsTrue (state_of from.old).whole }
    requires rests { P.tells → Rests P.StoreDevice to }
    ensures counts { S.tells → IfOk result.0 (IsCountIn (state_of from.old).pairs keep) }
    ensures renewed { S.tells → P.tells → OnOk result.0 (RestsAs P.StoreDevice
        (generation + 1) (chosen (state_of from.old).pairs keep) result.1) }
    ensures room { S.tells → P.tells → IsNoRoomWhere result.0
        (lacking (generation + 1) [] (chosen (state_of from.old).pairs keep)) }
    ensures last { IsLastWhere result.0 generation }
    ensures untouched { result.0 ≡ Err CompactErr.LastGeneration → result.1 ≡ to }
    ensures reads { OnlyReadsStore from.old from.new }
    ensures images { S.tells → P.tells → LeavesOnly P.moment P.images_since to result.1
        (IsRenewing (generation_in (P.content to)) (generation + 1)
        (chosen (state_of from.old).pairs keep)) }
    ensures refused { S.tells → P.tells → IfErr result.0 (λ e. LeavesRefused e
        (P.images result.1) (IsUnsealed (generation_in (P.content to)))) }
    ensures answers { IfErr result.0 IsRenewErr }
    ensures sound { P.tells → IfErr result.0 IsNotTo }
    ensures cause { CountsBoth is_fault (state_of from.old).faults (state_of from.new).faults
        (P.store_faults to) (P.store_faults result.1) result.0 }
{
    if generation == u64::MAX {
        return (Err(CompactErr::LastGeneration), to);
    }
    let before = from.count();
    let numbers = match choose(alloc, from, keep) {
        Ok(numbers) => numbers,
        Err(fault) => return (Err(CompactErr::from(fault)), to),
    };
    let kept = numbers.len() as u64;
    match rewritten(alloc, from, to, numbers.as_slice(), generation + 1) {
        Ok(to) => (Ok(Kept { kept, before }), to),
        Err(Unopened { fault, store }) => (Err(fault), store),
    }
}
