// One run's cache in a file that several runs use.
ghost use Rattle.std.specs.Prelude.{◌≡◌, ◌<◌, [], Some, true, false, is_some, IfOk, IfErr};
ghost use Rattle.std.specs.List.{All};
ghost use Rattle.artifact_store.specs.declared.mark.StoreMark.{StoreMark};
ghost use Rattle.shared_runs.specs.Views.{Sees};
ghost use Rattle.shared_runs.specs.Marked.{IsKept};

use crate::Shared;
use crate::first::{FirstTurn, first_turn};
use crate::turns::Turns;
use artifact_store::{OpenErr, StoreMark};
use pair_index::{Numbers, SeenPairs};
use record_log::Unopened;
use std::alloc::Global;

/// One run's cache in a file that several runs use. It sees the pairs of its first turn and those
/// that it puts itself.
///
/// Each call takes the turn, reads the frames that came since, does its work, syncs and gives the
/// turn back, whatever it answers. After a call that answered an error no further turn is taken.
#[derive(Drop)]
pub struct SharedStore<H: Shared> {
    pub(crate) turns: Turns<H>,
    pub(crate) seen: SeenPairs,
    // The numbers of the own pairs are below this one.
    pub(crate) next: u64,
    pub ghost idle: { (H.turn turns.shared).held ≡ false },
    // A told file is found to be a store at each turn.
    pub ghost undamaged: { H.Device.tells → turns.damaged ≡ 0 },
    pub ghost below: { All (λ n. n < next) seen.own },
    pub ghost sees: { H.Device.tells → Sees seen turns.room (H.content turns.shared) },
    pub ghost kept: { (m : StoreMark) → turns.mark ≡ Some m → H.Device.tells
        → IsKept m next (H.content turns.shared) (H.images turns.shared) },
}

impl<H: Shared> SharedStore<H> {
    ghost use Rattle.shared_runs.specs.First.{TellsFile};
    ghost use Rattle.shared_runs.specs.Opened.{IsOpened, IsUnopened};
    ghost use Rattle.shared_runs.specs.Shared.{state_of};

    /// Takes the first turn, and opens the file as a store, which is then written where at most
    /// nine bytes stand in it. The pairs are those that it finds. What is no store is handed back,
    /// and its turn is not held.
    pub fn open(alloc: Global, shared: H) -> Result<SharedStore<H>, Unopened<H, OpenErr>>
        requires { (H.turn shared).held ≡ false }
        ensures opened { IfOk result (IsOpened H.Shared H.Device.StoreDevice shared) }
        ensures unopened { IfErr result (IsUnopened H.Shared H.Device.StoreDevice shared) }
    {
        let mut shared = shared;
        match first_turn(alloc, &mut shared) {
            Ok(turn) => {
                let FirstTurn { mark, pairs, room } = turn;
                Ok(SharedStore::begun(alloc, shared, mark, pairs, room))
            }
            Err(fault) => Err(Unopened {
                fault,
                store: shared,
            }),
        }
    }

    /// The cache of a run whose first turn ended, with what it told of the file.
    fn begun(alloc: Global, shared: H, mark: StoreMark, first: u64, room: u64) -> SharedStore<H>
        requires turn { (H.turn shared).held ≡ false }
        requires file { H.Device.tells
            → TellsFile mark first room (H.content shared) (H.images shared) }
        ensures shared { result.turns.shared ≡ shared }
        ensures first { result.seen.first ≡ first }
        ensures own { result.seen.own ≡ [] }
        ensures whole { is_some result.turns.mark ≡ true }
        ensures damaged { result.turns.damaged ≡ 0 }
        ensures reads { result.turns.reads ≡ 0 }
    {
        SharedStore {
            turns: Turns {
                shared,
                mark: Some(mark),
                room,
                count: first,
                damaged: 0,
                reads: 0,
            },
            seen: SeenPairs {
                first,
                own: Numbers::new(alloc),
            },
            next: 0,
        }
    }

    /// How often its calls have read the file's frames, at most the greatest `u64`. What the taking
    /// of a turn reads of others' frames is not counted.
    pub fn probes(&self) -> u64
        ensures { result ≡ (state_of self.now).probes }
    {
        self.turns.reads
    }

    /// The file, whose turn is not held.
    pub fn shared(self) -> H
        ensures turn { (H.turn result).held ≡ false }
        ensures file { result ≡ self.turns.shared }
    {
        self.turns.shared
    }
}
