// A cache in a log: opening it and handing its device back.
ghost use Rattle.std.specs.Prelude.{◌≡◌, Some, length, IsTrue, IfOk, IfErr};
ghost use Rattle.store_dev.specs.Device.{Only};
ghost use Rattle.record_log.specs.Log.{is_whole, generation_in};
ghost use Rattle.blob_pool.specs.Known.{Knows};
ghost use Rattle.pair_reader.specs.Answers.{Ascend};
ghost use Rattle.pair_index.specs.Index.{Indexes};

use crate::{OpenErr, StoreMark};
use blob_pool::Pool;
use pair_index::Index;
use pair_reader::Lengths;
use record_log::{Log, Unopened};
use std::alloc::Global;
use store_dev::StoreDevice;

/// A cache in a device that was opened as a log. It keeps the device by value.
#[derive(Drop)]
pub struct Store<S: StoreDevice> {
    pub(crate) log: Log<S>,
    pub(crate) pool: Pool,
    pub(crate) index: Index,
    // That of the frames, with which the store was opened. No call changes it.
    pub(crate) generation: u64,
    pub ghost knows: { Knows pool log },
    pub ghost indexed: { Indexes index log },
    pub ghost same: { IsTrue (is_whole log) → S.tells → generation ≡ generation_in log },
}

impl<S: StoreDevice> Store<S> {
    ghost use Rattle.artifact_store.specs.Pairs.{stands_for, free_in};
    ghost use Rattle.artifact_store.specs.Store.{device_of, state_of, count_in};
    ghost use Rattle.artifact_store.specs.Opened.{IsOpened, IsUnopened};

    /// Opens a device as a store, whose pairs are those that the device holds, and foresees keys of any length. At most
    /// nine bytes are an empty store, which is then written. What is no store is handed back as it was.
    pub fn open(alloc: Global, store: S) -> Result<Store<S>, Unopened<S, OpenErr>>
        ensures opened { IfOk result (IsOpened store Lengths.All) }
        ensures unopened { IfErr result (IsUnopened S.StoreDevice store) }
    {
        Store::open_for(alloc, store, Lengths::All)
    }

    /// The same, where keys of these lengths alone are foreseen: only their fingerprints are kept, and no content is read
    /// for others.
    pub fn open_for(
        alloc: Global,
        store: S,
        lengths: Lengths,
    ) -> Result<Store<S>, Unopened<S, OpenErr>>
        requires { Ascend lengths }
        ensures opened { IfOk result (IsOpened store lengths) }
        ensures unopened { IfErr result (IsUnopened S.StoreDevice store) }
    {
        Store::resume(alloc, store, StoreMark::new(alloc, lengths))
    }

    /// The device, as the last call left it. While the store may be used, it holds the store's pairs, and a crash leaves
    /// nothing else.
    pub fn device(self) -> S
        ensures device { result ≡ device_of self }
        ensures pairs { S.tells → IsTrue (state_of self).whole
            → stands_for (S.content result) ≡ Some (state_of self).pairs }
        ensures lasts { S.tells → IsTrue (state_of self).whole
            → Only (S.content result) (S.images result) }
        ensures free { S.tells → IsTrue (state_of self).whole
            → (state_of self).room ≡ free_in (S.content result) }
    {
        self.log.device()
    }

    /// Whether the store may be used. It is so from its opening until a `put_all` fails, after which the device is to be
    /// opened again.
    pub fn whole(&self) -> bool
        ensures { result ≡ (state_of self.now).whole }
    {
        self.log.whole()
    }

    /// How many bytes more its frames may take.
    pub fn free(&self) -> u64
        ensures { result ≡ (state_of self.now).room }
    {
        self.log.room()
    }

    /// How often its frames have been read since it was opened, at most the greatest `u64`.
    pub fn probes(&self) -> u64
        ensures { result ≡ (state_of self.now).probes }
    {
        self.log.probes()
    }

    /// How many pairs there are.
    pub fn count(&self) -> u64
        ensures count { result ≡ count_in self.now }
        ensures pairs { S.tells → IsTrue (state_of self.now).whole
            → result ≡ length (state_of self.now).pairs }
    {
        self.index.frames.len() as u64
    }
}
