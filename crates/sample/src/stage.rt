// What stands between two runs.
ghost use Rattle.std.specs.Prelude.{◌≡◌};
ghost use Rattle.spawn_dev.specs.MemWorld.{runs_of};
ghost use Rattle.spawn_dev.specs.Spawn.{IsIdle};
ghost use Rattle.sample_repository.specs.Repository.{sample_rules};

use spawn_dev::MemWorld;
use store_dev::MemStore;
use tree_dev::MemSink;

/// What stands between two runs: the repository of n packages, its stores, all that the runs
/// printed so far, and the lines that tell of them. No command runs.
#[derive(Drop)]
pub(crate) struct Stage {
    pub(crate) n: u32,
    pub(crate) world: MemWorld,
    pub(crate) store: MemStore,
    pub(crate) spare: MemStore,
    pub(crate) pages: MemSink,
    pub(crate) lines: String,
    ghost idle: { IsIdle (runs_of world) },
    ghost book: { (runs_of world).book ≡ sample_rules n },
}
