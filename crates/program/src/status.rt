// What the program does over any devices, and the status that it ends with.
ghost use Rattle.std.specs.Prelude.{◌≡◌, ◌+◌, false};
ghost use Rattle.spawn_dev.specs.Spawn.{IsIdle};
ghost use Rattle.answers.specs.Answers.{
  exit_status as status_of,
  IfDone,
  IfRefused,
  IsNoFault,
  counts_at,
};
ghost use Rattle.run_orders.specs.Moments.{at_moment, stores_at};
ghost use Rattle.turbo_app.specs.Asking.{IsRefused};
ghost use Rattle.cli_words.specs.Orders.{order_of};
ghost use Rattle.turbo_app.specs.Causes.{IsCaused, IsQuietBy};
ghost use Rattle.turbo_app.specs.Outcomes.{Did};

use rel_path::Text;
use shared_runs::Shared;
use spawn_dev::Spawner;
use std::alloc::Global;
use store_dev::StoreDevice;
use tree_dev::Sink;
use turbo_app::{Answer, turbo};

/// How a call of the program ended: its answer, the exit status, and the devices of the store, of
/// the spare one, of the second one and of the shared file, which are handed back.
#[derive(Drop)]
pub struct Outcome<S, P, R, H> {
    pub answer: Answer,
    pub status: u8,
    pub store: S,
    pub spare: P,
    pub second: R,
    pub shared: H,
}

/// Does what the words ask for, as [`turbo`] does, and says with which status the program ends.
pub fn exit_status<W: Spawner, S: StoreDevice, P: StoreDevice, R: StoreDevice, H: Shared, K: Sink>(
    alloc: Global,
    words: &[Text],
    env: &[(Text, Text)],
    world: &mut W,
    store: S,
    spare: P,
    second: R,
    shared: H,
    out: &mut K,
) -> Outcome<S, P, R, H>
    requires idle { IsIdle (W.runs world.old) }
    requires turn { (H.turn shared).held ≡ false }
    ensures idle { IsIdle (W.runs world.new) }
    ensures turn { (H.turn result.shared).held ≡ false }
    ensures status { result.status ≡ status_of result.answer }
    ensures did { W.tells → S.tells → P.tells → R.tells → H.Device.tells
        → IfDone result.answer (Did words.now (W.effect (W.runs world.old).book) env.now K.tells
        (at_moment W.state W.runs S.content P.content R.content H.content H.coming K.written
        world.old store spare second shared out.old)
        (at_moment W.state W.runs S.content P.content R.content H.content H.coming K.written
        world.new result.store result.spare result.second result.shared out.new)) }
    ensures refused { W.tells → S.tells → P.tells → R.tells → H.Device.tells
        → IfRefused result.answer (IsRefused words.now env.now (W.state world.old).files
        (stores_at S.content P.content R.content H.content H.coming
        store spare second shared)) }
    ensures cause { IsCaused (order_of words.now) H.Device.tells
        (counts_at (W.state world.old) (W.runs world.old)
        (S.store_faults store + P.store_faults spare + R.store_faults second
        + H.store_faults shared) (K.faults out.old))
        (counts_at (W.state world.new) (W.runs world.new)
        (S.store_faults result.store + P.store_faults result.spare
        + R.store_faults result.second + H.store_faults result.shared) (K.faults out.new))
        result.answer }
    ensures quiet { IsQuietBy (order_of words.now) H.Device.tells
        (counts_at (W.state world.old) (W.runs world.old)
        (S.store_faults store + P.store_faults spare + R.store_faults second
        + H.store_faults shared) (K.faults out.old))
        (counts_at (W.state world.new) (W.runs world.new)
        (S.store_faults result.store + P.store_faults result.spare
        + R.store_faults result.second + H.store_faults result.shared) (K.faults out.new))
        → IsNoFault result.answer }
{
    let (answer, store, spare, second, shared) = turbo(
        alloc, words, env, world, store, spare, second, shared, out,
    );
    Outcome {
        status: answer.status(),
        answer,
        store,
        spare,
        second,
        shared,
    }
}
