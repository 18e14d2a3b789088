// The top call.
ghost use Rattle.std.specs.Prelude.{◌≡◌, ◌+◌, ◌++◌, ℕ, false};
ghost use Rattle.store_dev.specs.Device.{LeavesOnly};
ghost use Rattle.spawn_dev.specs.Spawn.{IsIdle};
ghost use Rattle.refusals.specs.Refusals.{line_of, refusal_text};
ghost use Rattle.answers.specs.Answers.{
  Completes,
  IfDone,
  IfRefused,
  HasCauseIn,
  IsNoFault,
  counts_at,
  counts_of,
};
ghost use Rattle.cli_words.specs.Orders.{order_of};
ghost use Rattle.answers.specs.Stops.{IfFault, CutsRefusal};
ghost use Rattle.compact.specs.Left.{IsReread};
ghost use Rattle.file_runs.specs.Images.{StaysSound};
ghost use Rattle.run_orders.specs.Moments.{at_moment, stores_at};
ghost use Rattle.turbo_app.specs.Causes.{IsCaused, IsQuietBy};
ghost use Rattle.turbo_app.specs.Asking.{IsRefused, HasNoOther};
ghost use Rattle.compact.specs.Current.{current_of};
ghost use Rattle.turbo_app.specs.Images.{
  AddsBy,
  AddsToSecond,
  AddsToSharedBy,
  IsSecondBy,
  IsSharedBy,
  IsTrustedIn,
  LastsBy,
  LastsSecondBy,
  LastsSharedBy,
  LeavesBy,
  RereadsBy,
};
ghost use Rattle.turbo_app.specs.Outcomes.{
  AnsweredAlone,
  Did,
  KeepsSecond,
  KeepsShared,
  KeepsStore,
  LeavesAsRefused,
  MayChange,
  RefusedStores,
};
ghost use Rattle.turbo_app.specs.Steps.{IsWordsRefusal};
ghost use Rattle.turbo_app.specs.Stops.{Stopped};

use crate::help::help;
use crate::sampling::sampled;
use answers::{Answer, refuse};
use cli_words::{Order, WordsErr, width_law};
use compact_orders::compact_order;
use prune_orders::prune_order;
use refusals::Refusal;
use rel_path::Text;
use run_orders::run_order;
use shared_runs::Shared;
use spawn_dev::Spawner;
use std::alloc::Global;
use store_dev::StoreDevice;
use tree_dev::Sink;

/// Answers why words are no order.
fn refuse_words<K: Sink>(alloc: Global, fault: WordsErr, out: &mut K) -> Answer
    ensures not_done { IfDone result (λ _. ⊥) }
    ensures refused { IfRefused result (IsWordsRefusal fault) }
    ensures line { K.tells → IfRefused result (λ reason.
        K.written out.new ≡ K.written out.old ++ line_of (refusal_text reason)) }
    ensures stopped { K.tells → IfFault result (λ cause _.
        CutsRefusal (IsWordsRefusal fault) cause (K.written out.old) (K.written out.new)) }
    ensures cause { (tree store start : ℕ) → HasCauseIn
        (counts_of tree store start (K.faults out.old))
        (counts_of tree store start (K.faults out.new)) result }
{
    if fault == WordsErr::OutOfMemory {
        return Answer::OutOfMemory;
    }
    refuse(alloc, Refusal::Words(fault), out)
}

/// Does all that the program does. `words` are those after the program's name, `env` the pairs of
/// the environment. The devices of the store, the spare one, the second store and the shared file
/// are kept while a call goes on, and handed back beside the answer.
///
/// An order to run makes a plan of the repository, opens the stores that it uses, looks tasks up in
/// them and runs the others, and prints the page as it comes; `--dry` says what a run would do. It
/// uses the current one of the store and the spare one; by `--cache` also the second store, or that
/// alone; by `--shared` the shared file in the place of all others. The first word `help`, or none,
/// prints how the program is called. An order to prune writes the files that given packages need
/// below `out`. An order to compact writes the pairs worth keeping of the current store into the
/// other one, which is the current one then. An order to sample runs over devices in memory, and
/// prints what came.
///
/// A refusal's line is all that is printed; nothing was started then and nothing changed, but that
/// an order to prune which is refused for a file that is too large leaves those in front of it, and
/// one to compact which finds no room what it wrote into the other store. What is tried comes in
/// the order of `IsRefused`.
///
/// After a fault of the tree, a store or of starting commands its text is tried once. After want of
/// memory nothing more is printed.
///
/// Whatever it answers, a crash at any moment leaves of the current store the pairs that it had,
/// and behind them some first part of those that are due by what was run so far, or those that
/// compaction keeps. Where they told the truth as the call began, they still do (`truth_law`).
///
/// Why a task is not reported, and that each starts once at most, follows from the steps of a run
/// by the laws of `schedule_laws`; that the page of a run which no failure stops does not depend on
/// the order in which commands end, by that of `page_laws`.
pub fn turbo<W: Spawner, S: StoreDevice, P: StoreDevice, R: StoreDevice, H: Shared, K: Sink>(
    alloc: Global,
    words: &[Text],
    env: &[(Text, Text)],
    world: &mut W,
    store: S,
    spare: P,
    second: R,
    shared: H,
    out: &mut K,
) -> (Answer, S, P, R, H)
    requires idle { IsIdle (W.runs world.old) }
    requires turn { (H.turn shared).held ≡ false }

    // What came to its end.
    ensures did { W.tells → S.tells → P.tells → R.tells → H.Device.tells → IfDone result.0
        (Did words.now (W.effect (W.runs world.old).book) env.now K.tells
        (at_moment W.state W.runs S.content P.content R.content H.content H.coming K.written
        world.old store spare second shared out.old)
        (at_moment W.state W.runs S.content P.content R.content H.content H.coming K.written
        world.new result.1 result.2 result.3 result.4 out.new)) }
    ensures lasts { S.tells → P.tells → IfDone result.0 (λ _.
        LastsBy (order_of words.now) (S.content result.1) (S.images result.1)) }
    ensures spare_lasts { S.tells → P.tells → IfDone result.0 (λ _.
        LastsBy (order_of words.now) (P.content result.2) (P.images result.2)) }
    ensures second_lasts { R.tells → IfDone result.0 (λ _.
        LastsSecondBy (order_of words.now) (R.content result.3) (R.images result.3)) }
    ensures shared_lasts { H.Device.tells → IfDone result.0 (λ _.
        LastsSharedBy (order_of words.now) (H.content result.4) (H.images result.4)) }
    ensures complete { W.tells → S.tells → P.tells → R.tells → H.Device.tells → Completes
        (counts_at (W.state world.old) (W.runs world.old)
        (S.store_faults store + P.store_faults spare + R.store_faults second
        + H.store_faults shared) (K.faults out.old))
        (counts_at (W.state world.new) (W.runs world.new)
        (S.store_faults result.1 + P.store_faults result.2 + R.store_faults result.3
        + H.store_faults result.4) (K.faults out.new))
        (IsRefused words.now env.now (W.state world.old).files
        (stores_at S.content P.content R.content H.content H.coming store spare second shared))
        result.0 }

    // What was refused.
    ensures refused { W.tells → S.tells → P.tells → R.tells → H.Device.tells → IfRefused result.0
        (IsRefused words.now env.now (W.state world.old).files
        (stores_at S.content P.content R.content H.content H.coming store spare second shared)) }
    ensures only { W.tells → S.tells → P.tells → R.tells → H.Device.tells
        → HasNoOther words.now env.now
        (W.state world.old).files
        (stores_at S.content P.content R.content H.content H.coming store spare second shared)
        result.0 }
    ensures unstarted { IfRefused result.0 (λ _. W.runs world.new ≡ W.runs world.old) }
    ensures untouched { IfRefused result.0 (LeavesAsRefused W.tells (order_of words.now)
        (W.state world.old).files (W.state world.new).files) }
    ensures after_refusal { S.tells → P.tells → IfRefused result.0 (RefusedStores
        S.StoreDevice P.StoreDevice (order_of words.now) store result.1 spare result.2) }
    ensures second_reread { R.tells
        → IfRefused result.0 (λ _. IsReread R.StoreDevice second result.3) }
    ensures line { K.tells → IfRefused result.0 (λ reason.
        K.written out.new ≡ K.written out.old ++ line_of (refusal_text reason)) }

    // What was stopped.
    ensures stopped { W.tells → S.tells → P.tells → R.tells → H.Device.tells
        → K.tells → IfFault result.0
        (Stopped words.now (W.effect (W.runs world.old).book) env.now K.tells
        (at_moment W.state W.runs S.content P.content R.content H.content H.coming K.written
        world.old store spare second shared out.old)
        (at_moment W.state W.runs S.content P.content R.content H.content H.coming K.written
        world.new result.1 result.2 result.3 result.4 out.new)) }

    // What no device has a say in.
    ensures alone { AnsweredAlone (order_of words.now) K.tells
        (K.written out.old) (K.written out.new) result.0 }
    ensures kept { KeepsStore (order_of words.now) store result.1 }
    ensures spare_kept { KeepsStore (order_of words.now) spare result.2 }
    ensures second_kept { KeepsSecond (order_of words.now) second result.3 }
    ensures shared_kept { KeepsShared (order_of words.now) shared result.4 }

    // Whatever it answers.
    ensures turn { (H.turn result.4).held ≡ false }
    ensures idle { IsIdle (W.runs world.new) }
    ensures book { (W.runs world.new).book ≡ (W.runs world.old).book }
    ensures elsewhere { W.tells
        → MayChange words.now env.now (W.state world.old).files (W.state world.new).files }
    ensures adds { S.tells → P.tells → R.tells
        → LeavesOnly S.moment S.images_since store result.1
        (AddsBy (order_of words.now) (S.images store)) }
    ensures spare_adds { S.tells → P.tells → R.tells
        → LeavesOnly P.moment P.images_since spare result.2
        (AddsBy (order_of words.now) (P.images spare)) }
    ensures second_adds { S.tells → P.tells → R.tells
        → LeavesOnly R.moment R.images_since second result.3
        (AddsToSecond (order_of words.now) (R.images second)) }
    ensures shared_sound { H.Device.tells → StaysSound H.Shared shared result.4 }
    ensures shared_adds { H.Device.tells → LeavesOnly H.moment H.images_since shared result.4
        (AddsToSharedBy H.Shared shared (order_of words.now)
        (at_moment W.state W.runs S.content P.content R.content H.content H.coming K.written
        world.old store spare second shared out.old)) }
    ensures other { S.tells → P.tells → RereadsBy S.StoreDevice P.StoreDevice
        (order_of words.now) (current_of (S.content store) (P.content spare))
        store result.1 spare result.2 }
    ensures left { W.tells → S.tells → P.tells → R.tells → H.Device.tells → IsTrustedIn words.now
        (W.effect (W.runs world.old).book) env.now
        (at_moment W.state W.runs S.content P.content R.content H.content H.coming K.written
        world.old store spare second shared out.old)
        → LeavesBy S.StoreDevice P.StoreDevice (order_of words.now)
        (W.effect (W.runs world.old).book) env.now
        (at_moment W.state W.runs S.content P.content R.content H.content H.coming K.written
        world.old store spare second shared out.old)
        (W.runs world.new).steps store result.1 spare result.2 }
    ensures second_left { W.tells → S.tells → P.tells → R.tells → H.Device.tells
        → IsTrustedIn words.now
        (W.effect (W.runs world.old).book) env.now
        (at_moment W.state W.runs S.content P.content R.content H.content H.coming K.written
        world.old store spare second shared out.old)
        → LeavesOnly R.moment R.images_since second result.3 (IsSecondBy (order_of words.now)
        (W.effect (W.runs world.old).book) env.now
        (at_moment W.state W.runs S.content P.content R.content H.content H.coming K.written
        world.old store spare second shared out.old)
        (W.runs world.new).steps (R.images second)) }
    ensures shared_left { W.tells → S.tells → P.tells → R.tells → H.Device.tells
        → IsTrustedIn words.now
        (W.effect (W.runs world.old).book) env.now
        (at_moment W.state W.runs S.content P.content R.content H.content H.coming K.written
        world.old store spare second shared out.old)
        → LeavesOnly H.moment H.images_since shared result.4
        (IsSharedBy H.Shared shared (order_of words.now) (W.effect (W.runs world.old).book) env.now
        (at_moment W.state W.runs S.content P.content R.content H.content H.coming K.written
        world.old store spare second shared out.old)
        (at_moment W.state W.runs S.content P.content R.content H.content H.coming K.written
        world.new result.1 result.2 result.3 result.4 out.new)) }
    ensures cause { IsCaused (order_of words.now) H.Device.tells
        (counts_at (W.state world.old) (W.runs world.old)
        (S.store_faults store + P.store_faults spare + R.store_faults second
        + H.store_faults shared) (K.faults out.old))
        (counts_at (W.state world.new) (W.runs world.new)
        (S.store_faults result.1 + P.store_faults result.2 + R.store_faults result.3
        + H.store_faults result.4) (K.faults out.new)) result.0 }
    ensures quiet { IsQuietBy (order_of words.now) H.Device.tells
        (counts_at (W.state world.old) (W.runs world.old)
        (S.store_faults store + P.store_faults spare + R.store_faults second
        + H.store_faults shared) (K.faults out.old))
        (counts_at (W.state world.new) (W.runs world.new)
        (S.store_faults result.1 + P.store_faults result.2 + R.store_faults result.3
        + H.store_faults result.4) (K.faults out.new))
        → IsNoFault result.0 }
{
    width_law();
    match Order::read(alloc, words) {
        Ok(Order::Run(order)) => run_order(
            alloc, &order, env, world, store, spare, second, shared, out,
        ),
        Ok(Order::Help) => (help(alloc, out), store, spare, second, shared),
        Ok(Order::Prune { targets, docker }) => (
            prune_order(alloc, &targets, docker, world, out),
            store,
            spare,
            second,
            shared,
        ),
        Ok(Order::Compact { keep }) => {
            let (answer, store, spare) = compact_order(alloc, keep, store, spare, out);
            (answer, store, spare, second, shared)
        }
        Ok(Order::Sample { size }) => (sampled(alloc, size, out), store, spare, second, shared),
        Err(fault) => (
            refuse_words(alloc, fault, out),
            store,
            spare,
            second,
            shared,
        ),
    }
}
