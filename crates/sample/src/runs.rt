// The runs.
ghost use Rattle.std.specs.Prelude.{◌≡◌, ◌≢◌, ℕ, List, [], false, Ok, IfOk, IsOkUnless};
ghost use Rattle.std.specs.Prelude.{IsSome, IfSome, IfNone, string_bytes};
ghost use Rattle.cli_words.specs.Orders.{order_of};
ghost use Rattle.cli_words.specs.declared.order.Order.TheVariants.{Run};
ghost use Rattle.store_dev.specs.MemStore.{bytes_of};
ghost use Rattle.spawn_dev.specs.MemWorld.{runs_of};
ghost use Rattle.spawn_dev.specs.Spawn.{IsIdle};
ghost use Rattle.shared_runs.specs.MemShared.{turn_of};
ghost use Rattle.answers.specs.Answers.{IfRefused, exit_status};
ghost use Rattle.sample_repository.specs.Repository.{IsSize};
ghost use Rattle.sample.specs.Lines.{text_in};
ghost use Rattle.sample.specs.Runs.{
  IsTold,
  LeavesAlone,
  Runs,
  RunsTo,
  build_order,
  build_words,
  changed,
  first_state,
};
ghost use Rattle.sample.specs.Stages.{state_in};
ghost use Rattle.sample.specs.States.{state_at};

use crate::lines::{pages_line, push_run, size_line};
use crate::stage::Stage;
use answers::Answer;
use cli_words::{Access, KeepOn, RunOrder};
use page::PageErr;
use rel_path::{Bytes, Text, Texts};
use run_orders::run_order;
use sample_repository::{changed_world, sample_world};
use shared_runs::MemShared;
use spawn_dev::MemWorld;
use std::alloc::Global;
use store_dev::MemStore;
use tree_dev::MemSink;

/// How many commands may run at once.
const WIDTH: u32 = 4;

/// The local store alone, as where no option says it.
const LOCAL_ALONE: Access = Access {
    local_reads: true,
    local_puts: true,
    second_reads: false,
    second_puts: false,
};

/// `run build --concurrency=4`.
#[tactic(auto, using(crate::proofs::Words::words_law))]
pub(crate) fn build_order(alloc: Global) -> Result<RunOrder, PageErr>
    ensures value { IfOk result (λ order. order ≡ build_order) }
    ensures words { order_of build_words ≡ Ok (Run build_order) }
    ensures memory { IsOkUnless result PageErr.OutOfMemory }
{
    let mut tasks = Texts::new(alloc);
    tasks.push(Text::read(alloc, "build")?)?;
    Ok(RunOrder {
        tasks,
        filters: Texts::new(alloc),
        args: Texts::new(alloc),
        width: WIDTH,
        force: false,
        dry: false,
        keep_on: KeepOn::Never,
        logs: None,
        env_word: None,
        access: LOCAL_ALONE,
        shared: false,
    })
}

// A run without an environment, over these two stores alone. Of the clauses of `run_order` a sample
// needs these.
fn run_once(
    alloc: Global,
    order: &RunOrder,
    world: &mut MemWorld,
    store: MemStore,
    spare: MemStore,
    out: &mut MemSink,
) -> (Answer, MemStore, MemStore)
    requires order { order.now ≡ build_order }
    requires idle { IsIdle (runs_of world.old) }
    ensures runs { (before after : List ℕ) → Runs (runs_of world.old).book
        (state_at world.old store spare out.old before)
        (state_at world.new result.1 result.2 out.new after) result.0 }
    ensures kept { (before after : List ℕ) → IfRefused result.0 (LeavesAlone
        (state_at world.old store spare out.old before)
        (state_at world.new result.1 result.2 out.new after)) }
    ensures idle { IsIdle (runs_of world.new) }
    ensures book { (runs_of world.new).book ≡ (runs_of world.old).book }
{
    let (answer, store, spare, _second, _shared) = run_order(
        alloc,
        order,
        &[],
        world,
        store,
        spare,
        no_store(alloc),
        no_file(alloc),
        out,
    );
    (answer, store, spare)
}

/// The exit status of a run. After want of memory there is none.
fn ended(answer: Answer) -> Option<u8>
    ensures status { IfSome result (λ status. status ≡ exit_status answer) }
    ensures remembered { IsSome result → answer ≢ Answer.OutOfMemory }
    ensures wanting { IfNone result (answer ≡ Answer.OutOfMemory) }
{
    let status = answer.status();
    match answer {
        Answer::OutOfMemory => None,
        _ => Some(status),
    }
}

/// Makes a run, and answers its exit status. After want of memory there is none.
fn run_status(
    alloc: Global,
    world: &mut MemWorld,
    store: MemStore,
    spare: MemStore,
    out: &mut MemSink,
) -> Result<(u8, MemStore, MemStore), PageErr>
    requires { IsIdle (runs_of world.old) }
    ensures runs { (before after : List ℕ) → IfOk result (λ made.
        RunsTo (runs_of world.old).book (state_at world.old store spare out.old before)
        (state_at world.new made.1 made.2 out.new after) made.0) }
    ensures idle { IsIdle (runs_of world.new) }
    ensures book { (runs_of world.new).book ≡ (runs_of world.old).book }
    ensures memory { IsOkUnless result PageErr.OutOfMemory }
{
    let order = build_order(alloc)?;
    let (answer, store, spare) = run_once(alloc, &order, world, store, spare, out);
    match ended(answer) {
        None => Err(PageErr::OutOfMemory),
        Some(status) => Ok((status, store, spare)),
    }
}

/// An empty file that no other run uses, no call of which fails.
fn no_file(alloc: Global) -> MemShared
    ensures { (turn_of result).held ≡ false }
{
    MemShared::new(
        alloc,
        Bytes::from_vec(Vec::new(alloc)),
        Vec::new(alloc),
        Vec::new(alloc),
    )
}

/// An empty store, no call of which fails.
fn no_store(alloc: Global) -> MemStore
    ensures { bytes_of result ≡ [] }
{
    MemStore::new(alloc, Bytes::from_vec(Vec::new(alloc)), Vec::new(alloc))
}

impl Stage {
    /// The repository of n packages and two empty stores, before the first run.
    pub(crate) fn new(alloc: Global, n: u32) -> Result<Stage, PageErr>
        requires { IsSize n }
        ensures size { IfOk result (λ stage. stage.n ≡ n) }
        ensures first { IfOk result (λ stage. state_in stage ≡ first_state n) }
        ensures memory { IsOkUnless result PageErr.OutOfMemory }
    {
        Ok(Stage {
            n,
            world: sample_world(alloc, n)?,
            store: no_store(alloc),
            spare: no_store(alloc),
            pages: MemSink::new(alloc, Vec::new(alloc)),
            lines: size_line(alloc, n)?,
        })
    }

    /// Makes the run of this number, and puts its line behind the others.
    pub(crate) fn run(self, alloc: Global, run: u32) -> Result<Stage, PageErr>
        ensures size { IfOk result (λ made. made.n ≡ self.n) }
        ensures told { IfOk result (λ made. IsTold self.n run (state_in self) (state_in made)) }
        ensures memory { IsOkUnless result PageErr.OutOfMemory }
    {
        let Stage {
            n,
            mut world,
            store,
            spare,
            mut pages,
            mut lines,
        } = self;
        let before = world.starts().as_slice().len();
        let (status, store, spare) = run_status(alloc, &mut world, store, spare, &mut pages)?;
        let started = world.starts().as_slice().len().saturating_sub(before);
        push_run(alloc, &mut lines, n, run, started, status)?;
        Ok(Stage {
            n,
            world,
            store,
            spare,
            pages,
            lines,
        })
    }

    /// Puts this byte in the place of the first one of a package's source.
    pub(crate) fn change(self, alloc: Global, number: u32, first: u8) -> Result<Stage, PageErr>
        ensures size { IfOk result (λ stage. stage.n ≡ self.n) }
        ensures changed { IfOk result (λ stage.
            state_in stage ≡ changed number first (state_in self)) }
        ensures memory { IsOkUnless result PageErr.OutOfMemory }
    {
        let Stage {
            n,
            world,
            store,
            spare,
            pages,
            lines,
        } = self;
        let world = changed_world(alloc, n, world.files(), number, first)?;
        Ok(Stage {
            n,
            world,
            store,
            spare,
            pages,
            lines,
        })
    }

    /// The lines, and behind them the digits of all that the runs printed.
    pub(crate) fn text(self, alloc: Global) -> Result<String, PageErr>
        ensures text { IfOk result (λ text. string_bytes text ≡ text_in (state_in self)) }
        ensures memory { IsOkUnless result PageErr.OutOfMemory }
    {
        let digits = pages_line(alloc, self.pages.written())?;
        let mut text = self.lines;
        text.push_str(digits.as_str())?;
        Ok(text)
    }
}
