// A world in memory, in which commands do what a book says.
ghost use Rattle.std.specs.Prelude.{◌≡◌, ◌<◌, ◌≤◌, ◌∷◌, ◌++◌, [], ℕ, true, false, Some, None, List, length, IfOk, OnOk, OnErr};
ghost use Rattle.std.specs.List.{All};
ghost use Rattle.std.specs.List.Sorted.{IsStrictlySortedBy};
ghost use Rattle.rel_path.specs.Limits.{log_limit};
ghost use Rattle.rel_path.specs.Paths.{Path};
ghost use Rattle.rel_path.specs.Files.{file_at, SameBut};
ghost use Rattle.tree_dev.specs.Cause.{HasCause};
ghost use Rattle.tree_dev.specs.Names.{NamesIn, IsProper, entry_cmp};
ghost use Rattle.tree_dev.specs.Tree.{Keeps, Looks, within};
ghost use Rattle.tree_dev.specs.Turns.{FailsAsTold};
ghost use Rattle.spawn_dev.specs.Books.{effect_of};
ghost use Rattle.spawn_dev.specs.Progress.{will_at, held_at, starts_in};
ghost use Rattle.spawn_dev.specs.Spawn.{Runs, live, IsBusy, KeepsClear, OwnsNothing, SameTree, Starts, BeginsAs, Refuses, IsOver, EndsAs, KeepsWill};
ghost use Rattle.spawn_dev.specs.World.{ends_at};
ghost use Rattle.spawn_dev.specs.declared.book.Rule.{Rule};
ghost use Rattle.spawn_dev.specs.BookLaws.{behaves};
ghost use Rattle.spawn_dev.specs.WorldLaws.{held_is_owned};

use crate::effect::Running;
use crate::evaluate::effect_of;
use crate::progress::Progress;
use crate::{Book, Command, Ended, Spawner};
use rel_path::limits::MAX_LOG_BYTES;
use rel_path::{Files, Places, RelPath};
use std::alloc::Global;
use tree_dev::{DevErr, Entries, Found, MemTree, Tree, count_fault};

/// A world in memory. The call number k, counted from 0 over all its calls, those of the tree among them,
/// fails where k stands in its `fails`; a `wait` fails also where the log is over the limit. The k-th `wait`
/// ends the command at the index `ends[k]`, modulo the number of those that run, in order of start; past the
/// list's end, the first. A `wait` that fails ends its command too, whose files are not written then.
#[derive(Drop)]
pub struct MemWorld {
    tree: MemTree,
    book: Book,
    ends: Vec<u32>,
    waits: usize,
    progress: Progress,
    faults: u64,
    // no file that a running command owns stands in the tree
    ghost absent: { (path : Path) → held_at progress.running.items path ≡ true → (⟦<MemTree as Tree>⟧.state tree).files path ≡ None },
}

impl MemWorld {
    ghost use Rattle.spawn_dev.specs.MemWorld.{turns_of, order_of, ends_of, waits_of};

    /// A world with these files and this book, in which nothing was started. It takes no memory.
    pub fn new(alloc: Global, files: Files, book: Book, ends: Vec<u32>, fails: Vec<u64>) -> MemWorld
        ensures files { (⟦<MemWorld as Tree>⟧.state result).files ≡ file_at files }
        ensures held { (⟦<MemWorld as Tree>⟧.state result).held ≡ (λ _. false) }
        ensures faults { (⟦<MemWorld as Tree>⟧.state result).faults ≡ 0 }
        ensures turns { turns_of result ≡ record { fails = fails; next = 0 } }
        ensures order { order_of result ≡ [] }
        ensures ends { ends_of result ≡ ends.items }
        ensures waits { waits_of result ≡ 0 }
        ensures runs { ⟦<MemWorld as Spawner>⟧.runs result
            ≡ record {
              book = book;
              at = λ _. None;
              will = will_at [];
              steps = [];
              count = 0;
              faults = 0;
            } }
    {
        MemWorld {
            tree: MemTree::new(alloc, files, fails),
            book,
            ends,
            waits: 0,
            progress: Progress::new(alloc),
            faults: 0,
        }
    }

    pub fn files(&self) -> &Files
        ensures { (⟦<MemWorld as Tree>⟧.state self.now).files ≡ file_at result.now }
    {
        self.tree.files()
    }

    /// The places of all starts so far, in order.
    pub fn starts(&self) -> &Places
        ensures { result.now ≡ starts_in (⟦<MemWorld as Spawner>⟧.runs self.now).steps }
    {
        self.progress.starts()
    }
}

impl Tree for MemWorld {
    ghost use Rattle.spawn_dev.specs.MemWorld.{state_of, turns_of, KeepsOrder};

    ghost tells = { Unit {0} };

    ghost Rest = { Runs (List Rule) };

    ghost state = { state_of };

    fn list(&mut self, alloc: Global, folder: &RelPath) -> Result<Entries, DevErr>
        ensures looks { Looks (state_of self.old) (state_of self.new) }
        ensures ascend { IfOk result (λ names. IsStrictlySortedBy entry_cmp names) }
        ensures proper { IfOk result
            (λ names. All (IsProper (state_of self.old).reach folder.now) names) }
        ensures names { IfOk result
            (λ names. NamesIn (state_of self.old).files (state_of self.old).held folder.now names) }
        ensures cause { HasCause (state_of self.old).faults (state_of self.new).faults result }
        ensures told { FailsAsTold (turns_of self.old) (turns_of self.new) result }
        ensures order { KeepsOrder self.old self.new }
    {
        self.tree.list(alloc, folder)
    }

    fn read(&mut self, alloc: Global, path: &RelPath, limit: u64) -> Result<Found, DevErr>
        ensures looks { Looks (state_of self.old) (state_of self.new) }
        ensures found { IfOk result
            (λ found. found ≡ within limit ((state_of self.old).files path.now)) }
        ensures cause { HasCause (state_of self.old).faults (state_of self.new).faults result }
        ensures told { FailsAsTold (turns_of self.old) (turns_of self.new) result }
        ensures order { KeepsOrder self.old self.new }
    {
        self.tree.read(alloc, path, limit)
    }

    fn write(&mut self, alloc: Global, path: &RelPath, bytes: &[u8]) -> Result<(), DevErr>
        requires { (state_of self.old).held path.now ≡ false }
        ensures keeps { Keeps (state_of self.old) (state_of self.new) }
        ensures others { SameBut path.now (state_of self.old).files (state_of self.new).files }
        ensures written { OnOk result ((state_of self.new).files path.now ≡ Some bytes.now) }
        ensures cause { HasCause (state_of self.old).faults (state_of self.new).faults result }
        ensures told { FailsAsTold (turns_of self.old) (turns_of self.new) result }
        ensures order { KeepsOrder self.old self.new }
        ensures kept { OnErr result ((state_of self.new).files ≡ (state_of self.old).files) }
    {
        self.tree.write(alloc, path, bytes)
    }

    fn remove(&mut self, alloc: Global, path: &RelPath) -> Result<(), DevErr>
        requires { (state_of self.old).held path.now ≡ false }
        ensures keeps { Keeps (state_of self.old) (state_of self.new) }
        ensures reach { (state_of self.new).reach ≤ (state_of self.old).reach }
        ensures others { SameBut path.now (state_of self.old).files (state_of self.new).files }
        ensures removed { OnOk result ((state_of self.new).files path.now ≡ None) }
        ensures cause { HasCause (state_of self.old).faults (state_of self.new).faults result }
        ensures told { FailsAsTold (turns_of self.old) (turns_of self.new) result }
        ensures order { KeepsOrder self.old self.new }
        ensures kept { OnErr result ((state_of self.new).files ≡ (state_of self.old).files) }
    {
        self.tree.remove(alloc, path)
    }

    ghost apart = { λ a told path held. a.absent path held };
}

impl Spawner for MemWorld {
    ghost use Rattle.spawn_dev.specs.MemWorld.{state_of, runs_of, turns_of, order_of, WaitsAsTold, KeepsWaits};

    ghost Book = { List Rule };

    ghost effect = { effect_of };

    ghost runs = { runs_of };

    fn start(&mut self, alloc: Global, command: Command) -> Result<(), DevErr>
        requires fresh { live (runs_of self.old) command.place ≡ false }
        requires absent { OwnsNothing command (state_of self.old).files }
        requires clear { KeepsClear command (runs_of self.old) }
        ensures tree { SameTree (state_of self.old) (state_of self.new) }
        ensures book { (runs_of self.new).book ≡ (runs_of self.old).book }
        ensures started { OnOk result (Starts command (runs_of self.old) (runs_of self.new)) }
        ensures begins { OnOk result
            (BeginsAs effect_of (state_of self.old).files command (runs_of self.old)
            (runs_of self.new)) }
        ensures refused { OnErr result (Refuses (runs_of self.old) (runs_of self.new)) }
        ensures others { KeepsWill (runs_of self.old) (runs_of self.new) }
        ensures cause { HasCause (runs_of self.old).faults (runs_of self.new).faults result }
        ensures told { FailsAsTold (turns_of self.old) (turns_of self.new) result }
        ensures order { OnOk result (order_of self.new ≡ order_of self.old ++ command.place ∷ []) }
        ensures kept { OnErr result (order_of self.new ≡ order_of self.old) }
        ensures waits { KeepsWaits self.old self.new }
    {
        if self.tree.fails_now() {
            count_fault(&mut self.faults);
            return Err(DevErr::Failed);
        }
        let effect = effect_of(
            alloc,
            self.book.as_slice(),
            self.tree.files().as_slice(),
            &command,
        )?;
        self.progress.start(command, effect)?;
        Ok(())
    }

    fn wait(&mut self, _alloc: Global) -> Result<Ended, DevErr>
        requires busy { IsBusy (runs_of self.old) }
        ensures tree { (state_of self.new).faults ≡ (state_of self.old).faults }
        ensures book { (runs_of self.new).book ≡ (runs_of self.old).book }
        ensures over { IfOk result
            (λ ended. IsOver ended.place (runs_of self.old) (runs_of self.new)
            (state_of self.old).files (state_of self.new).files) }
        ensures ends { IfOk result
            (λ ended. EndsAs ended (runs_of self.old) (runs_of self.new) (state_of self.old).files
            (state_of self.new).files) }
        ensures short { IfOk result (λ ended. length ended.log ≤ log_limit) }
        ensures failed { OnErr result
            ((place : ℕ) × IsOver place (runs_of self.old) (runs_of self.new)
            (state_of self.old).files (state_of self.new).files) }
        ensures unsaid { OnErr result ((runs_of self.new).steps ≡ (runs_of self.old).steps) }
        ensures others { KeepsWill (runs_of self.old) (runs_of self.new) }
        ensures cause { HasCause (runs_of self.old).faults (runs_of self.new).faults result }
        ensures told { WaitsAsTold self.old self.new result }
    {
        let index = next_end(&self.ends, self.waits, self.progress.len());
        self.waits = self.waits.saturating_add(1);
        let Running { command, effect } = self.progress.take(index);
        if self.tree.fails_now() || effect.log.as_slice().len() > MAX_LOG_BYTES {
            count_fault(&mut self.faults);
            return Err(DevErr::Failed);
        }
        let ended = Ended {
            place: command.place,
            status: effect.status,
            log: effect.log,
        };
        let step = ended.copy()?;
        self.tree.put_all(effect.files)?;
        self.progress.end(step)?;
        Ok(ended)
    }

    // No command ends before it is waited for.
    fn has_ended(&mut self, _alloc: Global) -> bool
        ensures same { self.new ≡ self.old }
        ensures none { result ≡ false }
    {
        false
    }

    fn is_idle(&self) -> bool {
        self.progress.len() == 0
    }

    ghost runs_by_rest = { λ a b e. e };

    ghost held_by_running = { λ a path held. held_is_owned a.book a.progress.running.items
        a.progress.steps.items a.faults a.progress.distinct path held };

    ghost well_behaved = { behaves };
}

// Which of so many running commands ends at the wait of this number.
fn next_end(ends: &[u32], number: usize, count: usize) -> usize
    requires { 0 < count }
    ensures few { result < count }
    ensures told { result ≡ ends_at ends.now number count }
{
    match ends.get(number) {
        Some(end) => *end as usize % count,
        None => 0,
    }
}
