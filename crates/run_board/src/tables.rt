// Tables of logs, flags and fingerprints, with room for each task of a plan.
ghost use Rattle.std.specs.Prelude.{◌≡◌, ◌<◌, ℕ, [], false, length, None, IfOk};
ghost use Rattle.spawn_dev.specs.Spawn.{put_at};
ghost use Rattle.task_devices.specs.Stops.{OnlyMemory};
ghost use Rattle.run_board.specs.Tables.{log_in, flag_in, fingerprint_in};

use rel_path::Bytes;
use std::alloc::Global;
use std::marker::Model;
use task_devices::RunErr;

/// The log of each task that is still to be shown.
#[derive(Drop)]
pub struct Logs {
    alloc: Global,
    items: Vec<Bytes>,
}

impl Model for Logs {
    ghost use Rattle.std.specs.Prelude.{List, ℕ};

    ghost Value = { List (List ℕ) };

    ghost view = { λ l. l.items.items };
}

impl Logs {
    /// Empty logs of so many tasks.
    pub fn new(alloc: Global, size: usize) -> Result<Logs, RunErr>
        ensures size { IfOk result (λ logs. length logs ≡ size) }
        ensures memory { OnlyMemory result }
    {
        let mut items = Vec::with_capacity(alloc, size)?;
        for _ in 0..size {
            items.push(Bytes::from_vec(Vec::new(alloc)))?;
        }
        Ok(Logs { alloc, items })
    }

    /// The log of a task, which is empty where none was set.
    pub fn at(&self, place: usize) -> &[u8]
        requires { place < length self.now }
        ensures { result.now ≡ log_in self.now place }
    {
        self.items[place].as_slice()
    }

    /// Keeps the log of a task.
    pub fn set(&mut self, place: usize, log: Bytes)
        requires { place < length self.old }
        ensures size { length self.new ≡ length self.old }
        ensures set { log_in self.new ≡ put_at (log_in self.old) place log }
    {
        self.items[place] = log;
    }

    /// Forgets a log.
    pub fn clear(&mut self, place: usize)
        requires { place < length self.old }
        ensures size { length self.new ≡ length self.old }
        ensures set { log_in self.new ≡ put_at (log_in self.old) place [] }
    {
        self.items[place] = Bytes::from_vec(Vec::new(self.alloc));
    }
}

/// A flag for each task, false at first.
#[derive(Drop)]
pub struct Flags {
    items: Vec<bool>,
}

impl Model for Flags {
    ghost use Rattle.std.specs.Prelude.{List, Bool};

    ghost Value = { List Bool };

    ghost view = { λ f. f.items.items };
}

impl Flags {
    /// So many flags, all false.
    pub fn new(alloc: Global, size: usize) -> Result<Flags, RunErr>
        ensures size { IfOk result (λ flags. length flags ≡ size) }
        ensures none { IfOk result (λ flags. flag_in flags ≡ (λ t. false)) }
        ensures memory { OnlyMemory result }
    {
        Ok(Flags {
            items: vec![in alloc; false; size]?,
        })
    }

    /// The flag of a task, and false past the end.
    pub fn at(&self, place: usize) -> bool
        ensures { result ≡ flag_in self.now place }
    {
        self.items.get(place).copied().unwrap_or(false)
    }

    /// Keeps the flag of a task.
    pub fn set(&mut self, place: usize, flag: bool)
        requires { place < length self.old }
        ensures size { length self.new ≡ length self.old }
        ensures set { flag_in self.new ≡ put_at (flag_in self.old) place flag }
    {
        self.items[place] = flag;
    }
}

/// The fingerprint of each task's key where it is known, of none at first.
#[derive(Drop)]
pub struct Fingerprints {
    items: Vec<Option<[u8; 32]>>,
}

impl Model for Fingerprints {
    ghost use Rattle.std.specs.Prelude.{List, Option, ℕ};

    ghost Value = { List (Option (List ℕ)) };

    ghost view = { λ f. f.items.items };
}

impl Fingerprints {
    /// Room for so many fingerprints, of which none is known.
    pub fn new(alloc: Global, size: usize) -> Result<Fingerprints, RunErr>
        ensures size { IfOk result (λ table. length table ≡ size) }
        ensures none { IfOk result (λ table. fingerprint_in table ≡ (λ t. None)) }
        ensures memory { OnlyMemory result }
    {
        Ok(Fingerprints {
            items: vec![in alloc; None; size]?,
        })
    }

    /// The fingerprint of a task's key where it is known, and none past the end.
    pub fn at(&self, place: usize) -> Option<[u8; 32]>
        ensures { result ≡ fingerprint_in self.now place }
    {
        self.items.get(place).copied().unwrap_or(None)
    }

    /// Keeps the fingerprint of a task's key, or that it is not known.
    pub fn set(&mut self, place: usize, fingerprint: Option<[u8; 32]>)
        requires { place < length self.old }
        ensures size { length self.new ≡ length self.old }
        ensures set { fingerprint_in self.new ≡ put_at (fingerprint_in self.old) place fingerprint }
    {
        self.items[place] = fingerprint;
    }
}
