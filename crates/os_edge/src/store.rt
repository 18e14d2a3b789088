// The file of a store.
ghost use Rattle.std.specs.Prelude.{◌≡◌, [], true, false, Ok, IfOk, IsErr, OnErr};
ghost use Rattle.std.specs.Fs.{asks_read, asks_write, asks_append, asks_truncate, asks_create, asks_create_new};
ghost use Rattle.rel_path.specs.Causes.{Counts};
ghost use Rattle.store_dev.specs.Errors.{is_fault, OnlyFails};

use crate::backing::{Backing, is_ours};
use crate::reports::told_of;
use std::alloc::Global;
use std::fs::{File, OpenOptions};
use std::io::ErrorKind;
use std::rt::Files;
use std::{fs, io};
use store_dev::{StoreDevice, StoreErr};
use tree_dev::count_fault;

/// The path of the store, from the current folder.
pub const STORE_PATH: &str = ".turbo/store.turb";

const SEPARATOR: &str = "/";

const CURRENT_FOLDER: &str = ".";

// From here on a store is worth a word.
const LARGE: u64 = 1 << 30;

// What is done where another run holds the lock.
#[derive(Clone, Copy, PartialEq, Eq)]
enum WhenHeld {
    StandIn,
    Fail,
}

/// The file of a store, with a count of its faults. The first call of [`StoreDevice`] opens it and
/// locks it for good, and makes it and its folders where they are not there. While another run
/// holds the lock, an empty store in memory stands in its place, which nobody keeps, or each call
/// fails. It tells no bytes. Its count of faults stands still at the last value of a u64.
#[derive(Drop)]
pub struct OsStore<'p, R> {
    rt: R,
    path: &'p str,
    when_held: WhenHeld,
    backing: Option<Backing>,
    faults: u64,
}

impl<'p, R: Files<File = File> + Eprint + AllocGlobal> OsStore<'p, R> {
    /// The file at the path, from the current folder or, with a `/` in front, from the root of the
    /// file system. It touches no file yet and takes no memory. The empty path is no file: each
    /// call fails then. While another run holds the lock, an empty store stands in the file's
    /// place.
    pub fn at(rt: R, path: &'p str) -> OsStore<'p, R>
        ensures { ⟦<OsStore<'p, R> as StoreDevice>⟧.store_faults result ≡ 0 }
    {
        OsStore {
            rt,
            path,
            when_held: WhenHeld::StandIn,
            backing: None,
            faults: 0,
        }
    }

    /// The same, but that each call fails while another run holds the lock.
    pub fn alone(rt: R, path: &'p str) -> OsStore<'p, R>
        ensures { ⟦<OsStore<'p, R> as StoreDevice>⟧.store_faults result ≡ 0 }
    {
        OsStore {
            rt,
            path,
            when_held: WhenHeld::Fail,
            backing: None,
            faults: 0,
        }
    }

    /// The same, opened and locked, and with so many faults counted: it waits for the lock while
    /// another process holds it. The lock is given back as the device is dropped.
    pub fn locked(rt: R, path: &'p str, faults: u64) -> Result<OsStore<'p, R>, StoreErr>
    where
        R: Drop,
        ensures counted { IfOk result
            (λ store. ⟦<OsStore<'p, R> as StoreDevice>⟧.store_faults store ≡ faults) }
        ensures only { OnlyFails result }
    {
        match told_of(&rt, path, "locked", lock(&rt, path)) {
            Ok(file) => Ok(OsStore {
                rt,
                path,
                when_held: WhenHeld::Fail,
                backing: Some(Backing::File(file)),
                faults,
            }),
            Err(_) => Err(StoreErr::Failed),
        }
    }

    /// How many faults it has counted.
    pub fn faults(&self) -> u64
        ensures { result ≡ ⟦<OsStore<'p, R> as StoreDevice>⟧.store_faults self.now }
    {
        self.faults
    }
}

// The store, opened once. After an opening that failed it is opened anew.
fn opened<'a, R: Files<File = File> + Eprint + AllocGlobal>(
    rt: &R,
    path: &str,
    when_held: WhenHeld,
    backing: &'a mut Option<Backing>,
) -> io::Result<&'a mut Backing> {
    match backing {
        Some(backing) => Ok(backing),
        None => Ok(backing.insert(told_of(rt, path, "opened", backing_of(rt, path, when_held))?)),
    }
}

// The file; while another run holds it, an empty store in memory or an error.
fn backing_of<R: Files<File = File> + Eprint + AllocGlobal>(
    rt: &R,
    path: &str,
    when_held: WhenHeld,
) -> io::Result<Backing> {
    let file = open(rt, path)?;
    if is_ours(file.try_lock())? {
        warn_of_size(rt, path, &file)?;
        return Ok(Backing::File(file));
    }
    match when_held {
        WhenHeld::StandIn => {
            let _ = eprintln!(rt; "turbo: another run holds {path}, so this one keeps no results");
            Ok(Backing::Memory(Vec::new(rt.alloc())))
        }
        WhenHeld::Fail => {
            let _ = eprintln!(rt; "turbo: another run holds {path}");
            Err(io::Error::from(ErrorKind::ResourceBusy))
        }
    }
}

fn warn_of_size(rt: &impl Eprint, path: &str, file: &File) -> io::Result<()> {
    if file.metadata()?.len() > LARGE {
        let _ = eprintln!(rt;
            "turbo: {path} has passed a gibibyte: after turbo compact it may be deleted"
        );
    }
    Ok(())
}

// A file is made where none stands, and one that stands keeps its bytes.
fn options() -> OpenOptions
    ensures reads { asks_read result ≡ true }
    ensures writes { asks_write result ≡ true }
    ensures made { asks_create result ≡ true }
    ensures kept { asks_create_new result ≡ false }
    ensures whole { asks_truncate result ≡ false }
    ensures in_place { asks_append result ≡ false }
{
    let mut options = OpenOptions::new();
    options.read(true).write(true).create(true);
    options
}

// The folder in which the file or folder at the path stands.
fn folder_of(path: &str) -> &str {
    match path.rsplit_once(SEPARATOR) {
        Some((folder, _)) if folder.is_empty() => SEPARATOR,
        Some((folder, _)) => folder,
        None => CURRENT_FOLDER,
    }
}

// A link is followed. What is no regular file is an error: a disk would be written over.
fn open<R: Files<File = File>>(rt: &R, path: &str) -> io::Result<File> {
    let folder = folder_of(path);
    fs::create_dir_all(rt, folder)?;
    let file = options().open(rt, path)?;
    if !file.metadata()?.is_file() {
        return Err(io::Error::from(ErrorKind::InvalidInput));
    }
    sync_folder(rt, folder)?;
    sync_folder(rt, folder_of(folder))?;
    Ok(file)
}

fn lock<R: Files<File = File>>(rt: &R, path: &str) -> io::Result<File> {
    let file = open(rt, path)?;
    file.lock()?;
    Ok(file)
}

// After it a crash leaves the names in the folder. A file that was found needs it too: the process
// that made it may have been stopped before it came to this.
fn sync_folder<R: Files<File = File>>(rt: &R, folder: &str) -> io::Result<()> {
    let folder = fs::open(rt, folder)?;
    folder.sync_all()
}

// Counts each error. No call takes memory of the program: where the system has none, that is a
// fault too.
fn counted<T>(faults: &mut u64, outcome: io::Result<T>) -> Result<T, StoreErr>
    ensures value { IfOk result (λ x. outcome ≡ Ok x) }
    ensures error { OnErr result (IsErr outcome) }
    ensures only { OnlyFails result }
    ensures cause { Counts is_fault faults.old faults.new result }
{
    match outcome {
        Ok(value) => Ok(value),
        Err(_) => {
            count_fault(faults);
            Err(StoreErr::Failed)
        }
    }
}

impl<'p, R: Files<File = File> + Eprint + AllocGlobal> StoreDevice for OsStore<'p, R> {
    ghost tells = { ⊥ };

    ghost content = { λ _. [] };

    ghost images = { λ _ _. ⊥ };

    ghost moment = { λ _. 0 };

    ghost images_since = { λ _ _ _. ⊥ };

    ghost store_faults = { λ s. s.faults };

    ghost are_bytes = { λ _ told. absurd told };

    ghost few_bytes = { λ _ told. absurd told };

    ghost as_it_reads = { λ _ told. absurd told };

    ghost counts_now = { λ _ _ _ _ left. left };

    ghost only_now = { λ _ _ left. left };

    fn len(&mut self) -> Result<u64, StoreErr> {
        let rt = &self.rt;
        let store = opened(rt, self.path, self.when_held, &mut self.backing);
        let outcome = store.and_then(|store| told_of(rt, self.path, "measured", store.len()));
        counted(&mut self.faults, outcome)
    }

    fn read_at(&mut self, at: u64, buf: &mut [u8]) -> Result<(), StoreErr> {
        let rt = &self.rt;
        let store = opened(rt, self.path, self.when_held, &mut self.backing);
        let outcome = store.and_then(|store| told_of(
            rt,
            self.path,
            "read",
            store.read_at(at, buf),
        ));
        counted(&mut self.faults, outcome)
    }

    fn write_at(&mut self, _alloc: Global, at: u64, bytes: &[u8]) -> Result<(), StoreErr> {
        let rt = &self.rt;
        let store = opened(rt, self.path, self.when_held, &mut self.backing);
        let outcome = store.and_then(|store| told_of(
            rt,
            self.path,
            "written",
            store.write_at(at, bytes),
        ));
        counted(&mut self.faults, outcome)
    }

    fn sync(&mut self) -> Result<(), StoreErr> {
        let rt = &self.rt;
        let store = opened(rt, self.path, self.when_held, &mut self.backing);
        let outcome = store.and_then(|store| told_of(rt, self.path, "synced", store.sync()));
        counted(&mut self.faults, outcome)
    }
}
