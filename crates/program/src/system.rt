// The program over the devices of the system.
ghost use Rattle.std.specs.Prelude.{◌≡◌, false};
ghost use Rattle.spawn_dev.specs.Spawn.{IsIdle};

use crate::advice::{advise, say_out_of_memory};
use crate::paths::path_of;
use crate::status::exit_status;
use os_edge::{
    OsSink, OsStore, OsWorld, WordErr, environment, open_streams, warn_of_unread_config, words,
};
use os_shared::OsShared;
use rel_path::Text;
use shared_runs::Shared;
use spawn_dev::Spawner;
use std::alloc::Global;
use std::env::Env;
use std::fs::File;
use std::os::fd::AsRawFd;
use std::process::{OpenProcess, Processes};
use std::rt::Files;
use std::time::Clock;
use store_dev::StoreDevice;
use tree_dev::Sink;
use turbo_app::{Answer, StoreFile};

/// What the program asks of the runtime.
pub trait System: Env + Files<File = File> + Processes + Clock + Print + Eprint + AllocGlobal {}

impl<R: Env + Files<File = File> + Processes + Clock + Print + Eprint + AllocGlobal> System for R {}

// The word in front of an order to compact.
const COMPACT: &str = "compact";

/// The status of a call whose words or environment were not read.
const UNREAD: u8 = 1;

/// Does what the words of the process ask for, with its environment, over the files below the
/// current folder and standard output, and answers the status with which to end. No contract can
/// say which the words are.
pub fn system_status<R: System>(rt: &R) -> u8
where
    <R::Started as OpenProcess>::Stdout: AsRawFd,
{
    prepare(rt);
    let alloc = rt.alloc();
    let words = match words(rt, alloc) {
        Ok(words) => words,
        Err(WordErr::NotUtf8) => {
            let _ = println!(rt; "turbo: a word is not UTF-8");
            return UNREAD;
        }
        Err(WordErr::OutOfMemory) => {
            say_out_of_memory(rt);
            return UNREAD;
        }
    };
    let Ok(env) = environment(rt, alloc) else {
        say_out_of_memory(rt);
        return UNREAD;
    };
    status_given(rt, alloc, words.as_slice(), env.as_slice())
}

// What comes before all else.
fn prepare<R: System>(rt: &R) {
    open_streams(rt);
    warn_of_unread_config(rt);
}

fn status_given<R: System>(rt: &R, alloc: Global, words: &[Text], env: &[(Text, Text)]) -> u8
where
    <R::Started as OpenProcess>::Stdout: AsRawFd,
{
    let (answer, status) = over_system(rt, alloc, words, env);
    advise(rt, words, env, &answer);
    status
}

// The call over all devices of the system.
fn over_system<
    R: Files<File = File> + Processes + Clock + Print + Eprint + AllocGlobal + Copy + Drop,
>(rt: R, alloc: Global, words: &[Text], env: &[(Text, Text)]) -> (Answer, u8)
where
    <R::Started as OpenProcess>::Stdout: AsRawFd,
{
    over_files(rt, alloc, words, env, &mut OsWorld::new(rt, alloc))
}

// The call over the files of the stores and standard output.
fn over_files<W: Spawner, R: Files<File = File> + Print + Eprint + AllocGlobal + Copy + Drop>(
    rt: R,
    alloc: Global,
    words: &[Text],
    env: &[(Text, Text)],
    world: &mut W,
) -> (Answer, u8)
    requires { IsIdle (W.runs world.old) }
{
    let alone = is_compaction(words);
    ended(
        alloc,
        words,
        env,
        world,
        store_at(rt, alone, path_of(env, StoreFile::Store)),
        store_at(rt, alone, path_of(env, StoreFile::Spare)),
        OsStore::at(rt, path_of(env, StoreFile::Second)),
        OsShared::at(rt, path_of(env, StoreFile::Shared)),
        &mut OsSink::new(rt),
    )
}

fn is_compaction(words: &[Text]) -> bool {
    match words.first() {
        Some(word) => word.as_str() == COMPACT,
        None => false,
    }
}

// A run goes on without its store while another one holds it, and a compaction must not.
fn store_at<'p, R: Files<File = File> + Eprint + AllocGlobal>(
    rt: R,
    alone: bool,
    path: &'p str,
) -> OsStore<'p, R> {
    if alone {
        OsStore::alone(rt, path)
    } else {
        OsStore::at(rt, path)
    }
}

// The call without its clauses, which say nothing of the system's devices and would take the prover
// minutes there.
fn ended<
    W: Spawner,
    S: StoreDevice + Drop,
    P: StoreDevice + Drop,
    R: StoreDevice + Drop,
    H: Shared + Drop,
    K: Sink,
>(
    alloc: Global,
    words: &[Text],
    env: &[(Text, Text)],
    world: &mut W,
    store: S,
    spare: P,
    second: R,
    shared: H,
    out: &mut K,
) -> (Answer, u8)
    requires idle { IsIdle (W.runs world.old) }
    requires turn { (H.turn shared).held ≡ false }
{
    let outcome = exit_status(alloc, words, env, world, store, spare, second, shared, out);
    (outcome.answer, outcome.status)
}
