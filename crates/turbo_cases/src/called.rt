// The one call of the program over devices in memory, and what is seen of it.
ghost use Rattle.std.specs.Prelude.{◌≡◌, false};
ghost use Rattle.spawn_dev.specs.Spawn.{IsIdle};

use crate::scene::read_text;
use crate::world::EarlyWorld;
use anyhow::{Context, Result};
use case_files::Vast;
use rel_path::{Bytes, Files, Pairs, Text, Texts};
use shared_runs::{MemShared, OtherPuts, Shared};
use spawn_dev::{MemWorld, Spawner};
use std::alloc::Global;
use store_dev::{FuseStore, StoreDevice};
use tree_dev::{MemSink, Sink};
use turbo_app::{Answer, turbo};

/// What a call is given beside the stores.
#[derive(Drop)]
pub struct Given {
    pub words: Texts,
    pub environment: Pairs,
    pub world: EarlyWorld,
    pub output: MemSink,
}

/// What is seen of a call.
#[derive(Drop)]
pub struct Seen {
    pub answer: &'static str,
    pub status: u8,
    /// The places of the commands that were started, with a blank between two.
    pub starts: String,
    /// Whether none of them still runs.
    pub is_idle: bool,
    pub page: String,
    pub files: Files,
    pub store: Bytes,
    pub spare: Bytes,
    pub second: Bytes,
    pub shared: Bytes,
}

fn name_of(answer: &Answer) -> &'static str {
    match answer {
        Answer::Done { status: _ } => "done",
        Answer::Refused(_) => "refused",
        Answer::TreeFault => "tree fault",
        Answer::StoreFault => "store fault",
        Answer::StartFault => "start fault",
        Answer::SinkFault => "output fault",
        Answer::OutOfMemory => "out of memory",
    }
}

// No clause of the call is wanted here: what it did is looked at.
fn called<W: Spawner, S: StoreDevice, P: StoreDevice, R: StoreDevice, H: Shared, K: Sink>(
    alloc: Global,
    words: &[Text],
    environment: &[(Text, Text)],
    world: &mut W,
    store: S,
    spare: P,
    second: R,
    shared: H,
    output: &mut K,
) -> (Answer, S, P, R, H)
    requires idle { IsIdle (W.runs world.old) }
    requires turn { (H.turn shared).held ≡ false }
{
    turbo(
        alloc,
        words,
        environment,
        world,
        store,
        spare,
        second,
        shared,
        output,
    )
}

fn starts_of(alloc: Global, world: &MemWorld) -> Result<String> {
    let mut text = String::new(alloc);
    for place in world.starts().as_slice() {
        if !text.is_empty() {
            text.push(' ')?;
        }
        text.push_str(format!(in alloc; "{place}")?.as_str())?;
    }
    Ok(text)
}

/// A store for a call. Where a crash is told, its fill and how many bytes it keeps, what is seen of
/// the store is what such a crash leaves.
#[derive(Drop)]
pub struct Cuttable {
    pub store: FuseStore,
    pub crash: Option<(u8, u64)>,
}

/// The stores of a call beside the first one. The shared file has these bytes, other runs put the
/// results that stand at a turn's number before it, and the calls with these numbers fail.
#[derive(Drop)]
pub struct Others {
    pub spare: Cuttable,
    pub second: Cuttable,
    pub shared: Bytes,
    pub shared_puts: Vec<OtherPuts>,
    pub shared_fails: Vec<u64>,
}

/// What is left of these.
#[derive(Drop)]
struct OthersLeft {
    spare: Bytes,
    second: Bytes,
    shared: Bytes,
}

fn seen_of(
    alloc: Global,
    given: &Given,
    answer: &Answer,
    store: Bytes,
    others: OthersLeft,
) -> Result<Seen> {
    Ok(Seen {
        answer: name_of(answer),
        status: answer.status(),
        starts: starts_of(alloc, &given.world.inner)?,
        is_idle: given.world.is_idle(),
        page: read_text(alloc, given.output.written())?,
        files: given.world.inner.files().copy()?,
        store,
        spare: others.spare,
        second: others.second,
        shared: others.shared,
    })
}

// What is left of a store: its bytes, or what such a crash leaves of them.
fn left_of(alloc: Global, store: &FuseStore, crash: Option<(u8, u64)>) -> Result<Bytes> {
    let Some((fill, keep)) = crash else {
        return Ok(Bytes::read(alloc, store.inner().bytes())?);
    };
    let crashed = store.inner().crash(alloc, fill, keep)?;
    Ok(Bytes::read(alloc, crashed.bytes())?)
}

// Calls the program over the stores. `None` where a command runs already.
fn answered<S: StoreDevice + Drop>(
    alloc: Global,
    given: &mut Given,
    store: S,
    others: Others,
) -> Option<(Answer, S, FuseStore, FuseStore, MemShared)> {
    if !given.world.is_idle() {
        return None;
    }
    Some(called(
        alloc,
        given.words.as_slice(),
        given.environment.as_slice(),
        &mut given.world,
        store,
        others.spare.store,
        others.second.store,
        MemShared::new(
            alloc,
            others.shared,
            others.shared_puts,
            others.shared_fails,
        ),
        &mut given.output,
    ))
}

// What is left of the stores beside the first one. They are only borrowed here and below, so that
// no early end drops a store.
fn others_left(
    alloc: Global,
    spare: (&FuseStore, Option<(u8, u64)>),
    second: (&FuseStore, Option<(u8, u64)>),
    shared: &MemShared,
) -> Result<OthersLeft> {
    let (store, crash) = spare;
    let spare = left_of(alloc, store, crash)?;
    let (store, crash) = second;
    let second = left_of(alloc, store, crash)?;
    let shared = Bytes::read(alloc, shared.bytes())?;
    Ok(OthersLeft {
        spare,
        second,
        shared,
    })
}

// What is seen behind a call.
fn seen_with(
    alloc: Global,
    given: &Given,
    answer: &Answer,
    left: (&FuseStore, Option<(u8, u64)>),
    spare: (&FuseStore, Option<(u8, u64)>),
    second: (&FuseStore, Option<(u8, u64)>),
    shared: &MemShared,
) -> Result<Seen> {
    let (store, crash) = left;
    let left = left_of(alloc, store, crash)?;
    let others = others_left(alloc, spare, second, shared)?;
    seen_of(alloc, given, answer, left, others)
}

/// Calls the program.
pub fn call(alloc: Global, given: Given, store: Cuttable, others: Others) -> Result<Seen> {
    let mut given = given;
    let crash = store.crash;
    let (spare_crash, second_crash) = (others.spare.crash, others.second.crash);
    let (answer, left, spare, second, shared) = answered(
        alloc,
        &mut given,
        store.store,
        others,
    ).context("a command runs")?;
    seen_with(
        alloc,
        &given,
        &answer,
        (&left, crash),
        (&spare, spare_crash),
        (&second, second_crash),
        &shared,
    )
}

// What is seen behind a call over a store of which nothing is looked at.
fn seen_full(
    alloc: Global,
    given: &Given,
    answer: &Answer,
    spare: (&FuseStore, Option<(u8, u64)>),
    second: (&FuseStore, Option<(u8, u64)>),
    shared: &MemShared,
) -> Result<Seen> {
    let others = others_left(alloc, spare, second, shared)?;
    let nothing = Bytes::from_vec(Vec::new(alloc));
    seen_of(alloc, given, answer, nothing, others)
}

/// Calls the program over a store that is nearly full, of which nothing is seen.
pub fn call_full(alloc: Global, given: Given, store: Vast, others: Others) -> Result<Seen> {
    let mut given = given;
    let (spare_crash, second_crash) = (others.spare.crash, others.second.crash);
    let (answer, _store, spare, second, shared) = answered(
        alloc, &mut given, store, others,
    ).context("a command runs")?;
    seen_full(
        alloc,
        &given,
        &answer,
        (&spare, spare_crash),
        (&second, second_crash),
        &shared,
    )
}
