// One step of a case: what it is given, and the call.
use crate::called::{Cuttable, Given, Others, Seen, call, call_full};
use crate::scene::{Scene, store_of};
use crate::turns::turns_of;
use crate::world::EarlyWorld;
use anyhow::{Context, Result};
use case_files::Vast;
use rel_path::{Bytes, Pairs, Text, Texts};
use run_case_files::{Case, Fault, Group, Step, StoreFaults, book_of, faults_of, push_many};
use spawn_dev::MemWorld;
use std::alloc::Global;
use store_dev::{FuseStore, MemStore};
use tree_dev::MemSink;

// The words of a line, with a blank between two.
fn words_of(alloc: Global, line: &str) -> Result<Texts> {
    let mut words = Texts::new(alloc);
    if line.is_empty() {
        return Ok(words);
    }
    for word in line.split(' ') {
        words.push(Text::read(alloc, word)?)?;
    }
    Ok(words)
}

fn environment_of(alloc: Global, lines: &[String]) -> Result<Pairs> {
    let mut pairs = Pairs::new(alloc);
    for line in lines {
        let (name, value) = line.as_str().split_once("=").context("no variable")?;
        pairs.push((Text::read(alloc, name)?, Text::read(alloc, value)?))?;
    }
    Ok(pairs)
}

/// What a case begins with.
pub fn scene_of(alloc: Global, group: &Group, case: &Case) -> Result<Scene> {
    let mut scene = Scene::new(alloc);
    scene.write(alloc, &group.files)?;
    scene.write(alloc, &case.files)?;
    for many in case.many.iter() {
        push_many(alloc, many, &mut scene.files)?;
    }
    Ok(scene)
}

// Puts the bytes in the place of a store's, where there are some.
fn set(alloc: Global, store: &mut Bytes, text: Option<&String>) -> Result<()> {
    if let Some(text) = text {
        *store = store_of(alloc, text.as_str())?;
    }
    Ok(())
}

// Makes the changes that come before the call.
fn prepare(
    alloc: Global,
    group: &Group,
    case: &Case,
    step: &Step,
    scene: &mut Scene,
) -> Result<()> {
    if step.fresh {
        *scene = scene_of(alloc, group, case)?;
    }
    if let Some(folder) = &step.enter {
        scene.enter(alloc, folder.as_str())?;
    }
    set(alloc, &mut scene.store, step.store.as_ref())?;
    set(alloc, &mut scene.spare, step.spare.as_ref())?;
    set(alloc, &mut scene.second, step.second.as_ref())?;
    set(alloc, &mut scene.shared, step.shared.as_ref())?;
    scene.write(alloc, &step.write)?;
    scene.patch(alloc, step.patch.as_slice())
}

fn given_to(
    alloc: Global,
    group: &Group,
    case: &Case,
    step: &Step,
    scene: &Scene,
    world_fails: Vec<u64>,
    output_fails: Vec<u64>,
) -> Result<Given> {
    let book = book_of(alloc, &[&step.commands, &case.commands, &group.commands])?;
    let ends = Vec::from_slice(alloc, step.ends.as_slice())?;
    Ok(Given {
        words: words_of(alloc, step.words.as_str())?,
        environment: environment_of(alloc, step.environment.as_slice())?,
        world: EarlyWorld {
            inner: MemWorld::new(alloc, scene.files.copy()?, book, ends, world_fails),
            early: step.early,
        },
        output: MemSink::new(alloc, output_fails),
    })
}

fn cuttable(alloc: Global, bytes: &Bytes, faults: StoreFaults) -> Result<Cuttable> {
    let device = MemStore::new(alloc, bytes.copy()?, faults.fails);
    Ok(Cuttable {
        store: FuseStore::new(device, faults.pass),
        crash: faults.crash,
    })
}

/// Makes the changes and the call. The scene has its files as they were before the call.
pub fn run_step(
    alloc: Global,
    group: &Group,
    case: &Case,
    step: &Step,
    fault: Option<Fault>,
    scene: &mut Scene,
) -> Result<Seen> {
    prepare(alloc, group, case, step, scene)?;
    let faults = faults_of(alloc, step, fault)?;
    let given = given_to(alloc, group, case, step, scene, faults.world, faults.output)?;
    let others = Others {
        spare: cuttable(alloc, &scene.spare, faults.spare)?,
        second: cuttable(alloc, &scene.second, faults.second)?,
        shared: scene.shared.copy()?,
        shared_puts: turns_of(alloc, scene, step.turns.as_slice())?,
        shared_fails: faults.shared,
    };
    if let Some(room) = step.room {
        return call_full(alloc, given, Vast::with_room(alloc, room.into())?, others);
    }
    let store = cuttable(alloc, &scene.store, faults.store)?;
    call(alloc, given, store, others)
}
