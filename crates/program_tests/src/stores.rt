// The store's file: made by the first run, kept by later ones, and refused where it is none.
use crate::folder::{enter, leave, put, text_at};
use crate::session::{BUILD, Given, SEARCH_PATH, call, shown};
use std::fs;
use std::process::Abort;
use std::test::Fail;

const FILES: &[(&str, &str)] = &[
    ("package.json", r#"{"workspaces":["a"]}"#),
    ("turbo.json", r#"{"tasks":{"build":{}}}"#),
    (
        "a/package.json",
        r#"{"name":"a","scripts":{"build":"cat word"}}"#,
    ),
    ("a/word", "one\n"),
];

const STORE: &str = ".turbo/store.turb";

const MISS: &str =
    "status 0\na:build: cache miss,\na:build: one\n\n Tasks:    1 successful, 1 total\nCached:    0 cached, 1 total\n";

const HIT: &str =
    "status 0\na:build: cache hit,\na:build: one\n\n Tasks:    1 successful, 1 total\nCached:    1 cached, 1 total\n";

// A call that is refused before makes none.
#[test]
fn made_by_a_run(rt: HostRuntime) -> Result<(), Fail> {
    let folder = enter(&rt, "made", FILES)?;
    let env = &[SEARCH_PATH];
    assert_eq!(rt;
        shown(&rt, &[b"run", b"nope"], env)?.as_str(),
        "status 1\nturbo: no task nope\n"
    );
    assert!(rt; !fs::exists(&rt, STORE)?);
    assert_eq!(rt; shown(&rt, BUILD, env)?.as_str(), MISS);
    assert!(rt; fs::exists(&rt, STORE)?);
    leave(&rt, folder)
}

// What was stored before is found again behind what came later.
#[test]
fn kept_by_later_runs(rt: HostRuntime) -> Result<(), Fail> {
    let folder = enter(&rt, "kept", FILES)?;
    let env = &[SEARCH_PATH];
    assert_eq!(rt; shown(&rt, BUILD, env)?.as_str(), MISS);
    put(&rt, "a/word", "two\n")?;
    assert_eq!(rt;
        shown(&rt, BUILD, env)?.as_str(),
        "status 0\na:build: cache miss,\na:build: two\n\n Tasks:    1 successful, 1 total\nCached:    0 cached, 1 total\n"
    );
    put(&rt, "a/word", "one\n")?;
    assert_eq!(rt; shown(&rt, BUILD, env)?.as_str(), HIT);
    leave(&rt, folder)
}

#[test]
fn refused_where_it_is_none(rt: HostRuntime) -> Result<(), Fail> {
    let folder = enter(&rt, "none", FILES)?;
    put(&rt, STORE, "this is no store")?;
    let env = &[SEARCH_PATH];
    let called = call(&rt, Given { words: BUILD, env })?;
    assert_eq!(rt; called.status, 1);
    assert_eq!(rt; called.page.as_str(), "turbo: the store file is no store\n");
    assert_eq!(rt;
        called.said.as_str(),
        "turbo: delete .turbo/store.turb, and the next run begins a new store\n"
    );
    assert_eq!(rt; text_at(&rt, STORE)?.as_str(), "this is no store");
    leave(&rt, folder)
}
