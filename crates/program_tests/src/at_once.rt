// Two commands of which each waits for what the other writes, so that neither ends well unless both run at once.
use crate::folder::{enter, leave, put, text_at};
use crate::session::{SEARCH_PATH, shown};
use std::fs;
use std::process::Abort;
use std::test::Fail;

const FILES: &[(&str, &str)] = &[
    ("package.json", r#"{"workspaces":["a","b"]}"#),
    (
        "turbo.json",
        r#"{"tasks":{"build":{"outputs":["mark"],"passThroughEnv":["TRIES"]}}}"#,
    ),
    (
        "a/package.json",
        r#"{"name":"a","scripts":{"build":"echo a | tee mark; n=$TRIES; until test -e ../b/mark; do n=$((n-1)); test $n -gt 0 || exit 1; sleep 0.1; done"}}"#,
    ),
    (
        "b/package.json",
        r#"{"name":"b","scripts":{"build":"echo b | tee mark; n=$TRIES; until test -e ../a/mark; do n=$((n-1)); test $n -gt 0 || exit 1; sleep 0.1; done"}}"#,
    ),
];

const STORE: &str = ".turbo/store.turb";

// What the two tasks leave.
const LEFT: [&str; 4] = [
    "a/mark",
    "a/.turbo/turbo-build.log",
    "b/mark",
    "b/.turbo/turbo-build.log",
];

const BOTH: &str =
    "status 0\na:build: cache miss,\na:build: a\nb:build: cache miss,\nb:build: b\n\n Tasks:    2 successful, 2 total\nCached:    0 cached, 2 total\n";

const REPLAYED: &str =
    "status 0\na:build: cache hit,\na:build: a\nb:build: cache hit,\nb:build: b\n\n Tasks:    2 successful, 2 total\nCached:    2 cached, 2 total\n";

// For half a minute, which no turn takes that finds the other one.
fn build_both(rt: &HostRuntime) -> Result<String, Fail> {
    shown(
        rt,
        &[b"run", b"build", b"--concurrency=2"],
        &[SEARCH_PATH, b"TRIES=300"],
    )
}

#[test]
fn both_at_once(rt: HostRuntime) -> Result<(), Fail> {
    let folder = enter(&rt, "both", FILES)?;
    assert_eq!(rt; build_both(&rt)?.as_str(), BOTH);
    leave(&rt, folder)
}

// The first one gives up, and the other is not started then.
#[test]
fn one_at_a_time(rt: HostRuntime) -> Result<(), Fail> {
    let folder = enter(&rt, "one", FILES)?;
    let words: [&[u8]; 3] = [b"run", b"build", b"--concurrency=1"];
    assert_eq!(rt;
        shown(&rt, &words, &[SEARCH_PATH, b"TRIES=20"])?.as_str(),
        "status 1\na:build: cache miss,\na:build: a\na:build: failed with status 1\n\n Tasks:    0 successful, 2 total\nCached:    0 cached, 2 total\nFailed:    a#build\n"
    );
    leave(&rt, folder)
}

// The texts of what is left, one behind the other.
fn left(rt: &HostRuntime) -> Result<String, Fail> {
    let mut all = String::new(rt.alloc());
    for path in LEFT {
        all.push_str(text_at(rt, path)?.as_str())?;
    }
    Ok(all)
}

// Files that a run left, of which some are gone and the others changed, are put back by the next one, which starts
// nothing and adds nothing to the store.
#[test]
fn put_back(rt: HostRuntime) -> Result<(), Fail> {
    let folder = enter(&rt, "back", FILES)?;
    assert_eq!(rt; build_both(&rt)?.as_str(), BOTH);
    let store = fs::read(&rt, STORE)?;
    fs::remove_file(&rt, "a/mark")?;
    fs::remove_file(&rt, "b/.turbo/turbo-build.log")?;
    put(&rt, "b/mark", "other")?;
    put(&rt, "a/.turbo/turbo-build.log", "other")?;
    assert_eq!(rt; build_both(&rt)?.as_str(), REPLAYED);
    assert_eq!(rt; left(&rt)?.as_str(), "a\na\nb\nb\n");
    assert!(rt; fs::read(&rt, STORE)?.as_slice() == store.as_slice());
    leave(&rt, folder)
}
