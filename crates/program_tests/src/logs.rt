// Long logs. What is longer than 64 MiB is a fault, which the tests of the devices show at the constant.
use crate::folder::{enter, leave};
use crate::session::{SEARCH_PATH, shown};
use rel_path::limits::MAX_LOG_BYTES;
use std::fs;
use std::process::Abort;
use std::test::Fail;

const FILES: &[(&str, &str)] = &[
    ("package.json", r#"{"workspaces":["a"]}"#),
    ("turbo.json", r#"{"tasks":{"build":{}}}"#),
    (
        "a/package.json",
        r#"{"name":"a","scripts":{"build":"head -c 2000000 /dev/zero"}}"#,
    ),
];

#[test]
fn kept_whole(rt: HostRuntime) -> Result<(), Fail> {
    let folder = enter(&rt, "logs", FILES)?;
    let words: [&[u8]; 3] = [b"run", b"build", b"--output-logs=none"];
    assert_eq!(rt;
        shown(&rt, &words, &[SEARCH_PATH])?.as_str(),
        "status 0\n\n Tasks:    1 successful, 1 total\nCached:    0 cached, 1 total\n"
    );
    assert_eq!(rt;
        fs::metadata(&rt, "a/.turbo/turbo-build.log")?.len(),
        2_000_000
    );
    leave(&rt, folder)
}

#[test]
fn limit(rt: HostRuntime) {
    assert_eq!(rt; MAX_LOG_BYTES, 64 * 1024 * 1024);
}
