// How commands end, and the status that the program ends with then.
use crate::folder::{enter, leave, put};
use crate::session::{BUILD, SEARCH_PATH, shown};
use std::process::Abort;
use std::test::Fail;

const FILES: &[(&str, &str)] = &[
    ("package.json", r#"{"workspaces":["a"]}"#),
    ("turbo.json", r#"{"tasks":{"build":{}}}"#),
];

// What is shown of a build by this script, in a folder of its own.
fn ending(rt: &HostRuntime, name: &str, script: &str) -> Result<String, Fail> {
    let folder = enter(rt, name, FILES)?;
    let manifest = format!(in rt.alloc(); r#"{{"name":"a","scripts":{{"build":"{script}"}}}}"#)?;
    put(rt, "a/package.json", manifest.as_str())?;
    let text = shown(rt, BUILD, &[SEARCH_PATH])?;
    leave(rt, folder)?;
    Ok(text)
}

#[test]
fn failing_task(rt: HostRuntime) -> Result<(), Fail> {
    assert_eq!(rt;
        ending(&rt, "failing", "echo no; exit 3")?.as_str(),
        "status 3\na:build: cache miss,\na:build: no\na:build: failed with status 3\n\n Tasks:    0 successful, 1 total\nCached:    0 cached, 1 total\nFailed:    a#build\n"
    );
    Ok(())
}

// The shell that runs the script is the parent of the one that reads it.
#[test]
fn shell_ended_by_a_signal(rt: HostRuntime) -> Result<(), Fail> {
    assert_eq!(rt;
        ending(&rt, "shell", "kill -9 $PPID")?.as_str(),
        "status 255\na:build: cache miss,\na:build: failed with status 255\n\n Tasks:    0 successful, 1 total\nCached:    0 cached, 1 total\nFailed:    a#build\n"
    );
    Ok(())
}

// 128 and the number of the signal. What the shell says of it would go into the log.
#[test]
fn command_ended_by_a_signal(rt: HostRuntime) -> Result<(), Fail> {
    assert_eq!(rt;
        ending(
            &rt,
            "signal",
            "exec 2>/dev/null; sh -c 'kill -9 $$'; exit $?"
        )?
        .as_str(),
        "status 137\na:build: cache miss,\na:build: failed with status 137\n\n Tasks:    0 successful, 1 total\nCached:    0 cached, 1 total\nFailed:    a#build\n"
    );
    Ok(())
}

#[test]
fn no_output(rt: HostRuntime) -> Result<(), Fail> {
    assert_eq!(rt;
        ending(&rt, "silent", "true")?.as_str(),
        "status 0\na:build: cache miss,\n\n Tasks:    1 successful, 1 total\nCached:    0 cached, 1 total\n"
    );
    Ok(())
}
