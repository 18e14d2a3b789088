// Variables that count as input, variables that are passed on, and others.
use crate::folder::{enter, leave};
use crate::session::{BUILD, SEARCH_PATH, shown};
use std::process::Abort;
use std::test::Fail;

const FILES: &[(&str, &str)] = &[
    ("package.json", r#"{"workspaces":["a"]}"#),
    (
        "turbo.json",
        r#"{"tasks":{"build":{"env":["API_URL"],"passThroughEnv":["TOKEN"]}}}"#,
    ),
    (
        "a/package.json",
        r#"{"name":"a","scripts":{"build":"echo at $API_URL by ${TOKEN-none} in ${OTHER-none}"}}"#,
    ),
];

#[test]
fn chosen_and_passed_on(rt: HostRuntime) -> Result<(), Fail> {
    let folder = enter(&rt, "environment", FILES)?;
    let table: [([&[u8]; 4], &str); 3] = [
        (
            [SEARCH_PATH, b"API_URL=x", b"TOKEN=t", b"OTHER=o"],
            "status 0\na:build: cache miss,\na:build: at x by t in none\n\n Tasks:    1 successful, 1 total\nCached:    0 cached, 1 total\n",
        ),
        (
            [SEARCH_PATH, b"API_URL=x", b"TOKEN=u", b"OTHER=p"],
            "status 0\na:build: cache hit,\na:build: at x by t in none\n\n Tasks:    1 successful, 1 total\nCached:    1 cached, 1 total\n",
        ),
        (
            [SEARCH_PATH, b"API_URL=y", b"TOKEN=u", b"OTHER=p"],
            "status 0\na:build: cache miss,\na:build: at y by u in none\n\n Tasks:    1 successful, 1 total\nCached:    0 cached, 1 total\n",
        ),
    ];
    for (env, text) in table {
        assert_eq!(rt; shown(&rt, BUILD, &env)?.as_str(), text);
    }
    leave(&rt, folder)
}
