// Two packages: the page of their run, and of the next one.
use crate::folder::{enter, leave, text_at};
use crate::session::{BUILD, SEARCH_PATH, shown};
use std::process::Abort;
use std::test::Fail;

const FILES: &[(&str, &str)] = &[
    ("package.json", r#"{"workspaces":["packages/*"]}"#),
    (
        "turbo.json",
        r#"{"tasks":{"build":{"dependsOn":["^build"],"outputs":["dist/**"]}}}"#,
    ),
    (
        "packages/ui/package.json",
        r#"{"name":"ui","scripts":{"build":"mkdir -p dist; tr a-z A-Z <label >dist/label; echo made"}}"#,
    ),
    ("packages/ui/label", "press\n"),
    (
        "packages/web/package.json",
        r#"{"name":"web","scripts":{"build":"cat ../ui/dist/label; echo oh >&2"},"dependencies":{"ui":"*"}}"#,
    ),
];

#[test]
fn two_packages(rt: HostRuntime) -> Result<(), Fail> {
    let folder = enter(&rt, "pages", FILES)?;
    let env = &[SEARCH_PATH];
    assert_eq!(rt;
        shown(&rt, BUILD, env)?.as_str(),
        "status 0\nui:build: cache miss,\nui:build: made\nweb:build: cache miss,\nweb:build: PRESS\nweb:build: oh\n\n Tasks:    2 successful, 2 total\nCached:    0 cached, 2 total\n"
    );
    assert_eq!(rt;
        shown(&rt, BUILD, env)?.as_str(),
        "status 0\nui:build: cache hit,\nui:build: made\nweb:build: cache hit,\nweb:build: PRESS\nweb:build: oh\n\n Tasks:    2 successful, 2 total\nCached:    2 cached, 2 total\n"
    );
    assert_eq!(rt;
        text_at(&rt, "packages/web/.turbo/turbo-build.log")?.as_str(),
        "PRESS\noh\n"
    );
    leave(&rt, folder)
}
