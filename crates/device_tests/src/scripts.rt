// The text for the shell.
use crate::make::command_of;
use spawn_dev::shell_text;
use std::alloc::Global;
use std::process::Abort;
use std::test::Fail;
use tree_dev::DevErr;

// Whether the text for the scripts has these lines behind the first one.
fn is_text(
    alloc: Global,
    dir: &str,
    scripts: &[&str],
    args: &[&str],
    lines: &str,
) -> Result<bool, DevErr> {
    let command = command_of(alloc, 0, dir, scripts, args)?;
    let text = shell_text(alloc, &command)?;
    match text.as_str().strip_prefix("exec </dev/null 2>&1\n") {
        Some(rest) => Ok(rest == lines),
        None => Ok(false),
    }
}

#[test]
fn folders(rt: HostRuntime) -> Result<(), Fail> {
    let alloc = rt.alloc();
    let lines =
        "cd './packages/ui' || exit 127\nPATH=node_modules/.bin:../node_modules/.bin:../../node_modules/.bin${PATH:+:$PATH}\nexport PATH\nsh -c 'tsc '\\''-b'\\''' || exit $?\n";
    assert!(rt; is_text(alloc, "packages/ui", &["tsc"], &["-b"], lines)?);
    let lines = "PATH=node_modules/.bin${PATH:+:$PATH}\nexport PATH\nsh -c 'echo hi' || exit $?\n";
    assert!(rt; is_text(alloc, "", &["echo hi"], &[], lines)?);
    let lines =
        "cd './it'\\''s' || exit 127\nPATH=node_modules/.bin:../node_modules/.bin${PATH:+:$PATH}\nexport PATH\nsh -c 'echo '\\''é'\\''' || exit $?\n";
    assert!(rt; is_text(alloc, "it's", &["echo 'é'"], &[], lines)?);
    Ok(())
}

// The words stand behind the second of three, and an empty text is no script.
#[test]
fn several(rt: HostRuntime) -> Result<(), Fail> {
    let alloc = rt.alloc();
    let lines =
        "PATH=node_modules/.bin${PATH:+:$PATH}\nexport PATH\nsh -c 'a' || exit $?\nsh -c 'b '\\''w'\\'' '\\''x y'\\''' || exit $?\nsh -c 'c' || exit $?\n";
    assert!(rt; is_text(alloc, "", &["a", "b", "c"], &["w", "x y"], lines)?);
    let lines =
        "PATH=node_modules/.bin${PATH:+:$PATH}\nexport PATH\nsh -c 'b '\\''w'\\''' || exit $?\n";
    assert!(rt; is_text(alloc, "", &["", "b", ""], &["w"], lines)?);
    let lines = "PATH=node_modules/.bin${PATH:+:$PATH}\nexport PATH\n";
    assert!(rt; is_text(alloc, "", &[], &["w"], lines)?);
    Ok(())
}
