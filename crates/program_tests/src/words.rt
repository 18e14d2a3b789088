// Words that ask for nothing that is done.
use crate::folder::{enter, leave};
use crate::session::{Given, call};
use std::process::Abort;
use std::test::Fail;

// The status, the page, and what was said on standard error.
fn answered(rt: &HostRuntime, words: &[&[u8]]) -> Result<String, Fail> {
    let called = call(rt, Given { words, env: &[] })?;
    let (status, page, said) = (called.status, called.page.as_str(), called.said.as_str());
    Ok(format!(in rt.alloc(); "{status}\n{page}\n{said}")?)
}

#[test]
fn refused(rt: HostRuntime) -> Result<(), Fail> {
    let folder = enter(&rt, "words", &[])?;
    let table: [(&[&[u8]], &str); 4] = [
        (
            &[b"run", b"build", b"--nope"],
            "1\nturbo: words: Unknown 2\n\nturbo: word 2 is \"--nope\"\n",
        ),
        (&[b"run"], "1\nturbo: words: NoTask\n\n"),
        (&[b"run", b"\xff"], "1\nturbo: a word is not UTF-8\n\n"),
        (&[b"run", b"build"], "1\nturbo: package.json is missing\n\n"),
    ];
    for (words, text) in table {
        assert_eq!(rt; answered(&rt, words)?.as_str(), text);
    }
    leave(&rt, folder)
}
