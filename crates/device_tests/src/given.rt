// The words, the environment and standard output of the program, with a stand-in for the system.
ghost use Rattle.std.specs.Io.{WritesAtMost};

use os_edge::{OsSink, WordErr, environment, words};
use rel_path::Text;
use std::alloc::Global;
use std::env::{Env, FillError};
use std::fmt::Display;
use std::io;
use std::io::ErrorKind;
use std::process::Abort;
use std::test::Fail;
use tree_dev::{DevErr, Sink};

#[derive(Drop)]
struct Given<'a> {
    words: &'a [&'a [u8]],
    entries: &'a [&'a [u8]],
}

fn fill(texts: &[&[u8]], number: usize, buf: &mut [u8]) -> Result<usize, FillError>
    ensures { WritesAtMost result buf.new }
{
    let Some(text) = texts.get(number) else {
        return Err(FillError::NotPresent);
    };
    let count = text.len();
    if count > buf.len() {
        return Err(FillError::TooLong);
    }
    buf[..count].copy_from_slice(text);
    Ok(count)
}

impl<'a> Env for Given<'a> {
    fn arg(&self, i: usize, buf: &mut [u8]) -> Result<usize, FillError> {
        fill(self.words, i, buf)
    }

    fn var(&self, _name: &str, _buf: &mut [u8]) -> Result<usize, FillError> {
        Err(FillError::NotPresent)
    }

    fn var_at(&self, i: usize, buf: &mut [u8]) -> Result<usize, FillError> {
        fill(self.entries, i, buf)
    }
}

fn words_of(alloc: Global, given: &[&[u8]]) -> Result<Vec<Text>, WordErr> {
    let env = Given {
        words: given,
        entries: &[],
    };
    words(&(env, alloc), alloc)
}

#[test]
fn words_behind_the_name(rt: HostRuntime) -> Result<(), Fail> {
    let alloc = rt.alloc();
    let read = words_of(alloc, &[b"turbo", b"run", b"\xc3\xa9", b""])?;
    let wanted = ["run", "é", ""];
    assert_eq!(rt; read.len(), wanted.len());
    for (word, text) in read.iter().zip(wanted) {
        assert!(rt; word.as_str() == text, "{text}");
    }
    assert!(rt; words_of(alloc, &[b"turbo"])?.is_empty());
    assert!(rt; words_of(alloc, &[])?.is_empty());
    assert!(rt; matches!(words_of(alloc, &[b"turbo", b"\xff"]), Err(WordErr::NotUtf8)));
    Ok(())
}

#[test]
fn pairs(rt: HostRuntime) -> Result<(), Fail> {
    let long = [b'x'; 1000];
    let entries: [&[u8]; 8] = [
        b"B=2", b"no", b"A=1=2", b"=C", b"A\xff=1", b"L=\xff", b"A=", &long,
    ];
    let env = Given {
        words: &[],
        entries: &entries,
    };
    let read = environment(&env, rt.alloc())?;
    let wanted = [("B", "2"), ("A", "1=2"), ("A", "")];
    assert_eq!(rt; read.len(), wanted.len());
    for (pair, (name, value)) in read.iter().zip(wanted) {
        assert!(rt;
            pair.0.as_str() == name && pair.1.as_str() == value,
            "{name}"
        );
    }
    Ok(())
}

// A device on which there is no room.
#[derive(Drop)]
struct Full;

impl Print for Full {
    fn print<D: Display + Drop>(&self, _value: D) -> io::Result<()> {
        Err(io::Error::from(ErrorKind::StorageFull))
    }

    fn println<D: Display + Drop>(&self, _value: D) -> io::Result<()> {
        Err(io::Error::from(ErrorKind::StorageFull))
    }

    fn write_all(&self, _bytes: &[u8]) -> io::Result<()> {
        Err(io::Error::from(ErrorKind::StorageFull))
    }
}

#[test]
fn output(rt: HostRuntime) -> Result<(), Fail> {
    let alloc = rt.alloc();
    OsSink::new(&rt).put(alloc, b"some output\n")?;
    assert_eq!(rt; OsSink::new(Full).put(alloc, b"x"), Err(DevErr::Failed));
    Ok(())
}
