// A session of the system: its files and its processes, with words and an environment that a test gives, and a page
// that a test reads.
ghost use Rattle.std.specs.Io.{WritesAtMost};

use crate::folder::undigited;
use program::system_status;
use std::alloc::{Allocator, Global};
use std::cell::RefCell;
use std::env::{Env, FillError};
use std::fmt::Display;
use std::fs::{File, Metadata, OpenOptions};
use std::io;
use std::io::ErrorKind;
use std::process::{Child, Command, Processes, Stdio};
use std::rt::Files;
use std::test::Fail;
use std::time::{Clock, Duration};

/// The words behind the program's name, and the variables, each as `NAME=value`.
#[derive(Clone, Copy)]
pub struct Given<'a> {
    pub words: &'a [&'a [u8]],
    pub env: &'a [&'a [u8]],
}

/// What a call of the program left: its status, what it printed, and what it said on standard error.
#[derive(Drop)]
pub struct Called {
    pub status: u8,
    pub page: String,
    pub said: String,
}

struct Session<'a> {
    rt: &'a HostRuntime,
    given: Given<'a>,
    page: RefCell<Vec<u8>>,
    said: RefCell<Vec<u8>>,
}

fn fill(text: &[u8], buf: &mut [u8]) -> Result<usize, FillError>
    ensures { WritesAtMost result buf.new }
{
    let count = text.len();
    if count > buf.len() {
        return Err(FillError::TooLong);
    }
    buf[..count].copy_from_slice(text);
    Ok(count)
}

fn fill_from(texts: &[&[u8]], number: usize, buf: &mut [u8]) -> Result<usize, FillError>
    ensures { WritesAtMost result buf.new }
{
    match texts.get(number) {
        Some(text) => fill(text, buf),
        None => Err(FillError::NotPresent),
    }
}

impl<'a> Env for Session<'a> {
    fn arg(&self, i: usize, buf: &mut [u8]) -> Result<usize, FillError> {
        match i.checked_sub(1) {
            Some(number) => fill_from(self.given.words, number, buf),
            None => fill(b"turbo", buf),
        }
    }

    fn var(&self, _name: &str, _buf: &mut [u8]) -> Result<usize, FillError> {
        Err(FillError::NotPresent)
    }

    fn var_at(&self, i: usize, buf: &mut [u8]) -> Result<usize, FillError> {
        fill_from(self.given.env, i, buf)
    }
}

// Adds the text at the end of what was printed before.
fn add(all: &RefCell<Vec<u8>>, text: &[u8]) -> io::Result<()> {
    let Ok(mut all) = all.try_borrow_mut() else {
        return Err(io::Error::from(ErrorKind::Other));
    };
    all.extend_from_slice(text)?;
    Ok(())
}

fn add_value<D: Display + Drop>(
    alloc: Global,
    all: &RefCell<Vec<u8>>,
    value: D,
    end: &str,
) -> io::Result<()> {
    let text = format!(in alloc; "{value}{end}")?;
    add(all, text.as_bytes())
}

impl<'a> Print for Session<'a> {
    fn print<D: Display + Drop>(&self, value: D) -> io::Result<()> {
        add_value(self.rt.alloc(), &self.page, value, "")
    }

    fn println<D: Display + Drop>(&self, value: D) -> io::Result<()> {
        add_value(self.rt.alloc(), &self.page, value, "\n")
    }

    fn write_all(&self, bytes: &[u8]) -> io::Result<()> {
        add(&self.page, bytes)
    }
}

impl<'a> Eprint for Session<'a> {
    fn eprint<D: Display + Drop>(&self, value: D) -> io::Result<()> {
        add_value(self.rt.alloc(), &self.said, value, "")
    }

    fn eprintln<D: Display + Drop>(&self, value: D) -> io::Result<()> {
        add_value(self.rt.alloc(), &self.said, value, "\n")
    }
}

impl<'a> Clock for Session<'a> {
    fn monotonic(&self) -> io::Result<Duration> {
        self.rt.monotonic()
    }

    fn since_1970(&self) -> io::Result<Duration> {
        self.rt.since_1970()
    }
}

impl<'a> Alloc for Session<'a> {
    type A = Global;

    fn alloc(&self) -> Global {
        self.rt.alloc()
    }
}

impl<'a> Files for Session<'a> {
    type File = File;

    type Dir = <HostRuntime as Files>::Dir;

    fn open_file(&self, how: &OpenOptions, path: &str) -> io::Result<File> {
        self.rt.open_file(how, path)
    }

    fn open_dir(&self, path: &str) -> io::Result<<HostRuntime as Files>::Dir> {
        self.rt.open_dir(path)
    }

    fn metadata(&self, path: &str) -> io::Result<Metadata> {
        self.rt.metadata(path)
    }

    fn symlink_metadata(&self, path: &str) -> io::Result<Metadata> {
        self.rt.symlink_metadata(path)
    }

    fn copy(&self, from: &str, to: &str) -> io::Result<u64> {
        self.rt.copy(from, to)
    }

    fn rename(&self, from: &str, to: &str) -> io::Result<()> {
        self.rt.rename(from, to)
    }

    fn remove_file(&self, path: &str) -> io::Result<()> {
        self.rt.remove_file(path)
    }

    fn create_dir(&self, path: &str) -> io::Result<()> {
        self.rt.create_dir(path)
    }

    fn remove_dir(&self, path: &str) -> io::Result<()> {
        self.rt.remove_dir(path)
    }

    fn remove_dir_all<B: Allocator>(&self, alloc: B, path: &str) -> io::Result<()> {
        self.rt.remove_dir_all(alloc, path)
    }
}

impl<'a> Processes for Session<'a> {
    type Started = <HostRuntime as Processes>::Started;

    fn spawn<B: Allocator + Clone>(
        &self,
        command: &Command<B>,
        stdin: &Stdio,
        stdout: &Stdio,
        stderr: &Stdio,
    ) -> io::Result<Child<<HostRuntime as Processes>::Started>> {
        self.rt.spawn(command, stdin, stdout, stderr)
    }
}

fn text_of(bytes: RefCell<Vec<u8>>) -> Result<String, Fail> {
    match String::from_utf8(bytes.into_inner()) {
        Ok(text) => Ok(text),
        Err(_) => Err(Fail::new("no text")),
    }
}

/// Calls the program in the current folder.
pub fn call(rt: &HostRuntime, given: Given) -> Result<Called, Fail> {
    let session = Session {
        rt,
        given,
        page: RefCell::new(Vec::new(rt.alloc())),
        said: RefCell::new(Vec::new(rt.alloc())),
    };
    let status = system_status(&session);
    let Session {
        rt: _,
        given: _,
        page,
        said,
    } = session;
    Ok(Called {
        status,
        page: text_of(page)?,
        said: text_of(said)?,
    })
}

/// The words of a plain build.
pub const BUILD: &[&[u8]] = &[b"run", b"build"];

/// Where commands find their programs.
pub const SEARCH_PATH: &[u8] = b"PATH=/usr/bin:/bin";

/// Calls the program: a line with its status, and then its page without the digits of fingerprints.
pub fn shown(rt: &HostRuntime, words: &[&[u8]], env: &[&[u8]]) -> Result<String, Fail> {
    let called = call(rt, Given { words, env })?;
    let page = undigited(rt, called.page.as_str())?;
    let status = called.status;
    let page = page.as_str();
    Ok(format!(in rt.alloc(); "status {status}\n{page}")?)
}
