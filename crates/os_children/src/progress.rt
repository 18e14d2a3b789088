// A sign of life on a terminal: a line on standard error that is drawn over itself.
use crate::running::Running;
use std::alloc::{AllocError, Global};
use std::fmt::Write;
use std::process::OpenProcess;
use std::time::{Clock, Duration};

// The most characters of the line: it has to fit in one row.
const WIDTH: usize = 79;

// Back to the start of the row, which is cleared.
const CLEAR: &str = "\r\x1b[K";

/// What runs, for whoever watches the terminal. Nothing is written where standard error is a file or a pipe.
#[derive(Drop)]
pub struct Progress {
    on_terminal: bool,
    shown: bool,
    ended: u64,
}

// How many have ended, and the tasks that run, each with its seconds.
fn line_of<P: OpenProcess>(
    alloc: Global,
    ended: u64,
    running: &[Running<P>],
    now: Duration,
) -> Result<String, AllocError> {
    let mut line = format!(in alloc; "turbo: {ended} ended, running:")?;
    for it in running {
        let (package, task) = (it.command.package.as_str(), it.command.task.as_str());
        let seconds = now.saturating_sub(it.since).as_secs();
        write!(line, " {package}#{task} {seconds}s")?;
    }
    line.chars().take(WIDTH).collect(alloc)
}

impl Progress {
    pub fn new() -> Progress {
        Progress {
            on_terminal: libc::isatty(libc::STDERR_FILENO) == 1,
            shown: false,
            ended: 0,
        }
    }

    /// Draws the line anew.
    pub fn show<R: Clock + Eprint, P: OpenProcess>(
        &mut self,
        rt: &R,
        alloc: Global,
        running: &[Running<P>],
    ) {
        if !self.on_terminal {
            return;
        }
        let now = rt.monotonic().unwrap_or(Duration::ZERO);
        if let Ok(line) = line_of(alloc, self.ended, running, now) {
            let _ = eprint!(rt; "{CLEAR}{line}");
            self.shown = true;
        }
    }

    /// Takes the line away at an end.
    pub fn end(&mut self, rt: &impl Eprint) {
        self.ended = self.ended.saturating_add(1);
        if self.shown {
            let _ = eprint!(rt; "{CLEAR}");
            self.shown = false;
        }
    }
}
