// Waiting for what the commands that run write, and for their ends.
ghost use Rattle.std.specs.Prelude.{◌≡◌, ◌<◌, length, map, IfSome};

use crate::progress::Progress;
use crate::running::Running;
use libc::net::POLLIN;
use libc::types::pollfd;
use std::alloc::{AllocError, Global};
use std::io;
use std::io::ErrorKind;
use std::os::fd::AsRawFd;
use std::process::OpenProcess;
use std::time::{Clock, Duration};

/// Between two looks at the children lies at least this. A process that a shell left behind holds up nobody for
/// longer than two of these.
const LOOK_MILLIS: i32 = 50;

// The longest wait of whoever only asks for an end, in milliseconds.
const NO_PAUSE: i32 = 0;

// So often it reads from each pipe: what a child wrote, and then the end of the pipe behind that.
const GLANCES: u32 = 2;

// So often a child that closed its output is asked for its end without a pause: most have ended by then.
const SPINS: i32 = 100;

// The most bytes of one read: what a pipe holds.
const CHUNK: usize = 65_536;

/// What is kept from one wait to the next.
#[derive(Drop)]
pub struct Watch {
    // The room for a read, once there was one.
    buf: Vec<u8>,
    looked: Duration,
    // How often nothing was ready since something was.
    idle: i32,
    progress: Progress,
}

// The pipes that are open, each with its place.
#[derive(Drop)]
struct Asked {
    places: Vec<usize>,
    pipes: Vec<pollfd>,
}

fn asked_of<P: OpenProcess + Drop>(
    alloc: Global,
    running: &[Running<P>],
) -> Result<Asked, AllocError>
where
    P::Stdout: AsRawFd,
{
    let mut places = Vec::new(alloc);
    let mut pipes = Vec::new(alloc);
    for (place, it) in running.iter().enumerate() {
        if let Some(fd) = it.descriptor() {
            places.push(place)?;
            pipes.push(pollfd {
                fd,
                events: POLLIN,
                revents: 0,
            })?;
        }
    }
    Ok(Asked { places, pipes })
}

// Waits until one of the pipes is ready, for at most so many milliseconds.
fn poll(pipes: &mut [pollfd], millis: i32) -> io::Result<()> {
    if libc::net::poll(pipes, millis) < 0 {
        return Err(io::Error::from(ErrorKind::Interrupted));
    }
    Ok(())
}

fn read_at<P: OpenProcess + Drop>(running: &mut [Running<P>], place: usize, buf: &mut [u8])
where
    P::Stdout: AsRawFd,
    ensures { map (λ r. r.command) running.new ≡ map (λ r. r.command) running.old }
{
    if place < running.len() {
        running[place].read(buf);
    }
}

// Reads from each pipe that is ready: whether any was.
fn read_ready<P: OpenProcess + Drop>(
    running: &mut [Running<P>],
    asked: &Asked,
    buf: &mut [u8],
) -> bool
where
    P::Stdout: AsRawFd,
    ensures { map (λ r. r.command) running.new ≡ map (λ r. r.command) running.old }
{
    let mut found = false;
    for (place, pipe) in asked.places.iter().zip(asked.pipes.iter()) {
        if pipe.revents != 0 {
            read_at(running, *place, buf);
            found = true;
        }
    }
    found
}

fn look_at<P: OpenProcess + Drop>(running: &mut [Running<P>])
where
    P::Stdout: AsRawFd,
    ensures { map (λ r. r.command) running.new ≡ map (λ r. r.command) running.old }
{
    for place in 0..running.len() {
        running[place].look();
    }
}

// The place of the first that has ended.
fn ended_at<P: OpenProcess + Drop>(running: &mut [Running<P>]) -> Option<usize>
where
    P::Stdout: AsRawFd,
    ensures kept { map (λ r. r.command) running.new ≡ map (λ r. r.command) running.old }
    ensures place { IfSome result (λ place. place < length running.new) }
{
    for place in 0..running.len() {
        if running[place].has_ended() {
            return Some(place);
        }
    }
    None
}

impl Watch {
    pub fn new(alloc: Global) -> Watch {
        Watch {
            buf: Vec::new(alloc),
            looked: Duration::ZERO,
            idle: 0,
            progress: Progress::new(),
        }
    }

    // How long to wait for output. Whoever closed it is asked for an end in shorter turns.
    fn millis(&self, some_closed: bool) -> i32 {
        if !some_closed {
            return LOOK_MILLIS;
        }
        self.idle.saturating_sub(SPINS).clamp(0, LOOK_MILLIS)
    }

    // Whether it is time for a look, which counts as taken.
    fn is_due(&mut self, rt: &impl Clock) -> bool {
        let now = rt.monotonic().unwrap_or(Duration::MAX);
        if now.saturating_sub(self.looked) < Duration::from_millis(LOOK_MILLIS as u64) {
            return false;
        }
        self.looked = now;
        true
    }

    // Reads from each pipe that is ready, once one is, or once so many milliseconds are over: whether one was.
    fn read_within<P: OpenProcess + Drop>(
        &mut self,
        alloc: Global,
        running: &mut [Running<P>],
        most: i32,
    ) -> io::Result<bool>
    where
        P::Stdout: AsRawFd,
        ensures { map (λ r. r.command) running.new ≡ map (λ r. r.command) running.old }
    {
        self.buf.resize(CHUNK, 0)?;
        let mut asked = asked_of(alloc, running)?;
        let some_closed = asked.pipes.len() < running.len();
        let pause = self.millis(some_closed).min(most);
        poll(asked.pipes.as_mut_slice(), pause)?;
        let found = read_ready(running, &asked, self.buf.as_mut_slice());
        self.idle = if found {
            0
        } else {
            self.idle.saturating_add(1)
        };
        Ok(found)
    }

    // Waits until something is ready, or for a while, and reads all that is.
    fn turn<R: Clock + Eprint, P: OpenProcess + Drop>(
        &mut self,
        rt: &R,
        alloc: Global,
        running: &mut [Running<P>],
    ) -> io::Result<()>
    where
        P::Stdout: AsRawFd,
        ensures { map (λ r. r.command) running.new ≡ map (λ r. r.command) running.old }
    {
        self.read_within(alloc, running, LOOK_MILLIS)?;
        if self.is_due(rt) {
            look_at(running);
            self.progress.show(rt, alloc, running);
        }
        Ok(())
    }

    /// The place of one that has ended, as soon as one has. Meanwhile the output of all is read. Where that can't
    /// be done it is the first, which is then waited for alone.
    pub fn wait<R: Clock + Eprint, P: OpenProcess + Drop>(
        &mut self,
        rt: &R,
        alloc: Global,
        running: &mut [Running<P>],
    ) -> usize
    where
        P::Stdout: AsRawFd,
        requires { 0 < length running.old }
        ensures kept { map (λ r. r.command) running.new ≡ map (λ r. r.command) running.old }
        ensures place { result < length running.new }
    {
        for _ in 0..u64::MAX {
            if let Some(place) = ended_at(running) {
                self.progress.end(rt);
                return place;
            }
            if self.turn(rt, alloc, running).is_err() {
                break;
            }
        }
        self.progress.end(rt);
        0
    }

    /// Whether one has ended, as far as that is seen without a pause. What is ready is read, and nothing is drawn:
    /// whoever asks may write on the terminal next.
    pub fn has_ended<P: OpenProcess + Drop>(
        &mut self,
        alloc: Global,
        running: &mut [Running<P>],
    ) -> bool
    where
        P::Stdout: AsRawFd,
        ensures { map (λ r. r.command) running.new ≡ map (λ r. r.command) running.old }
    {
        for _ in 0..GLANCES {
            match self.read_within(alloc, running, NO_PAUSE) {
                Ok(true) => {}
                Ok(false) => break,
                Err(_) => return false,
            }
        }
        ended_at(running).is_some()
    }

    /// Reads on until one more pipe is closed, which frees its descriptor.
    pub fn close_one<R: Clock + Eprint, P: OpenProcess + Drop>(
        &mut self,
        rt: &R,
        alloc: Global,
        running: &mut [Running<P>],
    ) -> io::Result<()>
    where
        P::Stdout: AsRawFd,
        ensures { map (λ r. r.command) running.new ≡ map (λ r. r.command) running.old }
    {
        let open = count_open(running);
        for _ in 0..u64::MAX {
            if open == 0 || count_open(running) < open {
                break;
            }
            self.turn(rt, alloc, running)?;
        }
        Ok(())
    }
}

fn count_open<P: OpenProcess>(running: &[Running<P>]) -> usize {
    running
        .iter()
        .filter(|it| it.child.stdout.is_some())
        .count()
}
