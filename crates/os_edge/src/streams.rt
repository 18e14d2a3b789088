// The three descriptors that every program has.
use std::fs::{File, OpenOptions};
use std::os::fd::{AsRawFd, IntoRawFd};
use std::rt::Files;

// Standard input, output and error.
const STREAMS: i32 = 3;

/// Opens what is closed of standard input, output and error on `/dev/null`, for good. It has to come before any
/// other file is opened, since that one would get the number of a closed stream, and be written over.
pub fn open_streams<R: Files<File = File>>(rt: &R) {
    for _ in 0..STREAMS {
        let Ok(file) = OpenOptions::new()
            .read(true)
            .write(true)
            .open(rt, "/dev/null")
        else {
            return;
        };
        if file.as_raw_fd() >= STREAMS {
            return;
        }
        file.into_raw_fd();
    }
}
