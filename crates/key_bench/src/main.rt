//! How fast the key text of a listing is written, and its fingerprint found.
//!
//! Words: the count of files and the bytes of each; without words it says these.
#![tactic(auto)]

use anyhow::{Result, bail};
use listing::{Listing, Parts, fingerprint, key_text, short};
use rel_path::{Bytes, Files, RelPath};
use std::alloc::Global;
use std::env;
use std::time::Instant;

/// A listing of so many files of so many bytes each.
fn listing(alloc: Global, count: u64, len: u64) -> Result<Listing> {
    let mut files = Files::new(alloc);
    for number in 0..count {
        let name = format!(in alloc; "packages/a/src/{number}.js")?;
        let Ok(path) = RelPath::read(alloc, name.as_str()) else {
            bail!("no path");
        };
        let bytes = Bytes::from_vec(vec![in alloc; b'x'; len.min(1 << 30) as usize]?);
        let Ok(()) = files.push((path, bytes)) else {
            bail!("no memory");
        };
    }
    Ok(Listing {
        files,
        parts: Parts::new(alloc),
    })
}

/// Writes the key text of the listing and takes its fingerprint, with the times of both.
fn bench(rt: &HostRuntime, listing: &Listing) -> Result<()> {
    let alloc = rt.alloc();
    let began = Instant::now(rt)?;
    let Ok(key) = key_text(alloc, listing) else {
        bail!("no key text");
    };
    let writing = began.elapsed(rt)?.as_micros();
    let began = Instant::now(rt)?;
    let print = fingerprint(key.as_slice());
    let hashing = began.elapsed(rt)?.as_micros();
    let Ok(digits) = short(alloc, &print) else {
        bail!("no digits");
    };
    let bytes = key.as_slice().len();
    println!(rt;
        "{bytes} bytes written in {writing} us, hashed in {hashing} us: {}",
        digits.as_str()
    )?;
    Ok(())
}

fn main(rt: HostRuntime) -> Result<()> {
    let words: Vec<String> = env::args(&rt)?.skip(1).collect(rt.alloc())?;
    match words.as_slice() {
        [count, len] => {
            let (count, len) = (count.as_str().parse::<u64>()?, len.as_str().parse::<u64>()?);
            let listing = listing(rt.alloc(), count, len)?;
            bench(&rt, &listing)
        }
        _ => {
            println!(rt; "key_bench: COUNT BYTES")?;
            Ok(())
        }
    }
}
