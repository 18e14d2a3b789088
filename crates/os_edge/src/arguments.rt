// The words and the environment that the program was given.
ghost use Rattle.std.specs.Prelude.{◌≡◌, IfOk};
ghost use Rattle.os_edge.specs.Arguments.{OnlyMemory, pair_of};

use rel_path::Text;
use std::alloc::{AllocError, AllocFailed, Global};
use std::env;
use std::env::{Env, FillError};
use std::io::ErrorKind;
use thiserror::Error;

/// Why the words were not read.
#[derive(Clone, Copy, Debug, PartialEq, Eq, Error)]
pub enum WordErr {
    #[error("a word is not UTF-8")]
    NotUtf8,
    #[error("out of memory")]
    OutOfMemory,
}

impl From<AllocError> for WordErr {
    ghost use Rattle.os_edge.specs.declared.arguments.WordErr.TheVariants.{OutOfMemory};

    ghost from_gives = { λ _ e. e ≡ OutOfMemory };

    fn from(_error: AllocError) -> WordErr {
        WordErr::OutOfMemory
    }
}

impl<T: Drop> From<AllocFailed<T>> for WordErr {
    ghost use Rattle.os_edge.specs.declared.arguments.WordErr.TheVariants.{OutOfMemory};

    ghost from_gives = { λ _ e. e ≡ OutOfMemory };

    fn from(_error: AllocFailed<T>) -> WordErr {
        WordErr::OutOfMemory
    }
}

/// The words of the command line behind the program's name. No contract can say which those are.
pub fn words<R: Env + AllocGlobal>(rt: &R, alloc: Global) -> Result<Vec<Text>, WordErr> {
    let mut words = Vec::new(alloc);
    let all = match env::args(rt) {
        Ok(all) => all,
        Err(e) if e.kind() == ErrorKind::OutOfMemory => return Err(WordErr::OutOfMemory),
        Err(_) => return Err(WordErr::NotUtf8),
    };
    for word in all.skip(1) {
        words.push(Text::from_string(word))?;
    }
    Ok(words)
}

// The most times that the room for an entry is doubled.
const DOUBLINGS: u32 = 40;

// An entry of the environment by its number, or none behind the last.
fn entry_at(rt: &impl Env, alloc: Global, number: usize) -> Result<Option<Vec<u8>>, WordErr>
    ensures memory { OnlyMemory result }
{
    let mut size: usize = 256;
    for _ in 0..DOUBLINGS {
        let mut entry = Vec::new(alloc);
        entry.resize(size, 0u8)?;
        match rt.var_at(number, entry.as_mut_slice()) {
            Ok(length) => {
                entry.truncate(length);
                return Ok(Some(entry));
            }
            Err(FillError::NotPresent) => return Ok(None),
            Err(FillError::TooLong) => {}
        }
        size = size.saturating_mul(2);
    }
    Err(WordErr::OutOfMemory)
}

fn pair_in(alloc: Global, entry: &str) -> Result<Option<(Text, Text)>, WordErr>
    ensures pair { IfOk result (λ pair. pair ≡ pair_of entry.now) }
    ensures memory { OnlyMemory result }
{
    let Some((name, value)) = entry.split_once('=') else {
        return Ok(None);
    };
    if name.is_empty() {
        return Ok(None);
    }
    let name = Text::read(alloc, name)?;
    let value = Text::read(alloc, value)?;
    Ok(Some((name, value)))
}

/// The pairs of the environment in the order of the system, doubles among them. An entry that is not UTF-8,
/// has no `=` or has nothing before it is left out. No contract can say which the entries are.
pub fn environment(rt: &impl Env, alloc: Global) -> Result<Vec<(Text, Text)>, WordErr>
    ensures memory { OnlyMemory result }
{
    let mut pairs = Vec::new(alloc);
    for number in 0..usize::MAX {
        let Some(entry) = entry_at(rt, alloc, number)? else {
            return Ok(pairs);
        };
        if let Ok(entry) = String::from_utf8(entry) {
            if let Some(pair) = pair_in(alloc, entry.as_str())? {
                pairs.push(pair)?;
            }
        }
    }
    Ok(pairs)
}
