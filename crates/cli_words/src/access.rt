// The stores that `--cache` names.
ghost use Rattle.std.specs.Prelude.{◌≡◌};
ghost use Rattle.cli_words.specs.Values.{local_rights, second_rights, access_of, one_store, two_stores, stores, access};
ghost use Rattle.cli_words.specs.Seen.{seen};

use crate::Access;
use crate::cuts::cut_at;

/// What may be done with a store: results are looked up in it, and put into it.
#[derive(Clone, Copy)]
pub(crate) struct Rights {
    pub(crate) reads: bool,
    pub(crate) puts: bool,
}

const READ_WRITE: Rights = Rights {
    reads: true,
    puts: true,
};

const READ: Rights = Rights {
    reads: true,
    puts: false,
};

/// Those of a store that is not named.
const NONE: Rights = Rights {
    reads: false,
    puts: false,
};

fn access_of(local: Rights, second: Rights) -> Access
    ensures { result ≡ access_of local second }
{
    Access {
        local_reads: local.reads,
        local_puts: local.puts,
        second_reads: second.reads,
        second_puts: second.puts,
    }
}

fn local_rights(part: &str) -> Option<Rights>
    ensures { result ≡ local_rights part.now }
{
    match part {
        "local:rw" => Some(READ_WRITE),
        "local:r" => Some(READ),
        "local:" => Some(NONE),
        _ => None,
    }
}

fn second_rights(part: &str) -> Option<Rights>
    ensures { result ≡ second_rights part.now }
{
    match part {
        "remote:rw" => Some(READ_WRITE),
        "remote:r" => Some(READ),
        "remote:" => Some(NONE),
        _ => None,
    }
}

fn one_store(part: &str) -> Option<Access>
    ensures { result ≡ one_store part.now }
{
    if let Some(local) = local_rights(part) {
        return Some(access_of(local, NONE));
    }
    let second = second_rights(part)?;
    Some(access_of(NONE, second))
}

fn two_stores(local: &str, second: &str) -> Option<Access>
    ensures { result ≡ two_stores local.now second.now }
{
    let local = local_rights(local)?;
    let second = second_rights(second)?;
    Some(access_of(local, second))
}

fn stores(part: &str, other: Option<&str>) -> Option<Access>
    ensures { result ≡ stores part.now (seen other.entry) }
{
    match other {
        None => one_store(part),
        Some(other) => two_stores(part, other).or(two_stores(other, part)),
    }
}

/// The access that parts with a comma between them give. Results are put into one store at least.
#[tactic(auto, unfolding(crate::specs::Values::access))]
pub(crate) fn access(text: &str) -> Option<Access>
    ensures { result ≡ access text.now }
{
    let (part, other) = cut_at(text, ',');
    let access = stores(part, other)?;
    if access.local_puts || access.second_puts {
        Some(access)
    } else {
        None
    }
}
