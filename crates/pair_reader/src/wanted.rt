// Lengths of keys.
ghost use Rattle.std.specs.Prelude.{◌≡◌};
ghost use Rattle.pair_reader.specs.Answers.{is_one_of, is_among, Ascend, Rise};

/// Whose keys' texts are wanted: all, or those of keys of these lengths, which ascend.
#[derive(Debug, Drop)]
pub enum Lengths {
    All,
    Only(Vec<u64>),
}

impl Lengths {
    /// Whether a length is one of these.
    pub fn holds(&self, len: u64) -> bool
        requires { Ascend self.now }
        ensures { result ≡ is_one_of self.now len }
    {
        match self {
            Lengths::All => true,
            Lengths::Only(lens) => is_among(lens.as_slice(), len),
        }
    }
}

/// Whether a length is among these, which ascend. It is sought by halves.
fn is_among(lens: &[u64], len: u64) -> bool
    requires { Rise lens.now }
    ensures { result ≡ is_among lens.now len }
{
    lens.binary_search(&len).is_ok()
}
