// A print of a key that is found quickly.
ghost use Rattle.std.specs.Prelude.{◌≡◌};
ghost use Rattle.compact.specs.Quick.{mixed, with_words, with_bytes, quick_print};

/// An odd number whose bits look random.
const FACTOR: u64 = 0x9e37_79b9_7f4a_7c15;

/// A print of the key: eight bytes that depend on all of it, and zeros.
#[tactic(auto, unfolding(crate::specs::Quick::quick_print))]
pub fn quick_print(key: &[u8]) -> [u8; 32]
    ensures { result ≡ quick_print key.now }
{
    let (words, bytes) = key.as_chunks::<8>();
    let number = with_bytes(with_words(key.len() as u64, words), bytes);
    let mut print = [0; 32];
    print[..8].copy_from_slice(&number.to_le_bytes());
    print
}

/// A print with more words.
fn with_words(print: u64, words: &[[u8; 8]]) -> u64
    ensures { result ≡ with_words print words.now }
{
    let mut now = print;
    for word in words {
        now = mixed(now, u64::from_le_bytes(*word));
    }
    now
}

/// A print with more bytes.
fn with_bytes(print: u64, bytes: &[u8]) -> u64
    ensures { result ≡ with_bytes print bytes.now }
{
    let mut now = print;
    for byte in bytes {
        now = mixed(now, *byte as u64);
    }
    now
}

/// A print with a number more.
fn mixed(print: u64, number: u64) -> u64
    ensures { result ≡ mixed print number }
{
    print
        .rotate_left(5)
        .wrapping_add(number)
        .wrapping_mul(FACTOR)
}
