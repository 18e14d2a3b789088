// The kinds of frames, and what their heads take.
ghost use Rattle.std.specs.Prelude.{◌≡◌};
ghost use Rattle.record_log.specs.Kinds.{head_of, is_long, holds_record, lens_fit};

/// A pair: its key and its value, which may be any bytes.
pub const PAIR: u8 = 1;

/// A content: its digest and its bytes.
pub const CONTENT: u8 = 2;

/// A pair cut into pieces: the digest of its key, and the pieces of key and value.
pub const RECORD: u8 = 3;

/// A record whose numbers have eight bytes.
pub const LONG_RECORD: u8 = 4;

/// A generation: a number of eight bytes, and no value.
pub const GENERATION: u8 = 5;

/// How many bytes a digest has.
pub const DIGEST_BYTES: u64 = 32;

/// How many bytes a generation has.
pub const GENERATION_BYTES: u64 = 8;

/// A gate that is open: the frame behind it counts.
pub const OPEN: u8 = 1;

/// A gate that is closed.
pub const CLOSED: u8 = 0;

/// Where the first gate stands: behind the magic.
pub const GATE: u64 = 8;

/// How many bytes of a frame tell its kind and its lengths, where these have four bytes.
pub const HEAD: u64 = 9;

/// The same where they have eight.
pub const LONG_HEAD: u64 = 17;

/// Whether the numbers of a frame of that kind have eight bytes.
pub fn is_long(kind: u8) -> bool
    ensures { result ≡ is_long kind }
{
    kind == LONG_RECORD
}

/// How many bytes the head of a frame of that kind has.
pub fn head_of(kind: u8) -> u64
    ensures { result ≡ head_of kind }
{
    if is_long(kind) { LONG_HEAD } else { HEAD }
}

/// Whether the value of a frame of that kind is the pieces of a pair.
pub fn holds_record(kind: u8) -> bool
    ensures { result ≡ holds_record kind }
{
    kind == RECORD || kind == LONG_RECORD
}

/// Whether key and value of a frame of that kind may have these lengths.
pub fn lens_fit(kind: u8, key_len: u64, value_len: u64) -> bool
    ensures { result ≡ lens_fit kind key_len value_len }
{
    match kind {
        PAIR => true,
        CONTENT | RECORD | LONG_RECORD => key_len == DIGEST_BYTES,
        GENERATION => key_len == GENERATION_BYTES && value_len == 0,
        _ => false,
    }
}
