// Numbers in four bytes or in eight.
ghost use Rattle.std.specs.Prelude.{◌≡◌, ◌<◌, ◌++◌, IfSome, OnOk};
ghost use Rattle.codes.specs.Views.{taken_by};
ghost use Rattle.record_log.specs.Pieces.{width, limit, number, read_number};

use codes::{long_word_at, put_long_word, put_word, word_at};
use std::alloc::AllocError;

/// The number at the front, in eight bytes where `long`, and what follows it. `None` where it does not stand there whole.
#[tactic(auto, unfolding(crate::specs::Pieces::read_number, codes::specs::Codes::read_word, codes::specs::Codes::read_long_word))]
pub fn number_at(long: bool, bytes: &[u8]) -> Option<(u64, &[u8])>
    ensures value { taken_by (λ p. p.0) (λ p. p.1.now) result
        ≡ read_number (width long) bytes.now }
    ensures short { IfSome result (λ p. p.0 < limit long) }
{
    if long {
        return long_word_at(bytes);
    }
    let (number, rest) = word_at(bytes)?;
    Some((number as u64, rest))
}

/// Adds a number in eight bytes where `long`, and else in four.
#[tactic(auto, unfolding(crate::specs::Pieces::number, codes::specs::Codes::word, codes::specs::Codes::long_word))]
pub fn put_number(to: &mut Vec<u8>, long: bool, n: u64) -> Result<(), AllocError>
    requires { n < limit long }
    ensures { OnOk result (to.new.items ≡ to.old.items ++ number (width long) n) }
{
    if long {
        put_long_word(to, n)?;
    } else {
        put_word(to, n as u32)?;
    }
    Ok(())
}
