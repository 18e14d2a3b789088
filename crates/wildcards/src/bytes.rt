// Patterns of bytes.
ghost use Rattle.wildcards.specs.Bytes.{is_star, takes_byte};

use crate::item::Item;

/// A byte of a pattern: `*` takes any run of bytes, each other byte takes itself.
impl Item<u8> for u8 {
    ghost is_run = { is_star };

    ghost takes = { takes_byte };

    fn is_run(&self) -> bool {
        *self == b'*'
    }

    fn takes(&self, element: &u8) -> bool {
        *element == *self
    }
}
