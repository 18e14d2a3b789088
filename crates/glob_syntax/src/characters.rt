// The characters of a text, one after another.
ghost use Rattle.std.specs.Prelude.{◌≡◌};
ghost use Rattle.std.specs.Str.{chars};
ghost use Rattle.glob_syntax.specs.Match.{with_first};

use rel_path::split_first_char;
use wildcards::Elements;

/// The characters of a text, the first of which is read.
#[derive(Clone, Copy)]
pub(crate) struct Characters<'a> {
    first: Option<char>,
    behind: &'a str,
}

impl<'a> Characters<'a> {
    pub fn of(text: &'a str) -> Characters<'a>
        ensures { with_first result.first result.behind.now ≡ chars text.now }
    {
        match split_first_char(text) {
            Some((c, behind)) => Characters {
                first: Some(c),
                behind,
            },
            None => Characters {
                first: None,
                behind: text,
            },
        }
    }
}

impl<'a> Elements for Characters<'a> {
    type Element = char;

    ghost elements = { λ c. with_first c.first c.behind.now };

    fn first(&self) -> Option<&char> {
        self.first.as_ref()
    }

    fn behind(&self) -> Characters<'a> {
        match self.first {
            Some(_) => Characters::of(self.behind),
            None => *self,
        }
    }
}
