// Words around a character.
ghost use Rattle.std.specs.Prelude.{◌≡◌, ◌<◌};
ghost use Rattle.cli_words.specs.Cuts.{begins_with, before, behind};
ghost use Rattle.cli_words.specs.Seen.{seen};

/// Whether the first byte is this one.
pub(crate) fn begins_with(text: &str, mark: u8) -> bool
    ensures { result ≡ begins_with mark text.now }
{
    match text.as_bytes().split_first() {
        Some((first, _rest)) => *first == mark,
        None => false,
    }
}

/// The text in front of the first such character, and that behind it where there is one.
pub(crate) fn cut_at(text: &str, mark: char) -> (&str, Option<&str>)
    requires { mark < 128 }
    ensures before { result.0.now ≡ before mark text.now }
    ensures behind { seen result.1 ≡ behind mark text.now }
{
    match text.split_once(mark) {
        Some((name, value)) => (name, Some(value)),
        None => (text, None),
    }
}
