// The characters of a text, one after another.
ghost use Rattle.std.specs.Prelude.{◌≡◌, ◌∷◌, [], IsUtf8, MatchOption, IfSome};
ghost use Rattle.std.specs.Str.{chars};

/// The first character and the text after it; nothing of an empty text.
pub fn split_first_char(text: &str) -> Option<(char, &str)>
    ensures first { MatchOption result (chars text.now ≡ [])
        (λ r. chars text.now ≡ r.0 ∷ chars r.1.now) }
    ensures text { IfSome result (λ r. IsUtf8 r.1.now) }
{
    let mut rest = text.chars();
    let c = rest.next()?;
    Some((c, rest.as_str()))
}
