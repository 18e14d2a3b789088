// The lines of an ignore file, and what is cut off them.
ghost use Rattle.std.specs.Prelude.{◌≡◌, ◌∷◌, [], ◌<◌, length, position, IfSome, MatchOption};
ghost use Rattle.std.specs.List.{slice_split};
ghost use Rattle.ignore_rules.specs.Lines.{behind_mark, is_newline, without_return};
ghost use Rattle.ignore_rules.specs.Marks.{trimmed};

use glob_syntax::Mark;

/// The bytes behind a byte order mark in front, or all.
pub(crate) fn behind_mark(bytes: &[u8]) -> &[u8]
    ensures { result.now ≡ behind_mark bytes.now }
{
    match bytes {
        [0xef, 0xbb, 0xbf, behind @ ..] => behind,
        _ => bytes,
    }
}

fn newline_at(bytes: &[u8]) -> Option<usize>
    ensures { result ≡ position is_newline bytes.now }
{
    bytes.iter().position(|b| *b == b'\n')
}

/// The first line and what stands behind its newline, where there is one.
pub(crate) fn split_line(bytes: &[u8]) -> Option<(&[u8], &[u8])>
    ensures line { MatchOption result (slice_split is_newline bytes.now ≡ bytes.now ∷ [])
        (λ r. slice_split is_newline bytes.now ≡ r.0.now ∷ slice_split is_newline r.1.now) }
    ensures shorter { IfSome result (λ r. length r.1.now < length bytes.now) }
{
    let end = newline_at(bytes)?;
    Some((&bytes[..end], &bytes[end + 1..]))
}

/// The line without one carriage return at its end.
pub(crate) fn without_return(line: &[u8]) -> &[u8]
    ensures { result.now ≡ without_return line.now }
{
    match line.split_last() {
        Some((last, front)) if *last == b'\r' => front,
        _ => line,
    }
}

/// The characters without the spaces at the end that are not quoted.
pub(crate) fn trimmed(marks: &[Mark]) -> &[Mark]
    ensures { result.now ≡ trimmed marks.now }
{
    let mut left = marks;
    while let Some((last, front)) = left.split_last() {
        if !last.is_plain(' ') {
            return left;
        }
        left = front;
    }
    left
}
