// The text that excludes what lies below a folder.
ghost use Rattle.std.specs.Prelude.{◌≡◌, ◌++◌, IfOk, OnOk, string_bytes};
ghost use Rattle.std.specs.Char.{encode_utf8};
ghost use Rattle.folder_globs.specs.Exclusions.{is_special, escaped, exclusion, AreTexts};
ghost use Rattle.folder_globs.specs.Laws.{ExclusionLaw, ListLaw};

use rel_path::{RelPath, Text};
use std::alloc::{AllocError, Global};

/// The text that excludes exactly what lies below the folder from a list of globs: `!`, each component with a `\` in
/// front of each of the characters `*?[]{}!,\` and a `/` behind it, and `**/*`.
#[tactic(auto, unfolding(crate::specs::Exclusions::exclusion))]
pub fn exclusion(alloc: Global, folder: &RelPath) -> Result<Text, AllocError>
    ensures value { IfOk result (λ text. text ≡ exclusion folder.now) }
    ensures texts { IfOk result (λ text. AreTexts folder.now) }
{
    let mut text = String::new(alloc);
    text.push('!')?;
    for name in folder.components() {
        push_escaped(&mut text, name.as_str())?;
        text.push('/')?;
    }
    text.push_str("**/*")?;
    Ok(Text::from_string(text))
}

/// What the text of an exclusion does in a list of globs, and what such texts behind a list do to what it takes.
pub fn exclusion_law()
    ensures folder { ExclusionLaw }
    ensures list { ListLaw }
{}

/// Adds the name, with a `\` in front of each character that has a meaning in a glob.
fn push_escaped(text: &mut String, name: &str) -> Result<(), AllocError>
    ensures { OnOk result (string_bytes text.new ≡ string_bytes text.old ++ escaped name.now) }
{
    for c in name.chars() {
        push_character(text, c)?;
    }
    Ok(())
}

fn push_character(text: &mut String, c: char) -> Result<(), AllocError>
    ensures { OnOk result (string_bytes text.new
        ≡ string_bytes text.old ++ escaped (encode_utf8 c)) }
{
    if is_special(c) {
        text.push('\\')?;
    }
    text.push(c)
}

#[tactic(auto, unfolding(crate::specs::Exclusions::is_special))]
fn is_special(c: char) -> bool
    ensures { result ≡ is_special c }
{
    matches!(c, '*' | '?' | '[' | ']' | '{' | '}' | '!' | ',' | '\\')
}
