// The text by which a command's scripts run.
ghost use Rattle.std.specs.Prelude.{◌≡◌, ◌++◌, IfOk, OnOk, string_bytes};
ghost use Rattle.tree_dev.specs.Cause.{OnlyMemory};
ghost use Rattle.spawn_dev.specs.ShellText.{quote, folder_line, programs, search_path, search_line, script_line, words_behind, other_lines, script_lines, shell_text_of};

use crate::Command;
use rel_path::{RelPath, Text, split_first_char};
use std::alloc::Global;
use tree_dev::DevErr;

fn push_quoted(text: &mut String, word: &str) -> Result<(), DevErr>
    ensures bytes { OnOk result (string_bytes text.new ≡ string_bytes text.old ++ quote word.now) }
    ensures memory { OnlyMemory result }
{
    text.push_str("'")?;
    let mut rest = word;
    while let Some((c, more)) = split_first_char(rest) {
        if c == '\'' {
            text.push_str("'\\''")?;
        } else {
            text.push(c)?;
        }
        rest = more;
    }
    text.push_str("'")?;
    Ok(())
}

// Into the folder; nothing where that is the root.
fn push_folder_line(alloc: Global, text: &mut String, folder: &RelPath) -> Result<(), DevErr>
    ensures bytes { OnOk result
        (string_bytes text.new ≡ string_bytes text.old ++ folder_line folder.now) }
    ensures memory { OnlyMemory result }
{
    if folder.components().is_empty() {
        return Ok(());
    }
    let mut place = String::from_str(alloc, "./")?;
    place.push_str(folder.text(alloc)?.as_str())?;
    text.push_str("cd ")?;
    push_quoted(text, place.as_str())?;
    text.push_str(" || exit 127\n")?;
    Ok(())
}

fn push_programs(text: &mut String, ups: usize) -> Result<(), DevErr>
    ensures bytes { OnOk result (string_bytes text.new ≡ string_bytes text.old ++ programs ups) }
    ensures memory { OnlyMemory result }
{
    let mut left = ups;
    while left > 0 {
        text.push_str("../")?;
        left -= 1;
    }
    text.push_str("node_modules/.bin")?;
    Ok(())
}

// The programs of the packages in this folder, which lies so deep, and in those above it.
fn push_search_path(text: &mut String, depth: usize) -> Result<(), DevErr>
    ensures bytes { OnOk result
        (string_bytes text.new ≡ string_bytes text.old ++ search_path depth) }
    ensures memory { OnlyMemory result }
{
    push_programs(text, 0)?;
    for ups in 0..depth {
        text.push_str(":")?;
        push_programs(text, ups + 1)?;
    }
    Ok(())
}

fn push_search_line(text: &mut String, depth: usize) -> Result<(), DevErr>
    ensures bytes { OnOk result
        (string_bytes text.new ≡ string_bytes text.old ++ search_line depth) }
    ensures memory { OnlyMemory result }
{
    text.push_str("PATH=")?;
    push_search_path(text, depth)?;
    text.push_str("${PATH:+:$PATH}\n")?;
    Ok(())
}

fn push_script_line(text: &mut String, script: &str) -> Result<(), DevErr>
    ensures bytes { OnOk result
        (string_bytes text.new ≡ string_bytes text.old ++ script_line script.now) }
    ensures memory { OnlyMemory result }
{
    text.push_str("sh -c ")?;
    push_quoted(text, script)?;
    text.push_str(" || exit $?\n")?;
    Ok(())
}

fn push_words(text: &mut String, words: &[Text]) -> Result<(), DevErr>
    ensures bytes { OnOk result
        (string_bytes text.new ≡ string_bytes text.old ++ words_behind words.now) }
    ensures memory { OnlyMemory result }
{
    for word in words {
        text.push_str(" ")?;
        push_quoted(text, word.as_str())?;
    }
    Ok(())
}

// The task's own script, with the words.
fn push_own_line(
    alloc: Global,
    text: &mut String,
    script: &Text,
    words: &[Text],
) -> Result<(), DevErr>
    ensures bytes { OnOk result
        (string_bytes text.new
        ≡ string_bytes text.old ++ script_line (script.now ++ words_behind words.now)) }
    ensures memory { OnlyMemory result }
{
    let mut own = String::from_str(alloc, script.as_str())?;
    push_words(&mut own, words)?;
    push_script_line(text, own.as_str())?;
    Ok(())
}

// Scripts beside the task's own, of which an empty text stands for none.
fn push_other_lines(text: &mut String, scripts: &[Text]) -> Result<(), DevErr>
    ensures bytes { OnOk result
        (string_bytes text.new ≡ string_bytes text.old ++ other_lines scripts.now) }
    ensures memory { OnlyMemory result }
{
    for script in scripts {
        if !script.as_str().is_empty() {
            push_script_line(text, script.as_str())?;
        }
    }
    Ok(())
}

fn push_script_lines(
    alloc: Global,
    text: &mut String,
    scripts: &[Text],
    words: &[Text],
) -> Result<(), DevErr>
    ensures bytes { OnOk result
        (string_bytes text.new ≡ string_bytes text.old ++ script_lines words.now scripts.now) }
    ensures memory { OnlyMemory result }
{
    if scripts.len() < 3 {
        let Some((own, others)) = scripts.split_first() else {
            return Ok(());
        };
        push_own_line(alloc, text, own, words)?;
        push_other_lines(text, others)?;
        return Ok(());
    }
    push_other_lines(text, &scripts[..1])?;
    push_own_line(alloc, text, &scripts[1], words)?;
    push_other_lines(text, &scripts[2..])?;
    Ok(())
}

/// The text for `sh -c` that runs the scripts of a command: with no standard input, and with both outputs in
/// one; in the command's folder; with the programs of installed packages, nearest first, before those of
/// `PATH`; each script in a shell of its own, up to the first that fails, whose status it ends with. It never
/// answers `Failed`.
pub fn shell_text(alloc: Global, command: &Command) -> Result<Text, DevErr>
    ensures text { IfOk result (λ text. text ≡ shell_text_of command.now) }
    ensures memory { OnlyMemory result }
{
    let mut text = String::from_str(alloc, "exec </dev/null 2>&1\n")?;
    push_folder_line(alloc, &mut text, &command.dir)?;
    push_search_line(&mut text, command.dir.components().len())?;
    text.push_str("export PATH\n")?;
    push_script_lines(
        alloc,
        &mut text,
        command.scripts.as_slice(),
        command.args.as_slice(),
    )?;
    Ok(Text::from_string(text))
}
