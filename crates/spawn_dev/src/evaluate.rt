// What a command of a world in memory does, by the book and what it sees.
ghost use Rattle.std.specs.Prelude.{◌≡◌, ◌&&◌, ◌++◌, [], IfOk, OnOk, min, unwrap_or};
ghost use Rattle.std.specs.List.{list_any};
ghost use Rattle.rel_path.specs.Files.{file_at};
ghost use Rattle.rel_path.specs.Paths.{name_eq};
ghost use Rattle.globs.specs.Outputs.{takes};
ghost use Rattle.tree_dev.specs.Cause.{OnlyMemory};
ghost use Rattle.spawn_dev.specs.Books.{value_of, joined, piece_bytes, pieces_bytes, with_writes, effect_of};
ghost use Rattle.spawn_dev.specs.Effects.{may_read, seen_by};

use crate::{Command, Effect, Piece, Pieces, Rule};
use globs::OutSet;
use rel_path::{Bytes, Files, RelPath, Text};
use std::alloc::Global;
use std::collections::BTreeMap;
use tree_dev::{DevErr, bytes_at};

fn any_takes(sets: &[OutSet], path: &RelPath) -> bool
    ensures { result ≡ list_any (λ outs. takes outs path.now) sets.now }
{
    sets.iter().any(|outs| outs.takes(path))
}

fn may_read(command: &Command, path: &RelPath) -> bool
    ensures { result ≡ may_read command.now path.now }
{
    any_takes(command.above.as_slice(), path) || command.reads.as_slice().contains(path)
}

fn push_file(
    to: &mut Vec<u8>,
    files: &[(RelPath, Bytes)],
    command: &Command,
    path: &RelPath,
) -> Result<(), DevErr>
    ensures bytes { OnOk result
        (to.new.items ≡ to.old.items
        ++ unwrap_or ((seen_by command.now (file_at files.now)).files path.now) []) }
    ensures memory { OnlyMemory result }
{
    if !may_read(command, path) {
        return Ok(());
    }
    match bytes_at(files, path) {
        Some(bytes) => to.extend_from_slice(bytes.as_slice())?,
        None => {}
    }
    Ok(())
}

fn push_value(to: &mut Vec<u8>, pairs: &[(Text, Text)], name: &Text) -> Result<(), DevErr>
    ensures bytes { OnOk result (to.new.items ≡ to.old.items ++ value_of pairs.now name.now) }
    ensures memory { OnlyMemory result }
{
    for pair in pairs {
        if pair.0 == *name {
            to.extend_from_slice(pair.1.as_str().as_bytes())?;
            return Ok(());
        }
    }
    Ok(())
}

fn push_joined(to: &mut Vec<u8>, texts: &[Text]) -> Result<(), DevErr>
    ensures bytes { OnOk result (to.new.items ≡ to.old.items ++ joined texts.now) }
    ensures memory { OnlyMemory result }
{
    let mut rest = texts;
    while let Some((first, more)) = rest.split_first() {
        to.extend_from_slice(first.as_str().as_bytes())?;
        if !more.is_empty() {
            to.push(b'\n')?;
        }
        rest = more;
    }
    Ok(())
}

fn push_piece(
    to: &mut Vec<u8>,
    files: &[(RelPath, Bytes)],
    command: &Command,
    piece: &Piece,
) -> Result<(), DevErr>
    ensures bytes { OnOk result
        (to.new.items ≡ to.old.items
        ++ piece_bytes (seen_by command.now (file_at files.now)) piece.now) }
    ensures memory { OnlyMemory result }
{
    match piece {
        Piece::Lit(bytes) => to.extend_from_slice(bytes.as_slice())?,
        Piece::File(path) => push_file(to, files, command, path)?,
        Piece::Env(name) => push_value(to, command.env.as_slice(), name)?,
        Piece::Args => push_joined(to, command.args.as_slice())?,
        Piece::Scripts => push_joined(to, command.scripts.as_slice())?,
    }
    Ok(())
}

fn bytes_of(
    alloc: Global,
    files: &[(RelPath, Bytes)],
    command: &Command,
    pieces: &[Piece],
) -> Result<Bytes, DevErr>
    ensures bytes { IfOk result
        (λ bytes. bytes ≡ pieces_bytes (seen_by command.now (file_at files.now)) pieces.now) }
    ensures memory { OnlyMemory result }
{
    let mut bytes = Vec::new(alloc);
    for piece in pieces {
        push_piece(&mut bytes, files, command, piece)?;
    }
    Ok(Bytes::from_vec(bytes))
}

// The files that the command writes and owns, ascending.
fn files_of(
    alloc: Global,
    files: &[(RelPath, Bytes)],
    command: &Command,
    writes: &[(RelPath, Pieces)],
) -> Result<Files, DevErr>
    ensures files { IfOk result
        (λ written. written ≡ with_writes (seen_by command.now (file_at files.now)) [] writes.now) }
    ensures memory { OnlyMemory result }
{
    let mut written = BTreeMap::new(alloc);
    for write in writes {
        if command.outs.takes(&write.0) {
            let bytes = bytes_of(alloc, files, command, write.1.as_slice())?;
            written.insert(write.0.copy()?, bytes)?;
        }
    }
    let items: Vec<(RelPath, Bytes)> = written.into_iter().collect(alloc)?;
    Ok(Files::from_vec(items))
}

fn is_for(rule: &Rule, command: &Command) -> bool
    ensures { result ≡ (name_eq rule.now.package command.now.package
        && name_eq rule.now.task command.now.task) }
{
    rule.package == command.package && rule.task == command.task
}

fn status_of(rule: &Rule) -> u8
    ensures { result ≡ min rule.now.status 255 }
{
    rule.status
}

// What the command does that starts over these files.
pub fn effect_of(
    alloc: Global,
    rules: &[Rule],
    files: &[(RelPath, Bytes)],
    command: &Command,
) -> Result<Effect, DevErr>
    ensures effect { IfOk result
        (λ effect. effect ≡ effect_of rules.now (seen_by command.now (file_at files.now))) }
    ensures memory { OnlyMemory result }
{
    for rule in rules {
        if is_for(rule, command) {
            let log = bytes_of(alloc, files, command, rule.log.as_slice())?;
            let files = files_of(alloc, files, command, rule.files.as_slice())?;
            let status = status_of(rule);
            return Ok(Effect { log, status, files });
        }
    }
    Ok(Effect {
        log: Bytes::from_vec(Vec::new(alloc)),
        status: 0,
        files: Files::new(alloc),
    })
}
