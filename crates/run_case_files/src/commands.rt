// What commands do, from the texts of a case.
use crate::format::{Commands, Does};
use crate::many::FILL;
use anyhow::{Context, Result};
use rel_path::{Bytes, RelPath, Text};
use spawn_dev::{Book, Piece, Pieces, Rule, Writes};
use std::alloc::Global;

fn filled(alloc: Global, count: &str) -> Result<Piece> {
    let count = count.parse::<usize>().ok().context("no number")?;
    let bytes = vec![in alloc; FILL; count]?;
    Ok(Piece::Lit(Bytes::from_vec(bytes)))
}

// What stands between braces.
fn marked(alloc: Global, mark: &str) -> Result<Piece> {
    if mark == "words" {
        return Ok(Piece::Args);
    }
    if mark == "scripts" {
        return Ok(Piece::Scripts);
    }
    if let Some(path) = mark.strip_prefix("file ") {
        return Ok(Piece::File(RelPath::read(alloc, path)?));
    }
    if let Some(count) = mark.strip_prefix("fill ") {
        return filled(alloc, count);
    }
    let name = mark
        .strip_prefix("env ")
        .context(format_args!("unknown mark {mark}"))?;
    Ok(Piece::Env(Text::read(alloc, name)?))
}

fn literal(alloc: Global, text: &str) -> Result<Piece> {
    Ok(Piece::Lit(Bytes::read(alloc, text.as_bytes())?))
}

// The pieces of a text with marks in braces.
fn pieces_of(alloc: Global, text: &str) -> Result<Pieces> {
    let mut pieces = Pieces::new(alloc);
    let (front, marks) = text.split_once("{").unwrap_or((text, ""));
    pieces.push(literal(alloc, front)?)?;
    if marks.is_empty() {
        return Ok(pieces);
    }
    for part in marks.split('{') {
        let (mark, behind) = part.split_once("}").context("an open mark")?;
        pieces.push(marked(alloc, mark)?)?;
        pieces.push(literal(alloc, behind)?)?;
    }
    Ok(pieces)
}

fn rule_of(alloc: Global, task: &str, does: &Does) -> Result<Rule> {
    let (package, task) = task.split_once("#").context("no task's name")?;
    let mut files = Writes::new(alloc);
    for (path, text) in does.files.iter() {
        let path = RelPath::read(alloc, path.as_str())?;
        files.push((path, pieces_of(alloc, text.as_str())?))?;
    }
    Ok(Rule {
        package: Text::read(alloc, package)?,
        task: Text::read(alloc, task)?,
        status: does.status,
        log: pieces_of(alloc, does.log.as_str())?,
        files,
    })
}

fn add_rules(alloc: Global, commands: &Commands, book: &mut Book) -> Result<()> {
    for (task, does) in commands.iter() {
        book.push(rule_of(alloc, task.as_str(), does)?)?;
    }
    Ok(())
}

/// The book of these commands, of which the earlier ones count.
pub fn book_of(alloc: Global, commands: &[&Commands]) -> Result<Book> {
    let mut book = Book::new(alloc);
    for some in commands {
        add_rules(alloc, some, &mut book)?;
    }
    Ok(book)
}
