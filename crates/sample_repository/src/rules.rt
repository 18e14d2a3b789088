// What the commands of the repository do.
ghost use Rattle.std.specs.Prelude.{◌≡◌, ◌∷◌, ◌++◌, [], IfOk, IsOkUnless, codes};
ghost use Rattle.sample_repository.specs.Repository.{
  name,
  output_path,
  written_by,
  rule,
  sample_rules,
};
ghost use Rattle.spawn_dev.specs.declared.book.Piece.TheVariants.{Lit};

use crate::paths::{name, output_path, source_path};
use page::PageErr;
use rel_path::{Bytes, Text};
use spawn_dev::{Book, Piece, Pieces, Rule, Writes};
use std::alloc::Global;

/// What the command of a package writes into its output.
fn written_by(alloc: Global, number: u32) -> Result<Pieces, PageErr>
    ensures value { IfOk result (λ pieces. pieces ≡ written_by number) }
    ensures memory { IsOkUnless result PageErr.OutOfMemory }
{
    let mut pieces = Vec::new(alloc);
    pieces.push(Piece::File(source_path(alloc, number)?))?;
    if number > 0 {
        pieces.push(Piece::File(output_path(alloc, (number - 1) / 2)?))?;
    }
    Ok(Pieces::from_vec(pieces))
}

fn log_of(alloc: Global, name: &Text) -> Result<Pieces, PageErr>
    ensures value { IfOk result (λ pieces.
        pieces ≡ Lit (codes "built " ++ (name.now ++ codes "\n")) ∷ []) }
    ensures memory { IsOkUnless result PageErr.OutOfMemory }
{
    let name = name.as_str();
    let text = format!(in alloc; "built {name}\n")?;
    let mut pieces = Vec::new(alloc);
    pieces.push(Piece::Lit(Bytes::from_vec(text.into_bytes())))?;
    Ok(Pieces::from_vec(pieces))
}

fn writes_of(alloc: Global, number: u32) -> Result<Writes, PageErr>
    ensures value { IfOk result (λ files.
        files ≡ (output_path number, written_by number) ∷ []) }
    ensures memory { IsOkUnless result PageErr.OutOfMemory }
{
    let path = output_path(alloc, number)?;
    let mut files = Vec::new(alloc);
    files.push((path, written_by(alloc, number)?))?;
    Ok(Writes::from_vec(files))
}

fn rule(alloc: Global, number: u32) -> Result<Rule, PageErr>
    ensures value { IfOk result (λ made. made ≡ rule number) }
    ensures memory { IsOkUnless result PageErr.OutOfMemory }
{
    let package = name(alloc, number)?;
    let log = log_of(alloc, &package)?;
    Ok(Rule {
        package,
        task: Text::read(alloc, "build")?,
        status: 0,
        log,
        files: writes_of(alloc, number)?,
    })
}

/// The rules of n packages.
pub(crate) fn sample_rules(alloc: Global, n: u32) -> Result<Book, PageErr>
    ensures value { IfOk result (λ book. book ≡ sample_rules n) }
    ensures memory { IsOkUnless result PageErr.OutOfMemory }
{
    let mut rules = Vec::new(alloc);
    for number in 0..n {
        rules.push(rule(alloc, number)?)?;
    }
    Ok(Book::from_vec(rules))
}
