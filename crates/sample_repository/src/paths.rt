// The names of packages and the paths of their files.
ghost use Rattle.std.specs.Prelude.{◌≡◌, ◌∷◌, ◌++◌, [], IfOk, IsOkUnless, IsTrue};
ghost use Rattle.rel_path.specs.Paths.{is_component};
ghost use Rattle.sample_repository.specs.Repository.{
  digit,
  name,
  folder,
  manifest_path,
  source_path,
  output_path,
};

use page::PageErr;
use rel_path::{RelPath, Text};
use std::alloc::Global;

/// The last digit of a number.
fn digit(number: u32) -> char
    ensures { result ≡ digit number }
{
    char::from(b'0' + (number % 10) as u8)
}

/// The name of a package: `p` and the last four digits of its number.
pub(crate) fn name(alloc: Global, number: u32) -> Result<Text, PageErr>
    ensures value { IfOk result (λ text. text ≡ name number) }
    ensures memory { IsOkUnless result PageErr.OutOfMemory }
{
    let mut text = String::new(alloc);
    text.push('p')?;
    text.push(digit(number / 1000))?;
    text.push(digit(number / 100))?;
    text.push(digit(number / 10))?;
    text.push(digit(number))?;
    Ok(Text::from_string(text))
}

/// The path of a name in a folder.
pub(crate) fn within(alloc: Global, folder: &RelPath, name: &str) -> Result<RelPath, PageErr>
    requires { IsTrue (is_component name.now) }
    ensures value { IfOk result (λ path. path ≡ folder.now ++ name.now ∷ []) }
    ensures memory { IsOkUnless result PageErr.OutOfMemory }
{
    let name = Text::read(alloc, name)?;
    Ok(folder.child(&name)?)
}

/// The folder of a package.
fn folder(alloc: Global, number: u32) -> Result<RelPath, PageErr>
    ensures value { IfOk result (λ path. path ≡ folder number) }
    ensures memory { IsOkUnless result PageErr.OutOfMemory }
{
    let packages = within(alloc, &RelPath::root(alloc), "packages")?;
    within(alloc, &packages, name(alloc, number)?.as_str())
}

pub(crate) fn manifest_path(alloc: Global, number: u32) -> Result<RelPath, PageErr>
    ensures value { IfOk result (λ path. path ≡ manifest_path number) }
    ensures memory { IsOkUnless result PageErr.OutOfMemory }
{
    within(alloc, &folder(alloc, number)?, "package.json")
}

pub(crate) fn source_path(alloc: Global, number: u32) -> Result<RelPath, PageErr>
    ensures value { IfOk result (λ path. path ≡ source_path number) }
    ensures memory { IsOkUnless result PageErr.OutOfMemory }
{
    let sources = within(alloc, &folder(alloc, number)?, "src")?;
    within(alloc, &sources, "a.txt")
}

/// The path of the file that the package's command writes.
pub(crate) fn output_path(alloc: Global, number: u32) -> Result<RelPath, PageErr>
    ensures value { IfOk result (λ path. path ≡ output_path number) }
    ensures memory { IsOkUnless result PageErr.OutOfMemory }
{
    let outputs = within(alloc, &folder(alloc, number)?, "dist")?;
    within(alloc, &outputs, "out.txt")
}
