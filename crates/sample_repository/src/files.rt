// The files of the repository.
ghost use Rattle.std.specs.Prelude.{◌≡◌, ◌<◌, ◌^◌, ◌++◌, ◌∷◌, [], IfOk, OnOk};
ghost use Rattle.std.specs.Prelude.{IsOkUnless, IsTrue, string_bytes};
ghost use Rattle.rel_path.specs.Paths.{is_component};
ghost use Rattle.sample_repository.specs.Repository.{
  IsSize,
  dependencies,
  manifest,
  letter,
  next_state,
  source,
  root_files,
  manifest_file,
  source_file,
  package_files,
  sample_files,
};

use crate::paths::{manifest_path, name, source_path, within};
use page::PageErr;
use rel_path::{Bytes, Files, RelPath};
use std::alloc::Global;

/// How many letters a source has.
const LETTERS: u32 = 256;

const ROOT_MANIFEST: &str = "{\"workspaces\":[\"packages/*\"]}";

const CONFIGURATION: &str =
    "{\"tasks\":{\"build\":{\"dependsOn\":[\"^build\"],\"outputs\":[\"dist/**\"]}}}";

fn dependencies(alloc: Global, number: u32) -> Result<String, PageErr>
    ensures value { IfOk result (λ text. string_bytes text ≡ dependencies number) }
    ensures memory { IsOkUnless result PageErr.OutOfMemory }
{
    if number == 0 {
        return Ok(String::new(alloc));
    }
    let needed = name(alloc, (number - 1) / 2)?;
    let needed = needed.as_str();
    Ok(format!(in alloc; "\"dependencies\":{{\"{needed}\":\"*\"}},")?)
}

fn manifest(alloc: Global, number: u32) -> Result<Bytes, PageErr>
    ensures value { IfOk result (λ bytes. bytes ≡ manifest number) }
    ensures memory { IsOkUnless result PageErr.OutOfMemory }
{
    let dependencies = dependencies(alloc, number)?;
    let dependencies = dependencies.as_str();
    let name = name(alloc, number)?;
    let name = name.as_str();
    let text = format!(in alloc;
        "{{{dependencies}\"name\":\"{name}\",\"scripts\":{{\"build\":\"make\"}},\"version\":\"1.0.0\"}}"
    )?;
    Ok(Bytes::from_vec(text.into_bytes()))
}

/// The state of the generator behind this one.
fn next_state(x: u64) -> u64
    requires { x < 2 ^ 31 }
    ensures value { result ≡ next_state x }
    ensures small { result < 2 ^ 31 }
{
    (x * 1_103_515_245 + 12345) % (1 << 31)
}

/// The letter of a state.
fn letter(x: u64) -> u8
    ensures { result ≡ letter x }
{
    b'a' + (x / 65536 % 26) as u8
}

/// The source of a package among n.
#[tactic(auto, using(crate::proofs::Steps::state_none, crate::proofs::Steps::state_more, crate::proofs::Steps::letters_none, crate::proofs::Steps::letters_more))]
fn source(alloc: Global, n: u32, number: u32) -> Result<Bytes, PageErr>
    requires size { IsSize n }
    requires among { number < n }
    ensures value { IfOk result (λ bytes. bytes ≡ source n number) }
    ensures memory { IsOkUnless result PageErr.OutOfMemory }
{
    let mut bytes = Vec::new(alloc);
    let mut x = u64::from(n * 1000 + number);
    for _ in 0..LETTERS {
        x = next_state(x);
        bytes.push(letter(x))?;
    }
    Ok(Bytes::from_vec(bytes))
}

/// A file of the root folder.
fn root_file(alloc: Global, name: &str, text: &str) -> Result<(RelPath, Bytes), PageErr>
    requires { IsTrue (is_component name.now) }
    ensures value { IfOk result (λ file. file ≡ (name.now ∷ [], text.now)) }
    ensures memory { IsOkUnless result PageErr.OutOfMemory }
{
    let path = within(alloc, &RelPath::root(alloc), name)?;
    Ok((path, Bytes::read(alloc, text.as_bytes())?))
}

fn root_files(alloc: Global) -> Result<Files, PageErr>
    ensures value { IfOk result (λ files. files ≡ root_files) }
    ensures memory { IsOkUnless result PageErr.OutOfMemory }
{
    let mut files = Files::new(alloc);
    files.push(root_file(alloc, "package.json", ROOT_MANIFEST)?)?;
    files.push(root_file(alloc, "turbo.json", CONFIGURATION)?)?;
    Ok(files)
}

fn manifest_file(alloc: Global, number: u32) -> Result<(RelPath, Bytes), PageErr>
    ensures value { IfOk result (λ file. file ≡ manifest_file number) }
    ensures memory { IsOkUnless result PageErr.OutOfMemory }
{
    let path = manifest_path(alloc, number)?;
    Ok((path, manifest(alloc, number)?))
}

/// The source of a package among n, with its path.
fn source_file(alloc: Global, n: u32, number: u32) -> Result<(RelPath, Bytes), PageErr>
    requires size { IsSize n }
    requires among { number < n }
    ensures value { IfOk result (λ file. file ≡ source_file n number) }
    ensures memory { IsOkUnless result PageErr.OutOfMemory }
{
    let path = source_path(alloc, number)?;
    Ok((path, source(alloc, n, number)?))
}

/// Puts the files of a package among n behind the others.
fn push_package(alloc: Global, n: u32, number: u32, files: &mut Files) -> Result<(), PageErr>
    requires size { IsSize n }
    requires among { number < n }
    ensures pushed { OnOk result (files.new ≡ files.old ++ package_files n number) }
    ensures memory { IsOkUnless result PageErr.OutOfMemory }
{
    files.push(manifest_file(alloc, number)?)?;
    files.push(source_file(alloc, n, number)?)?;
    Ok(())
}

/// The files of a repository of n packages.
pub(crate) fn sample_files(alloc: Global, n: u32) -> Result<Files, PageErr>
    requires { IsSize n }
    ensures value { IfOk result (λ files. files ≡ sample_files n) }
    ensures memory { IsOkUnless result PageErr.OutOfMemory }
{
    let mut files = root_files(alloc)?;
    for number in 0..n {
        push_package(alloc, n, number, &mut files)?;
    }
    Ok(files)
}
