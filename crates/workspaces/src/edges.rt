// Which texts of dependencies make an edge to a package.
ghost use Rattle.std.specs.Prelude.{◌≡◌, ◌||◌, IfOk, Some};
ghost use Rattle.std.specs.List.{starts_with};
ghost use Rattle.workspaces.specs.Edges.{is_local, release_in, admits_in, is_edge};
ghost use Rattle.workspaces.specs.Steps.{OnlyMemory};

use crate::SpaceErr;
use npm_range::{Range, RangeErr};
use rel_path::Text;
use semver::{Error, Version};
use std::alloc::{AllocError, Global};

/// Whether the text names a package of the workspace, whatever its version is.
fn is_local(text: &str) -> bool
    ensures { result ≡ is_local text.now }
{
    let bytes = text.as_bytes();
    text == "*"
        || bytes.starts_with(b"workspace:")
        || bytes.starts_with(b"file:")
        || bytes.starts_with(b"link:")
}

/// Whether the range admits the version, where there is one and SemVer reads it.
fn admits(alloc: Global, bounds: &Range, version: &Option<Text>) -> Result<bool, SpaceErr>
    ensures value { IfOk result
        (λ admitted. admitted ≡ admits_in (Some bounds.now) (release_in version.now)) }
    ensures memory { OnlyMemory result }
{
    let Some(version) = version else {
        return Ok(false);
    };
    match Version::parse(alloc, version.as_str()) {
        Ok(version) => Ok(bounds.admits(&version)),
        Err(error) => {
            if error == Error::from(AllocError) {
                return Err(SpaceErr::OutOfMemory);
            }
            Ok(false)
        }
    }
}

/// Whether a dependency of this text is on the workspace's package of this version: `*`, and texts that begin with
/// `workspace:`, `file:` or `link:`, are on any, a range is on a version that it admits. A text that is no range, and a
/// version that is missing or that SemVer does not read, make no edge otherwise.
#[tactic(auto, unfolding(crate::specs::Edges::is_edge))]
pub fn is_edge(alloc: Global, text: &str, version: &Option<Text>) -> Result<bool, SpaceErr>
    ensures value { IfOk result (λ is. is ≡ is_edge text.now version.now) }
    ensures memory { OnlyMemory result }
{
    if is_local(text) {
        return Ok(true);
    }
    match Range::read(alloc, text) {
        Ok(bounds) => admits(alloc, &bounds, version),
        Err(RangeErr::NotARange) => Ok(false),
        Err(RangeErr::OutOfMemory) => Err(SpaceErr::OutOfMemory),
    }
}
