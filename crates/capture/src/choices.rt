// Which files of a package are gone through.
ghost use Rattle.std.specs.Prelude.{◌≡◌};
ghost use Rattle.capture.specs.Owned.{package_enters, own_choice, declared_choice};

use globs::OutSet;
use rel_path::{RelPath, Text};
use tree_walk::{Choose, is_skipped};

// Whether a folder of a package's tree may hold declared files: all but `node_modules`, `.git` and `.turbo` directly in
// the package's folder.
fn enters(outs: &OutSet, folder: &RelPath, name: &Text) -> bool
    ensures { result ≡ package_enters outs.now folder.now name.now }
{
    !(*folder == outs.folder && is_skipped(name))
}

// The files that the task owns.
#[derive(Drop)]
pub struct Own<'a> {
    pub outs: &'a OutSet,
}

impl<'a> Choose for Own<'a> {
    ghost choice = { λ own. own_choice own.outs.now };

    fn enters(&self, folder: &RelPath, name: &Text) -> bool {
        enters(self.outs, folder, name)
    }

    fn wants(&self, path: &RelPath) -> bool {
        self.outs.takes(path)
    }
}

// The files that the task declares.
#[derive(Drop)]
pub struct Declared<'a> {
    pub outs: &'a OutSet,
}

impl<'a> Choose for Declared<'a> {
    ghost choice = { λ all. declared_choice all.outs.now };

    fn enters(&self, folder: &RelPath, name: &Text) -> bool {
        enters(self.outs, folder, name)
    }

    fn wants(&self, path: &RelPath) -> bool {
        self.outs.takes(path) || self.outs.shared(path)
    }
}
