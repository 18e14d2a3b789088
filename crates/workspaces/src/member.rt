// A package of a workspace.
ghost use Rattle.std.specs.Prelude.{refl, Some};
ghost use Rattle.std.specs.Cmp.{partial_equiv_from_equiv};
ghost use Rattle.workspaces.specs.Order.{same_place, package_cmp, package_total, packages_tie, same_place_equiv, package_po};

use manifest::Manifest;
use rel_path::{RelPath, Text};
use std::cmp::Ordering;

/// A package of a workspace. Packages are compared by their names, and then by their folders.
#[derive(Debug, Drop)]
pub struct Package {
    pub name: Text,
    pub folder: RelPath,
    pub manifest: Manifest,
}

impl PartialEq for Package {
    ghost eq = { same_place };

    ghost laws = { partial_equiv_from_equiv same_place_equiv };

    fn eq(&self, other: &Self) -> bool {
        self.name == other.name && self.folder == other.folder
    }
}

impl Eq for Package {
    ghost laws = { same_place_equiv };
}

impl PartialOrd for Package {
    ghost partial_cmp = { λ x y. Some (package_cmp x y) };

    ghost laws = { package_po };

    fn partial_cmp(&self, other: &Self) -> Option<Ordering> {
        Some(self.cmp(other))
    }
}

impl Ord for Package {
    ghost cmp = { package_cmp };

    ghost total = { package_total };

    ghost matches_partial_cmp = { λ x y. refl };

    ghost matches_eq = { packages_tie };

    fn cmp(&self, other: &Self) -> Ordering {
        self.name
            .cmp(&other.name)
            .then_with(|| self.folder.cmp(&other.folder))
    }
}
