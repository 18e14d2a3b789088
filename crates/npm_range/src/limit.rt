// Bounds on versions, and which versions stand within them.
ghost use Rattle.std.specs.Prelude.{◌≡◌, ◌&&◌};
ghost use Rattle.std.specs.List.{list_all};
ghost use Rattle.npm_range.specs.Limits.{holds, release_of, same_numbers, set_admits, stands, invites};

use semver::Version;
use std::cmp::Ordering;
use std::marker::Model;

/// How a version has to stand to a bound, by SemVer's precedence.
#[derive(Clone, Copy, Debug, PartialEq, Eq)]
pub enum Relation {
    Below,
    UpTo,
    Exactly,
    From,
    Above,
}

impl Relation {
    fn stands(self, order: Ordering) -> bool
        ensures { result ≡ stands self order }
    {
        match self {
            Relation::Below => order == Ordering::Less,
            Relation::UpTo => order != Ordering::Greater,
            Relation::Exactly => order == Ordering::Equal,
            Relation::From => order != Ordering::Less,
            Relation::Above => order == Ordering::Greater,
        }
    }
}

/// A bound: how versions have to stand to a version, and whether that is written in the range with a pre-release.
#[derive(Debug, Drop)]
pub struct Bound {
    relation: Relation,
    version: Version,
    tagged: bool,
}

impl Model for Bound {
    ghost use Rattle.npm_range.specs.Limits as spec;
    ghost use Rattle.npm_range.specs.Limits.{release_of};

    ghost Value = { spec.Bound };

    ghost view = { λ b. record {
      relation = b.relation;
      release = release_of b.version;
      tagged = b.tagged;
    } };
}

impl Bound {
    pub(crate) fn new(relation: Relation, version: Version, tagged: bool) -> Bound
        ensures { result ≡ record {
          relation = relation;
          release = release_of version;
          tagged = tagged;
        } }
    {
        Bound {
            relation,
            version,
            tagged,
        }
    }

    fn holds(&self, version: &Version) -> bool
        ensures { result ≡ holds (release_of version.now) self.now }
    {
        self.relation.stands(version.cmp_precedence(&self.version))
    }

    fn invites(&self, version: &Version) -> bool
        ensures { result ≡ (self.now.tagged
            && same_numbers self.now.release (release_of version.now)) }
    {
        self.tagged
            && self.version.major == version.major
            && self.version.minor == version.minor
            && self.version.patch == version.patch
    }
}

fn invites(set: &[Bound], version: &Version) -> bool
    ensures { result ≡ invites (release_of version.now) set.now }
{
    set.iter().any(|bound| bound.invites(version))
}

fn all_hold(set: &[Bound], version: &Version) -> bool
    ensures { result ≡ list_all (λ bound. holds (release_of version.now) bound) set.now }
{
    set.iter().all(|bound| bound.holds(version))
}

/// Whether all bounds of a set hold of the version, and a pre-release is asked for by its numbers.
#[tactic(auto, unfolding(crate::specs::Limits::set_admits))]
pub(crate) fn is_admitted(set: &[Bound], version: &Version) -> bool
    ensures { result ≡ set_admits (release_of version.now) set.now }
{
    all_hold(set, version) && (version.pre.is_empty() || invites(set, version))
}
