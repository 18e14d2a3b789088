// Several patterns, of which one has to match.
ghost use Rattle.std.specs.Prelude.{◌≡◌, ℕ, List, ◌||◌, false, OnOk};
ghost use Rattle.std.specs.List.{list_any};
ghost use Rattle.env_select.specs.Patterns.{is_wild, spells_name, signs_of};
ghost use Rattle.env_select.specs.Index.{index_takes};

use crate::error::EnvErr;
use crate::pattern::Pattern;
use rel_path::Text;
use std::alloc::Global;
use std::collections::BTreeSet;

/// Patterns of one kind: plain names sorted, so that thousands of them cost little, and the others one after another.
#[derive(Debug, Drop)]
pub(crate) struct Patterns {
    names: BTreeSet<Text>,
    wild: Vec<Pattern>,
}

/// Whether the text has a `*`, or a `\` that may quote.
fn is_wild(text: &str) -> bool
    ensures { result ≡ list_any is_wild text.now }
{
    text.as_bytes().iter().any(|b| *b == b'*' || *b == b'\\')
}

fn any_matches(patterns: &[Pattern], name: &[u8]) -> bool
    ensures { result ≡ list_any (λ signs. spells_name signs name.now) patterns.now }
{
    patterns.iter().any(|pattern| pattern.matches(name))
}

impl Patterns {
    pub fn new(alloc: Global) -> Patterns
        ensures { (name : List ℕ) → index_takes result name ≡ false }
    {
        Patterns {
            names: BTreeSet::new(alloc),
            wild: Vec::new(alloc),
        }
    }

    /// Adds the pattern that the text writes.
    pub fn add(&mut self, alloc: Global, text: &str) -> Result<(), EnvErr>
        ensures { OnOk result ((name : List ℕ)
            → index_takes self.new name
            ≡ (index_takes self.old name || spells_name (signs_of text.now) name)) }
    {
        if is_wild(text) {
            let pattern = Pattern::read(alloc, text.as_bytes())?;
            self.wild.push(pattern)?;
        } else {
            let name = Text::read(alloc, text)?;
            self.names.insert(name)?;
        }
        Ok(())
    }

    /// Whether one of the patterns matches the name.
    pub fn take(&self, name: &Text) -> bool
        ensures { result ≡ index_takes self.now name.now }
    {
        self.names.contains(name) || any_matches(&self.wild, name.as_str().as_bytes())
    }
}
