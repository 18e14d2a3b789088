// Lists of patterns.
ghost use Rattle.std.specs.Prelude.{◌≡◌, ◌↔◌, true, false, IsTrue, IfOk, OnOk};
ghost use Rattle.env_select.specs.Lists.{Selects, selects};
ghost use Rattle.env_select.specs.Index.{Indexes, AddsText};

use crate::error::EnvErr;
use crate::patterns::Patterns;
use rel_path::{Text, Texts};
use std::alloc::Global;
use std::marker::Model;

/// A list of patterns of names, which contracts see as the texts that were read. It selects a name that a pattern
/// without a leading `!` matches and none with one does, in whatever order they stand. `*` takes any run of bytes, none
/// among them; `\*` and `\!` are the characters; each other byte takes itself.
#[derive(Debug, Drop)]
pub struct EnvList {
    texts: Texts,
    included: Patterns,
    excluded: Patterns,
}

impl Model for EnvList {
    ghost use Rattle.std.specs.Prelude.{List, ℕ, true, false};

    ghost Value = { List (List ℕ) };

    ghost use Rattle.env_select.specs.Index.{Indexes};

    ghost view = { λ l. l.texts };

    ghost invariant = { λ l. Indexes false l.texts l.included × Indexes true l.texts l.excluded };
}

/// Adds the pattern that the text writes to those that it belongs to.
fn add_text(
    alloc: Global,
    included: &mut Patterns,
    excluded: &mut Patterns,
    text: &Text,
) -> Result<(), EnvErr>
    ensures included { OnOk result (AddsText false text.now included.old included.new) }
    ensures excluded { OnOk result (AddsText true text.now excluded.old excluded.new) }
{
    match text.as_str().strip_prefix('!') {
        Some(behind) => excluded.add(alloc, behind)?,
        None => included.add(alloc, text.as_str())?,
    }
    Ok(())
}

impl EnvList {
    /// The patterns that the texts write.
    pub fn read(alloc: Global, texts: &Texts) -> Result<EnvList, EnvErr>
        ensures { IfOk result (λ list. list ≡ texts.now) }
    {
        let mut included = Patterns::new(alloc);
        let mut excluded = Patterns::new(alloc);
        for text in texts.as_slice() {
            add_text(alloc, &mut included, &mut excluded, text)?;
        }
        let texts = texts.copy()?;
        Ok(EnvList {
            texts,
            included,
            excluded,
        })
    }

    fn included(&self) -> &Patterns
        ensures { Indexes false self.now result.now }
    {
        &self.included
    }

    fn excluded(&self) -> &Patterns
        ensures { Indexes true self.now result.now }
    {
        &self.excluded
    }

    /// Whether a pattern without `!` matches the name and none with `!` does.
    pub fn selects(&self, name: &Text) -> bool
        ensures value { result ≡ selects self.now name.now }
        ensures meaning { IsTrue result ↔ Selects self.now name.now }
    {
        self.included().take(name) && !self.excluded().take(name)
    }
}
