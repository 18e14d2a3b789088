// What a section found.
use anyhow::Result;
use serde_json::Value;
use std::alloc::Global;
use std::fmt::Display;

// How many of the cases that differ are shown.
const SHOWN: usize = 3;

/// How many cases a section compared, how many of them differ, and the first of these.
#[derive(Drop)]
pub struct Outcome {
    cases: u64,
    differ: u64,
    shown: Vec<String>,
}

impl Outcome {
    pub fn new(alloc: Global) -> Outcome {
        Outcome {
            cases: 0,
            differ: 0,
            shown: Vec::new(alloc),
        }
    }

    pub fn differ(&self) -> u64 {
        self.differ
    }

    /// Counts a case whose answer came.
    pub fn count_answer(
        &mut self,
        alloc: Global,
        name: &str,
        wanted: &Value,
        came: &Value,
    ) -> Result<()> {
        self.cases = self.cases.saturating_add(1);
        if came != wanted {
            let words = format!(in alloc; "{name}: wanted {wanted}, came {came}")?;
            self.add_difference(words)?;
        }
        Ok(())
    }

    /// Counts a case that is none, or whose inputs do not read: it differs.
    pub fn count_unread<E: Display>(&mut self, alloc: Global, name: &str, why: &E) -> Result<()> {
        self.cases = self.cases.saturating_add(1);
        let words = format!(in alloc; "{name}: {why}")?;
        self.add_difference(words)
    }

    fn add_difference(&mut self, words: String) -> Result<()> {
        self.differ = self.differ.saturating_add(1);
        if self.shown.len() < SHOWN {
            self.shown.push(words)?;
        }
        Ok(())
    }

    /// Prints the section's line, and the differences that are shown.
    pub fn print(&self, rt: &impl Print, section: &str) -> Result<()> {
        let (cases, differ) = (self.cases, self.differ);
        println!(rt; "{section}: {cases} cases, {differ} differ")?;
        for words in self.shown.iter() {
            println!(rt; "  {words}")?;
        }
        Ok(())
    }
}
