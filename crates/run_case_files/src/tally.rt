// How many cases of a group were run, and how many differ.
use anyhow::Result;
use std::alloc::Global;

/// How many cases that differ are shown.
const SHOWN: usize = 3;

/// The cases of a group so far, and the first of those that differ.
#[derive(Drop)]
pub struct Tally {
    alloc: Global,
    cases: usize,
    differ: usize,
    shown: Vec<String>,
}

impl Tally {
    /// No case so far.
    pub fn new(alloc: Global) -> Tally {
        Tally {
            alloc,
            cases: 0,
            differ: 0,
            shown: Vec::new(alloc),
        }
    }

    /// Counts a case, which is as wanted or differs in these ways.
    pub fn count(&mut self, case: &str, differences: Vec<String>) -> Result<()> {
        self.cases = self.cases.saturating_add(1);
        if differences.is_empty() {
            return Ok(());
        }
        self.differ = self.differ.saturating_add(1);
        if self.differ > SHOWN {
            return Ok(());
        }
        for difference in differences.iter() {
            self.shown
                .push(format!(in self.alloc; "{case}: {difference}")?)?;
        }
        Ok(())
    }

    /// Counts a file that could not be run to its end.
    pub fn fail(&mut self, error: &anyhow::Error) -> Result<()> {
        let mut differences = Vec::new(self.alloc);
        differences.push(format!(in self.alloc; "{error}")?)?;
        self.count("the file", differences)
    }

    /// Prints the group's line, and the cases that are shown.
    pub fn print(&self, rt: &impl Print, group: &str) -> Result<()> {
        let (cases, differ) = (self.cases, self.differ);
        println!(rt; "{group}: {cases} cases, {differ} differ")?;
        for line in self.shown.iter() {
            println!(rt; "  {line}")?;
        }
        Ok(())
    }
}
