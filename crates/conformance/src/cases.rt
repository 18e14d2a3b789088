// What a section found.
use anyhow::Result;

// How many differences are shown.
const SHOWN: usize = 3;

/// How many cases and answers a section compared, how many differ, and the first of these.
#[derive(Drop)]
pub struct Outcome {
    cases: u64,
    answers: u64,
    differ: u64,
    shown: Vec<String>,
}

impl Outcome {
    pub fn new(alloc: std::alloc::Global) -> Outcome {
        Outcome {
            cases: 0,
            answers: 0,
            differ: 0,
            shown: Vec::new(alloc),
        }
    }

    pub fn count_case(&mut self) {
        self.cases = self.cases.saturating_add(1);
    }

    /// Counts an answer, which is right or is told in these words.
    pub fn count_answer(&mut self, is_right: bool, words: &str) -> Result<()> {
        self.answers = self.answers.saturating_add(1);
        if !is_right {
            self.differ = self.differ.saturating_add(1);
            if self.shown.len() < SHOWN {
                let alloc = *self.shown.allocator();
                self.shown.push(String::from_str(alloc, words)?)?;
            }
        }
        Ok(())
    }

    /// Prints the section's line, and the differences that are shown.
    pub fn print(&self, rt: &impl Print, section: &str, cases_are: &str) -> Result<()> {
        let (cases, answers, differ) = (self.cases, self.answers, self.differ);
        println!(rt; "{section}: {cases} {cases_are}, {answers} answers, {differ} differ")?;
        for words in self.shown.iter() {
            println!(rt; "  {words}")?;
        }
        Ok(())
    }
}
