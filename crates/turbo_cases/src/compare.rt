// What is seen of a step against what is wanted.
use crate::called::Seen;
use crate::scene::text_at;
use anyhow::Result;
use run_case_files::{Wanted, pairs_in, text_of};
use std::alloc::Global;

/// At the end of a line: the line may go on in any way. As a last line alone: the page may.
const ANY: &str = "...";

/// Differences, each in a line that says what was wanted and what came.
#[derive(Drop)]
pub struct Differences {
    alloc: Global,
    step: usize,
    pub lines: Vec<String>,
}

impl Differences {
    /// None so far, of the step of that number.
    pub fn new(alloc: Global, step: usize) -> Differences {
        Differences {
            alloc,
            step,
            lines: Vec::new(alloc),
        }
    }

    pub fn add(&mut self, of: &str, wanted: &str, came: &str) -> Result<()> {
        let step = self.step;
        let line = format!(in self.alloc; "step {step}, {of}: wanted {wanted:?}, came {came:?}")?;
        self.lines.push(line)?;
        Ok(())
    }

    pub fn compare(&mut self, of: &str, wanted: &str, came: &str) -> Result<()> {
        if wanted != came {
            self.add(of, wanted, came)?;
        }
        Ok(())
    }

    pub fn compare_number(&mut self, of: &str, wanted: usize, came: usize) -> Result<()> {
        let wanted = format!(in self.alloc; "{wanted}")?;
        let came = format!(in self.alloc; "{came}")?;
        self.compare(of, wanted.as_str(), came.as_str())
    }
}

fn stands_for(wanted: &str, came: &str) -> bool {
    match wanted.strip_suffix(ANY) {
        Some(front) => came.starts_with(front),
        None => wanted == came,
    }
}

// The wanted lines of a page, and whether more lines may follow.
fn fixed_lines(lines: &[String]) -> (&[String], bool) {
    match lines.split_last() {
        Some((last, front)) if last.as_str() == ANY => (front, true),
        _ => (lines, false),
    }
}

// Each line of a page ends in a newline, so behind the last one stands an empty text.
fn compare_page(
    alloc: Global,
    lines: &[String],
    page: &str,
    differences: &mut Differences,
) -> Result<()> {
    let (lines, may_go_on) = fixed_lines(lines);
    let mut came = page.split('\n');
    for (number, wanted) in lines.iter().enumerate() {
        let line = came.next().unwrap_or("no line");
        if !stands_for(wanted.as_str(), line) {
            let of = format!(in alloc; "page, line {number}")?;
            return differences.add(of.as_str(), wanted.as_str(), line);
        }
    }
    let rest = came.next().unwrap_or("no line's end");
    if !may_go_on && (rest != "" || came.next().is_some()) {
        differences.add("page, behind the last line", "", rest)?;
    }
    Ok(())
}

fn starts_text(alloc: Global, starts: &[u32]) -> Result<String> {
    let mut text = String::new(alloc);
    for place in starts {
        if !text.is_empty() {
            text.push(' ')?;
        }
        text.push_str(format!(in alloc; "{place}")?.as_str())?;
    }
    Ok(text)
}

fn compare_files(
    alloc: Global,
    wanted: &Wanted,
    seen: &Seen,
    differences: &mut Differences,
) -> Result<()> {
    for (path, text) in wanted.files.iter() {
        let came = text_at(alloc, &seen.files, path.as_str())?;
        let came = came.as_ref().map_or("no file", |text| text.as_str());
        let wanted = text.as_ref().map_or("no file", |text| text.as_str());
        differences.compare(path.as_str(), wanted, came)?;
    }
    Ok(())
}

// The bytes of the stores, a character each.
fn compare_bytes(
    alloc: Global,
    wanted: &Wanted,
    seen: &Seen,
    differences: &mut Differences,
) -> Result<()> {
    let stores = [
        ("the store", &wanted.store, &seen.store),
        ("the spare store", &wanted.spare, &seen.spare),
        ("the second store", &wanted.second, &seen.second),
        ("the shared file", &wanted.shared, &seen.shared),
    ];
    for (what, wanted, store) in stores.iter() {
        if let Some(bytes) = wanted {
            let came = text_of(alloc, store.as_slice())?;
            differences.compare(what, bytes.as_str(), came.as_str())?;
        }
    }
    Ok(())
}

fn compare_store(wanted: &Wanted, seen: &Seen, differences: &mut Differences) -> Result<()> {
    if let Some(stored) = wanted.stored {
        differences.compare_number("bytes of the store", stored, seen.store.as_slice().len())?;
    }
    let results = [
        ("results in the store", wanted.pairs, &seen.store),
        (
            "results in the spare store",
            wanted.spare_pairs,
            &seen.spare,
        ),
        (
            "results in the second store",
            wanted.second_pairs,
            &seen.second,
        ),
        (
            "results in the shared file",
            wanted.shared_pairs,
            &seen.shared,
        ),
    ];
    for (what, wanted, store) in results.iter() {
        if let Some(pairs) = wanted {
            differences.compare_number(what, *pairs, pairs_in(store.as_slice()))?;
        }
    }
    Ok(())
}

fn compare_refusal(
    alloc: Global,
    refusal: &str,
    seen: &Seen,
    differences: &mut Differences,
) -> Result<()> {
    let line = format!(in alloc; "turbo: {refusal}\n")?;
    differences.compare("answer", "refused", seen.answer)?;
    differences.compare_number("status", 1, usize::from(seen.status))?;
    differences.compare("starts", "", seen.starts.as_str())?;
    differences.compare("page", line.as_str(), seen.page.as_str())
}

fn compare_answer(wanted: &Wanted, seen: &Seen, differences: &mut Differences) -> Result<()> {
    let answer = wanted.answer.as_ref().map_or("done", |text| text.as_str());
    let fault = if answer == "done" { 0 } else { 1 };
    let status = wanted.status.unwrap_or(fault);
    differences.compare("answer", answer, seen.answer)?;
    differences.compare_number("status", usize::from(status), usize::from(seen.status))
}

/// Compares all that is wanted of the call alone.
pub fn compare(
    alloc: Global,
    wanted: &Wanted,
    seen: &Seen,
    differences: &mut Differences,
) -> Result<()> {
    if !seen.is_idle {
        differences.add("commands", "none runs", "one still runs")?;
    }
    match &wanted.refusal {
        Some(refusal) => compare_refusal(alloc, refusal.as_str(), seen, differences)?,
        None => compare_answer(wanted, seen, differences)?,
    }
    if let Some(starts) = &wanted.starts {
        let starts = starts_text(alloc, starts.as_slice())?;
        differences.compare("starts", starts.as_str(), seen.starts.as_str())?;
    }
    if let Some(lines) = &wanted.page {
        compare_page(alloc, lines.as_slice(), seen.page.as_str(), differences)?;
    }
    compare_files(alloc, wanted, seen, differences)?;
    compare_store(wanted, seen, differences)?;
    compare_bytes(alloc, wanted, seen, differences)
}
