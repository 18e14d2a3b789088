// Lockfiles against the answers of npm.
use crate::cases::Outcome;
use anyhow::{Context, Result};
use npm_lock::{ExtErr, Lock, Start};
use rel_path::{Pairs, Text};
use std::alloc::Global;

/// The lockfile that the lines speak of, the starts since the last answer, and the locations that they are to reach.
#[derive(Drop)]
struct Case {
    lock: Lock,
    starts: Vec<Start>,
    members: Vec<String>,
}

fn read(alloc: Global, text: &str) -> Result<Case> {
    let lock = Lock::read(alloc, text.as_bytes())
        .ok()
        .context("a lockfile")?;
    Ok(Case {
        lock,
        starts: Vec::new(alloc),
        members: Vec::new(alloc),
    })
}

// The location that the name finds, or `-`.
fn found<'a>(lock: &'a Lock, from: &str, name: &str) -> &'a str {
    match lock.found(from, name) {
        None => "-",
        Some(number) => lock.location(number).as_str(),
    }
}

// The folder that the link at the location leads to, or `-`.
fn folder<'a>(lock: &'a Lock, location: &str) -> &'a str {
    let name = location.strip_prefix("node_modules/").unwrap_or(location);
    match lock.found("", name) {
        None => "-",
        Some(number) => match lock.link_of(number) {
            None => "-",
            Some(folder) => folder.as_str(),
        },
    }
}

fn text(alloc: Global, text: &str) -> Result<Text> {
    Text::read(alloc, text).ok().context("memory")
}

fn are_members(pairs: &Pairs, members: &[String]) -> bool {
    let pairs = pairs.as_slice();
    pairs.len() == members.len()
        && pairs
            .iter()
            .zip(members)
            .all(|(pair, member)| pair.0.as_str() == member.as_str())
}

impl Case {
    fn add_start(&mut self, alloc: Global, from: &str, name: &str, soft: &str) -> Result<()> {
        self.starts.push(Start {
            from: text(alloc, from)?,
            name: text(alloc, name)?,
            soft: soft == "1",
        })?;
        Ok(())
    }

    // Whether the starts reach the members, and these alone.
    fn reaches(&self, alloc: Global) -> bool {
        match self.lock.externals(alloc, self.starts.as_slice()) {
            Ok(pairs) => are_members(&pairs, self.members.as_slice()),
            Err(_) => false,
        }
    }

    fn misses(&self, alloc: Global, from: &str, name: &str) -> bool {
        match self.lock.externals(alloc, self.starts.as_slice()) {
            Err(
                ExtErr::Missing {
                    from: found_from,
                    name: found_name,
                },
            ) => found_from.as_str() == from && found_name.as_str() == name,
            Err(ExtErr::OutOfMemory) => false,
            Ok(_) => false,
        }
    }

    fn next(&mut self) {
        self.starts.clear();
        self.members.clear();
    }
}

fn compare_line(
    alloc: Global,
    case: &mut Case,
    words: &[&str],
    line: &str,
    outcome: &mut Outcome,
) -> Result<()> {
    let kind = words.first().copied().unwrap_or("");
    let first = words.get(1).copied().unwrap_or("");
    let second = words.get(2).copied().unwrap_or("");
    let third = words.get(3).copied().unwrap_or("");
    match kind {
        "F" => outcome.count_answer(found(&case.lock, first, second) == third, line)?,
        "K" => outcome.count_answer(folder(&case.lock, first) == second, line)?,
        "S" => case.add_start(alloc, first, second, third)?,
        "E" => case.members.push(String::from_str(alloc, first)?)?,
        "C" => {
            outcome.count_answer(case.reaches(alloc), line)?;
            case.next();
        }
        "M" => {
            outcome.count_answer(case.misses(alloc, first, second), line)?;
            case.next();
        }
        _ => outcome.count_answer(false, line)?,
    }
    Ok(())
}

/// Compares what each line says. Its words stand between tabs, and its first word tells its kind: `L` a lockfile, of
/// which the lines up to the next one speak; `F` a location, a name and the location that it finds, or `-`; `K` the
/// location of a link and its folder; `S` a start: location, name, and 1 for a soft one; `E` a location that the
/// starts reach; `C` the end of these; `M` what is missing for the starts: location and name.
pub fn compare(alloc: Global, text: &str) -> Result<Outcome> {
    let mut outcome = Outcome::new(alloc);
    let mut case = read(alloc, "{\"lockfileVersion\":3,\"packages\":{}}")?;
    for line in text.lines() {
        match line.strip_prefix("L\t") {
            Some(lock) => {
                outcome.count_case();
                case = read(alloc, lock)?;
            }
            None => {
                let mut words = Vec::new(alloc);
                for word in line.split('\t') {
                    words.push(word)?;
                }
                compare_line(alloc, &mut case, words.as_slice(), line, &mut outcome)?;
            }
        }
    }
    Ok(outcome)
}
