// A run of the scheduler beside the plain one.
ghost use Rattle.std.specs.Prelude.{◌≡◌, ◌<◌, false, slice_index_or};
ghost use Rattle.run_core.specs.Core.{rules, has_command, Keeps};

use crate::plain::Plain;
use rel_path::Places;
use run_core::{Core, Mode, Next, State, is_topological};
use std::alloc::Global;
use std::test::Fail;

/// A graph, which of its tasks have a command that is to run, and the status of each end.
#[derive(Drop)]
pub struct Case {
    pub deps: Vec<Places>,
    pub runs: Vec<bool>,
    pub statuses: Vec<u8>,
    pub width: u32,
    pub mode: Mode,
}

/// Which of the running commands ends at each wait, and of how many; and what the run did.
#[derive(Drop)]
pub struct Choices {
    pub taken: Vec<(usize, usize)>,
    at: usize,
    /// A mark and a place for each move: `=` found, `?` missed, `+` started, `-` ended.
    pub trace: String,
}

impl Choices {
    pub fn new(alloc: Global) -> Choices {
        Choices {
            taken: Vec::new(alloc),
            at: 0,
            trace: String::new(alloc),
        }
    }

    fn choose(&mut self, of: usize) -> Result<usize, Fail> {
        let at = self.at;
        self.at = at.saturating_add(1);
        if let Some((taken, _)) = self.taken.get(at) {
            return Ok(*taken);
        }
        self.taken.push((0, of))?;
        Ok(0)
    }

    fn note(&mut self, mark: &str, t: u32) -> Result<(), Fail> {
        write!(self.trace, "{mark}{t} ")?;
        Ok(())
    }

    /// Goes on to the next order of ends, if there is one.
    pub fn advance(&mut self) -> Result<bool, Fail> {
        self.at = 0;
        self.trace.clear();
        for _ in 0..self.taken.len() {
            if let Some((taken, of)) = self.taken.pop()
                && taken.saturating_add(1) < of
            {
                self.taken.push((taken.saturating_add(1), of))?;
                return Ok(true);
            }
        }
        Ok(false)
    }
}

pub fn has(runs: &[bool], t: u32) -> bool
    ensures { result ≡ slice_index_or runs.now t false }
{
    runs.get(t as usize).copied().unwrap_or(false)
}

/// Whether the scheduler says and knows what the plain one does.
fn agree(core: &Core, plain: &Plain, count: u32) -> bool
    requires { (rules core.now).size ≡ count }
{
    for t in 0..count {
        if core.state(t) != plain.state(t) {
            return false;
        }
    }
    core.next() == plain.next() && core.idle() == (plain.running() == 0)
}

enum Turn {
    Moved,
    Over,
    Differs,
}

/// One turn of both.
fn step(
    core: &mut Core,
    plain: &mut Plain,
    case: &Case,
    count: u32,
    choices: &mut Choices,
) -> Result<Turn, Fail>
    requires size { (rules core.old).size ≡ count }
    requires commands { has_command core.old ≡ (λ t. slice_index_or case.now.runs.items t false) }
    ensures { Keeps core.old core.new }
{
    if !agree(core, plain, count) {
        return Ok(Turn::Differs);
    }
    match core.next() {
        Next::Lookup(t) => {
            if has(&case.runs, t) {
                core.missed(t);
                plain.set(t, State::Missed);
                choices.note("?", t)?;
            } else {
                core.found(t);
                plain.set(t, State::Passed);
                choices.note("=", t)?;
            }
        }
        Next::Start(t) => {
            core.started(t);
            plain.set(t, State::Running);
            choices.note("+", t)?;
        }
        Next::WaitFirst => {
            let number = choices.choose(plain.running())?;
            let Some(t) = plain.running_at(number) else {
                return Ok(Turn::Differs);
            };
            if t >= count {
                return Ok(Turn::Differs);
            }
            let State::Running = core.state(t) else {
                return Ok(Turn::Differs);
            };
            let status = case.statuses.get(t as usize).copied().unwrap_or(0);
            core.ended(t, status);
            plain.end(t, status);
            choices.note("-", t)?;
        }
        Next::Finished => return Ok(Turn::Over),
    }
    Ok(Turn::Moved)
}

/// A whole run, in the order of ends that the choices give. `None` where the two machines differ.
pub fn play(alloc: Global, case: &Case, choices: &mut Choices) -> Result<Option<Vec<State>>, Fail> {
    let count = u32::try_from(case.deps.len())?;
    if !is_topological(&case.deps) || case.runs.len() != case.deps.len() || case.width == 0 {
        return Ok(None);
    }
    let mut core = Core::new(alloc, &case.deps, &case.runs, case.width, case.mode)?;
    let mut plain = Plain {
        deps: &case.deps,
        count,
        width: case.width as usize,
        mode: case.mode,
        states: vec![in alloc; State::Waiting; case.deps.len()]?,
    };
    for _ in 0..100u32 {
        match step(&mut core, &mut plain, case, count, choices)? {
            Turn::Moved => {}
            Turn::Over => return Ok(Some(plain.states)),
            Turn::Differs => return Ok(None),
        }
    }
    Ok(None)
}
