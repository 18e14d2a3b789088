// A plain scheduler, which looks at all tasks for each answer.
use rel_path::Places;
use run_core::{Mode, Next, State};

#[derive(Drop)]
pub struct Plain<'a> {
    pub deps: &'a [Places],
    pub count: u32,
    pub width: usize,
    pub mode: Mode,
    pub states: Vec<State>,
}

impl Plain<'_> {
    pub fn state(&self, t: u32) -> State {
        self.states
            .get(t as usize)
            .copied()
            .unwrap_or(State::Waiting)
    }

    pub fn set(&mut self, t: u32, state: State) {
        if let Some(place) = self.states.get_mut(t as usize) {
            *place = state;
        }
    }

    fn deps_of(&self, t: u32) -> &[u32] {
        match self.deps.get(t as usize) {
            Some(list) => list.as_slice(),
            None => &[],
        }
    }

    fn is_well(&self, t: u32) -> bool {
        match self.state(t) {
            State::Passed => true,
            State::Ended(status) => self.mode == Mode::Always || status == 0,
            _ => false,
        }
    }

    fn has_failed(&self) -> bool {
        for t in 0..self.count {
            if let State::Ended(status) = self.state(t)
                && status != 0
            {
                return true;
            }
        }
        false
    }

    fn is_ready(&self, t: u32) -> bool {
        for d in self.deps_of(t) {
            if !self.is_well(*d) {
                return false;
            }
        }
        self.state(t) == State::Waiting
    }

    /// How many commands run.
    pub fn running(&self) -> usize {
        let mut count: usize = 0;
        for state in &self.states {
            if *state == State::Running {
                count = count.saturating_add(1);
            }
        }
        count
    }

    /// The command that is one of those that run, by its number among them.
    pub fn running_at(&self, number: usize) -> Option<u32> {
        let mut left = number;
        for t in 0..self.count {
            if self.state(t) == State::Running {
                if left == 0 {
                    return Some(t);
                }
                left -= 1;
            }
        }
        None
    }

    fn first(&self, state: State) -> Option<u32> {
        for t in 0..self.count {
            if self.state(t) == state {
                return Some(t);
            }
        }
        None
    }

    fn first_ready(&self) -> Option<u32> {
        for t in 0..self.count {
            if self.is_ready(t) {
                return Some(t);
            }
        }
        None
    }

    fn wait_or_finish(&self) -> Next {
        if self.running() > 0 {
            Next::WaitFirst
        } else {
            Next::Finished
        }
    }

    pub fn next(&self) -> Next {
        if self.mode == Mode::Never && self.has_failed() {
            return self.wait_or_finish();
        }
        if let Some(t) = self.first_ready() {
            return Next::Lookup(t);
        }
        match self.first(State::Missed) {
            Some(t) if self.running() < self.width => Next::Start(t),
            _ => self.wait_or_finish(),
        }
    }

    // Whether a task depends on another one, or on one that is left.
    fn stands_on(&self, u: u32, t: u32) -> bool {
        for d in self.deps_of(u) {
            if *d == t || self.state(*d) == State::Left {
                return true;
            }
        }
        false
    }

    pub fn end(&mut self, t: u32, status: u8) {
        self.set(t, State::Ended(status));
        if status == 0 || self.mode == Mode::Always {
            return;
        }
        for u in 0..self.count {
            if self.stands_on(u, t) {
                self.set(u, State::Left);
            }
        }
    }
}
