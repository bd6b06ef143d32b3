// Which call comes next: the rows of the short stories, then the steps of the random runs, then a story about registers that change.
use super::rows::Step;
use super::runs;
use super::runs::Run;
use super::tally::Tally;

// At which row the plan is, at which step of it, the state of the random numbers, and what was counted.
#[derive(Clone, Copy)]
pub struct State {
    pub row: u64,
    pub step: u64,
    pub x: u32,
    pub tally: Tally,
}

impl State {
    pub fn start() -> State {
        State::at(0)
    }

    // The calls of a story are printed.
    fn at(row: u64) -> State {
        let run = runs::run_of(row);
        State {
            row,
            step: 0,
            x: run.map_or(0, |run| run.seed),
            tally: Tally::new(run.map_or(true, |run| run.show)),
        }
    }

    // The plan behind a stop, or behind a row that is done.
    pub fn resumed(self) -> State {
        State::at(self.row.wrapping_add(1))
    }

    pub fn next(self) -> Step {
        match runs::run_of(self.row) {
            None => super::rows::row(self.row),
            Some(_) if self.step == 0 => Step::Fresh,
            Some(run) => runs::drawn(run, self.x).0,
        }
    }

    // The plan after a call, of which this was counted.
    pub fn after(self, t: Tally) -> State {
        match runs::run_of(self.row) {
            None => self.after_row(super::rows::row(self.row), t),
            Some(run) if self.step == run.steps => {
                runs::print_run(run, t);
                self.resumed()
            }
            Some(run) => self.after_step(run, t),
        }
    }

    // Servings until no read waits are one row.
    fn after_row(self, step: Step, t: Tally) -> State {
        match step {
            Step::Stop => self,
            Step::Empty if t.none == 0 => self,
            _ => self.resumed(),
        }
    }

    fn after_step(self, run: Run, t: Tally) -> State {
        let State { row, step, x, .. } = self;
        State {
            row,
            step: step.wrapping_add(1),
            x: if step == 0 { x } else { runs::drawn(run, x).1 },
            tally: t,
        }
    }
}
