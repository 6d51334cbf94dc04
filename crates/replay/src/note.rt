// The checks of a run that has no file: each is counted as a case is.
use answer::Answer;
use std::alloc::{AllocError, Global};
use textfile::{Tally, Verdict};

// How many checks ran, how many of them hold, and the places of the others.
#[derive(Drop)]
pub(crate) struct Checks {
    tally: Tally,
    faults: Vec<u64>,
    // whether there was memory for each place
    kept: Result<(), AllocError>,
}

impl Checks {
    pub(crate) fn new(alloc: Global) -> Checks {
        Checks {
            tally: Tally::default(),
            faults: Vec::new(alloc),
            kept: Ok(()),
        }
    }

    // One check more. A run goes on where memory runs out: print says so.
    pub(crate) fn holds(&mut self, is_right: bool) {
        self.tally += Tally::from(Verdict::from(is_right));
        if !is_right {
            if let Err(failed) = self.faults.push(self.tally.ran) {
                self.kept = Err(AllocError::from(failed));
            }
        }
    }

    // One check more: a call is accepted with n bytes, and gives no number and no padding.
    pub(crate) fn gives(&mut self, answer: Answer, n: usize) {
        self.holds(answer.is_ok_and(|accepted| {
            usize::from(accepted.length) == n
                && accepted.transaction_number == 0
                && accepted.padding == 0
        }));
    }

    // Prints the place of each check that does not hold, as a line's is, and the run's row, with a title in the place of a file's first line.
    pub(crate) fn print(self, rt: &impl Print, run: &str, title: &str) -> Tally {
        for place in self.faults.as_slice() {
            textfile::counted(rt, Ok(Verdict::Differs), run.as_bytes(), *place);
        }
        if self.kept.is_err() {
            let _ = println!(rt; "{run}: finds no memory for each place");
        }
        textfile::print_row(rt, self.tally, title.as_bytes());
        self.tally
    }
}
