// Elections until no entry wins.
ghost use Rattle.std.specs.Prelude.{◌≡◌};
ghost use Rattle.frame.specs.Electing.{elect_of, elect_words};
ghost use Rattle.frame.specs.Stepping.{Stepping, step_in, step_words_in};

use crate::Record;
use ballots::Ballot;
use refusals::Refusal;
use tallies::Step;

// C has it as it lies here, so it holds the number and is no `Result`.
#[repr(C)]
#[derive(Clone, Copy)]
pub struct Elected {
    pub record: Record,
    pub number: u32,
    pub count: usize,
}

impl Record {
    // One election step, by the present weights and these counts. The winner is written to the log, the length rises by one; ballots that start with it
    // lose that entry, all other ballots become none; and the next record is handed back, or the record itself where no entry wins. Elect hands it the
    // counts of the settled log, dropped entries included. The ballots change where they stand and are walked to n, not 8: a walk of known length is
    // unrolled, and copies them.
    fn step(self, counts: [u64; 8], log: &mut [u32]) -> Record
        requires { Stepping self log.old }
        ensures { (result ≡ step_in counts self log.old) × (log.new ≡ step_words_in counts self log.old) }
    {
        let held = self.held();
        let n = self.n;
        // Made here and changed where it stands: the compiler sets a `Record { .., ..self }` behind the early return to zero first, at each step, and
        // copies it once more where `self` is read beside it.
        let mut office = self;
        let mut votes = [None; 8];
        for (i, b) in office.ballots[..n].iter().enumerate() {
            votes[i] = votes::vote(*b);
        }
        let election = Step {
            n,
            votes,
            weights: office.summary.present,
            counts,
        };
        let Some(entry) = election.winner() else {
            return office;
        };
        log[held] = entry;
        office.settled += 1;
        office.summary = office.summary.next(entry);
        // Tried with iter_mut: the proof did not close.
        for i in 0..n {
            let b = office.ballots[i];
            if b.len > 0 {
                if votes::vote(b) == Some(entry) {
                    office.ballots[i] = votes::without_first(b);
                } else {
                    office.ballots[i] = Ballot::none();
                }
            }
        }
        office
    }

    // Elect repeats the election step until no entry wins, and answers how many entries it settled.
    pub fn elect(self, log: &mut [u32]) -> Elected
        ensures { (result ≡ elect_of self log.old) × (log.new ≡ elect_words self log.old) }
    {
        if !self.sound(&log[..]) {
            return Elected {
                record: self,
                number: Refusal::Unsound.number(),
                count: 0,
            };
        }
        let start = self.held();
        let mut counts = counting::counts_after(self.kept.counts, &log[..start]);
        let mut now = self;
        let mut count: usize = 0;
        // No walk over places: it ends with the step that settles nothing.
        loop {
            let before = now.settled;
            now = now.step(counts, log);
            if now.settled == before {
                break;
            }
            counting::count(&mut counts, log[start + count]);
            count += 1;
        }
        Elected {
            record: now,
            number: 0,
            count,
        }
    }
}
