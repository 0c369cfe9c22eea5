// An office's record, whether it is sound, and the calls found and elect of the shared coding frame on it; issue, take, fold, send, settled and the
// frames stand above. A call takes the record by value and its log as a lent slice; its answer has the paper's number, 0 when it is done, behind the
// next record where there is one.
#![tactic(auto)]

ghost use Rattle.std.specs.Prelude.{◌≡◌, ◌≤◌};
ghost use Rattle.frame.specs.Soundness.{sound_b};
ghost use Rattle.frame.specs.State.{held_length};

use ballots::Ballot;
use kept::Kept;
use summary::Summary;

pub mod electing;
pub mod founding;

// n offices with their founding weights, the own office, what is kept of the dropped entries, the longest settled length in accepted messages of
// each other office, what the settled log has done (the present weights, the settled codes), the settled length, dropped entries included, and each
// office's ballot. The settled entries that are not dropped are the log's first words.
// C has it so: n beside arrays of eight.
#[repr(C)]
#[derive(Clone, Copy)]
pub struct Record {
    pub n: usize,
    pub own: usize,
    pub weights: [u16; 8],
    pub kept: Kept,
    pub noted: [u64; 8],
    pub summary: Summary,
    pub settled: u64,
    pub ballots: [Ballot; 8],
}

impl Record {
    pub const OFFICES: usize = limits::OFFICES;

    // Entries in a tail.
    pub const TAIL: usize = Ballot::CELLS;

    pub const LINES: u32 = entries::LINES;

    pub const CODES: u32 = entries::CODES;

    // Entries in the undropped log, and words in the lent buffer at least.
    pub const LOG: usize = Ballot::PATH;

    // Whether the record with its log is sound.
    pub fn sound(self, log: &[u32]) -> bool
        ensures { result ≡ sound_b self log.now }
    {
        soundness::sound(
            self.n,
            self.own,
            self.weights,
            self.kept,
            self.noted,
            self.summary,
            self.settled,
            self.ballots,
            log,
        )
    }

    // How many entries the log still holds.
    fn held(self) -> usize
        requires { self.kept.dropped ≤ self.settled }
        ensures { result ≡ held_length self }
    {
        (self.settled - self.kept.dropped) as usize
    }
}
