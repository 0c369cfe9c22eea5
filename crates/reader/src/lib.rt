// "A reader walks the message record by record": a small struct that holds the message and a position, and thin methods that read the record at it
// and answer that with the position after it.
#![tactic(auto)]

ghost use Rattle.std.specs.Prelude.{◌≡◌};
ghost use Rattle.records.specs.Steps.{log_at, entry_at, end_at};
ghost use Rattle.ballot_records.specs.BallotSteps.{ballot_at};

use ballot_records::{BallotStep, ballot_at};
use records::{LogStep, end_at, entry_at, log_at};

// Its functions are of one shape: document 01 names this form, the struct and thin functions.
#[derive(Clone, Copy)]
pub struct Reader<'a> {
    pub src: &'a [u8],
    pub at: usize,
}

impl<'a> Reader<'a> {
    // The reader of a message at a position.
    pub fn new(src: &'a [u8], at: usize) -> Self
        ensures { (result.src ≡ src.entry) × (result.at ≡ at) }
    {
        Reader { src, at }
    }

    // The log record at the reader's position.
    pub fn log_record(self) -> Option<LogStep>
        ensures { result ≡ log_at self.entry.src.now self.entry.at }
    {
        log_at(self.src, self.at)
    }

    // The log record at the reader's position, of a message that was read already: its value, without the tests of it.
    pub fn entry(self) -> Option<LogStep>
        ensures { result ≡ entry_at self.entry.src.now self.entry.at }
    {
        entry_at(self.src, self.at)
    }

    // The ballot of office o at the reader's position; no entries where another record stands there.
    pub fn ballot(self, o: usize) -> Option<BallotStep>
        ensures { result ≡ ballot_at self.entry.src.now self.entry.at o }
    {
        ballot_at(self.src, self.at, o)
    }

    // The end at the reader's position.
    pub fn end(self) -> Option<usize>
        ensures { result ≡ end_at self.entry.src.now self.entry.at }
    {
        end_at(self.src, self.at)
    }
}
