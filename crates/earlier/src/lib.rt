// The frame as it stood after the first p settled entries, for up to 64 lines together.
#![tactic(auto)]

ghost use Rattle.std.specs.Prelude.{◌≡◌};
ghost use Rattle.refusals.specs.Refusals.{number_of};
ghost use Rattle.runs.specs.Runs.{of_frame};
ghost use Rattle.earlier.specs.Earlier.{earlier_refused, earlier_of};

use frame::Record;
use refusals::Refusal;

// The edits of the lines named, in their order, as they are stored: 0 for no edit yet, else the code + 1; past the lines 0. `words` of the log were
// read for them. `number` is the paper's, 0 when it is done.
// C has it as it lies here, so it holds the number and is no `Result`.
#[repr(C)]
#[derive(Clone, Copy)]
pub struct Earlier {
    pub number: u32,
    pub words: usize,
    pub edits: [u32; 64],
}

// No edit yet throughout, and nothing read.
fn refused(refusal: Refusal) -> Earlier
    ensures { result ≡ earlier_refused (number_of refusal) }
{
    Earlier {
        number: refusal.number(),
        words: 0,
        edits: [0; 64],
    }
}

// Whether every line named is one of the frame. The walk has no early end, so no `all`: it runs on vectors.
fn of_frame(lines: &[u32]) -> bool
    ensures { result ≡ of_frame lines.now }
{
    let mut good = true;
    for line in lines {
        good = good & (*line < Record::LINES);
    }
    good
}

// The last edit of each line named in the first p settled entries. The log is walked back from p until each has its edit, and no further than to its
// dropped part: then it is the kept one.
pub fn frame_at(office: Record, log: &[u32], p: u64, lines: &[u32]) -> Earlier
    ensures { result ≡ earlier_of office log.now p lines.now }
{
    if !office.sound(log) {
        return refused(Refusal::Unsound);
    }
    if !of_frame(lines) {
        return refused(Refusal::NoEntry);
    }
    let dropped = office.kept.dropped;
    if p < dropped || p > office.settled || lines.len() > Record::LINES as usize {
        return refused(Refusal::NoPlace);
    }
    let end = (p - dropped) as usize;
    let codes = office.kept.summary.codes;
    let walked = backward::walk(&log[..end], lines, codes);
    let edits = walked.edits;
    Earlier {
        number: 0,
        words: walked.words,
        edits,
    }
}
