// What became of an edit: of the own office's entries that were pending before a take, elect or fold, how many settled, which are pending still and
// which are lost. A call above `frame`, `taking` and `folding`, which uses only what their calls promise.
#![tactic(auto)]

ghost use Rattle.std.specs.Prelude.{◌≡◌, ◌≤◌};
ghost use Rattle.refusals.specs.Refusals.{number_of};
ghost use Rattle.own_entries.specs.Told.{told_refused};
ghost use Rattle.outcome.specs.Outcome.{follows, outcome_is, report_of, report_words};

use ballots::Ballot;
use frame::Record;
use refusals::Refusal;

// `number` is 0 when it is done; the counts are 0 where it is refused.
// C has it as it lies here, so it holds the number and is no `Result`.
#[repr(C)]
#[derive(Clone, Copy)]
pub struct Outcome {
    pub number: u32,
    pub settled: usize,
    pub pending: usize,
    pub lost: usize,
}

// Whether the record `after` could follow the record `before` of the same office, as far as can be told without the log that `before` had.
fn follows(before: Record, after: Record) -> bool
    requires { (1 ≤ after.n) × (after.n ≤ 8) }
    ensures { result ≡ follows before after }
{
    if before.n != after.n {
        return false;
    }
    if before.own != after.own {
        return false;
    }
    if before.weights != after.weights {
        return false;
    }
    let settled = before.settled;
    if settled > after.settled {
        return false;
    }
    if settled < after.kept.dropped {
        return false;
    }
    let dropped = before.kept.dropped;
    if dropped > settled {
        return false;
    }
    let held = (settled - dropped) as usize;
    if held > Ballot::PATH {
        return false;
    }
    let ballots = before.ballots;
    eight_ballots::fine(ballots, before.n, held)
}

// What is refused answers zeros.
fn refused(refusal: Refusal) -> Outcome
    ensures { result ≡ outcome_is (told_refused (number_of refusal)) }
{
    Outcome {
        number: refusal.number(),
        settled: 0,
        pending: 0,
        lost: 0,
    }
}

// What became of the own entries that were pending in `before`, by the record `after` of the same office and its log. Those pending still, and
// behind them those lost, are written to `rest`.
pub fn report(before: Record, after: Record, log: &[u32], rest: &mut [u32]) -> Outcome
    ensures report { result ≡ report_of before after log.now rest.old }
    ensures words { rest.new ≡ report_words before after log.now rest.old }
{
    if !after.sound(log) {
        return refused(Refusal::Unsound);
    }
    if !follows(before, after) {
        return refused(Refusal::Unsound);
    }
    let own = before.own;
    let was = before.ballots[own];
    let now = after.ballots[own];
    let from = (before.settled - after.kept.dropped) as usize;
    let held = (after.settled - after.kept.dropped) as usize;
    let tail = &was.cells[..was.len];
    match pending::tell(own, tail, &log[from..held], &now.cells[..now.len], rest) {
        Ok(told) => Outcome {
            number: 0,
            settled: told.settled,
            pending: told.pending,
            lost: told.lost,
        },
        Err(refusal) => refused(refusal),
    }
}
