// Reading a message: what it says, if it is one.
#![tactic(auto)]

ghost use Rattle.std.specs.Prelude.{◌≡◌};
ghost use Rattle.spelling.specs.Reading.{reading};
ghost use Rattle.reading.specs.Read.{log_within, reading_of};

use eight_ballots::fine;
use message_heads::read_head;
use reader::Reader;
use readings::Reading;

// Whether k log records stand at the start, whose values are entries for n offices: record by record, edits and moves alike.
fn log_within(rest: &[u8], n: usize, k: usize) -> bool
    ensures { result ≡ log_within rest.now n k }
{
    let mut at: usize = 0;
    for _ in 0..k {
        let Some(step) = Reader::new(rest, at).log_record() else {
            return false;
        };
        if !entries::is_entry(step.value, n) {
            return false;
        }
        at = step.next;
    }
    true
}

// What a message says, if it is one. "The rest of the message after the head" is handed on to the record readers: the log records first, then the
// ballots, offices rising, then the end; the ballots, and the settled length beside them, are tested as a record's are. They are gathered here, since
// a function that handed them on would copy them.
pub fn read(msg: &[u8]) -> Option<Reading>
    ensures { result ≡ reading_of (reading msg.now) }
{
    let mut m = read_head(msg)?;
    let rest = &msg[m.head..];
    if !log_within(rest, m.n, m.held) {
        return None;
    }
    let mut at = 6 * m.held;
    // o is the office whose ballot comes next: a number that the reader takes, so `enumerate` would be no plainer.
    for o in 0..m.n {
        let step = Reader::new(rest, at).ballot(o)?;
        if step.ballot.len > 0 {
            m.ballots[o] = step.ballot;
        }
        at = step.next;
    }
    Reader::new(rest, at).end()?;
    if !fine(m.ballots, m.n, m.held) {
        return None;
    }
    if !lengths::within(m.dropped + m.held as u64, m.ballots) {
        return None;
    }
    Some(m)
}
