// Taking a message: a call above `frame`.
#![tactic(auto)]

ghost use Rattle.std.specs.Prelude.{◌≡◌, ◌+◌, ◌<◌, ◌≤◌};
ghost use Rattle.frame.specs.State.{state_in, with_kept, with_noted, with_state};
ghost use Rattle.refusals.specs.Refusals.{number_of};
ghost use Rattle.taking.specs.Taking.{take_of, take_words};

use comparing::Refused;
use elections::State;
use frame::Record;
use kept::Kept;
use refusals::Refusal;

// C has it as it lies here, so it holds the number and is no `Result`.
#[repr(C)]
#[derive(Clone, Copy)]
pub struct Taken {
    pub record: Record,
    pub number: u32,
    pub places: usize,
}

// The record with other kept values and other noted lengths: what a take changes besides the state.
fn with_kept_and_noted(office: Record, kept: Kept, noted: [u64; 8]) -> Record
    ensures { result ≡ with_noted (with_kept office kept) noted }
{
    Record {
        kept,
        noted,
        ..office
    }
}

// What takes and elections change of the record, and the record with that changed.
fn state(office: Record) -> State
    requires { office.kept.dropped ≤ office.settled }
    ensures { result ≡ state_in office }
{
    let ballots = office.ballots;
    State {
        summary: office.summary,
        held: (office.settled - office.kept.dropped) as usize,
        ballots,
    }
}

fn with_state(office: Record, state: State) -> Record
    requires { office.kept.dropped + state.held < 18446744073709551616 }
    ensures { result ≡ with_state office state }
{
    let ballots = state.ballots;
    Record {
        summary: state.summary,
        settled: office.kept.dropped + state.held as u64,
        ballots,
        ..office
    }
}

// A refused take: the record as it was.
fn refused(record: Record, r: Refused) -> Taken
    ensures { result ≡ record { «record» = «record»; number = number_of r.refusal; places = r.places } }
{
    Taken {
        record,
        number: r.refusal.number(),
        places: r.places,
    }
}

// Take: an accepted message is worked into the record and its log; a refused one changes nothing. Beside the number it answers how many
// places the comparison of the logs needed. What the sender had dropped is dropped first, and its settled length is noted.
pub fn take(office: Record, log: &mut [u32], msg: &[u8]) -> Taken
    ensures { (result ≡ take_of office log.old msg.now) × (log.new ≡ take_words office log.old msg.now) }
{
    if !office.sound(&log[..]) {
        return refused(office, Refusal::Unsound.into());
    }
    let Some(m) = reading::read(msg) else {
        return refused(office, Refusal::NoMessage.into());
    };
    let rest = &msg[m.head..];
    let before = state(office);
    let checked = acceptance::check(
        office.n,
        office.own,
        office.weights,
        office.kept.dropped,
        &log[..before.held],
        rest,
        Some(&m),
    );
    let places = match checked {
        Ok(places) => places,
        Err(r) => return refused(office, r),
    };
    let taken = intake::take_in(log, before, office.kept, office.own, rest, &m);
    let noted = noting::noted(office.noted, m.sender, m.dropped + m.held as u64);
    let behind = with_kept_and_noted(office, taken.kept, noted);
    let next = with_state(behind, taken.state);
    Taken {
        record: next,
        number: 0,
        places,
    }
}
