// Take's work on what a record holds, from a message that was accepted: what the sender had dropped dropped, the log caught up, the ballots brought
// past it and offered the message's.
// Public only for the crate above, which proves what the functions require.
#![tactic(auto)]

ghost use Rattle.std.specs.Prelude.{◌≡◌, ◌*◌, ◌≤◌, length};
ghost use Rattle.numbers.specs.Numbers.{run_at};
ghost use Rattle.spelling.specs.Reading.{record_at};
ghost use Rattle.ballots.specs.Ballots.{words_with};
ghost use Rattle.intake.specs.Intake.{taken_in, intaken_of, aligned_take, merged_of, caught_length, caught_words, Aligned, Ready};

use ballots::Ballot;
use elections::State;
use kept::Kept;
use readings::Reading;

// What takes change of a record: the state, and what is kept of the dropped entries.
#[derive(Clone, Copy)]
pub struct Intaken {
    pub state: State,
    pub kept: Kept,
}

// Where the message's log is the longer, writes the missing entries from the held length onward; answers the new held length.
fn catch_up(log: &mut [u32], held: usize, rest: &[u8], k: usize) -> usize
    requires { (k ≤ length log.old) × (6 * k ≤ length rest.now) }
    ensures reached { result ≡ caught_length held (run_at 6 record_at k rest.now) }
    ensures words { log.new ≡ caught_words log.old held (run_at 6 record_at k rest.now) }
{
    if k <= held {
        return held;
    }
    extending::extend(log, held, rest, k);
    k
}

// Takes a message whose k log records begin where the held log does, and are comparable with it: the log catches up, every ballot is brought past
// the entries that this settled, and each is offered the message's ballot of its office, the own one the sender's; the summary follows.
fn take_aligned(
    log: &mut [u32],
    state: State,
    own: usize,
    sender: usize,
    offers: [Ballot; 8],
    rest: &[u8],
    k: usize,
) -> State
    requires { Aligned log.old state (run_at 6 record_at k rest.now) sender offers × (6 * k ≤ length rest.now) }
    ensures state { result ≡ merged_of state (aligned_take log.old state own (run_at 6 record_at k rest.now) sender offers) }
    ensures words { log.new ≡ words_with (aligned_take log.old state own (run_at 6 record_at k rest.now) sender offers).log
        log.old }
{
    let end = catch_up(log, state.held, rest, k);
    let ballots = merging::merge(
        state.ballots,
        offers,
        own,
        sender,
        &log[state.held..end],
        &log[k..end],
    );
    let summary = state.summary.after(&log[state.held..end]);
    State {
        summary,
        held: end,
        ballots,
    }
}

// Takes a message that was accepted: what its sender had dropped is dropped first, and of its log only the part from where the own one begins is
// taken. Later words keep their contents.
pub fn take_in(
    log: &mut [u32],
    state: State,
    kept: Kept,
    own: usize,
    rest: &[u8],
    m: &Reading,
) -> Intaken
    requires { Ready log.old state kept rest.now m.now }
    ensures made { result ≡ intaken_of log.old state kept own rest.now m.now }
    ensures words { log.new ≡ words_with (taken_in log.old state kept own rest.now m.now).log log.old }
{
    let ahead = comparing::later(m.dropped, kept.dropped);
    let behind = comparing::later(kept.dropped, m.dropped);
    let aligned = State {
        held: state.held - ahead,
        ..state
    };
    let remains = kept.drop_first(log, state.held, ahead);
    let next = take_aligned(
        log,
        aligned,
        own,
        m.sender,
        m.ballots,
        &rest[6 * behind..],
        m.held - behind,
    );
    Intaken {
        state: next,
        kept: remains,
    }
}
