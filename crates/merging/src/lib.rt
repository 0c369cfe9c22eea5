// Take's work on ballots. With the settled logs comparable, a path is compared with a longer log by its tail and the words by which that
// log is longer, so that no path is ever put together.
#![tactic(auto)]

ghost use Rattle.std.specs.Prelude.{◌≡◌, map, ◌≤◌, ◌<◌, eqb, length, get_or, set};
ghost use Rattle.lists.specs.Tests.{pick};
ghost use Rattle.ballots.specs.Ballots.{tail_of, ballot_of, off_end};
ghost use Rattle.merging.specs.Merging.{past_ballot, adopted_ballot, adopted_all};

use ballots::Ballot;
use longer_tails::extends;

// The ballot's tail.
fn tail(b: &Ballot) -> &[u32]
    ensures { result.now ≡ tail_of b.now }
{
    &b.cells[..b.len.min(Ballot::CELLS)]
}

// The ballot that holds the words.
fn ballot_of(words: &[u32]) -> Ballot
    requires { length words.now ≤ 32 }
    ensures { result ≡ ballot_of words.now }
{
    let mut cells = [0u32; 32];
    cells[..words.len()].copy_from_slice(words);
    let len = words.len();
    Ballot { len, cells }
}

// What the ballot is beside a log that is longer by the words: its tail past them, or none where its tail does not extend them.
fn past_ballot(words: &[u32], b: Ballot) -> Ballot
    ensures { result ≡ past_ballot words.now b }
{
    let tail = tail(&b);
    if !extends(tail, words) {
        return Ballot::none();
    }
    ballot_of(&tail[words.len()..])
}

// The ballot after its offer: it becomes the offered one where that one's tail extends its own.
fn adopted_ballot(b: Ballot, offer: Ballot) -> Ballot
    ensures { result ≡ adopted_ballot b offer }
{
    if extends(tail(&offer), tail(&b)) {
        return offer;
    }
    b
}

// The ballot after its offer, which stands beside a log that is shorter by the words. An offer of no more entries than the words and the
// ballot's own tail leaves the ballot.
fn offered(b: Ballot, offer: Ballot, words: &[u32]) -> Ballot
    ensures { result ≡ adopted_ballot b (past_ballot words.now offer) }
{
    if offer.len.saturating_sub(words.len()) <= b.len {
        return b;
    }
    adopted_ballot(b, past_ballot(words, offer))
}

// Whose offer a place has: at the own place the sender's.
fn giver(i: usize, own: usize, sender: usize) -> usize
    requires { (i < 8) × (sender < 8) }
    ensures { (result ≡ pick (eqb i own) sender i) × (result < 8) }
{
    if i == own { sender } else { i }
}

// Every ballot brought past the words by which the log grew, and then after its offer, which stands beside a log that is shorter by the
// words between: the offer of its own office, and at the own place the sender's. An offer that is not longer than those words leaves the
// ballot, and where the log did not grow each ballot stays as it is. Public only for the crate above, which proves what it requires.
pub fn merge(
    ballots: [Ballot; 8],
    offers: [Ballot; 8],
    own: usize,
    sender: usize,
    grown: &[u32],
    between: &[u32],
) -> [Ballot; 8]
    requires { (sender < 8) × (map ballot_of (map tail_of ballots) ≡ ballots) }
    ensures { result ≡ adopted_all between.now (map (past_ballot grown.now) ballots) (set offers own (get_or offers sender off_end)) }
{
    let mut next = ballots;
    // A number and no `enumerate`: the place says whose offer the ballot has, and `giver` wants it below 8.
    for i in 0..8 {
        let len = next[i].len;
        if (len > 0) & (grown.len() > 0) {
            let b = next[i];
            next[i] = past_ballot(grown, b);
        }
        let giver = giver(i, own, sender);
        let offer_len = offers[giver].len;
        if offer_len > between.len() {
            let b = next[i];
            let offer = offers[giver];
            next[i] = offered(b, offer, between);
        }
    }
    next
}
