// When a record with its log is sound, by the record's fields.
#![tactic(auto)]

ghost use Rattle.std.specs.Prelude.{◌≡◌, leb};
ghost use Rattle.lists.specs.Tests.{both};
ghost use Rattle.protocol.specs.Limits.{head_fine};
ghost use Rattle.soundness.specs.Noted.{limit_at, noted_fine};
ghost use Rattle.soundness.specs.Soundness.{sound_fields};

use ballots::Ballot;
use kept::Kept;
use summary::Summary;

// The most that may be noted at a place: nothing of the office itself, or where there is no office.
fn limit_at(place: usize, n: usize, own: usize, settled: u64) -> u64
    ensures { result ≡ limit_at n own settled place }
{
    if (place == own) | (place >= n) {
        return 0;
    }
    settled
}

// Whether a record may have noted these lengths. The walk has no early end, so no `all`.
fn noted_fine(noted: [u64; 8], n: usize, own: usize, settled: u64) -> bool
    ensures { result ≡ noted_fine n own settled noted }
{
    let mut good = true;
    for (place, length) in noted.iter().enumerate() {
        good = good & (*length <= limit_at(place, n, own, settled));
    }
    good
}

// Whether a record's numbers are within the limits: its offices and weights, no more dropped than settled, and the noted lengths.
fn numbers_fine(
    n: usize,
    own: usize,
    weights: [u16; 8],
    noted: [u64; 8],
    settled: u64,
    dropped: u64,
) -> bool
    ensures { result ≡ both (head_fine n own weights) (both (leb dropped settled) (noted_fine n own settled noted)) }
{
    limits::head_fine(n, own, weights) && dropped <= settled && noted_fine(noted, n, own, settled)
}

// Whether a record of these fields is sound with its log. The record itself is declared in a crate above, with its methods, and its fields lie as
// C reads them: so they are handed over one by one.
pub fn sound(
    n: usize,
    own: usize,
    weights: [u16; 8],
    kept: Kept,
    noted: [u64; 8],
    summary: Summary,
    settled: u64,
    ballots: [Ballot; 8],
    log: &[u32],
) -> bool
    ensures { result ≡ sound_fields n own weights kept noted summary settled ballots log.now }
{
    if log.len() < Ballot::PATH {
        return false;
    }
    if !numbers_fine(n, own, weights, noted, settled, kept.dropped) {
        return false;
    }
    let held = (settled - kept.dropped) as usize;
    if held > Ballot::PATH {
        return false;
    }
    if !kept_limits::fine(kept, n, weights) {
        return false;
    }
    if !entries::all_entries(&log[..held], n) {
        return false;
    }
    let follows = kept.summary.after(&log[..held]);
    if summary != follows {
        return false;
    }
    if !eight_ballots::fine(ballots, n, held) {
        return false;
    }
    lengths::within(settled, ballots)
}
