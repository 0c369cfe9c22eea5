// Why a take is refused by the two settled logs alone, compared from their ends on the part that both still have.
#![tactic(auto)]

ghost use Rattle.std.specs.Prelude.{◌≡◌, ◌-◌, ◌*◌, ◌≤◌, length};
ghost use Rattle.numbers.specs.Numbers.{run_at};
ghost use Rattle.spelling.specs.Reading.{record_at};
ghost use Rattle.comparing.specs.Checking.{checked_in, checked_logs};

use refusals::Refusal;

// Why a take is refused, and how many places the comparison of the logs needed until then.
#[derive(Clone, Copy)]
pub struct Refused {
    pub refusal: Refusal,
    pub places: usize,
}

// A refusal that came to no comparison.
impl From<Refusal> for Refused {
    ghost from_gives = { λ r x. x ≡ record { refusal = r; places = 0 } };

    fn from(refusal: Refusal) -> Refused {
        Refused { refusal, places: 0 }
    }
}

// By how many entries a log that begins behind `dropped` entries begins later than one behind `other`.
pub fn later(dropped: u64, other: u64) -> usize
    ensures { result ≡ dropped - other }
{
    dropped.saturating_sub(other) as usize
}

// How many places the comparison needs of two logs, on the part that both still have, or the refusal: the held log, behind `dropped` entries, and the
// values of a message's k log records, behind `other` entries. Public only for the crate above, which proves what it requires.
pub fn check(dropped: u64, log: &[u32], other: u64, rest: &[u8], k: usize) -> Result<usize, Refused>
    requires { 6 * k ≤ length rest.now }
    ensures { checked_in result ≡ checked_logs dropped log.now other (run_at 6 record_at k rest.now) }
{
    let ahead = later(other, dropped);
    if ahead > log.len() {
        return Err(Refusal::BeginsPast.into());
    }
    let behind = later(dropped, other);
    if behind > k {
        return Err(Refusal::EndsInside.into());
    }
    let c = shared_places::compare(&log[ahead..], &rest[6 * behind..], k - behind);
    if c.differ {
        return Err(Refused {
            refusal: Refusal::OtherLog,
            places: c.places,
        });
    }
    Ok(c.places)
}
