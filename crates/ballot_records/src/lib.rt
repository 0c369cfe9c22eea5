// An office's ballot in a message, read at a position by its layout alone.
#![tactic(auto)]

ghost use Rattle.std.specs.Prelude.{◌≡◌, ◌+◌, ◌*◌, ◌≤◌, length, drop};
ghost use Rattle.ballots.specs.Ballots.{ballot_of};
ghost use Rattle.numbers.specs.Numbers.{be32, run_at};
ghost use Rattle.ballot_records.specs.BallotSteps.{ballot_at};

use ballots::Ballot;
use numbers::read_run;

// An office's ballot, and the position after it.
#[derive(Clone, Copy)]
pub struct BallotStep {
    pub next: usize,
    pub ballot: Ballot,
}

// The k values at a position, as a ballot's cells.
fn values_at(s: &[u8], from: usize, k: usize) -> [u32; 32]
    requires { (k ≤ 32) × (from + 4 * k ≤ length s.now) }
    ensures { result ≡ (ballot_of (run_at 4 be32 k (drop from s.now))).cells }
{
    let mut cells = [0u32; 32];
    read_run(&mut cells[..k], s, from);
    cells
}

// The ballot of office o at a position; no entries, and the same position, where another record stands there; nothing where it is a ballot not of the
// layout. Whether its values are entries is the caller's to test.
#[tactic(auto, unfolding(crate::specs::BallotSteps::ballot_at, spelling::specs::Reading::ballot_ok, spelling::specs::Reading::ballot_next, spelling::specs::Reading::tail_at, spelling::specs::Reading::size_at, lists::specs::Tests::both, lists::specs::Tests::pick))]
pub fn ballot_at(s: &[u8], at: usize, o: usize) -> Option<BallotStep>
    ensures { result ≡ ballot_at s.now at o }
{
    match s.get(at..) {
        Some([0x42, 0x41, office, len, values @ ..]) if usize::from(*office) == o => {
            let len = usize::from(*len);
            if len < 1 || len > Ballot::CELLS || values.len() < 4 * len {
                return None;
            }
            let cells = values_at(s, at + 4, len);
            let ballot = Ballot { len, cells };
            Some(BallotStep {
                next: at + (4 + 4 * len),
                ballot,
            })
        }
        _ => Some(BallotStep {
            next: at,
            ballot: Ballot::none(),
        }),
    }
}
