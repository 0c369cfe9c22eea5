// The vote that a ballot casts, the votes of eight ballots, and a ballot without the entry that was settled.
#![tactic(auto)]

ghost use Rattle.std.specs.Prelude.{◌≡◌, true, map, ◌≤◌, drop};
ghost use Rattle.ballots.specs.Ballots.{tail_of, ballot_of, ballot_shape};
ghost use Rattle.tallies.specs.Tallies.{cast};

use ballots::Ballot;

// The vote that a ballot casts.
pub fn vote(b: Ballot) -> Option<u32>
    ensures { result ≡ cast b }
{
    if b.len == 0 { None } else { Some(b.cells[0]) }
}

// The votes that eight ballots cast.
pub fn of_ballots(ballots: [Ballot; 8]) -> [Option<u32>; 8]
    ensures { result ≡ map cast ballots }
{
    ballots.map(vote)
}

// The ballot without its first entry. Its unused cells are zero, so all its cells move up by one, in a copy of fixed length. Public only for
// the crate above, which proves what it requires.
pub fn without_first(b: Ballot) -> Ballot
    requires { (ballot_shape b ≡ true) × (1 ≤ b.len) }
    ensures { result ≡ ballot_of (drop 1 (tail_of b)) }
{
    let mut cells = [0; 32];
    cells[..31].copy_from_slice(&b.cells[1..]);
    Ballot {
        len: b.len - 1,
        cells,
    }
}
