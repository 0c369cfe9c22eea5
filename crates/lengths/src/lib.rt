// The limit of lengths with dropped entries included, for a record and a message alike.
#![tactic(auto)]

ghost use Rattle.std.specs.Prelude.{◌≡◌, true, map};
ghost use Rattle.lists.specs.Tests.{all_b};
ghost use Rattle.protocol.specs.Limits.{lengths_fine};
ghost use Rattle.ballots.specs.Ballots.{ballot_shape, tail_of};

use ballots::Ballot;

// "Dropped entries included, length plus tail is at most 2^63".
pub const LIMIT: u64 = 9223372036854775808;

// Whether a settled length, alone and with each ballot's tail, is within the limit. Tails have at most 32 entries, so only a length near the
// limit needs a look at them. Public only for the crates above, which prove that the ballots are in shape.
pub fn within(settled: u64, ballots: [Ballot; 8]) -> bool
    requires { all_b ballot_shape ballots ≡ true }
    ensures { result ≡ lengths_fine settled (map tail_of ballots) }
{
    if settled <= LIMIT - 32 {
        return true;
    }
    if settled > LIMIT {
        return false;
    }
    let room = LIMIT - settled;
    let mut good = true;
    // The walk has no early end, so no `all`.
    for ballot in &ballots {
        good = good & (ballot.len as u64 <= room);
    }
    good
}
