// What takes and elections change of a record.
#![tactic(auto)]

use ballots::Ballot;
use summary::Summary;

// What the settled log has done, dropped entries included, the length of the part that is held, and each office's ballot.
#[derive(Clone, Copy)]
pub struct State {
    pub summary: Summary,
    pub held: usize,
    pub ballots: [Ballot; 8],
}
