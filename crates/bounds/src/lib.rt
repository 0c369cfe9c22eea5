// Weights known within bounds: the entry that wins an election step whichever weights within the bounds are chosen.
#![tactic(auto)]

ghost use Rattle.std.specs.Prelude.{◌≡◌, ◌≤◌, take};
ghost use Rattle.protocol.specs.Counts.{quieter_by};
ghost use Rattle.tallies.specs.Tallies.{votes_in, SilentFrom};
ghost use Rattle.bounds.specs.Bounds.{fits, worst, wins_worst, sure_winner};
ghost use Rattle.lists.specs.Padded.{in_eight};

use tallies::Step;

// The lowest and the highest weight of each office. Those from place n on, of n offices, are not looked at.
// Two arrays side by side, as C hands them over.
#[derive(Clone, Copy)]
pub struct Bounds {
    pub lowest: [u16; 8],
    pub highest: [u16; 8],
}

impl Bounds {
    // Whether no lowest weight exceeds its highest. Public only for the crate above, which proves what it requires.
    pub fn fit(&self, n: usize) -> bool
        requires { n ≤ 8 }
        ensures { result ≡ fits (take n self.now.lowest) (take n self.now.highest) }
    {
        // Tried with `all`: the proof did not close.
        for (low, high) in self.lowest[..n].iter().zip(&self.highest[..n]) {
            if low > high {
                return false;
            }
        }
        true
    }

    // The worst choice for an entry: its supporters lowest, all others highest.
    fn worst(&self, n: usize, votes: &[Option<u32>; 8], entry: u32) -> [u16; 8]
        requires { n ≤ 8 }
        ensures { result ≡ in_eight (worst (take n self.now.lowest) (take n self.now.highest) (votes_in votes.now) entry) }
    {
        let mut weights = [0; 8];
        for (i, vote) in votes[..n].iter().enumerate() {
            weights[i] = if *vote == Some(entry) {
                self.lowest[i]
            } else {
                self.highest[i]
            };
        }
        weights
    }

    // Whether the entry wins under its worst choice.
    fn wins_worst(&self, n: usize, votes: &[Option<u32>; 8], counts: [u64; 8], entry: u32) -> bool
        requires { SilentFrom n votes.now }
        ensures { result ≡ wins_worst (take n self.now.lowest) (take n self.now.highest) (quieter_by counts) (votes_in votes.now) entry }
    {
        let weights = self.worst(n, votes, entry);
        let step = Step {
            n,
            votes: *votes,
            weights,
            counts,
        };
        step.winner() == Some(entry)
    }

    // The entry that wins whichever weights within the bounds are chosen, if any, by the votes and the counts of the settled log. Public only
    // for the crate above, which proves what it requires.
    pub fn sure_winner(&self, n: usize, votes: &[Option<u32>; 8], counts: [u64; 8]) -> Option<u32>
        requires { SilentFrom n votes.now }
        ensures { result ≡ sure_winner (take n self.now.lowest) (take n self.now.highest) (quieter_by counts) (votes_in votes.now) }
    {
        // The walk of `Step::winner`, but for the test: a closure would bring its own `pre` and `post` into the contract.
        for vote in &votes[..n] {
            if let Some(entry) = *vote {
                if self.wins_worst(n, votes, counts, entry) {
                    return Some(entry);
                }
            }
        }
        None
    }
}
