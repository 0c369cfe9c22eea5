// One election step: the entry that wins by eight votes, their weights and the offices' counts of entries.
#![tactic(auto)]

ghost use Rattle.std.specs.Prelude.{◌≡◌, ◌≤◌};
ghost use Rattle.protocol.specs.Counts.{quieter_by};
ghost use Rattle.protocol.specs.Vote.{tally, unheard, wins, winner};
ghost use Rattle.tallies.specs.Tallies.{votes_in, SilentFrom, weight_for, beats_vote};

// The weight of the offices that cast this vote: T of an entry, U of none.
pub fn weight_for(votes: &[Option<u32>; 8], weights: &[u16; 8], vote: Option<u32>) -> u32
    ensures { (result ≡ weight_for weights.now (votes_in votes.now) vote) × (result ≤ 524280) }
{
    let mut sum = 0;
    // Tried with `sum`: the proof did not close.
    for (cast, weight) in votes.iter().zip(weights) {
        if *cast == vote {
            sum += u32::from(*weight);
        }
    }
    sum
}

// What n offices vote for, what they weigh, and how many settled entries each has.
// Arrays of eight side by side, as the record above has its weights and counts.
#[derive(Clone, Copy)]
pub struct Step {
    pub n: usize,
    pub votes: [Option<u32>; 8],
    pub weights: [u16; 8],
    pub counts: [u64; 8],
    pub ghost silent: { SilentFrom n votes },
}

impl Step {
    // Whether the entry, with its weight te and the unheard weight u, beats the one that is voted for, if that is another.
    fn beats(&self, te: u32, u: u32, entry: u32, vote: Option<u32>) -> bool
        requires { (te ≡ tally self.now.weights (votes_in self.now.votes) entry) × (u ≡ unheard self.now.weights (votes_in self.now.votes)) × (u ≤ 524280) }
        ensures { result ≡ beats_vote (quieter_by self.now.counts) self.now.weights (votes_in self.now.votes) entry vote }
    {
        match vote {
            None => true,
            Some(other) => {
                other == entry
                    || {
                        let t = weight_for(&self.votes, &self.weights, vote);
                        ties::is_above(self.counts, te, t + u, entry, other)
                    }
            }
        }
    }

    // Whether the entry wins, with the unheard weight u. The votes are walked to n, here and below: a walk of known length is unrolled, and
    // slower.
    fn wins(&self, u: u32, entry: u32) -> bool
        requires { (u ≡ unheard self.now.weights (votes_in self.now.votes)) × (u ≤ 524280) }
        ensures { result ≡ wins self.now.weights (quieter_by self.now.counts) (votes_in self.now.votes) entry }
    {
        let te = weight_for(&self.votes, &self.weights, Some(entry));
        if te <= u {
            return false;
        }
        // Tried with `all`: the proof did not close.
        for vote in &self.votes[..self.n] {
            if !self.beats(te, u, entry, *vote) {
                return false;
            }
        }
        true
    }

    // The entry that wins the step, if any.
    pub fn winner(&self) -> Option<u32>
        ensures { result ≡ winner self.now.weights (quieter_by self.now.counts) (votes_in self.now.votes) }
    {
        let u = weight_for(&self.votes, &self.weights, None);
        for vote in &self.votes[..self.n] {
            if let Some(entry) = *vote {
                if self.wins(u, entry) {
                    return Some(entry);
                }
            }
        }
        None
    }
}
