// How the next place stands, by the votes that eight ballots cast: a row for each supported entry, and which offices are silent.
#![tactic(auto)]

ghost use Rattle.std.specs.Prelude.{◌≡◌, ◌≤◌, ◌<◌, take};
ghost use Rattle.tallies.specs.Tallies.{votes_in, weight_for};
ghost use Rattle.lists.specs.Padded.{in_eight};
ghost use Rattle.rows.specs.Rows.{is_in, with_vote, rows_of, marks};

// How many entries are supported, which, and the T of each; 0 past them. The length stands beside the two arrays as the answer across C has them.
#[derive(Clone, Copy)]
pub struct Rows {
    pub count: usize,
    pub entries: [u32; 8],
    pub tallies: [u32; 8],
}

// Whether the entry has a row.
fn has_row(rows: Rows, entry: u32) -> bool
    requires { rows.count ≤ 8 }
    ensures { result ≡ is_in entry (take rows.count rows.entries) }
{
    rows.entries[..rows.count].contains(&entry)
}

// The rows, and one more for the vote where it is for an entry that has none.
fn with_vote(rows: Rows, votes: &[Option<u32>; 8], weights: &[u16; 8], vote: Option<u32>) -> Rows
    requires { rows.count < 8 }
    ensures { result ≡ with_vote (weight_for weights.now (votes_in votes.now) vote) vote rows }
{
    let Some(entry) = vote else {
        return rows;
    };
    if has_row(rows, entry) {
        return rows;
    }
    let at = rows.count;
    let mut next = rows;
    next.entries[at] = entry;
    next.tallies[at] = tallies::weight_for(votes, weights, vote);
    next.count = at + 1;
    next
}

// A row for each entry that is voted for, in the order of the lowest office that supports it, with the weight of all that do.
pub fn of_votes(votes: &[Option<u32>; 8], weights: &[u16; 8]) -> Rows
    ensures { result ≡ rows_of weights.now (votes_in votes.now) }
{
    let mut rows = Rows {
        count: 0,
        entries: [0; 8],
        tallies: [0; 8],
    };
    for vote in votes {
        rows = with_vote(rows, votes, weights, *vote);
    }
    rows
}

// 1 for each of n offices that casts no vote, else 0, and 0 from place n on. Public only for the crate above, which proves what it requires.
pub fn silent(votes: &[Option<u32>; 8], n: usize) -> [u32; 8]
    requires { n ≤ 8 }
    ensures { result ≡ in_eight (marks n (votes_in votes.now)) }
{
    let mut cells = [0; 8];
    for (i, vote) in votes[..n].iter().enumerate() {
        cells[i] = u32::from(vote.is_none());
    }
    cells
}
