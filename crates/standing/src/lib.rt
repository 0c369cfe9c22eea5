// How the next place stands: what a record's ballots say of the next election step.
#![tactic(auto)]

ghost use Rattle.std.specs.Prelude.{◌≡◌};
ghost use Rattle.standing.specs.Standing.{standing_of};

use frame::Record;
use refusals::Refusal;
use rows::Rows;

// The number; the supported entries, each once, in the order of the lowest office that supports it, with their T, 0 past them; U; and 1 for
// each of the n offices that has no ballot.
// The rows are a count beside arrays side by side, since a row of its own was no part of what C was given.
// C has it as it lies here, so it holds the number and is no `Result`.
#[repr(C)]
#[derive(Clone, Copy)]
pub struct Standing {
    pub number: u32,
    pub rows: usize,
    pub unheard: u32,
    pub entries: [u32; 8],
    pub tallies: [u32; 8],
    pub silent: [u32; 8],
}

// For each supported entry its T, and U, by the present weights, and which offices are unheard.
pub fn next_place(office: Record, log: &[u32]) -> Standing
    ensures { result ≡ standing_of office log.now }
{
    if !office.sound(log) {
        return Standing {
            number: Refusal::Unsound.number(),
            rows: 0,
            unheard: 0,
            entries: [0; 8],
            tallies: [0; 8],
            silent: [0; 8],
        };
    }
    let present = office.summary.present;
    let votes = votes::of_ballots(office.ballots);
    let unheard = tallies::weight_for(&votes, &present, None);
    let silent = rows::silent(&votes, office.n);
    let Rows {
        count,
        entries,
        tallies,
    } = rows::of_votes(&votes, &present);
    Standing {
        number: 0,
        rows: count,
        unheard,
        entries,
        tallies,
        silent,
    }
}
