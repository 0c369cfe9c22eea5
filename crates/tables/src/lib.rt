// The 2197 ballot tables of three offices with tails of 0 to 2 entries, by their place in the list.
#![tactic(auto)]

ghost use Rattle.std.specs.Prelude.{◌≡◌, map, ◌<◌};
ghost use Rattle.protocol.specs.Entry.{value};
ghost use Rattle.ballots.specs.Ballots.{ballot_of};
ghost use Rattle.tables.specs.Tables.{tail_at, table_at};

use ballots::Ballot;

// How many tails an office may have: none, three of one entry, nine of two.
const TAILS: usize = 13;

// How many pairs of tails there are, and how many tables, of three tails.
const PAIRS: usize = TAILS * TAILS;

pub const TABLES: usize = TAILS * PAIRS;

// The entry of an office with line 0 and code 0.
fn entry_of(office: usize) -> u32
    requires { office < 3 }
    ensures { result ≡ value office 0 0 }
{
    (office * 16777216) as u32
}

// The tail at a place of the list of tails; none past its end.
fn tail_at(place: usize) -> Ballot
    ensures { result ≡ ballot_of (tail_at place) }
{
    let none = Ballot::none();
    if place == 0 {
        return none;
    }
    if place >= TAILS {
        return none;
    }
    if place < 4 {
        return none.push(entry_of(place - 1));
    }
    let pair = place - 4;
    none.push(entry_of(pair / 3)).push(entry_of(pair % 3))
}

// The three offices' tails in the table at a place of the list; three empty ones past its end.
pub fn table_at(place: usize) -> [Ballot; 3]
    ensures { result ≡ map ballot_of (table_at place) }
{
    if place >= TABLES {
        return [Ballot::none(); 3];
    }
    let first = tail_at(place / PAIRS);
    let second = tail_at(place / TAILS % TAILS);
    let third = tail_at(place % TAILS);
    [first, second, third]
}
