// The line of a table, and the lines of all.
ghost use Rattle.std.specs.Prelude.{◌≡◌, true, [], ◌∷◌, ◌++◌, ◌+◌, ◌≤◌, length};
ghost use Rattle.std.proofs.lemmas.List.Edits.{sets};
ghost use Rattle.ballots.specs.Ballots.{tail_of};
ghost use Rattle.frame.specs.Electing.{elect_of};
ghost use Rattle.tables.specs.Tables.{tables, table_at};
ghost use Rattle.printing.specs.Printing.{Puts};
ghost use Rattle.table_lines.specs.Lines.{shown, empty_log, with_table, settled_from, line_of, lines_of, few};

use ballots::Ballot;
use frame::Record;
use printing::put_number;
use tables::{TABLES, table_at};
use words::office_of;

// The most bytes that are printed: 2197 lines of at most 28, and behind them room for a number's 20 digits.
pub const OUTPUT: usize = 61536;

// Writes a digit for the office of each entry, `-` where there is no entry, and answers the place behind.
fn put_entries(out: &mut [u8], at: usize, entries: &[u32]) -> usize
    requires { (few entries.now ≡ true) × (at + 26 ≤ length out.old) }
    ensures { Puts out.old at (shown entries.now) result out.new }
{
    if entries.is_empty() {
        out[at] = b'-';
        return at + 1;
    }
    let mut next = at;
    for entry in entries {
        next = put_number(out, next, office_of(*entry));
    }
    next
}

// Writes a ballot's entries and a space.
fn put_ballot(out: &mut [u8], at: usize, ballot: Ballot) -> usize
    requires { (few (tail_of ballot) ≡ true) × ((ballot.len ≤ 32) × (at + 27 ≤ length out.old)) }
    ensures { Puts out.old at (shown (tail_of ballot) ++ (32 ∷ [])) result out.new }
{
    let next = put_entries(out, at, &ballot.cells[..ballot.len]);
    out[next] = b' ';
    next + 1
}

// Elects from an empty log, and writes the entries that are settled and a newline.
fn put_settled(out: &mut [u8], at: usize, record: Record) -> usize
    requires { (few (settled_from «record») ≡ true) × (((elect_of «record» empty_log).count ≤ 1024) × (at + 27 ≤ length out.old)) }
    ensures { Puts out.old at (shown (settled_from «record») ++ (10 ∷ [])) result out.new }
{
    let mut log = [0u32; 1024];
    let elected = record.elect(&mut log);
    let next = put_entries(out, at, &log[..elected.count]);
    out[next] = b'\n';
    next + 1
}

// The record with three ballots, and no others.
fn with_table(record: Record, a: Ballot, b: Ballot, c: Ballot) -> Record
    ensures { result ≡ with_table «record» (a ∷ b ∷ c ∷ []) }
{
    let none = Ballot::none();
    let mut ballots = [none; 8];
    ballots[0] = a;
    ballots[1] = b;
    ballots[2] = c;
    Record { ballots, ..record }
}

// Writes the line of the table at a place. It takes at most 28 bytes, and wants room for a number's 20 digits behind them.
fn put_line(out: &mut [u8], at: usize, record: Record, place: usize) -> usize
    requires { at + 48 ≤ length out.old }
    ensures { Puts out.old at (line_of «record» (table_at place)) result out.new }
{
    let [a, b, c] = table_at(place);
    let seated = with_table(record, a, b, c);
    let second = put_ballot(out, at, a);
    let third = put_ballot(out, second, b);
    let last = put_ballot(out, third, c);
    put_settled(out, last, seated)
}

// Writes the lines of all tables at the output's front, and answers how many bytes they take.
pub fn put_lines(out: &mut [u8; OUTPUT], record: Record) -> usize
    ensures { (result ≡ length (lines_of «record» tables)) × (out.new ≡ sets out.old 0 (lines_of «record» tables)) }
{
    let mut next: usize = 0;
    // counted: the place is the table's number
    for place in 0..TABLES {
        next = put_line(out, next, record, place);
    }
    next
}
