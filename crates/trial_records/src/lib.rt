// The lines that set a part of a trial's record. A field more is a letter here and a line in `trial_digests`.
#![tactic(auto)]

ghost use Rattle.std.specs.Prelude.{◌≡◌};
ghost use Rattle.frame.specs.State.{zero_record};
ghost use Rattle.trial_records.specs.Setting.{fits_record, with_present, with_codes, with_numbers, set_kept, set_head, with_cells, set_ballots, set_record};

use ballots::Ballot;
use frame::Record;
use kept::Kept;
use summary::Summary;
use trial_lines::{Line, put, room_for, weights};

// The all-zero record: what a refused founding answers.
pub fn none() -> Record
    ensures { result ≡ zero_record }
{
    Record::found(0, 0, [0; 8], &[0]).record
}

// A `match` on the letter, here and below: each letter has numbers and a part of its own, so a table of closures would be no plainer.
// Whether the part of the record that the line writes into has room for its numbers.
pub fn fits(line: Line) -> bool
    ensures { result ≡ fits_record line }
{
    match line.letter {
        b'j' | b'k' => room_for(line, 2, 1, line.first, 64).is_some(),
        b'n' | b't' => room_for(line, 2, 1, line.first, 8).is_some(),
        b'a' => room_for(line, 3, 1, line.second, 32).is_some(),
        _ => true,
    }
}

// With other present weights.
fn with_present(summary: Summary, present: [u16; 8]) -> Summary
    ensures { result ≡ with_present summary present }
{
    Summary { present, ..summary }
}

// This, `with_numbers` and `with_cells` are of one shape: what they share is `put`, and each answers with a type of its own.
// With codes that the line writes.
fn with_codes(summary: Summary, line: Line) -> Summary
    ensures { result ≡ with_codes summary line }
{
    let mut next = summary;
    put(line, 2, 1, line.first, &mut next.codes);
    next
}

// The eight numbers with those that the line writes.
fn with_numbers(before: [u64; 8], line: Line) -> [u64; 8]
    ensures { result ≡ with_numbers before line }
{
    let mut numbers = before;
    put(line, 2, 1, line.first, &mut numbers);
    numbers
}

// `f`, `q`, `j` and `t`: the dropped count, the kept weights, codes and counts.
fn set_kept(kept: Kept, line: Line) -> Kept
    ensures { result ≡ set_kept kept line }
{
    match line.letter {
        b'f' => Kept {
            dropped: line.first,
            ..kept
        },
        b'q' => Kept {
            summary: with_present(kept.summary, weights(line, 1)),
            ..kept
        },
        b'j' => Kept {
            summary: with_codes(kept.summary, line),
            ..kept
        },
        _ => Kept {
            counts: with_numbers(kept.counts, line),
            ..kept
        },
    }
}

// `r`: n, the own office, the weights, which become the founding, the present and the kept ones, and the settled length.
fn set_head(record: Record, line: Line) -> Record
    ensures { result ≡ set_head «record» line }
{
    let founding = weights(line, 3);
    Record {
        n: line.first as usize,
        own: line.second as usize,
        weights: founding,
        kept: Kept {
            summary: with_present(record.kept.summary, founding),
            ..record.kept
        },
        summary: with_present(record.summary, founding),
        settled: line.numbers[11],
        ..record
    }
}

// The ballot with cells that the line says.
fn with_cells(ballot: Ballot, line: Line) -> Ballot
    ensures { result ≡ with_cells ballot line }
{
    let mut next = ballot;
    put(line, 3, 1, line.second, &mut next.cells);
    next
}

// `b` and `a`: the ballots with one of them set.
fn set_ballots(before: [Ballot; 8], line: Line) -> [Ballot; 8]
    ensures { result ≡ set_ballots before line }
{
    let mut ballots = before;
    let k = (line.first % 8) as usize;
    ballots[k] = if line.letter == b'b' {
        Ballot {
            len: line.second as usize,
            cells: [0; 32],
        }
    } else {
        with_cells(ballots[k], line)
    };
    ballots
}

// The record with what the line says; nothing is written where it has no room. A letter of no line is taken for `a`.
pub fn set(record: Record, line: Line) -> Record
    ensures { result ≡ set_record «record» line }
{
    match line.letter {
        b'r' => set_head(record, line),
        b'p' => Record {
            summary: with_present(record.summary, weights(line, 1)),
            ..record
        },
        b'k' => Record {
            summary: with_codes(record.summary, line),
            ..record
        },
        b'n' => Record {
            noted: with_numbers(record.noted, line),
            ..record
        },
        b'f' | b'j' | b'q' | b't' => Record {
            kept: set_kept(record.kept, line),
            ..record
        },
        _ => Record {
            ballots: set_ballots(record.ballots, line),
            ..record
        },
    }
}
