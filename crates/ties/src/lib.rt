// Which of two entries is above the other: by two weights, and in a tie the one whose office has fewer settled entries, then the lower value.
#![tactic(auto)]

ghost use Rattle.std.specs.Prelude.{◌≡◌};
ghost use Rattle.protocol.specs.Entry.{office_of};
ghost use Rattle.protocol.specs.Counts.{count_of, quieter_by};
ghost use Rattle.protocol.specs.Vote.{above};

// How many settled entries the office of the entry has; an office of 8 or more has none.
fn count_for(counts: [u64; 8], entry: u32) -> u64
    ensures { result ≡ count_of counts (office_of entry) }
{
    counts.get(words::office_of(entry)).copied().unwrap_or(0)
}

// Whether a tie goes to the entry and not to the other: the office with fewer settled entries first, then the lower value.
#[tactic(auto, unfolding(protocol::specs::Counts::quieter_by))]
fn is_before(counts: [u64; 8], entry: u32, other: u32) -> bool
    ensures { result ≡ quieter_by counts entry other }
{
    let mine = count_for(counts, entry);
    let theirs = count_for(counts, other);
    mine < theirs || mine == theirs && entry < other
}

// Whether a is above b, or equal to it with the entry before the other: "T(e) > T(f) + U, or T(e) = T(f) + U" and the tie goes to e.
pub fn is_above(counts: [u64; 8], a: u32, b: u32, entry: u32, other: u32) -> bool
    ensures { result ≡ above (quieter_by counts) a b entry other }
{
    b < a || a == b && is_before(counts, entry, other)
}
