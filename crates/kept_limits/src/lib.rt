// Whether what a record keeps of dropped entries is within its limits.
#![tactic(auto)]

ghost use Rattle.std.specs.Prelude.{ℕ, ◌≡◌, eqb, leb};
ghost use Rattle.lists.specs.Tests.{all_b};
ghost use Rattle.protocol.specs.Limits.{total};
ghost use Rattle.kept.specs.Kept.{kept_fine};

use kept::Kept;

// Whether the counts add up to the dropped count: each is taken from what is left of it, since their sum may be past any number of 64 bits.
fn add_up(counts: [u64; 8], dropped: u64) -> bool
    ensures { result ≡ eqb (total counts) dropped }
{
    let mut left = dropped;
    for count in &counts {
        if *count > left {
            return false;
        }
        left -= *count;
    }
    left == 0
}

// Whether each number that is stored, 0 for no code and else the code + 1, is at most this; with 0, whether no code is kept. Every line is looked at,
// so that the walk runs on vectors.
fn codes_fine(codes: [u32; 64], most: u32) -> bool
    ensures { result ≡ all_b (λ (code : ℕ). leb code most) codes }
{
    let mut good = true;
    for code in &codes {
        good = good & (*code <= most);
    }
    good
}

// Whether a sound record of n offices with these founding weights may keep this. With nothing dropped it is what such a record starts with.
pub fn fine(kept: Kept, n: usize, founding: [u16; 8]) -> bool
    ensures { result ≡ kept_fine n founding kept }
{
    // The counts by themselves: a walk over the field has the compiler copy all that is kept.
    let counts = kept.counts;
    if !add_up(counts, kept.dropped) {
        return false;
    }
    if !counts.iter().skip(n).all(|count| *count == 0) {
        return false;
    }
    if !limits::zero_from(kept.summary.present, n) {
        return false;
    }
    if kept.dropped == 0 {
        // By the fields: with a second `==` of two summaries, beside the one in `soundness`, the compiler calls it and copies both: sound is slower.
        return kept.summary.present == founding && codes_fine(kept.summary.codes, 0);
    }
    if limits::total(kept.summary.present) != limits::total(founding) {
        return false;
    }
    codes_fine(kept.summary.codes, entries::CODES)
}
