// What a record keeps of the entries that were dropped from the front of its log.
#![tactic(auto)]

ghost use Rattle.std.specs.Prelude.{◌≡◌, ◌≤◌, length, take, drop};
ghost use Rattle.ballots.specs.Ballots.{words_with};
ghost use Rattle.kept.specs.Kept.{Roomy, kept_nothing, kept_after};

use summary::Summary;

// How many entries were dropped, what they have done, and how many of them each office had.
#[repr(C)]
#[derive(Clone, Copy)]
pub struct Kept {
    pub dropped: u64,
    pub summary: Summary,
    pub counts: [u64; 8],
}

impl Kept {
    // Of no entries, in a frame with these founding weights.
    pub fn nothing(founding: [u16; 8]) -> Kept
        ensures { result ≡ kept_nothing founding }
    {
        Kept {
            dropped: 0,
            summary: Summary::start(founding),
            counts: [0; 8],
        }
    }

    // With these entries dropped too. Public only for the crates above, which prove that there is room: a length is at most 2^63.
    pub fn after(self, words: &[u32]) -> Kept
        requires { Roomy self (length words.now) }
        ensures { result ≡ kept_after self words.now }
    {
        Kept {
            dropped: self.dropped + words.len() as u64,
            summary: self.summary.after(words),
            counts: counting::counts_after(self.counts, words),
        }
    }

    // Drops the first k entries of the held part of a log, and moves the rest of it to the front; words behind that keep their contents. Public
    // only for the crates above, which prove what it requires.
    pub fn drop_first(self, log: &mut [u32], held: usize, k: usize) -> Kept
        requires { Roomy self k × ((k ≤ held) × (held ≤ length log.old)) }
        ensures kept { result ≡ kept_after self (take k log.old) }
        ensures words { log.new ≡ words_with (drop k (take held log.old)) log.old }
    {
        if k == 0 {
            return self;
        }
        let kept = self.after(&log[..k]);
        log.copy_within(k..held, 0);
        kept
    }
}
