// How many entries each office has: in a settled log, by which ties are decided, from counts that stood before it; and in a tail.
#![tactic(auto)]

ghost use Rattle.std.specs.Prelude.{◌≡◌, cond, ◌<◌, ◌≤◌, eqb, length};
ghost use Rattle.protocol.specs.Entry.{office_of};
ghost use Rattle.protocol.specs.Counts.{no_counts, count_of, counted, counts_after};
ghost use Rattle.counting.specs.Room.{Room, MoreRoom};

// 1 for an entry of the office.
fn one_of(word: u32, office: u32) -> u32
    ensures { (result ≡ cond (eqb (office_of word) office) 1 0) × (result ≤ 1) }
{
    u32::from(word / 16777216 == office)
}

// The counts after one entry more: each office's is looked at, without a branch, so that the walk over words below runs on vectors.
fn one_more(counts: [u32; 8], word: u32) -> [u32; 8]
    requires { MoreRoom counts }
    ensures { result ≡ counted counts word }
{
    let mut next = counts;
    for (k, count) in next.iter_mut().enumerate() {
        *count += one_of(word, k as u32);
    }
    next
}

// How many entries each office has in a log or a tail: one walk, in 32 bits on more words at once. An office of 8 or more has none. Public only
// for the crates above, which prove what it requires.
pub fn in_words(words: &[u32]) -> [u32; 8]
    requires { length words.now < 4294967296 }
    ensures { result ≡ counts_after (no_counts 8) words.now }
{
    let mut cells: [u32; 8] = [0; 8];
    for word in words {
        let next = one_more(cells, *word);
        cells = next;
    }
    cells
}

// The counts after the entries of a log. Public only for the crates above, which prove that the counts have room: a log has at most 1024 entries,
// and a count is at most 2^63.
pub fn counts_after(start: [u64; 8], words: &[u32]) -> [u64; 8]
    requires { Room start (length words.now) }
    ensures { result ≡ counts_after start words.now }
{
    let more = in_words(words);
    let mut cells = start;
    for (k, count) in cells.iter_mut().enumerate() {
        *count += u64::from(more[k]);
    }
    cells
}

// One entry more; an office of 8 or more has no count. The counts change where they stand: handed back by value they would be copied at every
// step. Public only for the crates above, which prove that the count has room: it is at most the length of a log.
pub fn count(counts: &mut [u64; 8], word: u32)
    requires { (length counts.old ≡ 8) × (count_of counts.old (office_of word) < 18446744073709551615) }
    ensures { counts.new ≡ counted counts.old word }
{
    let office = words::office_of(word);
    if office < 8 {
        counts[office] += 1;
    }
}
