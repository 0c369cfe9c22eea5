// What became of an office's pending entries: by its tail before a call, and by the log's words from there on and its tail after the call.
#![tactic(auto)]

ghost use Rattle.std.specs.Prelude.{◌≡◌, ◌++◌, ◌∷◌, [], ◌+◌, ◌≤◌, eqb, length};
ghost use Rattle.std.proofs.lemmas.List.Edits.{sets};
ghost use Rattle.protocol.specs.Entry.{office_of};
ghost use Rattle.own_entries.specs.Parts.{common, entries_of};
ghost use Rattle.own_entries.specs.Told.{telling_of, told_of, told_words};

use own_entries::Told;
use refusals::Refusal;

// How long the common beginning of two runs of words is.
fn alike(a: &[u32], b: &[u32]) -> usize
    ensures { (result ≡ length (common a.now b.now)) × (result ≤ length a.now) }
{
    a.iter().zip(b).take_while(|(x, y)| x == y).count()
}

// How long the beginning of a tail is that the log's words with the tail behind them have, where the log's words alone have `settled` of it.
fn kept(tail: &[u32], log: &[u32], settled: usize, after: &[u32]) -> usize
    requires { (settled ≡ length (common tail.now log.now)) × (settled ≤ length tail.now) }
    ensures { (result ≡ length (common tail.now (log.now ++ after.now))) × ((settled ≤ result) × (result ≤ length tail.now)) }
{
    if settled < log.len() {
        return settled;
    }
    settled + alike(&tail[settled..], after)
}

// Whether the word is an entry of the office.
fn is_of(word: u32, office: usize) -> bool
    ensures { result ≡ eqb (office_of word) office }
{
    words::office_of(word) == office
}

// How many entries are the office's.
fn count_of(office: usize, words: &[u32]) -> usize
    ensures { (result ≡ length (entries_of office words.now)) × (result ≤ length words.now) }
{
    let mut count: usize = 0;
    for word in words {
        count += usize::from(is_of(*word, office));
    }
    count
}

// Writes the word to a place of the buffer if it is an entry of the office; the place behind it.
fn put(out: &mut [u32], at: usize, word: u32, office: usize) -> usize
    requires { at + length (entries_of office (word ∷ [])) ≤ length out.old }
    ensures { (result ≡ at + length (entries_of office (word ∷ []))) × (out.new ≡ sets out.old at (entries_of office (word ∷ []))) }
{
    if is_of(word, office) {
        out[at] = word;
        return at + 1;
    }
    at
}

// Writes the entries that are the office's to the front of a buffer that has room for them.
fn write_of(office: usize, words: &[u32], out: &mut [u32])
    requires { length (entries_of office words.now) ≤ length out.old }
    ensures { out.new ≡ sets out.old 0 (entries_of office words.now) }
{
    let mut at: usize = 0;
    for word in words {
        at = put(out, at, *word, office);
    }
}

// What became of the office's entries in its tail before a call; `log` has the settled log's words after it from the tail's place on, `after` is the
// own tail after it. The entries that did not settle are written to `rest`; it may be too short.
pub fn tell(
    own: usize,
    tail: &[u32],
    log: &[u32],
    after: &[u32],
    rest: &mut [u32],
) -> Result<Told, Refusal>
    ensures told { telling_of result ≡ told_of own tail.now log.now (log.now ++ after.now) rest.old }
    ensures words { rest.new ≡ told_words own tail.now log.now rest.old }
{
    let first = alike(tail, log);
    let both = kept(tail, log, first, after);
    let settled = count_of(own, &tail[..first]);
    let pending = count_of(own, &tail[first..both]);
    let lost = count_of(own, &tail[both..]);
    if rest.len() < pending + lost {
        return Err(Refusal::OutputShort);
    }
    write_of(own, &tail[first..], rest);
    Ok(Told {
        settled,
        pending,
        lost,
    })
}
