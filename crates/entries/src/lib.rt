// Entries as 32-bit words: the tests of a word, and walks over a slice of them.
#![tactic(auto)]

ghost use Rattle.std.specs.Prelude.{◌≡◌, leb};
ghost use Rattle.lists.specs.Tests.{all_b, pick};
ghost use Rattle.protocol.specs.Entry.{proper, is_entry};
ghost use Rattle.entries.specs.Carries.{is_coding, raised, no_carry};

// The lines of the frame; lines from here on are those of moves. And the codes.
pub const LINES: u32 = 64;

pub const CODES: u32 = 10000;

// n where it is below 256, else 256: a word has 8 bits for its office and 8 for its line.
fn offices(n: usize) -> u32
    ensures { result ≡ pick (leb n 256) n 256 }
{
    n.min(256) as u32
}

// Whether an entry of n offices may have this line and code: a code of a line, or a weight to move to an office.
pub fn proper(n: u32, line: u32, code: u32) -> bool
    ensures { result ≡ proper n line code }
{
    if line < LINES {
        return code < CODES;
    }
    (line - LINES < n) & ((1 <= code) & (code < CODES))
}

// Whether the word is the value of an entry for n offices: one that codes a line, or a move of weight.
pub fn is_entry(word: u32, n: usize) -> bool
    ensures { result ≡ is_entry n word }
{
    let m = offices(n);
    (word / 16777216 < m) & proper(m, word / 65536 % 256, word % 65536)
}

// The word's office, the upper two bits of its line and half its code, each raised so that a number past its limit carries into a bit
// that is else 0: the office's into bit 31, the code's into bit 15 (5000 + 27768 is 2^15); the line's two bits stand at bits 21 and 22 and
// must be 0 themselves. So it tells the entries that code a line from all other words, moves of weight among them. No branch, and words can
// be joined by `|` before the bits are looked at, so that a loop of it is several times as fast as one of `is_entry`.
pub fn raised(word: u32, n: usize) -> u32
    ensures { (result ≡ raised n word) × (no_carry result ≡ is_coding n word) }
{
    let fields = word / 16777216 * 8388608 + (word / 4194304 % 4 * 2097152 + word % 65536 / 2);
    fields + ((256 - offices(n)) * 8388608 + 27768)
}

// Whether no raised number carried, of one word or of several that were joined by `|`.
pub fn no_carry(bits: u32) -> bool
    ensures { result ≡ no_carry bits }
{
    (bits / 32768 % 2 == 0) & ((bits / 2097152 % 4 == 0) & (bits < 2147483648))
}

// Whether every word is the value of an entry for n offices that codes a line.
fn all_coding(words: &[u32], n: usize) -> bool
    ensures { result ≡ all_b (is_coding n) words.now }
{
    let mut bits: u32 = 0;
    for word in words {
        bits = bits | raised(*word, n);
    }
    no_carry(bits)
}

// Whether every word is the value of an entry for n offices. Most logs have no move of weight, and then the faster test sees it.
pub fn all_entries(words: &[u32], n: usize) -> bool
    ensures { result ≡ all_b (is_entry n) words.now }
{
    if all_coding(words, n) {
        return true;
    }
    let mut good = true;
    // The walk has no early end, so no `all`: it runs on vectors.
    for word in words {
        good = good & is_entry(*word, n);
    }
    good
}
