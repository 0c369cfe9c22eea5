// The digest of numbers, of words and bytes, and of a record.
#![tactic(auto)]

ghost use Rattle.std.specs.Prelude.{◌≡◌, ℕ, List, ◌∷◌, length};
ghost use Rattle.trial_digests.specs.Digest.{digest_with, digest_from, all_numbers, one, ballot_numbers, kept_numbers, numbers_of};

use ballots::Ballot;
use frame::Record;
use kept::Kept;

// The digest with one more number. A sum of remainders doesn't pass 2^53.
pub fn with(h: u64, x: u64) -> u64
    ensures { result ≡ digest_with h x }
{
    (h % 4294967291 * 1000003 + x % 4294967291 + 1) % 4294967291
}

// What a digest takes in: `numbers` are those that it takes, in their order.
pub trait Digested {
    ghost numbers: { Self → List ℕ };

    // The digest with these numbers.
    fn onto(&self, h: u64) -> u64
        ensures { result ≡ digest_from h (numbers self.now) };
}

impl Digested for u8 {
    ghost numbers = { one };

    fn onto(&self, h: u64) -> u64 {
        with(h, u64::from(*self))
    }
}

impl Digested for u16 {
    ghost numbers = { one };

    fn onto(&self, h: u64) -> u64 {
        with(h, u64::from(*self))
    }
}

impl Digested for u32 {
    ghost numbers = { one };

    fn onto(&self, h: u64) -> u64 {
        with(h, u64::from(*self))
    }
}

impl Digested for u64 {
    ghost numbers = { one };

    fn onto(&self, h: u64) -> u64 {
        with(h, *self)
    }
}

// Its length field and its cells.
impl Digested for Ballot {
    ghost numbers = { ballot_numbers };

    fn onto(&self, h: u64) -> u64 {
        with_all(with(h, self.len as u64), &self.cells)
    }
}

// The digest with each of these.
pub fn with_all<T: Digested>(start: u64, xs: &[T]) -> u64
    ensures { result ≡ digest_from start (all_numbers T.numbers xs.now) }
{
    let mut h = start;
    for x in xs {
        h = x.onto(h);
    }
    h
}

// The digest with the length of these bytes and each of them.
pub fn with_bytes(start: u64, bytes: &[u8]) -> u64
    ensures { result ≡ digest_from start (length bytes.now ∷ bytes.now) }
{
    with_all(with(start, bytes.len() as u64), bytes)
}

// The digest with what is kept of the dropped entries.
fn with_kept(h: u64, kept: Kept) -> u64
    ensures { result ≡ digest_from h (kept_numbers kept) }
{
    let weighed = with_all(with(h, kept.dropped), &kept.summary.present);
    with_all(with_all(weighed, &kept.summary.codes), &kept.counts)
}

// The digest of the record.
pub fn of_record(record: Record) -> u64
    ensures { result ≡ digest_from 0 (numbers_of «record») }
{
    let head = with(with(0, record.n as u64), record.own as u64);
    let weighed = with_all(with_all(head, &record.weights), &record.summary.present);
    let coded = with_all(with(weighed, record.settled), &record.summary.codes);
    with_all(
        with_all(with_kept(coded, record.kept), &record.noted),
        &record.ballots,
    )
}
