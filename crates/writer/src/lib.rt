// Writing the message of a record to a buffer. `Message` is public only for the crate above, which proves what `write` requires.
#![tactic(auto)]

ghost use Rattle.std.specs.Prelude.{◌≡◌, ℕ, ◌+◌, ◌*◌, ◌<◌, ◌≤◌, length, take};
ghost use Rattle.std.proofs.lemmas.List.Edits.{sets};
ghost use Rattle.ballots.specs.Ballots.{tail_of};
ghost use Rattle.spelling.specs.Spelling.{head_bytes, head_size, log_record, ballot_bytes, end_bytes};
ghost use Rattle.writer.specs.Written.{front_bytes, log_record-length, message_of, Writable, Writes};

use ballots::Ballot;
use head_places::head_size;
use put_numbers::{Item, put_run};

// The log's entries are written as log records.
struct LogRecord;

impl Item for LogRecord {
    type Of = u32;

    ghost SIZE = { 6 };

    const SIZE: usize = 6;

    ghost bytes = { log_record };

    ghost sized = { log_record-length };

    // The value goes first: its four stores then become one.
    fn put(out: &mut [u8], at: usize, value: u32) {
        u32::put(out, at + 2, value);
        out[at] = 0x4C;
        out[at + 1] = 0x47;
    }
}

// The ballot of an office from a position on, nothing where it is empty; the position after it.
fn put_ballot(out: &mut [u8], at: usize, o: usize, b: &Ballot) -> usize
    requires { (b.now.len ≤ 32) × ((o < 256) × (at + length (ballot_bytes o (tail_of b.now)) ≤ length out.old)) }
    ensures { (result ≡ at + length (ballot_bytes o (tail_of b.now))) × (out.new ≡ sets out.old at (ballot_bytes o (tail_of b.now))) }
{
    if b.len == 0 {
        return at;
    }
    out[at] = 0x42;
    out[at + 1] = 0x41;
    out[at + 2] = o as u8;
    out[at + 3] = b.len as u8;
    put_run::<u32>(out, at + 4, &b.cells[..b.len])
}

// The end, at a position.
fn put_end(out: &mut [u8], at: usize)
    requires { at + 2 ≤ length out.old }
    ensures { out.new ≡ sets out.old at end_bytes }
{
    out[at] = 0x45;
    out[at + 1] = 0x4E;
}

// How many bytes the ballot of an office takes.
fn ballot_size(b: &Ballot) -> usize
    requires { b.now.len ≤ 32 }
    ensures { ((o : ℕ) → result ≡ length (ballot_bytes o (tail_of b.now))) × (result ≤ 132) }
{
    if b.len == 0 { 0 } else { 4 + 4 * b.len }
}

// What a message says: its sender, the founding weights of n offices, how many entries are dropped, those that are held, and the ballots.
// No ghost field says that it is `Writable`: two contracts do, and the other two ask for less.
#[derive(Clone, Copy)]
pub struct Message<'a> {
    pub sender: usize,
    pub n: usize,
    pub weights: [u16; 8],
    pub dropped: u64,
    pub log: &'a [u32],
    pub ballots: &'a [Ballot; 8],
}

impl Message<'_> {
    // The head, at the start of the buffer; the position after it.
    fn put_head(&self, out: &mut [u8]) -> usize
        requires { (self.now.n ≤ 8) × ((self.now.sender < 256) × ((self.now.dropped + length self.now.log.now < 18446744073709551616)
            × (head_size self.now.n ≤ length out.old))) }
        ensures { (result ≡ head_size self.now.n) × (out.new ≡ sets out.old 0
            (head_bytes self.now.sender self.now.n (take self.now.n self.now.weights) (self.now.dropped + length self.now.log.now) self.now.dropped)) }
    {
        out[0] = 0x53;
        out[1] = 0x48;
        out[2] = self.sender as u8;
        out[3] = self.n as u8;
        let p = put_run::<u16>(out, 4, &self.weights[..self.n]);
        u64::put(out, p, self.dropped + self.log.len() as u64);
        u64::put(out, p + 8, self.dropped);
        p + 16
    }

    // The head and the log records, from the start of the buffer on; the position after them.
    fn put_front(&self, out: &mut [u8]) -> usize
        requires { (self.now.n ≤ 8) × ((self.now.sender < 256) × ((self.now.dropped + length self.now.log.now < 18446744073709551616)
            × (head_size self.now.n + 6 * length self.now.log.now ≤ length out.old))) }
        ensures { (result ≡ head_size self.now.n + 6 * length self.now.log.now) × (out.new ≡ sets out.old 0
            (front_bytes self.now.sender self.now.n self.now.weights self.now.dropped self.now.log.now (length self.now.log.now))) }
    {
        let p = self.put_head(out);
        put_run::<LogRecord>(out, p, self.log)
    }

    // How many bytes the message takes.
    fn size(&self) -> usize
        requires { Writable self.now.sender self.now.n self.now.dropped self.now.log.now self.now.ballots.now }
        ensures { result ≡ length (message_of self.now.sender self.now.n self.now.weights self.now.dropped self.now.log.now (length self.now.log.now) self.now.ballots.now) }
    {
        let ballots = self.ballots;
        let mut size = head_size(self.n) + 6 * self.log.len() + 2;
        for b in &ballots[..self.n] {
            size += ballot_size(b);
        }
        size
    }

    // Writes the message to the start of a buffer that has room for it, and answers its length. "Later bytes of the buffer keep their
    // contents." Without room there is no answer, and the buffer is as it was.
    pub fn write(&self, out: &mut [u8]) -> Option<usize>
        requires { Writable self.now.sender self.now.n self.now.dropped self.now.log.now self.now.ballots.now }
        ensures { Writes (message_of self.now.sender self.now.n self.now.weights self.now.dropped self.now.log.now (length self.now.log.now) self.now.ballots.now) out.old result out.new }
    {
        let size = self.size();
        if out.len() < size {
            return None;
        }
        let ballots = self.ballots;
        let mut p = self.put_front(out);
        for (o, b) in ballots[..self.n].iter().enumerate() {
            p = put_ballot(out, p, o, b);
        }
        put_end(out, p);
        Some(size)
    }
}
