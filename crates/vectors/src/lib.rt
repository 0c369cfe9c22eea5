// The vectors of an office's versions, written to a buffer. What is here is public only for the crates above, which prove what each requires.
#![tactic(auto)]

ghost use Rattle.std.specs.Prelude.{◌≡◌, ◌+◌, ◌≤◌, take};
ghost use Rattle.protocol.specs.Counts.{counts_after};
ghost use Rattle.ballots.specs.Ballots.{tail_of};
ghost use Rattle.writer.specs.Written.{Writes};
ghost use Rattle.vectors.specs.Vectors.{Countable, EachAtMost, kept_count_limit, versions_bytes, versions_in};

use ballots::Ballot;
use put_numbers::put_run;

// The counts of a ballot's path: those of the settled log, and then its tail's.
pub fn path_counts(base: [u64; 8], b: &Ballot) -> [u64; 8]
    requires { (b.now.len ≤ 32) × EachAtMost (kept_count_limit + 1024) base }
    ensures { result ≡ counts_after base (tail_of b.now) }
{
    counting::counts_after(base, &b.cells[..b.len])
}

// The versions of an office: its settled log, and the paths of n ballots. `start` has the counts of the entries before the log.
#[derive(Clone, Copy)]
pub struct Versions<'a> {
    pub n: usize,
    pub start: [u64; 8],
    pub log: &'a [u32],
    pub ballots: &'a [Ballot],
}

impl Versions<'_> {
    // Writes the vectors of the settled log and of n paths to the start of a buffer that has room for them, and answers their length. Without
    // room there is no answer, and the buffer is as it was.
    pub fn write(&self, out: &mut [u8]) -> Option<usize>
        requires { Countable self.now.n self.now.start self.now.log.now self.now.ballots.now }
        ensures { Writes (versions_bytes (take self.now.n self.now.start) (versions_in self.now.n self.now.log.now self.now.ballots.now)) out.old result out.new }
    {
        let row = 8 * self.n;
        let size = row + row * self.n;
        if out.len() < size {
            return None;
        }
        let ballots = self.ballots;
        let base = counting::counts_after(self.start, self.log);
        let mut p = put_run::<u64>(out, 0, &base[..self.n]);
        for b in &ballots[..self.n] {
            let counts = path_counts(base, b);
            p = put_run::<u64>(out, p, &counts[..self.n]);
        }
        Some(size)
    }
}
