// Numbers in bytes, most significant byte first, read at a position. What is here is public only for the crates above, which prove the room that
// each requires.
#![tactic(auto)]

ghost use Rattle.std.specs.Prelude.{◌≡◌, ℕ, List, ◌+◌, ◌*◌, ◌≤◌, length, drop};
ghost use Rattle.numbers.specs.Numbers.{be16, be32, be64, run_at};

// A number that stands in so many bytes.
pub trait Number: Copy {
    ghost SIZE: { ℕ };

    const SIZE: usize;

    // the number that the first bytes spell
    ghost number: { List ℕ → Self };

    // The number in the bytes at a position.
    fn read_at(s: &[u8], at: usize) -> Self
        requires { at + SIZE ≤ length s.now }
        ensures { result ≡ number (drop at s.now) };
}

impl Number for u16 {
    ghost SIZE = { 2 };

    const SIZE: usize = 2;

    ghost number = { be16 };

    fn read_at(s: &[u8], at: usize) -> u16 {
        u16::from_be_bytes([s[at], s[at + 1]])
    }
}

impl Number for u32 {
    ghost SIZE = { 4 };

    const SIZE: usize = 4;

    ghost number = { be32 };

    fn read_at(s: &[u8], at: usize) -> u32 {
        u32::from_be_bytes([s[at], s[at + 1], s[at + 2], s[at + 3]])
    }
}

impl Number for u64 {
    ghost SIZE = { 8 };

    const SIZE: usize = 8;

    ghost number = { be64 };

    fn read_at(s: &[u8], at: usize) -> u64 {
        u64::from_be_bytes([
            s[at],
            s[at + 1],
            s[at + 2],
            s[at + 3],
            s[at + 4],
            s[at + 5],
            s[at + 6],
            s[at + 7],
        ])
    }
}

// Fills the cells with numbers read one behind the other, from a position on.
pub fn read_run<N: Number>(cells: &mut [N], s: &[u8], from: usize)
    requires { from + N.SIZE * length cells.old ≤ length s.now }
    ensures { cells.new ≡ run_at N.SIZE N.number (length cells.old) (drop from s.now) }
{
    let mut at = from;
    // The position is counted, with no `chunks_exact`: the trait doesn't say that SIZE is not 0.
    for cell in cells {
        *cell = N::read_at(s, at);
        at += N::SIZE;
    }
}
