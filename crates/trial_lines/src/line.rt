// What a line of a script says: a letter, and up to 24 numbers behind it.
ghost use Rattle.std.specs.Prelude.{◌≡◌};
ghost use Rattle.trial_lines.specs.Line.{no_line, with_byte};
ghost use Rattle.trial_lines.specs.Writing.{said_from};

// The numbers stand from place 1 on, as many as there are spaces. `first` and `second` are those at places 1 and 2: the program copies them once the
// line is whole, and nothing here does. They stay fields, since `set` and `fits` of trial_records promise by them for every line.
// A count beside the numbers: no heap, and a line is `Copy`, which an `ArrayVec` is not.
// Which call a line makes is a `match` on its letter, where the call is made.
#[derive(Clone, Copy)]
pub struct Line {
    pub letter: u8,
    pub count: usize,
    pub first: u64,
    pub second: u64,
    pub numbers: [u64; 25],
}

impl Line {
    // Nothing was read yet.
    pub fn none() -> Line
        ensures { result ≡ no_line }
    {
        Line {
            letter: 0,
            count: 0,
            first: 0,
            second: 0,
            numbers: [0; 25],
        }
    }

    // The line with one more byte: a digit of the last number, a space before the next one, or the letter. Ten times a remainder by 1844674407370955162
    // is below 2^64, so the largest number of 64 bits is read whole; a larger one, or more than 24, is none that a script has.
    pub fn with(self, byte: u8) -> Line
        ensures { result ≡ with_byte self byte }
    {
        if byte > b'9' {
            return Line {
                letter: byte,
                ..self
            };
        }
        if byte < b'0' {
            return Line {
                count: self.count % 24 + 1,
                ..self
            };
        }
        let mut next = self;
        let number = &mut next.numbers[self.count % 25];
        *number = (*number % 1844674407370955162 * 10).wrapping_add(u64::from(byte - b'0'));
        next
    }

    // The line's numbers from this place on.
    pub fn said(&self, from: usize) -> &[u64]
        ensures { result.now ≡ said_from self.now from }
    {
        let said = &self.numbers[..self.count.min(24) + 1];
        &said[from.min(said.len())..]
    }
}
