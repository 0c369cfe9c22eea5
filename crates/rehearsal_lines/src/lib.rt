// The line that is held until its newline comes.
#![tactic(auto)]

ghost use Rattle.std.specs.Prelude.{◌≡◌, ◌++◌, eqb, length};
ghost use Rattle.rehearsal_lines.specs.Held.{line_held, held_of, nothing};

// A line as far as it was read, or its first 129 bytes: one of 129 bytes is too long, as any longer one is. An `ArrayVec` in its place would be no
// plainer: the rehearsal that holds the line is `Copy`, which an `ArrayVec` is not.
#[derive(Clone, Copy)]
pub struct Held {
    pub length: usize,
    pub bytes: [u8; Held::SIZE],
}

impl Held {
    // Bytes that are held at most.
    pub const SIZE: usize = 129;

    // Nothing is held yet.
    pub fn none() -> Held
        ensures { result ≡ nothing }
    {
        Held {
            length: 0,
            bytes: [0; Held::SIZE],
        }
    }

    // Whether no byte is held.
    pub fn is_none(self) -> bool
        ensures { result ≡ eqb (length (line_held self)) 0 }
    {
        self.length == 0
    }

    // The same where the cells past the line are zero.
    fn with_behind(self, more: &[u8]) -> Held
        requires { self ≡ held_of (line_held self) }
        ensures { result ≡ held_of (line_held self ++ more.now) }
    {
        let mut bytes = self.bytes;
        let start = self.length.min(Held::SIZE);
        let length = start + more.len().min(Held::SIZE - start);
        bytes[start..length].copy_from_slice(&more[..length - start]);
        Held { length, bytes }
    }

    // The line with more bytes behind it. The cells past it are zero, whatever they were.
    pub fn with(self, more: &[u8]) -> Held
        ensures { result ≡ held_of (line_held self ++ more.now) }
    {
        let size = self.length.min(Held::SIZE);
        let line = Held::none().with_behind(&self.bytes[..size]);
        line.with_behind(more)
    }
}
