// Numbers in bytes, most significant byte first, written at a position. What is here is public only for the crates above, which prove the room
// that each requires.
#![tactic(auto)]

ghost use Rattle.std.specs.Prelude.{◌≡◌, ℕ, List, ◌+◌, ◌*◌, ◌≤◌, length};
ghost use Rattle.std.proofs.lemmas.List.Edits.{sets};
ghost use Rattle.numbers.specs.Numbers.{bytes16, bytes32, bytes64, bytes16-length, bytes32-length, bytes64-length, run};

// A kind of items, each written in as many bytes.
pub trait Item {
    type Of: Copy;

    ghost SIZE: { ℕ };

    const SIZE: usize;

    // the bytes of an item
    ghost bytes: { Self.Of → List ℕ };

    // Writes an item at a position.
    fn put(out: &mut [u8], at: usize, x: Self::Of)
        requires { at + SIZE ≤ length out.old }
        ensures { out.new ≡ sets out.old at (bytes x) };

    ghost sized: { (x : Self.Of) → length (bytes x) ≡ SIZE };
}

impl Item for u16 {
    type Of = u16;

    ghost SIZE = { 2 };

    const SIZE: usize = 2;

    ghost bytes = { bytes16 };

    ghost sized = { bytes16-length };

    fn put(out: &mut [u8], at: usize, x: u16) {
        out[at..at + 2].copy_from_slice(&x.to_be_bytes());
    }
}

impl Item for u32 {
    type Of = u32;

    ghost SIZE = { 4 };

    const SIZE: usize = 4;

    ghost bytes = { bytes32 };

    ghost sized = { bytes32-length };

    fn put(out: &mut [u8], at: usize, x: u32) {
        out[at..at + 4].copy_from_slice(&x.to_be_bytes());
    }
}

impl Item for u64 {
    type Of = u64;

    ghost SIZE = { 8 };

    const SIZE: usize = 8;

    ghost bytes = { bytes64 };

    ghost sized = { bytes64-length };

    fn put(out: &mut [u8], at: usize, x: u64) {
        out[at..at + 8].copy_from_slice(&x.to_be_bytes());
    }
}

// Writes the items one behind the other, from a position on; the position after them.
pub fn put_run<I: Item>(out: &mut [u8], at: usize, xs: &[I::Of]) -> usize
    requires { at + I.SIZE * length xs.now ≤ length out.old }
    ensures { (result ≡ at + I.SIZE * length xs.now) × (out.new ≡ sets out.old at (run I.bytes xs.now)) }
{
    let mut p = at;
    for x in xs {
        I::put(out, p, *x);
        p += I::SIZE;
    }
    p
}
