// A ballot by value: none, and one entry more. The test of eight is in `eight_ballots`.
#![tactic(auto)]

ghost use Rattle.std.specs.Prelude.{◌≡◌};
ghost use Rattle.ballots.specs.Ballots.{no_ballot, pushed};

// A tail of 0 to 32 entries in the first cells. Unused cells are zero; length 0 means none.
// C has it so, with no heap: a length beside 32 cells. No invariant says that it is at most 32: a record comes from C with any, and `sound` tests it.
#[repr(C)]
#[derive(Clone, Copy)]
pub struct Ballot {
    pub len: usize,
    pub cells: [u32; 32],
}

impl Ballot {
    pub const CELLS: usize = 32;

    // The longest path of a ballot: the length of an undropped log with a tail's.
    pub const PATH: usize = 1024;

    // No entries.
    pub fn none() -> Ballot
        ensures { result ≡ no_ballot }
    {
        Ballot {
            len: 0,
            cells: [0; 32],
        }
    }

    // One entry more; a full ballot is unchanged.
    pub fn push(self, word: u32) -> Ballot
        ensures { result ≡ pushed self word }
    {
        if self.len >= Ballot::CELLS {
            return self;
        }
        let mut next = self;
        next.cells[self.len] = word;
        next.len += 1;
        next
    }
}
