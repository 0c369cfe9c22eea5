// The rehearsal: lines of input in, lines of output out, over up to eight offices and four message slots.
#![tactic(auto)]

use rehearsal_answers::Answer;
use rehearsal_lines::Held;
use rehearsal_offices::Offices;

mod feeding;

pub use feeding::Fed;

// The offices, and the line that is held until its newline comes.
#[derive(Clone, Copy)]
pub struct Rehearsal {
    pub offices: Offices,
    pub held: Held,
}

impl Rehearsal {
    // Words of the eight logs; bytes of the four slots, of a piece of input and of the output, which has room for the answer to each byte.
    pub const LOGS: usize = rehearsal_offices::ALL_LOGS;

    pub const SLOTS: usize = rehearsal_slots::ALL_SLOTS;

    pub const CHUNK: usize = 8192;

    pub const OUTPUT: usize = Answer::SIZE * Rehearsal::CHUNK;
}
