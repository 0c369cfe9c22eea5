// The offices of a rehearsal, and founding them.
#![tactic(auto)]

use frame::Record;

mod founding;

pub use founding::{ALL_LOGS, Reply, found_offices, no_offices};

// How many offices there are, none before a done `f`; their records; the lengths of the messages in the slots.
// A count beside eight records: no heap, and the offices are `Copy`, which an `ArrayVec` is not.
#[derive(Clone, Copy)]
pub struct Offices {
    pub count: usize,
    pub records: [Record; 8],
    pub lengths: [usize; 4],
}
