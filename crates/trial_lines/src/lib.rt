// A line of a trial script, and its numbers written into lists. What a line may say is in docs/TRIALS.md.
#![tactic(auto)]

mod line;
mod low;
mod writing;

pub use line::Line;
pub use low::LowPart;
pub use writing::{put, room_for, weights};
