// What is printed of the small ballot tables: a line for each, with the entries that elect settles, for the weights of an input.
#![tactic(auto)]

mod answers;
mod lines;

pub use answers::answer;
pub use lines::OUTPUT;
