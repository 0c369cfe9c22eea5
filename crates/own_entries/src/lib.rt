// What became of an office's own entries that were pending: its tail before a call in three parts, and what is told of them. A struct,
// definitions and laws, no code.
#![tactic(auto)]

// Of the own entries that were pending, how many settled, how many are pending still and how many are lost.
#[derive(Clone, Copy)]
pub struct Told {
    pub settled: usize,
    pub pending: usize,
    pub lost: usize,
}
