// What a message says, as the engine holds it.
#![tactic(auto)]

use ballots::Ballot;

// What a message says. Its undropped entries, as many as are held, stay in it, six bytes each after the head.
// n beside arrays of eight, as a record has them; no heap.
#[derive(Clone, Copy)]
pub struct Reading {
    pub sender: usize,
    pub n: usize,
    pub weights: [u16; 8],
    pub dropped: u64,
    pub held: usize,
    pub head: usize,
    pub ballots: [Ballot; 8],
}
