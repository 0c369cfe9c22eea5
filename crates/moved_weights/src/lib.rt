// The weights after the moves of a log.
#![tactic(auto)]

ghost use Rattle.std.specs.Prelude.{◌≡◌, length};
ghost use Rattle.lists.specs.Tests.{all_b};
ghost use Rattle.protocol.specs.Moves.{move, weights_after};
ghost use Rattle.moved_weights.specs.NoMove.{no_move};

use words::{code_of, line_of, office_of};

// Whether no word is a move: the upper two bits of every line are zero. Words are joined by `|` first, so that the walk runs on vectors.
fn no_moves(words: &[u32]) -> bool
    ensures { result ≡ all_b no_move words.now }
{
    let mut bits: u32 = 0;
    for word in words {
        bits = bits | *word;
    }
    bits / 4194304 % 4 == 0
}

// What the entry does to the weights: a move takes effect only if its office has that much, and the other office can hold it.
fn settle_move(weights: &mut [u16; 8], word: u32)
    requires { length weights.old ≡ 8 }
    ensures { weights.new ≡ move weights.old word }
{
    let line = line_of(word);
    let from = office_of(word);
    let code = code_of(word);
    if line < 64 {
        return;
    }
    let to = line - 64;
    if to >= 8 {
        return;
    }
    if from >= 8 {
        return;
    }
    if from == to {
        return;
    }
    let has = weights[from];
    let gets = weights[to];
    if has < code {
        return;
    }
    if gets > 65535 - code {
        return;
    }
    weights[from] = has - code;
    weights[to] = gets + code;
}

// The weights after one entry.
pub fn moved(weights: [u16; 8], word: u32) -> [u16; 8]
    ensures { result ≡ move weights word }
{
    let mut next = weights;
    settle_move(&mut next, word);
    next
}

// The weights after the entries of a log. Most logs have no moves.
pub fn weights_after(weights: [u16; 8], words: &[u32]) -> [u16; 8]
    ensures { result ≡ weights_after weights words.now }
{
    let mut present = weights;
    if no_moves(words) {
        return present;
    }
    for word in words {
        settle_move(&mut present, *word);
    }
    present
}
