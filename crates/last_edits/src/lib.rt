// The last edit of a line in a list of words, as it is stored.
#![tactic(auto)]

ghost use Rattle.std.specs.Prelude.{◌≡◌, eqb};
ghost use Rattle.protocol.specs.Entry.{line_of};
ghost use Rattle.protocol.specs.Codes.{cell, of_cell};
ghost use Rattle.protocol.specs.Frames.{edit_after};

use settled_codes::cell_of;
use words::line_of;

// Whether the word is an entry for the line.
fn is_for(word: u32, line: u32) -> bool
    ensures { result ≡ eqb (line_of word) line }
{
    line_of(word) == line as usize
}

// The last edit of the line as it is stored (0 for no edit yet, else the code + 1), or the one before where no entry is for the line. The newest
// entry is the likeliest, so the walk is from the end. No `Option`: the one before is a code as a record has it for C.
pub fn last_edit(words: &[u32], line: u32, before: u32) -> u32
    ensures { result ≡ cell (edit_after line (of_cell before) words.now) }
{
    for word in words.iter().rev() {
        if is_for(*word, line) {
            return cell_of(*word);
        }
    }
    before
}
