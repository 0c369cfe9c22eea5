// The last edit of each of the 64 lines, as it is stored: after the entries of a log.
#![tactic(auto)]

ghost use Rattle.std.specs.Prelude.{◌≡◌, ◌++◌, Some, replicate, take};
ghost use Rattle.protocol.specs.Entry.{code_of};
ghost use Rattle.protocol.specs.Codes.{cell, codes_after};

use words::line_of;

// What is stored for the entry's line: its code + 1, since 0 is no edit yet.
pub fn cell_of(word: u32) -> u32
    ensures { result ≡ cell (Some (code_of word)) }
{
    word % 65536 + 1
}

// The codes with a cell for every number that a word's line can be, and back.
fn widened(codes: [u32; 64]) -> [u32; 256]
    ensures { result ≡ codes ++ replicate 192 0 }
{
    let mut wide: [u32; 256] = [0; 256];
    wide[..64].copy_from_slice(&codes);
    wide
}

fn narrowed(wide: [u32; 256]) -> [u32; 64]
    ensures { result ≡ take 64 wide }
{
    let mut codes: [u32; 64] = [0; 64];
    codes.copy_from_slice(&wide[..64]);
    codes
}

// The codes after the entries of a log. A move is stored past the 64 cells, so no word is tested: a test of each would take as long again.
pub fn codes_after(codes: [u32; 64], words: &[u32]) -> [u32; 64]
    ensures { result ≡ codes_after codes words.now }
{
    if words.is_empty() {
        return codes;
    }
    let mut wide = widened(codes);
    for word in words {
        wide[line_of(*word)] = cell_of(*word);
    }
    narrowed(wide)
}
