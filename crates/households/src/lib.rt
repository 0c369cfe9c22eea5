// Household records read strictly, and their weights summed by line.
#![tactic(auto)]

ghost use Rattle.std.specs.Prelude.{◌≡◌};
ghost use Rattle.households.specs.Pools.{pools_of};

use numbers::Number;

// Bytes of a household record.
const SIZE: usize = 7;

// The most household records.
const MOST: usize = 1000000;

// The lines of a frame: `entries::LINES`, said again since nothing else here is about entries.
const LINES: usize = 64;

// For each line whether some household has it, and the sum of the weights under it. Tried and slower: with an `Option` of a sum for each line the walk
// takes half as long again.
#[derive(Clone, Copy)]
pub struct Pools {
    pub met: [bool; 64],
    pub totals: [u64; 64],
}

// One pass over the bytes, up to the first record that is not of the layout; nothing where there is one. A mark is tested as one number.
pub fn pool(s: &[u8]) -> Option<Pools>
    ensures { result ≡ pools_of s.now }
{
    if s.len() % SIZE != 0 || s.len() / SIZE > MOST {
        return None;
    }
    let mut met = [false; 64];
    let mut totals = [0u64; 64];
    for household in s.chunks_exact(SIZE) {
        let line = usize::from(household[2]);
        if u16::read_at(household, 0) != 0x4852 || line >= LINES {
            return None;
        }
        met[line] = true;
        totals[line] = totals[line] + u64::from(u32::read_at(household, 3));
    }
    Some(Pools { met, totals })
}
