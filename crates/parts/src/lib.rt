// Whether each office has at most its part of a tail.
#![tactic(auto)]

ghost use Rattle.std.specs.Prelude.{◌≡◌, ◌≤◌, take};
ghost use Rattle.protocol.specs.Fair.{fair};
ghost use Rattle.parts.specs.Bytes.{Holding, low_bytes};

use words::office_of;

// Whether each byte of the number is below 128.
fn low_bytes(bytes: u64) -> bool
    ensures { result ≡ low_bytes 8 bytes }
{
    bytes.to_le_bytes().iter().all(|byte| *byte < 128)
}

// Whether none of n offices has more than its part of the tail of this length in 32 cells: at once where the tail is no longer than a part.
// Each office's count is a byte of one number, raised so that it reaches 128 where it is past the part. The walk goes over all the cells,
// since one of fixed length is faster; the unused ones count for office 0, whose byte starts so much lower. Public only for the crates above,
// which prove what it requires.
pub fn fair(cells: [u32; 32], len: usize, n: usize) -> bool
    requires { (1 ≤ n) × ((n ≤ 8) × Holding n len cells) }
    ensures { result ≡ fair n (take len cells) }
{
    let part = 32 / n;
    if len <= part {
        return true;
    }
    let units: [u64; 8] = [
        1,
        256,
        65536,
        16777216,
        4294967296,
        1099511627776,
        281474976710656,
        72057594037927936,
    ];
    let mut counts: u64 = (127 - part as u64) * 72340172838076673 - (32 - len as u64);
    for cell in &cells {
        counts = counts + units[office_of(*cell)];
    }
    low_bytes(counts)
}
