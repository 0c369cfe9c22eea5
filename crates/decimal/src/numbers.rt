// The numbers of a text with single spaces between them.
ghost use Rattle.std.specs.Prelude.{◌≡◌};
ghost use Rattle.decimal.specs.Numbers.{numbers_from};

use crate::number::number_of;

// Up to eight numbers: how many there are, and their values with zeros behind them. A count beside an array, and no `ArrayVec`:
// a founding takes all eight cells, zeros and all.
#[derive(Clone, Copy)]
pub struct Numbers {
    pub count: usize,
    pub cells: [u16; 8],
}

impl Numbers {
    // The most that one of them may be.
    pub const MOST: u64 = 65535;
}

// The numbers of the fields from `start` on, none where a field is no number or there are more than eight; there is no field past the text's end.
pub fn numbers_from(bytes: &[u8], start: usize) -> Option<Numbers>
    ensures { result ≡ numbers_from bytes.now start }
{
    let mut cells = [0u16; 8];
    let mut count: usize = 0;
    if start > bytes.len() {
        return Some(Numbers { count, cells });
    }
    for field in bytes[start..].split(|byte| *byte == b' ') {
        if count == 8 {
            return None;
        }
        // no `?`: by document 01 a parsed number is taken apart by `let .. else`
        let Some(value) = number_of(Numbers::MOST, field) else {
            return None;
        };
        cells[count] = value as u16;
        count += 1;
    }
    Some(Numbers { count, cells })
}
