// Numbers of a line, written into a list.
ghost use Rattle.std.specs.Prelude.{◌≡◌, length};
ghost use Rattle.trial_lines.specs.Writing.{room_for, put_into, weights_from};

use crate::line::Line;
use crate::low::LowPart;

// A line, from which of its numbers on, how often and where: two functions take them, and `put` hands them on.
// Where the line's numbers from place `from` on end, `times` times over, from place `at` of a list on, if they have room there.
pub fn room_for(line: Line, from: usize, times: u64, at: u64, room: usize) -> Option<usize>
    ensures { result ≡ room_for line from times at room }
{
    let each = line.said(from).len() as u64;
    let end = times.checked_mul(each)?.checked_add(at)?;
    if each == 0 || end > room as u64 {
        return None;
    }
    Some(end as usize)
}

// Writes the low parts of the line's numbers from place `from` on, `times` times over, from place `at` of a list on, and says where they end. Where
// there is no room for them it writes nothing.
pub fn put<T: LowPart>(line: Line, from: usize, times: u64, at: u64, to: &mut [T]) -> Option<usize>
    ensures { (result ≡ room_for line from times at (length to.old)) × (to.new ≡ put_into T.low line from times at to.old) }
{
    let end = room_for(line, from, times, at, to.len())?;
    let said = line.said(from);
    for (i, x) in to[at as usize..end].iter_mut().enumerate() {
        let place = i % said.len();
        *x = T::low_part(said[place]);
    }
    Some(end)
}

// Eight numbers of the line from this place on, as weights: the low 16 bits of each. Past place 17, where fewer are left, the last eight.
pub fn weights(line: Line, from: usize) -> [u16; 8]
    ensures { result ≡ weights_from line from }
{
    let start = from.min(17);
    let mut weights = [0; 8];
    for (i, weight) in weights.iter_mut().enumerate() {
        *weight = u16::low_part(line.numbers[start + i]);
    }
    weights
}
