// A message's settled entries, where they stand, written to a log from its held length on.
#![tactic(auto)]

ghost use Rattle.std.specs.Prelude.{◌≡◌, ◌+◌, ◌*◌, ◌≤◌, length, drop};
ghost use Rattle.std.proofs.lemmas.List.Edits.{sets};
ghost use Rattle.numbers.specs.Numbers.{run_at};
ghost use Rattle.spelling.specs.Reading.{record_at};

use reader::Reader;

// The values of the log records from a position on, written to a part of the log.
fn fill(part: &mut [u32], rest: &[u8], from: usize)
    requires { from + 6 * length part.old ≤ length rest.now }
    ensures { part.new ≡ run_at 6 record_at (length part.old) (drop from rest.now) }
{
    let mut at = from;
    for word in part.iter_mut() {
        let step = Reader::new(rest, at).entry().unwrap();
        *word = step.value;
        at = step.next;
    }
}

// "Writes the missing entries from its own length onward": those of the message's k log records past the first that are held. Public only for
// the crate above, which proves what it requires.
pub fn extend(log: &mut [u32], held: usize, rest: &[u8], k: usize)
    requires { (held ≤ k) × ((k ≤ length log.old) × (6 * k ≤ length rest.now)) }
    ensures { log.new ≡ sets log.old held (drop held (run_at 6 record_at k rest.now)) }
{
    fill(&mut log[held..k], rest, 6 * held)
}
