// Request (viii): two settled logs compared from their ends, the office's own and a message's.
#![tactic(auto)]

ghost use Rattle.std.specs.Prelude.{◌≡◌, ◌*◌, ◌≤◌, length};
ghost use Rattle.numbers.specs.Numbers.{run_at};
ghost use Rattle.spelling.specs.Reading.{record_at};
ghost use Rattle.shared_places.specs.FromEnd.{compared_below, compared_of};

use reader::Reader;

// Whether a shared place differs, and how many places that needed: a number in both cases, so no `Option`; and to differ is no failure here, so no
// `Result`.
#[derive(Clone, Copy)]
pub struct Compared {
    pub differ: bool,
    pub places: usize,
}

// The first k words of a log and the values of the first k log records, from the last back to the first, each record read at its own position.
fn from_end(log: &[u32], rest: &[u8], k: usize) -> Compared
    requires { (k ≤ length log.now) × (6 * k ≤ length rest.now) }
    ensures { result ≡ compared_below k log.now (run_at 6 record_at k rest.now) }
{
    // j is the place of a word and of a record, and what is counted: with `enumerate` and `rev` it would be a number still.
    for j in (0..k).rev() {
        let step = Reader::new(rest, 6 * j).entry().unwrap();
        if log[j] != step.value {
            return Compared {
                differ: true,
                places: k - j,
            };
        }
    }
    Compared {
        differ: false,
        places: k,
    }
}

// `rest` and k go side by side, here and in the crates above: both are cut where the logs begin at different places, so a struct of the two would be
// made anew for each call.
// The settled log, and the values of a message's k log records. Public only for the crate above, which proves what it requires.
pub fn compare(log: &[u32], rest: &[u8], k: usize) -> Compared
    requires { 6 * k ≤ length rest.now }
    ensures { result ≡ compared_of log.now (run_at 6 record_at k rest.now) }
{
    from_end(log, rest, log.len().min(k))
}
