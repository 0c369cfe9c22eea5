// The head of a message: whether its fields are within the limits, and what they say.
#![tactic(auto)]

ghost use Rattle.std.specs.Prelude.{◌≡◌, ◌+◌, ◌*◌, ◌≤◌, length, drop};
ghost use Rattle.numbers.specs.Numbers.{be16, run_at};
ghost use Rattle.message_heads.specs.Heads.{eight_weights, head_reading};

use ballots::Ballot;
use head_places::{dropped_place, head_size, length_place};
use numbers::{Number, read_run};
use readings::Reading;

// The k weights at a position, and zeros after them.
fn weights_at(s: &[u8], from: usize, k: usize) -> [u16; 8]
    requires { (k ≤ 8) × (from + 2 * k ≤ length s.now) }
    ensures { result ≡ eight_weights k (run_at 2 be16 k (drop from s.now)) }
{
    let mut weights = [0u16; 8];
    read_run(&mut weights[..k], s, from);
    weights
}

// What the head of a message says, with no ballots yet; nothing where its fields are not within the limits.
pub fn read_head(s: &[u8]) -> Option<Reading>
    ensures { result ≡ head_reading s.now }
{
    let [0x53, 0x48, sender, n, ..] = s else {
        return None;
    };
    let sender = usize::from(*sender);
    let n = usize::from(*n);
    if !limits::is_office(n, sender) || s.len() < head_size(n) {
        return None;
    }
    let settled = u64::read_at(s, length_place(n));
    let dropped = u64::read_at(s, dropped_place(n));
    let held = settled.checked_sub(dropped)? as usize;
    if held > Ballot::PATH {
        return None;
    }
    let weights = weights_at(s, 4, n);
    Some(Reading {
        sender,
        n,
        weights,
        dropped,
        held,
        head: head_size(n),
        ballots: [Ballot::none(); 8],
    })
}
