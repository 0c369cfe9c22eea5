// The message slots of a rehearsal, and the lengths of their messages after a send.
#![tactic(auto)]

ghost use Rattle.std.specs.Prelude.{◌≡◌};
ghost use Rattle.rehearsal_slots.specs.Pieces.{sent_lengths};

// The message slots, and the bytes of one: those of the longest message.
pub const SLOTS: usize = 4;

pub const SLOT: usize = 7046;

// The bytes of all slots, which lie one behind the other.
pub const ALL_SLOTS: usize = SLOTS * SLOT;

// The slots' lengths after a send: a refused one changes none, and neither does one into a slot that isn't there.
// The number is that of an answer that crosses to C, and there 0 is done.
pub fn sent_lengths(lengths: [usize; 4], m: usize, number: u32, size: usize) -> [usize; 4]
    ensures { result ≡ sent_lengths lengths m number size }
{
    let mut next = lengths;
    if number == 0 && m < SLOTS {
        next[m] = size;
    }
    next
}
