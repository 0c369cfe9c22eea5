// The settled part of the lent log that is not dropped: a call above `frame`.
#![tactic(auto)]

ghost use Rattle.std.specs.Prelude.{◌≡◌};
ghost use Rattle.settling.specs.Settling.{settled_of, settled_number};

use frame::Record;
use refusals::Refusal;

// The undropped entries in the caller's log, with no copy. No `Result`: by document 01 the number always goes to a lent cell, and the part is empty
// where the call is refused.
pub fn settled<'a>(office: Record, log: &'a [u32], number: &mut u32) -> &'a [u32]
    ensures { (result.now ≡ settled_of office log.now) × (number.new ≡ settled_number office log.now) }
{
    if !office.sound(log) {
        *number = Refusal::Unsound.number();
        return &log[..0];
    }
    *number = 0;
    let held = (office.settled - office.kept.dropped) as usize;
    &log[..held]
}
