// Why a take on a sound record is refused by what its message was read as: no message, other offices or weights, its sender, or the two logs.
#![tactic(auto)]

ghost use Rattle.std.specs.Prelude.{◌≡◌, ◌*◌, ◌≤◌, IfSome, length, option_copied};
ghost use Rattle.comparing.specs.Checking.{checked_in};
ghost use Rattle.acceptance.specs.Acceptance.{checked_of};

use comparing::Refused;
use readings::Reading;
use refusals::Refusal;

// How many places the comparison of the logs needs in a take on a sound record with these fields, or the refusal, in the order of the definition; m is
// what the message was read as, if it is one. Public only for the crate above, which proves what it requires.
// The record's fields are handed over one by one, since its type is declared in a crate above.
pub fn check(
    n: usize,
    own: usize,
    weights: [u16; 8],
    dropped: u64,
    log: &[u32],
    rest: &[u8],
    m: Option<&Reading>,
) -> Result<usize, Refused>
    requires { IfSome m (λ x. 6 * x.now.held ≤ length rest.now) }
    ensures { checked_in result ≡ checked_of n own weights dropped log.now rest.now (option_copied m.entry) }
{
    // Stays though `take` asks before, for the head's length: this function's contract has always said what it answers here.
    let Some(m) = m else {
        return Err(Refusal::NoMessage.into());
    };
    if m.n != n || m.weights != weights {
        return Err(Refusal::OtherOffices.into());
    }
    if m.sender == own {
        return Err(Refusal::OwnMessage.into());
    }
    comparing::check(dropped, log, m.dropped, rest, m.held)
}
