// Issuing an entry: a call above `frame`.
#![tactic(auto)]

ghost use Rattle.std.specs.Prelude.{◌≡◌, ◌<◌};
ghost use Rattle.issuing.specs.Issuing.{with_own, issue_of};

use ballots::Ballot;
use frame::Record;
use refusals::Refusal;

// C has it as it lies here, so it holds the number and is no `Result`.
#[repr(C)]
#[derive(Clone, Copy)]
pub struct Issued {
    pub record: Record,
    pub number: u32,
}

// The record with another own ballot.
fn with_own(office: Record, b: Ballot) -> Record
    requires { office.own < 8 }
    ensures { result ≡ with_own office b }
{
    let own = office.own;
    let mut next = office;
    next.ballots[own] = b;
    next
}

// Issue (line, code): the entry (own office, line, code) is appended to the own ballot.
pub fn issue(office: Record, log: &[u32], line: u32, code: u32) -> Issued
    ensures { result ≡ issue_of office log.now line code }
{
    if !office.sound(log) {
        return Issued {
            record: office,
            number: Refusal::Unsound.number(),
        };
    }
    let own = office.own;
    let b = office.ballots[own];
    let held = (office.settled - office.kept.dropped) as usize;
    match issuance::allowed(office.n, own, line, code, office.settled, held, b) {
        Ok(()) => Issued {
            record: with_own(office, issuance::issued(b, own, line, code)),
            number: 0,
        },
        Err(refusal) => Issued {
            record: office,
            number: refusal.number(),
        },
    }
}
