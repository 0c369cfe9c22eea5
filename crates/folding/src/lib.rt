// Dropping the first part of the log, which every office is known to have: a call above `frame`.
#![tactic(auto)]

ghost use Rattle.std.specs.Prelude.{◌≡◌};
ghost use Rattle.folding.specs.Folding.{fold_of, fold_words};

use frame::Record;
use refusals::Refusal;

// C has it as it lies here, so it holds the number and is no `Result`.
#[repr(C)]
#[derive(Clone, Copy)]
pub struct Folded {
    pub record: Record,
    pub number: u32,
    pub count: u64,
}

// Fold drops the part of the log that the own office and every other one is known to have settled, and answers how many entries went.
pub fn fold(office: Record, log: &mut [u32]) -> Folded
    ensures { (result ≡ fold_of office log.old) × (log.new ≡ fold_words office log.old) }
{
    if !office.sound(&log[..]) {
        return Folded {
            record: office,
            number: Refusal::Unsound.number(),
            count: 0,
        };
    }
    let kept = office.kept;
    let noted = office.noted;
    let held = (office.settled - kept.dropped) as usize;
    let count = noting::known(office.own, office.settled, noted, office.n, kept.dropped);
    let after = kept.drop_first(log, held, count as usize);
    let mut next = office;
    next.kept = after;
    Folded {
        record: next,
        number: 0,
        count,
    }
}
