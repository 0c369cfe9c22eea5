// Founding.
ghost use Rattle.std.specs.Prelude.{◌≡◌};
ghost use Rattle.frame.specs.State.{fresh_record, zero_record};
ghost use Rattle.frame.specs.Founding.{found_of};
ghost use Rattle.refusals.specs.Refusals.{number_of};

use crate::Record;
use ballots::Ballot;
use kept::Kept;
use refusals::Refusal;
use summary::Summary;

// C has it as it lies here, so it holds the number and is no `Result`.
#[repr(C)]
#[derive(Clone, Copy)]
pub struct Founded {
    pub record: Record,
    pub number: u32,
}

// A record with an empty log and no ballots, which has dropped nothing and heard of no office.
fn fresh(n: usize, own: usize, weights: [u16; 8]) -> Record
    ensures { result ≡ fresh_record n own weights }
{
    Record {
        n,
        own,
        weights,
        kept: Kept::nothing(weights),
        noted: [0; 8],
        summary: Summary::start(weights),
        settled: 0,
        ballots: [Ballot::none(); 8],
    }
}

// The answer of a refused founding: all zero behind the number.
fn refused(why: Refusal) -> Founded
    ensures { result ≡ record { number = number_of why; «record» = zero_record } }
{
    Founded {
        record: fresh(0, 0, [0; 8]),
        number: why.number(),
    }
}

impl Record {
    // A fresh record: an empty log and no ballots; all zero where founding is refused. The log's words are not read.
    pub fn found(n: usize, own: usize, weights: [u16; 8], log: &[u32]) -> Founded
        ensures { result ≡ found_of n own weights log.now }
    {
        if log.len() < Record::LOG {
            return refused(Refusal::Unsound);
        }
        if !limits::head_fine(n, own, weights) {
            return refused(Refusal::Founding);
        }
        Founded {
            record: fresh(n, own, weights),
            number: 0,
        }
    }
}
