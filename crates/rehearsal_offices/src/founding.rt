// Founding all offices.
ghost use Rattle.std.specs.Prelude.{◌≡◌, ◌<◌, length};
ghost use Rattle.rehearsal_offices.specs.Founding.{fresh_at, fresh_from, found_offices};
ghost use Rattle.rehearsal_offices.specs.World.{no_offices};

use crate::Offices;
use frame::Record;
use rehearsal_answers::Answer;
use rehearsal_replies::says_one;

// The words of the eight logs, which lie one behind the other.
pub const ALL_LOGS: usize = Record::OFFICES * Record::LOG;

// The offices after a founding, done or refused, and its answer.
#[derive(Clone, Copy)]
pub struct Reply {
    pub offices: Offices,
    pub answer: Answer,
}

// What Found gives at office k.
fn fresh_at(n: usize, weights: [u16; 8], logs: &[u32], k: usize) -> Record
    requires { (k < 8) × (length logs.now ≡ 8192) }
    ensures { result ≡ fresh_at n weights logs.now k }
{
    let from = k * Record::LOG;
    let to = from + Record::LOG;
    Record::found(n, k, weights, &logs[from..to]).record
}

// What Found gives at each of the eight. No `array::from_fn`: tried, and the proof that the array is the list of these records did not close.
fn fresh_all(n: usize, weights: [u16; 8], logs: &[u32], records: [Record; 8]) -> [Record; 8]
    requires { length logs.now ≡ 8192 }
    ensures { result ≡ fresh_from n weights logs.now 8 0 }
{
    let mut fresh = records;
    for (k, record) in fresh.iter_mut().enumerate() {
        *record = fresh_at(n, weights, logs, k);
    }
    fresh
}

// No office, and empty slots. The records are what a refused founding answers.
pub fn no_offices() -> Offices
    ensures { result ≡ no_offices }
{
    let refused = Record::found(0, 0, [0; 8], &[0; 1]);
    Offices {
        count: 0,
        records: [refused.record; 8],
        lengths: [0; 4],
    }
}

// A founding of n offices; where it is refused, all stays as it was.
pub fn found_offices(offices: Offices, n: usize, weights: [u16; 8], logs: &[u32; ALL_LOGS]) -> Reply
    ensures { result ≡ found_offices offices n weights logs.now }
{
    let first = Record::found(n, 0, weights, &logs[..Record::LOG]);
    let answer = says_one(b'f', first.number);
    // a number and no `Result`: the answer is one that crosses to C, and there 0 is done
    if first.number != 0 {
        return Reply { offices, answer };
    }
    Reply {
        offices: Offices {
            count: n,
            records: fresh_all(n, weights, logs, offices.records),
            lengths: [0; 4],
        },
        answer,
    }
}
