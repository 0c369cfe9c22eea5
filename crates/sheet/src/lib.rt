// The household sheet: household records turned into class totals by an office's settled frame. A library above `frame` and `both_frames`, which uses
// only what their calls promise.
#![tactic(auto)]

ghost use Rattle.std.specs.Prelude.{◌≡◌};
ghost use Rattle.refusals.specs.Refusals.{number_of};
ghost use Rattle.sheet.specs.Sheet.{no_sheet, sheet_of};

use frame::Record;
use refusals::Refusal;
use tabulation::{Row, Rows};

// The first `count` rows have the classes met, rising, and their totals; those past them are zero. `number` is the paper's, 0 when it is done.
// C has it as it lies here, so it holds the number and is no `Result`.
#[repr(C)]
#[derive(Clone, Copy)]
pub struct Sheet {
    pub number: u32,
    pub count: usize,
    pub rows: [Row; 64],
}

// An empty sheet.
fn refused(why: Refusal) -> Sheet
    ensures { result ≡ no_sheet (number_of why) }
{
    let Rows { count, rows } = tabulation::no_rows();
    Sheet {
        number: why.number(),
        count,
        rows,
    }
}

// The sheet of the households that the bytes say. Their weights are summed by line in one pass, and the sums then pooled by the lines' codes.
pub fn household_sheet(office: Record, log: &[u32], bytes: &[u8]) -> Sheet
    ensures { result ≡ sheet_of office log.now bytes.now }
{
    let lines = both_frames::all_lines(office, log);
    // a number and no `Result`: the answer is one that crosses to C, and there 0 is done
    if lines.number != 0 {
        return refused(Refusal::Unsound);
    }
    let Some(pools) = households::pool(bytes) else {
        return refused(Refusal::NoHouseholds);
    };
    let Rows { count, rows } = tabulation::tabulate(lines.codes, pools.met, pools.totals);
    Sheet {
        number: 0,
        count,
        rows,
    }
}
