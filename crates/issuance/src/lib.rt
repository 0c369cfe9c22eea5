// Whether an issue may be, by what it is asked of: the offices, the line and the code, the lengths and the own ballot; and the own ballot with
// the entry. Public only for the crate above, which proves what the functions require.
#![tactic(auto)]

ghost use Rattle.std.specs.Prelude.{◌≡◌, ◌<◌, ◌≤◌};
ghost use Rattle.refusals.specs.Refusals.{number_in};
ghost use Rattle.protocol.specs.Entry.{value};
ghost use Rattle.protocol.specs.Counts.{count_in};
ghost use Rattle.protocol.specs.Issue.{refusal_at};
ghost use Rattle.protocol.specs.Limits.{length_limit};
ghost use Rattle.ballots.specs.Ballots.{tail_of, pushed};

use ballots::Ballot;
use refusals::Refusal;

// Whether office `own` of n may issue, on a sound record with this settled length, this length of the undropped part and this own ballot; or why
// not.
// The record's fields are handed over one by one, since its type is declared in a crate above.
pub fn allowed(
    n: usize,
    own: usize,
    line: u32,
    code: u32,
    settled: u64,
    held: usize,
    b: Ballot,
) -> Result<(), Refusal>
    requires { (1 ≤ n) × ((n ≤ 8) × ((own < 8) × ((settled ≤ length_limit) × ((held ≤ 1024) × (b.len ≤ 32))))) }
    ensures { number_in result ≡ refusal_at n line code settled held b.len (count_in own (tail_of b)) }
{
    if !entries::proper(n as u32, line, code) {
        return Err(Refusal::NoEntry);
    }
    if held + b.len == Ballot::PATH {
        return Err(Refusal::LogFull);
    }
    if settled + b.len as u64 == lengths::LIMIT {
        return Err(Refusal::LogFull);
    }
    let counts = counting::in_words(&b.cells[..b.len]);
    if counts[own] as usize >= Ballot::CELLS / n {
        return Err(Refusal::PartFull);
    }
    Ok(())
}

// The ballot with the entry of this office, line and code.
pub fn issued(b: Ballot, office: usize, line: u32, code: u32) -> Ballot
    requires { (office < 256) × (line < 256) × (code < 65536) }
    ensures { result ≡ pushed b (value office line code) }
{
    b.push(words::pack(office as u8, line as u8, code as u16))
}
