// One record of a message, read at a position by its layout alone: a log record, and the end.
#![tactic(auto, unfolding(crate::specs::Steps::log_at, crate::specs::Steps::entry_at, crate::specs::Steps::end_at, spelling::specs::Reading::record_here, spelling::specs::Reading::record_at, spelling::specs::Reading::end_ok, lists::specs::Tests::both, lists::specs::Tests::pick))]

ghost use Rattle.std.specs.Prelude.{◌≡◌, ◌+◌, ◌≤◌, length, drop};
ghost use Rattle.spelling.specs.Reading.{record_at};
ghost use Rattle.records.specs.Steps.{log_at, entry_at, end_at};

use numbers::Number;

// A log record, and the position after it.
#[derive(Clone, Copy)]
pub struct LogStep {
    pub value: u32,
    pub next: usize,
}

// The log record at a position with room for it.
fn record_at(s: &[u8], at: usize) -> LogStep
    requires { at + 6 ≤ length s.now }
    ensures { result ≡ record { value = record_at (drop at s.now); next = at + 6 } }
{
    LogStep {
        value: u32::read_at(s, at + 2),
        next: at + 6,
    }
}

// The log record at a position. Whether its value is an entry is the caller's to test. The room is tested by numbers, here and below: with a slice
// pattern behind `get` a take of 1024 entries took half as long again.
pub fn log_at(s: &[u8], at: usize) -> Option<LogStep>
    ensures { result ≡ log_at s.now at }
{
    if s.len() < 6 || at > s.len() - 6 || s[at] != 0x4C || s[at + 1] != 0x47 {
        return None;
    }
    Some(record_at(s, at))
}

// The log record at a position of a message that was read already: its value, without the tests of it.
pub fn entry_at(s: &[u8], at: usize) -> Option<LogStep>
    ensures { result ≡ entry_at s.now at }
{
    if s.len() < 6 || at > s.len() - 6 {
        return None;
    }
    Some(record_at(s, at))
}

// The end at a position, and nothing after it: the position behind it.
pub fn end_at(s: &[u8], at: usize) -> Option<usize>
    ensures { result ≡ end_at s.now at }
{
    let Some([0x45, 0x4E]) = s.get(at..) else {
        return None;
    };
    Some(at + 2)
}
