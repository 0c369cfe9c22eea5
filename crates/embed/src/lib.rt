// The engine's calls as C functions, for a service to link: the record by value, log and buffers lent. Each answers what the call that it hands on
// answers, by that call's equation; settled, the two frames of a line and the forecast cross as `Part`, and as `Framed` and `Foreseen` of `crossing`.
// Functions of one shape stand side by side here, since C calls each by its name.
// include/joukerpan.h declares them for C.
#![tactic(auto)]

ghost use Rattle.std.specs.Prelude.{◌≡◌};
ghost use Rattle.frame.specs.Soundness.{sound_b};
ghost use Rattle.frame.specs.Founding.{found_of};
ghost use Rattle.issuing.specs.Issuing.{issue_of};
ghost use Rattle.both_frames.specs.Frames.{settled_frame_of, tentative_frame_of, all_lines_of};
ghost use Rattle.both_frames.specs.Framed.{framed_of};
ghost use Rattle.frame.specs.Electing.{elect_of, elect_words};
ghost use Rattle.folding.specs.Folding.{fold_of, fold_words};
ghost use Rattle.sending.specs.Sending.{send_of, send_bytes};
ghost use Rattle.taking.specs.Taking.{take_of, take_words};
ghost use Rattle.sheet.specs.Sheet.{sheet_of};
ghost use Rattle.earlier.specs.Earlier.{earlier_of};
ghost use Rattle.archive.specs.Writing.{write_of, write_bytes};
ghost use Rattle.archive.specs.Comparison.{compare_of};
ghost use Rattle.forecast.specs.Forecast.{forecast_of};
ghost use Rattle.outcome.specs.Outcome.{report_of, report_words};
ghost use Rattle.standing.specs.Standing.{standing_of};
ghost use Rattle.embed.specs.Part.{part_of};
ghost use Rattle.crossing.specs.Framed.{across};
ghost use Rattle.crossing.specs.Foreseen.{foreseen_of};

use archive::{Compared, Written};
use both_frames::Lines;
use crossing::{Foreseen, Framed, across, foreseen_of};
use earlier::Earlier;
use folding::Folded;
use frame::Record;
use frame::electing::Elected;
use frame::founding::Founded;
use issuing::Issued;
use outcome::Outcome;
use refusals::Refusal;
use sending::Sent;
use sheet::Sheet;
use standing::Standing;
use taking::Taken;

// Eight weights. An array by itself cannot cross to C; a struct that holds one can.
#[repr(C)]
#[derive(Clone, Copy)]
pub struct Weights {
    pub of: [u16; 8],
}

// What Settled answers across C: a part of the log cannot cross, so its length does. The part is the front of the caller's own log.
// C has it as it lies here, so it holds the number and is no `Result`.
#[repr(C)]
#[derive(Clone, Copy)]
pub struct Part {
    pub number: u32,
    pub length: usize,
}

// A frame's answer, across C.
fn framed(answer: Result<Option<u32>, Refusal>) -> Framed
    ensures { result ≡ across (framed_of answer) }
{
    match answer {
        Ok(edit) => across(0, edit),
        Err(refusal) => across(refusal.number(), None),
    }
}

// A forecast's answer, across C.
#[tactic(auto, unfolding(crossing::specs::Foreseen::foreseen_of))]
fn foreseen(answer: Result<Option<u32>, Refusal>) -> Foreseen
    ensures { result ≡ foreseen_of answer }
{
    match answer {
        Ok(winner) => foreseen_of(0, winner),
        Err(refusal) => foreseen_of(refusal.number(), None),
    }
}

// A fresh record: an empty log and no ballots.
#[unsafe(no_mangle)]
pub extern "C" fn joukerpan_found(n: usize, own: usize, weights: Weights, log: &[u32]) -> Founded
    ensures { result ≡ found_of n own weights.of log.now }
{
    let of = weights.of;
    Record::found(n, own, of, log)
}

// Whether the record with its log is sound.
#[unsafe(no_mangle)]
pub extern "C" fn joukerpan_sound(office: Record, log: &[u32]) -> bool
    ensures { result ≡ sound_b office log.now }
{
    office.sound(log)
}

// The entry is appended to the own ballot.
#[unsafe(no_mangle)]
pub extern "C" fn joukerpan_issue(office: Record, log: &[u32], line: u32, code: u32) -> Issued
    ensures { result ≡ issue_of office log.now line code }
{
    issuing::issue(office, log, line, code)
}

// How many words at the front of the log are settled entries that are not dropped.
#[unsafe(no_mangle)]
pub extern "C" fn joukerpan_settled(office: Record, log: &[u32]) -> Part
    ensures { result ≡ part_of office log.now }
{
    let mut number: u32 = 0;
    let part = settling::settled(office, log, &mut number);
    let length = part.len();
    Part { number, length }
}

// The settled codes of all 64 lines, as they are stored: 0 for no edit yet, else the code + 1.
#[unsafe(no_mangle)]
pub extern "C" fn joukerpan_all_lines(office: Record, log: &[u32]) -> Lines
    ensures { result ≡ all_lines_of office log.now }
{
    both_frames::all_lines(office, log)
}

// The code of the last entry for the line in the settled log.
#[unsafe(no_mangle)]
pub extern "C" fn joukerpan_settled_frame(office: Record, log: &[u32], line: u32) -> Framed
    ensures { result ≡ across (settled_frame_of office log.now line) }
{
    framed(both_frames::settled_frame(office, log, line))
}

// The code of the last entry for the line in the own path.
#[unsafe(no_mangle)]
pub extern "C" fn joukerpan_tentative_frame(office: Record, log: &[u32], line: u32) -> Framed
    ensures { result ≡ across (tentative_frame_of office log.now line) }
{
    framed(both_frames::tentative_frame(office, log, line))
}

// The last edit of each line named in the first p settled entries, dropped ones included, as it is stored, and how many words of the log were read.
#[unsafe(no_mangle)]
pub extern "C" fn joukerpan_frame_at(office: Record, log: &[u32], p: u64, lines: &[u32]) -> Earlier
    ensures { result ≡ earlier_of office log.now p lines.now }
{
    earlier::frame_at(office, log, p, lines)
}

// Election steps until no entry wins.
#[unsafe(no_mangle)]
pub extern "C" fn joukerpan_elect(office: Record, log: &mut [u32]) -> Elected
    ensures { (result ≡ elect_of office log.old) × (log.new ≡ elect_words office log.old) }
{
    office.elect(log)
}

// Drops the part of the log that every office is known to have settled.
#[unsafe(no_mangle)]
pub extern "C" fn joukerpan_fold(office: Record, log: &mut [u32]) -> Folded
    ensures { (result ≡ fold_of office log.old) × (log.new ≡ fold_words office log.old) }
{
    folding::fold(office, log)
}

// The record's message, written to the front of the output.
#[unsafe(no_mangle)]
pub extern "C" fn joukerpan_send(office: Record, log: &[u32], output: &mut [u8]) -> Sent
    ensures answer { result ≡ send_of office log.now output.old }
    ensures output { output.new ≡ send_bytes office log.now output.old }
{
    sending::send(office, log, output)
}

// Another office's message, worked into the record and its log.
#[unsafe(no_mangle)]
pub extern "C" fn joukerpan_take(office: Record, log: &mut [u32], message: &[u8]) -> Taken
    ensures answer { result ≡ take_of office log.old message.now }
    ensures words { log.new ≡ take_words office log.old message.now }
{
    taking::take(office, log, message)
}

// What became of the own entries that were pending before a take, elect or fold; those that are not settled are written to the front of `rest`.
#[unsafe(no_mangle)]
pub extern "C" fn joukerpan_outcome(
    before: Record,
    after: Record,
    log: &[u32],
    rest: &mut [u32],
) -> Outcome
    ensures answer { result ≡ report_of before after log.now rest.old }
    ensures words { rest.new ≡ report_words before after log.now rest.old }
{
    outcome::report(before, after, log, rest)
}

// How the next place stands: for each supported entry its T, and U, and which offices are unheard.
#[unsafe(no_mangle)]
pub extern "C" fn joukerpan_standing(office: Record, log: &[u32]) -> Standing
    ensures { result ≡ standing_of office log.now }
{
    standing::next_place(office, log)
}

// The household sheet: class totals of the households that the bytes say, by the settled codes.
#[unsafe(no_mangle)]
pub extern "C" fn joukerpan_sheet(office: Record, log: &[u32], households: &[u8]) -> Sheet
    ensures { result ≡ sheet_of office log.now households.now }
{
    sheet::household_sheet(office, log, households)
}

// The entry that would win the first election step whichever weights within the bounds are chosen, if any.
#[unsafe(no_mangle)]
pub extern "C" fn joukerpan_forecast(
    office: Record,
    log: &[u32],
    lowest: Weights,
    highest: Weights,
) -> Foreseen
    ensures { result ≡ foreseen_of (forecast_of office log.now lowest.of highest.of) }
{
    let low = lowest.of;
    let high = highest.of;
    foreseen(forecast::first_step(office, log, low, high))
}

// The version vectors of the settled log and of each office's path, written to the front of the output.
#[unsafe(no_mangle)]
pub extern "C" fn joukerpan_write_vectors(office: Record, log: &[u32], output: &mut [u8]) -> Written
    ensures answer { result ≡ write_of office log.now output.old }
    ensures output { output.new ≡ write_bytes office log.now output.old }
{
    archive::write(office, log, output)
}

// How the settled log and each office's path stand to a version vector.
#[unsafe(no_mangle)]
pub extern "C" fn joukerpan_compare_vector(office: Record, log: &[u32], vector: &[u8]) -> Compared
    ensures { result ≡ compare_of office log.now vector.now }
{
    archive::compare(office, log, vector)
}
