// Both frames: the settled and the tentative one of a line, and the settled one of all lines. Calls above `frame`, which use only what it promises.
#![tactic(auto)]

ghost use Rattle.std.specs.Prelude.{◌≡◌};
ghost use Rattle.both_frames.specs.Framed.{framed_of};
ghost use Rattle.both_frames.specs.Frames.{code_held, settled_frame_of, tentative_frame_of, all_lines_of};

use frame::Record;
use refusals::Refusal;
use shown_edits::stored_edit;

// The settled codes as they are stored.
// C has it as it lies here, so it holds the number and is no `Result`.
#[repr(C)]
#[derive(Clone, Copy)]
pub struct Lines {
    pub number: u32,
    pub codes: [u32; 64],
}

// The settled frame of all 64 lines: the codes that the record holds, once it is found sound; no edit yet for each where it is refused.
pub fn all_lines(office: Record, log: &[u32]) -> Lines
    ensures { result ≡ all_lines_of office log.now }
{
    if !office.sound(log) {
        return Lines {
            number: Refusal::Unsound.number(),
            codes: [0; 64],
        };
    }
    let codes = office.summary.codes;
    Lines { number: 0, codes }
}

// The code that the record holds for the line, as it is stored, once it is found sound.
fn code_held(office: Record, log: &[u32], line: u32) -> Result<u32, Refusal>
    ensures { result ≡ code_held office log.now line }
{
    if !office.sound(log) {
        return Err(Refusal::Unsound);
    }
    if line >= Record::LINES {
        return Err(Refusal::NoEntry);
    }
    Ok(office.summary.codes[line as usize])
}

// The code of the last entry for the line in the settled log, or no edit yet.
pub fn settled_frame(office: Record, log: &[u32], line: u32) -> Result<Option<u32>, Refusal>
    ensures { framed_of result ≡ settled_frame_of office log.now line }
{
    let code = code_held(office, log, line)?;
    Ok(stored_edit(code))
}

// The code of the last entry for the line in the own path, or no edit yet.
pub fn tentative_frame(office: Record, log: &[u32], line: u32) -> Result<Option<u32>, Refusal>
    ensures { framed_of result ≡ tentative_frame_of office log.now line }
{
    let base = code_held(office, log, line)?;
    let ballot = office.ballots[office.own];
    let last = last_edits::last_edit(&ballot.cells[..ballot.len], line, base);
    Ok(stored_edit(last))
}
