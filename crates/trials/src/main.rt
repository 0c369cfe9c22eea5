// Answers a script of trials from standard input: any record, log, output and message, and one call at a time. docs/TRIALS.md has the language.
#![tactic(auto)]

mod calling;
mod setting;

use setting::Trial;
use std::io;
use std::io::Read;
use trial_lines::Line;

// Answers a whole line: a small letter sets a part of the state, another makes a call.
fn answer(
    rt: &impl Print,
    trial: Trial,
    line: Line,
    log: &mut [u32],
    output: &mut [u8],
    message: &mut [u8],
) -> io::Result<Trial> {
    let whole = Line {
        first: line.numbers[1],
        second: line.numbers[2],
        ..line
    };
    if line.letter < b'a' {
        return calling::call(rt, trial, whole, log, output, message);
    }
    setting::set(rt, trial, whole, log, output, message)
}

// Reads to the end. A proved loop has to end, and nothing says that the input does: the loop has more turns than any run uses up.
fn main(rt: HostRuntime) -> io::Result<()> {
    let mut reader = rt.reader();
    let mut log = [0u32; 1100];
    let mut output = [0u8; 7100];
    let mut message = [0u8; 7100];
    let mut bytes = [0u8; 65536];
    let mut trial = setting::start();
    let mut line = Line::none();
    for _ in 0..u64::MAX {
        let count = reader.read(&mut bytes)?;
        if count == 0 {
            break;
        }
        for byte in &bytes[..count] {
            if *byte != b'\n' {
                line = line.with(*byte);
                continue;
            }
            trial = answer(&rt, trial, line, &mut log, &mut output, &mut message)?;
            line = Line::none();
        }
    }
    Ok(())
}
