// The lines that set the state and print nothing.
use frame::Record;
use std::io;
use trial_lines::{Line, put};

// The record, and how long the log, the output and the message are.
// The lengths stand by themselves, since the three are lent arrays of a fixed size: no heap.
#[derive(Clone, Copy)]
pub struct Trial {
    pub record: Record,
    pub words: usize,
    pub output: usize,
    pub message: usize,
}

// As at the start.
pub fn start() -> Trial {
    Trial {
        record: trial_records::none(),
        words: 0,
        output: 0,
        message: 0,
    }
}

// The message's bytes are those of the output.
fn copy(output: &[u8], message: &mut [u8]) {
    let size = output.len().min(message.len());
    message[..size].copy_from_slice(&output[..size]);
}

// Prints that a line is not taken.
fn refuse(rt: &impl Print) -> io::Result<()> {
    rt.write_all(b"?\n")
}

// Where what was written ends; as before where it is not taken.
fn taken(rt: &impl Print, end: Option<usize>, before: usize) -> io::Result<usize> {
    if end.is_none() {
        refuse(rt)?;
    }
    Ok(end.unwrap_or(before))
}

// Makes so many bytes of the output the message, and answers how many there are in it; as before where the output has fewer.
fn hand_over(
    rt: &impl Print,
    trial: Trial,
    size: u64,
    output: &[u8],
    message: &mut [u8],
) -> io::Result<usize> {
    if size > trial.output as u64 {
        refuse(rt)?;
        return Ok(trial.message);
    }
    copy(output, message);
    Ok(size as usize)
}

// The record with what the line says, if it is taken.
fn set_record(rt: &impl Print, before: Record, line: Line) -> io::Result<Record> {
    if trial_records::fits(line) {
        return Ok(trial_records::set(before, line));
    }
    refuse(rt)?;
    Ok(before)
}

// A `match` on the letter: each has a list and a place of its own, so a table of closures would be no plainer.
// Writes what the line says, or prints that it is not taken.
pub fn set(
    rt: &impl Print,
    trial: Trial,
    line: Line,
    log: &mut [u32],
    output: &mut [u8],
    message: &mut [u8],
) -> io::Result<Trial> {
    let first = line.first;
    let words = trial.words.min(log.len());
    let size = trial.message.min(message.len());
    let mut next = trial;
    match line.letter {
        b'd' => return Ok(start()),
        b'l' => next.words = taken(rt, put(line, 2, first, 0, log), trial.words)?,
        b'w' => {
            taken(rt, put(line, 2, 1, first, &mut log[..words]), 0)?;
        }
        b'o' => next.output = taken(rt, put(line, 2, first, 0, output), trial.output)?,
        b'm' => next.message = taken(
            rt,
            put(line, 2, first, trial.message as u64, message),
            trial.message,
        )?,
        b'x' => {
            taken(rt, put(line, 2, 1, first, &mut message[..size]), 0)?;
        }
        b'c' => next.message = taken(
            rt,
            put(line, 1, 0, first, &mut message[..size]),
            trial.message,
        )?,
        b'g' => next.message = hand_over(rt, trial, first, output, message)?,
        _ => next.record = set_record(rt, trial.record, line)?,
    }
    Ok(next)
}
