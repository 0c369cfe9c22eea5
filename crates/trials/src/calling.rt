// The lines that call, and what each call answers.
use crate::setting::Trial;
use frame::Record;
use refusals::Refusal;
use std::io;
use tabulation::Row;
use trial_digests::{of_record, with, with_all, with_bytes};
use trial_lines::{Line, LowPart, weights};

// Prints a space and a number.
fn print(rt: &impl Print, number: u64) -> io::Result<()> {
    print!(rt; " {number}")
}

// Prints a call's number and another behind it.
fn tell(rt: &impl Print, number: u32, more: u64) -> io::Result<()> {
    print!(rt; " {number} {more}")
}

// What a frame shows, or a forecast names: 0 for none, else the number + 1.
fn stored(number: Option<u32>) -> u64 {
    number.map_or(0, |number| u64::from(number) + 1)
}

// Prints a frame's number and what it shows, or a forecast's and what it names.
fn tell_frame(rt: &impl Print, framed: Result<Option<u32>, Refusal>) -> io::Result<()> {
    match framed {
        Ok(edit) => tell(rt, 0, stored(edit)),
        Err(refusal) => tell(rt, refusal.number(), stored(None)),
    }
}

// The digest of the class and the total of each row.
fn rows_digest(rows: &[Row]) -> u64 {
    rows.iter().fold(0, |h, row| {
        with(with(h, u64::from(row.class)), row.total)
    })
}

// Writes the bytes as words.
fn widen(bytes: &[u8], words: &mut [u32]) {
    for (word, byte) in words.iter_mut().zip(bytes) {
        *word = u32::from(*byte);
    }
}

// The log, the output and the message are lent side by side, here, below and in the other files: a struct of three would be taken apart at each call.
// A `match` on the letter, here and below: each call has arguments and an answer of its own, so a table of closures would be no plainer.
// `H`, `C` and `Q`, which read the message, and `U`.
fn look_at(
    rt: &impl Print,
    record: Record,
    line: Line,
    log: &[u32],
    message: &[u8],
) -> io::Result<()> {
    match line.letter {
        b'H' => {
            let made = sheet::household_sheet(record, log, message);
            tell(rt, made.number, made.count as u64)?;
            print(rt, rows_digest(&made.rows[..made.count.min(64)]))
        }
        b'C' => {
            let made = archive::compare(record, log, message);
            tell(rt, made.number, with_all(0, &made.answers))
        }
        b'Q' => {
            let mut lines = [0u32; 7100];
            widen(message, &mut lines);
            let length = message.len().min(lines.len());
            let made = earlier::frame_at(record, log, line.first, &lines[..length]);
            tell(rt, made.number, made.words as u64)?;
            print(rt, with_all(0, &made.edits))
        }
        _ => print(rt, u64::from(record.sound(log))),
    }
}

// `P`, `V`, `A` and `B`.
fn look(
    rt: &impl Print,
    record: Record,
    line: Line,
    log: &[u32],
    message: &[u8],
) -> io::Result<()> {
    match line.letter {
        b'P' => {
            let mut number: u32 = 0;
            let part = settling::settled(record, log, &mut number);
            tell(rt, number, part.len() as u64)?;
            print(rt, with_all(0, part))
        }
        b'V' => {
            let place = u32::low_part(line.first);
            let settled = both_frames::settled_frame(record, log, place);
            tell_frame(rt, settled)?;
            let tentative = both_frames::tentative_frame(record, log, place);
            tell_frame(rt, tentative)
        }
        b'A' => {
            let lines = both_frames::all_lines(record, log);
            tell(rt, lines.number, with_all(0, &lines.codes))
        }
        b'B' => {
            let lowest = weights(line, 1);
            let highest = weights(line, 9);
            tell_frame(rt, forecast::first_step(record, log, lowest, highest))
        }
        _ => look_at(rt, record, line, log, message),
    }
}

// `F`.
fn found(rt: &impl Print, line: Line, log: &[u32]) -> io::Result<Record> {
    let founded = Record::found(
        line.first as usize,
        line.second as usize,
        weights(line, 3),
        log,
    );
    print(rt, u64::from(founded.number))?;
    Ok(founded.record)
}

// `F`, `I`, `S` and `W`: none writes the log.
fn make(
    rt: &impl Print,
    record: Record,
    line: Line,
    log: &[u32],
    output: &mut [u8],
    message: &[u8],
) -> io::Result<Record> {
    match line.letter {
        b'F' => found(rt, line, log),
        b'I' => {
            let place = u32::low_part(line.first);
            let code = u32::low_part(line.second);
            let issued = issuing::issue(record, log, place, code);
            print(rt, u64::from(issued.number))?;
            Ok(issued.record)
        }
        b'S' => {
            let sent = sending::send(record, log, output);
            tell(rt, sent.number, sent.length as u64)?;
            Ok(record)
        }
        b'W' => {
            let written = archive::write(record, log, output);
            tell(rt, written.number, written.length as u64)?;
            Ok(record)
        }
        _ => {
            look(rt, record, line, log, message)?;
            Ok(record)
        }
    }
}

// `E`, `D` and `T`, which write the log, and all others.
fn change(
    rt: &impl Print,
    record: Record,
    line: Line,
    log: &mut [u32],
    output: &mut [u8],
    message: &[u8],
) -> io::Result<Record> {
    match line.letter {
        b'E' => {
            let elected = record.elect(log);
            tell(rt, elected.number, elected.count as u64)?;
            Ok(elected.record)
        }
        b'D' => {
            let folded = folding::fold(record, log);
            tell(rt, folded.number, folded.count)?;
            Ok(folded.record)
        }
        b'T' => {
            let taken = taking::take(record, log, message);
            tell(rt, taken.number, taken.places as u64)?;
            Ok(taken.record)
        }
        _ => make(rt, record, line, log, output, message),
    }
}

// Makes the call, and prints its line.
pub fn call(
    rt: &impl Print,
    trial: Trial,
    line: Line,
    log: &mut [u32],
    output: &mut [u8],
    message: &[u8],
) -> io::Result<Trial> {
    let words = trial.words.min(log.len());
    let room = trial.output.min(output.len());
    let size = trial.message.min(message.len());
    rt.write_all(&[line.letter])?;
    let record = change(
        rt,
        trial.record,
        line,
        &mut log[..words],
        &mut output[..room],
        &message[..size],
    )?;
    let h = with(of_record(record), words as u64);
    print(rt, with_bytes(with_all(h, &log[..words]), &output[..room]))?;
    rt.write_all(b"\n")?;
    Ok(Trial { record, ..trial })
}
