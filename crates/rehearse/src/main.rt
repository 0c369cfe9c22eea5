// `rehearse` reads a rehearsal from standard input and prints its answers: it reads large pieces to the input's end, and answers what it has
// read before it reads on, so that it serves a terminal and a pipe alike.
#![tactic(auto)]

use rehearsal::Rehearsal;
use std::io;
use std::io::Read;

// Writes the output's first bytes. No more are printed than it has (`feeds-short`, `finishes-short`), so `min` takes none away.
// `ballot_tables` has the same for an output of its own size: for these lines a library that both share is no plainer.
fn show(rt: &impl Print, out: &[u8; Rehearsal::OUTPUT], count: usize) -> io::Result<()> {
    let size = count.min(Rehearsal::OUTPUT);
    rt.write_all(&out[..size])
}

// Reads once and answers what came, and hands back the rehearsal to read on with; at the input's end, or where a read fails, it answers what is
// held, and hands back none.
fn serve(
    rt: &impl Print,
    reader: &mut impl Read,
    rehearsal: Rehearsal,
    logs: &mut [u32; Rehearsal::LOGS],
    slots: &mut [u8; Rehearsal::SLOTS],
    chunk: &mut [u8; Rehearsal::CHUNK],
    out: &mut [u8; Rehearsal::OUTPUT],
) -> io::Result<Option<Rehearsal>> {
    let got = reader.read(chunk);
    if let Ok(used) = got
        && used > 0
    {
        let fed = rehearsal.feed(logs, slots, chunk, used, out);
        show(rt, out, fed.printed)?;
        return Ok(Some(fed.rehearsal));
    }
    let last = rehearsal.finish(logs, slots, out);
    show(rt, out, last.printed)?;
    got?;
    Ok(None)
}

// Answers a rehearsal from standard input, to its end. A proved loop has to end, and nothing says that an input does: the loop has more turns
// than any run uses up.
fn main(rt: HostRuntime) -> io::Result<()> {
    let mut reader = rt.reader();
    let mut logs = [0u32; Rehearsal::LOGS];
    let mut slots = [0u8; Rehearsal::SLOTS];
    let mut chunk = [0u8; Rehearsal::CHUNK];
    let mut out = [0u8; Rehearsal::OUTPUT];
    let mut rehearsal = Rehearsal::new();
    for _ in 0..u64::MAX {
        let Some(next) = serve(
            &rt,
            &mut reader,
            rehearsal,
            &mut logs,
            &mut slots,
            &mut chunk,
            &mut out,
        )?
        else {
            break;
        };
        rehearsal = next;
    }
    Ok(())
}
