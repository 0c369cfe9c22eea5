// `ballot_tables` reads three weights from standard input and prints every small ballot table of three offices, one to a line, with the entries
// that elect settles.
#![tactic(auto)]

ghost use Rattle.std.specs.Prelude.{◌≤◌};

use std::io;
use std::io::Read;
use table_lines::OUTPUT;

// Writes the output's first bytes. No more are printed than it has (`answer-short`), so `min` takes none away.
// `rehearse` has the same for an output of its own size: for these lines a library that both share is no plainer.
fn show(rt: &impl Print, out: &[u8; OUTPUT], count: usize) -> io::Result<()> {
    let size = count.min(OUTPUT);
    rt.write_all(&out[..size])
}

// Reads until the bytes are full, the input ends or a read fails: how many came, and how the reads went.
fn fill(rt: &impl Input, input: &mut [u8; 19]) -> (usize, io::Result<()>)
    ensures { result.0 ≤ 19 }
{
    let mut reader = rt.reader();
    let mut used = 0;
    // no `for`: it reads until the bytes are full, and only each read says how many came
    while used < 19 {
        match reader.read(&mut input[used..]) {
            Ok(0) => break,
            Ok(got) => used += got,
            Err(failed) => return (used, Err(failed)),
        }
    }
    (used, Ok(()))
}

// It reads one byte more than three weights take with their spaces and a newline: the answer to these bytes is the answer to the whole input
// (`input-cut`). Where a read fails it answers what came before, and then ends with that failure.
fn main(rt: HostRuntime) -> io::Result<()> {
    let mut input = [0u8; 19];
    let (used, read) = fill(&rt, &mut input);
    let mut out = [0u8; OUTPUT];
    let count = table_lines::answer(&input[..used], &mut out);
    show(&rt, &out, count)?;
    read
}
