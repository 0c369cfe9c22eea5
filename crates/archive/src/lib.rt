// Version vectors for the archive: those of an office's settled log and paths written, and one read and compared with them. A library above
// `frame`, which uses only what frame's calls promise.
#![tactic(auto)]

ghost use Rattle.std.specs.Prelude.{◌≡◌, take};
ghost use Rattle.refusals.specs.Refusals.{number_of};
ghost use Rattle.frame.specs.Soundness.{Sound};
ghost use Rattle.frame.specs.State.{held_length};
ghost use Rattle.archive.specs.Comparison.{compare_of, no_answers};
ghost use Rattle.archive.specs.Writing.{no_vectors, write_of, write_bytes};

use frame::Record;
use refusals::Refusal;
use vectors::Versions;

// `number` is the paper's, 0 when it is done; `length` is 0 where it is refused.
// `sending::Sent` is of one shape with it, and its `refused` too: C knows each answer by a type of its own.
// C has it as it lies here, so it holds the number and is no `Result`.
#[repr(C)]
#[derive(Clone, Copy)]
pub struct Written {
    pub number: u32,
    pub length: usize,
}

impl Written {
    // Nothing is written.
    fn refused(why: Refusal) -> Written
        ensures { result ≡ no_vectors (number_of why) }
    {
        Written {
            number: why.number(),
            length: 0,
        }
    }
}

// Nine answers: for the settled log, for the path of each office, and beside past the last. They are the numbers of `versions`.
// C has it as it lies here, so it holds the number and is no `Result`.
#[repr(C)]
#[derive(Clone, Copy)]
pub struct Compared {
    pub number: u32,
    pub answers: [u32; 9],
}

impl Compared {
    // Nothing is compared.
    fn refused(why: Refusal) -> Compared
        ensures { result ≡ no_answers (number_of why) }
    {
        Compared {
            number: why.number(),
            answers: [versions::number(None); 9],
        }
    }
}

// The versions of an office: its log without the dropped entries, and its offices' paths.
fn versions_of<'a>(office: &'a Record, log: &'a [u32]) -> Versions<'a>
    requires { Sound office.now log.now }
    ensures { (result.n ≡ office.now.n) × ((result.start ≡ office.now.kept.counts) × ((result.log.now ≡ take (held_length office.now) log.now)
        × (result.ballots.now ≡ office.now.ballots))) }
{
    let held = (office.settled - office.kept.dropped) as usize;
    Versions {
        n: office.n,
        start: office.kept.counts,
        log: &log[..held],
        ballots: &office.ballots,
    }
}

// Writes the vectors of the settled log and then of the n offices' paths to the output, and answers their length.
pub fn write(office: Record, log: &[u32], out: &mut [u8]) -> Written
    ensures answer { result ≡ write_of office log.now out.old }
    ensures output { out.new ≡ write_bytes office log.now out.old }
{
    if !office.sound(log) {
        return Written::refused(Refusal::Unsound);
    }
    let versions = versions_of(&office, log);
    match versions.write(out) {
        None => Written::refused(Refusal::OutputShort),
        Some(length) => Written { number: 0, length },
    }
}

// Reads a vector, and answers how the settled log, and then each path, stands to it.
pub fn compare(office: Record, log: &[u32], vector: &[u8]) -> Compared
    ensures { result ≡ compare_of office log.now vector.now }
{
    if !office.sound(log) {
        return Compared::refused(Refusal::Unsound);
    }
    if !versions::is_vector(vector, office.n) {
        return Compared::refused(Refusal::NoVector);
    }
    Compared {
        number: 0,
        answers: versions::answers(&versions_of(&office, log), vector),
    }
}
