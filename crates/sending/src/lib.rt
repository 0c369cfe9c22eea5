// Sending the record's message: a call above `frame`.
#![tactic(auto)]

ghost use Rattle.std.specs.Prelude.{◌≡◌};
ghost use Rattle.refusals.specs.Refusals.{number_of};
ghost use Rattle.sending.specs.Sending.{no_message, send_of, send_bytes};

use frame::Record;
use refusals::Refusal;
use writer::Message;

// Of one shape with `archive::Written`: C knows each answer by a type of its own.
// C has it as it lies here, so it holds the number and is no `Result`.
#[repr(C)]
#[derive(Clone, Copy)]
pub struct Sent {
    pub number: u32,
    pub length: usize,
}

impl Sent {
    // Nothing is sent.
    fn refused(why: Refusal) -> Sent
        ensures { result ≡ no_message (number_of why) }
    {
        Sent {
            number: why.number(),
            length: 0,
        }
    }
}

// Send writes the record's message to the output and answers its length.
pub fn send(office: Record, log: &[u32], out: &mut [u8]) -> Sent
    ensures { (result ≡ send_of office log.now out.old) × (out.new ≡ send_bytes office log.now out.old) }
{
    if !office.sound(log) {
        return Sent::refused(Refusal::Unsound);
    }
    let dropped = office.kept.dropped;
    let message = Message {
        sender: office.own,
        n: office.n,
        weights: office.weights,
        dropped,
        log: &log[..(office.settled - dropped) as usize],
        ballots: &office.ballots,
    };
    match message.write(out) {
        None => Sent::refused(Refusal::OutputShort),
        Some(length) => Sent { number: 0, length },
    }
}
