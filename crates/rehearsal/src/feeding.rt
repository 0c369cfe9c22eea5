// Feeding the rehearsal with input.
ghost use Rattle.std.specs.Prelude.{◌≡◌, ◌<◌, ◌≤◌, length, take};
ghost use Rattle.rehearsal_lines.specs.Held.{line_held};
ghost use Rattle.rehearsal_commands.specs.Command.{line_of};
ghost use Rattle.rehearsal_slots.specs.Pieces.{with_piece};
ghost use Rattle.rehearsal_turns.specs.Turns.{turn_at, turn_words, turn_slots};
ghost use Rattle.rehearsal_offices.specs.World.{log_of};
ghost use Rattle.rehearsal.specs.Feeding.{at_first, feeds, finishes, FedAs};

use crate::Rehearsal;
use frame::Record;
use rehearsal_addressees::{Addressee, addressee_of};
use rehearsal_answers::print;
use rehearsal_commands::{Command, line_of};
use rehearsal_lines::Held;
use rehearsal_offices::{found_offices, no_offices};
use rehearsal_replies::question;
use rehearsal_turns::{Turn, turn_at};
use text_parts::part_end;

// The rehearsal after some input, and how many bytes it printed.
#[derive(Clone, Copy)]
pub struct Fed {
    pub rehearsal: Rehearsal,
    pub printed: usize,
}

// What a caller lends: the logs, the slots and the output. Side by side: a struct of three lent arrays would be taken apart at each call.
type Logs = [u32; Rehearsal::LOGS];

type Slots = [u8; Rehearsal::SLOTS];

type Output = [u8; Rehearsal::OUTPUT];

// What the held line says.
fn line_held(held: Held) -> Option<Command>
    ensures { result ≡ line_of (line_held held) }
{
    let size = held.length.min(Held::SIZE);
    line_of(&held.bytes[..size])
}

// The turn of an office that is there, on its own log.
fn office_turn(
    record: Record,
    lengths: [usize; 4],
    k: usize,
    command: Command,
    logs: &mut [u32],
    slots: &mut Slots,
) -> Turn
    requires { (k < 8) × (length logs.old ≡ 8192) }
    ensures value { result ≡ turn_at «record» lengths (log_of logs.old k) slots.old command }
    ensures logs_after { logs.new ≡ with_piece 1024 logs.old k
        (turn_words «record» lengths (log_of logs.old k) slots.old command) }
    ensures slots_after { slots.new ≡ turn_slots «record» (log_of logs.old k) slots.old command }
{
    let from = k * Record::LOG;
    let to = from + Record::LOG;
    turn_at(record, lengths, &mut logs[from..to], slots, command)
}

// Answers each whole line, by a founding, an office's turn or a question mark, and holds what is left. Each byte of the chunk has room for an
// answer. The offices change where they stand: handed to a function for each line and back, all eight records would be copied.
fn feed_all(r: Rehearsal, logs: &mut Logs, slots: &mut Slots, chunk: &[u8], out: &mut Output) -> Fed
    requires { length chunk.now ≤ 8192 }
    ensures { FedAs (feeds r logs.old slots.old chunk.now) out.old result
        logs.new slots.new out.new }
{
    let mut offices = r.offices;
    let mut held = r.held;
    let mut at: usize = 0;
    let mut printed: usize = 0;
    // no `for`: each turn ends one line, and what is left of the chunk begins where that line ended
    loop {
        let end = part_end(chunk, at, b'\n');
        held = held.with(&chunk[at..end]);
        if end >= chunk.len() {
            let rehearsal = Rehearsal { offices, held };
            return Fed { rehearsal, printed };
        }
        let line = line_held(held);
        held = Held::none();
        at = end + 1;
        match addressee_of(offices.count, line) {
            Addressee::All(n, weights) => {
                let reply = found_offices(offices, n, weights, logs);
                offices = reply.offices;
                printed = print(out, printed, reply.answer);
            }
            Addressee::One(k, command) => {
                let record = offices.records[k];
                let turn = office_turn(record, offices.lengths, k, command, logs, slots);
                offices.records[k] = turn.record;
                // a field that is an array is stored from a variable: the check doesn't cover it straight from another field
                let lengths = turn.lengths;
                offices.lengths = lengths;
                printed = print(out, printed, turn.answer);
            }
            Addressee::Nobody => printed = print(out, printed, question()),
        }
    }
}

impl Rehearsal {
    // No office, empty slots, no line.
    pub fn new() -> Rehearsal
        ensures { result ≡ at_first }
    {
        Rehearsal {
            offices: no_offices(),
            held: Held::none(),
        }
    }

    // Feeds the first `used` bytes of the chunk: answers each line that ends there, and holds what is left of the last one.
    // The eight logs and the four slots are lent; what is printed stands at the output's front.
    pub fn feed(
        self,
        logs: &mut Logs,
        slots: &mut Slots,
        chunk: &[u8; Rehearsal::CHUNK],
        used: usize,
        out: &mut Output,
    ) -> Fed
        ensures { FedAs (feeds self logs.old slots.old (take used chunk.now)) out.old result
            logs.new slots.new out.new }
    {
        let size = used.min(Rehearsal::CHUNK);
        feed_all(self, logs, slots, &chunk[..size], out)
    }

    // The end of the input: a line that is held lacks its newline, and is answered.
    pub fn finish(self, logs: &mut Logs, slots: &mut Slots, out: &mut Output) -> Fed
        ensures { FedAs (finishes self logs.old slots.old) out.old result
            logs.new slots.new out.new }
    {
        if self.held.is_none() {
            return Fed {
                rehearsal: Rehearsal {
                    held: Held::none(),
                    ..self
                },
                printed: 0,
            };
        }
        feed_all(self, logs, slots, &[b'\n'], out)
    }
}
