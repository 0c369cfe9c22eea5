// One office's turn: its answer to a command, with what that leaves of its record, its log and the message slots.
#![tactic(auto)]

ghost use Rattle.std.specs.Prelude.{◌≡◌, ◌<◌, length};
ghost use Rattle.frame.specs.Electing.{elect_words};
ghost use Rattle.rehearsal_turns.specs.Turns.{stay, issue_turn, send_turn, send_slots, take_turn, take_turn_words, elect_turn, view_turn, turn_at, turn_words, turn_slots};

use frame::Record;
use rehearsal_answers::Answer;
use rehearsal_commands::Command;
use rehearsal_replies::{question, says_frames, says_one, says_two};
use rehearsal_slots::{ALL_SLOTS, SLOT, SLOTS, sent_lengths};

// The record and the lengths of the slots' messages after the turn, and the answer. The turns below take the record and the lengths by value and hand
// them back here, and the log and the slots are lent: a struct of all four is no plainer.
#[derive(Clone, Copy)]
pub struct Turn {
    pub record: Record,
    pub lengths: [usize; 4],
    pub answer: Answer,
}

// Nothing changes, and the answer is a question mark.
fn stay(record: Record, lengths: [usize; 4]) -> Turn
    ensures { result ≡ stay «record» lengths }
{
    Turn {
        record,
        lengths,
        answer: question(),
    }
}

// `i k line code` issues at the office.
fn issue_turn(record: Record, lengths: [usize; 4], log: &[u32], line: u32, code: u32) -> Turn
    ensures { result ≡ issue_turn «record» lengths log.now line code }
{
    let issued = issuing::issue(record, log, line, code);
    Turn {
        record: issued.record,
        lengths,
        answer: says_one(b'i', issued.number),
    }
}

// `s k m` sends the office's message into a slot that is there.
fn send_turn(record: Record, lengths: [usize; 4], log: &[u32], slots: &mut [u8], m: usize) -> Turn
    requires { (m < 4) × (length slots.old ≡ 28184) }
    ensures turn { result ≡ send_turn «record» lengths log.now slots.old m }
    ensures sent { slots.new ≡ send_slots «record» log.now slots.old m }
{
    let from = m * SLOT;
    let to = from + SLOT;
    let sent = sending::send(record, log, &mut slots[from..to]);
    Turn {
        record,
        lengths: sent_lengths(lengths, m, sent.number, sent.length),
        answer: says_two(b's', sent.number, sent.length),
    }
}

// `t k m` takes the message of a slot that is there.
fn take_turn(record: Record, lengths: [usize; 4], log: &mut [u32], slots: &[u8], m: usize) -> Turn
    requires { (m < 4) × (length slots.now ≡ 28184) }
    ensures turn { result ≡ take_turn «record» lengths log.old slots.now m }
    ensures words { log.new ≡ take_turn_words «record» lengths log.old slots.now m }
{
    let from = m * SLOT;
    let size = lengths[m].min(SLOT);
    let to = from + size;
    let taken = taking::take(record, log, &slots[from..to]);
    Turn {
        record: taken.record,
        lengths,
        answer: says_one(b't', taken.number),
    }
}

// `e k` elects at the office.
fn elect_turn(record: Record, lengths: [usize; 4], log: &mut [u32]) -> Turn
    ensures { (result ≡ elect_turn «record» lengths log.old) × (log.new ≡ elect_words «record» log.old) }
{
    let elected = record.elect(log);
    Turn {
        record: elected.record,
        lengths,
        answer: says_two(b'e', elected.number, elected.count),
    }
}

// `v k line` views both frames.
fn view_turn(record: Record, lengths: [usize; 4], log: &[u32], line: u32) -> Turn
    ensures { result ≡ view_turn «record» lengths log.now line }
{
    let settled = both_frames::settled_frame(record, log, line);
    let tentative = both_frames::tentative_frame(record, log, line);
    let number = match settled {
        Ok(_) => 0,
        Err(refusal) => refusal.number(),
    };
    let answer = says_frames(
        b'v',
        number,
        settled.unwrap_or(None),
        tentative.unwrap_or(None),
    );
    Turn {
        record,
        lengths,
        answer,
    }
}

// The office's turn by the command; a slot that isn't there is a question mark.
pub fn turn_at(
    record: Record,
    lengths: [usize; 4],
    log: &mut [u32],
    slots: &mut [u8; ALL_SLOTS],
    command: Command,
) -> Turn
    ensures value { result ≡ turn_at «record» lengths log.old slots.old command }
    ensures log_after { log.new ≡ turn_words «record» lengths log.old slots.old command }
    ensures slots_after { slots.new ≡ turn_slots «record» log.old slots.old command }
{
    match command {
        Command::Found(..) => stay(record, lengths),
        Command::Issue(_, line, code) => issue_turn(record, lengths, log, line, code),
        Command::Send(_, m) => {
            if m < SLOTS {
                send_turn(record, lengths, log, slots, m)
            } else {
                stay(record, lengths)
            }
        }
        Command::Take(_, m) => {
            if m < SLOTS {
                take_turn(record, lengths, log, slots, m)
            } else {
                stay(record, lengths)
            }
        }
        Command::Elect(_) => elect_turn(record, lengths, log),
        Command::View(_, line) => view_turn(record, lengths, log, line),
    }
}
