// The rehearsal's commands: what one line of input asks for.
#![tactic(auto)]

ghost use Rattle.std.specs.Prelude.{◌≡◌};
ghost use Rattle.rehearsal_commands.specs.Command.{command_by, line_from, line_of};

use decimal::{Numbers, number_of, numbers_from};
use text_parts::part_end;

// A command with its numbers.
#[derive(Clone, Copy)]
pub enum Command {
    // n and its weights, "the rest zero"
    Found(usize, [u16; 8]),
    // office, line, code
    Issue(usize, u32, u32),
    // office, slot
    Send(usize, usize),
    // office, slot
    Take(usize, usize),
    // office
    Elect(usize),
    // office, line
    View(usize, u32),
}

// The command of a letter, its first number and its further numbers, none where these are not its numbers.
fn command_by(letter: u8, first: u16, more: Numbers) -> Option<Command>
    ensures { result ≡ command_by letter first more.count more.cells }
{
    let k = usize::from(first);
    match (letter, more.count) {
        (b'f', _) => Some(Command::Found(k, more.cells)),
        (b'e', 0) => Some(Command::Elect(k)),
        (b's', 1) => Some(Command::Send(k, usize::from(more.cells[0]))),
        (b't', 1) => Some(Command::Take(k, usize::from(more.cells[0]))),
        (b'v', 1) => Some(Command::View(k, u32::from(more.cells[0]))),
        (b'i', 2) => Some(Command::Issue(k, u32::from(more.cells[0]), u32::from(more.cells[1]))),
        _ => None,
    }
}

// The command of a letter and the numbers behind it. By document 01 parsed numbers are taken apart by `let .. else`, and not by `?`.
fn line_from(letter: u8, rest: &[u8]) -> Option<Command>
    ensures { result ≡ line_from letter rest.now }
{
    let end = part_end(rest, 0, b' ');
    let Some(first) = number_of(Numbers::MOST, &rest[..end]) else {
        return None;
    };
    let Some(more) = numbers_from(rest, end + 1) else {
        return None;
    };
    command_by(letter, first as u16, more)
}

// What a line says: "lines of at most 128 bytes, single spaces, decimal numbers up to 65535 with no leading zeros". None is a line of any other
// form.
pub fn line_of(bytes: &[u8]) -> Option<Command>
    ensures { result ≡ line_of bytes.now }
{
    match bytes {
        [letter, b' ', rest @ ..] if bytes.len() <= 128 => line_from(*letter, rest),
        _ => None,
    }
}
