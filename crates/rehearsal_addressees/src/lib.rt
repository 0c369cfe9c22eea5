// Whom a line is for: all offices, one that is there, or nobody.
#![tactic(auto)]

ghost use Rattle.std.specs.Prelude.{◌≡◌};
ghost use Rattle.rehearsal_addressees.specs.Addressees.{at_office, command_addressee, addressee_of};

use limits::OFFICES;
use rehearsal_commands::Command;

// Three cases, so no `Option`.
#[derive(Clone, Copy)]
pub enum Addressee {
    // a founding of so many offices, with these weights
    All(usize, [u16; 8]),
    // an office that is there, and its command
    One(usize, Command),
    Nobody,
}

// The office, if it is there. There are records for eight.
fn at_office(count: usize, k: usize, command: Command) -> Addressee
    ensures { result ≡ at_office count k command }
{
    if k < count && k < OFFICES {
        return Addressee::One(k, command);
    }
    Addressee::Nobody
}

// A founding is everyone's, any other command its office's.
fn command_addressee(count: usize, command: Command) -> Addressee
    ensures { result ≡ command_addressee count command }
{
    match command {
        Command::Found(n, weights) => Addressee::All(n, weights),
        Command::Issue(k, _, _)
        | Command::Send(k, _)
        | Command::Take(k, _)
        | Command::Elect(k)
        | Command::View(k, _) => at_office(count, k, command),
    }
}

// Whom the line is for; a line of any other form is for nobody.
pub fn addressee_of(count: usize, parsed: Option<Command>) -> Addressee
    ensures { result ≡ addressee_of count parsed }
{
    let Some(command) = parsed else {
        return Addressee::Nobody;
    };
    command_addressee(count, command)
}
