// What the rehearsal prints for a line: a letter and up to three items, a number in decimal or a dash.
#![tactic(auto)]

ghost use Rattle.std.specs.Prelude.{◌+◌, ◌≤◌, length};
ghost use Rattle.printing.specs.Printing.{Puts};
ghost use Rattle.rehearsal_answers.specs.Answer.{spaced, dashed, spaced_item, printed_of, printed_in};

use printing::put_number;

// A number, a dash where there is none to print, or no item at all: three cases, so no `Option`.
#[derive(Clone, Copy)]
pub enum Item {
    Number(usize),
    Dash,
    Nothing,
}

// A letter and the items after it.
#[derive(Clone, Copy)]
pub struct Answer {
    pub letter: u8,
    pub first: Item,
    pub second: Item,
    pub third: Item,
}

impl Answer {
    // The most bytes that an answer takes, its newline counted.
    pub const SIZE: usize = 65;
}

// Each item has room for a space and 20 digits, which `print` tests once for the whole answer; so three contracts say it.
// Writes a space and the number.
fn put_spaced(out: &mut [u8], at: usize, n: usize) -> usize
    requires { at + 21 ≤ length out.old }
    ensures { Puts out.old at (spaced n) result out.new }
{
    out[at] = b' ';
    put_number(out, at + 1, n)
}

// Writes a space and a dash.
fn put_dash(out: &mut [u8], at: usize) -> usize
    requires { at + 21 ≤ length out.old }
    ensures { Puts out.old at dashed result out.new }
{
    out[at] = b' ';
    out[at + 1] = b'-';
    at + 2
}

// Writes an item.
fn put_item(out: &mut [u8], at: usize, item: Item) -> usize
    requires { at + 21 ≤ length out.old }
    ensures { Puts out.old at (spaced_item item) result out.new }
{
    match item {
        Item::Number(n) => put_spaced(out, at, n),
        Item::Dash => put_dash(out, at),
        Item::Nothing => at,
    }
}

// Writes an answer and its newline, and answers the place behind them. No `Display`: as with numbers, the output is lent and there is no heap.
fn put_answer(out: &mut [u8], at: usize, answer: Answer) -> usize
    requires { at + 65 ≤ length out.old }
    ensures { Puts out.old at (printed_of answer) result out.new }
{
    out[at] = answer.letter;
    let behind = put_item(out, at + 1, answer.first);
    let next = put_item(out, behind, answer.second);
    let last = put_item(out, next, answer.third);
    out[last] = b'\n';
    last + 1
}

// The same where there is room for the longest answer, which the rehearsal keeps for each line; where there is not, it writes nothing.
pub fn print(out: &mut [u8], at: usize, answer: Answer) -> usize
    ensures { Puts out.old at (printed_in (length out.old) at answer) result out.new }
{
    if out.len() < Answer::SIZE {
        return at;
    }
    if at > out.len() - Answer::SIZE {
        return at;
    }
    put_answer(out, at, answer)
}
