// What an answer says: a letter and its numbers, what both frames show, or a question mark.
#![tactic(auto)]

ghost use Rattle.std.specs.Prelude.{◌≡◌};
ghost use Rattle.rehearsal_replies.specs.Answers.{says_one, says_two, item_of, says_frames, question};

use rehearsal_answers::{Answer, Item};

// A letter and the number given.
pub fn says_one(letter: u8, number: u32) -> Answer
    ensures { result ≡ says_one letter number }
{
    Answer {
        letter,
        first: Item::Number(number as usize),
        second: Item::Nothing,
        third: Item::Nothing,
    }
}

// A letter, the number given and one more.
pub fn says_two(letter: u8, number: u32, x: usize) -> Answer
    ensures { result ≡ says_two letter number x }
{
    Answer {
        letter,
        first: Item::Number(number as usize),
        second: Item::Number(x),
        third: Item::Nothing,
    }
}

// What a frame shows: a code, or a dash for no edit yet.
fn item_of(edit: Option<u32>) -> Item
    ensures { result ≡ item_of edit }
{
    match edit {
        Some(code) => Item::Number(code as usize),
        None => Item::Dash,
    }
}

// A letter, the number given and what both frames show.
pub fn says_frames(letter: u8, number: u32, settled: Option<u32>, tentative: Option<u32>) -> Answer
    ensures { result ≡ says_frames letter number settled tentative }
{
    let first = Item::Number(number as usize);
    let second = item_of(settled);
    let third = item_of(tentative);
    Answer {
        letter,
        first,
        second,
        third,
    }
}

// The question mark.
pub fn question() -> Answer
    ensures { result ≡ question }
{
    Answer {
        letter: b'?',
        first: Item::Nothing,
        second: Item::Nothing,
        third: Item::Nothing,
    }
}
