// An entry as a 32-bit word: its value, and the parts of a word.
#![tactic(auto)]

ghost use Rattle.std.specs.Prelude.{◌≡◌, ◌<◌};
ghost use Rattle.protocol.specs.Entry.{value, office_of, line_of, code_of};

// The value of the entry (office, line, code).
pub fn pack(office: u8, line: u8, code: u16) -> u32
    ensures { result ≡ value office line code }
{
    u32::from(office) * 16777216 + u32::from(line) * 65536 + u32::from(code)
}

// The parts of a word.
pub fn office_of(word: u32) -> usize
    ensures { (result ≡ office_of word) × (result < 256) }
{
    (word / 16777216) as usize
}

pub fn line_of(word: u32) -> usize
    ensures { (result ≡ line_of word) × (result < 256) }
{
    (word / 65536 % 256) as usize
}

pub fn code_of(word: u32) -> u16
    ensures { (result ≡ code_of word) × (result < 65536) }
{
    (word % 65536) as u16
}
